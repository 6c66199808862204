//! Reads the words of a script's line.
ghost use Rattle.std.specs.Prelude.{◌≡◌, ◌<◌, ◌∷◌, length, IfOk, IfSome, MatchOption, Some, None, option_map};
ghost use Rattle.mg_bytes.specs.Words.{words as words_of};
ghost use Rattle.mg_bytes.specs.Numbers.{decimal_of};
ghost use Rattle.rgw_scripts.specs.Script.{address_of, hex_digit, hex_byte, hex_bytes, raw_step, line_number, wait_of, line_of_two, phone_step, line_of_three, line_in};

use crate::acts::act_of;
use crate::step::{ScriptLine, ScriptStep};
use mg_bytes::{OutOfMemory, Text, decimal, ipv4_address, port_number, split_once, words};
use std::alloc::Global;
use std::net::SocketAddrV4;

// The address that `a.b.c.d:port` spells.
#[tactic(auto, unfolding(crate::specs::Script::address_of))]
fn address_of(text: &[u8]) -> Option<SocketAddrV4>
    ensures { result ≡ address_of text.now }
{
    let (ip, port) = split_once(text, b':')?;
    Some(SocketAddrV4::new(ipv4_address(ip)?, port_number(port)?))
}

fn hex_digit(digit: u8) -> Option<u8>
    ensures value { result ≡ hex_digit digit }
    ensures small { IfSome result (λ d. d < 16) }
{
    match (digit as char).to_digit(16) {
        Some(value) => Some(value as u8),
        None => None,
    }
}

fn hex_byte(high: u8, low: u8) -> Option<u8>
    ensures { result ≡ hex_byte high low }
{
    Some(16 * hex_digit(high)? + hex_digit(low)?)
}

// The first two bytes, and those after them.
fn split_pair(digits: &[u8]) -> Option<(u8, u8, &[u8])>
    ensures { MatchOption result (length digits.now < 2) (λ r. digits.now ≡ r.0 ∷ r.1 ∷ r.2.now) }
{
    match digits {
        [high, low, after @ ..] => Some((*high, *low, after)),
        _ => None,
    }
}

// The bytes that pairs of hexadecimal digits spell.
#[tactic(auto, unfolding(crate::specs::Script::hex_bytes))]
fn hex_bytes(alloc: Global, digits: &[u8]) -> Result<Option<Text>, OutOfMemory>
    ensures { IfOk result (λ found.
        MatchOption found (hex_bytes digits.now ≡ None) (λ bytes. hex_bytes digits.now ≡ Some bytes)) }
{
    let mut bytes = Vec::new(alloc);
    let mut rest = digits;
    while let Some((high, low, after)) = split_pair(rest) {
        let Some(byte) = hex_byte(high, low) else {
            return Ok(None);
        };
        bytes.push(byte)?;
        rest = after;
    }
    if !rest.is_empty() {
        return Ok(None);
    }
    Ok(Some(Text::of(bytes)))
}

fn raw_step(alloc: Global, address: &[u8], digits: &[u8]) -> Result<Option<ScriptLine>, OutOfMemory>
    ensures { IfOk result (λ found.
        MatchOption found (raw_step address.now digits.now ≡ None)
        (λ line. raw_step address.now digits.now ≡ Some line)) }
{
    let Some(source) = address_of(address) else {
        return Ok(None);
    };
    match hex_bytes(alloc, digits)? {
        Some(bytes) => Ok(Some(ScriptLine::Whole {
            step: ScriptStep::Datagram { source, bytes },
        })),
        None => Ok(None),
    }
}

fn from_line(address: &[u8]) -> Option<ScriptLine>
    ensures { result ≡ option_map ScriptLine.From (address_of address.now) }
{
    let source = address_of(address)?;
    Some(ScriptLine::From { source })
}

fn line_number(text: &[u8]) -> Option<u16>
    ensures { result ≡ line_number text.now }
{
    let number = decimal(text)?;
    if number > 65535 {
        return None;
    }
    Some(number as u16)
}

fn wait_of(text: &[u8]) -> Option<u64>
    ensures { result ≡ wait_of text.now }
{
    let by = decimal(text)?;
    if by > 10_000_000 {
        return None;
    }
    Some(by)
}

fn tick_line(text: &[u8]) -> Option<ScriptLine>
    ensures { result ≡ option_map (λ by. ScriptLine.Whole (ScriptStep.Tick by)) (decimal_of text.now) }
{
    let by = decimal(text)?;
    Some(ScriptLine::Whole {
        step: ScriptStep::Tick { by },
    })
}

fn at_line(text: &[u8]) -> Option<ScriptLine>
    ensures { result ≡ option_map (λ moment. ScriptLine.Whole (ScriptStep.At moment)) (decimal_of text.now) }
{
    let moment = decimal(text)?;
    Some(ScriptLine::Whole {
        step: ScriptStep::At { moment },
    })
}

fn wait_line(text: &[u8]) -> Option<ScriptLine>
    ensures { result ≡ option_map (λ by. ScriptLine.Whole (ScriptStep.Wait by)) (wait_of text.now) }
{
    let by = wait_of(text)?;
    Some(ScriptLine::Whole {
        step: ScriptStep::Wait { by },
    })
}

fn show_line(text: &[u8]) -> Option<ScriptLine>
    ensures { result ≡ option_map (λ line. ScriptLine.Whole (ScriptStep.Show line)) (line_number text.now) }
{
    let line = line_number(text)?;
    Some(ScriptLine::Whole {
        step: ScriptStep::Show { line },
    })
}

// A line of two words.
#[tactic(auto, unfolding(crate::specs::Script::line_of_two))]
fn line_of_two(word: &[u8], rest: &[u8]) -> Option<ScriptLine>
    ensures { result ≡ line_of_two word.now rest.now }
{
    if word == b"from".as_slice() {
        from_line(rest)
    } else if word == b"tick".as_slice() {
        tick_line(rest)
    } else if word == b"at".as_slice() {
        at_line(rest)
    } else if word == b"wait".as_slice() {
        wait_line(rest)
    } else if word == b"show".as_slice() {
        show_line(rest)
    } else {
        None
    }
}

fn phone_step(line: &[u8], word: &[u8]) -> Option<ScriptLine>
    ensures { result ≡ phone_step line.now word.now }
{
    let line = line_number(line)?;
    let act = act_of(word)?;
    Some(ScriptLine::Whole {
        step: ScriptStep::Phone { line, act },
    })
}

// A line of three words.
#[tactic(auto, unfolding(crate::specs::Script::line_of_three))]
fn line_of_three(
    alloc: Global,
    word: &[u8],
    first: &[u8],
    second: &[u8],
) -> Result<Option<ScriptLine>, OutOfMemory>
    ensures { IfOk result (λ found.
        MatchOption found (line_of_three word.now first.now second.now ≡ None)
        (λ line. line_of_three word.now first.now second.now ≡ Some line)) }
{
    if word == b"raw".as_slice() {
        raw_step(alloc, first, second)
    } else if word == b"phone".as_slice() {
        Ok(phone_step(first, second))
    } else {
        Ok(None)
    }
}

/// What a line says where no step is open, if it may stand there.
#[tactic(auto, unfolding(crate::specs::Script::line_in))]
pub fn line_in(alloc: Global, line: &[u8]) -> Result<Option<ScriptLine>, OutOfMemory>
    ensures { IfOk result (λ found.
        MatchOption found (line_in (words_of line.now) ≡ None)
        (λ l. line_in (words_of line.now) ≡ Some l)) }
{
    let mut rest = words(line);
    let Some(word) = rest.next() else {
        return Ok(Some(ScriptLine::Empty));
    };
    let Some(first) = rest.next() else {
        return Ok(None);
    };
    let Some(second) = rest.next() else {
        return Ok(line_of_two(word, first));
    };
    if rest.next().is_some() {
        return Ok(None);
    }
    line_of_three(alloc, word, first, second)
}
