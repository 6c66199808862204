//! Commands that are typed.
ghost use Rattle.std.specs.Prelude.{◌≡◌, ◌++◌, false, IfOk, option_map};
ghost use Rattle.mg_bytes.specs.Lines.{crlf};
ghost use Rattle.agent_gateways.specs.Typed.{held, typed_byte, typed_from, typed_text, typed_in};

use mg_bytes::{Draft, OutOfMemory, lines, words};
use std::alloc::Global;

/// Why a command that was typed isn't issued.
#[derive(Clone, Copy)]
pub enum TypedFault {
    /// Memory was refused.
    OutOfMemory,
    /// All ids were used up.
    NoMoreIds,
    /// With its parameters it isn't a command, or is more than 4,000 bytes long.
    BadCommand,
    /// No gateway has that domain; or there are several, and none is named.
    NoSuchGateway,
    /// Its first line isn't a verb and a name.
    Unknown,
}

/// A command that was typed.
#[derive(Clone, Copy)]
pub struct Typed<'a> {
    pub verb: &'a [u8],
    pub name: &'a [u8],
    /// What stands behind its line.
    pub rest: &'a [u8],
}

fn put_line_end(out: &mut Draft)
    ensures { out.new ≡ out.old ++ crlf }
{
    out.put(b"\r\n");
}

// Puts the backslash that was typed last, where one was: it stands for itself.
fn put_held(out: &mut Draft, is_escaped: bool)
    ensures { out.new ≡ out.old ++ held is_escaped }
{
    if is_escaped {
        out.put(b"\\");
    }
}

// Puts a byte that was typed, behind a backslash or not. It stands for itself, or ends a line; a backslash isn't put before it is known what
// is behind it.
fn put_byte(out: &mut Draft, is_escaped: bool, byte: u8)
    ensures { out.new ≡ out.old ++ typed_byte is_escaped byte }
{
    if is_escaped && byte == b'n' {
        return put_line_end(out);
    }
    put_held(out, is_escaped);
    if byte == b'\n' {
        return put_line_end(out);
    }
    if byte == b'\r' || byte == b'\\' {
        return;
    }
    out.put_byte(byte);
}

// Puts what was typed, with the line ends of a message: a backslash with an n is one too, and any other one stands for itself.
#[tactic(auto, unfolding(crate::specs::Typed::typed_from))]
fn put_typed(out: &mut Draft, text: &[u8])
    ensures { out.new ≡ out.old ++ typed_from false text.now }
{
    let mut is_escaped = false;
    for byte in text {
        put_byte(out, is_escaped, *byte);
        is_escaped = *byte == b'\\';
    }
    put_held(out, is_escaped);
}

/// A command that was typed, and what stands behind its line, with the line ends of a message. An error is for want of memory only.
pub fn typed_text(alloc: Global, line: &[u8], rest: &[u8]) -> Result<Vec<u8>, OutOfMemory>
    ensures { IfOk result (λ text. text.items ≡ typed_text line.now rest.now) }
{
    let mut draft = Draft::new(alloc);
    put_typed(&mut draft, line);
    put_line_end(&mut draft);
    put_typed(&mut draft, rest);
    let mut text = draft.end()?;
    if text.as_slice().ends_with(b"\r\n") {
        return Ok(text);
    }
    // The last line ends, where it doesn't yet.
    text.extend_from_slice(b"\r\n")?;
    Ok(text)
}

/// The command that a text is; none where its first line isn't a verb and a name.
pub(crate) fn typed_in(text: &[u8]) -> Option<Typed<'_>>
    ensures { option_map (λ typed. (typed.verb.now, (typed.name.now, typed.rest.now))) result ≡ typed_in text.now }
{
    let mut left = lines(text);
    let Some(line) = left.next() else {
        return None;
    };
    let mut said = words(line);
    let Some(verb) = said.next() else {
        return None;
    };
    let Some(name) = said.next() else {
        return None;
    };
    match said.next() {
        Some(_) => None,
        None => Some(Typed {
            verb,
            name,
            rest: left.rest(),
        }),
    }
}
