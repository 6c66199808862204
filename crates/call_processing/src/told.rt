//! What a line tells.
ghost use Rattle.std.specs.Prelude.{◌≡◌, ◌++◌, true, IfOk, OnOk, OnErr};
ghost use Rattle.call_processing.specs.Numbers.{last_of, digits_in, digits_told, digits_of, any_digit, told_in, tells_digits};

use crate::number_plan::NumberPlan;
use mg_bytes::{Letter, OutOfMemory, Text};
use packages::{LineEvent, Observed};
use std::alloc::Global;

/// What a line told, or its owner knows of it.
#[derive(Clone, Copy)]
pub enum Told {
    /// `L/hd`
    OffHook,
    /// `L/hu`
    OnHook,
    /// `L/hf`, at which nothing happens.
    Flash,
    /// This line was dialled; none where no line has the number.
    Dialled(Option<usize>),
    /// A signal of the line ended by its time (`L/oc`, `G/oc`): its dial tone, or the ringing of its call. Or its owner's own
    /// time for that is over.
    TimedOut,
    /// Its gateway restarted (RSIP; RFC 3435, 2.3.12): the line rests, and is told all anew. It is to be told of each line.
    Restarted,
    /// It lost its call agent, and has it again (RSIP with `disconnected`; RFC 3435, 4.4.7): what it told last may be lost, so it is
    /// asked anew.
    Disconnected,
}

// The event that was told last.
fn last_of(observed: &[Observed]) -> Option<Observed>
    ensures { result ≡ last_of observed.now }
{
    observed.get(observed.len().saturating_sub(1)).copied()
}

// A key is put behind the digits; the end of the timer is none.
fn put_letter(digits: &mut Vec<u8>, letter: Letter) -> Result<(), OutOfMemory>
    ensures ok { OnOk result (digits.new.items ≡ digits.old.items ++ digits_in letter) }
    ensures memory { OnErr result (any_digit (digits_in letter) ≡ true) }
{
    let byte = letter.byte();
    if byte == b'T' {
        return Ok(());
    }
    digits.push(byte)?;
    Ok(())
}

// The digit that an event is, if it is one, is put behind the digits.
fn put_digit(digits: &mut Vec<u8>, observed: Observed) -> Result<(), OutOfMemory>
    ensures ok { OnOk result (digits.new.items ≡ digits.old.items ++ digits_told observed) }
    ensures memory { OnErr result (any_digit (digits_told observed) ≡ true) }
{
    match observed {
        Observed::Happened(LineEvent::Letter(letter)) => put_letter(digits, letter),
        Observed::Happened(
            LineEvent::OffHook
            | LineEvent::OnHook
            | LineEvent::Flash
            | LineEvent::LineComplete
            | LineEvent::GenericComplete,
        )
        | Observed::Ended(_) => Ok(()),
    }
}

fn put_digits(digits: &mut Vec<u8>, observed: &[Observed]) -> Result<(), OutOfMemory>
    ensures ok { OnOk result (digits.new.items ≡ digits.old.items ++ digits_of observed.now) }
    ensures memory { OnErr result (any_digit (digits_of observed.now) ≡ true) }
{
    for one in observed {
        put_digit(digits, *one)?;
    }
    Ok(())
}

// The digits that were dialled.
fn digits_of(alloc: Global, observed: &[Observed]) -> Result<Text, OutOfMemory>
    ensures digits { IfOk result (λ digits. digits ≡ digits_of observed.now) }
    ensures memory { OnErr result (any_digit (digits_of observed.now) ≡ true) }
{
    let mut digits = Vec::new(alloc);
    put_digits(&mut digits, observed)?;
    Ok(Text::of(digits))
}

/// What the events of one notification tell (the value of its O; RFC 3435, 2.3.4): the last of them counts, and where that is
/// a key or the end of the timer, all keys are what was dialled. `None` where there are no events. An error is for want of
/// memory only, which nothing takes but the keys that were dialled.
pub fn told_in(
    alloc: Global,
    plan: &NumberPlan,
    observed: &[Observed],
) -> Result<Option<Told>, OutOfMemory>
    ensures told { IfOk result (λ told. told ≡ told_in plan.now observed.now) }
    ensures memory { OnErr result (tells_digits observed.now ≡ true) }
{
    match last_of(observed) {
        Some(Observed::Happened(LineEvent::OffHook)) => Ok(Some(Told::OffHook)),
        Some(Observed::Happened(LineEvent::OnHook)) => Ok(Some(Told::OnHook)),
        Some(Observed::Happened(LineEvent::Flash)) => Ok(Some(Told::Flash)),
        Some(Observed::Happened(LineEvent::Letter(_))) => {
            let digits = digits_of(alloc, observed)?;
            Ok(Some(Told::Dialled(plan.line_called(digits.as_bytes()))))
        }
        Some(
            Observed::Happened(LineEvent::LineComplete | LineEvent::GenericComplete)
            | Observed::Ended(_),
        ) => Ok(Some(Told::TimedOut)),
        None => Ok(None),
    }
}
