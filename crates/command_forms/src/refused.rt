//! Why a command is refused, and in words for people.
ghost use Rattle.std.specs.Prelude.{◌≡◌, ◌++◌, IfOk, OnOk};
ghost use Rattle.command_forms.specs.Refusing.{stopped};
ghost use Rattle.command_forms.specs.Explaining.{part_name, part_number, words_from, explanation_of};
ghost use Rattle.mg_bytes.specs.ReturnCode.{code_with};

use mg_bytes::{CodeFault, OutOfMemory, ReturnCode, Text, put_decimal};
use std::alloc::Global;

/// What of a command is at fault.
#[derive(Clone, Copy)]
pub enum FaultyPart {
    /// The verb.
    Verb,
    /// The endpoint's name.
    Name,
    /// The parameter line with this number, from 1.
    Line(usize),
    /// The parameter with this letter, which must be there and isn't.
    Missing(u8),
    /// The value of the parameter with this letter.
    Value(u8),
    /// The description of the remote end.
    Description,
}

/// Why a command is refused.
#[derive(Clone, Copy)]
pub struct Refused {
    /// The return code (RFC 3435, 2.4).
    pub code: u16,
    /// What of the command is at fault.
    pub at: FaultyPart,
}

/// Why the judging of a command stops.
#[derive(Clone, Copy)]
pub enum Stop {
    /// Memory was refused.
    OutOfMemory,
    /// The command is refused.
    AtFault(Refused),
}

impl Stop {
    ghost use Rattle.mg_bytes.specs.ReturnCode.{number_of};
    ghost use Rattle.command_forms.specs.Refusing.{refusal};
    ghost use Rattle.command_forms.specs.declared.refused.Stop.TheVariants as stops;

    /// The stop for this return code at this place.
    pub(crate) fn of(place: FaultyPart, code: ReturnCode) -> Stop
        ensures { result ≡ stops.AtFault (refusal place (number_of code)) }
    {
        Stop::AtFault(Refused {
            code: code.number(),
            at: place,
        })
    }
}

impl From<OutOfMemory> for Stop {
    ghost use Rattle.command_forms.specs.declared.refused.Stop.TheVariants as stops;

    ghost from_gives = { λ _ stop. stop ≡ stops.OutOfMemory };

    fn from(_refused: OutOfMemory) -> Stop {
        Stop::OutOfMemory
    }
}

impl From<Stop> for CodeFault {
    ghost use Rattle.command_forms.specs.Refusing.{stop_fault};

    ghost from_gives = { λ stop fault. fault ≡ stop_fault stop };

    fn from(stop: Stop) -> CodeFault {
        match stop {
            Stop::OutOfMemory => CodeFault::OutOfMemory,
            Stop::AtFault(refused) => CodeFault::Code(refused.code),
        }
    }
}

/// What was read at this place, or the stop for its fault there.
pub(crate) fn placed<A>(place: FaultyPart, read: Result<A, CodeFault>) -> Result<A, Stop>
    ensures { result ≡ stopped place read }
{
    match read {
        Ok(value) => Ok(value),
        Err(CodeFault::OutOfMemory) => Err(Stop::OutOfMemory),
        Err(CodeFault::Code(code)) => Err(Stop::AtFault(Refused { code, at: place })),
    }
}

fn part_name(place: FaultyPart) -> &'static [u8]
    ensures { result.now ≡ part_name place }
{
    match place {
        FaultyPart::Verb => b"verb",
        FaultyPart::Name => b"endpoint name",
        FaultyPart::Line(_) => b"parameter line ",
        FaultyPart::Missing(_) => b"missing parameter ",
        FaultyPart::Value(_) => b"value of parameter ",
        FaultyPart::Description => b"remote description",
    }
}

fn put_part_number(alloc: Global, out: &mut Vec<u8>, place: FaultyPart) -> Result<(), OutOfMemory>
    ensures { OnOk result (out.new.items ≡ out.old.items ++ part_number place) }
{
    match place {
        FaultyPart::Verb | FaultyPart::Name | FaultyPart::Description => {}
        FaultyPart::Line(number) => put_decimal(alloc, out, number as u64)?,
        FaultyPart::Missing(letter) | FaultyPart::Value(letter) => out.push(letter)?,
    }
    Ok(())
}

// What is said of the return code with this number.
fn words_of(number: u16) -> &'static [u8]
    ensures { result.now ≡ words_from (code_with number) }
{
    match ReturnCode::with_number(number) {
        Some(code) => code.words().as_bytes(),
        None => b"",
    }
}

/// One line for people: the return code, its words, and what of the command is at fault, as
/// `510 protocol error: value of parameter R`.
///
/// Its only error is want of memory.
#[tactic(auto, unfolding(crate::specs::Explaining::explanation_of))]
pub fn explain(alloc: Global, refused: &Refused) -> Result<Text, OutOfMemory>
    ensures { IfOk result (λ text. text ≡ explanation_of refused.now) }
{
    let mut out = Vec::new(alloc);
    put_decimal(alloc, &mut out, u64::from(refused.code))?;
    out.push(b' ')?;
    out.extend_from_slice(words_of(refused.code))?;
    out.extend_from_slice(b": ")?;
    out.extend_from_slice(part_name(refused.at))?;
    put_part_number(alloc, &mut out, refused.at)?;
    Ok(Text::of(out))
}
