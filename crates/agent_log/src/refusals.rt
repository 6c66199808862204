//! What lines refused for good, as it is told to people.
ghost use Rattle.std.specs.Prelude.{◌≡◌};
ghost use Rattle.agent_log.specs.Refusals.{refusals_of, is_code, code_told, refusals_told};
ghost use Rattle.agent_log.specs.Telling.{Tells};

use crate::journal::Journal;
use crate::station::{Station, number_at};
use call_processing::Exchange;
use mg_bytes::put_decimal;
use std::alloc::Global;

/// The return codes by which a line refused for good what it is asked for, and the deletion of a connection.
#[derive(Clone, Copy)]
pub struct Refusals {
    pub request: Option<u16>,
    pub deletion: Option<u16>,
}

impl Refusals {
    /// It refused nothing.
    pub const NOTHING: Refusals = Refusals {
        request: None,
        deletion: None,
    };
}

/// What a line refuses now; one that there isn't refuses nothing.
pub fn refusals_of(exchange: &Exchange, line: usize) -> Refusals
    ensures { result ≡ refusals_of exchange.now line }
{
    match exchange.line(line) {
        Some(line) => Refusals {
            request: line.refused,
            deletion: line.left,
        },
        None => Refusals::NOTHING,
    }
}

fn is_code(was: Option<u16>, code: u16) -> bool
    ensures { result ≡ is_code was code }
{
    match was {
        Some(was) => was == code,
        None => false,
    }
}

// Tells by which code a line refuses something, where that is new.
#[tactic(auto, using(crate::proofs::TellingLemmas::tells_none, crate::proofs::TellingLemmas::tells_refusal))]
fn tell_code(
    alloc: Global,
    journal: &mut Journal,
    number: &[u8],
    words: &[u8],
    was: Option<u16>,
    is: Option<u16>,
)
    ensures tells { Tells (code_told number.now words.now was is) journal.old.told journal.new.told }
    ensures rest { journal.new ≡ record journal.old { told = journal.new.told } }
{
    let Some(code) = is else {
        return;
    };
    if is_code(was, code) {
        return;
    }
    let mut digits = Vec::new(alloc);
    if put_decimal(alloc, &mut digits, u64::from(code)).is_err() {
        journal.told.refuse();
        return;
    }
    journal.tell(&[b"line ".as_slice(), number, words, digits.as_slice()]);
}

/// Tells what the line at this place refuses for good, which refused otherwise before.
pub fn tell_refusals(
    alloc: Global,
    journal: &mut Journal,
    stations: &[Station],
    line: usize,
    was: Refusals,
    is: Refusals,
)
    ensures tells { Tells (refusals_told stations.now line was is) journal.old.told journal.new.told }
    ensures rest { journal.new ≡ record journal.old { told = journal.new.told } }
{
    let number = number_at(stations, line);
    tell_code(
        alloc,
        journal,
        number,
        b": takes no request: ",
        was.request,
        is.request,
    );
    tell_code(
        alloc,
        journal,
        number,
        b": keeps a connection: ",
        was.deletion,
        is.deletion,
    );
}
