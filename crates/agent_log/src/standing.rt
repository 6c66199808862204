//! How lines stand, as it is told to people.
ghost use Rattle.std.specs.Prelude.{◌≡◌};
ghost use Rattle.call_processing.specs.Exchange.{line_of};
ghost use Rattle.agent_log.specs.Telling.{is_caller_in, words_of, call_line, line_line, end_told, standing_told, change_told, Tells};
ghost use Rattle.agent_log.specs.Standings.{stands_for, is_joined, progress_of, standing_of, with_rest, with_change};

use crate::journal::Journal;
use crate::station::{Station, number_at};
use crate::tally::{Tally, count};
use call_processing::{Exchange, Leg, Part, Phase, Side, Tone};
use mg_bytes::put_decimal;
use std::alloc::Global;

/// How far a call has come.
#[derive(Clone, Copy, PartialEq, Eq)]
pub enum Progress {
    /// The called line rings.
    Ringing,
    /// The called line went off hook.
    Answered,
    /// Each end's connection was given the description of the other's.
    Connected,
}

/// How a line stands.
#[derive(Clone, Copy, PartialEq, Eq)]
pub enum Standing {
    Rest,
    Dialling,
    Busy,
    Reorder,
    /// It dialled, and is in this call with the line at this place.
    Caller {
        call: u64,
        other: usize,
        progress: Progress,
    },
    /// It was dialled, and is in a call.
    Called,
}

// Whether a connection stands for this call.
fn stands_for(leg: &Leg, call: u64) -> bool
    ensures { result ≡ stands_for leg.now call }
{
    match leg {
        Leg::Standing { call: of, .. } => *of == call,
        Leg::Absent | Leg::Unknown { .. } => false,
    }
}

// Whether a line's connection for this call was given the description of the other end.
fn is_joined(exchange: &Exchange, line: usize, call: u64) -> bool
    ensures { result ≡ is_joined (line_of exchange.now line) call }
{
    match exchange.line(line) {
        Some(line) => line.joined && stands_for(&line.leg, call),
        None => false,
    }
}

// How far the call of a line has come.
fn progress_of(exchange: &Exchange, line: usize, part: Part) -> Progress
    ensures { result ≡ progress_of exchange.now line part }
{
    if !part.answered {
        return Progress::Ringing;
    }
    if is_joined(exchange, line, part.call) && is_joined(exchange, part.other, part.call) {
        Progress::Connected
    } else {
        Progress::Answered
    }
}

/// How a line stands now; one that there isn't is at rest.
pub fn standing_of(exchange: &Exchange, line: usize) -> Standing
    ensures { result ≡ standing_of exchange.now line }
{
    match exchange.phase(line) {
        None | Some(Phase::Resting) => Standing::Rest,
        Some(Phase::Dialling) => Standing::Dialling,
        Some(Phase::Hearing(Tone::Busy)) => Standing::Busy,
        Some(Phase::Hearing(Tone::Reorder)) => Standing::Reorder,
        Some(Phase::InCall(part)) => match part.side {
            Side::Called => Standing::Called,
            Side::Caller => Standing::Caller {
                call: part.call,
                other: part.other,
                progress: progress_of(exchange, line, part),
            },
        },
    }
}

fn is_caller_in(standing: Standing, call: u64) -> bool
    ensures { result ≡ is_caller_in standing call }
{
    match standing {
        Standing::Caller { call: of, .. } => of == call,
        _ => false,
    }
}

// Counts what became of a line that has no call of its own now.
fn count_rest(tally: &mut Tally, was: Standing, is: Standing)
    ensures { tally.new ≡ with_rest was is tally.old }
{
    match was {
        // Its call is over, before its ends were connected, or behind that.
        Standing::Caller { progress, .. } => match progress {
            Progress::Ringing | Progress::Answered => match is {
                Standing::Reorder => count(&mut tally.failed),
                Standing::Rest
                | Standing::Dialling
                | Standing::Busy
                | Standing::Caller { .. }
                | Standing::Called => count(&mut tally.abandoned),
            },
            Progress::Connected => {}
        },
        // What it dialled led to no call.
        Standing::Dialling => match is {
            Standing::Busy => count(&mut tally.busy),
            Standing::Reorder => count(&mut tally.wrong_number),
            Standing::Rest | Standing::Dialling | Standing::Caller { .. } | Standing::Called => {}
        },
        Standing::Rest | Standing::Busy | Standing::Reorder | Standing::Called => {}
    }
}

// Counts what becomes of a line that stood so: how far a call of its own has come, where it has one now.
fn count_change(tally: &mut Tally, was: Standing, is: Standing)
    ensures { tally.new ≡ with_change was is tally.old }
{
    match is {
        Standing::Caller { progress, .. } => match progress {
            Progress::Ringing => count(&mut tally.calls),
            Progress::Answered => {}
            Progress::Connected => count(&mut tally.set_up),
        },
        Standing::Rest
        | Standing::Dialling
        | Standing::Busy
        | Standing::Reorder
        | Standing::Called => count_rest(tally, was, is),
    }
}

// What is told of a line that stands so, behind its number or its call.
fn words_of(standing: Standing) -> &'static [u8]
    ensures { result.now ≡ words_of standing }
{
    match standing {
        Standing::Rest => b": at rest",
        Standing::Dialling => b": dialling",
        Standing::Busy => b": busy tone",
        Standing::Reorder => b": reorder tone",
        Standing::Caller { progress, .. } => match progress {
            Progress::Ringing => b" ringing",
            Progress::Answered => b" answered",
            Progress::Connected => b" connected",
        },
        Standing::Called => b": called",
    }
}

// Tells how far a call has come.
#[tactic(auto, unfolding(crate::specs::Telling::call_line, crate::specs::Telling::line_of_pieces), using(crate::proofs::TellingLemmas::tells_refusal))]
fn tell_call(
    alloc: Global,
    journal: &mut Journal,
    stations: &[Station],
    call: u64,
    line: usize,
    other: usize,
    words: &[u8],
)
    ensures tells { Tells (call_line stations.now call line other words.now) journal.old.told journal.new.told }
    ensures rest { journal.new ≡ record journal.old { told = journal.new.told } }
{
    let mut number = Vec::new(alloc);
    if put_decimal(alloc, &mut number, call).is_err() {
        journal.told.refuse();
        return;
    }
    journal.tell(&[
        b"call ".as_slice(),
        number.as_slice(),
        b": ".as_slice(),
        number_at(stations, line),
        b" -> ".as_slice(),
        number_at(stations, other),
        words,
    ]);
}

// Tells how a line stands that is in no call.
#[tactic(auto, unfolding(crate::specs::Telling::line_line, crate::specs::Telling::line_of_pieces))]
fn tell_line(journal: &mut Journal, number: &[u8], words: &[u8])
    ensures tells { Tells (line_line number.now words.now) journal.old.told journal.new.told }
    ensures rest { journal.new ≡ record journal.old { told = journal.new.told } }
{
    journal.tell(&[b"line ".as_slice(), number, words]);
}

// Tells that a call of a line is over that stood so, where it is in that no longer.
#[tactic(auto, using(crate::proofs::TellingLemmas::tells_none))]
fn tell_end(
    alloc: Global,
    journal: &mut Journal,
    stations: &[Station],
    line: usize,
    was: Standing,
    is: Standing,
)
    ensures tells { Tells (end_told stations.now line was is) journal.old.told journal.new.told }
    ensures rest { journal.new ≡ record journal.old { told = journal.new.told } }
{
    if let Standing::Caller { call, other, .. } = was
        && !is_caller_in(is, call)
    {
        tell_call(alloc, journal, stations, call, line, other, b" over");
    }
}

// Tells how a line stands now.
#[tactic(auto, using(crate::proofs::TellingLemmas::tells_none))]
fn tell_standing(
    alloc: Global,
    journal: &mut Journal,
    stations: &[Station],
    line: usize,
    is: Standing,
)
    ensures tells { Tells (standing_told stations.now line is) journal.old.told journal.new.told }
    ensures rest { journal.new ≡ record journal.old { told = journal.new.told } }
{
    match is {
        Standing::Caller { call, other, .. } => {
            tell_call(alloc, journal, stations, call, line, other, words_of(is));
        }
        Standing::Called => {}
        _ => tell_line(journal, number_at(stations, line), words_of(is)),
    }
}

/// Tells and counts what became of the line at this place, which stood otherwise before.
#[tactic(auto, using(crate::proofs::TellingLemmas::tells_both))]
pub fn tell_change(
    alloc: Global,
    journal: &mut Journal,
    stations: &[Station],
    line: usize,
    was: Standing,
    is: Standing,
)
    ensures tally { journal.new.tally ≡ with_change was is journal.old.tally }
    ensures tells { Tells (change_told stations.now line was is) journal.old.told journal.new.told }
    ensures rest { journal.new ≡ record journal.old { told = journal.new.told; tally = journal.new.tally } }
{
    count_change(&mut journal.tally, was, is);
    tell_end(alloc, journal, stations, line, was, is);
    tell_standing(alloc, journal, stations, line, is);
}
