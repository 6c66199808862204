//! What the lines ask for that come to the telephones' socket.
ghost use Rattle.std.specs.Prelude.{◌≡◌, ◌≤◌, ◌⊎◌, true, Some, IfSome};
ghost use Rattle.mg_bytes.specs.Words.{words as words_of};
ghost use Rattle.line_changes.specs.Watching.{longest_watch};
ghost use Rattle.rgw_scripts.specs.declared.step.ScriptLine.TheVariants.{Whole};
ghost use Rattle.rgw_scripts.specs.Script.{line_in};
ghost use Rattle.telephone_control.specs.declared.telephones.TelephoneRequest.TheVariants.{OutOfMemory};
ghost use Rattle.telephone_control.specs.Admitting.{typist_of};
ghost use Rattle.telephone_control.specs.Asking.{AsksFor, request_of, request_by, seconds_of, watch_in, watch_or, asks_for_all, line_request, request_in, wants_memory};

use line_changes::LONGEST_WATCH;
use mg_bytes::{decimal, words};
use mg_line::Act;
use rgw_scripts::{ScriptLine, ScriptStep, line_in};
use std::alloc::Global;

/// Who types.
#[derive(Clone, Copy)]
pub enum Typist {
    /// Somebody at this machine, who may ask for anything.
    Here,
    /// Somebody at another one, to whom the telephones are open, or the page: anything but the end may be asked for.
    Elsewhere,
    /// Somebody at another one, to whom they aren't.
    Stranger,
}

/// What a line asks for.
#[derive(Clone, Copy)]
pub enum TelephoneRequest {
    /// Something is done at the telephone of a line.
    Act { line: u16, act: Act },
    /// What a line is, is asked.
    Show { line: u16 },
    /// What each line is, is asked.
    ShowAll,
    /// What changes at the lines is to be told for so long, in s.
    Watch { seconds: u64 },
    /// What was counted so far is asked.
    Counts,
    /// The gateway is to end; this stays the next line until it has ended.
    Stop,
    /// The gateway is to end, as somebody says who may be at another machine: that isn't taken.
    StopFromAfar,
    /// Something that isn't taken from a stranger, as nothing is.
    Refused,
    /// The line says nothing that can be done.
    Unknown,
    /// Memory was refused while it was read.
    OutOfMemory,
}

// What a step asks for.
fn request_of(step: &ScriptStep) -> TelephoneRequest
    ensures said { AsksFor result (Some (Whole step.now)) }
    ensures request { result ≡ request_of step.now }
{
    match step {
        ScriptStep::Phone { line, act } => TelephoneRequest::Act {
            line: *line,
            act: *act,
        },
        ScriptStep::Show { line } => TelephoneRequest::Show { line: *line },
        _ => TelephoneRequest::Unknown,
    }
}

// What a line asks for of a telephone.
#[tactic(auto, using(crate::proofs::AskingLemmas::by_step))]
fn telephone_request(alloc: Global, line: &[u8]) -> TelephoneRequest
    ensures said { AsksFor result (line_in (words_of line.now)) }
    ensures request { (result ≡ request_by (line_in (words_of line.now))) ⊎ (result ≡ OutOfMemory) }
    ensures memory { result ≡ OutOfMemory → wants_memory (request_by (line_in (words_of line.now))) ≡ true }
{
    let Ok(said) = line_in(alloc, line) else {
        return TelephoneRequest::OutOfMemory;
    };
    match &said {
        Some(ScriptLine::Whole { step }) => request_of(step),
        _ => TelephoneRequest::Unknown,
    }
}

// For how long it is watched, in s.
fn seconds_of(text: &[u8]) -> Option<u64>
    ensures seconds { result ≡ seconds_of text.now }
    ensures bounded { IfSome result (λ seconds. seconds ≤ longest_watch) }
{
    let seconds = decimal(text)?;
    if seconds > LONGEST_WATCH {
        return None;
    }
    Some(seconds)
}

// For how long a line asks to be told what changes, in s.
#[tactic(auto, unfolding(crate::specs::Asking::watch_in))]
fn watch_in(line: &[u8]) -> Option<u64>
    ensures seconds { result ≡ watch_in (words_of line.now) }
    ensures bounded { IfSome result (λ seconds. seconds ≤ longest_watch) }
{
    let mut rest = words(line);
    let Some(word) = rest.next() else {
        return None;
    };
    let Some(time) = rest.next() else {
        return None;
    };
    if rest.next().is_some() {
        return None;
    }
    if word == b"watch".as_slice() {
        seconds_of(time)
    } else {
        None
    }
}

// What a line asks for that is no word alone.
fn watch_or(alloc: Global, line: &[u8]) -> TelephoneRequest
    ensures said { AsksFor result (line_in (words_of line.now)) }
    ensures request { (result ≡ watch_or (watch_in (words_of line.now)) (request_by (line_in (words_of line.now))))
        ⊎ (result ≡ OutOfMemory) }
    ensures memory { result ≡ OutOfMemory
        → wants_memory (watch_or (watch_in (words_of line.now)) (request_by (line_in (words_of line.now)))) ≡ true }
{
    match watch_in(line) {
        Some(seconds) => TelephoneRequest::Watch { seconds },
        None => telephone_request(alloc, line),
    }
}

// Whether a line asks what each line of the gateway is.
fn asks_for_all(line: &[u8]) -> bool
    ensures { result ≡ asks_for_all line.now }
{
    line == b"show *".as_slice() || line == b"show all".as_slice() || line == b"show".as_slice()
}

// What a line asks for, which came from this machine or from another one.
#[tactic(auto, unfolding(crate::specs::Asking::line_request))]
fn line_request(alloc: Global, line: &[u8], is_from_loopback: bool) -> TelephoneRequest
    ensures said { AsksFor result (line_in (words_of line.now)) }
    ensures request { (result ≡ line_request is_from_loopback line.now) ⊎ (result ≡ OutOfMemory) }
    ensures memory { result ≡ OutOfMemory → wants_memory (line_request is_from_loopback line.now) ≡ true }
{
    if line == b"counts".as_slice() {
        TelephoneRequest::Counts
    } else if line == b"stop".as_slice() && is_from_loopback {
        TelephoneRequest::Stop
    } else if line == b"stop".as_slice() {
        TelephoneRequest::StopFromAfar
    } else if asks_for_all(line) {
        TelephoneRequest::ShowAll
    } else {
        watch_or(alloc, line)
    }
}

/// Who types, by whether a line came from this machine, or from another, and whether the telephones are open to that.
pub fn typist_of(is_here: bool, is_afar: bool, are_open: bool) -> Typist
    ensures { result ≡ typist_of is_here is_afar are_open }
{
    if is_here {
        Typist::Here
    } else if is_afar && !are_open {
        Typist::Stranger
    } else {
        Typist::Elsewhere
    }
}

/// What a line asks for that somebody typed.
pub fn request_in(alloc: Global, line: &[u8], typist: Typist) -> TelephoneRequest
    ensures said { AsksFor result (line_in (words_of line.now)) }
    ensures request { (result ≡ request_in typist line.now) ⊎ (result ≡ OutOfMemory) }
    ensures memory { result ≡ OutOfMemory → wants_memory (request_in typist line.now) ≡ true }
{
    match typist {
        Typist::Here => line_request(alloc, line, true),
        Typist::Elsewhere => line_request(alloc, line, false),
        Typist::Stranger => TelephoneRequest::Refused,
    }
}
