//! What a line was asked for about its events, R and T, a row each. Each question is asked of a copy too.
//!
//! - `asks  R: L/hd(A)  T: D/*` this stands from now on; under a new title nothing is asked for;
//! - `at L/hd  accumulate,keep` what is done at an event: `notify`, `accumulate`, `dial`, `ignore`, `embed`, or
//!   `accumulate,embed`; and `keep` where the time-out signals go on;
//! - `requested L/hd  yes` R names the event; `keeps D/5  no` it isn't kept while it can't occur;
//! - `lacks map  yes` some action D has no digit map where none is known; `lacks map with D  no` where one is;
//! - `after L/hd  S L/dl  D (1|2)` the request that is embedded at this event takes effect: its S, and its D or `-`.
use crate::events::observed_of;
use crate::line::parameters::events_of;
use crate::texts::{are_same, is_word};
use event_syntax::{Action, Embedding, Observed, write_signals};
use events_and_signals::{Decision, Doing, EventRequest, decide};
use mg_bytes::OutOfMemory;
use packages::event_of;
use scenario_files::{Outcome, Row, Scenario, parted};
use std::alloc::Global;

// What is done, as a row says it.
fn put_decision(given: &mut Outcome, decision: Decision<'_>) {
    let done = match decision.doing {
        Doing::Plain(Action::Notify) => "notify",
        Doing::Plain(Action::Accumulate) => "accumulate",
        Doing::Plain(Action::Dial) => "dial",
        Doing::Plain(Action::Ignore) => "ignore",
        Doing::Embed(_) => "embed",
        Doing::AccumulateAndEmbed(_) => "accumulate,embed",
    };
    given.put_words(done);
    if decision.keep {
        given.put(b",keep");
    }
}

// What a request says of an event that occurs: `at` it, or `keeps`.
fn put_answer_at(given: &mut Outcome, request: &EventRequest, word: &str, event: Observed) {
    match word {
        "at" => put_decision(given, decide(request, event)),
        "keeps" => given.put_judged(request.is_kept(event)),
        _ => given.unread(),
    }
}

/// Puts what a request says to a question: `at L/hd`, `requested L/hd`, `keeps L/hd` or `lacks map`.
pub fn put_answer(given: &mut Outcome, request: &EventRequest, question: &str) {
    let (word, event) = parted(question, " ");
    match question {
        "lacks map" => given.put_judged(request.lacks_map(false)),
        "lacks map with D" => given.put_judged(request.lacks_map(true)),
        _ if is_word(word, "requested") => match event_of(event.as_bytes()) {
            Ok(event) => given.put_judged(request.is_requested(event)),
            Err(_) => given.unread(),
        },
        _ => match observed_of(given, event) {
            Some(event) => put_answer_at(given, request, word, event),
            None => given.unread(),
        },
    }
}

// The S and the D of an embedded request.
fn put_embedding(given: &mut Outcome, embedding: &Embedding) {
    let request = embedding.request();
    given.put(b"S ");
    given.put_text(write_signals(given.alloc, request.signals.as_slice()));
    match &request.map {
        Some(map) => given.put_both(b"  D ", map.as_bytes()),
        None => given.put(b"  D -"),
    }
}

/// What is asked for.
#[derive(Drop)]
pub struct RequestScenario {
    request: EventRequest,
}

impl RequestScenario {
    // The request that is embedded at this event takes effect: its S and its D.
    fn take_effect(&mut self, given: &mut Outcome, event: &str) {
        let Some(event) = observed_of(given, event) else {
            return given.unread();
        };
        let (Doing::Embed(embedding) | Doing::AccumulateAndEmbed(embedding)) = decide(
            &self.request,
            event,
        ).doing
        else {
            return given.put(b"nothing is embedded");
        };
        put_embedding(given, embedding);
        match self.request.embedded(embedding) {
            Ok(request) if !given.is_refused => self.request = request,
            _ => given.refuse(),
        }
    }

    // What the request says to a question, and a copy of it where that says something else.
    fn put_answer(&self, given: &mut Outcome, question: &str) {
        put_answer(given, &self.request, question);
        let Ok(copy) = self.request.try_copy() else {
            return given.refuse();
        };
        let mut of_copy = Outcome::nothing(given.alloc);
        put_answer(&mut of_copy, &copy, question);
        if of_copy.is_refused {
            given.refuse();
        } else if !are_same(&of_copy.bytes, &given.bytes) {
            given.put_both(b", and of a copy ", &of_copy.bytes);
        }
    }
}

impl Scenario for RequestScenario {
    fn begin(_alloc: Global) -> Result<RequestScenario, OutOfMemory> {
        let request = EventRequest::nothing();
        Ok(RequestScenario { request })
    }

    fn turn(&mut self, row: &mut Row<'_>) {
        let question = row.before("  ");
        if is_word(question, "asks") {
            match events_of(row.given.alloc, row.rest()) {
                Ok(request) => self.request = request,
                Err(fault) => row.given.fault(fault),
            }
            return;
        }
        match question.strip_prefix("after ") {
            Some(event) => self.take_effect(&mut row.given, event),
            None => self.put_answer(&mut row.given, question),
        }
    }
}
