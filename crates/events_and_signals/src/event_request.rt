//! What a line was asked for about its events.
ghost use Rattle.std.specs.Prelude.{◌≡◌, IfOk};
ghost use Rattle.events_and_signals.specs.Choice.{chosen, is_detected};
ghost use Rattle.events_and_signals.specs.Deciding.{seen};
ghost use Rattle.events_and_signals.specs.Sources.{requested_in, detected_in};
ghost use Rattle.events_and_signals.specs.Naming.{event_of};

use crate::choice::{decided, is_detected, is_requested, unasked};
use crate::decision::Decision;
use crate::embedded;
use crate::maps::{embedded_lacks, lacks_map};
use crate::naming::event_of;
use crate::source::{Detected, Requested};
use event_syntax::{
    DetectedEvents, Embedding, Observed, RequestedEvents, write_detect, write_embedded_events,
    write_events,
};
use mg_bytes::{OutOfMemory, Text};
use packages::{LineEvent, is_persistent};
use std::alloc::Global;
use std::marker::Model;
use std::rc::Rc;

/// What a line was asked for about its events: R, which may be that of an embedded request, and T (RFC 3435, 2.3.3).
///
/// Copies share the entries. A contract sees the entries of both.
pub struct EventRequest {
    requested: Requested,
    detected: Detected,
}

// Written out: a derived drop, and those of all its parts, are proved anew by each crate that lets one go.
impl Drop for EventRequest {
    fn drop(self) {
        let EventRequest {
            requested,
            detected,
        } = self;
        drop(requested);
        drop(detected);
    }
}

impl Model for EventRequest {
    ghost use Rattle.events_and_signals.specs.Requests.{EventRequests};
    ghost use Rattle.events_and_signals.specs.Sources.{requested_in, detected_in};

    ghost Value = { EventRequests };

    ghost view = { λ r. record { requested = requested_in r.requested; detected = detected_in r.detected } };
}

impl EventRequest {
    ghost use Rattle.std.specs.Prelude.{◌≡◌, [], IfOk};
    ghost use Rattle.events_and_signals.specs.Requests.{no_requests, with_embedded};
    ghost use Rattle.events_and_signals.specs.Choice.{is_requested, is_kept};
    ghost use Rattle.events_and_signals.specs.Maps.{lacks_map};
    ghost use Rattle.std.specs.Prelude.{false};
    ghost use Rattle.std.specs.List.{list_any};
    ghost use Rattle.mg_bytes.specs.Blanks.{is_blank};
    ghost use Rattle.mg_bytes.specs.Lines.{is_line_feed};
    ghost use Rattle.event_syntax.specs.Detect.{detected_text};
    ghost use Rattle.event_syntax.specs.Requested.{requested_text};

    /// Nothing is asked for. This takes no memory.
    pub fn nothing() -> Self
        ensures { result ≡ no_requests }
    {
        EventRequest {
            requested: Requested::Nothing,
            detected: Detected::Nothing,
        }
    }

    /// The R of a command that has no T. An error is for want of memory only.
    pub fn requesting(alloc: Global, requested: RequestedEvents) -> Result<Self, OutOfMemory>
        ensures { IfOk result (λ request. request ≡ record { requested = requested; detected = [] }) }
    {
        Ok(EventRequest {
            requested: source_of(alloc, requested)?,
            detected: Detected::Nothing,
        })
    }

    /// The R and the T of a command. An error is for want of memory only.
    pub fn of(
        alloc: Global,
        requested: RequestedEvents,
        detected: DetectedEvents,
    ) -> Result<Self, OutOfMemory>
        ensures { IfOk result (λ request. request ≡ record { requested = requested; detected = detected }) }
    {
        Ok(EventRequest {
            requested: source_of(alloc, requested)?,
            detected: Detected::Command(Rc::new(alloc, detected)?),
        })
    }

    /// An equal request, which shares the entries.
    pub fn try_copy(&self) -> Result<Self, OutOfMemory>
        ensures { IfOk result (λ copy. copy ≡ self.now) }
    {
        Ok(EventRequest {
            requested: shared(&self.requested)?,
            detected: shared_detected(&self.detected)?,
        })
    }

    /// The request after an embedded one took effect: that replaces R, and T stays (RFC 3435, 2.3.3).
    pub fn embedded(&self, embedding: &Embedding) -> Result<Self, OutOfMemory>
        ensures { IfOk result (λ request. request ≡ with_embedded self.now embedding.now) }
    {
        Ok(EventRequest {
            requested: Requested::Embedded(embedding.try_copy()?),
            detected: shared_detected(&self.detected)?,
        })
    }

    /// Whether an entry of R names an event.
    pub fn is_requested(&self, event: LineEvent) -> bool
        ensures { result ≡ is_requested self.now.requested event }
    {
        match &self.requested {
            Requested::Nothing => false,
            Requested::Command(entries) => is_requested(entries.as_slice(), event),
            Requested::Embedded(embedding) => {
                embedded::is_requested(embedding.request().events.as_slice(), event)
            }
        }
    }

    /// Whether some entry of R, or of a request that is embedded there, has the action D where there is no digit map for it
    /// (RFC 3435, 2.3.3; return code 519): `known` says whether there is one for R, and an embedded request may have its
    /// own.
    #[tactic(auto, unfolding(crate::specs::Maps::lacks_map))]
    pub fn lacks_map(&self, known: bool) -> bool
        ensures { result ≡ lacks_map known self.now.requested }
    {
        match &self.requested {
            Requested::Nothing => false,
            Requested::Command(entries) => lacks_map(known, entries.as_slice()),
            Requested::Embedded(embedding) => {
                embedded_lacks(known, embedding.request().events.as_slice())
            }
        }
    }

    /// Whether an event is kept while it can't occur (RFC 3435, 4.4.1): R or T names it, or it is persistent.
    #[tactic(auto, unfolding(crate::specs::Choice::is_kept))]
    pub fn is_kept(&self, observed: Observed) -> bool
        ensures { result ≡ is_kept self.now observed }
    {
        let event = event_of(observed);
        self.is_requested(event) || is_detected_in(&self.detected, event) || is_persistent(event)
    }

    /// R as it stands, in its written form (RFC 3435, 2.3.10): one word, or nothing where there are no entries. An error is
    /// for want of memory only.
    #[tactic(auto, using(crate::proofs::WritingLemmas::embedded_written), unfolding(event_syntax::specs::Requested::requested_text))]
    pub fn write_requested(&self, alloc: Global) -> Result<Text, OutOfMemory>
        ensures value { IfOk result (λ text. text ≡ requested_text self.now.requested) }
        ensures no_blanks { IfOk result (λ text. list_any is_blank text ≡ false) }
        ensures one_line { IfOk result (λ text. list_any is_line_feed text ≡ false) }
    {
        match &self.requested {
            Requested::Nothing => Ok(Text::of(Vec::new(alloc))),
            Requested::Command(entries) => write_events(alloc, entries.as_slice()),
            Requested::Embedded(embedding) => {
                write_embedded_events(alloc, embedding.request().events.as_slice())
            }
        }
    }

    /// T in its written form (RFC 3435, 2.3.10): one word, or nothing where there are no entries. An error is for want of
    /// memory only.
    #[tactic(auto, unfolding(event_syntax::specs::Detect::detected_text))]
    pub fn write_detected(&self, alloc: Global) -> Result<Text, OutOfMemory>
        ensures value { IfOk result (λ text. text ≡ detected_text self.now.detected) }
        ensures no_blanks { IfOk result (λ text. list_any is_blank text ≡ false) }
        ensures one_line { IfOk result (λ text. list_any is_line_feed text ≡ false) }
    {
        match &self.detected {
            Detected::Nothing => Ok(Text::of(Vec::new(alloc))),
            Detected::Command(entries) => write_detect(alloc, entries.as_slice()),
        }
    }
}

// The R of a command: one without entries takes no memory.
fn source_of(alloc: Global, entries: RequestedEvents) -> Result<Requested, OutOfMemory>
    ensures { IfOk result (λ source. requested_in source ≡ entries) }
{
    if entries.as_slice().is_empty() {
        return Ok(Requested::Nothing);
    }
    Ok(Requested::Command(Rc::new(alloc, entries)?))
}

// What shares the entries of R.
fn shared(requested: &Requested) -> Result<Requested, OutOfMemory>
    ensures { IfOk result (λ copy. requested_in copy ≡ requested_in requested.now) }
{
    match requested {
        Requested::Nothing => Ok(Requested::Nothing),
        Requested::Command(entries) => Ok(Requested::Command(entries.clone()?)),
        Requested::Embedded(embedding) => Ok(Requested::Embedded(embedding.try_copy()?)),
    }
}

// What shares the entries of T.
fn shared_detected(detected: &Detected) -> Result<Detected, OutOfMemory>
    ensures { IfOk result (λ copy. detected_in copy ≡ detected_in detected.now) }
{
    match detected {
        Detected::Nothing => Ok(Detected::Nothing),
        Detected::Command(entries) => Ok(Detected::Command(entries.clone()?)),
    }
}

fn is_detected_in(detected: &Detected, event: LineEvent) -> bool
    ensures { result ≡ is_detected (detected_in detected.now) event }
{
    match detected {
        Detected::Nothing => false,
        Detected::Command(entries) => is_detected(entries.as_slice(), event),
    }
}

/// What is done at an event that occurs (RFC 3435, 4.4.1): what the first entry of R says that names it; where none does,
/// a persistent event is notified, and nothing is done at another. This takes no memory.
#[tactic(auto, unfolding(crate::specs::Choice::chosen))]
pub fn decide(request: &EventRequest, observed: Observed) -> Decision<'_>
    ensures { seen result ≡ chosen request.now.requested (event_of observed) }
{
    let event = event_of(observed);
    match &request.requested {
        Requested::Nothing => unasked(event),
        Requested::Command(entries) => decided(entries.as_slice(), event),
        Requested::Embedded(embedding) => {
            embedded::decided(embedding.request().events.as_slice(), event)
        }
    }
}
