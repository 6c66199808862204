//! What R holds (RFC 3435, 2.3.3): events with what is done at them, and requests embedded in these.
use crate::events::Events;
use digit_map::MapText;
use mg_bytes::{OutOfMemory, Sequence};
use packages::SignalRequests;
use std::alloc::Global;
use std::marker::Model;
use std::rc::Rc;

/// What is done at an event, but for an embedded request (RFC 3435, 2.3.3).
#[derive(Clone, Copy)]
pub enum Action {
    /// The line notifies at once: `N`.
    Notify,
    /// The event is accumulated: `A`.
    Accumulate,
    /// It is accumulated and treated by the digit map: `D`.
    Dial,
    /// Nothing: `I`.
    Ignore,
}

/// An entry of R in an embedded request, in which no request is embedded once more.
#[derive(Clone, Copy)]
pub struct EmbeddedEvent {
    pub events: Events,
    pub action: Action,
    /// Whether the active signals go on: `K`.
    pub keep: bool,
}

/// The entries of R in an embedded request, at most `MOST_EVENTS`, with room for those that are there.
pub type EmbeddedEvents = Sequence<EmbeddedEvent>;

/// What stands in the parentheses of E: an R, an S, and a digit map where one is given.
#[derive(Drop)]
pub struct EmbeddedRequest {
    pub events: EmbeddedEvents,
    pub signals: SignalRequests,
    pub map: Option<MapText>,
}

/// An embedded request in a place of its own, so that an entry without one stays small. Copies share the place.
#[derive(Drop)]
pub struct Embedding {
    request: Rc<EmbeddedRequest>,
}

impl Model for Embedding {
    ghost use Rattle.event_syntax.specs.declared.request.EmbeddedRequest.{EmbeddedRequest};

    ghost Value = { EmbeddedRequest };

    ghost view = { λ e. e.request.value };
}

impl Embedding {
    ghost use Rattle.std.specs.Prelude.{◌≡◌, IfOk};

    /// Puts a request into a place of its own. An error is for want of memory only.
    pub fn new(alloc: Global, request: EmbeddedRequest) -> Result<Self, OutOfMemory>
        ensures { IfOk result (λ embedding. embedding ≡ request) }
    {
        Ok(Embedding {
            request: Rc::new(alloc, request)?,
        })
    }

    /// The same request in the same place.
    pub fn try_copy(&self) -> Result<Self, OutOfMemory>
        ensures { IfOk result (λ copy. copy ≡ self.now) }
    {
        Ok(Embedding {
            request: self.request.clone()?,
        })
    }

    /// The request.
    pub fn request(&self) -> &EmbeddedRequest
        ensures { result.now ≡ self.now }
    {
        &self.request
    }
}

/// What is done at an event.
#[derive(Drop)]
pub enum Reaction {
    Plain(Action),
    /// The embedded request takes effect: `E`.
    Embed(Embedding),
    /// The event is accumulated, and then the embedded request takes effect: `A` with `E`.
    AccumulateAndEmbed(Embedding),
}

/// An entry of R: at these events this is done.
#[derive(Drop)]
pub struct RequestedEvent {
    pub events: Events,
    pub reaction: Reaction,
    /// Whether the active signals go on: `K`.
    pub keep: bool,
}

/// The entries of R, at most `MOST_EVENTS`, with room for those that are there.
pub type RequestedEvents = Sequence<RequestedEvent>;
