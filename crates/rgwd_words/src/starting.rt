//! What a start draws from the time of day: with which number ids begin, and how long it waits before it opens its sockets, and before its
//! clock begins.
ghost use Rattle.std.specs.Prelude.{◌≡◌, IfSome, option_map, unwrap_or};
ghost use Rattle.traces.specs.Waiting.{waited};
ghost use Rattle.rgwd_words.specs.Starting.{first_of, ms_of, rest_of, until_next};

use crate::words::Settings;
use live_system::time_of_day;
use mg_bytes::Draft;
use std::rt::Clock;
use traces::{FirstNumber, waited};

// So many microseconds are a ms.
const MICROSECONDS: u64 = 1000;

// So long, in ms of the time of day, starts have one number (`FirstNumber::at`).
const NUMBER_TIME: u64 = 50;

/// A start.
#[derive(Clone, Copy)]
pub struct Start {
    /// The number with which ids begin.
    pub first: FirstNumber,
    // The time of day, in ms since 1970; 0 where the machine has none.
    time: u64,
    // How long it waits before it opens its sockets, in ms.
    rest: u64,
    // How long it waits at most, in ms, where it waits.
    spread: Option<u32>,
}

/// What is told of a start, behind the addresses of its sockets.
#[derive(Clone, Copy)]
pub struct Begun {
    first: u32,
    /// How long it waits before it opens its sockets, in ms: until its number, where the time of day gave that, is another start's no more.
    pub rest: u64,
    /// How long it waits before its clock begins, in ms, where it waits.
    pub waits: Option<u64>,
}

// The number with which ids begin: what the words say, or the time of day, in ms. Where nothing is to be begun it doesn't matter.
fn first_of(first: Option<FirstNumber>, time: Option<u64>, check: bool) -> Option<FirstNumber>
    ensures { result ≡ first_of first time check }
{
    match (first, time) {
        (Some(first), _) => Some(first),
        (None, Some(time)) => Some(FirstNumber::at(time)),
        (None, None) if check => Some(FirstNumber::zero()),
        (None, None) => None,
    }
}

// How long it is from this time of day until starts have another number, both in ms.
fn until_next(time: u64) -> u64
    ensures { result ≡ until_next time }
{
    NUMBER_TIME - time % NUMBER_TIME
}

// How long a start waits before it opens its sockets, where the words say this number, at this time of day; both in ms.
fn rest_of(first: Option<FirstNumber>, time: Option<u64>) -> u64
    ensures { result ≡ rest_of first time }
{
    match (first, time) {
        (Some(_), _) => 0,
        (None, Some(time)) => until_next(time),
        (None, None) => 0,
    }
}

// The time of day in ms, where the machine tells it.
fn ms_of(day: Option<u64>) -> Option<u64>
    ensures { result ≡ option_map ms_of day }
{
    match day {
        Some(day) => Some(day / MICROSECONDS),
        None => None,
    }
}

impl Start {
    /// A start as the words ask for it, at this time of day, in microseconds since 1970, where the machine has one; `None` where they don't
    /// say with which number ids begin, and it has none.
    pub fn at(settings: &Settings<'_>, day: Option<u64>) -> Option<Start>
        ensures first { option_map (λ start. start.first) result ≡ first_of settings.now.first (option_map ms_of day) settings.now.check }
        ensures rest { IfSome result (λ start. start.rest ≡ rest_of settings.now.first (option_map ms_of day)) }
        ensures time { IfSome result (λ start. start.time ≡ unwrap_or (option_map ms_of day) 0) }
        ensures spread { IfSome result (λ start. start.spread ≡ settings.now.spread) }
    {
        let time = ms_of(day);
        let first = first_of(settings.first, time, settings.check)?;
        Some(Start {
            first,
            time: time.unwrap_or(0),
            rest: rest_of(settings.first, time),
            spread: settings.spread,
        })
    }

    /// A start as the words ask for it, at this machine's time of day.
    pub fn now<R: Clock>(rt: &R, settings: &Settings<'_>) -> Option<Start> {
        Start::at(settings, time_of_day(rt))
    }

    /// What is told of it, where the gateway has this domain (RFC 3435, 4.4.6).
    pub fn begun(self, domain: &[u8]) -> Begun
        ensures first { result.first ≡ self.first }
        ensures rest { result.rest ≡ self.rest }
        ensures waits { result.waits ≡ option_map (λ spread. waited spread self.time domain.now) self.spread }
    {
        let waits = match self.spread {
            Some(spread) => Some(waited(spread, self.time, domain)),
            None => None,
        };
        Begun {
            first: self.first.number(),
            rest: self.rest,
            waits,
        }
    }
}

impl Begun {
    /// Puts it behind the addresses of its sockets, as ` first 4711 waits 250 ms`.
    pub fn put(self, out: &mut Draft) {
        out.put(b" first ");
        out.put_decimal(u64::from(self.first));
        if let Some(waits) = self.waits {
            out.put(b" waits ");
            out.put_decimal(waits);
            out.put(b" ms");
        }
    }
}
