//! The events that an entry of R or T names.
ghost use Rattle.std.specs.Prelude.{◌≡◌, ◌++◌, OnOk};
ghost use Rattle.event_syntax.specs.Events.{one, one_in, is_all, letters_from, events_in, events_called, events_text};
ghost use Rattle.mg_bytes.specs.Words.{in_brackets};

use crate::range::{letters_in, put_letters};
use mg_bytes::{OutOfMemory, ReturnCode, in_brackets, same_no_case, split_once};
use packages::{LineEvent, Package, event_in, event_name, in_package};

/// The events that an entry of R or T names (RFC 3435, 2.1.7).
#[derive(Clone, Copy)]
pub enum Events {
    /// `L/all`: hd, hu, hf and oc of L.
    AllOfLine,
    /// One event of L or G.
    One(LineEvent),
    /// Events of D: whether each of `0` to `9`, `*`, `#`, `A` to `D`, `T` is among them.
    Letters([bool; 17]),
}

// What stands in a place that has no events yet.
impl Default for Events {
    ghost use Rattle.std.specs.Prelude.{◌≡◌};
    ghost use Rattle.event_syntax.specs.declared.events.Events.TheVariants as events;

    ghost is_default = { λ named. named ≡ events.AllOfLine };

    fn default() -> Self {
        Events::AllOfLine
    }
}

fn one(event: LineEvent) -> Events
    ensures { result ≡ one event }
{
    match event {
        LineEvent::Letter(letter) => Events::Letters(letters_in(&[letter.byte()])),
        LineEvent::OffHook
        | LineEvent::OnHook
        | LineEvent::Flash
        | LineEvent::LineComplete
        | LineEvent::GenericComplete => Events::One(event),
    }
}

fn one_in(within: Package, name: &[u8]) -> Result<Events, u16>
    ensures { result ≡ one_in within name.now }
{
    match event_in(within, name) {
        Ok(event) => Ok(one(event)),
        Err(code) => Err(code),
    }
}

fn is_all(name: &[u8]) -> bool
    ensures { result ≡ is_all name.now }
{
    same_no_case(name, b"all")
}

fn letters_from(name: &[u8]) -> Result<Events, u16>
    ensures { result ≡ letters_from name.now (in_brackets name.now) }
{
    match in_brackets(name) {
        Some(range) => Ok(Events::Letters(letters_in(range))),
        None => {
            if is_all(name) {
                Ok(Events::Letters(letters_in(b"0-9*#ABCD")))
            } else if same_no_case(name, b"X") {
                Ok(Events::Letters(letters_in(b"X")))
            } else {
                one_in(Package::Dtmf, name)
            }
        }
    }
}

fn events_in(within: Package, name: &[u8]) -> Result<Events, u16>
    ensures { result ≡ events_in within name.now }
{
    match within {
        Package::Line => {
            if is_all(name) {
                Ok(Events::AllOfLine)
            } else {
                one_in(Package::Line, name)
            }
        }
        Package::Generic => {
            if is_all(name) {
                Ok(Events::One(LineEvent::GenericComplete))
            } else {
                one_in(Package::Generic, name)
            }
        }
        Package::Dtmf => letters_from(name),
    }
}

/// The events that `[package/]name[@connection]` or a range of D names; without a package L is meant. On a connection
/// this gateway has no events.
#[tactic(auto, unfolding(crate::specs::Events::events_called))]
pub(crate) fn events_called(text: &[u8]) -> Result<Events, u16>
    ensures { result ≡ events_called text.now }
{
    let (within, name) = in_package(text)?;
    match split_once(name, b'@') {
        Some(_) => Err(ReturnCode::UnsupportedEvent.number()),
        None => events_in(within, name),
    }
}

/// Writes events with their package.
#[tactic(auto, unfolding(crate::specs::Events::events_text))]
pub(crate) fn put_events(out: &mut Vec<u8>, events: Events) -> Result<(), OutOfMemory>
    ensures { OnOk result (out.new.items ≡ out.old.items ++ events_text events) }
{
    match events {
        Events::AllOfLine => out.extend_from_slice(b"L/all"),
        Events::One(event) => out.extend_from_slice(event_name(event)),
        Events::Letters(set) => {
            out.extend_from_slice(b"D/")?;
            put_letters(out, set)
        }
    }
}
