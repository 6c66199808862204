//! The events and signals that names mean.
ghost use Rattle.std.specs.Prelude.{◌≡◌};
ghost use Rattle.packages.specs.Looking.{event_named, signal_named, event_in, signal_in, event_of, signal_of};

use crate::event::LineEvent;
use crate::package::{Package, in_package};
use crate::signal::Signal;
use mg_bytes::{ReturnCode, letter_of, same_no_case};

#[tactic(auto, unfolding(crate::specs::Looking::event_named))]
fn line_event(name: &[u8]) -> Option<LineEvent>
    ensures { result ≡ event_named Package.Line name.now }
{
    if same_no_case(name, b"hd") {
        Some(LineEvent::OffHook)
    } else if same_no_case(name, b"hu") {
        Some(LineEvent::OnHook)
    } else if same_no_case(name, b"hf") {
        Some(LineEvent::Flash)
    } else if same_no_case(name, b"oc") {
        Some(LineEvent::LineComplete)
    } else {
        None
    }
}

#[tactic(auto, unfolding(crate::specs::Looking::event_named))]
fn generic_event(name: &[u8]) -> Option<LineEvent>
    ensures { result ≡ event_named Package.Generic name.now }
{
    if same_no_case(name, b"oc") {
        Some(LineEvent::GenericComplete)
    } else {
        None
    }
}

#[tactic(auto, using(crate::proofs::LetterLemmas::no_name, crate::proofs::LetterLemmas::one_byte, crate::proofs::LetterLemmas::long_name))]
fn dtmf_event(name: &[u8]) -> Option<LineEvent>
    ensures { result ≡ event_named Package.Dtmf name.now }
{
    match name {
        [byte] => Some(LineEvent::Letter(letter_of(*byte)?)),
        _ => None,
    }
}

fn event_named(within: Package, name: &[u8]) -> Option<LineEvent>
    ensures { result ≡ event_named within name.now }
{
    match within {
        Package::Line => line_event(name),
        Package::Generic => generic_event(name),
        Package::Dtmf => dtmf_event(name),
    }
}

#[tactic(auto, unfolding(crate::specs::Looking::signal_named))]
fn line_signal(name: &[u8]) -> Option<Signal>
    ensures { result ≡ signal_named Package.Line name.now }
{
    if same_no_case(name, b"dl") {
        Some(Signal::DialTone)
    } else if same_no_case(name, b"bz") {
        Some(Signal::Busy)
    } else if same_no_case(name, b"ro") {
        Some(Signal::Reorder)
    } else if same_no_case(name, b"rg") {
        Some(Signal::Ringing)
    } else if same_no_case(name, b"rs") {
        Some(Signal::RingSplash)
    } else if same_no_case(name, b"vmwi") {
        Some(Signal::MessageWaiting)
    } else {
        None
    }
}

#[tactic(auto, unfolding(crate::specs::Looking::signal_named))]
fn generic_signal(name: &[u8]) -> Option<Signal>
    ensures { result ≡ signal_named Package.Generic name.now }
{
    if same_no_case(name, b"rt") {
        Some(Signal::Ringback)
    } else if same_no_case(name, b"cg") {
        Some(Signal::Congestion)
    } else if same_no_case(name, b"cf") {
        Some(Signal::Confirm)
    } else {
        None
    }
}

#[tactic(auto, unfolding(crate::specs::Looking::signal_named))]
fn signal_named(within: Package, name: &[u8]) -> Option<Signal>
    ensures { result ≡ signal_named within name.now }
{
    match within {
        Package::Line => line_signal(name),
        Package::Generic => generic_signal(name),
        Package::Dtmf => None,
    }
}

/// The event that a name is in a package. A fault is a return code: 522 where the name is a signal there, else 512.
#[tactic(auto, unfolding(crate::specs::Looking::event_in))]
pub fn event_in(within: Package, name: &[u8]) -> Result<LineEvent, u16>
    ensures { result ≡ event_in within name.now }
{
    if let Some(event) = event_named(within, name) {
        return Ok(event);
    }
    match signal_named(within, name) {
        Some(_) => Err(ReturnCode::NoSuchEventOrSignal.number()),
        None => Err(ReturnCode::UnsupportedEvent.number()),
    }
}

/// The signal that a name is in a package. A fault is a return code: 522 where the name is an event there and the
/// package is L or G, else 513.
#[tactic(auto, unfolding(crate::specs::Looking::signal_in))]
pub fn signal_in(within: Package, name: &[u8]) -> Result<Signal, u16>
    ensures { result ≡ signal_in within name.now }
{
    if let Some(signal) = signal_named(within, name) {
        return Ok(signal);
    }
    match (within, event_named(within, name)) {
        (Package::Dtmf, _) | (_, None) => Err(ReturnCode::UnsupportedSignal.number()),
        (_, Some(_)) => Err(ReturnCode::NoSuchEventOrSignal.number()),
    }
}

/// The event that `[package/]name` names (RFC 3435, 2.1.7). A fault is a return code: 518 for a package that there
/// isn't, else 522 or 512.
#[tactic(auto, unfolding(crate::specs::Looking::event_of))]
pub fn event_of(text: &[u8]) -> Result<LineEvent, u16>
    ensures { result ≡ event_of text.now }
{
    let (within, name) = in_package(text)?;
    event_in(within, name)
}

/// The signal that `[package/]name` names (RFC 3435, 2.3.3). A fault is a return code: 518 for a package that there
/// isn't, else 522 or 513.
#[tactic(auto, unfolding(crate::specs::Looking::signal_of))]
pub fn signal_of(text: &[u8]) -> Result<Signal, u16>
    ensures { result ≡ signal_of text.now }
{
    let (within, name) = in_package(text)?;
    signal_in(within, name)
}
