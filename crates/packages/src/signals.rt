//! The signals that are asked for: the value of S (RFC 3435, 2.3.3).
ghost use Rattle.std.specs.Prelude.{◌≡◌, ◌≤◌, ◌++◌, length, true, IfOk, OnOk, option_map};
ghost use Rattle.mg_bytes.specs.CodeFault.{AnswersAs, answer_of};
ghost use Rattle.packages.specs.Cuts.{entries, items, inside_seen};
ghost use Rattle.packages.specs.Faults.{each};
ghost use Rattle.packages.specs.Signals.{takes, behind_to, time_in, asked_by, taken_by, setting_from, setting_of, most_signals};
ghost use Rattle.packages.specs.Signals.{signal_called, signal_entry, signals_in, signals_of, are_writable_signals};
ghost use Rattle.packages.specs.Signals.{setting_text, signal_entry_text, signals_text};

use crate::cut::{entries, items};
use crate::form::{Inside, form_of};
use crate::naming::signal_in;
use crate::package::in_package;
use crate::signal::{Kind, Signal, kind_of, signal_name};
use crate::signal_spelling::are_signals;
use crate::spelling::has_at_most;
use mg_bytes::{
    CodeFault, Few, OutOfMemory, ReturnCode, Text, decimal, put_decimal, same_no_case, split_once,
};
use std::alloc::Global;

/// The most entries that S may have.
pub const MOST_SIGNALS: usize = 8;

/// The longest time that can be asked for, in ms.
const LONGEST_TIME: u64 = 3_600_000;

/// What is asked of a signal.
#[derive(Clone, Copy)]
pub enum Setting {
    /// It starts, for its own time: `+`, or no parameter.
    Start,
    /// It stops: `-`.
    Stop,
    /// It starts, for so many ms, where 0 is without end: `to=`.
    Lasting(u32),
}

/// An entry of S: a signal, and what is asked of it.
#[derive(Clone, Copy)]
pub struct SignalRequest {
    pub signal: Signal,
    pub setting: Setting,
}

// What stands in a place that has no entry yet.
impl Default for SignalRequest {
    ghost use Rattle.std.specs.Prelude.{◌≡◌};
    ghost use Rattle.packages.specs.declared.signal.Signal.TheVariants.{DialTone};
    ghost use Rattle.packages.specs.declared.signals.Setting.TheVariants.{Start};

    ghost is_default = { λ request. request ≡ record { signal = DialTone; setting = Start } };

    fn default() -> Self {
        SignalRequest {
            signal: Signal::DialTone,
            setting: Setting::Start,
        }
    }
}

/// The entries of S, at most `MOST_SIGNALS`.
pub type SignalRequests = Few<SignalRequest, MOST_SIGNALS>;

fn takes(kind: Kind, setting: Setting) -> bool
    ensures { result ≡ takes kind setting }
{
    match (kind, setting) {
        (_, Setting::Start) => true,
        (Kind::Brief, Setting::Stop) => false,
        (Kind::TimeOut | Kind::OnOff, Setting::Stop) => true,
        (Kind::TimeOut, Setting::Lasting(ms)) => u64::from(ms) <= LONGEST_TIME,
        (Kind::Brief | Kind::OnOff, Setting::Lasting(_)) => false,
    }
}

// What stands behind `to=`, in any case.
fn behind_to(text: &[u8]) -> Option<&[u8]>
    ensures { option_map (λ rest. rest.now) result ≡ behind_to text.now }
{
    if text.len() < 3 || !same_no_case(&text[..3], b"to=") {
        return None;
    }
    Some(&text[3..])
}

#[tactic(auto, unfolding(crate::specs::Signals::time_in))]
fn time_in(text: &[u8]) -> Option<u32>
    ensures { result ≡ time_in text.now }
{
    let ms = decimal(behind_to(text)?)?;
    if ms > LONGEST_TIME {
        return None;
    }
    Some(ms as u32)
}

#[tactic(auto, unfolding(crate::specs::Signals::asked_by))]
fn asked_by(text: &[u8]) -> Option<Setting>
    ensures { result ≡ asked_by text.now }
{
    if text == b"+".as_slice() {
        Some(Setting::Start)
    } else if text == b"-".as_slice() {
        Some(Setting::Stop)
    } else {
        Some(Setting::Lasting(time_in(text)?))
    }
}

fn taken_by(kind: Kind, asked: Option<Setting>) -> Result<Setting, u16>
    ensures { result ≡ taken_by kind asked }
{
    match asked {
        Some(setting) => {
            if takes(kind, setting) {
                Ok(setting)
            } else {
                Err(ReturnCode::EventParameterError.number())
            }
        }
        None => Err(ReturnCode::EventParameterError.number()),
    }
}

fn setting_from(kind: Kind, parameters: &[u8]) -> Result<Setting, u16>
    ensures { result ≡ setting_from kind (items parameters.now) }
{
    let mut rest = items(parameters);
    let Some(parameter) = rest.next() else {
        return Err(ReturnCode::EventParameterError.number());
    };
    if rest.next().is_some() {
        return Err(ReturnCode::EventParameterError.number());
    }
    taken_by(kind, asked_by(parameter))
}

#[tactic(auto, unfolding(crate::specs::Signals::setting_of))]
fn setting_of(kind: Kind, inside: Inside<'_>) -> Result<Setting, u16>
    ensures { result ≡ setting_of kind (inside_seen inside.entry) }
{
    match inside {
        Inside::Nothing => Ok(Setting::Start),
        Inside::Single(parameters) | Inside::Double(parameters, _) => setting_from(
            kind, parameters,
        ),
    }
}

#[tactic(auto, unfolding(crate::specs::Signals::signal_called))]
pub(crate) fn signal_called(text: &[u8]) -> Result<Signal, u16>
    ensures { result ≡ signal_called text.now }
{
    let (within, name) = in_package(text)?;
    match split_once(name, b'@') {
        Some(_) => Err(ReturnCode::UnsupportedSignal.number()),
        None => signal_in(within, name),
    }
}

#[tactic(auto, unfolding(crate::specs::Signals::signal_entry))]
fn signal_entry(entry: &[u8]) -> Result<SignalRequest, u16>
    ensures { result ≡ signal_entry entry.now }
{
    let Some(form) = form_of(entry) else {
        return Err(ReturnCode::ProtocolError.number());
    };
    let signal = signal_called(form.head)?;
    let setting = setting_of(kind_of(signal), form.inside)?;
    Ok(SignalRequest { signal, setting })
}

fn each_signal(value: &[u8]) -> Result<SignalRequests, u16>
    requires { length (entries value.now) ≤ most_signals }
    ensures { result ≡ each signal_entry (entries value.now) }
{
    let mut requests = SignalRequests::new();
    for entry in entries(value) {
        requests.push(signal_entry(entry)?);
    }
    Ok(requests)
}

// The entries of a value that is spelled.
#[tactic(auto, unfolding(crate::specs::Signals::signals_in))]
pub fn signals_in(value: &[u8]) -> Result<SignalRequests, u16>
    ensures { result ≡ signals_in value.now }
{
    if !has_at_most(value, MOST_SIGNALS) {
        return Err(ReturnCode::InsufficientResources.number());
    }
    each_signal(value)
}

/// The value of S (RFC 3435, 2.3.3): entries with commas between them, each `[package/]name` with one parameter in
/// parentheses or none; an empty value is an empty list.
///
/// `+` or no parameter is that the signal starts, `-` that it stops (not one that is brief), and `to=n` that it lasts n
/// ms, from 0 to 3,600,000 (only one that ends by its time).
/// A fault is a return code: 510 where the value isn't spelled so; else 502 for more than 8 entries; else that of the
/// first entry with a fault: 518 for its package, 513 for `@`, 522 or 513 for its name, 538 for its parameters. It takes
/// no memory, so it is never refused any.
#[tactic(auto, unfolding(crate::specs::Signals::signals_of))]
pub fn read_signals(value: &[u8]) -> Result<SignalRequests, CodeFault>
    ensures value { result ≡ answer_of (signals_of value.now) }
    ensures answers { AnswersAs (signals_of value.now) result }
    // What is read can be written.
    ensures writable { IfOk result (λ requests. are_writable_signals requests ≡ true) }
{
    if !are_signals(value) {
        return Err(CodeFault::of(ReturnCode::ProtocolError));
    }
    match signals_in(value) {
        Ok(requests) => Ok(requests),
        Err(code) => Err(CodeFault::Code(code)),
    }
}

fn put_setting(alloc: Global, out: &mut Vec<u8>, setting: Setting) -> Result<(), OutOfMemory>
    ensures { OnOk result (out.new.items ≡ out.old.items ++ setting_text setting) }
{
    match setting {
        Setting::Start => Ok(()),
        Setting::Stop => out.extend_from_slice(b"(-)"),
        Setting::Lasting(ms) => {
            out.extend_from_slice(b"(to=")?;
            put_decimal(alloc, out, u64::from(ms))?;
            out.extend_from_slice(b")")
        }
    }
}

#[tactic(auto, unfolding(crate::specs::Signals::signal_entry_text))]
fn put_entry(alloc: Global, out: &mut Vec<u8>, request: SignalRequest) -> Result<(), OutOfMemory>
    ensures { OnOk result (out.new.items ≡ out.old.items ++ signal_entry_text request) }
{
    out.extend_from_slice(signal_name(request.signal))?;
    put_setting(alloc, out, request.setting)
}

/// The written form of S (RFC 3435, 2.3.3): the entries with commas between them, each with its package, and
/// without blanks. An error is for want of memory only.
pub fn write_signals(alloc: Global, requests: &[SignalRequest]) -> Result<Text, OutOfMemory>
    ensures { IfOk result (λ text. text ≡ signals_text requests.now) }
{
    let mut out = Vec::new(alloc);
    for (place, request) in requests.iter().enumerate() {
        if place > 0 {
            out.push(b',')?;
        }
        put_entry(alloc, &mut out, *request)?;
    }
    Ok(Text::of(out))
}
