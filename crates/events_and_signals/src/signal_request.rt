//! What is asked of signals (RFC 3435, 2.3.3).
ghost use Rattle.std.specs.Prelude.{◌≡◌, ◌<◌, ◌^◌, fold};
ghost use Rattle.std.specs.List.{list_any};
ghost use Rattle.packages.specs.Looking.{is_same_signal};
ghost use Rattle.events_and_signals.specs.Applying.{refused_entry, signals_refusal, end_after, goes_on, after_start, after_entry, entries_for, after_entries};

use crate::active::{ActiveSignal, is_forbidden, is_time_out};
use packages::{Hook, Setting, Signal, SignalRequest, refused_in, time_of};

fn refused_entry(hook: Hook, request: SignalRequest) -> Option<u16>
    ensures { result ≡ refused_entry hook request }
{
    match request.setting {
        Setting::Stop => None,
        Setting::Start | Setting::Lasting(_) => refused_in(hook, request.signal),
    }
}

/// The code of the first entry of S, from left to right, that this state of the hook refuses (RFC 3435, 2.4): 401 off
/// hook, 402 on hook; `None` where it refuses none. An entry that stops its signal is never refused.
#[tactic(auto, unfolding(crate::specs::Applying::signals_refusal))]
pub fn refused(requests: &[SignalRequest], hook: Hook) -> Option<u16>
    ensures { result ≡ signals_refusal requests.now hook }
{
    for request in requests {
        if let Some(code) = refused_entry(hook, *request) {
            return Some(code);
        }
    }
    None
}

fn end_after(moment: u64, time: u32) -> Option<u64>
    requires { moment < 2 ^ 62 }
    ensures { result ≡ end_after moment time }
{
    if time == 0 {
        None
    } else {
        Some(moment + u64::from(time))
    }
}

fn goes_on(signal: Signal, was: Option<ActiveSignal>) -> bool
    ensures { result ≡ goes_on signal was }
{
    is_time_out(signal) && was.is_some()
}

#[tactic(auto, unfolding(crate::specs::Applying::after_start))]
fn after_start(
    hook: Hook,
    moment: u64,
    signal: Signal,
    time: u32,
    was: Option<ActiveSignal>,
) -> Option<ActiveSignal>
    requires { moment < 2 ^ 62 }
    ensures { result ≡ after_start hook moment signal time was }
{
    if is_forbidden(hook, signal) || goes_on(signal, was) {
        return was;
    }
    let end = end_after(moment, time);
    Some(ActiveSignal { signal, end })
}

fn after_entry(
    hook: Hook,
    moment: u64,
    was: Option<ActiveSignal>,
    request: SignalRequest,
) -> Option<ActiveSignal>
    requires { moment < 2 ^ 62 }
    ensures { result ≡ after_entry hook moment was request }
{
    let signal = request.signal;
    match request.setting {
        Setting::Stop => None,
        Setting::Start => after_start(hook, moment, signal, time_of(signal), was),
        Setting::Lasting(time) => after_start(hook, moment, signal, time, was),
    }
}

fn is_named(signal: Signal, requests: &[SignalRequest]) -> bool
    ensures { result ≡ list_any (λ request. is_same_signal request.signal signal) requests.now }
{
    requests.iter().any(|request| request.signal == signal)
}

fn by_entries(
    hook: Hook,
    moment: u64,
    signal: Signal,
    was: Option<ActiveSignal>,
    requests: &[SignalRequest],
) -> Option<ActiveSignal>
    requires { moment < 2 ^ 62 }
    ensures { result ≡ fold (after_entry hook moment) was (entries_for signal requests.now) }
{
    requests
        .iter()
        .filter(|request| request.signal == signal)
        .fold(was, |was, request| {
            after_entry(hook, moment, was, *request)
        })
}

// What S makes of a signal, by the entries that name it.
pub(crate) fn after_entries(
    hook: Hook,
    moment: u64,
    signal: Signal,
    was: Option<ActiveSignal>,
    requests: &[SignalRequest],
) -> Option<ActiveSignal>
    requires { moment < 2 ^ 62 }
    ensures { result ≡ after_entries hook moment signal was (entries_for signal requests.now) }
{
    if is_named(signal, requests) {
        by_entries(hook, moment, signal, was, requests)
    } else if is_time_out(signal) {
        None
    } else {
        was
    }
}
