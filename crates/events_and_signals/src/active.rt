//! Active signals.
ghost use Rattle.std.specs.Prelude.{◌≡◌};
ghost use Rattle.events_and_signals.specs.Active.{is_time_out, is_forbidden};

use packages::{Hook, Kind, Signal, kind_of, refused_in};

/// A signal that is active (RFC 3435, 2.1.7), and the moment in ms at which it ends; `None` where no time ends it.
#[derive(Clone, Copy, PartialEq, Eq)]
pub struct ActiveSignal {
    pub signal: Signal,
    pub end: Option<u64>,
}

// What stands in a place of a list that has no signal yet.
impl Default for ActiveSignal {
    ghost use Rattle.std.specs.Prelude.{◌≡◌, None};
    ghost use Rattle.packages.specs.declared.signal.Signal.TheVariants.{DialTone};

    ghost is_default = { λ active. active ≡ record { signal = DialTone; end = None } };

    fn default() -> Self {
        ActiveSignal {
            signal: Signal::DialTone,
            end: None,
        }
    }
}

pub(crate) fn is_time_out(signal: Signal) -> bool
    ensures { result ≡ is_time_out signal }
{
    match kind_of(signal) {
        Kind::TimeOut => true,
        Kind::Brief | Kind::OnOff => false,
    }
}

// Whether a signal can't be asked for in this state of the hook.
pub(crate) fn is_forbidden(hook: Hook, signal: Signal) -> bool
    ensures { result ≡ is_forbidden hook signal }
{
    refused_in(hook, signal).is_some()
}
