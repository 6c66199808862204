//! Signals, and what the table says of each.
ghost use Rattle.std.specs.Prelude.{◌≡◌};
ghost use Rattle.packages.specs.Looking.{kind_of, time_of, package_of, signal_name, refused_in};

use crate::hook::Hook;
use crate::package::Package;
use mg_bytes::ReturnCode;

/// A signal of the packages, in the order of the table: those of L before those of G.
#[derive(Clone, Copy, PartialEq, Eq)]
pub enum Signal {
    /// `L/dl`
    DialTone,
    /// `L/bz`
    Busy,
    /// `L/ro`
    Reorder,
    /// `L/rg`
    Ringing,
    /// `L/rs`
    RingSplash,
    /// `L/vmwi`
    MessageWaiting,
    /// `G/rt`
    Ringback,
    /// `G/cg`
    Congestion,
    /// `G/cf`
    Confirm,
}

/// The signals, in the order of the table.
pub const SIGNALS: [Signal; 9] = [
    Signal::DialTone,
    Signal::Busy,
    Signal::Reorder,
    Signal::Ringing,
    Signal::RingSplash,
    Signal::MessageWaiting,
    Signal::Ringback,
    Signal::Congestion,
    Signal::Confirm,
];

/// How a signal ends (RFC 3435, 2.1.7).
#[derive(Clone, Copy)]
pub enum Kind {
    /// After its time, unless it is stopped before.
    TimeOut,
    /// By itself: it is short, and can't be stopped.
    Brief,
    /// Only where it is stopped.
    OnOff,
}

impl Signal {
    /// The package that it is of.
    #[tactic(auto, unfolding(crate::specs::Looking::package_of))]
    pub fn package(self) -> Package
        ensures { result ≡ package_of self }
    {
        match self {
            Signal::DialTone
            | Signal::Busy
            | Signal::Reorder
            | Signal::Ringing
            | Signal::RingSplash
            | Signal::MessageWaiting => Package::Line,
            Signal::Ringback | Signal::Congestion | Signal::Confirm => Package::Generic,
        }
    }
}

/// How a signal ends.
#[tactic(auto, unfolding(crate::specs::Looking::kind_of))]
pub fn kind_of(signal: Signal) -> Kind
    ensures { result ≡ kind_of signal }
{
    match signal {
        Signal::DialTone
        | Signal::Busy
        | Signal::Reorder
        | Signal::Ringing
        | Signal::Ringback
        | Signal::Congestion => Kind::TimeOut,
        Signal::RingSplash | Signal::Confirm => Kind::Brief,
        Signal::MessageWaiting => Kind::OnOff,
    }
}

/// How long a signal lasts where no other time is asked for, in ms; 0 is without end.
#[tactic(auto, unfolding(crate::specs::Looking::time_of))]
pub fn time_of(signal: Signal) -> u32
    ensures { result ≡ time_of signal }
{
    match signal {
        Signal::DialTone => 16_000,
        Signal::Busy | Signal::Reorder => 30_000,
        Signal::Ringing | Signal::Ringback => 180_000,
        Signal::RingSplash | Signal::Confirm => 500,
        Signal::MessageWaiting | Signal::Congestion => 0,
    }
}

/// The name of a signal as it is written, with its package.
#[tactic(auto, unfolding(crate::specs::Looking::signal_name))]
pub fn signal_name(signal: Signal) -> &'static [u8]
    ensures { result.now ≡ signal_name signal }
{
    match signal {
        Signal::DialTone => b"L/dl",
        Signal::Busy => b"L/bz",
        Signal::Reorder => b"L/ro",
        Signal::Ringing => b"L/rg",
        Signal::RingSplash => b"L/rs",
        Signal::MessageWaiting => b"L/vmwi",
        Signal::Ringback => b"G/rt",
        Signal::Congestion => b"G/cg",
        Signal::Confirm => b"G/cf",
    }
}

/// The return code with which a signal is refused while the hook is so (RFC 3435, 2.4): 401 for one that can't be
/// asked for off hook, 402 for one that can't on hook, and `None` where it can be asked for.
#[tactic(auto, unfolding(crate::specs::Looking::refused_in))]
pub fn refused_in(hook: Hook, signal: Signal) -> Option<u16>
    ensures { result ≡ refused_in hook signal }
{
    match (signal, hook) {
        (Signal::MessageWaiting, _) => None,
        (Signal::Ringing | Signal::RingSplash, Hook::OnHook) => None,
        (Signal::Ringing | Signal::RingSplash, Hook::OffHook) => {
            Some(ReturnCode::AlreadyOffHook.number())
        }
        (_, Hook::OffHook) => None,
        (_, Hook::OnHook) => Some(ReturnCode::AlreadyOnHook.number()),
    }
}
