//! What can fall due.
ghost use Rattle.std.specs.Prelude.{◌≡◌, ◌<◌};
ghost use Rattle.timers.specs.Order.{place_of, signal_count, kind_number, kind_count};

use packages::Signal;

/// What can fall due on a line, in the order in which it happens where several are due at one moment.
#[derive(Clone, Copy, PartialEq, Eq)]
pub enum LineDue {
    /// Timer T ends (RFC 3435, 2.1.5): the event D/T.
    DigitTimer,
    /// An active signal ends by its time; of several the first in the order of the table (RFC 3435, 2.1.7).
    SignalEnd(Signal),
}

/// What can fall due, in the order in which it happens where several kinds are due on one line at one moment (this
/// gateway's profile).
#[derive(Clone, Copy, PartialEq, Eq)]
pub enum DueKind {
    /// Of a line: timer T ends, or a signal does.
    OfLine(LineDue),
    /// A command in flight is sent again, or given up (RFC 3435, 3.5.3). This can fall due of the gateway itself too.
    Resend,
    /// A line announces itself (RFC 3435, 4.4.6 and 4.4.7), and so does the gateway itself.
    Announce,
}

/// How many kinds a line has.
pub(crate) const KIND_COUNT: usize = 12;

// The place of a signal in the table of signals.
fn place_of(signal: Signal) -> usize
    ensures value { result ≡ place_of signal }
    ensures within { result < signal_count }
{
    signal as usize
}

// Where a kind stands among all kinds of a line.
pub(crate) fn number_of(kind: DueKind) -> usize
    ensures number { result ≡ kind_number kind }
    ensures within { result < kind_count }
{
    match kind {
        DueKind::OfLine(LineDue::DigitTimer) => 0,
        DueKind::OfLine(LineDue::SignalEnd(signal)) => 1 + place_of(signal),
        DueKind::Resend => 10,
        DueKind::Announce => 11,
    }
}
