//! Events, and what the table says of each.
ghost use Rattle.std.specs.Prelude.{◌≡◌};
ghost use Rattle.packages.specs.Looking.{event_name, is_persistent, completion_of};

use crate::package::Package;
use mg_bytes::Letter;

/// An event of the packages.
#[derive(Clone, Copy, PartialEq, Eq)]
pub enum LineEvent {
    /// `L/hd`
    OffHook,
    /// `L/hu`
    OnHook,
    /// `L/hf`
    Flash,
    /// `L/oc`: a signal of L ended by its time.
    LineComplete,
    /// `G/oc`: a signal of G ended by its time.
    GenericComplete,
    /// An event of D.
    Letter(Letter),
}

// The name of an event of D, with its package.
#[tactic(auto, unfolding(crate::specs::Looking::event_name))]
fn letter_name(letter: Letter) -> &'static [u8]
    ensures { result.now ≡ event_name (LineEvent.Letter letter) }
{
    match letter {
        Letter::Zero => b"D/0",
        Letter::One => b"D/1",
        Letter::Two => b"D/2",
        Letter::Three => b"D/3",
        Letter::Four => b"D/4",
        Letter::Five => b"D/5",
        Letter::Six => b"D/6",
        Letter::Seven => b"D/7",
        Letter::Eight => b"D/8",
        Letter::Nine => b"D/9",
        Letter::Star => b"D/*",
        Letter::Hash => b"D/#",
        Letter::A => b"D/A",
        Letter::B => b"D/B",
        Letter::C => b"D/C",
        Letter::D => b"D/D",
        Letter::Timer => b"D/T",
    }
}

/// The name of an event as it is written, with its package.
#[tactic(auto, unfolding(crate::specs::Looking::event_name))]
pub fn event_name(event: LineEvent) -> &'static [u8]
    ensures { result.now ≡ event_name event }
{
    match event {
        LineEvent::OffHook => b"L/hd",
        LineEvent::OnHook => b"L/hu",
        LineEvent::Flash => b"L/hf",
        LineEvent::LineComplete => b"L/oc",
        LineEvent::GenericComplete => b"G/oc",
        LineEvent::Letter(letter) => letter_name(letter),
    }
}

/// Whether an event is persistent (RFC 3435, 2.1.7): it occurs whether it was asked for or not.
#[tactic(auto, unfolding(crate::specs::Looking::is_persistent))]
pub fn is_persistent(event: LineEvent) -> bool
    ensures { result ≡ is_persistent event }
{
    match event {
        LineEvent::OffHook | LineEvent::OnHook | LineEvent::Flash => true,
        LineEvent::LineComplete | LineEvent::GenericComplete | LineEvent::Letter(_) => false,
    }
}

/// The event that tells that a signal of a package ended by its time: `oc`. D has none.
#[tactic(auto, unfolding(crate::specs::Looking::completion_of, crate::specs::Looking::event_named))]
pub fn completion_of(within: Package) -> Option<LineEvent>
    ensures { result ≡ completion_of within }
{
    match within {
        Package::Line => Some(LineEvent::LineComplete),
        Package::Generic => Some(LineEvent::GenericComplete),
        Package::Dtmf => None,
    }
}
