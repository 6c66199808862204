//! What changes at a line.
ghost use Rattle.std.specs.Prelude.{◌≡◌};
ghost use Rattle.line_changes.specs.Changes.{codec_text, is_same_hook, is_same_end, is_same_active, is_same_connection};

use crate::address::{is_same_address, is_same_remote};
use crate::seen::SeenConnection;
use connections::{Codec, mode_text};
use events_and_signals::ActiveSignal;
use packages::{Hook, Signal};

/// What changed at a line.
#[derive(Clone, Copy)]
pub enum Change {
    /// The handset was lifted, or put back.
    Hook { hook: Hook },
    /// A signal ends, or was stopped.
    Ends { signal: Signal },
    /// A signal begins, or begins anew, with another end.
    Begins { active: ActiveSignal },
    /// A connection is no more.
    Over { number: u32 },
    /// A connection was created, or is another than it was.
    Stands { connection: SeenConnection },
}

/// A codec by its name (RFC 3551, 6).
pub fn codec_text(codec: Codec) -> &'static [u8]
    ensures { result.now ≡ codec_text codec }
{
    match codec {
        Codec::Pcmu => b"PCMU",
        Codec::Pcma => b"PCMA",
    }
}

pub(crate) fn is_same_hook(one: Hook, other: Hook) -> bool
    ensures { result ≡ is_same_hook one other }
{
    matches!(
        (one, other),
        (Hook::OnHook, Hook::OnHook) | (Hook::OffHook, Hook::OffHook)
    )
}

fn is_same_end(one: Option<u64>, other: Option<u64>) -> bool
    ensures { result ≡ is_same_end one other }
{
    match (one, other) {
        (None, None) => true,
        (Some(one), Some(other)) => one == other,
        (None, Some(_)) | (Some(_), None) => false,
    }
}

/// Whether this is the same signal with the same end.
pub(crate) fn is_same_active(one: ActiveSignal, other: ActiveSignal) -> bool
    ensures { result ≡ is_same_active one other }
{
    one.signal == other.signal && is_same_end(one.end, other.end)
}

/// Whether a connection is as another one in all that is seen.
pub(crate) fn is_same_connection(one: SeenConnection, other: SeenConnection) -> bool
    ensures { result ≡ is_same_connection one other }
{
    one.number == other.number
        && mode_text(one.mode) == mode_text(other.mode)
        && is_same_address(one.local, other.local)
        && is_same_remote(one.remote, other.remote)
        && codec_text(one.codec) == codec_text(other.codec)
        && one.packet_time == other.packet_time
}
