//! The mode of a connection (RFC 3435, 2.3.5 and 3.2.2).
ghost use Rattle.std.specs.Prelude.{◌≡◌};
ghost use Rattle.connections.specs.Modes.{mode_text as text_of, mode_named, sends};

use mg_bytes::same_no_case;

/// In which directions a connection carries media. Loopback and the test modes aren't served.
#[derive(Clone, Copy)]
pub enum Mode {
    /// `sendonly`
    SendOnly,
    /// `recvonly`
    ReceiveOnly,
    /// `sendrecv`
    SendReceive,
    /// `confrnce`
    Conference,
    /// `inactive`
    Inactive,
}

/// The mode that M names, in any case; `None` for another name.
pub fn read_mode(name: &[u8]) -> Option<Mode>
    ensures { result ≡ mode_named name.now }
{
    if same_no_case(name, b"sendonly") {
        Some(Mode::SendOnly)
    } else if same_no_case(name, b"recvonly") {
        Some(Mode::ReceiveOnly)
    } else if same_no_case(name, b"sendrecv") {
        Some(Mode::SendReceive)
    } else if same_no_case(name, b"confrnce") {
        Some(Mode::Conference)
    } else if same_no_case(name, b"inactive") {
        Some(Mode::Inactive)
    } else {
        None
    }
}

/// The name of a mode, in lower case.
pub fn mode_text(mode: Mode) -> &'static [u8]
    ensures { result.now ≡ text_of mode }
{
    match mode {
        Mode::SendOnly => b"sendonly",
        Mode::ReceiveOnly => b"recvonly",
        Mode::SendReceive => b"sendrecv",
        Mode::Conference => b"confrnce",
        Mode::Inactive => b"inactive",
    }
}

pub(crate) fn sends(mode: Mode) -> bool
    ensures { result ≡ sends mode }
{
    match mode {
        Mode::SendOnly | Mode::SendReceive | Mode::Conference => true,
        Mode::ReceiveOnly | Mode::Inactive => false,
    }
}
