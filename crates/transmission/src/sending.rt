//! Messages go out behind those that there are.
ghost use Rattle.std.specs.Prelude.{◌≡◌, ◌++◌, ◌∷◌, [], OnOk, OnErr};

use crate::output::OutDatagram;
use mg_bytes::{OutOfMemory, Text};
use std::net::SocketAddrV4;

/// A text goes to this address at this moment (in ms), behind the messages that there are. After an error these are as they
/// were.
pub fn send(
    out: &mut Vec<OutDatagram>,
    to: SocketAddrV4,
    moment: u64,
    text: Text,
) -> Result<(), OutOfMemory>
    ensures ok { OnOk result (out.new.items ≡ out.old.items ++ (record { to = to; moment = moment; bytes = text }) ∷ []) }
    ensures err { OnErr result (out.new.items ≡ out.old.items) }
{
    out.push(OutDatagram {
        to,
        moment,
        bytes: text,
    })?;
    Ok(())
}
