//! What a gateway's datagrams are handed to.
ghost use Rattle.std.specs.Prelude.{◌≡◌, ◌∷◌, []};
ghost use Rattle.live_io.specs.Sending.{Grows};

use gateway_core::{Gateway, SentMessage};
use std::net::SocketAddrV4;
use traces::Mark;

/// What datagrams are handed to.
pub trait Outlet {
    ghost use Rattle.std.specs.Prelude.{ℕ, List, Option};
    ghost use Rattle.std.specs.declared.net.socket_addr.SocketAddrV4.{SocketAddrV4};
    ghost use Rattle.gateway_core.specs.GatewayState.{GatewayState};
    ghost use Rattle.live_io.specs.Sending.{Sent};
    ghost use Rattle.gateway_core.specs.declared.sent.SentMessage.{SentMessage};
    ghost use Rattle.traces.specs.declared.telling.Mark.{Mark};
    ghost use Rattle.live_play.specs.Coming.{Came};

    /// All that were handed to it, in order, where it tells.
    ghost handed: { Self → Option (List Sent) };

    /// What came to it: no datagram that is handed out changes that.
    ghost came: { Self → Came };

    /// It was told of an event by the gateway that took it: that left it so.
    ghost turns: { Self → GatewayState → Self → Type 0 };

    /// This datagram was handed to it, which has these messages: that is to be noted of it, if anything is, and it was left so.
    ghost hands: { Self → SocketAddrV4 → List ℕ → List SentMessage → Option Mark → Self → Type 0 };

    /// The gateway took an event: what it sends at it is handed out next, in its order.
    fn turned(&mut self, gateway: &Gateway)
        ensures handed { handed self.new ≡ handed self.old }
        ensures came { came self.new ≡ came self.old }
        ensures turns { turns self.old gateway.now self.new };

    /// Takes a datagram that is to go to this address, which has these messages: what became of it, where that is to be noted.
    fn hand(&mut self, to: SocketAddrV4, bytes: &[u8], messages: &[SentMessage]) -> Option<Mark>
        ensures handed { Grows (handed self.old) (record { to = to; bytes = bytes.now } ∷ []) (handed self.new) }
        ensures came { came self.new ≡ came self.old }
        ensures hands { hands self.old to bytes.now messages.now result self.new };
}
