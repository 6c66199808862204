//! What a gateway sends is handed out, and its trace told what became of it.
ghost use Rattle.std.specs.Prelude.{◌≡◌, ◌+◌, ◌∷◌, [], ℕ, List};
ghost use Rattle.gateway_core.specs.declared.sent.SentMessage.{SentMessage};
ghost use Rattle.gateway_core.specs.GatewayState.{GatewayState};
ghost use Rattle.traces.specs.declared.script.Script.{Script};
ghost use Rattle.gateway_core.specs.Outgoing.{own_messages};
ghost use Rattle.live_play.specs.Running.{live, HandsBy};

use crate::ends::Outlet;
use crate::placed::Placed;
use crate::telling::tell_mark;
use gateway_core::{OutDatagram, SentMessage, split_sent};
use live_io::Teller;
use std::alloc::Global;

/// The first place that isn't read again, of 19 digits.
pub const FIRST_UNREAD: u64 = 1_000_000_000_000_000_000;

// The datagram at this place is handed out with its own messages. What became of it isn't told at a place that isn't read again.
fn hand<O: Outlet, T: Teller>(
    alloc: Global,
    teller: &mut T,
    out: &mut O,
    datagram: &OutDatagram,
    own: &[SentMessage],
    place: u64,
)
    ensures handed { (gateway : GatewayState) (script : Script) (before : ℕ) (messages : List SentMessage) → place ≡ before + 1
        → own.now ≡ own_messages datagram.now messages → HandsBy O.hands
        (live gateway script (T.told teller.old) (O.handed out.old)) out.old before (datagram.now ∷ []) messages
        (live gateway script (T.told teller.new) (O.handed out.new)) out.new }
    ensures came { O.came out.new ≡ O.came out.old }
{
    match out.hand(datagram.to, datagram.bytes.as_bytes(), own) {
        Some(mark) => {
            if place < FIRST_UNREAD {
                tell_mark(alloc, teller, mark, place);
            }
        }
        None => {}
    }
}

/// Datagrams are handed out in their order, each with those of these messages that stand in it, where the trace was told of them before.
pub(crate) fn hand_all<O: Outlet, T: Teller>(
    alloc: Global,
    teller: &mut T,
    out: &mut O,
    datagrams: &[OutDatagram],
    messages: &[SentMessage],
    _told: Placed,
)
    ensures handed { (gateway : GatewayState) (script : Script) → HandsBy O.hands
        (live gateway script (T.told teller.old) (O.handed out.old)) out.old 0 datagrams.now messages.now
        (live gateway script (T.told teller.new) (O.handed out.new)) out.new }
    ensures came { O.came out.new ≡ O.came out.old }
{
    let mut place: u64 = 0;
    let mut left = messages;
    for datagram in datagrams {
        place = place.saturating_add(1);
        let (own, others) = split_sent(datagram, left);
        hand(alloc, teller, out, datagram, own, place);
        left = others;
    }
}
