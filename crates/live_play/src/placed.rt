//! That a trace is told of an event before what the gateway sends at it is handed out.
ghost use Rattle.std.specs.Prelude.{◌≡◌, None};
ghost use Rattle.live_io.specs.Sending.{Grows};

use live_io::Teller;
use mg_bytes::Draft;

/// What a trace has to tell has its place in what is kept of it. It is made by telling alone, and whoever hands datagrams out uses one up:
/// so none goes out of which the trace wasn't told before.
#[derive(Drop)]
pub struct Placed {
    // Nothing is to be told where the trace was broken off, or none is asked for.
    is_told: bool,
}

/// A trace is told this, if memory was there to put it; else it is broken off.
#[tactic(auto, using(crate::proofs::RunLemmas::ends_all))]
pub(crate) fn tell_trace<T: Teller>(teller: &mut T, text: Draft) -> Placed
    ensures { Grows (T.told teller.old) text (T.told teller.new) }
{
    match text.end() {
        Ok(text) => {
            teller.tell(text.as_slice());
            Placed { is_told: true }
        }
        Err(_) => {
            teller.break_off();
            Placed { is_told: false }
        }
    }
}

/// A trace isn't told any more.
pub(crate) fn untold<T: Teller>(teller: &T) -> Placed
    requires { T.told teller.now ≡ None }
{
    Placed {
        is_told: teller.is_telling(),
    }
}
