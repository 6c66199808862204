//! A live run is a play, and what its trace says of it, played again, is what the gateway did: laws of definitions, whose functions do
//! nothing.
ghost use Rattle.std.specs.Prelude.{◌≡◌, ◌++◌, ℕ, List, map, Some};
ghost use Rattle.live_io.specs.Sending.{Sent};
ghost use Rattle.plain_machine.specs.Event.{GatewayEvent};
ghost use Rattle.gateway_core.specs.Stands.{Stands};
ghost use Rattle.traces.specs.Writing.{Entry, IsPlay, taken_after, sent_in, written, script_after};
ghost use Rattle.live_play.specs.Readable.{AreByTicks};
ghost use Rattle.live_play.specs.Running.{Live, Ran, AreInPlace, sent_of};

pub mod desks;
pub mod lines;
pub mod live;
pub mod messages;
pub mod replays;
pub mod shown;
pub mod ticks;

/// A gateway that went on by entries stands for what it took at them; what they show is what the plain machine shows; what was handed
/// out, and what the trace was told, is theirs, in their order; what became of a datagram is said behind the entry that sent it, once at
/// most; the clock goes on by ticks alone, none of which was refused.
pub fn a_live_run_is_a_play()
    ensures stands { (was is : Live) (entries : List Entry) (before : List GatewayEvent) → Ran was entries is → Stands was.gateway before →
        Stands is.gateway (taken_after was.gateway.setup before entries) }
    ensures shown { (was is : Live) (entries : List Entry) (before : List GatewayEvent) → Ran was entries is → Stands was.gateway before →
        IsPlay was.gateway.setup before entries }
    ensures handed { (was is : Live) (entries : List Entry) (were are : List Sent) → Ran was entries is →
        was.handed ≡ Some were → is.handed ≡ Some are → are ≡ were ++ map sent_of (sent_in entries) }
    ensures told { (was is : Live) (entries : List Entry) (were are : List ℕ) → Ran was entries is →
        was.told ≡ Some were → is.told ≡ Some are → are ≡ were ++ written was.script entries }
    ensures script { (was is : Live) (entries : List Entry) (text : List ℕ) → Ran was entries is → is.told ≡ Some text →
        is.script ≡ script_after was.script entries }
    ensures marks { (was is : Live) (entries : List Entry) → Ran was entries is → AreInPlace 0 0 entries }
    ensures ticks { (was is : Live) (entries : List Entry) → Ran was entries is → AreByTicks entries }
{}

/// Runs one after the other are one run, by the entries of both.
pub fn runs_go_on()
    ensures { (was mid is : Live) (first second : List Entry) → Ran was first mid → Ran mid second is → Ran was (first ++ second) is }
{}
