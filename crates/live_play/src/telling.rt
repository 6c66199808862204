//! What the trace of a gateway that runs is told.
ghost use Rattle.std.specs.Prelude.{◌≡◌, ◌++◌, IfSome, OnOk, OnErr};
ghost use Rattle.live_io.specs.Sending.{Grows};
ghost use Rattle.rgw_scripts.specs.Moves.{sends};
ghost use Rattle.rgw_scripts.specs.Printing.{printed_line, refusal_line};
ghost use Rattle.traces.specs.Telling.{told_mark, told_text};
ghost use Rattle.traces.specs.Writing.{arrived, typed, tick_text, after_tick, input_text, at_clock, clock_text};
ghost use Rattle.live_play.specs.Running.{TellsRefusal};

use crate::placed::{Placed, tell_trace, untold};
use gateway_core::{OutDatagram, Refusal};
use live_io::Teller;
use mg_bytes::{Draft, OutOfMemory};
use rgw_scripts::put_refusal;
use std::alloc::Global;
use std::net::SocketAddrV4;
use traces::{Mark, Script, put_mark};

/// A tick, and what was sent at it.
#[tactic(auto, using(crate::proofs::RunLemmas::ends_all, crate::proofs::RunLemmas::if_none))]
pub(crate) fn tell_tick<T: Teller>(
    alloc: Global,
    script: &mut Script,
    teller: &mut T,
    moment: u64,
    sent: &[OutDatagram],
) -> Placed
    ensures told { Grows (T.told teller.old) (tick_text script.old moment sent.now) (T.told teller.new) }
    ensures script { IfSome (T.told teller.new) (λ text. script.new ≡ after_tick script.old moment sent.now) }
{
    if !teller.is_telling() {
        return untold(teller);
    }
    let mut text = Draft::new(alloc);
    script.put_tick(&mut text, moment, sent);
    tell_trace(teller, text)
}

/// A datagram that came, and what was sent at it.
#[tactic(auto, using(crate::proofs::RunLemmas::ends_all, crate::proofs::RunLemmas::if_none))]
pub(crate) fn tell_datagram<T: Teller>(
    alloc: Global,
    script: &mut Script,
    teller: &mut T,
    source: SocketAddrV4,
    bytes: &[u8],
    sent: &[OutDatagram],
) -> Placed
    ensures told { Grows (T.told teller.old) (input_text script.old (arrived source bytes.now) (sends sent.now)) (T.told teller.new) }
    ensures script { IfSome (T.told teller.new) (λ text. script.new ≡ at_clock script.old) }
{
    if !teller.is_telling() {
        return untold(teller);
    }
    let mut text = Draft::new(alloc);
    script.put_datagram(&mut text, source, bytes, sent);
    tell_trace(teller, text)
}

/// A line by which something was done, and what was sent at it.
#[tactic(auto, using(crate::proofs::RunLemmas::ends_all, crate::proofs::RunLemmas::if_none))]
pub(crate) fn tell_act<T: Teller>(
    alloc: Global,
    script: &mut Script,
    teller: &mut T,
    line: &[u8],
    sent: &[OutDatagram],
) -> Placed
    ensures told { Grows (T.told teller.old) (input_text script.old (typed line.now) (sends sent.now)) (T.told teller.new) }
    ensures script { IfSome (T.told teller.new) (λ text. script.new ≡ at_clock script.old) }
{
    if !teller.is_telling() {
        return untold(teller);
    }
    let mut text = Draft::new(alloc);
    script.put_act(&mut text, line, sent);
    tell_trace(teller, text)
}

/// A line, and what is answered to it.
#[tactic(auto, using(crate::proofs::RunLemmas::ends_all, crate::proofs::RunLemmas::if_none))]
pub(crate) fn tell_answered<T: Teller>(
    alloc: Global,
    script: &mut Script,
    teller: &mut T,
    line: &[u8],
    printed: &[u8],
)
    ensures told { Grows (T.told teller.old) (clock_text script.old ++ printed_line line.now ++ told_text printed.now) (T.told teller.new) }
    ensures script { IfSome (T.told teller.new) (λ text. script.new ≡ at_clock script.old) }
{
    if teller.is_telling() {
        let mut text = Draft::new(alloc);
        script.put_answered(&mut text, line, printed);
        let _ = tell_trace(teller, text);
    }
}

/// What became of the datagram at this place among those of this turn.
#[tactic(auto, using(crate::proofs::RunLemmas::ends_all))]
pub(crate) fn tell_mark<T: Teller>(alloc: Global, teller: &mut T, mark: Mark, place: u64)
    ensures { Grows (T.told teller.old) (told_mark mark place) (T.told teller.new) }
{
    if teller.is_telling() {
        let mut text = Draft::new(alloc);
        put_mark(&mut text, mark, place);
        let _ = tell_trace(teller, text);
    }
}

// An act was refused, and not for want of memory: why is put, and told.
fn tell_refusal<T: Teller>(
    alloc: Global,
    script: &mut Script,
    teller: &mut T,
    printed: &mut Vec<u8>,
    line: &[u8],
    refusal: Refusal,
) -> Result<(), OutOfMemory>
    ensures ok { OnOk result (Grows (T.told teller.old)
        (clock_text script.old ++ printed_line line.now ++ told_text (printed_line (refusal_line refusal))) (T.told teller.new)) }
    ensures ok_script { OnOk result (IfSome (T.told teller.new) (λ text. script.new ≡ at_clock script.old)) }
    ensures ok_printed { OnOk result (printed.new.items ≡ printed_line (refusal_line refusal)) }
    ensures err { OnErr result (T.told teller.new ≡ T.told teller.old) }
    ensures err_script { OnErr result (script.new ≡ script.old) }
{
    printed.clear();
    put_refusal(alloc, printed, refusal)?;
    tell_answered(alloc, script, teller, line, printed.as_slice());
    Ok(())
}

/// The same, but that nothing is told where the refusal is want of memory.
pub(crate) fn refuse<T: Teller>(
    alloc: Global,
    script: &mut Script,
    teller: &mut T,
    printed: &mut Vec<u8>,
    line: &[u8],
    refusal: Refusal,
) -> Refusal
    ensures { TellsRefusal line.now refusal result printed.new.items (T.told teller.old) script.old (T.told teller.new) script.new }
{
    if refusal == Refusal::OutOfMemory {
        return refusal;
    }
    match tell_refusal(alloc, script, teller, printed, line, refusal) {
        Ok(()) => refusal,
        Err(_) => Refusal::OutOfMemory,
    }
}
