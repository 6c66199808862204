//! The play.
ghost use Rattle.std.specs.Prelude.{◌≡◌, is_ok, ◌∷◌, [], List, Option, Some, None, IfOk, IfErr, IfSome, OnOk, OnErr};
ghost use Rattle.std.specs.Result.{result_err};
ghost use Rattle.live_io.specs.Sending.{Sent, Grows};
ghost use Rattle.mg_bytes.specs.Words.{words};
ghost use Rattle.plain_machine.specs.Event.{GatewayEvent, event_of, datagram, phone, tick};
ghost use Rattle.plain_machine.specs.Lists.{plain};
ghost use Rattle.plain_machine.specs.Refusing.{Ends, refusal_of};
ghost use Rattle.gateway_core.specs.Changing.{Changes};
ghost use Rattle.gateway_core.specs.Stands.{Stands, Took};
ghost use Rattle.rgw_scripts.specs.declared.step.ScriptStep.TheVariants.{Phone, Show};
ghost use Rattle.rgw_scripts.specs.declared.step.ScriptLine.TheVariants.{Whole};
ghost use Rattle.rgw_scripts.specs.Script.{line_in};
ghost use Rattle.traces.specs.Writing.{arrived, typed, passed, at_clock, clock_text, opening_script};
ghost use Rattle.live_play.specs.Running.{live, Ran, RanOf, HandsFrom, Takes, TakesBy, Refuses, Asked, IsAnswer};

use crate::ends::Outlet;
use crate::handing::hand_all;
use crate::placed::{Placed, tell_trace};
use crate::shown_line::put_shown;
use crate::telling::{refuse, tell_act, tell_answered, tell_datagram, tell_tick};
use gateway_core::{Event, Gateway, OutDatagram, Outputs, Refusal};
use live_io::Teller;
use mg_bytes::{Draft, OutOfMemory};
use mg_line::Act;
use rgw_scripts::put_refusal;
use std::alloc::Global;
use std::net::SocketAddrV4;
use traces::Script;

/// A gateway that runs, and its trace.
pub struct LivePlay<T> {
    alloc: Global,
    pub gateway: Box<Gateway>,
    /// What its trace was told of clocks.
    pub script: Script,
    // What is answered to who asked last, or did something that was refused.
    printed: Vec<u8>,
    pub teller: T,
}

// Written out: a derived drop, and those of all its parts, are proved anew by each crate that lets one go.
impl<T: Drop> Drop for LivePlay<T> {
    fn drop(self) {
        let LivePlay {
            alloc: _,
            gateway,
            script: _,
            printed,
            teller,
        } = self;
        drop(gateway);
        drop(printed);
        drop(teller);
    }
}

// The gateway takes an event, or refuses it.
fn take(gateway: &mut Box<Gateway>, event: Event<'_>) -> Result<Outputs, Refusal>
    ensures ok { IfOk result (λ outputs. Took gateway.old.value (event_of event.entry ∷ []) gateway.new.value [] outputs) }
    ensures err { OnErr result (Took gateway.old.value [] gateway.new.value [] []) }
    ensures ends { (before : List GatewayEvent) → Stands gateway.old.value before →
        Ends (plain gateway.old.value.setup before) (event_of event.entry) (result_err result) }
    ensures changes { Changes (is_ok result) gateway.new.value.changed gateway.old.value.machine.endpoints gateway.new.value.machine.endpoints }
{
    gateway.step(event)
}

// What a line is is put, to be answered, or that there is none.
fn put_answer(
    alloc: Global,
    gateway: &Gateway,
    line: u16,
    out: &mut Vec<u8>,
) -> Result<(), OutOfMemory>
    ensures { OnOk result (IsAnswer gateway.now line out.new.items) }
{
    out.clear();
    if line >= 1 && line <= gateway.lines() {
        return put_shown(alloc, gateway, line, out);
    }
    put_refusal(alloc, out, Refusal::NoSuchLine)
}

impl<T: Teller + Drop> LivePlay<T> {
    /// The play of a gateway to which nothing has come, and of a trace that was told its head.
    pub fn new(alloc: Global, gateway: Box<Gateway>, teller: T) -> LivePlay<T>
        ensures gateway { result.gateway ≡ gateway }
        ensures teller { result.teller ≡ teller }
        ensures script { result.script ≡ opening_script }
        ensures printed { result.printed.items ≡ [] }
    {
        LivePlay {
            alloc,
            gateway,
            script: Script::starting(),
            printed: Vec::new(alloc),
            teller,
        }
    }

    /// What is answered to a line by which something was asked, or was done that was refused.
    pub fn printed(&self) -> &[u8]
        ensures { result.now ≡ self.now.printed.items }
    {
        self.printed.as_slice()
    }

    // The gateway took an event, at which it sends these datagrams: the trace was told of that, and they are handed out in their order.
    fn hand_out<O: Outlet>(&mut self, out: &mut O, datagrams: &[OutDatagram], told: Placed)
        ensures handed { HandsFrom O.turns O.hands
            (live self.old.gateway.value self.old.script (T.told self.old.teller) (O.handed out.old)) out.old datagrams.now
            (live self.new.gateway.value self.new.script (T.told self.new.teller) (O.handed out.new)) out.new }
        ensures came { O.came out.new ≡ O.came out.old }
        ensures printed { self.new.printed ≡ self.old.printed }
        ensures gateway { self.new.gateway ≡ self.old.gateway }
    {
        out.turned(&self.gateway);
        let messages = self.gateway.sent();
        hand_all(self.alloc, &mut self.teller, out, datagrams, messages, told);
    }

    /// The clock goes to this moment, in ms: what the gateway sends at it is handed out. A refused tick changes nothing, nor is the trace
    /// told of it. What was answered last stays.
    #[tactic(auto, using(crate::proofs::RunLemmas::goes_on_quietly))]
    pub fn tick<O: Outlet>(&mut self, out: &mut O, moment: u64) -> Result<(), Refusal>
        ensures ran { RanOf (λ input. input ≡ passed moment)
            (live self.old.gateway.value self.old.script (T.told self.old.teller) (O.handed out.old))
            (live self.new.gateway.value self.new.script (T.told self.new.teller) (O.handed out.new)) }
        ensures came { O.came out.new ≡ O.came out.old }
        ensures taken { OnOk result (Takes
            (live self.old.gateway.value self.old.script (T.told self.old.teller) (O.handed out.old)) (passed moment) (tick moment)
            (live self.new.gateway.value self.new.script (T.told self.new.teller) (O.handed out.new))) }
        ensures refused { OnErr result (Ran
            (live self.old.gateway.value self.old.script (T.told self.old.teller) (O.handed out.old)) []
            (live self.new.gateway.value self.new.script (T.told self.new.teller) (O.handed out.new))) }
        ensures outlet { OnOk result (TakesBy O.turns O.hands
            (live self.old.gateway.value self.old.script (T.told self.old.teller) (O.handed out.old)) out.old (passed moment) (tick moment)
            (live self.new.gateway.value self.new.script (T.told self.new.teller) (O.handed out.new)) out.new) }
        ensures untouched { OnErr result (out.new ≡ out.old) }
        ensures ends { (before : List GatewayEvent) → Stands self.old.gateway.value before →
            Ends (plain self.old.gateway.value.setup before) (tick moment) (result_err result) }
        ensures changes { Changes (is_ok result) self.new.gateway.value.changed self.old.gateway.value.machine.endpoints
            self.new.gateway.value.machine.endpoints }
        ensures printed { self.new.printed ≡ self.old.printed }
        ensures unheard { OnErr result (self.new ≡ record self.old { gateway = self.new.gateway }) }
    {
        match take(&mut self.gateway, Event::Tick { moment }) {
            Ok(outputs) => {
                let sent = outputs.as_slice();
                let told = tell_tick(self.alloc, &mut self.script, &mut self.teller, moment, sent);
                self.hand_out(out, sent, told);
                Ok(())
            }
            Err(refusal) => Err(refusal),
        }
    }

    /// A datagram came from there: what the gateway sends at it is handed out. Where memory is refused for it nothing is changed, nor is
    /// the trace told of it. What was answered last stays.
    #[tactic(auto, using(crate::proofs::RunLemmas::goes_on_quietly))]
    pub fn datagram<O: Outlet>(
        &mut self,
        out: &mut O,
        source: SocketAddrV4,
        bytes: &[u8],
    ) -> Result<(), Refusal>
        ensures ran { RanOf (λ input. input ≡ arrived source bytes.now)
            (live self.old.gateway.value self.old.script (T.told self.old.teller) (O.handed out.old))
            (live self.new.gateway.value self.new.script (T.told self.new.teller) (O.handed out.new)) }
        ensures came { O.came out.new ≡ O.came out.old }
        ensures taken { OnOk result (Takes
            (live self.old.gateway.value self.old.script (T.told self.old.teller) (O.handed out.old))
            (arrived source bytes.now) (datagram source bytes.now)
            (live self.new.gateway.value self.new.script (T.told self.new.teller) (O.handed out.new))) }
        ensures refused { OnErr result (Ran
            (live self.old.gateway.value self.old.script (T.told self.old.teller) (O.handed out.old)) []
            (live self.new.gateway.value self.new.script (T.told self.new.teller) (O.handed out.new))) }
        ensures outlet { OnOk result (TakesBy O.turns O.hands
            (live self.old.gateway.value self.old.script (T.told self.old.teller) (O.handed out.old)) out.old
            (arrived source bytes.now) (datagram source bytes.now)
            (live self.new.gateway.value self.new.script (T.told self.new.teller) (O.handed out.new)) out.new) }
        ensures untouched { OnErr result (out.new ≡ out.old) }
        ensures ends { (before : List GatewayEvent) → Stands self.old.gateway.value before →
            Ends (plain self.old.gateway.value.setup before) (datagram source bytes.now) (result_err result) }
        ensures changes { Changes (is_ok result) self.new.gateway.value.changed self.old.gateway.value.machine.endpoints
            self.new.gateway.value.machine.endpoints }
        ensures printed { self.new.printed ≡ self.old.printed }
        ensures unheard { OnErr result (self.new ≡ record self.old { gateway = self.new.gateway }) }
    {
        match take(&mut self.gateway, Event::Datagram { source, bytes }) {
            Ok(outputs) => {
                let sent = outputs.as_slice();
                let told = tell_datagram(
                    self.alloc,
                    &mut self.script,
                    &mut self.teller,
                    source,
                    bytes,
                    sent,
                );
                self.hand_out(out, sent, told);
                Ok(())
            }
            Err(refusal) => Err(refusal),
        }
    }

    /// Something is done at the telephone of a line, as a line of text said: what the gateway sends at it is handed out. A refused act
    /// changes nothing; why it was refused is `printed`, and saying that may want memory: then the trace isn't told of it. An act that can
    /// be done and takes none is done.
    pub fn act<O: Outlet>(
        &mut self,
        out: &mut O,
        text: &[u8],
        line: u16,
        act: Act,
    ) -> Result<(), Refusal>
        requires { line_in (words text.now) ≡ Some (Whole (Phone line act)) }
        ensures ran { RanOf (λ input. input ≡ typed text.now)
            (live self.old.gateway.value self.old.script (T.told self.old.teller) (O.handed out.old))
            (live self.new.gateway.value self.new.script (T.told self.new.teller) (O.handed out.new)) }
        ensures came { O.came out.new ≡ O.came out.old }
        ensures taken { OnOk result (Takes
            (live self.old.gateway.value self.old.script (T.told self.old.teller) (O.handed out.old)) (typed text.now) (phone line act)
            (live self.new.gateway.value self.new.script (T.told self.new.teller) (O.handed out.new))) }
        ensures refused { IfErr result (λ refusal. Refuses
            (live self.old.gateway.value self.old.script (T.told self.old.teller) (O.handed out.old))
            text.now (phone line act) refusal self.new.printed.items
            (live self.new.gateway.value self.new.script (T.told self.new.teller) (O.handed out.new))) }
        ensures outlet { OnOk result (TakesBy O.turns O.hands
            (live self.old.gateway.value self.old.script (T.told self.old.teller) (O.handed out.old)) out.old
            (typed text.now) (phone line act)
            (live self.new.gateway.value self.new.script (T.told self.new.teller) (O.handed out.new)) out.new) }
        ensures untouched { OnErr result (out.new ≡ out.old) }
        ensures ends { (before : List GatewayEvent) → Stands self.old.gateway.value before
            → refusal_of (plain self.old.gateway.value.setup before) (phone line act) ≡ None
            → Ends (plain self.old.gateway.value.setup before) (phone line act) (result_err result) }
        ensures changes { Changes (is_ok result) self.new.gateway.value.changed self.old.gateway.value.machine.endpoints
            self.new.gateway.value.machine.endpoints }
        ensures printed { OnOk result (self.new.printed ≡ self.old.printed) }
        ensures unheard { IfErr result (λ refusal. refusal ≡ Refusal.OutOfMemory
            → (T.told self.new.teller ≡ T.told self.old.teller) × (self.new.script ≡ self.old.script)) }
    {
        match take(&mut self.gateway, Event::Phone { line, act }) {
            Ok(outputs) => {
                let sent = outputs.as_slice();
                let told = tell_act(self.alloc, &mut self.script, &mut self.teller, text, sent);
                self.hand_out(out, sent, told);
                Ok(())
            }
            Err(refusal) => Err(refuse(
                self.alloc,
                &mut self.script,
                &mut self.teller,
                &mut self.printed,
                text,
                refusal,
            )),
        }
    }

    /// Nothing comes any more: the trace is told to which moment its gateway has come, and nothing else changes.
    #[tactic(auto, using(crate::proofs::RunLemmas::ends_all, crate::proofs::RunLemmas::if_none))]
    pub fn end(&mut self)
        ensures told { Grows (T.told self.old.teller) (clock_text self.old.script) (T.told self.new.teller) }
        ensures gateway { self.new.gateway ≡ self.old.gateway }
        ensures script { IfSome (T.told self.new.teller) (λ text. self.new.script ≡ at_clock self.old.script) }
        ensures rest { self.new ≡ record self.old { script = self.new.script; teller = self.new.teller } }
    {
        if self.teller.is_telling() {
            let mut text = Draft::new(self.alloc);
            self.script.put_clock(&mut text);
            let _ = tell_trace(&mut self.teller, text);
        }
    }

    /// What a line is is asked, as a line of text said: the answer is `printed`. After an error, which is for want of memory, the trace
    /// wasn't told of it.
    pub fn ask(&mut self, text: &[u8], line: u16) -> Result<(), OutOfMemory>
        requires { line_in (words text.now) ≡ Some (Whole (Show line)) }
        ensures ran { (handed : Option (List Sent)) → RanOf (λ input. input ≡ typed text.now)
            (live self.old.gateway.value self.old.script (T.told self.old.teller) handed)
            (live self.new.gateway.value self.new.script (T.told self.new.teller) handed) }
        ensures answered { (handed : Option (List Sent)) → OnOk result (Asked
            (live self.old.gateway.value self.old.script (T.told self.old.teller) handed) text.now line self.new.printed.items
            (live self.new.gateway.value self.new.script (T.told self.new.teller) handed)) }
        ensures unanswered { OnErr result (self.new ≡ record self.old { printed = self.new.printed }) }
    {
        put_answer(self.alloc, &self.gateway, line, &mut self.printed)?;
        let printed = self.printed.as_slice();
        tell_answered(
            self.alloc,
            &mut self.script,
            &mut self.teller,
            text,
            printed,
        );
        Ok(())
    }
}
