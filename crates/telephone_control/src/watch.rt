//! Who watches is told what changes at the lines.
ghost use Rattle.std.specs.Prelude.{◌≡◌, ◌≤◌, ◌-◌, ℕ, [], List, true, false, None, Some, IfOk, IfErr, OnOk, OnErr, slice_get, map, take};
ghost use Rattle.plain_machine.specs.Event.{GatewayEvent};
ghost use Rattle.plain_machine.specs.Lists.{plain};
ghost use Rattle.gateway_core.specs.Changing.{is_marked};
ghost use Rattle.gateway_core.specs.Stands.{Stands};
ghost use Rattle.line_changes.specs.Telling.{with_changes, watching_line};
ghost use Rattle.line_changes.specs.Watching.{longest_watch, nobody, is_watched, with_watcher};
ghost use Rattle.live_io.specs.Hearing.{AnswersTo};
ghost use Rattle.telephone_control.specs.Asking.{usage};
ghost use Rattle.telephone_control.specs.Watching.{changes_behind, sender_at, with_seen, lines_seen, BeginsToSee, IsUnasked, IsUnwatched, RefusesLine, TellsEach, TellsIf, TellsLine, TellsLines, TellsSome, WatchesOn, WatchesStill, AnswersWatch};

use crate::answering::{UNKNOWN, full_answer};
use crate::seeing::seen_line;
use gateway_core::Gateway;
use line_changes::{
    Change, ChangeText, SeenLine, Watcher, Watchers, put_changes, put_watching, told_at,
};
use live_io::Surroundings;
use mg_bytes::OutOfMemory;
use output_queues::NO_MEMORY;
use std::alloc::Global;
use std::net::{SocketAddr, SocketAddrV4};

/// Who watches, and what was seen of the lines when that was told last. While nobody watches nothing is looked at, and else only the lines
/// at which an event may have changed something.
pub struct Watch {
    watchers: Watchers,
    seen: Vec<SeenLine>,
    // What changed at a line, and how that is told: room for the next.
    changes: Vec<Change>,
    told: ChangeText,
}

// Written out: a derived drop, and those of all its parts, are proved anew by each crate that lets one go.
impl Drop for Watch {
    fn drop(self) {
        let Watch {
            watchers: _,
            seen,
            changes,
            told,
        } = self;
        drop(seen);
        drop(changes);
        drop(told);
    }
}

// What is seen of each line, from the first.
#[tactic(auto, unfolding(crate::specs::Watching::lines_seen))]
fn seen_lines(alloc: Global, gateway: &Gateway) -> Result<Vec<SeenLine>, OutOfMemory>
    ensures { (events : List GatewayEvent) → Stands gateway.now events → IfOk result (λ lines. map Some lines.items
        ≡ lines_seen gateway.now.setup (plain gateway.now.setup events) gateway.now.setup.names.lines) }
{
    let mut lines = Vec::new(alloc);
    for before in 0..gateway.lines() {
        lines.push(seen_line(alloc, gateway, before + 1)?)?;
    }
    Ok(lines)
}

// Who has a place is told this, if its time isn't over.
fn tell_one<S: Surroundings>(around: &mut S, held: Option<Watcher>, now: u64, text: &[u8])
    ensures told { AnswersTo S.around.answers (sender_at now held) around.old text.now around.new }
    ensures traffic { S.around.traffic around.new ≡ S.around.traffic around.old }
{
    if let Some(address) = told_at(now, held) {
        around.answer(SocketAddr::V4(address), text);
    }
}

// Each who watches is told this.
fn tell_all<S: Surroundings>(around: &mut S, places: &[Option<Watcher>], now: u64, text: &[u8])
    ensures told { TellsEach S.around.answers now places.now around.old text.now around.new }
    ensures traffic { S.around.traffic around.new ≡ S.around.traffic around.old }
{
    for held in places {
        tell_one(around, *held, now, text);
    }
}

impl Watch {
    /// Nobody watches.
    pub fn new(alloc: Global) -> Watch
        ensures { IsUnwatched result }
    {
        Watch {
            watchers: Watchers::none(),
            seen: Vec::new(alloc),
            changes: Vec::new(alloc),
            told: ChangeText::new(alloc),
        }
    }

    // From now on somebody is told for so long, in s, what changes: whether there is a place. Where nobody watched, the lines are as they
    // are now.
    fn begin(
        &mut self,
        alloc: Global,
        gateway: &Gateway,
        address: SocketAddrV4,
        seconds: u64,
    ) -> Result<bool, OutOfMemory>
        requires { seconds ≤ longest_watch }
        ensures rest { self.new ≡ record self.old { watchers = self.new.watchers; seen = self.new.seen } }
        ensures anew { (events : List GatewayEvent) → Stands gateway.now events
            → is_watched (plain gateway.now.setup events).now self.old.watchers.places ≡ false → IfOk result (λ _.
            map Some self.new.seen.items
            ≡ lines_seen gateway.now.setup (plain gateway.now.setup events) gateway.now.setup.names.lines) }
        ensures kept { (events : List GatewayEvent) → Stands gateway.now events
            → is_watched (plain gateway.now.setup events).now self.old.watchers.places ≡ true → self.new.seen ≡ self.old.seen }
        ensures watches { (events : List GatewayEvent) → Stands gateway.now events → IfOk result (λ watches. watches ≡ true
            → with_watcher self.old.watchers.places address (plain gateway.now.setup events).now seconds ≡ Some self.new.watchers.places) }
        ensures full { IfOk result (λ watches. watches ≡ false → self.new.watchers ≡ self.old.watchers) }
        ensures none_left { (events : List GatewayEvent) → Stands gateway.now events → IfOk result (λ watches. watches ≡ false
            → with_watcher self.old.watchers.places address (plain gateway.now.setup events).now seconds ≡ None) }
        ensures refused { IfErr result (λ _. self.new.watchers ≡ self.old.watchers) }
    {
        let now = gateway.now();
        if !self.watchers.is_watched(now) {
            self.seen = seen_lines(alloc, gateway)?;
        }
        Ok(self.watchers.watch(address, now, seconds))
    }

    // The number that the next change will have, and the gateway's moment, to be answered.
    fn begun(&self, alloc: Global, gateway: &Gateway) -> Result<Vec<u8>, OutOfMemory>
        ensures { (events : List GatewayEvent) → Stands gateway.now events → IfOk result (λ text.
            text.items ≡ watching_line self.now.told.number (plain gateway.now.setup events).now) }
    {
        let mut text = Vec::new(alloc);
        put_watching(alloc, &mut text, self.told.number(), gateway.now())?;
        Ok(text)
    }

    /// Somebody asks to be told for so long, in s, what changes; 0 ends it: the answer. Nobody, as the page, can't be told. After an error,
    /// which is for want of memory, those watch who did.
    #[tactic(auto, using(crate::proofs::WatchingLemmas::unasked))]
    pub fn ask(
        &mut self,
        alloc: Global,
        gateway: &Gateway,
        sender: Option<SocketAddrV4>,
        seconds: u64,
    ) -> Result<Vec<u8>, OutOfMemory>
        requires { seconds ≤ longest_watch }
        ensures nobody { sender ≡ None → (self.new ≡ self.old) × IfOk result (λ text. text.items ≡ usage) }
        ensures answered { (events : List GatewayEvent) (address : SocketAddrV4) → Stands gateway.now events → sender ≡ Some address
            → IfOk result (λ text. AnswersWatch self.old.watchers.places address (plain gateway.now.setup events).now seconds
            self.old.told.number text.items self.new.watchers.places) }
        ensures seen { (events : List GatewayEvent) (address : SocketAddrV4) → Stands gateway.now events → sender ≡ Some address
            → IfOk result (λ _. BeginsToSee gateway.now.setup (plain gateway.now.setup events) self.old self.new) }
        ensures refused { IfErr result (λ _. self.new.watchers ≡ self.old.watchers) }
        ensures unasked { IfErr result (λ _. IsUnasked gateway.now self.old self.new) }
    {
        let Some(address) = sender else {
            return Ok(Vec::from_slice(alloc, UNKNOWN)?);
        };
        // Put first: who is answered that memory is refused doesn't watch.
        let text = self.begun(alloc, gateway)?;
        if self.begin(alloc, gateway, address, seconds)? {
            Ok(text)
        } else {
            let full = full_answer(alloc)?;
            Ok(full)
        }
    }

    // What changed at a line is put, to be told.
    fn note(
        &mut self,
        alloc: Global,
        moment: u64,
        line: u16,
        is: &SeenLine,
    ) -> Result<(), OutOfMemory>
        requires { 1 ≤ line }
        ensures told { OnOk result (self.new.told ≡ with_changes moment line (record self.old.told { text = [] })
            (changes_behind (slice_get self.old.seen.items (line - 1)) is.now)) }
        ensures told_some { OnErr result ((count : ℕ) × (self.new.told ≡ with_changes moment line (record self.old.told { text = [] })
            (take count (changes_behind (slice_get self.old.seen.items (line - 1)) is.now)))) }
        ensures seen { self.new.seen ≡ self.old.seen }
        ensures watchers { self.new.watchers ≡ self.old.watchers }
    {
        self.changes.clear();
        self.told.clear();
        let Some(was) = self.seen.get(usize::from(line) - 1) else {
            return Ok(());
        };
        put_changes(&mut self.changes, was, is)?;
        self.told
            .put_all(alloc, moment, line, self.changes.as_slice())
    }

    // A line was seen so.
    fn keep(&mut self, line: u16, is: SeenLine)
        requires { 1 ≤ line }
        ensures seen { self.new.seen.items
            ≡ with_seen (line - 1) is (slice_get self.old.seen.items (line - 1)) self.old.seen.items }
        ensures rest { self.new ≡ record self.old { seen = self.new.seen } }
    {
        if let Some(was) = self.seen.get_mut(usize::from(line) - 1) {
            *was = is;
        }
    }

    // What changed at a line is told. After an error nobody was told anything, and the line is still seen as it was.
    fn tell_line<S: Surroundings>(
        &mut self,
        alloc: Global,
        around: &mut S,
        gateway: &Gateway,
        line: u16,
    ) -> Result<(), OutOfMemory>
        requires low { 1 ≤ line }
        requires high { line ≤ gateway.now.setup.names.lines }
        ensures told { (events : List GatewayEvent) → Stands gateway.now events → IfOk result (λ _. TellsLine S.around.answers
            gateway.now.setup (plain gateway.now.setup events) line around.old self.old around.new self.new) }
        ensures refused { IfErr result (λ _. around.new ≡ around.old) }
        ensures left { (events : List GatewayEvent) → Stands gateway.now events → IfErr result (λ _. RefusesLine
            gateway.now.setup (plain gateway.now.setup events) line self.old self.new) }
        ensures traffic { S.around.traffic around.new ≡ S.around.traffic around.old }
        ensures watchers { self.new.watchers ≡ self.old.watchers }
    {
        let is = seen_line(alloc, gateway, line)?;
        let now = gateway.now();
        self.note(alloc, now, line, &is)?;
        let text = self.told.text();
        if !text.is_empty() {
            tell_all(around, &self.watchers.places, now, text);
        }
        self.keep(line, is);
        Ok(())
    }

    // What changed at a line is told, where the last event may have changed something there; else the line isn't looked at.
    fn tell_changed<S: Surroundings>(
        &mut self,
        alloc: Global,
        around: &mut S,
        gateway: &Gateway,
        line: u16,
    ) -> Result<(), OutOfMemory>
        requires low { 1 ≤ line }
        requires high { line ≤ gateway.now.setup.names.lines }
        ensures told { (events : List GatewayEvent) → Stands gateway.now events → IfOk result (λ _.
            TellsIf (is_marked gateway.now.changed line) S.around.answers gateway.now.setup (plain gateway.now.setup events) line
            around.old self.old around.new self.new) }
        ensures refused { IfErr result (λ _. (is_marked gateway.now.changed line ≡ true) × (around.new ≡ around.old)) }
        ensures left { (events : List GatewayEvent) → Stands gateway.now events → IfErr result (λ _. RefusesLine
            gateway.now.setup (plain gateway.now.setup events) line self.old self.new) }
        ensures traffic { S.around.traffic around.new ≡ S.around.traffic around.old }
        ensures watchers { self.new.watchers ≡ self.old.watchers }
    {
        if !gateway.is_changed(line) {
            return Ok(());
        }
        self.tell_line(alloc, around, gateway, line)
    }

    // What changed at the lines is told at which the last event may have changed something.
    fn tell_lines<S: Surroundings>(
        &mut self,
        alloc: Global,
        around: &mut S,
        gateway: &Gateway,
    ) -> Result<(), OutOfMemory>
        ensures told { (events : List GatewayEvent) → Stands gateway.now events → IfOk result (λ _. TellsLines S.around.answers
            gateway.now.changed gateway.now.setup (plain gateway.now.setup events) gateway.now.setup.names.lines
            around.old self.old around.new self.new) }
        ensures refused { (events : List GatewayEvent) → Stands gateway.now events → IfErr result (λ _. TellsSome S.around.answers
            gateway.now.changed gateway.now.setup (plain gateway.now.setup events) around.old self.old around.new self.new) }
        ensures traffic { S.around.traffic around.new ≡ S.around.traffic around.old }
        ensures watchers { self.new.watchers ≡ self.old.watchers }
    {
        for before in 0..gateway.lines() {
            self.tell_changed(alloc, around, gateway, before + 1)?;
        }
        Ok(())
    }

    /// Who watches is told what changed at an event, where one was taken; where none was, no line is looked at. Where memory is refused all
    /// are told that, and watch no more; no number is used again.
    pub fn tell<S: Surroundings>(
        &mut self,
        alloc: Global,
        around: &mut S,
        gateway: &Gateway,
        is_taken: bool,
    )
        ensures traffic { S.around.traffic around.new ≡ S.around.traffic around.old }
        ensures watchers { WatchesStill S.around.answers self.old.watchers.places around.new self.new.watchers.places }
        ensures watch { (events : List GatewayEvent) → Stands gateway.now events → WatchesOn is_taken S.around.answers gateway.now.changed
            gateway.now.setup (plain gateway.now.setup events) around.old self.old around.new self.new }
    {
        if !is_taken {
            return;
        }
        let now = gateway.now();
        if !self.watchers.is_watched(now) {
            return;
        }
        match self.tell_lines(alloc, around, gateway) {
            Ok(()) => {}
            Err(_) => {
                tell_all(around, &self.watchers.places, now, NO_MEMORY);
                self.watchers.clear();
            }
        }
    }
}
