//! The loop: it asks what comes next, and does that.
#![tactic(auto, using(crate::proofs::DeskLemmas::stays_so))]

ghost use Rattle.std.specs.Prelude.{◌≡◌, ◌↔◌, ◌<◌, ◌⊎◌, ◌-◌, ◌^◌, ℕ, true, false, not, codes, List, Option, IsTrue, IfOk};
ghost use Rattle.turns.specs.Runs.{is_end};
ghost use Rattle.turns.specs.Schedule.{opening};
ghost use Rattle.plain_machine.specs.Event.{GatewayEvent};
ghost use Rattle.plain_machine.specs.Lists.{plain};
ghost use Rattle.gateway_core.specs.Changing.{Changes};
ghost use Rattle.gateway_core.specs.Stands.{Stands};
ghost use Rattle.live_journal.specs.Recording.{trace_head, Begins};
ghost use Rattle.telephone_control.specs.Losses.{counts_text};
ghost use Rattle.telephone_control.specs.Asking.{AsksFor};
ghost use Rattle.telephone_control.specs.Watching.{IsUnwatched};
ghost use Rattle.rgw_scripts.specs.declared.step.ScriptLine.{ScriptLine};
ghost use Rattle.live_io.specs.Hearing.{AnswersTo};
ghost use Rattle.live_gateway.specs.Desk.{at_desk, GoesOn};
ghost use Rattle.live_gateway.specs.Ending.{EndsAt, AsksForEnd};
ghost use Rattle.live_gateway.specs.Exchanging.{OnlyWrites};
ghost use Rattle.live_play.specs.Readable.{first_unread};
ghost use Rattle.live_gateway.specs.Answering.{DoesLine, AnswersRequest};
ghost use Rattle.live_gateway.specs.Leaving.{OnlyPlays, DoesVisit, Leaves};
ghost use Rattle.live_gateway.specs.Opening.{CountsNothing, BeginsBoard, BeginsNetwork, BeginsRecords, IsUnused, IsUnplayed, IsUntyped};
ghost use Rattle.live_gateway.specs.Turning.{LooksForOne, Does, DoesNext, MayTake, RunsTurns};

use crate::admission::Admission;
use crate::arriving::{read_address, read_bytes};
use crate::exchange::{Exchange, exchange_of};
use crate::opening::DeskSettings;
use crate::turn_parts::{note_datagram, note_taken, situation, take_from_page};
use crate::visitors::Visitors;
use gateway_core::{DATAGRAM_ROOM, Gateway};
use live_io::{Lines, Surroundings, Teller};
use live_journal::{Recorder, Trace, report_with};
use live_play::LivePlay;
use output_queues::{DONE, boxed};
use std::alloc::{AllocError, Global};
use telephone_control::{
    PHONES_FROM_AFAR, TelephoneRequest, Watch, act_answer, all_shown, answer_put, lost_of,
    question_answer, request_in, short_answer, show, typist_of,
};
use turns::{Schedule, Turn};

/// A gateway that runs, all that it stands on, and what is kept of it.
pub struct Desk<S, T> {
    alloc: Global,
    pub play: LivePlay<T>,
    pub exchange: Exchange<S>,
    pub lines: Lines,
    // Whom it hears, and who may type.
    admission: Admission,
    // Whether the line that is left is the page's.
    is_of_page: bool,
    // Who is told what changes at the lines.
    watch: Watch,
    schedule: Schedule,
    // The moment at which nothing comes any more.
    end: Option<u64>,
}

// Written out: a derived drop, and those of all its parts, are proved anew by each crate that lets one go.
impl<S: Drop, T: Drop> Drop for Desk<S, T> {
    fn drop(self) {
        let Desk {
            alloc: _,
            play,
            exchange,
            lines,
            admission: admitted,
            is_of_page: _,
            watch,
            schedule: _,
            end: _,
        } = self;
        drop(play);
        drop(exchange);
        drop(lines);
        drop(admitted);
        drop(watch);
    }
}

// Whether the line that is answered next asks for the end, and came from this machine.
fn asks_for_end(lines: &Lines) -> bool
    ensures { IsTrue result ↔ AsksForEnd lines.now }
{
    match lines.line() {
        Some(line) => line == b"stop".as_slice() && lines.is_from_loopback(),
        None => false,
    }
}

// Whether nothing comes any more.
fn is_end(turn: Turn) -> bool
    ensures { result ≡ is_end turn }
{
    matches!(turn, Turn::End)
}

/// A gateway over these surroundings, as the settings ask for it, which hears these; its trace has begun with this configuration.
/// The only error is want of memory.
#[tactic(auto)]
pub fn open_desk<S: Surroundings + Drop>(
    alloc: Global,
    settings: &DeskSettings<'_>,
    config: &[u8],
    gateway: Box<Gateway>,
    around: Box<S>,
    admission: Admission,
) -> Result<Box<Desk<S, Trace>>, AllocError>
    ensures around { IfOk result (λ desk. desk.value.exchange.around ≡ around.value) }
    ensures gateway { IfOk result (λ desk. desk.value.play.gateway ≡ gateway) }
    ensures admission { IfOk result (λ desk. desk.value.admission ≡ admission) }
    ensures end { IfOk result (λ desk. desk.value.end ≡ settings.now.end) }
    ensures trace { IfOk result (λ desk. Begins settings.now.has_trace (trace_head config.now gateway.value.setup.first)
        desk.value.play.teller.record) }
    ensures spoilt { IfOk result (λ desk. BeginsNetwork settings.now.network gateway.value.setup.names.domain desk.value.exchange.network) }
    ensures page { IfOk result (λ desk. BeginsBoard settings.now.has_page desk.value.exchange.journal.board) }
    ensures unused { IfOk result (λ desk. IsUnused desk.value.exchange) }
    ensures unplayed { IfOk result (λ desk. IsUnplayed desk.value.play) }
    ensures untyped { IfOk result (λ desk. IsUntyped desk.value.lines) }
    ensures counted { IfOk result (λ desk. CountsNothing desk.value.exchange.journal.tally.value) }
    ensures recorded { IfOk result (λ desk. BeginsRecords settings.now gateway.value.setup.names.domain desk.value.exchange.journal) }
    ensures begins { IfOk result (λ desk. (desk.value.is_of_page ≡ false) × (desk.value.schedule ≡ opening 0)
        × IsUnwatched desk.value.watch) }
{
    let Ok(lines) = Lines::new(alloc) else {
        return Err(AllocError);
    };
    let domain = gateway.setup().names.domain.as_bytes();
    let Ok(exchange) = exchange_of(alloc, settings, domain, around) else {
        return Err(AllocError);
    };
    let trace = Trace::new(alloc, settings.has_trace, config, gateway.setup().first);
    let desk = Desk {
        alloc,
        play: LivePlay::new(alloc, gateway, trace),
        exchange,
        lines,
        admission,
        is_of_page: false,
        watch: Watch::new(alloc),
        schedule: Schedule::starting_at(0),
        end: settings.end,
    };
    boxed(alloc, desk)
}

impl<S: Surroundings + Drop, T: Teller + Drop> Desk<S, T> {
    // A datagram is taken, if one is there, and who sent it is heard: whether the gateway took it.
    fn datagram(&mut self) -> bool
        ensures play { GoesOn T.told S.around.traffic self.old self.new }
        ensures looked { LooksForOne T.told S.around self.old self.new }
        ensures rest { OnlyPlays self.old self.new }
        ensures changes { Changes result self.new.play.gateway.value.changed self.old.play.gateway.value.machine.endpoints
            self.new.play.gateway.value.machine.endpoints }
    {
        let mut room = [0u8; DATAGRAM_ROOM];
        let admission = &self.admission;
        let Some((source, len)) = self.exchange.receive(admission, &mut room) else {
            return false;
        };
        let bytes = &room[..len];
        read_address(source);
        read_bytes(bytes);
        let done = self.play.datagram(&mut self.exchange, source, bytes);
        let is_taken = done.is_ok();
        let speakers = &self.admission.speakers;
        note_datagram(
            &mut self.exchange,
            is_taken,
            self.play.gateway.outcomes(),
            source,
            bytes,
        );
        note_taken(
            &mut self.exchange,
            is_taken,
            self.play.gateway.sent(),
            speakers,
        );
        is_taken
    }

    /// What was counted so far, as text. Its only error is want of memory.
    pub fn counts(&self) -> Result<Vec<u8>, AllocError>
        ensures { (events : List GatewayEvent) → Stands self.now.play.gateway.value events → IfOk result (λ text. text.items
            ≡ counts_text self.now.exchange.journal self.now.exchange.faults self.now.play.gateway.value.setup
            (plain self.now.play.gateway.value.setup events)) }
    {
        let exchange = &self.exchange;
        let lost = lost_of(&self.play.gateway);
        report_with(self.alloc, &exchange.journal, lost, exchange.faults)
    }

    // What a line asks for is answered that asks neither for an act nor for what a line is. Who asks for the end is answered when the
    // gateway has ended.
    fn answer_request(&mut self, request: TelephoneRequest)
        requires { (said : Option ScriptLine) × AsksFor request said }
        ensures play { at_desk T.told S.around.traffic self.new ≡ at_desk T.told S.around.traffic self.old }
        ensures answered { AnswersRequest S.around.answers request self.old self.new }
        ensures admission { self.new.admission ≡ self.old.admission }
        ensures schedule { self.new.schedule ≡ self.old.schedule }
    {
        match request {
            TelephoneRequest::ShowAll => {
                let answer = all_shown(self.alloc, &self.play.gateway);
                answer_put(&mut self.lines, &mut self.exchange.around, answer);
            }
            TelephoneRequest::Watch { seconds } => {
                let sender = self.lines.sender();
                let answer = self
                    .watch
                    .ask(self.alloc, &self.play.gateway, sender, seconds);
                answer_put(&mut self.lines, &mut self.exchange.around, answer);
            }
            TelephoneRequest::Counts => {
                let answer = self.counts();
                answer_put(&mut self.lines, &mut self.exchange.around, answer);
            }
            TelephoneRequest::Stop => self.end = Some(0),
            TelephoneRequest::Refused => {
                self.lines
                    .answer_all(&mut self.exchange.around, PHONES_FROM_AFAR);
            }
            TelephoneRequest::Act { .. }
            | TelephoneRequest::Show { .. }
            | TelephoneRequest::StopFromAfar
            | TelephoneRequest::Unknown
            | TelephoneRequest::OutOfMemory => {
                let answer = short_answer(request);
                self.lines.answer(&mut self.exchange.around, answer);
            }
        }
    }

    // What the line asks for that is to be answered next is done: whether the gateway took it.
    #[tactic(auto, using(crate::proofs::DeskLemmas::stays_so, crate::proofs::DeskLemmas::stays))]
    fn take_line(&mut self) -> bool
        ensures play { GoesOn T.told S.around.traffic self.old self.new }
        ensures line { DoesLine T.told S.around self.old self.new }
        ensures changes { Changes result self.new.play.gateway.value.changed self.old.play.gateway.value.machine.endpoints
            self.new.play.gateway.value.machine.endpoints }
        ensures schedule { self.new.schedule ≡ self.old.schedule }
    {
        let is_here = self.lines.is_from_loopback();
        let is_afar = self.lines.is_from_afar();
        let who = typist_of(is_here, is_afar, self.admission.are_phones_open);
        let Some(text) = self.lines.line() else {
            return false;
        };
        match request_in(self.alloc, text, who) {
            TelephoneRequest::Act { line, act } => {
                let now = self.exchange.now;
                self.exchange.journal.act(now, text);
                let done = self.play.act(&mut self.exchange, text, line, act);
                let is_taken = done.is_ok();
                note_taken(
                    &mut self.exchange,
                    is_taken,
                    self.play.gateway.sent(),
                    &self.admission.speakers,
                );
                let printed = self.play.printed();
                let answer = act_answer(done, printed);
                let clock = self.exchange.now.clock;
                self.exchange.journal.answered(clock, answer);
                self.lines.answer(&mut self.exchange.around, answer);
                is_taken
            }
            TelephoneRequest::Show { line } => {
                let asked = self.play.ask(text, line);
                let answer = question_answer(asked, self.play.printed());
                self.lines.answer(&mut self.exchange.around, answer);
                false
            }
            other => {
                self.answer_request(other);
                false
            }
        }
    }

    // A visitor is served, if one is there.
    fn visit<V: Visitors<S>>(&mut self, visitors: &mut Option<Box<V>>, moment: u64)
        ensures { DoesVisit S.around V.visits.serves moment visitors.old visitors.new self.old self.new }
    {
        let faults = self.exchange.faults;
        let behind = moment.saturating_sub(self.play.gateway.now());
        show(
            self.alloc,
            &self.play.gateway,
            &mut self.exchange.journal,
            faults,
            behind,
        );
        self.exchange.serve_visitor(visitors, moment);
        self.is_of_page = take_from_page(
            self.alloc,
            &mut self.exchange,
            &mut self.lines,
            false,
            self.is_of_page,
        );
    }

    // A turn of somebody's, or a wait, where it is now this moment: whether the gateway took an event at it.
    fn do_turn<V: Visitors<S>>(
        &mut self,
        turn: Turn,
        visitors: &mut Option<Box<V>>,
        moment: u64,
    ) -> bool
        requires { (to : ℕ) → turn ≡ Turn.Tick to
            → (to < first_unread) × ((events : List GatewayEvent) → Stands self.old.play.gateway.value events
            → (plain self.old.play.gateway.value.setup events).now < to) }
        ensures play { GoesOn T.told S.around.traffic self.old self.new }
        ensures does { Does T.told S.around turn self.old self.new }
        ensures leaves { Leaves S.around V.visits.serves moment turn visitors.old visitors.new self.old self.new }
        ensures over { is_end turn ≡ true → (self.new.play ≡ self.old.play) × (self.new.end ≡ self.old.end) }
        ensures may { MayTake turn result }
        ensures changes { Changes result self.new.play.gateway.value.changed self.old.play.gateway.value.machine.endpoints
            self.new.play.gateway.value.machine.endpoints }
    {
        match turn {
            Turn::Tick { moment } => {
                self.exchange.begin(moment);
                let done = self.play.tick(&mut self.exchange, moment);
                let is_taken = done.is_ok();
                note_taken(
                    &mut self.exchange,
                    is_taken,
                    self.play.gateway.sent(),
                    &self.admission.speakers,
                );
                is_taken
            }
            // A line is taken, if one is there. Who types and the page take turns: behind what was typed comes one act of the page's.
            Turn::Command => {
                let was_page = self.is_of_page;
                self.exchange.hear(&mut self.lines);
                let is_taken = self.take_line();
                self.is_of_page = take_from_page(
                    self.alloc,
                    &mut self.exchange,
                    &mut self.lines,
                    !was_page,
                    false,
                );
                is_taken
            }
            Turn::Datagram => self.datagram(),
            Turn::Visit => {
                self.visit(visitors, moment);
                false
            }
            Turn::Look => {
                self.exchange.wait(0);
                false
            }
            Turn::Wait { until } => {
                self.exchange.wait(until.saturating_sub(moment));
                false
            }
            Turn::Note { pause } => {
                let now = self.exchange.now;
                let log = &mut self.exchange.journal.log;
                log.pause(now, pause.lateness, pause.read);
                false
            }
            Turn::End => false,
        }
    }

    /// Asks what comes next and does that, and who watches is told what changed, where an event was taken: whether the end hasn't come. Once ticks have come to the
    /// end nothing more is done.
    pub fn turn<V: Visitors<S>>(&mut self, visitors: &mut Option<Box<V>>) -> bool
        ensures play { GoesOn T.told S.around.traffic self.old self.new }
        ensures end { EndsAt self.old.end self.old.play.gateway.value (not result) }
        ensures does { DoesNext T.told S.around V.visits self.old visitors.old self.new visitors.new }
        ensures over { result ≡ false → (self.new.play ≡ self.old.play) × (self.new.end ≡ self.old.end) }
    {
        let ticked = self.play.gateway.now();
        let due = self.play.gateway.next_due();
        let is_line_left = !self.lines.is_empty();
        let at = situation(
            &mut self.exchange,
            visitors,
            ticked,
            due,
            self.end,
            is_line_left,
        );
        let turn = self.schedule.next(at);
        self.exchange.begin(at.ticked);
        let is_taken = self.do_turn(turn, visitors, at.moment);
        self.watch.tell(
            self.alloc,
            &mut self.exchange.around,
            &self.play.gateway,
            is_taken,
        );
        !is_end(turn)
    }

    /// Writes what was recorded at the turn that is over, as far as it is taken at once.
    #[tactic(auto, using(crate::proofs::DeskLemmas::written_off))]
    pub fn write<W: Recorder<T>>(&mut self, recorder: &mut W)
        ensures play { GoesOn T.told S.around.traffic self.old self.new }
        ensures lines { self.new.lines ≡ self.old.lines }
        ensures gateway { self.new.play.gateway ≡ self.old.play.gateway }
        ensures wrote { W.writer.writes recorder.old self.old.exchange.journal self.old.play.teller self.old.exchange.now.time
            recorder.new self.new.exchange.journal self.new.play.teller }
        ensures offering { W.writer.offers recorder.new self.new.exchange.is_offering }
        ensures teller { self.new.play ≡ record self.old.play { teller = self.new.play.teller } }
        ensures exchange { OnlyWrites self.old.exchange self.new.exchange }
        ensures rest { self.new ≡ record self.old { play = self.new.play; exchange = self.new.exchange } }
    {
        let time = self.exchange.now.time;
        recorder.write(&mut self.exchange.journal, &mut self.play.teller, time);
        self.exchange.is_offering = recorder.is_offering();
    }

    /// Runs until the end comes, and writes after each turn what was recorded.
    #[tactic(auto, using(crate::proofs::DeskLemmas::stays, crate::proofs::DeskLemmas::goes_on_then))]
    pub fn run<V: Visitors<S>, W: Recorder<T>>(
        &mut self,
        visitors: &mut Option<Box<V>>,
        recorder: &mut W,
    )
        ensures play { GoesOn T.told S.around.traffic self.old self.new }
        ensures end { (count : ℕ)
            × RunsTurns S.around.passes (DoesNext T.told S.around V.visits) W.writer count
            self.old visitors.old recorder.old self.new visitors.new recorder.new
            × ((EndsAt self.new.end self.new.play.gateway.value true) ⊎ (count ≡ 2 ^ 64 - 1)) }
    {
        // It begins now: what its start took isn't a pause.
        let moment = self.exchange.moment(self.play.gateway.now());
        self.schedule = Schedule::starting_at(moment);
        for _ in 0..u64::MAX {
            let goes_on = self.turn(visitors);
            self.write(recorder);
            if !goes_on {
                return;
            }
        }
    }

    /// The gateway has ended, and all is written that is told of it: who asked for the end is answered, where somebody did. What
    /// stands behind that in the datagram isn't done.
    pub fn answer_stop(&mut self)
        ensures play { at_desk T.told S.around.traffic self.new ≡ at_desk T.told S.around.traffic self.old }
        ensures stopped { AsksForEnd self.old.lines →
            AnswersTo S.around.answers self.old.lines.sender self.old.exchange.around (codes "done\n") self.new.exchange.around }
        ensures other { (AsksForEnd self.old.lines → ⊥) → self.new.exchange ≡ self.old.exchange }
        ensures kept { self.new.exchange ≡ record self.old.exchange { around = self.new.exchange.around } }
        ensures rest { self.new ≡ record self.old { exchange = self.new.exchange; lines = self.new.lines } }
    {
        if asks_for_end(&self.lines) {
            self.lines.answer_all(&mut self.exchange.around, DONE);
        }
    }
}
