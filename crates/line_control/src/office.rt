//! The exchange in the program's hands: which command each line is sent, and what its answer means for the line's calls.
//!
//! Nothing goes over all lines but the opening: those to which something has happened wait, and are settled.
ghost use Rattle.std.specs.Prelude.{◌≡◌, ◌≢◌, ◌⊎◌, ◌↔◌, ℕ, true, false, length, replicate, Some, IfOk, IfSome, IsTrue, option_map, slice_get};
ghost use Rattle.call_processing.specs.Phases.{named_by};
ghost use Rattle.call_processing.specs.declared.told.Told.TheVariants.{Flash};
ghost use Rattle.call_processing.specs.declared.command.Outcome.TheVariants.{GivenUp};
ghost use Rattle.call_processing.specs.Exchange.{opening, phase_of, flight_in, line_of, told};
ghost use Rattle.call_processing.specs.Numbers.{told_in, tells_digits};
ghost use Rattle.agent_log.specs.Standings.{with_change};
ghost use Rattle.agent_log.specs.Telling.{change_told, Tells};
ghost use Rattle.line_control.specs.declared.care.Duty.TheVariants.{Audit};
ghost use Rattle.line_control.specs.Duties.{new_care, landed, lost, announced, told_of, woken, changed_by};
ghost use Rattle.line_control.specs.Orders.{shown, flight_of, was_found_off, is_outlived, has_told, again_of, is_put_off_in, cared, ordered};
ghost use Rattle.line_control.specs.Responses.{is_creation};
ghost use Rattle.line_control.specs.Showing.{shown_in, Shows, ShowsLine};
ghost use Rattle.line_control.specs.Turns.{forsaken, announced_by, outcome_with, told_by_audit, kept_behind, Routes, AnswersAudit, TakesResponse, TakesAnswer};
ghost use Rattle.line_control.specs.Steps.{Begins, Hears};
ghost use Rattle.line_control.specs.Waiting.{waits, settling, settled_at, IsWaiting, Settles, Touches, WaitOn};

use crate::care::{Care, Change, Duty, NEW_CARE, Shown, fixed_order};
use crate::hooks::{audited_hook, is_off_hook, notified, told_by_hook};
use crate::responses::outcome_of;
use crate::worklist::Worklist;
use agent_config::copied;
use agent_log::{Journal, Standing, Station, refusals_of, standing_of, tell_change, tell_refusals};
use call_processing::{Command, Exchange, NumberPlan, Outcome, Told, named_by, told_in};
use mg_bytes::{OutOfMemory, Text};
use packages::Observed;
use std::alloc::{AllocError, Global};

/// An exchange, and what is kept of its lines beside that.
pub struct Office {
    exchange: Exchange,
    cares: Vec<Care>,
    // The lines to which something has happened: what they are sent, and how they stand, may be another.
    worklist: Worklist,
}

// Written out: a derived drop, and those of all its parts, are proved anew by each crate that lets one go.
impl Drop for Office {
    fn drop(self) {
        let Office {
            exchange,
            cares,
            worklist,
        } = self;
        drop(exchange);
        drop(cares);
        drop(worklist);
    }
}

/// A command that is to be issued.
pub struct Order {
    pub verb: &'static [u8],
    /// What stands behind the command line.
    pub rest: Text,
}

// Written out: a derived drop is proved anew by each crate that lets one go.
impl Drop for Order {
    fn drop(self) {
        let Order { verb: _, rest } = self;
        drop(rest);
    }
}

// Something happens to a line: it waits, and so does the other end of its call. To be said before and behind it.
fn touch(worklist: &mut Worklist, exchange: &Exchange, line: usize)
    ensures line { IsWaiting worklist.new line }
    ensures end { IfSome (named_by (phase_of exchange.now line)) (λ other. IsWaiting worklist.new other) }
    ensures others { (other : ℕ) → IsWaiting worklist.old other → IsWaiting worklist.new other }
    ensures rest { worklist.new ≡ record worklist.old { waiting = worklist.new.waiting; is_all = worklist.new.is_all } }
{
    worklist.put(line);
    if let Some(other) = named_by(exchange.phase(line)) {
        worklist.put(other);
    }
}

// What is kept of a line, if there is that one.
fn care_at(cares: &[Care], line: usize) -> Option<Care>
    ensures { result ≡ slice_get cares.now line }
{
    cares.get(line).copied()
}

// This happens to what is kept of a line: what that was before, if there is that line.
fn change_at(cares: &mut Vec<Care>, line: usize, change: Change) -> Option<Care>
    ensures was { result ≡ slice_get cares.old.items line }
    ensures cares { cares.new.items ≡ cared (changed_by change) cares.old.items line }
{
    match cares.get_mut(line) {
        Some(care) => {
            let was = *care;
            care.change(change);
            Some(was)
        }
        None => None,
    }
}

// What the command in flight to a line is for of which this is kept.
fn flight_of(care: Option<Care>) -> Option<Duty>
    ensures { result ≡ flight_of care }
{
    match care {
        Some(care) => care.flight,
        None => None,
    }
}

// Whether an audit has found the handset lifted of a line of which this is kept.
fn was_found_off(care: Option<Care>) -> bool
    ensures { result ≡ was_found_off care }
{
    match care {
        Some(care) => care.is_found_off,
        None => false,
    }
}

// Whether the gateway has started again since the command in flight to a line was issued of which this is kept.
fn is_outlived(care: Option<Care>) -> bool
    ensures { result ≡ is_outlived care }
{
    match care {
        Some(care) => care.is_outlived,
        None => false,
    }
}

// Whether a line has told something since it was audited of which this is kept.
fn has_told(care: Option<Care>) -> bool
    ensures { result ≡ has_told care }
{
    match care {
        Some(care) => care.has_told,
        None => true,
    }
}

// When what was put off of a line is sent again of which this is kept, in ms, if anything was.
fn again_of(care: Option<Care>) -> Option<u64>
    ensures { result ≡ again_of care }
{
    match care {
        Some(care) => care.again,
        None => None,
    }
}

// Whether a duty beside the exchange that was refused by this code is put off at a line of which this is kept.
fn is_put_off(care: Option<Care>, code: u16) -> bool
    ensures { result ≡ is_put_off_in code care }
{
    match care {
        Some(care) => care.is_put_off(code),
        None => false,
    }
}

// The exchange's command to a line, if one is in flight.
fn flight_at(exchange: &Exchange, line: usize) -> Option<Command>
    ensures { result ≡ flight_in (line_of exchange.now line) }
{
    match exchange.line(line) {
        Some(line) => line.flight,
        None => None,
    }
}

// A command to the line that was for this was given up.
fn forsake(exchange: &mut Exchange, line: usize, duty: Option<Duty>)
    ensures { exchange.new ≡ forsaken exchange.old line duty }
{
    match duty {
        Some(Duty::Route) => {
            let _ = exchange.answer(line, Outcome::GivenUp);
        }
        Some(Duty::Clear | Duty::Audit) | None => {}
    }
}

// This became of the exchange's command to the line.
fn route_answered(
    exchange: &mut Exchange,
    cares: &mut Vec<Care>,
    line: usize,
    moment: u64,
    outcome: Outcome,
)
    ensures { Routes outcome line moment exchange.old cares.old.items exchange.new cares.new.items }
{
    let off = exchange.answer(line, outcome);
    let _ = change_at(cares, line, Change::Routed { moment, off });
}

// The exchange's command to the line was answered. Where memory is refused for reading what was created it counts as given up.
fn answer(
    alloc: Global,
    exchange: &mut Exchange,
    cares: &mut Vec<Care>,
    line: usize,
    moment: u64,
    code: u16,
    text: &[u8],
)
    ensures { Routes (outcome_with exchange.old line code text.now) line moment exchange.old cares.old.items exchange.new cares.new.items
        ⊎ ((is_creation code (flight_in (line_of exchange.old line)) ≡ true)
        × Routes GivenUp line moment exchange.old cares.old.items exchange.new cares.new.items) }
{
    match outcome_of(alloc, code, flight_at(exchange, line), text) {
        Ok(outcome) => route_answered(exchange, cares, line, moment, outcome),
        Err(_) => route_answered(exchange, cares, line, moment, Outcome::GivenUp),
    }
}

// The line was audited: what that tells. Where memory is refused for reading it no hook is told.
fn tell_hook(alloc: Global, exchange: &mut Exchange, line: usize, text: &[u8]) -> Told
    ensures event { (result ≡ told_by_audit exchange.old line text.now) ⊎ (result ≡ Flash) }
    ensures exchange { exchange.new ≡ told exchange.old line result }
{
    match audited_hook(alloc, text) {
        Ok(hook) => {
            let told = told_by_hook(hook, exchange.phase(line));
            exchange.tell(line, told);
            told
        }
        Err(_) => {
            exchange.tell(line, Told::Flash);
            Told::Flash
        }
    }
}

// The line's audit was answered: it is put off, or taken.
fn audit_answered(
    alloc: Global,
    exchange: &mut Exchange,
    cares: &mut Vec<Care>,
    line: usize,
    moment: u64,
    code: u16,
    text: &[u8],
)
    ensures { AnswersAudit (is_put_off_in code (slice_get cares.old.items line)) line text.now exchange.old
        (kept_behind Audit line moment code cares.old.items) exchange.new cares.new.items }
{
    let duty = Duty::Audit;
    let was = change_at(cares, line, Change::Answer { moment, code, duty });
    if is_put_off(was, code) {
        return;
    }
    // What the line told since it was audited is newer.
    if has_told(care_at(cares.as_slice(), line)) {
        return;
    }
    let told = tell_hook(alloc, exchange, line, text);
    let is_off = is_off_hook(Some(told));
    let _ = change_at(cares, line, Change::Find { is_off });
}

// A final response came at this moment to a command to the line that was for this, which has landed.
fn take_response(
    alloc: Global,
    exchange: &mut Exchange,
    cares: &mut Vec<Care>,
    line: usize,
    duty: Option<Duty>,
    moment: u64,
    code: u16,
    text: &[u8],
)
    ensures { TakesResponse duty line moment code text.now exchange.old cares.old.items exchange.new cares.new.items }
{
    match duty {
        Some(Duty::Route) => answer(alloc, exchange, cares, line, moment, code, text),
        Some(Duty::Audit) => audit_answered(alloc, exchange, cares, line, moment, code, text),
        // The deletion of all that the line has: it is put off, or over.
        Some(Duty::Clear) => {
            let duty = Duty::Clear;
            let was = change_at(cares, line, Change::Answer { moment, code, duty });
            if is_put_off(was, code) {
                return;
            }
            exchange.clear(line, code);
        }
        None => {}
    }
}

// A line that is announced has started again: a call that it was in is over.
fn restart(exchange: &mut Exchange, line: usize, is_restart: bool)
    ensures { exchange.new ≡ announced_by is_restart exchange.old line }
{
    if is_restart {
        exchange.tell(line, Told::Restarted);
    }
}

// A notification of the line told these events. Where memory is refused for their digits the line's hook is asked for.
fn take_told(
    alloc: Global,
    exchange: &mut Exchange,
    cares: &mut Vec<Care>,
    plan: &NumberPlan,
    line: usize,
    observed: &[Observed],
)
    ensures { Hears (told_in plan.now observed.now) (tells_digits observed.now) line exchange.old cares.old.items
        exchange.new cares.new.items }
{
    let was_off = was_found_off(change_at(cares, line, Change::Tell));
    let Ok(told) = told_in(alloc, plan, observed) else {
        let _ = change_at(cares, line, Change::OweAudit);
        return;
    };
    // By that an audit may have found its handset lifted before.
    let Some(told) = notified(was_off, told) else {
        return;
    };
    exchange.tell(line, told);
}

// Whether a line stands so still.
fn stands_so(was: Standing, is: Standing) -> bool
    ensures { IsTrue result ↔ (was ≡ is) }
{
    was == is
}

// Tells and counts how a line stands, where that has changed.
fn tell_standing(
    alloc: Global,
    journal: &mut Journal,
    stations: &[Station],
    line: usize,
    was: Standing,
    is: Standing,
)
    ensures same { was ≡ is → journal.new ≡ journal.old }
    ensures changed { was ≢ is → Tells (change_told stations.now line was is) journal.old.told journal.new.told }
    ensures counted { was ≢ is → journal.new.tally ≡ with_change was is journal.old.tally }
    ensures rest { journal.new ≡ record journal.old { told = journal.new.told; tally = journal.new.tally } }
{
    if stands_so(was, is) {
        return;
    }
    tell_change(alloc, journal, stations, line, was, is);
}

// Tells how a line stands, and what it refuses for good, where that has changed.
fn tell_shown(
    alloc: Global,
    journal: &mut Journal,
    stations: &[Station],
    line: usize,
    was: Shown,
    is: Shown,
)
    ensures { Shows stations.now line was is journal.old journal.new }
{
    tell_standing(alloc, journal, stations, line, was.standing, is.standing);
    tell_refusals(alloc, journal, stations, line, was.refusals, is.refusals);
}

impl Office {
    /// An exchange for so many lines, none of which is known yet. An error is for want of memory only.
    pub fn new(alloc: Global, count: usize) -> Result<Box<Office>, OutOfMemory>
        ensures exchange { IfOk result (λ office. office.value.exchange ≡ opening count 0) }
        ensures cares { IfOk result (λ office. office.value.cares.items ≡ replicate count new_care) }
        ensures all_wait { IfOk result (λ office. office.value.worklist.is_all ≡ true) }
    {
        let exchange = Exchange::new(alloc, count, 0)?;
        let cares = vec![in alloc; NEW_CARE; count]?;
        let office = Office {
            exchange,
            cares,
            worklist: Worklist::new(alloc, true),
        };
        match Box::new(alloc, office) {
            Ok(office) => Ok(office),
            Err(_) => Err(AllocError),
        }
    }

    /// Those lines to which something has happened are settled now: each is shown (`show`), then each is sent what it is to be sent
    /// (`order`).
    pub fn begin_settling(&mut self)
        ensures settles { Settles self.old.worklist self.new.worklist }
        ensures rest { self.new ≡ record self.old { worklist = self.new.worklist } }
    {
        self.worklist.begin();
    }

    /// How many lines are settled now.
    pub fn settling(&self) -> usize
        ensures { result ≡ settling self.now.worklist.settled.items self.now.worklist.settles_all (length self.now.cares.items) }
    {
        self.worklist.len(self.cares.len())
    }

    /// The line that is settled so many behind the first.
    pub fn settled_at(&self, index: usize) -> Option<usize>
        ensures { result ≡ settled_at self.now.worklist.settled.items self.now.worklist.settles_all 0 index }
    {
        self.worklist.at(0, index)
    }

    /// The command that is to be issued to the line now, if one is; it is in flight from then on. Its digits are collected by this map.
    /// After an error, which is for want of memory, it was given up.
    pub fn order(
        &mut self,
        alloc: Global,
        line: usize,
        map: &[u8],
    ) -> Result<Option<Order>, OutOfMemory>
        ensures order { IfOk result (λ order. option_map shown order
            ≡ ordered (slice_get self.old.cares.items line) self.old.exchange line map.now) }
        ensures begins { Begins line self.old.exchange self.old.cares.items self.new.exchange self.new.cares.items }
        ensures rest { self.new ≡ record self.old { exchange = self.new.exchange; cares = self.new.cares } }
    {
        let Some(care) = change_at(&mut self.cares, line, Change::Begin) else {
            return Ok(None);
        };
        if care.is_held() {
            return Ok(None);
        }
        match fixed_order(care.next) {
            Some((verb, rest)) => {
                return Ok(Some(Order {
                    verb,
                    rest: copied(alloc, rest)?,
                }));
            }
            None => {}
        }
        // The exchange's, where that sends one, and it is in flight from then on; else none is.
        let Some(command) = self.exchange.send(line) else {
            let _ = change_at(&mut self.cares, line, Change::Land);
            return Ok(None);
        };
        Ok(Some(Order {
            verb: command.verb(),
            rest: self.exchange.parameters(alloc, line, map)?,
        }))
    }

    /// The command in flight to the line was answered by this final response at this moment, in ms: when what was put off of the line is
    /// sent again, if anything was. Where the gateway has started again since, the answer says nothing of what is there now, and the
    /// command counts as given up.
    pub fn answered(
        &mut self,
        alloc: Global,
        line: usize,
        moment: u64,
        code: u16,
        text: &[u8],
    ) -> Option<u64>
        ensures outlived { is_outlived (slice_get self.old.cares.items line) ≡ true
            → self.new.exchange ≡ forsaken self.old.exchange line (flight_of (slice_get self.old.cares.items line)) }
        ensures taken { is_outlived (slice_get self.old.cares.items line) ≡ false
            → TakesResponse (flight_of (slice_get self.old.cares.items line)) line moment code text.now
            self.old.exchange (cared landed self.old.cares.items line) self.new.exchange self.new.cares.items }
        ensures answer { TakesAnswer (is_outlived (slice_get self.old.cares.items line)) line moment code text.now
            self.old.exchange self.old.cares.items self.new.exchange self.new.cares.items }
        ensures waits { waits self.new.worklist.waiting.items self.new.worklist.is_all line ≡ true }
        ensures touches { Touches line self.old self.new }
        ensures again { result ≡ again_of (slice_get self.new.cares.items line) }
        ensures rest { self.new ≡ record self.old { exchange = self.new.exchange; cares = self.new.cares; worklist = self.new.worklist } }
    {
        if is_outlived(care_at(self.cares.as_slice(), line)) {
            self.given_up(line);
            return again_of(care_at(self.cares.as_slice(), line));
        }
        touch(&mut self.worklist, &self.exchange, line);
        let duty = flight_of(change_at(&mut self.cares, line, Change::Land));
        take_response(
            alloc,
            &mut self.exchange,
            &mut self.cares,
            line,
            duty,
            moment,
            code,
            text,
        );
        touch(&mut self.worklist, &self.exchange, line);
        again_of(care_at(self.cares.as_slice(), line))
    }

    /// At this moment, in ms, what was put off of the line is sent again, if it was to be.
    pub fn wake(&mut self, line: usize, moment: u64)
        ensures exchange { self.new.exchange ≡ self.old.exchange }
        ensures cares { self.new.cares.items ≡ cared (woken moment) self.old.cares.items line }
        ensures waits { waits self.new.worklist.waiting.items self.new.worklist.is_all line ≡ true }
        ensures others { WaitOn self.old.worklist self.new.worklist }
        ensures rest { self.new ≡ record self.old { cares = self.new.cares; worklist = self.new.worklist } }
    {
        let _ = change_at(&mut self.cares, line, Change::Wake { moment });
        self.worklist.put(line);
    }

    /// The command in flight to the line was given up, or couldn't be issued.
    pub fn given_up(&mut self, line: usize)
        ensures exchange { self.new.exchange
            ≡ forsaken self.old.exchange line (flight_of (slice_get self.old.cares.items line)) }
        ensures cares { self.new.cares.items ≡ cared lost self.old.cares.items line }
        ensures waits { waits self.new.worklist.waiting.items self.new.worklist.is_all line ≡ true }
        ensures touches { Touches line self.old self.new }
        ensures rest { self.new ≡ record self.old { exchange = self.new.exchange; cares = self.new.cares; worklist = self.new.worklist } }
    {
        touch(&mut self.worklist, &self.exchange, line);
        let duty = flight_of(change_at(&mut self.cares, line, Change::Lose));
        forsake(&mut self.exchange, line, duty);
        touch(&mut self.worklist, &self.exchange, line);
    }

    /// A notification of the line told this, by which it may have dialled the number of a line of this plan. Where memory is refused for
    /// its digits the line's hook is asked for.
    pub fn told(&mut self, alloc: Global, plan: &NumberPlan, line: usize, observed: &[Observed])
        ensures hears { Hears (told_in plan.now observed.now) (tells_digits observed.now) line self.old.exchange
            self.old.cares.items self.new.exchange self.new.cares.items }
        ensures waits { waits self.new.worklist.waiting.items self.new.worklist.is_all line ≡ true }
        ensures touches { Touches line self.old self.new }
        ensures rest { self.new ≡ record self.old { exchange = self.new.exchange; cares = self.new.cares; worklist = self.new.worklist } }
    {
        touch(&mut self.worklist, &self.exchange, line);
        take_told(
            alloc,
            &mut self.exchange,
            &mut self.cares,
            plan,
            line,
            observed,
        );
        touch(&mut self.worklist, &self.exchange, line);
    }

    /// The line is announced: it has started again, and knows of no call and no request (RFC 3435, 4.4.6); or it lost its agent, and
    /// with that a notification (RFC 3435, 4.4.7). Its handset may have been moved, so its hook is asked for. What is in flight to one
    /// that has started again was issued to what it was before.
    pub fn announced(&mut self, line: usize, is_restart: bool)
        ensures exchange { self.new.exchange ≡ announced_by is_restart self.old.exchange line }
        ensures cares { self.new.cares.items ≡ cared (announced is_restart) self.old.cares.items line }
        ensures waits { waits self.new.worklist.waiting.items self.new.worklist.is_all line ≡ true }
        ensures touches { Touches line self.old self.new }
        ensures rest { self.new ≡ record self.old { exchange = self.new.exchange; cares = self.new.cares; worklist = self.new.worklist } }
    {
        touch(&mut self.worklist, &self.exchange, line);
        restart(&mut self.exchange, line, is_restart);
        let _ = change_at(&mut self.cares, line, Change::Announce { is_restart });
        touch(&mut self.worklist, &self.exchange, line);
    }

    /// Tells and counts how the line stands, and tells what it refuses for good, where that has changed.
    pub fn show(&mut self, alloc: Global, journal: &mut Journal, stations: &[Station], line: usize)
        ensures told { ShowsLine stations.now line self.old.exchange (slice_get self.old.cares.items line) journal.old journal.new }
        ensures cares { self.new.cares.items ≡ cared (told_of (shown_in self.old.exchange line)) self.old.cares.items line }
        ensures exchange { self.new.exchange ≡ self.old.exchange }
        ensures rest { self.new ≡ record self.old { cares = self.new.cares } }
    {
        let is = Shown {
            standing: standing_of(&self.exchange, line),
            refusals: refusals_of(&self.exchange, line),
        };
        let Some(was) = change_at(&mut self.cares, line, Change::Show { shown: is }) else {
            return;
        };
        tell_shown(alloc, journal, stations, line, was.shown, is);
    }
}
