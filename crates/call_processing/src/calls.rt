//! The calls of an exchange.
ghost use Rattle.std.specs.Prelude.{◌≡◌, ◌<◌, IfOk, slice_get, slice_set};
ghost use Rattle.call_processing.specs.Calls.{all_resting, joined, parted, cut_off, turned, picked_up, put_through, reached, dialled, timed_out, heard, failed, found};

use crate::phase::{Part, Phase, Side, Tone, is_free, is_in, left, other_end, ringing_in, waits};
use crate::told::Told;
use mg_bytes::OutOfMemory;
use packages::Hook;
use std::alloc::Global;
use std::marker::Model;

/// In which phase each line is, and the number of the last call. A contract sees just that.
///
/// Only `new` takes memory.
#[derive(Drop)]
pub(crate) struct Calls {
    last: u64,
    phases: Vec<Phase>,
}

impl Model for Calls {
    ghost use Rattle.call_processing.specs.Calls.{CallState};

    ghost Value = { CallState };

    ghost view = { λ c. record { last = c.last; phases = c.phases.items } };
}

// The phase of a line; `None` of one that there isn't.
fn phase_at(phases: &[Phase], line: usize) -> Option<Phase>
    ensures { result ≡ slice_get phases.now line }
{
    phases.get(line).copied()
}

// A line goes to a phase, if there is that line.
#[tactic(auto, using(std::proofs::lemmas::List::set_past))]
fn set_phase(phases: &mut Vec<Phase>, line: usize, phase: Phase)
    ensures { phases.new.items ≡ slice_set phases.old.items line phase }
{
    if line < phases.len() {
        phases[line] = phase;
    }
}

// Both ends have their part in the call.
fn join(phases: &mut Vec<Phase>, line: usize, part: Part)
    ensures { phases.new.items ≡ joined phases.old.items line part }
{
    set_phase(phases, line, Phase::InCall(part));
    set_phase(phases, part.other, Phase::InCall(other_end(line, part)));
}

// The call is over for both ends.
fn part_ends(phases: &mut Vec<Phase>, line: usize, part: Part, tone: Tone)
    ensures { phases.new.items ≡ parted tone phases.old.items line part }
{
    set_phase(phases, line, left(tone, part));
    set_phase(phases, part.other, left(tone, other_end(line, part)));
}

// The call of a line, if it is in one, is over for both ends.
#[tactic(auto, unfolding(crate::specs::Calls::cut_off))]
fn cut_off(phases: &mut Vec<Phase>, line: usize, tone: Tone)
    ensures { phases.new.items ≡ cut_off tone phases.old.items line }
{
    match phase_at(phases, line) {
        Some(Phase::InCall(part)) => part_ends(phases, line, part, tone),
        Some(Phase::Resting | Phase::Dialling | Phase::Hearing(_)) | None => {}
    }
}

// The line goes to another phase, and a call that it was in is over: the other end hears this tone.
fn turn_to(phases: &mut Vec<Phase>, line: usize, phase: Phase, tone: Tone)
    ensures { phases.new.items ≡ turned tone phases.old.items line phase }
{
    cut_off(phases, line, tone);
    set_phase(phases, line, phase);
}

// Off hook answers the call by which the line rings; any other line begins to dial.
#[tactic(auto, unfolding(crate::specs::Calls::picked_up))]
fn pick_up(phases: &mut Vec<Phase>, line: usize)
    ensures { phases.new.items ≡ picked_up phases.old.items line }
{
    match ringing_in(phase_at(phases, line)) {
        Some(part) => join(
            phases,
            line,
            Part {
                answered: true,
                ..part
            },
        ),
        None => turn_to(phases, line, Phase::Dialling, Tone::Busy),
    }
}

// A line that waits for too long, for a number or for an answer, hears that.
#[tactic(auto, unfolding(crate::specs::Calls::timed_out))]
fn time_out(phases: &mut Vec<Phase>, line: usize)
    ensures { phases.new.items ≡ timed_out phases.old.items line }
{
    let phase = phase_at(phases, line);
    if !waits(phase) {
        return;
    }
    match phase {
        Some(Phase::InCall(part)) => part_ends(phases, line, part, Tone::Reorder),
        Some(Phase::Dialling) => set_phase(phases, line, Phase::Hearing(Tone::Reorder)),
        Some(Phase::Resting | Phase::Hearing(_)) | None => {}
    }
}

// Lines that rest.
fn resting(alloc: Global, count: usize) -> Result<Vec<Phase>, OutOfMemory>
    ensures { IfOk result (λ phases. phases.items ≡ (all_resting count 0).phases) }
{
    let mut phases = Vec::new(alloc);
    for _ in 0..count {
        phases.push(Phase::Resting)?;
    }
    Ok(phases)
}

impl Calls {
    /// So many lines that rest, after this call. An error is for want of memory only.
    pub(crate) fn new(alloc: Global, count: usize, last: u64) -> Result<Calls, OutOfMemory>
        ensures { IfOk result (λ calls. calls ≡ all_resting count last) }
    {
        let phases = resting(alloc, count)?;
        Ok(Calls { last, phases })
    }

    /// The phase of a line; `None` of one that there isn't.
    pub(crate) fn phase(&self, line: usize) -> Option<Phase>
        ensures { result ≡ slice_get self.now.phases line }
    {
        phase_at(&self.phases, line)
    }

    // A new call, as long as there are numbers.
    #[tactic(auto, unfolding(crate::specs::Calls::put_through))]
    fn put_through(&mut self, line: usize, other: usize)
        ensures { self.new ≡ put_through self.old line other }
    {
        if self.last < u64::MAX {
            self.last += 1;
            let part = Part {
                call: self.last,
                other,
                side: Side::Caller,
                answered: false,
            };
            join(&mut self.phases, line, part);
        } else {
            set_phase(&mut self.phases, line, Phase::Hearing(Tone::Reorder));
        }
    }

    // What was dialled is reached, or isn't.
    #[tactic(auto, unfolding(crate::specs::Calls::reached))]
    fn reach(&mut self, line: usize, to: Option<usize>)
        ensures { self.new ≡ reached self.old line to }
    {
        match to {
            None => set_phase(&mut self.phases, line, Phase::Hearing(Tone::Reorder)),
            Some(other) => {
                if is_free(phase_at(&self.phases, other)) {
                    self.put_through(line, other);
                } else {
                    set_phase(&mut self.phases, line, Phase::Hearing(Tone::Busy));
                }
            }
        }
    }

    // Digits count where the line was asked for them.
    #[tactic(auto, unfolding(crate::specs::Calls::dialled))]
    fn dial(&mut self, line: usize, to: Option<usize>)
        ensures { self.new ≡ dialled self.old line to }
    {
        match self.phase(line) {
            Some(Phase::Dialling) => self.reach(line, to),
            Some(Phase::Resting | Phase::Hearing(_) | Phase::InCall(_)) | None => {}
        }
    }

    /// A line tells this. It takes no memory.
    #[tactic(auto, unfolding(crate::specs::Calls::heard))]
    pub(crate) fn hear(&mut self, line: usize, told: Told)
        ensures { self.new ≡ heard self.old line told }
    {
        match told {
            Told::OffHook => pick_up(&mut self.phases, line),
            Told::OnHook => turn_to(&mut self.phases, line, Phase::Resting, Tone::Busy),
            Told::Restarted => turn_to(&mut self.phases, line, Phase::Resting, Tone::Reorder),
            Told::Flash | Told::Disconnected => {}
            Told::Dialled(to) => self.dial(line, to),
            Told::TimedOut => time_out(&mut self.phases, line),
        }
    }

    /// The call with this number, if there is one, can't be connected: it is over for both ends, if the line is in it still.
    /// It takes no memory.
    #[tactic(auto, unfolding(crate::specs::Calls::failed))]
    pub(crate) fn fail(&mut self, line: usize, call: Option<u64>)
        ensures { self.new ≡ record self.old { phases = failed self.old.phases line call } }
    {
        let Some(call) = call else {
            return;
        };
        if is_in(call, phase_at(&self.phases, line)) {
            cut_off(&mut self.phases, line, Tone::Reorder);
        }
    }

    /// How the telephone of a line was found, if that is known: one on hook that doesn't ring was hung up, and one off hook that
    /// should ring is busy. It takes no memory.
    #[tactic(auto, unfolding(crate::specs::Calls::found))]
    pub(crate) fn find(&mut self, line: usize, hook: Option<Hook>)
        ensures { self.new ≡ record self.old { phases = found self.old.phases line hook } }
    {
        let Some(hook) = hook else {
            return;
        };
        match (hook, ringing_in(phase_at(&self.phases, line))) {
            (Hook::OnHook, None) => turn_to(&mut self.phases, line, Phase::Resting, Tone::Busy),
            (Hook::OffHook, Some(part)) => part_ends(&mut self.phases, line, part, Tone::Busy),
            (Hook::OnHook, Some(_)) | (Hook::OffHook, None) => {}
        }
    }
}
