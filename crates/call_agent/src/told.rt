//! What notifications told of each line.
ghost use Rattle.std.specs.Prelude.{◌≡◌, ◌==◌, ◌-◌, if◌then◌else◌, [], replicate, IfOk, OnOk, OnErr};
ghost use Rattle.std.specs.List.{slice_index_or};
ghost use Rattle.call_agent.specs.Growing.{Grown, grown_to, committed, rolled_back, all_in, told_at};
ghost use Rattle.call_agent.specs.Taking.{with_taken};

use crate::growing::Growing;
use mg_bytes::{OutOfMemory, Sequence};
use packages::Observed;
use std::alloc::Global;
use std::marker::Model;

/// What was told of each line, of which the first is line 1. A contract sees a list for each, and as the event that happens
/// found them.
#[derive(Drop)]
pub(crate) struct TakenEvents {
    lines: Vec<Growing<Observed>>,
}

impl Model for TakenEvents {
    ghost use Rattle.std.specs.Prelude.{List};
    ghost use Rattle.packages.specs.declared.observed.Observed.{Observed};
    ghost use Rattle.call_agent.specs.Growing.{Grown, all_in};

    ghost Value = { Grown (List Observed) };

    ghost view = { λ t. all_in t.lines.items };
}

impl TakenEvents {
    /// Nothing was told of any of so many lines.
    pub(crate) fn nothing(alloc: Global, count: u16) -> Result<TakenEvents, OutOfMemory>
        ensures { IfOk result (λ told. told ≡ grown_to (replicate count [])) }
    {
        let mut lines = Vec::new(alloc);
        for _ in 0..count {
            lines.push(Growing::new(alloc))?;
        }
        Ok(TakenEvents { lines })
    }

    /// All that was told of a line; nothing of a line that there isn't.
    pub(crate) fn of_line(&self, line: u16) -> &[Observed]
        ensures { result.now ≡ (if line == 0 then [] else slice_index_or self.now.is (line - 1) []) }
    {
        if line == 0 {
            return &[];
        }
        match self.lines.get(usize::from(line) - 1) {
            Some(told) => told.as_slice(),
            None => &[],
        }
    }

    /// This is told of a line, behind what was. After an error all is as it was.
    pub(crate) fn tell(
        &mut self,
        line: u16,
        observed: Sequence<Observed>,
    ) -> Result<(), OutOfMemory>
        ensures ok { OnOk result (self.new
            ≡ record self.old { is = with_taken self.old.is (record { line = line; observed = observed }) }) }
        ensures err { OnErr result (self.new ≡ self.old) }
    {
        tell_at(
            &mut self.lines,
            usize::from(line).saturating_sub(1),
            observed,
        )
    }

    /// What the next event finds is what is there. This takes no memory.
    pub(crate) fn commit(&mut self)
        ensures { self.new ≡ committed self.old }
    {
        for place in 0..self.lines.len() {
            self.lines[place].commit();
        }
    }

    /// The event failed: there is again what it found. This takes no memory.
    pub(crate) fn rollback(&mut self)
        ensures { self.new ≡ rolled_back self.old }
    {
        for place in 0..self.lines.len() {
            self.lines[place].rollback();
        }
    }
}

// This is told of the line at this place, if there is one.
fn tell_at(
    lines: &mut Vec<Growing<Observed>>,
    place: usize,
    observed: Sequence<Observed>,
) -> Result<(), OutOfMemory>
    ensures ok { OnOk result (all_in lines.new.items ≡ record (all_in lines.old.items) {
      is = told_at (all_in lines.old.items).is place observed;
    }) }
    ensures err { OnErr result (all_in lines.new.items ≡ all_in lines.old.items) }
{
    if place >= lines.len() {
        return Ok(());
    }
    lines[place].append(observed.into_items())?;
    Ok(())
}
