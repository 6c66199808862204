//! At which lines an event may have changed something: a mark for each line, the first for line 1.
ghost use Rattle.std.specs.Prelude.{◌≡◌, ◌-◌, ℕ, true, false, length, replicate, slice_get, slice_set, IfOk};
ghost use Rattle.plain_machine.specs.Event.{event_of};
ghost use Rattle.gateway_core.specs.Changing.{is_marked, IsAway};

use endpoints::Store;
use mg_bytes::OutOfMemory;
use plain_machine::Event;
use std::alloc::Global;

/// A mark for each of so many lines, of which none is set.
pub(crate) fn no_marks(alloc: Global, lines: u16) -> Result<Vec<bool>, OutOfMemory>
    ensures { IfOk result (λ marks. marks.items ≡ replicate lines false) }
{
    let mut marks = Vec::new(alloc);
    marks.resize(usize::from(lines), false)?;
    Ok(marks)
}

/// Whether the mark of a line is set, or there is none.
pub(crate) fn is_marked(marks: &[bool], line: u16) -> bool
    ensures { result ≡ is_marked marks.now line }
{
    match marks.get(usize::from(line).saturating_sub(1)) {
        Some(mark) => *mark,
        None => true,
    }
}

// No mark is set any more.
fn unmark(marks: &mut Vec<bool>)
    ensures { marks.new.items ≡ replicate (length marks.old.items) false }
{
    marks.fill(false);
}

// The mark of a line is set, if there is one.
fn mark_line(marks: &mut Vec<bool>, line: u16)
    ensures { marks.new.items ≡ slice_set marks.old.items (line - 1) true }
{
    let place = usize::from(line).saturating_sub(1);
    if place < marks.len() {
        marks[place] = true;
    }
}

/// The lines are marked at which an event may have changed something that isn't done with yet in the store: what it changed there, and the
/// line at whose telephone it was. No other line is, as far as there are marks.
pub(crate) fn mark(store: &Store, event: Event<'_>, marks: &mut Vec<bool>)
    ensures marks { length marks.new.items ≡ length marks.old.items }
    ensures found { (line : ℕ) → is_marked marks.new.items line ≡ false
        → slice_get store.now.found.list (line - 1) ≡ slice_get store.now.endpoints.list (line - 1) }
    ensures act { (line : ℕ) → is_marked marks.new.items line ≡ false → IsAway (event_of event.entry) line }
{
    unmark(marks);
    store.mark_changed(marks);
    match event {
        Event::Phone { line, .. } => mark_line(marks, line),
        Event::Datagram { .. } | Event::Tick { .. } => {}
    }
}
