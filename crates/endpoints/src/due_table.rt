//! The table of due moments (`timers`) of a store: of each line, and of the gateway itself, which is line 0, it has what
//! falls due first.
ghost use Rattle.std.specs.Prelude.{◌≡◌, ◌↔◌, ◌≤◌, IsTrue};
ghost use Rattle.endpoints.specs.DueTable.{cleared, entered, Has, Renews};

use timers::{Due, DueItem};

// What fell due first of a line is taken out of the table.
fn clear(table: &mut Due, line: u16, was: Option<DueItem>)
    requires { line ≤ table.old.lines }
    ensures table { table.new.table ≡ cleared line was table.old.table }
    ensures lines { table.new.lines ≡ table.old.lines }
{
    match was {
        None => {}
        Some(item) => table.clear(line, item.kind),
    }
}

/// What falls due first of a line, of which the table has nothing, is put into it.
pub(crate) fn enter(table: &mut Due, line: u16, is: Option<DueItem>)
    requires { line ≤ table.old.lines }
    ensures table { table.new.table ≡ entered line is table.old.table }
    ensures lines { table.new.lines ≡ table.old.lines }
{
    match is {
        None => {}
        Some(item) => table.set(line, item.kind, item.moment),
    }
}

// Whether it is the same that falls due first, or nothing does.
fn is_same(was: Option<DueItem>, is: Option<DueItem>) -> bool
    ensures { IsTrue result ↔ (was ≡ is) }
{
    was == is
}

/// What falls due first of a line was this, as the table has it, and is that now. Where it is the same, the table is left
/// alone.
pub(crate) fn renew(table: &mut Due, line: u16, was: Option<DueItem>, is: Option<DueItem>)
    requires within { line ≤ table.old.lines }
    requires had { Has table.old.table line was }
    ensures table { Renews line is table.old.table table.new.table }
    ensures lines { table.new.lines ≡ table.old.lines }
{
    if is_same(was, is) {
        return;
    }
    clear(table, line, was);
    enter(table, line, is);
}
