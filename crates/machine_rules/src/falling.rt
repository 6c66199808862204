//! What of all that falls due comes next (RFC 3435, 2.1.5, 2.1.7, 3.5.3 and 4.4.6).
ghost use Rattle.std.specs.Prelude.{◌≡◌, IfSome};
ghost use Rattle.machine_rules.specs.Falling.{if_by};
ghost use Rattle.timers.specs.Table.{least_of, IsLeast};

use timers::{Due, DueItem};

/// What falls due first of all that is set, with its own moment, where it is due up to a moment (in ms). It takes no memory.
pub fn due_by(table: &Due, moment: u64) -> Option<DueItem>
    ensures due { result ≡ if_by moment (least_of table.now.table) }
    // What is first is set, and nothing that is set comes before it.
    ensures first { IfSome (least_of table.now.table) (IsLeast table.now.table) }
{
    let item = table.least()?;
    if item.moment <= moment {
        Some(item)
    } else {
        None
    }
}
