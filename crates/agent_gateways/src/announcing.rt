//! The lines of a gateway that a name means are announced: they have started again, or lost their agent.
ghost use Rattle.std.specs.Prelude.{◌≡◌};
ghost use Rattle.agent_gateways.specs.Steps.{cares_if, exchange_if, has_line, Announces, TouchesIf, TouchesMeant};

use crate::naming::{is_meant, line_behind};
use endpoint_names::Pattern;
use line_control::Office;

// Whether a gateway with so many lines has this one.
fn has_line(line: u16, lines: u16) -> bool
    ensures { result ≡ has_line line lines }
{
    1 <= line && line <= lines
}

// A line is there again, or lost its agent, if a name means it.
fn announce_if(office: &mut Office, is_named: bool, line: usize, is_restart: bool)
    ensures exchange { office.new.exchange ≡ exchange_if is_named is_restart line office.old.exchange }
    ensures cares { office.new.cares.items ≡ cares_if is_named is_restart line office.old.cares.items }
    ensures touches { TouchesIf is_named line office.old office.new }
{
    if is_named {
        office.announced(line, is_restart);
    }
}

/// The lines of a gateway that a name means are there again, or lost their agent. The first of them has this place, and there are so many.
/// Where the name means one line, nothing is done for the others.
pub(crate) fn announce_all(
    office: &mut Office,
    pattern: Pattern,
    first: usize,
    lines: u16,
    is_restart: bool,
)
    ensures announces { Announces is_restart pattern first lines office.old.exchange office.old.cares.items
        office.new.exchange office.new.cares.items }
    ensures touches { TouchesMeant is_restart pattern first lines office.old office.new }
{
    if let Pattern::One(line) = pattern {
        let place = line_behind(first, line.saturating_sub(1));
        return announce_if(office, has_line(line, lines), place, is_restart);
    }
    for before in 0..lines {
        announce_if(
            office,
            is_meant(pattern, before),
            line_behind(first, before),
            is_restart,
        );
    }
}
