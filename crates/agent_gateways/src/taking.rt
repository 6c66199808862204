//! What a line of a gateway has told and wasn't taken yet is taken, each event once.
ghost use Rattle.std.specs.Prelude.{◌≡◌, true, false, drop};
ghost use Rattle.agent_log.specs.Counts.{with_notification};
ghost use Rattle.line_control.specs.Steps.{HearsSome};
ghost use Rattle.agent_gateways.specs.Steps.{OfOffice, WaitsIn};
ghost use Rattle.agent_gateways.specs.Taking.{TakesFrom};
ghost use Rattle.agent_gateways.specs.Tallying.{counted_if};

use crate::gateway::Gateway;
use agent_log::{Journal, Station};
use call_processing::NumberPlan;
use line_control::Office;
use packages::Observed;
use std::alloc::Global;

// What was observed behind so many.
fn behind(observed: &[Observed], taken: usize) -> &[Observed]
    ensures { result.now ≡ drop taken observed.now }
{
    match observed.get(taken..) {
        Some(told) => told,
        None => &[],
    }
}

/// Takes what a line of a gateway, which has this place in the exchange, has told and wasn't taken yet: whether there was anything. Digits
/// mean a line by this plan.
pub(crate) fn take_from(
    alloc: Global,
    plan: &NumberPlan,
    gateway: &Gateway,
    station: &mut Station,
    office: &mut Option<Box<Office>>,
    journal: &mut Journal,
    line: usize,
) -> bool
    ensures takes { TakesFrom plan.now line gateway.now station.old result office.old office.new station.new }
    ensures told { result ≡ true → OfOffice (HearsSome line) office.old office.new }
    ensures waits { result ≡ true → WaitsIn line office.new }
    ensures nothing { result ≡ false → office.new ≡ office.old }
    ensures tally { journal.new.tally ≡ counted_if result with_notification journal.old.tally }
    ensures rest { journal.new ≡ record journal.old { tally = journal.new.tally; told = journal.new.told } }
{
    let observed = gateway.agent.taken(station.line);
    let told = behind(observed, station.taken);
    if told.is_empty() {
        return false;
    }
    station.taken = observed.len();
    journal.tell_notification(station.name.as_bytes(), told);
    // The exchange, if there is one, is told this.
    let Some(office) = office else {
        return true;
    };
    office.told(alloc, plan, line, told);
    true
}
