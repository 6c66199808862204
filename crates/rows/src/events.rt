//! Events as rows spell them.
use event_syntax::{Observed, read_observed};
use scenario_files::Outcome;

/// An event as O spells it: `L/hd`, or `L/oc(L/dl)` at the end of a signal. Where it spells none there is no such row.
pub fn observed_of(given: &mut Outcome, text: &str) -> Option<Observed> {
    match read_observed(given.alloc, text.as_bytes()) {
        Ok(list) => list.as_slice().first().copied(),
        Err(fault) => {
            given.fault(fault);
            None
        }
    }
}
