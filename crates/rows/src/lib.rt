//! Scenarios that need no gateway: rows, of the kinds that the files' first lines say.
//!
//! - `values`: a row a call: its name, its values, and what it answers.
//! - Other words: rows that go on with one thing, new under each title: a `line`, a `history`, and so on.
//!
//! What is told otherwise than it happens is printed under its title. `docs/SCENARIOS.md` says how scenarios are written.
#![tactic(auto)]

mod due_moments;
mod events;
mod histories;
mod keeping;
mod line;
mod line_connections;
mod messages;
mod quarantines;
mod requests;
mod restarts;
mod signal_sets;
mod texts;
mod values;

use crate::keeping::{Held, Keeping};
use crate::line_connections::ConnectionsScenario;
use crate::messages::MessageScenario;
use crate::requests::RequestScenario;
use crate::restarts::RestartScenario;
use crate::values::Values;
use events_and_signals::{Buffer, SignalSet};
use mg_line::Line;
use scenario_files::{Kinds, Report, told};
use std::net::Net;
use timers::Due;
use transmission::History;

/// The kinds of rows.
pub struct Rows;

impl Kinds for Rows {
    fn told<R: AllocGlobal + Net>(rt: &R, kind: &str, text: &str, report: &mut Report) -> bool {
        let alloc = rt.alloc();
        match kind {
            "values" => told::<Values>(alloc, text, report),
            "line" => told::<Keeping<Held<Line>>>(alloc, text, report),
            "request" => told::<RequestScenario>(alloc, text, report),
            "signals" => told::<Held<SignalSet>>(alloc, text, report),
            "quarantine" => told::<Keeping<Held<Buffer>>>(alloc, text, report),
            "message" => told::<Keeping<MessageScenario>>(alloc, text, report),
            "history" => told::<Held<History>>(alloc, text, report),
            "connections" => told::<Keeping<ConnectionsScenario>>(alloc, text, report),
            "moments" => told::<Keeping<Held<Due>>>(alloc, text, report),
            "restart" => told::<Keeping<RestartScenario>>(alloc, text, report),
            _ => return false,
        }
        true
    }
}
