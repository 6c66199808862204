//! Plays all scenarios: each file says in its first line which kind it has. Those of the program itself are played here.
//!
//! - `scripts`: scripts of the program, with what is printed beside what causes it.
//! - `program`: a row a call of the program: its name, its values, and what it answers.
//! - `live`, `desk`: what comes to `rgwd`, and to `rgca`, that runs in memory, and what it gives.
//! - `streams`: an input whose streams give and take little at a time, and fail.
//!
//! What is told otherwise than it happens is printed under its title. `docs/SCENARIOS.md` says how scenarios are written.
#![tactic(auto)]

mod calls;
mod desk;
mod live;
mod played;
mod scripts;
mod stories;
mod streams;
mod unlike;

use crate::calls::Calls;
use crate::desk::CallAgent;
use crate::live::Live;
use crate::scripts::Scripts;
use crate::streams::StreamScenario;
use rows::Rows;
use scenario_files::{Kinds, Report, play, told, told_titled};
use std::net::Net;
use std::process::ExitCode;
use worlds::Ends;

// All kinds of scenarios.
struct All;

impl Kinds for All {
    fn told<R: AllocGlobal + Net>(rt: &R, kind: &str, text: &str, report: &mut Report) -> bool {
        match kind {
            "scripts" => told_titled(rt, &mut Scripts, text, report),
            "program" => told::<Calls>(rt.alloc(), text, report),
            "desk" => told_titled(rt, &mut CallAgent, text, report),
            "live" => told_titled(rt, &mut Live, text, report),
            "streams" => told::<StreamScenario>(rt.alloc(), text, report),
            _ => return Rows::told(rt, kind, text, report) || Ends::told(rt, kind, text, report),
        }
        true
    }
}

fn main(rt: HostRuntime) -> ExitCode {
    play::<All, HostRuntime>(&rt)
}
