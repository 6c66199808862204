//! The program `rgca`: what it opens and serves.
#![tactic(auto)]

mod app;

use std::process::ExitCode;

fn main(rt: HostRuntime) -> ExitCode {
    ExitCode::from(app::run(&rt))
}
