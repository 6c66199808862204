//! The program `rgwd`: what it opens and serves as its words ask.
#![tactic(auto)]

mod app;
mod opening;
mod reception;
mod recording;

use crate::app::run_on_site;
use std::process::ExitCode;

fn main(rt: HostRuntime) -> ExitCode {
    ExitCode::from(run_on_site(&rt))
}
