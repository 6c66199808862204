//! What a world is given: its configuration, and the steps that it takes.
use crate::boxing::in_box;
use crate::forms::{Command, act_in, but_refusal, command_in, number_of};
use crate::gateways::config_with;
use agent_core::{Step, World};
use gateway_core::{ConfigFault, FIRSTS};
use mg_line::Act;
use scenario_files::Row;
use std::alloc::Global;

/// A step that owns its bytes.
#[derive(Drop)]
pub enum Given {
    Issue { command: Command },
    Dial { line: u16, act: Act },
    Tick { moment: u64 },
    Deliver { packet: usize },
}

impl Given {
    /// The step.
    pub fn step(&self) -> Step<'_> {
        match self {
            Given::Issue { command } => Step::Issue {
                verb: command.verb.as_bytes(),
                name: command.name.as_bytes(),
                rest: command.rest.as_bytes(),
            },
            Given::Dial { line, act } => Step::Dial {
                line: *line,
                act: *act,
            },
            Given::Tick { moment } => Step::Tick { moment: *moment },
            Given::Deliver { packet } => Step::Deliver { packet: *packet },
        }
    }
}

/// `issue RQNT  aaln/1@rgw.example.net  X: 1¶`, `dial 1 off` or `phone 1 off`, `tick 1000`, `deliver 0`: the step that a row
/// says, by its first word and what stands behind that; nothing where it says none.
pub fn given_in(row: &mut Row<'_>, word: &str) -> Option<Given> {
    let words = but_refusal(row);
    Some(match word {
        "issue" => Given::Issue {
            command: command_in(&mut row.given, words),
        },
        "dial" | "phone" => {
            let (line, act) = act_in(&mut row.given, words);
            Given::Dial { line, act }
        }
        "tick" => Given::Tick {
            moment: number_of(&mut row.given, words),
        },
        "deliver" => Given::Deliver {
            packet: number_of(&mut row.given, words) as usize,
        },
        _ => return None,
    })
}

/// A new world with so many lines, whose gateway reports to this entity and whose ids begin with this number, 0 as they usually do; all
/// else as it usually is.
pub fn world_from(
    alloc: Global,
    lines: u32,
    entity: &[u8],
    first: u32,
) -> Result<Box<World>, ConfigFault> {
    let config = config_with(alloc, lines, entity)?;
    in_box(alloc, World::starting_at(alloc, config, first % FIRSTS))
}
