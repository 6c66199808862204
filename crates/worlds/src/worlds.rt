//! A world of a gateway and a call agent, with a bad network between them, a row each. It has 16 lines.
//!
//! - `world 2` a new world with so many lines; `world 2  ca@[127.0.0.1]:2427` the same with this configured agent; the host
//!   two.example.net has two addresses, and four.example.net four, from 127.0.0.1 on;
//! - `first 5` a new world with the usual lines, whose gateway's ids begin with this number;
//! - `issue AUEP  aaln/1@rgw.example.net` the agent issues a command; `issue RQNT  aaln/1@rgw.example.net  X: 1¶` one with
//!   these bytes behind its line;
//! - `dial 1 off`, `tick 1000`, `deliver 0` the other steps; `deliver 9  8 NoSuchPacket` one that is refused;
//! - `posts 1  127.0.0.1:2427  127.0.0.1:2727  RSIP 1 *@~¶RM: restart¶` the next packet that wasn't told yet: its moment,
//!   its sender, where it goes, and its bytes; `posts none`;
//! - `answers 1  200  200 1 OK¶` the answer to the command with this id; `answers 2  none`;
//! - `taken 1  L/hd,D/5` what notifications of a line told; `taken 2  none`;
//! - `hook 1 off` the telephone of a line; `now 1000` the moment that it is.
use crate::forms::{put_answer, put_refusal, put_taken, text_of};
use crate::gateways::{ENTITY, LINES, put_hook};
use crate::given::{Given, given_in, world_from};
use agent_core::{Step, StepRefusal, World, WorldStopped, world_run};
use gateway_core::ConfigFault;
use mg_bytes::{OutOfMemory, Text};
use scenario_files::{Outcome, Row, Scenario, again, bytes_of};
use std::alloc::{AllocError, Global};

/// A world, and what it was given.
#[derive(Drop)]
pub struct WorldScenario {
    lines: u32,
    entity: Text,
    // The number with which ids begin.
    first: u32,
    // The steps that it took, for another that becomes what this one was.
    given: Vec<Given>,
    world: Box<World>,
    // Memory was refused, so it takes no step any more.
    spent: bool,
    // So many of its packets were told.
    told: usize,
}

// Whether this is what a spent world answers.
fn is_at_once(outcome: Result<(), WorldStopped>) -> bool {
    match outcome {
        Err(WorldStopped { place, refusal }) => place == 0 && refusal == StepRefusal::OutOfMemory,
        Ok(()) => false,
    }
}

// The steps that a world took.
fn steps_of(alloc: Global, taken: &[Given]) -> Result<Vec<Step<'_>>, OutOfMemory> {
    let mut steps = Vec::with_capacity(alloc, taken.len())?;
    for given in taken {
        steps.push(given.step())?;
    }
    Ok(steps)
}

impl WorldScenario {
    // Another world becomes what this one was before memory was refused. It was one, so nothing but memory can fail.
    fn renew(&mut self, alloc: Global) -> Result<(), OutOfMemory> {
        let steps = steps_of(alloc, &self.given)?;
        let entity = self.entity.as_bytes();
        let Ok(mut world) = world_from(alloc, self.lines, entity, self.first) else {
            return Err(AllocError);
        };
        if world_run(&mut world, &steps).is_err() {
            return Err(AllocError);
        }
        self.world = world;
        self.spent = false;
        Ok(())
    }

    // `2` or `2  ca@[127.0.0.1]:2427`
    fn open(&mut self, row: &mut Row<'_>) {
        let lines = row.before("  ").parse::<u32>();
        let field = if row.left.is_empty() {
            ENTITY
        } else {
            row.rest()
        };
        let entity = text_of(&mut row.given, field);
        let Ok(lines) = lines else {
            return row.given.unread();
        };
        match world_from(row.given.alloc, lines, entity.as_bytes(), 0) {
            Ok(world) => self.begin_with(row.given.alloc, world, lines, entity),
            Err(ConfigFault::OutOfMemory) => row.given.refuse(),
            Err(fault) => put_refusal(&mut row.given, fault.number(), fault.name()),
        }
    }

    // `5`
    fn start(&mut self, row: &mut Row<'_>) {
        let first = row.number();
        let entity = text_of(&mut row.given, ENTITY);
        if row.given.is_unread || row.given.is_refused {
            return;
        }
        match world_from(row.given.alloc, LINES, entity.as_bytes(), first) {
            Ok(world) => {
                self.begin_with(row.given.alloc, world, LINES, entity);
                self.first = first;
            }
            Err(_) => row.given.refuse(),
        }
    }

    // It begins anew with this world.
    fn begin_with(&mut self, alloc: Global, world: Box<World>, lines: u32, entity: Text) {
        self.world = world;
        self.lines = lines;
        self.entity = entity;
        self.first = 0;
        self.given = Vec::new(alloc);
        self.told = 0;
    }

    // Memory was refused: from then on the world takes neither a step nor none.
    fn spend(&mut self, given: &mut Outcome) {
        self.spent = is_at_once(world_run(&mut self.world, &[]))
            && is_at_once(world_run(&mut self.world, &[Step::Tick { moment: 0 }]));
        if self.spent {
            given.refuse();
        } else {
            given.put(b"a spent world goes on");
        }
    }

    // A step, and its refusal or nothing. There is a place for it before it is taken.
    fn take(&mut self, given: &mut Outcome, taken: Given) {
        if given.is_unread || given.is_refused {
            return;
        }
        if self.given.reserve(1).is_err() {
            return given.refuse();
        }
        match world_run(&mut self.world, &[taken.step()]) {
            Ok(()) => {
                if self.given.push(taken).is_err() {
                    given.refuse();
                }
            }
            Err(WorldStopped { place, refusal }) => self.stop(given, place, refusal),
        }
    }

    // It stopped at a step: at the one that it was given.
    fn stop(&mut self, given: &mut Outcome, place: usize, refusal: StepRefusal) {
        if refusal == StepRefusal::OutOfMemory {
            self.spend(given);
        } else if place != 0 {
            given.put(b"it stopped at another place");
        } else {
            put_refusal(given, refusal.number(), refusal.name());
        }
    }

    // The next packet: its moment, its sender, where it goes, and its bytes.
    fn put_post(&mut self, given: &mut Outcome) {
        let Some(packet) = self.world.packet(self.told) else {
            return given.put(b"none");
        };
        given.put_shown(packet.moment);
        given.put_behind(b"  ", packet.sender);
        given.put_behind(b"  ", packet.to);
        given.put_both(b"  ", packet.bytes.as_bytes());
        if !given.is_refused {
            self.told = self.told.wrapping_add(1);
        }
    }
}

impl Scenario for WorldScenario {
    fn begin(alloc: Global) -> Result<WorldScenario, OutOfMemory> {
        let entity = Text::of(bytes_of(alloc, ENTITY)?);
        let Ok(world) = world_from(alloc, LINES, entity.as_bytes(), 0) else {
            return Err(AllocError);
        };
        Ok(WorldScenario {
            lines: LINES,
            entity,
            first: 0,
            given: Vec::new(alloc),
            world,
            spent: false,
            told: 0,
        })
    }

    fn turn(&mut self, row: &mut Row<'_>) {
        row.is_exact = true;
        if self.spent && again!(self.renew(row.given.alloc)).is_err() {
            return row.given.refuse();
        }
        let word = row.before(" ");
        match word {
            "world" => self.open(row),
            "first" => self.start(row),
            "posts" => self.put_post(&mut row.given),
            "answers" => put_answer(row, self.world.agent()),
            "taken" => put_taken(row, self.world.agent()),
            "hook" => put_hook(row, self.world.gateway()),
            "now" => row.given.put_shown(self.world.gateway().now()),
            _ => match given_in(row, word) {
                Some(taken) => self.take(&mut row.given, taken),
                None => row.given.unread(),
            },
        }
    }
}
