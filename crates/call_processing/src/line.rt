//! A line, as its gateway has it.
ghost use Rattle.std.specs.Prelude.{◌≡◌};
ghost use Rattle.call_processing.specs.Fates.{put_off_then};
ghost use Rattle.call_processing.specs.Line.{new_line, sent, landed, failing, hook_in, finding, spent, restarted, heard_on, cleared, created_then, asked_then, joined_then, deleted_then, left_then};

use crate::asked::Asked;
use crate::command::{Command, Outcome};
use crate::fate::{
    Fate, PutOff, fails, hook_told, is_deleted, is_success, put_off_then, refused_by,
};
use crate::told::Told;
use mg_bytes::{Identifier, Text};
use packages::Hook;

/// The connection of a line.
#[derive(Drop)]
pub enum Leg {
    /// None stands.
    Absent,
    /// One may stand for this call: CRCX is on its way, or was given up.
    Unknown {
        call: u64,
    },
    /// This one stands for this call, with this description.
    Standing {
        call: u64,
        connection: Identifier,
        description: Text,
    },
}

/// What an exchange knows of a line at its gateway.
#[derive(Drop)]
pub struct Line {
    pub leg: Leg,
    /// Whether the connection was given the description of the other end.
    pub joined: bool,
    /// What the line is asked for; `None` where nothing was sent, where the line has told something since, and where the request
    /// was put off, or given up.
    pub asked: Option<Asked>,
    /// The command in flight.
    pub flight: Option<Command>,
    /// How its commands were put off that were refused last, one behind another, for a cause that may pass.
    pub put_off: Option<PutOff>,
    /// The return code by which it refused for good what it is asked for.
    pub refused: Option<u16>,
    /// The return code by which the deletion of a connection was refused for good, which may stand still.
    pub left: Option<u16>,
}

// What a line is asked for, once the request ended so.
fn asked_then(fate: Fate, was: Option<Asked>) -> Option<Asked>
    ensures { result ≡ asked_then fate was }
{
    match fate {
        Fate::Done | Fate::Refused(_) => was,
        Fate::Again(_) | Fate::Open => None,
    }
}

// Whether a connection has the description of the other end, once MDCX ended so.
fn joined_then(fate: Fate, was: bool) -> bool
    ensures { result ≡ joined_then fate was }
{
    match fate {
        Fate::Done => true,
        Fate::Again(_) | Fate::Refused(_) | Fate::Open => was,
    }
}

// The code by which a deletion was refused for good, once another one ended so.
fn left_then(fate: Fate, was: Option<u16>) -> Option<u16>
    ensures { result ≡ left_then fate was }
{
    match fate {
        Fate::Refused(code) => Some(code),
        Fate::Done | Fate::Again(_) | Fate::Open => was,
    }
}

impl Line {
    /// A line of which nothing is known.
    pub(crate) fn new() -> Line
        ensures { result ≡ new_line }
    {
        Line {
            leg: Leg::Absent,
            joined: false,
            asked: None,
            flight: None,
            put_off: None,
            refused: None,
            left: None,
        }
    }

    /// A command is sent to the line.
    #[tactic(auto, unfolding(crate::specs::Line::sent))]
    pub(crate) fn send(&mut self, command: Command)
        ensures { self.new ≡ sent command self.old }
    {
        self.flight = Some(command);
        match command {
            Command::Ask(asked) => {
                self.asked = Some(asked);
                self.refused = None;
            }
            Command::Create { call, joined } => {
                self.leg = Leg::Unknown { call };
                self.joined = joined;
            }
            Command::Modify { .. } | Command::Delete { .. } => {}
        }
    }

    // What becomes of the connection by the outcome of CRCX.
    fn create(&mut self, call: u64, outcome: Outcome)
        ensures { self.new ≡ record self.old { leg = created_then call outcome self.old.leg } }
    {
        match outcome {
            Outcome::Created {
                connection,
                description,
            } => {
                self.leg = Leg::Standing {
                    call,
                    connection,
                    description,
                };
            }
            Outcome::Answered(code) => {
                if !is_success(code) {
                    self.leg = Leg::Absent;
                }
            }
            Outcome::GivenUp => {}
        }
    }

    // What becomes of the connection by DLCX.
    fn delete(&mut self, fate: Fate)
        ensures { self.new ≡ record self.old { leg = deleted_then fate self.old.leg; left = left_then fate self.old.left } }
    {
        self.left = left_then(fate, self.left);
        match fate {
            Fate::Done | Fate::Refused(_) => self.leg = Leg::Absent,
            Fate::Again(_) | Fate::Open => {}
        }
    }

    /// What became of the command in flight. Where nothing is, nothing changes.
    #[tactic(auto, unfolding(crate::specs::Line::landed))]
    pub(crate) fn land(&mut self, fate: Fate, outcome: Outcome)
        ensures { self.new ≡ landed fate outcome self.old }
    {
        let Some(command) = self.flight else {
            return;
        };
        self.flight = None;
        self.put_off = put_off_then(fate, self.put_off);
        match command {
            Command::Ask(_) => {
                self.asked = asked_then(fate, self.asked);
                self.refused = refused_by(fate);
            }
            Command::Create { call, .. } => self.create(call, outcome),
            Command::Modify { .. } => self.joined = joined_then(fate, self.joined),
            Command::Delete { .. } => self.delete(fate),
        }
    }

    // The line has told something: its request is used up (RFC 3435, 4.4.1).
    fn spend(&mut self)
        ensures { self.new ≡ spent self.old }
    {
        self.asked = None;
        self.refused = None;
    }

    // Its gateway has started again: no connection is left there, and nothing is put off.
    fn restart(&mut self)
        ensures { self.new ≡ restarted self.old }
    {
        self.spend();
        self.put_off = None;
        self.left = None;
    }

    /// The line has told this.
    pub(crate) fn hear(&mut self, told: Told)
        ensures { self.new ≡ heard_on told self.old }
    {
        match told {
            Told::Restarted => self.restart(),
            Told::OffHook
            | Told::OnHook
            | Told::Flash
            | Told::Dialled(_)
            | Told::TimedOut
            | Told::Disconnected => self.spend(),
        }
    }

    /// A deletion of all that the line has was answered by this code.
    #[tactic(auto, unfolding(crate::specs::Line::cleared))]
    pub(crate) fn clear(&mut self, code: u16)
        ensures { self.new ≡ cleared code self.old }
    {
        if is_deleted(code) {
            self.leg = Leg::Absent;
            self.left = None;
        } else {
            self.left = Some(code);
        }
    }
}

// The call that can't be connected by what became of this command.
pub(crate) fn failing(flight: Option<Command>, fate: Fate) -> Option<u64>
    ensures { result ≡ failing flight fate }
{
    match flight {
        Some(Command::Create { call, .. }) => { if fails(fate) { Some(call) } else { None } }
        Some(Command::Modify { call }) => { if fails(fate) { Some(call) } else { None } }
        Some(Command::Ask(_) | Command::Delete { .. }) | None => None,
    }
}

// The hook state of the telephone, by which it was refused what it was asked for (RFC 3435, 2.4).
fn hook_in(outcome: &Outcome) -> Option<Hook>
    ensures { result ≡ hook_in outcome.now }
{
    match outcome {
        Outcome::Answered(code) => hook_told(*code),
        Outcome::Created { .. } | Outcome::GivenUp => None,
    }
}

// How the telephone was found by this command.
pub(crate) fn finding(flight: Option<Command>, outcome: &Outcome) -> Option<Hook>
    ensures { result ≡ finding flight outcome.now }
{
    match flight {
        Some(Command::Ask(_)) => hook_in(outcome),
        Some(Command::Create { .. } | Command::Modify { .. } | Command::Delete { .. }) | None =>
            None,
    }
}
