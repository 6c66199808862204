//! What rows of several kinds have in common: refusals, commands that are issued, acts, addresses, and what an agent tells.
use crate::gateways::agent_address;
use agent_core::Agent;
use mg_bytes::{Draft, OutOfMemory, Text};
use mg_line::Act;
use packages::write_observed;
use rgw_scripts::{ScriptLine, ScriptStep, line_in};
use scenario_files::{Outcome, Row, bytes_of, parted};
use std::alloc::Global;
use std::net::SocketAddrV4;

/// A command that is issued: its verb, its endpoint's name, and the bytes behind its line.
#[derive(Drop)]
pub struct Command {
    pub verb: Text,
    pub name: Text,
    pub rest: Text,
}

// The refusals of a world and of an agent.
const REFUSALS: [&str; 10] = [
    "2 TickTooFar",
    "3 ClockBack",
    "4 NoSuchLine",
    "5 PhoneState",
    "6 NoMoreIds",
    "7 BadCommand",
    "8 NoSuchPacket",
    "9 PacketTooOld",
    "2 NoMoreIds",
    "3 BadCommand",
];

/// What stands before the refusal that is the last field of a row, which is left; all where none is.
pub fn but_refusal<'a>(row: &mut Row<'a>) -> &'a str {
    let (words, last) = row.left.rsplit_once("  ").unwrap_or(("", ""));
    for refusal in &REFUSALS {
        if *refusal == last {
            row.left = last;
            return words;
        }
    }
    row.rest()
}

/// Puts a refusal.
pub fn put_refusal(given: &mut Outcome, number: u8, name: &str) {
    given.put_shown(number);
    given.put_both(b" ", name.as_bytes());
}

/// The number that words say; 0 where they say none, and then there is no such row.
pub fn number_of(given: &mut Outcome, words: &str) -> u64 {
    let Ok(number) = words.parse::<u64>() else {
        given.unread();
        return 0;
    };
    number
}

// A text; nothing where memory is refused, which the row keeps.
fn kept(given: &mut Outcome, bytes: Result<Vec<u8>, OutOfMemory>) -> Text {
    let Ok(bytes) = bytes else {
        given.refuse();
        return Text::of(Vec::new(given.alloc));
    };
    Text::of(bytes)
}

/// A field as a text; nothing where memory is refused, which the row keeps.
pub fn text_of(given: &mut Outcome, field: &str) -> Text {
    let bytes = bytes_of(given.alloc, field);
    kept(given, bytes)
}

/// A number between texts; nothing where memory is refused, which the row keeps.
pub fn numbered(given: &mut Outcome, before: &str, number: u32, behind: &str) -> Text {
    let mut text = Draft::new(given.alloc);
    text.put(before.as_bytes());
    text.put_decimal(u64::from(number));
    text.put(behind.as_bytes());
    kept(given, text.end())
}

/// `AUEP  aaln/1@rgw.example.net  K: 1¶`, without the last where that is empty.
pub fn command_in(given: &mut Outcome, fields: &str) -> Command {
    let (verb, behind) = parted(fields, "  ");
    let (name, rest) = parted(behind, "  ");
    let verb = text_of(given, verb);
    let name = text_of(given, name);
    let rest = text_of(given, rest);
    Command { verb, name, rest }
}

// A line of a script.
fn script_line(alloc: Global, step: &str, words: &str) -> Result<Option<ScriptLine>, OutOfMemory> {
    let mut line = Draft::new(alloc);
    line.put(step.as_bytes());
    line.put(b" ");
    line.put(words.as_bytes());
    line_in(alloc, &line.end()?)
}

/// `1 off`: the line, and what is done at its telephone; on hook at line 0 where it says something else, and then there is no
/// such row.
pub fn act_in(given: &mut Outcome, words: &str) -> (u16, Act) {
    match script_line(given.alloc, "phone", words) {
        Ok(
            Some(
                ScriptLine::Whole {
                    step: ScriptStep::Phone { line, act },
                },
            ),
        ) => return (line, act),
        Ok(_) => given.unread(),
        Err(_) => given.refuse(),
    }
    (0, Act::OnHook)
}

/// The address that comes next, up to the next field.
pub fn address_in(row: &mut Row<'_>) -> SocketAddrV4 {
    let address = row.before("  ");
    match script_line(row.given.alloc, "from", address) {
        Ok(Some(ScriptLine::From { source })) => return source,
        Ok(_) => row.given.unread(),
        Err(_) => row.given.refuse(),
    }
    agent_address()
}

/// `1  200  200 1 OK¶` or `1  none`: the answer to the command with this id.
pub fn put_answer(row: &mut Row<'_>, agent: &Agent) {
    let Ok(id) = row.before("  ").parse::<u32>() else {
        return row.given.unread();
    };
    let Some(answer) = agent.answers(id) else {
        return row.given.put(b"none");
    };
    row.given.put_shown(answer.code);
    row.given.put_both(b"  ", answer.text.as_bytes());
}

/// `1  L/hd,D/5` or `1  none`: what notifications of this line told.
pub fn put_taken(row: &mut Row<'_>, agent: &Agent) {
    let Ok(line) = row.before("  ").parse::<u16>() else {
        return row.given.unread();
    };
    let observed = agent.taken(line);
    if observed.is_empty() {
        row.given.put(b"none");
    } else {
        let given = &mut row.given;
        given.put_text(write_observed(given.alloc, observed));
    }
}
