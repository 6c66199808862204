//! The connections of a line, a row each. It receives at 127.0.0.1 from port 3000 on.
//!
//! - `create  C: 1A  M: recvonly  L: p:30  RTP: 8 0` a connection is asked for, and answered `I 1`, its number in decimal
//!   digits, and the lines of its description; L and RTP, the payload types that the other side offers, can be left out;
//! - `modify  C: 1A  I: 1  M: sendrecv` is answered with a description where that changes, and else `-`;
//! - `delete  C: 1A  I: 1` one, `delete  C: 1A` those of a call, `delete` all: `-`;
//! - `audit  I: 1` is answered `C 1A`, `M sendrecv`, `RTP known` or `unknown`, and the lines of the description;
//! - `encoding e:A` the line has this encoding from now on; before it has `e:mu`;
//! - `answer  I 1  v=0  ..` all that was answered last;
//! - `places 1 0 3 0` the connections at the four places, 0 at a free one;
//! - `keep` and `back`: the line as it was once, under a new title without connections.
//!
//! Behind a row's parameters stand fields that its answer has, or its return code; 0 stands for a value that isn't read.
mod asked;

use crate::keeping::Kept;
use crate::texts::{unless_fields, words_of};
use asked::{change_of, creation_of, deletion_of, identifier_in};
use connections::{Connections, Encoding, mode_text, read_encoding};
use mg_bytes::{CodeFault, OutOfMemory, boxed};
use scenario_files::{Outcome, Row, Scenario};
use sdp_subset::{Session, write_sdp};
use std::alloc::Global;
use std::net::Ipv4Addr;

// Puts the lines of a description, a field each.
fn put_description(given: &mut Outcome, description: &Session) {
    let Ok(text) = write_sdp(given.alloc, description) else {
        return given.refuse();
    };
    let lines = words_of(text.as_bytes()).trim_end();
    given.put_made(lines.replace(given.alloc, "\r\n", "  "));
}

/// The connections of a line, its encoding, and the last answer.
#[derive(Drop)]
pub struct ConnectionsScenario {
    line: Box<Connections>,
    encoding: Encoding,
    answer: Vec<u8>,
}

impl ConnectionsScenario {
    // The number of the connection, and its description.
    fn create(&mut self, given: &mut Outcome, fields: &str) -> Result<(), CodeFault> {
        let creation = creation_of(given.alloc, fields)?;
        let created = self.line.create(self.encoding, creation)?;
        given.put_behind(b"I ", created.number);
        given.put(b"  ");
        put_description(given, &created.description);
        Ok(())
    }

    fn modify(&mut self, given: &mut Outcome, fields: &str) -> Result<(), CodeFault> {
        let call = identifier_in(fields, "C: ")?;
        let id = identifier_in(fields, "I: ")?;
        let change = change_of(given.alloc, fields)?;
        match self.line.modify(self.encoding, &call, &id, change)? {
            Some(description) => put_description(given, &description),
            None => given.put(b"-"),
        }
        Ok(())
    }

    // What can be read of a connection, and its description.
    fn audit(&self, given: &mut Outcome, fields: &str) -> Result<(), CodeFault> {
        let audited = self.line.audit(&identifier_in(fields, "I: ")?)?;
        given.put_both(b"C ", audited.connection.call.as_slice());
        given.put_both(b"  M ", mode_text(audited.connection.mode));
        given.put(match &audited.connection.remote {
            Some(_) => b"  RTP known  ".as_slice(),
            None => b"  RTP unknown  ".as_slice(),
        });
        put_description(given, &audited.description);
        Ok(())
    }

    fn delete(&mut self, given: &mut Outcome, fields: &str) -> Result<(), CodeFault> {
        self.line.delete(&deletion_of(fields)?)?;
        given.put(b"-");
        Ok(())
    }

    // A command, and what it is answered.
    fn command(&mut self, given: &mut Outcome, word: &str, fields: &str) {
        let done = match word {
            "create" => self.create(given, fields),
            "modify" => self.modify(given, fields),
            "audit" => self.audit(given, fields),
            "delete" => self.delete(given, fields),
            _ => return given.unread(),
        };
        if let Err(fault) = done {
            given.put_code(fault);
        }
    }

    // The answer to a command, where a row doesn't say fields of it; a return code is always said.
    fn answer(&mut self, row: &mut Row<'_>) {
        self.answer.clear();
        let is_kept = self.answer.extend_from_slice(&row.given.bytes).is_ok();
        row.given.refuse_unless(is_kept);
        if row.left.is_empty() && words_of(&row.given.bytes).parse::<u32>().is_err() {
            row.given.bytes.clear();
        } else {
            unless_fields(row);
        }
    }

    fn put_places(&self, given: &mut Outcome) {
        for held in self.line.list() {
            match held {
                Some(connection) => given.put_behind(b" ", connection.number),
                None => given.put(b" 0"),
            }
        }
    }
}

impl Scenario for ConnectionsScenario {
    fn begin(alloc: Global) -> Result<ConnectionsScenario, OutOfMemory> {
        let line = boxed(alloc, Connections::new(Ipv4Addr::LOCALHOST, 3000))?;
        Ok(ConnectionsScenario {
            line,
            encoding: Encoding::Mu,
            answer: Vec::new(alloc),
        })
    }

    fn turn(&mut self, row: &mut Row<'_>) {
        let word = row.before(" ");
        match word {
            "encoding" => match read_encoding(row.rest().as_bytes()) {
                Some(encoding) => self.encoding = encoding,
                None => row.given.unread(),
            },
            "answer" => row.given.put(&self.answer),
            "places" => self.put_places(&mut row.given),
            _ => {
                let fields = row.parameters();
                self.command(&mut row.given, word, fields);
                self.answer(row);
            }
        }
    }
}

impl Kept for ConnectionsScenario {
    fn copy(&self, alloc: Global) -> Result<ConnectionsScenario, OutOfMemory> {
        let answer = Vec::from_slice(alloc, &self.answer)?;
        let line = boxed(alloc, self.line.try_copy()?)?;
        Ok(ConnectionsScenario {
            line,
            encoding: self.encoding,
            answer,
        })
    }
}
