//! A message of ours in flight, a row each. It goes to 127.0.0.1, port 2727.
//!
//! - `hosts 3` what begins from now on goes to 127.0.0.1, 127.0.0.2 and 127.0.0.3, 4 at most;
//! - `begins 10000000 at 1000  TEXT` the message with this id, as it is first sent;
//! - `due 1500` when it is repeated or given up;
//! - `repeat 1500 sent` it is due then, and is sent again, or `given up`;
//! - `answer 10000000 100 at 1200 provisional` what a response with this id and return code is to it: `provisional`,
//!   `answered` or `stranger`;
//! - `is  10000000  127.0.0.1:2727  TEXT` its id, where it was sent last, and its text; `to 127.0.0.1:2727` where alone;
//! - `keep` and `back`: the message as it was once.
ghost use Rattle.std.specs.Prelude.{◌<◌, ◌^◌};

use crate::keeping::Kept;
use crate::values::names::route_to;
use mg_bytes::{OutOfMemory, boxed};
use mgcp_text::TransactionId;
use retransmission::{Pending, Repeat, Reply};
use scenario_files::{Outcome, Row, Scenario, said, value_of};
use std::alloc::Global;

// Where a message goes.
const PORT: u16 = 2727;

fn id_in(row: &mut Row<'_>) -> TransactionId {
    let number = row.number();
    if number < 1 || number > 999_999_999 {
        row.given.unread();
        return TransactionId::of(1);
    }
    TransactionId::of(number)
}

/// A message, and how many addresses the next one has.
#[derive(Drop)]
pub struct MessageScenario {
    message: Box<Pending>,
    hosts: u32,
}

impl MessageScenario {
    // `10000000 at 1000  TEXT`.
    fn begins(&mut self, row: &mut Row<'_>) -> Result<(), OutOfMemory> {
        let id = id_in(row);
        let moment = u64::from(row.number_behind("at"));
        let text = value_of(row.given.alloc, row.rest().trim_start())?;
        let route = route_to(self.hosts).with_port(PORT);
        let message = Pending::begin(row.given.alloc, id, route, text.as_bytes(), moment)?;
        self.message = boxed(row.given.alloc, message)?;
        Ok(())
    }

    // `1500`: what it does then.
    fn repeat(&mut self, row: &mut Row<'_>) -> &'static str {
        let moment = u64::from(row.number());
        if self.message.due() != moment {
            return "not due";
        }
        match self.message.repeat(moment) {
            Repeat::Sent => "sent",
            Repeat::GivenUp => "given up",
        }
    }

    // `10000000 100 at 1200`: what the response is to it.
    fn answer(&mut self, row: &mut Row<'_>) -> &'static str {
        let id = id_in(row);
        let Ok(code) = u16::try_from(row.number()) else {
            return "no code";
        };
        let moment = u64::from(row.number_behind("at"));
        match self.message.answer(id, code, moment) {
            Reply::Answered => "answered",
            Reply::Provisional => "provisional",
            Reply::Stranger => "stranger",
        }
    }

    // Its id, where it was sent last, and its text.
    fn put_state(&self, given: &mut Outcome) {
        given.put_shown(self.message.id().number());
        given.put_behind(b"  ", self.message.to());
        given.put(b"  ");
        given.put_made(said(given.alloc, self.message.text()));
    }
}

impl Scenario for MessageScenario {
    fn begin(alloc: Global) -> Result<MessageScenario, OutOfMemory> {
        let route = route_to(1).with_port(PORT);
        let message = Pending::begin(alloc, TransactionId::of(1), route, b"", 0)?;
        let message = boxed(alloc, message)?;
        Ok(MessageScenario { message, hosts: 1 })
    }

    fn turn(&mut self, row: &mut Row<'_>) {
        match row.before(" ") {
            "hosts" => self.hosts = row.number(),
            "begins" => {
                if self.begins(row).is_err() {
                    row.given.refuse();
                }
            }
            "repeat" => {
                let becomes = self.repeat(row);
                row.given.put_words(becomes);
            }
            "answer" => {
                let reply = self.answer(row);
                row.given.put_words(reply);
            }
            "due" => row.given.put_shown(self.message.due()),
            "to" => row.given.put_shown(self.message.to()),
            "is" => self.put_state(&mut row.given),
            _ => row.given.unread(),
        }
    }
}

impl Kept for MessageScenario {
    fn copy(&self, alloc: Global) -> Result<MessageScenario, OutOfMemory> {
        let message = boxed(alloc, self.message.try_copy()?)?;
        Ok(MessageScenario {
            message,
            hosts: self.hosts,
        })
    }
}
