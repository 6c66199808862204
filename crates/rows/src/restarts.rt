//! The announcement of a gateway or of a line, a row each (RFC 3435, 2.3.12). Under a new title none is owed.
//!
//! - `waits 500 from 1000` one waits so long from this moment on, both in ms; `sent` it goes out; `answered` it is answered;
//! - `is waiting` where it is: `waiting`, `announced` or `serving`;
//! - `due 1500` the moment at which it is sent; `due -` none waits;
//! - `keep` and `back`: the announcement as it was once.
ghost use Rattle.std.specs.Prelude.{◌<◌, ◌^◌};

use crate::keeping::Kept;
use mg_bytes::OutOfMemory;
use retransmission::Restart;
use scenario_files::{Row, Scenario};
use std::alloc::Global;

/// An announcement.
#[derive(Drop)]
pub struct RestartScenario {
    restart: Restart,
}

impl RestartScenario {
    // `500 from 1000`.
    fn wait(&mut self, row: &mut Row<'_>) {
        let wait = row.number();
        let moment = u64::from(row.number_behind("from"));
        self.restart = Restart::begin(moment, wait);
    }
}

impl Scenario for RestartScenario {
    fn begin(_alloc: Global) -> Result<RestartScenario, OutOfMemory> {
        let restart = Restart::Serving;
        Ok(RestartScenario { restart })
    }

    fn turn(&mut self, row: &mut Row<'_>) {
        match row.before(" ") {
            "waits" => self.wait(row),
            "sent" => self.restart = Restart::Announced,
            "answered" => self.restart = Restart::Serving,
            "is" => row.given.put(match self.restart {
                Restart::Waiting(_) => b"waiting".as_slice(),
                Restart::Announced => b"announced".as_slice(),
                Restart::Serving => b"serving".as_slice(),
            }),
            "due" => match self.restart.due() {
                Some(moment) => row.given.put_shown(moment),
                None => row.given.put(b"-"),
            },
            _ => row.given.unread(),
        }
    }
}

impl Kept for RestartScenario {
    fn copy(&self, _alloc: Global) -> Result<RestartScenario, OutOfMemory> {
        let restart = self.restart.try_copy()?;
        Ok(RestartScenario { restart })
    }
}
