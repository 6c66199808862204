//! Where an announcement is.
ghost use Rattle.std.specs.Prelude.{◌≡◌, ◌<◌, ◌^◌};
ghost use Rattle.retransmission.specs.Restarting.{begun, announced_at, is_serving, heard_of, answer_of, answer_by};

use crate::heard::Heard;
use crate::reply::Reply;
use endpoint_names::Entity;
use mg_bytes::{OutOfMemory, ReturnCode};

/// Where the announcement of the gateway or of a line is (RFC 3435, 2.3.12): a RestartInProgress says that it is here
/// again.
///
/// At the moment that `due` says its owner sends the announcement, and it is `Announced`. `answer` says what a response
/// is: after `Redirected` the announcement is sent anew, and after `Answered` it is `Serving`. Where an announcement or a
/// notification is given up, the owner calls `begin` again.
#[derive(Clone, Copy)]
pub enum Restart {
    /// The announcement waits until this moment, in ms.
    Waiting(u64),
    /// It was sent, and isn't answered yet.
    Announced,
    /// It was answered, or none was owed.
    Serving,
}

impl Restart {
    /// An announcement that waits so long from this moment on, both in ms.
    pub fn begin(moment: u64, wait: u32) -> Restart
        requires { moment < 2 ^ 62 }
        ensures { result ≡ begun moment wait }
    {
        Restart::Waiting(moment + u64::from(wait))
    }

    /// An equal one, for who asks where a copy can be refused: this one never is.
    pub fn try_copy(&self) -> Result<Restart, OutOfMemory>
        ensures { result ≡ Ok self.now }
    {
        Ok(*self)
    }

    /// The moment, in ms, at which the announcement is sent; `None` where none waits.
    pub fn due(self) -> Option<u64>
        ensures { result ≡ announced_at self }
    {
        match self {
            Restart::Waiting(until) => Some(until),
            Restart::Announced | Restart::Serving => None,
        }
    }

    /// Whether the announcement was answered. Before that the gateway executes audits alone (RFC 3435, 2.3.12).
    pub fn serving(self) -> bool
        ensures { result ≡ is_serving self }
    {
        match self {
            Restart::Serving => true,
            Restart::Waiting(_) | Restart::Announced => false,
        }
    }

    /// What a response is to what is in flight: what its id and return code make of it is `reply`, and `entity` is the one
    /// that it names, if any (RFC 3435, 2.3.12 and 2.4). An answer 521 that names one redirects the announcement.
    pub fn answer(self, reply: Reply, code: u16, entity: Option<Entity>) -> Heard
        ensures { result ≡ heard_of self reply code entity }
    {
        match reply {
            Reply::Stranger => Heard::Nothing,
            Reply::Provisional => Heard::PutOff,
            Reply::Answered => self.answered_by(code, entity),
        }
    }

    // What an answer is: that to a notification names nobody.
    fn answered_by(self, code: u16, entity: Option<Entity>) -> Heard
        ensures { result ≡ answer_of self code entity }
    {
        match self {
            Restart::Announced => announced(code, entity),
            Restart::Waiting(_) | Restart::Serving => Heard::Answered(None),
        }
    }
}

// What an answer to an announcement is.
fn announced(code: u16, entity: Option<Entity>) -> Heard
    ensures { result ≡ answer_by code entity }
{
    match entity {
        None => Heard::Answered(None),
        Some(agent) => {
            if code == ReturnCode::Redirected.number() {
                Heard::Redirected(agent)
            } else {
                Heard::Answered(Some(agent))
            }
        }
    }
}
