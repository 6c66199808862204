//! The connections of a line.
ghost use Rattle.std.specs.Prelude.{◌≡◌, ◌<◌, ◌+◌, ◌^◌, length};

use crate::answer::{Audited, Created};
use crate::codec::{Encoding, payloads_of};
use crate::connection::{Change, Connection, Creation, begun, is_changed, renewed};
use crate::deletion::Deletion;
use crate::places::{free_place, is_emptied, place_of, place_with, refused};
use crate::plan::{Plan, Planned};
use mg_bytes::{CodeFault, Identifier, OutOfMemory, ReturnCode};
use sdp_subset::{Origin, Session};
use std::marker::Model;
use std::net::Ipv4Addr;

/// The connections of a line, at four places, and the number of the last one that was created.
///
/// A contract sees the address and the first port of the line, the last number, and what each place holds.
#[derive(Drop)]
pub struct Connections {
    address: Ipv4Addr,
    port: u16,
    last: u32,
    places: [Option<Connection>; 4],
}

impl Model for Connections {
    ghost use Rattle.std.specs.Prelude.{◌≡◌, ◌<◌, ◌+◌, ◌^◌, length};
    ghost use Rattle.connections.specs.Standing.{Standing};

    ghost Value = { Standing };

    ghost view = { λ c. record { address = c.address; port = c.port; last = c.last; places = c.places } };

    ghost invariant = { λ c. (c.port + 6 < 2 ^ 16) × (length c.places ≡ 4) };
}

impl Connections {
    ghost use Rattle.std.specs.Prelude.{◌≡◌, ◌<◌, ◌+◌, ◌^◌, length, Ok};
    ghost use Rattle.std.specs.Prelude.{map};
    ghost use Rattle.connections.specs.Connection.{is_changed};
    ghost use Rattle.connections.specs.Standing.{no_connections, described, created, modified, deleted, audited};
    ghost use Rattle.connections.specs.Standing.{left_by, answered_by, left_of, whether, placed, shown_if, is_emptied};
    ghost use Rattle.connections.specs.Planning.{emptied, committed, planned, planned_alone};
    ghost use Rattle.mg_bytes.specs.CodeFault.{AnswersAs, answer_of};

    /// No connections, and none created yet. Streams are received at this address; the first port is that of the first
    /// place, and each further place has the port that is greater by two.
    pub fn new(address: Ipv4Addr, port: u16) -> Connections
        requires { port + 6 < 2 ^ 16 }
        ensures { result ≡ no_connections address port }
    {
        Connections {
            address,
            port,
            last: 0,
            places: [None, None, None, None],
        }
    }

    // The local description of the connection at a place.
    fn described(&self, place: usize, connection: &Connection) -> Session
        requires { place < 4 }
        ensures { result ≡ described self.now place connection.now }
    {
        Session {
            origin: Some(Origin {
                number: connection.number,
                version: connection.version,
            }),
            address: self.address,
            port: self.port + 2 * place as u16,
            payloads: payloads_of(connection.codecs.in_force),
            ptime: Some(connection.options.packet_time),
        }
    }

    /// What CreateConnection will do (RFC 3435, 2.3.5), and what it answers; the line has this encoding. Nothing changes yet.
    ///
    /// A refusal is a return code, as in `create`.
    #[tactic(auto, unfolding(crate::specs::Standing::created))]
    pub fn plan_creation(
        &self,
        encoding: Encoding,
        creation: &Creation,
    ) -> Result<Planned<Created>, u16>
        ensures { planned result self.now ≡ created encoding creation.now self.now }
    {
        let Some(place) = free_place(&self.places) else {
            return Err(ReturnCode::TooManyConnections.number());
        };
        if self.last == u32::MAX {
            return Err(ReturnCode::InsufficientResources.number());
        }
        let number = self.last + 1;
        let connection = begun(encoding, creation, number)?;
        let description = self.described(place, &connection);
        Ok(Planned {
            plan: Plan::Begin { place, connection },
            answer: Created {
                number,
                description,
            },
        })
    }

    // The local description of the connection at a place, where it isn't what it was.
    fn shown(&self, place: usize, was: &Connection, connection: &Connection) -> Option<Session>
        requires { place < 4 }
        ensures { result ≡ shown_if (is_changed was.now connection.now.options connection.now.codecs)
            (described self.now place connection.now) }
    {
        if is_changed(was, connection.options, connection.codecs) {
            Some(self.described(place, connection))
        } else {
            None
        }
    }

    /// What ModifyConnection will do (RFC 3435, 2.3.6) to the connection of this call with this identifier, and what it
    /// answers; the line has this encoding. Nothing changes yet.
    ///
    /// A refusal is a return code, as in `modify`.
    #[tactic(auto, unfolding(crate::specs::Standing::modified))]
    pub fn plan_change(
        &self,
        encoding: Encoding,
        call: &Identifier,
        id: &Identifier,
        change: &Change,
    ) -> Result<Planned<Option<Session>>, u16>
        ensures { planned result self.now ≡ modified encoding call.now id.now change.now self.now }
    {
        let place = place_of(call, id, &self.places)?;
        let Some(was) = &self.places[place] else {
            return Err(ReturnCode::IncorrectConnection.number());
        };
        let connection = renewed(encoding, change, was)?;
        let answer = self.shown(place, was, &connection);
        Ok(Planned {
            plan: Plan::Renew { place, connection },
            answer,
        })
    }

    // Which places hold a connection that is deleted.
    fn emptied(&self, deletion: &Deletion) -> [bool; 4]
        ensures { result ≡ map (is_emptied deletion.now) self.now.places }
    {
        let [first, second, third, fourth] = &self.places;
        [
            is_emptied(deletion, first),
            is_emptied(deletion, second),
            is_emptied(deletion, third),
            is_emptied(deletion, fourth),
        ]
    }

    /// What DeleteConnection will do (RFC 3435, 2.3.7 and 2.3.9). Nothing changes yet.
    ///
    /// A refusal is a return code, as in `delete`.
    #[tactic(auto, unfolding(crate::specs::Standing::deleted))]
    pub fn plan_deletion(&self, deletion: &Deletion) -> Result<Plan, u16>
        ensures { planned_alone result self.now ≡ deleted deletion.now self.now }
    {
        if let Some(code) = refused(deletion, &self.places) {
            return Err(code);
        }
        Ok(Plan::Empty(self.emptied(deletion)))
    }

    // A connection comes to stand at a place, where there is that place.
    fn put(&mut self, place: usize, connection: Connection)
        ensures { self.new ≡ placed self.old place connection }
    {
        if place < 4 {
            self.places[place] = Some(connection);
        }
    }

    // Those places hold nothing any more for which it is true.
    fn empty(&mut self, those: [bool; 4])
        ensures { self.new ≡ record self.old { places = emptied those self.old.places } }
    {
        for place in 0..4 {
            if those[place] {
                self.places[place] = None;
            }
        }
    }

    /// What was planned becomes of the connections. It takes no memory, and nothing refuses it.
    pub fn commit(&mut self, plan: Plan)
        ensures { self.new ≡ committed plan self.old }
    {
        match plan {
            Plan::Stay => {}
            Plan::Begin { place, connection } => {
                self.last = connection.number;
                self.put(place, connection);
            }
            Plan::Renew { place, connection } => self.put(place, connection),
            Plan::Empty(those) => self.empty(those),
        }
    }

    /// Creates a connection (RFC 3435, 2.3.5) at the least free place, with the next number and the version 1; the line has
    /// this encoding. It answers the number and the local description.
    ///
    /// A refusal is a return code, and changes nothing: 540 where no place is free, then 502 where the numbers are used up,
    /// then 534 where no codec is left, then 527 for a mode that sends without a remote description.
    pub fn create(&mut self, encoding: Encoding, creation: Creation) -> Result<Created, CodeFault>
        ensures answer { result ≡ answer_of (answered_by (created encoding creation self.old)) }
        ensures answers { AnswersAs (answered_by (created encoding creation self.old)) result }
        ensures left { self.new ≡ left_by self.old (created encoding creation self.old) }
    {
        match self.plan_creation(encoding, &creation) {
            Ok(Planned { plan, answer }) => {
                self.commit(plan);
                Ok(answer)
            }
            Err(code) => Err(CodeFault::Code(code)),
        }
    }

    /// Modifies the connection of this call with this identifier (RFC 3435, 2.3.6): what is given replaces what stands, the
    /// options as a whole; the line has this encoding. Where the list of codecs in force or the packet time changes, the
    /// local description has the next version, and is answered.
    ///
    /// A refusal is a return code, and changes nothing: 516 where no connection of the call stands, then 515 where the
    /// identifier is of none of them, then 534 where no codec is left, then 527 for a mode that sends without a remote
    /// description, then 502 where the versions are used up.
    pub fn modify(
        &mut self,
        encoding: Encoding,
        call: &Identifier,
        id: &Identifier,
        change: Change,
    ) -> Result<Option<Session>, CodeFault>
        ensures answer { result ≡ answer_of (answered_by (modified encoding call.now id.now change self.old)) }
        ensures answers { AnswersAs (answered_by (modified encoding call.now id.now change self.old)) result }
        ensures left { self.new ≡ left_by self.old (modified encoding call.now id.now change self.old) }
    {
        match self.plan_change(encoding, call, id, &change) {
            Ok(Planned { plan, answer }) => {
                self.commit(plan);
                Ok(answer)
            }
            Err(code) => Err(CodeFault::Code(code)),
        }
    }

    /// Deletes connections (RFC 3435, 2.3.7 and 2.3.9): their places are free then.
    ///
    /// A refusal is a return code, and changes nothing: 516 where a call is named of which no connection stands, then 515
    /// where the identifier is of none of them.
    pub fn delete(&mut self, deletion: &Deletion) -> Result<(), CodeFault>
        ensures answer { result ≡ answer_of (whether (deleted deletion.now self.old)) }
        ensures answers { AnswersAs (whether (deleted deletion.now self.old)) result }
        ensures left { self.new ≡ left_of self.old (deleted deletion.now self.old) }
    {
        match self.plan_deletion(deletion) {
            Ok(plan) => {
                self.commit(plan);
                Ok(())
            }
            Err(code) => Err(CodeFault::Code(code)),
        }
    }

    /// The connection with this identifier as it stands, with its local description (RFC 3435, 2.3.11); where there is none,
    /// the return code 515. It takes no memory.
    pub fn audit(&self, id: &Identifier) -> Result<Audited, CodeFault>
        ensures answer { result ≡ answer_of (audited id.now self.now) }
        ensures answers { AnswersAs (audited id.now self.now) result }
    {
        match self.audited(id) {
            Ok(audited) => Ok(audited),
            Err(code) => Err(CodeFault::Code(code)),
        }
    }

    #[tactic(auto, unfolding(crate::specs::Standing::audited))]
    fn audited(&self, id: &Identifier) -> Result<Audited, u16>
        ensures { result ≡ audited id.now self.now }
    {
        let Some(place) = place_with(id, &self.places) else {
            return Err(ReturnCode::IncorrectConnection.number());
        };
        let Some(connection) = &self.places[place] else {
            return Err(ReturnCode::IncorrectConnection.number());
        };
        Ok(Audited {
            connection: connection.copy(),
            description: self.described(place, connection),
        })
    }

    /// What each place holds.
    pub fn list(&self) -> &[Option<Connection>]
        ensures value { result.now ≡ self.now.places }
        ensures four { length result.now ≡ 4 }
    {
        &self.places
    }

    /// Equal connections. It takes no memory.
    pub fn copy(&self) -> Connections
        ensures { result ≡ self.now }
    {
        let [first, second, third, fourth] = &self.places;
        Connections {
            address: self.address,
            port: self.port,
            last: self.last,
            places: [
                copy_held(first),
                copy_held(second),
                copy_held(third),
                copy_held(fourth),
            ],
        }
    }

    /// The same as `copy`, for who asks where a copy can be refused: this one never is.
    pub fn try_copy(&self) -> Result<Connections, OutOfMemory>
        ensures { result ≡ Ok self.now }
    {
        Ok(self.copy())
    }
}

// An equal connection, if there is one.
fn copy_held(held: &Option<Connection>) -> Option<Connection>
    ensures { result ≡ held.now }
{
    match held {
        None => None,
        Some(connection) => Some(connection.copy()),
    }
}
