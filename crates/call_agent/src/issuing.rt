//! How a command is issued (RFC 3435, 3.2.1 and 3.5.3), and why it isn't.
ghost use Rattle.std.specs.Prelude.{◌≡◌, ◌≤◌, ◌<◌, ◌^◌, IfOk, OnOk, OnErr, true};
ghost use Rattle.std.specs.Result.{result_err};
ghost use Rattle.mgcp_text.specs.Reading.{read_text};
ghost use Rattle.endpoint_names.specs.declared.route.Route.TheVariants.{One};
ghost use Rattle.retransmission.specs.Flight.{sent_first};
ghost use Rattle.retransmission.specs.Issued.{is_command_as};
ghost use Rattle.call_agent.specs.Flights.{begun, settled};
ghost use Rattle.transmission.specs.Transacting.{message_to};
ghost use Rattle.call_agent.specs.Issuing.{command_text, is_good, refusal_under};
ghost use Rattle.call_agent.specs.AgentStands.{GoodEnds, IssueEnds};

use crate::flights::Flights;
use endpoint_names::Route;
use mg_bytes::{Draft, OutOfMemory, Text};
use mgcp_text::{TextFault, TransactionId, is_joinable, read_message};
use plain_machine::OutDatagram;
use retransmission::{Pending, is_command_with};
use std::alloc::{AllocError, Global};
use std::net::SocketAddrV4;
use transmission::LARGEST_DATAGRAM;

/// A command that was issued: its id, and the datagram that goes out at once.
#[derive(Drop)]
pub struct Issued {
    pub id: u32,
    pub datagram: OutDatagram,
}

/// Why a command isn't issued.
#[derive(Clone, Copy, PartialEq, Eq)]
pub enum IssueFault {
    /// Memory was refused.
    OutOfMemory = 1,
    /// All ids up to 999,999,999 were issued.
    NoMoreIds = 2,
    /// What would go out isn't a command under its id on its endpoint, or doesn't end in a line end, or would be more than
    /// one message, or more than 4,000 bytes long.
    BadCommand = 3,
}

impl IssueFault {
    ghost use Rattle.call_agent.specs.Issuing.{issue_fault_number};

    /// Its number, from 1.
    pub fn number(self) -> u8
        ensures { result ≡ issue_fault_number self }
    {
        self as u8
    }
}

impl From<OutOfMemory> for IssueFault {
    ghost use Rattle.call_agent.specs.declared.issuing.IssueFault.TheVariants as faults;

    ghost from_gives = { λ _ fault. fault ≡ faults.OutOfMemory };

    fn from(_refused: OutOfMemory) -> IssueFault {
        IssueFault::OutOfMemory
    }
}

// The greatest transaction id (RFC 3435, 3.2.1.2).
const GREATEST_ID: u32 = 999_999_999;

// The text of a command: its command line, and the bytes behind it.
fn command_text(
    alloc: Global,
    verb: &[u8],
    id: TransactionId,
    name: &[u8],
    rest: &[u8],
) -> Result<Text, OutOfMemory>
    ensures { IfOk result (λ text. text ≡ command_text verb.now id name.now rest.now) }
{
    let mut text = Draft::new(alloc);
    text.put(verb);
    text.put_byte(b' ');
    text.put_decimal(u64::from(id.number()));
    text.put_byte(b' ');
    text.put(name);
    text.put(b" MGCP 1.0\r\n");
    text.put(rest);
    text.into_text()
}

// Whether a text is read as a command with this id and this name.
fn is_command_as(
    alloc: Global,
    id: TransactionId,
    name: &[u8],
    text: &[u8],
) -> Result<bool, OutOfMemory>
    ensures { IfOk result (λ same. same ≡ is_command_as id name.now (read_text text.now)) }
{
    match read_message(alloc, text) {
        Err(TextFault::OutOfMemory) => Err(AllocError),
        Err(TextFault::NoHeader | TextFault::BadVersion { .. } | TextFault::BadBody { .. }) => Ok(
            false,
        ),
        Ok(said) => Ok(is_command_with(id, name, &said)),
    }
}

// Whether a text can be issued as the command with this id on this endpoint.
fn is_good(alloc: Global, id: TransactionId, name: &[u8], text: &[u8]) -> Result<bool, OutOfMemory>
    ensures { IfOk result (λ good. good ≡ is_good id name.now text.now) }
{
    if !is_joinable(text, LARGEST_DATAGRAM) {
        return Ok(false);
    }
    is_command_as(alloc, id, name, text)
}

// The text of a command that can be issued under this id.
fn good_text(
    alloc: Global,
    verb: &[u8],
    id: TransactionId,
    name: &[u8],
    rest: &[u8],
) -> Result<Text, IssueFault>
    ensures ok { IfOk result (λ text. text ≡ command_text verb.now id name.now rest.now) }
    ensures good { OnOk result (is_good id name.now (command_text verb.now id name.now rest.now) ≡ true) }
    ensures ends { GoodEnds (is_good id name.now (command_text verb.now id name.now rest.now)) (result_err result) }
{
    let text = command_text(alloc, verb, id, name, rest)?;
    if !is_good(alloc, id, name, text.as_bytes())? {
        return Err(IssueFault::BadCommand);
    }
    Ok(text)
}

/// Issues a command under the next id, to this address and at this moment: it is in flight, and this goes out. After an error
/// no id was used.
pub(crate) fn issue_under_next_id(
    alloc: Global,
    flights: &mut Flights,
    to: SocketAddrV4,
    moment: u64,
    verb: &[u8],
    name: &[u8],
    rest: &[u8],
) -> Result<Issued, IssueFault>
    requires moment { moment < 2 ^ 62 }
    requires some { 1 ≤ flights.old.next }
    ensures id { IfOk result (λ issued. issued.id ≡ flights.old.next) }
    ensures datagram { IfOk result (λ issued. issued.datagram
        ≡ message_to to moment (command_text verb.now flights.old.next name.now rest.now)) }
    ensures flies { OnOk result (flights.new
        ≡ begun (sent_first flights.old.next (One to) (command_text verb.now flights.old.next name.now rest.now) moment) flights.old) }
    ensures err { OnErr result (settled flights.new ≡ settled flights.old) }
    ensures ends { IssueEnds (refusal_under flights.old.next verb.now name.now rest.now) (result_err result) }
{
    let next = flights.next_id();
    if next > GREATEST_ID {
        return Err(IssueFault::NoMoreIds);
    }
    let id = TransactionId::of(next);
    let text = good_text(alloc, verb, id, name, rest)?;
    let flight = Pending::begin(alloc, id, Route::One(to), text.as_bytes(), moment)?;
    flights.begin(flight)?;
    Ok(Issued {
        id: next,
        datagram: OutDatagram {
            to,
            moment,
            bytes: text,
        },
    })
}
