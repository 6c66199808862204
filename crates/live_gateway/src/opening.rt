//! What a gateway that runs begins with, as is asked for: its journal, and the network before its sockets. Each part is made by a function
//! of its own, since a check pays for all that a value holds inline at each step of a function that has it.
ghost use Rattle.std.specs.Prelude.{IfOk};
ghost use Rattle.live_gateway.specs.Opening.{CountsNothing, BeginsBoard, BeginsLog, BeginsCapture, BeginsRecords, BeginsNetwork};

use crate::spoilt_way::SpoiltWay;
use impairment::{BadNetwork, Spoiling};
use live_journal::{Capture, Journal};
use message_counts::MessageTally;
use output_queues::{Written, boxed};
use page_state::Board;
use std::alloc::{AllocError, Global};
use std::net::SocketAddrV4;
use told_messages::Log;

/// What is asked of a gateway that runs, beside its configuration.
#[derive(Clone, Copy)]
pub struct DeskSettings<'a> {
    /// Whether what happens is told in a trace.
    pub has_trace: bool,
    /// Whether what is said is told in a log, for people.
    pub has_log: bool,
    /// The file that datagrams are captured into, and the address that this tells of the gateway.
    pub capture: Option<&'a str>,
    pub here: SocketAddrV4,
    /// Whether there is a page to be shown what happens.
    pub has_page: bool,
    /// How a network spoils its datagrams, where one is asked for.
    pub network: Option<Spoiling>,
    /// The moment at which it ends, in ms.
    pub end: Option<u64>,
}

fn tally_of(alloc: Global) -> Result<Box<MessageTally>, AllocError>
    ensures { IfOk result (λ tally. CountsNothing tally.value) }
{
    boxed(alloc, MessageTally::new(alloc)?)
}

fn log_of(alloc: Global, has_log: bool, domain: &[u8]) -> Result<Box<Log>, AllocError>
    ensures { IfOk result (λ log. BeginsLog has_log domain.now log.value) }
{
    boxed(alloc, Log::new(alloc, has_log, domain)?)
}

fn capture_of(alloc: Global, settings: &DeskSettings<'_>) -> Result<Box<Capture>, AllocError>
    ensures { IfOk result (λ capture. BeginsCapture settings.now.capture settings.now.here capture.value) }
{
    boxed(alloc, Capture::new(alloc, settings.capture, settings.here)?)
}

// What a page is shown, if there is one.
fn board_of(alloc: Global, has_page: bool) -> Result<Option<Box<Board>>, AllocError>
    ensures { IfOk result (λ board. BeginsBoard has_page board) }
{
    if !has_page {
        return Ok(None);
    }
    Ok(Some(boxed(alloc, Board::new(alloc))?))
}

pub(crate) fn journal_of(
    alloc: Global,
    settings: &DeskSettings<'_>,
    domain: &[u8],
) -> Result<Journal, AllocError>
    ensures page { IfOk result (λ journal. BeginsBoard settings.now.has_page journal.board) }
    ensures counted { IfOk result (λ journal. CountsNothing journal.tally.value) }
    ensures recorded { IfOk result (λ journal. BeginsRecords settings.now domain.now journal) }
{
    let Ok(tally) = tally_of(alloc) else {
        return Err(AllocError);
    };
    let Ok(log) = log_of(alloc, settings.has_log, domain) else {
        return Err(AllocError);
    };
    let Ok(capture) = capture_of(alloc, settings) else {
        return Err(AllocError);
    };
    let Ok(board) = board_of(alloc, settings.has_page) else {
        return Err(AllocError);
    };
    Ok(Journal {
        tally,
        log,
        capture,
        board,
        written: Written::ALL,
    })
}

// The bad network, if one is asked for: the gateway's own, which spoils as was asked.
pub(crate) fn network_of(
    alloc: Global,
    asked: Option<Spoiling>,
    domain: &[u8],
) -> Result<Option<Box<SpoiltWay>>, AllocError>
    ensures { IfOk result (λ network. BeginsNetwork asked domain.now network) }
{
    match asked {
        Some(spoiling) => {
            let network = BadNetwork::new(alloc, spoiling.with_name(domain));
            Ok(Some(boxed(alloc, SpoiltWay::new(alloc, network))?))
        }
        None => Ok(None),
    }
}
