//! What a turn does that needs no gateway, but what that tells: who has one pays for the layout of all that it holds.
ghost use Rattle.std.specs.Prelude.{◌≡◌, ◌<◌, ◌⊎◌, ◌&&◌, ℕ, Bool, Option, Result};
ghost use Rattle.mg_bytes.specs.Lists.{is_empty};
ghost use Rattle.live_io.specs.Speaking.{admitted_by};
ghost use Rattle.live_io.specs.Typing.{left_of};
ghost use Rattle.live_io.specs.declared.surroundings.Fault.{Fault};
ghost use Rattle.live_io.specs.declared.surroundings.Told.{Told};
ghost use Rattle.turns.specs.Clock.{earlier, has_come};
ghost use Rattle.live_gateway.specs.Exchanging.{Explains, Notes, next_due, moment_at, faults_by};
ghost use Rattle.live_gateway.specs.Leaving.{OnlyShows, IsAsked, TakesIf};
ghost use Rattle.live_gateway.specs.Turning.{ready_at};
ghost use Rattle.live_gateway.specs.Visiting.{AreReady, ClosesAt};
ghost use Rattle.live_play.specs.Readable.{first_unread};

use crate::exchange::Exchange;
use crate::visitors::{Visitors, are_ready, next_deadline};
use gateway_core::{SentMessage, TextOutcome};
use live_io::{Lines, Speakers, Surroundings};
use log_format::Note;
use small_rules::count;
use std::alloc::Global;
use std::net::SocketAddrV4;
use telephone_control::take_act;
use turns::{Ready, Situation, earlier};

// Whether something falls due by this moment.
fn has_come(due: Option<u64>, moment: u64) -> bool
    ensures { result ≡ has_come due moment }
{
    matches!(due, Some(due) if due <= moment)
}

/// How things stand, where ticks have come to this moment, in ms, when something falls due at the gateway, when nothing comes any more,
/// and whether a line is left.
pub(crate) fn situation<S: Surroundings + Drop, V: Visitors<S>>(
    exchange: &mut Exchange<S>,
    visitors: &Option<Box<V>>,
    ticked: u64,
    due: Option<u64>,
    end: Option<u64>,
    is_line_left: bool,
) -> Situation
    ensures rest { exchange.new ≡ record exchange.old { faults = exchange.new.faults } }
    ensures end { result.end ≡ end }
    ensures ticked { result.ticked ≡ ticked }
    ensures short { (result.moment < first_unread) ⊎ (result.moment ≡ ticked) }
    ensures due { (deadline : Option ℕ) × ClosesAt V.visits.closes visitors.now deadline
        × (result.due ≡ earlier (earlier due (next_due exchange.old.network)) deadline) }
    ensures read { result.read ≡ exchange.old.read }
    ensures clock { (clock : Result ℕ Fault) × S.around.passes exchange.old.around clock × (result.moment ≡ moment_at clock ticked)
        × (exchange.new.faults ≡ faults_by clock exchange.old.faults) }
    ensures ready { (told : Told) × (is_visited : Bool) × S.around.tells exchange.old.around told
        × AreReady V.visits.waits visitors.now exchange.old.around result.moment is_visited
        × (result.ready ≡ ready_at told is_line_left (next_due exchange.old.network) ticked is_visited) }
{
    let moment = exchange.moment(ticked);
    let network = exchange.network_due();
    let due = earlier(due, network);
    let told = exchange.around.told();
    Situation {
        moment,
        ticked,
        due: earlier(due, next_deadline(visitors)),
        end,
        read: exchange.read,
        ready: Ready {
            commands: told.lines || is_line_left,
            datagrams: told.datagrams || has_come(network, ticked),
            visitors: are_ready(visitors, &exchange.around, moment),
        },
    }
}

/// The gateway took an input, or refused it. Of commands that it sent to who may not speak it is noted that no answer is heard.
pub(crate) fn note_taken<S: Surroundings + Drop>(
    exchange: &mut Exchange<S>,
    is_taken: bool,
    sent: &[SentMessage],
    speakers: &Speakers,
)
    ensures { Notes is_taken (admitted_by speakers.now) sent.now exchange.old exchange.new }
{
    if is_taken {
        let now = exchange.now;
        let log = &mut exchange.journal.log;
        log.unheard(now, sent, speakers);
    } else {
        count(&mut exchange.faults.refused);
    }
}

/// Why commands of the datagram that came last were refused is told, where the gateway took it; else that it didn't.
pub(crate) fn note_datagram<S: Surroundings + Drop>(
    exchange: &mut Exchange<S>,
    is_taken: bool,
    outcomes: &[TextOutcome],
    source: SocketAddrV4,
    bytes: &[u8],
)
    ensures { Explains is_taken outcomes.now source bytes.now exchange.old exchange.new }
{
    let now = exchange.now;
    let journal = &mut exchange.journal;
    if is_taken {
        journal.log.explain(outcomes);
    } else {
        journal.untaken(now, source, bytes, Note::OutOfMemory);
    }
}

// Whether the page is asked for its next act: where it is its turn, or nobody may have typed.
fn is_page_asked<S: Surroundings + Drop>(around: &S, is_its_turn: bool) -> bool
    ensures { IsAsked S.around.tells around.now is_its_turn result }
{
    if is_its_turn {
        return true;
    }
    !around.told().lines
}

/// What the page asks for is the next line, where none is left and it is its turn, or nobody typed: whether the line that is left is the
/// page's, as one that was left may be.
pub(crate) fn take_from_page<S: Surroundings + Drop>(
    alloc: Global,
    exchange: &mut Exchange<S>,
    lines: &mut Lines,
    is_its_turn: bool,
    is_of_page: bool,
) -> bool
    ensures shown { OnlyShows exchange.old exchange.new }
    ensures took { (asked : Bool) × IsAsked S.around.tells exchange.old.around is_its_turn asked
        × TakesIf (asked && is_empty (left_of lines.old)) exchange.old.journal lines.old is_of_page exchange.new.journal lines.new result }
{
    if !is_page_asked(&exchange.around, is_its_turn) {
        return is_of_page;
    }
    if !lines.is_empty() {
        return is_of_page;
    }
    take_act(alloc, &mut exchange.journal, lines)
}
