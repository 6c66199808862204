//! What lines for the telephones are answered.
ghost use Rattle.std.specs.Prelude.{◌≡◌, ◌≢◌, List, codes, IfOk, IfErr, Err};
ghost use Rattle.plain_machine.specs.Event.{GatewayEvent};
ghost use Rattle.gateway_core.specs.Stands.{Stands};
ghost use Rattle.live_io.specs.Hearing.{AnswersTo};
ghost use Rattle.live_io.specs.Requests.{requests_from};
ghost use Rattle.live_io.specs.Typing.{left_of, behind};
ghost use Rattle.telephone_control.specs.Asking.{short_text};
ghost use Rattle.telephone_control.specs.Paging.{TakesAct, ShowsPage};
ghost use Rattle.live_play.specs.Running.{lines_shown};
ghost use Rattle.telephone_control.specs.Watching.{full_text};

use crate::picture::picture_of;
use crate::telephones::TelephoneRequest;
use gateway_core::{Gateway, Refusal};
use line_changes::MOST_WATCHERS;
use live_io::{Lines, Surroundings};
use live_journal::Journal;
use live_play::put_shown;
use message_counts::Faults;
use mg_bytes::{Draft, OutOfMemory};
use output_queues::{DONE, NO_MEMORY, STOP_FROM_AFAR};
use std::alloc::Global;

/// The answer to a line that says nothing that can be done.
pub const UNKNOWN: &[u8] =
    b"? phone LINE off|on|flash|KEY, show LINE|all, watch SECONDS, counts, or stop\n";

/// The answer to whatever comes from another machine, where the telephones aren't open to that.
pub const PHONES_FROM_AFAR: &[u8] =
    b"! the telephones are for a loopback address alone, 127.0.0.0/8, but with --phones-open\n";

/// The answer to who wants to watch where as many watch as may.
pub(crate) fn full_answer(alloc: Global) -> Result<Vec<u8>, OutOfMemory>
    ensures { IfOk result (λ text. text.items ≡ full_text) }
{
    let mut text = Draft::new(alloc);
    text.put(b"! ");
    text.put_decimal(MOST_WATCHERS as u64);
    text.put(b" watch already\n");
    text.end()
}

/// What each line is, from the first.
pub fn all_shown(alloc: Global, gateway: &Gateway) -> Result<Vec<u8>, OutOfMemory>
    ensures { (events : List GatewayEvent) → Stands gateway.now events →
        IfOk result (λ text. text.items ≡ lines_shown gateway.now.setup events gateway.now.setup.names.lines) }
{
    let mut text = Vec::new(alloc);
    for before in 0..gateway.lines() {
        put_shown(alloc, gateway, before + 1, &mut text)?;
    }
    Ok(text)
}

/// What is answered to a request that is answered by a text alone.
pub fn short_answer(request: TelephoneRequest) -> &'static [u8]
    ensures { result.now ≡ short_text request }
{
    match request {
        TelephoneRequest::StopFromAfar => STOP_FROM_AFAR,
        TelephoneRequest::OutOfMemory => NO_MEMORY,
        _ => UNKNOWN,
    }
}

/// What was put is answered, or that memory was refused for it.
pub fn answer_put<S: Surroundings>(
    lines: &mut Lines,
    around: &mut S,
    answer: Result<Vec<u8>, OutOfMemory>,
)
    ensures answered { IfOk answer (λ text. AnswersTo S.around.answers lines.old.sender around.old text.items around.new) }
    ensures refused { IfErr answer (λ _. AnswersTo S.around.answers lines.old.sender around.old (codes "! 1 OutOfMemory\n") around.new) }
    ensures left { left_of lines.new ≡ requests_from (behind (left_of lines.old)) }
    ensures sender { lines.new.sender ≡ lines.old.sender }
    ensures traffic { S.around.traffic around.new ≡ S.around.traffic around.old }
{
    match answer {
        Ok(answer) => lines.answer(around, answer.as_slice()),
        Err(_) => lines.answer(around, NO_MEMORY),
    }
}

/// What is answered to an act: what was printed, where it was refused and not for want of memory.
pub fn act_answer(done: Result<(), Refusal>, printed: &[u8]) -> &[u8]
    ensures done { IfOk done (λ _. result.now ≡ codes "done\n") }
    ensures memory { done ≡ Err Refusal.OutOfMemory → result.now ≡ codes "! 1 OutOfMemory\n" }
    ensures refused { IfErr done (λ refusal. refusal ≢ Refusal.OutOfMemory → result.now ≡ printed.now) }
{
    match done {
        Ok(()) => DONE,
        Err(Refusal::OutOfMemory) => NO_MEMORY,
        Err(_) => printed,
    }
}

/// What is answered to a question: what was printed, unless memory was refused.
pub fn question_answer(asked: Result<(), OutOfMemory>, printed: &[u8]) -> &[u8]
    ensures asked { IfOk asked (λ _. result.now ≡ printed.now) }
    ensures memory { IfErr asked (λ _. result.now ≡ codes "! 1 OutOfMemory\n") }
{
    match asked {
        Ok(()) => printed,
        Err(_) => NO_MEMORY,
    }
}

/// What the page asks for next becomes a line of nobody's: whether it asks for something, and memory isn't refused for the line.
pub fn take_act(alloc: Global, journal: &mut Journal, lines: &mut Lines) -> bool
    ensures { TakesAct journal.old lines.old result journal.new lines.new }
{
    let Some(board) = &mut journal.board else {
        return false;
    };
    let Some(act) = board.next_act() else {
        return false;
    };
    let mut line = Vec::new(alloc);
    if act.put_line(alloc, &mut line).is_err() {
        return false;
    }
    lines.take(line.as_slice());
    true
}

/// The page is shown the gateway as it is now, where its clock is so far behind the machine's, in ms. Where memory is refused it is shown
/// what it was.
pub fn show(alloc: Global, gateway: &Gateway, journal: &mut Journal, faults: Faults, behind: u64)
    ensures { ShowsPage gateway.now faults behind journal.old journal.new }
{
    if journal.board.is_none() {
        return;
    }
    let Ok(picture) = picture_of(alloc, gateway, journal, faults, behind) else {
        return;
    };
    if let Some(board) = &mut journal.board {
        board.show(picture);
    }
}
