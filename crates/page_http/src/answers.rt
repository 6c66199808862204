//! What the page is answered by a board, as JSON, and what becomes of what it asks to be done.
ghost use Rattle.std.specs.Prelude.{◌≡◌, ◌≤◌, length, IfOk, OnErr, string_bytes};
ghost use Rattle.page_http.specs.Outcomes.{Becomes};
ghost use Rattle.page_http.specs.Telling.{events_text as text_of_events};
ghost use Rattle.page_http.specs.Texts.{TellsState};
ghost use Rattle.page_state.specs.declared.board.TheConstants.{MOST_ACTS};

use crate::acting::read_act;
use crate::state::state_text;
use crate::telling::events_text;
use page_state::Board;
use std::alloc::{AllocError, Global};

/// What becomes of what a body asks for.
#[derive(Clone, Copy)]
pub enum ActOutcome {
    /// The act waits until it is taken.
    Queued,
    /// As many wait as may.
    NoRoom,
    /// The body asks for no act.
    Unreadable,
}

/// What the gateway is, as JSON.
pub fn state_of(alloc: Global, board: &Board) -> Result<String, AllocError>
    ensures { IfOk result (λ text. TellsState board.now.picture board.now.version (string_bytes text)) }
{
    state_text(alloc, board.picture(), board.version())
}

/// What happened after this number, as JSON.
pub fn events_of(alloc: Global, board: &Board, after: u64) -> Result<String, AllocError>
    ensures { IfOk result (λ text. string_bytes text
        ≡ text_of_events board.now.ring after board.now.version board.now.picture.clock) }
{
    let clock = board.picture().clock;
    events_text(alloc, board.ring(), after, board.version(), clock)
}

/// Takes what a body asks for: it waits behind the others, where fewer wait than may. After an error, which is for want of memory,
/// the board is as it was.
pub fn act_on(alloc: Global, board: &mut Board, body: &[u8]) -> Result<ActOutcome, AllocError>
    ensures outcome { IfOk result (λ outcome. Becomes board.old body.now outcome board.new) }
    ensures few { length board.new.acts ≤ MOST_ACTS }
    ensures err { OnErr result (board.new ≡ board.old) }
{
    // Where the board stays as it is no more wait either.
    board.few_wait();
    let Some(queued) = read_act(alloc, body)? else {
        return Ok(ActOutcome::Unreadable);
    };
    if board.queue(queued)? {
        Ok(ActOutcome::Queued)
    } else {
        Ok(ActOutcome::NoRoom)
    }
}
