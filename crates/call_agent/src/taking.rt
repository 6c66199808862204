//! How an agent takes the commands of a gateway (RFC 3435, 2.3.4, 2.3.12 and 3.5.1).
ghost use Rattle.std.specs.Prelude.{◌≡◌, ◌≤◌, [], fold, IfOk, OnOk, OnErr};
ghost use Rattle.std.specs.List.{cons_option};
ghost use Rattle.mgcp_text.specs.Message.{params_in};
ghost use Rattle.mgcp_text.specs.Confirmation.{k_of};
ghost use Rattle.endpoint_names.specs.Name.{name_of};
ghost use Rattle.transmission.specs.Confirming.{spans_of};
ghost use Rattle.plain_machine.specs.Answering.{line_meant};
ghost use Rattle.call_agent.specs.Notified.{observed_with};
ghost use Rattle.call_agent.specs.Taking.{code_for, taken_on, taken_of, with_taken, executed};
ghost use Rattle.call_agent.specs.State.{kept_in, Does};

use crate::state::{Context, State};
use crate::told::TakenEvents;
use endpoint_names::{Pattern, read_name};
use mg_bytes::{CodeFault, OutOfMemory, ReturnCode, Sequence};
use mgcp_text::{AnswerContent, Message, Param, Verb, param_at, read_k};
use packages::{Observed, read_observed};
use plain_machine::OutDatagram;
use std::alloc::{AllocError, Global};
use transmission::{IdSpan, Origin, answer, spans_of};

/// What a notification of a line tells.
#[derive(Drop)]
pub struct Taken {
    pub line: u16,
    pub observed: Sequence<Observed>,
}

// The return code that answers a command of the gateway's: notifications and announcements are taken, and no other command is
// for an agent.
fn code_for(verb: Verb) -> u16
    ensures value { result ≡ code_for verb }
    ensures three_digits { result ≤ 999 }
{
    match verb {
        Verb::Ntfy | Verb::Rsip => ReturnCode::Executed.number(),
        Verb::Epcf
        | Verb::Rqnt
        | Verb::Crcx
        | Verb::Mdcx
        | Verb::Dlcx
        | Verb::Auep
        | Verb::Aucx
        | Verb::Other => ReturnCode::UnsupportedCommand.number(),
    }
}

// What the first O tells; nothing where there is none, or one that can't be read.
fn observed_with(alloc: Global, params: &[Param<'_>]) -> Result<Sequence<Observed>, OutOfMemory>
    ensures { IfOk result (λ observed. observed ≡ observed_with params.now) }
{
    let Some(param) = param_at(b"O", params) else {
        return Ok(Sequence::new(alloc));
    };
    match read_observed(alloc, param.value.as_slice()) {
        Ok(observed) => Ok(observed),
        Err(CodeFault::Code(_)) => Ok(Sequence::new(alloc)),
        Err(CodeFault::OutOfMemory) => Err(AllocError),
    }
}

// What a command tells of a line: a notification of one line does.
fn taken_of(
    context: Context<'_>,
    verb: Verb,
    name: &[u8],
    params: &[Param<'_>],
) -> Result<Option<Taken>, OutOfMemory>
    ensures { IfOk result (λ taken. cons_option taken [] ≡ taken_of context.entry.setup.now verb name.now params.now) }
{
    match verb {
        Verb::Ntfy => taken_on(context, name, params),
        Verb::Epcf
        | Verb::Rqnt
        | Verb::Crcx
        | Verb::Mdcx
        | Verb::Dlcx
        | Verb::Auep
        | Verb::Aucx
        | Verb::Rsip
        | Verb::Other => Ok(None),
    }
}

// What a notification tells of its line; that of no line is taken for none.
fn taken_on(
    context: Context<'_>,
    name: &[u8],
    params: &[Param<'_>],
) -> Result<Option<Taken>, OutOfMemory>
    ensures { IfOk result (λ taken. cons_option taken []
        ≡ taken_on (line_meant (name_of name.now context.entry.setup.now.domain context.entry.setup.now.lines)) params.now) }
{
    match read_name(name, context.setup.domain.as_bytes(), context.setup.lines) {
        Ok(Pattern::One(line)) => {
            let observed = observed_with(context.alloc, params)?;
            Ok(Some(Taken { line, observed }))
        }
        Ok(Pattern::All | Pattern::Any) | Err(_) => Ok(None),
    }
}

// This is told, if there is anything.
fn tell(told: &mut TakenEvents, taken: Option<Taken>) -> Result<(), OutOfMemory>
    ensures ok { OnOk result (told.new ≡ record told.old { is = fold with_taken told.old.is (cons_option taken []) }) }
    ensures err { OnErr result (told.new ≡ told.old) }
{
    let Some(Taken { line, observed }) = taken else {
        return Ok(());
    };
    told.tell(line, observed)
}

// What a command tells is told.
fn take_told(
    context: Context<'_>,
    told: &mut TakenEvents,
    verb: Verb,
    name: &[u8],
    params: &[Param<'_>],
) -> Result<(), OutOfMemory>
    ensures ok { OnOk result (told.new ≡ record told.old {
      is = fold with_taken told.old.is
          (taken_of context.entry.setup.now verb name.now params.now);
    }) }
    ensures err { OnErr result (told.new ≡ told.old) }
{
    let taken = taken_of(context, verb, name, params)?;
    tell(told, taken)
}

// The transactions that a command confirms.
fn confirmed_by(alloc: Global, said: &Message<'_>) -> Result<Sequence<IdSpan>, OutOfMemory>
    ensures { IfOk result (λ spans. spans ≡ spans_of (k_of (params_in said.now))) }
{
    let confirms = read_k(alloc, said)?;
    spans_of(alloc, &confirms)
}

/// A new command is taken and answered: what it tells is taken, what it confirms and its answer are kept, and its answer goes to
/// where it came from.
pub(crate) fn execute(
    context: Context<'_>,
    state: &mut State,
    origin: Origin,
    verb: Verb,
    name: &[u8],
    said: &Message<'_>,
    out: &mut Vec<OutDatagram>,
) -> Result<(), OutOfMemory>
    ensures { Does result (executed (kept_in state.old) origin.source (record {
      id = origin.id;
      confirms = spans_of (k_of (params_in said.now));
      code = code_for verb;
      taken = taken_of context.entry.setup.now verb name.now (params_in said.now);
    })) state.old state.new out.old.items out.new.items }
{
    let confirms = confirmed_by(context.alloc, said)?;
    take_told(context, &mut state.told, verb, name, said.params())?;
    let given = AnswerContent::plain(context.alloc, code_for(verb));
    answer(
        context.alloc,
        &mut state.history,
        origin,
        state.clock,
        confirms,
        &given,
        out,
    )
}
