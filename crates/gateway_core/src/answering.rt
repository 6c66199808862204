//! What is done at a text that came in a datagram, and what the text was.
ghost use Rattle.std.specs.Prelude.{◌≡◌, ◌<◌, ◌∷◌, ◌++◌, ℕ, List, nat_lt, [], length, Some, None, IfOk, IfSome, OnOk};
ghost use Rattle.mgcp_text.specs.Reading.{outcome_of, read_text};
ghost use Rattle.mgcp_text.specs.Message.{params_in};
ghost use Rattle.mgcp_text.specs.Confirmation.{k_of};
ghost use Rattle.transmission.specs.Texts.{largest_datagram, most_texts, texts_of};
ghost use Rattle.std.specs.Result.{result_err, result_ok};
ghost use Rattle.plain_machine.specs.Refusing.{ends};
ghost use Rattle.command_forms.specs.Order.{form_while_in, judged_while_in};
ghost use Rattle.command_forms.specs.Explaining.{fault_by};
ghost use Rattle.plain_machine.specs.Machine.{serves};
ghost use Rattle.plain_machine.specs.Commanding.{done_by};
ghost use Rattle.endpoints.specs.Telling.{MayTell};
ghost use Rattle.transmission.specs.Confirming.{spans_of};
ghost use Rattle.plain_machine.specs.Answering.{transaction, executed, handled, took_all};
ghost use Rattle.gateway_core.specs.declared.outcome.Reply.TheVariants.{First};
ghost use Rattle.gateway_core.specs.State.{machine_in, found_in, Does, Happens};
ghost use Rattle.gateway_core.specs.Hearing.{left_done, left_outcome};
ghost use Rattle.gateway_core.specs.Outcomes.{text_outcome, text_outcomes};

use crate::commanding::commanded;
use crate::labelling::{first_label, line_of_name, send_heard};
use crate::outcome::{Reply, TextOutcome};
use crate::outcomes::Outcomes;
use crate::sending::send_all;
use crate::state::State;
use crate::telling::passed_over;
use endpoints::{Context, respond, send};
use mg_bytes::OutOfMemory;
use mgcp_text::{KValue, Message, TextFault, read_k, read_message};
use plain_machine::{OutMessage, Refusal};
use std::net::SocketAddrV4;
use transmission::{Origin, hear, keep_answer, spans_of, texts};

// A new command whose K was read, and whose name reads as this line or as none, is executed: its answer goes out before what lines
// send because of it. What it got. K is lent by `execute`, which owns it: four calls here can fail, and a value that is owned is let go
// at each.
fn execute_with_k(
    context: Context<'_>,
    state: &mut State,
    origin: Origin,
    line: Option<u16>,
    said: &Message<'_>,
    confirms: &KValue,
    out: &mut Vec<OutMessage>,
) -> Result<Reply, OutOfMemory>
    requires { MayTell context.setup.now state.old.clock }
    ensures does { Does result (executed (machine_in state.old) origin.source
        (transaction origin.id line (spans_of confirms.now)
        (done_by (form_while_in (serves state.old.store.endpoints) said.now confirms.now
        context.entry.setup.now.names) context.entry.setup.now
        state.old.store.endpoints state.old.clock origin.id))) state.old state.new out.old.items out.new.items }
    ensures reply { IfOk result (λ reply. reply
        ≡ First (done_by (form_while_in (serves state.old.store.endpoints) said.now confirms.now
        context.entry.setup.now.names) context.entry.setup.now
        state.old.store.endpoints state.old.clock origin.id).answer.code
        (fault_by (judged_while_in (serves state.old.store.endpoints) said.now confirms.now context.entry.setup.now.names))) }
{
    let mut sent = Vec::new(context.alloc);
    let spans = spans_of(context.alloc, confirms)?;
    let given = commanded(
        context,
        &mut state.store,
        state.clock,
        origin.id,
        said,
        confirms,
        &mut sent,
    )?;
    let code = given.answer.code();
    let label = first_label(line, origin.id, code);
    let to = origin.source;
    let now = state.clock;
    let text = keep_answer(
        context.alloc,
        &mut state.history,
        origin,
        now,
        spans,
        &given.answer,
    )?;
    send(out, to, now, text, label)?;
    send_all(out, sent)?;
    Ok(Reply::First {
        code,
        fault: given.fault,
    })
}

// A new command whose name reads as this line, or as none, is executed, and its K is read once. What it got.
fn execute(
    context: Context<'_>,
    state: &mut State,
    origin: Origin,
    line: Option<u16>,
    said: &Message<'_>,
    out: &mut Vec<OutMessage>,
) -> Result<Reply, OutOfMemory>
    requires { MayTell context.setup.now state.old.clock }
    ensures does { Does result (executed (machine_in state.old) origin.source
        (transaction origin.id line (spans_of (k_of (params_in said.now)))
        (done_by (form_while_in (serves state.old.store.endpoints) said.now (k_of (params_in said.now))
        context.entry.setup.now.names) context.entry.setup.now
        state.old.store.endpoints state.old.clock origin.id))) state.old state.new out.old.items out.new.items }
    ensures reply { IfOk result (λ reply. reply
        ≡ First (done_by (form_while_in (serves state.old.store.endpoints) said.now (k_of (params_in said.now))
        context.entry.setup.now.names) context.entry.setup.now
        state.old.store.endpoints state.old.clock origin.id).answer.code
        (fault_by (judged_while_in (serves state.old.store.endpoints) said.now (k_of (params_in said.now))
        context.entry.setup.now.names))) }
{
    let confirms = read_k(context.alloc, said)?;
    execute_with_k(context, state, origin, line, said, &confirms, out)
}

// What is left to the gateway at a text that it heard (`left_done`), and what the text was: where nothing is left, what it was passed
// over as.
fn handle(
    context: Context<'_>,
    state: &mut State,
    source: SocketAddrV4,
    passed: TextOutcome,
    is_acknowledged: bool,
    read: &Result<Message<'_>, TextFault>,
    out: &mut Vec<OutMessage>,
) -> Result<TextOutcome, OutOfMemory>
    requires { MayTell context.setup.now state.old.clock }
    ensures does { Does result (left_done context.entry.setup.now (result_ok read.now) (machine_in state.old) source)
        state.old state.new out.old.items out.new.items }
    ensures outcome { IfOk result (λ outcome. outcome
        ≡ left_outcome context.entry.setup.now (result_ok read.now) (machine_in state.old) passed is_acknowledged) }
{
    let Ok(said) = read else {
        return Ok(passed);
    };
    match said {
        Message::Command { verb, id, name, .. } => {
            let line = line_of_name(context.setup, name.as_slice());
            let origin = Origin { source, id: *id };
            let reply = execute(context, state, origin, line, said, out)?;
            Ok(TextOutcome::Command {
                verb: Some(*verb),
                id: *id,
                reply,
            })
        }
        Message::Response { code, id, .. } => {
            respond(
                context,
                &mut state.store,
                state.clock,
                *id,
                *code,
                said,
                out,
            )?;
            Ok(TextOutcome::Response {
                id: *id,
                is_acknowledged,
            })
        }
    }
}

// A text, by what it was read as (`handled`): what it was.
fn take_read(
    context: Context<'_>,
    state: &mut State,
    source: SocketAddrV4,
    read: &Result<Message<'_>, TextFault>,
    out: &mut Vec<OutMessage>,
) -> Result<TextOutcome, OutOfMemory>
    requires { MayTell context.setup.now state.old.clock }
    ensures does { (text : List ℕ) → IfSome (outcome_of read.now) (λ outcome. outcome ≡ read_text text) →
        Does result (handled context.entry.setup.now (machine_in state.old) source (read_text text))
        state.old state.new out.old.items out.new.items }
    ensures outcome { (text : List ℕ) → IfSome (outcome_of read.now) (λ outcome. outcome ≡ read_text text) →
        IfOk result (λ outcome. outcome ≡ text_outcome context.entry.setup.now (machine_in state.old) (read_text text)) }
{
    let passed = passed_over(&state.history, state.clock, read);
    let mut heard = Vec::new(context.alloc);
    let left = hear(
        context.alloc,
        &mut state.history,
        source,
        state.clock,
        read,
        &mut heard,
    )?;
    // Of what is left only a response sent anything yet: where it asks for that, its acknowledgement.
    let is_acknowledged = heard.len() > 0;
    send_heard(context.setup, read, &passed, heard, out)?;
    if !left {
        return Ok(passed);
    }
    let outcome = handle(context, state, source, passed, is_acknowledged, read, out)?;
    Ok(outcome)
}

// A text: what it was. Nothing fails beside what it is read as: a check pays for a large value at each step.
fn take(
    context: Context<'_>,
    state: &mut State,
    source: SocketAddrV4,
    text: &[u8],
    out: &mut Vec<OutMessage>,
) -> Result<TextOutcome, OutOfMemory>
    requires { MayTell context.setup.now state.old.clock }
    ensures does { Does result (handled context.entry.setup.now (machine_in state.old) source (read_text text.now))
        state.old state.new out.old.items out.new.items }
    ensures outcome { IfOk result (λ outcome. outcome
        ≡ text_outcome context.entry.setup.now (machine_in state.old) (read_text text.now)) }
{
    let read = read_message(context.alloc, text);
    take_read(context, state, source, &read, out)
}

// The next text of a datagram, which is told of behind those before it. What fails is handed on here, and not in `take`,
// which owns a message; `take_datagram` has one call a round.
fn take_next(
    context: Context<'_>,
    state: &mut State,
    source: SocketAddrV4,
    text: &[u8],
    told: &mut Outcomes,
    out: &mut Vec<OutMessage>,
) -> Result<(), OutOfMemory>
    requires tells { MayTell context.setup.now state.old.clock }
    requires room { length told.old < most_texts }
    ensures does { Does result (handled context.entry.setup.now (machine_in state.old) source (read_text text.now))
        state.old state.new out.old.items out.new.items }
    ensures told { OnOk result (told.new
        ≡ told.old ++ text_outcome context.entry.setup.now (machine_in state.old) (read_text text.now) ∷ []) }
{
    let outcome = take(context, state, source, text, out)?;
    told.push(outcome);
    Ok(())
}

/// A datagram: what is sent. Its texts are taken in their order, each completely, and told of; nothing else is told yet. One that
/// is too long does nothing, and takes no memory.
pub fn take_datagram(
    context: Context<'_>,
    state: &mut State,
    source: SocketAddrV4,
    bytes: &[u8],
    told: &mut Outcomes,
) -> Result<Vec<OutMessage>, Refusal>
    requires tells { MayTell context.setup.now state.old.clock }
    requires untold { told.old ≡ [] }
    ensures happens { Happens result (took_all context.entry.setup.now (machine_in state.old) source (texts_of bytes.now))
        state.old state.new }
    ensures told { OnOk result (told.new
        ≡ text_outcomes context.entry.setup.now (machine_in state.old) source (texts_of bytes.now)) }
    ensures found { OnOk result (found_in state.new ≡ found_in state.old) }
    ensures ends { ends None (nat_lt largest_datagram (length bytes.now)) (result_err result) }
{
    let mut out = Vec::new(context.alloc);
    let Some(mut rest) = texts(bytes) else {
        return Ok(out);
    };
    while let Some(text) = rest.next() {
        take_next(context, state, source, text, told, &mut out)?;
    }
    Ok(out)
}
