//! What a command does and answers: it asks for a report, or for a deed.
ghost use Rattle.std.specs.Prelude.{◌≡◌, true, IfOk};
ghost use Rattle.std.specs.List.{list_all};
ghost use Rattle.mgcp_text.specs.Writing.{is_writable_param};
ghost use Rattle.command_forms.specs.Order.{form_while_in, judged_while_in};
ghost use Rattle.command_forms.specs.Explaining.{fault_by};
ghost use Rattle.plain_machine.specs.Requesting.{deed_done, line_with_place, done_there, done_for};
ghost use Rattle.plain_machine.specs.Machine.{serves};
ghost use Rattle.plain_machine.specs.Commanding.{done_by};
ghost use Rattle.endpoints.specs.Telling.{MayTell};
ghost use Rattle.endpoints.specs.Tells.{Tells};

use command_forms::{Asks, Deed, FaultyPart, Stop, Target, judged_while};
use endpoints::{
    Context, Store, answer_to_audit, answer_with, deed_on_all, line_with_place, name_alone,
    refused_by,
};
use mg_bytes::{OutOfMemory, ReturnCode};
use mgcp_text::{AnswerContent, KValue, Message, Params, TransactionId};
use plain_machine::OutMessage;
use std::alloc::AllocError;

// A deed on the lines that it is for: on all of them, or on none. Its answer has these further parameters.
fn deed_done(
    context: Context<'_>,
    store: &mut Store,
    moment: u64,
    lines: Target,
    more: Params<'static>,
    deed: &Deed,
    sent: &mut Vec<OutMessage>,
) -> Result<AnswerContent, OutOfMemory>
    requires may { MayTell context.setup.now moment }
    requires writable { list_all is_writable_param more ≡ true }
    ensures answer { IfOk result (λ answer. answer ≡ (deed_done context.entry.setup.now store.old.endpoints lines
        more.entry deed.now moment).answer) }
    ensures told { Tells result (deed_done context.entry.setup.now store.old.endpoints lines more.entry deed.now moment).told
        store.old store.new sent.old.items sent.new.items }
{
    if let Some(code) = refused_by(store, lines, deed) {
        return Ok(AnswerContent::plain(context.alloc, code));
    }
    let news = deed_on_all(context, store, moment, lines, deed, sent)?;
    answer_with(context, more, deed, &news)
}

// A deed on any one line: the least that has a place for one more connection. The answer names it.
fn done_there(
    context: Context<'_>,
    store: &mut Store,
    moment: u64,
    deed: &Deed,
    sent: &mut Vec<OutMessage>,
) -> Result<AnswerContent, OutOfMemory>
    requires { MayTell context.setup.now moment }
    ensures answer { IfOk result (λ answer. answer ≡ (done_there (line_with_place store.old.endpoints)
        context.entry.setup.now store.old.endpoints deed.now moment).answer) }
    ensures told { Tells result (done_there (line_with_place store.old.endpoints) context.entry.setup.now
        store.old.endpoints deed.now moment).told store.old store.new sent.old.items sent.new.items }
{
    let Some(line) = line_with_place(store) else {
        return Ok(AnswerContent::plain(context.alloc, ReturnCode::NoEndpointAvailable.number()));
    };
    let more = name_alone(context, line)?;
    deed_done(context, store, moment, Target::One(line), more, deed, sent)
}

// A deed for such lines.
fn done_for(
    context: Context<'_>,
    store: &mut Store,
    moment: u64,
    target: Target,
    deed: &Deed,
    sent: &mut Vec<OutMessage>,
) -> Result<AnswerContent, OutOfMemory>
    requires { MayTell context.setup.now moment }
    ensures answer { IfOk result (λ answer. answer ≡ (done_for context.entry.setup.now store.old.endpoints target
        deed.now moment).answer) }
    ensures told { Tells result (done_for context.entry.setup.now store.old.endpoints target deed.now moment).told
        store.old store.new sent.old.items sent.new.items }
{
    let none = Params::new(context.alloc);
    match target {
        Target::One(_) => deed_done(context, store, moment, target, none, deed, sent),
        Target::All => deed_done(context, store, moment, target, none, deed, sent),
        Target::Any => done_there(context, store, moment, deed, sent),
    }
}

/// What a command comes to: its answer, and what of it is at fault, where it is refused for its form.
#[derive(Drop)]
pub(crate) struct Answered {
    pub answer: AnswerContent,
    pub fault: Option<FaultyPart>,
}

/// What a command comes to whose K was read, and behind what there is what lines send because of it.
#[tactic(auto, using(command_forms::proofs::RefusedLemmas::form_is))]
pub(crate) fn commanded(
    context: Context<'_>,
    store: &mut Store,
    moment: u64,
    id: TransactionId,
    said: &Message<'_>,
    confirms: &KValue,
    sent: &mut Vec<OutMessage>,
) -> Result<Answered, OutOfMemory>
    requires { MayTell context.setup.now moment }
    ensures answer { IfOk result (λ answered. answered.answer ≡ (done_by
        (form_while_in (serves store.old.endpoints) said.now confirms.now context.entry.setup.now.names)
        context.entry.setup.now store.old.endpoints moment id).answer) }
    ensures fault { IfOk result (λ answered. answered.fault
        ≡ fault_by (judged_while_in (serves store.old.endpoints) said.now confirms.now context.entry.setup.now.names)) }
    ensures told { Tells result (done_by (form_while_in (serves store.old.endpoints) said.now confirms.now context.entry.setup.now.names)
        context.entry.setup.now store.old.endpoints moment id).told store.old store.new sent.old.items sent.new.items }
{
    match judged_while(
        context.alloc,
        store.serves(),
        said,
        confirms,
        &context.setup.names,
    ) {
        Err(Stop::OutOfMemory) => Err(AllocError),
        Err(Stop::AtFault(refused)) => Ok(Answered {
            answer: AnswerContent::plain(context.alloc, refused.code),
            fault: Some(refused.at),
        }),
        Ok(Asks::Reports(target, audit)) => Ok(Answered {
            answer: answer_to_audit(context, store, id, target, &audit)?,
            fault: None,
        }),
        Ok(Asks::Does(target, boxed)) => Ok(Answered {
            answer: done_for(context, store, moment, target, boxed.deed(), sent)?,
            fault: None,
        }),
    }
}
