//! What a message asks for, or what it is refused for.
ghost use Rattle.std.specs.Prelude.{◌≡◌, true, IfOk, IfErr};
ghost use Rattle.mg_bytes.specs.CodeFault.{AnswersAs, FailsForMemory};
ghost use Rattle.command_forms.specs.Refusing.{StopsAs, StopsForMemory, stop_of};
ghost use Rattle.command_forms.specs.Order.{audit_of, names_call, are_requested, absent_letter, counted, asked_for, asked};
ghost use Rattle.command_forms.specs.Order.{is_audit, judged_while_in, form_while_in, form_in};
ghost use Rattle.command_forms.specs.Order.{is_deed, takes_memory, takes_memory_in};
ghost use Rattle.command_forms.specs.Explaining.{explained_in};

use crate::deeds::deed_of;
use crate::forms::{Asks, Audit};
use crate::meaning::meant;
use crate::params::{has_code, has_none, missing_letter, params_fault, value_at};
use crate::refused::{FaultyPart, Refused, Stop, placed};
use crate::values::{identifier_from, is_readable};
use crate::verbs::{Connecting, Meant, Purpose, Reporting, Task, VerbRow};
use endpoint_names::{Names, Table};
use mg_bytes::{CodeFault, OutOfMemory, ReturnCode};
use mgcp_text::{Bytes, KValue, Message, Param};
use std::alloc::{AllocError, Global};

fn names_call(purpose: Purpose, params: &[Param<'_>]) -> bool
    ensures { result ≡ names_call purpose params.now }
{
    match purpose {
        Purpose::ForDeed(Connecting::Deletes) => has_code(b'C', params) || !has_code(b'I', params),
        Purpose::ForReport(_)
        | Purpose::ForDeed(Connecting::Keeps | Connecting::Creates | Connecting::Modifies) => true,
    }
}

fn are_requested(params: &[Param<'_>]) -> bool
    ensures { result ≡ are_requested params.now }
{
    has_code(b'X', params) || has_none(b"RSDTQ", params)
}

// The letter of the first parameter that is missing.
#[tactic(auto, unfolding(crate::specs::Order::absent_letter))]
fn absent_letter(row: &VerbRow, params: &[Param<'_>]) -> Option<u8>
    ensures { result ≡ absent_letter row.now params.now }
{
    if let Some(letter) = missing_letter(row.must.as_slice(), params) {
        return Some(letter);
    }
    if !names_call(row.purpose, params) {
        return Some(b'C');
    }
    if !are_requested(params) {
        return Some(b'X');
    }
    None
}

// The text behind the parameters, where it counts: as the description of a connection that is created or modified.
fn counted(connecting: Connecting, body: &[u8]) -> &[u8]
    ensures { result.now ≡ counted connecting body.now }
{
    match connecting {
        Connecting::Creates | Connecting::Modifies => body,
        Connecting::Keeps | Connecting::Deletes => b"",
    }
}

// What is to be reported by F and, of a connection, by I.
fn audit_of<'m>(reporting: Reporting, params: &'m [Param<'_>]) -> Result<Audit<'m>, Stop>
    ensures value { result ≡ stop_of (audit_of reporting params.now) }
    ensures answers { StopsAs (audit_of reporting params.now) result }
{
    let items = Bytes::of(value_at(b"F", params));
    let connection = match reporting {
        Reporting::Endpoint => None,
        Reporting::Connection => Some(placed(
            FaultyPart::Value(b'I'),
            identifier_from(value_at(b"I", params)),
        )?),
    };
    Ok(Audit { items, connection })
}

// What the values of these parameters and the text behind them ask for.
fn asked_for<'m>(
    alloc: Global,
    task: Task,
    params: &'m [Param<'_>],
    body: &[u8],
    table: &Table,
) -> Result<Asks<'m>, Stop>
    ensures answers { StopsAs (asked_for task params.now body.now table.now) result }
    ensures memory { StopsForMemory (is_deed task) result }
{
    match task {
        Task::ReportOf(reporting, target) => {
            Ok(Asks::Reports(target, audit_of(reporting, params)?))
        }
        Task::DeedOn(connecting, target) => Ok(Asks::Does(
            target,
            deed_of(alloc, connecting, params, counted(connecting, body), table)?,
        )),
    }
}

/// What a command asks for whose verb and name mean this and whose K says that, by its parameters and the text behind
/// them (RFC 3435, 2.3 and 3.2.2).
///
/// Else what is at fault first, in this order: the parameter lines from top to bottom, 511 for an extension that isn't
/// understood, 539 for a code that isn't the verb's, 510 for one that stood before; 510 for one that is missing, for C
/// where a deletion has I without it, and for X where R, S, D, T or Q stand there without it; 510 for a K that can't be
/// read; then the values of N (539), B (539), C (510), I (510), M (517), L (541, and else 535), X (510), Q (508), D
/// (510, and 502 for a map that is too large), R, T and S; and 509 for a description that can't be read, where the verb
/// takes one. Only the values of a deed and its description take memory, and without it the answer is `OutOfMemory`: an
/// audit, and what is at fault before these, has its answer without.
#[tactic(auto, unfolding(crate::specs::Order::asked))]
pub fn asked<'m>(
    alloc: Global,
    found: &Meant,
    params: &'m [Param<'_>],
    body: &[u8],
    confirms: &KValue,
    table: &Table,
) -> Result<Asks<'m>, Stop>
    ensures answers { StopsAs (asked found.now params.now body.now confirms.now table.now) result }
    ensures memory { StopsForMemory (takes_memory found.now params.now confirms.now) result }
{
    if let Some(refused) = params_fault(&found.row, params) {
        return Err(Stop::AtFault(refused));
    }
    if let Some(letter) = absent_letter(&found.row, params) {
        return Err(Stop::of(FaultyPart::Missing(letter), ReturnCode::ProtocolError));
    }
    if !is_readable(confirms) {
        return Err(Stop::of(FaultyPart::Value(b'K'), ReturnCode::ProtocolError));
    }
    asked_for(alloc, found.task, params, body, table)
}

fn is_audit(purpose: Purpose) -> bool
    ensures { result ≡ is_audit purpose }
{
    match purpose {
        Purpose::ForReport(_) => true,
        Purpose::ForDeed(_) => false,
    }
}

/// What a command asks for, whose K was read before, of a gateway that serves or doesn't yet, or its first fault: the return code
/// of `form_while`, and what of the command is at fault. Memory is wanted as by `form_while`.
#[tactic(auto, unfolding(crate::specs::Order::judged_while))]
pub fn judged_while<'m>(
    alloc: Global,
    serves: bool,
    message: &'m Message<'_>,
    confirms: &KValue,
    names: &Names,
) -> Result<Asks<'m>, Stop>
    ensures answers { StopsAs (judged_while_in serves message.now confirms.now names.now) result }
    ensures memory { StopsForMemory (takes_memory_in serves message.now confirms.now names.now) result }
{
    let found = meant(message, names)?;
    let Message::Command { params, body, .. } = message else {
        return Err(Stop::of(FaultyPart::Verb, ReturnCode::UnsupportedCommand));
    };
    if !(serves || is_audit(found.row.purpose)) {
        return Err(Stop::of(FaultyPart::Verb, ReturnCode::Restarting));
    }
    let (params, body) = (params.as_slice(), body.as_slice());
    asked(alloc, &found, params, body, confirms, &names.table)
}

/// What a command asks for, whose K was read before, of a gateway that serves or doesn't yet, or the return code of its
/// first fault: that of `meant`; else 405 where it is no audit and the gateway doesn't serve (RFC 3435, 2.4 and 4.4.6);
/// else that of `asked`.
///
/// Memory is wanted as by `asked`, and never where the gateway doesn't serve.
#[tactic(auto, using(crate::proofs::RefusedLemmas::form_is))]
pub fn form_while<'m>(
    alloc: Global,
    serves: bool,
    message: &'m Message<'_>,
    confirms: &KValue,
    names: &Names,
) -> Result<Asks<'m>, CodeFault>
    ensures answers { AnswersAs (form_while_in serves message.now confirms.now names.now) result }
    ensures memory { FailsForMemory (takes_memory_in serves message.now confirms.now names.now) result }
{
    Ok(judged_while(alloc, serves, message, confirms, names)?)
}

/// What a command asks for of a gateway that serves, whose K was read before, or the return code of its first fault:
/// that of `meant`, else that of `asked`. Memory is wanted as by `asked`.
pub fn form<'m>(
    alloc: Global,
    message: &'m Message<'_>,
    confirms: &KValue,
    names: &Names,
) -> Result<Asks<'m>, CodeFault>
    ensures answers { AnswersAs (form_in message.now confirms.now names.now) result }
    ensures memory { FailsForMemory (takes_memory_in true message.now confirms.now names.now) result }
{
    form_while(alloc, true, message, confirms, names)
}

/// Why `form` refuses a command whose K was read before, with what of it is at fault; `None` where it doesn't.
///
/// It reads the values once more, so it is for people who ask why, and its only error is want of memory.
pub fn explained(
    alloc: Global,
    message: &Message<'_>,
    confirms: &KValue,
    names: &Names,
) -> Result<Option<Refused>, OutOfMemory>
    ensures refused { IfOk result (λ refused. refused ≡ explained_in message.now confirms.now names.now) }
    ensures memory { IfErr result (λ _. takes_memory_in true message.now confirms.now names.now ≡ true) }
{
    match judged_while(alloc, true, message, confirms, names) {
        Ok(_) => Ok(None),
        Err(Stop::AtFault(refused)) => Ok(Some(refused)),
        Err(Stop::OutOfMemory) => Err(AllocError),
    }
}
