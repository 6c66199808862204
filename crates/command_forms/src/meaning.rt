//! What the verb and the name of a command mean.
ghost use Rattle.std.specs.Prelude.{◌≡◌};
ghost use Rattle.mg_bytes.specs.CodeFault.{AnswersAs, answer_of};
ghost use Rattle.endpoint_names.specs.Name.{name_of};
ghost use Rattle.command_forms.specs.Refusing.{StopsAs, stop_of};
ghost use Rattle.command_forms.specs.Meaning.{named, takes_all, takes_any, audit_target_of, target_of, task_of, meant_in};

use crate::forms::{AuditTarget, Target};
use crate::params::{has_code, value_at};
use crate::refused::{FaultyPart, Stop, placed};
use crate::verbs::{Meant, Purpose, Task, Wildcard, row_of};
use endpoint_names::{NameFault, Names, Pattern, read_name};
use mg_bytes::{CodeFault, ReturnCode};
use mgcp_text::{Message, Param};

// The endpoints of a name.
fn named(name: &[u8], names: &Names) -> Result<Pattern, CodeFault>
    ensures value { result ≡ answer_of (named (name_of name.now names.now.domain names.now.lines)) }
    ensures answers { AnswersAs (named (name_of name.now names.now.domain names.now.lines)) result }
{
    match read_name(name, names.domain.as_bytes(), names.lines) {
        Ok(pattern) => Ok(pattern),
        Err(NameFault::Unknown) => Err(CodeFault::of(ReturnCode::UnknownEndpoint)),
        Err(NameFault::TooComplicated) => Err(CodeFault::of(ReturnCode::WildcardTooComplicated)),
    }
}

fn takes_all(wildcard: Wildcard, params: &[Param<'_>]) -> bool
    ensures { result ≡ takes_all wildcard params.now }
{
    match wildcard {
        Wildcard::All => true,
        Wildcard::AllWithoutItems => value_at(b"F", params).is_empty(),
        Wildcard::AllWithoutCall => !(has_code(b'C', params) || has_code(b'I', params)),
        Wildcard::Never | Wildcard::Any => false,
    }
}

fn takes_any(wildcard: Wildcard) -> bool
    ensures { result ≡ takes_any wildcard }
{
    match wildcard {
        Wildcard::Any => true,
        Wildcard::Never | Wildcard::All | Wildcard::AllWithoutItems | Wildcard::AllWithoutCall =>
            false,
    }
}

// The lines that an audit with these parameters is for.
fn audit_target_of(
    wildcard: Wildcard,
    params: &[Param<'_>],
    pattern: Pattern,
) -> Result<AuditTarget, CodeFault>
    ensures value { result ≡ answer_of (audit_target_of wildcard params.now pattern) }
    ensures answers { AnswersAs (audit_target_of wildcard params.now pattern) result }
{
    match pattern {
        Pattern::One(line) => Ok(AuditTarget::One(line)),
        Pattern::All => {
            if !takes_all(wildcard, params) {
                return Err(CodeFault::of(ReturnCode::WildcardTooComplicated));
            }
            Ok(AuditTarget::All)
        }
        Pattern::Any => Err(CodeFault::of(ReturnCode::WildcardTooComplicated)),
    }
}

// The lines that any other command with these parameters is for.
fn target_of(
    wildcard: Wildcard,
    params: &[Param<'_>],
    pattern: Pattern,
) -> Result<Target, CodeFault>
    ensures value { result ≡ answer_of (target_of wildcard params.now pattern) }
    ensures answers { AnswersAs (target_of wildcard params.now pattern) result }
{
    match pattern {
        Pattern::One(line) => Ok(Target::One(line)),
        Pattern::All => {
            if !takes_all(wildcard, params) {
                return Err(CodeFault::of(ReturnCode::WildcardTooComplicated));
            }
            Ok(Target::All)
        }
        Pattern::Any => {
            if !takes_any(wildcard) {
                return Err(CodeFault::of(ReturnCode::WildcardTooComplicated));
            }
            Ok(Target::Any)
        }
    }
}

// What a command of this purpose with these parameters is to do, and on which lines.
fn task_of(
    purpose: Purpose,
    wildcard: Wildcard,
    params: &[Param<'_>],
    pattern: Pattern,
) -> Result<Task, CodeFault>
    ensures value { result ≡ answer_of (task_of purpose wildcard params.now pattern) }
    ensures answers { AnswersAs (task_of purpose wildcard params.now pattern) result }
{
    match purpose {
        Purpose::ForReport(reporting) => {
            let target = audit_target_of(wildcard, params, pattern)?;
            Ok(Task::ReportOf(reporting, target))
        }
        Purpose::ForDeed(connecting) => {
            let target = target_of(wildcard, params, pattern)?;
            Ok(Task::DeedOn(connecting, target))
        }
    }
}

/// What the verb and the name of a command mean: a verb that is served, and what is to be done on the lines that the
/// command is for (RFC 3435, 2.3 and 3.2.1).
///
/// Else what is at fault: 504 and the verb where it isn't served, and of a message that is no command; 500 and the name
/// where no endpoint has it; 503 and the name where its wildcard isn't taken. It takes no memory.
#[tactic(auto, unfolding(crate::specs::Meaning::meant))]
pub fn meant(message: &Message<'_>, names: &Names) -> Result<Meant, Stop>
    ensures value { result ≡ stop_of (meant_in message.now names.now) }
    ensures answers { StopsAs (meant_in message.now names.now) result }
{
    let Message::Command {
        verb,
        name,
        params,
        ..
    } = message
    else {
        return Err(Stop::of(FaultyPart::Verb, ReturnCode::UnsupportedCommand));
    };
    let Some(row) = row_of(*verb) else {
        return Err(Stop::of(FaultyPart::Verb, ReturnCode::UnsupportedCommand));
    };
    let pattern = placed(FaultyPart::Name, named(name.as_slice(), names))?;
    let task = placed(
        FaultyPart::Name,
        task_of(row.purpose, row.wildcard, params.as_slice(), pattern),
    )?;
    Ok(Meant { row, task })
}
