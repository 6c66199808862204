//! What an answer makes of a command (RFC 3435, 2.4).
ghost use Rattle.std.specs.Prelude.{◌≡◌};
ghost use Rattle.call_processing.specs.ReturnCodes.{is_transient};
ghost use Rattle.call_processing.specs.Fates.{is_success, may_pass, passes, says_gone, is_deleted, tells_hook, hook_told, times_of, refusal_fate, request_cause, is_wanted, request_fate, refused_in_call, creation_fate, change_fate, deletion_fate, code_fate, fate_of, put_off_by, put_off_then, refused_by, fails, is_of_connection};

use crate::asked::{Asked, is_asked, wanted_in};
use crate::command::{Command, Outcome};
use crate::phase::{Phase, is_in};
use packages::Hook;

/// So many commands to a line are put off in a row, whichever they are; the next one that is refused is so for good.
pub const MOST_PUT_OFF: u8 = 30;

/// Why a command was put off.
#[derive(Clone, Copy)]
pub enum Cause {
    /// A request: the telephone is off hook already, or on hook already, and the exchange has it otherwise.
    Hook,
    /// A request, for another cause.
    Request,
    /// A command for a connection.
    Connection,
}

/// A command was refused for a cause that may pass: it is to be sent again.
#[derive(Clone, Copy)]
pub struct PutOff {
    pub cause: Cause,
    /// How many commands to its line were put off, one behind another.
    pub times: u8,
}

/// What became of a command.
#[derive(Clone, Copy)]
pub enum Fate {
    /// It was executed; or what it was to delete is gone.
    Done,
    /// It was put off.
    Again(PutOff),
    /// It was refused for good, by this code.
    Refused(u16),
    /// Nobody knows: it was given up, or its answer doesn't say what it made. Or it was refused, and its line is to be sent something
    /// else by now.
    Open,
}

// A return code says that the command was executed.
pub(crate) fn is_success(code: u16) -> bool
    ensures { result ≡ is_success code }
{
    code >= 200 && code < 300
}

// Whether a return code is a transient error by its class.
fn is_transient(code: u16) -> bool
    ensures { result ≡ is_transient code }
{
    code >= 400 && code < 500
}

/// Whether the cause of a refusal may pass, by its return code (RFC 3435, 2.4): a transient error, an endpoint that isn't ready, or
/// one that restarts. The codes that tell a hook say nothing of that.
#[tactic(auto, using(crate::proofs::CodeLemmas::passes_so))]
pub fn may_pass(code: u16) -> bool
    ensures { result ≡ may_pass code }
{
    match code {
        // The phone is off hook already, or on hook already.
        401 | 402 => false,
        // The endpoint isn't ready, or it restarts.
        501 | 520 => true,
        // All others pass or last with their class, known or not.
        _ => is_transient(code),
    }
}

// Whether what a command was refused for may pass, by its cause and its code.
fn passes(cause: Cause, code: u16) -> bool
    ensures { result ≡ passes cause code }
{
    match cause {
        Cause::Hook => true,
        Cause::Request | Cause::Connection => may_pass(code),
    }
}

fn says_gone(code: u16) -> bool
    ensures { result ≡ says_gone code }
{
    code == 515 || code == 516
}

/// Whether a deletion that was answered by this return code leaves no such connection: it was executed, or there was none.
pub fn is_deleted(code: u16) -> bool
    ensures { result ≡ is_deleted code }
{
    is_success(code) || says_gone(code)
}

// A return code tells the hook state of the telephone.
fn tells_hook(code: u16) -> bool
    ensures { result ≡ tells_hook code }
{
    code == 401 || code == 402
}

// The hook state of the telephone, as a return code tells it.
pub(crate) fn hook_told(code: u16) -> Option<Hook>
    ensures { result ≡ hook_told code }
{
    if code == 401 {
        Some(Hook::OffHook)
    } else if code == 402 {
        Some(Hook::OnHook)
    } else {
        None
    }
}

fn times_of(was: Option<PutOff>) -> u8
    ensures { result ≡ times_of was }
{
    match was {
        Some(off) => off.times,
        None => 0,
    }
}

// A command was refused by this code.
fn refusal_fate(cause: Cause, code: u16, was: Option<PutOff>) -> Fate
    ensures { result ≡ refusal_fate cause code was }
{
    let times = times_of(was);
    if passes(cause, code) && times < MOST_PUT_OFF {
        Fate::Again(PutOff {
            cause,
            times: times + 1,
        })
    } else {
        Fate::Refused(code)
    }
}

fn request_cause(code: u16) -> Cause
    ensures { result ≡ request_cause code }
{
    if tells_hook(code) {
        Cause::Hook
    } else {
        Cause::Request
    }
}

// Whether a line in this phase is to be asked for this still.
fn is_wanted(asked: Asked, phase: Option<Phase>) -> bool
    ensures { result ≡ is_wanted asked phase }
{
    match phase {
        Some(phase) => is_asked(wanted_in(phase), Some(asked)),
        None => false,
    }
}

fn request_fate(asked: Asked, phase: Option<Phase>, was: Option<PutOff>, code: u16) -> Fate
    ensures { result ≡ request_fate asked phase was code }
{
    if is_success(code) {
        Fate::Done
    } else if is_wanted(asked, phase) {
        refusal_fate(request_cause(code), code, was)
    } else {
        Fate::Open
    }
}

// A command for a connection of this call was refused.
fn refused_in_call(call: u64, phase: Option<Phase>, was: Option<PutOff>, code: u16) -> Fate
    ensures { result ≡ refused_in_call call phase was code }
{
    if is_in(call, phase) {
        refusal_fate(Cause::Connection, code, was)
    } else {
        Fate::Open
    }
}

fn creation_fate(call: u64, phase: Option<Phase>, was: Option<PutOff>, code: u16) -> Fate
    ensures { result ≡ creation_fate call phase was code }
{
    if is_success(code) {
        Fate::Open
    } else {
        refused_in_call(call, phase, was, code)
    }
}

fn change_fate(call: u64, phase: Option<Phase>, was: Option<PutOff>, code: u16) -> Fate
    ensures { result ≡ change_fate call phase was code }
{
    if is_success(code) {
        Fate::Done
    } else {
        refused_in_call(call, phase, was, code)
    }
}

fn deletion_fate(was: Option<PutOff>, code: u16) -> Fate
    ensures { result ≡ deletion_fate was code }
{
    if is_deleted(code) {
        Fate::Done
    } else {
        refusal_fate(Cause::Connection, code, was)
    }
}

fn code_fate(command: Command, phase: Option<Phase>, was: Option<PutOff>, code: u16) -> Fate
    ensures { result ≡ code_fate command phase was code }
{
    match command {
        Command::Ask(asked) => request_fate(asked, phase, was, code),
        Command::Create { call, .. } => creation_fate(call, phase, was, code),
        Command::Modify { call } => change_fate(call, phase, was, code),
        Command::Delete { .. } => deletion_fate(was, code),
    }
}

/// What became of a command to a line in this phase, of which so much was put off before.
pub(crate) fn fate_of(
    command: Command,
    phase: Option<Phase>,
    was: Option<PutOff>,
    outcome: &Outcome,
) -> Fate
    ensures { result ≡ fate_of command phase was outcome.now }
{
    match outcome {
        Outcome::Created { .. } => Fate::Done,
        Outcome::Answered(code) => code_fate(command, phase, was, *code),
        Outcome::GivenUp => Fate::Open,
    }
}

/// How the command was put off, if it was.
pub(crate) fn put_off_by(fate: Fate) -> Option<PutOff>
    ensures { result ≡ put_off_by fate }
{
    match fate {
        Fate::Again(off) => Some(off),
        Fate::Done | Fate::Refused(_) | Fate::Open => None,
    }
}

/// What is put off in a row then.
pub(crate) fn put_off_then(fate: Fate, was: Option<PutOff>) -> Option<PutOff>
    ensures { result ≡ put_off_then fate was }
{
    match fate {
        Fate::Done | Fate::Refused(_) => None,
        Fate::Again(off) => Some(off),
        Fate::Open => was,
    }
}

/// The code by which it was refused for good, if it was.
pub(crate) fn refused_by(fate: Fate) -> Option<u16>
    ensures { result ≡ refused_by fate }
{
    match fate {
        Fate::Refused(code) => Some(code),
        Fate::Done | Fate::Again(_) | Fate::Open => None,
    }
}

/// Whether a call can't be connected by that.
pub(crate) fn fails(fate: Fate) -> bool
    ensures { result ≡ fails fate }
{
    match fate {
        Fate::Refused(_) | Fate::Open => true,
        Fate::Done | Fate::Again(_) => false,
    }
}

/// Whether what was put off concerned a connection.
pub(crate) fn is_of_connection(cause: Cause) -> bool
    ensures { result ≡ is_of_connection cause }
{
    match cause {
        Cause::Connection => true,
        Cause::Hook | Cause::Request => false,
    }
}
