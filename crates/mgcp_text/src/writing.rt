//! How a message is written (RFC 3435, 3.2 and 3.3).
ghost use Rattle.std.specs.Prelude.{◌≡◌, ◌++◌, ◌-◌, ◌≤◌, true, false, List, length, slice_index, ℕ, ◌≢◌, IsTrue, IfOk, MatchOption};
ghost use Rattle.std.specs.Str.{bytes_eq};
ghost use Rattle.std.specs.List.{list_all, list_any, flat_map};
ghost use Rattle.mg_bytes.specs.Blanks.{is_blank};
ghost use Rattle.mg_bytes.specs.Lines.{cut, lines_of, is_line_feed, is_dot_line, ended};
ghost use Rattle.mgcp_text.specs.declared.message.Param.{Param};
ghost use Rattle.mgcp_text.specs.Parameter.{is_code};
ghost use Rattle.mgcp_text.specs.declared.message.Message.{Message};
ghost use Rattle.mgcp_text.specs.declared.message.Message.TheVariants as messages;
ghost use Rattle.mgcp_text.specs.Reading.{is_empty_line, message, read_text};
ghost use Rattle.mgcp_text.specs.Spelling.{Reads};
ghost use Rattle.mgcp_text.specs.Writing.{verb_text, command_line, code_text, comment, response_line, param_line, body_text, text_with, written};
ghost use Rattle.mgcp_text.specs.Writing.{is_id, is_known, is_writable_name, is_writable_param, is_writable_body, is_writable};

use crate::bytes::Bytes;
use crate::id::TransactionId;
use crate::message::{Message, Param, Verb};
use crate::parameter::is_code;
use crate::reading::has_only_empty_lines;
use mg_bytes::{Draft, OutOfMemory, ReturnCode, Text, has_dot_line, lines, trimmed};
use std::alloc::Global;

// The room, in bytes, that the text of a message begins with: most are shorter.
const ROOM: usize = 128;

fn verb_text(verb: Verb) -> &'static [u8]
    ensures { result.now ≡ verb_text verb }
{
    match verb {
        Verb::Epcf => b"EPCF",
        Verb::Rqnt => b"RQNT",
        Verb::Ntfy => b"NTFY",
        Verb::Crcx => b"CRCX",
        Verb::Mdcx => b"MDCX",
        Verb::Dlcx => b"DLCX",
        Verb::Auep => b"AUEP",
        Verb::Aucx => b"AUCX",
        Verb::Rsip => b"RSIP",
        Verb::Other => b"",
    }
}

#[tactic(auto, unfolding(crate::specs::Writing::command_line))]
fn put_command_line(out: &mut Draft, verb: Verb, id: TransactionId, name: &[u8])
    ensures { out.new ≡ out.old ++ ended (command_line verb id name.now) }
{
    out.put(verb_text(verb));
    out.put_byte(b' ');
    out.put_decimal(u64::from(id.number()));
    out.put_byte(b' ');
    out.put(name);
    out.put(b" MGCP 1.0\r\n");
}

fn put_code(out: &mut Draft, code: u16)
    requires { code ≤ 999 }
    ensures { out.new ≡ out.old ++ code_text code }
{
    let digits = [
        b'0' + (code / 100) as u8,
        b'0' + (code / 10 % 10) as u8,
        b'0' + (code % 10) as u8,
    ];
    out.put(&digits);
}

fn comment(code: u16) -> &'static [u8]
    ensures { result.now ≡ comment code }
{
    if code == ReturnCode::Executed.number() || code == ReturnCode::ConnectionDeleted.number() {
        b" OK"
    } else {
        b""
    }
}

#[tactic(auto, unfolding(crate::specs::Writing::response_line))]
fn put_response_line(out: &mut Draft, code: u16, id: TransactionId)
    requires { code ≤ 999 }
    ensures { out.new ≡ out.old ++ ended (response_line code id) }
{
    put_code(out, code);
    out.put_byte(b' ');
    out.put_decimal(u64::from(id.number()));
    out.put(comment(code));
    out.put(b"\r\n");
}

#[tactic(auto, unfolding(crate::specs::Writing::param_line))]
fn put_param_line(out: &mut Draft, param: &Param<'_>)
    ensures { out.new ≡ out.old ++ ended (param_line param.now) }
{
    out.put(param.code.as_slice());
    out.put_byte(b':');
    let value = param.value.as_slice();
    if !value.is_empty() {
        out.put_byte(b' ');
        out.put(value);
    }
    out.put(b"\r\n");
}

fn put_params(out: &mut Draft, params: &[Param<'_>])
    ensures { out.new ≡ out.old ++ flat_map (λ param. ended (param_line param)) params.now }
{
    for param in params {
        put_param_line(out, param);
    }
}

fn put_body(out: &mut Draft, body: &[u8])
    ensures { out.new ≡ out.old ++ body_text body.now }
{
    if !body.is_empty() {
        out.put(b"\r\n");
        out.put(body);
    }
}

// The text of a message whose header line is out already.
fn with_lines(mut out: Draft, params: &[Param<'_>], body: &[u8]) -> Result<Text, OutOfMemory>
    ensures { IfOk result (λ text. text
        ≡ out ++ flat_map (λ param. ended (param_line param)) params.now ++ body_text body.now) }
{
    put_params(&mut out, params);
    put_body(&mut out, body);
    out.into_text()
}

// The text of a command.
#[tactic(auto, unfolding(crate::specs::Writing::written))]
fn command_text(
    alloc: Global,
    verb: Verb,
    id: TransactionId,
    name: &[u8],
    params: &[Param<'_>],
    body: &[u8],
) -> Result<Text, OutOfMemory>
    ensures { IfOk result (λ text. text ≡ written (messages.Command verb id name.now params.now body.now)) }
{
    let mut out = Draft::with_room(alloc, ROOM);
    put_command_line(&mut out, verb, id, name);
    with_lines(out, params, body)
}

/// The text of a response.
#[tactic(auto, unfolding(crate::specs::Writing::written))]
pub(crate) fn response_text(
    alloc: Global,
    code: u16,
    id: TransactionId,
    params: &[Param<'_>],
    body: &Bytes<'_>,
) -> Result<Text, OutOfMemory>
    requires { code ≤ 999 }
    ensures { IfOk result (λ text. text ≡ written (messages.Response code id params.now body.now)) }
{
    let mut out = Draft::with_room(alloc, ROOM);
    put_response_line(&mut out, code, id);
    with_lines(out, params, body.as_slice())
}

#[tactic(auto, unfolding(crate::specs::Writing::is_writable))]
fn message_text(alloc: Global, said: &Message<'_>) -> Result<Text, OutOfMemory>
    requires { IsTrue (is_writable said.now) }
    ensures { IfOk result (λ text. text ≡ written said.now) }
{
    match said {
        Message::Response {
            code,
            id,
            params,
            body,
        } => response_text(alloc, *code, *id, params.as_slice(), body),
        Message::Command {
            verb,
            id,
            name,
            params,
            body,
        } => {
            let (name, body) = (name.as_slice(), body.as_slice());
            command_text(alloc, *verb, *id, name, params.as_slice(), body)
        }
    }
}

/// The text of a message (RFC 3435, 3.2 and 3.3): each line with CRLF, single spaces between the words of its own.
pub fn write_message(alloc: Global, said: &Message<'_>) -> Result<Text, OutOfMemory>
    requires { IsTrue (is_writable said.now) }
    ensures form { IfOk result (λ text. text ≡ written said.now) }
    // It is read as the same message.
    ensures reads { IfOk result (λ text. Reads text (message said.now)) }
{
    message_text(alloc, said)
}

fn has_line_feed(text: &[u8]) -> bool
    ensures { result ≡ list_any is_line_feed text.now }
{
    text.iter().any(|byte| *byte == b'\n')
}

fn is_writable_param(param: &Param<'_>) -> bool
    ensures { result ≡ is_writable_param param.now }
{
    let value = param.value.as_slice();
    is_code(param.code.as_slice()) && !has_line_feed(value) && trimmed(value) == value
}

fn all_writable(params: &[Param<'_>]) -> bool
    ensures { result ≡ list_all is_writable_param params.now }
{
    params.iter().all(|param| is_writable_param(param))
}

// What follows a prefix in a text.
fn after_prefix<'a>(text: &'a [u8], prefix: &[u8]) -> Option<&'a [u8]>
    ensures { MatchOption result ((rest : List ℕ) → text.now ≢ prefix.now ++ rest)
        (λ rest. text.now ≡ prefix.now ++ rest.now) }
{
    text.strip_prefix(prefix)
}

// What follows a line and its CRLF in a text.
fn after_line<'a>(text: &'a [u8], line: &[u8]) -> Option<&'a [u8]>
    ensures { MatchOption result ((rest : List ℕ) → text.now ≢ ended line.now ++ rest)
        (λ rest. text.now ≡ ended line.now ++ rest.now) }
{
    match after_prefix(text, line) {
        Some(rest) => after_prefix(rest, b"\r\n"),
        None => None,
    }
}

// Whether a text is its own lines, each with CRLF and nothing else.
fn is_ended_lines(text: &[u8]) -> bool
    ensures { result ≡ bytes_eq (flat_map ended (lines_of text.now)) text.now }
{
    let mut rest = text;
    for line in lines(text) {
        let Some(after) = after_line(rest, line) else {
            return false;
        };
        rest = after;
    }
    rest.is_empty()
}

#[tactic(auto, unfolding(crate::specs::Writing::is_writable_body))]
fn is_writable_body(body: &[u8]) -> bool
    ensures { result ≡ is_writable_body body.now }
{
    if body.is_empty() {
        return true;
    }
    is_ended_lines(body) && !has_only_empty_lines(body) && !has_dot_line(body)
}

#[tactic(auto, unfolding(crate::specs::Writing::is_id))]
fn is_id(id: TransactionId) -> bool
    ensures { result ≡ is_id id }
{
    let number = id.number();
    number >= 1 && number <= 999_999_999
}

fn is_known(verb: Verb) -> bool
    ensures { result ≡ is_known verb }
{
    match verb {
        Verb::Other => false,
        _ => true,
    }
}

fn has_blank(text: &[u8]) -> bool
    ensures { result ≡ list_any is_blank text.now }
{
    text.iter().any(|byte| *byte == b' ' || *byte == b'\t')
}

fn is_writable_name(name: &[u8]) -> bool
    ensures { result ≡ is_writable_name name.now }
{
    !name.is_empty() && !has_blank(name) && !has_line_feed(name)
}

/// Whether a message can be written: a command whose verb isn't `Other` and whose name is one word, or a response with a
/// code up to 999; their parameters have a code and a value of one line without blanks round it, and their description is
/// nothing, or lines with CRLF without blanks at their ends, not all of them empty and none of them a single dot.
#[tactic(auto, unfolding(crate::specs::Writing::is_writable))]
pub fn is_writable(said: &Message<'_>) -> bool
    ensures { result ≡ is_writable said.now }
{
    match said {
        Message::Command {
            verb,
            id,
            name,
            params,
            body,
        } => {
            is_known(*verb)
                && is_id(*id)
                && is_writable_name(name.as_slice())
                && all_writable(params.as_slice())
                && is_writable_body(body.as_slice())
        }
        Message::Response {
            code,
            id,
            params,
            body,
        } => {
            is_id(*id)
                && *code <= 999
                && all_writable(params.as_slice())
                && is_writable_body(body.as_slice())
        }
    }
}

/// A value without blanks and line feeds can be written under each code.
pub fn words_can_be_written()
    ensures { (param : Param) → is_code param.code ≡ true → list_any is_blank param.value ≡ false
        → list_any is_line_feed param.value ≡ false → is_writable_param param ≡ true }
{}

/// What is written of a message that can be written ends in a line end, and none of its lines is a single dot. So it can
/// share a datagram (RFC 3435, 3.5.5).
pub fn what_is_written_is_whole_lines()
    ensures ends { (said : Message) → is_writable said ≡ true →
        is_line_feed (slice_index (written said) (length (written said) - 1)) ≡ true }
    ensures apart { (said : Message) → is_writable said ≡ true → list_any is_dot_line (cut (written said)) ≡ false }
{}

/// What is written of a message that can be written is read as the same message (RFC 3435, 3.2 and 3.3).
pub fn what_is_written_is_read_again()
    ensures { (said : Message) → is_writable said ≡ true → read_text (written said) ≡ message said }
{}
