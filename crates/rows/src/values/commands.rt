//! Calls about what commands ask for, on a gateway of 16 lines that knows no host.
use crate::texts::is_word;
use crate::values::names::{DOMAIN, put_pattern};
use command_forms::{Asks, AuditTarget, ConnectionDeed, Deed, Target, form};
use connections::{CodecChoice, Deletion, Mode, Options, encoding_text, mode_text, write_options};
use digit_map::MapChange;
use endpoint_names::{Names, Pattern, Table};
use event_syntax::{write_handling, write_signals};
use events_and_signals::Request;
use mg_bytes::{CodeFault, Identifier, OutOfMemory, Text};
use mgcp_text::{Message, read_k};
use scenario_files::Outcome;
use sdp_subset::Session;
use std::alloc::Global;

fn put_line(given: &mut Outcome, code: &[u8], value: &[u8]) {
    given.put_both(code, value);
    given.put(b"\r\n");
}

fn put_text(given: &mut Outcome, code: &[u8], value: Result<Text, OutOfMemory>) {
    given.put(code);
    given.put_text(value);
    given.put(b"\r\n");
}

// The parameters of a request as they are written again; D only where the digit map doesn't stay.
fn put_request(given: &mut Outcome, request: &Request) {
    put_line(given, b"X:", request.identifier.as_slice());
    put_text(given, b"R:", request.events.write_requested(given.alloc));
    put_text(given, b"T:", request.events.write_detected(given.alloc));
    put_text(
        given,
        b"S:",
        write_signals(given.alloc, request.signals.as_slice()),
    );
    put_text(given, b"Q:", write_handling(given.alloc, request.handling));
    match &request.map {
        MapChange::Keep => {}
        MapChange::Remove => put_line(given, b"D:", b""),
        MapChange::Replace(map) => put_line(given, b"D:", map.as_bytes()),
    }
}

// What becomes of connections, with the call of one where it is named.
fn put_named(given: &mut Outcome, becomes: &[u8], call: &Identifier) {
    given.put(becomes);
    put_line(given, b"C:", call.as_slice());
}

fn put_options(given: &mut Outcome, options: Options) {
    let time = options.packet_time;
    match options.codecs {
        CodecChoice::These(codecs) => {
            put_text(given, b"L:", write_options(given.alloc, codecs, time));
        }
        CodecChoice::ByEncoding => {
            given.put_behind(b"L:p:", time);
            given.put(b"\r\n");
        }
        CodecChoice::NoneKnown => put_line(given, b"L:", b"none"),
    }
}

// The port and the payload types of a remote description.
fn put_session(given: &mut Outcome, session: &Session) {
    given.put_behind(b"RTP:", session.port);
    for payload in session.payloads.as_slice() {
        given.put_behind(b" ", *payload);
    }
    given.put(b"\r\n");
}

// The M, the L and the remote description of a connection, each where it is given.
fn put_given(
    given: &mut Outcome,
    mode: Option<Mode>,
    options: Option<Options>,
    remote: &Option<Session>,
) {
    if let Some(mode) = mode {
        put_line(given, b"M:", mode_text(mode));
    }
    if let Some(options) = options {
        put_options(given, options);
    }
    if let Some(session) = remote {
        put_session(given, session);
    }
}

// What becomes of the connections of a line.
fn put_connections(given: &mut Outcome, deed: &ConnectionDeed) {
    match deed {
        ConnectionDeed::Keep => given.put(b"keep "),
        ConnectionDeed::Create(new) => {
            put_named(given, b"create ", &new.call);
            put_given(given, Some(new.mode), Some(new.options), &new.remote);
        }
        ConnectionDeed::Modify { call, id, change } => {
            put_named(given, b"modify ", call);
            put_line(given, b"I:", id.as_slice());
            put_given(given, change.mode, change.options, &change.remote);
        }
        ConnectionDeed::Delete(Deletion::All) => given.put(b"delete "),
        ConnectionDeed::Delete(Deletion::OfCall(call)) => put_named(given, b"delete ", call),
        ConnectionDeed::Delete(Deletion::One(call, id)) => {
            put_named(given, b"delete ", call);
            put_line(given, b"I:", id.as_slice());
        }
    }
}

// What a deed does to connections, and the encoding that it gives.
fn put_becoming(given: &mut Outcome, deed: &Deed) {
    put_connections(given, &deed.connections);
    if let Some(encoding) = deed.encoding {
        return put_line(given, b"B:", encoding_text(encoding));
    }
    // A blank stands before what follows.
    if given.bytes.ends_with(b" ") {
        given.bytes.pop();
    }
}

// Puts what a call gives of what a command asks for: by default the lines that it is for.
fn put_asks(given: &mut Outcome, call: &str, asks: &Asks<'_>) {
    let pattern = match asks {
        Asks::Does(_, boxed) if is_word(call, "asks") => {
            match &boxed.deed().request {
                Some(request) => put_request(given, request),
                None => given.put(b"no request"),
            }
            return;
        }
        Asks::Does(_, boxed) if is_word(call, "becomes") => return put_becoming(
            given,
            boxed.deed(),
        ),
        Asks::Reports(AuditTarget::One(line), _) => Pattern::One(*line),
        Asks::Reports(AuditTarget::All, _) => Pattern::All,
        Asks::Does(Target::One(line), _) => Pattern::One(*line),
        Asks::Does(Target::All, _) => Pattern::All,
        Asks::Does(Target::Any, _) => Pattern::Any,
    };
    put_pattern(given, pattern);
}

// What a message asks for on a gateway of 16 lines that knows no host.
fn asked<'m>(alloc: Global, message: &'m Message<'_>) -> Result<Asks<'m>, CodeFault> {
    let confirms = read_k(alloc, message)?;
    let names = Names {
        domain: Text::of(Vec::from_slice(alloc, DOMAIN)?),
        lines: 16,
        table: Table::new(),
    };
    form(alloc, message, &confirms, &names)
}

/// Puts what one of these calls gives of a message: a return code where the command is refused.
pub fn put_answer(given: &mut Outcome, call: &str, message: &Message<'_>) {
    match asked(given.alloc, message) {
        Ok(asks) => put_asks(given, call, &asks),
        Err(fault) => given.put_code(fault),
    }
}
