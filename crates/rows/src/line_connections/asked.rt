//! What is asked of connections, as rows say it: `C: 1A  I: 1  M: sendrecv  L: p:30  RTP: 8 0`.
use crate::line::parameters::parameter;
use connections::{Change, Creation, Deletion, Mode, Options, read_mode, read_options};
use mg_bytes::{CodeFault, Identifier};
use sdp_subset::{Session, read_sdp};
use std::alloc::Global;

// The code of a value that isn't read.
const UNREAD: CodeFault = CodeFault::Code(0);

/// The call or the connection that a row names.
pub fn identifier_in(fields: &str, name: &str) -> Result<Identifier, CodeFault> {
    let text = parameter(fields, name).unwrap_or("");
    Identifier::of(text.as_bytes()).ok_or(UNREAD)
}

// The description of the other side, which offers these payload types.
fn remote_in(alloc: Global, fields: &str) -> Result<Option<Session>, CodeFault> {
    let Some(types) = parameter(fields, "RTP: ") else {
        return Ok(None);
    };
    let media = "v=0\r\nc=IN IP4 127.0.0.1\r\nm=audio 4000 RTP/AVP";
    let text = format!(in alloc; "{media} {types}\r\n")?;
    match read_sdp(text.as_bytes()) {
        Ok(session) => Ok(Some(session)),
        Err(_) => Err(UNREAD),
    }
}

fn mode_in(fields: &str) -> Result<Option<Mode>, CodeFault> {
    match parameter(fields, "M: ") {
        Some(name) => Ok(Some(read_mode(name.as_bytes()).ok_or(UNREAD)?)),
        None => Ok(None),
    }
}

fn options_in(fields: &str) -> Result<Option<Options>, CodeFault> {
    let Some(value) = parameter(fields, "L: ") else {
        return Ok(None);
    };
    match read_options(value.as_bytes()) {
        Ok(options) => Ok(Some(options)),
        Err(code) => Err(CodeFault::Code(code)),
    }
}

/// What is to be changed.
pub fn change_of(alloc: Global, fields: &str) -> Result<Change, CodeFault> {
    Ok(Change {
        mode: mode_in(fields)?,
        options: options_in(fields)?,
        remote: remote_in(alloc, fields)?,
    })
}

/// What is to be created.
pub fn creation_of(alloc: Global, fields: &str) -> Result<Creation, CodeFault> {
    let call = identifier_in(fields, "C: ")?;
    let Change {
        mode,
        options,
        remote,
    } = change_of(alloc, fields)?;
    Ok(Creation {
        call,
        mode: mode.ok_or(UNREAD)?,
        options: options.unwrap_or(Options::none()),
        remote,
    })
}

/// What is to be deleted.
pub fn deletion_of(fields: &str) -> Result<Deletion, CodeFault> {
    if parameter(fields, "C: ").is_none() {
        return Ok(Deletion::All);
    }
    let call = identifier_in(fields, "C: ")?;
    if parameter(fields, "I: ").is_none() {
        return Ok(Deletion::OfCall(call));
    }
    Ok(Deletion::One(call, identifier_in(fields, "I: ")?))
}
