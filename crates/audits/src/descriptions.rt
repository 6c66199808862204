//! The descriptions of a connection.
ghost use Rattle.std.specs.Prelude.{◌≡◌, ◌++◌, true, IfOk};
ghost use Rattle.mg_bytes.specs.Items.{items_of};
ghost use Rattle.mg_bytes.specs.Lines.{crlf};
ghost use Rattle.mgcp_text.specs.Writing.{is_writable_body};
ghost use Rattle.sdp_subset.specs.Writing.{session_text};
ghost use Rattle.audits.specs.ConnectionReport.{remote_text, descriptions_text};
ghost use Rattle.audits.specs.Writing.{IsDescription};

use crate::picking::asks_for;
use connections::Audited;
use mg_bytes::{OutOfMemory, Text};
use mgcp_text::Bytes;
use sdp_subset::{Session, write_sdp};
use std::alloc::Global;

// The local description.
fn local_text(alloc: Global, description: &Session) -> Result<Text, OutOfMemory>
    ensures value { IfOk result (λ text. text ≡ session_text description.now) }
    ensures whole { IfOk result (λ text. IsDescription text) }
{
    write_sdp(alloc, description)
}

// The remote description; one that isn't known is its first line alone.
#[tactic(auto, unfolding(mg_bytes::specs::Lines::cut, mg_bytes::specs::Blanks::trimmed, mg_bytes::specs::Blanks::trimmed_end))]
fn remote_text(alloc: Global, remote: &Option<Session>) -> Result<Text, OutOfMemory>
    ensures value { IfOk result (λ text. text ≡ remote_text remote.now) }
    ensures whole { IfOk result (λ text. IsDescription text) }
{
    match remote {
        None => Ok(Text::of(Vec::from_slice(alloc, b"v=0\r\n")?)),
        Some(session) => local_text(alloc, session),
    }
}

// Both, with an empty line between them.
fn both_texts(alloc: Global, audited: &Audited) -> Result<Text, OutOfMemory>
    ensures value { IfOk result (λ text. text
        ≡ session_text audited.now.description ++ (crlf ++ remote_text audited.now.connection.remote)) }
    ensures writable { IfOk result (λ text. is_writable_body text ≡ true) }
{
    let local = local_text(alloc, &audited.description)?;
    let remote = remote_text(alloc, &audited.connection.remote)?;
    let mut out = local.into_bytes();
    out.extend_from_slice(b"\r\n")?;
    out.extend_from_slice(remote.as_bytes())?;
    Ok(Text::of(out))
}

// A description by itself can be written.
fn alone(text: Text) -> Bytes<'static>
    requires { IsDescription text }
    ensures value { result ≡ text }
    ensures writable { is_writable_body result ≡ true }
{
    Bytes::owned(text)
}

/// The descriptions that the items of F ask for. An error is for want of memory only.
#[tactic(auto, unfolding(crate::specs::ConnectionReport::descriptions_text, mgcp_text::specs::Writing::is_writable_body))]
pub(crate) fn descriptions_text(
    alloc: Global,
    audited: &Audited,
    items: &[u8],
) -> Result<Bytes<'static>, OutOfMemory>
    ensures value { IfOk result (λ text. text ≡ descriptions_text audited.now (items_of items.now)) }
    ensures writable { IfOk result (λ text. is_writable_body text ≡ true) }
{
    match (asks_for(b"LC", items), asks_for(b"RC", items)) {
        (false, false) => Ok(Bytes::of(b"")),
        (true, false) => Ok(alone(local_text(alloc, &audited.description)?)),
        (false, true) => Ok(alone(remote_text(alloc, &audited.connection.remote)?)),
        (true, true) => Ok(Bytes::owned(both_texts(alloc, audited)?)),
    }
}
