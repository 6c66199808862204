//! Equal endpoints.
ghost use Rattle.std.specs.Prelude.{◌≡◌, IfOk, OnOk, OnErr};

use crate::rules::posting::{copy_post, pending_of, same_post};
use mg_bytes::OutOfMemory;
use plain_machine::Endpoint;

/// An equal endpoint. An error is for want of memory only.
pub fn same_endpoint(endpoint: &Endpoint) -> Result<Endpoint, OutOfMemory>
    ensures { IfOk result (λ copy. copy ≡ endpoint.now) }
{
    Ok(Endpoint {
        line: endpoint.line.try_copy()?,
        post: same_post(&endpoint.post)?,
        encoding: endpoint.encoding,
        connections: endpoint.connections.copy(),
    })
}

/// An endpoint becomes equal to another; the room of its quarantine stays. An error is for want of memory only, and then it is
/// as it was.
pub fn copy_endpoint(from: &Endpoint, into: &mut Endpoint) -> Result<(), OutOfMemory>
    ensures ok { OnOk result (into.new ≡ from.now) }
    ensures err { OnErr result (into.new ≡ into.old) }
{
    let pending = pending_of(&from.post.pending)?;
    into.line.try_copy_from(&from.line)?;
    copy_post(&from.post, pending, &mut into.post);
    into.encoding = from.encoding;
    into.connections = from.connections.copy();
    Ok(())
}
