//! Reads what the page asks to be done.
ghost use Rattle.std.specs.Prelude.{◌≡◌, IfOk, IfSome, IsUtf8, Some, None};
ghost use Rattle.serde_json.specs.View.{view};
ghost use Rattle.page_http.specs.Acting.{queued_in as queued_of, asked_by};

use mg_bytes::OutOfMemory;
use page_state::{QueuedAct, act_named};
use serde_json::Value;
use std::alloc::{AllocError, Global};

#[tactic(auto, unfolding(crate::specs::Acting::queued_in))]
fn queued_in(value: &Value) -> Option<QueuedAct>
    ensures { result ≡ queued_of (view value.now) }
{
    let number = value.get("line")?.as_u64()?;
    if number < 1 || number > 65535 {
        return None;
    }
    let word = value.get("act")?.as_str()?;
    let act = act_named(word.as_bytes())?;
    Some(QueuedAct {
        line: number as u16,
        act,
    })
}

/// What a body asks to be done: an object of JSON with a number `line` and a text `act`; `None` for any other.
pub fn read_act(alloc: Global, body: &[u8]) -> Result<Option<QueuedAct>, OutOfMemory>
    ensures some { IfOk result (λ found. IfSome found (λ queued. asked_by body.now ≡ Some queued)) }
    ensures none { IfOk result (λ found. found ≡ None → IsUtf8 body.now → asked_by body.now ≡ None) }
{
    match Value::from_slice(alloc, body) {
        Ok(value) => Ok(queued_in(&value)),
        Err(fault) if fault.is_memory() => Err(AllocError),
        Err(_) => Ok(None),
    }
}
