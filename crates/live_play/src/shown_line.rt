//! What a line of a gateway is, as it is told to who asks.
ghost use Rattle.std.specs.Prelude.{◌≡◌, ◌≤◌, ◌++◌, ℕ, List, OnOk};
ghost use Rattle.live_play.specs.Running.{IsAnswer};

use gateway_core::Gateway;
use mg_bytes::OutOfMemory;
use rgw_scripts::{put_line, status_of};
use std::alloc::Global;

/// Puts what a line is.
pub fn put_shown(
    alloc: Global,
    gateway: &Gateway,
    line: u16,
    out: &mut Vec<u8>,
) -> Result<(), OutOfMemory>
    requires low { 1 ≤ line }
    requires high { line ≤ gateway.now.setup.names.lines }
    ensures { OnOk result ((shown : List ℕ) × IsAnswer gateway.now line shown × (out.new.items ≡ out.old.items ++ shown)) }
{
    let status = status_of(gateway, line);
    put_line(alloc, out, &status)
}
