//! How text that came from a network is printed.
ghost use Rattle.std.specs.Prelude.{◌≡◌, ◌++◌, OnOk};
ghost use Rattle.live_system.specs.Printing.{printed_byte, printed};

use log_format::write_shown;
use mg_bytes::{Draft, OutOfMemory};
use std::alloc::Global;

fn put_byte(out: &mut Draft, byte: u8)
    ensures { out.new ≡ out.old ++ printed_byte byte }
{
    if byte == b'\n' {
        out.put_byte(byte);
    } else {
        write_shown(out, &[byte]);
    }
}

fn put_bytes(out: &mut Draft, bytes: &[u8])
    ensures { out.new ≡ out.old ++ printed bytes.now }
{
    for byte in bytes {
        put_byte(out, *byte);
    }
}

/// Puts text that came from a network, line by line, with whatever isn't printable as the log shows it. Its only error is want of memory.
pub fn put_printed(alloc: Global, out: &mut Vec<u8>, text: &[u8]) -> Result<(), OutOfMemory>
    ensures { OnOk result (out.new.items ≡ out.old.items ++ printed text.now) }
{
    let mut draft = Draft::new(alloc);
    put_bytes(&mut draft, text);
    draft.append_to(out)
}
