//! A pause of the program, as the log notes it.
ghost use Rattle.std.specs.Prelude.{◌≡◌, ◌++◌, OnOk};
ghost use Rattle.log_format.specs.Pausing.{seconds, waiting_words, waiting_text, pause_line};

use crate::time::put_date_and_time;
use mg_bytes::{Draft, OutOfMemory};
use std::alloc::Global;

const SECOND: u64 = 1000;

const HALF: u64 = 500;

// How many seconds so many ms are, rounded.
fn seconds(ms: u64) -> u64
    ensures { result ≡ seconds ms }
{
    if ms % SECOND >= HALF {
        ms / SECOND + 1
    } else {
        ms / SECOND
    }
}

fn waiting_words(number: u64) -> &'static [u8]
    ensures { result.now ≡ waiting_words number }
{
    if number == 1 {
        b" datagram was waiting"
    } else {
        b" datagrams were waiting"
    }
}

// How many datagrams had come.
#[tactic(auto, unfolding(crate::specs::Pausing::waiting_text))]
fn put_waiting(out: &mut Draft, waiting: Option<u64>)
    ensures { out.new ≡ out.old ++ waiting_text waiting }
{
    if let Some(number) = waiting {
        out.put(b", ");
        out.put_decimal(number);
        out.put(waiting_words(number));
    }
}

/// Puts that the program was stopped, as `2026-11-27T12:03:07.123Z ! paused for 31 s, 12 datagrams were waiting`: when it went on, in
/// microseconds since 1970, how much later than it was to, in ms, and how many datagrams had come meanwhile, where that was counted.
/// Its only error is want of memory.
#[tactic(auto, unfolding(crate::specs::Pausing::pause_line))]
pub fn put_pause(
    alloc: Global,
    out: &mut Vec<u8>,
    moment: u64,
    lateness: u64,
    waiting: Option<u64>,
) -> Result<(), OutOfMemory>
    ensures { OnOk result (out.new.items ≡ out.old.items ++ pause_line moment lateness waiting) }
{
    let mut line = Draft::new(alloc);
    put_date_and_time(&mut line, moment);
    line.put(b" ! paused for ");
    line.put_decimal(seconds(lateness));
    line.put(b" s");
    put_waiting(&mut line, waiting);
    line.put(b"\n");
    line.append_to(out)
}
