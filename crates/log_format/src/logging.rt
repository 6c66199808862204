//! The lines of the log.
ghost use Rattle.std.specs.Prelude.{◌≡◌, ◌++◌, OnOk, OnErr};
ghost use Rattle.log_format.specs.Lines.{stamp_text, mark_of, waited_text, message_line, note_line, notice_line, given_up_line, refused_line};

use crate::escaping::put_escaped;
use crate::host::put_peer;
use crate::messages::{put_header, put_text};
use crate::note::{Note, Notice, put_note_text, put_notice_text};
use crate::stamp::{Stamp, Way};
use crate::time::put_date_and_time;
use mg_bytes::{Draft, OutOfMemory};
use mgcp_text::TransactionId;
use std::alloc::Global;

// A line that has begun.
#[tactic(auto, unfolding(crate::specs::Lines::stamp_text))]
fn begun(alloc: Global, stamp: Stamp) -> Draft
    ensures { result ≡ stamp_text stamp }
{
    let mut line = Draft::new(alloc);
    put_date_and_time(&mut line, stamp.moment);
    line.put_byte(b' ');
    put_peer(&mut line, stamp.peer);
    line
}

fn mark_of(way: Way) -> &'static [u8]
    ensures { result.now ≡ mark_of way }
{
    match way {
        Way::Came => b" >",
        Way::Sent => b" <",
    }
}

fn put_waited(out: &mut Draft, waited: Option<u64>)
    ensures { out.new ≡ out.old ++ waited_text waited }
{
    if let Some(ms) = waited {
        out.put(b" +");
        out.put_decimal(ms);
        out.put(b" ms");
    }
}

/// Puts a message that came or is sent, in one line, as `2026-11-27T12:03:07.123Z 10.0.0.7:2727 > RQNT 1207 aaln/1 S: L/rg`:
/// of its header the verb or return code, the transaction id, and the endpoint's name or the comment; then its parameters in their
/// order and the lines of its description. A name whose domain is `own`, compared without case, stands without it, and any
/// other is whole; where `own` is empty all are. `waited` is how long the command had been waiting for this answer, in ms, and
/// is shown behind it, as ` +12 ms`. Of a value of more than 64 bytes the front is shown, and `..`; each byte that isn't
/// printable ASCII, and the backslash, as `\x1b`. After an error, which is for want of memory only, `out` is as it was.
#[tactic(auto, unfolding(crate::specs::Lines::message_line))]
pub fn put_message(
    alloc: Global,
    out: &mut Vec<u8>,
    own: &[u8],
    stamp: Stamp,
    way: Way,
    text: &[u8],
    waited: Option<u64>,
) -> Result<(), OutOfMemory>
    ensures ok { OnOk result (out.new.items ≡ out.old.items ++ message_line own.now stamp way text.now waited) }
    ensures err { OnErr result (out.new.items ≡ out.old.items) }
{
    let mut line = begun(alloc, stamp);
    line.put(mark_of(way));
    put_text(&mut line, own, text);
    put_waited(&mut line, waited);
    line.put_byte(b'\n');
    line.append_to(out)
}

/// Puts a note in one line, as `2026-11-27T12:03:07.123Z 10.0.0.7:2727 ! repeat of 1205, answered again`. After an error, which
/// is for want of memory only, `out` is as it was.
#[tactic(auto, unfolding(crate::specs::Lines::note_line))]
pub fn put_note(
    alloc: Global,
    out: &mut Vec<u8>,
    stamp: Stamp,
    note: Note,
) -> Result<(), OutOfMemory>
    ensures ok { OnOk result (out.new.items ≡ out.old.items ++ note_line stamp note) }
    ensures err { OnErr result (out.new.items ≡ out.old.items) }
{
    let mut line = begun(alloc, stamp);
    line.put(b" ! ");
    put_note_text(&mut line, note);
    line.put_byte(b'\n');
    line.append_to(out)
}

/// Puts what is noted of the program itself at this moment, in microseconds since 1970 began, in one line, as
/// `2026-11-27T12:03:07.123Z ! dropped 1234 lines, which nobody took`. After an error, which is for want of memory only, `out` is as it
/// was.
#[tactic(auto, unfolding(crate::specs::Lines::notice_line))]
pub fn put_notice(
    alloc: Global,
    out: &mut Vec<u8>,
    moment: u64,
    notice: Notice,
) -> Result<(), OutOfMemory>
    ensures ok { OnOk result (out.new.items ≡ out.old.items ++ notice_line moment notice) }
    ensures err { OnErr result (out.new.items ≡ out.old.items) }
{
    let mut line = Draft::new(alloc);
    put_date_and_time(&mut line, moment);
    line.put(b" ! ");
    put_notice_text(&mut line, notice);
    line.put_byte(b'\n');
    line.append_to(out)
}

/// Puts that the gateway's own command of this text is given up (RFC 3435, 4.3), as `2026-11-27T12:03:27.123Z 10.0.0.7:2727 !
/// given up: NTFY 10000003 aaln/1`, the name as `put_message` puts it. After an error, which is for want of memory only, `out` is as it
/// was.
#[tactic(auto, unfolding(crate::specs::Lines::given_up_line))]
pub fn put_given_up(
    alloc: Global,
    out: &mut Vec<u8>,
    own: &[u8],
    stamp: Stamp,
    text: &[u8],
) -> Result<(), OutOfMemory>
    ensures ok { OnOk result (out.new.items ≡ out.old.items ++ given_up_line own.now stamp text.now) }
    ensures err { OnErr result (out.new.items ≡ out.old.items) }
{
    let mut line = begun(alloc, stamp);
    line.put(b" ! given up:");
    put_header(&mut line, own, text);
    line.put_byte(b'\n');
    line.append_to(out)
}

/// Puts that the command with this id is refused, and what is at fault, as `explain` of `command_forms` says it:
/// `2026-11-27T12:03:07.123Z 10.0.0.7:2727 ! refused 1207: 518 unsupported or unknown package: value of parameter R`. Where nothing is
/// known but the code, `Note::Refused` says it. After an error, which is for want of memory only, `out` is as it was.
#[tactic(auto, unfolding(crate::specs::Lines::refused_line))]
pub fn put_refused(
    alloc: Global,
    out: &mut Vec<u8>,
    stamp: Stamp,
    id: TransactionId,
    why: &[u8],
) -> Result<(), OutOfMemory>
    ensures ok { OnOk result (out.new.items ≡ out.old.items ++ refused_line stamp id why.now) }
    ensures err { OnErr result (out.new.items ≡ out.old.items) }
{
    let mut line = begun(alloc, stamp);
    line.put(b" ! refused ");
    line.put_decimal(u64::from(id.number()));
    line.put(b": ");
    put_escaped(&mut line, why);
    line.put_byte(b'\n');
    line.append_to(out)
}
