//! What is done at a telephone.
ghost use Rattle.std.specs.Prelude.{◌≡◌, ◌++◌, OnOk, OnErr};
ghost use Rattle.page_state.specs.Acts.{act_line as line_of_act, act_word as word_of_act, is_key as is_key_sign, key_named as key_of, act_named as act_of};

use mg_bytes::{Draft, OutOfMemory};
use std::alloc::Global;

/// What is done at a telephone.
#[derive(Clone, Copy)]
pub enum PhoneAct {
    /// The handset is lifted.
    Off,
    /// It is put back.
    On,
    /// The hook is pressed for a moment.
    Flash,
    /// A key is pressed: a digit, `*`, `#`, or A to D.
    Key { sign: u8 },
}

/// What is to be done at the telephone of a line.
#[derive(Clone, Copy)]
pub struct QueuedAct {
    /// The line's number, from 1; there may be no such line.
    pub line: u16,
    pub act: PhoneAct,
}

fn is_key(sign: u8) -> bool
    ensures { result ≡ is_key_sign sign }
{
    (sign >= b'0' && sign <= b'9') || sign == b'*' || sign == b'#' || (sign >= b'A' && sign <= b'D')
}

fn key_named(word: &[u8]) -> Option<PhoneAct>
    ensures { result ≡ key_of word.now }
{
    match word {
        [sign] if is_key(*sign) => Some(PhoneAct::Key { sign: *sign }),
        _ => None,
    }
}

/// The act that a word names: `off`, `on`, `flash` or a key.
pub fn act_named(word: &[u8]) -> Option<PhoneAct>
    ensures { result ≡ act_of word.now }
{
    if word == b"off".as_slice() {
        return Some(PhoneAct::Off);
    }
    if word == b"on".as_slice() {
        return Some(PhoneAct::On);
    }
    if word == b"flash".as_slice() {
        return Some(PhoneAct::Flash);
    }
    key_named(word)
}

fn put_act(out: &mut Draft, act: PhoneAct)
    ensures { out.new ≡ out.old ++ word_of_act act }
{
    match act {
        PhoneAct::Off => out.put(b"off"),
        PhoneAct::On => out.put(b"on"),
        PhoneAct::Flash => out.put(b"flash"),
        PhoneAct::Key { sign } => out.put_byte(sign),
    }
}

impl QueuedAct {
    /// Appends the line of the telephones' socket that does it, without its end, as `phone 1 off`. After an error, which is for want of
    /// memory, `out` is as it was.
    pub fn put_line(self, alloc: Global, out: &mut Vec<u8>) -> Result<(), OutOfMemory>
        ensures ok { OnOk result (out.new.items ≡ out.old.items ++ line_of_act self) }
        ensures err { OnErr result (out.new.items ≡ out.old.items) }
    {
        let mut line = Draft::new(alloc);
        line.put(b"phone ");
        line.put_decimal(u64::from(self.line));
        line.put(b" ");
        put_act(&mut line, self.act);
        line.append_to(out)
    }
}
