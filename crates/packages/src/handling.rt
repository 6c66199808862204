//! How quarantined events are handled: the value of Q (RFC 3435, 2.3.3 and 4.4.1).
ghost use Rattle.std.specs.Prelude.{◌≡◌, IfOk};
ghost use Rattle.mg_bytes.specs.CodeFault.{AnswersAs, answer_of};
ghost use Rattle.packages.specs.Handling.{word_of, by_one, by_two, handling_of};
ghost use Rattle.packages.specs.Handling.{notifying_text, quarantined_text, handling_text};

use mg_bytes::{CodeFault, OutOfMemory, ReturnCode, Text, list_items, same_no_case};
use std::alloc::Global;

/// Whether a line that has notified notifies again without a new request (RFC 3435, 4.4.1).
#[derive(Clone, Copy, PartialEq, Eq)]
pub enum Notifying {
    /// It waits for the next request: `step`.
    Step,
    /// It goes on once its notification is answered: `loop`.
    Loop,
}

/// What a request makes of the events that are quarantined when it comes (RFC 3435, 4.4.1).
#[derive(Clone, Copy, PartialEq, Eq)]
pub enum Quarantined {
    /// They are processed: `process`.
    Process,
    /// They are dropped: `discard`.
    Discard,
}

/// The value of Q.
#[derive(Clone, Copy, PartialEq, Eq)]
pub struct Handling {
    pub notifying: Notifying,
    pub quarantined: Quarantined,
}

/// A word of Q.
#[derive(Clone, Copy)]
pub(crate) enum Word {
    OfNotifying(Notifying),
    OfQuarantined(Quarantined),
    Other,
}

fn word_of(text: &[u8]) -> Word
    ensures { result ≡ word_of text.now }
{
    if same_no_case(text, b"step") {
        Word::OfNotifying(Notifying::Step)
    } else if same_no_case(text, b"loop") {
        Word::OfNotifying(Notifying::Loop)
    } else if same_no_case(text, b"process") {
        Word::OfQuarantined(Quarantined::Process)
    } else if same_no_case(text, b"discard") {
        Word::OfQuarantined(Quarantined::Discard)
    } else {
        Word::Other
    }
}

fn by_one(word: Word) -> Result<Handling, u16>
    ensures { result ≡ by_one word }
{
    match word {
        Word::OfNotifying(notifying) => Ok(Handling {
            notifying,
            quarantined: Quarantined::Process,
        }),
        Word::OfQuarantined(quarantined) => Ok(Handling {
            notifying: Notifying::Step,
            quarantined,
        }),
        Word::Other => Err(ReturnCode::UnsupportedHandling.number()),
    }
}

fn by_two(first: Word, second: Word) -> Result<Handling, u16>
    ensures { result ≡ by_two first second }
{
    match (first, second) {
        (Word::OfNotifying(notifying), Word::OfQuarantined(quarantined))
        | (Word::OfQuarantined(quarantined), Word::OfNotifying(notifying)) => Ok(Handling {
            notifying,
            quarantined,
        }),
        _ => Err(ReturnCode::UnsupportedHandling.number()),
    }
}

#[tactic(auto, unfolding(crate::specs::Handling::handling_of))]
fn handling_of(value: &[u8]) -> Result<Handling, u16>
    ensures { result ≡ handling_of value.now }
{
    let mut words = list_items(value);
    let Some(first) = words.next() else {
        return Err(ReturnCode::UnsupportedHandling.number());
    };
    let Some(second) = words.next() else {
        return by_one(word_of(first));
    };
    if words.next().is_some() {
        return Err(ReturnCode::UnsupportedHandling.number());
    }
    by_two(word_of(first), word_of(second))
}

/// The value of Q (RFC 3435, 2.3.3 and 4.4.1): `step` or `loop`, `process` or `discard`, or one of each with a comma
/// between them, in either order and any case. What isn't said is `step` and `process`.
///
/// Another value, an empty one too, is the return code 508. It takes no memory, so it is never refused any.
pub fn read_handling(value: &[u8]) -> Result<Handling, CodeFault>
    ensures value { result ≡ answer_of (handling_of value.now) }
    ensures answers { AnswersAs (handling_of value.now) result }
{
    match handling_of(value) {
        Ok(handling) => Ok(handling),
        Err(code) => Err(CodeFault::Code(code)),
    }
}

fn notifying_text(notifying: Notifying) -> &'static [u8]
    ensures { result.now ≡ notifying_text notifying }
{
    match notifying {
        Notifying::Step => b"step",
        Notifying::Loop => b"loop",
    }
}

fn quarantined_text(quarantined: Quarantined) -> &'static [u8]
    ensures { result.now ≡ quarantined_text quarantined }
{
    match quarantined {
        Quarantined::Process => b"process",
        Quarantined::Discard => b"discard",
    }
}

/// The written form of Q (RFC 3435, 2.3.3): both words with a comma between them, as `step,process`. An error is for want
/// of memory only.
#[tactic(auto, unfolding(crate::specs::Handling::handling_text))]
pub fn write_handling(alloc: Global, handling: Handling) -> Result<Text, OutOfMemory>
    ensures { IfOk result (λ text. text ≡ handling_text handling) }
{
    let mut out = Vec::new(alloc);
    out.extend_from_slice(notifying_text(handling.notifying))?;
    out.push(b',')?;
    out.extend_from_slice(quarantined_text(handling.quarantined))?;
    Ok(Text::of(out))
}
