//! The line that says which audio stream is offered (RFC 2327, 6).
ghost use Rattle.std.specs.Prelude.{◌≡◌};
ghost use Rattle.mg_bytes.specs.Words.{words};
ghost use Rattle.sdp_subset.specs.Reading.{port_of, payload_of, payloads_of, audio_of};

use crate::payloads::Payloads;
use mg_bytes::{Words, decimal, words};

/// An audio stream: its port and its payload types.
#[derive(Drop)]
pub(crate) struct Audio {
    pub(crate) port: u16,
    pub(crate) payloads: Payloads,
}

fn port_of(text: &[u8]) -> Option<u16>
    ensures { result ≡ port_of text.now }
{
    let number = decimal(text)?;
    if number > 65535 {
        return None;
    }
    Some(number as u16)
}

fn payload_of(text: &[u8]) -> Option<u8>
    ensures { result ≡ payload_of text.now }
{
    let number = decimal(text)?;
    if number > 127 {
        return None;
    }
    Some(number as u8)
}

#[tactic(auto, unfolding(crate::specs::Reading::payloads_of))]
fn payloads_of(mut numbers: Words<'_>) -> Option<Payloads>
    ensures { result ≡ payloads_of numbers.entry }
{
    let first = payload_of(numbers.next()?)?;
    let mut payloads = Payloads::of(&[first])?;
    for number in numbers {
        if !payloads.push(payload_of(number)?) {
            return None;
        }
    }
    Some(payloads)
}

/// The stream of a line `m=audio port RTP/AVP` with 1 to 32 payload types from 0 to 127, a port from 0 to 65535, and
/// blanks between the words; `None` for any other line (RFC 2327, 6).
#[tactic(auto, unfolding(crate::specs::Reading::audio_of))]
pub(crate) fn audio_of(line: &[u8]) -> Option<Audio>
    ensures { result ≡ audio_of line.now }
{
    let mut words = words(line);
    let (Some(media), Some(port), Some(protocol)) = (words.next(), words.next(), words.next())
    else {
        return None;
    };
    if media != b"m=audio".as_slice() || protocol != b"RTP/AVP".as_slice() {
        return None;
    }
    Some(Audio {
        port: port_of(port)?,
        payloads: payloads_of(words)?,
    })
}
