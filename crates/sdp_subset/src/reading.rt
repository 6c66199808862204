//! How a session description is read (RFC 3435, 3.4).
ghost use Rattle.std.specs.Prelude.{◌≡◌};
ghost use Rattle.sdp_subset.specs.Reading.{session_of, answer_of, session_read};
ghost use Rattle.sdp_subset.specs.Spelling.{Reads};

use crate::audio::audio_of;
use crate::connection::address_of;
use crate::fault::SdpFault;
use crate::field::{connection_of, is_description, next_audio};
use crate::session::Session;
use mg_bytes::lines;

#[tactic(auto, unfolding(crate::specs::Reading::session_of, crate::specs::Reading::session_with))]
fn session_of(text: &[u8]) -> Option<Session>
    ensures { result ≡ session_of text.now }
{
    if !is_description(text) {
        return None;
    }
    let mut rest = lines(text);
    let line = next_audio(&mut rest)?;
    let audio = audio_of(line)?;
    let address = address_of(connection_of(text, rest)?)?;
    Some(Session {
        origin: None,
        address,
        port: audio.port,
        payloads: audio.payloads,
        ptime: None,
    })
}

/// Reads the session that a text describes (RFC 3435, 3.4; RFC 2327, 6): without an origin and without a packet time.
///
/// Each line is a letter, `=` and text, and the first is `v=0`; empty lines at the end are dropped. Two lines are used,
/// and the others are ignored. The first that begins `m=audio` is `m=audio port RTP/AVP` and 1 to 32 payload types, with
/// a port from 0 to 65535 and payload types from 0 to 127. The first behind it that begins `c=`, before any later line
/// that begins `m=`, is `c=IN IP4 a.b.c.d`; where there is none, the first that stands before all lines that begin `m=`
/// is so. Blanks part the words.
///
/// Any other text is `NotInSubset`. It takes no memory, so it is never refused any.
pub fn read_sdp(text: &[u8]) -> Result<Session, SdpFault>
    // A session exactly where the text describes it.
    ensures reads { Reads text.now (session_read result) }
    // The same, as a function that computes (`one_reading` joins them).
    ensures value { result ≡ answer_of (session_of text.now) }
{
    match session_of(text) {
        Some(session) => Ok(session),
        None => Err(SdpFault::NotInSubset),
    }
}
