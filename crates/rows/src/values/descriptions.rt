//! Calls about session descriptions.
use crate::texts::is_word;
use scenario_files::{Outcome, parted};
use sdp_subset::{Origin, Session, read_sdp, write_sdp};

// Where a stream is received, and its payload types.
fn put_offered(given: &mut Outcome, session: &Session) {
    given.put_shown(session.address);
    given.put_behind(b":", session.port);
    for payload in session.payloads.as_slice() {
        given.put_behind(b" ", *payload);
    }
    if session.origin.is_some() || session.ptime.is_some() {
        given.put(b" of its own");
    }
}

// The number of an origin, its version and a packet time: `1 2 20`.
fn set_own(session: &mut Session, numbers: &str) {
    let (number, rest) = parted(numbers, " ");
    let (version, ptime) = parted(rest, " ");
    session.origin = Some(Origin {
        number: number.parse::<u32>().unwrap_or(0),
        version: version.parse::<u32>().unwrap_or(0),
    });
    session.ptime = Some(ptime.parse::<u16>().unwrap_or(0));
}

/// Puts what a call gives; no where there is no such call here.
pub fn put_answer(given: &mut Outcome, call: &str, value: &[u8]) -> bool {
    let own = call.strip_prefix("own description ");
    if own.is_none() && !is_word(call, "description") && !is_word(call, "written description") {
        return false;
    }
    match read_sdp(value) {
        Ok(session) if is_word(call, "description") => put_offered(given, &session),
        // As it is written again, with what is its own where that is given.
        Ok(mut session) => {
            if let Some(numbers) = own {
                set_own(&mut session, numbers);
            }
            given.put_text(write_sdp(given.alloc, &session));
        }
        Err(_) => given.put(b"refused"),
    }
    true
}
