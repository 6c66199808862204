//! Sends a line to a gateway's telephones, and prints what they answer.
ghost use Rattle.std.specs.Prelude.{◌≡◌};
ghost use Rattle.rgwd_words.specs.Opening.{Unanswered};
ghost use Rattle.rgwd_words.specs.Telling.{answered_by};

use crate::ending::Ending;
use crate::words::unless_help;
use live_system::{AddressWord, AskFault, CommonEnding, address_in, ask, put_printed};
use output_queues::Outlet;
use std::io::Write;
use std::net::{Net, SocketAddrV4};
use std::rt::Clock;

/// The word that asks for it, which is the first.
pub const TELL: &str = "--tell";

// No datagram has more bytes (RFC 768).
const ROOM: usize = 65_535;

// How the program ends where the line isn't answered.
fn unanswered(address: SocketAddrV4, fault: AskFault) -> Ending
    ensures { Unanswered address fault result }
{
    match fault {
        AskFault::NoAnswer => Ending::NoAnswer { address },
        AskFault::Clock => Ending::Common(CommonEnding::Clock),
        AskFault::Refused { kind } => Ending::unbound(AddressWord::Tell, address, kind),
    }
}

/// How the program ends by an answer, which is printed.
pub fn answered_by(answer: &[u8]) -> Ending
    ensures { result ≡ answered_by answer.now }
{
    if answer.starts_with(b"?") || answer.starts_with(b"!") {
        Ending::Refused
    } else {
        Ending::Answered
    }
}

/// Sends the line that the words behind `--tell` say to the telephones at the address that they name, where no socket has port 0, and
/// prints the answer at this outlet: how the program ends by that.
pub fn tell_line<R: AllocGlobal + Net + Clock, F: Write + Drop>(
    rt: &R,
    words: &[String],
    output: &mut Outlet<F>,
) -> Ending {
    let (Some(word), Some(line)) = (words.first(), words.get(1..)) else {
        return Ending::Common(CommonEnding::Usage);
    };
    let word = match unless_help(word.as_str()) {
        Ok(word) => word,
        Err(ending) => return ending,
    };
    let address = match address_in(AddressWord::Tell, word) {
        Ok(address) if address.port() != 0 => address,
        _ => {
            return Ending::Common(CommonEnding::BadAddress {
                word: AddressWord::Tell,
            });
        }
    };
    let alloc = rt.alloc();
    let Ok(line) = line.join(alloc, " ") else {
        return Ending::Common(CommonEnding::OutOfMemory);
    };
    if line.as_str().trim_ascii().is_empty() {
        return Ending::Common(CommonEnding::Usage);
    }
    let Ok(mut room) = vec![in alloc; 0u8; ROOM] else {
        return Ending::Common(CommonEnding::OutOfMemory);
    };
    match ask(rt, address, line.as_bytes(), &mut room) {
        Ok(()) => {}
        Err(fault) => return unanswered(address, fault),
    }
    let mut text = Vec::new(alloc);
    if put_printed(alloc, &mut text, room.as_slice()).is_err() {
        return Ending::Common(CommonEnding::OutOfMemory);
    }
    output.say(text.as_slice());
    answered_by(room.as_slice())
}
