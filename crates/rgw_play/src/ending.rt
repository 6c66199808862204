//! How the program ends: its status, and its line on standard error.
ghost use Rattle.std.specs.Prelude.{◌≡◌};
ghost use Rattle.rgw_play.specs.Ending.{status_of};

use rgw_scripts::{PlayFault, name_of_config_fault};
use std::fmt;

/// How the program ends.
#[derive(Clone, Copy)]
pub enum Ending {
    /// The script was played.
    Played,
    /// The words of the command line are other words.
    Usage,
    /// The input was not played, or not to its end.
    Fault(PlayFault),
    /// A socket failed.
    WireFault,
}

impl Ending {
    /// The exit status: 0 played, 1 the input is refused, 2 other words, 3 memory, a stream or a socket.
    pub fn status(self) -> u8
        ensures { result ≡ status_of self }
    {
        match self {
            Ending::Played => 0,
            Ending::Fault(PlayFault::Config { .. } | PlayFault::Script { .. }) => 1,
            Ending::Usage => 2,
            Ending::Fault(PlayFault::OutOfMemory | PlayFault::Read | PlayFault::Write)
            | Ending::WireFault => 3,
        }
    }
}

// What is written on standard error: a line, or nothing where the script was played.
impl fmt::Display for Ending {
    ghost use Rattle.std.specs.Prelude.{Some};
    ghost use Rattle.rgw_play.specs.Ending.{error_text};

    ghost output = { λ ending. Some (error_text ending) };

    #[tactic(auto, unfolding(crate::specs::Ending::error_text))]
    fn fmt<W: fmt::Write>(&self, f: &mut fmt::Formatter<W>) -> fmt::Result {
        match *self {
            Ending::Played => Ok(()),
            Ending::Usage => writeln!(f, "usage: rgw simulate | rgw loopback [--port N]"),
            Ending::Fault(PlayFault::Config { number }) => {
                let name = name_of_config_fault(number);
                writeln!(f, "config {number} {name}")
            }
            Ending::Fault(PlayFault::Script { line }) => writeln!(f, "script line {line}"),
            Ending::Fault(PlayFault::OutOfMemory) => writeln!(f, "out of memory"),
            Ending::Fault(PlayFault::Read) => writeln!(f, "read fault"),
            Ending::Fault(PlayFault::Write) => writeln!(f, "write fault"),
            Ending::WireFault => writeln!(f, "wire fault"),
        }
    }
}
