//! The system, as the live programs have it: clock, sockets and signals, files of records, how a program begins and ends, and the words of a
//! command line.
//!
//! Nothing of MGCP is known here. It implements what the loops ask of their surroundings, and alone touches the system. `rgwd`, `rgca` and the
//! page's server stand on it.
#![tactic(auto)]

mod address_words;
mod addresses;
mod asking;
mod clock;
mod day;
mod ending;
pub mod ending_examples;
mod files;
mod live;
mod network_faults;
mod parting;
mod printing;
mod program;
mod readiness;
mod reading;
mod standing;
pub mod system_examples;
mod system_signals;
mod table;
mod values;
mod waiting;
pub mod word_examples;
mod wording;

pub use crate::address_words::AddressWord;
pub use crate::addresses::address_in;
pub use crate::asking::{AskFault, ask};
pub use crate::clock::{LiveClock, time_of_day};
pub use crate::day::DayWatch;
pub use crate::ending::{About, CommonEnding, FileNames, VERSION, network_in};
pub use crate::files::read_file;
pub use crate::live::{Live, SocketWanted};
pub use crate::parting::{CaptureFiles, Parting};
pub use crate::printing::put_printed;
pub use crate::program::{begin, end, open_capture};
pub use crate::readiness::{MOST_VISITORS, Readiness, Visit, may_have_more};
pub use crate::reading::matches_in;
pub use crate::table::Kind;
pub use crate::values::{address_behind, moment_behind};
pub use crate::waiting::longest_wait;
pub use crate::wording::{put_around, put_pieces};
