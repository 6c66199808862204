//! The log of a gateway, for people: a line a message, and a line for what is to be noted beside them.
//!
//! ```text
//! 2026-11-27T12:03:07.123Z 10.0.0.7:2727 > RQNT 1207 aaln/1 X: A1 R: L/hd(N) S: L/rg
//! 2026-11-27T12:03:07.123Z 10.0.0.7:2727 < 200 1207 OK +0 ms
//! 2026-11-27T12:03:07.620Z 10.0.0.7:2727 ! repeat of 1207, answered again
//! ```
//!
//! Each line begins with the date and the time of day, in UTC, and the other end's address. `>` is what it sent, `<` what it was
//! sent, `!` what is noted; of the program itself without an address. All that comes from a datagram is escaped: a line has
//! printable ASCII alone. What happened is told by who calls; nothing here reads a clock or knows what came before.
//!
//! A capture file has datagrams as packets that tshark, Wireshark and tcpdump read, in the classic format of pcap: each as
//! an IPv4 packet with a UDP header, and the moment at which it went. It is put together as bytes; nothing here opens one.
#![tactic(auto)]

mod calendar;
pub mod capture_examples;
pub mod capture_laws;
mod checksum;
mod escaping;
pub mod examples;
mod file;
mod grouping;
mod header;
mod host;
pub mod laws;
mod logging;
mod messages;
mod note;
mod octets;
mod packet;
mod pausing;
mod stamp;
mod time;

pub use crate::escaping::{put_shown, write_shown};
pub use crate::file::{put_head, put_packet};
pub use crate::grouping::write_number;
pub use crate::host::{put_host, put_peer};
pub use crate::logging::{put_given_up, put_message, put_note, put_notice, put_refused};
pub use crate::note::{Note, Notice};
pub use crate::packet::Packet;
pub use crate::pausing::put_pause;
pub use crate::stamp::{Stamp, Way};
