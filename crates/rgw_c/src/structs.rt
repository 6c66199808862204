//! What is told by the field: `include/rgw.h` has these structs with the same fields in the same order.

/// A datagram that is to be sent: when (in ms), and where to. A host is a number in the machine's order.
#[repr(C)]
#[derive(Clone, Copy)]
pub struct Output {
    pub moment: u64,
    pub host: u32,
    pub port: u16,
}

/// A message that was sent: when (in ms), where to, its transaction id, whose it is and of which line, what it is, the return code of
/// an answer, the verb of a command, and which send of it this is.
#[repr(C)]
#[derive(Clone, Copy)]
pub struct Message {
    pub moment: u64,
    pub host: u32,
    pub id: u32,
    pub port: u16,
    pub whose: u16,
    pub line: u16,
    pub what: u16,
    pub code: u16,
    pub verb: u16,
    pub send: u16,
}

/// What a text was that came: what of it is at fault, and which parameter line or parameter that is (by its letter), its transaction id,
/// its verb, what it got, and the return code of the answer; 0 where there is no such thing.
#[repr(C)]
#[derive(Clone, Copy)]
pub struct OutcomeTold {
    pub place: u64,
    pub id: u32,
    pub came: u16,
    pub verb: u16,
    pub got: u16,
    pub code: u16,
    pub fault: u16,
}

/// A command of the gateway's own that was given up: when (in ms), its transaction id, of which line, and its verb.
#[repr(C)]
#[derive(Clone, Copy)]
pub struct GivenUpTold {
    pub moment: u64,
    pub id: u32,
    pub line: u16,
    pub verb: u16,
}

/// An active signal, by its place in the table from 1, and whether a time ends it: then that moment (in ms), else 0.
#[repr(C)]
#[derive(Clone, Copy)]
pub struct SignalTold {
    pub end: u64,
    pub signal: u16,
    pub ends: u16,
}

/// A connection: its number, its mode, the time of a packet (in ms), where the gateway receives, where it sends once that is known (else
/// all is 0), and its payload types in force: how many, the first, and the last.
#[repr(C)]
#[derive(Clone, Copy)]
pub struct ConnectionTold {
    pub number: u32,
    pub local_host: u32,
    pub remote_host: u32,
    pub local_port: u16,
    pub remote_port: u16,
    pub is_remote_known: u16,
    pub mode: u16,
    pub packet_time: u16,
    pub payloads: u16,
    pub first_payload: u16,
    pub last_payload: u16,
}
