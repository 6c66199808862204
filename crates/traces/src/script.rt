//! A trace that is written while its gateway runs: what came in, as lines that can be played again, and behind it what that showed.
//!
//! Ticks at which nothing was sent are told together, with what follows them.
ghost use Rattle.std.specs.Prelude.{◌≡◌, ◌++◌, codes, decimal};
ghost use Rattle.rgw_scripts.specs.Printing.{printed_line};
ghost use Rattle.rgw_scripts.specs.Moves.{sends};
ghost use Rattle.traces.specs.Telling.{told_text};
ghost use Rattle.traces.specs.Writing.{hex_text, datagram_text, clock_text, at_clock, pass_text, caught_up, passed_to, tick_text, after_tick, input_text, arrived, typed, opening_script};

use crate::telling::{put_outputs, put_shown};
use log_format::put_peer;
use mg_bytes::{Draft, hex_digit};
use plain_machine::OutDatagram;
use std::net::SocketAddrV4;

// A tick goes on by no more than this, in ms.
const LONGEST_STEP: u64 = 1000;

fn put_hex(out: &mut Draft, bytes: &[u8])
    ensures { out.new ≡ out.old ++ hex_text bytes.now }
{
    for byte in bytes {
        out.put(&[hex_digit(*byte / 16), hex_digit(*byte % 16)]);
    }
}

// The lines of a datagram. A `raw` can't say the empty one.
#[tactic(auto, unfolding(crate::specs::Writing::datagram_text))]
fn put_datagram(out: &mut Draft, source: SocketAddrV4, bytes: &[u8])
    ensures { out.new ≡ out.old ++ datagram_text source bytes.now }
{
    if bytes.is_empty() {
        out.put(b"from ");
        put_peer(out, source);
        out.put(b"\n--\n");
        return;
    }
    out.put(b"raw ");
    put_peer(out, source);
    out.put(b" ");
    put_hex(out, bytes);
    out.put(b"\n");
}

// The line of a moment.
fn put_moment(out: &mut Draft, moment: u64)
    ensures { out.new ≡ out.old ++ (codes "at " ++ decimal moment ++ codes "\n") }
{
    out.put(b"at ");
    out.put_decimal(moment);
    out.put(b"\n");
}

/// The clock of a trace: the moment that its script has come to, and the one that its gateway has, in ms. Where memory is refused for what
/// was put the trace is broken off.
#[derive(Clone, Copy)]
pub struct Script {
    told: u64,
    clock: u64,
}

impl Script {
    /// At the start both are 0.
    pub fn starting() -> Script
        ensures { result ≡ opening_script }
    {
        Script { told: 0, clock: 0 }
    }

    /// Puts the moment that the gateway has come to, where the script isn't there yet: so a trace ends.
    pub fn put_clock(&mut self, out: &mut Draft)
        ensures text { out.new ≡ out.old ++ clock_text self.old }
        ensures script { self.new ≡ at_clock self.old }
    {
        if self.told != self.clock {
            put_moment(out, self.clock);
        }
        self.told = self.clock;
    }

    // Where a moment is too far for one tick of the script, its clock goes on before.
    fn catch_up(&mut self, out: &mut Draft, moment: u64)
        ensures text { out.new ≡ out.old ++ pass_text self.old moment }
        ensures script { self.new ≡ caught_up self.old moment }
    {
        if moment.saturating_sub(self.told) > LONGEST_STEP {
            self.put_clock(out);
        }
    }

    // The gateway's clock goes to a moment.
    fn pass(&mut self, out: &mut Draft, moment: u64)
        ensures text { out.new ≡ out.old ++ pass_text self.old moment }
        ensures script { self.new ≡ passed_to self.old moment }
    {
        self.catch_up(out, moment);
        self.clock = moment;
    }

    /// Puts a tick to a moment, in ms, and what the gateway sent at it. One at which it sent nothing is put later.
    pub fn put_tick(&mut self, out: &mut Draft, moment: u64, sent: &[OutDatagram])
        ensures text { out.new ≡ out.old ++ tick_text self.old moment sent.now }
        ensures script { self.new ≡ after_tick self.old moment sent.now }
    {
        self.pass(out, moment);
        if sent.is_empty() {
            return;
        }
        self.put_clock(out);
        put_outputs(out, sent);
    }

    /// Puts a datagram that came, and what the gateway sent at it.
    #[tactic(auto, unfolding(crate::specs::Telling::told))]
    pub fn put_datagram(
        &mut self,
        out: &mut Draft,
        source: SocketAddrV4,
        bytes: &[u8],
        sent: &[OutDatagram],
    )
        ensures text { out.new ≡ out.old ++ input_text self.old (arrived source bytes.now) (sends sent.now) }
        ensures script { self.new ≡ at_clock self.old }
    {
        self.put_clock(out);
        put_datagram(out, source, bytes);
        put_outputs(out, sent);
    }

    // Puts a line for the telephones.
    fn put_typed(&mut self, out: &mut Draft, line: &[u8])
        ensures text { out.new ≡ out.old ++ (clock_text self.old ++ printed_line line.now) }
        ensures script { self.new ≡ at_clock self.old }
    {
        self.put_clock(out);
        out.put(line);
        out.put_byte(b'\n');
    }

    /// Puts a line for the telephones by which something was done, and what the gateway sent at it.
    #[tactic(auto, unfolding(crate::specs::Telling::told))]
    pub fn put_act(&mut self, out: &mut Draft, line: &[u8], sent: &[OutDatagram])
        ensures text { out.new ≡ out.old ++ input_text self.old (typed line.now) (sends sent.now) }
        ensures script { self.new ≡ at_clock self.old }
    {
        self.put_typed(out, line);
        put_outputs(out, sent);
    }

    /// Puts a line for the telephones and what was answered, as it is printed: why an act was refused, or what a line is.
    pub fn put_answered(&mut self, out: &mut Draft, line: &[u8], printed: &[u8])
        ensures text { out.new ≡ out.old ++ (clock_text self.old ++ printed_line line.now ++ told_text printed.now) }
        ensures script { self.new ≡ at_clock self.old }
    {
        self.put_typed(out, line);
        put_shown(out, printed);
    }
}
