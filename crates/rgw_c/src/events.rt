//! What comes to a gateway, as C gives it.
ghost use Rattle.std.specs.Prelude.{◌≡◌, ◌≢◌, nat_lt, true, length, IfSome, IsSomeAnd, None};
ghost use Rattle.transmission.specs.Texts.{largest_datagram};
ghost use Rattle.plain_machine.specs.Event.{event_of, datagram, phone, tick};
ghost use Rattle.rgw_c.specs.Acts.{act_in};
ghost use Rattle.rgw_c.specs.Stepping.{source_at, TookIn, Stayed, EndsIn, PassesOver};

use crate::acts::act_in;
use crate::handle::{Handle, put, take};
use crate::numbers::{BAD_ACT, NOT_OPEN, OK};
use gateway_core::Event;
use std::alloc::Global;
use std::net::{Ipv4Addr, SocketAddrV4};

fn source_at(host: u32, port: u16) -> SocketAddrV4
    ensures { result ≡ source_at host port }
{
    SocketAddrV4::new(Ipv4Addr::from_octets(host.to_be_bytes()), port)
}

// One event at what a handle holds.
fn step(alloc: Global, handle: &mut Handle, event: Event<'_>) -> u32
    ensures ok { result ≡ OK → TookIn handle.old.held (event_of event.entry) handle.new.held }
    ensures stayed { result ≢ OK → Stayed handle.old.held handle.new.held }
    ensures ends { EndsIn handle.old.held (event_of event.entry) result }
{
    let Some(mut instance) = take(handle, alloc) else {
        return NOT_OPEN;
    };
    let number = instance.step(event);
    put(handle, alloc, instance);
    number
}

/// A datagram came from this address, whose host is a number in the machine's order: 127.0.0.1 is 0x7F000001. One of more than
/// `LARGEST_DATAGRAM` bytes does nothing, and is never refused; another is refused for want of memory alone.
#[tactic(auto, using(crate::proofs::LongLemmas::passed))]
#[unsafe(no_mangle)]
pub extern "C" fn rgw_datagram_nonnull(
    alloc: Global,
    handle: &mut Handle,
    host: u32,
    port: u16,
    bytes: &[u8],
) -> u32
    ensures ok { result ≡ OK → TookIn handle.old.held (datagram (source_at host port) bytes.now) handle.new.held }
    ensures stayed { result ≢ OK → Stayed handle.old.held handle.new.held }
    ensures ends { EndsIn handle.old.held (datagram (source_at host port) bytes.now) result }
    ensures long { nat_lt largest_datagram (length bytes.now) ≡ true → PassesOver handle.old.held result handle.new.held }
{
    let source = source_at(host, port);
    step(alloc, handle, Event::Datagram { source, bytes })
}

/// An act at the telephone of a line, from 1: 1 is off hook, 2 on hook, 3 a flash, and a key has its sign in ASCII.
#[unsafe(no_mangle)]
pub extern "C" fn rgw_phone_nonnull(alloc: Global, handle: &mut Handle, line: u16, act: u32) -> u32
    ensures ok { result ≡ OK → IsSomeAnd (act_in act) (λ act. TookIn handle.old.held (phone line act) handle.new.held) }
    ensures stayed { result ≢ OK → result ≢ BAD_ACT → Stayed handle.old.held handle.new.held }
    ensures ends { IfSome (act_in act) (λ act. EndsIn handle.old.held (phone line act) result) }
    ensures no_act { act_in act ≡ None → result ≡ BAD_ACT }
    ensures no_change { act_in act ≡ None → handle.new.held ≡ handle.old.held }
{
    let Some(act) = act_in(act) else {
        return BAD_ACT;
    };
    step(alloc, handle, Event::Phone { line, act })
}

/// The clock: it is this moment, in ms from 0, at most 1,000 ms past that of the tick before it.
#[unsafe(no_mangle)]
pub extern "C" fn rgw_tick_nonnull(alloc: Global, handle: &mut Handle, moment: u64) -> u32
    ensures ok { result ≡ OK → TookIn handle.old.held (tick moment) handle.new.held }
    ensures stayed { result ≢ OK → Stayed handle.old.held handle.new.held }
    ensures ends { EndsIn handle.old.held (tick moment) result }
{
    step(alloc, handle, Event::Tick { moment })
}
