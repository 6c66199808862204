//! Who may speak to a gateway, whom it hears, and who may type.
ghost use Rattle.std.specs.Prelude.{◌≡◌, ◌++◌, OnOk, IfOk};
ghost use Rattle.endpoint_names.specs.Route.{addresses};
ghost use Rattle.live_io.specs.Speaking.{admitted_by};
ghost use Rattle.live_gateway.specs.Admitting.{hosts_of, known_hosts, known_to, is_sent_by, is_heard};

use endpoint_names::Route;
use live_io::Speakers;
use plain_machine::Setup;
use std::alloc::{AllocError, Global};
use std::net::{Ipv4Addr, SocketAddrV4};

/// Whom a gateway hears, and whether its telephones are open to other machines.
pub struct Admission {
    /// Who may speak to it.
    pub speakers: Speakers,
    /// The addresses of its own sockets, from which it hears nothing.
    pub own: [SocketAddrV4; 2],
    pub are_phones_open: bool,
}

// Written out: a derived drop, and those of all its parts, are proved anew by each crate that lets one go.
impl Drop for Admission {
    fn drop(self) {
        let Admission {
            speakers,
            own: _,
            are_phones_open: _,
        } = self;
        drop(speakers);
    }
}

// Whether what has this sender came from the socket here, as far as its address tells: no other machine can send from 127.0.0.0/8
// (RFC 1122, 3.2.1.3).
fn is_sent_by(sender: SocketAddrV4, own: SocketAddrV4) -> bool
    ensures { result ≡ is_sent_by sender own }
{
    let own_octets = own.ip().octets();
    let octets = sender.ip().octets();
    let here = own_octets.as_slice();
    let there = octets.as_slice();
    own.port() == sender.port()
        && (here == there
            || (here == [0u8, 0, 0, 0].as_slice() && there.starts_with([127u8].as_slice())))
}

impl Admission {
    /// Whether a datagram that has this sender is heard: it can be answered, who sent it may speak, and it isn't the gateway itself.
    pub fn hears(&self, source: SocketAddrV4) -> bool
        ensures { result ≡ is_heard self.now source }
    {
        let [gateway, telephones] = self.own;
        0 < source.port()
            && !is_sent_by(source, gateway)
            && !is_sent_by(source, telephones)
            && self.speakers.hears(*source.ip())
    }
}

// The addresses of a receiver, without its port.
fn hosts_of(route: &Route<SocketAddrV4>) -> Route<Ipv4Addr>
    ensures { result ≡ hosts_of route.now }
{
    match route {
        Route::One(a) => Route::One(*a.ip()),
        Route::Two(a, b) => Route::Two(*a.ip(), *b.ip()),
        Route::Three(a, b, c) => Route::Three(*a.ip(), *b.ip(), *c.ip()),
        Route::Four(a, b, c, d) => Route::Four(*a.ip(), *b.ip(), *c.ip(), *d.ip()),
    }
}

// Puts the addresses of a receiver behind these.
fn put_route(hosts: &mut Vec<Ipv4Addr>, route: Route<Ipv4Addr>) -> Result<(), AllocError>
    ensures { OnOk result (hosts.new.items ≡ hosts.old.items ++ addresses route) }
{
    match route {
        Route::One(a) => hosts.extend_from_slice(&[a]),
        Route::Two(a, b) => hosts.extend_from_slice(&[a, b]),
        Route::Three(a, b, c) => hosts.extend_from_slice(&[a, b, c]),
        Route::Four(a, b, c, d) => hosts.extend_from_slice(&[a, b, c, d]),
    }
}

/// The addresses that a gateway of this setup knows, in their order: those of its agent, and those of all hosts that its configuration
/// names. Its only error is want of memory.
pub(crate) fn known_hosts(alloc: Global, setup: &Setup) -> Result<Vec<Ipv4Addr>, AllocError>
    ensures { IfOk result (λ known. known.items ≡ known_hosts setup.now) }
{
    let mut known = Vec::new(alloc);
    put_route(&mut known, hosts_of(&setup.agent.route))?;
    for host in setup.names.table.hosts() {
        put_route(&mut known, host.route)?;
    }
    Ok(known)
}

/// Those who may speak to a gateway that is set up so, where no word says another: its agent, and all hosts that its configuration
/// names, from any port. Its only error is want of memory.
pub fn speakers_of(alloc: Global, setup: &Setup) -> Result<Speakers, AllocError>
    ensures { IfOk result (λ speakers. admitted_by speakers ≡ known_to setup.now) }
{
    let known = known_hosts(alloc, setup)?;
    let mut speakers = Speakers::nobody(alloc);
    for host in known.as_slice() {
        speakers.admit(*host)?;
    }
    Ok(speakers)
}
