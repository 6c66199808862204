//! Two UDP sockets of this host, one the call agent's and one the gateway's.
ghost use Rattle.std.specs.Prelude.{◌≡◌, IfOk};

use gateway_core::WireFault;
use rgw_scripts::Link;
use std::alloc::Global;
use std::net::{Ipv4Addr, Net, SocketAddrV4, UdpSocket};
use std::time::Duration;

// How long a socket may give nothing, in ms.
const LONGEST_WAIT: u64 = 1000;

// No datagram has more bytes (RFC 768).
const LARGEST_UDP_DATAGRAM: usize = 65_535;

/// Two sockets on 127.0.0.1, each of which takes from the other alone. Datagrams go one after the other: at most one is on
/// its way.
///
/// A datagram of more bytes than UDP has room for, 65,507, is a fault, and so is one that isn't there after 1,000 ms or
/// arrives otherwise than it was sent.
#[derive(Drop)]
pub struct Sockets {
    agent: UdpSocket,
    gateway: UdpSocket,
    room: Vec<u8>,
}

/// Why there are no sockets.
#[derive(Clone, Copy)]
pub enum BindFault {
    /// Memory was refused.
    OutOfMemory,
    /// The host refuses one, as where the port is taken.
    Wire,
}

// A socket at this port, or any free one where that is 0; nothing where the host refuses one.
fn bound<R: Net>(rt: &R, port: u16) -> Option<UdpSocket> {
    let socket = UdpSocket::bind(rt, SocketAddrV4::new(Ipv4Addr::LOCALHOST, port)).ok()?;
    socket
        .set_read_timeout(Some(Duration::from_millis(LONGEST_WAIT)))
        .ok()?;
    Some(socket)
}

// Whether a socket takes from the other alone from now on.
fn is_connected(socket: &UdpSocket, other: &UdpSocket) -> bool {
    match other.local_addr() {
        Ok(address) => socket.connect(address).is_ok(),
        Err(_) => false,
    }
}

// Sends bytes from one socket to the other, and gives those that arrive.
fn carry<'a>(
    from: &UdpSocket,
    to: &UdpSocket,
    room: &'a mut [u8],
    bytes: &[u8],
) -> Result<&'a [u8], WireFault>
    ensures { IfOk result (λ arrived. arrived.now ≡ bytes.now) }
{
    match from.send(bytes) {
        Ok(sent) if sent == bytes.len() => {}
        _ => return Err(WireFault),
    }
    let Ok(len) = to.recv(room) else {
        return Err(WireFault);
    };
    let arrived = &room[..len];
    if arrived != bytes {
        return Err(WireFault);
    }
    Ok(arrived)
}

impl Sockets {
    /// Binds both; the gateway's has this port, or any free one where it is 0.
    pub fn bind<R: Net>(alloc: Global, rt: &R, port: u16) -> Result<Sockets, BindFault> {
        let Ok(room) = vec![in alloc; 0u8; LARGEST_UDP_DATAGRAM] else {
            return Err(BindFault::OutOfMemory);
        };
        let Some(gateway) = bound(rt, port) else {
            return Err(BindFault::Wire);
        };
        let Some(agent) = bound(rt, 0) else {
            return Err(BindFault::Wire);
        };
        if !is_connected(&agent, &gateway) || !is_connected(&gateway, &agent) {
            return Err(BindFault::Wire);
        }
        Ok(Sockets {
            agent,
            gateway,
            room,
        })
    }
}

impl Link for Sockets {
    type Fault = WireFault;

    fn to_gateway<'a>(&'a mut self, bytes: &'a [u8]) -> Result<&'a [u8], WireFault> {
        carry(&self.agent, &self.gateway, &mut self.room, bytes)
    }

    fn to_agent<'a>(&'a mut self, bytes: &'a [u8]) -> Result<&'a [u8], WireFault> {
        carry(&self.gateway, &self.agent, &mut self.room, bytes)
    }
}
