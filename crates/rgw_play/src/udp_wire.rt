//! A wire over one UDP socket of this host.
ghost use Rattle.std.specs.Prelude.{◌≡◌, None, IfOk};

use gateway_core::{Input, Wire, WireFault};
use std::io;
use std::net::{Net, SocketAddr, SocketAddrV4, UdpSocket};
use std::time::Duration;

/// A wire over one UDP socket, whose inputs are datagrams alone. It doesn't tell what goes over it.
#[derive(Drop)]
pub struct UdpWire {
    socket: UdpSocket,
    receive_faults: u64,
    send_faults: u64,
}

impl UdpWire {
    /// Binds a socket to this address, with any free port where its port is 0. A turn at which nothing comes for longer than
    /// `longest_wait` is a fault; there was none yet.
    pub fn bind<R: Net>(
        rt: &R,
        address: SocketAddrV4,
        longest_wait: Duration,
    ) -> io::Result<UdpWire>
        ensures receive_faults { IfOk result (λ wire. wire.receive_faults ≡ 0) }
        ensures send_faults { IfOk result (λ wire. wire.send_faults ≡ 0) }
    {
        let socket = UdpSocket::bind(rt, address)?;
        socket.set_read_timeout(Some(longest_wait))?;
        Ok(UdpWire {
            socket,
            receive_faults: 0,
            send_faults: 0,
        })
    }

    /// The address that its socket has: what the host says, of which no clause can speak.
    pub fn address(&self) -> io::Result<SocketAddr> {
        self.socket.local_addr()
    }

    /// How often it failed to give a datagram, up to 18,446,744,073,709,551,615.
    pub fn receive_faults(&self) -> u64
        ensures { result ≡ self.now.receive_faults }
    {
        self.receive_faults
    }

    /// How often it failed to send one, up to 18,446,744,073,709,551,615.
    pub fn send_faults(&self) -> u64
        ensures { result ≡ self.now.send_faults }
    {
        self.send_faults
    }
}

impl Wire for UdpWire {
    ghost log = { λ wire. record {
      given = None;
      handed = None;
      receive_faults = wire.receive_faults;
      send_faults = wire.send_faults;
    } };

    fn next(&mut self, room: &mut [u8]) -> Result<Input, WireFault> {
        match self.socket.recv_from(room) {
            Ok((len, SocketAddr::V4(source))) => Ok(Input::Datagram { source, len }),
            _ => {
                self.receive_faults = self.receive_faults.saturating_add(1);
                Err(WireFault)
            }
        }
    }

    fn send(&mut self, to: SocketAddrV4, bytes: &[u8]) -> Result<(), WireFault> {
        match self.socket.send_to(bytes, to) {
            Ok(sent) if sent == bytes.len() => Ok(()),
            _ => {
                self.send_faults = self.send_faults.saturating_add(1);
                Err(WireFault)
            }
        }
    }
}
