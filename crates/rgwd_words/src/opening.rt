//! What is opened as the words ask: sockets, under which further names a page is asked for, and which address a capture tells.
ghost use Rattle.std.specs.Prelude.{◌≡◌, ◌<◌, Some, IfOk, IfErr};
ghost use Rattle.std.specs.Net.Socket.{v4_port};
ghost use Rattle.page_http.specs.Naming.{names_of};
ghost use Rattle.rgwd_words.specs.Opening.{names_asked, RefusesNames, TellsPlace, TellsSocket};

use crate::starting::Begun;
use crate::words::{ListFault, Settings, hosts_in};
use live_system::{AddressWord, CommonEnding, Live, SocketWanted};
use page_http::HostNames;
use std::alloc::Global;
use std::net::{Ipv4Addr, Net, SocketAddrV4};
use std::rt::Clock;
use std::thread::sleep;
use std::time::Duration;

/// The sockets that are asked for, and the clock. They are opened once its number is another start's no more.
pub fn open_sockets<'a, R: Net + Clock>(
    rt: &'a R,
    alloc: Global,
    settings: &Settings<'_>,
    begun: Begun,
) -> Result<Box<Live<'a, R>>, CommonEnding> {
    sleep(rt, Duration::from_millis(begun.rest));
    let datagrams = SocketWanted {
        word: AddressWord::Listen,
        address: settings.sockets.listen,
    };
    let lines = SocketWanted {
        word: AddressWord::Phones,
        address: settings.sockets.phones,
    };
    Live::open(rt, alloc, datagrams, lines)
}

/// The further names under which the page may be asked.
pub fn page_names(alloc: Global, settings: &Settings<'_>) -> Result<HostNames, ListFault>
    ensures named { IfOk result (λ names. names_asked settings.now.sockets.http_hosts ≡ Some (names_of names)) }
    ensures refused { IfErr result (λ fault. RefusesNames settings.now.sockets.http_hosts fault) }
{
    match settings.sockets.http_hosts {
        Some(text) => hosts_in(alloc, text),
        None => Ok(HostNames::none(alloc)),
    }
}

// Where the socket for commands is: where that doesn't tell where it is, it is where it was to be.
fn place_of(own: SocketAddrV4, wanted: SocketAddrV4) -> SocketAddrV4
    ensures untold { v4_port own ≡ 0 → result ≡ wanted }
    ensures told { 0 < v4_port own → result ≡ own }
{
    if own.port() == 0 { wanted } else { own }
}

// The address that a capture tells of the gateway, whose socket is there: that of its media where the socket is at any address of
// the machine, since no datagram comes from 0.0.0.0.
fn captured_address(socket: SocketAddrV4, media: Ipv4Addr) -> SocketAddrV4
    ensures { TellsPlace socket media result }
{
    if socket.ip().is_unspecified() {
        SocketAddrV4::new(media, socket.port())
    } else {
        socket
    }
}

/// The address that a capture tells of a gateway whose socket for commands is at the first address, or, where it doesn't tell where it is,
/// was to be at the second one, and whose media is at this one.
pub fn captured_at(own: SocketAddrV4, wanted: SocketAddrV4, media: Ipv4Addr) -> SocketAddrV4
    ensures { TellsSocket own wanted media result }
{
    let socket = place_of(own, wanted);
    captured_address(socket, media)
}
