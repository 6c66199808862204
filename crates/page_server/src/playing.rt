//! A visitor who is played: a request is answered over a connection of its own, where no socket is.
ghost use Rattle.std.specs.Prelude.{◌≡◌};
ghost use Rattle.page_http.specs.Naming.{names_of};
ghost use Rattle.page_server.specs.Visiting.{AnswersBy};

use crate::desk::Desk;
use http_server::{Config, Connection, serve};
use page_http::HostNames;
use page_state::Board;
use std::alloc::Global;
use std::hash::RandomState;
use std::io;
use std::net::SocketAddrV4;

// Answers a request, behind which nothing more comes, and puts what was answered.
fn answer(
    alloc: Global,
    keys: RandomState,
    desk: &mut Desk<'_>,
    request: &[u8],
    out: &mut Vec<u8>,
) -> io::Result<()>
    ensures same_reference { desk.new.board.ghost_name ≡ desk.old.board.ghost_name }
    ensures answered { AnswersBy desk.old.site (names_of desk.old.names.now) desk.old.board.now desk.new.board.now }
{
    let mut connection = Connection::new(alloc, keys, Config::default());
    let mut reader = request;
    let served = serve(&mut connection, desk, &mut reader, out);
    // Its own crate takes it apart, as that of a visitor at a socket.
    let (unread, pending) = connection.into_buffers();
    drop(unread);
    drop(pending);
    served
}

/// What the page at this address, and under these further names, answers to a request by a board, for who plays visitors in memory.
/// `keys` needn't be secret there.
pub fn answer_to(
    alloc: Global,
    keys: RandomState,
    site: SocketAddrV4,
    names: &HostNames,
    board: &mut Board,
    request: &[u8],
) -> io::Result<Vec<u8>>
    ensures { AnswersBy site (names_of names.now) board.old board.new }
{
    let mut desk = Desk {
        alloc,
        site,
        names,
        board,
    };
    let mut out = Vec::new(alloc);
    match answer(alloc, keys, &mut desk, request, &mut out) {
        Ok(()) => Ok(out),
        Err(fault) => Err(fault),
    }
}
