//! The site as a program sees it: by what it does, and not by what it is made of.
//!
//! A library hands on, with a type that it shows, all that the type's private fields are made of, and its check pays for that: here
//! sockets and a server of HTTP. So the site isn't shown. A program is told of it as of some type that receives visitors.
ghost use Rattle.std.specs.Prelude.{◌≡◌, IfOk};
ghost use Rattle.page_http.specs.Naming.{names_of};

use crate::site::Site;
use live_system::Readiness;
use page_http::HostNames;
use page_state::Board;
use std::alloc::Global;
use std::io;
use std::net::{Net, SocketAddrV4};
use std::random::RandomSource;

/// Who receives the visitors of a page.
pub trait Reception: Drop {
    ghost use Rattle.std.specs.Prelude.{ℕ, Bool, List, Option};
    ghost use Rattle.std.specs.declared.net.socket_addr.SocketAddrV4.{SocketAddrV4};
    ghost use Rattle.live_system.specs.declared.readiness.Readiness.{Readiness};
    ghost use Rattle.page_state.specs.BoardShowing.{BoardState};

    /// Nobody is there yet, and it may be asked under these further names.
    ghost opens: { List (List ℕ) → Self → Type 0 };

    /// Its socket is at this address, where that is known.
    ghost placed: { Self → Option SocketAddrV4 };

    /// A visitor has more to do at once, or somebody may have come.
    ghost busy: { Self → Bool };

    /// The system refused to let somebody in for want of files, and nobody was let in since.
    ghost full: { Self → Bool };

    /// The moment at which somebody's time is over, or the system is asked again for whom it refused, in ms, if there is one.
    ghost closes: { Self → Option ℕ };

    /// It had a turn at this moment, in ms, and a visitor was answered by this board, if one was.
    ghost serves: { Self → Readiness → BoardState → ℕ → Self → Readiness → BoardState → Type 0 };

    /// At this address, and under these further names; its sockets are watched from now on.
    fn at<R: Net>(
        rt: &R,
        alloc: Global,
        address: SocketAddrV4,
        names: HostNames,
        ready: &Readiness,
    ) -> io::Result<Self>
        ensures { IfOk result (λ site. opens (names_of names) site) };

    /// The address of its socket, where that is known.
    fn address(&self) -> Option<SocketAddrV4>
        ensures { result ≡ placed self.now };

    /// Whether a visitor has more to do at once, or somebody may have come.
    fn is_busy(&self) -> bool
        ensures { result ≡ busy self.now };

    /// Whether the system refused to let somebody in for want of files, and nobody was let in since.
    fn is_full(&self) -> bool
        ensures { result ≡ full self.now };

    /// The moment at which somebody's time is over, or the system is asked again for whom it refused, in ms.
    fn next_deadline(&self) -> Option<u64>
        ensures { result ≡ closes self.now };

    /// A turn: those whose time is over go, somebody is let in, and one who has more to do is answered by this board.
    fn serve<R: RandomSource>(&mut self, rt: &R, ready: &mut Readiness, board: &mut Board, now: u64)
        ensures { serves self.old ready.old board.old now self.new ready.new board.new };
}

/// A program that has a page.
pub trait PageProgram {
    /// Runs it, where visitors of its page are received so, and gives its exit status.
    fn run<P: Reception>(&self) -> u8;
}

/// Runs a program whose page is at a socket of this machine, and gives its exit status.
pub fn run_with_site<W: PageProgram>(program: &W) -> u8 {
    program.run::<Site>()
}
