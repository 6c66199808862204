//! The site: the socket at which browsers ask for the page, and whose turn it is.
ghost use Rattle.std.specs.Prelude.{◌≡◌, ◌||◌, None, IfNone, IfOk, IfSome, IsSomeAnd, OnSome, true, map, replicate, slice_get, false};
ghost use Rattle.std.specs.IoError.{error_kind};
ghost use Rattle.live_system.specs.Looking.{no_visit};
ghost use Rattle.page_http.specs.Naming.{names_of};
ghost use Rattle.page_http.specs.Places.{place_for};
ghost use Rattle.page_server.specs.Receiving.{host_of, seat_in, visitor_in, noted_each, with_place, came_by};
ghost use Rattle.page_server.specs.Receiving.{SeatsAt, LetsIn, ServesPlace, ServesNext};
ghost use Rattle.page_server.specs.Waiting.{stays_at, is_behind, turn_from, next_turn, is_over, left_over};

use crate::desk::Desk;
use crate::reception::Reception;
use crate::visitor::Visitor;
use live_system::{MOST_VISITORS, Readiness, Visit, may_have_more};
use mio::net::{TcpListener, TcpStream};
use page_http::{HostNames, Seat, place_for};
use page_state::Board;
use std::alloc::{AllocError, Global};
use std::hash::RandomState;
use std::io;
use std::net::{Ipv4Addr, Net, SocketAddr, SocketAddrV4};
use std::random::RandomSource;

// Where the system refuses to let somebody in who has come, it is asked again so long afterwards, in ms.
const AGAIN: u64 = 100;

// By these numbers the system says that there are no more files: of this program, and at all.
const EMFILE: i32 = 24;

const ENFILE: i32 = 23;

/// What becomes of looking for somebody who comes.
#[derive(Clone, Copy)]
pub enum Came {
    /// Nobody has come.
    Nobody,
    /// Somebody may have, but the system refuses to let them in now.
    Refused,
    /// Somebody has, who is served.
    LetIn,
    /// Somebody has, who can't be served, for want of memory, or since the system refuses.
    TurnedAway,
}

/// The socket at which visitors come, and those that are there.
pub struct Site {
    alloc: Global,
    listener: TcpListener,
    // The address of its socket, where that is known.
    address: Option<SocketAddrV4>,
    // The further names under which it may be asked whether the gateway is well, and what was counted.
    names: HostNames,
    places: Vec<Option<Box<Visitor>>>,
    // Whether somebody may have come.
    may_accept: bool,
    // The moment, in ms, at which somebody may have come whom the system refused to let in.
    again: Option<u64>,
    // Whether that was for want of files.
    is_full: bool,
    // The place whose turn was last.
    last: usize,
}

// Written out: a derived drop, and those of all its parts, are proved anew by each crate that lets one go.
impl Drop for Site {
    fn drop(self) {
        let Site {
            alloc: _,
            listener,
            address: _,
            names,
            places,
            may_accept: _,
            again: _,
            is_full: _,
            last: _,
        } = self;
        drop(listener);
        drop(names);
        drop(places);
    }
}

// The address of a visitor. The site's socket hears none of another kind than its own.
fn host_of(source: SocketAddr) -> Ipv4Addr
    ensures { result ≡ host_of source }
{
    match source {
        SocketAddr::V4(source) => *source.ip(),
        SocketAddr::V6(_) => Ipv4Addr::UNSPECIFIED,
    }
}

fn is_behind(last: Option<usize>, place: usize) -> bool
    ensures { result ≡ is_behind last place }
{
    match last {
        Some(last) => last < place,
        None => true,
    }
}

// Whether the system has no more files.
fn is_full(fault: &io::Error) -> bool {
    match fault.raw_os_error() {
        Some(number) => number == EMFILE || number == ENFILE,
        None => false,
    }
}

// Whether a moment, where one is meant, is over.
fn is_over(now: u64, moment: Option<u64>) -> bool
    ensures { result ≡ is_over now moment }
{
    match moment {
        Some(moment) => moment <= now,
        None => false,
    }
}

// It is meant no longer once it is over.
fn left_over(now: u64, moment: Option<u64>) -> Option<u64>
    ensures { result ≡ left_over now moment }
{
    if is_over(now, moment) { None } else { moment }
}

// The first place behind this one, where one is meant, whose visitor has more to do.
#[tactic(auto, unfolding(crate::specs::Waiting::turn_from))]
fn turn_behind(places: &[Option<Box<Visitor>>], last: Option<usize>) -> Option<usize>
    ensures { result ≡ turn_from last 0 places.now }
{
    for (place, held) in places.iter().enumerate() {
        if is_behind(last, place)
            && let Some(visitor) = held
            && visitor.has_turn
        {
            return Some(place);
        }
    }
    None
}

// What was told of each visitor's socket, from the first place on.
#[tactic(auto, unfolding(crate::specs::Receiving::noted_each))]
fn note_visits(places: &mut [Option<Box<Visitor>>], visits: &[Visit])
    ensures { map visitor_in places.new ≡ noted_each (map visitor_in places.old) visits.now }
{
    let mut left = visits;
    for place in places.iter_mut() {
        if let Some((visit, more)) = left.split_first() {
            if let Some(visitor) = place {
                visitor.note(*visit);
            }
            left = more;
        }
    }
}

// Whoever has the place has a turn, and goes where nothing more is to be done for them.
fn serve_place(held: &mut Option<Box<Visitor>>, desk: &mut Desk<'_>, now: u64)
    ensures same_reference { desk.new.board.ghost_name ≡ desk.old.board.ghost_name }
    ensures served { ServesPlace desk.old.site (names_of desk.old.names.now) now held.old desk.old.board.now held.new desk.new.board.now }
{
    let Some(visitor) = held else {
        return;
    };
    if !visitor.turn(desk, now) {
        *held = None;
    }
}

// Nobody has any of the places.
fn free_places(alloc: Global) -> Result<Vec<Option<Box<Visitor>>>, AllocError>
    ensures { IfOk result (λ places. places.items ≡ replicate MOST_VISITORS None) }
{
    let mut places = Vec::with_capacity(alloc, MOST_VISITORS)?;
    for _ in 0..MOST_VISITORS {
        places.push(None)?;
    }
    Ok(places)
}

impl Site {
    // The next place behind the last whose visitor has more to do; behind all of them the first.
    fn next_place(&self) -> Option<usize>
        ensures { result ≡ next_turn self.now.last self.now.places.items }
    {
        let places = self.places.as_slice();
        match turn_behind(places, Some(self.last)) {
            Some(place) => Some(place),
            None => turn_behind(places, None),
        }
    }

    /// Those whose time is over go. Nor is it waited any longer for whom the system refused to let in, where that time is over.
    pub fn close_late(&mut self, now: u64)
        ensures places { self.new.places.items ≡ map (stays_at now) self.old.places.items }
        ensures last { self.new.last ≡ self.old.last }
        ensures accepting { self.new.may_accept ≡ (self.old.may_accept || is_over now self.old.again) }
        ensures again { self.new.again ≡ left_over now self.old.again }
        ensures address { self.new.address ≡ self.old.address }
        ensures listener { self.new.listener ≡ self.old.listener }
        ensures names { self.new.names ≡ self.old.names }
    {
        self.may_accept = self.may_accept || is_over(now, self.again);
        self.again = left_over(now, self.again);
        for place in self.places.iter_mut() {
            if let Some(visitor) = place
                && visitor.deadline <= now
            {
                *place = None;
            }
        }
    }

    /// What the system told of its sockets since it was asked last.
    pub fn look(&mut self, ready: &mut Readiness)
        ensures address { self.new.address ≡ self.old.address }
        ensures names { names_of self.new.names ≡ names_of self.old.names }
        ensures last { self.new.last ≡ self.old.last }
        ensures again { self.new.again ≡ self.old.again }
        ensures noted { map visitor_in self.new.places.items ≡ noted_each (map visitor_in self.old.places.items) ready.old.visits }
        ensures accepting { self.new.may_accept ≡ (self.old.may_accept || ready.old.listener) }
        ensures forgotten { ready.new ≡ record ready.old { listener = false; visits = replicate MOST_VISITORS no_visit } }
    {
        self.may_accept = self.may_accept || ready.listener;
        ready.listener = false;
        note_visits(self.places.as_mut_slice(), &ready.visits);
        ready.forget_visits();
    }

    // The place of somebody who comes from this address, by who has each place.
    fn place_for(&self, host: Ipv4Addr) -> Result<Option<usize>, AllocError>
        ensures { IfOk result (λ place. place ≡ place_for (map seat_in self.now.places.items) host) }
    {
        let mut seats = Vec::with_capacity(self.alloc, self.places.len())?;
        for place in self.places.as_slice() {
            let seat = match place {
                Some(visitor) => Some(visitor.seat),
                None => None,
            };
            seats.push(seat)?;
        }
        Ok(place_for(seats.as_slice(), host))
    }

    // Serves somebody who came from this address; who has the place gives way, and their connection is closed. Gives nothing where they
    // can't be served.
    #[tactic(auto, using(crate::proofs::ReceivingLemmas::seats_nobody, crate::proofs::ReceivingLemmas::seats_there))]
    fn welcome<R: RandomSource>(
        &mut self,
        rt: &R,
        ready: &Readiness,
        now: u64,
        mut stream: TcpStream,
        host: Ipv4Addr,
    ) -> Option<()>
        ensures address { self.new.address ≡ self.old.address }
        ensures names { names_of self.new.names ≡ names_of self.old.names }
        ensures last { self.new.last ≡ self.old.last }
        ensures accepting { self.new.may_accept ≡ self.old.may_accept }
        ensures again { self.new.again ≡ self.old.again }
        ensures served { OnSome result (SeatsAt (place_for (map seat_in self.old.places.items) host) host now self.old.places.items
            self.new.places.items) }
        ensures refused { IfNone result (self.new.places.items ≡ self.old.places.items) }
    {
        let Ok(found) = self.place_for(host) else {
            return None;
        };
        let Some(place) = found else {
            return Some(());
        };
        let Ok(()) = ready.watch_visitor(&mut stream, place) else {
            return None;
        };
        let Ok(keys) = RandomState::new(rt) else {
            return None;
        };
        let Ok(visitor) = Visitor::new(self.alloc, stream, host, keys, now) else {
            return None;
        };
        if let Some(held) = self.places.get_mut(place) {
            *held = Some(visitor);
        }
        Some(())
    }

    // Nobody was let in: nobody has come, or the system refuses, and is asked again a little later.
    fn let_nobody_in(&mut self, fault: &io::Error, now: u64) -> Came
        ensures came { result ≡ came_by (error_kind fault.now) }
        ensures lets { self.old.may_accept ≡ true → LetsIn now result self.old self.new }
        ensures address { self.new.address ≡ self.old.address }
        ensures names { names_of self.new.names ≡ names_of self.old.names }
        ensures last { self.new.last ≡ self.old.last }
    {
        self.may_accept = false;
        self.is_full = is_full(fault);
        if may_have_more(fault.kind()) {
            self.again = Some(now.saturating_add(AGAIN));
            return Came::Refused;
        }
        Came::Nobody
    }

    /// Takes somebody who has come, if anybody has.
    #[tactic(auto, using(crate::proofs::ReceivingLemmas::let_in))]
    pub fn accept<R: RandomSource>(&mut self, rt: &R, ready: &Readiness, now: u64) -> Came
        ensures address { self.new.address ≡ self.old.address }
        ensures names { names_of self.new.names ≡ names_of self.old.names }
        ensures last { self.new.last ≡ self.old.last }
        ensures lets { LetsIn now result self.old self.new }
    {
        if !self.may_accept {
            return Came::Nobody;
        }
        match self.listener.accept() {
            Ok((stream, source)) => {
                self.is_full = false;
                match self.welcome(rt, ready, now, stream, host_of(source)) {
                    Some(()) => Came::LetIn,
                    None => Came::TurnedAway,
                }
            }
            Err(fault) => self.let_nobody_in(&fault, now),
        }
    }

    /// A turn of one visitor who has more to do, each in their turn: it is answered by this board.
    #[tactic(auto, using(crate::proofs::ReceivingLemmas::serves_here))]
    pub fn turn(&mut self, board: &mut Board, now: u64)
        ensures { ServesNext self.old.address (next_turn self.old.last self.old.places.items) now self.old board.old self.new board.new }
    {
        let Some(address) = self.address else {
            return;
        };
        let Some(place) = self.next_place() else {
            return;
        };
        self.last = place;
        let mut desk = Desk {
            alloc: self.alloc,
            site: address,
            names: &self.names,
            board,
        };
        if let Some(held) = self.places.get_mut(place) {
            serve_place(held, &mut desk, now);
        }
    }
}

impl Reception for Site {
    ghost use Rattle.std.specs.Prelude.{◌||◌, is_some};
    ghost use Rattle.page_server.specs.Receiving.{IsOpened, ServesOne};
    ghost use Rattle.page_server.specs.Waiting.{soonest_from, next_turn};

    ghost opens = { λ names site. IsOpened names site };

    ghost placed = { λ site. site.address };

    ghost busy = { λ site. site.may_accept || is_some (next_turn site.last site.places.items) };

    ghost full = { λ site. site.is_full };

    ghost closes = { λ site. soonest_from site.again site.places.items };

    ghost serves = { λ was told board now is after shown. ServesOne was told board now is after shown };

    fn at<R: Net>(
        rt: &R,
        alloc: Global,
        address: SocketAddrV4,
        names: HostNames,
        ready: &Readiness,
    ) -> io::Result<Site> {
        let Ok(places) = free_places(alloc) else {
            return Err(io::Error::from(AllocError));
        };
        let mut listener = match TcpListener::bind(rt, SocketAddr::V4(address)) {
            Ok(listener) => listener,
            Err(fault) => return Err(fault),
        };
        match ready.watch_listener(&mut listener) {
            Ok(()) => {}
            Err(fault) => return Err(fault),
        }
        let address = match listener.local_addr() {
            Ok(SocketAddr::V4(address)) => Some(address),
            Ok(_) | Err(_) => None,
        };
        Ok(Site {
            alloc,
            listener,
            address,
            names,
            places,
            may_accept: true,
            again: None,
            is_full: false,
            last: 0,
        })
    }

    fn address(&self) -> Option<SocketAddrV4> {
        self.address
    }

    fn is_busy(&self) -> bool {
        self.may_accept || self.next_place().is_some()
    }

    fn is_full(&self) -> bool {
        self.is_full
    }

    #[tactic(auto, unfolding(crate::specs::Waiting::soonest_from))]
    fn next_deadline(&self) -> Option<u64> {
        let mut next = self.again;
        for held in self.places.as_slice() {
            if let Some(visitor) = held {
                next = match next {
                    Some(next) => Some(next.min(visitor.deadline)),
                    None => Some(visitor.deadline),
                };
            }
        }
        next
    }

    fn serve<R: RandomSource>(
        &mut self,
        rt: &R,
        ready: &mut Readiness,
        board: &mut Board,
        now: u64,
    ) {
        self.close_late(now);
        self.look(ready);
        let _ = self.accept(rt, ready, now);
        self.turn(board, now);
    }
}
