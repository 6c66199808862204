//! Visitors of a page in memory: each asks once, and gets an answer.
ghost use Rattle.std.specs.Prelude.{◌≡◌, drop};
ghost use Rattle.page_http.specs.Naming.{names_of};
ghost use Rattle.page_server.specs.Visiting.{AnswersBy};
ghost use Rattle.cases.specs.Browsing.{next_of};

use crate::stories::{Clocks, Machine, Transcript, Visit};
use live_gateway::Visitors;
use page_http::HostNames;
use page_server::answer_to;
use page_state::Board;
use scenario_files::parted;
use std::alloc::Global;
use std::collections::VecDeque;
use std::hash::RandomState;
use std::io;
use std::net::SocketAddrV4;
use std::random::RandomSource;
use std::rc::Rc;

// Keys that aren't secret: nobody visits whom a script doesn't have.
struct KnownKeys;

impl RandomSource for KnownKeys {
    fn fill_bytes(&self, _buf: &mut [u8]) -> io::Result<()> {
        Ok(())
    }
}

/// Visitors of the page at this address, who come at their moments.
#[derive(Drop)]
pub struct Browsers {
    alloc: Global,
    clocks: Rc<Clocks>,
    site: SocketAddrV4,
    names: HostNames,
    visits: VecDeque<Visit>,
    /// What they got.
    pub given: Transcript,
}

// The head of an answer, and the first line of its body.
fn front_of(answer: &[u8]) -> &[u8] {
    let text = str::from_utf8(answer).unwrap_or("");
    let (head, body) = parted(text, "\r\n\r\n");
    let first = body.lines().next().unwrap_or("");
    let length = head.len().saturating_add(4).saturating_add(first.len());
    answer.get(..length).unwrap_or(answer)
}

impl Browsers {
    /// None has been there.
    pub fn new(
        alloc: Global,
        clocks: Rc<Clocks>,
        site: SocketAddrV4,
        names: HostNames,
        visits: VecDeque<Visit>,
    ) -> Browsers {
        Browsers {
            alloc,
            clocks,
            site,
            names,
            visits,
            given: Transcript::new(alloc),
        }
    }

    // The moment at which the next one comes.
    fn next(&self) -> Option<u64>
        ensures { result ≡ next_of self.now.visits.items }
    {
        match self.visits.front() {
            Some(visit) => Some(visit.moment),
            None => None,
        }
    }

    // Who comes next is answered.
    fn serve(&mut self, board: &mut Board) -> io::Result<()>
        ensures board { AnswersBy self.old.site (names_of self.old.names) board.old board.new }
        ensures visits { self.new.visits.items ≡ drop 1 self.old.visits.items }
    {
        let Some(visit) = self.visits.pop_front() else {
            return Ok(());
        };
        let keys = RandomState::new(&KnownKeys)?;
        let answer = answer_to(
            self.alloc,
            keys,
            self.site,
            &self.names,
            board,
            visit.request.as_slice(),
        )?;
        let told = if visit.is_brief {
            front_of(answer.as_slice())
        } else {
            answer.as_slice()
        };
        let at = self.clocks.stamp();
        self.given.tell(at, b"page ", told);
        Ok(())
    }
}

impl Visitors<Machine<'_>> for Browsers {
    ghost use Rattle.std.specs.Prelude.{◌≡◌, drop};
    ghost use Rattle.live_gateway.specs.Visiting.{has_come};
    ghost use Rattle.page_http.specs.Naming.{names_of};
    ghost use Rattle.page_server.specs.Visiting.{AnswersBy};
    ghost use Rattle.cases.specs.Browsing.{next_of};

    ghost visits = { record {
      waits = λ browsers around moment ready. ready ≡ has_come (next_of browsers.visits.items) moment;
      closes = λ browsers deadline. deadline ≡ next_of browsers.visits.items;
      serves = λ was before board moment is after shown. AnswersBy was.site (names_of was.names) board shown
          × (is.visits.items ≡ drop 1 was.visits.items) × (after ≡ before);
    } };

    fn is_ready(&self, _around: &Machine<'_>, moment: u64) -> bool {
        match self.next() {
            Some(next) => next <= moment,
            None => false,
        }
    }

    fn next_deadline(&self) -> Option<u64>
        ensures { result ≡ next_of self.now.visits.items }
    {
        self.next()
    }

    fn turn(&mut self, _around: &mut Machine<'_>, board: &mut Board, _moment: u64) {
        if self.serve(board).is_err() {
            self.given.refuse();
        }
    }
}
