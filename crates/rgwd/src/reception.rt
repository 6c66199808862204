//! The page's visitors, as the gateway's loop serves them.
use live_gateway::Visitors;
use live_system::Live;
use page_server::Reception;
use page_state::Board;
use std::cell::Cell;
use std::net::Net;
use std::random::RandomSource;
use std::rc::Rc;
use std::rt::Clock;

/// The site at which the page is asked for.
#[derive(Drop)]
pub struct PageReception<P> {
    pub site: P,
    /// Whether nobody is let in for want of files.
    pub is_full: Rc<Cell<bool>>,
}

impl<'a, R: Net + Clock + RandomSource, P: Reception> Visitors<Live<'a, R>> for PageReception<P> {
    ghost use Rattle.std.specs.Prelude.{◌≡◌, ◌||◌};
    ghost use Rattle.live_system.specs.Looking.{has_visits};
    ghost use Rattle.live_gateway.specs.Visiting.{has_come};

    ghost visits = { record {
      waits = λ page around moment ready. ready ≡ (P.busy page.site
          || has_visits around.ready.value.listener around.ready.value.visits || has_come (P.closes page.site) moment);
      closes = λ page deadline. deadline ≡ P.closes page.site;
      serves = λ was before board moment is after shown.
          P.serves was.site before.ready.value board moment is.site after.ready.value shown;
    } };

    fn is_ready(&self, around: &Live<'a, R>, moment: u64) -> bool {
        self.site.is_busy()
            || around.ready.has_visits()
            || matches!(self.site.next_deadline(), Some(deadline) if deadline <= moment)
    }

    fn next_deadline(&self) -> Option<u64> {
        self.site.next_deadline()
    }

    fn turn(&mut self, around: &mut Live<'a, R>, board: &mut Board, moment: u64) {
        self.site.serve(around.rt, &mut around.ready, board, moment);
        self.is_full.set(self.site.is_full());
    }
}
