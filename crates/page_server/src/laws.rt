//! Laws of what requests make of the desk, for every request, and of who is at the site, for every turn.
ghost use Rattle.std.specs.Prelude.{◌≡◌, ℕ, List, [], map, false};
ghost use Rattle.http.specs.declared.request.Request.{Request};
ghost use Rattle.http.specs.Request.{head_of};
ghost use Rattle.http_server.specs.declared.response.Response.{Response};
ghost use Rattle.http_server.specs.Response.{IsResponse};
ghost use Rattle.page_http.specs.Asking.{is_at_home, is_by_name, may_change};
ghost use Rattle.page_http.specs.Naming.{names_of};
ghost use Rattle.live_system.specs.declared.readiness.Readiness.{Readiness};
ghost use Rattle.page_http.specs.Seating.{AreFew};
ghost use Rattle.page_state.specs.BoardShowing.{BoardState};
ghost use Rattle.page_server.specs.declared.desk.Desk.{Desk};
ghost use Rattle.page_server.specs.declared.site.Site.{Site};
ghost use Rattle.page_server.specs.Answering.{Answers};
ghost use Rattle.page_server.specs.Receiving.{seat_in, IsOpened, ServesOne};

/// Nothing that the board has changes at what another page asks.
pub fn strangers_change_nothing()
    ensures { (old new : Desk) (request : Request (List ℕ)) (response : Response) → Answers old request response new
        → may_change old.site (head_of request) ≡ false → new.board.now ≡ old.board.now }
{}

/// Who asks another host is told nothing, unless by a further name.
pub fn another_host_is_told_nothing()
    ensures { (old new : Desk) (request : Request (List ℕ)) (response : Response) → Answers old request response new
        → is_at_home old.site (head_of request) ≡ false → is_by_name (names_of old.names.now) (head_of request) ≡ false
        → IsResponse 421 [] [] response }
{}

/// No address has more visitors at the site than it may have: not before anybody came, nor behind any turn.
pub fn an_address_has_no_more_visitors_than_it_may()
    ensures opened { (names : List (List ℕ)) (site : Site) → IsOpened names site → AreFew (map seat_in site.places.items) }
    ensures served { (was is : Site) (told after : Readiness) (board shown : BoardState) (now : ℕ)
        → ServesOne was told board now is after shown → AreFew (map seat_in was.places.items) → AreFew (map seat_in is.places.items) }
{}
