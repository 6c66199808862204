//! Laws of what requests may do and who gets a place, for every request and every address.
ghost use Rattle.std.specs.Prelude.{◌≡◌, ◌⊎◌, ℕ, List, [], replicate, codes, IsTrue, Option, Some, None, false};
ghost use Rattle.std.specs.declared.net.ipv4_addr.Ipv4Addr.{Ipv4Addr};
ghost use Rattle.std.specs.declared.net.socket_addr.SocketAddrV4.{SocketAddrV4};
ghost use Rattle.http.specs.declared.request.Parts.{Parts};
ghost use Rattle.page_http.specs.declared.asked.Asked.TheVariants.{Acting, Reading, Strange};
ghost use Rattle.page_http.specs.declared.places.Seat.{Seat};
ghost use Rattle.page_http.specs.declared.route.Route.{Route};
ghost use Rattle.page_http.specs.declared.route.Route.TheVariants.{Metrics, Health, Ready};
ghost use Rattle.page_http.specs.Access.{is_anywhere, is_known_host, is_same_origin, is_origin_at};
ghost use Rattle.page_http.specs.Asking.{asked_of, is_at_home, is_by_name, may_change};
ghost use Rattle.page_http.specs.Seating.{AreFew, seated};

/// Who works a telephone is a page of this site: the request is for this page, and its Host, its Origin and its content say so.
pub fn strangers_work_no_telephone()
    ensures home { (site : SocketAddrV4) (names : List (List ℕ)) (head : Parts) → asked_of site names head ≡ Acting
        → IsTrue (is_at_home site head) }
    ensures origin { (site : SocketAddrV4) (names : List (List ℕ)) (head : Parts) → asked_of site names head ≡ Acting
        → IsTrue (may_change site head) }
    ensures method { (site : SocketAddrV4) (names : List (List ℕ)) (head : Parts) → asked_of site names head ≡ Acting
        → head.method ≡ codes "POST" }
{}

/// Who asks another host asks for nothing here, unless by a further name; there is none where none is said.
pub fn another_host_asks_for_nothing()
    ensures asked { (site : SocketAddrV4) (names : List (List ℕ)) (head : Parts) → is_at_home site head ≡ false
        → is_by_name names head ≡ false → asked_of site names head ≡ Strange }
    ensures nameless { (head : Parts) → is_by_name [] head ≡ false }
{}

/// By a further name nothing is read but whether the gateway is well, and what was counted; and where the page is at each address of
/// its machine nothing else is read at all.
pub fn a_name_tells_no_more_than_counts()
    ensures by_name { (site : SocketAddrV4) (names : List (List ℕ)) (head : Parts) (route : Route) → is_at_home site head ≡ false
        → asked_of site names head ≡ Reading route → (route ≡ Metrics) ⊎ ((route ≡ Health) ⊎ (route ≡ Ready)) }
    ensures anywhere { (site : SocketAddrV4) (head : Parts) → IsTrue (is_anywhere site) → is_at_home site head ≡ false }
{}

/// What has another Host than the page's address has another origin too, whatever it says of itself.
pub fn a_strange_host_has_no_origin_here()
    ensures { (site : SocketAddrV4) (host origin : List ℕ) → IsTrue (is_same_origin site (Some host) (Some origin))
        → IsTrue (is_known_host site host) × IsTrue (is_origin_at host origin) }
{}

/// No address ever has more places than it may have, whoever comes and whenever; nobody who comes gets more than one.
pub fn an_address_has_no_more_places_than_it_may()
    ensures none { (places : ℕ) → AreFew (replicate places None) }
    ensures few { (seats : List (Option Seat)) (host : Ipv4Addr) (now : ℕ) → AreFew seats → AreFew (seated seats host now) }
{}
