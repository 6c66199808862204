//! Laws of routes, in the words of their subject (RFC 3435, 3.5 and 4.3).
ghost use Rattle.std.specs.Prelude.{◌≡◌, ◌<◌, ◌*◌, ◌+◌, ◌↔◌, ◌⊎◌, ℕ, List, All, Contains, length, map, Some, None};
ghost use Rattle.std.specs.List.{range_with_len};
ghost use Rattle.std.specs.declared.net.ipv4_addr.Ipv4Addr.{Ipv4Addr};
ghost use Rattle.std.specs.declared.net.socket_addr.SocketAddrV4.{SocketAddrV4};
ghost use Rattle.endpoint_names.specs.declared.route.Route.{Route};
ghost use Rattle.endpoint_names.specs.declared.route.Route.TheVariants.{One};
ghost use Rattle.endpoint_names.specs.declared.route.TheConstants.{MOST_ADDRESSES};
ghost use Rattle.endpoint_names.specs.Route.{addresses, most_addresses, route_of, first, at, with_port};

/// A message begins with the first address of its route; where that is the only one, all its sends go there.
pub fn messages_begin_with_the_first_address()
    ensures begins { (route : Route SocketAddrV4) → at route 0 ≡ first route }
    ensures alone { (address : SocketAddrV4) (send : ℕ) → at (One address) send ≡ address }
{}

/// A send goes to an address of the route, and to no other.
pub fn sends_go_to_addresses_of_their_route()
    ensures { (route : Route SocketAddrV4) (send : ℕ) → Contains (addresses route) (at route send) }
{}

/// Two sends in a row go to one address.
pub fn addresses_are_tried_twice()
    ensures { (route : Route SocketAddrV4) (turn : ℕ) → at route (turn * 2 + 1) ≡ at route (turn * 2) }
{}

/// Eight sends, as many as a message has, reach each address.
pub fn eight_sends_reach_each_address()
    ensures { (route : Route SocketAddrV4) →
        All (Contains (map (at route) (range_with_len 0 8))) (addresses route) }
{}

/// A route is its addresses in their order: 1 to 4 of them, and each such list is one.
pub fn routes_are_lists_of_one_to_four()
    ensures again { (route : Route SocketAddrV4) → route_of (addresses route) ≡ Some route }
    ensures all { (list : List SocketAddrV4) (route : Route SocketAddrV4) → route_of list ≡ Some route → addresses route ≡ list }
    ensures none { (list : List SocketAddrV4) → (route_of list ≡ None) ↔ ((length list ≡ 0) ⊎ (most_addresses < length list)) }
    ensures named { MOST_ADDRESSES ≡ most_addresses }
{}

/// A port is that of each address.
pub fn addresses_have_one_port()
    ensures { (port : ℕ) (route : Route Ipv4Addr) (send : ℕ) →
        at (with_port port route) send ≡ record { ip = at route send; port = port } }
{}
