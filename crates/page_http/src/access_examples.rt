//! Worked examples of the definitions, as theorems: each sentence of a definition has one that a slip in it breaks.
#![tactic(auto, unfolding(crate::proofs::AccessComputing::on_examples))]

ghost use Rattle.std.specs.Prelude.{◌≡◌, codes, true, false, [], ◌∷◌, ◌++◌, Some, None};
ghost use Rattle.page_http.specs.declared.route.Route.TheVariants.{Page, Style, Script, State, Metrics, Health, Ready, Events, Phone, Nothing};
ghost use Rattle.page_http.specs.Access.{only, is_known_host, is_same_origin, is_json};
ghost use Rattle.page_http.specs.Asking.{route_of};
ghost use Rattle.page_http.specs.AccessExample.{here, at_port, elsewhere, anywhere, once, this_host, other_host, third_host, mine, theirs, seven, eight, other_eight};
ghost use Rattle.page_http.specs.Naming.{names_in, is_named};
ghost use Rattle.page_http.specs.Places.{room_from, idlest, place_for};
ghost use Rattle.page_http.specs.Seating.{held_by, seated};

/// Each sentence at an example.
pub fn each_sentence_has_an_example()
    // A host is known by the address and the port that the page listens at, and on the loopback by the name localhost.
    ensures a_host_is_known_by_its_address_address { is_known_host here (codes "127.0.0.1:8080") ≡ true }
    ensures a_host_is_known_by_its_address_name { is_known_host here (codes "localhost:8080") ≡ true }
    ensures other_address { is_known_host here (codes "127.0.0.2:8080") ≡ false }
    ensures other_port { is_known_host here (codes "127.0.0.1:8081") ≡ false }
    ensures no_port { is_known_host here (codes "127.0.0.1") ≡ false }
    ensures empty_port { is_known_host here (codes "127.0.0.1:") ≡ false }
    ensures other_name { is_known_host here (codes "rgw.example.net:8080") ≡ false }
    ensures within_a_name { is_known_host here (codes "127.0.0.1.example.net:8080") ≡ false }
    ensures within_localhost { is_known_host here (codes "localhost.example.net:8080") ≡ false }
    ensures a_host_is_known_by_its_address_nothing { is_known_host here [] ≡ false }
    ensures another { is_known_host elsewhere (codes "192.168.1.5:8080") ≡ true }
    ensures not_its_loopback { is_known_host elsewhere (codes "localhost:8080") ≡ false }
    ensures everywhere { is_known_host anywhere (codes "0.0.0.0:8080") ≡ false }
    ensures everywhere_by_name { is_known_host anywhere (codes "localhost:8080") ≡ false }
    // Where no port stands it is 80.
    ensures the_port_is_80_where_none_stands_address { is_known_host (at_port 80) (codes "127.0.0.1") ≡ true }
    ensures the_port_is_80_where_none_stands_name { is_known_host (at_port 80) (codes "localhost") ≡ true }
    ensures both { is_known_host (at_port 80) (codes "127.0.0.1:80") ≡ true }
    ensures the_port_is_80_where_none_stands_other { is_known_host (at_port 81) (codes "127.0.0.1") ≡ false }
{}

/// An origin is that of a page at this address, where it is the known host's own.
pub fn an_origin_is_the_known_hosts_own()
    ensures an_origin_is_the_known_hosts_own_address { is_same_origin here (once (codes "127.0.0.1:8080"))
        (once (codes "http://127.0.0.1:8080")) ≡ true }
    ensures an_origin_is_the_known_hosts_own_name { is_same_origin here (once (codes "localhost:8080"))
        (once (codes "http://localhost:8080")) ≡ true }
    ensures of_another_name { is_same_origin here (once (codes "127.0.0.1:8080")) (once (codes "http://localhost:8080")) ≡ false }
    ensures of_another_page { is_same_origin here (once (codes "127.0.0.1:8080")) (once (codes "http://evil.example")) ≡ false }
    ensures of_another_port { is_same_origin here (once (codes "127.0.0.1:8080")) (once (codes "http://127.0.0.1:80801")) ≡ false }
    ensures of_a_path { is_same_origin here (once (codes "127.0.0.1:8080")) (once (codes "http://127.0.0.1:8080/")) ≡ false }
    ensures of_another_scheme { is_same_origin here (once (codes "127.0.0.1:8080")) (once (codes "https://127.0.0.1:8080")) ≡ false }
    ensures without_a_scheme { is_same_origin here (once (codes "127.0.0.1:8080")) (once (codes "127.0.0.1:8080")) ≡ false }
    ensures hidden { is_same_origin here (once (codes "127.0.0.1:8080")) (once (codes "null")) ≡ false }
    ensures an_origin_is_the_known_hosts_own_none { is_same_origin here (once (codes "127.0.0.1:8080")) None ≡ false }
    ensures no_host { is_same_origin here None (once (codes "http://127.0.0.1:8080")) ≡ false }
    ensures rebound { is_same_origin here (once (codes "evil.example:8080")) (once (codes "http://evil.example:8080")) ≡ false }
{}

/// Each sentence at an example.
pub fn further_sentences_have_examples()
    // A field counts where it stands there once.
    ensures a_field_counts_where_it_stands_once_none { only (codes "") ≡ None }
    ensures one { only (codes "a") ≡ Some 97 }
    ensures a_field_counts_where_it_stands_once_two { only (codes "aa") ≡ None }
    // Content is JSON where it says just so.
    ensures json { is_json (once (codes "application/json")) ≡ true }
    ensures form { is_json (once (codes "application/x-www-form-urlencoded")) ≡ false }
    ensures parts { is_json (once (codes "multipart/form-data")) ≡ false }
    ensures text { is_json (once (codes "text/plain")) ≡ false }
    ensures more { is_json (once (codes "application/json; charset=utf-8")) ≡ false }
    ensures content_is_json_where_it_says_so_none { is_json None ≡ false }
    // Further names are of letters, digits, `-` and `.`, in any case, and any port is theirs.
    ensures further_names_are_known_two { names_in (codes "rgw, 10.0.0.5") ≡ Some (codes "rgw" ∷ codes "10.0.0.5" ∷ []) }
    ensures hyphen { names_in (codes "rgw-0.rgw") ≡ Some (codes "rgw-0.rgw" ∷ []) }
    ensures empty { names_in (codes "") ≡ None }
    ensures no_second { names_in (codes "rgw,") ≡ None }
    ensures with_a_port { names_in (codes "rgw:8080") ≡ None }
    ensures further_names_are_known_other_byte { names_in (codes "rgw_0") ≡ None }
    ensures known { is_named (codes "a" ∷ codes "rgw" ∷ []) (codes "RGW:80") ≡ true }
    ensures portless { is_named (codes "rgw" ∷ []) (codes "rgw") ≡ true }
    ensures further_names_are_known_other { is_named (codes "rgw" ∷ []) (codes "rgw.example:80") ≡ false }
    ensures further_names_are_known_none { is_named [] (codes "rgw") ≡ false }
{}

/// What stands at each path.
pub fn paths_lead_somewhere()
    ensures page { route_of (codes "/") None ≡ Page }
    ensures style { route_of (codes "/page.css") None ≡ Style }
    ensures script { route_of (codes "/page.js") None ≡ Script }
    ensures paths_lead_somewhere_state { route_of (codes "/state") None ≡ State }
    ensures paths_lead_somewhere_metrics { route_of (codes "/metrics") None ≡ Metrics }
    ensures health { route_of (codes "/healthz") None ≡ Health }
    ensures paths_lead_somewhere_ready { route_of (codes "/readyz") None ≡ Ready }
    ensures phone { route_of (codes "/phone") None ≡ Phone }
    ensures all { route_of (codes "/events") None ≡ Events 0 }
    ensures some { route_of (codes "/events") (Some (codes "after=12")) ≡ Events 12 }
    ensures no_number { route_of (codes "/events") (Some (codes "after=")) ≡ Nothing }
    ensures no_digit { route_of (codes "/events") (Some (codes "after=x")) ≡ Nothing }
    ensures paths_lead_somewhere_other { route_of (codes "/events") (Some (codes "before=1")) ≡ Nothing }
    ensures below { route_of (codes "/page.js/") None ≡ Nothing }
    ensures paths_lead_somewhere_nothing { route_of [] None ≡ Nothing }
{}

/// Who comes gets the first free place; where none is free whoever was idle longest gives way, and of two alike the first.
pub fn who_comes_gets_a_place()
    ensures who_was_idle_longest_gives_way_free { place_for (mine 5 ∷ None ∷ None ∷ []) other_host ≡ Some 1 }
    ensures longest { place_for (mine 30 ∷ theirs 10 ∷ mine 20 ∷ []) this_host ≡ Some 1 }
    ensures at_once { place_for (mine 10 ∷ theirs 30 ∷ mine 20 ∷ []) third_host ≡ Some 0 }
    ensures alike { place_for (mine 30 ∷ theirs 10 ∷ mine 10 ∷ []) third_host ≡ Some 1 }
    ensures last { place_for (mine 30 ∷ theirs 20 ∷ mine 10 ∷ []) third_host ≡ Some 2 }
    ensures sixteen { place_for (eight ++ other_eight) third_host ≡ Some 11 }
    ensures no_place { place_for [] this_host ≡ None }
{}

/// Each sentence at an example.
pub fn more_sentences_have_examples()
    // Eight of one address: one more of them takes the place of its own who was idle longest, though another place is free or
    // another visitor was idle longer.
    ensures seventh { place_for (None ∷ seven) this_host ≡ Some 0 }
    ensures own { place_for (None ∷ eight) this_host ≡ Some 1 }
    ensures own_idlest { place_for (eight ++ theirs 1 ∷ None ∷ []) this_host ≡ Some 0 }
    ensures of_another { place_for (eight ++ None ∷ []) other_host ≡ Some 8 }
    ensures an_address_has_at_most_eight_others { place_for (eight ++ other_eight) other_host ≡ Some 11 }
    ensures an_address_has_at_most_eight_other_byte { place_for (other_eight ++ None ∷ []) third_host ≡ Some 8 }
    ensures room { room_from 8 this_host (mine 1 ∷ theirs 2 ∷ None ∷ mine 3 ∷ []) ≡ 6 }
    ensures none_left { room_from 8 this_host (mine 1 ∷ eight) ≡ 0 }
    ensures an_address_has_at_most_eight_nobody { idlest (Some other_host) seven ≡ None }
    // Who comes sits there from that moment on, and the others where they sat.
    ensures seated { seated (mine 5 ∷ None ∷ theirs 2 ∷ []) other_host 70 ≡ mine 5 ∷ theirs 70 ∷ theirs 2 ∷ [] }
    ensures unseated { seated [] this_host 70 ≡ [] }
    ensures held { held_by this_host (mine 1 ∷ theirs 2 ∷ None ∷ mine 3 ∷ []) ≡ 2 }
{}
