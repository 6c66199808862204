//! Worked examples of the definitions, as theorems: each sentence of a definition has one that a slip in it breaks.
#![tactic(auto, unfolding(crate::proofs::Computing::on_examples))]

ghost use Rattle.std.specs.Prelude.{◌≡◌, ◌≢◌, ◌<◌, ◌-◌, ◌^◌, ℕ, codes, length, map, true, false, Bool, List, [], ◌∷◌};
ghost use Rattle.std.specs.Prelude.{Option, Some, None, Ok, Err};
ghost use Rattle.std.specs.Global.{Box};
ghost use Rattle.std.specs.IoError.{error_kind};
ghost use Rattle.std.specs.declared.io.Error.{Error};
ghost use Rattle.std.specs.declared.io.ErrorKind.TheVariants.{ConnectionReset, Interrupted, Uncategorized, WouldBlock};
ghost use Rattle.std.specs.declared.net.ipv4_addr.Ipv4Addr.{Ipv4Addr};
ghost use Rattle.std.specs.declared.net.socket_addr.SocketAddr.TheVariants.{V4};
ghost use Rattle.std.specs.declared.net.socket_addr.SocketAddrV4.{SocketAddrV4};
ghost use Rattle.http.specs.declared.request.Request.{Request};
ghost use Rattle.http_server.specs.declared.response.Response.{Response};
ghost use Rattle.http_server.specs.Connection.{config_of, history};
ghost use Rattle.http_server.specs.Exchange.{Call, Chain};
ghost use Rattle.http_server.specs.History.{IsDone, WantsRead};
ghost use Rattle.live_system.specs.declared.readiness.TheConstants.{MOST_VISITORS};
ghost use Rattle.live_system.specs.Looking.{no_visit};
ghost use Rattle.page_state.specs.BoardShowing.{BoardState};
ghost use Rattle.page_server.specs.declared.page.TheConstants.{PAGE};
ghost use Rattle.page_server.specs.declared.script.TheConstants.{SCRIPT};
ghost use Rattle.page_server.specs.declared.style.TheConstants.{STYLE};
ghost use Rattle.page_http.specs.declared.asked.Asked.TheVariants.{Strange, Reading, Acting, Forbidden, Unsuited, Missing};
ghost use Rattle.page_http.specs.declared.route.Route.TheVariants.{Page, Style, Script, State, Metrics, Health, Ready};
ghost use Rattle.page_http.specs.declared.route.Route.TheVariants.{Events, Phone, Nothing};
ghost use Rattle.page_http.specs.declared.answers.ActOutcome.TheVariants.{Queued, NoRoom, Unreadable};
ghost use Rattle.page_server.specs.declared.fields.Content.TheVariants as contents;
ghost use Rattle.page_server.specs.declared.site.Came.{Came};
ghost use Rattle.page_server.specs.declared.site.Came.TheVariants.{Nobody, Refused, LetIn, TurnedAway};
ghost use Rattle.page_server.specs.declared.site.Site.{Site};
ghost use Rattle.page_server.specs.declared.visitor.Visitor.{Visitor};
ghost use Rattle.page_server.specs.Fields.{kind_of, policy, kind_fields, fields_at};
ghost use Rattle.page_server.specs.Health.{alive_text, ready_text};
ghost use Rattle.page_server.specs.Statuses.{is_refused, reading_status, refusal_status, refusal_fields, outcome_status};
ghost use Rattle.page_server.specs.Serving.{file_at};
ghost use Rattle.page_server.specs.Visiting.{calls_of, noted, patience_from, AnsweredAt, AnswersAll, AnswersBy, CanRead, CanWrite};
ghost use Rattle.page_server.specs.Visiting.{EndsTurn, IsAnswered, IsNew};
ghost use Rattle.page_server.specs.Visiting.{ReadsOnce, ReadsSo, TakesTurn, WritesOnce, WritesSo, WritesTurn};
ghost use Rattle.page_server.specs.Receiving.{host_of, noted_each, seat_in, visitor_in, with_place, came_by, IsOpened, LetsIn, SeatsAt};
ghost use Rattle.page_server.specs.Receiving.{ServesNext, ServesPlace};
ghost use Rattle.page_server.specs.Example.{readable, writable};
ghost use Rattle.page_server.specs.Waiting.{sooner, soonest_from, is_over, left_over, is_late, stays_at, next_turn};

/// Each sentence at an example.
pub fn each_sentence_has_an_example()
    // Whether it is well is told in a line.
    ensures alive { alive_text true ≡ codes "ok\n" }
    ensures wellness_is_told_in_a_line_behind { alive_text false ≡ codes "the clock is behind\n" }
    ensures wellness_is_told_in_a_line_ready { ready_text true ≡ codes "ready\n" }
    ensures not_ready { ready_text false ≡ codes "no agent has answered yet\n" }
    // What is read, refused and done has its status, and who asks by the wrong method is told the right one.
    ensures read { map (reading_status false false) (Page ∷ Style ∷ Script ∷ State ∷ Metrics ∷ Events 5 ∷ [])
        ≡ 200 ∷ 200 ∷ 200 ∷ 200 ∷ 200 ∷ 200 ∷ [] }
    ensures not_there { map (reading_status true true) (Phone ∷ Nothing ∷ []) ≡ 404 ∷ 404 ∷ [] }
    ensures well { map (reading_status true true) (Health ∷ Ready ∷ []) ≡ 200 ∷ 200 ∷ [] }
    ensures not_serving { map (reading_status true false) (Health ∷ Ready ∷ []) ≡ 200 ∷ 503 ∷ [] }
    ensures answers_have_their_status_behind { map (reading_status false true) (Health ∷ Ready ∷ []) ≡ 503 ∷ 200 ∷ [] }
    ensures refused { map refusal_status (Strange ∷ Forbidden ∷ Unsuited true ∷ Missing ∷ []) ≡ 421 ∷ 403 ∷ 405 ∷ 404 ∷ [] }
    ensures refusals { map is_refused (Strange ∷ Forbidden ∷ Unsuited true ∷ Missing ∷ []) ≡ true ∷ true ∷ true ∷ true ∷ [] }
    ensures answers_have_their_status_others { map is_refused (Reading Page ∷ Acting ∷ []) ≡ false ∷ false ∷ [] }
    ensures posts { refusal_fields (Unsuited true) ≡ (codes "allow", codes "POST") ∷ [] }
    ensures gets { refusal_fields (Unsuited false) ≡ (codes "allow", codes "GET") ∷ [] }
    ensures bare { map refusal_fields (Strange ∷ Forbidden ∷ Missing ∷ []) ≡ [] ∷ [] ∷ [] ∷ [] }
    ensures done { map outcome_status (Queued ∷ NoRoom ∷ Unreadable ∷ []) ≡ 202 ∷ 503 ∷ 400 ∷ [] }
{}

/// Each sentence at an example.
pub fn further_sentences_have_examples()
    // So many visitors are served at once.
    ensures places { MOST_VISITORS ≡ 16 }
    // Of those who are waited for it is the first whose time is over.
    ensures the_first_is_waited_for_first { sooner (Some 20) (Some 10) ≡ Some 10 }
    ensures before { sooner (Some 10) (Some 20) ≡ Some 10 }
    ensures nobody_before { sooner None (Some 20) ≡ Some 20 }
    ensures the_first_is_waited_for_free { sooner (Some 20) None ≡ Some 20 }
    ensures the_first_is_waited_for_nobody { soonest_from None (None ∷ None ∷ []) ≡ None }
    ensures asked_again { soonest_from (Some 105) (None ∷ None ∷ []) ≡ Some 105 }
    ensures is_asked_again { map (λ now. is_over now (Some 105)) (104 ∷ 105 ∷ 106 ∷ []) ≡ false ∷ true ∷ true ∷ [] }
    ensures none_is_over { is_over 104 None ≡ false }
    ensures asked_once { left_over 105 (Some 105) ≡ None }
    ensures not_asked_yet { left_over 104 (Some 105) ≡ Some 105 }
    // Whose time is over at this very ms goes, and nobody before.
    ensures late { (visitor : Box Visitor) → visitor.value.deadline ≡ 15000 → is_late 15000 (Some visitor) ≡ true }
    ensures not_yet { (visitor : Box Visitor) → visitor.value.deadline ≡ 15000 → is_late 14999 (Some visitor) ≡ false }
    ensures who_is_late_goes_nobody { is_late 15000 None ≡ false }
    ensures goes { (visitor : Box Visitor) → visitor.value.deadline ≡ 15000 → stays_at 15000 (Some visitor) ≡ None }
    ensures stays { (visitor : Box Visitor) → visitor.value.deadline ≡ 15000 → stays_at 14999 (Some visitor) ≡ Some visitor }
    ensures who_is_late_goes_first { (one other : Box Visitor) → one.value.deadline ≡ 20 → other.value.deadline ≡ 10 →
        soonest_from None (Some one ∷ None ∷ Some other ∷ []) ≡ Some 10 }
    // Of those who have more to do the first behind the last has its turn; behind all of them the first, and at last the same again.
    ensures next { (one two three : Box Visitor) → two.value.has_turn ≡ true →
        next_turn 0 (Some one ∷ Some two ∷ Some three ∷ []) ≡ Some 1 }
    ensures passed_over { (one two three : Box Visitor) → two.value.has_turn ≡ false → three.value.has_turn ≡ true →
        next_turn 0 (Some one ∷ Some two ∷ Some three ∷ []) ≡ Some 2 }
    ensures again { (one two three : Box Visitor) → one.value.has_turn ≡ true →
        next_turn 2 (Some one ∷ Some two ∷ Some three ∷ []) ≡ Some 0 }
    ensures itself { (one : Box Visitor) → one.value.has_turn ≡ true → next_turn 1 (None ∷ Some one ∷ None ∷ []) ≡ Some 1 }
    ensures visitors_have_their_turns_nobody { (one : Box Visitor) → one.value.has_turn ≡ false → next_turn 0 (None ∷ Some one ∷ [])
        ≡ None }
{}

/// Who comes is waited for from then on, and has asked for nothing. Where something is told of their socket they have a turn.
pub fn who_comes_has_examples()
    ensures patience { patience_from 1000 ≡ 16000 }
    ensures to_the_last { patience_from (2 ^ 64 - 1) ≡ 2 ^ 64 - 1 }
    ensures waited_for { (host : Ipv4Addr) (visitor : Visitor) → IsNew host 5 visitor
        → (visitor.seat.host ≡ host) × (visitor.seat.active ≡ 5) × (visitor.deadline ≡ 15005) }
    ensures ready { (host : Ipv4Addr) (visitor : Visitor) → IsNew host 5 visitor
        → (visitor.may_read ≡ true) × (visitor.may_write ≡ true) × (visitor.has_turn ≡ true) }
    ensures asks_for_nothing { (host : Ipv4Addr) (visitor : Visitor) → IsNew host 5 visitor
        → (calls_of visitor ≡ []) × ((config_of visitor.connection).max_body_len ≡ 1024) }
    ensures held { (host : Ipv4Addr) (visitor : Visitor) → IsNew host 5 visitor
        → ((config_of visitor.connection).limits.max_head_len ≡ 8192) × ((config_of visitor.connection).max_pending ≡ 65536) }
    ensures told_readable { (was : Visitor) → was.may_read ≡ false → ((noted readable was).may_read ≡ true)
        × ((noted readable was).has_turn ≡ true) }
    ensures told_writable { (was : Visitor) → was.may_write ≡ false → ((noted writable was).may_write ≡ true)
        × ((noted writable was).has_turn ≡ true) }
    ensures still_readable { (was : Visitor) → was.may_read ≡ true → (noted writable was).may_read ≡ true }
    ensures nothing_told { (was : Visitor) → noted no_visit was ≡ was }
{}

/// Whose socket is read was active then, and is waited for no longer; where it only has nothing more they stay.
pub fn who_is_read_has_examples()
    ensures active { (was is : Visitor) (stays : Bool) → ReadsSo 70 was (Ok 3) stays is
        → (is.seat.active ≡ 70) × (is.seat.host ≡ was.seat.host) × (is.deadline ≡ was.deadline) × (stays ≡ true) }
    ensures nothing_more { (fault : Error) (was is : Visitor) (stays : Bool) → error_kind fault ≡ WouldBlock
        → ReadsSo 70 was (Err fault) stays is → (stays ≡ true) × (is.may_read ≡ false) × (is.seat ≡ was.seat) }
    ensures gone { (fault : Error) (was is : Visitor) (stays : Bool) → error_kind fault ≡ ConnectionReset
        → ReadsSo 70 was (Err fault) stays is → stays ≢ true }
    ensures not_told { (was is : Visitor) (stays : Bool) → was.may_read ≡ false → ReadsOnce 70 was stays is
        → (is ≡ was) × (stays ≡ true) }
{}

/// Who takes what waits for them was active then, and is waited for anew once nothing waits; who takes nothing goes.
pub fn who_is_written_to_has_examples()
    ensures all { (was is : Visitor) (stays : Bool) → WritesSo 70 was (Ok 3) stays is → length (history is.connection).pending ≡ 0
        → is.deadline ≡ 15070 }
    ensures some { (was is : Visitor) (stays : Bool) → WritesSo 70 was (Ok 3) stays is → length (history is.connection).pending ≡ 1
        → is.deadline ≡ was.deadline }
    ensures active { (was is : Visitor) (stays : Bool) → WritesSo 70 was (Ok 3) stays is
        → (is.seat.active ≡ 70) × (is.seat.host ≡ was.seat.host) × (stays ≡ true) }
    ensures none { (was is : Visitor) (stays : Bool) → WritesSo 70 was (Ok 0) stays is → (stays ≡ false) × (is.seat ≡ was.seat) }
    ensures no_room { (fault : Error) (was is : Visitor) (stays : Bool) → error_kind fault ≡ WouldBlock
        → WritesSo 70 was (Err fault) stays is → (stays ≡ true) × (is.may_write ≡ false) × (is.deadline ≡ was.deadline) }
    ensures gone { (fault : Error) (was is : Visitor) (stays : Bool) → error_kind fault ≡ ConnectionReset
        → WritesSo 70 was (Err fault) stays is → stays ≢ true }
    ensures not_told { (was is : Visitor) (stays : Bool) → was.may_write ≡ false → WritesOnce 70 was stays is
        → (is ≡ was) × (stays ≡ true) }
    ensures stays { (site : SocketAddrV4) (names : List (List ℕ)) (was is : Visitor) (board shown : BoardState) →
        EndsTurn site names true was board true is shown → IsDone (history is.connection) → ⊥ }
    ensures goes { (site : SocketAddrV4) (names : List (List ℕ)) (was is : Visitor) (board shown : BoardState) →
        EndsTurn site names true was board false is shown → IsDone (history is.connection) }
{}

/// Who can be read is told so, and wants more; who can be written to is told so, and something waits for them.
pub fn who_can_be_read_and_written_to_has_examples()
    ensures readable { (visitor : Visitor) → visitor.may_read ≡ true → WantsRead (config_of visitor.connection) (history visitor.connection)
        → CanRead visitor }
    ensures unreadable { (visitor : Visitor) → visitor.may_read ≡ false → CanRead visitor → ⊥ }
    ensures wants_more { (visitor : Visitor) → CanRead visitor → WantsRead (config_of visitor.connection) (history visitor.connection) }
    ensures writable { (visitor : Visitor) → visitor.may_write ≡ true → 0 < length (history visitor.connection).pending → CanWrite visitor }
    ensures unwritable { (visitor : Visitor) → visitor.may_write ≡ false → CanWrite visitor → ⊥ }
    ensures nothing_waits { (visitor : Visitor) → CanWrite visitor → 0 < length (history visitor.connection).pending }
{}

/// A board becomes another by requests that were answered, one after the other: by none it stays, and by each in its turn.
pub fn what_a_board_becomes_has_examples()
    ensures none { (site : SocketAddrV4) (names : List (List ℕ)) (board : BoardState) → AnswersBy site names board board }
    ensures one { (site : SocketAddrV4) (names : List (List ℕ)) (board shown : BoardState) (request : Request (List ℕ))
        (response : Response) → AnsweredAt site names board request response shown → AnswersBy site names board shown }
    ensures behind { (site : SocketAddrV4) (names : List (List ℕ)) (board between shown : BoardState) →
        AnswersBy site names board between → AnswersBy site names between shown → AnswersBy site names board shown }
    ensures by_calls { (site : SocketAddrV4) (names : List (List ℕ)) (board shown : BoardState) → AnswersBy site names board shown
        → (calls : List Call) × Chain (AnsweredAt site names) board calls shown }
{}

/// Who is answered stays who they are, and nothing is read or goes meanwhile. Whose socket failed is answered nothing. Who can't be read
/// nor written has no turn. Who has had one comes from where they came.
pub fn who_has_a_turn_has_examples()
    ensures answered { (site : SocketAddrV4) (names : List (List ℕ)) (was is : Visitor) (board shown : BoardState) →
        AnswersAll site names was board is shown → (is.seat ≡ was.seat) × (is.deadline ≡ was.deadline) × (is.may_read ≡ was.may_read) }
    ensures quiet { (site : SocketAddrV4) (names : List (List ℕ)) (was is : Visitor) (board shown : BoardState) →
        AnswersAll site names was board is shown → ((history is.connection).received ≡ (history was.connection).received)
        × ((history is.connection).sent ≡ (history was.connection).sent) }
    ensures failed { (site : SocketAddrV4) (names : List (List ℕ)) (was is : Visitor) (board shown : BoardState) (stays : Bool) →
        WritesTurn site names 70 false was board stays is shown → (is ≡ was) × (shown ≡ board) × (stays ≡ false) }
    ensures no_turn { (site : SocketAddrV4) (names : List (List ℕ)) (was is : Visitor) (board shown : BoardState) (stays : Bool) →
        EndsTurn site names true was board stays is shown → is.may_read ≡ false → is.may_write ≡ false → is.has_turn ≢ true }
    ensures same_host { (site : SocketAddrV4) (names : List (List ℕ)) (was is : Visitor) (board shown : BoardState) (stays : Bool) →
        TakesTurn site names 70 was board stays is shown → is.seat.host ≡ was.seat.host }
{}

/// What was told of each socket is noted of who has its place. Who comes has the place that is for them, and nobody else's is another's.
/// Where nobody may come nobody does.
pub fn who_has_places_has_examples()
    ensures opened { (site : Site) → IsOpened (codes "rgw" ∷ []) site → (length site.places.items ≡ 16) × (site.may_accept ≡ true)
        × (site.last ≡ 0) × (site.again ≡ None) }
    ensures each { (one two : Visitor) → noted_each (Some one ∷ None ∷ Some two ∷ []) (no_visit ∷ readable ∷ readable ∷ [])
        ≡ Some one ∷ None ∷ Some (noted readable two) ∷ [] }
    ensures untold { (one : Visitor) → noted_each (Some one ∷ []) [] ≡ Some one ∷ [] }
    ensures seat { (one : Box Visitor) → map seat_in (Some one ∷ None ∷ []) ≡ Some one.value.seat ∷ None ∷ [] }
    ensures visitor { (one : Box Visitor) → map visitor_in (Some one ∷ None ∷ []) ≡ Some one.value ∷ None ∷ [] }
    ensures host { (host : Ipv4Addr) → host_of (V4 (record { ip = host; port = 80 })) ≡ host }
    ensures seated { (host : Ipv4Addr) (one : Box Visitor) (are : List (Option (Box Visitor)))
        → SeatsAt (Some 1) host 5 (Some one ∷ None ∷ []) are
        → (visitor : Box Visitor) × (visitor.value.seat.active ≡ 5) × (are ≡ Some one ∷ Some visitor ∷ []) }
    ensures unseated { (host : Ipv4Addr) (were are : List (Option (Box Visitor))) → SeatsAt None host 5 were are → are ≡ were }
    ensures nobody { (came : Came) (was is : Site) → was.may_accept ≡ false → LetsIn 5 came was is
        → (is.places.items ≡ was.places.items) × (is.may_accept ≡ false) × (is.again ≡ was.again) }
    ensures let_in { (was is : Site) → LetsIn 5 LetIn was is → (is.may_accept ≡ true) × (is.again ≡ was.again) }
    ensures refused { (was is : Site) → LetsIn 5 Refused was is → (is.may_accept ≡ false) × (is.again ≡ Some 105)
        × (is.places.items ≡ was.places.items) }
    ensures turned_away { (was is : Site) → LetsIn 5 TurnedAway was is → (is.places.items ≡ was.places.items) × (is.may_accept ≡ true)
        × (is.again ≡ was.again) }
    ensures faults { map came_by (WouldBlock ∷ Interrupted ∷ Uncategorized ∷ []) ≡ Nobody ∷ Refused ∷ Refused ∷ [] }
{}

/// Whoever has the place whose turn it is has one, and nobody else's place changes; where there is nobody, or it is nobody's turn, or the
/// page's address isn't known, all stays.
pub fn whose_turn_it_is_has_examples()
    ensures free { (site : SocketAddrV4) (names : List (List ℕ)) (is : Option (Box Visitor)) (board shown : BoardState) →
        ServesPlace site names 70 None board is shown → (is ≡ None) × (shown ≡ board) }
    ensures stays { (site : SocketAddrV4) (names : List (List ℕ)) (was is : Box Visitor) (board shown : BoardState) →
        ServesPlace site names 70 (Some was) board (Some is) shown
        → IsAnswered is.value × TakesTurn site names 70 was.value board true is.value shown }
    ensures goes { (site : SocketAddrV4) (names : List (List ℕ)) (was : Box Visitor) (board shown : BoardState) →
        ServesPlace site names 70 (Some was) board None shown
        → (gone : Visitor) × TakesTurn site names 70 was.value board false gone shown }
    ensures let_go { (one two : Box Visitor) → with_place 1 (Some None) (Some one ∷ Some two ∷ []) ≡ Some one ∷ None ∷ [] }
    ensures no_place { (one : Box Visitor) → with_place 5 None (Some one ∷ []) ≡ Some one ∷ [] }
    ensures unknown { (was is : Site) (board shown : BoardState) → ServesNext None (Some 3) 70 was board is shown
        → (is ≡ was) × (shown ≡ board) }
    ensures nobody { (site : SocketAddrV4) (was is : Site) (board shown : BoardState) → ServesNext (Some site) None 70 was board is shown
        → (is ≡ was) × (shown ≡ board) }
    ensures next { (site : SocketAddrV4) (was is : Site) (board shown : BoardState) →
        ServesNext (Some site) (Some 3) 70 was board is shown → (is.last ≡ 3) × (is.may_accept ≡ was.may_accept) }
{}

/// A file stands at its own route, and none where something else is told.
pub fn which_file_stands_where_has_examples()
    ensures files { map file_at (Page ∷ Style ∷ Script ∷ []) ≡ Some PAGE.now ∷ Some STYLE.now ∷ Some SCRIPT.now ∷ [] }
    ensures none { map file_at (State ∷ Metrics ∷ Health ∷ Ready ∷ Events 5 ∷ Phone ∷ Nothing ∷ [])
        ≡ None ∷ None ∷ None ∷ None ∷ None ∷ None ∷ None ∷ [] }
{}

/// What is read says of what kind it is, and what a browser may make of it; what isn't there says nothing.
pub fn what_is_read_says_its_kind()
    ensures kinds { map kind_of (contents.Page ∷ contents.Style ∷ contents.Script ∷ contents.Json ∷ contents.Metrics ∷ [])
        ≡ codes "text/html; charset=utf-8" ∷ codes "text/css; charset=utf-8" ∷ codes "text/javascript; charset=utf-8"
        ∷ codes "application/json" ∷ codes "text/plain; version=0.0.4; charset=utf-8" ∷ [] }
    ensures fields { kind_fields contents.Json ≡ (codes "content-type", codes "application/json")
        ∷ (codes "cache-control", codes "no-store") ∷ (codes "x-content-type-options", codes "nosniff")
        ∷ (codes "x-frame-options", codes "DENY") ∷ (codes "referrer-policy", codes "no-referrer")
        ∷ (codes "content-security-policy", policy) ∷ [] }
    ensures what_is_read_says_its_kind_state { fields_at State ≡ kind_fields contents.Json }
    ensures events { fields_at (Events 5) ≡ kind_fields contents.Json }
    ensures what_is_read_says_its_kind_metrics { fields_at Metrics ≡ kind_fields contents.Metrics }
    ensures wellness { map fields_at (Health ∷ Ready ∷ []) ≡ kind_fields contents.Plain ∷ kind_fields contents.Plain ∷ [] }
    ensures plain { kind_of contents.Plain ≡ codes "text/plain; charset=utf-8" }
    ensures files { map fields_at (Page ∷ Style ∷ Script ∷ [])
        ≡ kind_fields contents.Page ∷ kind_fields contents.Style ∷ kind_fields contents.Script ∷ [] }
    ensures what_is_read_says_its_kind_none { map fields_at (Phone ∷ Nothing ∷ []) ≡ [] ∷ [] ∷ [] }
{}
