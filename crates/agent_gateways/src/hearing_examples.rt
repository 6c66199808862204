//! Worked examples of what it is to a board that something comes from a gateway, as theorems.
#![tactic(auto, unfolding(crate::proofs::Computing::on_examples))]

ghost use Rattle.std.specs.Prelude.{◌≡◌, [], ◌∷◌, ℕ, true, false, List, Option, Some, None, Ok, Err, codes, option_map, slice_get};
ghost use Rattle.std.specs.Global.{Box};
ghost use Rattle.mgcp_text.specs.declared.message.Message.TheVariants as messages;
ghost use Rattle.mgcp_text.specs.declared.message.Param.{Param};
ghost use Rattle.mgcp_text.specs.Reading.{bad_body, bad_version, no_header, read_text, takes_memory};
ghost use Rattle.endpoint_names.specs.declared.name.NameFault.TheVariants.{Unknown};
ghost use Rattle.packages.specs.declared.observed.Observed.{Observed};
ghost use Rattle.agent_log.specs.declared.journal.Journal.{Journal};
ghost use Rattle.agent_log.specs.declared.station.Station.{Station};
ghost use Rattle.agent_log.specs.declared.tally.Tally.{Tally};
ghost use Rattle.agent_gateways.specs.declared.gateway.Gateway.{Gateway};
ghost use Rattle.line_control.specs.declared.office.Office.{Office};
ghost use Rattle.agent_gateways.specs.declared.switchboard.Switchboard.{Switchboard};
ghost use Rattle.line_control.specs.declared.worklist.Worklist.{Worklist};
ghost use Rattle.agent_gateways.specs.Ended.{first_ended, still_flying};
ghost use Rattle.agent_gateways.specs.GivingUp.{ended_in, Ends, EndsAt, ForgetsFlight, ForgetsFor, GivesUp};
ghost use Rattle.line_control.specs.declared.care.Care.{Care};
ghost use Rattle.line_control.specs.Duties.{woken};
ghost use Rattle.line_control.specs.Orders.{cared};
ghost use Rattle.agent_gateways.specs.declared.gateway.Wake.{Wake};
ghost use Rattle.agent_gateways.specs.Boards.{Holds, SettlesIn};
ghost use Rattle.agent_gateways.specs.Hearing.{announcement_counted, is_new_to, is_strange_at, line_meant, method_of, response_counted};
ghost use Rattle.agent_gateways.specs.Hearing.{AnnouncesNew, AnnouncesWith, AnswersFlight, AnswersFor, AnswersIn, HearsAnnouncement, HearsCommand};
ghost use Rattle.agent_gateways.specs.Hearing.{HearsNotification, HearsResponse, HearsText, HearsUnread, Notes, NotesAt, Waits};
ghost use Rattle.agent_gateways.specs.Hearing.{command_counted, is_strange, message_counted, notified_line, outcome_counted};
ghost use Rattle.agent_gateways.specs.Hearing.{AnnouncesAs, HearsMessage, HearsOutcome};
ghost use Rattle.line_control.specs.Steps.{Forgets};
ghost use Rattle.line_control.specs.Waiting.{Touches};
ghost use Rattle.agent_gateways.specs.Steps.{AnnouncesTo, InOffice, OfOffice};
ghost use Rattle.agent_gateways.specs.Taking.{first_of, with_taken, HearsIf, IsObserved, TakesFrom, TakesTold};
ghost use Rattle.line_control.specs.Example.{param};
ghost use Rattle.agent_gateways.specs.Typed.{command_in, said_in};
ghost use Rattle.agent_gateways.specs.Example.{flying, wake_at};

use endpoint_names::Pattern;
use mgcp_text::Verb;

/// Which command in flight is over.
pub fn what_ends_has_examples()
    // The first that a final response answers isn't in flight any more; those before it and behind it are.
    ensures answered { first_ended (Some (8, 200)) 100 (flying 7 0 ∷ flying 8 1 ∷ flying 9 2 ∷ [])
        ≡ Some (flying 8 1) }
    ensures left { still_flying (Some (8, 200)) 100 (flying 7 0 ∷ flying 8 1 ∷ flying 9 2 ∷ []) ≡ flying 7 0 ∷ flying 9 2 ∷ [] }
    ensures unknown { first_ended (Some (6, 200)) 100 (flying 7 0 ∷ flying 8 1 ∷ []) ≡ None }
    ensures provisional { first_ended (Some (8, 100)) 100 (flying 7 0 ∷ flying 8 1 ∷ []) ≡ None }
    // Without a response, the first that is given up by now.
    ensures given_up { option_map (λ flight. flight.line) (first_ended None 23500 (flying 7 0 ∷ flying 8 1 ∷ [])) ≡ Some (Some 0) }
    ensures not_yet { first_ended None 499 (flying 7 0 ∷ flying 8 1 ∷ []) ≡ None }
    ensures no_gateway { ended_in None None ≡ None }
    ensures by_its_clock { (gateway : Gateway) → gateway.ticked ≡ 100 → gateway.flights.items ≡ flying 8 1 ∷ [] →
        ended_in (Some (8, 200)) (Some gateway) ≡ Some (flying 8 1) }
    ensures nothing_else { (was is : Gateway) → was.ticked ≡ 100 → was.flights.items ≡ flying 7 0 ∷ flying 8 1 ∷ [] →
        is.flights.items ≡ flying 7 0 ∷ [] → is ≡ record was { flights = is.flights } → Ends (Some (8, 200)) was is }
    // The exchange is told of what it sent to a line, and of nothing else.
    ensures nothing_forgotten { (office : Option (Box Office)) → ForgetsFlight None office office }
    ensures typed { (office : Option (Box Office)) → ForgetsFor None office office }
    ensures sent { (was is : Option (Box Office)) → OfOffice (Forgets 1) was is → InOffice (Touches 1) was is →
        ForgetsFlight (Some (flying 8 1)) was is }
    ensures sent_waits { (was is : Box Office) → ForgetsFlight (Some (flying 8 1)) (Some was) (Some is) → Touches 1 was.value is.value }
{}

/// What a response, an announcement, a notification and a strange name mean, and what counts.
pub fn what_is_heard_has_examples()
    // Nobody is told of an answer where there is no such gateway, or no exchange; nor of one to what was typed.
    ensures answered_nowhere { (office : Option (Box Office)) → AnswersIn 0 200 [] None office None office }
    ensures no_exchange { (gateway after : Gateway) → AnswersIn 0 200 [] (Some gateway) None (Some after) None }
    ensures typed { (board : Switchboard) → AnswersFor 0 None 200 [] board board }
    // Without a word for it lines are announced as started again.
    ensures no_word { method_of None ≡ codes "restart" }
    ensures word { method_of (Some (param (codes "RM") (codes "graceful"))) ≡ codes "graceful" }
    // Case makes no difference to that; a word that the exchange doesn't know is nothing to it, nor is what isn't new.
    ensures restart { (name : List ℕ) (gateway : Option Gateway) (was is : Option (Box Office)) → AnnouncesTo true name gateway was is →
        AnnouncesWith (codes "Restart") name gateway was is }
    ensures disconnected { (name : List ℕ) (gateway : Option Gateway) (was is : Option (Box Office)) →
        AnnouncesTo false name gateway was is → AnnouncesWith (codes "disconnected") name gateway was is }
    ensures graceful { (name : List ℕ) (gateway : Option Gateway) (office : Option (Box Office)) →
        AnnouncesWith (codes "graceful") name gateway office office }
    ensures again { (method name : List ℕ) (gateway : Option Gateway) (office : Option (Box Office)) →
        AnnouncesNew false method name gateway office office }
    ensures no_gateway { is_new_to 7 None ≡ false }
    ensures first { (gateway : Gateway) → gateway.announced ≡ None → is_new_to 7 (Some gateway) ≡ true }
    ensures noted { (was is : Gateway) → was.announced ≡ None → was.ticked ≡ 100 → is ≡ record was { announced = Some (7, 100) } →
        Notes 7 was is }
    // A notification is of one line, which has its place behind the first of its gateway.
    ensures line { line_meant 4 (Ok (Pattern.One 2)) ≡ Some 5 }
    ensures all { line_meant 4 (Ok Pattern.All) ≡ None }
    ensures any { line_meant 4 (Ok Pattern.Any) ≡ None }
    ensures none { line_meant 4 (Err Unknown) ≡ None }
    ensures nobody_waits { (list : Worklist) → Waits None list list }
    // What counts, and what doesn't.
    ensures unanswered { (tally : Tally) → response_counted 7 200 None tally ≡ tally }
    ensures not_new { (tally : Tally) → announcement_counted 7 None tally ≡ tally }
    ensures unknown { is_strange_at (codes "aaln/1@here") None ≡ false }
    // What is no message is nothing to it; nothing is told of what memory is refused for.
    ensures no_message { (board : Switchboard) (journal : Journal) → HearsText 0 [] board journal board journal }
    ensures unread { (text : List ℕ) (was is : Switchboard) (journal : Journal) → takes_memory (read_text text) ≡ true →
        HearsUnread was is → HearsText 0 text was journal is journal }
{}

/// What a text does to a board: of that no more changes than is said.
pub fn what_a_text_does_has_examples()
    // A response ends the command that it answers, and nothing else of a gateway; then its line is told.
    ensures response { (was is : Switchboard) → HearsResponse 0 7 200 [] was is → (ended : Switchboard) × EndsAt 0 (Some (7, 200)) was ended
        × AnswersFlight 0 (ended_in (Some (7, 200)) (slice_get was.gateways.items 0)) 200 [] ended is }
    ensures ends_at { (was is : Switchboard) → EndsAt 0 (Some (7, 200)) was is → (is.office ≡ was.office) × (is.stations ≡ was.stations) }
    // An announcement is noted, and told where it is new.
    ensures announcement { (was is : Switchboard) → HearsAnnouncement 0 7 [] [] was is →
        (is.stations ≡ was.stations) × (is.notifying ≡ was.notifying) }
    ensures told_where_new { (was is : Switchboard) → HearsAnnouncement 0 7 (codes "x") [] was is → (noted : Switchboard)
        × NotesAt 0 7 was noted
        × AnnouncesNew (is_new_to 7 (slice_get was.gateways.items 0)) (codes "restart") (codes "x") (slice_get noted.gateways.items 0)
        noted.office is.office }
    // A notification lets its line wait to be taken; any other command is nothing to a board.
    ensures notification { (was is : Switchboard) → HearsNotification 0 [] was is →
        (is.office ≡ was.office) × (is.gateways ≡ was.gateways) × (is.stations ≡ was.stations) }
    ensures notifies { (was is : Switchboard) → HearsCommand Verb.Ntfy 0 7 [] [] was is → HearsNotification 0 [] was is }
    ensures announces { (was is : Switchboard) → HearsCommand Verb.Rsip 0 7 [] [] was is → HearsAnnouncement 0 7 [] [] was is }
    ensures creates { (was is : Switchboard) → HearsCommand Verb.Crcx 0 7 [] [] was is → is ≡ was }
    ensures audits { (was is : Switchboard) → HearsCommand Verb.Auep 0 7 [] [] was is → is ≡ was }
    // What is given up is over, and its line is told.
    ensures gives_up { (was is : Switchboard) → GivesUp 0 was is → (ended : Switchboard) × EndsAt 0 None was ended
        × ForgetsFlight (ended_in None (slice_get was.gateways.items 0)) ended.office is.office }
    ensures gives_up_alone { (was is : Switchboard) → GivesUp 0 was is → (is.stations ≡ was.stations) × (is.notifying ≡ was.notifying) }
    // Those lines that waited are settled from then on; nothing else of the exchange changes.
    ensures settles { (was is : Box Office) → SettlesIn (Some was) (Some is) → (is.value.cares ≡ was.value.cares)
        × (is.value.exchange ≡ was.value.exchange) × (is.value.worklist.waiting.items ≡ []) }
{}

/// What a message is to a board is by its kind, and what is none is nothing to it.
pub fn what_a_message_is_has_examples()
    ensures response { (params : List Param) (body text : List ℕ) (was is : Switchboard) →
        HearsMessage (messages.Response 200 7 params body) 0 text was is → HearsResponse 0 7 200 text was is }
    ensures command { (name body text : List ℕ) (params : List Param) (was is : Switchboard) →
        HearsMessage (messages.Command Verb.Crcx 7 name params body) 0 text was is → is ≡ was }
    ensures no_header { (text : List ℕ) (was is : Switchboard) → HearsOutcome no_header 0 text was is → is ≡ was }
    ensures bad_version { (text : List ℕ) (was is : Switchboard) → HearsOutcome (bad_version 7) 0 text was is → is ≡ was }
    ensures bad_body { (text : List ℕ) (was is : Switchboard) → HearsOutcome (bad_body 7) 0 text was is → is ≡ was }
    ensures graceful { (name : List ℕ) (gateway : Option Gateway) (was is : Option (Box Office)) →
        AnnouncesAs false false name gateway was is → is ≡ was }
    ensures of_no_gateway { (name : List ℕ) → notified_line name None ≡ None }
    // A response that answers something counts, and so does an announcement that is new; any other command doesn't.
    ensures response_counts { (params : List Param) (body : List ℕ) (gateway : Option Gateway) (tally : Tally) →
        message_counted (messages.Response 200 7 params body) gateway tally ≡ response_counted 7 200 gateway tally }
    ensures announcement_counts { (name body : List ℕ) (params : List Param) (gateway : Option Gateway) (tally : Tally) →
        message_counted (messages.Command Verb.Rsip 7 name params body) gateway tally ≡ announcement_counted 7 gateway tally }
    ensures notification_counts_later { (gateway : Option Gateway) (tally : Tally) → command_counted Verb.Ntfy 7 gateway tally ≡ tally }
    ensures other_counts_not { (gateway : Option Gateway) (tally : Tally) → command_counted Verb.Other 7 gateway tally ≡ tally }
    ensures unread_counts_not { (gateway : Option Gateway) (tally : Tally) → outcome_counted no_header gateway tally ≡ tally }
    ensures other_version_counts_not { (gateway : Option Gateway) (tally : Tally) → outcome_counted (bad_version 7) gateway tally ≡ tally }
    ensures bad_body_counts_not { (gateway : Option Gateway) (tally : Tally) → outcome_counted (bad_body 7) gateway tally ≡ tally }
    // A command's name may be strange to its gateway; a response has none.
    ensures strange { (name body : List ℕ) (params : List Param) (gateway : Option Gateway) →
        is_strange (messages.Command Verb.Ntfy 7 name params body) gateway ≡ is_strange_at name gateway }
    ensures nameless { (params : List Param) (body : List ℕ) (gateway : Option Gateway) →
        is_strange (messages.Response 200 7 params body) gateway ≡ false }
    // What was put off of a line is kept, to be sent again; where nothing was, nothing is.
    ensures nothing_held { (cares kept : List Care) (wakes held : List Wake) → Holds None 1 cares wakes kept held →
        (kept ≡ cares) × (held ≡ wakes) }
    ensures holds { (cares : List Care) → Holds (Some 70) 1 cares (wake_at 7 0 ∷ []) cares (wake_at 7 0 ∷ wake_at 70 1 ∷ []) }
    ensures at_once { (cares : List Care) (wakes : List Wake) → Holds (Some 70) 1 cares wakes (cared (woken 70) cares 1) wakes }
    // A command that is typed is a verb and a name.
    ensures nothing_typed { command_in [] ≡ None }
    ensures no_word { said_in [] [] ≡ None }
    ensures verb_alone { said_in (codes "AUEP" ∷ []) [] ≡ None }
    ensures both { said_in (codes "AUEP" ∷ codes "aaln/1" ∷ []) [] ≡ Some (codes "AUEP", (codes "aaln/1", [])) }
    ensures one_too_many { said_in (codes "AUEP" ∷ codes "1" ∷ codes "aaln/1" ∷ []) [] ≡ None }
{}

/// What is taken of a line.
pub fn what_is_taken_has_examples()
    // What was taken of a line is kept; where it told nothing more nothing is taken, nor where there is no line or no gateway.
    ensures nothing_told { (office : Option (Box Office)) → HearsIf false [] 0 [] office office }
    ensures no_exchange { (told : List Observed) → HearsIf true [] 0 told None None }
    ensures nothing_taken { (observed : List Observed) (station : Station) → with_taken false observed station ≡ station }
    ensures taken { (event : Observed) (station : Station) →
        with_taken true (event ∷ event ∷ []) station ≡ record station { taken = 2 } }
    ensures no_line { (gateway : Gateway) (board : Switchboard) → TakesTold 0 (Some gateway) None false board board }
    ensures no_gateway { (station : Option Station) (board : Switchboard) → TakesTold 0 None station false board board }
    // The place of the first line of a gateway.
    ensures first { (gateway : Gateway) → gateway.first ≡ 4 → first_of (Some gateway) ≡ 4 }
    ensures none { first_of None ≡ 0 }
{}

/// What a line told is taken as far as it wasn't before.
pub fn what_was_told_is_taken_once()
    ensures told { (gateway : Gateway) (station after : Station) (one two : Observed) (was is : Option (Box Office)) →
        IsObserved station.line gateway (one ∷ two ∷ []) → station.taken ≡ 1 → HearsIf true [] 3 (two ∷ []) was is →
        after ≡ record station { taken = 2 } → TakesFrom [] 3 gateway station true was is after }
    ensures not_again { (gateway : Gateway) (station : Station) (one : Observed) (office : Option (Box Office)) →
        IsObserved station.line gateway (one ∷ []) → station.taken ≡ 1 → TakesFrom [] 3 gateway station false office office station }
    ensures nothing { (gateway : Gateway) (station after : Station) (was is : Option (Box Office)) →
        TakesFrom [] 3 gateway station false was is after → (is ≡ was) × (after ≡ station) }
{}
