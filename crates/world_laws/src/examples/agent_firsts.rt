//! What an agent takes of the commands of a gateway, as theorems: each once, and of notifications what they tell.
#![tactic(auto, unfolding(crate::proofs::Computing::on_examples))]

ghost use Rattle.std.specs.Prelude.{◌≡◌, ◌++◌, codes, [], ◌∷◌, replicate};
ghost use Rattle.packages.specs.declared.event.LineEvent.TheVariants as events;
ghost use Rattle.packages.specs.declared.observed.Observed.TheVariants.{Happened};
ghost use Rattle.transmission.specs.Looking.{full};
ghost use Rattle.plain_machine.specs.Event.{tick};
ghost use Rattle.plain_machine.specs.Example.{other_agent};
ghost use Rattle.transmission.specs.Transacting.{message_to};
ghost use Rattle.call_agent.specs.Agent.{observed_on, idle};
ghost use Rattle.call_agent.specs.Taking.{transacted_by};
ghost use Rattle.call_agent.specs.Hearing.{hears};
ghost use Rattle.world_laws.specs.Example.{agent_sends, agent_posts, agent_then, seconds_of_agent, from_gateway, from_elsewhere, said, ntfy, lifted_at, by_verb, told_then};

/// Each sentence at an example.
pub fn each_sentence_has_an_example()
    // Of the verbs a gateway's notification alone tells an agent something; all but that and an announcement is 504.
    ensures configuration { agent_sends [] (by_verb (codes "EPCF")) ≡ (0, codes "504 5\r\n") ∷ [] }
    ensures request { agent_sends [] (by_verb (codes "RQNT")) ≡ (0, codes "504 5\r\n") ∷ [] }
    ensures creation { agent_sends [] (by_verb (codes "CRCX")) ≡ (0, codes "504 5\r\n") ∷ [] }
    ensures modification { agent_sends [] (by_verb (codes "MDCX")) ≡ (0, codes "504 5\r\n") ∷ [] }
    ensures deletion { agent_sends [] (by_verb (codes "DLCX")) ≡ (0, codes "504 5\r\n") ∷ [] }
    ensures connection { agent_sends [] (by_verb (codes "AUCX")) ≡ (0, codes "504 5\r\n") ∷ [] }
    // What finds no room is lost.
    ensures what_finds_no_room_at_an_agent_is_lost { transacted_by full (agent_then []) other_agent
        (record { id = 5; confirms = []; code = 200; taken = (record { line = 1; observed = Happened events.OffHook ∷ [] }) ∷ [] })
        ≡ idle (agent_then []) }
{}

/// What other commands than notifications have for an O tells nothing.
pub fn notifications_alone_tell()
    ensures notification { told_then (by_verb (codes "ntfy") ∷ []) ≡ Happened events.OffHook ∷ [] }
    ensures announcement { told_then (by_verb (codes "RSIP") ∷ []) ≡ [] }
    ensures configuration { told_then (by_verb (codes "EPCF") ∷ []) ≡ [] }
    ensures request { told_then (by_verb (codes "RQNT") ∷ []) ≡ [] }
    ensures creation { told_then (by_verb (codes "CRCX") ∷ []) ≡ [] }
    ensures modification { told_then (by_verb (codes "MDCX") ∷ []) ≡ [] }
    ensures deletion { told_then (by_verb (codes "DLCX") ∷ []) ≡ [] }
    ensures endpoint { told_then (by_verb (codes "AUEP") ∷ []) ≡ [] }
    ensures connection { told_then (by_verb (codes "AUCX") ∷ []) ≡ [] }
    ensures other { told_then (by_verb (codes "ABCD") ∷ []) ≡ [] }
{}

/// A notification tells what its first O says: nothing where it has none, or one that can't be read; it is answered all the same.
pub fn a_notification_tells_what_its_o_says()
    ensures absent { told_then (from_gateway (ntfy 5 (codes "X: 0\r\n")) ∷ []) ≡ [] }
    ensures absent_answered { agent_sends [] (from_gateway (ntfy 5 (codes "X: 0\r\n"))) ≡ (0, codes "200 5 OK\r\n") ∷ [] }
    ensures unreadable { told_then (from_gateway (ntfy 5 (codes "O: L/hd,L/xx\r\n")) ∷ []) ≡ [] }
    ensures unreadable_answered { agent_sends [] (from_gateway (ntfy 5 (codes "O: L/hd,L/xx\r\n"))) ≡ (0, codes "200 5 OK\r\n") ∷ [] }
    ensures first { told_then (from_gateway (ntfy 5 (codes "O: L/hu\r\nO: L/hd\r\n")) ∷ []) ≡ Happened events.OnHook ∷ [] }
    ensures joined { told_then (from_gateway (ntfy 5 (codes "O: L/hd\r\n")) ∷ from_gateway (ntfy 6 (codes "O: L/hu,L/hf\r\n")) ∷ [])
        ≡ Happened events.OffHook ∷ Happened events.OnHook ∷ Happened events.Flash ∷ [] }
{}

/// It tells that of its line; that of another name is answered, and tells nothing. Of a line that there isn't nothing was told.
pub fn each_line_has_what_was_told_of_it()
    ensures last { (agent_then (lifted_at (codes "AALN/2@RGW.example.net") ∷ [])).taken ≡ [] ∷ (Happened events.OffHook ∷ []) ∷ [] }
    ensures line_2 { observed_on 2 (agent_then (lifted_at (codes "aaln/2@rgw.example.net") ∷ [])) ≡ Happened events.OffHook ∷ [] }
    ensures line_3 { (agent_then (lifted_at (codes "aaln/3@rgw.example.net") ∷ [])).taken ≡ [] ∷ [] ∷ [] }
    ensures all_lines { (agent_then (lifted_at (codes "*@rgw.example.net") ∷ [])).taken ≡ [] ∷ [] ∷ [] }
    ensures any_line { (agent_then (lifted_at (codes "$@rgw.example.net") ∷ [])).taken ≡ [] ∷ [] ∷ [] }
    ensures other_domain { (agent_then (lifted_at (codes "aaln/1@example.net") ∷ [])).taken ≡ [] ∷ [] ∷ [] }
    ensures answered { agent_sends [] (lifted_at (codes "aaln/3@rgw.example.net")) ≡ (0, codes "200 5 OK\r\n") ∷ [] }
    ensures of_line_0 { observed_on 0 (agent_then (lifted_at (codes "aaln/1@rgw.example.net") ∷ [])) ≡ [] }
    ensures of_line_3 { observed_on 3 (agent_then (lifted_at (codes "aaln/2@rgw.example.net") ∷ [])) ≡ [] }
{}

/// A copy less than 30,000 ms after the first gets the stored answer, to where it came from, whatever else it says, and tells
/// nothing; from then on it is new.
pub fn a_copy_gets_the_stored_answer()
    ensures late { agent_posts (from_gateway (ntfy 5 (codes "O: L/hd\r\n")) ∷ seconds_of_agent 29 ++ hears (tick 29999) ∷ [])
        (from_elsewhere (ntfy 5 (codes "O: L/hd\r\n"))) ≡ message_to other_agent 29999 (codes "200 5 OK\r\n") ∷ [] }
    ensures once { told_then (from_gateway (ntfy 5 (codes "O: L/hd\r\n")) ∷ seconds_of_agent 29 ++ hears (tick 29999)
        ∷ from_gateway (ntfy 5 (codes "O: L/hd\r\n")) ∷ []) ≡ Happened events.OffHook ∷ [] }
    ensures new { told_then (from_gateway (ntfy 5 (codes "O: L/hd\r\n")) ∷ seconds_of_agent 30
        ++ from_gateway (ntfy 5 (codes "O: L/hd\r\n")) ∷ []) ≡ Happened events.OffHook ∷ Happened events.OffHook ∷ [] }
    ensures from_the_first { told_then (hears (tick 500) ∷ from_gateway (ntfy 5 (codes "O: L/hd\r\n")) ∷ seconds_of_agent 30
        ++ from_gateway (ntfy 5 (codes "O: L/hd\r\n")) ∷ []) ≡ Happened events.OffHook ∷ [] }
    ensures other_verb { agent_sends (from_gateway (ntfy 5 []) ∷ []) (by_verb (codes "AUEP")) ≡ (0, codes "200 5 OK\r\n") ∷ [] }
    ensures other_body { agent_sends (by_verb (codes "AUEP") ∷ []) (from_gateway (ntfy 5 (codes "X\r\n"))) ≡ (0, codes "504 5\r\n") ∷ [] }
    ensures first_source { agent_posts [] (from_elsewhere (ntfy 5 [])) ≡ message_to other_agent 0 (codes "200 5 OK\r\n") ∷ [] }
{}

/// What a first confirms gets silence from then on, whatever the first is answered; its own id is confirmed by later ones alone.
pub fn what_is_confirmed_gets_silence()
    ensures named { agent_sends (from_gateway (ntfy 5 []) ∷ from_gateway (ntfy 6 (codes "K: 5\r\n")) ∷ []) (from_gateway (ntfy 5 [])) ≡ [] }
    ensures not_named { agent_sends (from_gateway (ntfy 5 []) ∷ from_gateway (ntfy 6 (codes "K: 4,6-7\r\n")) ∷ [])
        (from_gateway (ntfy 5 []))
        ≡ (0, codes "200 5 OK\r\n") ∷ [] }
    ensures refused { agent_sends (from_gateway (ntfy 6 []) ∷ from_gateway (said (codes "AUEP") 7 (codes "a@b") (codes "K: 6\r\n")) ∷ [])
        (from_gateway (ntfy 6 [])) ≡ [] }
    ensures its_own { agent_sends (from_gateway (ntfy 6 (codes "K: 6\r\n")) ∷ []) (from_gateway (ntfy 6 []))
        ≡ (0, codes "200 6 OK\r\n") ∷ [] }
    ensures unreadable { agent_sends (from_gateway (ntfy 5 []) ∷ from_gateway (ntfy 6 (codes "K: 5\r\nX\r\n")) ∷ [])
        (from_gateway (ntfy 5 []))
        ≡ (0, codes "200 5 OK\r\n") ∷ [] }
    ensures repeat { agent_sends (from_gateway (ntfy 5 []) ∷ from_gateway (ntfy 6 []) ∷ from_gateway (ntfy 6 (codes "K: 5\r\n")) ∷ [])
        (from_gateway (ntfy 5 [])) ≡ (0, codes "200 5 OK\r\n") ∷ [] }
    ensures not_told { told_then (from_gateway (ntfy 5 []) ∷ from_gateway (ntfy 6 (codes "K: 5\r\n"))
        ∷ from_gateway (ntfy 5 (codes "O: L/hd\r\n")) ∷ [])
        ≡ [] }
{}

/// The texts of a datagram are taken one after the other; those of more than 4,000 bytes aren't.
pub fn an_agent_takes_each_text()
    ensures both { told_then (from_gateway (ntfy 5 (codes "O: L/hd\r\n") ++ codes ".\r\n" ++ ntfy 6 (codes "O: L/hu\r\n")) ∷ [])
        ≡ Happened events.OffHook ∷ Happened events.OnHook ∷ [] }
    ensures once { told_then (from_gateway (ntfy 5 (codes "O: L/hd\r\n") ++ codes ".\r\n" ++ ntfy 5 (codes "O: L/hd\r\n")) ∷ [])
        ≡ Happened events.OffHook ∷ [] }
    ensures answered_twice { agent_sends [] (from_gateway (ntfy 5 [] ++ codes ".\r\n" ++ ntfy 5 []))
        ≡ (0, codes "200 5 OK\r\n") ∷ (0, codes "200 5 OK\r\n") ∷ [] }
    ensures longest { agent_sends [] (from_gateway (codes "AUEP 12\r\n" ++ replicate 3991 10)) ≡ (0, codes "510 12\r\n") ∷ [] }
    ensures too_long { agent_sends [] (from_gateway (codes "AUEP 12\r\n" ++ replicate 3992 10)) ≡ [] }
{}
