//! Since when an agent owes an answer, and what is counted of datagrams and of sends by place, as theorems.
#![tactic(auto, unfolding(crate::proofs::Computing::on_examples))]

ghost use Rattle.std.specs.Prelude.{◌≡◌, false, true, [], ◌∷◌, Some, None, replicate};
ghost use Rattle.mgcp_text.specs.declared.message.Verb.TheVariants.{Rqnt, Ntfy};
ghost use Rattle.gateway_core.specs.declared.outcome.Reply.TheVariants.{Silence};
ghost use Rattle.gateway_core.specs.declared.outcome.TextOutcome.TheVariants.{NoMessage, Command, Response};
ghost use Rattle.plain_machine.specs.declared.label.What.TheVariants as whats;
ghost use Rattle.message_counts.specs.Example.{host, said};
ghost use Rattle.endpoint_names.specs.declared.route.Route.TheVariants.{One, Two};
ghost use Rattle.message_counts.specs.Places.{no_sends, is_sent_to, place_among, with_send, with_sends};
ghost use Rattle.message_counts.specs.Tallying.{with_received, with_handed_out, with_stranger, CountsNoDatagram};
ghost use Rattle.message_counts.specs.declared.message_tally.MessageTally.{MessageTally};
ghost use Rattle.message_counts.specs.Waiting.{unanswered_after};

/// An agent owes an answer from the first command of the gateway's own on, sent or sent again, that came behind its last response.
pub fn an_agent_owes_an_answer_until_it_gives_one()
    ensures nothing { unanswered_after None [] [] ≡ None }
    ensures asked { unanswered_after None [] (said (host 7) (whats.Command Ntfy) ∷ []) ≡ Some 1000 }
    ensures asked_again { unanswered_after None [] (said (host 7) (whats.Resent Ntfy 2) ∷ []) ≡ Some 1000 }
    ensures first { unanswered_after None [] (said (host 7) (whats.Answer 200) ∷ said (host 7) (whats.Command Ntfy)
        ∷ record (said (host 7) (whats.Command Ntfy)) { moment = 1001 } ∷ []) ≡ Some 1000 }
    ensures no_command { unanswered_after None [] (said (host 7) (whats.Answer 200) ∷ []) ≡ None }
    ensures still_owed { unanswered_after (Some 500) [] (said (host 7) (whats.Resent Ntfy 2) ∷ []) ≡ Some 500 }
    ensures answered { unanswered_after (Some 500) (NoMessage ∷ Response 9 false ∷ []) [] ≡ None }
    ensures command_came { unanswered_after (Some 500) (NoMessage ∷ Command (Some Rqnt) 1207 Silence ∷ []) [] ≡ Some 500 }
    ensures asked_behind { unanswered_after (Some 500) (Response 9 true ∷ []) (said (host 7) (whats.Command Ntfy) ∷ []) ≡ Some 1000 }
{}

/// A datagram counts once, and nothing else with it.
pub fn a_datagram_counts_alone()
    ensures came { (tally : MessageTally) → with_received (record tally { datagrams_in = 3 }) ≡ record tally { datagrams_in = 4 } }
    ensures went { (tally : MessageTally) → with_handed_out (record tally { datagrams_out = 3 }) ≡ record tally { datagrams_out = 4 } }
    ensures strange { (tally : MessageTally) → with_stranger (record tally { strangers = 3 }) ≡ record tally { strangers = 4 } }
    ensures none_came { (was is : MessageTally) → CountsNoDatagram was is → is.datagrams_in ≡ was.datagrams_in }
    ensures none_went { (was is : MessageTally) → CountsNoDatagram was is → is.datagrams_out ≡ was.datagrams_out }
    ensures none_strange { (was is : MessageTally) → CountsNoDatagram was is → is.strangers ≡ was.strangers }
{}

/// A send counts at the place that it goes to, behind the agent's addresses where it goes to none of them.
pub fn a_send_counts_where_it_goes()
    ensures at_first { no_sends ≡ replicate 5 0 }
    ensures there { is_sent_to (Two (host 7) (host 8)) 1 (said (host 8) (whats.Command Ntfy)) ≡ true }
    ensures again { is_sent_to (Two (host 7) (host 8)) 1 (said (host 8) (whats.Resent Ntfy 2)) ≡ true }
    ensures elsewhere { is_sent_to (Two (host 7) (host 8)) 0 (said (host 8) (whats.Command Ntfy)) ≡ false }
    ensures nowhere { is_sent_to (Two (host 7) (host 8)) 4 (said (host 9) (whats.Command Ntfy)) ≡ true }
    ensures answer { is_sent_to (Two (host 7) (host 8)) 1 (said (host 8) (whats.Answer 200)) ≡ false }
{}

/// A send of a command of its own counts at the first place that its receiver has among the agent's addresses, or behind them.
pub fn a_send_counts_at_one_place()
    ensures first { with_send (Two (host 7) (host 8)) (replicate 5 0) (said (host 7) (whats.Command Ntfy))
        ≡ 1 ∷ 0 ∷ 0 ∷ 0 ∷ 0 ∷ [] }
    ensures second { with_send (Two (host 7) (host 8)) (replicate 5 0) (said (host 8) (whats.Resent Ntfy 3)) ≡ 0 ∷ 1 ∷ 0 ∷ 0 ∷ 0 ∷ [] }
    ensures other { with_send (Two (host 7) (host 8)) (replicate 5 0) (said (host 9) (whats.Command Ntfy))
        ≡ 0 ∷ 0 ∷ 0 ∷ 0 ∷ 1 ∷ [] }
    ensures twice { with_send (Two (host 7) (host 7)) (replicate 5 0) (said (host 7) (whats.Command Ntfy)) ≡ 1 ∷ 0 ∷ 0 ∷ 0 ∷ 0 ∷ [] }
    ensures answer { with_send (One (host 7)) (replicate 5 0) (said (host 7) (whats.Answer 200))
        ≡ replicate 5 0 }
    ensures two { with_sends (One (host 7)) (replicate 5 0) (said (host 7) (whats.Command Ntfy) ∷ said (host 7) (whats.Resent Ntfy 2) ∷ [])
        ≡ 2 ∷ 0 ∷ 0 ∷ 0 ∷ 0 ∷ [] }
    ensures other_port { place_among (One (host 7)) (record (host 7) { port = 2728 }) ≡ 4 }
{}
