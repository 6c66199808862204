//! Worked examples of what is noted of datagrams that are handed out, and of the messages that each has, as theorems.
#![tactic(auto)]

ghost use Rattle.std.specs.Prelude.{◌≡◌, ◌+◌, ◌∷◌, [], ⊤, ℕ, List, length, Option, Some, None};
ghost use Rattle.plain_machine.specs.Event.{GatewayEvent};
ghost use Rattle.gateway_core.specs.declared.sent.SentMessage.{SentMessage};
ghost use Rattle.transmission.specs.declared.output.OutDatagram.{OutDatagram};
ghost use Rattle.traces.specs.declared.telling.Mark.{Mark};
ghost use Rattle.traces.specs.declared.telling.Mark.TheVariants.{Lost};
ghost use Rattle.traces.specs.Writing.{Entry, Input, became};
ghost use Rattle.live_play.specs.Readable.{first_unread};
ghost use Rattle.live_play.specs.Running.{Live, IsNoted, AreNoted, messages_behind, HandsEach, HandsFrom, TakesBy};
ghost use Rattle.live_play.specs.Example.{says, loses_the_second, keeps};

/// What stands in a trace of datagrams is what the outlet said of them, by their places: nothing where it said nothing, each that it lost,
/// and no other one. Where none is handed out the outlet stays.
pub fn what_is_noted_is_what_an_outlet_said()
    ensures none { (marks : List Entry) → AreNoted 0 (None ∷ []) marks → marks ≡ [] }
    ensures lost { (marks : List Entry) → AreNoted 0 (Some Lost ∷ []) marks → marks ≡ became Lost 1 ∷ [] }
    ensures second { (marks : List Entry) → AreNoted 0 (None ∷ Some Lost ∷ []) marks → marks ≡ became Lost 2 ∷ [] }
    ensures said { (a b : OutDatagram) (messages : List SentMessage) (said : List (Option Mark))
        → HandsEach loses_the_second (a ∷ b ∷ []) messages 0 said 2 → said ≡ None ∷ Some Lost ∷ [] }
    ensures stays { (messages : List SentMessage) → HandsEach (says None) [] messages 5 [] 6 → ⊥ }
    ensures far { (noted : List Entry) → IsNoted (Some Lost) first_unread noted → noted ≡ [] }
    ensures told { (was is : Live) (to : ℕ) → HandsFrom (λ before gateway told. gateway ≡ is.gateway → ⊥) (says None) was 0 [] is to → ⊥ }
    ensures marked { (was is : Live) (to : ℕ) (input : Input) (event : GatewayEvent) (a : OutDatagram)
        (takes : TakesBy (λ before gateway told. ⊤) (says (Some Lost)) was 0 input event is to) → takes.takes.outputs ≡ a ∷ []
        → takes.takes.marks ≡ became Lost 1 ∷ [] }
{}

/// Each datagram is handed over with the messages that stand in it, in their order: those whose bytes are its own, with a dot line of three
/// bytes between two.
pub fn a_datagram_has_the_messages_that_stand_in_it()
    ensures apart { (a b : OutDatagram) (one other : SentMessage) (said : List (Option Mark)) (is : List (List SentMessage))
        → length a.bytes ≡ one.size → length b.bytes ≡ other.size → HandsEach keeps (a ∷ b ∷ []) (one ∷ other ∷ []) [] said is
        → is ≡ (one ∷ []) ∷ (other ∷ []) ∷ [] }
    ensures together { (a : OutDatagram) (one other : SentMessage) (said : List (Option Mark)) (is : List (List SentMessage))
        → length a.bytes ≡ one.size + 3 + other.size → HandsEach keeps (a ∷ []) (one ∷ other ∷ []) [] said is
        → is ≡ (one ∷ other ∷ []) ∷ [] }
    ensures behind { (a : OutDatagram) (one other : SentMessage) → length a.bytes ≡ one.size
        → messages_behind (a ∷ []) (one ∷ other ∷ []) ≡ other ∷ [] }
{}
