//! What a stranger sends changes nothing, nor does what a gateway sends itself, and what comes from others is an event: laws, whose
//! functions do nothing.
ghost use Rattle.std.specs.Prelude.{◌≡◌, ◌+◌, ◌++◌, ◌<◌, ◌-◌, ◌^◌, ℕ, true, codes, List, [], ◌∷◌, map, Some};
ghost use Rattle.live_io.specs.Sending.{Sent, Received};
ghost use Rattle.gateway_core.specs.Stands.{Stands};
ghost use Rattle.plain_machine.specs.Event.{GatewayEvent};
ghost use Rattle.machine_rules.specs.declared.refusal.Refusal.{Refusal};
ghost use Rattle.machine_rules.specs.declared.refusal.Refusal.TheVariants.{NoSuchLine};
ghost use Rattle.rgw_scripts.specs.Moves.{give, ask, sends, refuses};
ghost use Rattle.traces.specs.Writing.{Entry, IsPlay, typed, showed, became, taken_after, sent_in};
ghost use Rattle.traces.specs.declared.telling.Mark.{Mark};
ghost use Rattle.live_play.specs.Coming.{arrived_in};
ghost use Rattle.live_play.specs.Running.{AreFrom, sent_of};
ghost use Rattle.live_gateway.specs.declared.admission.Admission.{Admission};
ghost use Rattle.live_gateway.specs.Admitting.{heard_of};
ghost use Rattle.live_gateway.specs.Desk.{IsHeard, Standing, with_input, refusals_in, GoesOnBy};

/// However a desk went on, there are entries of a play at which each datagram came from who is heard; what the gateway took is theirs,
/// and what was handed out is what it sends for them. So nothing that a stranger sends is an event, nor anything that came from the
/// gateway's own sockets, and nothing answers it.
pub fn what_a_stranger_sends_changes_nothing()
    ensures { (admission : Admission) (was is : Standing) (entries : List Entry) (came : List Received) (missing : ℕ)
        (before : List GatewayEvent) (were are : List Sent)
        → GoesOnBy admission was is entries came missing → Stands was.live.gateway before
        → was.live.handed ≡ Some were → is.live.handed ≡ Some are
        → AreFrom (IsHeard admission) entries × IsPlay was.live.gateway.setup before entries
        × Stands is.live.gateway (taken_after was.live.gateway.setup before entries)
        × (are ≡ were ++ map sent_of (sent_in entries)) }
{}

/// However a desk went on, the datagrams that came in at its entries are all those that came but what isn't heard, each with its bytes, in
/// their order, where memory was refused for none of them. It was for none where no more inputs were refused than acts of which an entry
/// says why, as of a key that is pressed on hook; but a count that has come to its end, 2^64 - 1, tells nothing of that. Nor is one missing
/// where memory is refused for an act or a tick.
pub fn each_datagram_that_is_heard_is_an_event()
    ensures taken { (admission : Admission) (was is : Standing) (entries : List Entry) (came : List Received) (missing : ℕ)
        (were are : List Received)
        → GoesOnBy admission was is entries came missing
        → was.came.received ≡ Some were → is.came.received ≡ Some are
        → missing ≡ 0
        → (are ≡ were ++ came) × (arrived_in entries ≡ heard_of admission came) }
    ensures none_missing { (admission : Admission) (was is : Standing) (entries : List Entry) (came : List Received) (missing : ℕ)
        → GoesOnBy admission was is entries came missing
        → is.came.refused ≡ was.came.refused + refusals_in entries → is.came.refused < 2 ^ 64 - 1
        → missing ≡ 0 }
    ensures refuses_an_act { (admission : Admission) (was : Standing) → GoesOnBy admission was (with_input true was) [] [] 0 }
    ensures told { (event : GatewayEvent) (refusal : Refusal) →
        refusals_in (showed (typed (codes "phone 1 5")) (give event) (refuses refusal) ∷ []) ≡ 1 }
    ensures untold { (event : GatewayEvent) (mark : Mark) → refusals_in (showed (typed (codes "phone 1 off")) (give event) (sends [])
        ∷ became mark 1 ∷ showed (typed (codes "show 97")) (ask 97) (refuses NoSuchLine) ∷ []) ≡ 0 }
{}
