//! Worked examples of the definitions, as theorems: each sentence of a definition has one that a slip in it breaks.
#![tactic(auto, unfolding(crate::proofs::Computing::on_examples))]

ghost use Rattle.std.specs.Prelude.{◌≡◌, ◌++◌, [], ◌∷◌, true, false, Some, codes, None};
ghost use Rattle.agent_core.specs.World.{gateway_in, world_opening, steps_are_taken};
ghost use Rattle.plain_machine.specs.Example.{two_lines, rqnt, response};
ghost use Rattle.plain_machine.specs.Lists.{plain, sent_of};
ghost use Rattle.plain_machine.specs.Machine.{endpoint_at};
ghost use Rattle.plain_machine.specs.Setup.{IsSetUp};
ghost use Rattle.machine_laws.specs.Saying.{HasNumbersLeft};
ghost use Rattle.world_laws.specs.Reached.{own_in};
ghost use Rattle.machine_laws.specs.Belonging.{of_line};
ghost use Rattle.world_laws.specs.Course.{course_from, course_of, acts as does, notifies};
ghost use Rattle.world_laws.specs.GivenUp.{has_given_up};
ghost use Rattle.world_laws.specs.Dialled.{IsAskedForAll};
ghost use Rattle.world_laws.specs.Keeping.{happened_in};
ghost use Rattle.world_laws.specs.OnceExample.{lifted as off_hook, five, lifted, asks_for_all, dials, course_then, AskedForAll};
ghost use Rattle.world_laws.specs.DialledExample.{answered, up_to_the_request, since_the_request, world, endpoint_then, done_then, told_then, untaken_then, left_then};
ghost use Rattle.packages.specs.declared.observed.Observed.TheVariants.{Happened};
ghost use Rattle.mg_line.specs.declared.phone.Act.TheVariants as acts;
ghost use Rattle.plain_machine.specs.Event.{phone};
ghost use Rattle.world_laws.specs.Following.{OnceForEach, OnceFrom};

/// All that the law asks for holds at once of such a world, and so does what it says: the agent was told the first event, and
/// the second is on its way to it.
pub fn all_that_the_law_asks_for_may_hold()
    ensures set_up { IsSetUp two_lines }
    ensures steps { steps_are_taken two_lines world_opening answered ≡ true }
    ensures numbers { HasNumbersLeft (own_in two_lines (world answered)) }
    ensures events { (world answered).gateway_took ≡ up_to_the_request ++ since_the_request }
    ensures line { endpoint_at (gateway_in two_lines (world answered)).endpoints 1 ≡ Some (endpoint_then answered) }
    ensures asked { IsAskedForAll (course_of two_lines 1 up_to_the_request)
        (course_from two_lines (plain two_lines up_to_the_request) 1 since_the_request) (endpoint_then answered).line }
    ensures nothing_given_up { has_given_up (of_line 1 (sent_of two_lines (world answered).gateway_took)) (endpoint_then answered).post
        ≡ false }
    ensures whole { done_then answered ≡ happened_in (told_then answered) ++ (happened_in (untaken_then answered) ++ left_then answered) }
    ensures told { told_then answered ≡ off_hook ∷ [] }
    ensures sent { untaken_then answered ≡ five ∷ [] }
{}

/// The condition is met there, and also where an event was asked for in another way before; it isn't met where the
/// telephone did something before, where no request was accepted, where a key isn't asked for, where it is collected by a
/// digit map or brings an embedded request, and where a later request discards.
pub fn lines_are_asked_for_all()
    ensures asked { AskedForAll (asks_for_all 7 (codes "aaln/1") ∷ []) dials }
    ensures asked_again { AskedForAll (rqnt 6 (codes "aaln/1") (codes "X: 1\r\nR: L/hd(A)\r\n") ∷ asks_for_all 7 (codes "aaln/1") ∷ [])
        (phone 1 acts.OffHook ∷ asks_for_all 8 (codes "*") ∷ []) }
    ensures done_before { ¬ AskedForAll (phone 1 acts.OffHook ∷ asks_for_all 7 (codes "aaln/1") ∷ []) [] }
    ensures unasked { ¬ AskedForAll [] dials }
    ensures star { ¬ AskedForAll (rqnt 7 (codes "aaln/1") (codes "X: 1\r\nR: D/[0-9](N)\r\n") ∷ []) dials }
    ensures collected { ¬ AskedForAll (rqnt 7 (codes "aaln/1") (codes "X: 1\r\nR: D/[0-9*#ABCD](D)\r\nD: xx\r\n") ∷ []) dials }
    ensures embedded { ¬ AskedForAll (rqnt 7 (codes "aaln/1") (codes "X: 1\r\nR: D/[0-9*#ABCD](N),L/oc(E(R(L/hu)))\r\n") ∷ []) dials }
    ensures discarded { ¬ AskedForAll (asks_for_all 7 (codes "aaln/1") ∷ []) (rqnt 8 (codes "aaln/1")
        (codes "X: 2\r\nR: D/[0-9*#ABCD](N)\r\nQ: discard\r\n") ∷ []) }
{}

/// In step a line notifies once, and then again once a request came; in loop it goes on by itself.
pub fn a_line_in_step_notifies_once()
    ensures step { course_then (phone 1 acts.OffHook ∷ response 200 10000000 ∷ phone 1 acts.OnHook ∷ [])
        ≡ does acts.OffHook ∷ notifies (codes "0") (lifted ∷ []) ∷ does acts.OnHook ∷ [] }
    ensures once { OnceForEach (course_then (phone 1 acts.OffHook ∷ response 200 10000000 ∷ phone 1 acts.OnHook ∷ [])) }
    ensures in_loop { ¬ OnceForEach (course_then (asks_for_all 7 (codes "aaln/1") ∷ dials)) }
    ensures notified { ¬ OnceFrom true (notifies (codes "0") (lifted ∷ []) ∷ []) }
{}
