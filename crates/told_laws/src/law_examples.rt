//! Worked examples, as theorems: for each law that asks for something, a gateway or a world that meets all of it at once. What
//! `what_the_agent_took_was_done_in_that_order` asks for is met in `all_that_the_law_asks_for_may_hold` (`world_laws`).
#![tactic(auto, unfolding(crate::proofs::Computing::on_examples))]

ghost use Rattle.std.specs.Prelude.{◌≡◌, ◌++◌, [], ◌∷◌, codes, Some};
ghost use Rattle.mg_line.specs.declared.phone.Act.TheVariants.{OffHook, Key};
ghost use Rattle.mg_line.specs.declared.phone.Key.TheVariants.{Five, Six};
ghost use Rattle.plain_machine.specs.Example.{two_lines};
ghost use Rattle.plain_machine.specs.Lists.{plain};
ghost use Rattle.plain_machine.specs.Machine.{endpoint_at};
ghost use Rattle.plain_machine.specs.Setup.{IsSetUp};
ghost use Rattle.agent_core.specs.World.{delivering};
ghost use Rattle.world_laws.specs.Copies.{IsAnswered, IsIssued};
ghost use Rattle.world_laws.specs.Course.{accepts, acts, course_of, notifies};
ghost use Rattle.world_laws.specs.Example.{world};
ghost use Rattle.world_laws.specs.DeliveryExample.{asked, audit};
ghost use Rattle.world_laws.specs.LawExample.{line_after};
ghost use Rattle.world_laws.specs.OnceExample.{five, six};
ghost use Rattle.told_laws.specs.Walking.{AreActs, EmbedsNone};
ghost use Rattle.told_laws.specs.Example.{dials_both, wants_both};

/// What laws ask of what is told is met where line 1 is asked for two digits, and dials them; and what they ask of an answer, where an
/// audit is handed over.
pub fn what_is_asked_of_what_is_told_has_examples()
    // what_is_told_was_done_in_that_order, the_first_notification_tells_what_was_asked_for
    ensures line { endpoint_at (plain two_lines dials_both).endpoints 1 ≡ Some (line_after dials_both) }
    ensures embeds_none { EmbedsNone wants_both.events }
    ensures none_lost { (line_after dials_both).line.quarantined.lost ≡ 0 }
    ensures course { course_of two_lines 1 dials_both ≡ [] ++ accepts wants_both ∷ ((acts OffHook ∷ acts (Key Five) ∷ acts (Key Six) ∷ [])
        ++ notifies (codes "B1") (five ∷ six ∷ []) ∷ []) }
    ensures acts_alone { AreActs (acts OffHook ∷ acts (Key Five) ∷ acts (Key Six) ∷ []) }
    // what_was_answered_is_served
    ensures set_up { IsSetUp two_lines }
    ensures issued { IsIssued two_lines (world (asked ++ delivering 2 ∷ [])) audit }
    ensures answered { IsAnswered two_lines (world asked) (world (asked ++ delivering 2 ∷ [])) audit.id }
{}
