//! What comes next keeps to these rules, however things stand: laws, whose functions do nothing.
ghost use Rattle.std.specs.Prelude.{◌≡◌, ◌≤◌, ◌<◌, ◌+◌, ◌-◌, ◌^◌, ℕ, List, count_by, true, false, Some};
ghost use Rattle.turns.specs.declared.circle.Source.{Source};
ghost use Rattle.turns.specs.declared.situation.Situation.{Situation};
ghost use Rattle.turns.specs.declared.schedule.Schedule.{Schedule};
ghost use Rattle.turns.specs.declared.schedule.Mode.TheVariants.{Reading};
ghost use Rattle.turns.specs.declared.turn.Turn.TheVariants.{Tick, Note, Wait};
ghost use Rattle.turns.specs.Circle.{is_ready};
ghost use Rattle.turns.specs.Clock.{longest_tick, longest_wait, is_over};
ghost use Rattle.turns.specs.Schedule.{longest_read_pause, most_read, longest_unseen, met, is_tick_due, next_of};
ghost use Rattle.turns.specs.Runs.{turns_from, is_end, is_turn_of, source_of, is_round, IsReadyIn, reading};

/// While a source is ready, and has no turn, each other one has one turn at most.
pub fn who_is_ready_waits_for_one_turn_of_each_other()
    ensures { (source other : Source) (s : Schedule) (all : List Situation) → IsReadyIn source s all →
        count_by (is_turn_of source) (turns_from s all) ≡ 0 → count_by (is_turn_of other) (turns_from s all) ≤ 1 }
{}

/// While what came in a pause is read the clock doesn't go on, and behind it the pause is noted. Nobody has a turn where enough was
/// read, nor where the clock is too far behind, however often it was stopped.
pub fn a_pause_is_read_at_the_moment_before_it()
    ensures no_tick { (s : Schedule) (at : Situation) (late before moment : ℕ) →
        (next_of (reading s late before) at).0 ≡ Tick moment → ⊥ }
    ensures most { (s : Schedule) (at : Situation) (late before : ℕ) (source : Source) →
        source_of (next_of (reading s late before) at).0 ≡ Some source →
        (at.read - before < most_read) × ((next_of (reading s late before) at).1.mode ≡ Reading late before) }
    ensures not_far { (s : Schedule) (at : Situation) (late before : ℕ) (source : Source) →
        source_of (next_of (reading s late before) at).0 ≡ Some source → at.moment - at.ticked ≤ longest_read_pause }
{}

/// A tick goes on, but neither past now nor by more than a longest one.
pub fn ticks_go_on_by_little()
    ensures { (s : Schedule) (at : Situation) (moment : ℕ) → at.moment < 2 ^ 64 → (next_of s at).0 ≡ Tick moment →
        (at.ticked < moment) × (moment ≤ at.moment) × (moment ≤ at.ticked + longest_tick) }
{}

/// Nobody is made to wait who is ready, and nobody waits for longer than a longest wait.
pub fn nobody_who_is_ready_waits()
    ensures nobody { (s : Schedule) (at : Situation) (until : ℕ) (source : Source) → (next_of s at).0 ≡ Wait until →
        is_ready (is_tick_due (met s at) at) at.ready source ≡ false }
    ensures bounded { (s : Schedule) (at : Situation) (until : ℕ) → (next_of s at).0 ≡ Wait until → until ≤ at.moment + longest_wait }
{}

/// Nobody has a turn in a round where it wasn't asked for 2 ms what has come.
pub fn nothing_is_taken_unseen()
    ensures { (s : Schedule) (at : Situation) (source : Source) → is_round s at ≡ true → source_of (next_of s at).0 ≡ Some source →
        at.moment - (met s at).looked < longest_unseen }
{}

/// It ends once ticks have come to the end, and not before.
pub fn it_ends_once_ticks_have_come_to_the_end()
    ensures { (s : Schedule) (at : Situation) → is_end (next_of s at).0 ≡ is_over at }
{}
