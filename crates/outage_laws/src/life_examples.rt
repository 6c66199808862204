//! Worked examples of lives, as theorems.
#![tactic(auto, unfolding(crate::proofs::Computing::on_examples))]

ghost use Rattle.std.specs.Prelude.{◌≡◌, codes, [], ◌∷◌, map, true};
ghost use Rattle.packages.specs.declared.event.LineEvent.TheVariants as events;
ghost use Rattle.packages.specs.declared.observed.Observed.TheVariants.{Happened};
ghost use Rattle.plain_machine.specs.Example.{two_lines};
ghost use Rattle.outage_laws.specs.Lives.{lives_opening, lives_are_taken};
ghost use Rattle.outage_laws.specs.Apart.{begun_of};
ghost use Rattle.outage_laws.specs.LifeExample.{lives, both_lives, told_after, texts_after, owners_after, moments_after, firsts_after, begun_key};

/// Where the second's begin otherwise, the agent hears both.
pub fn numbers_that_begin_otherwise_are_heard()
    ensures taken { lives_are_taken two_lines (lives_opening two_lines) (both_lives 20) ≡ true }
    ensures firsts { firsts_after (both_lives 20) ≡ (0, 1) ∷ (0, 10000000) ∷ (1, 21) ∷ (1, 10000020) ∷ [] }
    ensures told { told_after (both_lives 20) ≡ Happened events.OffHook ∷ Happened events.OffHook ∷ [] }
    ensures texts { texts_after (both_lives 20) ≡ codes "RSIP 1 *@rgw.example.net MGCP 1.0\r\nRM: restart\r\n" ∷ codes "200 1 OK\r\n"
        ∷ codes "NTFY 10000000 aaln/1@rgw.example.net MGCP 1.0\r\nX: 0\r\nO: L/hd\r\n" ∷ codes "200 10000000 OK\r\n"
        ∷ codes "RSIP 21 *@rgw.example.net MGCP 1.0\r\nRM: restart\r\n" ∷ codes "200 21 OK\r\n"
        ∷ codes "NTFY 10000020 aaln/1@rgw.example.net MGCP 1.0\r\nX: 0\r\nO: L/hd\r\n" ∷ codes "200 10000020 OK\r\n" ∷ [] }
    ensures owners { owners_after (both_lives 20) ≡ 0 ∷ 0 ∷ 0 ∷ 0 ∷ 1 ∷ 1 ∷ 1 ∷ 1 ∷ [] }
    ensures began { map begun_key (begun_of (lives (both_lives 20)).life) ≡ (21, 2) ∷ (10000020, 2) ∷ [] }
    ensures moments { moments_after (both_lives 20) ≡ 1 ∷ 1 ∷ 1 ∷ 1 ∷ 2 ∷ 2 ∷ 2 ∷ 2 ∷ [] }
{}
