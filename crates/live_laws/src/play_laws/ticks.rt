//! Ticks may be joined.
ghost use Rattle.std.specs.Prelude.{◌≡◌, ◌≤◌, ◌++◌, ℕ};
ghost use Rattle.plain_machine.specs.declared.setup.Setup.{Setup};
ghost use Rattle.plain_machine.specs.Event.{tick};
ghost use Rattle.plain_machine.specs.Machine.{Machine};
ghost use Rattle.plain_machine.specs.Happening.{effect};

/// A tick and another one behind it do what the second one does alone: all that is due happens at its own moment, in its order.
pub fn two_ticks_are_one()
    ensures machine { (setup : Setup) (m : Machine) (first second : ℕ) → first ≤ second →
        (effect setup (effect setup m (tick first)).value (tick second)).value ≡ (effect setup m (tick second)).value }
    ensures sent { (setup : Setup) (m : Machine) (first second : ℕ) → first ≤ second →
        (effect setup m (tick first)).sent ++ (effect setup (effect setup m (tick first)).value (tick second)).sent
        ≡ (effect setup m (tick second)).sent }
{}
