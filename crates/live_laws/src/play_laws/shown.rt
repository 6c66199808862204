//! What went out is read as it is told.
ghost use Rattle.std.specs.Prelude.{◌≡◌, ◌++◌, [], None, ℕ, List};
ghost use Rattle.mg_bytes.specs.Lines.{cut};
ghost use Rattle.plain_machine.specs.declared.setup.Setup.{Setup};
ghost use Rattle.plain_machine.specs.Event.{GatewayEvent};
ghost use Rattle.rgw_scripts.specs.Moves.{Move, Shown};
ghost use Rattle.traces.specs.Telling.{told as shown_text};
ghost use Rattle.traces.specs.Running.{run_from};
ghost use Rattle.live_laws.specs.Replay.{owing};

/// A replay that owes what was shown reads the text of that, whatever follows it, and owes nothing then.
pub fn what_is_shown_is_read()
    ensures { (setup : Setup) (taken : List GatewayEvent) (told : List ℕ) (moves : List Move) (shown : Shown) (rest : List ℕ) →
        run_from setup (owing taken (shown_text shown) told moves) (cut (shown_text shown ++ rest))
        ≡ run_from setup (owing taken [] (told ++ shown_text shown) moves) (cut rest) }
{}
