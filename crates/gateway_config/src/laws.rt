//! Laws of flaws and of what is told, in the words of their subject (this gateway's profile).
ghost use Rattle.std.specs.Prelude.{◌≡◌, ℕ, ◌%◌, ◌==◌, ◌&&◌, true, false, nat_lt, List, length, None, Some, is_some};
ghost use Rattle.plain_machine.specs.declared.config.Config.{Config};
ghost use Rattle.plain_machine.specs.declared.config.ConfigKey.TheVariants as keys;
ghost use Rattle.plain_machine.specs.Setup.{is_wait, is_media_base, key_at_fault};
ghost use Rattle.machine_rules.specs.Lines.{are_lines};
ghost use Rattle.rgw_scripts.specs.Configuration.{config_in};
ghost use Rattle.rgw_scripts.specs.Play.{largest_input};
ghost use Rattle.gateway_config.specs.Bounds.{bounds_of, within};
ghost use Rattle.gateway_config.specs.Flaws.{address_flaw, flaw_of};

/// A text without a flaw is a configuration that sets a gateway up; and each such text has none, unless it is too long, or its
/// connections would receive at 0.0.0.0.
pub fn what_has_no_flaw_sets_a_gateway_up()
    ensures read { (text : List ℕ) → flaw_of text ≡ None → is_some (config_in text) ≡ true }
    ensures right { (text : List ℕ) (config : Config) → flaw_of text ≡ None → config_in text ≡ Some config →
        key_at_fault config ≡ None }
    ensures taken { (text : List ℕ) (config : Config) → nat_lt largest_input (length text) ≡ false →
        config_in text ≡ Some config → key_at_fault config ≡ None → address_flaw config.media_address ≡ None →
        flaw_of text ≡ None }
{}

/// The bounds that are told of a number are those that it is checked by.
pub fn bounds_are_told_as_they_are_checked()
    ensures lines { (n : ℕ) → are_lines n ≡ within (bounds_of keys.Lines) n }
    ensures restart_wait { (n : ℕ) → is_wait n ≡ within (bounds_of keys.RestartWait) n }
    ensures disconnected_wait { (n : ℕ) → is_wait n ≡ within (bounds_of keys.DisconnectedWait) n }
    ensures media_base { (n : ℕ) → is_media_base n ≡ (within (bounds_of keys.MediaBase) n && n % 2 == 0) }
{}
