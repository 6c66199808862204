//! How the program ends, as theorems.
#![tactic(auto, unfolding(crate::proofs::Computing::on_examples))]

ghost use Rattle.std.specs.Prelude.{◌≡◌, codes, []};
ghost use Rattle.rgw_scripts.specs.declared.played.PlayFault.TheVariants as faults;
ghost use Rattle.rgw_play.specs.declared.ending.Ending.TheVariants as endings;
ghost use Rattle.rgw_play.specs.Ending.{status_of, error_text};

/// Each sentence at an example.
pub fn each_sentence_has_an_example()
    // Each ending has its status.
    ensures endings_have_their_status_played { status_of endings.Played ≡ 0 }
    ensures config { status_of (endings.Fault (faults.Config 3)) ≡ 1 }
    ensures endings_have_their_status_script { status_of (endings.Fault (faults.Script 7)) ≡ 1 }
    ensures endings_have_their_status_words { status_of endings.Usage ≡ 2 }
    ensures endings_have_their_status_read { status_of (endings.Fault faults.Read) ≡ 3 }
    ensures endings_have_their_status_write { status_of (endings.Fault faults.Write) ≡ 3 }
    ensures endings_have_their_status_memory { status_of (endings.Fault faults.OutOfMemory) ≡ 3 }
    ensures endings_have_their_status_wire { status_of endings.WireFault ≡ 3 }
    // Each ending but the good one is told in a line.
    ensures endings_have_their_lines_played { error_text endings.Played ≡ [] }
    ensures domain { error_text (endings.Fault (faults.Config 2)) ≡ codes "config 2 BadDomain\n" }
    ensures lines { error_text (endings.Fault (faults.Config 3)) ≡ codes "config 3 BadLines\n" }
    ensures agent { error_text (endings.Fault (faults.Config 4)) ≡ codes "config 4 BadAgent\n" }
    ensures wait { error_text (endings.Fault (faults.Config 5)) ≡ codes "config 5 BadWait\n" }
    ensures media { error_text (endings.Fault (faults.Config 6)) ≡ codes "config 6 BadMedia\n" }
    ensures toml { error_text (endings.Fault (faults.Config 7)) ≡ codes "config 7 BadToml\n" }
    ensures long { error_text (endings.Fault (faults.Script 0)) ≡ codes "script line 0\n" }
    ensures endings_have_their_lines_script { error_text (endings.Fault (faults.Script 1048576))
        ≡ codes "script line 1048576\n" }
    ensures endings_have_their_lines_words { error_text endings.Usage ≡ codes "usage: rgw simulate | rgw loopback [--port N]\n" }
    ensures endings_have_their_lines_read { error_text (endings.Fault faults.Read) ≡ codes "read fault\n" }
    ensures endings_have_their_lines_write { error_text (endings.Fault faults.Write) ≡ codes "write fault\n" }
    ensures endings_have_their_lines_memory { error_text (endings.Fault faults.OutOfMemory) ≡ codes "out of memory\n" }
    ensures endings_have_their_lines_wire { error_text endings.WireFault ≡ codes "wire fault\n" }
{}
