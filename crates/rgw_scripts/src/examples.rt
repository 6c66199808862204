//! Worked examples of the input, the script and what is printed, as theorems.
#![tactic(auto, unfolding(crate::proofs::Computing::on_examples))]

ghost use Rattle.std.specs.Prelude.{◌≡◌, ℕ, codes, pos, negsuc, true, false, [], ◌∷◌, Some, None, Ok, Err, replicate, ◌++◌};
ghost use Rattle.toml.specs.Data.{string, integer, boolean, array, table, no_items, item, no_members, member};
ghost use Rattle.endpoint_names.specs.declared.route.Route.TheVariants.{Two, Three, Four};
ghost use Rattle.mg_line.specs.declared.phone.Act.TheVariants as acts;
ghost use Rattle.packages.specs.declared.hook.Hook.TheVariants as hooks;
ghost use Rattle.mg_line.specs.declared.phone.Key.TheVariants as keys;
ghost use Rattle.machine_rules.specs.declared.refusal.Refusal.TheVariants as refusals;
ghost use Rattle.plain_machine.specs.Event.{datagram, phone, tick};
ghost use Rattle.plain_machine.specs.Example.{local_host, other_host};
ghost use Rattle.rgw_scripts.specs.declared.step.ScriptStep.TheVariants as steps;
ghost use Rattle.rgw_scripts.specs.declared.step.ScriptLine.TheVariants as lines;
ghost use Rattle.rgw_scripts.specs.Input.{config_text, script_lines};
ghost use Rattle.plain_machine.specs.declared.config.ConfigKey.TheVariants as keys_of_configurations;
ghost use Rattle.rgw_scripts.specs.Configuration.{config_of, unread_key};
ghost use Rattle.rgw_scripts.specs.Script.{act_of};
ghost use Rattle.rgw_scripts.specs.declared.played.LinkFault.TheVariants as link_faults;
ghost use Rattle.rgw_scripts.specs.declared.played.PlayFault.TheVariants as play_faults;
ghost use Rattle.rgw_scripts.specs.Fault.{play_fault_number, link_fault_number, name_of_config_fault};
ghost use Rattle.packages.specs.declared.signal.Signal.TheVariants as signals;
ghost use Rattle.connections.specs.declared.mode.Mode.TheVariants as modes;
ghost use Rattle.rgw_scripts.specs.Printing.{connections_shown};
ghost use Rattle.rgw_scripts.specs.Moves.{give, pass, ask, sends, refuses, tells, moves_of, printed, is_refused};
ghost use Rattle.rgw_scripts.specs.Example.{idle, numbered, in_mode, creates, told_after};
ghost use Rattle.rgw_scripts.specs.Example.{address, agent, line_says, script_says, output_of, taken_by, to_agent, host_at, settings_with, local, other, with_lines, with_media, with_names, example_config, config_with};

/// Each sentence at an example.
pub fn each_sentence_has_an_example()
    // Each key has its sign, in upper case.
    ensures zero { act_of (codes "0") ≡ Some (acts.Key keys.Zero) }
    ensures one { act_of (codes "1") ≡ Some (acts.Key keys.One) }
    ensures two { act_of (codes "2") ≡ Some (acts.Key keys.Two) }
    ensures three { act_of (codes "3") ≡ Some (acts.Key keys.Three) }
    ensures four { act_of (codes "4") ≡ Some (acts.Key keys.Four) }
    ensures five { act_of (codes "5") ≡ Some (acts.Key keys.Five) }
    ensures six { act_of (codes "6") ≡ Some (acts.Key keys.Six) }
    ensures seven { act_of (codes "7") ≡ Some (acts.Key keys.Seven) }
    ensures eight { act_of (codes "8") ≡ Some (acts.Key keys.Eight) }
    ensures nine { act_of (codes "9") ≡ Some (acts.Key keys.Nine) }
    ensures star { act_of (codes "*") ≡ Some (acts.Key keys.Star) }
    ensures hash { act_of (codes "#") ≡ Some (acts.Key keys.Hash) }
    ensures a { act_of (codes "A") ≡ Some (acts.Key keys.A) }
    ensures b { act_of (codes "B") ≡ Some (acts.Key keys.B) }
    ensures c { act_of (codes "C") ≡ Some (acts.Key keys.C) }
    ensures d { act_of (codes "D") ≡ Some (acts.Key keys.D) }
    // The handset has three words; nothing else is an act.
    ensures off { act_of (codes "off") ≡ Some acts.OffHook }
    ensures on { act_of (codes "on") ≡ Some acts.OnHook }
    ensures flash { act_of (codes "flash") ≡ Some acts.Flash }
    ensures upper_word { act_of (codes "OFF") ≡ None }
    ensures lower_a { act_of (codes "a") ≡ None }
    ensures lower_d { act_of (codes "d") ≡ None }
    ensures e { act_of (codes "E") ≡ None }
    ensures timer { act_of (codes "T") ≡ None }
    ensures two_keys { act_of (codes "12") ≡ None }
    ensures acts_have_their_words_nothing { act_of [] ≡ None }
{}

/// Each sentence at an example.
pub fn further_sentences_have_examples()
    // A `wait` is ticks of a second, and one of the rest; a `tick` counts from now, and an `at` from 0.
    ensures the_clock_goes_on_as_scripts_say_wait { moves_of (steps.Wait 2500) ≡ pass 1000 ∷ pass 1000 ∷ pass 500 ∷ [] }
    ensures whole_wait { moves_of (steps.Wait 2000) ≡ pass 1000 ∷ pass 1000 ∷ [] }
    ensures short_wait { moves_of (steps.Wait 999) ≡ pass 999 ∷ [] }
    ensures no_wait { moves_of (steps.Wait 0) ≡ [] }
    ensures no_tick { moves_of (steps.Tick 0) ≡ pass 0 ∷ [] }
    ensures the_clock_goes_on_as_scripts_say_tick { moves_of (steps.Tick 700) ≡ pass 700 ∷ [] }
    ensures the_clock_goes_on_as_scripts_say_at { moves_of (steps.At 700) ≡ give (tick 700) ∷ [] }
    ensures past { taken_by (give (tick 700) ∷ pass 500 ∷ []) ≡ tick 700 ∷ tick 1200 ∷ [] }
    ensures moment { taken_by (give (tick 700) ∷ give (tick 900) ∷ []) ≡ tick 700 ∷ tick 900 ∷ [] }
    ensures refused { taken_by (give (tick 700) ∷ pass 1001 ∷ give (tick 600) ∷ pass 1000 ∷ [])
        ≡ tick 700 ∷ tick 1700 ∷ [] }
    // A line of a script is a word with what it takes; blanks separate words.
    ensures from { line_says (codes "from 127.0.0.1:2727") ≡ Some (lines.From agent) }
    ensures raw { line_says (codes "raw 127.0.0.1:2727 410a4B")
        ≡ Some (lines.Whole (steps.Datagram agent (65 ∷ 10 ∷ 75 ∷ []))) }
    ensures phone { line_says (codes "phone 1 off") ≡ Some (lines.Whole (steps.Phone 1 acts.OffHook)) }
    ensures key { line_says (codes "phone 16 #")
        ≡ Some (lines.Whole (steps.Phone 16 (acts.Key keys.Hash))) }
    ensures lines_of_scripts_are_read_tick { line_says (codes "tick 7") ≡ Some (lines.Whole (steps.Tick 7)) }
    ensures lines_of_scripts_are_read_at { line_says (codes "at 007") ≡ Some (lines.Whole (steps.At 7)) }
    ensures lines_of_scripts_are_read_wait { line_says (codes "wait 7") ≡ Some (lines.Whole (steps.Wait 7)) }
    ensures show { line_says (codes "show 7") ≡ Some (lines.Whole (steps.Show 7)) }
    ensures blanks { line_says (codes "\t show \t 7 ") ≡ Some (lines.Whole (steps.Show 7)) }
    ensures empty { line_says [] ≡ Some lines.Empty }
    ensures only_blanks { line_says (codes " \t ") ≡ Some lines.Empty }
    // Other lines are none.
    ensures word { line_says (codes "hello") ≡ None }
    ensures upper { line_says (codes "SHOW 1") ≡ None }
    ensures end { line_says (codes "--") ≡ None }
    ensures separator { line_says (codes "%%") ≡ None }
    ensures no_number { line_says (codes "tick") ≡ None }
    ensures two_numbers { line_says (codes "wait 1 2") ≡ None }
    ensures sign { line_says (codes "tick -1") ≡ None }
    ensures no_act { line_says (codes "phone 1") ≡ None }
    ensures more { line_says (codes "phone 1 off now") ≡ None }
    ensures other_act { line_says (codes "phone 1 up") ≡ None }
    ensures address { line_says (codes "from 127.0.0.1") ≡ None }
    ensures name { line_says (codes "from localhost:2727") ≡ None }
    ensures from_more { line_says (codes "from 127.0.0.1:2727 now") ≡ None }
    ensures no_bytes { line_says (codes "raw 127.0.0.1:2727") ≡ None }
    ensures half_a_byte { line_says (codes "raw 127.0.0.1:2727 4") ≡ None }
    ensures no_digit { line_says (codes "raw 127.0.0.1:2727 4g") ≡ None }
    ensures more_bytes { line_says (codes "raw 127.0.0.1:2727 41 41") ≡ None }
{}

/// Each sentence at an example.
pub fn more_sentences_have_examples()
    // Numbers and addresses have their limits.
    ensures line { line_says (codes "show 65535") ≡ Some (lines.Whole (steps.Show 65535)) }
    ensures line_past { line_says (codes "show 65536") ≡ None }
    ensures line_0 { line_says (codes "phone 0 on") ≡ Some (lines.Whole (steps.Phone 0 acts.OnHook)) }
    ensures phone_past { line_says (codes "phone 65536 on") ≡ None }
    ensures scripts_have_limits_wait { line_says (codes "wait 10000000") ≡ Some (lines.Whole (steps.Wait 10000000)) }
    ensures wait_past { line_says (codes "wait 10000001") ≡ None }
    ensures scripts_have_limits_tick { line_says (codes "tick 999999999999999999")
        ≡ Some (lines.Whole (steps.Tick 999999999999999999)) }
    ensures tick_past { line_says (codes "tick 1000000000000000000") ≡ None }
    ensures scripts_have_limits_at { line_says (codes "at 999999999999999999")
        ≡ Some (lines.Whole (steps.At 999999999999999999)) }
    ensures at_past { line_says (codes "at 0000000000000000001") ≡ None }
    ensures port_0 { line_says (codes "from 127.0.0.1:0") ≡ None }
    ensures port_1 { line_says (codes "from 127.0.0.1:1")
        ≡ Some (lines.From (address (127 ∷ 0 ∷ 0 ∷ 1 ∷ []) 1)) }
    ensures port { line_says (codes "from 0.0.0.255:65535")
        ≡ Some (lines.From (address (0 ∷ 0 ∷ 0 ∷ 255 ∷ []) 65535)) }
    ensures port_past { line_says (codes "from 127.0.0.1:65536") ≡ None }
    ensures octet_past { line_says (codes "from 127.0.256.1:2727") ≡ None }
    // The lines of a `from` are one datagram, each with CRLF; a bad line is told by its number, from 1.
    ensures datagram { script_says (codes "from 127.0.0.1:2727\r\n  AUEP 1 \nK: 2\n--\n")
        ≡ Ok (steps.Datagram agent (codes "AUEP 1\r\nK: 2\r\n") ∷ []) }
    ensures empty_datagram { script_says (codes "from 127.0.0.1:2727\n--\n")
        ≡ Ok (steps.Datagram agent [] ∷ []) }
    ensures empty_line { script_says (codes "from 127.0.0.1:2727\n\nx\n -- ")
        ≡ Ok (steps.Datagram agent (codes "\r\nx\r\n") ∷ []) }
    ensures steps { script_says (codes "show 1\n\nat 7\n") ≡ Ok (steps.Show 1 ∷ steps.At 7 ∷ []) }
    ensures scripts_are_read_nothing { script_says [] ≡ Ok [] }
    ensures first { script_says (codes "hello\nshow 1\n") ≡ Err 1 }
    ensures second { script_says (codes "show 1\nhello\nhello\n") ≡ Err 2 }
    ensures after_empty_lines { script_says (codes "\n\t\nphone 1 up\n") ≡ Err 3 }
    ensures after_a_from { script_says (codes "from 127.0.0.1:2727\nx\n--\n--\n") ≡ Err 4 }
    ensures open { script_says (codes "\nfrom 127.0.0.1:2727\nx\n--x\n") ≡ Err 2 }
    ensures no_line_end { script_says (codes "show 1") ≡ Ok (steps.Show 1 ∷ []) }
{}

/// Each sentence at an example.
pub fn other_sentences_have_examples()
    // The first line `%%` ends the configuration; without one there is no script.
    ensures inputs_have_two_parts_config { config_text (codes "a = 1\nb = 2\n%%\nshow 1\n") ≡ codes "a = 1\nb = 2\n" }
    ensures inputs_have_two_parts_script { script_lines (codes "a = 1\nb = 2\n%%\nshow 1\n") ≡ codes "show 1" ∷ [] }
    ensures blank_config { config_text (codes "a = 1\r\n \t%%\t\r\nshow 1") ≡ codes "a = 1\r\n" }
    ensures blank_script { script_lines (codes "a = 1\r\n \t%%\t\r\nshow 1") ≡ codes "show 1" ∷ [] }
    ensures whole_config { config_text (codes "a = 1 # %%\n%%%\n") ≡ codes "a = 1 # %%\n%%%\n" }
    ensures no_script { script_lines (codes "a = 1 # %%\n%%%\n") ≡ [] }
    ensures second { script_lines (codes "%%\n%%\n") ≡ codes "%%" ∷ [] }
    ensures no_config { config_text (codes "%%\n%%\n") ≡ [] }
    // A configuration has its eight keys and no ninth, each of its kind.
    ensures example { config_of (with_lines (integer (pos 16))) ≡ Some (example_config 16) }
    ensures largest { config_of (with_lines (integer (pos 4294967295)))
        ≡ Some (example_config 4294967295) }
    ensures past { config_of (with_lines (integer (pos 4294967296))) ≡ None }
    ensures below { config_of (with_lines (integer (negsuc 0))) ≡ None }
    ensures text { config_of (with_lines (string (codes "16"))) ≡ None }
    ensures truth { config_of (with_lines (boolean true)) ≡ None }
    ensures configurations_are_read_ninth { config_of
        (member (codes "Lines") (integer (pos 1)) (with_lines (integer (pos 16)))) ≡ None }
    ensures other_key { config_of (settings_with (codes "line") (integer (pos 16)) local (host_at local)) ≡ None }
    ensures media_name { config_of (with_media (string (codes "localhost"))) ≡ None }
    ensures short_media { config_of (with_media (string (codes "127.0.0"))) ≡ None }
    ensures media_number { config_of (with_media (integer (pos 127))) ≡ None }
    ensures names_text { config_of (with_names (string (codes "ca.example.net"))) ≡ None }
    ensures host_number { config_of (with_names (host_at (integer (pos 1)))) ≡ None }
    ensures host_past { config_of (with_names (host_at (string (codes "127.0.0.256")))) ≡ None }
    ensures one_host { config_of (with_names (host_at (array (item local no_items)))) ≡ Some (example_config 16) }
    ensures two_hosts { config_of (with_names (host_at (array (item local (item other no_items)))))
        ≡ Some (config_with (Two local_host other_host)) }
    ensures equal_hosts { config_of (with_names (host_at (array (item other (item local (item other no_items))))))
        ≡ Some (config_with (Three other_host local_host other_host)) }
    ensures four_hosts { config_of (with_names (host_at (array (item local (item local (item other (item local no_items)))))))
        ≡ Some (config_with (Four local_host local_host other_host local_host)) }
    ensures configurations_are_read_five_hosts { config_of (with_names (host_at
        (array (item local (item local (item local (item local (item local no_items)))))))) ≡ None }
    ensures configurations_are_read_no_hosts { config_of (with_names (host_at (array no_items))) ≡ None }
    ensures host_of_a_list { config_of (with_names (host_at (array (item local (item (array (item other no_items)) no_items))))) ≡ None }
    ensures no_address { config_of (with_names (host_at (array (item local (item (string (codes "localhost")) no_items))))) ≡ None }
    ensures number_among { config_of (with_names (host_at (array (item local (item (integer (pos 1)) no_items))))) ≡ None }
    ensures no_names { config_of (with_names (table no_members)) ≡ Some (record (example_config 16) { names = [] }) }
    ensures nothing { config_of no_members ≡ None }
{}

/// Each sentence at an example.
pub fn still_more_sentences_have_examples()
    // Of a configuration that can't be read the first key is told that is missing, or whose value is of another kind.
    ensures keys_that_cannot_be_read_are_told_none { unread_key (with_lines (integer (pos 16))) ≡ None }
    ensures missing { unread_key no_members ≡ Some keys_of_configurations.Domain }
    ensures number { unread_key (with_lines (string (codes "16"))) ≡ Some keys_of_configurations.Lines }
    ensures keys_that_cannot_be_read_are_told_media { unread_key (with_media (string (codes "localhost")))
        ≡ Some keys_of_configurations.MediaAddress }
    ensures names { unread_key (with_names (string (codes "ca.example.net"))) ≡ Some keys_of_configurations.Names }
    ensures keys_that_cannot_be_read_are_told_five_hosts { unread_key (with_names (host_at
        (array (item local (item local (item local (item local (item local no_items)))))))) ≡ Some keys_of_configurations.Names }
    ensures keys_that_cannot_be_read_are_told_no_hosts { unread_key (with_names (host_at (array no_items)))
        ≡ Some keys_of_configurations.Names }
    ensures keys_that_cannot_be_read_are_told_first { unread_key (settings_with (codes "lines") (integer (negsuc 0)) local
        (host_at (array no_items)))
        ≡ Some keys_of_configurations.Lines }
    ensures keys_that_cannot_be_read_are_told_ninth { unread_key (member (codes "Lines") (integer (pos 1))
        (with_lines (integer (pos 16)))) ≡ None }
    // Each fault of a play has its number, and the network's comes behind the others.
    ensures memory { play_fault_number play_faults.OutOfMemory ≡ 1 }
    ensures read { play_fault_number play_faults.Read ≡ 2 }
    ensures write { play_fault_number play_faults.Write ≡ 3 }
    ensures faults_have_their_numbers_config { play_fault_number (play_faults.Config 7) ≡ 4 }
    ensures faults_have_their_numbers_script { play_fault_number (play_faults.Script 1) ≡ 5 }
    ensures wire { link_fault_number {F = ℕ} (link_faults.Link 0) ≡ 6 }
    ensures without_a_wire { link_fault_number {F = ℕ} (link_faults.Play play_faults.Write) ≡ 3 }
    // The faults of a configuration have their names.
    ensures domain { name_of_config_fault 2 ≡ codes "BadDomain" }
    ensures lines { name_of_config_fault 3 ≡ codes "BadLines" }
    ensures agent { name_of_config_fault 4 ≡ codes "BadAgent" }
    ensures wait { name_of_config_fault 5 ≡ codes "BadWait" }
    ensures faults_have_their_names_media { name_of_config_fault 6 ≡ codes "BadMedia" }
    ensures toml { name_of_config_fault 7 ≡ codes "BadToml" }
{}

/// Each sentence at an example.
pub fn yet_more_sentences_have_examples()
    // What is shown is printed: datagrams with their lines, refusals, and what a line is.
    ensures datagram { printed (sends (to_agent 0 (codes "200 1200 OK\r\n") ∷ []))
        ≡ codes "> 0 127.0.0.1:2727\n200 1200 OK\n--\n" }
    ensures moment { printed (sends (to_agent 10000000 (codes "200 1 OK\r\nES: L/hu\r\n") ∷ []))
        ≡ codes "> 10000000 127.0.0.1:2727\n200 1 OK\nES: L/hu\n--\n" }
    ensures two { printed (sends (to_agent 7 (codes "510 1\r\n") ∷ to_agent 7 (codes "510 2\r\n") ∷ []))
        ≡ codes "> 7 127.0.0.1:2727\n510 1\n--\n> 7 127.0.0.1:2727\n510 2\n--\n" }
    ensures what_is_shown_is_printed_none { printed (sends []) ≡ [] }
    ensures too_far { printed (refuses refusals.TickTooFar) ≡ codes "! 2 TickTooFar\n" }
    ensures back { printed (refuses refusals.ClockBack) ≡ codes "! 3 ClockBack\n" }
    ensures no_line { printed (refuses refusals.NoSuchLine) ≡ codes "! 4 NoSuchLine\n" }
    ensures state { printed (refuses refusals.PhoneState) ≡ codes "! 5 PhoneState\n" }
    ensures off { printed (tells (idle 1 hooks.OffHook)) ≡ codes "line 1 off signals - connections - lost 0\n" }
    ensures on { printed (tells (idle 16 hooks.OnHook)) ≡ codes "line 16 on signals - connections - lost 0\n" }
    ensures tone { printed (tells (record (idle 1 hooks.OffHook) {
      signals = (record { signal = signals.DialTone; end = Some 17000 }) ∷ [];
    }))
        ≡ codes "line 1 off signals L/dl:17000 connections - lost 0\n" }
    ensures tones { printed (tells (record (idle 1 hooks.OffHook) {
      signals = (record { signal = signals.MessageWaiting; end = None })
          ∷ (record { signal = signals.Congestion; end = None }) ∷ (record { signal = signals.Confirm; end = Some 1500 }) ∷ [];
    }))
        ≡ codes "line 1 off signals L/vmwi:-,G/cg:-,G/cf:1500 connections - lost 0\n" }
    ensures lost { printed (tells (record (idle 2 hooks.OnHook) { lost = 12 }))
        ≡ codes "line 2 on signals - connections - lost 12\n" }
    ensures all { printed (tells (record {
      line = 3;
      hook = hooks.OffHook;
      signals = (record { signal = signals.DialTone; end = Some 17000 }) ∷ [];
      connections = Some (numbered 1) ∷ Some (numbered 2) ∷ None ∷ None ∷ [];
      lost = 4;
    })) ≡ codes "line 3 off signals L/dl:17000 connections 1:recvonly,2:recvonly lost 4\n" }
    ensures counted { is_refused (refuses refusals.PhoneState) ≡ true }
    ensures not_sent { is_refused (sends []) ≡ false }
    ensures not_told { is_refused (tells (idle 1 hooks.OnHook)) ≡ false }
    // The connections of a line are shown in the order of its places, each by its identifier and its mode.
    ensures connections_are_shown_first { connections_shown (Some (numbered 1) ∷ None ∷ None ∷ None ∷ [])
        ≡ codes " connections 1:recvonly" }
    ensures last { connections_shown (None ∷ None ∷ None ∷ Some (numbered 4) ∷ []) ≡ codes " connections 4:recvonly" }
    ensures between { connections_shown (Some (numbered 1) ∷ None ∷ None ∷ Some (numbered 4) ∷ [])
        ≡ codes " connections 1:recvonly,4:recvonly" }
    ensures by_place { connections_shown (Some (numbered 5) ∷ Some (numbered 2) ∷ Some (numbered 7) ∷ None ∷ [])
        ≡ codes " connections 5:recvonly,2:recvonly,7:recvonly" }
    ensures connections_are_shown_none { connections_shown (replicate 4 None) ≡ codes " connections -" }
    ensures hexadecimal { connections_shown
        (Some (numbered 10) ∷ Some (numbered 26) ∷ None ∷ Some (numbered 4294967295) ∷ [])
        ≡ codes " connections A:recvonly,1A:recvonly,FFFFFFFF:recvonly" }
    ensures modes { connections_shown (Some (in_mode modes.SendOnly) ∷ Some (in_mode modes.ReceiveOnly)
        ∷ Some (in_mode modes.SendReceive) ∷ Some (in_mode modes.Conference) ∷ [])
        ≡ codes " connections 1:sendonly,1:recvonly,1:sendrecv,1:confrnce" }
    ensures inactive { connections_shown (Some (in_mode modes.Inactive) ∷ []) ≡ codes " connections 1:inactive" }
    // Moves are made one after the other.
    ensures audit { output_of
        (give (datagram agent (codes "AUEP 1200 aaln/1@rgw.example.net MGCP 1.0\r\n")) ∷ [])
        ≡ codes "> 0 127.0.0.1:2727\n200 1200 OK\n--\n" }
    ensures later { output_of (pass 1 ∷ give (datagram agent (codes "AUEP 12\r\n")) ∷ [])
        ≡ codes "> 1 127.0.0.1:2727\nRSIP 1 *@rgw.example.net MGCP 1.0\nRM: restart\n--\n> 1 127.0.0.1:2727\n510 12\n--\n" }
    ensures refused { output_of
        (pass 1001 ∷ give (phone 1 acts.OnHook) ∷ give (phone 17 acts.OffHook) ∷ [])
        ≡ codes "! 2 TickTooFar\n! 5 PhoneState\n! 4 NoSuchLine\n" }
    ensures waiting { output_of (give (phone 1 acts.OffHook) ∷ ask 1 ∷ [])
        ≡ codes "line 1 off signals - connections - lost 0\n" }
    ensures shown { output_of
        (pass 1 ∷ give (datagram agent (codes "200 1 OK\r\n")) ∷ give (phone 1 acts.OffHook) ∷ ask 1 ∷ ask 16 ∷ [])
        ≡ codes "> 1 127.0.0.1:2727\nRSIP 1 *@rgw.example.net MGCP 1.0\nRM: restart\n--\n"
        ++ codes "> 1 127.0.0.1:2727\nNTFY 10000000 aaln/1@rgw.example.net MGCP 1.0\nX: 0\nO: L/hd\n--\n"
        ++ codes "line 1 off signals - connections - lost 0\nline 16 on signals - connections - lost 0\n" }
    ensures connected { told_after
        (creates 1 (codes "aaln/2") (codes "recvonly") ∷ creates 2 (codes "aaln/2") (codes "inactive") ∷ []) 2
        ≡ codes "line 2 on signals - connections 1:recvonly,2:inactive lost 0\n" }
    ensures other_line { told_after (creates 1 (codes "aaln/2") (codes "recvonly") ∷ []) 1
        ≡ codes "line 1 on signals - connections - lost 0\n" }
    ensures no_lines { output_of (ask 0 ∷ ask 17 ∷ []) ≡ codes "! 4 NoSuchLine\n! 4 NoSuchLine\n" }
{}
