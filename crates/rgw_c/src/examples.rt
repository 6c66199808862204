//! Worked examples of what C is told, as theorems: each sentence of a definition has one that a slip in it breaks.
#![tactic(auto, unfolding(crate::proofs::Computing::on_examples))]

ghost use Rattle.std.specs.Prelude.{◌≡◌, ℕ, [], ◌∷◌, List, length, true, false, Some, None};
ghost use Rattle.mg_line.specs.declared.phone.Act.TheVariants as acts;
ghost use Rattle.mg_line.specs.declared.phone.Key.TheVariants as keys;
ghost use Rattle.packages.specs.declared.hook.Hook.TheVariants as hooks;
ghost use Rattle.packages.specs.declared.signal.Signal.TheVariants as signals;
ghost use Rattle.mgcp_text.specs.declared.message.Verb.TheVariants as verbs;
ghost use Rattle.connections.specs.declared.codec.Codec.TheVariants.{Pcmu, Pcma};
ghost use Rattle.connections.specs.declared.codec.Codecs.TheVariants.{Only, Both};
ghost use Rattle.connections.specs.declared.mode.Mode.TheVariants as modes;
ghost use Rattle.machine_rules.specs.declared.refusal.Refusal.TheVariants as refusals;
ghost use Rattle.plain_machine.specs.declared.label.Whose.TheVariants as whose;
ghost use Rattle.plain_machine.specs.declared.label.What.TheVariants as whats;
ghost use Rattle.plain_machine.specs.Example.{example, elsewhere};
ghost use Rattle.command_forms.specs.declared.refused.FaultyPart.TheVariants as parts;
ghost use Rattle.gateway_core.specs.declared.outcome.Reply.TheVariants.{First, Again, Silence, NoRoom};
ghost use Rattle.gateway_core.specs.declared.outcome.TextOutcome.TheVariants.{NoMessage, Command, Response};
ghost use Rattle.rgw_c.specs.declared.numbers.TheConstants.{OK, OUT_OF_MEMORY, TOO_LONG, NOT_OPEN, BAD_FIRST, NO_SUCH_PLACE, SMALL_BUFFER, NO_CONNECTION};
ghost use Rattle.rgw_c.specs.declared.numbers.TheConstants.{NOTHING_DUE, HAS_FLAW};
ghost use Rattle.rgw_c.specs.Account.{verb_number, whose_number, line_of, what_number, code_of, verb_of, message_number};
ghost use Rattle.rgw_c.specs.Acts.{act_in};
ghost use Rattle.rgw_c.specs.Outcomes.{outcome_of, fault_number, fault_place, given_up_of, outcome_number, given_up_number};
ghost use Rattle.rgw_c.specs.LineTelling.{hook_number, signal_number, signal_of, mode_number, first_payload, last_payload, local_port, place_number};
ghost use Rattle.rgw_c.specs.Numbers.{refusal_in, config_fault_in, is_read_number, is_told_number, is_checked_number};
ghost use Rattle.rgw_c.specs.Opening.{unread_number};
ghost use Rattle.rgw_c.specs.Stepping.{source_at, PassesOver};
ghost use Rattle.rgw_c.specs.Telling.{open_number, line_number, room_number, found_number, due_number};

/// Each sentence at an example.
pub fn each_sentence_has_an_example()
    // A refusal has its own number, and the fault of a configuration one that is ten higher.
    ensures well { refusal_in 0 ≡ None }
    ensures memory { refusal_in 1 ≡ Some refusals.OutOfMemory }
    ensures far { refusal_in 2 ≡ Some refusals.TickTooFar }
    ensures back { refusal_in 3 ≡ Some refusals.ClockBack }
    ensures line { refusal_in 4 ≡ Some refusals.NoSuchLine }
    ensures phone { refusal_in 5 ≡ Some refusals.PhoneState }
    ensures numbers_say_why_closed { refusal_in 20 ≡ None }
    ensures before_faults { config_fault_in 11 ≡ None }
    ensures domain { config_fault_in 12 ≡ Some 2 }
    ensures lines { config_fault_in 13 ≡ Some 3 }
    ensures agent { config_fault_in 14 ≡ Some 4 }
    ensures wait { config_fault_in 15 ≡ Some 5 }
    ensures media { config_fault_in 16 ≡ Some 6 }
    ensures toml { config_fault_in 17 ≡ Some 7 }
    ensures behind_faults { config_fault_in 18 ≡ None }
    // The hook has three acts, and a key is its sign in ASCII.
    ensures off { act_in 1 ≡ Some acts.OffHook }
    ensures on { act_in 2 ≡ Some acts.OnHook }
    ensures flash { act_in 3 ≡ Some acts.Flash }
    ensures five { act_in 53 ≡ Some (acts.Key keys.Five) }
    ensures star { act_in 42 ≡ Some (acts.Key keys.Star) }
    ensures hash { act_in 35 ≡ Some (acts.Key keys.Hash) }
    ensures letter { act_in 68 ≡ Some (acts.Key keys.D) }
    ensures small_letter { act_in 100 ≡ None }
    ensures acts_have_numbers_none { act_in 0 ≡ None }
    ensures no_key { act_in 5 ≡ None }
    ensures past { act_in 309 ≡ None }
    // A closed handle takes no datagram, also none that is too long.
    ensures a_closed_handle_takes_nothing { PassesOver None NOT_OPEN None }
    // Each place of a line has its port, up to the last of the last line where ports begin highest.
    ensures a_place_has_its_port_first { local_port example 1 0 ≡ 3000 }
    ensures last { local_port example 16 3 ≡ 3126 }
    ensures highest { local_port elsewhere 96 3 ≡ 64766 }
    ensures held { place_number None ≡ NO_SUCH_PLACE }
    ensures empty { place_number (Some None) ≡ NO_CONNECTION }
    // A host is a number whose highest octet is the first.
    ensures a_host_is_a_number_none { source_at 0 0 ≡ record { ip = record { octets = 0 ∷ 0 ∷ 0 ∷ 0 ∷ [] }; port = 0 } }
    ensures greatest { source_at 4294967295 65535 ≡ record { ip = record { octets = 255 ∷ 255 ∷ 255 ∷ 255 ∷ [] }; port = 65535 } }
    ensures local { source_at 2130706433 2427 ≡ record { ip = record { octets = 127 ∷ 0 ∷ 0 ∷ 1 ∷ [] }; port = 2427 } }
{}

/// Each sentence at an example.
pub fn further_sentences_have_examples()
    // What is asked of nothing that is open, of no line, of no place, or with too little room has its number.
    ensures what_is_asked_in_vain_has_a_number_closed { open_number None ≡ NOT_OPEN }
    ensures closed_first { line_number None 0 ≡ NOT_OPEN }
    ensures place { found_number (Some acts.OffHook) ≡ OK }
    ensures no_place { message_number None 0 ≡ NOT_OPEN }
    ensures room { room_number (7 ∷ 8 ∷ []) 2 ≡ OK }
    ensures no_room { room_number (7 ∷ 8 ∷ []) 1 ≡ SMALL_BUFFER }
    ensures due { due_number (Some 0) ≡ OK }
    ensures none_due { due_number None ≡ NOTHING_DUE }
    // A message is told by what it is, and an answer to no line and the gateway's own have line 0.
    ensures nobody { whose_number whose.Nobody ≡ 0 }
    ensures answer_of { whose_number (whose.AnswerOf (Some 3)) ≡ 1 }
    ensures own_of { whose_number (whose.OwnOf 3) ≡ 2 }
    ensures line_answered { line_of (whose.AnswerOf (Some 3)) ≡ 3 }
    ensures no_line { line_of (whose.AnswerOf None) ≡ 0 }
    ensures own_line { line_of (whose.OwnOf 2) ≡ 2 }
    ensures answered { what_number (whats.Answer 200) ≡ 1 }
    ensures again { what_number (whats.Again 200) ≡ 2 }
    ensures command { what_number (whats.Command verbs.Ntfy) ≡ 3 }
    ensures resent { what_number (whats.Resent verbs.Ntfy 2) ≡ 4 }
    ensures acknowledgement { what_number whats.Acknowledgement ≡ 5 }
    ensures code { code_of (whats.Answer 402) ≡ 402 }
    ensures code_again { code_of (whats.Again 510) ≡ 510 }
    ensures no_code { code_of (whats.Command verbs.Ntfy) ≡ 0 }
    ensures verb { verb_of (whats.Command verbs.Rsip) ≡ 9 }
    ensures verb_again { verb_of (whats.Resent verbs.Ntfy 2) ≡ 3 }
    ensures no_verb { verb_of (whats.Answer 200) ≡ 0 }
    ensures first_verb { verb_number verbs.Epcf ≡ 1 }
    ensures other_verb { verb_number verbs.Other ≡ 0 }
    // A line's signals and modes are numbered in the order of their tables.
    ensures on_hook { hook_number hooks.OnHook ≡ 0 }
    ensures off_hook { hook_number hooks.OffHook ≡ 1 }
    ensures first_signal { signal_number signals.DialTone ≡ 1 }
    ensures last_signal { signal_number signals.Confirm ≡ 9 }
    ensures ends { signal_of (record { signal = signals.Ringing; end = Some 7 }) ≡ record { end = 7; signal = 4; ends = 1 } }
    ensures lasts { signal_of (record { signal = signals.MessageWaiting; end = None }) ≡ record { end = 0; signal = 6; ends = 0 } }
    ensures first_mode { mode_number modes.SendOnly ≡ 1 }
    ensures last_mode { mode_number modes.Inactive ≡ 5 }
    ensures one { first_payload (Only Pcma) ≡ 8 }
    ensures same { last_payload (Only Pcma) ≡ 8 }
    ensures lines_are_told_in_numbers_first { first_payload (Both Pcma) ≡ 8 }
    ensures other { last_payload (Both Pcma) ≡ 0 }
{}

/// What is open, how ids begin and how long a text is are looked at before it is read, in this order; and each call has its answers.
pub fn a_text_is_read_last()
    ensures bad_first { (text : List ℕ) → unread_number None text 9999999 ≡ Some BAD_FIRST }
    ensures last_first { unread_number None [] 9999998 ≡ None }
    ensures long { (text : List ℕ) → length text ≡ 1048577 → unread_number None text 0 ≡ Some TOO_LONG }
    ensures longest { (text : List ℕ) → length text ≡ 1048576 → unread_number None text 0 ≡ None }
    ensures opened { is_read_number OK ≡ true }
    ensures memory { is_read_number OUT_OF_MEMORY ≡ true }
    ensures fault { is_read_number 17 ≡ true }
    ensures no_fault { is_read_number TOO_LONG ≡ false }
    ensures told { is_told_number HAS_FLAW ≡ true }
    ensures small { is_told_number SMALL_BUFFER ≡ true }
    ensures refused { is_told_number OUT_OF_MEMORY ≡ true }
    ensures no_flaw { is_told_number OK ≡ false }
    ensures checked { is_checked_number OK ≡ true }
    ensures nothing_else { is_checked_number NOT_OPEN ≡ false }
{}

/// A text that came is told by what it was and got, with what of it is at fault; and a command that was given up by whose it was.
pub fn what_came_and_what_was_given_up_is_told_in_numbers()
    ensures no_message { outcome_of NoMessage ≡ record { place = 0; id = 0; came = 1; verb = 0; got = 0; code = 0; fault = 0 } }
    ensures response { outcome_of (Response 9 false) ≡ record { place = 0; id = 0; came = 3; verb = 0; got = 0; code = 0; fault = 0 } }
    ensures acknowledged { (outcome_of (Response 9 true)).got ≡ 5 }
    ensures refused { outcome_of (Command (Some verbs.Rqnt) 1207 (First 518 (Some (parts.Value 82))))
        ≡ record { place = 82; id = 1207; came = 2; verb = 2; got = 1; code = 518; fault = 5 } }
    ensures again { outcome_of (Command None 1207 (Again 200))
        ≡ record { place = 0; id = 1207; came = 2; verb = 0; got = 2; code = 200; fault = 0 } }
    ensures silence { outcome_of (Command (Some verbs.Auep) 7 Silence)
        ≡ record { place = 0; id = 7; came = 2; verb = 7; got = 3; code = 0; fault = 0 } }
    ensures no_room { (outcome_of (Command (Some verbs.Auep) 7 NoRoom)).got ≡ 4 }
    ensures verb { fault_number (Some parts.Verb) ≡ 1 }
    ensures name { fault_number (Some parts.Name) ≡ 2 }
    ensures line { fault_number (Some (parts.Line 3)) ≡ 3 }
    ensures which_line { fault_place (Some (parts.Line 3)) ≡ 3 }
    ensures missing { fault_number (Some (parts.Missing 88)) ≡ 4 }
    ensures which_is_missing { fault_place (Some (parts.Missing 88)) ≡ 88 }
    ensures description { fault_number (Some parts.Description) ≡ 6 }
    ensures given_up { given_up_of (record { line = 2; id = 20000001; verb = verbs.Ntfy; moment = 24500 })
        ≡ record { moment = 24500; id = 20000001; line = 2; verb = 3 } }
    ensures closed { outcome_number None 0 ≡ NOT_OPEN }
    ensures closed_too { given_up_number None 0 ≡ NOT_OPEN }
{}
