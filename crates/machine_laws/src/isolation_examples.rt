//! Worked examples of the definitions, as theorems: each sentence of a definition has one that a slip in it breaks.
#![tactic(auto, unfolding(crate::proofs::IsolationComputing::on_examples))]

ghost use Rattle.std.specs.Prelude.{◌≡◌, ◌++◌, codes, [], ◌∷◌, replicate, true, false, Some, None};
ghost use Rattle.std.specs.List.{list_all};
ghost use Rattle.transmission.specs.HistoryExample.{comes, to};
ghost use Rattle.mg_line.specs.declared.phone.Act.TheVariants as acts;
ghost use Rattle.packages.specs.declared.signal.Signal.TheVariants as tones;
ghost use Rattle.mgcp_text.specs.declared.message.Message.TheVariants as messages;
ghost use Rattle.mgcp_text.specs.Reading.{read_text};
ghost use Rattle.plain_machine.specs.Event.{phone, tick, datagram};
ghost use Rattle.plain_machine.specs.Example.{two_lines, other_agent, from_agent, from_other, until, own_at, answer_at, notification_of, ntfy, flown};
ghost use Rattle.mgcp_text.specs.declared.message.Verb.TheVariants.{Rsip};
ghost use Rattle.plain_machine.specs.Message.{answer_of, own_of, of_none, answer, again, command, resent};
ghost use Rattle.machine_laws.specs.Apart.{is_for_one, keeps_apart, none_lost, commands_read, LinesKeepApart};
ghost use Rattle.machine_laws.specs.Belonging.{is_of, of_line};
ghost use Rattle.machine_laws.specs.OwnEvents.{line_read, own_part, own_events};
ghost use Rattle.machine_laws.specs.IsolationExample.{both_dial, one_dials, audit_text, under_one_id, all_are_to_ring, confirmed_by_another, sent_at, sent_alone, signals_at, read_command, both_call, chosen_among_lines, numbers_at, lifted_early};

/// Each sentence at an example.
pub fn each_sentence_has_an_example()
    // To a line belong the answers to its commands, and its own commands.
    ensures answer { is_of 1 (answer_of (Some 1)) ≡ true }
    ensures other_answer { is_of 1 (answer_of (Some 2)) ≡ false }
    ensures no_name { is_of 1 (answer_of None) ≡ false }
    ensures own { is_of 1 (own_of 1) ≡ true }
    ensures other_own { is_of 1 (own_of 2) ≡ false }
    ensures gateway { is_of 1 (own_of 0) ≡ false }
    ensures its_own { is_of 0 (own_of 0) ≡ true }
    ensures none { is_of 1 of_none ≡ false }
    ensures messages_belong_to_lines_in_order { let a = own_at 1 5 (resent (flown 1 (codes "a") 0 5)) in let b = own_at 1 6
        (resent (flown 2 (codes "b") 0 6))
        in of_line 1 (a ∷ own_at 2 5 (resent (flown 3 (codes "c") 0 5)) ∷ b ∷ []) ≡ a ∷ b ∷ [] }
    // A command reads as the line that its name is of; other texts, and commands with another name, read as no line.
    ensures commands_read_as_a_line_line { line_read two_lines (read_text (audit_text 7 (codes "aaln/2"))) ≡ Some 2 }
    ensures commands_read_as_a_line_no_such_line { line_read two_lines (read_text (audit_text 7 (codes "aaln/3"))) ≡ None }
    ensures commands_read_as_a_line_all { line_read two_lines (read_text (audit_text 7 (codes "*"))) ≡ None }
    ensures commands_read_as_a_line_any { line_read two_lines (read_text (audit_text 7 (codes "$"))) ≡ None }
    ensures commands_read_as_a_line_version { line_read two_lines (read_text (codes "AUEP 7 aaln/2@rgw.example.net MGCP 2.0\r\n")) ≡ None }
    ensures commands_read_as_a_line_body { line_read two_lines (read_text (codes "AUEP 7 aaln/2@rgw.example.net MGCP 1.0\r\nF\r\n"))
        ≡ None }
    ensures commands_read_as_a_line_response { line_read two_lines (read_text (codes "200 7 OK\r\n")) ≡ None }
    ensures commands_read_as_a_line_no_header { line_read two_lines (read_text (codes "F: ES\r\n")) ≡ None }
    // A command for all lines, or for any one, is one for several; no other text is.
    ensures wildcards_are_for_several_all { is_for_one two_lines (read_text (audit_text 7 (codes "*"))) ≡ false }
    ensures wildcards_are_for_several_any { is_for_one two_lines (read_text (audit_text 7 (codes "$"))) ≡ false }
    ensures wildcards_are_for_several_line { is_for_one two_lines (read_text (audit_text 7 (codes "aaln/2"))) ≡ true }
    ensures wildcards_are_for_several_no_such_line { is_for_one two_lines (read_text (audit_text 7 (codes "aaln/3"))) ≡ true }
    ensures wildcards_are_for_several_version { is_for_one two_lines (read_text (codes "AUEP 7 *@rgw.example.net MGCP 2.0\r\n")) ≡ true }
    ensures wildcards_are_for_several_body { is_for_one two_lines (read_text (codes "AUEP 7 *@rgw.example.net MGCP 1.0\r\nF\r\n")) ≡ true }
    ensures wildcards_are_for_several_response { is_for_one two_lines (read_text (codes "200 7 OK\r\n")) ≡ true }
    ensures wildcards_are_for_several_no_header { is_for_one two_lines (read_text (codes "F: ES\r\n")) ≡ true }
    // Of a line's own are the acts at its telephone, the clock, and each text but for the commands that read as another line:
    // it stands in a datagram of its own, from where it came, byte by byte as it stood.
    ensures act { own_part two_lines 1 (phone 1 acts.Flash) ≡ phone 1 acts.Flash ∷ [] }
    ensures other_act { own_part two_lines 1 (phone 2 acts.Flash) ≡ [] }
    ensures clock { own_part two_lines 1 (tick 5) ≡ tick 5 ∷ [] }
    ensures one { own_part two_lines 1 (from_other (audit_text 7 (codes "aaln/1")))
        ≡ from_other (audit_text 7 (codes "aaln/1")) ∷ [] }
    ensures events_are_a_lines_own_other { own_part two_lines 1 (from_agent (audit_text 7 (codes "aaln/2"))) ≡ [] }
    ensures events_are_a_lines_own_all { own_part two_lines 1 (from_agent (audit_text 7 (codes "*")))
        ≡ from_agent (audit_text 7 (codes "*")) ∷ [] }
    ensures events_are_a_lines_own_no_line { own_part two_lines 1 (from_agent (audit_text 7 (codes "aaln/3")))
        ≡ from_agent (audit_text 7 (codes "aaln/3")) ∷ [] }
    ensures parts { own_part two_lines 1 (from_agent (codes "  200 7\n.\r\n" ++ audit_text 8 (codes "aaln/2")
        ++ codes ".\nAUEP 9 aaln/2@rgw.example.net MGCP 2.0\n. \nx\n"))
        ≡ from_agent (codes "  200 7\n") ∷ from_agent (codes "AUEP 9 aaln/2@rgw.example.net MGCP 2.0\n")
        ∷ from_agent (codes "x\n") ∷ [] }
    ensures too_long { own_part two_lines 1 (from_agent (replicate 4001 97)) ≡ [] }
    ensures events_are_a_lines_own_in_order { own_events two_lines 1 both_dial ≡ one_dials }
{}

/// Each sentence at an example.
pub fn further_sentences_have_examples()
    // Two commands have to do with each other where they have one id, or the one confirms the other; then they read as one
    // line, or both as none.
    ensures one_id { keeps_apart (read_command (Some 1) 7 []) (read_command (Some 2) 7 []) ≡ false }
    ensures one_line { keeps_apart (read_command (Some 1) 7 []) (read_command (Some 1) 7 []) ≡ true }
    ensures commands_keep_apart_no_line { keeps_apart (read_command None 7 []) (read_command None 7 []) ≡ true }
    ensures some_line { keeps_apart (read_command None 7 []) (read_command (Some 2) 7 []) ≡ false }
    ensures other_line { keeps_apart (read_command (Some 2) 7 []) (read_command None 7 []) ≡ false }
    ensures other_ids { keeps_apart (read_command (Some 1) 7 []) (read_command (Some 2) 8 []) ≡ true }
    ensures confirms { keeps_apart (read_command (Some 1) 7 (to 8 9 ∷ [])) (read_command (Some 2) 9 []) ≡ false }
    ensures confirms_its_own { keeps_apart (read_command (Some 1) 7 (to 8 9 ∷ [])) (read_command (Some 1) 9 []) ≡ true }
    ensures confirms_others { keeps_apart (read_command (Some 1) 7 (to 8 9 ∷ [])) (read_command (Some 2) 10 []) ≡ true }
    ensures is_confirmed { keeps_apart (read_command (Some 1) 7 []) (read_command (Some 2) 9 (to 8 8 ∷ [])) ≡ true }
    // Lines keep apart where each command is for one line, has an id of its own, and confirms nothing of another line.
    ensures lines_that_dial_keep_apart { LinesKeepApart two_lines both_dial }
    // So what line 2 dials, and that it isn't answered, is no matter of line 1: its answer and its notification are the same,
    // at the same moment; and so are those of line 2.
    ensures dialling_on_another_line_changes_nothing_line { sent_at 1 both_dial
        ≡ answer_at (Some 1) 1000 (answer (messages.Response 200 1701 [] []))
        ∷ own_at 1 1000 (notification_of 10000000 (codes "aaln/1@rgw.example.net") (codes "B1") (codes "D/5,D/6")) ∷ [] }
    ensures dialling_on_another_line_changes_nothing_alone { sent_at 1 one_dials
        ≡ answer_at (Some 1) 1000 (answer (messages.Response 200 1701 [] []))
        ∷ own_at 1 1000 (notification_of 10000000 (codes "aaln/1@rgw.example.net") (codes "B1") (codes "D/5,D/6")) ∷ [] }
    ensures dialling_on_another_line_changes_nothing_other { sent_at 2 both_dial
        ≡ answer_at (Some 2) 1000 (answer (messages.Response 200 1702 [] []))
        ∷ own_at 2 1000 (notification_of 20000000 (codes "aaln/2@rgw.example.net") (codes "B1") (codes "D/7,D/8"))
        ∷ own_at 2 1500 (resent (flown 20000000 (ntfy 20000000 2 (codes "B1") (codes "D/7,D/8")) 0 1500)) ∷ [] }
    // What the gateway itself sends is the same too: it announces itself once, whatever lines do.
    ensures the_gateways_own_messages_are_the_same_all { sent_at 0 both_dial
        ≡ own_at 0 1 (command (messages.Command Rsip 1 (codes "*@rgw.example.net")
        ((record { code = codes "RM"; value = codes "restart" }) ∷ []) [])) ∷ [] }
    ensures the_gateways_own_messages_are_the_same_alone { sent_alone 0 both_dial
        ≡ own_at 0 1 (command (messages.Command Rsip 1 (codes "*@rgw.example.net")
        ((record { code = codes "RM"; value = codes "restart" }) ∷ []) [])) ∷ [] }
    // Each line numbers its connections by itself, from 1.
    ensures connections_of_lines_are_apart_apart { LinesKeepApart two_lines both_call }
    ensures connections_of_lines_are_apart_numbers { numbers_at 2 both_call ≡ Some (1 ∷ []) }
    ensures connections_of_lines_are_apart_alone { numbers_at 2 (own_events two_lines 2 both_call) ≡ Some (1 ∷ []) }
    // Up to where the gateway serves each line is refused its request, and keeps what its telephone does; then each notifies
    // that, whatever other lines did, and to the agent that the answer to the gateway's own message names.
    ensures lines_are_opened_apart_apart { LinesKeepApart two_lines lifted_early }
    ensures lines_are_opened_apart_sent { sent_at 2 lifted_early ≡ answer_at (Some 2) 0 (answer (messages.Response 405 1702 [] []))
        ∷ record (own_at 2 1 (notification_of 20000000 (codes "aaln/2@rgw.example.net") (codes "0") (codes "L/hd")))
        { to = other_agent } ∷ [] }
    ensures lines_are_opened_apart_alone { sent_alone 2 lifted_early ≡ answer_at (Some 2) 0 (answer (messages.Response 405 1702 [] []))
        ∷ record (own_at 2 1 (notification_of 20000000 (codes "aaln/2@rgw.example.net") (codes "0") (codes "L/hd")))
        { to = other_agent } ∷ [] }
    // Two commands to two lines under one id are one transaction: the second line gets the first one's answer, which it
    // wouldn't get alone.
    ensures lines_with_one_transaction_do_not_keep_apart_apart { ¬ LinesKeepApart two_lines under_one_id }
    ensures lines_with_one_transaction_do_not_keep_apart_sent { sent_at 2 under_one_id
        ≡ own_at 2 1000 (notification_of 20000000 (codes "aaln/2@rgw.example.net") (codes "0") (codes "L/hd"))
        ∷ answer_at (Some 2) 1000 (again 3401 (codes "200 3401 OK\r\nES: L/hu\r\n")) ∷ [] }
    ensures lines_with_one_transaction_do_not_keep_apart_alone { sent_alone 2 under_one_id
        ≡ own_at 2 1000 (notification_of 20000000 (codes "aaln/2@rgw.example.net") (codes "0") (codes "L/hd"))
        ∷ answer_at (Some 2) 1000
        (answer (messages.Response 200 3401 ((record { code = codes "ES"; value = codes "L/hd" }) ∷ []) [])) ∷ [] }
    // What one line refuses of a command on all lines isn't done on the others: alone, line 1 would ring.
    ensures lines_of_one_command_do_not_keep_apart_apart { ¬ LinesKeepApart two_lines all_are_to_ring }
    ensures signals { signals_at 1 all_are_to_ring ≡ Some [] }
    ensures lines_of_one_command_do_not_keep_apart_alone { signals_at 1 (own_events two_lines 1 all_are_to_ring)
        ≡ Some (until tones.Ringing 181000 ∷ []) }
    // A connection on any one line is created on the first that has a place for it: where line 1 is full on line 2, which alone
    // gets none, since line 1 has a place there.
    ensures lines_of_which_one_is_chosen_do_not_keep_apart_apart { ¬ LinesKeepApart two_lines chosen_among_lines }
    ensures lines_of_which_one_is_chosen_do_not_keep_apart_numbers { numbers_at 2 chosen_among_lines ≡ Some (1 ∷ []) }
    ensures lines_of_which_one_is_chosen_do_not_keep_apart_alone { numbers_at 2 (own_events two_lines 2 chosen_among_lines) ≡ Some [] }
    // A command to one line that confirms the answer of another silences the repeat there.
    ensures lines_that_confirm_each_other_do_not_keep_apart_apart { ¬ LinesKeepApart two_lines confirmed_by_another }
    ensures lines_that_confirm_each_other_do_not_keep_apart_sent { sent_at 1 confirmed_by_another
        ≡ answer_at (Some 1) 1000
        (answer (messages.Response 200 7 ((record { code = codes "ES"; value = codes "L/hu" }) ∷ []) [])) ∷ [] }
    ensures lines_that_confirm_each_other_do_not_keep_apart_alone { sent_alone 1 confirmed_by_another
        ≡ answer_at (Some 1) 1000
        (answer (messages.Response 200 7 ((record { code = codes "ES"; value = codes "L/hu" }) ∷ []) []))
        ∷ answer_at (Some 1) 1000 (again 7 (codes "200 7 OK\r\nES: L/hu\r\n")) ∷ [] }
    // A command is lost where as many firsts are remembered as there may be; its repeat isn't.
    ensures room { none_lost 2 [] (comes 1 0 65 ∷ comes 2 0 66 ∷ []) ≡ true }
    ensures full { none_lost 1 [] (comes 1 0 65 ∷ comes 2 0 66 ∷ []) ≡ false }
    ensures repeats { none_lost 1 [] (comes 1 0 65 ∷ comes 1 0 66 ∷ []) ≡ true }
    ensures forgotten { none_lost 1 [] (comes 1 0 65 ∷ comes 2 30000 66 ∷ []) ≡ true }
    ensures before { none_lost 1 (comes 1 0 65 ∷ []) (comes 2 0 66 ∷ []) ≡ false }
{}
