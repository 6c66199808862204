//! Worked examples of the definitions, as theorems: each sentence of a definition has one that a slip in it breaks.
#![tactic(auto, unfolding(crate::proofs::Computing::on_examples))]

ghost use Rattle.std.specs.Prelude.{◌≡◌, ◌++◌, codes, [], ◌∷◌, true, false, Some, None};
ghost use Rattle.call_processing.specs.declared.phase.Tone.TheVariants as tones;
ghost use Rattle.call_processing.specs.declared.phase.Phase.TheVariants as phases;
ghost use Rattle.call_processing.specs.declared.line.Leg.TheVariants as legs;
ghost use Rattle.log_format.specs.declared.note.Note.TheVariants.{Unreadable, SentAgain};
ghost use Rattle.agent_log.specs.declared.standing.Progress.TheVariants.{Ringing, Answered, Connected};
ghost use Rattle.agent_log.specs.declared.standing.Standing.TheVariants.{Rest, Dialling, Busy, Reorder, Caller, Called};
ghost use Rattle.agent_log.specs.Counts.{greatest_count, one_more, nothing_counted, told, counts_text, with_answer, with_notification, with_announcement};
ghost use Rattle.agent_log.specs.Counts.{with_strange_name, with_given_up, with_received, with_handed_out};
ghost use Rattle.agent_log.specs.Standings.{stands_for, standing_of, with_change};
ghost use Rattle.agent_log.specs.Stations.{number_at};
ghost use Rattle.agent_log.specs.Telling.{plain, change_told};
ghost use Rattle.agent_log.specs.Noting.{header_in, text_note};
ghost use Rattle.agent_log.specs.Refusals.{no_refusals, refusals_of, refusals_told};
ghost use Rattle.agent_log.specs.Example.{leg_in, rings_other, calls, exchange_with, answered_with, refused_with, each_counted, station, two_stations};

/// Each sentence at an example.
pub fn each_sentence_has_an_example()
    // Numbers are told behind what they are the number of, and a count stays at its greatest value.
    ensures row { told ((codes "calls ", 3) ∷ (codes " busy ", 12) ∷ []) ≡ codes "calls 3 busy 12" }
    ensures counts_are_told_in_a_row_none { told [] ≡ [] }
    ensures more { one_more 4 ≡ 5 }
    ensures most { one_more greatest_count ≡ greatest_count }
    ensures last { one_more 18446744073709551614 ≡ greatest_count }
    // Each count stands behind its own words, a kind a line.
    ensures each_count_has_its_words { counts_text each_counted
        ≡ codes "calls 1 set up 2 abandoned 3 failed 4 busy 5 wrong number 6\ndatagrams in 7 strange 8 out 9 again 10\n"
        ++ codes "commands 11 answered 12 given up 13\nnotifications 14 announcements 15 strange 16\n"
        ++ codes "network lost 17 copied 18 late 19\nfaults memory 20 receive 21 send 22\n" }
{}

/// How a line stands, at examples.
pub fn each_way_to_stand_has_an_example()
    // A line stands as its phase is; a call is connected once both ends were given the description of the other's.
    ensures rest { standing_of (exchange_with phases.Resting) 0 ≡ Rest }
    ensures a_line_stands_as_its_phase_is_dials { standing_of (exchange_with phases.Dialling) 0 ≡ Dialling }
    ensures a_line_stands_as_its_phase_is_busy { standing_of (exchange_with (phases.Hearing tones.Busy)) 0 ≡ Busy }
    ensures reorder { standing_of (exchange_with (phases.Hearing tones.Reorder)) 0 ≡ Reorder }
    ensures a_line_stands_as_its_phase_is_called { standing_of (answered_with false false) 1 ≡ Called }
    ensures a_line_stands_as_its_phase_is_rings { standing_of (exchange_with (phases.InCall rings_other)) 0 ≡ calls Ringing }
    ensures neither { standing_of (answered_with false false) 0 ≡ calls Answered }
    ensures one { standing_of (answered_with true false) 0 ≡ calls Answered }
    ensures other { standing_of (answered_with false true) 0 ≡ calls Answered }
    ensures both { standing_of (answered_with true true) 0 ≡ calls Connected }
    ensures no_line { standing_of (exchange_with phases.Dialling) 7 ≡ Rest }
    // A connection stands for the call that it was made for, once its answer names it.
    ensures a_connection_stands_for_its_call_own { stands_for (leg_in 3) 3 ≡ true }
    ensures a_connection_stands_for_its_call_another { stands_for (leg_in 2) 3 ≡ false }
    ensures a_connection_stands_for_its_call_unknown { stands_for (legs.Unknown 3) 3 ≡ false }
    ensures a_connection_stands_for_its_call_none { stands_for legs.Absent 3 ≡ false }
{}

/// Each sentence at an example.
pub fn further_sentences_have_examples()
    // A call is counted when it rings, when it is connected, and when it ends before that; and a number that led to none.
    ensures calls_are_counted_as_they_come_rings { (with_change Dialling (calls Ringing) nothing_counted).calls ≡ 1 }
    ensures calls_are_counted_as_they_come_answered { with_change (calls Ringing) (calls Answered) nothing_counted ≡ nothing_counted }
    ensures calls_are_counted_as_they_come_connected { (with_change (calls Answered) (calls Connected) nothing_counted).set_up ≡ 1 }
    ensures ended { with_change (calls Connected) Busy nothing_counted ≡ nothing_counted }
    ensures calls_are_counted_as_they_come_failed { (with_change (calls Ringing) Reorder nothing_counted).failed ≡ 1 }
    ensures failed_later { (with_change (calls Answered) Reorder nothing_counted).failed ≡ 1 }
    ensures abandoned { (with_change (calls Ringing) Rest nothing_counted).abandoned ≡ 1 }
    ensures hung_up { (with_change (calls Answered) Busy nothing_counted).abandoned ≡ 1 }
    ensures calls_are_counted_as_they_come_busy { (with_change Dialling Busy nothing_counted).busy ≡ 1 }
    ensures wrong { (with_change Dialling Reorder nothing_counted).wrong_number ≡ 1 }
    ensures calls_are_counted_as_they_come_dials { with_change Rest Dialling nothing_counted ≡ nothing_counted }
    ensures hears { with_change Called Busy nothing_counted ≡ nothing_counted }
    ensures dials_again { (with_change (calls Ringing) Dialling nothing_counted).abandoned ≡ 1 }
    ensures is_called { (with_change (calls Ringing) Called nothing_counted).abandoned ≡ 1 }
    ensures gives_up { with_change Dialling Rest nothing_counted ≡ nothing_counted }
    ensures dials_on { with_change Dialling Dialling nothing_counted ≡ nothing_counted }
    ensures called_first { with_change Dialling Called nothing_counted ≡ nothing_counted }
    ensures other_tone { with_change Busy Reorder nothing_counted ≡ nothing_counted }
    ensures busy_later { with_change Reorder Busy nothing_counted ≡ nothing_counted }
    ensures calls_are_counted_as_they_come_called_before { with_change Called Rest nothing_counted ≡ nothing_counted }
    // What becomes of a line is told in lines of printable ASCII: a call that is over, and how the line stands now.
    ensures plain { plain (27 ∷ 32 ∷ 126 ∷ 10 ∷ []) ≡ (92 ∷ codes "x1b ~") ++ (92 ∷ codes "x0a") }
    ensures changes_are_told_in_lines_dials { change_told two_stations 1 Rest Dialling ≡ codes "line 202: dialling\n" }
    ensures rests { change_told two_stations 1 Busy Rest ≡ codes "line 202: at rest\n" }
    ensures changes_are_told_in_lines_rings { change_told two_stations 0 Dialling (calls Ringing) ≡ codes "call 3: 201 -> 202 ringing\n" }
    ensures changes_are_told_in_lines_answered { change_told two_stations 0 (calls Ringing) (calls Answered)
        ≡ codes "call 3: 201 -> 202 answered\n" }
    ensures changes_are_told_in_lines_connected { change_told two_stations 0 (calls Answered) (calls Connected)
        ≡ codes "call 3: 201 -> 202 connected\n" }
    ensures over { change_told two_stations 0 (calls Connected) Busy ≡ codes "call 3: 201 -> 202 over\nline 201: busy tone\n" }
    ensures changes_are_told_in_lines_failed { change_told two_stations 0 (calls Ringing) Reorder
        ≡ codes "call 3: 201 -> 202 over\nline 201: reorder tone\n" }
    ensures changes_are_told_in_lines_another { change_told two_stations 0 (calls Ringing) (Caller 4 1 Ringing)
        ≡ codes "call 3: 201 -> 202 over\ncall 4: 201 -> 202 ringing\n" }
    ensures changes_are_told_in_lines_called { change_told two_stations 1 Rest Called ≡ [] }
    ensures changes_are_told_in_lines_called_before { change_told two_stations 0 (calls Ringing) Called
        ≡ codes "call 3: 201 -> 202 over\n" }
    ensures no_number { change_told [] 1 Rest Dialling ≡ codes "line ?: dialling\n" }
    // A station has the number by which it is dialled; a place without one has none.
    ensures second { number_at (station (codes "201") ∷ station (codes "202") ∷ []) 1 ≡ codes "202" }
    ensures a_station_has_a_number_none { number_at [] 3 ≡ codes "?" }
{}

/// What a line refused for good is told by its code, once; what it takes again isn't told.
pub fn refusals_are_told_once()
    ensures request { (refusals_of (refused_with (Some 512) None) 0).request ≡ Some 512 }
    ensures deletion { (refusals_of (refused_with None (Some 510)) 0).deletion ≡ Some 510 }
    ensures no_line { refusals_of (refused_with (Some 512) (Some 510)) 7 ≡ no_refusals }
    ensures new { refusals_told two_stations 1 no_refusals (record { request = Some 512; deletion = None })
        ≡ codes "line 202: takes no request: 512\n" }
    ensures keeps { refusals_told two_stations 1 no_refusals (record { request = None; deletion = Some 510 })
        ≡ codes "line 202: keeps a connection: 510\n" }
    ensures both { refusals_told two_stations 0 no_refusals (record { request = Some 405; deletion = Some 400 })
        ≡ codes "line 201: takes no request: 405\nline 201: keeps a connection: 400\n" }
    ensures told { refusals_told two_stations 1 (record { request = Some 512; deletion = Some 510 })
        (record { request = Some 512; deletion = Some 510 }) ≡ [] }
    ensures other_code { refusals_told two_stations 1 (record { request = Some 512; deletion = None })
        (record { request = Some 513; deletion = None }) ≡ codes "line 202: takes no request: 513\n" }
    ensures taken_again { refusals_told two_stations 1 (record { request = Some 512; deletion = Some 510 }) no_refusals ≡ [] }
{}

/// Of a text the log notes in its place that it is no message, or that it is a command that is sent again; its header says that.
pub fn texts_are_noted_by_their_headers()
    ensures header { header_in (codes "\n \nAUEP 7 a@b MGCP 1.0\nF: A\n") ≡ codes "AUEP 7 a@b MGCP 1.0\n" }
    ensures no_header { header_in (codes "\n\n") ≡ [] }
    ensures no_message { text_note false (codes "noise\n") ≡ Some Unreadable }
    ensures no_message_again { text_note true (codes "noise\n") ≡ Some Unreadable }
    ensures command { text_note false (codes "AUEP 7 a@b MGCP 1.0\n") ≡ None }
    ensures command_again { text_note true (codes "AUEP 7 a@b MGCP 1.0\n") ≡ Some (SentAgain 7) }
    ensures other_version { text_note false (codes "AUEP 7 a@b MGCP 2.0\n") ≡ None }
    ensures other_version_again { text_note true (codes "AUEP 7 a@b MGCP 2.0\n") ≡ Some (SentAgain 7) }
    ensures bad_body { text_note false (codes "AUEP 7 a@b MGCP 1.0\nnoise\n") ≡ None }
    ensures bad_body_again { text_note true (codes "AUEP 7 a@b MGCP 1.0\nnoise\n") ≡ Some (SentAgain 7) }
    ensures response { text_note false (codes "200 7 OK\n") ≡ None }
    ensures response_again { text_note true (codes "200 7 OK\n") ≡ None }
{}

/// What happens counts once, and nothing else with it.
pub fn what_happens_counts_once()
    ensures answer { with_answer each_counted ≡ record each_counted { answered = 13 } }
    ensures notification { with_notification each_counted ≡ record each_counted { notifications = 15 } }
    ensures announcement { with_announcement each_counted ≡ record each_counted { announcements = 16 } }
    ensures strange_name { with_strange_name each_counted ≡ record each_counted { strange_names = 17 } }
    ensures given_up { with_given_up each_counted ≡ record each_counted { given_up = 14 } }
    ensures received { with_received each_counted ≡ record each_counted { datagrams_in = 8 } }
    ensures handed_out { with_handed_out false each_counted ≡ record each_counted { datagrams_out = 10 } }
    ensures again { with_handed_out true each_counted ≡ record each_counted { datagrams_out = 10; again = 11 } }
{}
