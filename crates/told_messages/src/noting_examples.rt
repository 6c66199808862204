//! How refusals, strangers and who isn't heard are told in the log, as theorems.
#![tactic(auto, unfolding(crate::proofs::Computing::on_examples))]

ghost use Rattle.std.specs.Prelude.{◌≡◌, [], Some, None};
ghost use Rattle.mgcp_text.specs.declared.message.Verb.TheVariants.{Rqnt, Ntfy};
ghost use Rattle.command_forms.specs.declared.refused.FaultyPart.TheVariants.{Value};
ghost use Rattle.command_forms.specs.Explaining.{explanation_of};
ghost use Rattle.log_format.specs.declared.note.Note.TheVariants.{Refused, Unanswered};
ghost use Rattle.log_format.specs.declared.note.Note.TheVariants as notes;
ghost use Rattle.log_format.specs.declared.stamp.Stamp.{Stamp};
ghost use Rattle.log_format.specs.Lines.{note_line, refused_line};
ghost use Rattle.gateway_core.specs.declared.outcome.Reply.TheVariants.{First, Again, Silence, NoRoom};
ghost use Rattle.gateway_core.specs.declared.outcome.TextOutcome.TheVariants.{NoMessage, Command, Response};
ghost use Rattle.plain_machine.specs.declared.label.What.TheVariants as whats;
ghost use Rattle.live_io.specs.Speaking.{nobody, with_host};
ghost use Rattle.message_counts.specs.Example.{host, said};
ghost use Rattle.told_messages.specs.Example.{quiet_until};
ghost use Rattle.told_messages.specs.Strangers.{told_at, quiet_after, unheard_text};
ghost use Rattle.told_messages.specs.Explaining.{reason_text};
ghost use Rattle.told_messages.specs.Recording.{unsent_text};

/// Each sentence at an example.
pub fn each_note_is_told()
    // That a datagram couldn't be sent is noted, with its receiver.
    ensures unsent { unsent_text 5 (host 9) ≡ note_line (record { moment = 5; peer = host 9 }) notes.Unsent }
    // A refusal is told with what is at fault, or by its code alone, and once; a repeat is told of where it isn't answered.
    ensures part { (stamp : Stamp) → reason_text stamp (Command (Some Rqnt) 1207 (First 518 (Some (Value 82))))
        ≡ refused_line stamp 1207 (explanation_of (record { code = 518; at = Value 82 })) }
    ensures ready { (stamp : Stamp) → reason_text stamp (Command (Some Rqnt) 1207 (First 405 (Some (Value 82))))
        ≡ note_line stamp (Refused 1207 405) }
    ensures what_was_refused_is_told_code { (stamp : Stamp) → reason_text stamp (Command (Some Rqnt) 1207 (First 401 None))
        ≡ note_line stamp (Refused 1207 401) }
    ensures unread { (stamp : Stamp) → reason_text stamp (Command None 1207 (First 510 None)) ≡ note_line stamp (Refused 1207 510) }
    ensures least { (stamp : Stamp) → reason_text stamp (Command (Some Rqnt) 1207 (First 400 None)) ≡ note_line stamp (Refused 1207 400) }
    ensures done { (stamp : Stamp) → reason_text stamp (Command (Some Rqnt) 1207 (First 399 None)) ≡ [] }
    ensures what_was_refused_is_told_again { (stamp : Stamp) → reason_text stamp (Command (Some Rqnt) 1207 (Again 401)) ≡ [] }
    ensures silence { (stamp : Stamp) → reason_text stamp (Command (Some Rqnt) 1207 Silence) ≡ note_line stamp (Unanswered 1207) }
    ensures full { (stamp : Stamp) → reason_text stamp (Command (Some Rqnt) 1207 NoRoom) ≡ note_line stamp (notes.NoRoom 4096) }
    ensures what_was_refused_is_told_other { (stamp : Stamp) → reason_text stamp NoMessage ≡ [] }
    ensures response { (stamp : Stamp) (id : _) (asked : _) → reason_text stamp (Response id asked) ≡ [] }
    // A stranger is told of at once, and then none for a second, but how many came.
    ensures strangers_are_told_of_once_a_second_first { told_at (quiet_until 0 0) 5 ≡ Some 0 }
    ensures from_then_on { quiet_after (quiet_until 0 0) 5 ≡ quiet_until 1000005 0 }
    ensures too_soon { told_at (quiet_until 1000005 0) 1000004 ≡ None }
    ensures counted { quiet_after (quiet_until 1000005 15) 1000004 ≡ quiet_until 1000005 16 }
    ensures a_second_later { told_at (quiet_until 1000005 16) 1000005 ≡ Some 16 }
    ensures anew { quiet_after (quiet_until 1000005 16) 1000005 ≡ quiet_until 2000005 0 }
    // Where the time of day was set back the next one is told of.
    ensures set_back { told_at (quiet_until 9000005 16) 8000004 ≡ Some 16 }
    ensures anew_then { quiet_after (quiet_until 9000005 16) 8000004 ≡ quiet_until 9000004 0 }
    ensures not_set_back { told_at (quiet_until 9000005 16) 8000005 ≡ None }
    // That no answer is heard is noted of commands of its own to who may not speak.
    ensures command { unheard_text (with_host nobody (host 7).ip) 0 (said (host 9) (whats.Command Ntfy))
        ≡ note_line (record { moment = 0; peer = host 9 }) (notes.Unheard (host 9).ip) }
    ensures repeated { unheard_text nobody 0 (said (host 9) (whats.Resent Ntfy 2))
        ≡ note_line (record { moment = 0; peer = host 9 }) (notes.Unheard (host 9).ip) }
    ensures admitted { unheard_text (with_host nobody (host 9).ip) 0 (said (host 9) (whats.Command Ntfy)) ≡ [] }
    ensures who_may_not_answer_is_told_of_answer { unheard_text nobody 0 (said (host 9) (whats.Answer 200)) ≡ [] }
    ensures who_may_not_answer_is_told_of_again { unheard_text nobody 0 (said (host 9) (whats.Again 200)) ≡ [] }
    ensures who_may_not_answer_is_told_of_acknowledgement { unheard_text nobody 0 (said (host 9) whats.Acknowledgement) ≡ [] }
{}
