//! What the page is told of messages, as theorems.
#![tactic(auto, unfolding(crate::proofs::Computing::on_examples))]

ghost use Rattle.std.specs.Prelude.{◌≡◌, true, Some, None};
ghost use Rattle.mgcp_text.specs.declared.message.Verb.TheVariants.{Rqnt, Ntfy};
ghost use Rattle.command_forms.specs.declared.refused.FaultyPart.TheVariants.{Value};
ghost use Rattle.gateway_core.specs.declared.outcome.Reply.TheVariants.{First, Again, Silence, NoRoom};
ghost use Rattle.gateway_core.specs.declared.outcome.TextOutcome.TheVariants.{NoMessage, Command, Response};
ghost use Rattle.page_state.specs.declared.label.MessageKind.TheVariants as kinds;
ghost use Rattle.plain_machine.specs.declared.label.What.TheVariants as whats;
ghost use Rattle.plain_machine.specs.declared.label.Whose.TheVariants.{AnswerOf, OwnOf, Nobody};
ghost use Rattle.message_counts.specs.Example.{said_of};
ghost use Rattle.told_messages.specs.Example.{shown};
ghost use Rattle.told_messages.specs.Labelling.{text_label, sent_label, given_up_label};
ghost use Rattle.message_counts.specs.SentExample.{lost as lost_command};

/// Of a text that came the page is told what it was, under which id, and which code answers it; of what is sent also whose it is, and which
/// send of it that is; and of a command that is given up whose it was.
pub fn the_page_is_told_what_messages_are()
    ensures noise { text_label NoMessage ≡ shown kinds.Unreadable None None None None }
    ensures first { text_label (Command (Some Rqnt) 1207 (First 518 (Some (Value 82)))) ≡ shown kinds.New None (Some 1207) (Some 518) None }
    ensures repeat { text_label (Command (Some Rqnt) 1207 (Again 200)) ≡ shown kinds.Repeat None (Some 1207) (Some 200) None }
    ensures silence { text_label (Command (Some Rqnt) 1207 Silence) ≡ shown kinds.Confirmed None (Some 1207) None None }
    ensures lost { text_label (Command (Some Rqnt) 1207 NoRoom) ≡ shown kinds.Lost None (Some 1207) None None }
    ensures response { text_label (Response 9 true) ≡ shown kinds.Response None (Some 9) None None }
    ensures answer { sent_label (said_of (AnswerOf (Some 3)) (whats.Answer 200))
        ≡ shown kinds.Answer (Some 3) (Some 7) (Some 200) (Some 1) }
    ensures of_none { sent_label (said_of (AnswerOf None) (whats.Answer 500)) ≡ shown kinds.Answer None (Some 7) (Some 500) (Some 1) }
    ensures again { sent_label (said_of (AnswerOf (Some 3)) (whats.Again 401)) ≡ shown kinds.Again (Some 3) (Some 7) (Some 401) (Some 1) }
    ensures command { sent_label (said_of (OwnOf 3) (whats.Command Ntfy)) ≡ shown kinds.Command (Some 3) (Some 7) None (Some 1) }
    ensures resent { sent_label (said_of (OwnOf 0) (whats.Resent Ntfy 3)) ≡ shown kinds.Resent (Some 0) (Some 7) None (Some 3) }
    ensures acknowledgement { sent_label (said_of Nobody whats.Acknowledgement) ≡ shown kinds.Acknowledgement None (Some 7) None (Some 1) }
    ensures given_up { given_up_label lost_command ≡ shown kinds.GivenUp (Some 1) (Some 10000000) None None }
{}
