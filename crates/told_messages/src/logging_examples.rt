//! How messages are told in the log, as theorems.
#![tactic(auto, unfolding(crate::proofs::Computing::on_examples))]

ghost use Rattle.std.specs.Prelude.{◌≡◌, ◌++◌, ◌∷◌, [], ℕ, List, codes, false, Some, None};
ghost use Rattle.output_queues.specs.declared.record.RecordState.TheVariants.{On};
ghost use Rattle.mgcp_text.specs.declared.message.Verb.TheVariants.{Rqnt, Ntfy, Rsip};
ghost use Rattle.log_format.specs.declared.note.Note.TheVariants as notes;
ghost use Rattle.log_format.specs.declared.stamp.Way.TheVariants as ways;
ghost use Rattle.log_format.specs.Lines.{message_line, note_line, given_up_line};
ghost use Rattle.gateway_core.specs.declared.outcome.Reply.TheVariants.{Silence};
ghost use Rattle.gateway_core.specs.declared.outcome.TextOutcome.{TextOutcome};
ghost use Rattle.gateway_core.specs.declared.outcome.TextOutcome.TheVariants.{NoMessage, Command, Response};
ghost use Rattle.gateway_core.specs.declared.sent.SentMessage.{SentMessage};
ghost use Rattle.plain_machine.specs.declared.label.What.TheVariants as whats;
ghost use Rattle.plain_machine.specs.declared.label.Whose.TheVariants.{AnswerOf, OwnOf, Nobody};
ghost use Rattle.message_counts.specs.Example.{said_of};
ghost use Rattle.message_counts.specs.SentExample.{lost};
ghost use Rattle.told_messages.specs.declared.log.Log.{Log};
ghost use Rattle.told_messages.specs.declared.log.OwnCommand.{OwnCommand};
ghost use Rattle.told_messages.specs.Example.{with_peer, begun};
ghost use Rattle.told_messages.specs.Coming.{waited_for, came_text, texts_came, datagram_came, late_text, arrival_text};
ghost use Rattle.told_messages.specs.Coming.{given_up_text, untaken_text};
ghost use Rattle.told_messages.specs.Logging.{turned_text, explained_at, Receives, Turns, LeavesOut, Sends};
ghost use Rattle.told_messages.specs.Sending.{ms_between, sent_text, datagram_text, last_with, last_behind};

/// What is sent is told by its label: an answer with how long it took, and of what was sent before that alone.
pub fn each_message_that_is_sent_is_told()
    ensures ms { ms_between 1000 13999 ≡ 12 }
    ensures no_ms { ms_between 5000 4000 ≡ 0 }
    ensures answer { (domain text : List ℕ) →
        sent_text domain 1000 (with_peer 13000) text (said_of (AnswerOf (Some 3)) (whats.Answer 200)).label
        ≡ message_line domain (with_peer 13000) ways.Sent text (Some 12) }
    ensures again { (domain text : List ℕ) →
        sent_text domain 1000 (with_peer 13000) text (said_of (AnswerOf (Some 3)) (whats.Again 200)).label
        ≡ note_line (with_peer 13000) (notes.AnsweredAgain 7) }
    ensures command { (domain text : List ℕ) → sent_text domain 1000 (with_peer 13000) text (said_of (OwnOf 3) (whats.Command Ntfy)).label
        ≡ message_line domain (with_peer 13000) ways.Sent text None }
    ensures resent { (domain text : List ℕ) → sent_text domain 1000 (with_peer 13000) text (said_of (OwnOf 3) (whats.Resent Ntfy 2)).label
        ≡ note_line (with_peer 13000) (notes.SentAgain 7) }
    ensures acknowledgement { (domain text : List ℕ) →
        sent_text domain 1000 (with_peer 13000) text (said_of Nobody whats.Acknowledgement).label
        ≡ message_line domain (with_peer 13000) ways.Sent text None }
    // Of a datagram each text is told by the message that it is.
    ensures two { (domain one other : List ℕ) → datagram_text domain 0 (with_peer 5) (one ∷ other ∷ [])
        (said_of (AnswerOf None) (whats.Again 200) ∷ said_of (OwnOf 1) (whats.Command Ntfy) ∷ [])
        ≡ note_line (with_peer 5) (notes.AnsweredAgain 7) ++ (message_line domain (with_peer 5) ways.Sent other None ++ []) }
    ensures no_message { (domain text : List ℕ) → datagram_text domain 0 (with_peer 5) (text ∷ []) [] ≡ [] }
    ensures no_text { (domain : List ℕ) (messages : List SentMessage) → datagram_text domain 0 (with_peer 5) [] messages ≡ [] }
{}

/// A command of the gateway's own is kept as it is sent for the first time, as what its line sent last; and nothing else.
pub fn what_a_line_sent_last_is_kept()
    ensures first { (text : List ℕ) →
        last_with (with_peer 5) text (said_of (OwnOf 1) (whats.Command Ntfy)).label [] ≡ (1, begun 7 5 text) ∷ [] }
    ensures gateway { (text : List ℕ) →
        last_with (with_peer 5) text (said_of (OwnOf 0) (whats.Command Rsip)).label [] ≡ (0, begun 7 5 text) ∷ [] }
    ensures next { (one other : List ℕ) →
        last_with (with_peer 9) other (said_of (OwnOf 1) (whats.Command Ntfy)).label ((1, begun 3 5 one) ∷ [])
        ≡ (1, begun 7 9 other) ∷ [] }
    ensures by_line { (one other : List ℕ) →
        last_with (with_peer 9) other (said_of (OwnOf 1) (whats.Command Ntfy)).label ((2, begun 3 5 one) ∷ [])
        ≡ (1, begun 7 9 other) ∷ (2, begun 3 5 one) ∷ [] }
    ensures resent { (text : List ℕ) (last : List (ℕ × OwnCommand)) →
        last_with (with_peer 9) text (said_of (OwnOf 1) (whats.Resent Ntfy 2)).label last ≡ last }
    ensures answer { (text : List ℕ) (last : List (ℕ × OwnCommand)) →
        last_with (with_peer 9) text (said_of (AnswerOf (Some 1)) (whats.Answer 200)).label last ≡ last }
    ensures again { (text : List ℕ) (last : List (ℕ × OwnCommand)) →
        last_with (with_peer 9) text (said_of (AnswerOf (Some 1)) (whats.Again 200)).label last ≡ last }
    ensures acknowledgement { (text : List ℕ) (last : List (ℕ × OwnCommand)) →
        last_with (with_peer 9) text (said_of Nobody whats.Acknowledgement).label last ≡ last }
    ensures of_nobody { (text : List ℕ) (last : List (ℕ × OwnCommand)) →
        last_with (with_peer 9) text (said_of Nobody (whats.Command Ntfy)).label last ≡ last }
    ensures of_no_own { (text : List ℕ) (last : List (ℕ × OwnCommand)) →
        last_with (with_peer 9) text (said_of (AnswerOf (Some 1)) (whats.Command Ntfy)).label last ≡ last }
    ensures two { (one other : List ℕ) → last_behind (with_peer 5) (one ∷ other ∷ [])
        (said_of (OwnOf 1) (whats.Command Ntfy) ∷ said_of (OwnOf 2) (whats.Command Ntfy) ∷ []) []
        ≡ (1, begun 7 5 one) ∷ (2, begun 7 5 other) ∷ [] }
    ensures no_message { (text : List ℕ) (last : List (ℕ × OwnCommand)) → last_behind (with_peer 5) (text ∷ []) [] last ≡ last }
    ensures no_text { (messages : List SentMessage) (last : List (ℕ × OwnCommand)) → last_behind (with_peer 5) [] messages last ≡ last }
{}

/// What comes is told by what each text was to the gateway: a response with how long its command waited for it.
pub fn each_text_that_comes_is_told()
    ensures response { (text : List ℕ) → waited_for ((1, begun 10000003 5000 text) ∷ []) 17999 10000003 ≡ Some 12 }
    ensures other { (text : List ℕ) → waited_for ((1, begun 10000003 5000 text) ∷ []) 17999 10000004 ≡ None }
    ensures other_line { (text : List ℕ) → waited_for ((1, begun 10000003 5000 text) ∷ []) 17999 20000003 ≡ None }
    ensures nothing_sent { waited_for [] 17999 10000003 ≡ None }
    ensures noise { (domain text : List ℕ) (last : List (ℕ × OwnCommand)) →
        came_text domain last (with_peer 5) text NoMessage ≡ note_line (with_peer 5) notes.Unreadable }
    ensures command { (domain text : List ℕ) (last : List (ℕ × OwnCommand)) →
        came_text domain last (with_peer 5) text (Command (Some Rqnt) 7 Silence)
        ≡ message_line domain (with_peer 5) ways.Came text None }
    ensures waited { (domain one text : List ℕ) →
        came_text domain ((1, begun 10000003 5000 one) ∷ []) (with_peer 17999) text (Response 10000003 false)
        ≡ message_line domain (with_peer 17999) ways.Came text (Some 12) }
    ensures texts { (domain one other : List ℕ) (last : List (ℕ × OwnCommand)) → texts_came domain last (with_peer 5) (one ∷ other ∷ [])
        (NoMessage ∷ Command (Some Rqnt) 7 Silence ∷ [])
        ≡ note_line (with_peer 5) notes.Unreadable ++ (message_line domain (with_peer 5) ways.Came other None ++ []) }
    ensures no_outcome { (domain text : List ℕ) (last : List (ℕ × OwnCommand)) → texts_came domain last (with_peer 5) (text ∷ []) [] ≡ [] }
    ensures no_text { (domain : List ℕ) (last : List (ℕ × OwnCommand)) (outcomes : List TextOutcome) →
        texts_came domain last (with_peer 5) [] outcomes ≡ [] }
    // Of a datagram each text is told, and that it came late.
    ensures datagram { (domain : List ℕ) (last : List (ℕ × OwnCommand)) →
        datagram_came domain last (with_peer 5) (codes "x") (NoMessage ∷ [])
        ≡ note_line (with_peer 5) notes.Unreadable ++ [] }
    ensures late { late_text (with_peer 5) 20 ≡ note_line (with_peer 5) (notes.Late 20) }
    ensures at_once { late_text (with_peer 5) 0 ≡ [] }
    ensures nothing_came { (domain : List ℕ) (last : List (ℕ × OwnCommand)) (outcomes : List TextOutcome) →
        arrival_text domain last (with_peer 5) None outcomes ≡ [] }
    ensures arrival { (domain : List ℕ) (last : List (ℕ × OwnCommand)) →
        arrival_text domain last (with_peer 5) (Some (record { bytes = codes "x"; late = 20 })) (NoMessage ∷ [])
        ≡ (note_line (with_peer 5) notes.Unreadable ++ []) ++ note_line (with_peer 5) (notes.Late 20) }
    // What is given up is told by what its line sent last, with whom that was sent to first.
    ensures given_up { (domain text : List ℕ) → given_up_text domain ((1, begun 10000000 5 text) ∷ []) 9 lost
        ≡ given_up_line domain (with_peer 9) text }
    ensures of_another_line { (domain text : List ℕ) → given_up_text domain ((2, begun 20000000 5 text) ∷ []) 9 lost ≡ [] }
    ensures turned { (log : Log) (outcomes : List TextOutcome) → turned_text (record log { arrival = None }) 9 outcomes (lost ∷ [])
        ≡ given_up_text log.domain log.own.entries 9 lost ++ [] }
    // Of what isn't taken each text is told, and why.
    ensures untaken { (domain : List ℕ) → untaken_text domain (with_peer 5) (codes "a\n.\nb\n") notes.Lost
        ≡ (message_line domain (with_peer 5) ways.Came (codes "a\n") None
        ++ (message_line domain (with_peer 5) ways.Came (codes "b\n") None ++ []))
        ++ note_line (with_peer 5) notes.Lost }
    // Why commands were refused is told of who sent them, at no moment before what was sent.
    ensures refused_then { (log : Log) → explained_at (record log { sent = 4; came = with_peer 9 }) ≡ with_peer 9 }
    ensures refused_behind { (log : Log) → explained_at (record log { sent = 12; came = with_peer 9 }) ≡ with_peer 12 }
{}

/// What a log is told stays in it for as long as it is told all, and nothing else of it changes.
pub fn what_a_log_is_told_stays_in_it()
    ensures came { (was is : Log) → Receives was (with_peer 5) (codes "x") 20 is → is.record.state ≡ On → is.came ≡ with_peer 5 }
    ensures arrival { (was is : Log) → Receives was (with_peer 5) (codes "x") 20 is → is.record.state ≡ On
        → is.arrival ≡ Some (record { bytes = codes "x"; late = 20 }) }
    ensures own_stays { (was is : Log) → Receives was (with_peer 5) (codes "x") 20 is → is.own ≡ was.own }
    ensures taken { (was is : Log) → Turns was 9 [] [] is → is.record.state ≡ On → is.arrival ≡ None }
    ensures came_stays { (was is : Log) → Turns was 9 [] [] is → is.came ≡ was.came }
    ensures left_out { (was is : Log) → LeavesOut was (with_peer 5) (codes "x") notes.Lost is → is.arrival ≡ None }
    ensures sent { (was is : Log) → Sends was (with_peer 5) (codes "x") [] is → is.record.state ≡ On → is.sent ≡ 5 }
    ensures kept { (was is : Log) → Sends was (with_peer 5) (codes "x") [] is → is.record.state ≡ On
        → is.own.entries ≡ was.own.entries }
    ensures arrival_stays { (was is : Log) → Sends was (with_peer 5) (codes "x") [] is → is.arrival ≡ was.arrival }
{}
