//! Worked examples of the definitions, as theorems: each sentence of a definition has one that a slip in it breaks.
#![tactic(auto, unfolding(crate::proofs::Computing::on_examples))]

ghost use Rattle.std.specs.Prelude.{◌≡◌, ◌++◌, codes, [], ◌∷◌, None, Some};
ghost use Rattle.log_format.specs.declared.note.Note.TheVariants as notes;
ghost use Rattle.log_format.specs.declared.note.Notice.TheVariants.{Dropped, SetOn, SetBack};
ghost use Rattle.log_format.specs.declared.stamp.Way.TheVariants.{Came, Sent};
ghost use Rattle.log_format.specs.Escaping.{escaped, shown};
ghost use Rattle.log_format.specs.Grouping.{grouped, number_shown};
ghost use Rattle.log_format.specs.TimeOfDay.{date_of, time_of_day, date_and_time};
ghost use Rattle.log_format.specs.Messages.{message_shown, header_of};
ghost use Rattle.log_format.specs.Notes.{note_text, notice_text};
ghost use Rattle.log_format.specs.Lines.{message_line, note_line, notice_line, given_up_line, refused_line};
ghost use Rattle.log_format.specs.Pausing.{pause_line};
ghost use Rattle.log_format.specs.Example.{stamp_at, noon, own};

/// Each sentence at an example.
pub fn times_of_day_have_examples()
    // A day has 24 hours of 60 minutes of 60 seconds of 1,000 milliseconds; what is below a millisecond isn't shown.
    ensures begins { time_of_day 0 ≡ codes "00:00:00.000" }
    ensures millisecond { time_of_day 1999 ≡ codes "00:00:00.001" }
    ensures second { time_of_day 59999999 ≡ codes "00:00:59.999" }
    ensures minute { time_of_day 60000000 ≡ codes "00:01:00.000" }
    ensures hour { time_of_day 3600000000 ≡ codes "01:00:00.000" }
    ensures a_moment_has_a_time_of_day_last { time_of_day 86399999999 ≡ codes "23:59:59.999" }
    ensures next_day { time_of_day 86400000000 ≡ codes "00:00:00.000" }
    ensures noon { time_of_day noon ≡ codes "12:03:07.123" }
    // 1,234,567,890 seconds after 1970 began it was 23:31:30 on 13 February 2009.
    ensures a_moment_has_a_time_of_day_later { time_of_day 1234567890450000 ≡ codes "23:31:30.450" }
{}

/// Each sentence at an example.
pub fn dates_have_examples()
    // Months have their lengths, February 29 days in a leap year: each fourth is one, but of those that end a century only each fourth.
    ensures a_day_has_a_date_first { date_of 0 ≡ codes "1970-01-01" }
    ensures month { date_of 30 ≡ codes "1970-01-31" }
    ensures next_month { date_of 31 ≡ codes "1970-02-01" }
    ensures spring { date_of 90 ≡ codes "1970-04-01" }
    ensures may { date_of 120 ≡ codes "1970-05-01" }
    ensures june { date_of 151 ≡ codes "1970-06-01" }
    ensures year { date_of 364 ≡ codes "1970-12-31" }
    ensures next_year { date_of 365 ≡ codes "1971-01-01" }
    ensures no_leap_day { date_of 424 ≡ codes "1971-03-01" }
    ensures leap_day { date_of 789 ≡ codes "1972-02-29" }
    ensures after { date_of 790 ≡ codes "1972-03-01" }
    ensures summer { date_of 911 ≡ codes "1972-06-30" }
    ensures autumn { date_of 1003 ≡ codes "1972-09-30" }
    ensures century { date_of 11016 ≡ codes "2000-02-29" }
    ensures a_day_has_a_date_later { date_of 20784 ≡ codes "2026-11-27" }
    ensures other_century { date_of 47541 ≡ codes "2100-03-01" }
    // A moment has both, a day of 86,400 seconds; `T` stands between them, and `Z` says that it is UTC.
    ensures a_moment_has_a_date_last { date_and_time 86399999999 ≡ codes "1970-01-01T23:59:59.999Z" }
    ensures next { date_and_time 86400000000 ≡ codes "1970-01-02T00:00:00.000Z" }
    ensures a_moment_has_a_date_later { date_and_time 1234567890450000 ≡ codes "2009-02-13T23:31:30.450Z" }
{}

/// Each sentence at an example.
pub fn escaped_bytes_have_examples()
    // From the blank to the tilde each byte is shown as it is, but the backslash; any other by two hexadecimal digits.
    ensures plain { escaped (codes " L/hd(N), ~!") ≡ codes " L/hd(N), ~!" }
    ensures ends { escaped (13 ∷ 10 ∷ []) ≡ (92 ∷ codes "x0d") ++ (92 ∷ codes "x0a") }
    ensures sequence { escaped (27 ∷ codes "[2J") ≡ 92 ∷ codes "x1b[2J" }
    ensures backslash { escaped (92 ∷ codes "x41") ≡ 92 ∷ codes "x5cx41" }
    ensures below { escaped (31 ∷ 32 ∷ []) ≡ 92 ∷ codes "x1f " }
    ensures above { escaped (126 ∷ 127 ∷ []) ≡ 126 ∷ 92 ∷ codes "x7f" }
    ensures high { escaped (195 ∷ 169 ∷ 255 ∷ []) ≡ (92 ∷ codes "xc3") ++ (92 ∷ codes "xa9") ++ (92 ∷ codes "xff") }
    ensures what_is_not_printable_is_escaped_nothing { escaped (0 ∷ []) ≡ 92 ∷ codes "x00" }
{}

/// Each sentence at an example.
pub fn values_have_examples()
    // A value of 64 bytes is shown whole, and of a longer one the first 64, whatever their escapes take.
    ensures whole { shown (codes "0123456789012345678901234567890123456789012345678901234567890123")
        ≡ codes "0123456789012345678901234567890123456789012345678901234567890123" }
    ensures cut { shown (codes "01234567890123456789012345678901234567890123456789012345678901234")
        ≡ codes "0123456789012345678901234567890123456789012345678901234567890123.." }
    ensures escapes { shown (10 ∷ codes "123456789012345678901234567890123456789012345678901234567890123")
        ≡ 92 ∷ codes "x0a123456789012345678901234567890123456789012345678901234567890123" }
    ensures long_values_are_cut_empty { shown [] ≡ [] }
{}

/// Each sentence at an example.
pub fn numbers_have_examples()
    // A number of more than three digits has commas.
    ensures numbers_have_commas_nothing { number_shown 0 ≡ codes "0" }
    ensures three { number_shown 999 ≡ codes "999" }
    ensures four { number_shown 1024 ≡ codes "1,024" }
    ensures six { grouped (codes "600000") ≡ codes "600,000" }
    ensures seven { grouped (codes "1048576") ≡ codes "1,048,576" }
{}

/// Each sentence at an example.
pub fn headers_have_examples()
    // Of a header the first three words are shown, of a name of the gateway's own domain what stands before the first `@`.
    ensures a_header_is_shown_without_the_own_domain_command { header_of own
        (codes "NTFY 10000003 aaln/1@rgw.example.net MGCP 1.0\r\nX: A1\r\n")
        ≡ codes " NTFY 10000003 aaln/1" }
    ensures no_domain { header_of own (codes "AUEP 1 * MGCP 1.0\r\n") ≡ codes " AUEP 1 *" }
    ensures blanks { header_of own (codes "AUEP \t1  a ") ≡ codes " AUEP 1 a" }
    ensures short { header_of own (codes "200 1207\r\n") ≡ codes " 200 1207" }
    ensures word { header_of own (codes "hello@rgw.example.net") ≡ codes " hello@rgw.example.net" }
    ensures a_header_is_shown_without_the_own_domain_nothing { header_of own [] ≡ [] }
{}

/// Each sentence at an example.
pub fn names_of_a_domain_have_examples()
    // The domain is left out where it is the gateway's own, whatever the case of its letters, and nowhere else.
    ensures own_case { header_of (codes "Rgw.b") (codes "AUEP 1 a@rGW.B") ≡ codes " AUEP 1 a" }
    ensures another_domain_is_shown_other { header_of own (codes "AUEP 118 aaln/1@other.example.net MGCP 1.0\r\n")
        ≡ codes " AUEP 118 aaln/1@other.example.net" }
    ensures longer { header_of (codes "b") (codes "AUEP 1 a@b.c") ≡ codes " AUEP 1 a@b.c" }
    ensures shorter { header_of (codes "b.c") (codes "AUEP 1 a@b") ≡ codes " AUEP 1 a@b" }
    ensures another_domain_is_shown_empty { header_of (codes "b") (codes "AUEP 1 a@") ≡ codes " AUEP 1 a@" }
    ensures another_domain_is_shown_first { header_of (codes "b@c") (codes "AUEP 1 a@b@c") ≡ codes " AUEP 1 a" }
    ensures another_domain_is_shown_last { header_of (codes "c") (codes "AUEP 1 a@b@c") ≡ codes " AUEP 1 a@b@c" }
    ensures local { header_of (codes "a") (codes "AUEP 1 a") ≡ codes " AUEP 1 a" }
    // A call agent has gateways of many domains, and none of its own.
    ensures another_domain_is_shown_none { header_of [] (codes "AUEP 1 a@b") ≡ codes " AUEP 1 a@b" }
    ensures none_empty { header_of [] (codes "AUEP 1 a@") ≡ codes " AUEP 1 a@" }
    ensures none_local { header_of [] (codes "AUEP 1 a") ≡ codes " AUEP 1 a" }
{}

/// Each sentence at an example.
pub fn messages_have_examples()
    // Behind it come the further lines that aren't empty, in their order.
    ensures a_message_is_shown_in_one_line_command { message_shown own
        (codes "RQNT 1207 aaln/1@rgw.example.net MGCP 1.0\r\nX: A1\r\nR: L/hd(N), L/hf\r\nS: L/rg\r\n")
        ≡ codes " RQNT 1207 aaln/1 X: A1 R: L/hd(N), L/hf S: L/rg" }
    ensures a_message_is_shown_in_one_line_other { message_shown own (codes "AUEP 1 a@b MGCP 1.0\r\nF: A\r\n") ≡ codes " AUEP 1 a@b F: A" }
    ensures response { message_shown own (codes "200 1207 OK\r\n") ≡ codes " 200 1207 OK" }
    ensures description { message_shown own (codes "200 7 OK\r\nI: 1\r\n\r\nv=0\r\nt=0 0\r\n") ≡ codes " 200 7 OK I: 1 v=0 t=0 0" }
    ensures a_message_is_shown_in_one_line_late { message_shown own (codes "\r\nAUEP 1 a@b MGCP 1.0\r\n") ≡ codes " AUEP 1 a@b MGCP 1.0" }
    ensures stray { message_shown own (codes "AUEP 1 a\n" ++ 27 ∷ codes "c\n") ≡ codes " AUEP 1 a " ++ 92 ∷ codes "x1bc" }
    ensures a_message_is_shown_in_one_line_nothing { message_shown own [] ≡ [] }
{}

/// Each sentence at an example.
pub fn pauses_have_examples()
    // A pause is noted in seconds, rounded, with how many datagrams had come, where that was counted.
    ensures several { pause_line noon 30600 (Some 12) ≡ codes "1970-01-02T12:03:07.123Z ! paused for 31 s, 12 datagrams were waiting\n" }
    ensures one { pause_line noon 1499 (Some 1) ≡ codes "1970-01-02T12:03:07.123Z ! paused for 1 s, 1 datagram was waiting\n" }
    ensures pauses_are_noted_none { pause_line noon 501 (Some 0)
        ≡ codes "1970-01-02T12:03:07.123Z ! paused for 1 s, 0 datagrams were waiting\n" }
    ensures half { pause_line noon 1500 (Some 2) ≡ codes "1970-01-02T12:03:07.123Z ! paused for 2 s, 2 datagrams were waiting\n" }
    ensures uncounted { pause_line noon 200000 None ≡ codes "1970-01-02T12:03:07.123Z ! paused for 200 s\n" }
{}

/// Each sentence at an example.
pub fn notes_have_examples()
    // What is noted, of each kind.
    ensures again { note_text (notes.AnsweredAgain 1205) ≡ codes "repeat of 1205, answered again" }
    ensures unanswered { note_text (notes.Unanswered 1205) ≡ codes "repeat of 1205, confirmed, not answered" }
    ensures sent_again { note_text (notes.SentAgain 10000003) ≡ codes "repeat of 10000003, no answer yet" }
    ensures notes_say_what_happened_refused { note_text (notes.Refused 1207 401) ≡ codes "refused 1207: 401 the phone is already off hook" }
    ensures other_code { note_text (notes.Refused 1207 599) ≡ codes "refused 1207: 599" }
    ensures unreadable { note_text notes.Unreadable ≡ codes "no message" }
    ensures too_long { note_text (notes.TooLong 4001) ≡ codes "too long: 4001 bytes or more" }
    ensures unsent { note_text notes.Unsent ≡ codes "not sent" }
    ensures memory { note_text notes.OutOfMemory ≡ codes "out of memory, nothing was done" }
    ensures lost { note_text notes.Lost ≡ codes "lost on its way" }
    ensures notes_say_what_happened_late { note_text (notes.Late 1200) ≡ codes "late by 1200 ms" }
    ensures copied { note_text (notes.Copied 0 1200) ≡ codes "copied, late by 0 and 1200 ms" }
    ensures stranger { note_text (notes.Stranger 0) ≡ codes "a stranger's, not heard" }
    ensures strangers { note_text (notes.Stranger 16) ≡ codes "a stranger's, not heard, as 16 before it" }
    ensures unheard { note_text (notes.Unheard (stamp_at 0).peer.ip)
        ≡ codes "no answer is heard from there, but with --agents 10.0.0.7" }
    ensures no_room { note_text (notes.NoRoom 4096) ≡ codes "lost: 4,096 commands are young" }
    // What is noted of the program itself, of each kind.
    ensures dropped { notice_text (Dropped 1234) ≡ codes "dropped 1234 lines, which nobody took" }
    ensures set_on { notice_text (SetOn 3600000) ≡ codes "the time of day was set on by 3600000 ms" }
    ensures set_back { notice_text (SetBack 1001) ≡ codes "the time of day was set back by 1001 ms" }
    ensures line { notice_line noon (Dropped 1) ≡ codes "1970-01-02T12:03:07.123Z ! dropped 1 lines, which nobody took\n" }
{}

/// Each sentence at an example.
pub fn lines_have_examples()
    // Each line begins with the date, the time of day and the other end, and says by a sign what it is.
    ensures came { message_line own (stamp_at noon) Came (codes "RQNT 1207 aaln/1@rgw.example.net MGCP 1.0\r\nS: L/rg\r\n") None
        ≡ codes "1970-01-02T12:03:07.123Z 10.0.0.7:2727 > RQNT 1207 aaln/1 S: L/rg\n" }
    ensures answered { message_line own (stamp_at noon) Sent (codes "200 1207 OK\r\n") (Some 0)
        ≡ codes "1970-01-02T12:03:07.123Z 10.0.0.7:2727 < 200 1207 OK +0 ms\n" }
    ensures waited { message_line own (stamp_at 0) Came (codes "200 10000003\r\n") (Some 512)
        ≡ codes "1970-01-01T00:00:00.000Z 10.0.0.7:2727 > 200 10000003 +512 ms\n" }
    ensures lines_have_their_forms_empty { message_line own (stamp_at 0) Came [] None ≡ codes "1970-01-01T00:00:00.000Z 10.0.0.7:2727 >\n" }
    ensures noted { note_line (stamp_at noon) (notes.AnsweredAgain 1205)
        ≡ codes "1970-01-02T12:03:07.123Z 10.0.0.7:2727 ! repeat of 1205, answered again\n" }
    ensures given_up { given_up_line own (stamp_at noon) (codes "NTFY 10000003 aaln/1@rgw.example.net MGCP 1.0\r\nX: A1\r\n")
        ≡ codes "1970-01-02T12:03:07.123Z 10.0.0.7:2727 ! given up: NTFY 10000003 aaln/1\n" }
    ensures lines_have_their_forms_refused { refused_line (stamp_at noon) 1207
        (codes "518 unsupported or unknown package: value of parameter R")
        ≡ codes "1970-01-02T12:03:07.123Z 10.0.0.7:2727 ! refused 1207: 518 unsupported or unknown package: value of parameter R\n" }
    // What is at fault may be a byte that isn't printable.
    ensures refused_byte { refused_line (stamp_at 0) 1 (codes "510 protocol error: missing parameter " ++ 7 ∷ [])
        ≡ codes "1970-01-01T00:00:00.000Z 10.0.0.7:2727 ! refused 1: 510 protocol error: missing parameter " ++ 92 ∷ codes "x07\n" }
{}
