//! Laws of calls, for every list of turns: whatever lines tell, whatever becomes of commands, in whatever order they are sent.
//! Each function has an empty body: its clauses are the theorems.
ghost use Rattle.std.specs.Prelude.{◌≡◌, ◌≢◌, ◌+◌, ◌*◌, ◌≤◌, ℕ, Bool, List, [], ◌∷◌, ◌++◌, true, false, Some, None};
ghost use Rattle.call_processing.specs.declared.phase.Part.{Part};
ghost use Rattle.call_processing.specs.declared.phase.Phase.{Phase};
ghost use Rattle.call_processing.specs.declared.phase.Phase.TheVariants.{Resting, InCall};
ghost use Rattle.call_processing.specs.declared.phase.Tone.TheVariants.{Busy, Reorder};
ghost use Rattle.call_processing.specs.declared.told.Told.{Told};
ghost use Rattle.call_processing.specs.declared.told.Told.TheVariants.{OnHook, Restarted};
ghost use Rattle.call_processing.specs.declared.command.Outcome.{Outcome};
ghost use Rattle.call_processing.specs.declared.command.Outcome.TheVariants.{Answered};
ghost use Rattle.call_processing.specs.declared.command.Command.{Command};
ghost use Rattle.call_processing.specs.declared.command.Command.TheVariants.{Ask, Create, Modify, Delete};
ghost use Rattle.call_processing.specs.declared.asked.Asked.{Asked};
ghost use Rattle.call_processing.specs.declared.line.Line.{Line};
ghost use Rattle.call_processing.specs.declared.line.Leg.TheVariants.{Standing};
ghost use Rattle.call_processing.specs.Phases.{other_end, left, is_in};
ghost use Rattle.call_processing.specs.Asking.{wanted_in, is_asked};
ghost use Rattle.call_processing.specs.Fates.{is_success, is_deleted, is_wanted, most_put_off, times_of};
ghost use Rattle.call_processing.specs.Parameters.{gives, leg_of, description_of_other};
ghost use Rattle.call_processing.specs.Exchange.{ExchangeState, opening, phase_of, line_of, told, answered, due};
ghost use Rattle.live_laws.specs.CallTurns.{IsApart, IsAsBefore, Turn, sends, after, is_in_flight, count_if, is_sent, is_answered, is_coded, is_put_off, is_settled, count_turns, AreQuietFor, IsAtRest, is_request, is_creation, is_asked_on, is_bare, accepts, ends, IsPutOffOr, IsConnected};

/// Where a line is in a call, the line that it names is in the same call, from the other side, and names it.
pub fn both_ends_of_a_call_name_each_other()
    ensures { (count last line : ℕ) (turns : List Turn) (part : Part) →
        phase_of (after (opening count last) turns) line ≡ Some (InCall part) →
        phase_of (after (opening count last) turns) part.other ≡ Some (InCall (other_end line part)) }
{}

/// No line is at the other end of two lines' calls, and none is at both ends of one.
pub fn a_line_is_in_at_most_one_call()
    ensures one { (count last line other : ℕ) (turns : List Turn) (part its : Part) →
        phase_of (after (opening count last) turns) line ≡ Some (InCall part) →
        phase_of (after (opening count last) turns) other ≡ Some (InCall its) →
        part.other ≡ its.other → line ≡ other }
    ensures another { (count last line : ℕ) (turns : List Turn) (part : Part) →
        phase_of (after (opening count last) turns) line ≡ Some (InCall part) → part.other ≢ line }
{}

/// On hook ends the call of a line, whatever its phase is: the line rests, and the other end hears the busy tone, or rings no
/// more.
pub fn on_hook_ends_the_call()
    ensures here { (exchange : ExchangeState) (line : ℕ) (phase : Phase) → phase_of exchange line ≡ Some phase →
        phase_of (told exchange line OnHook) line ≡ Some Resting }
    ensures there { (count last line : ℕ) (turns : List Turn) (part : Part) →
        phase_of (after (opening count last) turns) line ≡ Some (InCall part) →
        phase_of (told (after (opening count last) turns) line OnHook) part.other
        ≡ Some (left Busy (other_end line part)) }
{}

/// A restart of its gateway ends the call of a line, whatever its phase is: the line rests, and so comes to rest at its gateway
/// (`a_line_that_hung_up_comes_to_rest`); the other end hears the reorder tone, or rings no more.
pub fn a_restart_ends_the_call()
    ensures here { (exchange : ExchangeState) (line : ℕ) (phase : Phase) → phase_of exchange line ≡ Some phase →
        phase_of (told exchange line Restarted) line ≡ Some Resting }
    ensures there { (count last line : ℕ) (turns : List Turn) (part : Part) →
        phase_of (after (opening count last) turns) line ≡ Some (InCall part) →
        phase_of (told (after (opening count last) turns) line Restarted) part.other
        ≡ Some (left Reorder (other_end line part)) }
{}

/// A line that rests comes to rest at its gateway too. As long as its telephone is left alone and nobody dials it, it stays in no
/// call, and at most three of its commands are answered by a code that doesn't put them off, whatever is given up in between, and
/// whatever becomes of other lines; with those that are put off there are so many in all, and where none is put off three. After three it
/// has no connection, no signal and no command in flight. Until then something is in flight, or is to be sent.
pub fn a_line_that_hung_up_comes_to_rest()
    ensures no_call { (count last line : ℕ) (before turns : List Turn) →
        phase_of (after (opening count last) before) line ≡ Some Resting → AreQuietFor line turns →
        phase_of (after (after (opening count last) before) turns) line ≡ Some Resting }
    ensures at_most { (count last line : ℕ) (before turns : List Turn) →
        phase_of (after (opening count last) before) line ≡ Some Resting → AreQuietFor line turns →
        count_turns (is_settled line) (after (opening count last) before) turns ≤ 3 }
    ensures in_all { (count last line : ℕ) (before turns : List Turn) →
        phase_of (after (opening count last) before) line ≡ Some Resting → AreQuietFor line turns →
        count_turns (is_coded line) (after (opening count last) before) turns ≤ 3 + 4 * most_put_off }
    ensures none_put_off { (count last line : ℕ) (before turns : List Turn) →
        phase_of (after (opening count last) before) line ≡ Some Resting → AreQuietFor line turns →
        count_turns (is_put_off line) (after (opening count last) before) turns ≡ 0 →
        count_turns (is_coded line) (after (opening count last) before) turns ≤ 3 }
    ensures after_three { (count last line : ℕ) (before turns : List Turn) →
        phase_of (after (opening count last) before) line ≡ Some Resting → AreQuietFor line turns →
        3 ≤ count_turns (is_settled line) (after (opening count last) before) turns →
        IsAtRest (after (after (opening count last) before) turns) line }
    ensures goes_on { (count last line : ℕ) (turns : List Turn) →
        phase_of (after (opening count last) turns) line ≡ Some Resting →
        is_in_flight (after (opening count last) turns) line ≡ false →
        due (after (opening count last) turns) line ≡ None →
        IsAtRest (after (opening count last) turns) line }
{}

/// No command of the exchange is sent to a line while one is in flight to it. So there were sent as many as something became of, and
/// one more where one is in flight.
pub fn no_command_is_sent_while_one_is_in_flight()
    ensures none { (exchange : ExchangeState) (line : ℕ) → is_in_flight exchange line ≡ true →
        due exchange line ≡ None }
    ensures count { (count last line : ℕ) (turns : List Turn) →
        count_turns (is_sent line) (opening count last) turns
        ≡ count_turns (is_answered line) (opening count last) turns
        + count_if (is_in_flight (after (opening count last) turns) line) }
{}

/// Where CRCX or MDCX gives a line's connection the description of the other end, it is that of the connection that stands there
/// for the same call.
pub fn a_description_is_that_of_the_other_end()
    ensures { (exchange : ExchangeState) (line call : ℕ) (part : Part) (command : Command) →
        phase_of exchange line ≡ Some (InCall part) → due exchange line ≡ Some command →
        gives command ≡ Some call → (connection : List ℕ)
        × (leg_of exchange part.other ≡ Some (Standing call connection (description_of_other exchange line))) }
{}

/// What is on record was so. A line that was sent a request, and is on record as asked for something, which it doesn't refuse and which
/// isn't in flight, accepted one since, by a code from 200 to 299: so it did the last that it was sent. A line that was sent CRCX, and is
/// on record without a connection, and without one that is left there, had none made, by the answer; or its deletion was answered by a
/// code from 200 to 299, by 515 or by 516; or its gateway has announced a restart since.
pub fn what_is_on_record_was_answered_so()
    ensures asked { (count last line : ℕ) (before behind : List Turn) →
        is_request (due (after (opening count last) before) line) ≡ true →
        is_asked_on (line_of (after (after (opening count last) (before ++ sends line ∷ [])) behind) line) ≡ true →
        1 ≤ count_turns (accepts line) (after (opening count last) (before ++ sends line ∷ [])) behind }
    ensures gone { (count last line : ℕ) (before behind : List Turn) →
        is_creation (due (after (opening count last) before) line) ≡ true →
        is_bare (line_of (after (after (opening count last) (before ++ sends line ∷ [])) behind) line) ≡ true →
        1 ≤ count_turns (ends line) (after (opening count last) (before ++ sends line ∷ [])) behind }
{}

/// Any other code is on record, which its owner tells. A request is put off, or on record as refused by this code, unless its line is to
/// be asked for something else by now; a deletion is put off, or a connection is on record as left by this code; CRCX and MDCX are put
/// off, or their call is over for the line. What is put off is one more in a row; and there are no more in a row than there may be.
pub fn what_is_refused_is_on_record()
    ensures request { (exchange : ExchangeState) (line code : ℕ) (asked : Asked) (was is : Line) →
        line_of exchange line ≡ Some was → was.flight ≡ Some (Ask asked) → is_success code ≡ false →
        line_of (answered exchange line (Answered code)) line ≡ Some is →
        is_wanted asked (phase_of (answered exchange line (Answered code)) line) ≡ true →
        IsPutOffOr was is (is.refused ≡ Some code) }
    ensures deletion { (exchange : ExchangeState) (line code call : ℕ) (was is : Line) →
        line_of exchange line ≡ Some was → was.flight ≡ Some (Delete call) → is_deleted code ≡ false →
        line_of (answered exchange line (Answered code)) line ≡ Some is →
        IsPutOffOr was is (is.left ≡ Some code) }
    ensures creation { (exchange : ExchangeState) (line code call : ℕ) (joined : Bool) (was is : Line) →
        line_of exchange line ≡ Some was → was.flight ≡ Some (Create call joined) →
        line_of (answered exchange line (Answered code)) line ≡ Some is →
        IsPutOffOr was is (is_in call (phase_of (answered exchange line (Answered code)) line) ≡ false) }
    ensures change { (exchange : ExchangeState) (line code call : ℕ) (was is : Line) →
        line_of exchange line ≡ Some was → was.flight ≡ Some (Modify call) → is_success code ≡ false →
        line_of (answered exchange line (Answered code)) line ≡ Some is →
        IsPutOffOr was is (is_in call (phase_of (answered exchange line (Answered code)) line) ≡ false) }
    ensures in_a_row { (count last line : ℕ) (turns : List Turn) (is : Line) →
        line_of (after (opening count last) turns) line ≡ Some is → times_of is.put_off ≤ most_put_off }
{}

/// In each phase of a line something is in flight to it, or is to be sent to it, now or a while after it was put off; or it is on record as
/// asked for what it tells in that phase, so that its telephone is waited for (`what_is_on_record_was_answered_so`), or it is told that it
/// refuses that. And a call that was answered is connected where nothing is in flight to either end, and nothing is to be sent: each end
/// has its connection, with the description of the other one.
pub fn a_call_goes_on()
    ensures waits { (exchange : ExchangeState) (line : ℕ) (phase : Phase) (is : Line) →
        phase_of exchange line ≡ Some phase → line_of exchange line ≡ Some is →
        is_in_flight exchange line ≡ false → due exchange line ≡ None →
        is_asked (wanted_in phase) is.asked ≡ true }
    ensures connected { (count last line : ℕ) (turns : List Turn) (part : Part) (here there : Line) →
        phase_of (after (opening count last) turns) line ≡ Some (InCall part) → part.answered ≡ true →
        line_of (after (opening count last) turns) line ≡ Some here →
        line_of (after (opening count last) turns) part.other ≡ Some there →
        is_in_flight (after (opening count last) turns) line ≡ false →
        is_in_flight (after (opening count last) turns) part.other ≡ false →
        due (after (opening count last) turns) line ≡ None → due (after (opening count last) turns) part.other ≡ None →
        IsConnected part.call here × IsConnected part.call there }
{}

/// What a line tells, and what became of a command to it, concerns the line and the other end of its call, as that was before or is
/// then: any other line keeps its phase, what is known of it, and what it is to be sent. So who serves an exchange looks at these
/// lines alone.
pub fn what_happens_to_a_line_concerns_its_call_alone()
    ensures told { (count last line other : ℕ) (turns : List Turn) (event : Told) →
        IsApart (after (opening count last) turns) (told (after (opening count last) turns) line event) line other →
        IsAsBefore (after (opening count last) turns) (told (after (opening count last) turns) line event) other }
    ensures answered { (count last line other : ℕ) (turns : List Turn) (outcome : Outcome) →
        IsApart (after (opening count last) turns) (answered (after (opening count last) turns) line outcome) line other →
        IsAsBefore (after (opening count last) turns) (answered (after (opening count last) turns) line outcome) other }
{}
