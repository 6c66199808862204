//! The phases of a line, and the parts of both ends in a call.
ghost use Rattle.std.specs.Prelude.{◌≡◌};
ghost use Rattle.call_processing.specs.Phases.{across, is_called, other_end, named_by, rings, left, ringing_in, talks_in, is_free, is_in, waits};

/// Which end of a call a line is.
#[derive(Clone, Copy)]
pub enum Side {
    /// It dialled.
    Caller,
    /// It was dialled.
    Called,
}

/// The part of a line in a call.
#[derive(Clone, Copy)]
pub struct Part {
    /// The number of the call.
    pub call: u64,
    /// The line at the other end.
    pub other: usize,
    pub side: Side,
    /// Whether the called line went off hook.
    pub answered: bool,
}

/// What a line hears that is in no call.
#[derive(Clone, Copy)]
pub enum Tone {
    /// The line that was dialled isn't free, or the other end hung up.
    Busy,
    /// No line has that number, nobody answered, or the ends couldn't be connected.
    Reorder,
}

/// The phases of a line:
///
/// ```text
///              off hook             a free line is dialled        the called line: off hook
///   Resting -------------> Dialling ---------------------> InCall -------------------> InCall
///      ^                      |                          unanswered                   answered
///      |                      | another or no number,        | nobody answers,           | the other end hangs up,
///      |                      | nothing dialled              | the other end hangs up    | or can't be connected
///      |                      v                              |                           |
///      '------ on hook ----- Hearing <--- the caller --------+---------------------------'
///      '------------------------------- the called line -----'
/// ```
///
/// On hook leads to `Resting` from everywhere. The called line that rings is on hook; off hook of any other means that it was
/// on hook before, and leads to `Dialling`.
#[derive(Clone, Copy)]
pub enum Phase {
    /// On hook, in no call.
    Resting,
    /// Off hook, and asked to dial.
    Dialling,
    /// Off hook, in no call, with a tone.
    Hearing(Tone),
    /// In this call. Until it is answered the called line rings, and the caller hears that it does.
    InCall(Part),
}

// The other side.
fn across(side: Side) -> Side
    ensures { result ≡ across side }
{
    match side {
        Side::Caller => Side::Called,
        Side::Called => Side::Caller,
    }
}

fn is_called(side: Side) -> bool
    ensures { result ≡ is_called side }
{
    match side {
        Side::Caller => false,
        Side::Called => true,
    }
}

// The part of the other end, where this line has this part.
pub(crate) fn other_end(line: usize, part: Part) -> Part
    ensures { result ≡ other_end line part }
{
    Part {
        call: part.call,
        other: line,
        side: across(part.side),
        answered: part.answered,
    }
}

/// The line at the other end of the call of a line in this phase; `None` of one that is in no call, and where there is no line.
pub fn named_by(phase: Option<Phase>) -> Option<usize>
    ensures { result ≡ named_by phase }
{
    match phase {
        Some(Phase::InCall(part)) => Some(part.other),
        Some(Phase::Resting | Phase::Dialling | Phase::Hearing(_)) | None => None,
    }
}

// Whether the line rings.
pub(crate) fn rings(part: Part) -> bool
    ensures { result ≡ rings part }
{
    is_called(part.side) && !part.answered
}

// What becomes of an end whose call is over.
pub(crate) fn left(tone: Tone, part: Part) -> Phase
    ensures { result ≡ left tone part }
{
    if rings(part) {
        Phase::Resting
    } else {
        Phase::Hearing(tone)
    }
}

// The part of a line that rings.
pub(crate) fn ringing_in(phase: Option<Phase>) -> Option<Part>
    ensures { result ≡ ringing_in phase }
{
    match phase {
        Some(Phase::InCall(part)) => { if rings(part) { Some(part) } else { None } }
        Some(Phase::Resting | Phase::Dialling | Phase::Hearing(_)) | None => None,
    }
}

// The part of a line in a call that was answered.
pub(crate) fn talks_in(phase: Phase) -> Option<Part>
    ensures { result ≡ talks_in phase }
{
    match phase {
        Phase::InCall(part) => { if part.answered { Some(part) } else { None } }
        Phase::Resting | Phase::Dialling | Phase::Hearing(_) => None,
    }
}

// Whether a line can be rung.
pub(crate) fn is_free(phase: Option<Phase>) -> bool
    ensures { result ≡ is_free phase }
{
    match phase {
        Some(Phase::Resting) => true,
        Some(Phase::Dialling | Phase::Hearing(_) | Phase::InCall(_)) | None => false,
    }
}

// Whether a line is in the call with this number.
pub(crate) fn is_in(call: u64, phase: Option<Phase>) -> bool
    ensures { result ≡ is_in call phase }
{
    match phase {
        Some(Phase::InCall(part)) => part.call == call,
        Some(Phase::Resting | Phase::Dialling | Phase::Hearing(_)) | None => false,
    }
}

// Whether something of a line can take too long: the dialling, or the answer of the called line.
pub(crate) fn waits(phase: Option<Phase>) -> bool
    ensures { result ≡ waits phase }
{
    match phase {
        Some(Phase::Dialling) => true,
        Some(Phase::InCall(part)) => !part.answered,
        Some(Phase::Resting | Phase::Hearing(_)) | None => false,
    }
}
