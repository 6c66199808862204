//! The states of a line.
ghost use Rattle.std.specs.Prelude.{◌≡◌};
ghost use Rattle.machine_rules.specs.Rules.{awaits_answer};

/// The states of a line (RFC 3435, 4.4.1), and what leads from one to another:
///
/// ```text
///               an event notifies
///  normal ----------------------------> notification <---- the opening
///   ^  ^                                  |      |
///   |  |   the gateway serves; or it is   |      |
///   |  |   answered: in loop, or where    |      |
///   |  '---- a request came since --------'      | answered: in step, where none came
///   |                                            v
///   '---------------- a request ------------- lockstep
/// ```
#[derive(Clone, Copy)]
pub enum State {
    /// Events occur.
    Normal,
    /// A notification isn't answered yet, or the gateway doesn't serve yet: events are quarantined.
    Notification,
    /// It was answered, and the line waits for a request: events are quarantined.
    Lockstep,
}

/// Whether the line waits for an answer: a request is remembered then, and what is quarantined doesn't occur yet.
pub fn awaits_answer(state: State) -> bool
    ensures { result ≡ awaits_answer state }
{
    match state {
        State::Notification => true,
        State::Normal | State::Lockstep => false,
    }
}
