//! The sources of what comes, in a circle.
ghost use Rattle.std.specs.Prelude.{◌≡◌};
ghost use Rattle.turns.specs.Circle.{following, is_ready, first_ready};

/// Where something comes from.
#[derive(Clone, Copy, PartialEq, Eq)]
pub enum Source {
    /// The clock, whose tick is due.
    Clock,
    /// Who types commands, or lines for telephones.
    Commands,
    /// The network.
    Datagrams,
    /// Visitors of a page.
    Visitors,
}

/// Which sources, beside the clock, may have something: of which it is known that they have, or that weren't found empty since they
/// were told to.
#[derive(Clone, Copy)]
pub struct Ready {
    /// A line is left, or a datagram of lines may have come.
    pub commands: bool,
    /// A datagram may have come, or is handed out by a network that held it.
    pub datagrams: bool,
    /// A visitor has more to do, or somebody's time is over.
    pub visitors: bool,
}

// The source behind this one.
pub(crate) fn following(source: Source) -> Source
    ensures { result ≡ following source }
{
    match source {
        Source::Clock => Source::Commands,
        Source::Commands => Source::Datagrams,
        Source::Datagrams => Source::Visitors,
        Source::Visitors => Source::Clock,
    }
}

// Whether a source may have something, where it is so with the clock.
fn is_ready(is_tick_due: bool, ready: Ready, source: Source) -> bool
    ensures { result ≡ is_ready is_tick_due ready source }
{
    match source {
        Source::Clock => is_tick_due,
        Source::Commands => ready.commands,
        Source::Datagrams => ready.datagrams,
        Source::Visitors => ready.visitors,
    }
}

/// The first source behind the last one that may have something; the last one itself comes last.
pub(crate) fn first_ready(is_tick_due: bool, ready: Ready, last: Source) -> Option<Source>
    ensures { result ≡ first_ready is_tick_due ready last }
{
    let first = following(last);
    let second = following(first);
    let third = following(second);
    if is_ready(is_tick_due, ready, first) {
        return Some(first);
    }
    if is_ready(is_tick_due, ready, second) {
        return Some(second);
    }
    if is_ready(is_tick_due, ready, third) {
        return Some(third);
    }
    if is_ready(is_tick_due, ready, last) {
        return Some(last);
    }
    None
}
