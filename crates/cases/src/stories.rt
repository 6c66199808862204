//! Stories: what comes to a program that runs in memory, and what it gives at it. `docs/SCENARIOS.md` says how they are written.
//!
//! Its loop is the program's own. Its sockets are those of `live_io`, by a script, and its clock is the program's own over a machine's
//! that a story sets; so it runs just so each time.
mod clocks;
mod given;
mod late_log;
mod machine;
mod records;
mod story;
mod transcript;
mod words;

pub use crate::stories::clocks::{Clocks, EndClock};
pub use crate::stories::given::put_sent;
pub use crate::stories::late_log::LateRecord;
pub use crate::stories::machine::{Machine, Plan};
pub use crate::stories::records::Records;
use crate::stories::story::read_story;
pub use crate::stories::story::{Place, Story, Visit};
pub use crate::stories::transcript::Transcript;
pub use crate::stories::words::{line_of, unread_outlet};
use crate::unlike::tell_unlike;
use mg_bytes::OutOfMemory;
use scenario_files::Report;
use std::net::Net;

/// A program that stories are about.
pub trait Program {
    /// Where it is, where a story says nothing else.
    fn place() -> Place;

    /// Puts what it gives to what comes in a story: whether it runs.
    fn play<R: AllocGlobal + Net>(
        rt: &R,
        story: &mut Story,
        given: &mut Transcript,
    ) -> Result<bool, OutOfMemory>;
}

// Tells whether this is given that is wanted.
fn tell_given(
    title: &str,
    given: &mut Transcript,
    story: &mut Story,
    report: &mut Report,
) -> Result<(), OutOfMemory> {
    let wanted = &mut story.wanted;
    if story.is_ordered {
        given.keep_order();
        wanted.keep_order();
    }
    let given = given.text()?;
    let wanted = wanted.text()?;
    let is_right = tell_unlike(report, title, "the program", "gives", &given, &wanted);
    report.count(is_right);
    Ok(())
}

// Tells a story of a program, or that it doesn't run.
fn tell_story<P: Program, R: AllocGlobal + Net>(
    rt: &R,
    title: &str,
    lines: &str,
    report: &mut Report,
) -> Result<(), OutOfMemory> {
    let alloc = rt.alloc();
    let mut story = read_story(alloc, lines, P::place())?;
    let mut given = Transcript::new(alloc);
    if P::play(rt, &mut story, &mut given)? {
        return tell_given(title, &mut given, &mut story, report);
    }
    report.put(b"= ");
    report.wrong(title, "\n  it can't be played\n");
    Ok(())
}

/// Tells a story of a program.
pub fn told<P: Program, R: AllocGlobal + Net>(
    rt: &R,
    title: &str,
    lines: &str,
    report: &mut Report,
) {
    if tell_story::<P, R>(rt, title, lines, report).is_err() {
        report.refuse();
    }
}
