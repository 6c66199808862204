//! What can be read of a line, as rows say it.
use event_syntax::{write_handling, write_observed};
use mg_bytes::OutOfMemory;
use mg_line::{Line, Notice};
use packages::{Hook, signal_name};
use scenario_files::Outcome;
use timers::LineDue;

/// Puts the notification that a line gives, where it gives one: its X, a blank and its O.
pub fn put_notice(given: &mut Outcome, notice: Result<Option<Notice>, OutOfMemory>) {
    match notice {
        Ok(Some(notice)) => {
            given.put_both(b"tells ", notice.identifier().as_slice());
            given.put(b" ");
            given.put_text(write_observed(given.alloc, notice.observed()));
        }
        Ok(None) => {}
        Err(_) => given.refuse(),
    }
}

// The moment at which something falls due, and what it is.
fn put_due(given: &mut Outcome, line: &Line) {
    let Some((moment, due)) = line.due() else {
        return given.put(b"due -");
    };
    given.put_behind(b"due ", moment);
    match due {
        LineDue::DigitTimer => given.put(b" T"),
        LineDue::SignalEnd(signal) => given.put_both(b" ", signal_name(signal)),
    }
}

// The active signals.
fn put_signals(given: &mut Outcome, line: &Line) {
    given.put(b"  signals");
    for active in line.signals().as_slice() {
        given.put_both(b" ", signal_name(active.signal));
    }
}

// What is asked for.
fn put_asked(given: &mut Outcome, line: &Line) {
    given.put_both(b"  X ", line.identifier().as_slice());
    given.put(b"  Q ");
    given.put_text(write_handling(given.alloc, line.handling()));
    match line.digit_map() {
        Some(map) => given.put_both(b"  D ", map.as_bytes()),
        None => given.put(b"  D -"),
    }
}

// What happened.
fn put_happened(given: &mut Outcome, line: &Line) {
    given.put(match line.hook() {
        Hook::OffHook => b"  hook off".as_slice(),
        Hook::OnHook => b"  hook on".as_slice(),
    });
    given.put_behind(b"  lost ", line.lost());
    given.put_behind(b"  accumulated ", line.accumulated().len());
    given.put(b"  O ");
    given.put_text(write_observed(given.alloc, line.accumulated()));
}

/// Puts what a line is, a field each.
pub fn put_state(given: &mut Outcome, line: &Line) {
    put_due(given, line);
    put_signals(given, line);
    put_asked(given, line);
    put_happened(given, line);
}
