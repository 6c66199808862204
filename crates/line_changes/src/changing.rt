//! Finds what changed at a line.
ghost use Rattle.std.specs.Prelude.{◌≡◌, ◌++◌, ◌==◌, OnOk};
ghost use Rattle.std.specs.List.{flat_map};
ghost use Rattle.packages.specs.Looking.{is_same_signal};
ghost use Rattle.line_changes.specs.Changes.{has_signal, has_active, has_number, has_connection};
ghost use Rattle.line_changes.specs.Changes.{hook_change, ended, begun, over, standing, changes_of};

use crate::change::{Change, is_same_active, is_same_connection, is_same_hook};
use crate::seen::{SeenConnection, SeenLine};
use events_and_signals::ActiveSignal;
use mg_bytes::OutOfMemory;
use packages::{Hook, Signal};

fn is_of(active: ActiveSignal, signal: Signal) -> bool
    ensures { result ≡ is_same_signal active.signal signal }
{
    active.signal == signal
}

// Whether a signal is one of these.
fn has_signal(list: &[ActiveSignal], signal: Signal) -> bool
    ensures { result ≡ has_signal list.now signal }
{
    for other in list {
        if is_of(*other, signal) {
            return true;
        }
    }
    false
}

// Whether a signal is one of these with its end.
fn has_active(list: &[ActiveSignal], active: ActiveSignal) -> bool
    ensures { result ≡ has_active list.now active }
{
    for other in list {
        if is_same_active(*other, active) {
            return true;
        }
    }
    false
}

fn is_numbered(connection: SeenConnection, number: u32) -> bool
    ensures { result ≡ (connection.number == number) }
{
    connection.number == number
}

// Whether one of these has the number.
fn has_number(list: &[SeenConnection], number: u32) -> bool
    ensures { result ≡ has_number list.now number }
{
    for other in list {
        if is_numbered(*other, number) {
            return true;
        }
    }
    false
}

// Whether a connection is one of these, as it is.
fn has_connection(list: &[SeenConnection], connection: SeenConnection) -> bool
    ensures { result ≡ has_connection list.now connection }
{
    for other in list {
        if is_same_connection(*other, connection) {
            return true;
        }
    }
    false
}

fn put_hook(out: &mut Vec<Change>, was: Hook, is: Hook) -> Result<(), OutOfMemory>
    ensures { OnOk result (out.new.items ≡ out.old.items ++ hook_change was is) }
{
    if !is_same_hook(was, is) {
        out.push(Change::Hook { hook: is })?;
    }
    Ok(())
}

fn put_if_ended(
    out: &mut Vec<Change>,
    are: &[ActiveSignal],
    active: ActiveSignal,
) -> Result<(), OutOfMemory>
    ensures { OnOk result (out.new.items ≡ out.old.items ++ ended are.now active) }
{
    if !has_signal(are, active.signal) {
        out.push(Change::Ends {
            signal: active.signal,
        })?;
    }
    Ok(())
}

// Puts the signals that were active, and aren't.
fn put_ended(
    out: &mut Vec<Change>,
    were: &[ActiveSignal],
    are: &[ActiveSignal],
) -> Result<(), OutOfMemory>
    ensures { OnOk result (out.new.items ≡ out.old.items ++ flat_map (ended are.now) were.now) }
{
    for active in were {
        put_if_ended(out, are, *active)?;
    }
    Ok(())
}

fn put_if_begun(
    out: &mut Vec<Change>,
    were: &[ActiveSignal],
    active: ActiveSignal,
) -> Result<(), OutOfMemory>
    ensures { OnOk result (out.new.items ≡ out.old.items ++ begun were.now active) }
{
    if !has_active(were, active) {
        out.push(Change::Begins { active })?;
    }
    Ok(())
}

// Puts the signals that are active, and weren't, or had another end.
fn put_begun(
    out: &mut Vec<Change>,
    were: &[ActiveSignal],
    are: &[ActiveSignal],
) -> Result<(), OutOfMemory>
    ensures { OnOk result (out.new.items ≡ out.old.items ++ flat_map (begun were.now) are.now) }
{
    for active in are {
        put_if_begun(out, were, *active)?;
    }
    Ok(())
}

fn put_if_over(
    out: &mut Vec<Change>,
    are: &[SeenConnection],
    connection: SeenConnection,
) -> Result<(), OutOfMemory>
    ensures { OnOk result (out.new.items ≡ out.old.items ++ over are.now connection) }
{
    if !has_number(are, connection.number) {
        out.push(Change::Over {
            number: connection.number,
        })?;
    }
    Ok(())
}

// Puts the connections that were there, and aren't.
fn put_over(
    out: &mut Vec<Change>,
    were: &[SeenConnection],
    are: &[SeenConnection],
) -> Result<(), OutOfMemory>
    ensures { OnOk result (out.new.items ≡ out.old.items ++ flat_map (over are.now) were.now) }
{
    for connection in were {
        put_if_over(out, are, *connection)?;
    }
    Ok(())
}

fn put_if_standing(
    out: &mut Vec<Change>,
    were: &[SeenConnection],
    connection: SeenConnection,
) -> Result<(), OutOfMemory>
    ensures { OnOk result (out.new.items ≡ out.old.items ++ standing were.now connection) }
{
    if !has_connection(were, connection) {
        out.push(Change::Stands { connection })?;
    }
    Ok(())
}

// Puts the connections that are there, and weren't, or were others.
fn put_standing(
    out: &mut Vec<Change>,
    were: &[SeenConnection],
    are: &[SeenConnection],
) -> Result<(), OutOfMemory>
    ensures { OnOk result (out.new.items ≡ out.old.items ++ flat_map (standing were.now) are.now) }
{
    for connection in are {
        put_if_standing(out, were, *connection)?;
    }
    Ok(())
}

/// Puts what changed at a line, by what was seen of it and what is seen now. After an error some of it may be put.
pub fn put_changes(out: &mut Vec<Change>, was: &SeenLine, is: &SeenLine) -> Result<(), OutOfMemory>
    ensures { OnOk result (out.new.items ≡ out.old.items ++ changes_of was.now is.now) }
{
    put_hook(out, was.hook, is.hook)?;
    put_ended(out, was.signals.as_slice(), is.signals.as_slice())?;
    put_begun(out, was.signals.as_slice(), is.signals.as_slice())?;
    put_over(out, was.connections.as_slice(), is.connections.as_slice())?;
    put_standing(out, was.connections.as_slice(), is.connections.as_slice())
}
