//! Tells what changed, a line for each change.
ghost use Rattle.std.specs.Prelude.{◌≡◌, ◌++◌, ℕ, [], take, OnOk, OnErr};
ghost use Rattle.connections.specs.Numbers.{number_text};
ghost use Rattle.line_changes.specs.Telling.{remote_text, ends_text, media_text, mode_part, connection_text, what_text, head_text, change_line, with_change, with_changes, watching_line};

use crate::change::{Change, codec_text};
use crate::seen::SeenConnection;
use connections::{mode_text, write_number};
use events_and_signals::ActiveSignal;
use log_format::put_peer;
use mg_bytes::{Draft, OutOfMemory};
use packages::signal_name;
use rgw_scripts::{hook_word, put_end};
use std::alloc::Global;
use std::marker::Model;
use std::net::SocketAddrV4;

fn put_remote(out: &mut Draft, address: Option<SocketAddrV4>)
    ensures { out.new ≡ out.old ++ remote_text address }
{
    match address {
        Some(address) => put_peer(out, address),
        None => out.put(b"-"),
    }
}

// From where and to where media go.
#[tactic(auto, unfolding(crate::specs::Telling::ends_text))]
fn put_ends(out: &mut Draft, connection: SeenConnection)
    ensures { out.new ≡ out.old ++ ends_text connection }
{
    put_peer(out, connection.local);
    out.put(b" to ");
    put_remote(out, connection.remote);
}

// As which they go.
#[tactic(auto, unfolding(crate::specs::Telling::media_text))]
fn put_media(out: &mut Draft, connection: SeenConnection)
    ensures { out.new ≡ out.old ++ media_text connection }
{
    out.put(b" ");
    out.put(codec_text(connection.codec));
    out.put(b" ");
    out.put_decimal(u64::from(connection.packet_time));
}

// The identifier of a connection.
fn put_id(alloc: Global, out: &mut Draft, number: u32) -> Result<(), OutOfMemory>
    ensures { OnOk result (out.new ≡ out.old ++ number_text number) }
{
    let mut id = Vec::new(alloc);
    write_number(alloc, &mut id, number)?;
    out.put(id.as_slice());
    Ok(())
}

// Which it is, and its mode.
#[tactic(auto, unfolding(crate::specs::Telling::mode_part))]
fn put_mode(alloc: Global, out: &mut Draft, connection: SeenConnection) -> Result<(), OutOfMemory>
    ensures { OnOk result (out.new ≡ out.old ++ mode_part connection) }
{
    out.put(b"connection ");
    put_id(alloc, out, connection.number)?;
    out.put(b" ");
    out.put(mode_text(connection.mode));
    out.put(b" ");
    Ok(())
}

fn put_connection(
    alloc: Global,
    out: &mut Draft,
    connection: SeenConnection,
) -> Result<(), OutOfMemory>
    ensures { OnOk result (out.new ≡ out.old ++ connection_text connection) }
{
    put_mode(alloc, out, connection)?;
    put_ends(out, connection);
    put_media(out, connection);
    Ok(())
}

#[tactic(auto, unfolding(crate::specs::Telling::what_text))]
fn put_begun(out: &mut Draft, active: ActiveSignal)
    ensures { out.new ≡ out.old ++ what_text (Change.Begins active) }
{
    out.put(b"begins ");
    out.put(signal_name(active.signal));
    out.put(b" until ");
    put_end(out, active.end);
}

#[tactic(auto, unfolding(crate::specs::Telling::what_text))]
fn put_over(alloc: Global, out: &mut Draft, number: u32) -> Result<(), OutOfMemory>
    ensures { OnOk result (out.new ≡ out.old ++ what_text (Change.Over number)) }
{
    out.put(b"connection ");
    put_id(alloc, out, number)?;
    out.put(b" over");
    Ok(())
}

// What changed.
#[tactic(auto, unfolding(crate::specs::Telling::what_text))]
fn put_what(alloc: Global, out: &mut Draft, change: Change) -> Result<(), OutOfMemory>
    ensures { OnOk result (out.new ≡ out.old ++ what_text change) }
{
    match change {
        Change::Hook { hook } => out.put(hook_word(hook)),
        Change::Ends { signal } => {
            out.put(b"ends ");
            out.put(signal_name(signal));
        }
        Change::Begins { active } => put_begun(out, active),
        Change::Over { number } => return put_over(alloc, out, number),
        Change::Stands { connection } => return put_connection(alloc, out, connection),
    }
    Ok(())
}

// Which change it is, when, and of which line.
#[tactic(auto, unfolding(crate::specs::Telling::head_text))]
fn put_head(out: &mut Draft, number: u64, moment: u64, line: u16)
    ensures { out.new ≡ out.old ++ head_text number moment line }
{
    out.put(b"change ");
    out.put_decimal(number);
    out.put(b" at ");
    out.put_decimal(moment);
    out.put(b" line ");
    out.put_decimal(u64::from(line));
    out.put(b" ");
}

/// What is told next, and the number that the next change has. A contract sees both.
#[derive(Drop)]
pub struct ChangeText {
    number: u64,
    text: Vec<u8>,
}

impl Model for ChangeText {
    ghost use Rattle.line_changes.specs.Telling.{Told};

    ghost Value = { Told };

    ghost view = { λ t. record { number = t.number; text = t.text.items } };
}

impl ChangeText {
    /// Nothing was told yet: the first change has the number 1.
    pub fn new(alloc: Global) -> ChangeText
        ensures { result ≡ record { number = 1; text = [] } }
    {
        ChangeText {
            number: 1,
            text: Vec::new(alloc),
        }
    }

    /// The number that the next change has.
    pub fn number(&self) -> u64
        ensures { result ≡ self.now.number }
    {
        self.number
    }

    /// What is told.
    pub fn text(&self) -> &[u8]
        ensures { result.now ≡ self.now.text }
    {
        self.text.as_slice()
    }

    /// What was told is told, and nothing is left; numbers go on.
    pub fn clear(&mut self)
        ensures { self.new ≡ record self.old { text = [] } }
    {
        self.text.clear();
    }

    // Tells one change of a line at this moment, in ms.
    fn put(
        &mut self,
        alloc: Global,
        moment: u64,
        line: u16,
        change: Change,
    ) -> Result<(), OutOfMemory>
        ensures ok { OnOk result (self.new ≡ with_change moment line self.old change) }
        ensures err { OnErr result (self.new ≡ self.old) }
    {
        let mut told = Draft::new(alloc);
        put_head(&mut told, self.number, moment, line);
        put_what(alloc, &mut told, change)?;
        told.put_byte(b'\n');
        told.append_to(&mut self.text)?;
        self.number = self.number.saturating_add(1);
        Ok(())
    }

    /// Tells changes of a line at this moment, in ms, each under a number of its own. After an error, which is for want of memory, only so
    /// many of them are told, from the first.
    pub fn put_all(
        &mut self,
        alloc: Global,
        moment: u64,
        line: u16,
        changes: &[Change],
    ) -> Result<(), OutOfMemory>
        ensures ok { OnOk result (self.new ≡ with_changes moment line self.old changes.now) }
        ensures err { OnErr result ((count : ℕ) × (self.new ≡ with_changes moment line self.old (take count changes.now))) }
    {
        for change in changes {
            self.put(alloc, moment, line, *change)?;
        }
        Ok(())
    }
}

/// Puts the answer to who begins to watch: the number that the next change will have, and the gateway's moment, in ms.
#[tactic(auto, unfolding(crate::specs::Telling::watching_line))]
pub fn put_watching(
    alloc: Global,
    out: &mut Vec<u8>,
    number: u64,
    moment: u64,
) -> Result<(), OutOfMemory>
    ensures { OnOk result (out.new.items ≡ out.old.items ++ watching_line number moment) }
{
    let mut line = Draft::new(alloc);
    line.put(b"watching from ");
    line.put_decimal(number);
    line.put(b" at ");
    line.put_decimal(moment);
    line.put_byte(b'\n');
    line.append_to(out)
}
