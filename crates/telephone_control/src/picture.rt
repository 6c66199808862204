//! What the page is shown of the gateway.
ghost use Rattle.std.specs.Prelude.{◌≡◌, ◌≤◌, ◌++◌, false, List, [], ◌∷◌, Ok, IfOk, OnOk};
ghost use Rattle.std.specs.Net.Text.{socket_v4_text};
ghost use Rattle.plain_machine.specs.Event.{GatewayEvent};
ghost use Rattle.plain_machine.specs.Lists.{plain};
ghost use Rattle.plain_machine.specs.Machine.{serves};
ghost use Rattle.gateway_core.specs.Remembering.{remembered};
ghost use Rattle.gateway_core.specs.Stands.{Stands};
ghost use Rattle.page_state.specs.MetricsShowing.{connection_shown, line_shown};
ghost use Rattle.telephone_control.specs.Picturing.{with_traffic, with_own, with_faults, with_numbers, by_name, capture_written, files_written, verbs_from, codes_at, codes_from};
ghost use Rattle.telephone_control.specs.Viewing.{is_off, signal_viewed, signals_viewed, remote_text, call_of, connection_viewed, connections_viewed, viewed, line_viewed, lines_viewed, signals_in, connections_in, lines_in};

use crate::seeing::seen_line;
use connections::{Connection, mode_text};
use events_and_signals::ActiveSignal;
use gateway_core::Gateway;
use line_changes::{SeenConnection, SeenLine, codec_text};
use live_journal::Journal;
use log_format::put_peer;
use message_counts::{Faults, MessageTally, place_of};
use mg_bytes::{Draft, OutOfMemory};
use mgcp_text::Verb;
use packages::{Hook, signal_name};
use page_state::{
    CodeCount, ConnectionView, Counts, FileCount, LineView, Picture, SignalView, VerbCount,
};
use std::alloc::{AllocError, Global};
use std::net::SocketAddrV4;

// The last places for which numbers of verbs and codes have room.
const LAST_VERB: usize = u8::MAX as usize;

const LAST_CODE: usize = u16::MAX as usize;

// What is gathered for a picture. That memory was refused for some of it is kept, and asked once.
#[derive(Drop)]
struct Gathering {
    alloc: Global,
    is_refused: bool,
}

impl Gathering {
    fn push<V: Drop>(&mut self, views: &mut Vec<V>, view: V)
        ensures { self.new.is_refused ≡ false
            → (self.old.is_refused ≡ false) × (views.new.items ≡ views.old.items ++ (view ∷ [])) }
    {
        match views.push(view) {
            Ok(()) => {}
            Err(_) => self.is_refused = true,
        }
    }

    // What was made, where memory was there for it; else nothing.
    fn kept<V: Drop>(&mut self, made: Result<Vec<V>, OutOfMemory>) -> Vec<V>
        ensures { self.new.is_refused ≡ false → (self.old.is_refused ≡ false) × (made ≡ Ok result) }
    {
        match made {
            Ok(views) => views,
            Err(_) => {
                self.is_refused = true;
                Vec::new(self.alloc)
            }
        }
    }

    fn copied(&mut self, text: &[u8]) -> Vec<u8>
        ensures { self.new.is_refused ≡ false → (self.old.is_refused ≡ false) × (result.items ≡ text.now) }
    {
        match Vec::from_slice(self.alloc, text) {
            Ok(text) => text,
            Err(_) => {
                self.is_refused = true;
                Vec::new(self.alloc)
            }
        }
    }

    fn text(&mut self, text: Draft) -> Vec<u8>
        ensures { self.new.is_refused ≡ false → (self.old.is_refused ≡ false) × (result.items ≡ text) }
    {
        match text.end() {
            Ok(text) => text,
            Err(_) => {
                self.is_refused = true;
                Vec::new(self.alloc)
            }
        }
    }
}

// A signal that is heard.
fn put_signal(gathering: &mut Gathering, views: &mut Vec<SignalView>, active: &ActiveSignal)
    ensures { gathering.new.is_refused ≡ false → (gathering.old.is_refused ≡ false)
        × (signals_in views.new.items ≡ signals_in views.old.items ++ (signal_viewed active.now ∷ [])) }
{
    let view = SignalView {
        name: signal_name(active.signal),
        end: active.end,
    };
    gathering.push(views, view);
}

// What is heard.
#[tactic(auto, unfolding(crate::specs::Viewing::signals_viewed))]
fn signals_of(gathering: &mut Gathering, signals: &[ActiveSignal]) -> Vec<SignalView>
    ensures { gathering.new.is_refused ≡ false → (gathering.old.is_refused ≡ false)
        × (signals_in result.items ≡ signals_viewed signals.now) }
{
    let mut views = Vec::new(gathering.alloc);
    for active in signals {
        put_signal(gathering, &mut views, active);
    }
    views
}

// An address as text.
fn address_text(gathering: &mut Gathering, address: SocketAddrV4) -> Vec<u8>
    ensures { gathering.new.is_refused ≡ false → (gathering.old.is_refused ≡ false) × (result.items ≡ socket_v4_text address) }
{
    let mut text = Draft::new(gathering.alloc);
    put_peer(&mut text, address);
    gathering.text(text)
}

// Where media go, as text; nothing where that isn't known.
fn remote_text(gathering: &mut Gathering, remote: Option<SocketAddrV4>) -> Vec<u8>
    ensures { gathering.new.is_refused ≡ false → (gathering.old.is_refused ≡ false) × (result.items ≡ remote_text remote) }
{
    match remote {
        Some(address) => address_text(gathering, address),
        None => Vec::new(gathering.alloc),
    }
}

// The call of the connection with this number among the places of its line, as that was spelled when the connection was created.
#[tactic(auto, unfolding(crate::specs::Viewing::call_of))]
fn call_of(places: &[Option<Connection>], number: u32) -> &[u8]
    ensures { result.now ≡ call_of number places.now }
{
    for held in places {
        if let Some(connection) = held {
            if connection.number == number {
                return connection.call.as_slice();
            }
        }
    }
    b""
}

// A connection among the places of its line.
fn connection_of(
    gathering: &mut Gathering,
    connection: &SeenConnection,
    places: &[Option<Connection>],
) -> ConnectionView
    ensures { gathering.new.is_refused ≡ false → (gathering.old.is_refused ≡ false)
        × (connection_shown result ≡ connection_viewed places.now connection.now) }
{
    ConnectionView {
        number: connection.number,
        mode: mode_text(connection.mode),
        codec: codec_text(connection.codec),
        packet_time: connection.packet_time,
        local: address_text(gathering, connection.local),
        remote: remote_text(gathering, connection.remote),
        call: gathering.copied(call_of(places, connection.number)),
    }
}

fn put_connection(
    gathering: &mut Gathering,
    views: &mut Vec<ConnectionView>,
    connection: &SeenConnection,
    places: &[Option<Connection>],
)
    ensures { gathering.new.is_refused ≡ false → (gathering.old.is_refused ≡ false)
        × (connections_in views.new.items ≡ connections_in views.old.items ++ (connection_viewed places.now connection.now ∷ [])) }
{
    let view = connection_of(gathering, connection, places);
    gathering.push(views, view);
}

// Its connections.
#[tactic(auto, unfolding(crate::specs::Viewing::connections_viewed))]
fn connections_of(
    gathering: &mut Gathering,
    connections: &[SeenConnection],
    places: &[Option<Connection>],
) -> Vec<ConnectionView>
    ensures { gathering.new.is_refused ≡ false → (gathering.old.is_refused ≡ false)
        × (connections_in result.items ≡ connections_viewed places.now connections.now) }
{
    let mut views = Vec::new(gathering.alloc);
    for connection in connections {
        put_connection(gathering, &mut views, connection, places);
    }
    views
}

// The handset is lifted.
fn is_off(hook: Hook) -> bool
    ensures { result ≡ is_off hook }
{
    matches!(hook, Hook::OffHook)
}

// A line as it is shown, by what is seen of it, by its places, and by how many of its events were lost.
fn view_of(
    gathering: &mut Gathering,
    seen: &SeenLine,
    places: &[Option<Connection>],
    lost: u64,
) -> LineView
    ensures { gathering.new.is_refused ≡ false → (gathering.old.is_refused ≡ false)
        × (line_shown result ≡ viewed seen.now places.now lost) }
{
    LineView {
        is_off_hook: is_off(seen.hook),
        signals: signals_of(gathering, seen.signals.as_slice()),
        connections: connections_of(gathering, seen.connections.as_slice(), places),
        lost,
    }
}

// A line, from 1 to the number of lines.
fn put_line(gathering: &mut Gathering, views: &mut Vec<LineView>, gateway: &Gateway, line: u16)
    requires low { 1 ≤ line }
    requires high { line ≤ gateway.now.setup.names.lines }
    ensures { gathering.new.is_refused ≡ false → (gathering.old.is_refused ≡ false)
        × ((events : List GatewayEvent) → Stands gateway.now events → lines_in views.new.items
        ≡ lines_in views.old.items ++ (line_viewed gateway.now.setup (plain gateway.now.setup events) line ∷ [])) }
{
    match seen_line(gathering.alloc, gateway, line) {
        Ok(seen) => {
            let places = gateway.connections(line);
            let view = view_of(gathering, &seen, places, gateway.lost(line));
            gathering.push(views, view);
        }
        Err(_) => gathering.is_refused = true,
    }
}

// How many commands came with each verb.
#[tactic(auto, unfolding(crate::specs::Picturing::verbs_from))]
fn verbs_of(alloc: Global, commands: &[u64]) -> Result<Vec<VerbCount>, OutOfMemory>
    ensures { IfOk result (λ views. views.items ≡ verbs_from 0 commands.now) }
{
    let mut views = Vec::new(alloc);
    for (place, number) in commands.iter().enumerate() {
        views.push(VerbCount {
            verb: place.min(LAST_VERB) as u8,
            number: *number,
        })?;
    }
    Ok(views)
}

// How many answers had a code, if any had.
fn put_code(views: &mut Vec<CodeCount>, code: usize, number: u64) -> Result<(), OutOfMemory>
    ensures { OnOk result (views.new.items ≡ views.old.items ++ codes_at code number) }
{
    if number > 0 {
        let code = code.min(LAST_CODE) as u16;
        views.push(CodeCount { code, number })?;
    }
    Ok(())
}

// How many answers had each code that any had.
#[tactic(auto, unfolding(crate::specs::Picturing::codes_from))]
fn codes_of(alloc: Global, tally: &MessageTally) -> Result<Vec<CodeCount>, OutOfMemory>
    ensures { IfOk result (λ views. views.items ≡ codes_from 0 tally.now.sent.answers.items) }
{
    let mut views = Vec::new(alloc);
    for (code, number) in tally.sent.answers.iter().enumerate() {
        put_code(&mut views, code, *number)?;
    }
    Ok(views)
}

// How often a file couldn't be written.
fn put_file(gathering: &mut Gathering, views: &mut Vec<FileCount>, file: &[u8], number: u64)
    ensures { gathering.new.is_refused ≡ false → (gathering.old.is_refused ≡ false)
        × (by_name views.new.items ≡ by_name views.old.items ++ ((file.now, number) ∷ [])) }
{
    let file = gathering.copied(file);
    gathering.push(views, FileCount { file, number });
}

// How often a capture couldn't be written, if there is one.
fn put_capture(gathering: &mut Gathering, views: &mut Vec<FileCount>, name: &[u8], number: u64)
    ensures { gathering.new.is_refused ≡ false → (gathering.old.is_refused ≡ false)
        × (by_name views.new.items ≡ by_name views.old.items ++ capture_written name.now number) }
{
    if !name.is_empty() {
        put_file(gathering, views, name, number);
    }
}

// What couldn't be written, by its name.
fn put_written(gathering: &mut Gathering, views: &mut Vec<FileCount>, journal: &Journal)
    ensures { gathering.new.is_refused ≡ false → (gathering.old.is_refused ≡ false)
        × (by_name views.new.items ≡ by_name views.old.items ++ files_written journal.now) }
{
    let written = journal.written;
    put_file(gathering, views, b"standard output", written.output);
    put_file(gathering, views, b"standard error", written.error);
    put_capture(
        gathering,
        views,
        journal.capture.name.as_bytes(),
        written.capture,
    );
}

// What came, and what answers were sent before.
fn put_traffic(counts: &mut Counts, tally: &MessageTally)
    ensures { counts.new ≡ with_traffic counts.old tally.now }
{
    counts.datagrams_in = tally.datagrams_in;
    counts.datagrams_out = tally.datagrams_out;
    counts.responses = tally.texts.responses;
    counts.unreadable = tally.texts.others;
    counts.answers_again = tally.sent.again;
    counts.strangers = tally.strangers;
    counts.lost_commands = tally.texts.lost;
}

// What the gateway sent of its own, where that went, and what of it was given up.
fn put_own(counts: &mut Counts, tally: &MessageTally)
    ensures { counts.new ≡ with_own counts.old tally.now }
{
    counts.notifications = tally.sent.commands[place_of(Verb::Ntfy)];
    counts.notifications_again = tally.sent.commands_again[place_of(Verb::Ntfy)];
    counts.announcements = tally.sent.commands[place_of(Verb::Rsip)];
    counts.announcements_again = tally.sent.commands_again[place_of(Verb::Rsip)];
    counts.given_up_by_gateway = tally.sent.given_up_by_gateway;
    counts.given_up_by_lines = tally.sent.given_up_by_lines;
    counts.sends = tally.places.sends;
}

// What failed, and what wasn't kept.
fn put_faults(counts: &mut Counts, faults: Faults, journal: &Journal)
    ensures { counts.new ≡ with_faults counts.old faults journal.now }
{
    counts.refused = faults.refused;
    counts.receive_faults = faults.receive;
    counts.send_faults = faults.send;
    counts.dropped_lines = journal.written.dropped;
}

// All that a number tells.
fn put_numbers(counts: &mut Counts, journal: &Journal, faults: Faults)
    ensures { counts.new ≡ with_numbers counts.old journal.now faults }
{
    put_traffic(counts, &journal.tally);
    put_own(counts, &journal.tally);
    put_faults(counts, faults, journal);
}

// All lines.
#[tactic(auto, unfolding(crate::specs::Viewing::lines_viewed))]
fn put_lines(gathering: &mut Gathering, views: &mut Vec<LineView>, gateway: &Gateway)
    ensures { gathering.new.is_refused ≡ false → (gathering.old.is_refused ≡ false)
        × ((events : List GatewayEvent) → Stands gateway.now events → lines_in views.new.items
        ≡ lines_in views.old.items ++ lines_viewed gateway.now.setup (plain gateway.now.setup events) gateway.now.setup.names.lines) }
{
    for before in 0..gateway.lines() {
        put_line(gathering, views, gateway, before + 1);
    }
}

// What there are several of, by reference: a picture is large.
fn put_lists(gathering: &mut Gathering, picture: &mut Picture, gateway: &Gateway, journal: &Journal)
    ensures files { gathering.new.is_refused ≡ false → by_name picture.new.counts.write_faults.items
        ≡ by_name picture.old.counts.write_faults.items ++ files_written journal.now }
    ensures commands { gathering.new.is_refused ≡ false
        → picture.new.counts.commands.items ≡ verbs_from 0 journal.now.tally.value.texts.commands }
    ensures answers { gathering.new.is_refused ≡ false
        → picture.new.counts.answers.items ≡ codes_from 0 journal.now.tally.value.sent.answers.items }
    ensures lines { (events : List GatewayEvent) → Stands gateway.now events → gathering.new.is_refused ≡ false
        → lines_in picture.new.lines.items ≡ lines_in picture.old.lines.items
        ++ lines_viewed gateway.now.setup (plain gateway.now.setup events) gateway.now.setup.names.lines }
{
    put_lines(gathering, &mut picture.lines, gateway);
    put_written(gathering, &mut picture.counts.write_faults, journal);
    let commands = verbs_of(gathering.alloc, &journal.tally.texts.commands);
    picture.counts.commands = gathering.kept(commands);
    let answers = codes_of(gathering.alloc, &journal.tally);
    picture.counts.answers = gathering.kept(answers);
}

/// The gateway as it is now, where its clock is so far behind the machine's, in ms. Its only error is want of memory.
pub fn picture_of(
    alloc: Global,
    gateway: &Gateway,
    journal: &Journal,
    faults: Faults,
    behind: u64,
) -> Result<Picture, AllocError>
    ensures counted { IfOk result (λ picture. picture.counts ≡ with_numbers picture.counts journal.now faults) }
    ensures clock { (events : List GatewayEvent) → Stands gateway.now events
        → IfOk result (λ picture. picture.clock ≡ (plain gateway.now.setup events).now) }
    ensures behind { IfOk result (λ picture. picture.behind ≡ behind) }
    ensures serving { (events : List GatewayEvent) → Stands gateway.now events
        → IfOk result (λ picture. picture.is_serving ≡ serves (plain gateway.now.setup events).endpoints) }
    ensures unanswered { IfOk result (λ picture. picture.unanswered_since ≡ journal.now.tally.value.unanswered_since) }
    ensures first { IfOk result (λ picture. picture.first ≡ gateway.now.setup.first) }
    ensures files { IfOk result (λ picture. by_name picture.counts.write_faults.items ≡ files_written journal.now) }
    ensures commands { IfOk result (λ picture.
        picture.counts.commands.items ≡ verbs_from 0 journal.now.tally.value.texts.commands) }
    ensures answers { IfOk result (λ picture.
        picture.counts.answers.items ≡ codes_from 0 journal.now.tally.value.sent.answers.items) }
    ensures held { (events : List GatewayEvent) → Stands gateway.now events
        → IfOk result (λ picture. picture.counts.transactions ≡ remembered (plain gateway.now.setup events)) }
    ensures lines { (events : List GatewayEvent) → Stands gateway.now events → IfOk result (λ picture. lines_in picture.lines.items
        ≡ lines_viewed gateway.now.setup (plain gateway.now.setup events) gateway.now.setup.names.lines) }
{
    let mut picture = Picture::new(alloc);
    let mut gathering = Gathering {
        alloc,
        is_refused: false,
    };
    put_lists(&mut gathering, &mut picture, gateway, journal);
    put_numbers(&mut picture.counts, journal, faults);
    picture.clock = gateway.now();
    picture.behind = behind;
    picture.is_serving = gateway.serves();
    picture.unanswered_since = journal.tally.unanswered_since;
    picture.first = gateway.setup().first;
    picture.counts.transactions = gateway.remembered() as u64;
    if gathering.is_refused {
        return Err(AllocError);
    }
    Ok(picture)
}
