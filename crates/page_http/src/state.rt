//! What the gateway is, as JSON.
ghost use Rattle.std.specs.Prelude.{◌≡◌, fold, IfOk, OnOk, string_bytes};
ghost use Rattle.serde_json.specs.Data.{Members, no_members, object as object_data};
ghost use Rattle.serde_json.specs.View.{view, members_view};
ghost use Rattle.page_http.specs.Objects.{Holds};
ghost use Rattle.page_http.specs.Texts.{TellsState, hook_word, with_verb, with_code, put_counted, counts_data};

use crate::members::Object;
use crate::told::{Told, list_value};
use page_state::{
    CodeCount, ConnectionView, Counts, LineView, Picture, SignalView, VerbCount, code_digits,
    verb_word,
};
use serde_json::{Map, Value, put};
use std::alloc::{AllocError, Global};

impl Told for SignalView {
    ghost use Rattle.page_http.specs.Texts.{signal_data};

    ghost told = { signal_data };

    fn value(&self, alloc: Global) -> Result<Value, AllocError> {
        let mut object = Object::new(alloc);
        object.put_name("name", self.name);
        object.put_maybe("end", self.end);
        object.end()
    }
}

impl Told for ConnectionView {
    ghost use Rattle.page_http.specs.Texts.{connection_data};

    ghost told = { connection_data };

    fn value(&self, alloc: Global) -> Result<Value, AllocError> {
        let mut object = Object::new(alloc);
        object.put_name("call", self.call.as_slice());
        object.put_name("mode", self.mode);
        object.put_name("codec", self.codec);
        object.put_name("local", self.local.as_slice());
        object.put_name("remote", self.remote.as_slice());
        object.put_number("ptime", u64::from(self.packet_time));
        object.put_number("number", u64::from(self.number));
        object.end()
    }
}

fn hook_word(is_off_hook: bool) -> &'static str
    ensures { result.now ≡ hook_word is_off_hook }
{
    if is_off_hook { "off" } else { "on" }
}

impl Told for LineView {
    ghost use Rattle.page_http.specs.Texts.{line_data};

    ghost told = { line_data };

    fn value(&self, alloc: Global) -> Result<Value, AllocError> {
        let mut object = Object::new(alloc);
        object.put_text("hook", hook_word(self.is_off_hook));
        object.put_number("lost", self.lost);
        object.put_made("signals", list_value(alloc, self.signals.as_slice()));
        let connections = list_value(alloc, self.connections.as_slice());
        object.put_made("connections", connections);
        object.end()
    }
}

// How many commands of each verb came.
fn commands_value(alloc: Global, commands: &[VerbCount]) -> Result<Value, AllocError>
    ensures { IfOk result (λ value. view value ≡ object_data (fold with_verb no_members commands.now)) }
{
    let mut map = Map::new(alloc);
    for count in commands {
        put(
            &mut map,
            alloc,
            verb_word(count.verb),
            Value::from(count.number),
        )?;
    }
    Ok(Value::from(map))
}

// How many answers with a code went out.
fn put_code(alloc: Global, map: &mut Map<String, Value>, count: CodeCount) -> Result<(), AllocError>
    ensures { OnOk result (members_view map.new.entries ≡ with_code (members_view map.old.entries) count) }
{
    let digits = code_digits(alloc, count.code)?;
    let code = String::from_utf8_lossy(alloc, digits.as_slice())?;
    put(map, alloc, code.as_str(), Value::from(count.number))
}

// How many answers with each code went out.
fn answers_value(alloc: Global, answers: &[CodeCount]) -> Result<Value, AllocError>
    ensures { IfOk result (λ value. view value ≡ object_data (fold with_code no_members answers.now)) }
{
    let mut map = Map::new(alloc);
    for count in answers {
        put_code(alloc, &mut map, *count)?;
    }
    Ok(Value::from(map))
}

// What was counted as one number each.
fn put_counted(object: &mut Object, counts: &Counts)
    ensures { (was : Members) → Holds object.old was → Holds object.new (put_counted counts.now was) }
{
    object.put_number("datagrams_in", counts.datagrams_in);
    object.put_number("datagrams_out", counts.datagrams_out);
    object.put_number("responses", counts.responses);
    object.put_number("unreadable", counts.unreadable);
    object.put_number("answers_again", counts.answers_again);
    object.put_number("notifications", counts.notifications);
    object.put_number("notifications_again", counts.notifications_again);
    object.put_number("announcements", counts.announcements);
    object.put_number("announcements_again", counts.announcements_again);
    // How many commands of its own nobody answered.
    let given_up = counts
        .given_up_by_gateway
        .saturating_add(counts.given_up_by_lines);
    object.put_number("given_up", given_up);
    object.put_number("refused", counts.refused);
    object.put_number("receive_faults", counts.receive_faults);
    object.put_number("send_faults", counts.send_faults);
    object.put_number("transactions", counts.transactions);
}

fn counts_value(alloc: Global, counts: &Counts) -> Result<Value, AllocError>
    ensures { IfOk result (λ value. view value ≡ counts_data counts.now) }
{
    let mut object = Object::new(alloc);
    put_counted(&mut object, counts);
    object.put_made(
        "commands",
        commands_value(alloc, counts.commands.as_slice()),
    );
    object.put_made("answers", answers_value(alloc, counts.answers.as_slice()));
    object.end()
}

/// What the gateway is: its clock in ms, the number with which its ids began, whether it serves (RFC 3435, 4.4.6), whether its agent
/// answers, its lines from the first, and what was counted. `version` says which state is shown.
pub fn state_text(alloc: Global, picture: &Picture, version: u64) -> Result<String, AllocError>
    ensures { IfOk result (λ text. TellsState picture.now version (string_bytes text)) }
{
    let mut object = Object::new(alloc);
    object.put_shown(version, picture.clock, u64::from(picture.first));
    object.put_truth("serving", picture.is_serving);
    object.put_truth("agent_answers", picture.agent_answers());
    object.put_maybe("unanswered_since", picture.unanswered_since);
    object.put_number("lost", picture.totals().lost);
    object.put_made("lines", list_value(alloc, picture.lines.as_slice()));
    object.put_made("counts", counts_value(alloc, &picture.counts));
    let value = object.end()?;
    value.to_string(alloc)
}
