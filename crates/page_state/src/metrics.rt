//! What was counted, in Prometheus' text format.
ghost use Rattle.std.specs.Prelude.{◌≡◌, ◌++◌, codes, OnOk, IfOk};
ghost use Rattle.std.specs.List.{flat_map};
ghost use Rattle.page_state.specs.Metrics.{escaped_byte, escaped, family_head, labelled_sample, code_text, verb_sample, verb_samples, code_sample, code_samples, file_sample, file_samples, single, datagrams_text, commands_head, answers_head, traffic_text, own_counters, given_up_text, sends_text, sent_text, repeats_text, useless_counters, faults_text, dropped_text, write_faults_head, records_text, number_if, gauges_text, metrics_of};
ghost use Rattle.page_state.specs.Samples.{single_of, family_of};

use crate::counts::{CodeCount, Counts, FileCount, PLACES, VerbCount, verb_word};
use crate::families::{
    ANNOUNCEMENTS, ANSWERS, COMMANDS, CONNECTIONS, DATAGRAMS, DROPPED_LINES, FAULTS, GIVEN_UP,
    LINES, LINES_OFF_HOOK, LOST_COMMANDS, LOST_EVENTS, Metric, NOTIFICATIONS, REFUSED, REPEATS,
    RESPONSES, SENDS, SERVING, STRANGERS, TRANSACTIONS, UNREADABLE, WRITE_FAULTS,
};
use crate::picture::{Picture, Totals};
use mg_bytes::{Draft, OutOfMemory};
use std::alloc::Global;

// A byte of a label's value.
fn put_escaped_byte(out: &mut Draft, byte: u8)
    ensures { out.new ≡ out.old ++ escaped_byte byte }
{
    match byte {
        b'\\' => out.put(b"\\\\"),
        b'"' => out.put(b"\\\""),
        b'\n' => out.put(b"\\n"),
        _ => out.put_byte(byte),
    }
}

// A label's value.
fn put_escaped(out: &mut Draft, text: &[u8])
    ensures { out.new ≡ out.old ++ escaped text.now }
{
    for byte in text {
        put_escaped_byte(out, *byte);
    }
}

// A line that says something of a metric: which this is stands before its name.
fn put_said(out: &mut Draft, what: &[u8], name: &[u8], text: &[u8])
    ensures { out.new ≡ out.old ++ (what.now ++ name.now ++ codes " " ++ text.now ++ codes "\n") }
{
    out.put(what);
    out.put(name);
    out.put(b" ");
    out.put(text);
    out.put(b"\n");
}

// What is told of a metric before its samples.
fn put_head(out: &mut Draft, metric: Metric)
    ensures { out.new
        ≡ out.old ++ family_head metric.name.now metric.kind.now metric.help.now }
{
    put_said(out, b"# HELP ", metric.name, metric.help);
    put_said(out, b"# TYPE ", metric.name, metric.kind);
}

// A sample with a label.
fn put_labelled(out: &mut Draft, metric: Metric, value: &[u8], number: u64)
    ensures { out.new
        ≡ out.old ++ labelled_sample metric.name.now metric.label.now value.now number }
{
    out.put(metric.name);
    out.put(b"{");
    out.put(metric.label);
    out.put(b"=\"");
    put_escaped(out, value);
    out.put(b"\"} ");
    out.put_decimal(number);
    out.put(b"\n");
}

// A metric of one sample.
fn put_single(out: &mut Draft, metric: Metric, number: u64)
    ensures { out.new
        ≡ out.old ++ single metric.name.now metric.kind.now metric.help.now number }
{
    put_head(out, metric);
    out.put(metric.name);
    out.put(b" ");
    out.put_decimal(number);
    out.put(b"\n");
}

/// The three digits of a code.
pub fn code_digits(alloc: Global, code: u16) -> Result<Vec<u8>, OutOfMemory>
    ensures { IfOk result (λ digits. digits.items ≡ code_text code) }
{
    let mut digits = Draft::new(alloc);
    if code < 10 {
        digits.put(b"00");
    } else if code < 100 {
        digits.put(b"0");
    }
    digits.put_decimal(u64::from(code));
    digits.end()
}

#[tactic(auto, unfolding(crate::specs::Metrics::verb_sample))]
fn put_verb(out: &mut Draft, count: VerbCount)
    ensures { out.new ≡ out.old ++ verb_sample count }
{
    let verb = verb_word(count.verb).as_bytes();
    put_labelled(out, COMMANDS, verb, count.number);
}

fn put_verbs(out: &mut Draft, counts: &[VerbCount])
    ensures { out.new ≡ out.old ++ verb_samples counts.now }
{
    for count in counts {
        put_verb(out, *count);
    }
}

#[tactic(auto, unfolding(crate::specs::Metrics::code_sample))]
fn put_code(alloc: Global, out: &mut Draft, count: CodeCount) -> Result<(), OutOfMemory>
    ensures { OnOk result (out.new ≡ out.old ++ code_sample count) }
{
    let code = code_digits(alloc, count.code)?;
    put_labelled(out, ANSWERS, code.as_slice(), count.number);
    Ok(())
}

fn put_codes(alloc: Global, out: &mut Draft, counts: &[CodeCount]) -> Result<(), OutOfMemory>
    ensures { OnOk result (out.new ≡ out.old ++ code_samples counts.now) }
{
    for count in counts {
        put_code(alloc, out, *count)?;
    }
    Ok(())
}

#[tactic(auto, unfolding(crate::specs::Metrics::file_sample))]
fn put_file(out: &mut Draft, count: &FileCount)
    ensures { out.new ≡ out.old ++ file_sample count.now }
{
    put_labelled(out, WRITE_FAULTS, count.file.as_slice(), count.number);
}

fn put_files(out: &mut Draft, counts: &[FileCount])
    ensures { out.new ≡ out.old ++ file_samples counts.now }
{
    for count in counts {
        put_file(out, count);
    }
}

// Metrics of one sample each.
fn put_singles(out: &mut Draft, singles: &[(Metric, u64)])
    ensures { out.new ≡ out.old ++ flat_map single_of singles.now }
{
    for (metric, number) in singles {
        put_single(out, *metric, *number);
    }
}

// A metric whose samples are told apart by a label.
fn put_family(out: &mut Draft, metric: Metric, samples: &[(&[u8], u64)])
    ensures { out.new ≡ out.old ++ family_of metric samples.now }
{
    put_head(out, metric);
    for (value, number) in samples {
        put_labelled(out, metric, *value, *number);
    }
}

#[tactic(auto, unfolding(crate::specs::Metrics::datagrams_text))]
fn put_datagrams(out: &mut Draft, counts: &Counts)
    ensures { out.new ≡ out.old ++ datagrams_text counts.now }
{
    let datagrams: [(&[u8], u64); 2] = [
        (b"in", counts.datagrams_in),
        (b"out", counts.datagrams_out),
    ];
    put_family(out, DATAGRAMS, &datagrams);
}

#[tactic(auto, unfolding(crate::specs::Metrics::commands_head))]
fn put_commands_head(out: &mut Draft)
    ensures { out.new ≡ out.old ++ commands_head }
{
    put_head(out, COMMANDS);
}

#[tactic(auto, unfolding(crate::specs::Metrics::answers_head))]
fn put_answers_head(out: &mut Draft)
    ensures { out.new ≡ out.old ++ answers_head }
{
    put_head(out, ANSWERS);
}

fn put_traffic(alloc: Global, out: &mut Draft, counts: &Counts) -> Result<(), OutOfMemory>
    ensures { OnOk result (out.new ≡ out.old ++ traffic_text counts.now) }
{
    put_datagrams(out, counts);
    put_commands_head(out);
    put_verbs(out, counts.commands.as_slice());
    put_answers_head(out);
    put_codes(alloc, out, counts.answers.as_slice())
}

#[tactic(auto, unfolding(crate::specs::Metrics::own_counters))]
fn put_own_counters(out: &mut Draft, counts: &Counts)
    ensures { out.new ≡ out.old ++ own_counters counts.now }
{
    let singles = [
        (NOTIFICATIONS, counts.notifications),
        (ANNOUNCEMENTS, counts.announcements),
    ];
    put_singles(out, &singles);
}

#[tactic(auto, unfolding(crate::specs::Metrics::given_up_text))]
fn put_given_up(out: &mut Draft, counts: &Counts)
    ensures { out.new ≡ out.old ++ given_up_text counts.now }
{
    let owners: [(&[u8], u64); 2] = [
        (b"gateway", counts.given_up_by_gateway),
        (b"line", counts.given_up_by_lines),
    ];
    put_family(out, GIVEN_UP, &owners);
}

#[tactic(auto, unfolding(crate::specs::Metrics::sends_text))]
fn put_sends(out: &mut Draft, counts: &Counts)
    ensures { out.new ≡ out.old ++ sends_text counts.now }
{
    let places: [(&[u8], u64); PLACES] = [
        (b"1", counts.sends[0]),
        (b"2", counts.sends[1]),
        (b"3", counts.sends[2]),
        (b"4", counts.sends[3]),
        (b"other", counts.sends[4]),
    ];
    put_family(out, SENDS, &places);
}

// What the gateway sent of its own.
fn put_sent(out: &mut Draft, counts: &Counts)
    ensures { out.new ≡ out.old ++ sent_text counts.now }
{
    put_own_counters(out, counts);
    put_given_up(out, counts);
    put_sends(out, counts);
    put_repeats(out, counts);
}

#[tactic(auto, unfolding(crate::specs::Metrics::repeats_text))]
fn put_repeats(out: &mut Draft, counts: &Counts)
    ensures { out.new ≡ out.old ++ repeats_text counts.now }
{
    let repeats: [(&[u8], u64); 3] = [
        (b"answer", counts.answers_again),
        (b"notification", counts.notifications_again),
        (b"announcement", counts.announcements_again),
    ];
    put_family(out, REPEATS, &repeats);
}

#[tactic(auto, unfolding(crate::specs::Metrics::useless_counters))]
fn put_useless_counters(out: &mut Draft, counts: &Counts)
    ensures { out.new ≡ out.old ++ useless_counters counts.now }
{
    let singles = [
        (RESPONSES, counts.responses),
        (UNREADABLE, counts.unreadable),
        (REFUSED, counts.refused),
        (STRANGERS, counts.strangers),
        (LOST_COMMANDS, counts.lost_commands),
    ];
    put_singles(out, &singles);
}

#[tactic(auto, unfolding(crate::specs::Metrics::faults_text))]
fn put_faults(out: &mut Draft, counts: &Counts)
    ensures { out.new ≡ out.old ++ faults_text counts.now }
{
    let faults: [(&[u8], u64); 2] = [
        (b"receive", counts.receive_faults),
        (b"send", counts.send_faults),
    ];
    put_family(out, FAULTS, &faults);
}

#[tactic(auto, unfolding(crate::specs::Metrics::dropped_text))]
fn put_dropped(out: &mut Draft, counts: &Counts)
    ensures { out.new ≡ out.old ++ dropped_text counts.now }
{
    let singles = [(DROPPED_LINES, counts.dropped_lines)];
    put_singles(out, &singles);
}

#[tactic(auto, unfolding(crate::specs::Metrics::write_faults_head))]
fn put_write_faults_head(out: &mut Draft)
    ensures { out.new ≡ out.old ++ write_faults_head }
{
    put_head(out, WRITE_FAULTS);
}

fn put_records(out: &mut Draft, counts: &Counts)
    ensures { out.new ≡ out.old ++ records_text counts.now }
{
    put_dropped(out, counts);
    put_write_faults_head(out);
    put_files(out, counts.write_faults.as_slice());
}

// 1 if it is so.
fn number_if(is_so: bool) -> u64
    ensures { result ≡ number_if is_so }
{
    if is_so { 1 } else { 0 }
}

#[tactic(auto, unfolding(crate::specs::Metrics::gauges_text))]
fn put_gauges(out: &mut Draft, lines: u64, totals: Totals, transactions: u64, is_serving: bool)
    ensures { out.new ≡ out.old ++ gauges_text lines totals transactions is_serving }
{
    let singles = [
        (LOST_EVENTS, totals.lost),
        (SERVING, number_if(is_serving)),
        (LINES, lines),
        (LINES_OFF_HOOK, totals.off_hook),
        (CONNECTIONS, totals.connections),
        (TRANSACTIONS, transactions),
    ];
    put_singles(out, &singles);
}

/// What was counted and what is held, in Prometheus' text format.
pub fn metrics_text(alloc: Global, picture: &Picture) -> Result<Vec<u8>, OutOfMemory>
    ensures { IfOk result (λ text. text.items ≡ metrics_of picture.now) }
{
    let mut out = Draft::new(alloc);
    put_traffic(alloc, &mut out, &picture.counts)?;
    put_sent(&mut out, &picture.counts);
    put_useless_counters(&mut out, &picture.counts);
    put_faults(&mut out, &picture.counts);
    put_records(&mut out, &picture.counts);
    let lines = picture.lines.len() as u64;
    put_gauges(
        &mut out,
        lines,
        picture.totals(),
        picture.counts.transactions,
        picture.is_serving,
    );
    out.end()
}
