//! What is told at the end: counts, one kind a line.
ghost use Rattle.std.specs.Prelude.{◌≡◌, ◌++◌, IfOk};
ghost use Rattle.std.specs.List.{flat_map};
ghost use Rattle.page_state.specs.Metrics.{code_text};
ghost use Rattle.message_counts.specs.Reporting.{told, entry_text, datagrams_text, verbs_text, commands_text, texts_text, answer_text, answers_from, traffic_text, own_text, lost_text, others_text, report_text};

use crate::message_tally::MessageTally;
use crate::sent_counts::place_of;
use mg_bytes::Draft;
use mgcp_text::Verb;
use std::alloc::{AllocError, Global};

/// How often a turn failed. A count stays at its greatest value.
#[derive(Clone, Copy)]
pub struct Faults {
    /// The inputs that the gateway refused.
    pub refused: u64,
    /// How often nothing could be received.
    pub receive: u64,
    /// The datagrams that couldn't be sent.
    pub send: u64,
}

impl Faults {
    /// Nothing failed.
    pub const NONE: Faults = Faults {
        refused: 0,
        receive: 0,
        send: 0,
    };
}

// A number, with what stands before it.
fn put_number(text: &mut Draft, before: &str, number: u64)
    ensures { text.new ≡ text.old ++ told before.now number }
{
    text.put(before.as_bytes());
    text.put_decimal(number);
}

// Each number, with what stands before it.
fn put_numbers(text: &mut Draft, numbers: &[(&str, u64)])
    ensures { text.new ≡ text.old ++ flat_map entry_text numbers.now }
{
    for (before, number) in numbers {
        put_number(text, *before, *number);
    }
}

#[tactic(auto, unfolding(crate::specs::Reporting::datagrams_text))]
fn put_datagrams(text: &mut Draft, tally: &MessageTally)
    ensures { text.new ≡ text.old ++ datagrams_text tally.now }
{
    let numbers = [
        ("datagrams in ", tally.datagrams_in),
        (" out ", tally.datagrams_out),
    ];
    put_numbers(text, &numbers);
}

#[tactic(auto, unfolding(crate::specs::Reporting::verbs_text))]
fn put_verbs(text: &mut Draft, commands: &[u64; 10])
    ensures { text.new ≡ text.old ++ verbs_text commands.now }
{
    let numbers = [
        (" EPCF ", commands[0]),
        (" RQNT ", commands[1]),
        (" NTFY ", commands[2]),
        (" CRCX ", commands[3]),
        (" MDCX ", commands[4]),
        (" DLCX ", commands[5]),
        (" AUEP ", commands[6]),
        (" AUCX ", commands[7]),
        (" RSIP ", commands[8]),
        (" other ", commands[9]),
    ];
    put_numbers(text, &numbers);
}

fn put_commands(text: &mut Draft, commands: &[u64; 10])
    ensures { text.new ≡ text.old ++ commands_text commands.now }
{
    text.put(b"\ncommands");
    put_verbs(text, commands);
}

#[tactic(auto, unfolding(crate::specs::Reporting::texts_text))]
fn put_texts(text: &mut Draft, tally: &MessageTally)
    ensures { text.new ≡ text.old ++ texts_text tally.now }
{
    let numbers = [
        ("\nresponses ", tally.texts.responses),
        (" no message ", tally.texts.others),
    ];
    put_numbers(text, &numbers);
}

// The three digits of a return code (RFC 3435, 2.4).
fn put_code(text: &mut Draft, code: usize)
    ensures { text.new ≡ text.old ++ code_text code }
{
    if code < 10 {
        text.put(b"00");
    } else if code < 100 {
        text.put(b"0");
    }
    text.put_decimal(code as u64);
}

// How often something was answered by a return code, if it ever was.
fn put_answer(text: &mut Draft, code: usize, number: u64)
    ensures { text.new ≡ text.old ++ answer_text code number }
{
    if number == 0 {
        return;
    }
    text.put(b" ");
    put_code(text, code);
    put_number(text, " ", number);
}

#[tactic(auto, unfolding(crate::specs::Reporting::answers_from))]
fn put_answers(text: &mut Draft, answers: &[u64])
    ensures { text.new ≡ text.old ++ answers_from 0 answers.now }
{
    for (code, number) in answers.iter().enumerate() {
        put_answer(text, code, *number);
    }
}

// The answers that were sent again, and the commands of its own, of which so many were given up.
#[tactic(auto, unfolding(crate::specs::Reporting::own_text))]
fn put_own(text: &mut Draft, tally: &MessageTally, given_up: u64)
    ensures { text.new ≡ text.old ++ own_text tally.now given_up }
{
    let (notifications, announcements) = (place_of(Verb::Ntfy), place_of(Verb::Rsip));
    let numbers = [
        (" repeated ", tally.sent.again),
        ("\nnotifications ", tally.sent.commands[notifications]),
        (" repeated ", tally.sent.commands_again[notifications]),
        ("\nannouncements ", tally.sent.commands[announcements]),
        (" repeated ", tally.sent.commands_again[announcements]),
        (" given up ", given_up),
    ];
    put_numbers(text, &numbers);
}

// What was lost or refused, or failed.
#[tactic(auto, unfolding(crate::specs::Reporting::lost_text))]
fn put_lost(text: &mut Draft, tally: &MessageTally, lost: u64, faults: Faults)
    ensures { text.new ≡ text.old ++ lost_text tally.now lost faults }
{
    let numbers = [
        ("\nlost events ", lost),
        (" refused ", faults.refused),
        ("\nfaults receive ", faults.receive),
        (" send ", faults.send),
        ("\nstrangers ", tally.strangers),
        (" lost commands ", tally.texts.lost),
    ];
    put_numbers(text, &numbers);
}

// What is told behind the answers.
#[tactic(auto, unfolding(crate::specs::Reporting::others_text))]
fn put_others(text: &mut Draft, tally: &MessageTally, lost: u64, faults: Faults)
    ensures { text.new ≡ text.old ++ others_text tally.now lost faults }
{
    put_own(text, tally, tally.sent.given_up());
    put_lost(text, tally, lost, faults);
}

// What is told of texts.
#[tactic(auto, unfolding(crate::specs::Reporting::traffic_text))]
fn put_traffic(text: &mut Draft, tally: &MessageTally)
    ensures { text.new ≡ text.old ++ traffic_text tally.now }
{
    put_datagrams(text, tally);
    put_commands(text, &tally.texts.commands);
    put_texts(text, tally);
    text.put(b"\nanswers");
    put_answers(text, tally.sent.answers.as_slice());
}

/// All of it, where so many events of all lines were lost. Its only error is want of memory.
pub fn report_text(
    alloc: Global,
    tally: &MessageTally,
    lost: u64,
    faults: Faults,
) -> Result<Vec<u8>, AllocError>
    ensures { IfOk result (λ text. text.items ≡ report_text tally.now lost faults) }
{
    let mut text = Draft::new(alloc);
    put_traffic(&mut text, tally);
    put_others(&mut text, tally, lost, faults);
    text.put_byte(b'\n');
    text.end()
}
