//! What is told of each message that was sent at the last event: its label.
ghost use Rattle.std.specs.Prelude.{◌≡◌, ◌≢◌, length, slice_get, IfSome};
ghost use Rattle.rgw_c.specs.Account.{verb_number, whose_number, line_of, what_number, code_of, verb_of};
ghost use Rattle.rgw_c.specs.Account.{message_of, message_number, message_at};
ghost use Rattle.rgw_c.specs.Telling.{open_number, found_number};

use crate::handle::{Handle, put, take};
use crate::numbers::{NO_SUCH_PLACE, NOT_OPEN, OK};
use crate::structs::Message;
use gateway_core::{SentMessage, What, Whose};
use mgcp_text::Verb;
use std::alloc::Global;

pub fn verb_number(verb: Verb) -> u16
    ensures { result ≡ verb_number verb }
{
    match verb {
        Verb::Epcf => 1,
        Verb::Rqnt => 2,
        Verb::Ntfy => 3,
        Verb::Crcx => 4,
        Verb::Mdcx => 5,
        Verb::Dlcx => 6,
        Verb::Auep => 7,
        Verb::Aucx => 8,
        Verb::Rsip => 9,
        Verb::Other => 0,
    }
}

// Whose a message is, and of which line.
fn whose_numbers(whose: Whose) -> (u16, u16)
    ensures whose { result.0 ≡ whose_number whose }
    ensures line { result.1 ≡ line_of whose }
{
    match whose {
        Whose::Nobody => (0, 0),
        Whose::AnswerOf(None) => (1, 0),
        Whose::AnswerOf(Some(line)) => (1, line),
        Whose::OwnOf(line) => (2, line),
    }
}

// What a message is, its return code and its verb.
fn what_numbers(what: What) -> (u16, u16, u16)
    ensures what { result.0 ≡ what_number what }
    ensures code { result.1 ≡ code_of what }
    ensures verb { result.2 ≡ verb_of what }
{
    match what {
        What::Answer { code } => (1, code, 0),
        What::Again { code } => (2, code, 0),
        What::Command { verb } => (3, 0, verb_number(verb)),
        What::Resent { verb, .. } => (4, 0, verb_number(verb)),
        What::Acknowledgement => (5, 0, 0),
    }
}

fn message_of(sent: &SentMessage) -> Message
    ensures { result ≡ message_of sent.now }
{
    let (whose, line) = whose_numbers(sent.label.whose);
    let (what, code, verb) = what_numbers(sent.label.what);
    Message {
        moment: sent.moment,
        host: sent.to.ip().to_bits(),
        id: sent.label.id.number(),
        port: sent.to.port(),
        whose,
        line,
        what,
        code,
        verb,
        send: sent.label.what.send(),
    }
}

/// How many messages the last event sent that was taken. Several may have shared a datagram.
#[unsafe(no_mangle)]
pub extern "C" fn rgw_messages_nonnull(alloc: Global, handle: &mut Handle, count: &mut usize) -> u32
    ensures number { result ≡ open_number handle.old.held }
    ensures count { IfSome handle.old.held (λ is. count.new ≡ length is.gateway.account.sent) }
    ensures left { result ≢ OK → count.new ≡ count.old }
    ensures kept { handle.new.held ≡ handle.old.held }
{
    let Some(instance) = take(handle, alloc) else {
        return NOT_OPEN;
    };
    *count = instance.gateway.sent().len();
    put(handle, alloc, instance);
    OK
}

// Tells a message of these, if there is one at the index.
fn tell_message(sent: &[SentMessage], index: usize, message: &mut Message) -> u32
    ensures number { result ≡ found_number (slice_get sent.now index) }
    ensures message { IfSome (slice_get sent.now index) (λ found. message.new ≡ message_of found) }
    ensures left { result ≢ OK → message.new ≡ message.old }
{
    match sent.get(index) {
        Some(found) => {
            *message = message_of(found);
            OK
        }
        None => NO_SUCH_PLACE,
    }
}

/// A message that the last event sent, by its index from 0, in their order.
#[unsafe(no_mangle)]
pub extern "C" fn rgw_message_nonnull(
    alloc: Global,
    handle: &mut Handle,
    index: usize,
    message: &mut Message,
) -> u32
    ensures number { result ≡ message_number handle.old.held index }
    ensures message { IfSome (message_at handle.old.held index) (λ sent. message.new ≡ message_of sent) }
    ensures left { result ≢ OK → message.new ≡ message.old }
    ensures kept { handle.new.held ≡ handle.old.held }
{
    let Some(instance) = take(handle, alloc) else {
        return NOT_OPEN;
    };
    let number = tell_message(instance.gateway.sent(), index, message);
    put(handle, alloc, instance);
    number
}
