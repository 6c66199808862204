//! How a message is shown in one line.
ghost use Rattle.std.specs.Prelude.{◌≡◌, ◌++◌};
ghost use Rattle.std.specs.List.{flat_map};
ghost use Rattle.mg_bytes.specs.Lines.{lines_of};
ghost use Rattle.mg_bytes.specs.Words.{words as words_of};
ghost use Rattle.log_format.specs.Messages.{set_off, name_shown, header_shown, line_shown, message_shown, header_of};

use crate::escaping::write_shown;
use mg_bytes::{Draft, lines, same_no_case, split_once, words};

// A value, behind a blank.
fn put_set_off(out: &mut Draft, value: &[u8])
    ensures { out.new ≡ out.old ++ set_off value.now }
{
    out.put_byte(b' ');
    write_shown(out, value);
}

// An endpoint's name, without its domain where that is the gateway's own.
#[tactic(auto, unfolding(crate::specs::Messages::name_shown))]
fn name_shown<'n>(own: &[u8], name: &'n [u8]) -> &'n [u8]
    ensures { result.now ≡ name_shown own.now name.now }
{
    match split_once(name, b'@') {
        Some((local, domain)) if !own.is_empty() && same_no_case(domain, own) => local,
        _ => name,
    }
}

// The first words of a header.
#[tactic(auto, unfolding(crate::specs::Messages::header_shown))]
fn put_words(out: &mut Draft, own: &[u8], header: &[u8])
    ensures { out.new ≡ out.old ++ header_shown own.now (words_of header.now) }
{
    let mut left = words(header);
    let Some(kind) = left.next() else {
        return;
    };
    put_set_off(out, kind);
    let Some(id) = left.next() else {
        return;
    };
    put_set_off(out, id);
    let Some(name) = left.next() else {
        return;
    };
    put_set_off(out, name_shown(own, name));
}

// The lines of a text that aren't empty, each behind a blank.
fn put_lines(out: &mut Draft, text: &[u8])
    ensures { out.new ≡ out.old ++ flat_map line_shown (lines_of text.now) }
{
    for line in lines(text) {
        if !line.is_empty() {
            put_set_off(out, line);
        }
    }
}

/// Puts a message: the verb or return code, the transaction id, and the endpoint's name or the comment, and then its further
/// lines, the parameters in their order and the description, each behind a blank. Of a name of the gateway's own domain the
/// local name is put; where `own` is empty it has none.
#[tactic(auto, unfolding(crate::specs::Messages::message_shown))]
pub(crate) fn put_text(out: &mut Draft, own: &[u8], text: &[u8])
    ensures { out.new ≡ out.old ++ message_shown own.now text.now }
{
    let mut left = lines(text);
    let Some(header) = left.next() else {
        return;
    };
    put_words(out, own, header);
    put_lines(out, left.rest());
}

/// Puts what is first of a message alone: the verb, the transaction id and the endpoint's name, as `put_text` does.
#[tactic(auto, unfolding(crate::specs::Messages::header_of))]
pub(crate) fn put_header(out: &mut Draft, own: &[u8], text: &[u8])
    ensures { out.new ≡ out.old ++ header_of own.now text.now }
{
    let mut left = lines(text);
    let Some(header) = left.next() else {
        return;
    };
    put_words(out, own, header);
}
