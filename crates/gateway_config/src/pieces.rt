//! Pieces of what is told: words, numbers, and what stands in a configuration, safe to be shown.
ghost use Rattle.std.specs.Prelude.{◌≡◌, ◌++◌};
ghost use Rattle.toml.specs.View.{items_view, view};
ghost use Rattle.gateway_config.specs.Pieces.{quote_around, text_shown, sign_shown, integer_shown, item_count, kind_shown, value_shown};

use log_format::{write_number, write_shown};
use mg_bytes::Draft;
use toml::Value;

/// Puts words.
pub fn put(out: &mut Draft, words: &str)
    ensures { out.new ≡ out.old ++ words.now }
{
    out.put(words.as_bytes());
}

fn quote_around(is_quoted: bool, text: &str) -> &'static str
    ensures { result.now ≡ quote_around is_quoted text.now }
{
    if is_quoted || text.is_empty() {
        "\""
    } else {
        ""
    }
}

/// Puts a text, in quotes where that is asked for, or where there is nothing between them.
pub fn put_text(out: &mut Draft, text: &str, is_quoted: bool)
    ensures { out.new ≡ out.old ++ text_shown is_quoted text.now }
{
    let quote = quote_around(is_quoted, text);
    put(out, quote);
    write_shown(out, text.as_bytes());
    put(out, quote);
}

fn sign_of(number: i64) -> &'static str
    ensures { result.now ≡ sign_shown number }
{
    if number < 0 { "-" } else { "" }
}

fn put_integer(out: &mut Draft, number: i64)
    ensures { out.new ≡ out.old ++ integer_shown number }
{
    put(out, sign_of(number));
    write_number(out, number.unsigned_abs());
}

#[tactic(auto, using(crate::proofs::PieceLemmas::counted))]
fn item_count(values: &[Value]) -> usize
    ensures { result ≡ item_count (items_view values.now) }
{
    values.len()
}

// Puts what kind a value is of.
fn put_kind(out: &mut Draft, value: &Value)
    ensures { out.new ≡ out.old ++ kind_shown (view value.now) }
{
    if let Some(values) = value.as_array() {
        put(out, "a list of ");
        write_number(out, item_count(values.as_slice()) as u64);
        return;
    }
    match value.as_bool() {
        Some(true) => put(out, "true"),
        Some(false) => put(out, "false"),
        None => {
            put(out, "a ");
            put(out, value.type_str());
        }
    }
}

/// Puts what stands in a configuration: a text, in quotes where another kind is wanted, a number, or of what kind it is.
pub fn put_value(out: &mut Draft, value: &Value, is_quoted: bool)
    ensures { out.new ≡ out.old ++ value_shown is_quoted (view value.now) }
{
    if let Some(text) = value.as_str() {
        put_text(out, text, is_quoted);
        return;
    }
    match value.as_integer() {
        Some(number) => put_integer(out, number),
        None => put_kind(out, value),
    }
}
