//! The words of a line.
ghost use Rattle.std.specs.Prelude.{◌≡◌, position};
ghost use Rattle.mg_bytes.specs.Blanks.{is_blank};
ghost use Rattle.mg_bytes.specs.Words.{leading_word, after_word};

use crate::blank::{is_blank, trimmed_start};
use std::marker::Model;

/// The words of a line that are left. A contract sees their list.
#[derive(Drop)]
pub struct Words<'a> {
    pub(crate) rest: &'a [u8],
}

impl<'a> Model for Words<'a> {
    ghost use Rattle.std.specs.Prelude.{List, ℕ};
    ghost use Rattle.mg_bytes.specs.Words.{words};

    ghost Value = { List (List ℕ) };

    ghost view = { λ w. words w.rest.now };
}

fn first_blank(text: &[u8]) -> Option<usize>
    ensures { result ≡ position is_blank text.now }
{
    text.iter().position(|byte| is_blank(*byte))
}

// The word in front, and the blank after it with all that follows.
fn split_word(text: &[u8]) -> (&[u8], &[u8])
    ensures front { result.0.now ≡ leading_word text.now }
    ensures rest { result.1.now ≡ after_word text.now }
{
    match first_blank(text) {
        Some(place) => text.split_at(place),
        None => (text, &[]),
    }
}

impl<'a> Iterator for Words<'a> {
    ghost use Rattle.std.specs.Iterator.{YieldsFirstRef, item_count};

    type Item = &'a [u8];

    ghost next_gives = { YieldsFirstRef (λ words. words) };

    ghost remaining = { item_count (λ words. words) };

    fn next(&mut self) -> Option<&'a [u8]> {
        let text = trimmed_start(self.rest);
        if text.is_empty() {
            self.rest = text;
            return None;
        }
        let (word, rest) = split_word(text);
        self.rest = rest;
        Some(word)
    }
}
