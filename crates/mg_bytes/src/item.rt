//! The items of a list, which commas part.
use crate::blank::trimmed;
use crate::split::split_once;
use std::marker::Model;

/// The items of a list that are left. A contract sees their list.
#[derive(Drop)]
pub struct ListItems<'a> {
    pub(crate) rest: Option<&'a [u8]>,
}

impl<'a> Model for ListItems<'a> {
    ghost use Rattle.std.specs.Prelude.{List, ℕ};
    ghost use Rattle.mg_bytes.specs.Items.{items_left};

    ghost Value = { List (List ℕ) };

    ghost view = { λ l. items_left l.rest };
}

impl<'a> Iterator for ListItems<'a> {
    ghost use Rattle.std.specs.Iterator.{YieldsFirstRef, item_count};

    type Item = &'a [u8];

    ghost next_gives = { YieldsFirstRef (λ items. items) };

    ghost remaining = { item_count (λ items. items) };

    fn next(&mut self) -> Option<&'a [u8]> {
        let text = self.rest?;
        match split_once(text, b',') {
            Some((item, rest)) => {
                self.rest = Some(rest);
                Some(trimmed(item))
            }
            None => {
                self.rest = None;
                Some(trimmed(text))
            }
        }
    }
}
