//! A name with parentheses behind it.
ghost use Rattle.std.specs.Prelude.{◌≡◌, option_map};
ghost use Rattle.mg_bytes.specs.Lists.{is_empty};
ghost use Rattle.packages.specs.Cuts.{form_of, seen};

use crate::cut::between_parentheses;

/// What stands in the parentheses behind a name.
#[derive(Clone, Copy)]
pub enum Inside<'a> {
    Nothing,
    Single(&'a [u8]),
    Double(&'a [u8], &'a [u8]),
}

/// A name, with parentheses behind it or not.
#[derive(Clone, Copy)]
pub struct Shape<'a> {
    pub head: &'a [u8],
    pub inside: Inside<'a>,
}

fn is_empty(text: &[u8]) -> bool
    ensures { result ≡ is_empty text.now }
{
    text.is_empty()
}

/// `head`, `head(first)` or `head(first)(second)`; `None` for a text of another form.
#[tactic(auto, unfolding(crate::specs::Cuts::form_of))]
pub fn form_of(text: &[u8]) -> Option<Shape<'_>>
    ensures { option_map seen result ≡ form_of text.now }
{
    let mut pieces = between_parentheses(text);
    let head = pieces.next()?;
    let Some(first) = pieces.next() else {
        return Some(Shape {
            head,
            inside: Inside::Nothing,
        });
    };
    let between = pieces.next()?;
    let Some(second) = pieces.next() else {
        if !is_empty(between) {
            return None;
        }
        return Some(Shape {
            head,
            inside: Inside::Single(first),
        });
    };
    let behind = pieces.next()?;
    if pieces.next().is_some() || !is_empty(between) || !is_empty(behind) {
        return None;
    }
    Some(Shape {
        head,
        inside: Inside::Double(first, second),
    })
}
