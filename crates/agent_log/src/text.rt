//! Words of a text.
use mg_bytes::{lines, words};

/// The word at this place, from 0, of the first line of a text; nothing where there are fewer.
pub(crate) fn header_word(text: &[u8], place: usize) -> &[u8] {
    let Some(line) = lines(text).next() else {
        return &[];
    };
    match words(line).nth(place) {
        Some(word) => word,
        None => &[],
    }
}
