//! Numbers in rows.
use mg_bytes::decimal;

/// The number that words say; 0 where they say none.
pub fn number_in(words: &str) -> u64 {
    decimal(words.as_bytes()).unwrap_or(0)
}

/// The first and the last of the numbers that are written, as `1-4096` or `7`; nothing where it says something else.
pub fn range_in(words: &str) -> Option<(u32, u32)> {
    let (first, last) = words.split_once('-').unwrap_or((words, words));
    let (Ok(first), Ok(last)) = (first.parse::<u32>(), last.parse::<u32>()) else {
        return None;
    };
    Some((first, last))
}
