//! Lists, one behind the other.
use mg_bytes::Sequence;

/// The item at a place of lists, one list behind the other; nothing behind the last.
pub fn item_at<T: Drop>(lists: &[Sequence<T>], place: usize) -> Option<&T> {
    let mut place = place;
    for list in lists {
        if let Some(item) = list.as_slice().get(place) {
            return Some(item);
        }
        place = place.saturating_sub(list.as_slice().len());
    }
    None
}
