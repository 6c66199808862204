//! Letters walked through the positions of a map, from front to back.
ghost use Rattle.std.specs.Prelude.{◌≡◌, ◌<◌, ◌≤◌, ◌+◌, ◌||◌, ◌∷◌, [], ℕ, length, true, false};
ghost use Rattle.std.specs.List.{slice_index_or};
ghost use Rattle.digit_map.specs.Words.{names, is_in_range, has_letter, is_repeated, spells, is_word};
ghost use Rattle.digit_map.specs.Verdict.{verdict_of};
ghost use Rattle.digit_map.specs.Rows.{stays, carries, moved};
ghost use Rattle.digit_map.specs.Cuts.{positions_of};

use crate::cut::{positions, set_of, strings};
use crate::part::{Part, parts};
use crate::spelling::{is_digit, is_wildcard};
use crate::verdict::Verdict;
use mg_bytes::Letter;

fn names(part: Part, letter: Letter) -> bool
    ensures { result ≡ names part letter }
{
    let named = letter.byte();
    match part {
        Part::Single(byte) => {
            if is_wildcard(byte) {
                is_digit(named)
            } else {
                named == byte.to_ascii_uppercase()
            }
        }
        Part::Span(low, high) => low <= named && named <= high,
    }
}

/// Whether a letter is one of those that stand in brackets, `X` being any digit (RFC 3435, 2.1.5).
pub fn is_in_range(range: &[u8], letter: Letter) -> bool
    ensures { result ≡ is_in_range range.now letter }
{
    for part in parts(range) {
        if names(part, letter) {
            return true;
        }
    }
    false
}

/// Whether a letter is one of those that a byte by itself stands for, as it does in brackets: `X` for any digit, another
/// byte for the letter that it is, in any case (RFC 3435, 2.1.5).
#[tactic(auto, unfolding(crate::specs::Cuts::parts_of))]
pub fn stands_for(byte: u8, letter: Letter) -> bool
    ensures { result ≡ is_in_range (byte ∷ []) letter }
{
    names(Part::Single(byte), letter)
}

#[tactic(auto, unfolding(crate::specs::Words::has_letter))]
fn has_letter(position: &[u8], letter: Letter) -> bool
    ensures { result ≡ has_letter position.now letter }
{
    is_in_range(set_of(position), letter)
}

/// Whether a position has a dot: its letters may come zero or more times (RFC 3435, 2.1.5).
pub fn is_repeated(position: &[u8]) -> bool
    ensures { result ≡ is_repeated position.now }
{
    matches!(position, [.., b'.'])
}

fn stays(repeated: bool, carried: bool, reached: bool) -> bool
    ensures { result ≡ stays repeated carried reached }
{
    carried || (repeated && reached)
}

fn carries(repeated: bool, carried: bool, reached: bool, position: &[u8], letter: Letter) -> bool
    ensures { result ≡ carries repeated carried reached (has_letter position.now letter) }
{
    (reached || (repeated && carried)) && has_letter(position, letter)
}

fn either(left: bool, right: bool) -> bool
    ensures { result ≡ (left || right) }
{
    left || right
}

// A row says of each place between the letters whether it was reached so far; this is the row behind one more position.
fn walk_position(position: &[u8], letters: &[Letter], row: &mut [bool])
    requires { length row.old ≡ length letters.now + 1 }
    ensures row { row.new ≡ moved (is_repeated position.now) (has_letter position.now) false row.old letters.now }
    ensures len { length row.new ≡ length letters.now + 1 }
{
    let repeated = is_repeated(position);
    let mut carried = false;
    for place in 0..letters.len() {
        let reached = row[place];
        row[place] = stays(repeated, carried, reached);
        carried = carries(repeated, carried, reached, position, letters[place]);
    }
    row[letters.len()] = stays(repeated, carried, row[letters.len()]);
}

/// What a string says of letters.
#[derive(Clone, Copy)]
struct Walk {
    /// It spells them.
    spelled: bool,
    /// It spells a word that begins with them.
    begun: bool,
}

// The row before the first position: the first place alone is reached.
fn begin(row: &mut [bool])
    requires { 0 < length row.old }
    ensures len { length row.new ≡ length row.old }
    ensures first { slice_index_or row.new 0 false ≡ true }
    ensures others { (place : ℕ) → 0 < place → slice_index_or row.new place false ≡ false }
{
    for place in 0..row.len() {
        row[place] = false;
    }
    row[0] = true;
}

// The row has one place more than there are letters; what it says before doesn't matter.
fn walk_string(string: &[u8], letters: &[Letter], row: &mut [bool]) -> Walk
    requires { length row.old ≡ length letters.now + 1 }
    ensures spelled { result.spelled ≡ spells false (positions_of string.now) letters.now }
    ensures begun { result.begun ≡ spells true (positions_of string.now) letters.now }
    ensures len { length row.new ≡ length letters.now + 1 }
{
    let last = letters.len();
    begin(row);
    let mut begun = row[last];
    for position in positions(string) {
        walk_position(position, letters, row);
        begun = either(begun, row[last]);
    }
    Walk {
        spelled: row[last],
        begun,
    }
}

/// How far the letters have come by the words of a map. This walks through the map once.
#[tactic(auto, unfolding(crate::specs::Verdict::verdict_of, crate::specs::Words::is_word, crate::specs::Words::is_begun))]
pub fn verdict_of(map: &[u8], letters: &[Letter]) -> Verdict
    requires { length letters.now ≤ 65 }
    ensures { result ≡ verdict_of map.now letters.now }
{
    let mut row = [false; 66];
    let row = &mut row[..letters.len() + 1];
    let mut begun = false;
    for string in strings(map) {
        let walk = walk_string(string, letters, row);
        if walk.spelled {
            return Verdict::Perfect;
        }
        begun = either(begun, walk.begun);
    }
    if begun {
        Verdict::Partial
    } else {
        Verdict::Impossible
    }
}

/// Whether the letters are a word of a map. This walks through the map once at most.
#[tactic(auto, unfolding(crate::specs::Words::is_word))]
pub fn is_word(map: &[u8], letters: &[Letter]) -> bool
    requires { length letters.now ≤ 65 }
    ensures { result ≡ is_word map.now letters.now }
{
    let mut row = [false; 66];
    let row = &mut row[..letters.len() + 1];
    for string in strings(map) {
        if walk_string(string, letters, row).spelled {
            return true;
        }
    }
    false
}
