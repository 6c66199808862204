//! The places of a map, 32 in a block, and a letter that moves the bits of those that are live.
//!
//! A letter leads from a live place that takes it to the next place, and from there on through each place whose position
//! has a dot, since that may come zero times. This is how an addition hands on its carries, so one addition moves all
//! places of a block, however many dots stand one behind the other.
ghost use Rattle.std.specs.Prelude.{◌≡◌, ◌<◌, length, bit_and, false};
ghost use Rattle.std.specs.List.{list_any};
ghost use Rattle.digit_map_bits.specs.Blocks.{index_of, taken_bits, led_word, leads_on, led_words, some_bit, ends_some};
ghost use Rattle.digit_map_bits.specs.Blocks.{verdict_at};

use digit_map::{Block, Verdict};
use mg_bytes::Letter;

/// What a letter makes of a word.
#[derive(Clone, Copy)]
struct Led {
    /// The places of the block that it leads to.
    word: u32,
    /// It leads to the first place of the next block.
    carried: bool,
}

// Where a letter stands among all letters.
fn index_of(letter: Letter) -> usize
    ensures value { result ≡ index_of letter }
    ensures small { result < 17 }
{
    match letter {
        Letter::Zero => 0,
        Letter::One => 1,
        Letter::Two => 2,
        Letter::Three => 3,
        Letter::Four => 4,
        Letter::Five => 5,
        Letter::Six => 6,
        Letter::Seven => 7,
        Letter::Eight => 8,
        Letter::Nine => 9,
        Letter::Star => 10,
        Letter::Hash => 11,
        Letter::A => 12,
        Letter::B => 13,
        Letter::C => 14,
        Letter::D => 15,
        Letter::Timer => 16,
    }
}

// A place that takes the letter makes a carry, whatever comes to it: both numbers have its bit. One with a dot alone hands
// on a carry that comes to it. So the carries are the places that are led to, but for a place with a dot that took the
// letter, to which it leads back. The carry past the last bit is for the next block, and 4,294,967,296 is that bit.
fn led_word(taken: u32, dots: u32, carried: bool) -> Led
    ensures word { result.word ≡ led_word taken dots carried }
    ensures carried { result.carried ≡ leads_on taken dots carried }
{
    let reached = u64::from(taken | dots);
    let sum = reached + u64::from(taken) + u64::from(carried);
    let carries = sum ^ reached ^ u64::from(taken);
    Led {
        word: (carries % 4_294_967_296) as u32 | (taken & dots),
        carried: 4_294_967_296 <= carries,
    }
}

// The places of a block that take the letter and are live.
fn taken_bits(block: &Block, letter: Letter, word: u32) -> u32
    ensures { result ≡ taken_bits block.now letter word }
{
    word & block.letters[index_of(letter)]
}

// Moves the words of all blocks by a letter, each with the carry of the block before it.
fn lead_words(blocks: &[Block], letter: Letter, words: &mut [u32])
    requires { length words.old ≡ length blocks.now }
    ensures words { words.new ≡ led_words letter false blocks.now words.old }
    ensures len { length words.new ≡ length blocks.now }
{
    let mut carried = false;
    for place in 0..blocks.len() {
        let block = &blocks[place];
        let led = led_word(taken_bits(block, letter, words[place]), block.dots, carried);
        words[place] = led.word;
        carried = led.carried;
    }
}

/// Moves the words of all blocks by a letter.
pub(crate) fn lead(blocks: &[Block], letter: Letter, words: &mut Vec<u32>)
    requires { length words.old.items ≡ length blocks.now }
    ensures words { words.new.items ≡ led_words letter false blocks.now words.old.items }
    ensures len { length words.new.items ≡ length blocks.now }
{
    lead_words(blocks, letter, words.as_mut_slice());
}

// Whether a live place of a block is one at an end.
fn ends_in(word: u32, ends: u32) -> bool
    ensures { result ≡ some_bit (bit_and word ends) }
{
    word & ends != 0
}

// Whether a live place is one at an end.
fn ends_some(blocks: &[Block], words: &[u32]) -> bool
    requires { length words.now ≡ length blocks.now }
    ensures { result ≡ ends_some blocks.now words.now }
{
    for place in 0..blocks.len() {
        if ends_in(words[place], blocks[place].ends) {
            return true;
        }
    }
    false
}

// Whether any place is live.
fn is_live(words: &[u32]) -> bool
    ensures { result ≡ list_any some_bit words.now }
{
    for word in words {
        if *word != 0 {
            return true;
        }
    }
    false
}

/// How far letters have come that lead to these places.
#[tactic(auto, unfolding(crate::specs::Blocks::verdict_at))]
pub(crate) fn verdict_at(blocks: &[Block], words: &[u32]) -> Verdict
    requires { length words.now ≡ length blocks.now }
    ensures { result ≡ verdict_at blocks.now words.now }
{
    if ends_some(blocks, words) {
        Verdict::Perfect
    } else if is_live(words) {
        Verdict::Partial
    } else {
        Verdict::Impossible
    }
}

/// Whether a letter leads from these places to an end.
pub(crate) fn ends_by(blocks: &[Block], letter: Letter, words: &[u32]) -> bool
    requires { length words.now ≡ length blocks.now }
    ensures { result ≡ ends_some blocks.now (led_words letter false blocks.now words.now) }
{
    let mut carried = false;
    for place in 0..blocks.len() {
        let block = &blocks[place];
        let led = led_word(taken_bits(block, letter, words[place]), block.dots, carried);
        if ends_in(led.word, block.ends) {
            return true;
        }
        carried = led.carried;
    }
    false
}
