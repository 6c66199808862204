//! The places of a map, one by one.
ghost use Rattle.std.specs.Prelude.{◌≡◌, ◌≤◌, ◌&&◌, ◌++◌, ◌<◌, ◌/◌, [], ◌∷◌, length, map, Some, None, IfOk, true};
ghost use Rattle.mg_bytes.specs.Letter.{all_letters};
ghost use Rattle.digit_map.specs.Words.{is_in_range};
ghost use Rattle.digit_map.specs.Cuts.{strings_of, positions_of};
ghost use Rattle.digit_map.specs.Places.{places_from, places_in, places_of};
ghost use Rattle.digit_map.specs.Drafts.{bit, draft_of, row_of, block_from, blocks_from, words_from};

use crate::block::Block;
use crate::cut::{positions, set_of, strings};
use crate::walk::{is_in_range, is_repeated, stands_for};
use mg_bytes::{Letter, OutOfMemory};
use std::alloc::Global;

// The test behind those for each letter: a dot stands behind the position.
const DOT: usize = 17;

// A string ends here.
const END: usize = 18;

// The place is live before any letter.
const LIVE: usize = 19;

/// A place of a map by itself: whether it takes each letter, in their order, and then what the constants above say. All
/// tests are of one form, so that one function makes the bits of any of them.
#[derive(Clone, Copy)]
pub struct Draft {
    pub tests: [bool; 20],
}

// The letters that a byte by itself stands for, in their order. A map has mostly bytes by themselves, and this is faster
// than to look for parts in them.
fn letters_of_byte(byte: u8) -> [bool; 17]
    ensures { result ≡ map (is_in_range (byte ∷ [])) all_letters }
{
    [
        stands_for(byte, Letter::Zero),
        stands_for(byte, Letter::One),
        stands_for(byte, Letter::Two),
        stands_for(byte, Letter::Three),
        stands_for(byte, Letter::Four),
        stands_for(byte, Letter::Five),
        stands_for(byte, Letter::Six),
        stands_for(byte, Letter::Seven),
        stands_for(byte, Letter::Eight),
        stands_for(byte, Letter::Nine),
        stands_for(byte, Letter::Star),
        stands_for(byte, Letter::Hash),
        stands_for(byte, Letter::A),
        stands_for(byte, Letter::B),
        stands_for(byte, Letter::C),
        stands_for(byte, Letter::D),
        stands_for(byte, Letter::Timer),
    ]
}

// The letters of what stands in brackets.
fn letters_of_range(range: &[u8]) -> [bool; 17]
    ensures { result ≡ map (is_in_range range.now) all_letters }
{
    [
        is_in_range(range, Letter::Zero),
        is_in_range(range, Letter::One),
        is_in_range(range, Letter::Two),
        is_in_range(range, Letter::Three),
        is_in_range(range, Letter::Four),
        is_in_range(range, Letter::Five),
        is_in_range(range, Letter::Six),
        is_in_range(range, Letter::Seven),
        is_in_range(range, Letter::Eight),
        is_in_range(range, Letter::Nine),
        is_in_range(range, Letter::Star),
        is_in_range(range, Letter::Hash),
        is_in_range(range, Letter::A),
        is_in_range(range, Letter::B),
        is_in_range(range, Letter::C),
        is_in_range(range, Letter::D),
        is_in_range(range, Letter::Timer),
    ]
}

fn letters_of(set: &[u8]) -> [bool; 17]
    ensures { result ≡ map (is_in_range set.now) all_letters }
{
    match set {
        [byte] => letters_of_byte(*byte),
        _ => letters_of_range(set),
    }
}

// The place before a position.
#[tactic(auto, unfolding(crate::specs::Words::has_letter))]
fn place_before(position: &[u8], live: bool) -> Draft
    ensures { result ≡ draft_of (record { ahead = Some position.now; live = live }) }
{
    let letters = letters_of(set_of(position));
    let mut tests = [false; 20];
    tests[..DOT].copy_from_slice(&letters);
    tests[DOT] = is_repeated(position);
    tests[LIVE] = live;
    Draft { tests }
}

// The place at the end of a string.
fn place_at_end(live: bool) -> Draft
    ensures { result ≡ draft_of (record { ahead = None; live = live }) }
{
    let mut tests = [false; 20];
    tests[END] = true;
    tests[LIVE] = live;
    Draft { tests }
}

fn both(left: bool, right: bool) -> bool
    ensures { result ≡ (left && right) }
{
    left && right
}

// Adds the places of a string.
fn add_string(drafts: &mut Vec<Draft>, string: &[u8]) -> Result<(), OutOfMemory>
    ensures { IfOk result (λ _. drafts.new.items
        ≡ drafts.old.items ++ map draft_of (places_from true (positions_of string.now))) }
{
    let mut live = true;
    for position in positions(string) {
        drafts.push(place_before(position, live))?;
        live = both(live, is_repeated(position));
    }
    drafts.push(place_at_end(live))?;
    Ok(())
}

// The places of the strings of a map.
fn string_drafts(alloc: Global, text: &[u8]) -> Result<Vec<Draft>, OutOfMemory>
    ensures { IfOk result (λ drafts. drafts.items ≡ map draft_of (places_in (strings_of text.now))) }
{
    let mut drafts = Vec::with_capacity(alloc, text.len())?;
    for string in strings(text) {
        add_string(&mut drafts, string)?;
    }
    Ok(drafts)
}

/// The places of a map before any letter, filled up to whole blocks, so that each word has 32 places.
pub fn drafts_of(alloc: Global, text: &[u8]) -> Result<Vec<Draft>, OutOfMemory>
    ensures { IfOk result (λ drafts. drafts.items ≡ map draft_of (places_of text.now)) }
{
    let mut drafts = string_drafts(alloc, text)?;
    let room = 32 - drafts.len() % 32;
    for added in 0..room {
        drafts.push(place_at_end(false))?;
    }
    Ok(drafts)
}

fn bit(test: bool) -> u32
    ensures value { result ≡ bit test }
    ensures small { result ≤ 1 }
{
    if test { 1 } else { 0 }
}

// The bits of one test, the first place's the lowest.
fn row_of(test: usize, drafts: &[Draft]) -> u32
    requires test { test < 20 }
    requires few { length drafts.now ≤ 32 }
    ensures { result ≡ row_of test drafts.now }
{
    let mut row = 0;
    for place in (0..drafts.len()).rev() {
        row = row * 2 + bit(drafts[place].tests[test]);
    }
    row
}

fn block_from(drafts: &[Draft]) -> Block
    requires { length drafts.now ≤ 32 }
    ensures { result ≡ block_from drafts.now }
{
    Block {
        letters: [
            row_of(0, drafts),
            row_of(1, drafts),
            row_of(2, drafts),
            row_of(3, drafts),
            row_of(4, drafts),
            row_of(5, drafts),
            row_of(6, drafts),
            row_of(7, drafts),
            row_of(8, drafts),
            row_of(9, drafts),
            row_of(10, drafts),
            row_of(11, drafts),
            row_of(12, drafts),
            row_of(13, drafts),
            row_of(14, drafts),
            row_of(15, drafts),
            row_of(16, drafts),
        ],
        dots: row_of(DOT, drafts),
        ends: row_of(END, drafts),
    }
}

/// The blocks of places, 32 in each.
pub fn blocks_from(alloc: Global, drafts: &[Draft]) -> Result<Vec<Block>, OutOfMemory>
    ensures { IfOk result (λ blocks. blocks.items ≡ blocks_from (length drafts.now / 32) drafts.now) }
{
    let count = drafts.len() / 32;
    let mut blocks = Vec::with_capacity(alloc, count)?;
    let mut rest = drafts;
    for done in 0..count {
        let (front, behind) = rest.split_at(32);
        blocks.push(block_from(front))?;
        rest = behind;
    }
    Ok(blocks)
}

/// The words of the places that are live before any letter.
pub fn words_from(alloc: Global, drafts: &[Draft]) -> Result<Vec<u32>, OutOfMemory>
    ensures { IfOk result (λ words. words.items ≡ words_from (length drafts.now / 32) drafts.now) }
{
    let count = drafts.len() / 32;
    let mut words = Vec::with_capacity(alloc, count)?;
    let mut rest = drafts;
    for done in 0..count {
        let (front, behind) = rest.split_at(32);
        words.push(row_of(LIVE, front))?;
        rest = behind;
    }
    Ok(words)
}
