//! The bytes of a text: its lines, the words of a line, numbers as digits, comparison without case, owned text,
//! texts that are put together, lists that own their values, and return codes.
//!
//! Nothing here knows what a message is. What only reads takes no memory and gives slices of what it read.
#![tactic(auto)]

mod address;
mod blank;
mod boxing;
mod code_fault;
mod draft;
pub mod examples;
mod few;
mod identifier;
mod item;
pub mod laws;
mod letter;
mod letter_case;
mod line;
mod number;
mod owned;
mod return_code;
mod sequence;
mod split;
mod told;
mod word;

pub use crate::address::{ipv4_address, octets_of, port_number};
pub use crate::blank::{all_blank, trimmed};
pub use crate::boxing::boxed;
pub use crate::code_fault::CodeFault;
pub use crate::draft::Draft;
pub use crate::few::Few;
pub use crate::identifier::Identifier;
pub use crate::item::ListItems;
pub use crate::letter::{LETTERS, Letter, letter_of};
pub use crate::letter_case::same_no_case;
pub use crate::line::Lines;
pub use crate::number::{decimal, hex_digit, hex_text, put_decimal};
pub use crate::owned::{OutOfMemory, Text};
pub use crate::return_code::{RETURN_CODES, ReturnCode};
pub use crate::sequence::Sequence;
pub use crate::split::{has_dot_line, in_brackets, lines, list_items, split_once, words};
pub use crate::word::Words;
