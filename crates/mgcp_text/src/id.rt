//! Transaction ids, which join a response to its command (RFC 3435, 3.2.1.2).
ghost use Rattle.std.specs.Prelude.{◌≡◌, ◌≤◌};
ghost use Rattle.mgcp_text.specs.Header.{id_of};

use mg_bytes::decimal;
use std::marker::Model;

/// A transaction id: a number from 1 to 999,999,999 (RFC 3435, 3.2.1.2). A contract sees the number.
#[derive(Clone, Copy)]
pub struct TransactionId {
    number: u32,
}

impl Model for TransactionId {
    ghost use Rattle.std.specs.Prelude.{ℕ, ◌≤◌};

    ghost Value = { ℕ };

    ghost view = { λ t. t.number };

    ghost invariant = { λ t. (1 ≤ t.number) × (t.number ≤ 999999999) };

    ghost inverse = { λ n. record { number = n } };
}

impl TransactionId {
    /// The id with this number.
    pub fn of(number: u32) -> Self
        requires some { 1 ≤ number }
        requires short { number ≤ 999999999 }
        ensures { result ≡ number }
    {
        TransactionId { number }
    }

    /// Its number.
    pub fn number(self) -> u32
        ensures value { result ≡ self }
        ensures some { 1 ≤ result }
        ensures short { result ≤ 999999999 }
    {
        self.number
    }
}

/// The transaction id that a word is: 1 to 9 digits with a value of at least 1 (RFC 3435, 3.2.1.2).
#[tactic(auto, unfolding(crate::specs::Header::id_of))]
pub fn id_of(word: &[u8]) -> Option<TransactionId>
    ensures { result ≡ id_of word.now }
{
    if word.len() > 9 {
        return None;
    }
    let number = decimal(word)?;
    if number == 0 {
        return None;
    }
    Some(TransactionId::of(number as u32))
}
