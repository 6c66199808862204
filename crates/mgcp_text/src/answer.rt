//! Answers to commands (RFC 3435, 3.3): responses that have no transaction id yet, and can always be written.
ghost use Rattle.std.specs.Prelude.{◌≡◌, ◌≤◌, true, IsTrue, IfOk};
ghost use Rattle.std.specs.List.{list_all};
ghost use Rattle.mgcp_text.specs.Writing.{written, is_writable, is_writable_param, is_writable_body};

use crate::bytes::Bytes;
use crate::id::TransactionId;
use crate::message::Params;
use crate::writing::response_text;
use mg_bytes::{OutOfMemory, Sequence, Text};
use std::alloc::Global;
use std::marker::Model;

/// An answer: its return code, parameters and description. It can be written.
#[derive(Drop)]
pub struct AnswerContent {
    code: u16,
    params: Params<'static>,
    body: Bytes<'static>,
}

impl Model for AnswerContent {
    ghost use Rattle.mgcp_text.specs.Answer.{AnswerContent, IsAnswer};

    ghost Value = { AnswerContent };

    ghost view = { λ a. record { code = a.code; params = a.params; body = a.body } };

    ghost invariant = { λ a. IsAnswer (record { code = a.code; params = a.params; body = a.body }) };
}

impl AnswerContent {
    ghost use Rattle.mgcp_text.specs.Answer.{plain_code, response_of};

    /// An answer of a return code alone. This takes no memory yet.
    #[tactic(auto, unfolding(crate::specs::Writing::is_writable_body))]
    pub fn plain(alloc: Global, code: u16) -> Self
        requires { code ≤ 999 }
        ensures { result ≡ plain_code code }
    {
        AnswerContent {
            code,
            params: Sequence::new(alloc),
            body: Bytes::of(b""),
        }
    }

    /// An answer with parameters and a description, which is empty where there is none.
    pub fn with(code: u16, params: Params<'static>, body: Bytes<'static>) -> Self
        requires three_digits { code ≤ 999 }
        requires each { list_all is_writable_param params ≡ true }
        requires whole { is_writable_body body ≡ true }
        ensures { result ≡ record { code = code; params = params.entry; body = body.entry } }
    {
        AnswerContent { code, params, body }
    }

    /// Its return code.
    pub fn code(&self) -> u16
        ensures value { result ≡ self.now.code }
        ensures three_digits { result ≤ 999 }
    {
        self.code
    }

    /// The text of the response that it is in the transaction with this id.
    pub fn text(&self, alloc: Global, id: TransactionId) -> Result<Text, OutOfMemory>
        ensures text { IfOk result (λ text. text ≡ written (response_of id self.now)) }
        // Every answer can be written.
        ensures writable { IsTrue (is_writable (response_of id self.now)) }
    {
        response_text(alloc, self.code, id, self.params.as_slice(), &self.body)
    }
}
