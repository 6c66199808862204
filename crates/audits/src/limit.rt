//! The limit of an answer.
ghost use Rattle.std.specs.Prelude.{◌≡◌};
ghost use Rattle.mg_bytes.specs.CodeFault.{AnswersAs};
ghost use Rattle.audits.specs.Fitting.{fitting};

use mg_bytes::{CodeFault, ReturnCode};
use mgcp_text::{AnswerContent, TransactionId};
use std::alloc::Global;
use transmission::LARGEST_DATAGRAM;

/// An answer under this id, as it is wanted; where its text would have more than 4,000 bytes, the return code 533
/// (RFC 3435, 2.4 and 3.5.4).
#[tactic(auto, unfolding(crate::specs::Fitting::fitting))]
pub fn fitting(
    alloc: Global,
    id: TransactionId,
    wanted: AnswerContent,
) -> Result<AnswerContent, CodeFault>
    ensures { AnswersAs (fitting id wanted) result }
{
    let text = wanted.text(alloc, id)?;
    if text.as_bytes().len() > LARGEST_DATAGRAM {
        return Err(CodeFault::of(ReturnCode::ResponseTooLarge));
    }
    Ok(wanted)
}
