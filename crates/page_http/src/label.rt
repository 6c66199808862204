//! What a gateway tells of a message, as JSON.
ghost use Rattle.std.specs.Prelude.{◌≡◌};
ghost use Rattle.serde_json.specs.Data.{Members};
ghost use Rattle.page_http.specs.Labelling.{message_word as word_of_message, with_said};
ghost use Rattle.page_http.specs.Objects.{Holds};

use crate::members::Object;
use crate::told::{Told, list_value};
use page_state::{MessageKind, MessageLabel};
use serde_json::Value;
use std::alloc::{AllocError, Global};

#[tactic(auto, unfolding(crate::specs::Labelling::message_word))]
fn message_word(kind: MessageKind) -> &'static str
    ensures { result.now ≡ word_of_message kind }
{
    match kind {
        MessageKind::Unreadable => "unreadable",
        MessageKind::New => "new",
        MessageKind::Repeat => "repeat",
        MessageKind::Confirmed => "confirmed",
        MessageKind::Lost => "lost",
        MessageKind::Response => "response",
        MessageKind::Answer => "answer",
        MessageKind::Again => "again",
        MessageKind::Command => "command",
        MessageKind::Resent => "resent",
        MessageKind::Acknowledgement => "acknowledgement",
        MessageKind::GivenUp => "given up",
    }
}

impl Told for MessageLabel {
    ghost use Rattle.page_http.specs.Labelling.{label_data};

    ghost told = { label_data };

    fn value(&self, alloc: Global) -> Result<Value, AllocError> {
        let mut object = Object::new(alloc);
        object.put_text("what", message_word(self.kind));
        object.put_maybe("line", self.line);
        object.put_maybe("id", self.id);
        object.put_maybe("code", self.code);
        object.put_maybe("send", self.send);
        object.end()
    }
}

/// Puts what is told of messages, where something is.
pub(crate) fn put_said(alloc: Global, object: &mut Object, said: &[MessageLabel])
    ensures { (was : Members) → Holds object.old was → Holds object.new (with_said said.now was) }
{
    match said {
        [] => {}
        [_, ..] => object.put_made("said", list_value(alloc, said)),
    }
}
