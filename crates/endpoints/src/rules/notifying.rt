//! A line tells what it has to tell: a notification goes out, and is in flight from then on (RFC 3435, 2.3.4 and 3.5).
ghost use Rattle.std.specs.Prelude.{◌≡◌, ◌∷◌, [], true, false, codes, IsTrue, IfOk, OnOk, OnErr};
ghost use Rattle.std.specs.List.{list_all, list_any};
ghost use Rattle.mg_bytes.specs.Blanks.{is_blank};
ghost use Rattle.mg_bytes.specs.Lines.{is_line_feed};
ghost use Rattle.mgcp_text.specs.Parameter.{is_code};
ghost use Rattle.mgcp_text.specs.Writing.{is_writable_param, is_writable};
ghost use Rattle.endpoint_names.specs.Table.{is_domain};
ghost use Rattle.packages.specs.Observed.{observed_text};
ghost use Rattle.plain_machine.specs.Posting.{id_on, with_command};
ghost use Rattle.plain_machine.specs.Notifying.{notification, with_notice};
ghost use Rattle.endpoints.specs.Telling.{MayTell, IsLine};
ghost use Rattle.endpoints.specs.Effects.{HasEffect};
ghost use Rattle.endpoints.specs.Undoing.{IsUndoneByItsOwner};

use crate::rules::context::Context;
use crate::rules::posting::{Occasion, begin};
use endpoint_names::{Pattern, write_name};
use mg_bytes::OutOfMemory;
use mg_line::Notice;
use mgcp_text::{Bytes, Message, Param, Params, TransactionId, Verb};
use packages::write_observed;
use plain_machine::{Endpoint, OutMessage, Post};

// A parameter whose value is one word.
fn word_param<'v>(code: &'static [u8], value: Bytes<'v>) -> Param<'v>
    requires code { is_code code.now ≡ true }
    requires no_blanks { list_any is_blank value ≡ false }
    requires one_line { list_any is_line_feed value ≡ false }
    ensures value { result ≡ record { code = code.now; value = value.entry } }
    ensures writable { is_writable_param result ≡ true }
{
    Param {
        code: Bytes::of(code),
        value,
    }
}

// X and O of a notification (RFC 3435, 2.3.4).
fn notice_params<'n>(context: Context<'_>, notice: &'n Notice) -> Result<Params<'n>, OutOfMemory>
    ensures value { IfOk result (λ params. params ≡ (record { code = codes "X"; value = notice.now.identifier })
        ∷ (record { code = codes "O"; value = observed_text notice.now.observed }) ∷ []) }
    ensures writable { IfOk result (λ params. list_all is_writable_param params ≡ true) }
{
    let observed = write_observed(context.alloc, notice.observed())?;
    let mut params: Params<'n> = Params::new(context.alloc);
    params.push(word_param(b"X", Bytes::of(notice.identifier().as_slice())))?;
    params.push(word_param(b"O", Bytes::owned(observed)))?;
    Ok(params)
}

// The notification of a line under this id.
#[tactic(auto, unfolding(plain_machine::specs::Notifying::notification))]
fn notification<'n>(
    context: Context<'_>,
    line: u16,
    id: TransactionId,
    notice: &'n Notice,
) -> Result<Message<'n>, OutOfMemory>
    requires domain { is_domain context.setup.now.names.domain ≡ true }
    ensures value { IfOk result (λ said. said ≡ notification context.entry.setup.now line id notice.now) }
    ensures writable { IfOk result (λ said. IsTrue (is_writable said)) }
{
    let domain = context.setup.names.domain.as_bytes();
    let name = write_name(context.alloc, Pattern::One(line), domain)?;
    Ok(Message::Command {
        verb: Verb::Ntfy,
        id,
        name: Bytes::owned(name),
        params: notice_params(context, notice)?,
        body: Bytes::of(b""),
    })
}

// A notification begins under a line's post.
fn notified(
    context: Context<'_>,
    occasion: Occasion,
    post: &mut Post,
    notice: &Notice,
    out: &mut Vec<OutMessage>,
) -> Result<(), OutOfMemory>
    requires line { IsLine occasion.line }
    requires may { MayTell context.setup.now occasion.moment }
    ensures turn { OnOk result (HasEffect (with_command occasion.line occasion.moment post.old
        (notification context.entry.setup.now occasion.line (id_on occasion.line post.old.number) notice.now))
        post.new out.old.items out.new.items) }
    ensures err { OnErr result (IsUndoneByItsOwner out.old.items out.new.items) }
{
    let id = post.number.id_on(occasion.line);
    let said = notification(context, occasion.line, id, notice)?;
    begin(context, occasion, post, &said, out)
}

/// An endpoint tells what its line has to tell: its notification begins, and goes out behind what there is.
pub(crate) fn tell(
    context: Context<'_>,
    occasion: Occasion,
    endpoint: &mut Endpoint,
    notice: Option<Notice>,
    out: &mut Vec<OutMessage>,
) -> Result<(), OutOfMemory>
    requires line { IsLine occasion.line }
    requires may { MayTell context.setup.now occasion.moment }
    ensures turn { OnOk result (HasEffect (with_notice context.entry.setup.now occasion.line occasion.moment endpoint.old notice)
        endpoint.new out.old.items out.new.items) }
    ensures err { OnErr result (IsUndoneByItsOwner out.old.items out.new.items) }
{
    match notice {
        None => Ok(()),
        Some(notice) => notified(context, occasion, &mut endpoint.post, &notice, out),
    }
}
