//! What a deed does to the connections of a line, and what its answer tells of them (RFC 3435, 2.3.5 to 2.3.9).
ghost use Rattle.std.specs.Prelude.{◌≡◌, true, codes, IfOk};
ghost use Rattle.std.specs.List.{list_all};
ghost use Rattle.std.specs.Result.{result_err};
ghost use Rattle.mgcp_text.specs.Writing.{is_writable_param, is_writable_body};
ghost use Rattle.sdp_subset.specs.Writing.{session_text};
ghost use Rattle.connections.specs.Standing.{created, modified, deleted};
ghost use Rattle.connections.specs.Planning.{planned};
ghost use Rattle.plain_machine.specs.Connecting.{id_param, counts_param, created_shown, modified_shown, deleted_shown};
ghost use Rattle.plain_machine.specs.Connecting.{showing, showing_what, connected, done_code};
ghost use Rattle.plain_machine.specs.Requesting.{encoding_with, connected_on, with_connections, shown_by, answer_with};
ghost use Rattle.endpoints.specs.News.{shown_as};

use crate::rules::context::Context;
use command_forms::{ConnectionDeed, Deed};
use connections::{
    Change, Connections, Created, Creation, Deletion, Encoding, Plan, Planned, write_number,
};
use mg_bytes::{Identifier, OutOfMemory, ReturnCode, Text};
use mgcp_text::{AnswerContent, Bytes, Param, Params};
use plain_machine::Endpoint;
use sdp_subset::{Session, write_sdp};

/// What there is to be told of the connections of a line.
#[derive(Drop)]
pub enum News {
    /// Nothing.
    Nothing,
    /// One was created.
    Began(Created),
    /// One was modified, and its local description is now this.
    Changed(Session),
    /// One was deleted by its identifier.
    Counted,
}

// What becomes of them where one is created.
fn created(
    encoding: Encoding,
    creation: &Creation,
    connections: &Connections,
) -> Result<Planned<News>, u16>
    ensures { showing shown_as (planned result connections.now)
        ≡ showing created_shown (created encoding creation.now connections.now) }
{
    let Planned { plan, answer } = connections.plan_creation(encoding, creation)?;
    Ok(Planned {
        plan,
        answer: News::Began(answer),
    })
}

// What is told of a connection that was modified.
fn news_of(shown: Option<Session>) -> News
    ensures { shown_as result ≡ modified_shown shown }
{
    match shown {
        None => News::Nothing,
        Some(description) => News::Changed(description),
    }
}

// Where one is modified.
fn modified(
    encoding: Encoding,
    call: &Identifier,
    id: &Identifier,
    change: &Change,
    connections: &Connections,
) -> Result<Planned<News>, u16>
    ensures { showing shown_as (planned result connections.now)
        ≡ showing modified_shown (modified encoding call.now id.now change.now connections.now) }
{
    let Planned { plan, answer } = connections.plan_change(encoding, call, id, change)?;
    Ok(Planned {
        plan,
        answer: news_of(answer),
    })
}

// What is told of connections that were deleted.
fn counted(deletion: &Deletion) -> News
    ensures { shown_as result ≡ deleted_shown deletion.now }
{
    match deletion {
        Deletion::All => News::Nothing,
        Deletion::OfCall(_) => News::Nothing,
        Deletion::One(_, _) => News::Counted,
    }
}

// Where some are deleted.
fn deleted(deletion: &Deletion, connections: &Connections) -> Result<Planned<News>, u16>
    ensures { showing shown_as (planned result connections.now)
        ≡ showing_what (deleted_shown deletion.now) (deleted deletion.now connections.now) }
{
    let plan = connections.plan_deletion(deletion)?;
    Ok(Planned {
        plan,
        answer: counted(deletion),
    })
}

// The encoding that an endpoint has for a deed: one that is given counts already.
fn encoding_with(deed: &Deed, endpoint: &Endpoint) -> Encoding
    ensures { result ≡ encoding_with deed.now endpoint.now }
{
    match deed.encoding {
        Some(encoding) => encoding,
        None => endpoint.encoding,
    }
}

// What becomes of connections by a deed, and what there is to be told of them; or the code with which they refuse it.
#[tactic(auto, unfolding(plain_machine::specs::Connecting::connected))]
fn connected(
    deed: &ConnectionDeed,
    encoding: Encoding,
    connections: &Connections,
) -> Result<Planned<News>, u16>
    ensures { showing shown_as (planned result connections.now) ≡ connected deed.now encoding connections.now }
{
    match deed {
        ConnectionDeed::Keep => Ok(Planned {
            plan: Plan::Stay,
            answer: News::Nothing,
        }),
        ConnectionDeed::Create(creation) => created(encoding, creation, connections),
        ConnectionDeed::Modify { call, id, change } => {
            modified(encoding, call, id, change, connections)
        }
        ConnectionDeed::Delete(deletion) => deleted(deletion, connections),
    }
}

/// The code with which the connections of an endpoint refuse a deed. It takes no memory.
pub(crate) fn connections_refuse(deed: &Deed, endpoint: &Endpoint) -> Option<u16>
    ensures { result ≡ result_err (connected_on deed.now endpoint.now) }
{
    let encoding = encoding_with(deed, endpoint);
    match connected(&deed.connections, encoding, &endpoint.connections) {
        Ok(_) => None,
        Err(code) => Some(code),
    }
}

/// A deed on the connections of an endpoint, with the encoding that is given: what there is to be told of them. What they
/// refuse leaves them as they are. It takes no memory.
pub(crate) fn connect(deed: &Deed, endpoint: &mut Endpoint) -> News
    ensures endpoint { endpoint.new ≡ with_connections deed.now endpoint.old }
    ensures news { shown_as result ≡ shown_by (connected_on deed.now endpoint.old) }
{
    let encoding = encoding_with(deed, endpoint);
    let news = match connected(&deed.connections, encoding, &endpoint.connections) {
        Ok(Planned { plan, answer }) => {
            endpoint.connections.commit(plan);
            answer
        }
        Err(_) => News::Nothing,
    };
    endpoint.encoding = encoding;
    news
}

// The identifier of a connection (RFC 3435, 2.3.5).
fn id_param(context: Context<'_>, number: u32) -> Result<Param<'static>, OutOfMemory>
    ensures value { IfOk result (λ param. param ≡ id_param number) }
    ensures writable { IfOk result (λ param. is_writable_param param ≡ true) }
{
    let mut id = Vec::new(context.alloc);
    write_number(context.alloc, &mut id, number)?;
    Ok(Param {
        code: Bytes::of(b"I"),
        value: Bytes::owned(Text::of(id)),
    })
}

// The counts of the packets of a connection (RFC 3435, 2.3.7): this gateway has no media.
#[tactic(auto, unfolding(mg_bytes::specs::Blanks::trimmed, mg_bytes::specs::Blanks::trimmed_end))]
fn counts_param() -> Param<'static>
    ensures value { result ≡ counts_param }
    ensures writable { is_writable_param result ≡ true }
{
    Param {
        code: Bytes::of(b"P"),
        value: Bytes::of(b"PS=0, OS=0, PR=0, OR=0, PL=0, JI=0, LA=0"),
    }
}

fn params_of(context: Context<'_>, news: &News) -> Result<Params<'static>, OutOfMemory>
    ensures value { IfOk result (λ params. params ≡ (shown_as news.now).params) }
    ensures writable { IfOk result (λ params. list_all is_writable_param params ≡ true) }
{
    let mut params: Params<'static> = Params::new(context.alloc);
    match news {
        News::Nothing => {}
        News::Began(created) => params.push(id_param(context, created.number)?)?,
        News::Changed(_) => {}
        News::Counted => params.push(counts_param())?,
    }
    Ok(params)
}

// The text of a description.
fn text_of(context: Context<'_>, description: &Session) -> Result<Bytes<'static>, OutOfMemory>
    ensures value { IfOk result (λ text. text ≡ session_text description.now) }
    ensures writable { IfOk result (λ text. is_writable_body text ≡ true) }
{
    let text = write_sdp(context.alloc, description)?;
    Ok(Bytes::owned(text))
}

#[tactic(auto, unfolding(mgcp_text::specs::Writing::is_writable_body))]
fn body_of(context: Context<'_>, news: &News) -> Result<Bytes<'static>, OutOfMemory>
    ensures value { IfOk result (λ body. body ≡ (shown_as news.now).body) }
    ensures writable { IfOk result (λ body. is_writable_body body ≡ true) }
{
    match news {
        News::Nothing => Ok(Bytes::of(b"")),
        News::Began(created) => text_of(context, &created.description),
        News::Changed(description) => text_of(context, description),
        News::Counted => Ok(Bytes::of(b"")),
    }
}

// The return code of a deed that is done (RFC 3435, 2.4).
fn done_code(deed: &ConnectionDeed) -> u16
    ensures { result ≡ done_code deed.now }
{
    match deed {
        ConnectionDeed::Keep => ReturnCode::Executed.number(),
        ConnectionDeed::Create(_) => ReturnCode::Executed.number(),
        ConnectionDeed::Modify { .. } => ReturnCode::Executed.number(),
        ConnectionDeed::Delete(_) => ReturnCode::ConnectionDeleted.number(),
    }
}

/// The answer to a deed that is done, with what there is to be told of connections and then these parameters. An error is
/// for want of memory only.
pub fn answer_with(
    context: Context<'_>,
    more: Params<'static>,
    deed: &Deed,
    news: &News,
) -> Result<AnswerContent, OutOfMemory>
    requires { list_all is_writable_param more ≡ true }
    ensures { IfOk result (λ answer. answer ≡ answer_with more.entry deed.now (shown_as news.now)) }
{
    let mut params = params_of(context, news)?;
    let body = body_of(context, news)?;
    params.append(more)?;
    Ok(AnswerContent::with(done_code(&deed.connections), params, body))
}
