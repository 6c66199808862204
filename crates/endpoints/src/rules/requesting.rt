//! A deed on an endpoint (RFC 3435, 2.3.2 to 2.3.9).
ghost use Rattle.std.specs.Prelude.{◌≡◌, IfOk, OnOk, OnErr};
ghost use Rattle.std.specs.List.{list_any};
ghost use Rattle.plain_machine.specs.Requesting.{refusal_by, connected_on, deed_on, shown_by};
ghost use Rattle.connections.specs.Places.{is_free};
ghost use Rattle.endpoints.specs.News.{shown_as};
ghost use Rattle.endpoints.specs.Telling.{MayTell, IsLine};
ghost use Rattle.endpoints.specs.Effects.{HasEffect};
ghost use Rattle.endpoints.specs.Undoing.{IsUndoneByItsOwner};

use crate::rules::connecting::{News, connect, connections_refuse};
use crate::rules::context::Context;
use crate::rules::notifying::tell;
use crate::rules::posting::{Occasion, redirect};
use command_forms::Deed;
use connections::Connection;
use mg_bytes::OutOfMemory;
use plain_machine::{Endpoint, OutMessage};

/// The code with which a line refuses a deed, by its connections first.
pub fn refusal_by(deed: &Deed, endpoint: &Endpoint) -> Option<u16>
    ensures { result ≡ refusal_by deed.now endpoint.now }
{
    if let Some(code) = connections_refuse(deed, endpoint) {
        return Some(code);
    }
    match &deed.request {
        Some(request) => endpoint.line.check(request),
        None => None,
    }
}

/// A deed on an endpoint, whose line doesn't refuse it: what there is to be told of its connections. What the line sends goes
/// behind what there is. An error is for want of memory only.
#[tactic(auto, unfolding(plain_machine::specs::Requesting::deed_on, plain_machine::specs::Notifying::noted))]
pub fn deed_on(
    context: Context<'_>,
    occasion: Occasion,
    endpoint: &mut Endpoint,
    deed: &Deed,
    sent: &mut Vec<OutMessage>,
) -> Result<News, OutOfMemory>
    requires line { IsLine occasion.line }
    requires may { MayTell context.setup.now occasion.moment }
    ensures turn { OnOk result (HasEffect (deed_on context.entry.setup.now deed.now occasion.moment occasion.line
        endpoint.old) endpoint.new sent.old.items sent.new.items) }
    ensures news { IfOk result (λ news. shown_as news ≡ shown_by (connected_on deed.now endpoint.old)) }
    ensures err { OnErr result (IsUndoneByItsOwner sent.old.items sent.new.items) }
{
    let notice = match &deed.request {
        Some(request) => endpoint.line.request(request, occasion.moment)?,
        None => None,
    };
    let news = connect(deed, endpoint);
    redirect(&mut endpoint.post, deed.entity);
    tell(context, occasion, endpoint, notice, sent)?;
    Ok(news)
}

fn is_free(held: &Option<Connection>) -> bool
    ensures { result ≡ is_free held.now }
{
    held.is_none()
}

/// Whether an endpoint has a place for one more connection.
pub fn has_place(endpoint: &Endpoint) -> bool
    ensures { result ≡ list_any is_free endpoint.now.connections.places }
{
    let places = endpoint.connections.list();
    places.iter().any(|held| is_free(held))
}
