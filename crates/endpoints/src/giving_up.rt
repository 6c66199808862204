//! What is given up: a command of the gateway's own that nobody answered (RFC 3435, 4.3).
ghost use Rattle.std.specs.Prelude.{◌≡◌, ◌++◌, [], OnOk};
ghost use Rattle.std.specs.List.{cons_option};
ghost use Rattle.plain_machine.specs.GivingUp.{given_up_if, given_up_under, given_up_at};

use crate::store::Store;
use mg_bytes::OutOfMemory;
use plain_machine::{GivenUpCommand, Post, PostOwner, own_verb, owner_of};
use retransmission::{Pending, Repeat};
use timers::{DueItem, DueKind};

// The command in flight of this line, where it is given up at this moment.
fn given_up_if(line: u16, moment: u64, message: &Pending) -> Option<GivenUpCommand>
    ensures { result ≡ given_up_if line moment message.now }
{
    match message.next(moment) {
        Repeat::Sent => None,
        Repeat::GivenUp => Some(GivenUpCommand {
            line,
            id: message.id(),
            verb: own_verb(message.text()),
            moment,
        }),
    }
}

// What is given up under a post where this falls due.
fn given_up_under(item: DueItem, post: &Post) -> Option<GivenUpCommand>
    ensures { result ≡ given_up_under item.kind item.line item.moment post.now }
{
    match item.kind {
        DueKind::OfLine(_) => None,
        DueKind::Announce => None,
        DueKind::Resend => {
            let Some(message) = &post.pending else {
                return None;
            };
            given_up_if(item.line, item.moment, message)
        }
    }
}

/// What is given up where this falls due. It takes no memory.
pub(crate) fn given_up_at(store: &Store, item: DueItem) -> Option<GivenUpCommand>
    ensures { result ≡ given_up_at store.now.endpoints item }
{
    match owner_of(item.line) {
        PostOwner::Gateway => given_up_under(item, store.own()),
        PostOwner::Line(line) => {
            let Some(endpoint) = store.endpoint(line) else {
                return None;
            };
            given_up_under(item, &endpoint.post)
        }
    }
}

/// It is noted behind what was given up before.
pub(crate) fn note(
    given_up: &mut Vec<GivenUpCommand>,
    found: Option<GivenUpCommand>,
) -> Result<(), OutOfMemory>
    ensures { OnOk result (given_up.new.items ≡ given_up.old.items ++ cons_option found []) }
{
    if let Some(command) = found {
        given_up.push(command)?;
    }
    Ok(())
}
