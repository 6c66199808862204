//! What is typed for a gateway is issued.
ghost use Rattle.std.specs.Prelude.{◌≡◌};
ghost use Rattle.agent_gateways.specs.Steps.{Sends};
ghost use Rattle.agent_gateways.specs.TypedCommands.{typed_fault, IssuesNamed};

use crate::gateway::Gateway;
use crate::naming::whole_name;
use crate::typed::TypedFault;
use call_agent::{IssueFault, Issued};
use std::alloc::Global;

// What an agent's fault is to who typed.
fn typed_fault(fault: IssueFault) -> TypedFault
    ensures { result ≡ typed_fault fault }
{
    match fault {
        IssueFault::OutOfMemory => TypedFault::OutOfMemory,
        IssueFault::NoMoreIds => TypedFault::NoMoreIds,
        IssueFault::BadCommand => TypedFault::BadCommand,
    }
}

/// Issues a command that was typed for a gateway, under a name without its domain.
pub(crate) fn issue_named(
    alloc: Global,
    gateway: &mut Gateway,
    verb: &[u8],
    local: &[u8],
    rest: &[u8],
) -> Result<Issued, TypedFault>
    ensures issues { IssuesNamed verb.now local.now rest.now result gateway.old gateway.new }
    ensures sends { Sends gateway.old gateway.new }
{
    let Ok(name) = whole_name(alloc, local, gateway.domain.as_bytes()) else {
        return Err(TypedFault::OutOfMemory);
    };
    match gateway.issue(alloc, verb, name.as_slice(), rest, None) {
        Ok(issued) => Ok(issued),
        Err(fault) => Err(typed_fault(fault)),
    }
}
