//! Names of endpoints: which gateway and which of its lines one means, and how lines are announced.
ghost use Rattle.std.specs.Prelude.{◌≡◌, ◌∷◌, ◌++◌, IfOk, codes};
ghost use Rattle.endpoint_names.specs.Name.{name_of};
ghost use Rattle.mgcp_text.specs.Message.{param_at};
ghost use Rattle.agent_gateways.specs.Hearing.{line_meant, method_of};
ghost use Rattle.agent_gateways.specs.Meaning.{has_domain};
ghost use Rattle.agent_gateways.specs.Steps.{is_meant, line_behind};

use crate::gateway::Gateway;
use endpoint_names::{Pattern, read_name};
use mg_bytes::{Draft, OutOfMemory, same_no_case};
use mgcp_text::{Param, param_at};
use std::alloc::Global;

/// The whole name of an endpoint.
pub(crate) fn whole_name(alloc: Global, local: &[u8], domain: &[u8]) -> Result<Vec<u8>, OutOfMemory>
    ensures { IfOk result (λ name. name.items ≡ local.now ++ 64 ∷ domain.now) }
{
    let mut name = Draft::new(alloc);
    name.put(local);
    name.put_byte(b'@');
    name.put(domain);
    name.end()
}

/// Whether a gateway has this domain.
pub(crate) fn has_domain(gateway: &Gateway, domain: &[u8]) -> bool
    ensures { result ≡ has_domain domain.now gateway.now }
{
    same_no_case(gateway.domain.as_bytes(), domain)
}

/// Whether a name means the line that is so many behind the first of its gateway.
pub(crate) fn is_meant(pattern: Pattern, before: u16) -> bool
    ensures { result ≡ is_meant pattern before }
{
    match pattern {
        Pattern::One(line) => usize::from(line) == usize::from(before) + 1,
        Pattern::All | Pattern::Any => true,
    }
}

/// The place of the line that is so many behind the first, which has this one.
pub(crate) fn line_behind(first: usize, before: u16) -> usize
    ensures { result ≡ line_behind first before }
{
    first.saturating_add(usize::from(before))
}

/// How lines are announced by these parameters.
pub(crate) fn method_of<'m>(params: &'m [Param<'_>]) -> &'m [u8]
    ensures { result.now ≡ method_of (param_at (codes "RM") params.now) }
{
    match param_at(b"RM", params) {
        Some(param) => param.value.as_slice(),
        None => b"restart",
    }
}

/// The place of the line that a name means of a gateway with this domain and so many lines, of which the first has this place; if it
/// means one.
pub(crate) fn line_meant(name: &[u8], domain: &[u8], lines: u16, first: usize) -> Option<usize>
    ensures { result ≡ line_meant first (name_of name.now domain.now lines) }
{
    match read_name(name, domain, lines) {
        Ok(Pattern::One(line)) => Some(line_behind(first, line.saturating_sub(1))),
        Ok(Pattern::All | Pattern::Any) | Err(_) => None,
    }
}
