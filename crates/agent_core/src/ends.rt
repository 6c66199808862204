//! What the ends of a world send, and how they take what happens.
ghost use Rattle.std.specs.Prelude.{◌≡◌, ◌∷◌, [], ◌++◌, List, map, ⊤, IfOk, IfErr, OnOk, OnErr};
ghost use Rattle.std.specs.Result.{result_err};
ghost use Rattle.plain_machine.specs.Event.{GatewayEvent, event_of};
ghost use Rattle.plain_machine.specs.Refusing.{refusal_of};
ghost use Rattle.plain_machine.specs.Lists.{plain};
ghost use Rattle.gateway_core.specs.Stands.{Stands, Took};
ghost use Rattle.agent_core.specs.declared.packet.End.TheVariants.{GatewayEnd, AgentEnd};
ghost use Rattle.endpoint_names.specs.Route.{at};
ghost use Rattle.call_agent.specs.Issuing.{issue_refusal};
ghost use Rattle.call_agent.specs.Hearing.{AgentEvent, issues, hears, hearing_refusal, plain_agent};
ghost use Rattle.agent_core.specs.World.{gateway_address, posted_as, is_among};
ghost use Rattle.call_agent.specs.AgentStands.{AgentStands, AgentTook, AgentStays};
ghost use Rattle.agent_core.specs.WorldStands.{Leaves};
ghost use Rattle.agent_core.specs.WorldWork.{EndStops, IssueStops};

use crate::packet::{End, Packet, Posted};
use crate::step::{StepRefusal, of_event, of_issue};
use call_agent::{Agent, Issued};
use endpoint_names::Route;
use gateway_core::{Event, Gateway, OutDatagram, Outputs};
use mg_bytes::OutOfMemory;
use plain_machine::Setup;
use std::alloc::Global;
use std::net::SocketAddrV4;
use transmission::same_address;

// The port of gateways (RFC 3435, 3.5).
const GATEWAY_PORT: u16 = 2427;

/// The address of a gateway: its media address, with the port of gateways.
pub(crate) fn gateway_address(setup: &Setup) -> SocketAddrV4
    ensures { result ≡ gateway_address setup.now }
{
    SocketAddrV4::new(setup.media_address, GATEWAY_PORT)
}

/// Whether an address is one of a route.
#[tactic(auto, using(crate::proofs::EndLemmas::or_nothing))]
pub(crate) fn is_among(route: Route<SocketAddrV4>, address: SocketAddrV4) -> bool
    ensures { result ≡ is_among route address }
{
    match route {
        Route::One(a) => same_address(address, a),
        Route::Two(a, b) => same_address(address, a) || same_address(address, b),
        Route::Three(a, b, c) => {
            same_address(address, a) || same_address(address, b) || same_address(address, c)
        }
        Route::Four(a, b, c, d) => {
            same_address(address, a)
                || same_address(address, b)
                || same_address(address, c)
                || same_address(address, d)
        }
    }
}

/// What an end sends.
#[derive(Drop)]
pub(crate) struct Sent {
    pub end: End,
    pub sender: SocketAddrV4,
    pub outputs: Outputs,
}

/// What an end sends is posted, behind all that was.
pub(crate) fn post(posted: &mut Vec<Posted>, sent: Sent) -> Result<(), OutOfMemory>
    ensures { OnOk result (posted.new.items ≡ posted.old.items ++ map (posted_as sent.end sent.sender) sent.outputs) }
{
    let Sent {
        end,
        sender,
        outputs,
    } = sent;
    for out in outputs.into_items() {
        let OutDatagram { to, moment, bytes } = out;
        let packet = Packet {
            moment,
            sender,
            to,
            bytes,
        };
        posted.push(Posted { end, packet })?;
    }
    Ok(())
}

/// An event comes to the gateway: what that sends.
pub(crate) fn at_gateway(gateway: &mut Gateway, event: Event<'_>) -> Result<Sent, StepRefusal>
    ensures ok { IfOk result (λ sent. Took gateway.old (event_of event.entry ∷ []) gateway.new [] sent.outputs) }
    ensures from { IfOk result (λ sent. (sent.end ≡ GatewayEnd) × (sent.sender ≡ gateway_address gateway.old.setup)) }
    ensures err { OnErr result (Took gateway.old [] gateway.new [] []) }
    ensures ends { (before : List GatewayEvent) → Stands gateway.old before → EndStops
        (refusal_of (plain gateway.old.setup before) (event_of event.entry)) (result_err result) }
{
    let sender = gateway_address(gateway.setup());
    match gateway.step(event) {
        Ok(outputs) => Ok(Sent {
            end: End::GatewayEnd,
            sender,
            outputs,
        }),
        Err(refusal) => Err(of_event(refusal)),
    }
}

/// An event comes to the agent: what that sends.
pub(crate) fn at_agent(agent: &mut Agent, event: Event<'_>) -> Result<Sent, StepRefusal>
    ensures ok { IfOk result (λ sent. AgentTook agent.old (hears (event_of event.entry)) agent.new sent.outputs) }
    ensures from { IfOk result (λ sent. (sent.end ≡ AgentEnd) × (sent.sender ≡ at agent.old.setup.own 0)) }
    ensures err { OnErr result (AgentStays agent.old agent.new) }
    ensures ends { (before : List AgentEvent) → AgentStands agent.old before → EndStops
        (hearing_refusal (plain_agent agent.old.setup before) (event_of event.entry)) (result_err result) }
{
    let sender = agent.own().at(0);
    match agent.step(event) {
        Ok(outputs) => Ok(Sent {
            end: End::AgentEnd,
            sender,
            outputs,
        }),
        Err(refusal) => Err(of_event(refusal)),
    }
}

// The outputs that this datagram is.
fn one(alloc: Global, datagram: OutDatagram) -> Result<Outputs, OutOfMemory>
    ensures { IfOk result (λ outputs. outputs ≡ datagram ∷ []) }
{
    let mut outputs = Outputs::new(alloc);
    outputs.push(datagram)?;
    Ok(outputs)
}

/// The agent issues a command: what it sends.
pub(crate) fn issued_by(
    alloc: Global,
    agent: &mut Agent,
    verb: &[u8],
    name: &[u8],
    rest: &[u8],
) -> Result<Sent, StepRefusal>
    ensures ok { IfOk result (λ sent. AgentTook agent.old (issues verb.now name.now rest.now) agent.new sent.outputs) }
    ensures from { IfOk result (λ sent. (sent.end ≡ AgentEnd) × (sent.sender ≡ at agent.old.setup.own 0)) }
    ensures ends { (before : List AgentEvent) → AgentStands agent.old before → IssueStops
        (issue_refusal (plain_agent agent.old.setup before) verb.now name.now rest.now) (result_err result) }
    ensures err { IfErr result (λ refusal. Leaves refusal ⊤ (AgentStays agent.old agent.new)) }
{
    let sender = agent.own().at(0);
    let Issued { datagram, .. } = match agent.issue(verb, name, rest) {
        Ok(issued) => issued,
        Err(fault) => return Err(of_issue(fault)),
    };
    Ok(Sent {
        end: End::AgentEnd,
        sender,
        outputs: one(alloc, datagram)?,
    })
}
