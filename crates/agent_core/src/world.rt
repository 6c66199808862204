//! A world: a gateway and an agent with one clock, and a bad network between them.
ghost use Rattle.std.specs.Prelude.{◌≡◌, ◌<◌, ◌++◌, length, List, map, ⊤, IfErr, OnOk, true, option_map, option_copied, slice_get, Some};
ghost use Rattle.std.specs.Result.{result_err};
ghost use Rattle.plain_machine.specs.Setup.{setup_from, setup_of};
ghost use Rattle.small_rules.specs.Numbering.{firsts};
ghost use Rattle.agent_core.specs.declared.packet.End.TheVariants.{GatewayEnd, AgentEnd};
ghost use Rattle.agent_core.specs.declared.step.StepRefusal.TheVariants.{OutOfMemory};
ghost use Rattle.agent_core.specs.World.{posted_as, WorldStep, issuing, dialling, ticking, delivering, plain_world};
ghost use Rattle.agent_core.specs.WorldStands.{WorldStands, WorldTook, WorldStoppedAt, WorldOpens, Leaves, step_of};
ghost use Rattle.agent_core.specs.WorldWork.{Goes, Remains, Ends, EndStops, HandsOver, WantsMemory};
ghost use Rattle.agent_core.specs.WorldTicks.{GatewayTicks, AgentTicks};
ghost use Rattle.agent_core.specs.Delivering.{sender_at};
ghost use Rattle.gateway_core.specs.Stands.{Stands};
ghost use Rattle.plain_machine.specs.Event.{GatewayEvent, tick};
ghost use Rattle.plain_machine.specs.Refusing.{refusal_of};
ghost use Rattle.plain_machine.specs.Lists.{plain};

use crate::ends::{Sent, at_agent, at_gateway, gateway_address, is_among, issued_by, post};
use crate::packet::{End, Packet, Posted};
use crate::step::{Step, StepRefusal, WorldStopped};
use call_agent::Agent;
use gateway_core::{Config, ConfigFault, Event, Gateway};
use mg_bytes::Text;
use mg_line::Act;
use std::alloc::Global;
use std::marker::Model;
use transmission::same_address;

// A packet is handed over while it is so old at most, in ms.
const OLDEST_PACKET: u64 = 10_000;

/// A gateway and a call agent with one clock, and all packets that they ever sent each other. The network may lose packets,
/// hand them over late, out of order and more than once (RFC 3435, 3.5).
///
/// A contract sees both ends, the packets, and whether the world is spent; `WorldStands` says which lists of steps it stands
/// for. Where memory was refused it is spent: it stands for none, and takes no step any more.
#[derive(Drop)]
pub struct World {
    alloc: Global,
    gateway: Gateway,
    agent: Agent,
    posted: Vec<Posted>,
    spent: bool,
}

impl Model for World {
    ghost use Rattle.agent_core.specs.WorldStands.{WorldState};

    ghost Value = { WorldState };

    ghost view = { λ w. record { gateway = w.gateway; agent = w.agent; posted = w.posted.items; spent = w.spent } };
}

// What an end sends is posted.
fn posted(posted: &mut Vec<Posted>, sent: Sent) -> Result<(), StepRefusal>
    ensures ok { OnOk result (posted.new.items ≡ posted.old.items ++ map (posted_as sent.end sent.sender) sent.outputs) }
    ensures err { IfErr result (λ refusal. refusal ≡ OutOfMemory) }
{
    match post(posted, sent) {
        Ok(()) => Ok(()),
        Err(_) => Err(StepRefusal::OutOfMemory),
    }
}

impl World {
    /// A world at moment 0: the gateway of this configuration, and the agent that it reports to, with all its addresses, whose
    /// ids begin with 1.
    ///
    /// The faults are those of `Gateway::new`, in their order.
    #[tactic(auto, unfolding(plain_machine::specs::Setup::setup_of))]
    pub fn new(alloc: Global, config: Config) -> Result<World, ConfigFault>
        ensures { WorldOpens (setup_of config) result }
    {
        World::starting_at(alloc, config, 0)
    }

    /// The same, but that the ids of the gateway's lines begin with this number, below `FIRSTS`, and its own one higher, as
    /// those of `Gateway::starting_at`.
    pub fn starting_at(alloc: Global, config: Config, first: u32) -> Result<World, ConfigFault>
        requires { first < firsts }
        ensures { WorldOpens (setup_from config first) result }
    {
        let gateway = Gateway::starting_at(alloc, config, first)?;
        let setup = gateway.setup();
        let domain = Text::of(Vec::from_slice(alloc, setup.names.domain.as_bytes())?);
        let own = setup.agent.route;
        let lines = setup.names.lines;
        let agent = Agent::new(alloc, own, gateway_address(setup), domain, lines, 1)?;
        Ok(World {
            alloc,
            gateway,
            agent,
            posted: Vec::new(alloc),
            spent: false,
        })
    }

    /// The gateway.
    pub fn gateway(&self) -> &Gateway
        ensures { result.now ≡ self.now.gateway }
    {
        &self.gateway
    }

    /// The call agent.
    pub fn agent(&self) -> &Agent
        ensures { result.now ≡ self.now.agent }
    {
        &self.agent
    }

    /// The packet with this number, counted from 0. This takes no memory.
    pub fn packet(&self, number: usize) -> Option<&Packet>
        ensures { (steps : List WorldStep) → WorldStands self.now steps → option_copied result
            ≡ option_map (λ post. post.packet) (slice_get (plain_world self.now.gateway.setup steps).posted number) }
    {
        packet_at(&self.posted, number)
    }

    // The agent issues a command.
    fn issue(&mut self, verb: &[u8], name: &[u8], rest: &[u8]) -> Result<(), StepRefusal>
        ensures ok { OnOk result (Goes self.old (issuing verb.now name.now rest.now) self.new) }
        ensures err { IfErr result (λ refusal. Leaves refusal ⊤ (Remains self.old self.new)) }
        ensures ends { Ends self.old (issuing verb.now name.now rest.now) (result_err result) }
    {
        match issued_by(self.alloc, &mut self.agent, verb, name, rest) {
            Ok(sent) => posted(&mut self.posted, sent),
            Err(refusal) => Err(refusal),
        }
    }

    // Something is done at a telephone.
    fn dial(&mut self, line: u16, act: Act) -> Result<(), StepRefusal>
        ensures ok { OnOk result (Goes self.old (dialling line act) self.new) }
        ensures err { IfErr result (λ refusal. Leaves refusal ⊤ (Remains self.old self.new)) }
        ensures ends { Ends self.old (dialling line act) (result_err result) }
    {
        match at_gateway(&mut self.gateway, Event::Phone { line, act }) {
            Ok(sent) => posted(&mut self.posted, sent),
            Err(refusal) => Err(refusal),
        }
    }

    // The gateway's clock goes on.
    fn tick_gateway(&mut self, moment: u64) -> Result<(), StepRefusal>
        ensures ok { OnOk result (GatewayTicks self.old moment self.new) }
        ensures err { IfErr result (λ refusal. Leaves refusal ⊤ (Remains self.old self.new)) }
        ensures ends { (before : List GatewayEvent) → Stands self.old.gateway before → EndStops
            (refusal_of (plain self.old.gateway.setup before) (tick moment)) (result_err result) }
    {
        match at_gateway(&mut self.gateway, Event::Tick { moment }) {
            Ok(sent) => posted(&mut self.posted, sent),
            Err(refusal) => Err(refusal),
        }
    }

    // The agent's clock goes on, as far as the gateway's did.
    fn tick_agent(&mut self, moment: u64) -> Result<(), StepRefusal>
        ensures ok { OnOk result (AgentTicks self.old moment self.new) }
        ensures err { IfErr result (λ refusal. refusal ≡ OutOfMemory) }
    {
        match at_agent(&mut self.agent, Event::Tick { moment }) {
            Ok(sent) => posted(&mut self.posted, sent),
            Err(_) => Err(StepRefusal::OutOfMemory),
        }
    }

    // The clock goes on; the gateway is first, and its clock is the agent's too.
    fn tick(&mut self, moment: u64) -> Result<(), StepRefusal>
        ensures ok { OnOk result (Goes self.old (ticking moment) self.new) }
        ensures err { IfErr result (λ refusal. Leaves refusal ⊤ (Remains self.old self.new)) }
        ensures ends { Ends self.old (ticking moment) (result_err result) }
    {
        match self.tick_gateway(moment) {
            Ok(()) => self.tick_agent(moment),
            Err(refusal) => Err(refusal),
        }
    }

    // The packet with this number comes to the gateway, where that has its address.
    fn hand_to_gateway(&mut self, number: usize) -> Result<(), StepRefusal>
        requires { number < length self.old.posted }
        ensures ok { OnOk result (HandsOver self.old number AgentEnd self.new) }
        ensures err { IfErr result (λ refusal. Leaves refusal ⊤ (Remains self.old self.new)) }
        ensures ends { WantsMemory self.old (result_err result) }
    {
        let packet = &self.posted[number].packet;
        if !same_address(packet.to, gateway_address(self.gateway.setup())) {
            return Ok(());
        }
        let event = Event::Datagram {
            source: packet.sender,
            bytes: packet.bytes.as_bytes(),
        };
        match at_gateway(&mut self.gateway, event) {
            Ok(sent) => posted(&mut self.posted, sent),
            Err(refusal) => Err(refusal),
        }
    }

    // The packet with this number comes to the agent, where one of its addresses is the packet's.
    fn hand_to_agent(&mut self, number: usize) -> Result<(), StepRefusal>
        requires { number < length self.old.posted }
        ensures ok { OnOk result (HandsOver self.old number GatewayEnd self.new) }
        ensures err { IfErr result (λ refusal. Leaves refusal ⊤ (Remains self.old self.new)) }
        ensures ends { WantsMemory self.old (result_err result) }
    {
        let packet = &self.posted[number].packet;
        if !is_among(self.agent.own(), packet.to) {
            return Ok(());
        }
        let event = Event::Datagram {
            source: packet.sender,
            bytes: packet.bytes.as_bytes(),
        };
        match at_agent(&mut self.agent, event) {
            Ok(sent) => posted(&mut self.posted, sent),
            Err(refusal) => Err(refusal),
        }
    }

    // The packet with this number comes to the end that didn't send it.
    fn hand_over(&mut self, number: usize, sender: End) -> Result<(), StepRefusal>
        requires { number < length self.old.posted }
        ensures ok { OnOk result (HandsOver self.old number sender self.new) }
        ensures err { IfErr result (λ refusal. Leaves refusal ⊤ (Remains self.old self.new)) }
        ensures ends { WantsMemory self.old (result_err result) }
    {
        match sender {
            End::AgentEnd => self.hand_to_gateway(number),
            End::GatewayEnd => self.hand_to_agent(number),
        }
    }

    // A packet is handed over, where there is one with this number that isn't too old.
    fn deliver(&mut self, number: usize) -> Result<(), StepRefusal>
        ensures ok { OnOk result (Goes self.old (delivering number) self.new) }
        ensures err { IfErr result (λ refusal. Leaves refusal ⊤ (Remains self.old self.new)) }
        ensures ends { Ends self.old (delivering number) (result_err result) }
    {
        let now = self.gateway.now();
        match sender_at(&self.posted, number, now) {
            Ok(sender) => self.hand_over(number, sender),
            Err(refusal) => Err(refusal),
        }
    }

    // One step; after an error for want of memory nothing is said of the world.
    fn attempt(&mut self, step: Step<'_>) -> Result<(), StepRefusal>
        ensures ok { OnOk result (Goes self.old (step_of step.entry) self.new) }
        ensures err { IfErr result (λ refusal. Leaves refusal ⊤ (Remains self.old self.new)) }
        ensures ends { Ends self.old (step_of step.entry) (result_err result) }
    {
        match step {
            Step::Issue { verb, name, rest } => self.issue(verb, name, rest),
            Step::Dial { line, act } => self.dial(line, act),
            Step::Tick { moment } => self.tick(moment),
            Step::Deliver { packet } => self.deliver(packet),
        }
    }

    // One step; where memory is refused the world is spent.
    fn take(&mut self, step: Step<'_>) -> Result<(), StepRefusal>
        ensures ok { OnOk result (Goes self.old (step_of step.entry) self.new) }
        ensures err { IfErr result (λ refusal. Leaves refusal (self.new.spent ≡ true) (Remains self.old self.new)) }
        ensures ends { Ends self.old (step_of step.entry) (result_err result) }
    {
        match self.attempt(step) {
            Err(StepRefusal::OutOfMemory) => {
                self.spent = true;
                Err(StepRefusal::OutOfMemory)
            }
            other => other,
        }
    }
}

// Which end sent the packet with this number, where it isn't too old.
fn sender_at(posted: &[Posted], number: usize, now: u64) -> Result<End, StepRefusal>
    ensures { result ≡ sender_at posted.now number now }
{
    let Some(post) = posted.get(number) else {
        return Err(StepRefusal::NoSuchPacket);
    };
    if now.saturating_sub(post.packet.moment) > OLDEST_PACKET {
        return Err(StepRefusal::PacketTooOld);
    }
    Ok(post.end)
}

// The packet with this number.
fn packet_at(posted: &[Posted], number: usize) -> Option<&Packet>
    ensures { option_copied result ≡ option_map (λ post. post.packet) (slice_get posted.now number) }
{
    let post = posted.get(number)?;
    Some(&post.packet)
}

/// Steps in order, up to the first that is refused: the steps before it stand. A step changes nothing before its refusals 2 to
/// 9 were looked at; where memory is refused the world is spent, and a spent world stops at once, at place 0, as for want of
/// memory.
pub fn world_run(world: &mut World, steps: &[Step<'_>]) -> Result<(), WorldStopped>
    ensures ok { OnOk result (WorldTook world.old (map step_of steps.now) world.new) }
    ensures err { IfErr result (λ stopped. WorldStoppedAt world.old steps.now world.new stopped) }
    ensures spent { world.old.spent ≡ true → result_err result ≡ Some (record { place = 0; refusal = OutOfMemory }) }
{
    if world.spent {
        return Err(WorldStopped {
            place: 0,
            refusal: StepRefusal::OutOfMemory,
        });
    }
    for (place, step) in steps.iter().enumerate() {
        if let Err(refusal) = world.take(*step) {
            return Err(WorldStopped { place, refusal });
        }
    }
    Ok(())
}
