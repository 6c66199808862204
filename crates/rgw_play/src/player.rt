//! Plays steps at a gateway, and prints what they show.
ghost use Rattle.std.specs.Prelude.{◌≡◌, ◌≤◌, ◌∷◌, [], length, OnOk, replicate};
ghost use Rattle.plain_machine.specs.Event.{datagram, event_of};
ghost use Rattle.rgw_scripts.specs.Moves.{give, pass, ask, sends, refuses, moves_of_wait, moves_of, all_moves};

use gateway_core::{Event, Gateway, Outputs, Refusal};
use mg_bytes::OutOfMemory;
use rgw_scripts::{Link, ScriptStep, StepFault, put_datagrams, put_line, put_refusal, status_of};
use std::alloc::Global;
use std::net::SocketAddrV4;

/// Plays steps at a gateway and prints what they show. After an error it isn't used again.
#[derive(Drop)]
pub struct Player {
    alloc: Global,
    pub gateway: Gateway,
    /// What was printed.
    pub out: Vec<u8>,
    /// How many refusals were printed.
    pub refused: u64,
    ghost each_was_printed: { refused ≤ length out.items },
}

impl Player {
    ghost use Rattle.rgw_play.specs.Player.{Prints, Moved, Finishes};

    /// A player that has printed nothing yet.
    pub fn new(alloc: Global, gateway: Gateway) -> Player
        ensures gateway { result.gateway ≡ gateway }
        ensures text { result.out.items ≡ [] }
        ensures counted { result.refused ≡ 0 }
    {
        Player {
            alloc,
            gateway,
            out: Vec::new(alloc),
            refused: 0,
        }
    }

    // Carries what is sent to the call agent, and prints it.
    fn send<L: Link>(&mut self, link: &mut L, outputs: &Outputs) -> Result<(), StepFault<L::Fault>>
        ensures kept { OnOk result (self.new.gateway ≡ self.old.gateway) }
        ensures printed { OnOk result (Prints self.old (sends outputs.now ∷ []) self.new) }
    {
        put_datagrams(self.alloc, link, &mut self.out, outputs.as_slice())?;
        Ok(())
    }

    // Prints a refusal, and counts it.
    fn refuse(&mut self, refusal: Refusal) -> Result<(), OutOfMemory>
        ensures kept { OnOk result (self.new.gateway ≡ self.old.gateway) }
        ensures printed { OnOk result (Prints self.old (refuses refusal ∷ []) self.new) }
    {
        put_refusal(self.alloc, &mut self.out, refusal)?;
        self.refused += 1;
        Ok(())
    }

    // Carries what the gateway sends at an event to the call agent, and prints it; or prints why it refuses the event.
    fn finish<L: Link>(
        &mut self,
        link: &mut L,
        given: Result<Outputs, Refusal>,
    ) -> Result<(), StepFault<L::Fault>>
        ensures { OnOk result (Finishes given self.old self.new) }
    {
        match given {
            Ok(outputs) => self.send(link, &outputs),
            Err(Refusal::OutOfMemory) => Err(StepFault::OutOfMemory),
            Err(refusal) => Ok(self.refuse(refusal)?),
        }
    }

    // Gives the gateway an event.
    fn event<L: Link>(&mut self, link: &mut L, event: Event<'_>) -> Result<(), StepFault<L::Fault>>
        ensures { OnOk result (Moved self.old (give (event_of event.entry) ∷ []) self.new) }
    {
        let given = self.gateway.step(event);
        self.finish(link, given)
    }

    // Carries a datagram to the gateway, and gives it what arrives there.
    fn datagram<L: Link>(
        &mut self,
        link: &mut L,
        source: SocketAddrV4,
        bytes: &[u8],
    ) -> Result<(), StepFault<L::Fault>>
        ensures { OnOk result (Moved self.old (give (datagram source bytes.now) ∷ []) self.new) }
    {
        let given = match link.to_gateway(bytes) {
            Ok(arrived) => self.gateway.step(Event::Datagram {
                source,
                bytes: arrived,
            }),
            Err(fault) => return Err(StepFault::Link(fault)),
        };
        self.finish(link, given)
    }

    // Gives the gateway a tick so many ms past now.
    fn tick<L: Link>(&mut self, link: &mut L, by: u64) -> Result<(), StepFault<L::Fault>>
        ensures { OnOk result (Moved self.old (pass by ∷ []) self.new) }
    {
        let moment = self.gateway.now().saturating_add(by);
        self.event(link, Event::Tick { moment })
    }

    // Gives the gateway so many ticks of a second.
    fn seconds<L: Link>(&mut self, link: &mut L, seconds: u64) -> Result<(), StepFault<L::Fault>>
        ensures { OnOk result (Moved self.old (replicate seconds (pass 1000)) self.new) }
    {
        for _ in 0..seconds {
            self.tick(link, 1000)?;
        }
        Ok(())
    }

    // Gives the gateway ticks of a second, and one of the rest.
    fn wait<L: Link>(&mut self, link: &mut L, by: u64) -> Result<(), StepFault<L::Fault>>
        ensures { OnOk result (Moved self.old (moves_of_wait by) self.new) }
    {
        self.seconds(link, by / 1000)?;
        if by % 1000 == 0 {
            return Ok(());
        }
        self.tick(link, by % 1000)
    }

    // Prints what a line is.
    fn tell(&mut self, line: u16) -> Result<(), OutOfMemory>
        requires low { 1 ≤ line }
        requires high { line ≤ self.old.gateway.setup.names.lines }
        ensures { OnOk result (Moved self.old (ask line ∷ []) self.new) }
    {
        let status = status_of(&self.gateway, line);
        put_line(self.alloc, &mut self.out, &status)?;
        Ok(())
    }

    // Prints what a line is, or that there is none.
    fn show(&mut self, line: u16) -> Result<(), OutOfMemory>
        ensures { OnOk result (Moved self.old (ask line ∷ []) self.new) }
    {
        if line >= 1 && line <= self.gateway.lines() {
            return self.tell(line);
        }
        self.refuse(Refusal::NoSuchLine)
    }

    // Plays a step.
    #[tactic(auto, unfolding(rgw_scripts::specs::Moves::moves_of))]
    fn step<L: Link>(&mut self, link: &mut L, step: &ScriptStep) -> Result<(), StepFault<L::Fault>>
        ensures { OnOk result (Moved self.old (moves_of step.now) self.new) }
    {
        match step {
            ScriptStep::Datagram { source, bytes } => self.datagram(
                link,
                *source,
                bytes.as_bytes(),
            ),
            ScriptStep::Phone { line, act } => self.event(
                link,
                Event::Phone {
                    line: *line,
                    act: *act,
                },
            ),
            ScriptStep::Tick { by } => self.tick(link, *by),
            ScriptStep::At { moment } => self.event(link, Event::Tick { moment: *moment }),
            ScriptStep::Wait { by } => self.wait(link, *by),
            ScriptStep::Show { line } => Ok(self.show(*line)?),
        }
    }

    /// Plays steps over a link, one after the other.
    pub fn play<L: Link>(
        &mut self,
        link: &mut L,
        steps: &[ScriptStep],
    ) -> Result<(), StepFault<L::Fault>>
        ensures { OnOk result (Moved self.old (all_moves steps.now) self.new) }
    {
        for step in steps {
            self.step(link, step)?;
        }
        Ok(())
    }
}
