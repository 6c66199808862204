//! What is drawn for a packet.
ghost use Rattle.std.specs.Prelude.{◌≡◌};
ghost use Rattle.impairment.specs.Drawing.{word_of, after_word, seeded, draws_of, after_draws};
ghost use Rattle.impairment.specs.Drawing.{generators_of, draws_on, after_draws_on};

use crate::naming::mixed_with;
use crate::packet::Way;
use crate::spoiling::Spoiling;
use rand_core::SeedableRng;
use rand_core::utils::NextWord;
use rand_pcg::Pcg32;

/// Four words that are drawn for a packet.
#[derive(Clone, Copy)]
pub struct Draws {
    /// Whether it is lost.
    pub lost: u32,
    /// Whether it comes twice.
    pub copied: u32,
    /// How late it is, and how late its copy.
    pub first: u32,
    pub second: u32,
}

#[tactic(auto, unfolding(crate::specs::Drawing::word_of, crate::specs::Drawing::after_word))]
fn draw_word(generator: &mut Pcg32) -> u32
    ensures word { result ≡ word_of generator.old }
    ensures after { generator.new ≡ after_word generator.old }
{
    generator.next_word()
}

// The words for the next packet.
fn draw(generator: &mut Pcg32) -> Draws
    ensures draws { result ≡ draws_of generator.old }
    ensures after { generator.new ≡ after_draws generator.old }
{
    let lost = draw_word(generator);
    let copied = draw_word(generator);
    let first = draw_word(generator);
    let second = draw_word(generator);
    Draws {
        lost,
        copied,
        first,
        second,
    }
}

// The generator that a seed begins.
#[tactic(auto, unfolding(crate::specs::Drawing::seeded))]
fn seeded(seed: u64) -> Pcg32
    ensures { result ≡ seeded seed }
{
    Pcg32::seed_from_u64(seed)
}

/// A generator for each way, so that what goes one way draws nothing of what goes the other.
#[derive(Drop)]
pub struct Generators {
    incoming: Pcg32,
    outgoing: Pcg32,
}

impl Generators {
    /// Those that begin by the seeds of the ways, each mixed with the letter of its way: so ways of one seed don't draw alike.
    pub(crate) fn of(spoiling: Spoiling) -> Generators
        ensures { result ≡ generators_of spoiling }
    {
        Generators {
            incoming: seeded(mixed_with(spoiling.incoming.seed, b'i')),
            outgoing: seeded(mixed_with(spoiling.outgoing.seed, b'o')),
        }
    }

    /// The words for the next packet that goes this way.
    pub(crate) fn draw(&mut self, way: Way) -> Draws
        ensures draws { result ≡ draws_on way self.old }
        ensures after { self.new ≡ after_draws_on way self.old }
    {
        match way {
            Way::In => draw(&mut self.incoming),
            Way::Out => draw(&mut self.outgoing),
        }
    }
}
