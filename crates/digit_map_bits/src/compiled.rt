//! A matcher that keeps a bit for each place of its map.
ghost use Rattle.std.specs.Prelude.{◌≡◌, length};

use crate::plan::Plan;
use digit_map::{MapText, Matcher, Verdict};
use mg_bytes::{Letter, OutOfMemory};
use std::alloc::Global;
use std::marker::Model;
use std::rc::Rc;

/// A matcher that keeps a bit for each place of its map, whether the letters lead to it, and no letters (RFC 3435,
/// 2.1.5). What a letter costs is linear in the map's length, however many letters there were; 32 places take one
/// addition. A contract sees the map's text and the words of bits, of which a caller need know nothing.
#[derive(Drop)]
pub struct Compiled {
    alloc: Global,
    // Copies share it.
    plan: Rc<Plan>,
    // The places that are live.
    words: Vec<u32>,
}

impl Model for Compiled {
    ghost use Rattle.std.specs.Prelude.{◌≡◌, length, true};
    ghost use Rattle.digit_map_bits.specs.Places.{Marking};
    ghost use Rattle.digit_map_bits.specs.Blocks.{IsCompiled};

    ghost Value = { Marking };

    ghost view = { λ m. record { map = m.plan.value.map; words = m.words.items } };

    ghost invariant = { λ m.
        IsCompiled m.plan.value.map m.plan.value.blocks.items m.plan.value.begun.items m.words.items };
}

impl Compiled {
    ghost use Rattle.std.specs.Prelude.{◌≡◌, IfOk};

    /// An equal matcher: of the same map and after the same letters. It shares what was made of the map. An error is for
    /// want of memory only.
    pub fn try_copy(&self) -> Result<Compiled, OutOfMemory>
        ensures { IfOk result (λ copy. copy ≡ self.now) }
    {
        Ok(Compiled {
            alloc: self.alloc,
            plan: self.plan.clone()?,
            words: Vec::from_slice(self.alloc, &self.words)?,
        })
    }

    /// Its map.
    pub fn map(&self) -> &MapText
        ensures { result.now ≡ self.now.map }
    {
        &self.plan.map
    }
}

impl Matcher for Compiled {
    ghost use Rattle.std.specs.Prelude.{◌≡◌};
    ghost use Rattle.digit_map_bits.specs.Blocks.{words_after};

    ghost is_after = { λ m map letters. (m.map ≡ map) × (m.words ≡ words_after map letters) };

    fn start(alloc: Global, map: &MapText) -> Result<Compiled, OutOfMemory> {
        let plan = Plan::new(alloc, map)?;
        let words = Vec::from_slice(alloc, &plan.begun)?;
        Ok(Compiled {
            alloc,
            plan: Rc::new(alloc, plan)?,
            words,
        })
    }

    fn clear(&mut self) {
        self.words.copy_from_slice(&self.plan.begun);
    }

    fn feed(&mut self, letter: Letter) -> Verdict {
        self.plan.lead(letter, &mut self.words)
    }

    fn critical(&self) -> bool {
        self.plan.ends_by(Letter::Timer, &self.words)
    }
}
