//! What is made of a map once.
ghost use Rattle.std.specs.Prelude.{◌≡◌, length, false, IfOk};
ghost use Rattle.digit_map_bits.specs.Blocks.{led_words, ends_some, verdict_at, IsCompiled};

use crate::block::{ends_by, lead, verdict_at};
use digit_map::{Block, MapText, Verdict, blocks_from, drafts_of, words_from};
use mg_bytes::{Letter, OutOfMemory};
use std::alloc::Global;

/// What is made of a map once, and is the same whatever letters come.
#[derive(Drop)]
pub(crate) struct Plan {
    pub(crate) map: MapText,
    /// What a letter does at each place.
    pub(crate) blocks: Vec<Block>,
    /// The places that are live before any letter.
    pub(crate) begun: Vec<u32>,
}

impl Plan {
    /// The places of a map, of which a copy is kept.
    pub(crate) fn new(alloc: Global, map: &MapText) -> Result<Plan, OutOfMemory>
        ensures { IfOk result (λ plan. (plan.map ≡ map.now)
            × IsCompiled plan.map plan.blocks.items plan.begun.items plan.begun.items) }
    {
        let copy = map.copy_in(alloc)?;
        let drafts = drafts_of(alloc, copy.as_bytes())?;
        let blocks = blocks_from(alloc, &drafts)?;
        let begun = words_from(alloc, &drafts)?;
        Ok(Plan {
            map: copy,
            blocks,
            begun,
        })
    }

    /// Moves the words by a letter, and says how far the letters have come.
    pub(crate) fn lead(&self, letter: Letter, words: &mut Vec<u32>) -> Verdict
        requires { length words.old.items ≡ length self.now.blocks.items }
        ensures words { words.new.items ≡ led_words letter false self.now.blocks.items words.old.items }
        ensures len { length words.new.items ≡ length self.now.blocks.items }
        ensures verdict { result ≡ verdict_at self.now.blocks.items (led_words letter false self.now.blocks.items words.old.items) }
    {
        lead(&self.blocks, letter, words);
        verdict_at(&self.blocks, words)
    }

    /// Whether a letter leads to an end.
    pub(crate) fn ends_by(&self, letter: Letter, words: &[u32]) -> bool
        requires { length words.now ≡ length self.now.blocks.items }
        ensures { result ≡ ends_some self.now.blocks.items (led_words letter false self.now.blocks.items words.now) }
    {
        ends_by(&self.blocks, letter, words)
    }
}
