//! What the texts of one event were.
ghost use Rattle.std.specs.Prelude.{◌≡◌, ◌<◌, ◌++◌, ◌∷◌, [], length, IfOk};
ghost use Rattle.transmission.specs.Texts.{most_texts};

use crate::outcome::TextOutcome;
use mg_bytes::OutOfMemory;
use std::alloc::Global;
use std::marker::Model;
use transmission::MOST_TEXTS;

/// What the texts of one event were, in their order. A contract sees their list. It has room for as many as a datagram can have
/// from the beginning, so that nothing but `new` takes memory.
#[derive(Drop)]
pub struct Outcomes {
    items: Vec<TextOutcome>,
}

impl Model for Outcomes {
    ghost use Rattle.std.specs.Prelude.{◌≤◌, List};
    ghost use Rattle.std.specs.Vec.{vec_capacity};
    ghost use Rattle.transmission.specs.Texts.{most_texts};
    ghost use Rattle.gateway_core.specs.declared.outcome.TextOutcome.{TextOutcome};

    ghost Value = { List TextOutcome };

    ghost view = { λ o. o.items.items };

    ghost invariant = { λ o. most_texts ≤ vec_capacity o.items };
}

impl Outcomes {
    /// None yet.
    pub fn new(alloc: Global) -> Result<Outcomes, OutOfMemory>
        ensures { IfOk result (λ outcomes. outcomes ≡ []) }
    {
        let items = Vec::with_capacity(alloc, MOST_TEXTS)?;
        Ok(Outcomes { items })
    }

    /// Forgets them.
    pub fn clear(&mut self)
        ensures { self.new ≡ [] }
    {
        self.items.clear();
    }

    /// Puts what one more text was behind them; there are fewer before than a datagram can have.
    pub fn push(&mut self, outcome: TextOutcome)
        requires { length self.old < most_texts }
        ensures { self.new ≡ self.old ++ outcome ∷ [] }
    {
        self.items.push_reserved(outcome);
    }

    /// What each was.
    pub fn as_slice(&self) -> &[TextOutcome]
        ensures { result.now ≡ self.now }
    {
        self.items.as_slice()
    }
}
