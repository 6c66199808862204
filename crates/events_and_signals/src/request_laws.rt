//! Laws of requests. Each function has an empty body: its clauses are the theorems.
ghost use Rattle.std.specs.Prelude.{◌≡◌, ◌++◌, ◌∷◌, List, true, false};
ghost use Rattle.packages.specs.declared.event.LineEvent.{LineEvent};
ghost use Rattle.event_syntax.specs.declared.request.RequestedEvent.{RequestedEvent};
ghost use Rattle.events_and_signals.specs.Choice.{chosen, unasked, is_requested};
ghost use Rattle.events_and_signals.specs.Naming.{names};

/// An event has one action: that of the first entry which names it. Where none does, a persistent event is notified, and
/// nothing is done at another.
pub fn the_first_entry_that_names_an_event_counts()
    ensures first { (front rest : List RequestedEvent) (entry : RequestedEvent) (event : LineEvent)
        → is_requested front event ≡ false → names entry.events event ≡ true
        → chosen (front ++ entry ∷ rest) event ≡ record { reaction = entry.reaction; keep = entry.keep } }
    ensures none { (requested : List RequestedEvent) (event : LineEvent) → is_requested requested event ≡ false
        → chosen requested event ≡ unasked event }
{}
