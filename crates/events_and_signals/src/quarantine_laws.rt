//! Laws of the quarantine. Each function has an empty body: its clauses are the theorems.
ghost use Rattle.std.specs.Prelude.{◌≡◌, ◌+◌, ◌<◌, ◌≤◌, ℕ, List, ◌++◌, length};
ghost use Rattle.packages.specs.declared.observed.Observed.{Observed};
ghost use Rattle.events_and_signals.specs.Held.{most_lost, nothing_held};
ghost use Rattle.events_and_signals.specs.Given.{Happening, coming, held_after, given_back, InOrderBut};

/// Whatever comes and is taken: what is given back, and after it what is still held, are the events that came, in order,
/// but for those that are counted as lost; and there is never more than there is room for.
pub fn nothing_but_the_lost_is_missing()
    ensures in_order { (room : ℕ) (all : List Happening) → (held_after (nothing_held room) all).lost < most_lost
        → InOrderBut (held_after (nothing_held room) all).lost
        (given_back (nothing_held room) all ++ (held_after (nothing_held room) all).events) (coming all) }
    ensures few { (room : ℕ) (all : List Happening) → length (held_after (nothing_held room) all).events ≤ room }
{}

/// A list in order but for so many events has just so many fewer; where none is left out, it is the whole list.
pub fn in_order_but_so_many()
    ensures count { (n : ℕ) (some all : List Observed) → InOrderBut n some all → length some + n ≡ length all }
    ensures whole { (some all : List Observed) → InOrderBut 0 some all → some ≡ all }
{}

/// While there is room, nothing is lost.
pub fn nothing_is_lost_while_there_is_room()
    ensures { (room : ℕ) (all : List Happening) → length (coming all) ≤ room
        → (held_after (nothing_held room) all).lost ≡ 0 }
{}
