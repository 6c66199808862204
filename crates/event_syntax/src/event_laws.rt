//! Laws of T. Each function has an empty body: its clauses are the theorems.
ghost use Rattle.std.specs.Prelude.{◌≡◌, ◌<◌, ◌≤◌, ℕ, List, ◌∷◌, ◌++◌, length, map, Ok, Err, is_ok, true, false};
ghost use Rattle.std.specs.List.{list_all};
ghost use Rattle.event_syntax.specs.declared.events.Events.{Events};
ghost use Rattle.packages.specs.Cuts.{entries};
ghost use Rattle.event_syntax.specs.Detect.{most_events, detected, detected_of, detected_text, are_writable_events};
ghost use Rattle.event_syntax.specs.EventSpelling.{are_detected};

/// What is written of events is read again as the same: at most 32, each a set of letters that isn't empty, all events of
/// L, or one event of L or G.
pub fn events_are_read_again()
    ensures { (list : List Events) → are_writable_events list ≡ true → detected_of (detected_text list) ≡ Ok list }
{}

/// A value of T that isn't spelled is 510; else more than 32 entries are 502; else the first entry with a fault gives
/// its code; and where there is none, each entry is read.
pub fn the_first_fault_of_detected_events_counts()
    ensures spelling { (value : List ℕ) → are_detected value ≡ false → detected_of value ≡ Err 510 }
    ensures number { (value : List ℕ) → are_detected value ≡ true → most_events < length (entries value)
        → detected_of value ≡ Err 502 }
    ensures entry { (value : List ℕ) (front rest : List (List ℕ)) (text : List ℕ) (code : ℕ) → are_detected value ≡ true
        → length (entries value) ≤ most_events → entries value ≡ front ++ text ∷ rest
        → list_all (λ earlier. is_ok (detected earlier)) front ≡ true → detected text ≡ Err code
        → detected_of value ≡ Err code }
    ensures all { (value : List ℕ) (list : List Events) → are_detected value ≡ true → length list ≤ most_events
        → map detected (entries value) ≡ map Ok list → detected_of value ≡ Ok list }
{}
