//! Laws of R. Each function has an empty body: its clauses are the theorems.
ghost use Rattle.std.specs.Prelude.{◌≡◌, ◌<◌, ◌≤◌, ℕ, List, ◌∷◌, ◌++◌, length, map, Ok, Err, is_ok, true, false};
ghost use Rattle.std.specs.List.{list_all};
ghost use Rattle.event_syntax.specs.declared.request.RequestedEvent.{RequestedEvent};
ghost use Rattle.event_syntax.specs.Actions.{embed, accumulate_and_embed, Rule, rule_of};
ghost use Rattle.packages.specs.Cuts.{entries};
ghost use Rattle.event_syntax.specs.Detect.{most_events};
ghost use Rattle.event_syntax.specs.Embedding.{embedded_in};
ghost use Rattle.event_syntax.specs.Requested.{requested, requested_of, requested_text, are_writable_requested};
ghost use Rattle.event_syntax.specs.RequestSpelling.{are_requested};

/// What is written of requested events is read again as the same, with what is embedded in them: at most 32, each with
/// events that can be written and take what is done, and with something in the parentheses of E, where a digit map is
/// one without blanks.
pub fn requested_events_are_read_again()
    ensures { (list : List RequestedEvent) → are_writable_requested list ≡ true
        → requested_of (requested_text list) ≡ Ok list }
{}

/// A value of R that isn't spelled is 510; else more than 32 entries are 502; else the first entry with a fault gives
/// its code; and where there is none, each entry is read.
pub fn the_first_fault_of_requested_events_counts()
    ensures spelling { (value : List ℕ) → are_requested value ≡ false → requested_of value ≡ Err 510 }
    ensures number { (value : List ℕ) → are_requested value ≡ true → most_events < length (entries value)
        → requested_of value ≡ Err 502 }
    ensures entry { (value : List ℕ) (front rest : List (List ℕ)) (text : List ℕ) (code : ℕ)
        → are_requested value ≡ true → length (entries value) ≤ most_events → entries value ≡ front ++ text ∷ rest
        → list_all (λ earlier. is_ok (requested earlier)) front ≡ true → requested text ≡ Err code
        → requested_of value ≡ Err code }
    ensures all { (value : List ℕ) (list : List RequestedEvent) → are_requested value ≡ true
        → length list ≤ most_events → map requested (entries value) ≡ map Ok list → requested_of value ≡ Ok list }
{}

/// An entry of R is judged by what it says itself before what is embedded in it.
pub fn an_entry_is_judged_before_what_is_embedded()
    ensures itself { (entry : List ℕ) (code : ℕ) → rule_of entry ≡ Err code → requested entry ≡ Err code }
    ensures embedded { (entry inside : List ℕ) (rule : Rule) (code : ℕ) → rule_of entry ≡ Ok rule
        → rule.joined ≡ embed inside → embedded_in inside ≡ Err code → requested entry ≡ Err code }
    ensures with_a { (entry inside : List ℕ) (rule : Rule) (code : ℕ) → rule_of entry ≡ Ok rule
        → rule.joined ≡ accumulate_and_embed inside → embedded_in inside ≡ Err code → requested entry ≡ Err code }
{}
