//! Laws of the values. Each function has an empty body: its clauses are the theorems.
ghost use Rattle.std.specs.Prelude.{◌≡◌, ◌<◌, ◌≤◌, ℕ, List, ◌∷◌, ◌++◌, length, map, Ok, Err, is_ok, true, false};
ghost use Rattle.std.specs.List.{list_all};
ghost use Rattle.packages.specs.declared.handling.Handling.{Handling};
ghost use Rattle.packages.specs.declared.observed.Observed.{Observed};
ghost use Rattle.packages.specs.declared.signals.SignalRequest.{SignalRequest};
ghost use Rattle.packages.specs.Cuts.{entries};
ghost use Rattle.packages.specs.SignalSpelling.{are_signals};
ghost use Rattle.packages.specs.Signals.{most_signals, signal_entry, signals_of, signals_text, are_writable_signals};
ghost use Rattle.packages.specs.Handling.{handling_of, handling_text};
ghost use Rattle.packages.specs.Observed.{observed_of, observed_text, are_writable_observed};

/// A value that isn't spelled is 510; else more than 8 entries are 502; else the first entry with a fault gives its code;
/// and where there is none, each entry is read.
pub fn the_first_fault_counts()
    ensures spelling { (value : List ℕ) → are_signals value ≡ false → signals_of value ≡ Err 510 }
    ensures number { (value : List ℕ) → are_signals value ≡ true → most_signals < length (entries value)
        → signals_of value ≡ Err 502 }
    ensures entry { (value : List ℕ) (front rest : List (List ℕ)) (text : List ℕ) (code : ℕ) → are_signals value ≡ true
        → length (entries value) ≤ most_signals → entries value ≡ front ++ text ∷ rest
        → list_all (λ earlier. is_ok (signal_entry earlier)) front ≡ true → signal_entry text ≡ Err code
        → signals_of value ≡ Err code }
    ensures all { (value : List ℕ) (requests : List SignalRequest) → are_signals value ≡ true
        → length requests ≤ most_signals → map signal_entry (entries value) ≡ map Ok requests
        → signals_of value ≡ Ok requests }
{}

/// What is written of signals that can be asked for is read again as the same: at most 8, each with a setting that its
/// kind takes.
pub fn signals_are_read_again()
    ensures { (requests : List SignalRequest) → are_writable_signals requests ≡ true
        → signals_of (signals_text requests) ≡ Ok requests }
{}

/// What is written of a handling is read again as the same.
pub fn handling_is_read_again()
    ensures { (handling : Handling) → handling_of (handling_text handling) ≡ Ok handling }
{}

/// What is written of observed events is read again as the same, where each end is that of a time-out signal, and told
/// with its signal.
pub fn observed_events_are_read_again()
    ensures { (list : List Observed) → are_writable_observed list ≡ true → observed_of (observed_text list) ≡ Ok list }
{}
