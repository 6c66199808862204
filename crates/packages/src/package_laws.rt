//! Laws of the tables. Each function has an empty body: its clauses are the theorems.
ghost use Rattle.std.specs.Prelude.{◌≡◌, [], ◌∷◌, map, filter, Ok};
ghost use Rattle.packages.specs.declared.event.LineEvent.{LineEvent};
ghost use Rattle.packages.specs.declared.package.Package.{Package};
ghost use Rattle.packages.specs.declared.signal.Signal.{Signal};
ghost use Rattle.packages.specs.Tables.{package_rows, signal_rows, event_rows};
ghost use Rattle.packages.specs.Looking.{is_same_package, is_same_signal, is_same_event, row_of, event_row_of};
ghost use Rattle.packages.specs.Looking.{package_row_of, signal_of, signal_name, event_of, event_name};

use crate::signal::SIGNALS;

/// Each package, each signal and each event has exactly one row of its table, so what is looked up there is its own.
pub fn each_has_one_row()
    ensures packages { (within : Package) →
        filter (λ row. is_same_package row.value within) package_rows ≡ package_row_of within ∷ [] }
    ensures signals { (signal : Signal) →
        filter (λ row. is_same_signal row.value signal) signal_rows ≡ row_of signal ∷ [] }
    ensures events { (event : LineEvent) →
        filter (λ row. is_same_event row.value event) event_rows ≡ event_row_of event ∷ [] }
{}

/// The row that is looked up is of what it was looked up for.
pub fn rows_are_of_their_values()
    ensures packages { (within : Package) → (package_row_of within).value ≡ within }
    ensures signals { (signal : Signal) → (row_of signal).value ≡ signal }
    ensures events { (event : LineEvent) → (event_row_of event).value ≡ event }
{}

/// `SIGNALS` has the order of the table.
pub fn signals_are_in_table_order()
    ensures { map (λ row. row.value) signal_rows ≡ SIGNALS }
{}

/// The written name of a signal or an event is read as it again.
pub fn names_are_read_again()
    ensures signals { (signal : Signal) → signal_of (signal_name signal) ≡ Ok signal }
    ensures events { (event : LineEvent) → event_of (event_name event) ≡ Ok event }
{}
