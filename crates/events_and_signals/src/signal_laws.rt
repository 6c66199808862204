//! Laws of active signals (RFC 3435, 2.1.7 and 2.3.3): what the definitions say, in the subject's own words. A signal is
//! active where it is found `among` the active ones, with its end.
ghost use Rattle.std.specs.Prelude.{◌≡◌, ◌≢◌, ◌<◌, ◌⊎◌, ◌++◌, ◌∷◌, [], ℕ, true, false, List, if◌then◌else◌, All};
ghost use Rattle.std.specs.Prelude.{Option, Some, None, IfSome, IsSome};
ghost use Rattle.packages.specs.declared.hook.Hook.{Hook};
ghost use Rattle.packages.specs.declared.signal.Signal.{Signal};
ghost use Rattle.packages.specs.Looking.{refused_in};
ghost use Rattle.packages.specs.declared.signals.Setting.TheVariants.{Stop};
ghost use Rattle.packages.specs.declared.signals.SignalRequest.{SignalRequest};
ghost use Rattle.events_and_signals.specs.declared.active.ActiveSignal.{ActiveSignal};
ghost use Rattle.events_and_signals.specs.Active.{among, is_time_out, is_forbidden, IsInTableOrder};
ghost use Rattle.events_and_signals.specs.Stopping.{without_time_outs, allowed_in, without};
ghost use Rattle.events_and_signals.specs.Applying.{refused_entry, signals_refusal, after_entry, entries_for, after_entries, applied};
ghost use Rattle.events_and_signals.specs.Due.{due_first, IsDueFirst};

/// What S makes of a signal depends on that signal and on the entries that name it, and on nothing else.
pub fn each_signal_is_by_itself()
    ensures { (requests : List SignalRequest) (hook : Hook) (moment : ℕ)
        (active : List ActiveSignal) (signal : Signal) →
        among signal (applied requests hook moment active)
        ≡ after_entries hook moment signal (among signal active) (entries_for signal requests) }
{}

/// Where S doesn't name a signal, a time-out signal stops, and another is as it was.
pub fn what_is_not_named_stops_if_it_is_a_time_out_signal()
    ensures { (requests : List SignalRequest) (hook : Hook) (moment : ℕ)
        (active : List ActiveSignal) (signal : Signal) →
        entries_for signal requests ≡ [] →
        among signal (applied requests hook moment active) ≡ (if is_time_out signal then None else among signal active) }
{}

/// A time-out signal that is active, and that S names but never stops, goes on unchanged, with its end.
pub fn a_named_time_out_signal_goes_on()
    ensures { (requests : List SignalRequest) (hook : Hook) (moment : ℕ)
        (active : List ActiveSignal) (signal : Signal) (was : ActiveSignal) →
        is_time_out signal ≡ true → among signal active ≡ Some was → entries_for signal requests ≢ [] →
        All (λ entry. entry.setting ≢ Stop) (entries_for signal requests) →
        among signal (applied requests hook moment active) ≡ Some was }
{}

/// Where an entry alone names its signal, it decides from what was active; where others do before it and none behind it,
/// from what those left.
pub fn the_last_entry_decides()
    ensures only { (before after : List SignalRequest) (request : SignalRequest) (hook : Hook) (moment : ℕ)
        (active : List ActiveSignal) →
        entries_for request.signal before ≡ [] → entries_for request.signal after ≡ [] →
        among request.signal (applied (before ++ request ∷ after) hook moment active)
        ≡ after_entry hook moment (among request.signal active) request }
    ensures last { (before after : List SignalRequest) (request : SignalRequest) (hook : Hook) (moment : ℕ)
        (active : List ActiveSignal) →
        entries_for request.signal before ≢ [] → entries_for request.signal after ≡ [] →
        among request.signal (applied (before ++ request ∷ after) hook moment active)
        ≡ after_entry hook moment (among request.signal (applied before hook moment active)) request }
{}

/// Each end that S newly sets is later than its moment, so a signal that starts falls due later.
pub fn new_ends_are_later()
    ensures { (requests : List SignalRequest) (hook : Hook) (moment : ℕ)
        (active : List ActiveSignal) (signal : Signal) (is : ActiveSignal) →
        among signal (applied requests hook moment active) ≡ Some is →
        (among signal active ≡ Some is) ⊎ IfSome is.end (λ end. moment < end) }
{}

/// Where no entry is refused, each that starts a signal has it active, unless a later one stops it. What the hook state
/// forbids doesn't start.
pub fn what_is_not_refused_starts()
    ensures starts { (before after : List SignalRequest) (request : SignalRequest) (hook : Hook) (moment : ℕ)
        (active : List ActiveSignal) →
        signals_refusal (before ++ request ∷ after) hook ≡ None → request.setting ≢ Stop →
        All (λ later. later.setting ≢ Stop) (entries_for request.signal after) →
        IsSome (among request.signal (applied (before ++ request ∷ after) hook moment active)) }
    ensures forbidden { (requests : List SignalRequest) (hook : Hook) (moment : ℕ)
        (active : List ActiveSignal) (signal : Signal) →
        is_forbidden hook signal ≡ true → among signal active ≡ None →
        among signal (applied requests hook moment active) ≡ None }
{}

/// The code is that of the first entry that is refused; without one, none is.
pub fn the_first_refused_entry_counts()
    ensures some { (before after : List SignalRequest) (request : SignalRequest) (hook : Hook) (code : ℕ) →
        All (λ earlier. refused_entry hook earlier ≡ None) before → refused_entry hook request ≡ Some code →
        signals_refusal (before ++ request ∷ after) hook ≡ Some code }
    ensures none { (requests : List SignalRequest) (hook : Hook) →
        signals_refusal requests hook ≡ None → All (λ request. refused_entry hook request ≡ None) requests }
{}

/// Time-out signals alone stop at once; the others are as they were. An S without entries does the same.
pub fn time_out_signals_alone_stop()
    ensures at_once { (active : List ActiveSignal) (signal : Signal) →
        among signal (without_time_outs active) ≡ (if is_time_out signal then None else among signal active) }
    ensures by_no_entries { (hook : Hook) (moment : ℕ) (active : List ActiveSignal) (signal : Signal) →
        among signal (applied [] hook moment active) ≡ among signal (without_time_outs active) }
{}

/// After a change of the hook no signal is active that it forbids; the others are as they were.
pub fn no_forbidden_signal_is_active()
    ensures none { (hook : Hook) (active : List ActiveSignal) →
        All (λ a. refused_in hook a.signal ≡ None) (allowed_in hook active) }
    ensures others { (hook : Hook) (active : List ActiveSignal) (signal : Signal) →
        refused_in hook signal ≡ None → among signal (allowed_in hook active) ≡ among signal active }
{}

/// One signal stops; the others are as they were.
pub fn one_signal_stops()
    ensures itself { (signal : Signal) (active : List ActiveSignal) → among signal (without signal active) ≡ None }
    ensures others { (signal other : Signal) (active : List ActiveSignal) →
        other ≢ signal → among other (without signal active) ≡ among other active }
{}

/// A signal falls due first with its end exactly where it is active with that end, no signal before it in the table ends
/// as early, and none after it ends earlier. Nothing falls due where no active signal has an end.
pub fn the_earliest_end_is_due_first()
    ensures first { (active : List ActiveSignal) (end : ℕ) (signal : Signal) →
        due_first active ≡ Some (end, signal) → IsDueFirst active end signal }
    ensures only { (active : List ActiveSignal) (end : ℕ) (signal : Signal) →
        IsDueFirst active end signal → due_first active ≡ Some (end, signal) }
    ensures none { (active : List ActiveSignal) → due_first active ≡ None → All (λ a. a.end ≡ None) active }
{}

/// Active signals stand in the order of the table, each once, whatever S makes of them, and they stay so.
pub fn signals_stand_in_table_order()
    ensures nothing { IsInTableOrder [] }
    ensures applied { (requests : List SignalRequest) (hook : Hook) (moment : ℕ) (active : List ActiveSignal) →
        IsInTableOrder (applied requests hook moment active) }
    ensures without_time_outs { (active : List ActiveSignal) →
        IsInTableOrder active → IsInTableOrder (without_time_outs active) }
    ensures hook { (hook : Hook)
        (active : List ActiveSignal) → IsInTableOrder active → IsInTableOrder (allowed_in hook active) }
    ensures without { (signal : Signal) (active : List ActiveSignal) →
        IsInTableOrder active → IsInTableOrder (without signal active) }
{}
