//! The active signals of a line.
ghost use Rattle.std.specs.Prelude.{◌≡◌, ◌<◌, ◌^◌, []};
ghost use Rattle.events_and_signals.specs.Active.{IsInTableOrder};
ghost use Rattle.events_and_signals.specs.Stopping.{without_time_outs, allowed_in, without};
ghost use Rattle.events_and_signals.specs.Applying.{applied};
ghost use Rattle.events_and_signals.specs.Due.{due_first};

use crate::active::{ActiveSignal, is_forbidden, is_time_out};
use crate::due::{earlier, end_of};
use crate::signal_request::after_entries;
use crate::slot::{Slot, held_in, place_of, slot_of};
use arrayvec::ArrayVec;
use packages::{Hook, SIGNALS, Signal, SignalRequest};
use std::marker::Model;

/// The active signals of a line with their ends (RFC 3435, 2.1.7). Moments and times are in ms.
///
/// A contract sees the list of the active signals, in the order of the table: those of L before those of G.
#[derive(Clone, Copy)]
pub struct SignalSet {
    // A slot for each signal of the table, in its order.
    slots: [Slot; 9],
}

impl Model for SignalSet {
    ghost use Rattle.std.specs.Prelude.{◌≡◌, List, length};
    ghost use Rattle.events_and_signals.specs.declared.active.ActiveSignal.{ActiveSignal};

    ghost Value = { List ActiveSignal };

    ghost use Rattle.events_and_signals.specs.Active.{table};
    ghost use Rattle.events_and_signals.specs.Slots.{held_by};
    ghost use Rattle.events_and_signals.specs.Fields.{fields_of, fields_again};

    ghost view = { λ s. held_by table s.slots };

    ghost invariant = { λ s. length s.slots ≡ 9 };

    ghost inverse = { fields_of };

    ghost inverse_ok = { λ s h. fields_again s.slots h };
}

impl SignalSet {
    /// No signal is active.
    pub fn new() -> Self
        ensures { result ≡ [] }
    {
        SignalSet {
            slots: [Slot::Idle; 9],
        }
    }

    /// S takes effect at this moment, in this state of the hook (RFC 3435, 2.3.3).
    ///
    /// The time-out signals that S doesn't name stop; then its entries count from left to right. `-` stops a signal. A
    /// time-out signal that is active and named to start goes on with its end, whatever time is asked for; every other
    /// start ends its time after the moment, or without a time where that is 0. An entry that `refused` refuses starts
    /// nothing, but its signal is named.
    #[tactic(auto, unfolding(crate::specs::Applying::applied))]
    pub fn apply(&mut self, requests: &[SignalRequest], hook: Hook, moment: u64)
        requires { moment < 2 ^ 62 }
        ensures { self.new ≡ applied requests.now hook moment self.old }
    {
        for (place, signal) in SIGNALS.iter().enumerate() {
            let was = held_in(*signal, self.slots[place]);
            self.slots[place] = slot_of(after_entries(hook, moment, *signal, was, requests));
        }
    }

    /// All time-out signals stop (RFC 3435, 2.3.3); the others go on.
    pub fn stop_timeouts(&mut self)
        ensures { self.new ≡ without_time_outs self.old }
    {
        for (place, signal) in SIGNALS.iter().enumerate() {
            if is_time_out(*signal) {
                self.slots[place] = Slot::Idle;
            }
        }
    }

    /// The hook is in this state now: the signals stop that can't be asked for in it; the others go on.
    pub fn hook_changed(&mut self, hook: Hook)
        ensures { self.new ≡ allowed_in hook self.old }
    {
        for (place, signal) in SIGNALS.iter().enumerate() {
            if is_forbidden(hook, *signal) {
                self.slots[place] = Slot::Idle;
            }
        }
    }

    /// This signal stops; the others go on.
    pub fn expire(&mut self, signal: Signal)
        ensures { self.new ≡ without signal self.old }
    {
        self.slots[place_of(signal)] = Slot::Idle;
    }

    /// The earliest end, with the first signal in the order of the table that ends then; `None` where no time ends any.
    #[tactic(auto, unfolding(crate::specs::Due::due_first))]
    pub fn next_due(&self) -> Option<(u64, Signal)>
        ensures { result ≡ due_first self.now }
    {
        self.list()
            .as_slice()
            .iter()
            .fold(None, |first, active| earlier(first, end_of(*active)))
    }

    /// The active signals with their ends, in the order of the table.
    pub fn list(&self) -> ArrayVec<ActiveSignal, 9>
        ensures value { result.items ≡ self.now }
        ensures in_order { IsInTableOrder result.items }
    {
        let mut list = ArrayVec::new();
        for (place, signal) in SIGNALS.iter().enumerate() {
            if let Some(active) = held_in(*signal, self.slots[place]) {
                list.push(active);
            }
        }
        list
    }
}
