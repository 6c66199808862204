//! Worked examples of what a wait by a script comes to, as theorems.
#![tactic(auto, unfolding(crate::proofs::Computing::on_examples))]

ghost use Rattle.std.specs.Prelude.{◌≡◌, ◌∷◌, ℕ, Bool, [], false, true, length, drop, Some, None, Err};
ghost use Rattle.mg_bytes.specs.Lists.{is_empty};
ghost use Rattle.live_io.specs.declared.lines.Lines.{Lines};
ghost use Rattle.live_io.specs.declared.scripted.Coming.{Coming};
ghost use Rattle.live_io.specs.declared.scripted.Happening.{Happening};
ghost use Rattle.live_io.specs.declared.scripted.Happening.TheVariants.{Pause, SendFault, ReceiveFault};
ghost use Rattle.live_io.specs.declared.scripted.Scripted.{Scripted};
ghost use Rattle.live_io.specs.declared.surroundings.Fault.{Fault};
ghost use Rattle.live_io.specs.Around.{unasked};
ghost use Rattle.live_io.specs.Hearing.{Hears};
ghost use Rattle.live_io.specs.Typing.{left_of};
ghost use Rattle.live_io.specs.Waiting.{time_at, next_by, Happens, HappensFirst, Leaves, GoesOn, Waits};

/// Each sentence at an example.
pub fn each_sentence_has_an_example()
    // The time of day begins as 2026 does, and goes on with the clock.
    ensures opens { time_at 0 ≡ 1767225600000000 }
    ensures dates { time_at 1500 ≡ 1767225601500000 }
    // What comes first happens at its moment, or at once where that is over; not where it is later than is waited.
    ensures nothing { next_by 500 100 [] ≡ None }
    ensures at_its_moment { (what : Happening) → next_by 500 100 (record { moment = 300; what = what } ∷ []) ≡ Some 300 }
    ensures at_once { (what : Happening) → next_by 500 100 (record { moment = 50; what = what } ∷ []) ≡ Some 100 }
    ensures at_last { (what : Happening) → next_by 500 100 (record { moment = 500; what = what } ∷ []) ≡ Some 500 }
    ensures later { (what : Happening) → next_by 500 100 (record { moment = 501; what = what } ∷ []) ≡ None }
    // A pause moves the clock on, a fault lets the next send fail, and each is over with that; what is for who looks waits.
    ensures stopped { (was is : Scripted) (is_over : Bool) → Happens (Pause 2000) was is_over is → was.moment ≡ 100 → is.moment ≡ 2100 }
    ensures over { (was is : Scripted) (is_over : Bool) → Happens (Pause 2000) was is_over is → is_over ≡ true }
    ensures fails { (was is : Scripted) (is_over : Bool) → Happens SendFault was is_over is → is.is_failing ≡ true }
    ensures waits { (was is : Scripted) (is_over : Bool) → Happens ReceiveFault was is_over is → is ≡ was }
    ensures not_over { (was is : Scripted) (is_over : Bool) → Happens ReceiveFault was is_over is → is_over ≡ false }
    ensures none_happens { (was is : Scripted) (is_over : Bool) → HappensFirst [] was is_over is → is ≡ was }
    ensures first { (first : Coming) (was is : Scripted) (is_over : Bool) → HappensFirst (first ∷ []) was is_over is
        → Happens first.what was is_over is }
    ensures stays { (was is : Scripted) → Leaves false was is → is ≡ was }
    ensures gone { (was is : Scripted) → Leaves true was is → is.coming.items ≡ drop 1 was.coming.items }
    // Where nothing happens the clock alone goes on; a wait doesn't fail.
    ensures goes_on { (was is : Scripted) → GoesOn None 500 was is → is.moment ≡ 500 }
    ensures alone { (was is : Scripted) → GoesOn None 500 was is → is.coming ≡ was.coming }
    ensures never_fails { (fault : Fault) (was is : Scripted) → Waits was 500 (Err fault) is → ⊥ }
    // Lines are read into a room for 4,096 bytes.
    ensures room { (before after : ℕ) (was is : Lines) (taken : Bool)
        (heard : Hears {S = ℕ} unasked before was taken after is) (none : is_empty (left_of was) ≡ true)
        → length (heard.looks none).1 ≡ 4096 }
{}
