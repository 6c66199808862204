//! Worked examples of what becomes of lines that come, as theorems.
#![tactic(auto, unfolding(crate::proofs::Computing::on_examples))]

ghost use Rattle.std.specs.Prelude.{◌≡◌, ◌≤◌, ◌+◌, ℕ, Bool, codes, false, [], ◌∷◌, Some, None};
ghost use Rattle.std.specs.Vec.{vec_capacity};
ghost use Rattle.std.specs.declared.net.socket_addr.SocketAddr.TheVariants.{V4};
ghost use Rattle.live_io.specs.declared.lines.Lines.{Lines};
ghost use Rattle.live_io.specs.Example.{socket_at, here, counts_bytes};
ghost use Rattle.live_io.specs.Typing.{left_of};
ghost use Rattle.live_io.specs.Hearing.{Looked, AnswersTo};

/// Each sentence at an example.
pub fn each_sentence_has_an_example()
    // Lines that come are left, as far as the room was filled, and their sender is known; of what came from an own socket nothing is.
    ensures nothing { (was is : Lines) (taken : Bool) → Looked [] None (codes "show 1") was taken is → is ≡ was }
    ensures not_taken { (was is : Lines) (taken : Bool) → Looked [] None (codes "show 1") was taken is → taken ≡ false }
    ensures own { (was is : Lines) (taken : Bool) →
        Looked (socket_at here 2428 ∷ []) (Some (V4 (socket_at here 2428), 6)) (codes "show 1") was taken is → is ≡ was }
    ensures what_comes_is_taken_sender { (was is : Lines) (taken : Bool) →
        Looked (socket_at here 2428 ∷ []) (Some (V4 (socket_at here 4000), 6)) (codes "show 1") was taken is
        → is.sender ≡ Some (V4 (socket_at here 4000)) }
    ensures whole { (was is : Lines) (taken : Bool) → Looked [] (Some (V4 (socket_at here 4000), 6)) (codes "show 1") was taken is →
        6 ≤ vec_capacity was.text
        → left_of is ≡ codes "show 1" ∷ [] }
    ensures filled { (was is : Lines) (taken : Bool) → Looked [] (Some (V4 (socket_at here 4000), 4)) (codes "stop 1") was taken is →
        6 ≤ vec_capacity was.text
        → left_of is ≡ codes "stop" ∷ [] }
    ensures asking { (was is : Lines) (taken : Bool) → Looked [] (Some (V4 (socket_at here 4000), 9)) (codes "done\nstop") was taken is →
        9 ≤ vec_capacity was.text
        → left_of is ≡ codes "stop" ∷ [] }
    // Who sent lines is answered, and nobody else.
    ensures nobody { (was is : ℕ) → AnswersTo counts_bytes None was (codes "done") is → is ≡ was }
    ensures who_sent_lines_is_answered_sender { (was is : ℕ) → AnswersTo counts_bytes (Some (V4 (socket_at here 4000))) was
        (codes "done") is → is ≡ was + 4 }
{}
