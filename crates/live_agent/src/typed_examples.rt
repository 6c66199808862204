//! Worked examples of what is typed at a desk, as theorems: what it asks for, and how it is heard and answered.
#![tactic(auto)]

ghost use Rattle.std.specs.Prelude.{◌≡◌, ◌+◌, [], ◌∷◌, ℕ, List, Some, None, codes};
ghost use Rattle.std.specs.declared.net.socket_addr.SocketAddr.{SocketAddr};
ghost use Rattle.std.specs.declared.net.socket_addr.SocketAddr.TheVariants.{V4, V6};
ghost use Rattle.std.specs.declared.net.socket_addr.SocketAddrV4.{SocketAddrV4};
ghost use Rattle.live_io.specs.Example.{here, socket_at, there};
ghost use Rattle.live_io.specs.Typing.{left_of};
ghost use Rattle.live_io.specs.declared.lines.Lines.{Lines};
ghost use Rattle.live_agent.specs.declared.session.Request.{Request};
ghost use Rattle.live_agent.specs.declared.session.Request.TheVariants as requests;
ghost use Rattle.live_agent.specs.declared.wire.Wire.{Wire};
ghost use Rattle.live_agent.specs.AnyAround.{anywhere};
ghost use Rattle.live_agent.specs.Turning.{AnswersWith, AsksFirst, HearsTyped};

/// What the next line asks for.
pub fn what_is_asked_first_has_examples()
    // The end, from an address of the loopback; from elsewhere that isn't taken, nor is it from nobody.
    ensures here { (lines : Lines) (request : Request) → lines.sender ≡ Some (V4 (socket_at here 4000)) →
        left_of lines ≡ codes "stop\n" ∷ [] → AsksFirst lines request → request ≡ requests.Stop }
    ensures here_by_six { (lines : Lines) (request : Request) →
        lines.sender ≡ Some (V6 (record {
          ip = record { segments = 0 ∷ 0 ∷ 0 ∷ 0 ∷ 0 ∷ 0 ∷ 0 ∷ 1 ∷ [] };
          port = 4000;
          flowinfo = 0;
          scope_id = 0;
        })) →
        left_of lines ≡ codes "stop\n" ∷ [] → AsksFirst lines request → request ≡ requests.Stop }
    ensures elsewhere { (lines : Lines) (request : Request) → lines.sender ≡ Some (V4 (socket_at there 4000)) →
        left_of lines ≡ codes "stop\n" ∷ [] → AsksFirst lines request → request ≡ requests.StopFromAfar }
    ensures nobody { (lines : Lines) (request : Request) → lines.sender ≡ None → left_of lines ≡ codes "stop\n" ∷ [] →
        AsksFirst lines request → request ≡ requests.StopFromAfar }
    // Whoever typed it asks for what the first line says that is left; where none is, for nothing.
    ensures first { (lines : Lines) → lines.sender ≡ None → left_of lines ≡ codes "counts\n" ∷ codes "stop\n" ∷ [] →
        AsksFirst lines requests.Counts }
    ensures nothing { (lines : Lines) (request : Request) → left_of lines ≡ [] → AsksFirst lines request → request ≡ requests.Nothing }
{}

/// How what is typed is heard.
pub fn what_is_heard_of_who_types_has_examples()
    // Where a line is left it isn't looked for more.
    ensures waits { (piece : List ℕ) (more : List (List ℕ)) (was is : Wire ℕ) → left_of was.lines ≡ piece ∷ more →
        HearsTyped (record anywhere { hears = λ before found room after. ⊥ }) was is →
        (is.lines ≡ was.lines) × (is.around ≡ was.around) × (is.read ≡ was.read) }
    // Else it is looked once: where nothing came nothing is read; what came is of who sent it, and is read.
    ensures nothing { (was is : Wire ℕ) → left_of was.lines ≡ [] →
        HearsTyped (record anywhere { hears = λ before found room after. (found ≡ None) × (after ≡ before + 1) }) was is →
        (is.lines ≡ was.lines) × (is.around ≡ was.around + 1) × (is.read ≡ was.read) }
    ensures came { (source : SocketAddrV4) (was is : Wire ℕ) → left_of was.lines ≡ [] → was.read ≡ 5 →
        HearsTyped (record anywhere { hears = λ before found room after. found ≡ Some (V4 source, 4) }) was is →
        (is.lines.sender ≡ Some (V4 source)) × (is.read ≡ 6) }
    // Nothing is made of what came from the program's own socket, but it is read.
    ensures own { (was is : Wire ℕ) → left_of was.lines ≡ [] → was.read ≡ 5 →
        HearsTyped (record anywhere {
          sockets = λ around. socket_at here 4000 ∷ [];
          hears = λ before found room after. found ≡ Some (V4 (socket_at here 4000), 4);
        }) was is →
        (is.lines ≡ was.lines) × (is.read ≡ 6) }
    // Nothing else of the wire changes by it.
    ensures stays { (was is : Wire ℕ) → HearsTyped anywhere was is →
        (is.network ≡ was.network) × (is.journal ≡ was.journal) × (is.now ≡ was.now) × (is.is_behind ≡ was.is_behind)
        × (is.end ≡ was.end) × (is.is_offering ≡ was.is_offering) }
{}

/// How a line is answered.
pub fn what_who_types_is_answered_has_examples()
    // Who sent the lines is, once, as is said.
    ensures sender { (sender other : SocketAddr) (text : List ℕ) (was is : Wire ℕ) → was.lines.sender ≡ Some sender →
        AnswersWith (λ before to said after. (to ≡ other) × (said ≡ text) × (after ≡ before + 1)) (codes "done\n") was is →
        (sender ≡ other) × (codes "done\n" ≡ text) × (is.around ≡ was.around + 1) }
    ensures nobody { (was is : Wire ℕ) → was.lines.sender ≡ None → AnswersWith (λ before to said after. ⊥) (codes "done\n") was is →
        is.around ≡ was.around }
    // The next that asks for something is answered next.
    ensures next { (was is : Wire ℕ) → left_of was.lines ≡ codes "counts\n" ∷ codes "\n" ∷ codes "stop\n" ∷ codes "quit\n" ∷ [] →
        AnswersWith anywhere.answers (codes "done\n") was is → left_of is.lines ≡ codes "stop\n" ∷ codes "quit\n" ∷ [] }
    // Nothing else of the wire changes by it.
    ensures stays { (was is : Wire ℕ) → AnswersWith anywhere.answers (codes "done\n") was is →
        (is.network ≡ was.network) × (is.journal ≡ was.journal) × (is.now ≡ was.now) × (is.is_behind ≡ was.is_behind)
        × (is.read ≡ was.read) × (is.end ≡ was.end) × (is.is_offering ≡ was.is_offering) }
{}
