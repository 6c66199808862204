//! Laws of the definitions. Each function has an empty body: its clauses are the theorems.
ghost use Rattle.std.specs.Prelude.{◌≡◌, ◌≤◌, ◌<◌, ◌+◌, ◌^◌, ◌++◌, ◌∷◌, ℕ, List, Some, None, All};
ghost use Rattle.std.specs.List.Sorted.{IsPermutation};
ghost use Rattle.std.specs.declared.net.socket_addr.SocketAddrV4.{SocketAddrV4};
ghost use Rattle.impairment.specs.declared.draws.Draws.{Draws};
ghost use Rattle.impairment.specs.declared.draws.Generators.{Generators};
ghost use Rattle.impairment.specs.declared.fate.Fate.{Fate};
ghost use Rattle.impairment.specs.declared.packet.Packet.{Packet};
ghost use Rattle.impairment.specs.declared.packet.Way.{Way};
ghost use Rattle.impairment.specs.declared.packet.Way.TheVariants.{In, Out};
ghost use Rattle.impairment.specs.declared.spoiling.Impairment.{Impairment};
ghost use Rattle.impairment.specs.declared.spoiling.Spoiling.{Spoiling};
ghost use Rattle.impairment.specs.Drawing.{letter_of, generator_on};
ghost use Rattle.impairment.specs.Fates.{fate_of, impairment_on};
ghost use Rattle.impairment.specs.Naming.{mixed_with, mixed};
ghost use Rattle.impairment.specs.Waiting.{copies_of, taken, IsInOrder};
ghost use Rattle.impairment.specs.Passing.{NetworkStep, opening, passed};
ghost use Rattle.impairment.specs.Ways.{number_on, fates_on};

/// Seeds that differ still do once each is mixed with the same name; and one seed comes to two where it is mixed with names that
/// differ in one byte. So the ways of a network that has one seed don't begin alike.
pub fn seeds_and_names_stay_apart()
    ensures seeds { (name : List ℕ) (a b : ℕ) → All (λ byte. byte < 256) name → a < 2 ^ 64 → b < 2 ^ 64 →
        mixed a name ≡ mixed b name → a ≡ b }
    ensures names { (front behind : List ℕ) (seed a b : ℕ) → All (λ byte. byte < 256) behind → seed < 2 ^ 64 →
        a < 256 → b < 256 → mixed seed (front ++ a ∷ behind) ≡ mixed seed (front ++ b ∷ behind) → a ≡ b }
    ensures ways { (seed : ℕ) → seed < 2 ^ 64 → mixed_with seed (letter_of In) ≡ mixed_with seed (letter_of Out) → ⊥ }
{}

/// What becomes of the packets that go one way depends neither on what goes the other way nor on how that is spoilt: however many are
/// offered there between them, the same is drawn.
pub fn each_way_has_its_own_draws()
    ensures { (way : Way) (one other : Spoiling) (first second : Generators) (ways others : List Way) →
        impairment_on way one ≡ impairment_on way other → generator_on way first ≡ generator_on way second →
        number_on way ways ≡ number_on way others → fates_on way one first ways ≡ fates_on way other second others }
{}

/// A copy is the packet itself: its way, its peer, its bytes, and the moment at which it was offered.
pub fn copies_are_the_packet_itself()
    ensures { (fate : Fate) (way : Way) (peer : SocketAddrV4) (bytes : List ℕ) (now : ℕ) →
        All (λ p. (p.way ≡ way) × (p.peer ≡ peer) × (p.bytes ≡ bytes) × (p.offered ≡ now)) (copies_of fate way peer bytes now) }
{}

/// A copy is due no sooner than its packet is offered, and at most 10,000 ms later (RFC 3435, 3.5).
pub fn no_copy_is_late_by_more_than_ten_seconds()
    ensures { (impairment : Impairment) (draws : Draws) (way : Way) (peer : SocketAddrV4) (bytes : List ℕ) (now : ℕ) → now < 2 ^ 64 →
        All (λ p. (now ≤ p.due) × (p.due ≤ now + 10000)) (copies_of (fate_of impairment draws) way peer bytes now) }
{}

/// What is handed out is due, and none of those that still wait is due before it; where nothing is, none of them is due.
pub fn the_first_that_is_due_is_handed_out()
    ensures some { (now : ℕ) (waiting rest : List Packet) (p : Packet) → IsInOrder waiting → taken now waiting ≡ (Some p, rest) →
        (p.due ≤ now) × All (λ q. p.due ≤ q.due) rest }
    ensures none { (now : ℕ) (waiting rest : List Packet) → IsInOrder waiting → taken now waiting ≡ (None, rest) →
        All (λ q. now < q.due) waiting }
{}

/// Whatever is offered and taken, each copy that was made was handed out or waits, once, and those that wait are in order.
pub fn each_copy_is_handed_out_once_or_waits()
    ensures once { (steps : List NetworkStep) →
        IsPermutation (passed opening steps).made ((passed opening steps).handed ++ (passed opening steps).waiting) }
    ensures order { (steps : List NetworkStep) → IsInOrder (passed opening steps).waiting }
{}
