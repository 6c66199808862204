//! Worked examples of what a look for a datagram gives, over a network before the socket and without one, as theorems.
#![tactic(auto)]

ghost use Rattle.std.specs.Prelude.{◌≡◌, ◌⊎◌, [], ◌∷◌, true, false, nat_lt, ℕ, List, Option, Some, None, take, length};
ghost use Rattle.std.specs.declared.net.socket_addr.SocketAddrV4.{SocketAddrV4};
ghost use Rattle.impairment.specs.declared.packet.Packet.{Packet};
ghost use Rattle.impairment.specs.declared.packet.Way.TheVariants.{In, Out};
ghost use Rattle.output_queues.specs.Recording.{is_told};
ghost use Rattle.message_counts.specs.Tallying.{with_received, with_stranger};
ghost use Rattle.live_journal.specs.declared.journal.Journal.{Journal};
ghost use Rattle.live_gateway.specs.declared.admission.Admission.{Admission};
ghost use Rattle.live_gateway.specs.declared.exchange.Exchange.{Exchange};
ghost use Rattle.live_gateway.specs.Admitting.{is_heard};
ghost use Rattle.live_gateway.specs.Noting.{NotesReceived};
ghost use Rattle.live_gateway.specs.Passing.{HandsNext, SendsNext, TurnsNextAway, PassesEach, GivesNext, HandsLast, HandsOut, HandsUnlessLost, GoesOver, GoesWhereHeard, TakesFound, LooksBehind, LooksOver, GivesWhereHeard, GivesFound, LooksBy, LooksDirectly, Looks};
ghost use Rattle.live_laws.specs.Example.{at_port};
ghost use Rattle.live_laws.specs.WayExample.{sends_any, sends_none, looks_never, none_looks};

/// Where there is no network none of its packets is handed out. One that goes out is sent; a stranger's is turned away, and counted; one of
/// who is heard is given on, and counted once. Where none is given on any more nothing else changes.
pub fn what_a_network_hands_out_has_examples()
    ensures nowhere { (packet : Option Packet) (was is : Exchange ℕ) → was.network ≡ None → HandsNext packet was is → packet ≡ None }
    ensures alone { (packet : Option Packet) (was is : Exchange ℕ) → HandsNext packet was is
        → (is.journal ≡ was.journal) × (is.around ≡ was.around) × (is.read ≡ was.read) }
    ensures unsent { (packet : Packet) (was is : Exchange ℕ) → SendsNext sends_none packet was is → ⊥ }
    ensures goes_out { (packet : Packet) (was is : Exchange ℕ) → SendsNext sends_any packet was is → packet.way ≡ Out }
    ensures uncounted { (packet : Packet) (was is : Exchange ℕ) → SendsNext sends_any packet was is
        → (is.faults ≡ was.faults) × (is.read ≡ was.read) }
    ensures strange { (admission : Admission) (packet : Packet) (was is : Exchange ℕ) → TurnsNextAway admission packet was is
        → (is_heard admission packet.peer ≡ false) × (packet.way ≡ In) }
    ensures counted { (admission : Admission) (packet : Packet) (was is : Exchange ℕ) → TurnsNextAway admission packet was is
        → nat_lt 0 packet.peer.port ≡ true → is.journal.tally.value ≡ with_stranger was.journal.tally.value }
    ensures none { (admission : Admission) (was is : Exchange ℕ) → PassesEach sends_any admission [] was is → is ≡ was }
    ensures one { (admission : Admission) (packet : Packet) (was is : Exchange ℕ) → PassesEach sends_any admission (packet ∷ []) was is
        → SendsNext sends_any packet was is ⊎ TurnsNextAway admission packet was is }
    ensures heard { (admission : Admission) (room : List ℕ) (was is : Exchange ℕ)
        (next : GivesNext admission (at_port 9 2727, 5) room was is)
        → (next.packet.peer ≡ at_port 9 2727) × (next.packet.way ≡ In) × (is_heard admission next.packet.peer ≡ true) }
    ensures bytes { (admission : Admission) (was is : Exchange ℕ) (next : GivesNext admission (at_port 9 2727, 2) (1 ∷ 2 ∷ 3 ∷ []) was is)
        → take 3 next.packet.bytes ≡ 1 ∷ 2 ∷ [] }
    ensures received { (admission : Admission) (room : List ℕ) (was is : Exchange ℕ) → GivesNext admission (at_port 9 2727, 5) room was is
        → is.journal.tally.value ≡ with_received was.journal.tally.value }
    ensures given { (admission : Admission) (room : List ℕ) (was is : Exchange ℕ)
        → HandsLast 3 admission (Some (at_port 9 2727, 5)) room was is → GivesNext admission (at_port 9 2727, 5) room was is }
    ensures none_due { (admission : Admission) (was is : Exchange ℕ) → HandsLast 3 admission None [] was is → HandsNext None was is }
    ensures left { (count : ℕ) (admission : Admission) (was is : Exchange ℕ) → HandsLast count admission None [] was is
        → is.journal ≡ was.journal }
    ensures at_once { (admission : Admission) (was is : Exchange ℕ) (room : List ℕ)
        (hands : HandsOut sends_any admission (Some (at_port 9 2727, 5)) room was is) → hands.left ≡ was
        → GivesNext admission (at_port 9 2727, 5) room was is }
{}

/// What the socket gives goes over the network once, where it is heard; where that loses it nothing is given, and nothing counts. A
/// stranger's leaves the network as it was. Without a network it is given where it is heard.
pub fn what_a_look_gives_has_examples()
    ensures lost { (admission : Admission) (was is : Exchange ℕ)
        → HandsUnlessLost sends_any true admission (at_port 9 2727) (1 ∷ []) (Some (at_port 9 2727, 5)) [] was is → ⊥ }
    ensures lost_quietly { (admission : Admission) (was is : Exchange ℕ)
        → HandsUnlessLost sends_any true admission (at_port 9 2727) (1 ∷ []) None [] was is
        → (is.journal.tally ≡ was.journal.tally) × (is.network ≡ was.network) }
    ensures unlost { (admission : Admission) (was is : Exchange ℕ)
        → HandsUnlessLost sends_any false admission (at_port 9 2727) (1 ∷ []) None [] was is
        → HandsOut sends_any admission None [] was is }
    ensures over { (admission : Admission) (given : Option (SocketAddrV4 × ℕ)) (was is : Exchange ℕ)
        (goes : GoesOver sends_any admission (at_port 9 2727) (1 ∷ []) given [] was is) → goes.offered.journal ≡ was.journal }
    ensures stranger { (admission : Admission) (was is : Exchange ℕ)
        → GoesWhereHeard sends_any false admission (at_port 9 2727) (1 ∷ []) None [] was is → is.network ≡ was.network }
    ensures unheard { (admission : Admission) (was is : Exchange ℕ)
        → GoesWhereHeard sends_any false admission (at_port 9 2727) (1 ∷ []) (Some (at_port 9 2727, 1)) [] was is → ⊥ }
    ensures nothing { (admission : Admission) (given : Option (SocketAddrV4 × ℕ)) (was is : Exchange ℕ)
        → TakesFound sends_any admission None [] given [] was is → (given ≡ None) × (is ≡ was) }
    ensures unlooked { (admission : Admission) (given : Option (SocketAddrV4 × ℕ)) (was is : Exchange ℕ)
        → LooksBehind none_looks admission given [] was is → ⊥ }
    ensures whole { (admission : Admission) (given : Option (SocketAddrV4 × ℕ)) (room : List ℕ) (was is : Exchange ℕ)
        (looks : LooksBehind none_looks admission given room was is) → length looks.front ≡ length room }
    ensures handed { (admission : Admission) (was is : Exchange ℕ)
        → LooksOver none_looks admission (Some (at_port 9 2727, 5)) [] was is
        → HandsOut sends_any admission (Some (at_port 9 2727, 5)) [] was is }
    ensures heard { (given : Option (SocketAddrV4 × ℕ)) (was is : Exchange ℕ) → GivesWhereHeard true (at_port 9 2727, 1) given [] was is
        → given ≡ Some (at_port 9 2727, 1) }
    ensures strange { (given : Option (SocketAddrV4 × ℕ)) (was is : Exchange ℕ) → GivesWhereHeard false (at_port 9 2727, 1) given [] was is
        → given ≡ None }
    ensures none { (admission : Admission) (given : Option (SocketAddrV4 × ℕ)) (was is : Exchange ℕ)
        → GivesFound admission None given [] was is → (given ≡ None) × (is ≡ was) }
    ensures never { (admission : Admission) (given : Option (SocketAddrV4 × ℕ)) (was is : Exchange ℕ)
        → LooksDirectly looks_never admission given [] was is → ⊥ }
    ensures direct { (admission : Admission) (given : Option (SocketAddrV4 × ℕ)) (was is : Exchange ℕ) → was.network ≡ None
        → Looks none_looks admission given [] was is → ⊥ }
    ensures by_network { (admission : Admission) (given : Option (SocketAddrV4 × ℕ)) (room : List ℕ) (was is : Exchange ℕ)
        → LooksBy none_looks true admission given room was is → LooksOver none_looks admission given room was is }
    ensures by_socket { (admission : Admission) (given : Option (SocketAddrV4 × ℕ)) (room : List ℕ) (was is : Exchange ℕ)
        → LooksBy none_looks false admission given room was is → ⊥ }
    ensures counted { (was is : Journal) → NotesReceived (record { clock = 5; time = 7000 }) 2 (at_port 9 2727) (1 ∷ []) was is
        → (is.tally.value ≡ with_received was.tally.value) × (is.written ≡ was.written) }
    ensures logged { (was is : Journal) → NotesReceived (record { clock = 5; time = 7000 }) 2 (at_port 9 2727) (1 ∷ []) was is
        → is_told is.log.value.record.state ≡ true → is.log.value.came ≡ record { moment = 7000; peer = at_port 9 2727 } }
    ensures captured { (was is : Journal) → NotesReceived (record { clock = 5; time = 7000 }) 2 (at_port 9 2727) (1 ∷ []) was is
        → is.capture.value.here ≡ was.capture.value.here }
{}
