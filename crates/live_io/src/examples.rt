//! Worked examples of the definitions, as theorems: each sentence of a definition has one that a slip in it breaks.
#![tactic(auto, unfolding(crate::proofs::Computing::on_examples))]

ghost use Rattle.std.specs.Prelude.{◌≡◌, ℕ, Bool, List, codes, map, true, false, [], ◌∷◌, Some, None, Ok, Err};
ghost use Rattle.std.specs.declared.net.socket_addr.SocketAddr.TheVariants.{V4, V6};
ghost use Rattle.std.specs.declared.net.socket_addr.SocketAddrV6.{SocketAddrV6};
ghost use Rattle.mg_bytes.specs.Lines.{cut};
ghost use Rattle.live_io.specs.Example.{socket_at, everywhere, here, there};
ghost use Rattle.live_io.specs.Keeping.{told_of, Keeps, KeepsArrival, Receives};
ghost use Rattle.live_io.specs.Requests.{is_answer, is_request, requests_from, is_from, is_from_any, is_own};
ghost use Rattle.live_io.specs.Sending.{found_by, received_at};
ghost use Rattle.live_io.specs.Typing.{behind};
ghost use Rattle.live_io.specs.declared.scripted.Scripted.{Scripted};
ghost use Rattle.live_io.specs.declared.surroundings.Fault.{Fault};

/// Each sentence at an example.
pub fn each_sentence_has_an_example()
    // Each answer of `rgwd` is known by its beginning, and each line of its counts.
    ensures done { is_answer (codes "done") ≡ true }
    ensures answers_of_a_gateway_are_known_unknown { is_answer (codes
        "? phone LINE off|on|flash|KEY, show LINE|all, watch SECONDS, counts, or stop") ≡ true }
    ensures answers_of_a_gateway_are_known_refused { is_answer (codes "! 4 NoSuchLine") ≡ true }
    ensures from_afar { is_answer (codes "! stop is taken from a loopback address alone, 127.0.0.0/8") ≡ true }
    ensures shown { is_answer (codes "line 1 on") ≡ true }
    ensures datagrams { is_answer (codes "datagrams in 3 out 4") ≡ true }
    ensures commands { is_answer (codes "commands EPCF 0 RQNT 1") ≡ true }
    ensures responses { is_answer (codes "responses 2 no message 0") ≡ true }
    ensures answers { is_answer (codes "answers 200 1 repeated 0") ≡ true }
    ensures notifications { is_answer (codes "notifications 1 repeated 0") ≡ true }
    ensures announcements { is_answer (codes "announcements 1 repeated 0") ≡ true }
    ensures lost { is_answer (codes "lost events 0 refused 0") ≡ true }
    ensures faults { is_answer (codes "faults receive 0 send 0") ≡ true }
    ensures strangers { is_answer (codes "strangers 0 lost commands 0") ≡ true }
    ensures records { is_answer (codes "records dropped 0 write faults 0") ≡ true }
    // So is what who watches is told.
    ensures begun { is_answer (codes "watching from 17 at 5000") ≡ true }
    ensures change { is_answer (codes "change 17 at 5020 line 1 off") ≡ true }
    ensures full { is_answer (codes "! 8 watch already") ≡ true }
    ensures asked { is_request (codes "watch 60") ≡ true }
    ensures all { is_request (codes "show *") ≡ true }
    ensures what_watchers_are_told_is_known_longer { is_request (codes "changes 17") ≡ true }
    // So is each of `rgca`.
    ensures issued { is_answer (codes "issued 17") ≡ true }
    ensures answers_of_an_agent_are_known_unknown { is_answer (codes "? VERB NAME, counts, or stop") ≡ true }
    ensures calls { is_answer (codes "calls 1 set up 1") ≡ true }
    ensures network { is_answer (codes "network lost 0 copied 0 late 0") ≡ true }
    ensures bare { is_answer (codes "?") ≡ true }
    ensures answers_of_an_agent_are_known_refused { is_answer (codes "!") ≡ true }
{}

/// Each sentence at an example.
pub fn further_sentences_have_examples()
    // What is asked for is no answer, though it begins alike, and an empty line asks for nothing.
    ensures counts { is_request (codes "counts") ≡ true }
    ensures act { is_request (codes "phone 1 off") ≡ true }
    ensures show { is_request (codes "show 1") ≡ true }
    ensures stop { is_request (codes "stop") ≡ true }
    ensures command { is_request (codes "AUEP aaln/1@rgw.example.net") ≡ true }
    ensures requests_are_no_answers_longer { is_request (codes "lines 1") ≡ true }
    ensures other_case { is_request (codes "Done") ≡ true }
    ensures behind { is_request (codes "is it done?") ≡ true }
    ensures requests_are_no_answers_empty { is_request [] ≡ false }
    ensures answer { is_request (codes "done") ≡ false }
    // Lines of answers are passed over, and what stands behind them is asked for none the less, a line behind the other.
    ensures between { requests_from (cut (codes "done\n\nshow 1\ndone\n")) ≡ codes "show 1\n" ∷ codes "done\n" ∷ [] }
    ensures answers_are_passed_over_none { requests_from (cut (codes "done\r\n! 1 OutOfMemory\r\n")) ≡ [] }
    ensures blanks { requests_from (cut (codes " ? phone\n\tline 1 on\ncounts")) ≡ codes "counts" ∷ [] }
    ensures answers_are_passed_over_nothing { requests_from [] ≡ [] }
    ensures next { requests_from (behind (requests_from (cut (codes "\nshow 1\ndone\ncounts\n")))) ≡ codes "counts\n" ∷ [] }
    ensures last { requests_from (behind (codes "counts\n" ∷ [])) ≡ [] }
    ensures behind_nothing { behind [] ≡ [] }
    // What comes from a socket of the program's own is known by its address and port; of a socket that listens at each address of
    // the machine by its port.
    ensures own { is_from (socket_at here 2500) (socket_at here 2500) ≡ true }
    ensures other_port { is_from (socket_at here 2501) (socket_at here 2500) ≡ false }
    ensures other_host { is_from (socket_at there 2500) (socket_at here 2500) ≡ false }
    ensures anywhere { is_from (socket_at there 2500) (socket_at everywhere 2500) ≡ true }
    ensures anywhere_else { is_from (socket_at there 2501) (socket_at everywhere 2500) ≡ false }
    ensures nowhere { is_from (socket_at everywhere 2500) (socket_at here 2500) ≡ false }
    ensures first { is_from_any (socket_at here 2500 ∷ socket_at here 2427 ∷ []) (socket_at here 2500) ≡ true }
    ensures second { is_from_any (socket_at here 2500 ∷ socket_at here 2427 ∷ []) (socket_at here 2427) ≡ true }
    ensures own_sockets_are_known_none { is_from_any (socket_at here 2500 ∷ socket_at here 2427 ∷ []) (socket_at here 40000) ≡ false }
    ensures of_its_kind { is_own (socket_at here 2500 ∷ []) (V4 (socket_at here 2500)) ≡ true }
    ensures of_another_kind { (sender : SocketAddrV6) → is_own (socket_at everywhere 2500 ∷ []) (V6 sender) ≡ false }
    // What is received is the front of the room, as long as is said, with its source; where nothing came, or the socket failed, it is
    // nothing.
    ensures front { received_at (Ok (Some (socket_at here 2427, 2))) (7 ∷ 8 ∷ 9 ∷ [])
        ≡ record { source = socket_at here 2427; bytes = 7 ∷ 8 ∷ [] } ∷ [] }
    ensures what_is_received_stands_at_the_front_of_the_room_empty { received_at (Ok (Some (socket_at here 2427, 0))) (7 ∷ [])
        ≡ record { source = socket_at here 2427; bytes = [] } ∷ [] }
    ensures what_is_received_stands_at_the_front_of_the_room_nothing { received_at (Ok None) (7 ∷ []) ≡ [] }
    ensures fault { (fault : Fault) → received_at (Err fault) (7 ∷ []) ≡ [] }
    ensures found { found_by (Some (socket_at there 2727, 1)) (7 ∷ 8 ∷ []) ≡ record { source = socket_at there 2727; bytes = 7 ∷ [] } ∷ [] }
{}

/// What is kept is still told, behind all that was; where memory is refused for a copy nothing is told any more. What is found comes, and
/// nothing else does.
pub fn what_is_kept_is_told()
    ensures kept { (is_whole : Bool) → Keeps {A = ℕ} true (1 ∷ []) 2 is_whole (1 ∷ 2 ∷ []) → told_of {A = ℕ} is_whole (1 ∷ 2 ∷ []) ≡ Some (1 ∷ 2 ∷ []) }
    ensures before { (is_whole : Bool) → Keeps {A = ℕ} true (1 ∷ []) 2 is_whole (2 ∷ 1 ∷ []) → ⊥ }
    ensures refused { (is_whole : Bool) → Keeps {A = ℕ} true (1 ∷ []) 2 is_whole (1 ∷ []) → told_of {A = ℕ} is_whole (1 ∷ []) ≡ None }
    ensures never_again { (is_whole : Bool) (are : List ℕ) → Keeps {A = ℕ} false [] 2 is_whole are → told_of is_whole are ≡ None }
    ensures found { (was is : Scripted) → Receives was (Ok (Some (socket_at there 2727, 1))) (7 ∷ 8 ∷ []) is
        → KeepsArrival was.received (record { source = socket_at there 2727; bytes = 7 ∷ [] }) is.received }
    ensures nothing { (was is : Scripted) → Receives was (Ok None) (7 ∷ []) is → is.received ≡ was.received }
    ensures fault { (fault : Fault) (was is : Scripted) → Receives was (Err fault) (7 ∷ []) is → is.received ≡ was.received }
{}
