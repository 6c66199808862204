//! Worked examples of the definitions, as theorems: each sentence of a definition has one that a slip in it breaks.
#![tactic(auto, unfolding(crate::proofs::Computing::on_examples))]

ghost use Rattle.std.specs.Prelude.{◌≡◌, ℕ, List, Option, None, Some, Ok, Err, codes, map, replicate, true, false, [], ◌∷◌};
ghost use Rattle.std.specs.Borrow.{Bor};
ghost use Rattle.std.specs.Global.{Box};
ghost use Rattle.impairment.specs.Drawing.{seeded};
ghost use Rattle.impairment.specs.Naming.{named, mixed, mixed_with};
ghost use Rattle.impairment.specs.declared.packet.Packet.{Packet};
ghost use Rattle.impairment.specs.declared.packet.Way.TheVariants.{In, Out};
ghost use Rattle.endpoint_names.specs.declared.route.Route.TheVariants.{One, Two};
ghost use Rattle.mg_line.specs.declared.phone.Act.TheVariants.{OffHook};
ghost use Rattle.small_rules.specs.Counting.{counted};
ghost use Rattle.told_messages.specs.Recording.{Records, unsent_text};
ghost use Rattle.told_messages.specs.Strangers.{stranger_text};
ghost use Rattle.told_messages.specs.declared.log.Log.{Log};
ghost use Rattle.log_format.specs.File.{file_head};
ghost use Rattle.output_queues.specs.Recording.{state_when};
ghost use Rattle.output_queues.specs.Written.{faults_in};
ghost use Rattle.output_queues.specs.declared.record.RecordState.TheVariants.{Off, On};
ghost use Rattle.live_journal.specs.declared.capture.Capture.{Capture};
ghost use Rattle.live_journal.specs.declared.journal.Journal.{Journal};
ghost use Rattle.live_gateway.specs.declared.opening.DeskSettings.{DeskSettings};
ghost use Rattle.std.specs.declared.net.socket_addr.SocketAddrV4.{SocketAddrV4};
ghost use Rattle.message_counts.specs.Tallying.{with_received, with_stranger};
ghost use Rattle.message_counts.specs.declared.message_tally.MessageTally.{MessageTally};
ghost use Rattle.message_counts.specs.declared.reporting.Faults.{Faults};
ghost use Rattle.page_state.specs.declared.counts.Counts.{Counts as Counted};
ghost use Rattle.rgw_scripts.specs.Moves.{Move, Shown};
ghost use Rattle.traces.specs.declared.telling.Mark.{Mark};
ghost use Rattle.traces.specs.declared.telling.Mark.TheVariants.{Unsent, Lost};
ghost use Rattle.traces.specs.Writing.{arrived, typed, passed, showed, became};
ghost use Rattle.live_play.specs.Coming.{arrived_in};
ghost use Rattle.live_io.specs.Sending.{Received};
ghost use Rattle.live_io.specs.declared.surroundings.Fault.{Fault};
ghost use Rattle.live_io.specs.Speaking.{nobody, may_speak, admitted_by};
ghost use Rattle.telephone_control.specs.declared.telephones.Typist.TheVariants.{Here, Elsewhere, Stranger};
ghost use Rattle.telephone_control.specs.declared.telephones.TelephoneRequest.TheVariants.{Act, Show, ShowAll, Watch, Counts, Stop, StopFromAfar, Refused, Unknown};
ghost use Rattle.live_gateway.specs.declared.admission.Admission.{Admission};
ghost use Rattle.telephone_control.specs.Admitting.{typist_of};
ghost use Rattle.live_gateway.specs.Admitting.{with_hosts, hosts_of, with_named, is_its_own, is_heard, heard_of};
ghost use Rattle.telephone_control.specs.Asking.{request_in, wants_memory};
ghost use Rattle.live_gateway.specs.Naming.{no_word, listed, with_all, with_each};
ghost use Rattle.telephone_control.specs.Picturing.{with_traffic, with_own, with_faults};
ghost use Rattle.line_changes.specs.declared.watchers.Watcher.{Watcher};
ghost use Rattle.line_changes.specs.Telling.{watching_line};
ghost use Rattle.line_changes.specs.Watching.{with_watcher};
ghost use Rattle.telephone_control.specs.Watching.{full_text, AnswersWatch};
ghost use Rattle.live_laws.specs.Example.{host, at_port, looped, anywhere, sockets};
ghost use Rattle.live_gateway.specs.declared.exchange.Exchange.{Exchange};
ghost use Rattle.live_gateway.specs.declared.spoilt_way.SpoiltWay.{SpoiltWay};
ghost use Rattle.live_gateway.specs.Offering.{came_from, came_over, brought};
ghost use Rattle.live_gateway.specs.Exchanging.{faultless, received_by, refusals, with_refused, with_mark, with_unreceived, IsSameTurn};
ghost use Rattle.impairment.specs.declared.spoiling.Spoiling.{Spoiling};
ghost use Rattle.page_state.specs.BoardShowing.{BoardState};
ghost use Rattle.live_io.specs.Typing.{left_of};
ghost use Rattle.live_io.specs.declared.lines.Lines.{Lines};
ghost use Rattle.live_play.specs.declared.play.LivePlay.{LivePlay};
ghost use Rattle.live_gateway.specs.Opening.{CountsNothing, BeginsBoard, BeginsNetwork, BeginsLog, BeginsCapture, BeginsRecords, IsUnused, IsUnplayed, IsUntyped};
ghost use Rattle.live_gateway.specs.Noting.{TurnsAway, NotesArrival, NotesLate, with_strangers, with_found, CountsFound};

/// Each sentence at an example.
pub fn each_sentence_has_an_example()
    // A line has one of six words, or asks for nothing that can be done: other steps of a script can't be asked for.
    ensures act { request_in Elsewhere (codes "phone 1 off") ≡ Act 1 OffHook }
    ensures show { request_in Elsewhere (codes "show 2") ≡ Show 2 }
    ensures counts { request_in Elsewhere (codes "counts") ≡ Counts }
    ensures stop { request_in Here (codes "stop") ≡ Stop }
    ensures lines_ask_for_this_afar { request_in Elsewhere (codes "stop") ≡ StopFromAfar }
    ensures longer { request_in Here (codes "counts ") ≡ Unknown }
    ensures tick { request_in Here (codes "tick 10") ≡ Unknown }
    ensures moment { request_in Here (codes "at 10") ≡ Unknown }
    ensures wait { request_in Here (codes "wait 10") ≡ Unknown }
    ensures raw { request_in Here (codes "raw 10.0.0.1:2427 30") ≡ Unknown }
    ensures sender { request_in Here (codes "from 10.0.0.1:2427") ≡ Unknown }
    ensures lines_ask_for_this_nothing { request_in Here [] ≡ Unknown }
    ensures all { request_in Elsewhere (codes "show *") ≡ ShowAll }
    ensures all_by_a_word { request_in Elsewhere (codes "show all") ≡ ShowAll }
    ensures all_where_no_line_stands { request_in Elsewhere (codes "show") ≡ ShowAll }
    ensures all_by_another_word { request_in Here (codes "show every") ≡ Unknown }
    ensures watch { request_in Elsewhere (codes "watch 60") ≡ Watch 60 }
    ensures watch_no_more { request_in Here (codes "watch  0") ≡ Watch 0 }
    ensures too_long { request_in Here (codes "watch 61") ≡ Unknown }
    ensures no_time { request_in Here (codes "watch") ≡ Unknown }
    ensures no_number { request_in Here (codes "watch 1s") ≡ Unknown }
    ensures more { request_in Here (codes "watch 60 1") ≡ Unknown }
    ensures lines_ask_for_this_other { request_in Here (codes "watches 60") ≡ Unknown }
    ensures all_and_more { request_in Here (codes "show *1") ≡ Unknown }
    ensures stranger { request_in Stranger (codes "counts") ≡ Refused }
    ensures stranger_watches { request_in Stranger (codes "watch 60") ≡ Refused }
    ensures stranger_shows { request_in Stranger (codes "show *") ≡ Refused }
    // Who wants to watch where eight do is told that.
    ensures a_ninth_is_told { full_text ≡ codes "! 8 watch already\n" }
    // Inputs that were refused are counted, and no other ones.
    ensures refused { (faults : Faults) → with_refused true (record faults { refused = 4 }) ≡ record faults { refused = 5 } }
    ensures taken { (faults : Faults) → with_refused false faults ≡ faults }
    ensures one_more { refusals true 4 ≡ 5 }
    ensures no_more { refusals false 4 ≡ 4 }
    // Nothing failed at the start; what can't be received is counted, and nothing else.
    ensures what_isnt_received_is_counted_none { faultless ≡ record { refused = 0; receive = 0; send = 0 } }
    ensures unreceived { (faults : Faults) → with_unreceived (record faults { receive = 4 }) ≡ record faults { receive = 5 } }
    // A turn is the same where clocks said the same, and as much waits to be taken.
    ensures now { (was is : Exchange ℕ) → IsSameTurn was is → is.now ≡ was.now }
    ensures waits { (was is : Exchange ℕ) → IsSameTurn was is → is.is_offering ≡ was.is_offering }
    // Each address of a host may speak, and no other; of an agent its port doesn't matter.
    ensures each_address_of_a_host_may_speak_first { may_speak (with_hosts nobody (host 7 ∷ host 8 ∷ [])) (host 7) ≡ true }
    ensures each_address_of_a_host_may_speak_second { may_speak (with_hosts nobody (host 7 ∷ host 8 ∷ [])) (host 8) ≡ true }
    ensures each_address_of_a_host_may_speak_other { may_speak (with_hosts nobody (host 7 ∷ host 8 ∷ [])) (host 9) ≡ false }
    ensures each_address_of_a_host_may_speak_none { may_speak (with_hosts nobody []) (host 7) ≡ false }
    ensures named { may_speak (with_named (with_hosts nobody (host 7 ∷ [])) (record { name = []; route = Two (host 8) (host 9) }))
        (host 9) ≡ true }
    ensures still { may_speak (with_named (with_hosts nobody (host 7 ∷ [])) (record { name = []; route = One (host 8) })) (host 7) ≡ true }
    ensures each_address_of_a_host_may_speak_portless { hosts_of (Two (at_port 7 2727) (at_port 8 2728)) ≡ Two (host 7) (host 8) }
{}

/// What a journal gets of who isn't heard, and of what couldn't be sent.
pub fn what_isnt_heard_or_sent_is_noted()
    // A stranger's datagram is counted and noted, one without a port isn't; one that couldn't be sent late is noted, and no other one.
    ensures stranger_counts { (was is : Journal) → TurnsAway was 5 (at_port 9 2727) is
        → is.tally.value ≡ with_stranger was.tally.value }
    ensures stranger_told { (was is : Journal) → TurnsAway was 5 (at_port 9 2727) is
        → Records was.log.value.record (stranger_text was.log.value.quiet 5 (at_port 9 2727)) is.log.value.record }
    ensures portless_stranger { (was is : Journal) → TurnsAway was 5 (at_port 9 0) is → is ≡ was }
    ensures late { (was is : Journal) (fault : Fault) → NotesLate was 5 (at_port 9 2727) (Err fault) is
        → Records was.log.value.record (unsent_text 5 (at_port 9 2727)) is.log.value.record }
    ensures not_late { (was is : Journal) → NotesLate was 5 (at_port 9 2727) (Ok tt) is → is ≡ was }
    // Of what is handed out that alone counts as a fault which isn't sent.
    ensures unsent { (faults : Faults) → with_mark (Some Unsent) (record faults { send = 4 }) ≡ record faults { send = 5 } }
    ensures lost { (faults : Faults) → with_mark (Some Lost) faults ≡ faults }
    ensures sent { (faults : Faults) → with_mark None faults ≡ faults }
{}

/// What is counted of datagrams that come: one that is heard once, those of strangers apart, and nothing else.
pub fn what_comes_is_counted_once()
    ensures heard { (admission : Admission) (was is : Journal) → is_heard admission (at_port 9 2727) ≡ true →
        NotesArrival admission was 5 (at_port 9 2727) is → is.tally.value ≡ with_received was.tally.value }
    ensures stranger { (admission : Admission) (was is : Journal) → is_heard admission (at_port 9 2727) ≡ false →
        NotesArrival admission was 5 (at_port 9 2727) is → TurnsAway was 5 (at_port 9 2727) is }
    ensures strangers { (tally : MessageTally) → with_strangers 2 (record tally { strangers = 3 }) ≡ record tally { strangers = 5 } }
    ensures found { (tally : MessageTally) → with_found (Some (at_port 9 2727, 100)) tally ≡ with_received tally }
    ensures found_none { (tally : MessageTally) → with_found None tally ≡ tally }
    ensures once { (was is : MessageTally) → CountsFound was (Some (at_port 9 2727, 100)) is →
        is.datagrams_in ≡ counted was.datagrams_in 1 }
    ensures none { (was is : MessageTally) → CountsFound was None is → is.datagrams_in ≡ was.datagrams_in }
    ensures rest { (was is : MessageTally) (found : Option (SocketAddrV4 × ℕ)) → CountsFound was found is → is.sent ≡ was.sent }
    ensures at_first { (tally : MessageTally) → CountsNothing tally → tally.places.sends ≡ replicate 5 0 }
{}

/// A gateway begins with nothing: nobody typed, nobody asked the page for anything, no packet waits, nothing failed and nothing was played.
pub fn a_gateway_begins_with_nothing()
    ensures no_page { (board : Box BoardState) → BeginsBoard false (Some board) → ⊥ }
    ensures page { BeginsBoard true None → ⊥ }
    ensures unasked { (board : Box BoardState) → BeginsBoard true (Some board) → board.value.acts ≡ [] }
    ensures unspoilt { (domain : List ℕ) (way : Box SpoiltWay) → BeginsNetwork None domain (Some way) → ⊥ }
    ensures unsent { (spoiling : Spoiling) (domain : List ℕ) (way : Box SpoiltWay) → BeginsNetwork (Some spoiling) domain (Some way)
        → way.value.network.waiting.items ≡ [] }
    ensures spoilt { (spoiling : Spoiling) (domain : List ℕ) (way : Box SpoiltWay) → BeginsNetwork (Some spoiling) domain (Some way)
        → way.value.network.spoiling ≡ named spoiling domain }
    ensures drawn { (spoiling : Spoiling) (domain : List ℕ) (way : Box SpoiltWay) → BeginsNetwork (Some spoiling) domain (Some way)
        → way.value.network.generators.outgoing ≡ seeded (mixed_with (mixed spoiling.outgoing.seed domain) 111) }
    ensures unused { (exchange : Exchange ℕ) → IsUnused exchange → (exchange.faults.send ≡ 0) × (exchange.read ≡ 0) }
    ensures unplayed { (play : LivePlay ℕ) → IsUnplayed play → play.printed.items ≡ [] }
    ensures untyped { (lines : Lines) → IsUntyped lines → (left_of lines ≡ []) × (lines.sender ≡ None) }
{}

/// What a gateway says is told in a log, and captured into a file, where that is asked for; what of it was dropped is counted from 0.
pub fn a_gateway_records_what_is_asked_for()
    ensures unlogged { (domain : List ℕ) (log : Log) → BeginsLog false domain log → log.record.state ≡ Off }
    ensures logged { (log : Log) → BeginsLog true (codes "gw1") log → (log.record.state ≡ On) × (log.record.out.items ≡ []) }
    ensures left_out { (log : Log) → BeginsLog true (codes "gw1") log → log.domain ≡ codes "gw1" }
    ensures unowed { (log : Log) → BeginsLog true (codes "gw1") log → (log.own.entries ≡ []) × (log.arrival ≡ None) }
    ensures silent { (log : Log) → BeginsLog true (codes "gw1") log → (log.sent ≡ 0) × (log.quiet.untold ≡ 0) }
    ensures uncaptured { (here : SocketAddrV4) (capture : Capture) → BeginsCapture None here capture
        → (capture.record.state ≡ Off) × (capture.name ≡ []) }
    ensures captured { (name : Bor (List ℕ)) (here : SocketAddrV4) (capture : Capture) → BeginsCapture (Some name) here capture
        → (capture.here ≡ here) × (capture.name ≡ name.now) }
    ensures head { (name : Bor (List ℕ)) (here : SocketAddrV4) (capture : Capture) → BeginsCapture (Some name) here capture
        → capture.record.state ≡ On → capture.record.out.items ≡ file_head }
    ensures written { (settings : DeskSettings) (domain : List ℕ) (journal : Journal) → BeginsRecords settings domain journal
        → (journal.written.dropped ≡ 0) × (faults_in journal.written ≡ 0) }
    ensures asked { (settings : DeskSettings) (domain : List ℕ) (journal : Journal) → BeginsRecords settings domain journal
        → (journal.log.value.record.state ≡ state_when settings.has_log) × (journal.capture.value.here ≡ settings.here) }
{}

/// Each sentence at an example.
pub fn further_sentences_have_examples()
    // A gateway never hears itself: what has the address and the port of one of its sockets came from there. Of others it hears who may
    // speak, and has a port.
    ensures itself { (admission : Admission) → is_heard (record admission { own = sockets }) (at_port 5 2427) ≡ false }
    ensures telephones { (admission : Admission) → is_heard (record admission { own = sockets }) (at_port 5 2428) ≡ false }
    ensures a_gateway_never_hears_itself_other_port { (admission : Admission) →
        is_heard (record admission { own = sockets }) (at_port 5 2727)
        ≡ may_speak (admitted_by admission.speakers) (host 5) }
    ensures other_host { (admission : Admission) → is_heard (record admission { own = sockets }) (at_port 7 2427)
        ≡ may_speak (admitted_by admission.speakers) (host 7) }
    ensures a_gateway_never_hears_itself_nothing { is_its_own [] (at_port 5 2427) ≡ false }
    ensures a_gateway_never_hears_itself_portless { (admission : Admission) →
        is_heard (record admission { own = sockets }) (at_port 7 0) ≡ false }
    ensures a_gateway_never_hears_itself_none { (admission : Admission) → heard_of (record admission { own = sockets })
        (record { source = at_port 5 2427; bytes = 1 ∷ [] } ∷ record { source = at_port 7 0; bytes = 2 ∷ [] } ∷ []) ≡ [] }
    // Datagrams come in at entries that say so, in their order, and at no other ones.
    ensures arrived { (move : Move) (shown : Shown) → arrived_in (showed (arrived (at_port 7 2727) (1 ∷ 2 ∷ [])) move shown
        ∷ showed (typed (codes "show 1")) move shown ∷ showed (arrived (at_port 8 2728) []) move shown ∷ [])
        ≡ record { source = at_port 7 2727; bytes = 1 ∷ 2 ∷ [] } ∷ record { source = at_port 8 2728; bytes = [] } ∷ [] }
    ensures passed { (move : Move) (shown : Shown) → arrived_in (showed (passed 10) move shown ∷ []) ≡ [] }
    ensures became { (mark : Mark) → arrived_in (became mark 1 ∷ []) ≡ [] }
    // What came is what the socket received, or where a bad network is before it, what that hands over.
    ensures direct { (received : Option (List Received)) → received_by None received ≡ received }
    ensures spoilt { (way : Box SpoiltWay) (received : Option (List Received)) → received_by (Some way) received ≡ came_over way.value }
    ensures unkept { (way : SpoiltWay) → came_over (record way { came = None }) ≡ None }
    ensures source { came_from (record { to = at_port 7 2727; bytes = 1 ∷ [] }) ≡ record { source = at_port 7 2727; bytes = 1 ∷ [] } }
    // A packet that comes in brings so much of its bytes as was put for it; one that goes out brings nothing.
    ensures incoming { (p : Packet) → brought (Some (record p { way = In; peer = at_port 7 2727 }, 2)) (1 ∷ 2 ∷ 3 ∷ [])
        ≡ record { source = at_port 7 2727; bytes = 1 ∷ 2 ∷ [] } ∷ [] }
    ensures outgoing { (p : Packet) → brought (Some (record p { way = Out }, 2)) (1 ∷ 2 ∷ 3 ∷ []) ≡ [] }
    ensures packets_that_come_in_bring_datagrams_none { brought None (1 ∷ []) ≡ [] }
    // A socket at each address of a machine has sent what has its port and an address that no other machine has; who has another address
    // may be an agent at the same port.
    ensures a_socket_at_each_address_sends_from_the_loopback_first { is_its_own (anywhere 2427 ∷ []) (looped 1 2427) ≡ true }
    ensures another { is_its_own (anywhere 2427 ∷ []) (looped 9 2427) ≡ true }
    ensures a_socket_at_each_address_sends_from_the_loopback_other_port { is_its_own (anywhere 2427 ∷ []) (looped 1 2727) ≡ false }
    ensures an_agent { is_its_own (anywhere 2427 ∷ []) (at_port 7 2427) ≡ false }
    ensures at_one { is_its_own sockets (looped 1 2427) ≡ false }
    // Who is at this machine may type anything; who isn't is a stranger, unless the telephones are open; nobody is the page.
    ensures here { typist_of true false false ≡ Here }
    ensures here_where_open { typist_of true false true ≡ Here }
    ensures who_types_is_known_by_the_address_afar { typist_of false true false ≡ Stranger }
    ensures afar_where_open { typist_of false true true ≡ Elsewhere }
    ensures page { typist_of false false false ≡ Elsewhere }
    // A word names each address once, in the order in which they come, and commas part them.
    ensures a_word_names_each_address_once_first { listed [] (codes "10.0.0.7") ≡ codes "10.0.0.7" }
    ensures a_word_names_each_address_once_second { listed (codes "10.0.0.7") (codes "10.0.0.8") ≡ codes "10.0.0.7,10.0.0.8" }
    ensures again { (with_all no_word (host 7 ∷ host 8 ∷ host 7 ∷ [])).text ≡ codes "10.0.0.7,10.0.0.8" }
    ensures route { (with_each no_word (record { name = []; route = Two (host 8) (host 9) })).text ≡ codes "10.0.0.8,10.0.0.9" }
    ensures a_word_names_each_address_once_none { (with_all no_word []).text ≡ [] }
    // The page is shown each count as it is kept.
    ensures traffic { (counts : Counted) (tally : MessageTally) → (with_traffic counts (record tally {
      datagrams_in = 1;
      datagrams_out = 2;
      strangers = 3;
      texts = record tally.texts { responses = 4; others = 5; lost = 6 };
      sent = record tally.sent { again = 7 };
    })) ≡ record counts {
      datagrams_in = 1;
      datagrams_out = 2;
      responses = 4;
      unreadable = 5;
      answers_again = 7;
      strangers = 3;
      lost_commands = 6;
    } }
    ensures own { (counts : Counted) (tally : MessageTally) → (with_own counts (record tally {
      sent = record tally.sent {
        commands = 31 ∷ 32 ∷ 2 ∷ 33 ∷ 34 ∷ 35 ∷ 36 ∷ 37 ∷ 4 ∷ 38 ∷ [];
        commands_again = 21 ∷ 22 ∷ 3 ∷ 23 ∷ 24 ∷ 25 ∷ 26 ∷ 27 ∷ 5 ∷ 28 ∷ [];
        given_up_by_gateway = 8;
        given_up_by_lines = 9;
      };
      places = record tally.places { sends = 1 ∷ 2 ∷ 3 ∷ 4 ∷ 5 ∷ [] };
    })) ≡ record counts {
      notifications = 2;
      notifications_again = 3;
      announcements = 4;
      announcements_again = 5;
      given_up_by_gateway = 8;
      given_up_by_lines = 9;
      sends = 1 ∷ 2 ∷ 3 ∷ 4 ∷ 5 ∷ [];
    } }
    ensures faults { (counts : Counted) (journal : Journal) →
        with_faults counts (record { refused = 8; receive = 9; send = 10 })
        (record journal { written = record journal.written { dropped = 11 } })
        ≡ record counts { refused = 8; receive_faults = 9; send_faults = 10; dropped_lines = 11 } }
{}

/// What is answered to who asks to watch, and what may want memory to be read.
pub fn what_is_asked_is_answered()
    // Who gets a place is told from which number on, and at which moment; who gets none that as many watch as may, and all stays.
    ensures watches { (were are : List (Option Watcher)) → with_watcher were (at_port 1 9) 5000 10 ≡ Some are
        → AnswersWatch were (at_port 1 9) 5000 10 7 (watching_line 7 5000) are }
    ensures full { (were : List (Option Watcher)) → with_watcher were (at_port 1 9) 5000 10 ≡ None
        → AnswersWatch were (at_port 1 9) 5000 10 7 full_text were }
    // A word alone is read without memory.
    ensures words { map wants_memory (ShowAll ∷ Counts ∷ Stop ∷ StopFromAfar ∷ Refused ∷ []) ≡ replicate 5 false }
    ensures watch { wants_memory (Watch 60) ≡ false }
    ensures steps { map wants_memory (Act 1 OffHook ∷ Show 2 ∷ Unknown ∷ []) ≡ replicate 3 true }
{}
