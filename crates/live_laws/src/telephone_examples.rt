//! Worked examples, as theorems, of what who watches is told, of what the page is shown, and of what is left of records that were kept.
#![tactic(auto, unfolding(crate::proofs::Opening::on_pictures))]

ghost use Rattle.std.specs.Prelude.{◌≡◌, ⊤, ℕ, ◌++◌, codes, List, [], ◌∷◌, Option, Some, None};
ghost use Rattle.std.specs.Global.{Box};
ghost use Rattle.std.specs.Option.{unwrap_or};
ghost use Rattle.log_format.specs.File.{file_head};
ghost use Rattle.log_format.specs.Packet.{Packet};
ghost use Rattle.gateway_core.specs.GatewayState.{GatewayState};
ghost use Rattle.page_state.specs.declared.counts.Counts.{Counts};
ghost use Rattle.page_state.specs.declared.picture.ConnectionView.{ConnectionView};
ghost use Rattle.page_state.specs.declared.picture.SignalView.{SignalView};
ghost use Rattle.page_state.specs.MetricsShowing.{connection_shown, signal_shown};
ghost use Rattle.line_changes.specs.Changes.{changes_of};
ghost use Rattle.line_changes.specs.Seen.{SeenLine};
ghost use Rattle.output_queues.specs.Backlog.{sum_within};
ghost use Rattle.output_queues.specs.Recording.{faults_of};
ghost use Rattle.output_queues.specs.Written.{written_line};
ghost use Rattle.output_queues.specs.declared.outlet.Outlet.{Outlet};
ghost use Rattle.output_queues.specs.declared.outlets.Outlets.{Outlets};
ghost use Rattle.output_queues.specs.declared.record.RecordState.{RecordState};
ghost use Rattle.output_queues.specs.declared.record.RecordState.TheVariants.{Off, On, OutOfMemory};
ghost use Rattle.output_queues.specs.declared.written.Written.{Written};
ghost use Rattle.message_counts.specs.Reporting.{report_text};
ghost use Rattle.message_counts.specs.declared.reporting.Faults.{Faults};
ghost use Rattle.page_state.specs.BoardShowing.{BoardState};
ghost use Rattle.plain_machine.specs.Lists.{lost_of};
ghost use Rattle.plain_machine.specs.Machine.{Machine};
ghost use Rattle.plain_machine.specs.declared.setup.Setup.{Setup};
ghost use Rattle.told_messages.specs.declared.log.Log.{Log};
ghost use Rattle.live_journal.specs.Capturing.{BeginsFile, Captures};
ghost use Rattle.live_journal.specs.Reporting.{counts_with};
ghost use Rattle.live_journal.specs.Writing.{capture_faults, IsWritten, KeepsCapture, KeepsLog};
ghost use Rattle.live_journal.specs.declared.capture.Capture.{Capture};
ghost use Rattle.live_journal.specs.declared.journal.Journal.{Journal};
ghost use Rattle.telephone_control.specs.Losses.{lost_of_lines};
ghost use Rattle.telephone_control.specs.Paging.{acts_of, IsSameBeside, ShowsOn, ShowsPage};
ghost use Rattle.telephone_control.specs.Picturing.{capture_written, codes_from, files_written, verbs_from, with_numbers};
ghost use Rattle.telephone_control.specs.Seeing.{highest_port, seen_of, seen_with};
ghost use Rattle.telephone_control.specs.Viewing.{connections_in, signals_in};
ghost use Rattle.telephone_control.specs.Watching.{changes_behind, lines_seen, TellsEach};

/// What wasn't seen before hasn't changed. Who has no place is told nothing, and so is nobody. Lines are seen from the first on, each as it
/// is; one of which something can't be told isn't.
pub fn what_who_watches_is_told_has_examples()
    ensures unseen { (seen : SeenLine) → changes_behind None seen ≡ [] }
    ensures seen { (was is : SeenLine) → changes_behind (Some was) is ≡ changes_of was is }
    ensures nobody { (after : ℕ) → TellsEach (λ before to text after. ⊥) 5 [] 3 (codes "a") after → after ≡ 3 }
    ensures no_place { (after : ℕ) → TellsEach (λ before to text after. ⊥) 5 (None ∷ None ∷ []) 3 (codes "a") after → after ≡ 3 }
    ensures no_line { (setup : Setup) (m : Machine) → lines_seen setup m 0 ≡ [] }
    ensures lines { (setup : Setup) (m : Machine) → lines_seen setup m 2 ≡ seen_of setup m 1 ∷ seen_of setup m 2 ∷ [] }
    ensures untold { (setup : Setup) (seen : SeenLine) → seen_with setup 1 (Some seen.hook) None (Some []) ≡ None }
    ensures no_loss { (m : Machine) → lost_of_lines m 0 ≡ 0 }
    ensures losses { (m : Machine) → lost_of_lines m 1 ≡ sum_within 0 (unwrap_or (lost_of m 1) 0) }
{}

/// No port is above 65,535. The page is shown each signal and each connection of a line, in their order.
pub fn what_the_page_is_shown_of_a_line_has_examples()
    ensures ports { highest_port ≡ 65535 }
    ensures no_signals { signals_in [] ≡ [] }
    ensures signals { (one two : SignalView) → signals_in (one ∷ two ∷ []) ≡ signal_shown one ∷ signal_shown two ∷ [] }
    ensures no_connections { connections_in [] ≡ [] }
    ensures connections { (one two : ConnectionView) → connections_in (one ∷ two ∷ [])
        ≡ connection_shown one ∷ connection_shown two ∷ [] }
{}

/// The page is shown what was counted, in numbers, by verbs, by codes that any had, and by files; a capture without a name isn't among
/// these.
pub fn what_the_page_is_shown_of_counts_has_examples()
    ensures came { (counts : Counts) (journal : Journal) (faults : Faults)
        → ((with_numbers counts journal faults).datagrams_in ≡ journal.tally.value.datagrams_in)
        × ((with_numbers counts journal faults).datagrams_out ≡ journal.tally.value.datagrams_out)
        × ((with_numbers counts journal faults).strangers ≡ journal.tally.value.strangers) }
    ensures given_up { (counts : Counts) (journal : Journal) (faults : Faults)
        → (with_numbers counts journal faults).given_up_by_lines ≡ journal.tally.value.sent.given_up_by_lines }
    ensures failed { (counts : Counts) (journal : Journal) (faults : Faults)
        → ((with_numbers counts journal faults).refused ≡ faults.refused)
        × ((with_numbers counts journal faults).receive_faults ≡ faults.receive)
        × ((with_numbers counts journal faults).send_faults ≡ faults.send)
        × ((with_numbers counts journal faults).dropped_lines ≡ journal.written.dropped) }
    ensures verbs { verbs_from 0 (3 ∷ 5 ∷ []) ≡ record { verb = 0; number = 3 } ∷ record { verb = 1; number = 5 } ∷ [] }
    ensures codes_had { codes_from 200 (2 ∷ 0 ∷ 1 ∷ []) ≡ record { code = 200; number = 2 } ∷ record { code = 202; number = 1 } ∷ [] }
    ensures nameless { capture_written [] 3 ≡ [] }
    ensures named { capture_written (codes "a") 3 ≡ (codes "a", 3) ∷ [] }
    ensures files { (journal : Journal) → journal.capture.value.name ≡ []
        → files_written journal
        ≡ (codes "standard output", journal.written.output) ∷ (codes "standard error", journal.written.error) ∷ [] }
    ensures told { (journal : Journal) (faults : Faults) → counts_with journal 3 faults
        ≡ report_text journal.tally.value 3 faults ++ written_line journal.written journal.capture.value.name }
{}

/// Where there is no page nothing is shown, and where there is one it stays; what it is shown changes neither counts nor records, nor what
/// is asked for there.
pub fn what_the_page_is_shown_has_examples()
    ensures beside { (was is : Journal) → IsSameBeside was is → (is.tally ≡ was.tally) × (is.written ≡ was.written) }
    ensures no_page { (is : Option (Box BoardState)) → ShowsOn (λ picture. ⊤) None is → is ≡ None }
    ensures page { (was : Box BoardState) → ShowsOn (λ picture. ⊤) (Some was) None → ⊥ }
    ensures shown { (was is : Box BoardState) → ShowsOn (λ picture. picture.behind ≡ 3) (Some was) (Some is)
        → (is.value.picture.behind ≡ 3) × (is.value.acts ≡ was.value.acts) × (is.value.ring ≡ was.value.ring) }
    ensures counts { (gateway : GatewayState) (faults : Faults) (was is : Journal) → ShowsPage gateway faults 3 was is
        → is.tally ≡ was.tally }
    ensures no_acts { acts_of None ≡ [] }
    ensures acts { (board : Box BoardState) → acts_of (Some board) ≡ board.value.acts }
{}

/// What was recorded is kept once, and what it tells goes on as before; a capture without a file keeps what it has. What became of it is
/// told as it stands with each. A file that begins has its head before what isn't written yet.
pub fn what_is_left_of_records_has_examples()
    ensures log { (was is : Log) → KeepsLog was is
        → (is.record.out.items ≡ []) × (is.record.state ≡ was.record.state) × (is.domain ≡ was.domain) }
    ensures no_file { (was is : Capture) → KeepsCapture {F = ℕ} None was is → is ≡ was }
    ensures file { (file : Box (Outlet ℕ)) (was is : Capture) → KeepsCapture (Some file) was is
        → (is.record.out.items ≡ []) × (is.name ≡ was.name) }
    ensures no_faults { capture_faults {F = ℕ} None ≡ 0 }
    ensures faults { (file : Box (Outlet ℕ)) → capture_faults (Some file) ≡ faults_of file.value.state }
    ensures written { (outlets : Outlets ℕ) (written : Written) → IsWritten outlets written
        → (written.output ≡ faults_of outlets.output.value.state) × (written.error ≡ faults_of outlets.error.value.state) }
    ensures unwritten { (outlets : Outlets ℕ) (written : Written) → outlets.capture ≡ None → IsWritten outlets written
        → written.capture ≡ 0 }
    ensures off { (state : RecordState) (are : List ℕ) → BeginsFile Off (codes "a") state are → (state ≡ Off) × (are ≡ codes "a") }
    ensures on { (are : List ℕ) → BeginsFile On (codes "a") On are → are ≡ file_head ++ codes "a" }
    ensures refused { (state : RecordState) (are : List ℕ) → BeginsFile OutOfMemory [] state are → state ≡ OutOfMemory }
    ensures captured { (was is : Capture) (packet : Packet) → Captures was packet is → (is.here ≡ was.here) × (is.name ≡ was.name) }
{}
