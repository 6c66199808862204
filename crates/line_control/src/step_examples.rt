//! Worked examples of what a step does to a line, as theorems.
#![tactic(auto, unfolding(crate::proofs::Computing::on_examples))]

ghost use Rattle.std.specs.Prelude.{◌≡◌, [], ◌∷◌, ℕ, true, false, List, Option, Some, None, codes, IsPermutation};
ghost use Rattle.std.specs.Global.{Box};
ghost use Rattle.mgcp_text.specs.Reading.{bad_body, bad_version, no_header};
ghost use Rattle.call_processing.specs.declared.fate.Cause.TheVariants as causes;
ghost use Rattle.call_processing.specs.declared.fate.PutOff.{PutOff};
ghost use Rattle.call_processing.specs.Exchange.{ExchangeState, opening, sent_to, told, answered, cleared_at};
ghost use Rattle.agent_log.specs.declared.journal.Journal.{Journal};
ghost use Rattle.agent_log.specs.declared.station.Station.{Station};
ghost use Rattle.agent_log.specs.Standings.{with_change};
ghost use Rattle.line_control.specs.declared.care.Care.{Care};
ghost use Rattle.line_control.specs.declared.care.Change.TheVariants as changes;
ghost use Rattle.line_control.specs.declared.care.Duty.TheVariants.{Clear, Audit, Route};
ghost use Rattle.line_control.specs.declared.care.Shown.{Shown};
ghost use Rattle.line_control.specs.declared.office.Office.{Office};
ghost use Rattle.line_control.specs.Duties.{announced, begun, changed_by, duty_answered, first_duty, found, held_from, held_or, is_due_at};
ghost use Rattle.line_control.specs.Duties.{landed, last_duty, lost, new_care, owed, routed_by, told_care, told_of, told_still, woken};
ghost use Rattle.line_control.specs.Hooks.{hook_at, hook_by, hook_or};
ghost use Rattle.line_control.specs.Orders.{Shown as ShownOrder, cared, fixed_or, ordered_by};
ghost use Rattle.line_control.specs.Showing.{Shows, ShowsIn, shown_in};
ghost use Rattle.line_control.specs.Steps.{Begins, BeginsAs, Forgets, Hears, ToldOf, landed_if};
ghost use Rattle.line_control.specs.Turns.{cleared_by, AnswersAudit, TakesAudit, TellsAudit};
ghost use Rattle.line_control.specs.Waiting.{IsWaiting, Settles, Touches};
ghost use Rattle.line_control.specs.declared.worklist.Worklist.{Worklist};
ghost use Rattle.line_control.specs.Example.{audited, cleared, creating, found_off, param};

use agent_log::Standing;
use call_processing::{Outcome, Told};

/// What becomes of a line.
pub fn steps_at_a_line_have_examples()
    // What was given up is owed again; a command of the exchange's counts as given up.
    ensures given_up { Forgets 1 creating (cleared ∷ begun cleared ∷ []) creating (cleared ∷ cleared ∷ []) }
    ensures given_up_routed { Forgets 1 creating (cleared ∷ begun audited ∷ []) (answered creating 1 Outcome.GivenUp)
        (cleared ∷ audited ∷ []) }
    // What it told is told to the exchange; what an audit found before says nothing new; where memory is refused for digits, its hook is
    // asked for, and where there are none it isn't.
    ensures told { Hears (Some Told.OffHook) false 0 creating (audited ∷ cleared ∷ []) (told creating 0 Told.OffHook)
        (told_care audited ∷ cleared ∷ []) }
    ensures found_before { Hears (Some Told.OffHook) false 0 creating (found_off ∷ []) (told creating 0 Told.Flash)
        (told_care found_off ∷ []) }
    ensures says_nothing { Hears None false 0 creating (audited ∷ []) creating (told_care audited ∷ []) }
    ensures unread { Hears (Some (Told.Dialled None)) true 0 creating (audited ∷ []) creating (owed (told_care audited) Audit ∷ []) }
    ensures read { (cares kept : List Care) (was is : ExchangeState) → Hears (Some Told.OnHook) false 0 was cares is kept →
        kept ≡ cared told_care cares 0 }
    // How it stands is kept as that is told.
    ensures stands { ToldOf 1 creating (cleared ∷ audited ∷ []) creating (cleared ∷ told_of (shown_in creating 1) audited ∷ []) }
    // What is next begins: a duty beside the exchange, or the exchange's command. While the line is held nothing does, and where the
    // exchange has nothing to be sent, nothing is in flight behind it.
    ensures deletion { Begins 0 creating (new_care ∷ []) creating (begun new_care ∷ []) }
    ensures held { Begins 0 creating (begun new_care ∷ []) creating (begun new_care ∷ []) }
    ensures routed { Begins 1 (opening 2 0) (cleared ∷ audited ∷ []) (sent_to (opening 2 0) 1) (cleared ∷ begun audited ∷ []) }
    ensures nothing_due { Begins 1 (sent_to (opening 2 0) 1) (cleared ∷ audited ∷ []) (sent_to (opening 2 0) 1)
        (cleared ∷ audited ∷ []) }
    ensures no_line { Begins 2 creating (new_care ∷ []) creating (new_care ∷ []) }
{}

/// What is told of how a line stands.
pub fn what_is_shown_has_examples()
    ensures none { (stations : List Station) (office : Option (Box Office)) (journal : Journal) →
        ShowsIn stations None office journal journal }
    ensures no_exchange { (stations : List Station) (journal : Journal) → ShowsIn stations (Some 0) None journal journal }
    ensures no_line { (stations : List Station) (office : Box Office) (journal : Journal) → office.value.cares.items ≡ [] →
        ShowsIn stations (Some 0) (Some office) journal journal }
    // It counts where it stands otherwise, and only there; nothing but what is told and counted has changed.
    ensures same { (stations : List Station) (shown : Shown) (journal now : Journal) → Shows stations 0 shown shown journal now →
        now.tally ≡ journal.tally }
    ensures dials { (stations : List Station) (shown : Shown) (journal now : Journal) →
        Shows stations 0 (record shown { standing = Standing.Rest }) (record shown { standing = Standing.Dialling }) journal now →
        now.tally ≡ with_change Standing.Rest Standing.Dialling journal.tally }
    ensures log { (stations : List Station) (was is : Shown) (journal now : Journal) → Shows stations 0 was is journal now →
        now.log ≡ journal.log }
{}

/// Who waits behind what has happened to a line: that line, the other ends of its calls, and whoever waited.
pub fn who_waits_has_examples()
    ensures itself { (was is : Office) → Touches 1 was is → IsWaiting is.worklist 1 }
    ensures left { (was is : Office) → was.exchange ≡ creating → Touches 1 was is → IsWaiting is.worklist 3 }
    ensures joined { (was is : Office) → is.exchange ≡ creating → Touches 1 was is → IsWaiting is.worklist 3 }
    ensures others { (was is : Office) → was.worklist.is_all ≡ true → Touches 1 was is → IsWaiting is.worklist 5 }
    // Those that are settled now are the same.
    ensures settled { (was is : Office) → Touches 1 was is → is.worklist.settled ≡ was.worklist.settled }
    ensures settles_all { (was is : Office) → Touches 1 was is → is.worklist.settles_all ≡ was.worklist.settles_all }
    // Those that waited are settled from then on, and nobody waits.
    ensures begins { (was is : Worklist) → Settles was is → IsPermutation was.waiting.items is.settled.items }
    ensures begins_all { (was is : Worklist) → Settles was is →
        (is.settles_all ≡ was.is_all) × (is.waiting.items ≡ []) × (is.is_all ≡ false) }
{}

/// What happens to what is kept of a line is one change of it.
pub fn what_changes_has_examples()
    ensures begins { (care : Care) → changed_by changes.Begin care ≡ begun care }
    ensures lands { (care : Care) → changed_by changes.Land care ≡ landed care }
    ensures is_lost { (care : Care) → changed_by changes.Lose care ≡ lost care }
    ensures tells { (care : Care) → changed_by changes.Tell care ≡ told_care care }
    ensures owes { (care : Care) → changed_by changes.OweAudit care ≡ owed care Audit }
    ensures is_announced { (care : Care) → changed_by (changes.Announce true) care ≡ announced true care }
    ensures is_found { (care : Care) → changed_by (changes.Find true) care ≡ found true care }
    ensures is_shown { (shown : Shown) (care : Care) → changed_by (changes.Show shown) care ≡ told_of shown care }
    ensures is_answered { (care : Care) → changed_by (changes.Answer 70 500 Audit) care ≡ duty_answered 70 500 Audit care }
    ensures is_routed { (off : Option PutOff) (care : Care) → changed_by (changes.Routed 70 off) care ≡ routed_by 70 off care }
    ensures wakes { (care : Care) → changed_by (changes.Wake 70) care ≡ woken 70 care }
    // What was put off has its own moment.
    ensures never { is_due_at None 70 ≡ false }
    ensures now { is_due_at (Some 70) 70 ≡ true }
    ensures another { is_due_at (Some 71) 70 ≡ false }
    // What comes before it: where it may be put off no more, and where it is put off first.
    ensures last_hook { last_duty causes.Hook ≡ Audit }
    ensures last_request { last_duty causes.Request ≡ Audit }
    ensures last_connection { last_duty causes.Connection ≡ Clear }
    ensures first_hook { first_duty causes.Hook ≡ Some Audit }
    ensures first_request { first_duty causes.Request ≡ None }
    ensures first_connection { first_duty causes.Connection ≡ None }
    ensures nothing_before { (care : Care) → held_or 70 None care ≡ held_from 70 care }
    ensures audited_before { (care : Care) → held_or 70 (Some Audit) care ≡ owed care Audit }
    // What a line told before it is audited is older than that.
    ensures before { told_still Audit true ≡ false }
    ensures clearing { told_still Clear true ≡ true }
    ensures routing { told_still Route true ≡ true }
{}

/// What an answer to an audit tells, and what a line is sent or begins, where the parts of that are so.
pub fn what_parts_are_has_examples()
    // The first event state that tells a hook counts.
    ensures first { hook_or (Some false) (Some true) ≡ Some false }
    ensures later { hook_or None (Some true) ≡ Some true }
    ensures untold { hook_at None ≡ None }
    ensures told { hook_at (Some (param (codes "ES") (codes "L/hd"))) ≡ Some true }
    ensures no_header { hook_by no_header ≡ None }
    ensures bad_version { hook_by (bad_version 7) ≡ None }
    ensures bad_body { hook_by (bad_body 7) ≡ None }
    // The commands that the exchange doesn't know of come before its own.
    ensures fixed { (other : Option ShownOrder) → fixed_or (Some (codes "DLCX", [])) other ≡ Some (codes "DLCX", []) }
    ensures not_fixed { (other : Option ShownOrder) → fixed_or None other ≡ other }
    ensures no_duty { (exchange : ExchangeState) (map : List ℕ) → ordered_by None exchange 1 map ≡ None }
    ensures clearing { (exchange : ExchangeState) (map : List ℕ) → ordered_by (Some Clear) exchange 1 map ≡ Some (codes "DLCX", []) }
    // A duty beside the exchange begins without it.
    ensures begins_fixed { BeginsAs (Some (codes "DLCX", [])) 0 creating (new_care ∷ []) creating (begun new_care ∷ []) }
    ensures begins_routed { BeginsAs None 1 (opening 2 0) (cleared ∷ audited ∷ []) (sent_to (opening 2 0) 1)
        (cleared ∷ begun audited ∷ []) }
    ensures lands { landed_if true (begun cleared ∷ []) 0 ≡ landed (begun cleared) ∷ [] }
    ensures stays { landed_if false (begun cleared ∷ []) 0 ≡ begun cleared ∷ [] }
    // An answer that is put off is nothing to the exchange; nor is one to an audit where the line has told something newer.
    ensures put_off { (exchange : ExchangeState) → cleared_by true exchange 1 250 ≡ exchange }
    ensures over { (exchange : ExchangeState) → cleared_by false exchange 1 250 ≡ cleared_at exchange 1 250 }
    ensures audit_put_off { AnswersAudit true 1 (codes "200 7 OK\r\nES: L/hu\r\n") creating (cleared ∷ []) creating (cleared ∷ []) }
    ensures older { TakesAudit true 1 (codes "200 7 OK\r\nES: L/hu\r\n") creating (cleared ∷ []) creating (cleared ∷ []) }
    ensures older_still { (text : List ℕ) (is : ExchangeState) (kept : List Care) → TakesAudit true 1 text creating [] is kept →
        is ≡ creating }
    ensures found_lifted { TellsAudit Told.OffHook 0 creating (audited ∷ []) (told creating 0 Told.OffHook) (found true audited ∷ []) }
{}
