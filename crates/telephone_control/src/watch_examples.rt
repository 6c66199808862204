//! What who watches is told, and what the page is shown of a gateway, at worked examples, as theorems.
#![tactic(auto, unfolding(crate::proofs::Computing::on_examples))]

ghost use Rattle.std.specs.Prelude.{◌≡◌, ◌<◌, ◌++◌, ◌⊎◌, Bool, true, false, None, Some, codes, List, [], ◌∷◌, map, Option};
ghost use Rattle.std.specs.Global.{Box};
ghost use Rattle.plain_machine.specs.Example.{two_lines};
ghost use Rattle.plain_machine.specs.Lists.{plain};
ghost use Rattle.plain_machine.specs.Machine.{Machine};
ghost use Rattle.gateway_core.specs.GatewayState.{GatewayState};
ghost use Rattle.gateway_core.specs.Stands.{Stands};
ghost use Rattle.message_counts.specs.declared.reporting.Faults.{Faults};
ghost use Rattle.page_state.specs.declared.picture.Picture.{Picture};
ghost use Rattle.page_state.specs.MetricsShowing.{LineShown, lines_of};
ghost use Rattle.page_state.specs.declared.act.QueuedAct.{QueuedAct};
ghost use Rattle.page_state.specs.BoardShowing.{BoardState};
ghost use Rattle.line_changes.specs.declared.watchers.Watcher.{Watcher};
ghost use Rattle.line_changes.specs.Example.{resting, lifted};
ghost use Rattle.line_changes.specs.Watching.{nobody};
ghost use Rattle.live_journal.specs.declared.journal.Journal.{Journal};
ghost use Rattle.telephone_control.specs.declared.watch.Watch.{Watch};
ghost use Rattle.telephone_control.specs.Paging.{IsOf, Shows, TakesOldest};
ghost use Rattle.telephone_control.specs.Picturing.{by_name};
ghost use Rattle.telephone_control.specs.Viewing.{lines_in, viewed};
ghost use Rattle.telephone_control.specs.Watching.{with_seen, TellsText, RefusesLine, TellsIf, TellsLine, TellsLines, TellsSome, WatchesOn, WatchesStill, BeginsToSee, IsUnasked, IsUnwatched};
ghost use Rattle.telephone_control.specs.WatchExample.{Heard, hears, somebody, heard_once};

/// Who watches is told what there is to tell, up to the moment before their time ends. A line is seen so at its place, where it has one.
pub fn what_is_told_has_examples()
    ensures nothing { (after : Heard) → TellsText hears 4 somebody [] [] after → after ≡ [] }
    ensures something { (after : Heard) → TellsText hears 4 somebody [] (97 ∷ []) after → after ≡ heard_once (97 ∷ []) }
    ensures over { (after : Heard) → TellsText hears 5 somebody [] (97 ∷ []) after → after ≡ [] }
    ensures placed { with_seen 1 lifted (Some resting) (resting ∷ resting ∷ []) ≡ resting ∷ lifted ∷ [] }
    ensures unplaced { with_seen 1 lifted None (resting ∷ []) ≡ resting ∷ [] }
{}

/// What changed at a line is told under the next number, at the gateway's moment, and the line was seen so then; nothing is told where
/// nothing changed. Of no line nothing is told; of the first one, what changed there. A line that isn't marked isn't looked at.
pub fn what_changes_at_a_line_is_told()
    ensures changed { (was is : Watch) (after : Heard) → was.seen.items ≡ lifted ∷ []
        → was.told ≡ record { number = 7; text = codes "old" } → was.watchers.places ≡ somebody
        → TellsLine hears two_lines (plain two_lines []) 1 [] was after is
        → (after ≡ heard_once (codes "change 7 at 0 line 1 on\n")) × (is.told.number ≡ 8) × (is.seen.items ≡ resting ∷ []) }
    ensures same { (was is : Watch) (after : Heard) → was.seen.items ≡ resting ∷ []
        → was.told ≡ record { number = 7; text = codes "old" } → was.watchers.places ≡ somebody
        → TellsLine hears two_lines (plain two_lines []) 1 [] was after is → (after ≡ []) × (is.told.number ≡ 7) }
    ensures none { (was is : Watch) (after : Heard) → TellsLines hears (true ∷ []) two_lines (plain two_lines []) 0 [] was after is
        → (after ≡ []) × (is ≡ was) }
    ensures one { (was is : Watch) (after : Heard) → TellsLine hears two_lines (plain two_lines []) 1 [] was after is
        → TellsLines hears (true ∷ []) two_lines (plain two_lines []) 1 [] was after is }
    ensures unmarked { (was is : Watch) (after : Heard) → TellsIf false hears two_lines (plain two_lines []) 1 [] was after is
        → (after ≡ []) × (is ≡ was) }
{}

/// Where nobody watches, or no event was taken, nobody is told, and nothing changes. Who watches does so still, or was told last that memory is refused, behind
/// fewer lines than there are.
pub fn who_watches_has_examples()
    ensures unwatched { (taken : Bool) (m : Machine) (was is : Watch) (after : Heard) → was.watchers.places ≡ nobody
        → WatchesOn taken hears [] two_lines m [] was after is → (after ≡ []) × (is ≡ was) }
    ensures untaken { (m : Machine) (was is : Watch) (after : Heard) → WatchesOn false hears [] two_lines m [] was after is
        → (after ≡ []) × (is ≡ was) }
    ensures refused { (was is : Watch) (after : Heard) → was.watchers.places ≡ somebody
        → WatchesOn true hears [] two_lines (plain two_lines []) [] was after is → is.watchers.places ≡ nobody
        → (between : Heard) × (after ≡ between ++ heard_once (codes "! 1 OutOfMemory\n")) }
    ensures goes_on { (are : List (Option Watcher)) (after : Heard) → WatchesStill hears somebody after are
        → (are ≡ somebody) ⊎ (are ≡ nobody) }
    ensures fewer { (was is : Watch) (after : Heard) (some : TellsSome hears [] two_lines (plain two_lines []) [] was after is)
        → some.0 < 2 }
    ensures at_once { (was is : Watch) (after : Heard) (some : TellsSome hears [] two_lines (plain two_lines []) [] was after is)
        → some.0 ≡ 0 → is.seen ≡ was.seen }
{}

/// Where memory is refused for a line it is still seen as it was seen last, and the next change has the number that it would have had, or
/// one behind what changed there.
pub fn what_is_refused_for_a_line_has_examples()
    ensures seen { (was is : Watch) → RefusesLine two_lines (plain two_lines []) 1 was is → is.seen ≡ was.seen }
    ensures numbers { (was is : Watch) → was.seen.items ≡ lifted ∷ [] → was.told ≡ record { number = 7; text = codes "old" }
        → RefusesLine two_lines (plain two_lines []) 1 was is → (is.told.number ≡ 7) ⊎ (is.told.number ≡ 8) }
    ensures unchanged { (was is : Watch) → was.seen.items ≡ resting ∷ [] → was.told ≡ record { number = 7; text = codes "old" }
        → RefusesLine two_lines (plain two_lines []) 1 was is → is.told.number ≡ 7 }
{}

/// Who asks to watch where nobody does begins with the lines as they are; else what was seen stays, also where memory is refused. The next
/// number stays each time; the first is 1.
pub fn who_begins_to_watch_has_examples()
    ensures first { (watch : Watch) → IsUnwatched watch
        → (watch.told.number ≡ 1) × (watch.told.text ≡ []) × (watch.seen.items ≡ []) × (watch.watchers.places ≡ nobody) }
    ensures begun { (was is : Watch) → was.watchers.places ≡ nobody → BeginsToSee two_lines (plain two_lines []) was is
        → map (λ line. Some line) is.seen.items ≡ Some resting ∷ Some resting ∷ [] }
    ensures goes_on { (was is : Watch) → was.watchers.places ≡ somebody → BeginsToSee two_lines (plain two_lines []) was is
        → (is.seen ≡ was.seen) × (is.told ≡ was.told) }
    ensures unasked { (gateway : GatewayState) (was is : Watch) → IsUnasked gateway was is
        → (is.told ≡ was.told) × (is.watchers ≡ was.watchers) }
    ensures goes_on_unasked { (gateway : GatewayState) (was is : Watch) → gateway.setup ≡ two_lines → Stands gateway []
        → was.watchers.places ≡ somebody → IsUnasked gateway was is → is.seen ≡ was.seen }
{}

/// A gateway's picture shows its own lines, all of them, and what couldn't be written.
pub fn a_picture_is_of_its_gateway()
    ensures lines { (gateway : GatewayState) (journal : Journal) (faults : Faults) (picture : Picture) → gateway.setup ≡ two_lines
        → Stands gateway [] → IsOf gateway journal faults 0 picture
        → lines_in picture.lines.items ≡ Some (viewed resting (None ∷ None ∷ None ∷ None ∷ []) 0)
        ∷ Some (viewed resting (None ∷ None ∷ None ∷ None ∷ []) 0) ∷ [] }
    ensures files { (gateway : GatewayState) (journal : Journal) (faults : Faults) (picture : Picture) → journal.capture.value.name ≡ []
        → IsOf gateway journal faults 0 picture → by_name picture.counts.write_faults.items
        ≡ (codes "standard output", journal.written.output) ∷ (codes "standard error", journal.written.error) ∷ [] }
{}

/// Of a board the act that has waited longest is taken, and nothing else; where there is no board none comes. The number of what is shown
/// stays where its lines do, and else is the next one.
pub fn what_becomes_of_a_board_has_examples()
    ensures none { (is : Option (Box BoardState)) → TakesOldest None is → is ≡ None }
    ensures stays { (was : Box BoardState) → TakesOldest (Some was) None → ⊥ }
    ensures shown { (was is : Box BoardState) → TakesOldest (Some was) (Some is)
        → (is.value.picture ≡ was.value.picture) × (is.value.version ≡ was.value.version) × (is.value.ring ≡ was.value.ring) }
    ensures oldest { (was is : Box BoardState) (one other : QueuedAct) → was.value.acts ≡ one ∷ other ∷ []
        → TakesOldest (Some was) (Some is) → is.value.acts ≡ other ∷ [] }
    ensures same { (was is : BoardState) → Shows was is → lines_of was.picture ≡ [] → lines_of is.picture ≡ []
        → is.version ≡ was.version }
    ensures changed { (was is : BoardState) (line : LineShown) → Shows was is → was.version ≡ 7 → lines_of was.picture ≡ []
        → lines_of is.picture ≡ line ∷ [] → is.version ≡ 8 }
{}
