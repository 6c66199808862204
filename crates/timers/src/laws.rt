//! Laws of due moments, in the words of their subject: of every table, in whatever order it was set.
ghost use Rattle.std.specs.Prelude.{◌≡◌, ◌≢◌, ◌<◌, ℕ, [], All, Any, true, false, Some, None};
ghost use Rattle.packages.specs.declared.signal.Signal.{Signal};
ghost use Rattle.timers.specs.declared.kind.DueKind.{DueKind};
ghost use Rattle.timers.specs.declared.kind.DueKind.TheVariants.{OfLine, Resend, Announce};
ghost use Rattle.timers.specs.declared.kind.LineDue.TheVariants.{DigitTimer, SignalEnd};
ghost use Rattle.timers.specs.declared.due_item.DueItem.{DueItem};
ghost use Rattle.timers.specs.Order.{place_of, comes_before};
ghost use Rattle.timers.specs.Table.{Table, due, place_at, moment_of, with_moment, without, least_of, IsLeast};

/// What is set for a kind of a line falls due at that moment.
pub fn what_is_set_falls_due_at_its_moment()
    ensures { (table : Table) (line : ℕ) (kind : DueKind) (moment : ℕ) →
        moment_of (with_moment table line kind moment) line kind ≡ Some moment }
{}

/// Setting one leaves the others, and clearing one does.
pub fn the_others_stay_as_they_are()
    ensures set { (table : Table) (line : ℕ) (kind : DueKind) (moment other_line : ℕ) (other_kind : DueKind) →
        place_at other_line other_kind ≢ place_at line kind →
        moment_of (with_moment table line kind moment) other_line other_kind ≡ moment_of table other_line other_kind }
    ensures cleared { (table : Table) (line : ℕ) (kind : DueKind) (other_line : ℕ) (other_kind : DueKind) →
        place_at other_line other_kind ≢ place_at line kind →
        moment_of (without table line kind) other_line other_kind ≡ moment_of table other_line other_kind }
{}

/// What is cleared falls due no more.
pub fn what_is_cleared_falls_due_no_more()
    ensures moment { (table : Table) (line : ℕ) (kind : DueKind) → moment_of (without table line kind) line kind ≡ None }
    ensures least { (table : Table) (line : ℕ) (kind : DueKind) (item : DueItem) →
        least_of (without table line kind) ≡ Some item → place_at item.line item.kind ≢ place_at line kind }
{}

/// A moment is put in the place of another as if that one had never been set, and is cleared as if it never was.
pub fn one_moment_takes_the_place_of_another()
    ensures set { (table : Table) (line : ℕ) (kind : DueKind) (moment later : ℕ) →
        with_moment (with_moment table line kind moment) line kind later ≡ with_moment table line kind later }
    ensures cleared { (table : Table) (line : ℕ) (kind : DueKind) (moment : ℕ) →
        without (with_moment table line kind moment) line kind ≡ without table line kind }
{}

/// What falls due first is set, and nothing that is set comes before it; only where nothing is set there is none.
pub fn nothing_comes_before_the_least()
    ensures set { (table : Table) (item : DueItem) → least_of table ≡ Some item →
        Any (λ set. set ≡ item) table }
    ensures first { (table : Table) (item : DueItem) → least_of table ≡ Some item →
        All (λ set. comes_before set item ≡ false) table }
    ensures none { (table : Table) → least_of table ≡ None → table ≡ [] }
{}

/// Of two items one comes before the other, and nothing comes before itself: so one alone is the least.
pub fn one_alone_is_the_least()
    ensures either { (item other : DueItem) → comes_before item other ≡ false → comes_before other item ≡ false →
        item ≡ other }
    ensures itself { (item : DueItem) → comes_before item item ≡ false }
    ensures least { (table : Table) (item other : DueItem) → IsLeast table item → IsLeast table other → item ≡ other }
{}

/// What comes before another comes before all that this one comes before, and that one doesn't come before it.
pub fn the_order_goes_on()
    ensures further { (first second third : DueItem) → comes_before first second ≡ true →
        comes_before second third ≡ true → comes_before first third ≡ true }
    ensures not_back { (item other : DueItem) → comes_before item other ≡ true → comes_before other item ≡ false }
{}

/// The earlier moment comes first, whatever falls due.
pub fn the_earlier_moment_comes_first()
    ensures { (item other : DueItem) → item.moment < other.moment → comes_before item other ≡ true }
{}

/// Equal moments go by line, so that the gateway itself comes first, and then by kind: timer T, the signals in the
/// order of their table, the command in flight, the announcement.
pub fn equal_moments_go_by_line_and_then_by_kind()
    ensures line { (moment line other : ℕ) (kind other_kind : DueKind) → line < other →
        comes_before (due moment line kind) (due moment other other_kind) ≡ true }
    ensures gateway { (moment line : ℕ) (kind other_kind : DueKind) → 0 < line →
        comes_before (due moment 0 kind) (due moment line other_kind) ≡ true }
    ensures timer { (moment line : ℕ) (signal : Signal) →
        comes_before (due moment line (OfLine DigitTimer)) (due moment line (OfLine (SignalEnd signal))) ≡ true }
    ensures signals { (moment line : ℕ) (signal other : Signal) → place_of signal < place_of other →
        comes_before (due moment line (OfLine (SignalEnd signal))) (due moment line (OfLine (SignalEnd other))) ≡ true }
    ensures command { (moment line : ℕ) (signal : Signal) →
        comes_before (due moment line (OfLine (SignalEnd signal))) (due moment line Resend) ≡ true }
    ensures announcement { (moment line : ℕ) →
        comes_before (due moment line Resend) (due moment line Announce) ≡ true }
{}
