//! Laws of transactions, over the whole list of what arrived (RFC 3435, 3.5.1), and of what a history keeps of it.
ghost use Rattle.std.specs.Prelude.{◌≡◌, ◌≢◌, ◌↔◌, ◌-◌, ◌<◌, ◌≤◌, ◌++◌, ◌∷◌, [], ℕ, List, length, map, fold, All, AllPairs, Any};
ghost use Rattle.std.specs.Prelude.{Some, None, IfSome};
ghost use Rattle.transmission.specs.declared.entry.KeptFirst.{KeptFirst};
ghost use Rattle.transmission.specs.declared.entry.Entry.{Entry};
ghost use Rattle.transmission.specs.declared.entry.Entry.TheVariants.{Confirmation};
ghost use Rattle.transmission.specs.Memory.{memory_time, most_firsts};
ghost use Rattle.transmission.specs.Arrival.{Arrival, unanswered};
ghost use Rattle.transmission.specs.Firsts.{Copied, a_first, a_repeat, lost, young_of, kind_of, firsts_of};
ghost use Rattle.transmission.specs.Firsts.{IsNoCopy, IsLatestCopy};
ghost use Rattle.transmission.specs.Answers.{IsConfirmed, IsRepeat, IsSilenced, answer_to, answers_from, answers_of};
ghost use Rattle.transmission.specs.Kept.{first_entry, settled_at, kept_with, young_firsts, from_young, firsts_in, AreInOrder};
ghost use Rattle.transmission.specs.Looking.{repeat, look_of, told_as};
ghost use Rattle.transmission.specs.Recalling.{Recalls, Remembers};

// Of all that arrived

/// No two firsts have one id within 30,000 ms.
pub fn no_two_firsts_have_one_id()
    ensures { (limit : ℕ) (arrivals : List Arrival) →
        AllPairs (λ (first later : Arrival). first.id ≡ later.id → memory_time ≤ later.moment - first.moment)
        (firsts_of limit arrivals) }
{}

/// An arrival is a first, a repeat of exactly one first, which is the latest that it is a copy of, or lost; and it is
/// lost only where as many firsts as the limit are young.
pub fn each_arrival_is_a_first_a_repeat_or_lost()
    ensures first { (limit : ℕ) (earlier : List Arrival) (a : Arrival) → let firsts = firsts_of limit earlier in
        (kind_of limit firsts a ≡ a_first) ↔ (IsNoCopy a firsts × (length (young_of a.moment firsts) < limit)) }
    ensures repeat { (limit : ℕ) (earlier : List Arrival) (a : Arrival) (copied : Copied) →
        let firsts = firsts_of limit earlier in
        (kind_of limit firsts a ≡ a_repeat copied) ↔ IsLatestCopy firsts a copied }
    ensures lost { (limit : ℕ) (earlier : List Arrival) (a : Arrival) → let firsts = firsts_of limit earlier in
        (kind_of limit firsts a ≡ lost) ↔ (IsNoCopy a firsts × (limit ≤ length (young_of a.moment firsts))) }
    ensures one { (firsts : List Arrival) (a : Arrival) (copied other : Copied) →
        IsLatestCopy firsts a copied → IsLatestCopy firsts a other → copied ≡ other }
{}

/// Firsts only grow: a first comes behind those before it. What is a repeat or lost changes no first, and what comes
/// after is answered as if it had never come.
pub fn firsts_alone_change_what_follows()
    ensures grow { (limit : ℕ) (earlier more : List Arrival) →
        (newer : List Arrival) × (firsts_of limit (earlier ++ more) ≡ firsts_of limit earlier ++ newer) }
    ensures first { (limit : ℕ) (earlier : List Arrival) (a : Arrival) →
        kind_of limit (firsts_of limit earlier) a ≡ a_first →
        firsts_of limit (earlier ++ a ∷ []) ≡ firsts_of limit earlier ++ a ∷ [] }
    ensures others { (limit : ℕ) (earlier later : List Arrival) (a : Arrival) →
        kind_of limit (firsts_of limit earlier) a ≢ a_first →
        firsts_of limit (earlier ++ a ∷ later) ≡ firsts_of limit (earlier ++ later) }
    ensures with_it { (limit : ℕ) (earlier later : List Arrival) (a : Arrival) →
        let firsts = firsts_of limit earlier in kind_of limit firsts a ≢ a_first →
        answers_of limit (earlier ++ a ∷ later)
        ≡ answers_of limit earlier ++ answer_to limit firsts a ∷ answers_from limit firsts later }
    ensures without_it { (limit : ℕ) (earlier later : List Arrival) →
        answers_of limit (earlier ++ later)
        ≡ answers_of limit earlier ++ answers_from limit (firsts_of limit earlier) later }
{}

/// A first gets its own answer, a repeat its first's, or silence exactly where a first between the two confirms its id,
/// and what is lost gets none.
pub fn answers_are_given_by_what_arrives()
    ensures first { (limit : ℕ) (earlier : List Arrival) (a : Arrival) → let firsts = firsts_of limit earlier in
        kind_of limit firsts a ≡ a_first → answer_to limit firsts a ≡ Some a.answer }
    ensures repeat { (limit : ℕ) (earlier : List Arrival) (a : Arrival) (copied : Copied) →
        let firsts = firsts_of limit earlier in kind_of limit firsts a ≡ a_repeat copied →
        IfSome (answer_to limit firsts a) (λ answer. answer ≡ copied.original.answer) }
    ensures silence { (limit : ℕ) (earlier : List Arrival) (a : Arrival) (copied : Copied) →
        let firsts = firsts_of limit earlier in kind_of limit firsts a ≡ a_repeat copied →
        ((answer_to limit firsts a ≡ None) ↔ IsConfirmed a.id copied.after) }
    ensures lost { (limit : ℕ) (earlier : List Arrival) (a : Arrival) → let firsts = firsts_of limit earlier in
        kind_of limit firsts a ≡ lost → answer_to limit firsts a ≡ None }
{}

/// What is confirmed stays so while it is a repeat: once a copy got silence, later copies of its id do, until a new first
/// has it.
pub fn what_is_confirmed_stays_confirmed()
    ensures { (limit : ℕ) (earlier more newer : List Arrival) (a b : Arrival) →
        firsts_of limit (earlier ++ more) ≡ firsts_of limit earlier ++ newer →
        All (λ (first : Arrival). first.id ≢ a.id) newer → b.id ≡ a.id → a.moment ≤ b.moment →
        IsSilenced limit earlier a → IsRepeat limit (earlier ++ more) b → IsSilenced limit (earlier ++ more) b }
{}

/// Which arrivals are firsts doesn't hang on what they are answered.
pub fn answers_make_no_firsts()
    ensures { (limit : ℕ) (arrivals : List Arrival) →
        firsts_of limit (map unanswered arrivals) ≡ map unanswered (firsts_of limit arrivals) }
{}

// Of what is kept

/// Where what is kept recalls all that arrived, it tells of an arrival what that is; and it goes on so where each first is
/// confirmed and kept, and nothing else is.
pub fn what_is_kept_tells_what_arrives()
    ensures nothing { Remembers [] [] 0 }
    ensures told { (kept : List Entry) (earlier : List Arrival) (a : Arrival) (since : ℕ) →
        Remembers kept earlier since → since ≤ a.moment →
        look_of most_firsts kept a.id a.moment
        ≡ told_as a.id (kind_of most_firsts (firsts_of most_firsts earlier) a) }
    ensures first { (kept : List Entry) (earlier : List Arrival) (a : Arrival) (since : ℕ) →
        Remembers kept earlier since → kind_of most_firsts (firsts_of most_firsts earlier) a ≡ a_first →
        Remembers ((kept ++ Confirmation a.confirms ∷ []) ++ first_entry a.id a.moment a.answer ∷ [])
        (earlier ++ a ∷ []) since }
    // A first that confirms nothing may be kept alone.
    ensures plain_first { (kept : List Entry) (earlier : List Arrival) (a : Arrival) (since : ℕ) →
        Remembers kept earlier since → kind_of most_firsts (firsts_of most_firsts earlier) a ≡ a_first →
        a.confirms ≡ [] → Remembers (kept ++ first_entry a.id a.moment a.answer ∷ []) (earlier ++ a ∷ []) since }
    ensures others { (kept : List Entry) (earlier : List Arrival) (a : Arrival) (since : ℕ) →
        Remembers kept earlier since → kind_of most_firsts (firsts_of most_firsts earlier) a ≢ a_first →
        Remembers kept (earlier ++ a ∷ []) since }
{}

/// What recalls all goes on so with the same first or confirmation behind both, after a purge from then on, and later; and
/// it is looked at alike.
pub fn what_is_kept_recalls_all()
    ensures itself { (entries : List Entry) → Recalls entries entries 0 }
    ensures entry { (kept all : List Entry) (entry : Entry) (since : ℕ) → Recalls kept all since →
        Recalls (kept ++ entry ∷ []) (all ++ entry ∷ []) since }
    ensures purged { (kept all : List Entry) (since now : ℕ) → Recalls kept all since → since ≤ now →
        Recalls (from_young now kept) all now }
    ensures later { (kept all : List Entry) (since now : ℕ) → Recalls kept all since → since ≤ now →
        Recalls kept all now }
    ensures through { (kept between all : List Entry) (since : ℕ) → Recalls kept between since →
        Recalls between all since → Recalls kept all since }
    ensures look { (kept all : List Entry) (since id now : ℕ) → Recalls kept all since → since ≤ now →
        look_of most_firsts kept id now ≡ look_of most_firsts all id now }
{}

/// The answer that is told of a repeat is that of a first which is kept.
pub fn what_is_told_again_is_kept()
    ensures { (limit : ℕ) (entries : List Entry) (id now : ℕ) (answer : List ℕ) →
        look_of limit entries id now ≡ repeat answer →
        Any (λ (first : KeptFirst). first.answer ≡ answer) (firsts_in entries) }
{}

/// Where the firsts came in the order of their moments, a purge leaves the young ones alone.
pub fn a_purge_leaves_young_firsts()
    ensures { (now : ℕ) (entries : List Entry) →
        AreInOrder (firsts_in entries) →
        All (λ (first : KeptFirst). now - first.moment < memory_time) (firsts_in (from_young now entries)) }
{}

/// What a purge drops is young at no moment from then on, in whatever order the firsts came.
pub fn a_purge_drops_nothing_young()
    ensures { (purged now : ℕ) (entries : List Entry) → purged ≤ now →
        young_firsts now (from_young purged entries) ≡ young_firsts now entries }
{}

/// Whatever is kept after a purge, `undo` goes back to what the purge left, and the last purge stays the last.
pub fn undo_goes_back_to_the_purge()
    ensures settled { (moment : ℕ) (purged more : List Entry) →
        (fold kept_with (settled_at moment purged) more).settled ≡ purged }
    ensures moment { (moment : ℕ) (purged more : List Entry) →
        (fold kept_with (settled_at moment purged) more).purged ≡ moment }
{}
