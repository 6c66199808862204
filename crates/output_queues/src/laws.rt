//! Laws of the definitions. Each function has an empty body: its clauses are the theorems.
ghost use Rattle.std.specs.Prelude.{◌≡◌, ◌≤◌, ◌+◌, ◌-◌, ◌^◌, ◌++◌, ◌∷◌, ℕ, true, List, length, take, drop};
ghost use Rattle.std.specs.List.{concat};
ghost use Rattle.output_queues.specs.Backlog.{BacklogState, is_kept, room_left, sum_within, offered_all, kept_of, lines_of_all};
ghost use Rattle.output_queues.specs.declared.backlog.TheConstants.{MOST_KEPT, NOTE_ROOM, TEXT_ROOM};

/// Of texts that are offered one behind the other the first are kept, whole and in their order, and all others are dropped, whose lines
/// are counted; no more bytes wait than there is room for.
pub fn the_first_texts_are_kept_whole()
    ensures kept { (room : ℕ) (backlog : BacklogState) (texts : List (List ℕ)) →
        (offered_all room backlog texts).waiting ≡ backlog.waiting ++ concat (take (kept_of room backlog texts) texts) }
    ensures counted { (room : ℕ) (backlog : BacklogState) (texts : List (List ℕ)) → backlog.dropped ≤ 2 ^ 64 - 1 →
        (offered_all room backlog texts).dropped
        ≡ sum_within backlog.dropped (lines_of_all (drop (kept_of room backlog texts) texts)) }
    ensures few { (room : ℕ) (backlog : BacklogState) (texts : List (List ℕ)) → length backlog.waiting ≤ room →
        length (offered_all room backlog texts).waiting ≤ room }
    ensures rooms { TEXT_ROOM + NOTE_ROOM ≡ MOST_KEPT }
    ensures mebibyte { MOST_KEPT ≡ 2 ^ 20 }
{}

/// A text that has no more bytes than there is room left for is kept.
pub fn what_has_room_is_kept()
    ensures { (room byte : ℕ) (text : List ℕ) (backlog : BacklogState) → length (byte ∷ text) ≤ room_left room backlog →
        is_kept room backlog (byte ∷ text) ≡ true }
{}
