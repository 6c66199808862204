//! Laws of what becomes of what the page asks for, part by part.
ghost use Rattle.std.specs.Prelude.{◌≡◌, ◌≤◌, ◌<◌, ℕ, List, [], ◌∷◌, ◌++◌, length, IsSome, IsUtf8, Some, None};
ghost use Rattle.page_state.specs.declared.act.QueuedAct.{QueuedAct};
ghost use Rattle.page_http.specs.declared.answers.ActOutcome.TheVariants.{Queued, NoRoom, Unreadable};
ghost use Rattle.page_state.specs.declared.board.TheConstants.{MOST_ACTS};
ghost use Rattle.page_http.specs.Acting.{asked_by};
ghost use Rattle.page_http.specs.Outcomes.{Becomes};
ghost use Rattle.page_state.specs.BoardShowing.{BoardState};

/// What is asked for waits behind the others, as it was asked for, where fewer than 32 wait, and the page is shown the same; what is
/// refused changes nothing.
pub fn what_is_asked_for_waits_or_changes_nothing()
    ensures taken { (old new : BoardState) (body : List ℕ) → Becomes old body Queued new
        → (queued : QueuedAct) × (asked_by body ≡ Some queued) × (new.acts ≡ old.acts ++ queued ∷ []) }
    ensures shown { (old new : BoardState) (body : List ℕ) → Becomes old body Queued new
        → (new.picture ≡ old.picture) × (new.version ≡ old.version) × (new.ring ≡ old.ring) }
    ensures no_room { (old new : BoardState) (body : List ℕ) → Becomes old body NoRoom new
        → (new ≡ old) × IsSome (asked_by body) × (MOST_ACTS ≤ length old.acts) }
    ensures room { (old new : BoardState) (body : List ℕ) → Becomes old body Queued new → length old.acts < MOST_ACTS }
    ensures most { MOST_ACTS ≡ 32 }
    ensures unreadable { (old new : BoardState) (body : List ℕ) → Becomes old body Unreadable new
        → (new ≡ old) × (IsUtf8 body → asked_by body ≡ None) }
{}
