//! What is found among notes.
ghost use Rattle.std.specs.Prelude.{◌≡◌, ◌==◌, ◌<◌, ◌≤◌, ◌⊎◌, ℕ, List, None, Some, if◌then◌else◌};
ghost use Rattle.std.specs.List.{All, Contains};
ghost use Rattle.sent_pushes.specs.declared.notes.Note.{Note};
ghost use Rattle.sent_pushes.specs.Notes.{Rises, next_after, noted, numbers_of, place_of};

/// Once a push was noted its place is found by its number; what is found by other numbers is as before.
pub fn a_noted_push_is_found()
    ensures { (notes : List Note) (number place other : ℕ) →
        place_of (noted notes number place) other ≡ (if other == number then Some place else place_of notes other) }
{}

/// The next number is greater, is one of those that were noted, and none of them is between; where there is none, no number that was noted is greater.
pub fn the_next_number_is_the_least()
    ensures greater { (notes : List Note) (number next : ℕ) → next_after notes number ≡ Some next → number < next }
    ensures noted { (notes : List Note) (number next : ℕ) → next_after notes number ≡ Some next → Contains (numbers_of notes) next }
    ensures least { (notes : List Note) (number next : ℕ) → Rises notes → next_after notes number ≡ Some next →
        All (λ other. (other ≤ number) ⊎ (next ≤ other)) (numbers_of notes) }
    ensures last { (notes : List Note) (number : ℕ) → next_after notes number ≡ None → All (λ other. other ≤ number) (numbers_of notes) }
{}
