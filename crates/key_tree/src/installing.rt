//! Installing a batch.
ghost use Rattle.std.specs.Prelude.{◌≡◌, ◌+◌, ◌-◌, ◌^◌, ◌<◌, [], ◌∷◌, ◌++◌, ℕ, Bool, List, Some, length, map, is_none, is_some};
ghost use Rattle.std.specs.List.{All};
ghost use Rattle.group_terms.specs.LeafMarks.{Marked as LeafMarked};
ghost use Rattle.group_terms.specs.Positions.{marks_of};
ghost use Rattle.group_terms.specs.declared.changes.Change.{Change};
ghost use Rattle.group_values.specs.Values.{KeepsLast, Made, ids_of};
ghost use Rattle.key_tree.specs.declared.marks.Renewed.{Renewed};
ghost use Rattle.key_tree.specs.declared.marks.Seat.{Seat};
ghost use Rattle.key_tree.specs.Marks.{IsReady, IsMarkedFor, ids_renewed, installed, seated};
ghost use Rattle.key_tree.specs.Present.{IsTreeAfter};
ghost use Rattle.key_tree.specs.Private.Draws.{renewed_from};
ghost use Rattle.group_model.specs.Indexes.{IsIndexOf};
ghost use Rattle.group_model.specs.LastChanges.{renewed};

use crate::KeyTree;
use crate::marks::{Marked, Renewed, Seat};
use group_model::NameIndex;
use group_terms::{BatchValues, LeafMarks, a_mark_is_that_of_a_child};
use tree_leaves::holders::Holder;

impl KeyTree {
    /// Installs a batch that was marked in this tree as it is, with one value for each position of `Marked::drawn`, in that order (RFC 2627 section 5.4).
    /// It takes no memory: the index of names has room for twice as many as there are leaves.
    pub fn install(&mut self, marked: Marked, values: &BatchValues)
        requires ready { IsReady self.old marked }
        requires drawn { ids_of values.now.nodes ≡ marked.drawn }
        ensures stands { (batch : List Change) (limit : ℕ) → IsMarkedFor self.old batch limit marked → IsTreeAfter self.old batch limit (Some self.new) }
        ensures last { (list : List Made) (changes : List Change) → KeepsLast self.old.kept list →
            KeepsLast self.new.kept (list ++ record { changes = changes; values = values.now } ∷ []) }
    {
        renew_all(
            self.made.as_mut_slice(),
            marked.renewed.as_slice(),
            marked.epoch,
        );
        take_seats(
            self.holders.as_mut_slice(),
            &mut self.index,
            &mut self.held,
            &mut self.free,
            marked.seats.as_slice(),
        );
        self.kept.take(values);
        self.epoch = marked.epoch;
        self.sequence = marked.sequence;
    }
}

/// Notes the epoch at the positions that it renews.
fn renew_all(made: &mut [Option<u32>], positions: &[Renewed], epoch: u32)
    requires { All (λ v. v < length made.old) (ids_renewed positions.now) }
    ensures made { (depth : ℕ) (leaves : List Bool) → length made.old ≡ 2 ^ (depth + 1) →
        ids_renewed positions.now ≡ renewed_from depth leaves 1 (2 ^ (depth + 1) - 1) → made.new ≡ renewed epoch made.old (marks_of depth leaves) }
    ensures len { length made.new ≡ length made.old }
{
    a_mark_is_that_of_a_child();
    for position in positions {
        made[usize::from(position.id.number())] = Some(epoch);
    }
}

/// Gives leaves to their next holders, one after the other.
fn take_seats(
    holders: &mut [Holder],
    index: &mut NameIndex,
    held: &mut LeafMarks,
    free: &mut LeafMarks,
    seats: &[Seat],
)
    requires within { All (λ (seat : Seat). seat.place < length holders.old) seats.now }
    requires index { IsIndexOf holders.old index.old }
    requires depth { length holders.old ≡ 2 ^ held.old.depth }
    requires held { held.old ≡ record { depth = held.old.depth; leaves = map is_some holders.old } }
    requires free { free.old ≡ record { depth = held.old.depth; leaves = map is_none holders.old } }
    ensures holders { holders.new ≡ seated holders.old seats.now }
    ensures len { length holders.new ≡ length holders.old }
    ensures index { IsIndexOf holders.new index.new }
    ensures held { held.new ≡ record { depth = held.old.depth; leaves = map is_some holders.new } }
    ensures free { free.new ≡ record { depth = held.old.depth; leaves = map is_none holders.new } }
{
    for seat in seats {
        index.follow(seat.place, &holders[seat.place], &seat.holder);
        holders[seat.place] = seat.holder;
        held.set(seat.place, seat.holder.is_some());
        free.set(seat.place, seat.holder.is_none());
    }
}
