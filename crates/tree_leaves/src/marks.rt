//! Positions at or above the marked leaves.
ghost use Rattle.std.specs.Prelude.{◌≡◌, ◌+◌, ◌^◌, ◌<◌, ◌||◌, ◌==◌};
ghost use Rattle.group_terms.specs.Positions.{some_leaf_below};

use group_terms::{LeafMarks, LkhId};

/// Whether a position is the root, or a marked leaf stands at it or below it: of the leaves that change hands with a batch, those are the
/// positions that it renews.
pub fn is_marked(id: LkhId, leaves: &LeafMarks) -> bool
    requires { id < 2 ^ (leaves.now.depth + 1) }
    ensures { result ≡ (id == 1 || some_leaf_below leaves.now.depth leaves.now.leaves id) }
{
    let v = usize::from(id.number());
    v == 1 || leaves.is_below(v)
}
