//! The last value of a position, and its last change.
ghost use Rattle.std.specs.Prelude.{ℕ, ◌<◌, ◌^◌, ◌+◌, List};
ghost use Rattle.group_values.specs.Values.{Made};
ghost use Rattle.group_keys.specs.Drawn.{AreDrawn, IsInUse, IsLastDrawn};

use group_model::{each_leaf_has_its_place, first_epochs_stay};

/// In a list whose batches drew each value that they had to draw, the last value of a position in use is that of its last change.
pub fn the_last_value_is_that_of_the_last_change()
    ensures { (depth : ℕ) (list : List Made) (v : ℕ) → AreDrawn depth list → 0 < v → v < 2 ^ (depth + 1) →
        IsInUse depth list v → IsLastDrawn depth list v }
{
    each_leaf_has_its_place();
    first_epochs_stay();
}
