//! For each position of a tree, whether a marked leaf lies at or below it.
ghost use Rattle.std.specs.Prelude.{◌≡◌, ◌≤◌, ◌<◌, ◌^◌, ◌+◌, ◌*◌, ◌++◌, ◌||◌, ℕ, Bool, List, false, length, map, replicate, IfOk};
ghost use Rattle.std.specs.List.{range_with_len};
ghost use Rattle.group_terms.specs.Positions.{some_leaf_below};

use crate::{List, NoMemory};
use std::alloc::Global;

/// For each number up to that of the last leaf, whether a marked leaf stands at this position or below it.
///
/// `leaves` has a mark for each leaf of a tree of this depth, by rising leaf.
pub fn marks_above(alloc: Global, depth: u8, leaves: &[bool]) -> Result<List<bool>, NoMemory>
    requires depth { depth ≤ 15 }
    requires leaves { length leaves.now ≡ 2 ^ depth }
    ensures marks { IfOk result (λ marks. marks ≡ map (some_leaf_below depth leaves.now) (range_with_len 0 (2 ^ (depth + 1)))) }
    ensures len { IfOk result (λ marks. length marks ≡ 2 ^ (depth + 1)) }
{
    let mut marks = vec![in alloc; false; leaves.len()]?;
    marks.extend_from_slice(leaves)?;
    mark_inner(depth, leaves, &mut marks);
    Ok(List::from_vec(marks))
}

/// Marks each inner position that has a marked child, from the lowest up.
fn mark_inner(depth: u8, leaves: &[bool], marks: &mut [bool])
    requires leaves { length leaves.now ≡ 2 ^ depth }
    requires below { marks.old ≡ replicate (2 ^ depth) false ++ leaves.now }
    ensures { marks.new ≡ map (some_leaf_below depth leaves.now) (range_with_len 0 (2 ^ (depth + 1))) }
{
    for v in (1..leaves.len()).rev() {
        marks[v] = marks[2 * v] | marks[2 * v + 1];
    }
}

/// No leaf stands below 0, which is no position; and one stands below an inner position exactly where it does so below a child of it. So the same
/// holds of marks.
pub fn a_mark_is_that_of_a_child()
    ensures none { (depth : ℕ) (leaves : List Bool) → some_leaf_below depth leaves 0 ≡ false }
    ensures child { (depth : ℕ) (leaves : List Bool) (v : ℕ) → length leaves ≡ 2 ^ depth → 0 < v → v < 2 ^ depth →
        some_leaf_below depth leaves v ≡ (some_leaf_below depth leaves (2 * v) || some_leaf_below depth leaves (2 * v + 1)) }
{}
