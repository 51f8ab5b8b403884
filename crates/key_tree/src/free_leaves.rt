//! The lowest marked leaf from a leaf on.
ghost use Rattle.std.specs.Prelude.{◌≡◌, ◌+◌, ◌*◌, ◌-◌, ◌%◌, ◌^◌, ◌<◌, ◌≤◌, ◌==◌, ◌&&◌, length, slice_index_or, true, false, if◌then◌else◌};
ghost use Rattle.group_terms.specs.Positions.{some_leaf_below};
ghost use Rattle.key_tree.specs.Private.Lowest.{IsLowestFrom, IsLowestBelow};

use group_terms::LeafMarks;

/// The place of the lowest marked leaf from a place on. It costs the depth.
pub(crate) fn lowest_from(depth: u8, marks: &LeafMarks, from: usize) -> Option<usize>
    requires not_deep { depth ≤ 9 }
    requires same { marks.now.depth ≡ depth }
    requires leaves { length marks.now.leaves ≡ 2 ^ depth }
    ensures { IsLowestFrom (λ i. slice_index_or marks.now.leaves i false) from result }
{
    if from >= marks.count() {
        return None;
    }
    let mut v = marks.count() + from;
    if marks.is_below(v) {
        return Some(from);
    }
    for height in 0..depth {
        if is_right_marked(marks, v) {
            return Some(lowest_below(depth, height, marks, v + 1));
        }
        v /= 2;
    }
    None
}

/// Whether a position has a sibling to the right with a marked leaf.
fn is_right_marked(marks: &LeafMarks, v: usize) -> bool
    requires not_deep { marks.now.depth ≤ 9 }
    requires within { v < 2 ^ (marks.now.depth + 1) }
    ensures { result ≡ (v % 2 == 0 && some_leaf_below marks.now.depth marks.now.leaves (v + 1)) }
{
    v % 2 == 0 && marks.is_below(v + 1)
}

/// The place of the lowest marked leaf below a position that has one and is this high above the leaves.
fn lowest_below(depth: u8, height: u8, marks: &LeafMarks, top: usize) -> usize
    requires not_deep { depth ≤ 9 }
    requires same { marks.now.depth ≡ depth }
    requires leaves { length marks.now.leaves ≡ 2 ^ depth }
    requires high { height ≤ depth }
    requires from { 2 ^ (depth - height) ≤ top }
    requires to { top < 2 ^ (depth - height + 1) }
    requires marked { some_leaf_below depth marks.now.leaves top ≡ true }
    ensures { IsLowestBelow depth marks.now.leaves height top result }
{
    let mut v = top;
    for _ in 0..height {
        v = lower(v, marks.is_below(2 * v));
    }
    v - marks.count()
}

/// The left child of a position, if that is marked, or else the right one.
fn lower(v: usize, left: bool) -> usize
    requires { v < 65536 }
    ensures { result ≡ (if left then 2 * v else 2 * v + 1) }
{
    if left { 2 * v } else { 2 * v + 1 }
}
