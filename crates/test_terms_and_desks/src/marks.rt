//! Marks are seen from the positions above their leaf.
ghost use Rattle.std.specs.Prelude.{◌≡◌};

use group_terms::{LeafMarks, NoMemory};
use std::alloc::Global;

#[test]
fn marks_are_seen_above_their_leaf(rt: HostRuntime) {
    let given = is_counted(rt.alloc()) == Ok(true);
    assert!(rt; given & (follow(rt.alloc()) == Ok(true)));
}

fn is_counted(alloc: Global) -> Result<bool, NoMemory> {
    let marks = LeafMarks::of(alloc, 1, &[false, true])?;
    Ok((marks.lowest() == Some(1)) & (marks.marked() == 1))
}

/// A mark set on a leaf is seen from the positions above it, and no more once it is taken off; a copy keeps it.
fn follow(alloc: Global) -> Result<bool, NoMemory> {
    let mut marks = LeafMarks::none(alloc, 2)?;
    let follow = follow_in(alloc, &mut marks);
    drop(marks);
    follow
}

fn follow_in(alloc: Global, marks: &mut LeafMarks) -> Result<bool, NoMemory>
    requires { marks.old.depth ≡ 2 }
{
    marks.set(2, true);
    let copy = marks.copy(alloc)?;
    let above = marks.is_below(1) & !marks.is_below(2) & marks.is_below(3) & marks.is_below(6);
    marks.set(2, false);
    let kept = (copy.lowest() == Some(2)) & (copy.marked() == 1) & copy.any() & (copy.count() == 4);
    Ok(above & kept & marks.lowest().is_none() & (marks.marked() == 0) & !marks.any())
}
