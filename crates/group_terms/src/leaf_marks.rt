//! Marks on the leaves of a tree, which say for each position whether a marked leaf stands below it.
ghost use Rattle.std.specs.Prelude.{◌≡◌, ◌+◌, ◌*◌, ◌^◌, ◌<◌, ◌≤◌, length, drop, replicate, slice_set, false, IfOk, IsTrue, if◌then◌else◌};
ghost use Rattle.std.specs.List.{count_by, list_any, position};
ghost use Rattle.group_terms.specs.Positions.{some_leaf_below, marks_of};

use crate::{List, NoMemory, marks_above};
use std::alloc::Global;
use std::marker::Model;

/// A mark for each leaf of a tree of a depth from 0 to 9. To change one costs the depth.
#[derive(Drop)]
pub struct LeafMarks {
    depth: u8,
    /// For each number up to that of the last leaf, whether a marked leaf stands at this position or below it.
    marks: List<bool>,
    /// How many leaves are marked.
    marked: usize,
}

impl Model for LeafMarks {
    ghost use Rattle.std.specs.Prelude.{◌≡◌, ◌≤◌, ◌^◌, drop};
    ghost use Rattle.std.specs.List.{count_by};
    ghost use Rattle.group_terms.specs.Positions.{marks_of};
    ghost use Rattle.group_terms.specs.LeafMarks.{Marked};

    ghost Value = { Marked };

    ghost invariant = { λ leaf_marks. (leaf_marks.depth ≤ 9) ×
        (leaf_marks.marks ≡ marks_of leaf_marks.depth (drop (2 ^ leaf_marks.depth) leaf_marks.marks)) ×
        (leaf_marks.marked ≡ count_by (λ mark. mark) (drop (2 ^ leaf_marks.depth) leaf_marks.marks)) };

    ghost view = { λ leaf_marks. record {
      depth = leaf_marks.depth;
      leaves = drop (2 ^ leaf_marks.depth) leaf_marks.marks;
    } };
}

impl LeafMarks {
    /// No leaf is marked.
    pub fn none(alloc: Global, depth: u8) -> Result<Self, NoMemory>
        requires { depth ≤ 9 }
        ensures { IfOk result (λ leaf_marks. leaf_marks ≡ record { depth = depth; leaves = replicate (2 ^ depth) false }) }
    {
        let marks = no_marks(alloc, depth)?;
        Ok(LeafMarks {
            depth,
            marks,
            marked: 0,
        })
    }

    /// These marks, one for each leaf by rising leaf.
    pub fn of(alloc: Global, depth: u8, leaves: &[bool]) -> Result<Self, NoMemory>
        requires not_deep { depth ≤ 9 }
        requires leaves { length leaves.now ≡ 2 ^ depth }
        ensures { IfOk result (λ leaf_marks. leaf_marks ≡ record { depth = depth; leaves = leaves.now }) }
    {
        let marks = marks_above(alloc, depth, leaves)?;
        Ok(LeafMarks {
            depth,
            marks,
            marked: count_marked(leaves),
        })
    }

    /// The same marks again.
    pub fn copy(&self, alloc: Global) -> Result<Self, NoMemory>
        ensures { IfOk result (λ leaf_marks. leaf_marks ≡ self.now) }
    {
        Ok(LeafMarks {
            depth: self.depth,
            marks: List::copy_of(alloc, self.marks.as_slice())?,
            marked: self.marked,
        })
    }

    /// Marks a leaf, or takes its mark off. The lowest leaf has the place 0.
    pub fn set(&mut self, place: usize, mark: bool)
        requires { place < 2 ^ self.old.depth }
        ensures { self.new ≡ record { depth = self.old.depth; leaves = slice_set self.old.leaves place mark } }
    {
        let was = self.marks.as_slice()[self.count() + place];
        self.marked = recounted(self.marked, was, mark);
        set_mark(self.depth, self.marks.as_mut_slice(), place, mark);
    }

    /// Whether a marked leaf stands at a position or below it.
    pub fn is_below(&self, v: usize) -> bool
        requires { v < 2 ^ (self.now.depth + 1) }
        ensures { result ≡ some_leaf_below self.now.depth self.now.leaves v }
    {
        self.marks.as_slice()[v]
    }

    /// Whether any leaf is marked.
    pub fn any(&self) -> bool
        ensures { result ≡ list_any (λ mark. mark) self.now.leaves }
    {
        self.marks.as_slice()[1]
    }

    /// The place of the lowest marked leaf; `None` where no leaf is marked. It costs the depth.
    pub fn lowest(&self) -> Option<usize>
        ensures { result ≡ position (λ mark. mark) self.now.leaves }
    {
        lowest_in(self.depth, self.marks.as_slice())
    }

    /// How many leaves are marked.
    pub fn marked(&self) -> usize
        ensures marked { result ≡ count_by (λ mark. mark) self.now.leaves }
        ensures few { result ≤ length self.now.leaves }
        ensures small { result ≤ 512 }
    {
        self.marked
    }

    /// How many leaves there are.
    pub fn count(&self) -> usize
        ensures leaves { result ≡ 2 ^ self.now.depth }
        ensures each { result ≡ length self.now.leaves }
    {
        self.marks.len() / 2
    }
}

fn no_marks(alloc: Global, depth: u8) -> Result<List<bool>, NoMemory>
    requires { depth ≤ 9 }
    ensures { IfOk result (λ marks. marks ≡ replicate (2 ^ (depth + 1)) false) }
{
    Ok(List::from_vec(vec![in alloc; false; 1 << (depth + 1)]?))
}

/// Changes the mark of a leaf, and from there up each mark that depends on it, as far as they change.
fn set_mark(depth: u8, marks: &mut [bool], place: usize, mark: bool)
    requires not_deep { depth ≤ 9 }
    requires place { place < 2 ^ depth }
    requires marks { marks.old ≡ marks_of depth (drop (2 ^ depth) marks.old) }
    ensures { marks.new ≡ marks_of depth (slice_set (drop (2 ^ depth) marks.old) place mark) }
{
    let mut v = marks.len() / 2 + place;
    marks[v] = mark;
    while v > 1 {
        v /= 2;
        let below = marks[2 * v] | marks[2 * v + 1];
        if marks[v] == below {
            return;
        }
        marks[v] = below;
    }
}

/// The place of the lowest marked leaf, found from the root down.
fn lowest_in(depth: u8, marks: &[bool]) -> Option<usize>
    requires not_deep { depth ≤ 9 }
    requires marks { marks.now ≡ marks_of depth (drop (2 ^ depth) marks.now) }
    ensures { result ≡ position (λ mark. mark) (drop (2 ^ depth) marks.now) }
{
    if !marks[1] {
        return None;
    }
    let mut v = 1;
    for _ in 0..depth {
        v = lower(v, marks[2 * v]);
    }
    Some(v - marks.len() / 2)
}

/// The left child of a position, if that is marked, or else the right one.
fn lower(v: usize, left: bool) -> usize
    requires { v < 65536 }
    ensures { result ≡ (if left then 2 * v else 2 * v + 1) }
{
    if left { 2 * v } else { 2 * v + 1 }
}

fn count_marked(leaves: &[bool]) -> usize
    ensures { result ≡ count_by (λ mark. mark) leaves.now }
{
    leaves.iter().filter(|mark| **mark).count()
}

/// How many leaves are marked once one of them, which was marked or not, is.
fn recounted(marked: usize, was: bool, mark: bool) -> usize
    requires few { marked ≤ 65536 }
    requires some { IsTrue was → 0 < marked }
    ensures { result + (if was then 1 else 0) ≡ marked + (if mark then 1 else 0) }
{
    match (was, mark) {
        (true, false) => marked - 1,
        (false, true) => marked + 1,
        _ => marked,
    }
}
