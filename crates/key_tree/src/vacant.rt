//! The leaves that those get who come in with a batch.
ghost use Rattle.std.specs.Prelude.{◌≡◌, ◌+◌, ◌^◌, ◌<◌, ◌≤◌, length, drop, IfSome, IfNone};
ghost use Rattle.std.specs.List.{All};
ghost use Rattle.group_values.specs.Values.{Rises};
ghost use Rattle.key_tree.specs.Private.Lowest.{IsLowestFrom, lower_of};
ghost use Rattle.key_tree.specs.Private.Seats.{IsVacant, is_vacant, passed_by};

use crate::free_leaves::lowest_from;
use group_terms::{LeafMarks, List};

/// The leaves that nobody has once those who go out have left theirs, from the lowest up.
#[derive(Drop)]
pub(crate) struct Vacant {
    /// The places of those that were left, rising.
    left: List<usize>,
    /// How many of them somebody has got since.
    passed: usize,
    /// Each leaf below this place has a holder.
    from: usize,
}

impl Vacant {
    /// Nobody came in yet.
    pub(crate) fn new(left: List<usize>) -> Self
        requires rises { Rises left }
        requires low { All (λ place. place < 65536) left }
        ensures vacant { IsVacant result }
        ensures left { result.left ≡ left }
        ensures from { result.from ≡ 0 }
    {
        Vacant {
            left,
            passed: 0,
            from: 0,
        }
    }

    /// The places that were left and that nobody got.
    pub(crate) fn rest(&self) -> &[usize]
        requires { IsVacant self.now }
        ensures { result.now ≡ drop self.now.passed self.now.left }
    {
        &self.left.as_slice()[self.passed..]
    }

    /// The lowest leaf that nobody has, which somebody gets. `free` are the leaves that nobody had before the batch.
    pub(crate) fn next(&mut self, depth: u8, free: &LeafMarks) -> Option<usize>
        requires not_deep { depth ≤ 9 }
        requires same { free.now.depth ≡ depth }
        requires leaves { length free.now.leaves ≡ 2 ^ depth }
        requires vacant { IsVacant self.old }
        ensures lowest { IsLowestFrom (is_vacant free.now.leaves self.old.left) self.old.from result }
        ensures vacant { IsVacant self.new }
        ensures left { self.new.left ≡ self.old.left }
        ensures some { IfSome result (λ place. self.new.from ≡ place + 1) }
        ensures none { IfNone result (self.new.from ≡ self.old.from) }
    {
        let place = self.lowest(depth, free)?;
        self.pass(place);
        Some(place)
    }

    fn lowest(&self, depth: u8, free: &LeafMarks) -> Option<usize>
        requires not_deep { depth ≤ 9 }
        requires same { free.now.depth ≡ depth }
        requires leaves { length free.now.leaves ≡ 2 ^ depth }
        requires vacant { IsVacant self.now }
        ensures { IsLowestFrom (is_vacant free.now.leaves self.now.left) self.now.from result }
    {
        let was_free = lowest_from(depth, free, self.from);
        let was_left = self.rest().first().copied();
        lower(was_free, was_left)
    }

    /// Goes past a leaf that somebody gets.
    fn pass(&mut self, place: usize)
        requires vacant { IsVacant self.old }
        requires from { self.old.from ≤ place }
        requires lowest { All (λ left. place ≤ left) (drop self.old.passed self.old.left) }
        requires few { place < 65536 }
        ensures vacant { IsVacant self.new }
        ensures left { self.new.left ≡ self.old.left }
        ensures from { self.new.from ≡ place + 1 }
    {
        self.passed = passed_by(self.left.as_slice(), self.passed, place);
        self.from = place + 1;
    }
}

/// How many places of those that were left are passed, once somebody gets one.
fn passed_by(left: &[usize], passed: usize, place: usize) -> usize
    ensures { result ≡ passed_by left.now passed place }
{
    if passed >= left.len() {
        return passed;
    }
    if left[passed] == place {
        passed + 1
    } else {
        passed
    }
}

/// The lower one of two places, of which there may be one alone or none.
fn lower(one: Option<usize>, other: Option<usize>) -> Option<usize>
    ensures { result ≡ lower_of one other }
{
    let Some(first) = one else {
        return other;
    };
    let Some(second) = other else {
        return one;
    };
    Some(first.min(second))
}
