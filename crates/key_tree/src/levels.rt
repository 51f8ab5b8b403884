//! The walk from the leaves that change hands up to the root, level by level. Each level falls: the right one of two siblings comes first.
ghost use Rattle.std.specs.Prelude.{◌≡◌, ◌+◌, ◌^◌, ◌<◌, ◌≤◌, ◌++◌, ◌∷◌, [], ℕ, List as Items, length, take, drop, reverse, IfOk, IfSome, OnOk, None};
ghost use Rattle.std.specs.List.{All};
ghost use Rattle.key_tree.specs.declared.marks.Renewed.{Renewed};
ghost use Rattle.key_tree.specs.Private.Levels.{IsBelowRoot, above, above_one, joined, left_alone, levels, sibling, top};

use crate::marks::Renewed;
use group_terms::{LeafMarks, List, NoMemory};
use tree_leaves::position;

/// The positions that a batch renews, rising, where these leaves change hands and `held` are those that somebody has before it. The list of the leaves grows
/// to that of all of them: it takes no memory where it has room for a path for each leaf.
pub(crate) fn all_levels(
    depth: u8,
    held: &LeafMarks,
    leaves: List<Renewed>,
) -> Result<List<Renewed>, NoMemory>
    requires not_deep { depth ≤ 9 }
    requires same { held.now.depth ≡ depth }
    requires from { All (λ (leaf : Renewed). 2 ^ depth ≤ leaf.id) leaves }
    requires to { All (λ (leaf : Renewed). leaf.id < 2 ^ (depth + 1)) leaves }
    ensures { IfOk result (λ renewed. renewed ≡ reverse (levels held.now depth leaves)) }
{
    let mut renewed = leaves;
    let mut first = 0;
    for _ in 0..depth {
        let next = renewed.len();
        add_above(held, first, &mut renewed)?;
        first = next;
    }
    let root = root(held, &renewed.as_slice()[first..]);
    renewed.truncate(first);
    renewed.push(root)?;
    renewed.as_mut_slice().reverse();
    Ok(renewed)
}

/// The root: that of its level, if the batch changes any leaf.
fn root(held: &LeafMarks, level: &[Renewed]) -> Renewed
    ensures { result ≡ top held.now level.now }
{
    match level.first() {
        Some(root) => *root,
        None => left_alone(held, 1),
    }
}

/// Adds the positions above those of the level that begins at a place and goes to the end.
fn add_above(held: &LeafMarks, first: usize, positions: &mut List<Renewed>) -> Result<(), NoMemory>
    requires not_deep { held.now.depth ≤ 9 }
    requires within { first ≤ length positions.old }
    requires below { All (IsBelowRoot held.now.depth) (drop first positions.old) }
    ensures { OnOk result (positions.new ≡ positions.old ++ above held.now None (drop first positions.old)) }
{
    let end = positions.len();
    let mut waiting = None;
    for place in first..end {
        let next = positions.as_slice()[place];
        waiting = go_on(held, waiting, next, positions)?;
    }
    if let Some(one) = waiting {
        positions.push(above_one(held, one))?;
    }
    Ok(())
}

/// Adds the position above one that came before, if there is one; answers what is left to wait for its sibling.
fn go_on(
    held: &LeafMarks,
    waiting: Option<Renewed>,
    next: Renewed,
    positions: &mut List<Renewed>,
) -> Result<Option<Renewed>, NoMemory>
    requires not_deep { held.now.depth ≤ 9 }
    requires waiting { IfSome waiting (IsBelowRoot held.now.depth) }
    requires next { IsBelowRoot held.now.depth next }
    ensures above { IfOk result (λ waits. (rest : Items Renewed) →
        positions.new ++ above held.now waits rest ≡ positions.old ++ above held.now waiting (next ∷ rest)) }
    ensures waits { IfOk result (λ waits. IfSome waits (IsBelowRoot held.now.depth)) }
    ensures begins { IfOk result (λ waits. take (length positions.old) positions.new ≡ positions.old) }
{
    let Some(one) = waiting else {
        return Ok(Some(next));
    };
    if one.id.number() / 2 == next.id.number() / 2 {
        positions.push(joined(one, next))?;
        return Ok(None);
    }
    positions.push(above_one(held, one))?;
    Ok(Some(next))
}

/// The position above one whose sibling the batch does not renew.
fn above_one(held: &LeafMarks, one: Renewed) -> Renewed
    requires not_deep { held.now.depth ≤ 9 }
    requires below { IsBelowRoot held.now.depth one }
    ensures { result ≡ above_one held.now one }
{
    joined(one, left_alone(held, sibling(usize::from(one.id.number()))))
}

/// The position above two siblings.
fn joined(one: Renewed, other: Renewed) -> Renewed
    requires { 1 < one.id }
    ensures { result ≡ joined one other }
{
    Renewed {
        id: position(usize::from(one.id.number() / 2)),
        held: one.held || other.held,
        stayed: one.stayed || other.stayed,
    }
}

/// The other child of the position above.
fn sibling(v: usize) -> usize
    requires { v < 65536 }
    ensures { result ≡ sibling v }
{
    let left = 2 * (v / 2);
    if v == left { left + 1 } else { left }
}

/// A position that the batch does not renew: each who has a leaf there or below it stays.
fn left_alone(held: &LeafMarks, v: usize) -> Renewed
    requires positive { 0 < v }
    requires small { v < 65536 }
    requires within { v < 2 ^ (held.now.depth + 1) }
    ensures { result ≡ left_alone held.now v }
{
    let somebody = held.is_below(v);
    Renewed {
        id: position(v),
        held: somebody,
        stayed: somebody,
    }
}
