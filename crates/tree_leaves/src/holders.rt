//! The leaves of a tree and who has them, as a slice by rising leaf.
ghost use Rattle.std.specs.Prelude.{◌≡◌, ◌≤◌, ◌^◌, ◌&&◌, length, map, is_some, is_none, IfOk, None, if◌then◌else◌};
ghost use Rattle.std.specs.List.{position, fold, list_any};
ghost use Rattle.group_terms.specs.Changes.{leavers, joiners};
ghost use Rattle.tree_leaves.specs.Places.{is_held_by, no_holders, member_count, vacated, placed, holders_after};
ghost use Rattle.tree_leaves.specs.Fresh.{is_same_holder, changed_leaves};
ghost use Rattle.tree_leaves.specs.Unchanged.{unchanged_holders};

use group_terms::{Change, LeafMarks, List, MemberName, NoMemory};
use std::alloc::Global;

/// Who has a leaf, if anybody has it.
pub type Holder = Option<MemberName>;

/// The leaves of a tree of this depth before anybody has one. `NoMemory` if out of memory for them.
pub fn nobody(alloc: Global, depth: u8) -> Result<List<Holder>, NoMemory>
    requires { depth ≤ 9 }
    ensures { IfOk result (λ holders. holders ≡ no_holders depth) }
{
    Ok(List::from_vec(vec![in alloc; None; 1 << depth]?))
}

/// Whether a leaf with this holder is that of a member.
pub fn is_held_by(holder: &Holder, member: &MemberName) -> bool
    ensures { result ≡ is_held_by member.now holder.now }
{
    match holder {
        Some(name) => member == name,
        None => false,
    }
}

/// Where the leaf of a member is among all of them, counted from 0.
pub fn place_of(holders: &[Holder], member: &MemberName) -> Option<usize>
    ensures { result ≡ position (is_held_by member.now) holders.now }
{
    holders.iter().position(|holder| is_held_by(holder, member))
}

/// The leaves that nobody has. `NoMemory` if out of memory for their marks.
pub fn free(alloc: Global, depth: u8, holders: &[Holder]) -> Result<LeafMarks, NoMemory>
    requires not_deep { depth ≤ 9 }
    requires leaves { length holders.now ≡ 2 ^ depth }
    ensures { IfOk result (λ marks. marks ≡ record { depth = depth; leaves = map is_none holders.now }) }
{
    let mut leaves = List::with_room(alloc, holders.len())?;
    for holder in holders {
        leaves.push(holder.is_none())?;
    }
    LeafMarks::of(alloc, depth, leaves.as_slice())
}

/// How many leaves somebody has.
pub fn count_members(holders: &[Holder]) -> usize
    ensures count { result ≡ member_count holders.now }
    ensures within { result ≤ length holders.now }
{
    holders.iter().filter(|holder| holder.is_some()).count()
}

/// Who has which leaf after a batch. `NoMemory` if out of memory for them.
pub fn after(alloc: Global, before: &[Holder], batch: &[Change]) -> Result<List<Holder>, NoMemory>
    ensures holders { IfOk result (λ after. after ≡ holders_after before.now batch.now) }
    ensures len { IfOk result (λ after. length after ≡ length before.now) }
{
    let mut after = List::copy_of(alloc, before)?.into_vec();
    change(&mut after, batch);
    Ok(List::from_vec(after))
}

/// Removes the members that the batch takes out, and then gives those that it lets in a leaf each.
fn change(holders: &mut [Holder], batch: &[Change])
    ensures { holders.new ≡ holders_after holders.old batch.now }
{
    vacate_all(holders, batch);
    place_all(holders, batch);
}

fn vacate_all(holders: &mut [Holder], batch: &[Change])
    ensures { holders.new ≡ fold vacated holders.old (leavers batch.now) }
{
    for change in batch {
        if let Change::Out { member } = change {
            vacate(holders, member);
        }
    }
}

fn place_all(holders: &mut [Holder], batch: &[Change])
    ensures { holders.new ≡ fold placed holders.old (joiners batch.now) }
{
    for change in batch {
        if let Change::In { member } = change {
            place(holders, member);
        }
    }
}

fn vacate(holders: &mut [Holder], member: &MemberName)
    ensures { holders.new ≡ vacated holders.old member.now }
{
    for holder in holders.iter_mut() {
        *holder = unless_held_by(*holder, member);
    }
}

fn unless_held_by(holder: Holder, member: &MemberName) -> Holder
    ensures { result ≡ (if is_held_by member.now holder then None else holder) }
{
    if is_held_by(&holder, member) {
        None
    } else {
        holder
    }
}

fn place(holders: &mut [Holder], member: &MemberName)
    ensures { holders.new ≡ placed holders.old member.now }
{
    if let Some(free) = lowest_free(holders) {
        holders[free] = Some(*member);
    }
}

fn lowest_free(holders: &[Holder]) -> Option<usize>
    ensures { result ≡ position is_none holders.now }
{
    holders.iter().position(|holder| holder.is_none())
}

/// For each leaf, whether who has it changed. `NoMemory` if out of memory for them.
pub fn changed(alloc: Global, before: &[Holder], after: &[Holder]) -> Result<List<bool>, NoMemory>
    requires { length before.now ≡ length after.now }
    ensures leaves { IfOk result (λ leaves. leaves ≡ changed_leaves before.now after.now) }
    ensures len { IfOk result (λ leaves. length leaves ≡ length after.now) }
{
    let mut leaves = List::with_room(alloc, after.len())?;
    for (i, holder) in after.iter().enumerate() {
        leaves.push(!is_same(&before[i], holder))?;
    }
    Ok(leaves)
}

/// For each leaf, whether somebody has it who had it before. `NoMemory` if out of memory for them.
pub fn held_on(alloc: Global, before: &[Holder], after: &[Holder]) -> Result<List<bool>, NoMemory>
    requires { length before.now ≡ length after.now }
    ensures leaves { IfOk result (λ leaves. leaves ≡ unchanged_holders before.now after.now) }
    ensures len { IfOk result (λ leaves. length leaves ≡ length after.now) }
{
    let mut leaves = List::with_room(alloc, after.len())?;
    for (i, holder) in after.iter().enumerate() {
        leaves.push(is_held_on(&before[i], holder))?;
    }
    Ok(leaves)
}

/// Whether somebody has a leaf who had it before.
pub fn is_held_on(before: &Holder, after: &Holder) -> bool
    ensures { result ≡ (is_some after.now && is_same_holder before.now after.now) }
{
    after.is_some() && is_same(before, after)
}

/// Whether a leaf has the same holder before and after, or none both times.
pub fn is_same(before: &Holder, after: &Holder) -> bool
    ensures { result ≡ is_same_holder before.now after.now }
{
    match after {
        Some(holder) => is_held_by(before, holder),
        None => before.is_none(),
    }
}

/// Whether a leaf is marked.
pub fn any(leaves: &[bool]) -> bool
    ensures { result ≡ list_any (λ passes. passes) leaves.now }
{
    leaves.iter().any(|passes| *passes)
}
