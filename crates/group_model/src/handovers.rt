//! The leaves that change hands over a batch.
ghost use Rattle.std.specs.Prelude.{◌≡◌, ◌+◌, ◌^◌, ◌<◌, ◌≤◌, ◌++◌, length, IfOk, OnOk};
ghost use Rattle.std.specs.List.{zip, list_any};
ghost use Rattle.group_terms.specs.Positions.{is_below};
ghost use Rattle.group_model.specs.declared.handovers.Handover.{Handover};
ghost use Rattle.group_model.specs.Private.Handovers.{handed_over, all_handed_over, taken_by, was_of, renews};

use crate::{List, LkhId, MemberName, NoMemory};
use std::alloc::Global;
use tree_leaves::holders::{self, Holder};
use tree_leaves::position;

/// A leaf that changed hands.
#[derive(Clone, Copy)]
pub(crate) struct Handover {
    leaf: LkhId,
    before: Holder,
    after: Holder,
}

/// The leaves whose holder is another after than before, by rising leaf.
pub(crate) fn handovers(
    alloc: Global,
    before: &[Holder],
    after: &[Holder],
) -> Result<List<Handover>, NoMemory>
    requires same { length before.now ≡ length after.now }
    requires some { 0 < length after.now }
    requires few { length after.now ≤ 512 }
    ensures { IfOk result (λ handovers. handovers ≡ all_handed_over (length after.now) (zip before.now after.now)) }
{
    let mut handovers = List::new(alloc);
    for (i, holder) in after.iter().enumerate() {
        let leaf = position(after.len() + i);
        hand_over(leaf, &before[i], holder, &mut handovers)?;
    }
    Ok(handovers)
}

/// Adds a leaf, where who has it changed.
fn hand_over(
    leaf: LkhId,
    before: &Holder,
    after: &Holder,
    handovers: &mut List<Handover>,
) -> Result<(), NoMemory>
    ensures { OnOk result (handovers.new ≡ handovers.old ++ handed_over leaf before.now after.now) }
{
    if !holders::is_same(before, after) {
        handovers.push(Handover {
            leaf,
            before: *before,
            after: *after,
        })?;
    }
    Ok(())
}

/// The leaf that a member got.
pub(crate) fn taken_by(handovers: &[Handover], member: &MemberName) -> Option<LkhId>
    ensures { result ≡ taken_by member.now handovers.now }
{
    let handover = handovers
        .iter()
        .find(|handover| holders::is_held_by(&handover.after, member))?;
    Some(handover.leaf)
}

/// Whether one of the leaves was a member's.
pub(crate) fn was_of(handovers: &[Handover], member: &MemberName) -> bool
    ensures { result ≡ was_of member.now handovers.now }
{
    handovers
        .iter()
        .any(|handover| holders::is_held_by(&handover.before, member))
}

/// Whether a position gets a new key: the root, and each position at or above one of the leaves.
pub(crate) fn renews(depth: u8, id: LkhId, handovers: &[Handover]) -> bool
    ensures { result ≡ renews depth id handovers.now }
{
    id.number() == 1 || is_any_below(depth, id, handovers)
}

fn is_any_below(depth: u8, id: LkhId, handovers: &[Handover]) -> bool
    ensures { result ≡ list_any (λ (handover : Handover). is_below depth id handover.leaf) handovers.now }
{
    handovers.iter().any(|handover| is_below(depth, id.number(), handover.leaf.number()))
}

/// Whether a position is this one, or at most so many steps below it.
fn is_below(steps: u8, above: u16, below: u16) -> bool
    ensures { result ≡ is_below steps above below }
{
    if steps == 0 {
        below == above
    } else {
        below == above || is_below(steps - 1, above, below / 2)
    }
}
