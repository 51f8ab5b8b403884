//! The keys that a member has.
ghost use Rattle.std.specs.Prelude.{◌≡◌, ◌+◌, ◌^◌, ◌<◌, ◌≤◌, ℕ, map, length, IfOk};
ghost use Rattle.group_model.specs.Fresh.{key_path, node_name, upwards};

use crate::{History, KeyName, List, LkhId, MemberName, NoMemory, each_leaf_has_its_place};
use std::alloc::Global;

impl History {
    /// The keys of a member of an epoch, from its leaf up to the root (the key set of Wong, Gouda and Lam); none of somebody who
    /// is no member then.
    pub fn path(
        &self,
        alloc: Global,
        epoch: u32,
        member: &MemberName,
    ) -> Result<List<KeyName>, NoMemory>
        requires { epoch ≤ length self.now.batches }
        ensures { IfOk result (λ names. names ≡ key_path self.now.depth self.now.batches epoch member.now) }
    {
        each_leaf_has_its_place();
        match self.place(epoch, member) {
            Some(leaf) => {
                let positions = positions_up(alloc, leaf)?;
                Ok(self.keys(alloc, epoch, positions.as_slice())?)
            }
            None => Ok(List::new(alloc)),
        }
    }

    /// The keys of positions at an epoch.
    fn keys(
        &self,
        alloc: Global,
        epoch: u32,
        positions: &[LkhId],
    ) -> Result<List<KeyName>, NoMemory>
        requires { epoch ≤ length self.now.batches }
        ensures { IfOk result (λ names. names ≡ map (node_name self.now.depth self.now.batches epoch) positions.now) }
    {
        let mut names = List::with_room(alloc, positions.len())?;
        for id in positions {
            names.push(self.key(epoch, *id))?;
        }
        Ok(names)
    }

    /// The key that a position has at an epoch.
    fn key(&self, epoch: u32, id: LkhId) -> KeyName
        requires { epoch ≤ length self.now.batches }
        ensures { result ≡ node_name self.now.depth self.now.batches epoch id }
    {
        let made = self.last(epoch, id).unwrap_or(0);
        KeyName::Node { id, made }
    }
}

/// A leaf and the positions above it, up to the root.
fn positions_up(alloc: Global, leaf: LkhId) -> Result<List<LkhId>, NoMemory>
    ensures { IfOk result (λ positions.
        (depth : ℕ) → 2 ^ depth ≤ leaf → leaf < 2 ^ (depth + 1) → positions ≡ upwards depth leaf) }
{
    let mut positions = List::new(alloc);
    let mut at = Some(leaf);
    while let Some(id) = at {
        positions.push(id)?;
        at = id.parent();
    }
    Ok(positions)
}
