//! Whether a batch that was stored is due.
ghost use Rattle.std.specs.Prelude.{◌≡◌, ◌↔◌, IsTrue, IfOk};
ghost use Rattle.group_values.specs.Values.{ids_of};
ghost use Rattle.tree_store.specs.Private.Dues.{IsFollowed};

use group_records::Stored;
use group_terms::{Drawn, LkhId, NoMemory};
use key_tree::{KeyTree, Marked};
use std::alloc::Global;

/// A batch that is due, and what it makes of the tree before it.
#[derive(Drop)]
pub struct Due {
    pub stored: Stored,
    pub marked: Marked,
}

/// What a batch makes of a tree, if it is due after those for which the tree stands; `None` where it is not. `NoMemory` if out of memory for that.
pub(crate) fn marked_due(
    alloc: Global,
    tree: &KeyTree,
    stored: &Stored,
    limit: u32,
) -> Result<Option<Marked>, NoMemory>
    ensures { IfOk result (IsFollowed tree.now stored.now limit) }
{
    if !tree.fits(&stored.batch) {
        return Ok(None);
    }
    let Some(marked) = tree.prepare(alloc, &stored.batch, limit)? else {
        return Ok(None);
    };
    if stored.epoch != marked.epoch()
        || stored.sequence != marked.sequence()
        || !are_at(stored.values.nodes.as_slice(), marked.drawn())
    {
        return Ok(None);
    }
    Ok(Some(marked))
}

/// Whether values are those of these positions, in this order.
fn are_at(nodes: &[Drawn], positions: &[LkhId]) -> bool
    ensures { IsTrue result ↔ (ids_of nodes.now ≡ positions.now) }
{
    if nodes.len() != positions.len() {
        return false;
    }
    for (i, node) in nodes.iter().enumerate() {
        if node.id != positions[i] {
            return false;
        }
    }
    true
}
