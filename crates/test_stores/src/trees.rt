//! Key trees that take batches.
ghost use Rattle.std.specs.Prelude.{IfSome};
ghost use Rattle.key_tree.specs.Marks.{IsReady};

use gd_edges::ChaChaDraws;
use group_terms::{Batch, NoMemory};
use group_values::draw_values;
use key_tree::{KeyTree, Marked};
use std::alloc::Global;

/// What a batch makes of a tree, if it fits.
pub(crate) fn prepared(alloc: Global, tree: &KeyTree, batch: &Batch) -> Option<Marked>
    ensures { IfSome result (IsReady tree.now) }
{
    if !tree.fits(batch) {
        return None;
    }
    match tree.prepare(alloc, batch, u32::MAX) {
        Ok(Some(marked)) => Some(marked),
        _ => None,
    }
}

/// Gives a tree what was prepared, with drawn values.
pub(crate) fn install(
    alloc: Global,
    tree: &mut KeyTree,
    marked: Marked,
    draws: &mut ChaChaDraws,
) -> bool
    requires { IsReady tree.old marked }
{
    match draw_values(alloc, draws, marked.drawn()) {
        Ok(values) => {
            tree.install(marked, &values);
            true
        }
        Err(NoMemory) => false,
    }
}
