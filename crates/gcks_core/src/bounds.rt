//! How much a batch renews.
ghost use Rattle.std.specs.Prelude.{◌≤◌, ℕ, List, length};
ghost use Rattle.group_terms.specs.declared.changes.Change.{Change};
ghost use Rattle.key_tree.specs.Present.{StandsFor};
ghost use Rattle.key_tree.specs.Marks.{IsMarkedFor};
ghost use Rattle.key_tree.specs.declared.marks.Marked.{Marked};

use group_terms::Batch;
use key_tree::KeyTree;

/// A batch renews a path for each of at most 32 changes, and the root; a path has at most 10 positions.
pub(crate) fn prove_renews_few(tree: &KeyTree, batch: &Batch)
    ensures { (limit : ℕ) (marked : Marked) → IsMarkedFor tree.now batch.now limit marked → length marked.renewed ≤ 321 }
{
    tree.depth();
    batch.changes();
}

/// A batch draws values for positions of the tree alone, of which there are at most 1,023.
pub(crate) fn prove_draws_few(tree: &KeyTree)
    ensures { (batches : List (List Change)) (batch : List Change) (limit : ℕ) (marked : Marked) → StandsFor tree.now batches →
        IsMarkedFor tree.now batch limit marked → length marked.drawn ≤ 1023 }
{
    tree.depth();
}
