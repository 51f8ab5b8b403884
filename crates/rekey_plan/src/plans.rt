//! What a batch encrypts.
ghost use Rattle.std.specs.Prelude.{◌≡◌, ◌+◌, ◌-◌, ◌*◌, ◌^◌, ◌<◌, ◌≤◌, [], ◌∷◌, ◌++◌, ℕ, List, length, IfOk, OnOk, if◌then◌else◌};
ghost use Rattle.std.specs.List.{AllWithin};
ghost use Rattle.group_terms.specs.declared.changes.Change.{Change};
ghost use Rattle.group_terms.specs.declared.keys.KeyName.TheVariants.{Node};
ghost use Rattle.key_tree.specs.Present.{StandsFor};
ghost use Rattle.rekey_plan.specs.Private.Plans.{child_wrap, inner_wraps, key_in, marked_wraps, wraps_up};
ghost use Rattle.key_tree.specs.Marks.{IsReady, IsMarkedFor, ids_renewed, installed};
ghost use Rattle.group_model.specs.Wraps.{IsBetween, wraps_at};

use group_terms::{KeyName, List, LkhId, NoMemory, Wrap};
use key_tree::{KeyTree, Marked};
use std::alloc::Global;
use tree_leaves::{node, position};

/// What a batch encrypts (group-oriented rekeying of Wong, Gouda and Lam; RFC 6407 section 5.6.3): the new key of each fresh inner position, under the key of
/// each child below which somebody stayed. Positions fall, children rise. Last comes the traffic key under the new root; nothing where nobody stayed. At most
/// two for each fresh position, and one for the traffic key. `NoMemory` if out of memory for them.
pub fn plan(alloc: Global, tree: &KeyTree, marked: &Marked) -> Result<List<Wrap>, NoMemory>
    requires { IsReady tree.now marked.now }
    ensures wraps { IfOk result (λ wraps. (batch : List Change) (limit : ℕ) → IsMarkedFor tree.now batch limit marked.now →
        (batches : List (List Change)) → StandsFor tree.now batches →
        wraps ≡ wraps_at tree.now.depth (batches ++ batch ∷ []) marked.now.epoch) }
    ensures few { IfOk result (λ wraps. length wraps ≤ 2 * length marked.now.renewed + 1) }
    ensures within { IfOk result (λ wraps. AllWithin (IsBetween (2 ^ (tree.now.depth + 1))) wraps 0 (length wraps - 1)) }
{
    Ok(list_wraps(alloc, tree, marked)?)
}

/// The encryptions of `plan`, by what was found out about the positions.
fn list_wraps(alloc: Global, tree: &KeyTree, marked: &Marked) -> Result<List<Wrap>, NoMemory>
    requires { IsReady tree.now marked.now }
    ensures { IfOk result (λ wraps. wraps ≡ marked_wraps tree.now marked.now) }
{
    let mut wraps = List::new(alloc);
    if marked.stayed() {
        push_node_wraps(tree, marked, &mut wraps)?;
        let made = marked.epoch();
        wraps.push(Wrap {
            by: node(1, made),
            gives: KeyName::Traffic { made },
        })?;
    }
    Ok(wraps)
}

/// Adds those between positions.
fn push_node_wraps(tree: &KeyTree, marked: &Marked, wraps: &mut List<Wrap>) -> Result<(), NoMemory>
    requires { IsReady tree.now marked.now }
    ensures { OnOk result (wraps.new ≡ wraps.old ++ wraps_up tree.now marked.now (ids_renewed marked.now.renewed)) }
{
    let renewed = marked.renewed();
    for i in (0..renewed.len()).rev() {
        push_inner_wraps(tree, usize::from(renewed[i].id.number()), marked, wraps)?;
    }
    Ok(())
}

/// Adds the new key of an inner position under the keys of those of its children below which somebody stayed.
fn push_inner_wraps(
    tree: &KeyTree,
    v: usize,
    marked: &Marked,
    wraps: &mut List<Wrap>,
) -> Result<(), NoMemory>
    requires ready { IsReady tree.now marked.now }
    requires positive { 0 < v }
    ensures { OnOk result (wraps.new ≡ wraps.old ++ inner_wraps tree.now marked.now v) }
{
    if v < tree.leaves() {
        push_wrap(tree, 2 * v, v, marked, wraps)?;
        push_wrap(tree, 2 * v + 1, v, marked, wraps)?;
    }
    Ok(())
}

fn push_wrap(
    tree: &KeyTree,
    child: usize,
    v: usize,
    marked: &Marked,
    wraps: &mut List<Wrap>,
) -> Result<(), NoMemory>
    requires ready { IsReady tree.now marked.now }
    requires below { v < child }
    requires positive { 0 < v }
    requires within { child < 2 ^ (tree.now.depth + 1) }
    requires small { child < 65536 }
    ensures { OnOk result (wraps.new ≡ wraps.old ++ child_wrap tree.now marked.now v child) }
{
    let id = position(child);
    if tree.is_stayed_below(marked, id) {
        wraps.push(Wrap {
            by: key_after(tree, id, marked),
            gives: node(v, marked.epoch()),
        })?;
    }
    Ok(())
}

/// The key that a position has after the batch.
fn key_after(tree: &KeyTree, id: LkhId, marked: &Marked) -> KeyName
    requires ready { IsReady tree.now marked.now }
    requires within { id < 2 ^ (tree.now.depth + 1) }
    ensures { result ≡ key_in (installed tree.now marked.now).changes id }
{
    let made = tree.last_after(marked, id).unwrap_or(0);
    KeyName::Node { id, made }
}
