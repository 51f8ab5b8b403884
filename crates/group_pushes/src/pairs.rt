//! Both pushes.
ghost use Rattle.std.specs.Prelude.{◌≡◌, ◌+◌, ◌-◌, ◌^◌, ◌≤◌, ℕ, [], ◌∷◌, ◌++◌, ◌<◌, List, length, slice_get, Some, IfOk};
ghost use Rattle.group_terms.specs.Octets.{iv_octets};
ghost use Rattle.group_terms.specs.declared.changes.Change.{Change};
ghost use Rattle.group_values.specs.Values.{KeepsLast, Made, batches_made};
ghost use Rattle.key_tree.specs.Present.{StandsFor};
ghost use Rattle.key_tree.specs.Marks.{IsReady, IsMarkedFor};
ghost use Rattle.group_keys.specs.Drawn.{AreDrawn};
ghost use Rattle.group_pushes.specs.Pairs.{IsPairIfStayed};
ghost use Rattle.group_pushes.specs.Private.Jobs.{IsLastValue};

use crate::arrays::update_arrays;
use gd_edges::Signer;
use group_keys::the_last_value_is_that_of_the_last_change;
use group_model::{PushPair, each_leaf_has_its_place};
use group_terms::{BatchValues, LkhId, NoMemory, NodeValue, a_mark_is_that_of_a_child};
use key_tree::{KeyTree, Marked};
use push_msg::{PushHead, write_membership, write_traffic};
use rekey_plan::plan;
use std::alloc::Global;

/// The pair of pushes of a batch, if somebody stayed over it: the membership push under the key that the root had, with the new keys of the
/// tree, and the traffic push under the root's new key. The batch is not in the tree yet.
pub fn write_pair<G: Signer>(
    alloc: Global,
    tree: &KeyTree,
    marked: &Marked,
    values: &BatchValues,
    spi: &[u8; 16],
    signer: &G,
) -> Result<Option<PushPair>, NoMemory>
    requires ready { IsReady tree.now marked.now }
    requires few { length marked.now.renewed ≤ 321 }
    ensures { (list : List Made) (changes : List Change) (limit : ℕ) → StandsFor tree.now (batches_made list) → KeepsLast tree.now.kept list →
        AreDrawn tree.now.depth (list ++ record { changes = changes; values = values.now } ∷ []) → IsMarkedFor tree.now changes limit marked.now →
        IfOk result (IsPairIfStayed G.Signer signer.now tree.now.depth spi.now
        (list ++ record { changes = changes; values = values.now } ∷ [])) }
{
    the_last_value_is_that_of_the_last_change();
    each_leaf_has_its_place();
    a_mark_is_that_of_a_child();
    tree.prove_room();
    let wraps = plan(alloc, tree, marked)?;
    let Some((_, between)) = wraps.as_slice().split_last() else {
        return Ok(None);
    };
    let arrays = update_arrays(alloc, tree, values, between)?;
    let (old_root, new_root) = keks(tree, values);
    let (first, second) = heads(spi, marked.sequence());
    let membership = write_membership(alloc, &first, arrays.as_slice(), &old_root, signer)?;
    let traffic = write_traffic(alloc, &second, &values.traffic, &new_root, signer)?;
    Ok(Some(PushPair {
        first: first.sequence,
        membership,
        traffic,
        wraps,
    }))
}

/// What the pushes begin with, where the second has this number.
fn heads(spi: &[u8; 16], last: u32) -> (PushHead, PushHead)
    ensures first { result.0 ≡ record { spi = spi.now; sequence = last - 1 } }
    ensures second { result.1 ≡ record { spi = spi.now; sequence = last } }
{
    let first = last.saturating_sub(1);
    (head(spi, first), head(spi, last))
}

/// What a push of this number begins with.
fn head(spi: &[u8; 16], sequence: u32) -> PushHead
    ensures { result ≡ record { spi = spi.now; sequence = sequence } }
{
    PushHead {
        spi: *spi,
        sequence,
    }
}

/// The keys under which the pushes are encrypted: the one that the root had, and its new one.
fn keks(tree: &KeyTree, values: &BatchValues) -> (NodeValue, NodeValue)
    ensures old { slice_get tree.now.kept.nodes 1 ≡ Some result.0 }
    ensures new { IsLastValue tree.now.kept values.now 1 result.1 }
    ensures old_iv { length result.0.iv ≡ iv_octets }
    ensures new_iv { length result.1.iv ≡ iv_octets }
{
    let root = root_id();
    let (old, new) = (tree.value(root), tree.value_after(values, root));
    prove_iv_fits(&old);
    prove_iv_fits(&new);
    (old, new)
}

/// The IV of a key is a whole block.
fn prove_iv_fits(value: &NodeValue)
    ensures { length value.now.iv ≡ iv_octets }
{
    let _ = value.iv.as_slice();
}

/// The position of the root.
fn root_id() -> LkhId
    ensures { result ≡ 1 }
{
    LkhId::new(1).unwrap()
}
