//! What a member is told.
ghost use Rattle.std.specs.Prelude.{◌≡◌, ◌<◌, ◌≤◌, ◌^◌, ◌+◌, ◌/◌, ◌++◌, ◌∷◌, [], ℕ, List, None, Some, length, map, IfSome, IfNone};
ghost use Rattle.std.specs.List.{All};
ghost use Rattle.group_terms.specs.Names.{Name};
ghost use Rattle.group_terms.specs.declared.changes.Change.{Change};
ghost use Rattle.group_terms.specs.declared.paths.PathKey.{PathKey};
ghost use Rattle.group_values.specs.Values.{KeepsLast, Made, batches_made};
ghost use Rattle.group_model.specs.Fresh.{upwards};
ghost use Rattle.group_model.specs.Places.{holders_of, place_in};
ghost use Rattle.key_tree.specs.Present.{StandsFor};
ghost use Rattle.key_tree.specs.Marks.{IsReady, IsMarkedFor};
ghost use Rattle.group_keys.specs.Drawn.{AreDrawn};
ghost use Rattle.group_keys.specs.Private.Present.{IsNextKey};
ghost use Rattle.group_keys.specs.Replies.{IsKeyedOf};

use crate::the_last_value_is_that_of_the_last_change;
use group_model::{drawn_positions_rise, each_leaf_has_its_place, places_are_held};
use group_terms::{BatchValues, Keyed, LkhId, MemberName, Path, PathKey};
use key_tree::{KeyTree, Marked, above};

/// What a member of the present epoch is told that asks now (RFC 6407 section 3.2); `None` for who has no leaf, and only there. It takes no memory.
pub fn keyed(tree: &KeyTree, spi: &[u8; 16], member: &MemberName) -> Option<Keyed>
    ensures keyed { (list : List Made) → StandsFor tree.now (batches_made list) → KeepsLast tree.now.kept list → AreDrawn tree.now.depth list →
        IfSome result (IsKeyedOf tree.now.depth spi.now list member.now) }
    ensures none { (list : List Made) → StandsFor tree.now (batches_made list) → KeepsLast tree.now.kept list →
        IfNone result (place_in tree.now.depth tree.now.holders member.now ≡ None) }
    ensures nobody { place_in tree.now.depth tree.now.holders member.now ≡ None → result ≡ None }
{
    the_last_value_is_that_of_the_last_change();
    each_leaf_has_its_place();
    places_are_held();
    tree.prove_room();
    let leaf = tree.leaf_of(member)?;
    let traffic = tree.traffic()?;
    Some(Keyed {
        epoch: tree.epoch(),
        sequence: tree.sequence(),
        spi: *spi,
        path: tree.path(leaf),
        traffic,
    })
}

/// What a member is told of the epoch that a batch makes, found out before the batch is in (RFC 6407 section 3.2). It is the member that has this
/// leaf then, and the batch drew the values. It takes no memory.
pub fn keyed_after(
    tree: &KeyTree,
    marked: &Marked,
    values: &BatchValues,
    spi: &[u8; 16],
    leaf: LkhId,
) -> Keyed
    requires ready { IsReady tree.now marked.now }
    requires from { 2 ^ tree.now.depth ≤ leaf }
    requires to { leaf < 2 ^ (tree.now.depth + 1) }
    ensures { (list : List Made) (changes : List Change) (limit : ℕ) (m : Name) → StandsFor tree.now (batches_made list) → KeepsLast tree.now.kept list →
        AreDrawn tree.now.depth (list ++ record { changes = changes; values = values.now } ∷ []) → IsMarkedFor tree.now changes limit marked.now →
        place_in tree.now.depth (holders_of tree.now.depth (batches_made list ++ changes ∷ [])) m ≡ Some leaf →
        IsKeyedOf tree.now.depth spi.now (list ++ record { changes = changes; values = values.now } ∷ []) m result }
{
    the_last_value_is_that_of_the_last_change();
    drawn_positions_rise();
    places_are_held();
    Keyed {
        epoch: marked.epoch(),
        sequence: marked.sequence(),
        spi: *spi,
        path: path_after(tree, marked, values, leaf),
        traffic: values.traffic,
    }
}

/// The keys that the positions from a leaf up to the root have after a batch.
fn path_after(tree: &KeyTree, marked: &Marked, values: &BatchValues, leaf: LkhId) -> Path
    requires ready { IsReady tree.now marked.now }
    requires from { 2 ^ tree.now.depth ≤ leaf }
    requires to { leaf < 2 ^ (tree.now.depth + 1) }
    ensures ids { map (λ (key : PathKey). key.id) result ≡ upwards tree.now.depth leaf }
    ensures keys { All (IsNextKey tree.now marked.now values.now) result }
{
    let mut path = Path::new();
    let mut id = leaf;
    for _ in 0..tree.depth() {
        path.push(next_key(tree, marked, values, id));
        id = above(id);
    }
    path.push(next_key(tree, marked, values, id));
    path
}

/// The key that a position has after a batch.
fn next_key(tree: &KeyTree, marked: &Marked, values: &BatchValues, id: LkhId) -> PathKey
    requires ready { IsReady tree.now marked.now }
    requires within { id < 2 ^ (tree.now.depth + 1) }
    ensures id { result.id ≡ id }
    ensures key { IsNextKey tree.now marked.now values.now result }
{
    PathKey {
        id,
        made: tree.last_after(marked, id).unwrap_or(0),
        value: tree.value_after(values, id),
    }
}
