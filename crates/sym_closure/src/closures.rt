//! Deriving keys from keys.
ghost use Rattle.std.specs.Prelude.{◌≡◌, ◌∷◌, [], length, Contains, Decides, None, Ok, IfOk, IfSome, OnOk};
ghost use Rattle.std.specs.List.{All};
ghost use Rattle.group_model.specs.Derivations.{IsDerivation, CanDerive};
ghost use Rattle.sym_closure.specs.Firsts.{AreAmong, HasSame};
ghost use Rattle.sym_closure.specs.Private.Gains.{GrowsBy};
ghost use Rattle.sym_closure.specs.Private.Graphs.{AreReached, FollowFrom, IsClosure, IsComplete, IsWithin, keys_at, pairs_of};

use crate::graphs::KeyGraph;
use crate::reached::Reached;
use group_model::{Derivation, KeyName, NoMemory, Wrap};
use std::alloc::Global;

/// A derivation of a key from keys that are held, by pairs of which whoever has the one key learns the other; `None` exactly
/// where there is none.
pub fn derive(
    alloc: Global,
    have: &[KeyName],
    pairs: &[Wrap],
    goal: &KeyName,
) -> Result<Option<Derivation>, NoMemory>
    ensures found { IfOk result (λ found. IfSome found (λ derivation.
        IsDerivation have.now pairs.now derivation.names × Contains derivation.names goal.now)) }
    ensures none { result ≡ Ok None → CanDerive have.now pairs.now goal.now → ⊥ }
{
    let graph = graph_with(alloc, have, pairs)?;
    derive_in(alloc, &graph, have, goal)
}

/// The keys of some pairs and some keys that are held, and which gives which.
fn graph_with(alloc: Global, have: &[KeyName], pairs: &[Wrap]) -> Result<KeyGraph, NoMemory>
    ensures same { IfOk result (λ graph. HasSame pairs.now (pairs_of graph)) }
    ensures there { IfOk result (λ graph. All (Contains graph.keys) have.now) }
{
    let mut graph = graph_of(alloc, pairs)?;
    graph.add_keys(alloc, have)?;
    Ok(graph)
}

/// A derivation of a key by the pairs of a graph, which has the keys that are held; `None` exactly where there is none.
fn derive_in(
    alloc: Global,
    graph: &KeyGraph,
    have: &[KeyName],
    goal: &KeyName,
) -> Result<Option<Derivation>, NoMemory>
    requires { All (Contains graph.now.keys) have.now }
    ensures found { IfOk result (λ found. IfSome found (λ derivation.
        IsDerivation have.now (pairs_of graph.now) derivation.names × Contains derivation.names goal.now)) }
    ensures none { result ≡ Ok None → CanDerive have.now (pairs_of graph.now) goal.now → ⊥ }
{
    let reached = reach(alloc, graph, have)?;
    if !has(graph, &reached, goal) {
        return Ok(None);
    }
    let names = graph.names(alloc, reached.order())?;
    Ok(Some(Derivation { names }))
}

/// The keys of some pairs, and which gives which.
fn graph_of(alloc: Global, pairs: &[Wrap]) -> Result<KeyGraph, NoMemory>
    ensures { IfOk result (λ graph. HasSame pairs.now (pairs_of graph)) }
{
    let mut graph = KeyGraph::new(alloc);
    for pair in pairs {
        graph.add(alloc, pair)?;
    }
    Ok(graph)
}

/// The numbers of the keys that follow from some that are held, in an order in which they follow.
pub(crate) fn reach(alloc: Global, graph: &KeyGraph, have: &[KeyName]) -> Result<Reached, NoMemory>
    ensures within { IfOk result (IsWithin graph.now) }
    ensures closure { IfOk result (λ reached. IsClosure graph.now have.now reached.order) }
{
    let mut reached = Reached::new(alloc, graph.len())?;
    add_held(graph, have, &mut reached)?;
    close(graph, &mut reached)?;
    Ok(reached)
}

/// Whether a key was reached.
pub(crate) fn has(graph: &KeyGraph, reached: &Reached, key: &KeyName) -> bool
    requires { IsWithin graph.now reached.now }
    ensures { Decides result (Contains (keys_at graph.now.keys reached.now.order) key.now) }
{
    match graph.number(key) {
        Some(number) => reached.has(number),
        None => false,
    }
}

/// Adds the numbers of keys that are held, where nothing was added yet. A key without a number gives no other.
fn add_held(graph: &KeyGraph, have: &[KeyName], reached: &mut Reached) -> Result<(), NoMemory>
    requires none { reached.old.order ≡ [] }
    requires bound { reached.old.bound ≡ length graph.now.keys }
    ensures bound { OnOk result (reached.new.bound ≡ length graph.now.keys) }
    ensures among { OnOk result (AreAmong (keys_at graph.now.keys reached.new.order) have.now) }
    ensures held { OnOk result (AreReached graph.now have.now reached.new.order) }
{
    for key in have {
        add_held_key(graph, key, reached)?;
    }
    Ok(())
}

/// Adds the number of a key, where it has one.
fn add_held_key(graph: &KeyGraph, key: &KeyName, reached: &mut Reached) -> Result<(), NoMemory>
    requires { reached.old.bound ≡ length graph.now.keys }
    ensures bound { OnOk result (reached.new.bound ≡ length graph.now.keys) }
    ensures grown { OnOk result (GrowsBy (λ more. AreAmong (keys_at graph.now.keys more) (key.now ∷ [])) reached.old.order reached.new.order) }
    ensures held { OnOk result (Contains graph.now.keys key.now → Contains (keys_at graph.now.keys reached.new.order) key.now) }
{
    match graph.number(key) {
        Some(number) => reached.add(number),
        None => Ok(()),
    }
}

/// Adds the numbers of all keys that follow from what was added.
fn close(graph: &KeyGraph, reached: &mut Reached) -> Result<(), NoMemory>
    requires { reached.old.bound ≡ length graph.now.keys }
    ensures within { OnOk result (IsWithin graph.now reached.new) }
    ensures grown { OnOk result (GrowsBy (FollowFrom graph.now reached.old.order) reached.old.order reached.new.order) }
    ensures complete { OnOk result (IsComplete graph.now reached.new.order) }
{
    let mut place = 0;
    while let Some(number) = reached.at(place) {
        reached.add_all(graph.given(number))?;
        place += 1;
    }
    Ok(())
}
