//! The values that the keys of a group have now.
ghost use Rattle.std.specs.Prelude.{◌≡◌, ◌≢◌, ◌<◌, ◌≤◌, ◌^◌, ◌+◌, [], ◌∷◌, ◌++◌, List, length, slice_get, slice_set, Some, IfOk, IfErr};
ghost use Rattle.std.specs.List.{All, HoldsAt, fold};
ghost use Rattle.group_terms.specs.declared.changes.Change.{Change};
ghost use Rattle.group_terms.specs.declared.values.Drawn.{Drawn};
ghost use Rattle.group_terms.specs.declared.values.NodeValue.{NodeValue};
ghost use Rattle.group_values.specs.Values.{KeepsLast, Made, Rises, ids_of, last_value, value_of};

use group_terms::{BatchValues, Drawn, List, LkhId, NoMemory, NodeValue, TrafficValue};
use std::alloc::Global;
use std::marker::Model;

/// The values that the keys of a group have now: those of the positions of its tree, and that of the traffic.
#[derive(Drop)]
pub struct KeptValues {
    nodes: List<NodeValue>,
    traffic: Option<TrafficValue>,
}

impl Model for KeptValues {
    ghost use Rattle.group_values.specs.Values.{Kept};

    ghost Value = { Kept };

    ghost view = { λ kept. record { nodes = kept.nodes; traffic = kept.traffic } };
}

impl KeptValues {
    /// Room for the values of a tree of this depth, at most 9, before the first batch.
    pub fn new(alloc: Global, depth: u8) -> Result<Self, NoMemory>
        requires { depth ≤ 9 }
        ensures room { IfOk result (λ kept. length kept.nodes ≡ 2 ^ (depth + 1)) }
        ensures none { IfOk result (λ kept. KeepsLast kept []) }
    {
        Ok(KeptValues {
            nodes: List::from_vec(vec![in alloc; NodeValue::default(); 1 << (depth + 1)]?),
            traffic: None,
        })
    }

    /// Takes in what a batch made. It takes no memory.
    pub fn take(&mut self, values: &BatchValues)
        requires { All (λ (node : Drawn). node.id < length self.old.nodes) values.now.nodes }
        ensures last { (list : List Made) (changes : List Change) → KeepsLast self.old list →
            KeepsLast self.new (list ++ record { changes = changes; values = values.now } ∷ []) }
        ensures room { length self.new.nodes ≡ length self.old.nodes }
    {
        take_nodes(self.nodes.as_mut_slice(), values.nodes.as_slice());
        self.traffic = Some(values.traffic);
    }

    /// The value of a position's key.
    pub fn node(&self, id: LkhId) -> NodeValue
        requires { id < length self.now.nodes }
        ensures { slice_get self.now.nodes id ≡ Some result }
    {
        self.nodes.as_slice()[usize::from(id.number())]
    }

    /// The value that a position's key has once these values of a batch are taken in.
    pub fn node_after(&self, values: &BatchValues, id: LkhId) -> NodeValue
        requires { id < length self.now.nodes }
        ensures { (list : List Made) (changes : List Change) (value : NodeValue) → KeepsLast self.now list → Rises (ids_of values.now.nodes) →
            last_value (list ++ record { changes = changes; values = values.now } ∷ []) id ≡ Some value → result ≡ value }
    {
        match drawn_for(values.nodes.as_slice(), id) {
            Some(value) => value,
            None => self.node(id),
        }
    }

    /// The value of the traffic key; `None` exactly before the first batch.
    pub fn traffic(&self) -> Option<TrafficValue>
        ensures { result ≡ self.now.traffic }
    {
        self.traffic
    }
}

/// Puts values in the places of those before them.
fn take_nodes(kept: &mut [NodeValue], nodes: &[Drawn])
    requires { All (λ (node : Drawn). node.id < length kept.old) nodes.now }
    ensures { kept.new ≡ fold (λ now (node : Drawn). slice_set now node.id node.value) kept.old nodes.now }
{
    for node in nodes {
        kept[usize::from(node.id.number())] = node.value;
    }
}

/// The value that was drawn for a position, if one was; the positions rise.
fn drawn_for(nodes: &[Drawn], id: LkhId) -> Option<NodeValue>
    ensures { Rises (ids_of nodes.now) → result ≡ value_of nodes.now id }
{
    match search(nodes, id) {
        Ok(place) => Some(nodes[place].value),
        Err(_) => None,
    }
}

/// Where a position is among those that rise, or where it would go.
fn search(nodes: &[Drawn], id: LkhId) -> Result<usize, usize>
    ensures range { IfOk result (λ place. place < length nodes.now) }
    ensures found { IfOk result (HoldsAt (λ (node : Drawn). node.id ≡ id) nodes.now) }
    ensures absent { Rises (ids_of nodes.now) → IfErr result (λ place. All (λ (node : Drawn). node.id ≢ id) nodes.now) }
{
    nodes.binary_search_by_key(&id.number(), |node| node.id.number())
}
