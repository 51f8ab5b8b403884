//! What a history sent, kept while it grows.
ghost use Rattle.std.specs.Prelude.{◌≡◌, ◌++◌, List, map, Contains, Decides, IfOk, OnOk, OnErr};
ghost use Rattle.group_terms.specs.Names.{Name};
ghost use Rattle.group_terms.specs.declared.keys.KeyName.TheVariants.{Traffic, Phase};
ghost use Rattle.group_model.specs.declared.entries.Entry.{Entry};
ghost use Rattle.group_model.specs.Derivations.{CanDerive, held_names, pairs_sent};
ghost use Rattle.sym_closure.specs.Firsts.{HasSame};
ghost use Rattle.sym_closure.specs.Knowledge.{Knows, KnowsAll};
ghost use Rattle.sym_closure.specs.Private.Graphs.{IsWithin, keys_at, pairs_of, turned};

use crate::closures::{has, reach};
use crate::graphs::KeyGraph;
use crate::histories::pairs_in;
use crate::reached::Reached;
use group_model::{Entry, KeyName, MemberName, NoMemory, Wrap};
use std::alloc::Global;
use std::marker::Model;

/// What a history sent so far, kept so that a question need not go over all of it. The graph leads from each key to the keys under
/// which it was given, for these are few, while many may follow from one key.
#[derive(Drop)]
pub struct Sent {
    graph: KeyGraph,
    count: usize,
}

impl Model for Sent {
    ghost use Rattle.std.specs.Prelude.{map};
    ghost use Rattle.sym_closure.specs.Knowledge.{Known};
    ghost use Rattle.sym_closure.specs.Private.Graphs.{pairs_of, turned};

    ghost Value = { Known };

    ghost view = { λ sent. record { count = sent.count; pairs = map turned (pairs_of sent.graph) } };
}

impl Sent {
    /// Nothing: it knows a beginning of every history. It takes no memory.
    pub fn new(alloc: Global) -> Self
        ensures { (entries : List Entry) → Knows result entries }
    {
        Sent {
            graph: KeyGraph::new(alloc),
            count: 0,
        }
    }

    /// Takes in what a history sent since, of which it knows a beginning. Out of memory for that, it still knows a beginning,
    /// and a later call goes on.
    pub fn follow(&mut self, alloc: Global, history: &[Entry]) -> Result<(), NoMemory>
        requires { Knows self.old history.now }
        ensures ok { OnOk result (KnowsAll self.new history.now) }
        ensures err { OnErr result (Knows self.new history.now) }
    {
        match self.take_in(alloc, history) {
            Ok(()) => Ok(()),
            Err(NoMemory) => {
                *self = Sent::new(alloc);
                Err(NoMemory)
            }
        }
    }

    /// The same; but out of memory, it may have taken in a part of what an entry sent.
    fn take_in(&mut self, alloc: Global, history: &[Entry]) -> Result<(), NoMemory>
        requires { Knows self.old history.now }
        ensures { OnOk result (KnowsAll self.new history.now) }
    {
        let (_, later) = history.split_at(self.count);
        for entry in later {
            add_turned(
                &mut self.graph,
                alloc,
                pairs_in(alloc, &entry.answer)?.as_slice(),
            )?;
        }
        self.count = history.len();
        Ok(())
    }

    /// Whether these members derive the traffic key of an epoch from what they hold and what was sent (RFC 6407 section 7.4), by a
    /// history that is known whole.
    pub fn derives(
        &self,
        alloc: Global,
        members: &[MemberName],
        epoch: u32,
    ) -> Result<bool, NoMemory>
        ensures { IfOk result (λ yes. (entries : List Entry) → KnowsAll self.now entries
            → Decides yes (CanDerive (held_names entries members.now) (pairs_sent entries) (Traffic epoch))) }
    {
        let goal = KeyName::Traffic { made: epoch };
        let reached = reach(alloc, &self.graph, &[goal])?;
        Ok(reaches_one(&self.graph, &reached, members))
    }
}

/// Whether the phase 1 key of one of these members was reached.
fn reaches_one(graph: &KeyGraph, reached: &Reached, members: &[MemberName]) -> bool
    requires { IsWithin graph.now reached.now }
    ensures { Decides result ((member : Name) × Contains members.now member
        × Contains (keys_at graph.now.keys reached.now.order) (Phase member)) }
{
    members.iter().any(|member| has(graph, reached, &KeyName::Phase { member: *member }))
}

/// Adds pairs the other way round.
fn add_turned(graph: &mut KeyGraph, alloc: Global, pairs: &[Wrap]) -> Result<(), NoMemory>
    ensures { OnOk result (HasSame (pairs_of graph.old ++ map turned pairs.now) (pairs_of graph.new)) }
{
    for pair in pairs {
        let (by, gives) = (pair.gives, pair.by);
        graph.add(alloc, &Wrap { by, gives })?;
    }
    Ok(())
}
