//! What was read of a store.
ghost use Rattle.std.specs.Prelude.{◌≡◌, ◌≤◌, [], List, length, None, is_some, IfOk, OnErr, option_copied};
ghost use Rattle.group_records.specs.declared.batches.Stored.{Stored};
ghost use Rattle.group_records.specs.declared.heads.Head.{Head};
ghost use Rattle.tree_store.specs.Private.Dues.{IsNext};
ghost use Rattle.tree_store.specs.Replays.{IsReplayOf, IsTreeOf};

use crate::dues::{Due, marked_due};
use group_records::{Head, RecordFault, read_batch};
use group_terms::NoMemory;
use key_tree::KeyTree;
use std::alloc::Global;
use std::marker::Model;

/// What was read of a store: a tree, and the batch that was read last unless it is in the tree. That one stays outside so that its pair can be made again.
#[derive(Drop)]
pub struct Replay {
    tree: KeyTree,
    last: Option<Due>,
}

impl Model for Replay {
    ghost use Rattle.std.specs.Prelude.{IfSome};
    ghost use Rattle.tree_store.specs.Private.Dues.{IsInstallable};
    ghost use Rattle.tree_store.specs.Views.{ReadSoFar};

    ghost Value = { ReadSoFar };

    ghost invariant = { λ replay. IfSome replay.last (IsInstallable replay.tree) };

    ghost view = { λ replay. record { tree = replay.tree; last = replay.last } };
}

impl Replay {
    /// Nothing was read yet of a group with this head, whose tree is 1 to 9 deep. `NoMemory` if out of memory for it.
    pub fn begin(alloc: Global, head: &Head) -> Result<Self, NoMemory>
        requires shallow { 1 ≤ head.now.depth }
        requires not_deep { head.now.depth ≤ 9 }
        ensures begun { IfOk result (λ replay. IsReplayOf head.now replay []) }
        ensures none { IfOk result (λ replay. replay.last ≡ None) }
    {
        let tree = KeyTree::new(alloc, head.depth)?;
        tree.prove_room();
        Ok(Replay { tree, last: None })
    }

    /// The batch that was read last, if it is not in the tree yet.
    pub fn last(&self) -> Option<&Due>
        ensures { option_copied result ≡ self.now.last }
    {
        self.last.as_ref()
    }

    /// The tree, and the batch that is not in it yet, if there is one.
    pub fn into_parts(self) -> (KeyTree, Option<Due>)
        ensures tree { result.0 ≡ self.tree }
        ensures last { result.1 ≡ self.last }
    {
        let Replay { tree, last } = self;
        (tree, last)
    }

    /// Puts the last batch into the tree, if it is not there yet.
    pub(crate) fn settle(&mut self)
        ensures tree { (head : Head) (list : List Stored) → IsReplayOf head self.old list → IsTreeOf head self.new.tree list }
        ensures none { self.new.last ≡ None }
    {
        match self.last.take() {
            Some(Due { stored, marked }) => {
                self.tree.install(marked, &stored.values);
                self.tree.prove_room();
            }
            None => {}
        }
    }

    /// Goes on with the batch of a record, the last one from now on, and says whether it is due after those of the tree. `NoMemory` if out of memory for it.
    pub(crate) fn go_on(&mut self, alloc: Global, body: &[u8], limit: u32) -> Result<bool, NoMemory>
        requires few { length body.now ≤ 65536 }
        requires settled { self.old.last ≡ None }
        ensures next { IfOk result (λ _. IsNext body.now self.old.tree limit self.new.last) }
        ensures due { IfOk result (λ is_due. is_due ≡ is_some self.new.last) }
        ensures tree { self.new.tree ≡ self.old.tree }
        ensures same { OnErr result (self.new ≡ self.old) }
    {
        let stored = match read_batch(alloc, body) {
            Ok(stored) => stored,
            Err(RecordFault::NoMemory) => return Err(NoMemory),
            Err(RecordFault::Malformed { .. }) => return Ok(false),
        };
        match marked_due(alloc, &self.tree, &stored, limit)? {
            Some(marked) => {
                self.last = Some(Due { stored, marked });
                Ok(true)
            }
            None => Ok(false),
        }
    }
}
