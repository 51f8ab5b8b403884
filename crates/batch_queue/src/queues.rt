//! The queue of changes, in the order in which they were asked for.
ghost use Rattle.std.specs.Prelude.{◌≡◌, ◌≤◌, [], ◌∷◌, ◌++◌, length, OnOk, OnErr};
ghost use Rattle.group_terms.specs.Changes.{is_pending, leavers, joiners};
ghost use Rattle.batch_queue.specs.Answers.{answer_to_change};

use crate::QueueRefusal;
use group_terms::{Batch, Change, MOST_CHANGES, MemberName};
use std::marker::Model;

/// The changes that wait for the next batch, in the order in which they were asked for; at most 32, and one for each member. It takes no memory.
#[derive(Drop)]
pub struct Queue {
    batch: Batch,
}

impl Model for Queue {
    ghost use Rattle.std.specs.Prelude.{List};
    ghost use Rattle.group_terms.specs.declared.changes.Change.{Change};

    ghost Value = { List Change };

    ghost view = { λ queue. queue.batch };
}

impl Queue {
    /// No change.
    pub fn new() -> Self
        ensures { result ≡ [] }
    {
        Queue {
            batch: Batch::new(),
        }
    }

    /// Puts a change at the end.
    ///
    /// `AlreadyPending` exactly where a change of the same member is pending, else `BatchFull` exactly where 32 changes are.
    pub fn add(&mut self, change: Change) -> Result<(), QueueRefusal>
        ensures answer { result ≡ answer_to_change self.old change }
        ensures ok { OnOk result (self.new ≡ self.old ++ change ∷ []) }
        ensures err { OnErr result (self.new ≡ self.old) }
    {
        if self.batch.has(change.member()) {
            return Err(QueueRefusal::AlreadyPending);
        }
        let pending = self.batch.changes().len();
        if pending >= MOST_CHANGES {
            return Err(QueueRefusal::BatchFull {
                pending: pending as u32,
            });
        }
        self.batch.push(change);
        Ok(())
    }

    /// Whether a change of a member is pending.
    pub fn has(&self, member: &MemberName) -> bool
        ensures { result ≡ is_pending self.now member.now }
    {
        self.batch.has(member)
    }

    /// How many changes let somebody in.
    pub fn joins(&self) -> usize
        ensures count { result ≡ length (joiners self.now) }
        ensures few { result ≤ MOST_CHANGES }
    {
        self.batch.joins()
    }

    /// How many changes take a member out.
    pub fn leaves(&self) -> usize
        ensures count { result ≡ length (leavers self.now) }
        ensures few { result ≤ MOST_CHANGES }
    {
        self.batch.leaves()
    }

    /// The changes as the next batch.
    pub fn batch(&self) -> &Batch
        ensures { result.now ≡ self.now }
    {
        &self.batch
    }

    /// Takes all changes off, once a batch was made of them.
    pub fn clear(&mut self)
        ensures { self.new ≡ [] }
    {
        self.batch = Batch::new();
    }
}
