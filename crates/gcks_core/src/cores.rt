//! The core, and its calls.
ghost use Rattle.std.specs.Prelude.{◌≡◌, ◌⊎◌, ◌≤◌, [], ◌∷◌, ◌++◌, ℕ, List, true, false, None, Some, Ok, Err, IfOk, IfErr, OnOk, OnErr};
ghost use Rattle.gd_disk.specs.Disks.{Knows, Only};
ghost use Rattle.gd_disk.specs.Moments.{shown, LeavesOnly, OnlyReads, ReportsFaults};
ghost use Rattle.group_values.specs.Values.{Made};
ghost use Rattle.group_model.specs.Places.{is_member};
ghost use Rattle.group_model.specs.Servers.{Server, IsJoin, IsLeave, IsPreparation, IsStoring, IsReopening, opened_server, coming_batch, with_batch, in_doubt, halted};
ghost use Rattle.group_model.specs.declared.entries.Refusal.TheVariants.{NeedsReopen, DiskFault, NotAJournal, NoMemory};
ghost use Rattle.group_pushes.specs.Fits.{ValuesFit};
ghost use Rattle.group_pushes.specs.Pairs.{IsPairIfStayed};
ghost use Rattle.tree_store.specs.Groups.{IsGroup, IsNoGroup};
ghost use Rattle.gcks_core.specs.Prepares.{IsCoreOutputOf, IsReadyFor, values_in};
ghost use Rattle.gcks_core.specs.Stands.{Stands};
ghost use Rattle.gcks_core.specs.Stored.{IsFileOf, IsOnDisk, stored_list};

use crate::committing::store_batch;
use crate::preparing::prepare_batch;
use crate::reading::{read_again, refusal_of};
use crate::waiting::{queue_join, queue_leave};
use crate::{CoreOutput, MemberName, Prepared, PushPair, Queue, Refusal};
use gd_disk::Disk;
use gd_edges::{Draws, Signer};
use group_model::a_batch_that_fits_has_few_changes;
use key_tree::KeyTree;
use std::alloc::Global;
use std::marker::Model;
use tree_store::{Head, TreeStore, a_file_has_one_group};

/// One group in its journal.
#[derive(Drop)]
pub struct Core<D: Disk, G: Signer, R: Draws> {
    pub(crate) store: TreeStore<D>,
    pub(crate) head: Head,
    pub(crate) signer: G,
    pub(crate) draws: R,
    pub(crate) tree: KeyTree,
    pub(crate) queue: Queue,
    /// Whether it has to be opened again.
    pub(crate) needs_reopen: bool,
}

impl<D: Disk, G: Signer, R: Draws> Model for Core<D, G, R> {
    ghost use Rattle.gcks_core.specs.Private.Cores.{IsCore};
    ghost use Rattle.gcks_core.specs.Views.{View};

    ghost Value = { View D G R };

    ghost invariant = { λ core. IsCore D.Disk core.store core.head core.tree core.queue core.needs_reopen };

    ghost view = { λ core. record {
      disk = core.store.disk;
      signer = core.signer;
      draws = core.draws;
      head = core.head;
      tree = core.tree;
      queue = core.queue;
      needs_reopen = core.needs_reopen;
    } };
}

impl<D: Disk, G: Signer, R: Draws> Core<D, G, R> {
    /// A change waits for the next batch: somebody who is no member comes in. It takes no memory.
    ///
    /// `NeedsReopen`, `AlreadyPending` where a change of this member waits, `TreeFull` where no leaf is left, `BatchFull` where 32 changes wait. The first of
    /// these that holds is the answer, and where none holds, the change waits. A refusal leaves all as it was.
    pub fn join(&mut self, member: &MemberName) -> Result<(), Refusal>
        requires { is_member self.old.tree.holders member.now ≡ false }
        ensures step { (server : Server) → Stands R.Draws self.old server →
            (next : Server) × IsJoin server member.now result next × Stands R.Draws self.new next }
        ensures rest { self.new ≡ record self.old { queue = self.new.queue } }
        ensures err { OnErr result (self.new ≡ self.old) }
    {
        queue_join(self.needs_reopen, &self.tree, &mut self.queue, member)
    }

    /// A change waits for the next batch: a member goes out. It takes no memory.
    ///
    /// `NeedsReopen`, `NotMember`, `AlreadyPending` where a change of this member waits, `BatchFull` where 32 changes wait. The first of these that holds is
    /// the answer, and where none holds, the change waits. A refusal leaves all as it was.
    pub fn leave(&mut self, member: &MemberName) -> Result<(), Refusal>
        ensures step { (server : Server) → Stands R.Draws self.old server →
            (next : Server) × IsLeave server member.now result next × Stands R.Draws self.new next }
        ensures rest { self.new ≡ record self.old { queue = self.new.queue } }
        ensures err { OnErr result (self.new ≡ self.old) }
    {
        queue_leave(self.needs_reopen, &self.tree, &mut self.queue, member)
    }

    /// Makes all that the changes that wait make as a batch: the values of its keys, which are drawn now, its record, and what it puts out, with the keys for
    /// each member who comes in. Nothing but the draws moves, and these not where it is refused for another reason than being out of memory.
    ///
    /// `NeedsReopen`; `Spent` where the epoch is the limit, or else where the number of the last push would be past it, exactly there; `NoMemory`.
    pub fn prepare(&mut self, alloc: Global) -> Result<Prepared, Refusal>
        ensures step { (server : Server) → Stands R.Draws self.old server →
            (next : Server) × IsPreparation (R.block_at self.old.draws) server (values_in result) next × Stands R.Draws self.new next }
        ensures ready { (server : Server) → Stands R.Draws self.new server →
            IfOk result (IsReadyFor G.Signer self.new.signer self.new.head self.new.tree self.new.queue server.list) }
        ensures fit { IfOk result (λ prepared. ValuesFit prepared.values) }
        ensures open { OnOk result (self.new.needs_reopen ≡ false) }
        ensures blocks { (k : ℕ) → R.block_at self.new.draws k ≡ R.block_at self.old.draws k }
        ensures rest { self.new ≡ record self.old { draws = self.new.draws } }
        ensures refused { IfErr result (λ why. (why ≡ NoMemory → ⊥) → self.new ≡ self.old) }
    {
        if self.needs_reopen {
            return Err(Refusal::NeedsReopen);
        }
        prepare_batch::<D, G, R>(
            alloc,
            &self.tree,
            self.queue.batch(),
            &self.head,
            &self.signer,
            &mut self.draws,
        )
    }

    /// Stores a batch that is ready, and gives what it puts out; `DiskFault` where the disk failed. It takes no memory, and makes one append to the journal.
    ///
    /// On an honest disk the batch is there from Ok on, whatever crash comes. At `DiskFault` it is there or not, and the core has to be opened again.
    pub fn commit(&mut self, prepared: Prepared) -> Result<CoreOutput, Refusal>
        requires ready { (server : Server) → Stands R.Draws self.old server →
            IsReadyFor G.Signer self.old.signer self.old.head self.old.tree self.old.queue server.list prepared }
        requires open { self.old.needs_reopen ≡ false }
        ensures step { (server : Server) → Stands R.Draws self.old server →
            (next : Server) × IsStoring server prepared.values result next × Stands R.Draws self.new next }
        ensures output { IfOk result (λ output. output ≡ prepared.output) }
        ensures puts_out { (server : Server) → Stands R.Draws self.old server → IfOk result
            (IsCoreOutputOf G.Signer self.old.signer self.old.head.depth self.old.head.spi (server.list ++ coming_batch server prepared.values ∷ [])) }
        ensures stored { (server : Server) → Stands R.Draws self.old server → IsOnDisk D.Disk self.old.disk self.old.head server → OnOk result
            (IsOnDisk D.Disk self.new.disk self.new.head (with_batch server (coming_batch server prepared.values))) }
        ensures durable { (server : Server) → Stands R.Draws self.old server → Knows (shown D.Disk self.old.disk) (λ file. IsFileOf self.old.head server file →
            OnOk result ((c : List ℕ) → D.may_leave self.new.disk c →
            IsGroup c self.old.head (stored_list server.depth (server.list ++ coming_batch server prepared.values ∷ [])))) }
        ensures doubt { (server : Server) → Stands R.Draws self.old server → IsOnDisk D.Disk self.old.disk self.old.head server →
            OnErr result (IsOnDisk D.Disk self.new.disk self.new.head (in_doubt server (coming_batch server prepared.values))) }
        ensures any_moment { (server : Server) → Stands R.Draws self.old server → Knows (shown D.Disk self.old.disk) (λ file. IsFileOf self.old.head server file →
            LeavesOnly D.Disk self.old.disk self.new.disk (IsFileOf self.old.head (in_doubt server (coming_batch server prepared.values)))) }
        ensures rest { OnErr result (self.new ≡ record self.old { disk = self.new.disk; needs_reopen = true }) }
        ensures no_other { IfErr result (λ why. why ≡ DiskFault) }
        ensures same { (self.new.signer ≡ self.old.signer) × (self.new.draws ≡ self.old.draws) × (self.new.head ≡ self.old.head) }
        ensures disk { ReportsFaults D.Disk (result ≡ Err DiskFault) self.old.disk self.new.disk }
    {
        a_batch_that_fits_has_few_changes();
        match store_batch(&mut self.store, &mut self.tree, prepared) {
            Ok(output) => {
                self.queue.clear();
                Ok(output)
            }
            Err(why) => {
                self.needs_reopen = true;
                Err(why)
            }
        }
    }

    /// From now on it answers `NeedsReopen`, until it is opened again. Nothing else changes.
    pub fn halt(&mut self)
        ensures step { (server : Server) → Stands R.Draws self.old server → Stands R.Draws self.new (halted server) }
        ensures rest { self.new ≡ record self.old { needs_reopen = true } }
    {
        self.needs_reopen = true;
    }

    /// Opens the journal again: its batches are those that were there, or with the one that was in doubt; no change waits. The pair of its last batch is
    /// given again where that one sent a pair, with the same octets where this signer signs like the one that signed it first.
    ///
    /// `DiskFault`, `NotAJournal`, `NoMemory`: then tree and changes are as before, and it has to be opened again.
    pub fn reopen(&mut self, alloc: Global) -> Result<Option<PushPair>, Refusal>
        ensures found { (server : Server) → Stands R.Draws self.old server → Knows (shown D.Disk self.old.disk) (λ file. IsFileOf self.old.head server file →
            IfOk result (λ resent. (list : List Made) × (next : Server) × IsReopening server list result next × Stands R.Draws self.new next
            × (self.new.head ≡ self.old.head) × IsOnDisk D.Disk self.new.disk self.new.head next
            × IsPairIfStayed G.Signer self.old.signer server.depth self.old.head.spi list resent)) }
        ensures read { IfOk result (λ resent. (list : List Made)
            × Stands R.Draws self.new (opened_server self.new.head.depth self.new.head.limit list (R.place_of self.old.draws))
            × Knows (shown D.Disk self.old.disk) (λ file. IsGroup file self.new.head (stored_list self.new.head.depth list))
            × IsPairIfStayed G.Signer self.old.signer self.new.head.depth self.new.head.spi list resent) }
        ensures refused { (server : Server) → Stands R.Draws self.old server → OnErr result (Stands R.Draws self.new (halted server)) }
        ensures durable { (result ≡ Err DiskFault → ⊥) → Knows (shown D.Disk self.new.disk) (λ file. Only file (D.may_leave self.new.disk)) }
        ensures err { OnErr result (self.new ≡ record self.old { disk = self.new.disk; needs_reopen = true }) }
        ensures no_other { IfErr result (λ why. (why ≡ DiskFault) ⊎ ((why ≡ NoMemory) ⊎ ((at : ℕ) × (why ≡ NotAJournal at)))) }
        ensures broken { Knows (shown D.Disk self.old.disk) (λ file. (at : ℕ) → result ≡ Err (NotAJournal at) → IsNoGroup file at) }
        ensures rest { (self.new.signer ≡ self.old.signer) × (self.new.draws ≡ self.old.draws) }
        ensures reads { OnlyReads D.Disk (result ≡ Err DiskFault) self.old.disk self.new.disk }
    {
        a_file_has_one_group();
        match read_again(alloc, &mut self.store, &self.signer) {
            Ok(found) => {
                self.head = found.head;
                self.tree = found.tree;
                self.queue = Queue::new();
                self.needs_reopen = false;
                Ok(found.resent)
            }
            Err(why) => {
                self.needs_reopen = true;
                Err(refusal_of(why))
            }
        }
    }
}
