//! What a core shows of its group.
ghost use Rattle.std.specs.Prelude.{◌≡◌, ◌≤◌, ℕ, true, false, Err, IfOk, OnErr};
ghost use Rattle.gd_disk.specs.Disks.{Knows, Only};
ghost use Rattle.gd_disk.specs.Moments.{shown, LeavesOnly};
ghost use Rattle.group_terms.specs.Changes.{is_pending};
ghost use Rattle.group_terms.specs.Octets.{AreOctets};
ghost use Rattle.group_values.specs.Drawing.{next_place};
ghost use Rattle.group_model.specs.Places.{is_member, member_at, member_count, place_in};
ghost use Rattle.group_model.specs.Refusals.{why_no_join};
ghost use Rattle.group_model.specs.Servers.{Server};
ghost use Rattle.group_model.specs.declared.entries.Refusal.TheVariants.{NeedsReopen};
ghost use Rattle.group_records.specs.Fits.{HeadFits};
ghost use Rattle.group_keys.specs.Replies.{IsKeyedOf};
ghost use Rattle.gcks_core.specs.Stands.{Stands};
ghost use Rattle.gcks_core.specs.Stored.{IsOnDisk};

use crate::waiting::why_no_join;
use crate::{Core, GroupName, Keyed, LkhId, MemberName, Parts, Refusal, SignKind, TrafficValue};
use gd_disk::Disk;
use gd_edges::{Draws, Signer};
use group_keys::keyed;
use group_records::prove_head_fits;
use group_terms::Batch;
use kd_wire::prove_spi_fits;

impl<D: Disk, G: Signer, R: Draws> Core<D, G, R> {
    /// Says what is so between two calls: some server is this core, and where it does not have to be opened again, its journal has the batches of that server, and
    /// a crash leaves them.
    pub fn prove_at_rest(&self)
        ensures some { (server : Server) × Stands R.Draws self.now server
            × (self.now.needs_reopen ≡ false → IsOnDisk D.Disk self.now.disk self.now.head server) }
        ensures durable { self.now.needs_reopen ≡ false → Knows (shown D.Disk self.now.disk) (λ file. Only file (D.may_leave self.now.disk)) }
        ensures still { self.now.needs_reopen ≡ false →
            Knows (shown D.Disk self.now.disk) (λ file. LeavesOnly D.Disk self.now.disk self.now.disk (λ c. c ≡ file)) }
    {
        self.store.prove_at_rest();
    }

    /// Its head is one that a journal can have, as its type says.
    pub fn prove_head_fits(&self)
        ensures fits { HeadFits self.now.head }
        ensures octets { AreOctets self.now.head.spi }
    {
        self.tree.depth();
        prove_head_fits(&self.head);
        prove_spi_fits(&self.head.spi);
    }

    /// The name of the group.
    pub fn name(&self) -> GroupName
        ensures { result ≡ self.now.head.name }
    {
        self.head.name
    }

    /// The depth of its tree.
    pub fn depth(&self) -> u8
        ensures depth { result ≡ self.now.head.depth }
        ensures shallow { 1 ≤ result }
        ensures not_deep { result ≤ 9 }
    {
        self.tree.depth()
    }

    /// The SPI of its pushes.
    pub fn spi(&self) -> [u8; 16]
        ensures { result ≡ self.now.head.spi }
    {
        self.head.spi
    }

    /// How its pushes are signed.
    pub fn sign_kind(&self) -> SignKind
        ensures { result ≡ G.kind_of self.now.signer }
    {
        self.signer.kind()
    }

    /// The present epoch.
    pub fn epoch(&self) -> u32
        ensures { result ≡ self.now.tree.epoch }
    {
        self.tree.epoch()
    }

    /// The number of the last push, 0 before the first.
    pub fn sequence(&self) -> u32
        ensures { result ≡ self.now.tree.sequence }
    {
        self.tree.sequence()
    }

    /// How many members there are.
    pub fn members(&self) -> u32
        ensures { result ≡ member_count self.now.tree.holders }
    {
        self.tree.members()
    }

    /// The leaf of a member; `None` iff not a member.
    pub fn place(&self, member: &MemberName) -> Option<LkhId>
        ensures { result ≡ place_in self.now.tree.depth self.now.tree.holders member.now }
    {
        self.tree.leaf_of(member)
    }

    /// Whether somebody of this name is a member.
    pub fn is_member(&self, member: &MemberName) -> bool
        ensures { result ≡ is_member self.now.tree.holders member.now }
    {
        self.tree.is_member(member)
    }

    /// Who has a leaf; `None` where nobody has it, and at a position that is no leaf.
    pub fn member_at(&self, leaf: LkhId) -> Option<MemberName>
        ensures { result ≡ member_at self.now.tree.depth self.now.tree.holders leaf }
    {
        self.tree.member_at(leaf)
    }

    /// The keys for a present member. It takes no memory. `NeedsReopen` iff it has to be opened again.
    pub fn reply(&self, member: &MemberName) -> Result<Keyed, Refusal>
        requires { is_member self.now.tree.holders member.now ≡ true }
        ensures ok { (server : Server) → Stands R.Draws self.now server →
            IfOk result (IsKeyedOf server.depth self.now.head.spi server.list member.now) }
        ensures open { self.now.needs_reopen ≡ false → OnErr result ⊥ }
        ensures needs_reopen { self.now.needs_reopen ≡ true → result ≡ Err NeedsReopen }
    {
        if self.needs_reopen {
            return Err(Refusal::NeedsReopen);
        }
        Ok(keyed(&self.tree, &self.head.spi, member).unwrap())
    }

    /// Why the join of somebody may not wait for the next batch, if there is a reason: `NeedsReopen`, `AlreadyPending`, `TreeFull`, `BatchFull`, the first of
    /// these that holds.
    pub fn refusal_to_join(&self, member: &MemberName) -> Option<Refusal>
        ensures { result ≡ why_no_join self.now.needs_reopen self.now.tree.depth self.now.tree.holders self.now.queue member.now }
    {
        why_no_join(self.needs_reopen, &self.tree, &self.queue, member)
    }

    /// Whether a change of this member waits.
    pub fn pending(&self, member: &MemberName) -> bool
        ensures { result ≡ is_pending self.now.queue member.now }
    {
        self.queue.has(member)
    }

    /// The changes that wait, in their order.
    pub fn queued(&self) -> &Batch
        ensures { result.now ≡ self.now.queue }
    {
        self.queue.batch()
    }

    /// The value of the present traffic key; `None` iff the epoch is 0.
    pub fn traffic(&self) -> Option<TrafficValue>
        ensures { result ≡ self.now.tree.kept.traffic }
    {
        self.tree.traffic()
    }

    /// The next block of its draws, for somebody else.
    pub fn draw(&mut self) -> [u8; 16]
        ensures block { result ≡ R.block_at self.old.draws (R.place_of self.old.draws) }
        ensures place { R.place_of self.new.draws ≡ next_place (R.place_of self.old.draws) }
        ensures blocks { (k : ℕ) → R.block_at self.new.draws k ≡ R.block_at self.old.draws k }
        ensures rest { self.new ≡ record self.old { draws = self.new.draws } }
    {
        self.draws.draw()
    }

    /// The place of its draws.
    pub fn draws_at(&self) -> u64
        ensures { result ≡ R.place_of self.now.draws }
    {
        self.draws.place()
    }

    /// Whether it has to be opened again.
    pub fn needs_reopen(&self) -> bool
        ensures { result ≡ self.now.needs_reopen }
    {
        self.needs_reopen
    }

    /// Returns disk, signer and draws.
    pub fn into_parts(self) -> Parts<D, G, R>
        ensures { result ≡ record { disk = self.disk; signer = self.signer; draws = self.draws } }
    {
        Parts {
            disk: self.store.into_disk(),
            signer: self.signer,
            draws: self.draws,
        }
    }
}
