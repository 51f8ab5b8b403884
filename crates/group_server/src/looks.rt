//! What a server shows of its group.
ghost use Rattle.std.specs.Prelude.{◌≡◌, ◌≤◌, length, true, IfOk};
ghost use Rattle.gcks_core.specs.Stands.{Stands};
ghost use Rattle.group_model.specs.Places.{is_member, member_at, member_count, place_in};
ghost use Rattle.group_model.specs.Servers.{Server};
ghost use Rattle.group_model.specs.declared.entries.Asked.TheVariants as requests;
ghost use Rattle.server_steps.specs.Serves.{Serves, answer_opened};

use crate::GroupServer;
use gd_disk::Disk;
use gd_edges::{Draws, Signer};
use group_model::{Answer, LkhId, MemberName, NoMemory, PushPair};
use group_terms::TrafficValue;
use server_steps::ShowRoom;
use std::alloc::Global;

impl<D: Disk, G: Signer, R: Draws> GroupServer<D, G, R> {
    /// How deep its tree is.
    pub fn depth(&self) -> u8
        ensures depth { result ≡ self.now.core.head.depth }
        ensures shallow { 1 ≤ result }
        ensures not_deep { result ≤ 9 }
    {
        self.core.depth()
    }

    /// The present epoch.
    pub fn epoch(&self) -> u32
        ensures { result ≡ self.now.core.tree.epoch }
    {
        self.core.epoch()
    }

    /// The number of the last push, 0 before the first.
    pub fn sequence(&self) -> u32
        ensures { result ≡ self.now.core.tree.sequence }
    {
        self.core.sequence()
    }

    /// How many members there are.
    pub fn members(&self) -> u32
        ensures { result ≡ member_count self.now.core.tree.holders }
    {
        self.core.members()
    }

    /// How many rules there are.
    pub fn rule_count(&self) -> u32
        ensures { result ≡ length self.now.rules }
    {
        self.rules.len()
    }

    /// The leaf of a member; `None` iff not a member.
    pub fn place(&self, member: &MemberName) -> Option<LkhId>
        ensures { result ≡ place_in self.now.core.tree.depth self.now.core.tree.holders member.now }
    {
        self.core.place(member)
    }

    /// Who has a leaf; `None` where nobody has it, and at a position that is no leaf.
    pub fn member_at(&self, leaf: LkhId) -> Option<MemberName>
        ensures { result ≡ member_at self.now.core.tree.depth self.now.core.tree.holders leaf }
    {
        self.core.member_at(leaf)
    }

    /// The value of the present traffic key; `None` iff the epoch is 0.
    pub fn traffic(&self) -> Option<TrafficValue>
        ensures { result ≡ self.now.core.tree.kept.traffic }
    {
        self.core.traffic()
    }

    /// The place of its draws.
    pub fn draws_at(&self) -> u64
        ensures { result ≡ R.place_of self.now.core.draws }
    {
        self.core.draws_at()
    }

    /// Whether it has to be opened again.
    pub fn needs_reopen(&self) -> bool
        ensures { result ≡ self.now.core.needs_reopen }
    {
        self.core.needs_reopen()
    }

    /// Who has which leaf; `NeedsReopen` where that is so. Without memory nothing is answered.
    pub fn show(&self, alloc: Global) -> Result<Answer, NoMemory>
        ensures { IfOk result (λ answer. Serves D.Disk G.Signer R.Draws requests.Show answer self.now self.now) }
    {
        server_steps::show(alloc, &self.core)
    }

    /// The group of a server that was just opened, with the pair that was sent again. It takes no memory.
    pub fn show_opened(&self, resent: Option<PushPair>, room: ShowRoom) -> Answer
        ensures { (server : Server) → Stands R.Draws self.now.core server → result ≡ answer_opened server resent }
    {
        server_steps::show_opened(&self.core, resent, room)
    }

    /// That no push is given to any member, since the server has to be opened again.
    pub fn refuse_deliveries(&self) -> Answer
        requires { self.now.core.needs_reopen ≡ true }
        ensures { Serves D.Disk G.Signer R.Draws requests.DeliverAll result self.now self.now }
    {
        server_steps::refuse_deliveries(&self.core)
    }

    /// Whether somebody of this name is a member.
    pub fn is_member(&self, member: &MemberName) -> bool
        ensures { result ≡ is_member self.now.core.tree.holders member.now }
    {
        self.core.is_member(member)
    }
}
