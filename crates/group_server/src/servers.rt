//! The server: how it is made and opened, and the calls that change it, except the one for datagrams.
ghost use Rattle.std.specs.Prelude.{◌≡◌, ◌+◌, ◌≤◌, ◌<◌, ◌^◌, ℕ, length, IfOk, IfErr, IfSome, None};
ghost use Rattle.group_terms.specs.Names.{Name};
ghost use Rattle.group_model.specs.declared.entries.Answer.TheVariants as answers;
ghost use Rattle.group_model.specs.declared.entries.Asked.TheVariants as requests;
ghost use Rattle.group_server.specs.Answers.{answer_rule};
ghost use Rattle.server_steps.specs.Joining.{JoinsHaveSessions};
ghost use Rattle.server_steps.specs.Hosts.{no_host};
ghost use Rattle.pull_sessions.specs.Fits.{AllFit};
ghost use Rattle.pull_sessions.specs.Sessions.{AreApart};
ghost use Rattle.server_steps.specs.Openings.{IsBeginning, IsCreation, IsHead};
ghost use Rattle.server_steps.specs.Opens.{FailsToOpen, Opens};
ghost use Rattle.server_steps.specs.Serves.{Serves, ServesReopening, answer_batch, answer_done};

use crate::ServerOpened;
use crate::refusals::introduced;
use gcks_core::{Core, NewGroup, Opening, Parts};
use gd_disk::Disk;
use gd_edges::{Draws, Signer};
use group_model::{MemberName, Output, Phase1, PushPair, Refusal, Rule};
use group_policy::Rules;
use pull_msgs::prove_phase_fits;
use pull_sessions::Sessions;
use server_steps::close_batch;
use std::alloc::Global;
use std::marker::Model;

/// The key server of one group in its journal.
#[derive(Drop)]
pub struct GroupServer<D: Disk, G: Signer, R: Draws> {
    pub(crate) core: Core<D, G, R>,
    pub(crate) rules: Rules,
    pub(crate) sessions: Sessions,
}

impl<D: Disk, G: Signer, R: Draws> Model for GroupServer<D, G, R> {
    ghost use Rattle.server_steps.specs.Joining.{JoinsHaveSessions};
    ghost use Rattle.server_steps.specs.Views.{View};

    ghost Value = { View D G R };

    ghost invariant = { λ server. JoinsHaveSessions server.core.queue server.sessions.sas };

    ghost view = { λ server. record { core = server.core; rules = server.rules; sessions = server.sessions } };
}

impl<D: Disk, G: Signer, R: Draws> GroupServer<D, G, R> {
    /// Makes a group (RFC 2627 section 5.4) on the disk of these parts, whatever that held, without a rule, and without an SA: at most `phases` may be
    /// introduced. Where that is refused (`DiskFault`, `NoMemory`), the parts come back.
    pub fn create(
        alloc: Global,
        parts: Parts<D, G, R>,
        group: &NewGroup,
        phases: u32,
    ) -> Result<Self, Opening<D, G, R>>
        requires shallow { 1 ≤ group.now.depth }
        requires not_deep { group.now.depth ≤ 9 }
        requires limited { 1 ≤ group.now.limit }
        requires some { 1 ≤ phases }
        requires few { phases ≤ 65536 }
        ensures ok { IfOk result (λ server. Opens D.Disk R.Draws (IsCreation D.Disk (R.block_at parts.draws) group.now.depth)
            (requests.Create group.now.depth) (no_host parts.disk group.now.name group.now.limit (R.place_of parts.draws) phases) parts server None) }
        ensures err { IfErr result (λ opening. FailsToOpen D.Disk R.Draws (IsCreation D.Disk (R.block_at parts.draws) group.now.depth)
            (requests.Create group.now.depth) (no_host parts.disk group.now.name group.now.limit (R.place_of parts.draws) phases) parts
            opening.refusal opening.parts) }
    {
        let core = server_steps::create(alloc, parts, group)?;
        Ok(GroupServer {
            core,
            rules: Rules::new(alloc),
            sessions: Sessions::new(alloc, phases),
        })
    }

    /// Opens the group on the disk of these parts, without a rule, and without an SA: at most `phases` may be introduced. Where that is refused (`DiskFault`,
    /// `NotAJournal` with its place, `NoMemory`), the parts come back.
    pub fn open(
        alloc: Global,
        parts: Parts<D, G, R>,
        phases: u32,
    ) -> Result<ServerOpened<D, G, R>, Opening<D, G, R>>
        requires some { 1 ≤ phases }
        requires few { phases ≤ 65536 }
        ensures ok { IfOk result (λ opened. (name : Name) (limit : ℕ) → Opens D.Disk R.Draws (IsBeginning D.Disk G.Signer parts.signer) requests.Begin
            (no_host parts.disk name limit (R.place_of parts.draws) phases) parts opened.server opened.resent) }
        ensures fits { IfOk result (λ opened. IfSome opened.resent (λ pair. pair.first + 1 < 2 ^ 32)) }
        ensures err { IfErr result (λ opening. (name : Name) (limit : ℕ) → FailsToOpen D.Disk R.Draws (IsBeginning D.Disk G.Signer parts.signer)
            requests.Begin (no_host parts.disk name limit (R.place_of parts.draws) phases) parts opening.refusal opening.parts) }
    {
        let opened = server_steps::open(alloc, parts)?;
        let server = GroupServer {
            core: opened.core,
            rules: Rules::new(alloc),
            sessions: Sessions::new(alloc, phases),
        };
        Ok(ServerOpened {
            server,
            resent: opened.resent,
        })
    }

    /// Adds a rule of who may join, after all others, and gives its number, from 1. `NoMemory`.
    ///
    /// There may be fewer than 2^32 - 1 rules before. It may be called while the server has to be opened again; rules stay when it is.
    pub fn add_rule(&mut self, rule: Rule) -> Result<u32, Refusal>
        requires { length self.old.rules < 4294967295 }
        ensures { Serves D.Disk G.Signer R.Draws (requests.AddRule rule) (answer_rule result) self.old self.new }
    {
        Ok(self.rules.add(rule)?)
    }

    /// Introduces a phase 1 SA (RFC 6407 section 2). `PhaseTaken`, `PhaseFull`, `NoMemory`.
    ///
    /// It may be called while the server has to be opened again; SAs stay when it is.
    pub fn introduce(&mut self, phase: Phase1) -> Result<(), Refusal>
        ensures { Serves D.Disk G.Signer R.Draws (requests.Introduce phase) (answer_done result) self.old self.new }
    {
        prove_phase_fits(&phase);
        introduced(self.sessions.introduce(phase))
    }

    /// Asks to take a member out with the next batch. It takes no memory. `NeedsReopen`, `NotMember`, `AlreadyPending`, `BatchFull`, the first of these that holds.
    pub fn leave(&mut self, member: &MemberName) -> Result<(), Refusal>
        ensures { Serves D.Disk G.Signer R.Draws (requests.Leave member.now) (answer_done result) self.old self.new }
    {
        server_steps::leave(&mut self.core, member)
    }

    /// Closes the batch (RFC 6407 section 4): the changes that wait make the next epoch, which is stored, and each session that awaited it has its fourth message.
    ///
    /// `NeedsReopen`, `Spent`, `NoMemory`, `DiskFault`. All memory is taken before the disk is called. After `DiskFault` the server has to be opened again.
    pub fn batch(&mut self, alloc: Global) -> Result<Output, Refusal>
        ensures serves { Serves D.Disk G.Signer R.Draws requests.Batch (answer_batch result) self.old self.new }
        ensures fits { IfOk result (λ output. IfSome output.pushes (λ pair. pair.first + 1 < 2 ^ 32)) }
    {
        close_batch(alloc, &mut self.core, &mut self.sessions)
    }

    /// From now on the server answers that it has to be opened again.
    pub fn halt(&mut self)
        ensures { Serves D.Disk G.Signer R.Draws requests.Halt answers.Done self.old self.new }
    {
        server_steps::halt(&mut self.core);
    }

    /// Opens the group again, from its journal, and gives the pair of its last batch, where that one sent a pair. Then no change waits, and all sessions have
    /// ended. `DiskFault`, `NotAJournal`, `NoMemory`: then it still has to be opened again.
    pub fn reopen(&mut self, alloc: Global) -> Result<Option<PushPair>, Refusal>
        ensures serves { ServesReopening D.Disk G.Signer R.Draws result self.old self.new }
        ensures fits { IfOk result (λ resent. IfSome resent (λ pair. pair.first + 1 < 2 ^ 32)) }
    {
        let resent = server_steps::reopen(alloc, &mut self.core)?;
        self.sessions.forget_sessions();
        Ok(resent)
    }

    /// What holds between two calls: a join of a name waits exactly where its session awaits the batch; no two SAs have the same cookies or the same member; their
    /// values can be written; and the head is one that a journal can have.
    pub fn prove_sound(&self)
        ensures joins { JoinsHaveSessions self.now.core.queue self.now.sessions.sas }
        ensures apart { AreApart self.now.sessions.sas }
        ensures fits { AllFit self.now.sessions.sas }
        ensures head { IsHead self.now.core.head }
    {
        self.core.prove_head_fits();
        self.sessions.prove_sound();
    }

    /// Returns disk, signer and draws.
    pub fn close(self) -> Parts<D, G, R>
        ensures { result ≡ record { disk = self.core.disk; signer = self.core.signer; draws = self.core.draws } }
    {
        let GroupServer {
            core,
            rules: _,
            sessions: _,
        } = self;
        core.into_parts()
    }
}
