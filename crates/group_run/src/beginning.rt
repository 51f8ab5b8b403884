//! What members begin before workers run the lines of a block.
ghost use Rattle.std.specs.Prelude.{◌≡◌, ◌≤◌, ◌+◌, ℕ, true, false, All, IfOk, OnErr, OnOk, List, ◌++◌, ◌∷◌, [], if◌then◌else◌};
ghost use Rattle.group_model.specs.Answers.{ran_out};
ghost use Rattle.group_model.specs.declared.entries.Entry.{Entry as OneEntry};
ghost use Rattle.group_peers.specs.Peers.{was_introduced};
ghost use Rattle.group_run.specs.Blocks.{Introduces, Marks, Prepares, PreparesAll, PullsIf, StopsInLines, StopsInOne, StopsIntroducing};
ghost use Rattle.group_run.specs.Places.{Reaches, ReachesServed, keys_of};
ghost use Rattle.group_run.specs.Private.Places.{HasSent, KeepsSent, is_mark};
ghost use Rattle.group_run.specs.Stays.{MailStays};
ghost use Rattle.group_steps.specs.Devices.{Keying};
ghost use Rattle.group_terms.specs.Names.{Name};
ghost use Rattle.register_workers.specs.declared.lines.BlockAsk.TheVariants as asked;
ghost use Rattle.server_steps.specs.Serves.{GoesOn};

use crate::GroupRun;
use gd_disk::Disk;
use gd_edges::{Draws, Signer};
use group_model::{Answer, Asked, List, Log, MemberName, NoMemory};
use group_terms::GroupName;
use register_workers::BlockAsk;
use server_steps::entry;
use std::alloc::Global;
use sym_closure::what_is_known_stays_known;

impl<D: Disk, G: Signer, R: Draws> GroupRun<D, G, R> {
    /// Marks in the history that a block of lines begins or ends.
    pub(crate) fn mark(&mut self, asked: Asked) -> Result<(), NoMemory>
        requires { is_mark asked ≡ true }
        ensures ok { OnOk result (Reaches D.Disk R.Draws (Marks D.Disk asked) self.old self.new) }
        ensures stays { OnOk result (MailStays self.old self.new) }
        ensures server { self.new.server ≡ self.old.server }
        ensures err { OnErr result (self.new ≡ self.old) }
    {
        what_is_known_stays_known();
        self.entries.reserve(1)?;
        let place = self.server.draws_at();
        self.entries.add(entry(asked, Answer::Done, place));
        Ok(())
    }

    /// Prepares the lines of a block, one after the other: members that join are introduced where they were not, and begin a pull. Answers the lines that are
    /// handed to workers.
    pub(crate) fn begin_lines<P: Draws>(
        &mut self,
        alloc: Global,
        draws: &mut P,
        group: &GroupName,
        asks: &[BlockAsk],
    ) -> Result<List<BlockAsk>, NoMemory>
        requires { P.place_of draws.old ≡ self.old.members.place }
        ensures ok { IfOk result (λ handed. Reaches D.Disk R.Draws
            (PreparesAll D.Disk G.Signer (keys_of R.Draws self.old (P.block_at draws.old) group.now) asks.now handed) self.old self.new) }
        ensures sent { IfOk result (λ handed. All (HasSent self.new.members.all) handed) }
        ensures goes_on { GoesOn R.Draws self.old.server self.new.server }
        ensures place { OnOk result (P.place_of draws.new ≡ self.new.members.place) }
        ensures blocks { (k : ℕ) → P.block_at draws.new k ≡ P.block_at draws.old k }
        ensures rules { OnOk result (self.new.server.rules ≡ self.old.server.rules) }
        ensures mail { OnOk result (self.new.members.mail ≡ self.old.members.mail) }
        ensures err { OnErr result (ReachesServed D.Disk R.Draws
            (StopsInLines D.Disk G.Signer (keys_of R.Draws self.old (P.block_at draws.old) group.now) asks.now) self.old self.new) }
    {
        let mut handed = Log::of(List::new(alloc));
        handed.reserve(asks.len() as u64)?;
        for ask in asks {
            let is_handed = self.begin_line(alloc, draws, group, ask)?;
            add_if(&mut handed, ask, is_handed);
        }
        Ok(handed.into_list())
    }

    /// Prepares a line. Answers whether it is handed to a worker.
    fn begin_line<P: Draws>(
        &mut self,
        alloc: Global,
        draws: &mut P,
        group: &GroupName,
        ask: &BlockAsk,
    ) -> Result<bool, NoMemory>
        requires { P.place_of draws.old ≡ self.old.members.place }
        ensures ok { IfOk result (λ handed. Reaches D.Disk R.Draws
            (λ old new. Prepares D.Disk G.Signer (keys_of R.Draws self.old (P.block_at draws.old) group.now) ask.now old new handed) self.old self.new) }
        ensures sent { IfOk result (λ handed. handed ≡ true → HasSent self.new.members.all ask.now) }
        ensures keeps { OnOk result (KeepsSent self.old.members.all self.new.members.all) }
        ensures goes_on { GoesOn R.Draws self.old.server self.new.server }
        ensures place { OnOk result (P.place_of draws.new ≡ self.new.members.place) }
        ensures blocks { (k : ℕ) → P.block_at draws.new k ≡ P.block_at draws.old k }
        ensures rules { OnOk result (self.new.server.rules ≡ self.old.server.rules) }
        ensures mail { OnOk result (self.new.members.mail ≡ self.old.members.mail) }
        ensures err { OnErr result (ReachesServed D.Disk R.Draws
            (StopsInOne D.Disk G.Signer (keys_of R.Draws self.old (P.block_at draws.old) group.now) ask.now) self.old self.new) }
    {
        match ask {
            BlockAsk::Join { member } => self.begin_join(alloc, draws, group, member),
            BlockAsk::Again { member } => self.begin_again(member),
            _ => Ok(true),
        }
    }

    /// A member is introduced where it was not, and begins a pull. Answers whether it did.
    fn begin_join<P: Draws>(
        &mut self,
        alloc: Global,
        draws: &mut P,
        group: &GroupName,
        member: &MemberName,
    ) -> Result<bool, NoMemory>
        requires { P.place_of draws.old ≡ self.old.members.place }
        ensures ok { IfOk result (λ handed. Reaches D.Disk R.Draws
            (λ old new. Prepares D.Disk G.Signer (keys_of R.Draws self.old (P.block_at draws.old) group.now) (asked.Join member.now) old new handed)
            self.old self.new) }
        ensures sent { IfOk result (λ handed. handed ≡ true → HasSent self.new.members.all (asked.Join member.now)) }
        ensures keeps { OnOk result (KeepsSent self.old.members.all self.new.members.all) }
        ensures goes_on { GoesOn R.Draws self.old.server self.new.server }
        ensures place { OnOk result (P.place_of draws.new ≡ self.new.members.place) }
        ensures blocks { (k : ℕ) → P.block_at draws.new k ≡ P.block_at draws.old k }
        ensures rules { OnOk result (self.new.server.rules ≡ self.old.server.rules) }
        ensures mail { OnOk result (self.new.members.mail ≡ self.old.members.mail) }
        ensures err { OnErr result (ReachesServed D.Disk R.Draws
            (StopsInOne D.Disk G.Signer (keys_of R.Draws self.old (P.block_at draws.old) group.now) (asked.Join member.now)) self.old self.new) }
    {
        if self.was_introduced(member) {
            return self.begin_pull(alloc, draws, group, member);
        }
        self.begin_introduction(draws, member)?;
        self.begin_pull(alloc, draws, group, member)
    }

    /// The phase 1 SA of a member is introduced, which is drawn at its first use.
    fn begin_introduction<P: Draws>(
        &mut self,
        draws: &mut P,
        member: &MemberName,
    ) -> Result<(), NoMemory>
        requires { P.place_of draws.old ≡ self.old.members.place }
        ensures ok { OnOk result ((group : Name) → Reaches D.Disk R.Draws
            (Introduces D.Disk G.Signer (keys_of R.Draws self.old (P.block_at draws.old) group) false member.now) self.old self.new) }
        ensures keeps { OnOk result (KeepsSent self.old.members.all self.new.members.all) }
        ensures goes_on { GoesOn R.Draws self.old.server self.new.server }
        ensures place { P.place_of draws.new ≡ self.new.members.place }
        ensures blocks { (k : ℕ) → P.block_at draws.new k ≡ P.block_at draws.old k }
        ensures rules { OnOk result (self.new.server.rules ≡ self.old.server.rules) }
        ensures mail { OnOk result (self.new.members.mail ≡ self.old.members.mail) }
        ensures err { OnErr result ((group : Name) → ReachesServed D.Disk R.Draws
            (StopsIntroducing D.Disk G.Signer (keys_of R.Draws self.old (P.block_at draws.old) group) member.now) self.old self.new) }
    {
        let _ = &self.server;
        self.introduce(draws, member)?;
        self.had_memory()
    }

    /// A member that was introduced begins a pull. Answers whether it did.
    fn begin_pull<P: Draws>(
        &mut self,
        alloc: Global,
        draws: &mut P,
        group: &GroupName,
        member: &MemberName,
    ) -> Result<bool, NoMemory>
        requires { P.place_of draws.old ≡ self.old.members.place }
        ensures ok { IfOk result (λ handed. (keys : Keying G) → keys.members_block ≡ P.block_at draws.old → keys.group ≡ group.now → Reaches D.Disk R.Draws
            (λ old new. PullsIf D.Disk G.Signer keys (was_introduced old.present.all member.now) member.now old new handed) self.old self.new) }
        ensures sent { IfOk result (λ handed. handed ≡ true → HasSent self.new.members.all (asked.Join member.now)) }
        ensures keeps { OnOk result (KeepsSent self.old.members.all self.new.members.all) }
        ensures server { self.new.server ≡ self.old.server }
        ensures place { OnOk result (P.place_of draws.new ≡ self.new.members.place) }
        ensures blocks { (k : ℕ) → P.block_at draws.new k ≡ P.block_at draws.old k }
        ensures mail { OnOk result (self.new.members.mail ≡ self.old.members.mail) }
        ensures err { OnErr result (self.new ≡ self.old) }
    {
        if !self.was_introduced(member) {
            return Ok(false);
        }
        self.members.begin_pull(alloc, draws, member, group)?;
        Ok(true)
    }

    /// Answers whether a member has sent something that it can send again. Where it has not, the entry says so.
    fn begin_again(&mut self, member: &MemberName) -> Result<bool, NoMemory>
        ensures ok { IfOk result (λ handed. (keys : Keying G) → Reaches D.Disk R.Draws
            (λ old new. Prepares D.Disk G.Signer keys (asked.Again member.now) old new handed) self.old self.new) }
        ensures sent { IfOk result (λ handed. handed ≡ true → HasSent self.new.members.all (asked.Again member.now)) }
        ensures server { self.new.server ≡ self.old.server }
        ensures members { self.new.members ≡ self.old.members }
        ensures err { OnErr result (self.new ≡ self.old) }
    {
        if self.members.sent(member).is_some() {
            return Ok(true);
        }
        self.note_nothing(member)?;
        Ok(false)
    }

    /// `NoMemory` exactly where the last entry ran out of memory.
    pub(crate) fn had_memory(&self) -> Result<(), NoMemory>
        ensures ok { OnOk result ((front : List OneEntry) (entry : OneEntry) → self.now.entries ≡ front ++ entry ∷ [] → ran_out entry.answer ≡ false) }
        ensures err { OnErr result ((front : List OneEntry) (entry : OneEntry) → self.now.entries ≡ front ++ entry ∷ [] → ran_out entry.answer ≡ true) }
    {
        let Some(entry) = self.last() else {
            return Ok(());
        };
        if entry.answer.ran_out() {
            return Err(NoMemory);
        }
        Ok(())
    }
}

/// Adds a line to those that are handed on, if it is. There is room for one more.
fn add_if(handed: &mut Log<BlockAsk>, ask: &BlockAsk, is_handed: bool)
    requires { 1 ≤ handed.old.spare }
    ensures items { handed.new.items ≡ handed.old.items ++ (if is_handed then ask.now ∷ [] else []) }
    ensures spare { handed.old.spare ≤ handed.new.spare + 1 }
{
    if is_handed {
        handed.add(*ask);
    }
}
