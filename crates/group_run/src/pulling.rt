//! Pulls of members (RFC 6407 section 3), and what is on its way to them.
ghost use Rattle.std.specs.Prelude.{◌≡◌, ◌<◌, ◌⊎◌, ◌≤◌, ℕ, true, List, IfOk, IsSome, MatchBool, None, OnErr, OnOk, Some};
ghost use Rattle.group_values.specs.Drawing.{place_after};
ghost use Rattle.group_model.specs.declared.entries.Asked.TheVariants as requests;
ghost use Rattle.group_peers.specs.Peers.{phase_of, sent_by, was_introduced};
ghost use Rattle.group_run.specs.Stays.{MailStays, RulesStay};
ghost use Rattle.group_run.specs.Moves.{Acts, Serves};
ghost use Rattle.group_run.specs.Pulls.{HasBegunAtMost, Introduces, Pulls, SendsAgain};
ghost use Rattle.group_run.specs.Reads.{left_to_read};
ghost use Rattle.group_run.specs.Tells.{AllIsRead, HasReadSome, KeepsNext, SendsNext};
ghost use Rattle.member_steps.specs.Acts.{BeginsPull, IsUse};
ghost use Rattle.member_steps.specs.Members.{Mail};
ghost use Rattle.member_steps.specs.Steps.{HasSentNothing, IsLosing};
ghost use Rattle.member_steps.specs.Views.{members_with};
ghost use Rattle.group_steps.specs.Gets.{introduced_by};
ghost use Rattle.group_run.specs.Private.Sends.{IsSent};

use crate::GroupRun;
use crate::reading::{Read, read_mail};
use gd_disk::Disk;
use gd_edges::{Draws, Signer};
use group_model::{Answer, Asked, Entry, Log, MemberName, NoMemory, Octets, Phase1};
use group_peers::who_is_noted_is_a_peer;
use group_server::{GroupServer, answer_served};
use group_terms::GroupName;
use member_steps::Members;
use server_steps::{answer_done, entry};
use std::alloc::Global;
use sym_closure::what_is_known_stays_known;

impl<D: Disk, G: Signer, R: Draws> GroupRun<D, G, R> {
    /// Whether the phase 1 SA of a member was introduced.
    pub fn was_introduced(&self, member: &MemberName) -> bool
        ensures { result ≡ was_introduced self.now.members.all member.now }
    {
        self.members.was_introduced(member)
    }

    /// Introduces the phase 1 SA of a member (RFC 6407 section 2), which is drawn at its first use.
    pub fn introduce<P: Draws>(
        &mut self,
        draws: &mut P,
        member: &MemberName,
    ) -> Result<(), NoMemory>
        requires place { P.place_of draws.old ≡ self.old.members.place }
        ensures ok { OnOk result (Introduces D.Disk G.Signer R.Draws (P.block_at draws.old) member.now self.old self.new) }
        ensures place { P.place_of draws.new ≡ self.new.members.place }
        ensures blocks { (k : ℕ) → P.block_at draws.new k ≡ P.block_at draws.old k }
        ensures rules { OnOk result (self.new.server.rules ≡ self.old.server.rules) }
        ensures mail { OnOk result (self.new.members.mail ≡ self.old.members.mail) }
        ensures err { OnErr result (self.new ≡ self.old) }
    {
        what_is_known_stays_known();
        self.entries.reserve(1)?;
        self.members.reserve(1)?;
        let drawn = used(&mut self.members, draws, member);
        let phase = &drawn;
        let place = self.server.draws_at();
        let answer = answer_done(self.server.introduce(*phase));
        note_introduced(&mut self.members, &answer, &phase.member);
        let asked = Asked::Introduce { phase: *phase };
        self.entries.add(entry(asked, answer, place));
        Ok(())
    }

    /// Who was introduced begins a pull for a group, and its first message is served. Where memory is short, nothing was drawn, or the two blocks of the
    /// pull.
    pub fn pull<P: Draws>(
        &mut self,
        alloc: Global,
        draws: &mut P,
        member: &MemberName,
        group: &GroupName,
    ) -> Result<(), NoMemory>
        requires introduced { was_introduced self.old.members.all member.now ≡ true }
        requires place { P.place_of draws.old ≡ self.old.members.place }
        ensures ok { OnOk result (Pulls D.Disk G.Signer R.Draws (P.block_at draws.old) group.now member.now self.old self.new) }
        ensures place { OnOk result (P.place_of draws.new ≡ self.new.members.place) }
        ensures blocks { (k : ℕ) → P.block_at draws.new k ≡ P.block_at draws.old k }
        ensures rules { OnOk result (self.new.server.rules ≡ self.old.server.rules) }
        ensures err { OnErr result (HasBegunAtMost (P.block_at draws.old) group.now member.now self.old self.new) }
        ensures drawn { OnErr result ((P.place_of draws.new ≡ P.place_of draws.old) ⊎ (P.place_of draws.new ≡ place_after 2 (P.place_of draws.old))) }
    {
        what_is_known_stays_known();
        self.entries.reserve(1)?;
        self.members.begin_pull(alloc, draws, member, group)?;
        send(
            alloc,
            &mut self.server,
            &self.members,
            &mut self.entries,
            member,
        )?;
        Ok(())
    }

    /// A member sends once more what it sent last. Where it sent nothing, the entry says so.
    pub fn again(&mut self, alloc: Global, member: &MemberName) -> Result<(), NoMemory>
        ensures ok { OnOk result (SendsAgain D.Disk G.Signer R.Draws (sent_by self.old.members.all member.now) member.now self.old self.new) }
        ensures stays { OnOk result (RulesStay self.old self.new) }
        ensures err { OnErr result (self.new ≡ self.old) }
    {
        what_is_known_stays_known();
        if self.members.sent(member).is_some() {
            self.entries.reserve(1)?;
            send(
                alloc,
                &mut self.server,
                &self.members,
                &mut self.entries,
                member,
            )?;
            return Ok(());
        }
        self.note_nothing(member)
    }

    /// Notes in the history that a member has nothing to send again.
    pub(crate) fn note_nothing(&mut self, member: &MemberName) -> Result<(), NoMemory>
        requires { sent_by self.old.members.all member.now ≡ None }
        ensures ok { OnOk result (Acts D.Disk R.Draws (HasSentNothing member.now) self.old.members (requests.Again member.now) self.old self.new) }
        ensures server { self.new.server ≡ self.old.server }
        ensures members { self.new.members ≡ self.old.members }
        ensures err { OnErr result (self.new ≡ self.old) }
    {
        what_is_known_stays_known();
        self.entries.reserve(1)?;
        let place = self.server.draws_at();
        let asked = Asked::Again { member: *member };
        self.entries.add(entry(asked, Answer::Nothing, place));
        Ok(())
    }

    /// The next datagram to a member goes missing. Where it was not introduced, the entry says so.
    pub fn lose(&mut self, member: &MemberName) -> Result<(), NoMemory>
        ensures ok { OnOk result (Acts D.Disk R.Draws (IsLosing member.now) self.old.members (requests.Lose member.now) self.old self.new) }
        ensures stays { OnOk result (MailStays self.old self.new) }
        ensures err { OnErr result (self.new ≡ self.old) }
    {
        what_is_known_stays_known();
        self.entries.reserve(1)?;
        let place = self.server.draws_at();
        let answer = self.members.lose(member);
        let asked = Asked::Lose { member: *member };
        self.entries.add(entry(asked, answer, place));
        Ok(())
    }

    /// What is on its way to members is read up to the first datagram that is not ignored, and that one goes missing, or is taken: a second message is answered by
    /// the third one, which is served; of a fourth one the member takes the keys. `false` where nothing is left.
    pub fn read_next(&mut self, alloc: Global) -> Result<bool, NoMemory>
        ensures ok { IfOk result (λ read. MatchBool read (SendsNext D.Disk G.Signer R.Draws self.old self.new ⊎ KeepsNext D.Disk G.Signer R.Draws self.old self.new)
            (AllIsRead D.Disk G.Signer R.Draws self.old self.new)) }
        ensures nearer { IfOk result (λ read. read ≡ true → left_to_read self.new.members < left_to_read self.old.members) }
        ensures stays { OnOk result (RulesStay self.old self.new) }
        ensures err { OnErr result (HasReadSome self.old self.new) }
    {
        what_is_known_stays_known();
        self.entries.reserve(1)?;
        let read = read_mail(
            alloc,
            &mut self.members,
            &mut self.unread,
            self.entries.items(),
        )?;
        match read {
            Read::Nothing => Ok(false),
            Read::Sends { member } => {
                send(
                    alloc,
                    &mut self.server,
                    &self.members,
                    &mut self.entries,
                    &member,
                )?;
                Ok(true)
            }
            Read::Ended { member, answer } => {
                let place = self.server.draws_at();
                self.entries
                    .add(entry(Asked::Keep { member }, answer, place));
                Ok(true)
            }
        }
    }
}

/// The phase 1 SA of a member, which is drawn at its first use. There is room for one member more.
fn used<P: Draws>(members: &mut Members, draws: &mut P, member: &MemberName) -> Phase1
    requires room { 1 ≤ members.old.spare }
    requires place { P.place_of draws.old ≡ members.old.place }
    ensures used { (mail : List Mail) → IsUse (P.block_at draws.old) member.now (members_with members.old mail) (members_with members.new mail) }
    ensures phase { phase_of members.new.all member.now ≡ Some result }
    ensures place { P.place_of draws.new ≡ members.new.place }
    ensures blocks { (k : ℕ) → P.block_at draws.new k ≡ P.block_at draws.old k }
{
    who_is_noted_is_a_peer();
    match members.phase(member) {
        Some(phase) => phase,
        None => members.use_first(draws, member),
    }
}

/// The SA of a member is introduced from now on, if that was done.
fn note_introduced(members: &mut Members, answer: &Answer, member: &MemberName)
    ensures { (mail : List Mail) → members_with members.new mail ≡ introduced_by answer.now member.now (members_with members.old mail) }
{
    match answer {
        Answer::Done => members.introduce(member),
        _ => {}
    }
}

/// What a member sent last is served. There is room for the entry.
pub(crate) fn send<D: Disk, G: Signer, R: Draws>(
    alloc: Global,
    server: &mut GroupServer<D, G, R>,
    members: &Members,
    entries: &mut Log<Entry>,
    member: &MemberName,
) -> Result<(), NoMemory>
    requires sent { IsSome (sent_by members.now.all member.now) }
    requires room { 1 ≤ entries.old.spare }
    ensures ok { OnOk result (IsSent D.Disk G.Signer R.Draws members.now.all member.now server.old server.new entries.old.items entries.new.items) }
    ensures server { OnErr result (server.new ≡ server.old) }
    ensures entries { OnErr result (entries.new.items ≡ entries.old.items) }
{
    let sent = members.sent(member).unwrap();
    let datagram = Octets::copy_of(alloc, sent.as_slice())?;
    let place = server.draws_at();
    let answer = answer_served(server.serve(alloc, datagram.as_slice()));
    let asked = Asked::Serve {
        member: *member,
        datagram,
    };
    entries.add(entry(asked, answer, place));
    Ok(())
}
