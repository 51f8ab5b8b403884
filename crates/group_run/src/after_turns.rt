//! What comes after the turns of a block: members read what is on its way to them, and what looks showed is noted.
ghost use Rattle.std.specs.Prelude.{◌≡◌, ◌∷◌, ◌++◌, [], ℕ, true, All, IfOk, List, OnErr, OnOk, Some};
ghost use Rattle.group_terms.specs.Names.{Name};
ghost use Rattle.group_model.specs.declared.entries.Entry.{Entry as Turn};
ghost use Rattle.group_peers.specs.Peers.{is_peer};
ghost use Rattle.group_run.specs.Blocks.{Left, Looks, LooksAll, marked, seen_in};
ghost use Rattle.group_run.specs.Private.Afters.{AreLeftAt, AreTaking, HasReadLeft, HasStoppedLeft, HaveReadLefts, HaveStoppedLefts, IsLeftAt, ReadsAll, StopsInReads, StopsInLooks};
ghost use Rattle.register_workers.specs.LooksShown.{WasShown};
ghost use Rattle.group_run.specs.Private.Lefts.{left_at};
ghost use Rattle.group_run.specs.Places.{Reaches, ReachesServed, keys_of};
ghost use Rattle.group_run.specs.Stays.{MailStays, RulesStay};
ghost use Rattle.member_steps.specs.Members.{Mail};
ghost use Rattle.member_steps.specs.Views.{members_with};
ghost use Rattle.server_steps.specs.Serves.{GoesOn};

use crate::GroupRun;
use crate::lefts::{LeftAt, mail_left};
use crate::pulling::send;
use crate::reading::Read;
use epoch_board::Seen;
use gd_disk::Disk;
use gd_edges::{Draws, Signer};
use group_model::{Answer, Asked, Entry, List, MemberName, NoMemory};
use member_steps::{Came, Members};
use register_workers::BlockLine;
use server_steps::entry;
use std::alloc::Global;
use sym_closure::what_is_known_stays_known;

impl<D: Disk, G: Signer, R: Draws> GroupRun<D, G, R> {
    /// Members read what turns left at these places, the last one first, and what they send is served.
    pub(crate) fn read_all_left(
        &mut self,
        alloc: Global,
        lefts: List<LeftAt>,
    ) -> Result<(), NoMemory>
        requires { (are : List Left) × AreLeftAt self.old.members.all self.old.entries lefts are }
        ensures ok { OnOk result (HaveReadLefts D.Disk G.Signer R.Draws lefts self.old self.new) }
        ensures goes_on { GoesOn R.Draws self.old.server self.new.server }
        ensures err { OnErr result (HaveStoppedLefts D.Disk G.Signer R.Draws lefts self.old self.new) }
    {
        let mut lefts = lefts;
        'lefts: while let Some(left) = lefts.pop() {
            self.read_one(alloc, &left)?;
        }
        Ok(())
    }

    /// What a turn left at a place comes to its member, or goes missing, where it is marked so; what the member sends is served.
    fn read_one(&mut self, alloc: Global, left: &LeftAt) -> Result<(), NoMemory>
        requires { (is : Left) × IsLeftAt self.old.members.all self.old.entries left.now is }
        ensures ok { OnOk result (HasReadLeft D.Disk G.Signer R.Draws left.now self.old self.new) }
        ensures goes_on { GoesOn R.Draws self.old.server self.new.server }
        ensures err { OnErr result (HasStoppedLeft D.Disk G.Signer R.Draws left.now self.old self.new) }
    {
        what_is_known_stays_known();
        self.entries.reserve(1)?;
        let read = take_left(alloc, &mut self.members, self.entries.items(), left)?;
        match read {
            Read::Nothing => Ok(()),
            Read::Sends { member } => {
                send(
                    alloc,
                    &mut self.server,
                    &self.members,
                    &mut self.entries,
                    &member,
                )?;
                self.had_memory()
            }
            Read::Ended { member, answer } => {
                let place = self.server.draws_at();
                self.entries
                    .add(entry(Asked::Keep { member }, answer, place));
                Ok(())
            }
        }
    }

    /// Members read what came meanwhile, and what they send is served, until nothing is on its way.
    pub(crate) fn read_the_rest(&mut self, alloc: Global) -> Result<(), NoMemory>
        ensures ok { OnOk result ((block : ℕ → List ℕ) (group : Name) →
            Reaches D.Disk R.Draws (ReadsAll D.Disk G.Signer (keys_of R.Draws self.old block group)) self.old self.new) }
        ensures rest { OnOk result (self.new.members.mail ≡ []) }
        ensures stays { OnOk result (RulesStay self.old self.new) }
        ensures goes_on { GoesOn R.Draws self.old.server self.new.server }
        ensures err { OnErr result ((block : ℕ → List ℕ) (group : Name) →
            ReachesServed D.Disk R.Draws (StopsInReads D.Disk G.Signer (keys_of R.Draws self.old block group) []) self.old self.new) }
    {
        'mail: while self.read_next(alloc)? {
            self.had_memory()?;
        }
        Ok(())
    }

    /// Notes what the looks of a block showed, line by line.
    pub(crate) fn note_looks(&mut self, lines: &[BlockLine]) -> Result<(), NoMemory>
        requires { All (WasShown self.old.entries) (seen_in lines.now) }
        ensures ok { OnOk result (Reaches D.Disk R.Draws (LooksAll D.Disk (seen_in lines.now)) self.old self.new) }
        ensures stays { OnOk result (MailStays self.old self.new) }
        ensures goes_on { GoesOn R.Draws self.old.server self.new.server }
        ensures err { OnErr result (ReachesServed D.Disk R.Draws (StopsInLooks D.Disk (seen_in lines.now)) self.old self.new) }
    {
        for line in lines {
            self.note_line(line)?;
        }
        Ok(())
    }

    /// Notes what the look of a line showed, if it looked.
    fn note_line(&mut self, line: &BlockLine) -> Result<(), NoMemory>
        requires { All (WasShown self.old.entries) (seen_in (line.now ∷ [])) }
        ensures ok { OnOk result (Reaches D.Disk R.Draws (LooksAll D.Disk (seen_in (line.now ∷ []))) self.old self.new) }
        ensures stays { OnOk result (MailStays self.old self.new) }
        ensures server { self.new.server ≡ self.old.server }
        ensures more { OnOk result ((more : List Turn) × (self.new.entries ≡ self.old.entries ++ more)) }
        ensures err { OnErr result (self.new ≡ self.old) }
    {
        match line.seen {
            Some(seen) => self.note_look(seen),
            None => Ok(()),
        }
    }

    /// Notes the pair that a look showed.
    fn note_look(&mut self, seen: Seen) -> Result<(), NoMemory>
        requires { WasShown self.old.entries seen }
        ensures ok { OnOk result (Reaches D.Disk R.Draws (Looks D.Disk seen) self.old self.new) }
        ensures stays { OnOk result (MailStays self.old self.new) }
        ensures server { self.new.server ≡ self.old.server }
        ensures more { OnOk result ((more : List Turn) × (self.new.entries ≡ self.old.entries ++ more)) }
        ensures err { OnErr result (self.new ≡ self.old) }
    {
        what_is_known_stays_known();
        self.entries.reserve(1)?;
        let place = self.server.draws_at();
        let answer = Answer::Pair {
            epoch: seen.epoch,
            sequence: seen.sequence,
        };
        self.entries.add(entry(Asked::Now, answer, place));
        Ok(())
    }
}

/// What comes of the datagram at a place where turns left it; it goes missing, where it is marked so.
fn take_left(
    alloc: Global,
    members: &mut Members,
    entries: &[Entry],
    left: &LeftAt,
) -> Result<Read, NoMemory>
    requires { (is : Left) × IsLeftAt members.old.all entries.now left.now is }
    ensures takes { IfOk result (λ read. (is : Left) (later : List Mail) → left_at entries.now left.now ≡ Some is →
        AreTaking read (marked (is.own ∷ []) (members_with members.old (is.mail ∷ later))) (members_with members.new later)) }
    ensures peers { (name : Name) → is_peer members.new.all name ≡ is_peer members.old.all name }
{
    let Some(mail) = mail_left(entries, left) else {
        return Ok(Read::Nothing);
    };
    mark_loss(members, &mail.0, left.lost);
    take_mail(alloc, members, &mail.0, mail.1.as_slice())
}

/// The next datagram to a member goes missing, if it does.
fn mark_loss(members: &mut Members, member: &MemberName, goes: bool)
    ensures { (datagram : List ℕ) (later : List Mail) → members_with members.new ((member.now, datagram) ∷ later)
        ≡ marked (goes ∷ []) (members_with members.old ((member.now, datagram) ∷ later)) }
{
    if goes {
        members.set_loss(member, true);
    }
}

/// What comes of a datagram that is the first on its way, to a peer.
fn take_mail(
    alloc: Global,
    members: &mut Members,
    member: &MemberName,
    datagram: &[u8],
) -> Result<Read, NoMemory>
    requires { is_peer members.old.all member.now ≡ true }
    ensures takes { IfOk result (λ read. (later : List Mail) →
        AreTaking read (members_with members.old ((member.now, datagram.now) ∷ later)) (members_with members.new later)) }
    ensures err { OnErr result (members.new ≡ members.old) }
{
    match members.take(alloc, member, datagram)? {
        Came::Ignored => Ok(Read::Nothing),
        Came::Sends => Ok(Read::Sends { member: *member }),
        Came::Ended { answer } => Ok(Read::Ended {
            member: *member,
            answer,
        }),
    }
}
