//! What the entries of a history tell of a group, one after the other.
ghost use Rattle.std.specs.Prelude.{◌≡◌, length, OnOk};
ghost use Rattle.std.specs.List.{count_by, fold};
ghost use Rattle.group_model.specs.declared.entries.Entry.{Entry};
ghost use Rattle.script_text.specs.Private.Tallies.{tallied};
ghost use Rattle.script_text.specs.Summary.{after_answer, after_batch, after_done, after_key, after_opening, agreed, has_key, members_seen, members_with, members_without, nothing_told};

use group_model::{
    Answer, Asked, Entry, GroupSeen, List, MemberName, NoMemory, Output, SentReply, Standing,
};
use indexmap::{IndexMap, IndexSet};
use std::alloc::Global;

/// A group, by the entries of a history.
#[derive(Drop)]
pub(crate) struct Tally {
    /// Its last epoch.
    pub(crate) epoch: u32,
    /// The number of its last push.
    pub(crate) sequence: u32,
    members: IndexSet<MemberName>,
    /// Those who go out with the next batch.
    leaving: List<MemberName>,
    /// The epoch of the traffic key that a name was given last.
    keyed: IndexMap<MemberName, u32>,
}

impl Tally {
    /// Nothing was told. It takes no memory.
    pub(crate) fn new(alloc: Global) -> Self
        ensures { tallied result ≡ nothing_told }
    {
        Tally {
            epoch: 0,
            sequence: 0,
            members: IndexSet::new(alloc),
            leaving: List::new(alloc),
            keyed: IndexMap::new(alloc),
        }
    }

    /// Takes in what the entries of a history tell.
    pub(crate) fn take_all(&mut self, history: &[Entry]) -> Result<(), NoMemory>
        ensures { OnOk result (tallied self.new ≡ fold (λ told (entry : Entry). after_answer told entry.answer entry.asked) (tallied self.old) history.now) }
    {
        for entry in history {
            self.take(&entry.answer, &entry.asked)?;
        }
        Ok(())
    }

    /// How many members there are.
    pub(crate) fn members(&self) -> u64
        ensures { result ≡ length (tallied self.now).members }
    {
        self.members.len() as u64
    }

    /// How many of them have the traffic key of the last epoch.
    pub(crate) fn agreed(&self) -> u64
        ensures { result ≡ agreed (tallied self.now) }
    {
        count_keyed(self.members.as_slice(), &self.keyed, self.epoch) as u64
    }

    fn take(&mut self, answer: &Answer, asked: &Asked) -> Result<(), NoMemory>
        ensures { OnOk result (tallied self.new ≡ after_answer (tallied self.old) answer.now asked.now) }
    {
        match answer {
            Answer::Done => self.take_done(asked),
            Answer::Kept { epoch } => self.take_key(*epoch, asked),
            Answer::TookTraffic { epoch } => self.take_key(*epoch, asked),
            Answer::Batched { output } => self.take_batch(output),
            Answer::Opened { group, .. } => self.take_opening(group),
            _ => Ok(()),
        }
    }

    fn take_done(&mut self, asked: &Asked) -> Result<(), NoMemory>
        ensures { OnOk result (tallied self.new ≡ after_done (tallied self.old) asked.now) }
    {
        match asked {
            Asked::Leave { member } => self.leaving.push(*member),
            _ => Ok(()),
        }
    }

    fn take_key(&mut self, epoch: u32, asked: &Asked) -> Result<(), NoMemory>
        ensures { OnOk result (tallied self.new ≡ after_key (tallied self.old) epoch asked.now) }
    {
        match asked {
            Asked::Keep { member } => {
                self.keyed.insert(*member, epoch)?;
                Ok(())
            }
            Asked::Deliver { member, .. } => {
                self.keyed.insert(*member, epoch)?;
                Ok(())
            }
            _ => Ok(()),
        }
    }

    fn take_batch(&mut self, output: &Output) -> Result<(), NoMemory>
        ensures { OnOk result (tallied self.new ≡ after_batch (tallied self.old) output.now) }
    {
        self.epoch = output.epoch;
        self.sequence = output.sequence;
        remove_all(&mut self.members, self.leaving.as_slice());
        self.leaving.clear();
        add_replied(&mut self.members, output.replies.as_slice())
    }

    fn take_opening(&mut self, group: &GroupSeen) -> Result<(), NoMemory>
        ensures { OnOk result (tallied self.new ≡ after_opening (tallied self.old) group.now) }
    {
        self.epoch = group.epoch;
        self.sequence = group.sequence;
        self.leaving.clear();
        see(&mut self.members, group.members.as_slice())
    }
}

/// Takes members out.
fn remove_all(members: &mut IndexSet<MemberName>, leaving: &[MemberName])
    ensures { members.new.keys ≡ members_without members.old.keys leaving.now }
{
    for member in leaving {
        members.shift_remove(member);
    }
}

/// Puts those in who were sent a reply.
fn add_replied(members: &mut IndexSet<MemberName>, replies: &[SentReply]) -> Result<(), NoMemory>
    ensures { OnOk result (members.new.keys ≡ members_with members.old.keys replies.now) }
{
    for reply in replies {
        members.insert(reply.says.member)?;
    }
    Ok(())
}

/// Has those who have a leaf in place of the members before.
fn see(members: &mut IndexSet<MemberName>, standings: &[Standing]) -> Result<(), NoMemory>
    ensures { OnOk result (members.new.keys ≡ members_seen standings.now) }
{
    members.clear();
    for standing in standings {
        members.insert(standing.member)?;
    }
    Ok(())
}

/// How many members were given the traffic key of an epoch last.
fn count_keyed(members: &[MemberName], keyed: &IndexMap<MemberName, u32>, epoch: u32) -> usize
    ensures { result ≡ count_by (has_key keyed.now.entries epoch) members.now }
{
    members
        .iter()
        .filter(|member| has_key(keyed, epoch, member))
        .count()
}

/// Whether a member was.
fn has_key(keyed: &IndexMap<MemberName, u32>, epoch: u32, member: &MemberName) -> bool
    ensures { result ≡ has_key keyed.now.entries epoch member.now }
{
    match keyed.get(member).copied() {
        Some(last) => last == epoch,
        None => false,
    }
}
