//! A group whose pushes are signed under a key, and the stores of its members.
ghost use Rattle.std.specs.Prelude.{◌≡◌, true};
ghost use Rattle.member_store.specs.Stores.{IsReply};

use case_lines::Text;
use gcks_core::{
    Core, CoreOutput, GroupName, Keyed, MemberName, NewGroup, Parts, PushPair, Refusal,
};
use gd_disk::MemDisk;
use gd_edges::ChaChaDraws;
use member_store::{MemberStore, Room, Taken};
use rsa_sign::{RsaSigner, RsaVerifier};
use std::alloc::Global;

type RsaCore = Core<MemDisk, RsaSigner, ChaChaDraws>;

/// A member that was told its keys.
#[derive(Drop)]
struct Member {
    name: MemberName,
    store: MemberStore,
}

/// The members that were told their keys, in this order, who checks for them, and the room in which they open pushes.
#[derive(Drop)]
struct Members<'a> {
    list: Vec<Member>,
    verifier: &'a RsaVerifier,
    room: Room,
}

/// Makes a group with a tree of four leaves, does what the words ask for, and appends what came of it.
pub fn run(
    alloc: Global,
    signer: RsaSigner,
    verifier: &RsaVerifier,
    words: &[&str],
    text: &mut Text,
) -> Option<()> {
    let mut members = Members {
        list: Vec::new(alloc),
        verifier,
        room: Room::new(alloc).ok()?,
    };
    let mut core = create(alloc, signer)?;
    let done = go_through(alloc, &mut core, &mut members, words, text);
    drop(core.into_parts());
    members.add_keys(text);
    done
}

fn create(alloc: Global, signer: RsaSigner) -> Option<RsaCore> {
    let group = NewGroup {
        depth: 2,
        name: GroupName::read(b"console")?,
        limit: 1_000,
    };
    let parts = Parts {
        disk: MemDisk::new(alloc),
        signer,
        draws: ChaChaDraws::new(0, 0),
    };
    Core::create(alloc, parts, &group).ok()
}

fn go_through(
    alloc: Global,
    core: &mut RsaCore,
    members: &mut Members,
    words: &[&str],
    text: &mut Text,
) -> Option<()> {
    for word in words {
        match word.as_bytes() {
            [b'+', name @ ..] => come_in(core, &MemberName::read(name)?)?,
            [b'-', name @ ..] => core.leave(&MemberName::read(name)?).ok()?,
            [b'?', name @ ..] => members.tell(MemberName::read(name)?, core)?,
            _ => close(alloc, core, members, text)?,
        }
    }
    Some(())
}

fn come_in(core: &mut RsaCore, member: &MemberName) -> Option<()> {
    if core.is_member(member) {
        return None;
    }
    core.join(member).ok()
}

/// Closes the batch of the changes that wait, and gives its pushes to the members.
fn close(alloc: Global, core: &mut RsaCore, members: &mut Members, text: &mut Text) -> Option<()> {
    let output = batch(alloc, core).ok()?;
    if let Some(pair) = &output.pushes {
        members.give_pair(pair, text);
    }
    drop(output);
    Some(())
}

fn batch(alloc: Global, core: &mut RsaCore) -> Result<CoreOutput, Refusal> {
    let prepared = core.prepare(alloc)?;
    core.commit(prepared)
}

impl Members<'_> {
    /// Tells a member its keys.
    fn tell(&mut self, name: MemberName, core: &RsaCore) -> Option<()> {
        if !core.is_member(&name) {
            return None;
        }
        let keyed = core.reply(&name).ok()?;
        let store = store_of(keyed)?;
        self.list.push(Member { name, store }).ok()
    }

    fn give_pair(&mut self, pair: &PushPair, text: &mut Text) {
        self.give(pair.membership.as_slice(), text);
        self.give(pair.traffic.as_slice(), text);
    }

    /// Appends a push, and what each store says to it.
    fn give(&mut self, push: &[u8], text: &mut Text) {
        text.add_octets(&[push]);
        for member in self.list.iter_mut() {
            member.take(push, self.verifier, &mut self.room, text);
        }
    }

    fn add_keys(&self, text: &mut Text) {
        for member in self.list.iter() {
            member.add_key(text);
        }
    }
}

impl Member {
    fn take(&mut self, push: &[u8], verifier: &RsaVerifier, room: &mut Room, text: &mut Text) {
        self.add_name(text);
        match self.store.accept(push, verifier, room) {
            Ok(Taken::Root { epoch }) => text.add_named(" root ", u64::from(epoch)),
            Ok(Taken::Traffic { epoch }) => text.add_named(" traffic ", u64::from(epoch)),
            Err(refusal) => {
                text.add(" ");
                text.add_value(&refusal);
            }
        }
    }

    /// Appends the number of the last push that it took, and the traffic key that it has.
    fn add_key(&self, text: &mut Text) {
        self.add_name(text);
        text.add_numbers(&[u64::from(self.store.last_sequence())]);
        let traffic = self.store.traffic_key();
        text.add_octets(&[&traffic.cipher_key, &traffic.integrity_key, &traffic.spi]);
    }

    fn add_name(&self, text: &mut Text) {
        text.add(" ");
        text.add_letters(self.name.text());
    }
}

/// The store of a member that is told these keys, which lead from a leaf to the root.
fn store_of(keyed: Keyed) -> Option<MemberStore> {
    if is_reply(&keyed) {
        return Some(MemberStore::new(keyed));
    }
    drop(keyed);
    None
}

/// Whether the keys are those of three positions up to the root, and of its epoch.
fn is_reply(keyed: &Keyed) -> bool
    ensures { result ≡ true → IsReply keyed.now }
{
    match keyed.path.keys() {
        [leaf, inner, root] => {
            inner.id.number() == leaf.id.number() / 2
                && root.id.number() == inner.id.number() / 2
                && root.id.number() == 1
                && keyed.epoch == root.made
        }
        _ => false,
    }
}
