//! The members of a run.
ghost use Rattle.std.specs.Prelude.{◌≡◌, ◌+◌, ◌<◌, ◌≤◌, [], false, is_some, length, option_copied, slice_index_or, IsTrue, Ok, OnOk, OnErr};
ghost use Rattle.member_store.specs.Stores.{IsReply};
ghost use Rattle.std.specs.List.{position};
ghost use Rattle.group_peers.specs.Peers.{AreOnce, changed, introduced, is_named, is_peer, loses, names_of, phase_of, sent_by, store_of, was_introduced, with_loss, with_peer};
ghost use Rattle.group_peers.specs.Lent.{Lends, with_back};
ghost use Rattle.group_peers.specs.Pulls.{Begins, Takes};
ghost use Rattle.group_peers.specs.declared.pulled.Pulled.TheVariants.{Ignored};
ghost use Rattle.group_peers.specs.Steps.{IsGiven, IsLeft, Keeps};

use crate::lent::{Lent, lend_at, take_back_at};
use crate::members::{Peer, give_at, introduce_at, keep_at, lose_at};
use crate::pulled::Pulled;
use crate::pulls::{begin_at, take_at};
use gd_edges::Verifier;
use group_terms::{GroupName, Keyed, MemberName, NoMemory, Octets, Phase1, PushRefusal};
use indexmap::IndexSet;
use member_store::{MemberStore, Older, Room, Taken};
use std::alloc::Global;
use std::marker::Model;

/// The members of a run by their names, in the order in which they were noted.
///
/// Contracts see the peers as `items`, and beside them `spare`, how many more there is room for. No two have the same name.
#[derive(Drop)]
pub struct Peers {
    list: Vec<Peer>,
    /// The name of each peer, in the order of the list.
    names: IndexSet<MemberName>,
}

impl Model for Peers {
    ghost use Rattle.std.specs.Prelude.{◌≡◌, ◌-◌, min, vec_len, vec_capacity};
    ghost use Rattle.indexmap.specs.IndexSet.{spare};
    ghost use Rattle.group_terms.specs.Logs.{Recorded};
    ghost use Rattle.group_peers.specs.declared.members.Peer.{Peer};
    ghost use Rattle.group_peers.specs.Peers.{AreOnce, names_of};
    ghost use Rattle.group_peers.specs.Private.Lent.{HasBothOrNone};
    ghost use Rattle.std.specs.List.{All};

    ghost Value = { Recorded Peer };

    ghost view = { λ peers. record { items = peers.list.items; spare = min (vec_capacity peers.list - vec_len peers.list) (spare peers.names) } };

    ghost invariant = { λ peers. AreOnce peers.list.items × (peers.names.keys ≡ names_of peers.list.items) × All HasBothOrNone peers.list.items };
}

impl Peers {
    /// Nobody. It takes no memory.
    pub fn new(alloc: Global) -> Self
        ensures { result.items ≡ [] }
    {
        Peers {
            list: Vec::new(alloc),
            names: IndexSet::new(alloc),
        }
    }

    /// Makes room for at least `n` more peers.
    pub fn reserve(&mut self, n: u64) -> Result<(), NoMemory>
        ensures items { self.new.items ≡ self.old.items }
        ensures spare { OnOk result (n ≤ self.new.spare) }
    {
        self.list.reserve(n as usize)?;
        self.names.reserve(n as usize)?;
        Ok(())
    }

    /// Notes a member down that has this SA: there must be room, and no peer of its name. It takes no memory that it needs.
    pub fn note(&mut self, phase: Phase1)
        requires room { 1 ≤ self.old.spare }
        requires new { is_peer self.old.items phase.member ≡ false }
        ensures items { self.new.items ≡ with_peer self.old.items phase }
        ensures spare { self.old.spare ≤ self.new.spare + 1 }
    {
        let _ = self.names.insert(phase.member);
        self.list.push_reserved(Peer::new(phase));
    }

    /// The SA of a member; `None` exactly where it is no peer.
    pub fn phase(&self, member: &MemberName) -> Option<Phase1>
        ensures { result ≡ phase_of self.now.items member.now }
    {
        let place = self.place(member)?;
        Some(self.list[place].phase)
    }

    /// Whether the SA of a member was introduced.
    pub fn was_introduced(&self, member: &MemberName) -> bool
        ensures { result ≡ was_introduced self.now.items member.now }
    {
        match self.place(member) {
            Some(place) => self.list[place].introduced,
            None => false,
        }
    }

    /// The datagram that a member sent last; `None` exactly where it sent nothing.
    pub fn sent(&self, member: &MemberName) -> Option<&Octets>
        ensures { option_copied result ≡ sent_by self.now.items member.now }
    {
        match self.place(member) {
            Some(place) => self.list[place].sent.as_ref(),
            None => None,
        }
    }

    /// Whether the next datagram to a member goes missing.
    pub fn loses(&self, member: &MemberName) -> bool
        ensures { result ≡ loses self.now.items member.now }
    {
        match self.place(member) {
            Some(place) => self.list[place].loses,
            None => false,
        }
    }

    /// From now on the SA of a member is introduced.
    pub fn introduce(&mut self, member: &MemberName)
        ensures items { self.new.items ≡ introduced self.old.items member.now }
        ensures spare { self.new.spare ≡ self.old.spare }
    {
        if let Some(place) = self.place(member) {
            introduce_at(&mut self.list, place);
        }
    }

    /// Lets the next datagram to a member go missing, or come.
    pub fn lose(&mut self, member: &MemberName, loses: bool)
        ensures items { self.new.items ≡ with_loss self.old.items member.now loses }
        ensures spare { self.new.spare ≡ self.old.spare }
    {
        if let Some(place) = self.place(member) {
            lose_at(&mut self.list, place, loses);
        }
    }

    /// A member begins a pull for a group, with this message id and nonce (RFC 6407 section 3.2), and sends its first message.
    pub fn begin(
        &mut self,
        alloc: Global,
        member: &MemberName,
        message: [u8; 4],
        ni: [u8; 16],
        group: &GroupName,
    ) -> Result<(), NoMemory>
        requires peer { IsTrue (is_peer self.old.items member.now) }
        ensures ok { OnOk result (Begins self.old.items member.now message ni group.now self.new.items) }
        ensures err { OnErr result (self.new.items ≡ self.old.items) }
        ensures spare { self.new.spare ≡ self.old.spare }
    {
        let place = self.place(member).unwrap();
        begin_at(alloc, &mut self.list, place, message, ni, group)
    }

    /// Gives a datagram to the pull of a member.
    pub fn take(
        &mut self,
        alloc: Global,
        member: &MemberName,
        datagram: &[u8],
    ) -> Result<Pulled, NoMemory>
        requires peer { IsTrue (is_peer self.old.items member.now) }
        ensures takes { Takes self.old.items member.now datagram.now result self.new.items }
        ensures ignored { result ≡ Ok Ignored → self.new.items ≡ self.old.items }
        ensures err { OnErr result (self.new.items ≡ self.old.items) }
        ensures spare { self.new.spare ≡ self.old.spare }
    {
        let place = self.place(member).unwrap();
        take_at(alloc, &mut self.list, place, datagram)
    }

    /// A member lends its pull and the datagram that it sent last, which it has no longer then; and whether the next datagram to it goes missing,
    /// which stays. `None` exactly where it sent nothing, and then nothing changes. It takes no memory.
    pub fn lend(&mut self, member: &MemberName) -> Option<Lent>
        ensures lends { Lends self.old.items member.now result self.new.items }
        ensures spare { self.new.spare ≡ self.old.spare }
    {
        match self.place(member) {
            Some(place) => lend_at(&mut self.list, place),
            None => None,
        }
    }

    /// A member has back what it lent, or what became of it. It takes no memory.
    pub fn take_back(&mut self, member: &MemberName, lent: Lent)
        ensures items { self.new.items ≡ changed (with_back lent) self.old.items member.now }
        ensures spare { self.new.spare ≡ self.old.spare }
    {
        if let Some(place) = self.place(member) {
            take_back_at(&mut self.list, place, lent);
        }
    }

    /// How many peers there are.
    pub fn len(&self) -> usize
        ensures len { result ≡ length self.now.items }
        ensures once { AreOnce self.now.items }
    {
        self.list.len()
    }

    /// The name of the peer at this place; the first one has the place 0.
    pub fn name_at(&self, i: usize) -> MemberName
        requires { i < length self.now.items }
        ensures { result ≡ slice_index_or (names_of self.now.items) i [] }
    {
        self.list[i].phase.member
    }

    /// The store of a member; `None` exactly where it is no peer, or was not told its keys.
    pub fn store(&self, member: &MemberName) -> Option<&MemberStore>
        ensures { option_copied result ≡ store_of self.now.items member.now }
    {
        match self.place(member) {
            Some(place) => self.list[place].store.as_ref(),
            None => None,
        }
    }

    /// Tells a peer its keys: makes its store, or makes it anew (RFC 6407 section 3.2).
    ///
    /// `Older` where it has a store and the keys are older than what that has; then nothing changes.
    pub fn keep(&mut self, member: &MemberName, keyed: Keyed) -> Result<(), Older>
        requires peer { IsTrue (is_peer self.old.items member.now) }
        requires reply { IsReply keyed }
        ensures keeps { Keeps self.old.items member.now keyed result self.new.items }
        ensures spare { self.new.spare ≡ self.old.spare }
        ensures err { OnErr result (self.new.items ≡ self.old.items) }
    {
        let place = self.place(member).unwrap();
        keep_at(&mut self.list, place, keyed)
    }

    /// Gives a datagram to the store of a member (RFC 6407 section 4), in this room; `None` exactly where it has no store, and then nothing
    /// changes.
    pub fn accept<V: Verifier>(
        &mut self,
        member: &MemberName,
        datagram: &[u8],
        verifier: &V,
        room: &mut Room,
    ) -> Option<Result<Taken, PushRefusal>>
        ensures step { IsGiven V.Verifier verifier.now self.old.items member.now datagram.now result self.new.items }
        ensures room { IsLeft V.Verifier verifier.now (store_of self.old.items member.now) datagram.now room.old room.new }
        ensures spare { self.new.spare ≡ self.old.spare }
    {
        match self.place(member) {
            Some(place) => give_at(&mut self.list, place, datagram, verifier, room),
            None => None,
        }
    }

    /// The place of the peer of this name.
    fn place(&self, member: &MemberName) -> Option<usize>
        ensures place { result ≡ position (is_named member.now) self.now.items }
        ensures found { is_some result ≡ is_peer self.now.items member.now }
    {
        self.names.get_index_of(member)
    }
}
