//! The members of a group that runs.
ghost use Rattle.std.specs.Prelude.{◌≡◌, ◌≤◌, ◌+◌, ℕ, true, false, [], List, Some, IfOk, OnErr, OnOk, IsTrue, option_copied};
ghost use Rattle.group_values.specs.Drawing.{place_after};
ghost use Rattle.group_peers.specs.Lent.{Lends, with_back};
ghost use Rattle.group_peers.specs.Peers.{AreOnce, changed, introduced, is_peer, phase_of, sent_by, store_of, was_introduced, with_loss};
ghost use Rattle.member_steps.specs.Acts.{BeginsPull, IsFirstUse};
ghost use Rattle.member_steps.specs.Keys.{key_of};
ghost use Rattle.member_steps.specs.Members.{Mail, with_all};
ghost use Rattle.member_steps.specs.Mails.{TakesMail};
ghost use Rattle.member_steps.specs.Steps.{IsDelivery, IsLosing, TakesReply};
ghost use Rattle.member_store.specs.Stores.{IsReply};
ghost use Rattle.member_steps.specs.Views.{members_with};

use crate::answers::{answer_if, key_of};
use crate::came::Came;
use crate::drawing::{draw_message, draw_nonce, draw_phase};
use gd_edges::{Draws, Verifier};
use group_model::{Answer, MemberName, NoMemory, Octets, Phase1};
use group_peers::{Lent, Peers, Pulled, who_is_noted_is_a_peer};
use group_terms::{GroupName, Keyed};
use member_pull::what_a_pull_takes_makes_a_store;
use member_store::{Older, Room};
use std::alloc::Global;
use std::marker::Model;

/// The members of a group: those who were ever used, in the order of the first time, each with its phase 1 SA, its pull, and its store once it was
/// told its keys; and the room in which their stores open what they are given.
///
/// Contracts see of it the members, the place of the next block that is drawn for them, and `spare`, for how many more of them there is room. What
/// is on its way to them is kept elsewhere.
#[derive(Drop)]
pub struct Members {
    peers: Peers,
    place: u64,
    room: Room,
}

impl Model for Members {
    ghost use Rattle.member_steps.specs.Views.{View};

    ghost Value = { View };

    ghost view = { λ members. record { all = members.peers.items; place = members.place; spare = members.peers.spare } };
}

impl Members {
    /// Nobody; the next block that is drawn for members has this place.
    pub fn new(alloc: Global, place: u64) -> Result<Self, NoMemory>
        ensures all { IfOk result (λ one. one.all ≡ []) }
        ensures place { IfOk result (λ one. one.place ≡ place) }
    {
        Ok(Members {
            peers: Peers::new(alloc),
            place,
            room: Room::new(alloc)?,
        })
    }

    /// Makes room for at least `n` more of them.
    pub fn reserve(&mut self, n: u64) -> Result<(), NoMemory>
        ensures all { self.new.all ≡ self.old.all }
        ensures place { self.new.place ≡ self.old.place }
        ensures spare { OnOk result (n ≤ self.new.spare) }
    {
        self.peers.reserve(n)
    }

    /// The phase 1 SA of a member; `None` exactly where it was never used.
    pub fn phase(&self, member: &MemberName) -> Option<Phase1>
        ensures { result ≡ phase_of self.now.all member.now }
    {
        self.peers.phase(member)
    }

    /// Whether that was introduced.
    pub fn was_introduced(&self, member: &MemberName) -> bool
        ensures { result ≡ was_introduced self.now.all member.now }
    {
        self.peers.was_introduced(member)
    }

    /// The datagram that a member sent last; `None` exactly where it sent nothing.
    pub fn sent(&self, member: &MemberName) -> Option<&Octets>
        ensures { option_copied result ≡ sent_by self.now.all member.now }
    {
        self.peers.sent(member)
    }

    /// Somebody is used for the first time: its SA is drawn, five blocks. There must be room. It takes no memory that it needs.
    pub fn use_first<P: Draws>(&mut self, draws: &mut P, member: &MemberName) -> Phase1
        requires room { 1 ≤ self.old.spare }
        requires unused { is_peer self.old.all member.now ≡ false }
        requires place { P.place_of draws.old ≡ self.old.place }
        ensures used { (mail : List Mail) →
            IsFirstUse (P.block_at draws.old) member.now (members_with self.old mail) (members_with self.new mail) }
        ensures phase { phase_of self.new.all member.now ≡ Some result }
        ensures place { P.place_of draws.new ≡ self.new.place }
        ensures blocks { (k : ℕ) → P.block_at draws.new k ≡ P.block_at draws.old k }
        ensures spare { self.old.spare ≤ self.new.spare + 1 }
    {
        who_is_noted_is_a_peer();
        let phase = draw_phase(draws, member);
        let noted = &phase;
        self.peers.note(*noted);
        self.place = draws.place();
        phase
    }

    /// From now on the SA of a member is introduced.
    pub fn introduce(&mut self, member: &MemberName)
        ensures all { self.new.all ≡ introduced self.old.all member.now }
        ensures place { self.new.place ≡ self.old.place }
        ensures spare { self.new.spare ≡ self.old.spare }
    {
        self.peers.introduce(member);
    }

    /// Who was introduced begins a pull for a group (RFC 6407 section 3.2): message id and nonce are drawn, two blocks, and its first message is what
    /// it sent last then. Out of memory, the blocks are drawn all the same.
    pub fn begin_pull<P: Draws>(
        &mut self,
        alloc: Global,
        draws: &mut P,
        member: &MemberName,
        group: &GroupName,
    ) -> Result<(), NoMemory>
        requires introduced { was_introduced self.old.all member.now ≡ true }
        requires place { P.place_of draws.old ≡ self.old.place }
        ensures begins { OnOk result ((mail : List Mail) →
            BeginsPull (P.block_at draws.old) group.now member.now (members_with self.old mail) (members_with self.new mail)) }
        ensures place { OnOk result (P.place_of draws.new ≡ self.new.place) }
        ensures drawn { P.place_of draws.new ≡ place_after 2 (P.place_of draws.old) }
        ensures blocks { (k : ℕ) → P.block_at draws.new k ≡ P.block_at draws.old k }
        ensures err { OnErr result (self.new ≡ self.old) }
        ensures spare { self.new.spare ≡ self.old.spare }
    {
        let message = draw_message(draws);
        let ni = draw_nonce(draws);
        self.peers.begin(alloc, member, message, ni, group)?;
        self.place = draws.place();
        Ok(())
    }

    /// The next datagram to a member goes missing, if it was introduced.
    pub fn lose(&mut self, member: &MemberName) -> Answer
        ensures loses { (mail : List Mail) → IsLosing member.now (members_with self.old mail) result (members_with self.new mail) }
        ensures spare { self.new.spare ≡ self.old.spare }
    {
        if self.peers.was_introduced(member) {
            self.peers.lose(member, true);
            Answer::Done
        } else {
            Answer::Nothing
        }
    }

    /// Lets the next datagram to a member go missing, or come.
    pub fn set_loss(&mut self, member: &MemberName, loses: bool)
        ensures all { (mail : List Mail) →
            members_with self.new mail ≡ with_all (members_with self.old mail) (with_loss self.old.all member.now loses) }
        ensures spare { self.new.spare ≡ self.old.spare }
    {
        self.peers.lose(member, loses);
    }

    /// A member lends its pull and the datagram that it sent last, which it has no longer then; and whether the next datagram to it goes missing,
    /// which stays. `None` exactly where it sent nothing, and then nothing changes. It takes no memory.
    pub fn lend(&mut self, member: &MemberName) -> Option<Lent>
        ensures lends { Lends self.old.all member.now result self.new.all }
        ensures place { self.new.place ≡ self.old.place }
        ensures spare { self.new.spare ≡ self.old.spare }
    {
        self.peers.lend(member)
    }

    /// A member has back what it lent, or what became of it. It takes no memory.
    pub fn take_back(&mut self, member: &MemberName, lent: Lent)
        ensures all { self.new.all ≡ changed (with_back lent) self.old.all member.now }
        ensures place { self.new.place ≡ self.old.place }
        ensures spare { self.new.spare ≡ self.old.spare }
    {
        self.peers.take_back(member, lent);
    }

    /// What comes of the first datagram on its way, which is to this member: it goes missing, if that is due; or its pull takes it, or ignores it
    /// (RFC 6407 section 3.2).
    pub fn take(
        &mut self,
        alloc: Global,
        member: &MemberName,
        datagram: &[u8],
    ) -> Result<Came, NoMemory>
        requires { IsTrue (is_peer self.old.all member.now) }
        ensures takes { (later : List Mail) → TakesMail member.now datagram.now later self.old result self.new }
        ensures spare { self.new.spare ≡ self.old.spare }
    {
        what_a_pull_takes_makes_a_store();
        if self.peers.loses(member) {
            self.peers.lose(member, false);
            let answer = Answer::Lost;
            return Ok(Came::Ended { answer });
        }
        match self.peers.take(alloc, member, datagram)? {
            Pulled::Ignored => Ok(Came::Ignored),
            Pulled::Sends => Ok(Came::Sends),
            Pulled::Told { keyed } => {
                let answer = self.keep(member, keyed);
                Ok(Came::Ended { answer })
            }
        }
    }

    /// A member is told these keys.
    fn keep(&mut self, member: &MemberName, keyed: Keyed) -> Answer
        requires peer { IsTrue (is_peer self.old.all member.now) }
        requires reply { IsReply keyed }
        ensures takes { (mail : List Mail) → TakesReply (store_of self.old.all member.now) member.now keyed (members_with self.old mail) result
            (members_with self.new mail) }
        ensures spare { self.new.spare ≡ self.old.spare }
    {
        let epoch = keyed.epoch;
        match self.peers.keep(member, keyed) {
            Ok(()) => Answer::Kept { epoch },
            Err(Older { last, got }) => Answer::Older { last, got },
        }
    }

    /// Gives a member this push, if there is one and the member has a store (RFC 6407 section 4); else nothing happens.
    pub fn deliver<V: Verifier>(
        &mut self,
        verifier: &V,
        member: &MemberName,
        push: Option<&Octets>,
    ) -> Answer
        ensures step { (mail : List Mail) → IsDelivery V.Verifier verifier.now member.now (option_copied push.entry) (members_with self.old mail) result
            (members_with self.new mail) }
        ensures spare { self.new.spare ≡ self.old.spare }
    {
        match push {
            Some(datagram) => answer_if(
                self.peers
                    .accept(member, datagram.as_slice(), verifier, &mut self.room),
            ),
            None => Answer::Nothing,
        }
    }

    /// Which traffic key a member has.
    pub fn key(&self, member: &MemberName) -> Answer
        ensures { result ≡ key_of (store_of self.now.all member.now) }
    {
        match self.peers.store(member) {
            Some(store) => key_of(store),
            None => Answer::Nothing,
        }
    }

    /// No two of them have the same name.
    pub fn prove_once(&self)
        ensures { AreOnce self.now.all }
    {
        let _ = self.peers.len();
    }

    /// All of them, in their order.
    pub fn all(&self) -> &Peers
        ensures { result.now.items ≡ self.now.all }
    {
        &self.peers
    }
}
