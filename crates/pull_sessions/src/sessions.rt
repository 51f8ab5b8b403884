//! The sessions of a key server.
ghost use Rattle.std.specs.Prelude.{◌≡◌, ◌≤◌, [], ℕ, List, length, option_and_then, IfOk, IsSome, Some, true};
ghost use Rattle.group_terms.specs.declared.phases.Phase1.{Phase1};
ghost use Rattle.pull_sessions.specs.Builds.{IsDatagram, IsFirstFrom, IsFourthOf, IsKeptSecond, IsSecondOf, IsThirdFrom, begun_session};
ghost use Rattle.pull_sessions.specs.Builds.{session_after_third, settled_session, third_held, third_of};
ghost use Rattle.pull_sessions.specs.Fits.{AllFit};
ghost use Rattle.pull_sessions.specs.Looks.{IsLook};
ghost use Rattle.pull_sessions.specs.Sessions.{AreApart, HasSession, IsIntroduction, is_queued_of, sa_of, session_of, with_session};
ghost use Rattle.pull_sessions.specs.Sessions.{without_sessions};
ghost use Rattle.pull_sessions.specs.declared.sas.Sa.{Sa};
ghost use Rattle.pull_sessions.specs.declared.sas.Session.{Session};

use crate::answers::{Kept, Looked};
use crate::fits::prove_block_fits;
use crate::looks::look_under;
use crate::refusals::SessionRefusal;
use crate::sas::{Sas, Session};
use gd_wire::kinds::PULL;
use gd_wire::{a_header_has_one_text, prove_are_octets, read_header, what_is_read_can_be_written};
use group_terms::{Keyed, MemberName, NoMemory, Octets, Phase1};
use pull_msgs::{First, Nonce, Third, prove_nonce_fits, write_fourth, write_second};
use sa_wire::SaPolicy;
use std::alloc::Global;
use std::marker::Model;

/// The phase 1 SAs that were introduced, each with at most one session.
///
/// A session keeps the datagram that it took last, at most 65,507 octets, and the answer that it was given; the answers that `build_second` and
/// `build_fourth` make have some hundred octets.
#[derive(Drop)]
pub struct Sessions {
    limit: u32,
    sas: Sas,
}

impl Model for Sessions {
    ghost use Rattle.std.specs.Prelude.{◌≤◌, length};
    ghost use Rattle.pull_sessions.specs.Sessions.{Sessions as View};

    ghost Value = { View };

    ghost view = { λ sessions. record { limit = sessions.limit; sas = sessions.sas } };

    ghost invariant = { λ sessions. length sessions.sas ≤ sessions.limit };
}

impl Sessions {
    /// No SA, and room for at most `limit`. It takes no memory.
    pub fn new(alloc: Global, limit: u32) -> Self
        ensures limit { result.limit ≡ limit }
        ensures none { result.sas ≡ [] }
    {
        Sessions {
            limit,
            sas: Sas::new(alloc),
        }
    }

    /// Introduces an SA, with the room for its one session.
    ///
    /// `PhaseTaken` exactly where its cookies or its member were introduced, else `PhaseFull` exactly where `limit` SAs were; `NoMemory`. Then nothing changes.
    pub fn introduce(&mut self, phase: Phase1) -> Result<(), SessionRefusal>
        ensures { IsIntroduction self.old phase result self.new }
    {
        if self.sas.has(&phase) {
            return Err(SessionRefusal::PhaseTaken);
        }
        if self.sas.len() >= self.limit as usize {
            return Err(SessionRefusal::PhaseFull { held: self.limit });
        }
        self.sas.push(phase)?;
        Ok(())
    }

    /// Finds out what a datagram is, in this order: `Malformed` with message 0 for its header; `UnknownPeer`; the answer to the datagram that the session
    /// took last; `WrongStep`; the message that is due, or its `Malformed` or `BadHash`. `NoMemory`.
    pub fn look(&self, alloc: Global, datagram: &[u8]) -> Result<Looked, SessionRefusal>
        ensures { IsLook self.now.sas datagram.now result }
    {
        let head = match read_header(datagram, PULL) {
            Ok(head) => head,
            Err(fault) => {
                return Err(SessionRefusal::Malformed {
                    message: 0,
                    at: fault.at,
                });
            }
        };
        match self.sas.with_cookies(&head.cookies) {
            Some(sa) => look_under(alloc, sa, &head, datagram),
            None => Err(SessionRefusal::UnknownPeer),
        }
    }

    /// The second message of the pull that a first message of this member begins (RFC 6407 section 3.2).
    pub fn build_second(
        &self,
        alloc: Global,
        member: &MemberName,
        first: &First,
        nr: &Nonce,
        policy: &SaPolicy,
    ) -> Result<Octets, NoMemory>
        requires introduced { IsSome (sa_of self.now.sas member.now) }
        requires kek { IsSome policy.now.kek }
        requires tek { IsSome policy.now.tek }
        ensures { (sa : Sa) → sa_of self.now.sas member.now ≡ Some sa →
            IfOk result (IsSecondOf sa.phase first.now nr.now policy.now) }
    {
        let phase = &self.sas.of(member).unwrap().phase;
        write_second(
            alloc,
            phase,
            &first.message,
            &first.next_iv,
            &first.ni,
            nr,
            policy,
        )
    }

    /// The fourth message of the session of a member, after this third message (RFC 6407 section 3.2).
    pub fn build_fourth(
        &self,
        alloc: Global,
        member: &MemberName,
        third: &Third,
        keyed: &Keyed,
    ) -> Result<Octets, NoMemory>
        requires { IsSome (session_of self.now.sas member.now) }
        ensures { (sa : Sa) (session : Session) → HasSession self.now.sas member.now sa session →
            IfOk result (IsFourthOf sa.phase session third.now.next_iv keyed.now) }
    {
        let sa = self.sas.of(member).unwrap();
        let session = sa.session.as_ref().unwrap();
        let Session {
            message,
            ni,
            nr,
            ..
        } = session;
        write_fourth(alloc, &sa.phase, message, &third.next_iv, ni, nr, keyed)
    }

    /// The third message of a session that awaits the next batch; `None` exactly where no session of the member awaits it. It takes no memory.
    pub fn held_third(&self, member: &MemberName) -> Option<Third>
        ensures { result ≡ third_of self.now.sas member.now }
    {
        match self.sas.of(member) {
            Some(sa) => third_in(&sa.session),
            None => None,
        }
    }

    /// Begins the session of an accepted first message, in place of the member's old one, of which nothing is left. It takes no memory.
    pub fn hold_first(
        &mut self,
        member: &MemberName,
        first: First,
        nr: Nonce,
        datagram: Octets,
        kept: Kept,
    )
        requires first { IsFirstFrom self.old.sas member.now datagram first }
        requires kept { IsKeptSecond self.old.sas member.now first nr kept }
        ensures { self.new ≡ with_session self.old member.now (begun_session first nr datagram kept) }
    {
        prove_are_octets(datagram.as_slice());
        a_header_has_one_text();
        what_is_read_can_be_written();
        prove_nonce_fits(&first.ni);
        prove_nonce_fits(&nr);
        let session = Session::begin(first, nr, datagram, kept);
        prove_block_fits(&session.iv);
        self.sas.put(member, session);
    }

    /// Notes the third message that a session took, with this answer to it. It takes no memory.
    pub fn hold_third(&mut self, member: &MemberName, third: Third, datagram: Octets, kept: Kept)
        requires third { IsThirdFrom self.old.sas member.now datagram third }
        ensures { (sa : Sa) (session : Session) → HasSession self.old.sas member.now sa session →
            self.new ≡ with_session self.old member.now (session_after_third session third datagram kept) }
    {
        prove_are_octets(datagram.as_slice());
        a_header_has_one_text();
        what_is_read_can_be_written();
        if let Some(session) = self.sas.take(member) {
            let after = session.take_third(third, datagram, kept);
            prove_block_fits(&after.iv);
            self.sas.put(member, after);
        }
    }

    /// Gives a session that awaited the next batch its fourth message. It takes no memory.
    pub fn settle(&mut self, member: &MemberName, kept: Kept)
        requires queued { is_queued_of self.old.sas member.now ≡ true }
        requires datagram { IsDatagram kept }
        ensures { (sa : Sa) (session : Session) → HasSession self.old.sas member.now sa session →
            self.new ≡ with_session self.old member.now (settled_session session kept) }
    {
        if let Some(session) = self.sas.take(member) {
            self.sas.put(member, session.settle(kept));
        }
    }

    /// Ends all sessions; the SAs stay. It takes no memory.
    pub fn forget_sessions(&mut self)
        ensures { self.new ≡ without_sessions self.old }
    {
        self.sas.end_sessions();
    }

    /// What the type keeps: no two SAs have the same cookies or the same member, they are no more than may be, and their values can be written.
    pub fn prove_sound(&self)
        ensures apart { AreApart self.now.sas }
        ensures few { length self.now.sas ≤ self.now.limit }
        ensures fits { AllFit self.now.sas }
    {
        self.sas.prove_sound();
    }
}

/// The third message of a session, if there is one that awaits the next batch.
fn third_in(session: &Option<Session>) -> Option<Third>
    ensures { result ≡ option_and_then third_held session.now }
{
    match session {
        Some(session) => session.held_third(),
        None => None,
    }
}
