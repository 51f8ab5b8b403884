//! SAs, found by their cookies and by their members.
ghost use Rattle.std.specs.Prelude.{◌≡◌, ◌<◌, ◌∷◌, ◌++◌, [], length, None, Some, OnOk, OnErr, option_copied, false, slice_index_or, vec_len};
ghost use Rattle.std.specs.List.{list_any, position};
ghost use Rattle.pull_sessions.specs.Fits.{AllFit, IfSession, SessionFits};
ghost use Rattle.pull_sessions.specs.Private.Places.{no_sa, with_session_at};
ghost use Rattle.pull_sessions.specs.Sessions.{AreApart, sessions_ended, has_cookies, is_of, is_taken_by, new_sa, put_sessions, sa_of, sa_with, session_of};

use crate::answers::{Kept, Step};
use group_terms::{MemberName, NoMemory, Octets, Phase1};
use indexmap::IndexSet;
use pull_msgs::{Nonce, prove_phase_fits};
use std::alloc::Global;
use std::marker::Model;
use std::mem;

/// A phase 1 SA, and the session of its member, if there is one. Contracts alone speak of it: no call gives one.
#[derive(Drop)]
pub struct Sa {
    pub phase: Phase1,
    pub session: Option<Session>,
}

/// A session of a pull. Contracts alone speak of it: no call gives one.
#[derive(Drop)]
pub struct Session {
    /// The datagram that it took last, and what was answered.
    pub last: Octets,
    pub kept: Kept,
    /// The message id of the pull, and the nonces of the member and of the server.
    pub message: [u8; 4],
    pub ni: Nonce,
    pub nr: Nonce,
    /// The IV of its next message: the last block of the second message; once the third was taken, of the third (RFC 2409 appendix B).
    pub iv: [u8; 16],
    pub step: Step,
}

/// SAs in the order in which they were introduced. No two have the same cookies, and no two the same member.
#[derive(Drop)]
pub(crate) struct Sas {
    list: Vec<Sa>,
    /// The cookies of each SA, and its member, in the order of the list.
    cookies: IndexSet<[u8; 16]>,
    members: IndexSet<MemberName>,
}

impl Model for Sas {
    ghost use Rattle.std.specs.Prelude.{◌≡◌, List};
    ghost use Rattle.pull_sessions.specs.declared.sas.Sa.{Sa};
    ghost use Rattle.pull_sessions.specs.Fits.{AllFit};
    ghost use Rattle.pull_sessions.specs.Sessions.{AreApart, cookies_of, members_of};

    ghost Value = { List Sa };

    ghost view = { λ sas. sas.list.items };

    ghost invariant = { λ sas. AreApart sas.list.items × (sas.cookies.keys ≡ cookies_of sas.list.items)
        × (sas.members.keys ≡ members_of sas.list.items) × AllFit sas.list.items };
}

impl Sas {
    /// No SA. It takes no memory.
    pub(crate) fn new(alloc: Global) -> Self
        ensures { result ≡ [] }
    {
        Sas {
            list: Vec::new(alloc),
            cookies: IndexSet::new(alloc),
            members: IndexSet::new(alloc),
        }
    }

    pub(crate) fn len(&self) -> usize
        ensures { result ≡ length self.now }
    {
        self.list.len()
    }

    /// Whether an SA has the cookies or the member of this one.
    pub(crate) fn has(&self, phase: &Phase1) -> bool
        ensures { result ≡ list_any (is_taken_by phase.now) self.now }
    {
        self.place_with(&phase.cookies).is_some() || self.place_of(&phase.member).is_some()
    }

    /// Puts an SA at the end that has cookies and a member of its own. All memory is taken before anything changes.
    pub(crate) fn push(&mut self, phase: Phase1) -> Result<(), NoMemory>
        requires { list_any (is_taken_by phase) self.old ≡ false }
        ensures ok { OnOk result (self.new ≡ self.old ++ new_sa phase ∷ []) }
        ensures err { OnErr result (self.new ≡ self.old) }
    {
        prove_phase_fits(&phase);
        self.list.reserve(1)?;
        self.cookies.reserve(1)?;
        self.members.reserve(1)?;
        let _ = self.cookies.insert(phase.cookies);
        let _ = self.members.insert(phase.member);
        self.list.push_reserved(Sa {
            phase,
            session: None,
        });
        Ok(())
    }

    /// The SA with these cookies.
    pub(crate) fn with_cookies(&self, cookies: &[u8; 16]) -> Option<&Sa>
        ensures { option_copied result ≡ sa_with self.now cookies.now }
    {
        let place = self.place_with(cookies)?;
        Some(&self.list[place])
    }

    /// The SA of a member.
    pub(crate) fn of(&self, member: &MemberName) -> Option<&Sa>
        ensures { option_copied result ≡ sa_of self.now member.now }
    {
        let place = self.place_of(member)?;
        Some(&self.list[place])
    }

    /// Gives the SA of a member this session.
    pub(crate) fn put(&mut self, member: &MemberName, session: Session)
        requires { SessionFits session }
        ensures { self.new ≡ put_sessions member.now (Some session) self.old }
    {
        self.replace(member, Some(session));
    }

    /// Takes the session of a member.
    pub(crate) fn take(&mut self, member: &MemberName) -> Option<Session>
        ensures had { result ≡ session_of self.old member.now }
        ensures none { self.new ≡ put_sessions member.now None self.old }
        ensures fits { IfSession result }
    {
        self.replace(member, None)
    }

    /// Gives the SA of a member this session, or none; answers the session that it had.
    fn replace(&mut self, member: &MemberName, session: Option<Session>) -> Option<Session>
        requires { IfSession session }
        ensures had { result ≡ session_of self.old member.now }
        ensures has { self.new ≡ put_sessions member.now session self.old }
        ensures fits { IfSession result }
    {
        match self.place_of(member) {
            Some(place) => replace_at(&mut self.list, place, session),
            None => None,
        }
    }

    /// Ends all sessions.
    pub(crate) fn end_sessions(&mut self)
        ensures { self.new ≡ sessions_ended self.old }
    {
        end_all(&mut self.list);
    }

    /// What the type keeps.
    pub(crate) fn prove_sound(&self)
        ensures apart { AreApart self.now }
        ensures fits { AllFit self.now }
    {
        let _ = self.list.len();
    }

    /// The place of the SA with these cookies.
    fn place_with(&self, cookies: &[u8; 16]) -> Option<usize>
        ensures { result ≡ position (has_cookies cookies.now) self.now }
    {
        self.cookies.get_index_of(cookies)
    }

    /// The place of the SA of a member.
    fn place_of(&self, member: &MemberName) -> Option<usize>
        ensures { result ≡ position (is_of member.now) self.now }
    {
        self.members.get_index_of(member)
    }
}

/// Gives the SA at a place this session, or none; answers the session that it had.
fn replace_at(sas: &mut Vec<Sa>, place: usize, session: Option<Session>) -> Option<Session>
    requires { place < length sas.old.items }
    ensures had { result ≡ (slice_index_or sas.old.items place no_sa).session }
    ensures has { sas.new.items ≡ with_session_at sas.old.items place session }
    ensures len { vec_len sas.new ≡ vec_len sas.old }
{
    mem::replace(&mut sas[place].session, session)
}

/// Ends all sessions.
fn end_all(sas: &mut Vec<Sa>)
    ensures { sas.new.items ≡ sessions_ended sas.old.items }
{
    for place in 0..sas.len() {
        replace_at(sas, place, None);
    }
}
