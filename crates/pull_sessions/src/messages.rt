//! How a session goes on.
ghost use Rattle.std.specs.Prelude.{◌≡◌, ◌≤◌, length, Some};
ghost use Rattle.pull_msgs.specs.declared.messages.First.{First};
ghost use Rattle.pull_sessions.specs.Builds.{begun_session, octets_of, session_after_third, settled_session, step_after, third_held};

use crate::answers::{Kept, Step};
use crate::sas::Session;
use group_terms::Octets;
use pull_msgs::{First, Nonce, Third, next_iv};

impl Session {
    /// The session that a first message begins, with this answer to it.
    pub(crate) fn begin(first: First, nr: Nonce, datagram: Octets, kept: Kept) -> Self
        requires { 16 ≤ length (octets_of kept) }
        ensures { result ≡ begun_session first nr datagram kept }
    {
        let First {
            message,
            ni,
            next_iv: block,
            ..
        } = first;
        let iv = match &kept {
            Kept::Datagram { octets, .. } => next_iv(octets.as_slice()),
            Kept::Queued => block,
        };
        Session {
            last: datagram,
            kept,
            message,
            ni,
            nr,
            iv,
            step: Step::AwaitsThird,
        }
    }

    /// It takes its third message, with this answer to it.
    pub(crate) fn take_third(self, third: Third, datagram: Octets, kept: Kept) -> Self
        ensures { result ≡ session_after_third self third datagram kept }
    {
        let step = step_after(&kept);
        let iv = third.next_iv;
        let mut session = self;
        session.last = datagram;
        session.kept = kept;
        session.iv = iv;
        session.step = step;
        session
    }

    /// It has its fourth message.
    pub(crate) fn settle(self, kept: Kept) -> Self
        ensures { result ≡ settled_session self kept }
    {
        let mut session = self;
        session.kept = kept;
        session.step = Step::Done;
        session
    }

    /// Its third message, if it awaits the next batch.
    pub(crate) fn held_third(&self) -> Option<Third>
        ensures { result ≡ third_held self.now }
    {
        match self.step {
            Step::Queued => Some(Third { next_iv: self.iv }),
            Step::AwaitsThird => None,
            Step::Done => None,
        }
    }
}

/// What a session awaits after this answer to its third message.
fn step_after(kept: &Kept) -> Step
    ensures { result ≡ step_after kept.now }
{
    match kept {
        Kept::Datagram { .. } => Step::Done,
        Kept::Queued => Step::Queued,
    }
}
