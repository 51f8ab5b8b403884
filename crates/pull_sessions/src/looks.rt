//! What a datagram is to an SA.
ghost use Rattle.pull_sessions.specs.Looks.{IsAgain, IsByState, IsReadAsFirst, IsReadAsThird};

use crate::answers::{Looked, LookedAt, Step};
use crate::refusals::{SessionRefusal, why_not_read};
use crate::sas::{Sa, Session};
use gd_wire::Header;
use group_terms::Phase1;
use pull_msgs::{read_first, read_third};
use std::alloc::Global;

/// Finds out what a datagram with this header is, whose cookies are those of the SA.
pub(crate) fn look_under(
    alloc: Global,
    sa: &Sa,
    head: &Header,
    datagram: &[u8],
) -> Result<Looked, SessionRefusal>
    ensures { IsByState sa.now.session sa.now.phase head.now datagram.now result }
{
    let Some(session) = &sa.session else {
        return look_at_first(alloc, &sa.phase, datagram);
    };
    if datagram == session.last.as_slice() {
        return look_again(alloc, &sa.phase, session);
    }
    if head.message != session.message {
        return look_at_first(alloc, &sa.phase, datagram);
    }
    match session.step {
        Step::AwaitsThird => look_at_third(alloc, &sa.phase, session, datagram),
        Step::Queued => Err(SessionRefusal::WrongStep),
        Step::Done => Err(SessionRefusal::WrongStep),
    }
}

/// What was answered to the datagram that the session took last.
fn look_again(alloc: Global, phase: &Phase1, session: &Session) -> Result<Looked, SessionRefusal>
    ensures { IsAgain phase.now session.now result }
{
    let kept = session.kept.copy(alloc)?;
    Ok(Looked {
        member: phase.member,
        what: LookedAt::Repeat { kept },
    })
}

/// Reads a datagram as a first message.
fn look_at_first(alloc: Global, phase: &Phase1, datagram: &[u8]) -> Result<Looked, SessionRefusal>
    ensures { IsReadAsFirst phase.now datagram.now result }
{
    match read_first(alloc, datagram, phase) {
        Ok(first) => Ok(Looked {
            member: phase.member,
            what: LookedAt::NewFirst { first },
        }),
        Err(fault) => Err(why_not_read(1, fault)),
    }
}

/// Reads a datagram as the third message that a session awaits.
fn look_at_third(
    alloc: Global,
    phase: &Phase1,
    session: &Session,
    datagram: &[u8],
) -> Result<Looked, SessionRefusal>
    ensures { IsReadAsThird phase.now session.now datagram.now result }
{
    let Session {
        message,
        ni,
        nr,
        iv,
        ..
    } = session;
    match read_third(alloc, datagram, phase, message, iv, ni, nr) {
        Ok(third) => Ok(Looked {
            member: phase.member,
            what: LookedAt::NextThird { third },
        }),
        Err(fault) => Err(why_not_read(3, fault)),
    }
}
