//! What a datagram is, and what was answered to it.
ghost use Rattle.std.specs.Prelude.{◌≡◌, IfOk};

use group_model::SymReply;
use group_terms::{List, MemberName, NoMemory, Octets};
use pull_msgs::{First, Third};
use std::alloc::Global;

/// What was answered to a datagram that was taken.
#[derive(Drop)]
pub enum Kept {
    /// A message of the pull; of a fourth message also what it says by key names.
    Datagram {
        octets: Octets,
        names: Option<SymReply>,
    },
    /// The join waits for the next batch.
    Queued,
}

/// What a session awaits.
#[derive(Clone, Copy, PartialEq, Eq)]
pub enum Step {
    /// The third message: the second one was sent.
    AwaitsThird,
    /// The next batch: the third message came from a non-member, whose join waits for it.
    Queued,
    /// Nothing: the fourth message was made.
    Done,
}

/// What a datagram is, and whose.
#[derive(Drop)]
pub struct Looked {
    pub member: MemberName,
    pub what: LookedAt,
}

#[derive(Drop)]
pub enum LookedAt {
    /// The one that the session took last; what was answered then.
    Repeat { kept: Kept },
    /// A first message, which begins a session.
    NewFirst { first: First },
    /// The third message that the session awaits.
    NextThird { third: Third },
}

impl Kept {
    /// A copy.
    pub(crate) fn copy(&self, alloc: Global) -> Result<Self, NoMemory>
        ensures { IfOk result (λ copy. copy ≡ self.now) }
    {
        match self {
            Kept::Datagram { octets, names } => Ok(Kept::Datagram {
                octets: Octets::copy_of(alloc, octets.as_slice())?,
                names: copy_of_names(alloc, names)?,
            }),
            Kept::Queued => Ok(Kept::Queued),
        }
    }
}

fn copy_of_names(alloc: Global, names: &Option<SymReply>) -> Result<Option<SymReply>, NoMemory>
    ensures { IfOk result (λ copy. copy ≡ names.now) }
{
    match names {
        Some(reply) => Ok(Some(copy_of_reply(alloc, reply)?)),
        None => Ok(None),
    }
}

/// A copy of what a reply says. `NoMemory`.
pub fn copy_of_reply(alloc: Global, reply: &SymReply) -> Result<SymReply, NoMemory>
    ensures { IfOk result (λ copy. copy ≡ reply.now) }
{
    Ok(SymReply {
        member: reply.member,
        keyed_epoch: reply.keyed_epoch,
        sequence: reply.sequence,
        names: List::copy_of(alloc, reply.names.as_slice())?,
    })
}
