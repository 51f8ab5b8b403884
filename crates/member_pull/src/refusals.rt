//! Why a member does not take a message of its pull.
ghost use Rattle.std.specs.Prelude.{◌≡◌};
ghost use Rattle.member_pull.specs.Pulls.{refusal_of};
ghost use Rattle.member_pull.specs.declared.refusals.PullRefusal.TheVariants as refusals;

use group_terms::NoMemory;
use pull_msgs::PullFault;
use std::fmt;
use thiserror::Error;

/// Why a message is not taken. The pull is as it was.
#[derive(Clone, Copy, PartialEq, Eq, Error)]
pub enum PullRefusal {
    /// The pull does not wait for that message.
    #[error("the pull does not wait for this message")]
    WrongStep,
    /// The opened datagram is not the text of that message; the first fault is at this place in the datagram.
    #[error("octet {at}: no text of the message")]
    Malformed {
        at: u32,
    },
    /// It is one, but carries another HASH than is due.
    #[error("another HASH than is due")]
    BadHash {
        carried: [u8; 32],
        expected: [u8; 32],
    },
    /// Out of memory for the text, or for the answer.
    #[error("no memory")]
    NoMemory,
}

impl fmt::Debug for PullRefusal {
    ghost use Rattle.member_pull.specs.Shown.{shown_refusal};

    ghost debug_output = { shown_refusal };

    fn fmt<W: fmt::Write>(&self, f: &mut fmt::Formatter<W>) -> fmt::Result {
        match self {
            PullRefusal::WrongStep => f.write_str("WrongStep"),
            PullRefusal::Malformed { at } => f.debug_struct("Malformed").field("at", at).finish(),
            PullRefusal::BadHash { .. } => f.write_str("BadHash { .. }"),
            PullRefusal::NoMemory => f.write_str("NoMemory"),
        }
    }
}

impl From<PullFault> for PullRefusal {
    ghost from_gives = { λ fault refusal. refusal ≡ refusal_of fault };

    fn from(fault: PullFault) -> Self {
        match fault {
            PullFault::Malformed { fault } => PullRefusal::Malformed { at: fault.at },
            PullFault::BadHash { carried, expected } => PullRefusal::BadHash { carried, expected },
            PullFault::NoMemory => PullRefusal::NoMemory,
        }
    }
}

impl From<NoMemory> for PullRefusal {
    ghost from_gives = { λ _ refusal. refusal ≡ refusals.NoMemory };

    fn from(_: NoMemory) -> Self {
        PullRefusal::NoMemory
    }
}
