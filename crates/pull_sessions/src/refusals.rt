//! Why a datagram or an SA is refused.
ghost use Rattle.std.specs.Prelude.{◌≡◌};
ghost use Rattle.pull_sessions.specs.Looks.{why_not_read};
ghost use Rattle.pull_sessions.specs.declared.refusals.SessionRefusal.TheVariants as refusals;

use group_terms::NoMemory;
use pull_msgs::PullFault;
use std::fmt;
use thiserror::Error;

/// Why a datagram or an SA is refused. Nothing changes.
#[derive(Clone, Copy, PartialEq, Eq, Error)]
pub enum SessionRefusal {
    /// The header is not that of a pull (`message` 0), or the opened text is not that message (1 or 3); `at` is the place of the first fault.
    #[error("octet {at}: malformed header or message {message}")]
    Malformed {
        message: u8,
        at: u32,
    },
    /// No SA has these cookies.
    #[error("no SA has these cookies")]
    UnknownPeer,
    /// The session with this message id awaits no message.
    #[error("the session awaits no message")]
    WrongStep,
    /// The message carries another HASH than is due.
    #[error("another HASH than is due")]
    BadHash {
        carried: [u8; 32],
        expected: [u8; 32],
    },
    /// The cookies or the member were introduced already.
    #[error("the cookies or the member were introduced already")]
    PhaseTaken,
    /// As many SAs are introduced as there may be.
    #[error("{held} SAs are introduced")]
    PhaseFull {
        held: u32,
    },
    /// Out of memory.
    #[error("no memory")]
    NoMemory,
}

impl fmt::Debug for SessionRefusal {
    ghost use Rattle.pull_sessions.specs.Shown.{shown_refusal};

    ghost debug_output = { shown_refusal };

    fn fmt<W: fmt::Write>(&self, f: &mut fmt::Formatter<W>) -> fmt::Result {
        match self {
            SessionRefusal::Malformed { message, at } => f
                .debug_struct("Malformed")
                .field("message", message)
                .field("at", at)
                .finish(),
            SessionRefusal::UnknownPeer => f.write_str("UnknownPeer"),
            SessionRefusal::WrongStep => f.write_str("WrongStep"),
            SessionRefusal::BadHash { .. } => f.write_str("BadHash { .. }"),
            SessionRefusal::PhaseTaken => f.write_str("PhaseTaken"),
            SessionRefusal::PhaseFull { held } => {
                f.debug_struct("PhaseFull").field("held", held).finish()
            }
            SessionRefusal::NoMemory => f.write_str("NoMemory"),
        }
    }
}

impl From<NoMemory> for SessionRefusal {
    ghost from_gives = { λ _ refusal. refusal ≡ refusals.NoMemory };

    fn from(_: NoMemory) -> Self {
        SessionRefusal::NoMemory
    }
}

/// Why a message, the first or the third, is refused that was read with this fault.
pub(crate) fn why_not_read(message: u8, fault: PullFault) -> SessionRefusal
    ensures { result ≡ why_not_read message fault }
{
    match fault {
        PullFault::Malformed { fault } => SessionRefusal::Malformed {
            message,
            at: fault.at,
        },
        PullFault::BadHash { carried, expected } => SessionRefusal::BadHash { carried, expected },
        PullFault::NoMemory => SessionRefusal::NoMemory,
    }
}
