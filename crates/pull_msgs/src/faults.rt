//! Why a datagram is no message of a pull.
ghost use Rattle.std.specs.Prelude.{◌≡◌};
ghost use Rattle.pull_msgs.specs.declared.faults.PullFault.TheVariants as faults;

use group_terms::{NoMemory, WireFault};
use std::fmt;
use thiserror::Error;

/// Why a message of a pull is not read.
#[derive(Clone, Copy, PartialEq, Eq, Error)]
pub enum PullFault {
    /// The opened datagram is not the text of that message; its first fault.
    #[error("no text of the message: {fault}")]
    Malformed {
        fault: WireFault,
    },
    /// It is one, but carries another HASH than is due.
    #[error("another HASH than is due")]
    BadHash {
        carried: [u8; 32],
        expected: [u8; 32],
    },
    /// Out of memory for the opened text, or for what the answer keeps of it.
    #[error("no memory")]
    NoMemory,
}

impl fmt::Debug for PullFault {
    ghost use Rattle.pull_msgs.specs.Shown.{shown_fault};

    ghost debug_output = { shown_fault };

    fn fmt<W: fmt::Write>(&self, f: &mut fmt::Formatter<W>) -> fmt::Result {
        match self {
            PullFault::Malformed { fault } => f
                .debug_struct("Malformed")
                .field("fault", fault)
                .finish(),
            PullFault::BadHash { .. } => f.write_str("BadHash { .. }"),
            PullFault::NoMemory => f.write_str("NoMemory"),
        }
    }
}

impl From<WireFault> for PullFault {
    ghost from_gives = { λ fault answer. answer ≡ faults.Malformed fault };

    fn from(fault: WireFault) -> Self {
        PullFault::Malformed { fault }
    }
}

impl From<NoMemory> for PullFault {
    ghost from_gives = { λ _ answer. answer ≡ faults.NoMemory };

    fn from(_: NoMemory) -> Self {
        PullFault::NoMemory
    }
}
