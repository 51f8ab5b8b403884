//! Why an SA or a datagram is refused.
ghost use Rattle.std.specs.Prelude.{◌≡◌};
ghost use Rattle.server_steps.specs.Pulls.{answer_introduced};
ghost use Rattle.server_steps.specs.Refusals.{names_group, refusal_of};
ghost use Rattle.server_steps.specs.Serves.{answer_done};

use group_model::Refusal;
use group_terms::GroupName;
use pull_sessions::{First, SessionRefusal};

/// The type of an identification that is the octets of a key id (RFC 2407 section 4.6.2.1).
const KEY_ID: u8 = 11;

/// The same reason, as the server's.
pub(crate) fn refusal_of(why: SessionRefusal) -> Refusal
    ensures { result ≡ refusal_of why }
{
    match why {
        SessionRefusal::Malformed { message, at } => Refusal::Malformed { message, at },
        SessionRefusal::UnknownPeer => Refusal::UnknownPeer,
        SessionRefusal::WrongStep => Refusal::WrongStep,
        SessionRefusal::BadHash { carried, expected } => Refusal::BadHash { carried, expected },
        SessionRefusal::PhaseTaken => Refusal::PhaseTaken,
        SessionRefusal::PhaseFull { held } => Refusal::PhaseFull { held },
        SessionRefusal::NoMemory => Refusal::NoMemory,
    }
}

/// What an introduction came to, with the same reason against it.
pub(crate) fn introduced(done: Result<(), SessionRefusal>) -> Result<(), Refusal>
    ensures { answer_done result ≡ answer_introduced done }
{
    match done {
        Ok(()) => Ok(()),
        Err(why) => Err(refusal_of(why)),
    }
}

/// Whether the identification of a first message is the name of the group.
pub(crate) fn names_group(first: &First, group: &GroupName) -> bool
    ensures { result ≡ names_group group.now first.now }
{
    first.id_type == KEY_ID && first.id.as_slice() == group.text()
}
