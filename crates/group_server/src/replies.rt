//! What the server gives.
ghost use Rattle.std.specs.Prelude.{◌≡◌};
ghost use Rattle.group_server.specs.Answers.{answer_reply};
ghost use Rattle.server_steps.specs.Pulls.{answer_kept};

use crate::GroupServer;
use gd_disk::Disk;
use gd_edges::{Draws, Signer};
use group_model::{Octets, PushPair, SymReply};
use pull_sessions::Kept;

/// What is answered to a datagram.
#[derive(Drop)]
pub enum Reply {
    /// A message of the pull; of a fourth message also what it says by key names.
    Datagram {
        octets: Octets,
        names: Option<SymReply>,
    },
    /// The join waits for the next batch.
    Queued,
}

/// A server that was opened, and the pair of its last batch, where that one sent a pair.
#[derive(Drop)]
pub struct ServerOpened<D: Disk, G: Signer, R: Draws> {
    pub server: GroupServer<D, G, R>,
    pub resent: Option<PushPair>,
}

/// What was answered is answered again.
pub(crate) fn reply_of(kept: Kept) -> Reply
    ensures { answer_reply result ≡ answer_kept kept }
{
    match kept {
        Kept::Datagram { octets, names } => Reply::Datagram { octets, names },
        Kept::Queued => Reply::Queued,
    }
}
