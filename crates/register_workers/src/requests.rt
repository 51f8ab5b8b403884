//! What a turn asks of the key server.
ghost use Rattle.std.specs.Prelude.{◌≡◌};
ghost use Rattle.server_steps.specs.Serves.{Serves};
ghost use Rattle.register_workers.specs.Private.Requests.{asked_of};

use gd_disk::Disk;
use gd_edges::{Draws, Signer};
use group_model::{Answer, Asked, MemberName, Octets};
use group_server::{GroupServer, answer_batch, answer_served};
use server_steps::answer_done;
use std::alloc::Global;

/// What is asked.
#[derive(Drop)]
pub(crate) enum Request {
    /// To answer a datagram of this member.
    Serve {
        member: MemberName,
        datagram: Octets,
    },
    /// To take a member out with the next batch.
    Leave {
        member: MemberName,
    },
    /// To close the batch.
    Batch,
}

impl Request {
    /// The request as the history has it. It takes no memory.
    pub(crate) fn into_asked(self) -> Asked
        ensures { result ≡ asked_of self }
    {
        match self {
            Request::Serve { member, datagram } => Asked::Serve { member, datagram },
            Request::Leave { member } => Asked::Leave { member },
            Request::Batch => Asked::Batch,
        }
    }
}

/// Has the server serve a request.
pub(crate) fn served<D: Disk, G: Signer, R: Draws>(
    alloc: Global,
    server: &mut GroupServer<D, G, R>,
    request: &Request,
) -> Answer
    ensures { Serves D.Disk G.Signer R.Draws (asked_of request.now) result server.old server.new }
{
    match request {
        Request::Serve { datagram, .. } => {
            answer_served(server.serve(alloc, datagram.as_slice()))
        }
        Request::Leave { member } => answer_done(server.leave(member)),
        Request::Batch => answer_batch(server.batch(alloc)),
    }
}
