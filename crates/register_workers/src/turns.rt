//! What a turn takes in, and what it gives back.
ghost use Rattle.std.specs.Prelude.{◌≡◌};
ghost use Rattle.register_workers.specs.Private.Requests.{Tells, is_short};

use crate::requests::Request;
use epoch_board::BoardPass;
use group_model::{Answer, NoMemory, Octets, Refusal};
use std::alloc::Global;

/// A request, and a pass of the board, which is shown what was published.
#[derive(Drop)]
pub(crate) struct Turn {
    pub(crate) request: Request,
    pub(crate) reader: BoardPass,
}

/// The pass again, and what the worker is told of the answer.
#[derive(Drop)]
pub(crate) struct Turned {
    pub(crate) reader: BoardPass,
    pub(crate) told: Told,
}

/// What a worker is told of an answer, which is in the history.
#[derive(Drop)]
pub(crate) enum Told {
    /// A datagram was sent; this is a copy.
    Datagram { octets: Octets },
    /// None was.
    Nothing,
    /// Memory ran out, in the request or for the copy.
    NoMemory,
}

impl Told {
    /// Whether it is that memory ran out.
    pub(crate) fn is_short(&self) -> bool
        ensures { result ≡ is_short self.now }
    {
        matches!(self, Told::NoMemory)
    }
}

/// What a worker is told of an answer.
pub(crate) fn told_by(alloc: Global, answer: &Answer) -> Told
    ensures { Tells answer.now result }
{
    match answer {
        Answer::Datagram { octets, .. } => match Octets::copy_of(alloc, octets.as_slice()) {
            Ok(octets) => Told::Datagram { octets },
            Err(NoMemory) => Told::NoMemory,
        },
        Answer::Refused {
            why: Refusal::NoMemory,
        } => Told::NoMemory,
        _ => Told::Nothing,
    }
}
