//! A peer's pull (RFC 6407 section 3.2).
ghost use Rattle.std.specs.Prelude.{◌≡◌, ◌<◌, length, vec_capacity, vec_len, OnErr, OnOk};
ghost use Rattle.group_peers.specs.Private.Places.{BeginsAt, TakesAt};
ghost use Rattle.group_peers.specs.Pulls.{Begun, TakesDatagram};
ghost use Rattle.group_peers.specs.Private.Told.{IsPulledBy};

use crate::members::Peer;
use crate::pulled::Pulled;
use group_terms::{GroupName, Keyed, NoMemory};
use member_pull::{MemberPull, PullRefusal};
use std::alloc::Global;

/// The peer at this place begins a pull.
pub(crate) fn begin_at(
    alloc: Global,
    peers: &mut Vec<Peer>,
    place: usize,
    message: [u8; 4],
    ni: [u8; 16],
    group: &GroupName,
) -> Result<(), NoMemory>
    requires { place < length peers.old.items }
    ensures ok { OnOk result (BeginsAt message ni group.now peers.old.items place peers.new.items) }
    ensures err { OnErr result (peers.new.items ≡ peers.old.items) }
    ensures len { vec_len peers.new ≡ vec_len peers.old }
    ensures capacity { vec_capacity peers.new ≡ vec_capacity peers.old }
{
    begin(alloc, &mut peers[place], message, ni, group)
}

/// Gives a datagram to the pull of the peer at this place.
pub(crate) fn take_at(
    alloc: Global,
    peers: &mut Vec<Peer>,
    place: usize,
    datagram: &[u8],
) -> Result<Pulled, NoMemory>
    requires { place < length peers.old.items }
    ensures takes { TakesAt datagram.now peers.old.items place result peers.new.items }
    ensures len { vec_len peers.new ≡ vec_len peers.old }
    ensures capacity { vec_capacity peers.new ≡ vec_capacity peers.old }
{
    take(alloc, &mut peers[place], datagram)
}

/// Begins a pull, and sends its first message.
fn begin(
    alloc: Global,
    peer: &mut Peer,
    message: [u8; 4],
    ni: [u8; 16],
    group: &GroupName,
) -> Result<(), NoMemory>
    ensures ok { OnOk result (Begun message ni group.now peer.old peer.new) }
    ensures err { OnErr result (peer.new ≡ peer.old) }
{
    let begun = MemberPull::begin(alloc, peer.phase, message, ni, group)?;
    peer.pull = Some(begun.pull);
    peer.sent = Some(begun.datagram);
    Ok(())
}

/// Gives a datagram to the pull.
fn take(alloc: Global, peer: &mut Peer, datagram: &[u8]) -> Result<Pulled, NoMemory>
    ensures { TakesDatagram datagram.now peer.old result peer.new }
{
    let Some(pull) = &mut peer.pull else {
        return Ok(Pulled::Ignored);
    };
    match pull.second(alloc, datagram) {
        Ok(third) => {
            peer.sent = Some(third);
            Ok(Pulled::Sends)
        }
        Err(PullRefusal::WrongStep) => told(pull.fourth(alloc, datagram)),
        Err(PullRefusal::NoMemory) => Err(NoMemory),
        Err(_) => Ok(Pulled::Ignored),
    }
}

/// What comes of a datagram that was given as a fourth message.
fn told(answer: Result<Keyed, PullRefusal>) -> Result<Pulled, NoMemory>
    ensures { IsPulledBy answer result }
{
    match answer {
        Ok(keyed) => Ok(Pulled::Told { keyed }),
        Err(PullRefusal::NoMemory) => Err(NoMemory),
        Err(_) => Ok(Pulled::Ignored),
    }
}
