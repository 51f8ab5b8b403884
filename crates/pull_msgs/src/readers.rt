//! Reading the messages of a pull. A `match` takes apart what was read: the prover does not follow through `?` what borrows and holds a nonce.
ghost use Rattle.std.specs.Prelude.{◌≡◌, IfOk, IsSome};
ghost use Rattle.pull_msgs.specs.Readings as readings;
ghost use Rattle.pull_msgs.specs.Pulls.{IsAnswer, first_awaited, second_awaited, third_awaited, fourth_awaited};

use crate::faults::PullFault;
use crate::hashes::{due_hash, hash_of};
use crate::messages::{First, Second, Third};
use crate::nonces::Nonce;
use crate::opening::{next_iv, open, pull_header};
use crate::reading;
use gd_cipher::phase2_iv;
use group_terms::{Keyed, Octets, Path, Phase1};
use std::alloc::Global;

/// Reads the member's first message.
///
/// `Malformed`, with the first fault, where the header is not that of a pull with the cookies of the phase 1 SA, or the octets after it are
/// not opened as the payloads of the message; `BadHash` where they are, but carry another HASH than is due.
pub fn read_first(alloc: Global, datagram: &[u8], phase: &Phase1) -> Result<First, PullFault>
    ensures { IsAnswer phase.now (first_awaited phase.now) datagram.now result }
{
    let head = pull_header(datagram, phase, None)?;
    let iv = phase2_iv(&phase.last, &head.message);
    let text = open(alloc, datagram, phase, &iv)?;
    let read = match reading::read_first(text.as_slice(), head.next) {
        Ok(read) => read,
        Err(fault) => return Err(PullFault::Malformed { fault }),
    };
    let due = hash_of(phase, &head.message, &[], &[], read.covered);
    due_hash(read.hash, due)?;
    let id = Octets::copy_of(alloc, read.said.id.octets)?;
    Ok(First {
        message: head.message,
        ni: read.said.ni,
        id_type: read.said.id.id_type,
        id,
        next_iv: next_iv(datagram),
    })
}

/// Reads the server's answer to a message with this id and this nonce; refused as the first message is, and `Malformed` also where the
/// message id is another one.
pub fn read_second(
    alloc: Global,
    datagram: &[u8],
    phase: &Phase1,
    message: &[u8; 4],
    iv: &[u8; 16],
    ni: &Nonce,
) -> Result<Second, PullFault>
    ensures answer { IsAnswer phase.now (second_awaited message.now iv.now ni.now) datagram.now result }
    ensures policies { IfOk result (λ second. IsSome second.policy.kek × IsSome second.policy.tek) }
{
    let head = pull_header(datagram, phase, Some(*message))?;
    let text = open(alloc, datagram, phase, iv)?;
    let read = match reading::read_second(text.as_slice(), head.next) {
        Ok(read) => read,
        Err(fault) => return Err(PullFault::Malformed { fault }),
    };
    let due = hash_of(phase, &head.message, ni.octets(), &[], read.covered);
    due_hash(read.hash, due)?;
    Ok(Second {
        nr: read.said.nr,
        policy: read.said.policy,
        next_iv: next_iv(datagram),
    })
}

/// Reads the member's agreement in a pull with these nonces; refused as the second message is.
pub fn read_third(
    alloc: Global,
    datagram: &[u8],
    phase: &Phase1,
    message: &[u8; 4],
    iv: &[u8; 16],
    ni: &Nonce,
    nr: &Nonce,
) -> Result<Third, PullFault>
    ensures { IsAnswer phase.now (third_awaited message.now iv.now ni.now nr.now) datagram.now result }
{
    let head = pull_header(datagram, phase, Some(*message))?;
    let text = open(alloc, datagram, phase, iv)?;
    let read = match reading::read_third(text.as_slice(), head.next) {
        Ok(read) => read,
        Err(fault) => return Err(PullFault::Malformed { fault }),
    };
    let due = hash_of(phase, &head.message, ni.octets(), nr.octets(), read.covered);
    due_hash(read.hash, due)?;
    Ok(Third {
        next_iv: next_iv(datagram),
    })
}

/// Reads the server's keys in a pull with these nonces, for the Rekey SA with this SPI; refused as the second message is, and `Malformed`
/// also where the keys are for another SPI.
pub fn read_fourth(
    alloc: Global,
    datagram: &[u8],
    phase: &Phase1,
    message: &[u8; 4],
    iv: &[u8; 16],
    ni: &Nonce,
    nr: &Nonce,
    spi: &[u8; 16],
) -> Result<Keyed, PullFault>
    ensures { IsAnswer phase.now (fourth_awaited message.now iv.now ni.now nr.now spi.now) datagram.now result }
{
    let head = pull_header(datagram, phase, Some(*message))?;
    let text = open(alloc, datagram, phase, iv)?;
    let read = match reading::read_fourth(spi, text.as_slice(), head.next) {
        Ok(read) => read,
        Err(fault) => return Err(PullFault::Malformed { fault }),
    };
    let due = hash_of(phase, &head.message, ni.octets(), nr.octets(), read.covered);
    due_hash(read.hash, due)?;
    let said = read.said;
    Ok(Keyed {
        epoch: root_made(&said.path),
        sequence: said.sequence,
        spi: said.spi,
        path: said.path,
        traffic: said.traffic,
    })
}

/// The epoch in which the last key of a path was made.
fn root_made(path: &Path) -> u32
    ensures { result ≡ readings.root_made path.now }
{
    match path.keys().last() {
        Some(root) => root.made,
        None => 0,
    }
}
