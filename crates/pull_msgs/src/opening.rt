//! The header of a message, and the text after it.
ghost use Rattle.std.specs.Prelude.{◌≡◌, ◌+◌, ◌≤◌, length, drop, IfOk};
ghost use Rattle.gd_cipher.specs.Chains.{IsOpened};
ghost use Rattle.gd_wire.specs.Headers.{HasPayloads};
ghost use Rattle.pull_msgs.specs.Pulls.{head, head_of};
ghost use Rattle.pull_msgs.specs.Texts.{next_iv};

use gd_cipher::{Key128, cbc_open};
use gd_wire::kinds::{HEADER_OCTETS, PULL};
use gd_wire::{Header, fault, read_header};
use group_terms::{NoMemory, Octets, Phase1, WireFault, WireWhat};
use std::alloc::Global;

/// The header of a pull, with the cookies of the phase 1 SA and the message id that is known.
#[tactic(auto, unfolding(crate::specs::Pulls::head))]
pub(crate) fn pull_header(
    datagram: &[u8],
    phase: &Phase1,
    known: Option<[u8; 4]>,
) -> Result<Header, WireFault>
    ensures answer { result ≡ head_of phase.now known datagram.now }
    ensures sizes { IfOk result (λ head. HasPayloads datagram.now) }
{
    let read = read_header(datagram, PULL)?;
    if read.cookies != phase.cookies {
        return Err(fault(WireWhat::Value, 0));
    }
    match known {
        Some(message) => {
            if read.message != message {
                return Err(fault(WireWhat::Value, 20));
            }
            Ok(read)
        }
        None => Ok(read),
    }
}

/// The text of a datagram after its header.
pub(crate) fn open(
    alloc: Global,
    datagram: &[u8],
    phase: &Phase1,
    iv: &[u8; 16],
) -> Result<Octets, NoMemory>
    requires { HasPayloads datagram.now }
    ensures opened { IfOk result (λ text. IsOpened phase.now.key iv.now (drop 28 datagram.now) text) }
    ensures few { IfOk result (λ text. 28 + length text ≤ 65507) }
{
    let mut text = Octets::copy_of(alloc, &datagram[HEADER_OCTETS..])?;
    cbc_open(&Key128::new(phase.key), iv, text.as_mut_slice());
    Ok(text)
}

/// The IV of the message after a datagram, which is the last block of that (RFC 2409 appendix B).
pub fn next_iv(datagram: &[u8]) -> [u8; 16]
    requires { 16 ≤ length datagram.now }
    ensures { result ≡ next_iv datagram.now }
{
    *datagram.last_chunk().unwrap()
}
