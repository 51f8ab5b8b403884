//! Writing a push.
ghost use Rattle.std.specs.Prelude.{◌≤◌, length, IfOk};
ghost use Rattle.push_msg.specs.Texts.{membership_push, traffic_push, IsPushText};
ghost use Rattle.push_msg.specs.Written.{KindFits};

use crate::drafts::{begin, finish, plain_size};
use gd_edges::Signer;
use group_terms::{NoMemory, NodeValue, Octets, TrafficValue};
use kd_wire::{
    prove_spi_fits, prove_traffic_fits, traffic_kd_size, update_kd_size, write_traffic_kd,
    write_update_kd,
};
use sa_wire::{KekPolicy, SaPolicy, TekPolicy};
use std::alloc::Global;

/// What both pushes begin with: the SPI of the Rekey SA, and the number of this push.
#[derive(Clone, Copy, PartialEq, Eq)]
pub struct PushHead {
    pub spi: [u8; 16],
    pub sequence: u32,
}

/// The membership push (RFC 6407 section 4): new keys of the tree, in a text of update attributes of at most 64,000 octets, encrypted under
/// this KEK with its IV. Members take it where the keys were all made in one epoch and one of them is the root's.
pub fn write_membership<G: Signer>(
    alloc: Global,
    head: &PushHead,
    arrays: &[u8],
    kek: &NodeValue,
    signer: &G,
) -> Result<Octets, NoMemory>
    requires { length arrays.now ≤ 64000 }
    ensures text { IfOk result (λ datagram. IsPushText (G.signature signer.now) (G.size_of signer.now) kek.now
        (membership_push head.now (G.kind_of signer.now) arrays.now) datagram) }
    ensures kind { IfOk result (λ datagram. KindFits (G.kind_of signer.now)) }
{
    prove_spi_fits(&head.spi);
    let policy = SaPolicy {
        kek: Some(KekPolicy {
            spi: head.spi,
            sign: signer.kind(),
        }),
        tek: None,
    };
    let keys = update_kd_size(0) + arrays.len();
    let size = plain_size(&policy, keys, signer.size());
    let mut out = begin(alloc, head, &policy, keys, size)?;
    write_update_kd(&head.spi, arrays, &mut out)?;
    Ok(finish(out, kek, signer)?)
}

/// The traffic push (RFC 6407 section 4): the traffic key, encrypted under this KEK, with its IV.
pub fn write_traffic<G: Signer>(
    alloc: Global,
    head: &PushHead,
    traffic: &TrafficValue,
    kek: &NodeValue,
    signer: &G,
) -> Result<Octets, NoMemory>
    ensures { IfOk result (λ datagram. IsPushText (G.signature signer.now) (G.size_of signer.now) kek.now
        (traffic_push head.now traffic.now) datagram) }
{
    prove_spi_fits(&head.spi);
    prove_traffic_fits(traffic);
    let policy = SaPolicy {
        kek: None,
        tek: Some(TekPolicy { spi: traffic.spi }),
    };
    let keys = traffic_kd_size(traffic);
    let size = plain_size(&policy, keys, signer.size());
    let mut out = begin(alloc, head, &policy, keys, size)?;
    write_traffic_kd(traffic, &mut out)?;
    Ok(finish(out, kek, signer)?)
}
