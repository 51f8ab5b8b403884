//! The datagram of a message while it is written, in one list of octets, in which it is hashed and sealed too.
ghost use Rattle.std.specs.Prelude.{◌≡◌, ◌+◌, ◌-◌, ◌%◌, ◌≤◌, ◌++◌, ℕ, List, length, take, drop, IfOk};
ghost use Rattle.gd_cipher.specs.Chains.{IsSealed};
ghost use Rattle.pull_msgs.specs.Private.Drafts.{before_covered, draft_text};
ghost use Rattle.pull_msgs.specs.Texts.{Message, IsPullText};

use crate::fits::prove_phase_fits;
use crate::hashes::hash_of;
use gd_cipher::{Key128, cbc_seal};
use gd_wire::kinds::{BLOCK_OCTETS, HASH, HASH_OCTETS, HEADER_OCTETS, PAYLOAD_HEAD_OCTETS, PULL};
use gd_wire::{Header, write_header, write_padding, write_payload};
use group_terms::{NoMemory, Octets, Phase1};
use std::alloc::Global;

/// The place of the HASH, and of what it covers.
const HASH_AT: usize = HEADER_OCTETS + PAYLOAD_HEAD_OCTETS;

const COVERED_AT: usize = HASH_AT + HASH_OCTETS;

/// Begins the datagram of a message, up to the payloads after the HASH. They begin with one of this kind, and will have `size` octets; the
/// HASH is put in its place when they are there.
pub(crate) fn begin(
    alloc: Global,
    phase: &Phase1,
    message: &[u8; 4],
    next: u8,
    size: usize,
) -> Result<Octets, NoMemory>
    requires { size ≤ 65000 }
    ensures text { IfOk result (λ out. out ≡ before_covered phase.now message.now next size) }
    ensures long { IfOk result (λ out. length out ≡ 64) }
{
    prove_phase_fits(phase);
    let payloads = PAYLOAD_HEAD_OCTETS + HASH_OCTETS + size;
    let size = payloads + (BLOCK_OCTETS - payloads % BLOCK_OCTETS) % BLOCK_OCTETS;
    let header = Header {
        cookies: phase.cookies,
        next: HASH,
        exchange: PULL,
        message: *message,
        length: (HEADER_OCTETS + size) as u32,
    };
    let mut out = Octets::with_room(alloc, HEADER_OCTETS + size)?;
    out.extend(&write_header(&header))?;
    write_payload(next, &[0; HASH_OCTETS], &mut out)?;
    Ok(out)
}

/// Puts the HASH in its place, appends zeros up to the end of a block, and seals all after the header.
pub(crate) fn finish(
    out: Octets,
    phase: &Phase1,
    message: &[u8; 4],
    iv: &[u8; 16],
    ni: &[u8],
    nr: &[u8],
) -> Result<Octets, NoMemory>
    requires { 64 ≤ length out }
    ensures { IfOk result (λ datagram. (said : Message) → said.message ≡ message.now → said.nonces ≡ ni.now ++ nr.now →
        out ≡ draft_text phase.now said → IsPullText phase.now iv.now said datagram) }
{
    prove_phase_fits(phase);
    let mut out = out;
    let (_, covered) = out.as_slice().split_at(COVERED_AT);
    let hash = hash_of(phase, message, ni, nr, covered);
    put_hash(&hash, &mut out);
    write_padding(&mut out)?;
    seal(&mut out, &phase.key, iv);
    Ok(out)
}

/// Puts the HASH in its place.
fn put_hash(hash: &[u8; 32], out: &mut Octets)
    requires { 64 ≤ length out.old }
    ensures { out.new ≡ take 32 out.old ++ (hash.now ++ drop 64 out.old) }
{
    out.as_mut_slice()[HASH_AT..COVERED_AT].copy_from_slice(hash);
}

/// Seals all after the header, in place.
fn seal(out: &mut Octets, key: &[u8; 16], iv: &[u8; 16])
    requires long { 28 ≤ length out.old }
    requires whole { (length out.old - 28) % 16 ≡ 0 }
    ensures { (sealed : List ℕ) × IsSealed key.now iv.now (drop 28 out.old) sealed × (out.new ≡ take 28 out.old ++ sealed) }
{
    let (_, text) = out.as_mut_slice().split_at_mut(HEADER_OCTETS);
    cbc_seal(&Key128::new(*key), iv, text);
}
