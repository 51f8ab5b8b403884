//! The datagram of a push while it is written, in one list of octets, in which it is sealed too.
ghost use Rattle.std.specs.Prelude.{◌≡◌, ◌-◌, ◌%◌, ◌≤◌, ◌++◌, ◌⊎◌, ℕ, List, length, take, drop, replicate, OnOk, IfOk, IsSome};
ghost use Rattle.gd_cipher.specs.Chains.{IsSealed};
ghost use Rattle.gd_wire.specs.Chains.{payload_text};
ghost use Rattle.gd_wire.specs.Headers.{header_text};
ghost use Rattle.group_terms.specs.Octets.{AreOctets};
ghost use Rattle.push_msg.specs.Texts.{Push, plain_text, signed_text, push_header, IsPushText};
ghost use Rattle.push_msg.specs.Private.Drafts.{IsBegun};
ghost use Rattle.sa_wire.specs.Texts.{PolicyFits};

use crate::digests::digest;
use crate::writers::PushHead;
use gd_cipher::{Key128, cbc_seal};
use gd_edges::Signer;
use gd_wire::kinds::{
    BLOCK_OCTETS, HEADER_OCTETS, KD, PAYLOAD_HEAD_OCTETS, PUSH, SA, SEQUENCE, SEQUENCE_OCTETS,
    SIGNATURE,
};
use gd_wire::{
    Header, a_payload_is_its_head_and_its_body, prove_are_octets, write_header, write_padding,
    write_payload, write_payload_head, write_sequence,
};
use group_terms::{NoMemory, NodeValue, Octets};
use sa_wire::{SaPolicy, sa_size, write_sa, written_policies_have_their_size};
use std::alloc::Global;

/// How many octets the payloads have, up to the end of the last block.
pub(crate) fn plain_size(policy: &SaPolicy, keys: usize, signature: usize) -> usize
    requires keys { keys ≤ 65000 }
    requires signature { signature ≤ 512 }
    ensures size { (push : Push) (octets : List ℕ) → PolicyFits policy.now → push.policy ≡ policy.now → length push.keys ≡ keys →
        length octets ≡ signature → result ≡ length (plain_text push octets) }
    ensures few { result ≤ 65700 }
{
    let bodies = SEQUENCE_OCTETS + sa_size(policy) + keys + signature;
    let octets = 4 * PAYLOAD_HEAD_OCTETS + bodies;
    octets + (BLOCK_OCTETS - octets % BLOCK_OCTETS) % BLOCK_OCTETS
}

/// Begins the datagram of a push, up to the body of its key download, which will have `keys` octets. After its header the datagram will
/// have `size` octets.
pub(crate) fn begin(
    alloc: Global,
    head: &PushHead,
    policy: &SaPolicy,
    keys: usize,
    size: usize,
) -> Result<Octets, NoMemory>
    requires some { IsSome policy.now.kek ⊎ IsSome policy.now.tek }
    requires keys { keys ≤ 65000 }
    requires size { size ≤ 65700 }
    ensures { IfOk result (λ out. (push : Push) → IsBegun head.now policy.now keys push →
        out ++ push.keys ≡ header_text (push_header push size) ++ signed_text push) }
{
    a_payload_is_its_head_and_its_body();
    written_policies_have_their_size();
    let header = Header {
        cookies: head.spi,
        next: SEQUENCE,
        exchange: PUSH,
        message: [0; 4],
        length: (HEADER_OCTETS + size) as u32,
    };
    let mut out = Octets::with_room(alloc, HEADER_OCTETS + size)?;
    out.extend(&write_header(&header))?;
    write_payload_head(SA, SEQUENCE_OCTETS, &mut out)?;
    write_sequence(head.sequence, &mut out)?;
    write_payload_head(KD, sa_size(policy), &mut out)?;
    write_sa(policy, &mut out)?;
    write_payload_head(SIGNATURE, keys, &mut out)?;
    Ok(out)
}

/// Signs what is written, appends the signature and zeros up to the end of a block, and seals all after the header.
pub(crate) fn finish<G: Signer>(
    out: Octets,
    kek: &NodeValue,
    signer: &G,
) -> Result<Octets, NoMemory>
    requires { 28 ≤ length out }
    ensures { IfOk result (λ datagram. (push : Push) (size : ℕ) → out ≡ header_text (push_header push size) ++ signed_text push →
        length push.spi ≡ 16 →
        ((signature : List ℕ) → length signature ≡ G.size_of signer.now → size ≡ length (plain_text push signature)) →
        IsPushText (G.signature signer.now) (G.size_of signer.now) kek.now push datagram) }
{
    let mut out = out;
    let (header, payloads) = out.as_slice().split_at(HEADER_OCTETS);
    let signature = signer.sign(&digest(header, payloads));
    append_signature(signature.as_slice(), &mut out)?;
    write_padding(&mut out)?;
    seal(&mut out, kek);
    Ok(out)
}

/// Appends the payload of a signature, the last one.
fn append_signature(signature: &[u8], out: &mut Octets) -> Result<(), NoMemory>
    requires { length signature.now ≤ 512 }
    ensures ok { OnOk result (out.new ≡ out.old ++ payload_text 0 signature.now) }
    ensures octets { AreOctets signature.now }
{
    prove_are_octets(signature);
    write_payload(0, signature, out)
}

/// Seals all after the header, in place.
fn seal(out: &mut Octets, kek: &NodeValue)
    requires long { 28 ≤ length out.old }
    requires whole { (length out.old - 28) % 16 ≡ 0 }
    ensures { (sealed : List ℕ) × IsSealed kek.now.key kek.now.iv (drop 28 out.old) sealed × (out.new ≡ take 28 out.old ++ sealed) }
{
    let (_, text) = out.as_mut_slice().split_at_mut(HEADER_OCTETS);
    cbc_seal(&Key128::new(kek.key), &kek.iv, text);
}
