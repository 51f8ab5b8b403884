//! Writing the messages of a pull.
ghost use Rattle.std.specs.Prelude.{IfOk, IsSome};
ghost use Rattle.pull_msgs.specs.Texts.{IsPullText, first_iv, first_message, second_message, third_message, fourth_message};

use crate::drafts::{begin, finish};
use crate::fits::prove_policies_fit;
use crate::nonces::Nonce;
use gd_cipher::phase2_iv;
use gd_wire::kinds::{
    IDENTIFICATION, KD, NONCE, PAYLOAD_HEAD_OCTETS, SA, SEQUENCE, SEQUENCE_OCTETS,
};
use gd_wire::{
    a_payload_is_its_head_and_its_body, write_identification, write_payload, write_payload_head,
    write_sequence,
};
use group_terms::{GroupName, Keyed, NoMemory, Octets, Phase1};
use kd_wire::{prove_path_keys_fit, reply_kd_size, write_reply_kd};
use sa_wire::{SaPolicy, sa_size, write_sa, written_policies_have_their_size};
use std::alloc::Global;

/// An identification of the octets of a key id (RFC 2407 section 4.6.2.1), and the size of its body before these.
const KEY_ID: u8 = 11;

const ID_HEAD_OCTETS: usize = 4;

/// The member's first message (RFC 6407 section 3.2): its nonce, and the name of the group.
pub fn write_first(
    alloc: Global,
    phase: &Phase1,
    message: &[u8; 4],
    ni: &Nonce,
    group: &GroupName,
) -> Result<Octets, NoMemory>
    ensures { IfOk result (λ datagram. IsPullText phase.now (first_iv phase.now message.now)
        (first_message message.now ni.now group.now) datagram) }
{
    a_payload_is_its_head_and_its_body();
    let id = ID_HEAD_OCTETS + group.text().len();
    let size = 2 * PAYLOAD_HEAD_OCTETS + ni.octets().len() + id;
    let mut out = begin(alloc, phase, message, NONCE, size)?;
    write_payload(IDENTIFICATION, ni.octets(), &mut out)?;
    write_payload_head(0, id, &mut out)?;
    write_identification(KEY_ID, group.text(), &mut out)?;
    let iv = phase2_iv(&phase.last, message);
    finish(out, phase, message, &iv, &[], &[])
}

/// The server's answer (RFC 6407 section 3.2): its nonce, and both policies.
pub fn write_second(
    alloc: Global,
    phase: &Phase1,
    message: &[u8; 4],
    iv: &[u8; 16],
    ni: &Nonce,
    nr: &Nonce,
    policy: &SaPolicy,
) -> Result<Octets, NoMemory>
    requires kek { IsSome policy.now.kek }
    requires tek { IsSome policy.now.tek }
    ensures { IfOk result (λ datagram. IsPullText phase.now iv.now
        (second_message message.now ni.now nr.now policy.now) datagram) }
{
    a_payload_is_its_head_and_its_body();
    written_policies_have_their_size();
    prove_policies_fit(policy);
    let size = 2 * PAYLOAD_HEAD_OCTETS + nr.octets().len() + sa_size(policy);
    let mut out = begin(alloc, phase, message, NONCE, size)?;
    write_payload(SA, nr.octets(), &mut out)?;
    write_payload_head(0, sa_size(policy), &mut out)?;
    write_sa(policy, &mut out)?;
    Ok(finish(out, phase, message, iv, ni.octets(), &[])?)
}

/// The member's agreement (RFC 6407 section 3.2).
pub fn write_third(
    alloc: Global,
    phase: &Phase1,
    message: &[u8; 4],
    iv: &[u8; 16],
    ni: &Nonce,
    nr: &Nonce,
) -> Result<Octets, NoMemory>
    ensures { IfOk result (λ datagram. IsPullText phase.now iv.now (third_message message.now ni.now nr.now) datagram) }
{
    let out = begin(alloc, phase, message, 0, 0)?;
    finish(out, phase, message, iv, ni.octets(), nr.octets())
}

/// The server's keys, after the number of the last push (RFC 6407 section 3.2).
pub fn write_fourth(
    alloc: Global,
    phase: &Phase1,
    message: &[u8; 4],
    iv: &[u8; 16],
    ni: &Nonce,
    nr: &Nonce,
    keyed: &Keyed,
) -> Result<Octets, NoMemory>
    ensures { IfOk result (λ datagram. IsPullText phase.now iv.now
        (fourth_message message.now ni.now nr.now keyed.now) datagram) }
{
    a_payload_is_its_head_and_its_body();
    prove_path_keys_fit(keyed.path.keys());
    let keys = reply_kd_size(keyed);
    let size = 2 * PAYLOAD_HEAD_OCTETS + SEQUENCE_OCTETS + keys;
    let mut out = begin(alloc, phase, message, SEQUENCE, size)?;
    write_payload_head(KD, SEQUENCE_OCTETS, &mut out)?;
    write_sequence(keyed.sequence, &mut out)?;
    write_payload_head(0, keys, &mut out)?;
    write_reply_kd(keyed, &mut out)?;
    Ok(finish(out, phase, message, iv, ni.octets(), nr.octets())?)
}
