//! The payloads of a message, once they are decrypted.
ghost use Rattle.std.specs.Prelude.{◌≡◌, ◌+◌, ◌≤◌, List, ℕ, drop, take, length, IfOk, IsSome};
ghost use Rattle.gd_wire.specs.Chains.{GoesThrough};
ghost use Rattle.gd_wire.specs.Faults.{fault_at};
ghost use Rattle.gd_wire.specs.Readings.{Cursor, Gives, Shows, Answers, from_start};
ghost use Rattle.group_terms.specs.declared.wires.WireWhat.TheVariants.{Kind};
ghost use Rattle.pull_msgs.specs.Private.Seen.{seen_first, seen_second, seen_third, seen_fourth};
ghost use Rattle.pull_msgs.specs.Readings as readings;

use crate::nonces::Nonce;
use gd_wire::kinds::{GAP, HASH, HEADER_OCTETS, IDENTIFICATION, KD, NONCE, SA, SEQUENCE};
use gd_wire::{Identification, Named, Reader, chain_end, fault, payload};
use group_terms::{Path, TrafficValue, WireFault, WireWhat};
use kd_wire::{KdView, read_kd};
use sa_wire::{SaPolicy, read_placed_sa};

/// What is read of a message: the HASH that it carries, the payloads that this covers, and what they say.
#[derive(Drop)]
pub(crate) struct PullRead<'a, T> {
    pub(crate) hash: [u8; 32],
    pub(crate) covered: &'a [u8],
    pub(crate) said: T,
}

#[derive(Drop)]
pub(crate) struct FirstSaid<'a> {
    pub(crate) ni: Nonce,
    pub(crate) id: Identification<'a>,
}

#[derive(Drop)]
pub(crate) struct SecondSaid {
    pub(crate) nr: Nonce,
    pub(crate) policy: SaPolicy,
}

#[derive(Drop)]
pub(crate) struct FourthSaid {
    pub(crate) sequence: u32,
    pub(crate) traffic: TrafficValue,
    pub(crate) spi: [u8; 16],
    pub(crate) path: Path,
}

/// Reads the payloads of the member's first message.
#[tactic(auto, unfolding(crate::specs::Readings::first, crate::specs::Readings::covered))]
pub(crate) fn read_first(text: &[u8], first: u8) -> Result<PullRead<'_, FirstSaid<'_>>, WireFault>
    requires small { 28 + length text.now ≤ 65507 }
    ensures { Answers seen_first result (readings.first text.now first (from_start 28 text.now)) }
{
    let mut payloads = Reader::new(text, HEADER_OCTETS as u32);
    let (hash, start, named) = hash_payload(&mut payloads, text, first)?;
    let (ni, named) = nonce_payload(&mut payloads, text, named)?;
    let (part, named) = payload(&mut payloads, IDENTIFICATION, named)?;
    let id = part.identification(text)?;
    let covered = covered(&payloads, text, start, named)?;
    let said = FirstSaid { ni, id };
    Ok(PullRead {
        hash,
        covered,
        said,
    })
}

/// Reads the payloads of the server's answer.
#[tactic(auto, unfolding(crate::specs::Readings::second, crate::specs::Readings::covered))]
pub(crate) fn read_second(text: &[u8], first: u8) -> Result<PullRead<'_, SecondSaid>, WireFault>
    requires small { 28 + length text.now ≤ 65507 }
    ensures answer { Answers seen_second result (readings.second text.now first (from_start 28 text.now)) }
    ensures policies { IfOk result (λ read. IsSome read.said.policy.kek × IsSome read.said.policy.tek) }
{
    let mut payloads = Reader::new(text, HEADER_OCTETS as u32);
    let (hash, start, named) = hash_payload(&mut payloads, text, first)?;
    let (nr, named) = nonce_payload(&mut payloads, text, named)?;
    let (part, named) = payload(&mut payloads, SA, named)?;
    let policy = policies(part.at + 4, part.body(text))?;
    let covered = covered(&payloads, text, start, named)?;
    let said = SecondSaid { nr, policy };
    Ok(PullRead {
        hash,
        covered,
        said,
    })
}

/// Reads the payloads of the member's agreement.
#[tactic(auto, unfolding(crate::specs::Readings::third, crate::specs::Readings::covered))]
pub(crate) fn read_third(text: &[u8], first: u8) -> Result<PullRead<'_, ()>, WireFault>
    requires small { 28 + length text.now ≤ 65507 }
    ensures { Answers seen_third result (readings.third text.now first (from_start 28 text.now)) }
{
    let mut payloads = Reader::new(text, HEADER_OCTETS as u32);
    let (hash, start, named) = hash_payload(&mut payloads, text, first)?;
    let last = maybe_gap(&mut payloads, named)?;
    let covered = covered(&payloads, text, start, last)?;
    Ok(PullRead {
        hash,
        covered,
        said: (),
    })
}

/// Reads the payloads of the server's keys, for the Rekey SA with this SPI.
#[tactic(auto, unfolding(crate::specs::Readings::fourth, crate::specs::Readings::covered))]
pub(crate) fn read_fourth<'a>(
    spi: &[u8; 16],
    text: &'a [u8],
    first: u8,
) -> Result<PullRead<'a, FourthSaid>, WireFault>
    requires small { 28 + length text.now ≤ 65507 }
    ensures { Answers seen_fourth result (readings.fourth spi.now text.now first (from_start 28 text.now)) }
{
    let mut payloads = Reader::new(text, HEADER_OCTETS as u32);
    let (hash, start, named) = hash_payload(&mut payloads, text, first)?;
    let (part, named) = payload(&mut payloads, SEQUENCE, named)?;
    let sequence = part.sequence(text)?;
    let (part, named) = payload(&mut payloads, KD, named)?;
    let base = part.at + 4;
    let view = read_kd(part.body(text), base)?;
    let (traffic, got, at) = reply_of(base, &view)?;
    let covered = covered(&payloads, text, start, named)?;
    if got != *spi {
        return Err(fault(WireWhat::Value, at));
    }
    let said = FourthSaid {
        sequence,
        traffic,
        spi: got,
        path: view.download,
    };
    Ok(PullRead {
        hash,
        covered,
        said,
    })
}

/// The HASH of the first payload, the place after that, and what it names.
#[tactic(auto, unfolding(crate::specs::Readings::hash_payload))]
fn hash_payload(
    payloads: &mut Reader<'_>,
    text: &[u8],
    first: u8,
) -> Result<([u8; 32], usize, Named), WireFault>
    requires small { 28 + length text.now ≤ 65507 }
    requires through { GoesThrough text.now 28 payloads.old }
    ensures gives { Gives result payloads.new (readings.hash_payload text.now first payloads.old) }
    ensures through { IfOk result (λ read. GoesThrough text.now 28 payloads.new) }
    ensures after { IfOk result (λ read. read.1 ≡ payloads.new.at) }
{
    let (part, named) = payload(payloads, HASH, Named::first(first))?;
    let hash = part.hash(text)?;
    Ok((hash, payloads.place(), named))
}

/// The nonce of a payload, and what that names.
#[tactic(auto, unfolding(crate::specs::Readings::nonce_payload))]
fn nonce_payload(
    payloads: &mut Reader<'_>,
    text: &[u8],
    named: Named,
) -> Result<(Nonce, Named), WireFault>
    requires small { 28 + length text.now ≤ 65507 }
    requires through { GoesThrough text.now 28 payloads.old }
    ensures gives { Gives result payloads.new (readings.nonce_payload text.now named payloads.old) }
    ensures through { IfOk result (λ read. GoesThrough text.now 28 payloads.new) }
    ensures rises { IfOk result (λ read. payloads.old.at ≤ payloads.new.at) }
{
    let (part, named) = payload(payloads, NONCE, named)?;
    let nonce = part.nonce(text)?;
    Ok((Nonce::of(nonce), named))
}

/// A GAP or none.
#[tactic(auto, unfolding(crate::specs::Readings::maybe_gap))]
fn maybe_gap(payloads: &mut Reader<'_>, named: Named) -> Result<Named, WireFault>
    ensures gives { Gives result payloads.new (readings.maybe_gap named payloads.old) }
    ensures lies { (text : List ℕ) (base : ℕ) → GoesThrough text base payloads.old →
        IfOk result (λ last. GoesThrough text base payloads.new) }
    ensures rises { IfOk result (λ last. payloads.old.at ≤ payloads.new.at) }
{
    if named.kind != GAP {
        return Ok(named);
    }
    let (_, last) = payload(payloads, GAP, named)?;
    Ok(last)
}

/// Finds the end of the payloads; gives the payloads that the HASH covers, which begin at a place.
#[tactic(auto, unfolding(crate::specs::Readings::covered))]
fn covered<'a>(
    payloads: &Reader<'_>,
    text: &'a [u8],
    start: usize,
    named: Named,
) -> Result<&'a [u8], WireFault>
    requires start { start ≤ payloads.now.at }
    requires end { payloads.now.at ≤ length text.now }
    ensures { Shows (λ octets. octets.now) result payloads.now (readings.covered text.now start named payloads.now) }
{
    chain_end(payloads, named)?;
    Ok(&text[start..payloads.place()])
}

/// Both policies; another shape is told at the first octet of the body.
#[tactic(auto, unfolding(crate::specs::Readings::policies))]
fn policies(base: u32, body: &[u8]) -> Result<SaPolicy, WireFault>
    requires small { base + length body.now ≤ 4294967295 }
    ensures gives { (cursor : Cursor) → Gives result cursor (readings.policies base body.now cursor) }
    ensures both { IfOk result (λ policy. IsSome policy.kek × IsSome policy.tek) }
{
    let sa = read_placed_sa(body, base)?;
    match (sa.kek, sa.tek) {
        (Some(kek), Some(tek)) => Ok(SaPolicy {
            kek: Some(kek.policy),
            tek: Some(tek.policy),
        }),
        _ => Err(other_shape(SA, base)),
    }
}

/// A traffic key, and the SPI of the packet of a path with its place; another shape is told at the first octet of the body.
fn reply_of(base: u32, view: &KdView) -> Result<(TrafficValue, [u8; 16], u32), WireFault>
    ensures { (cursor : Cursor) → Gives result cursor (readings.reply_of base view.now.tek view.now.lkh_spi view.now.spis.lkh cursor) }
{
    match (view.tek, view.lkh_spi, view.spis.lkh) {
        (Some(traffic), Some(spi), Some(at)) => Ok((traffic, spi, at)),
        _ => Err(other_shape(KD, base)),
    }
}

fn other_shape(kind: u8, base: u32) -> WireFault
    ensures { result ≡ fault_at (Kind kind) base }
{
    let number = u16::from(kind);
    fault(WireWhat::Kind { number }, base)
}
