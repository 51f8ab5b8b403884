//! The payloads of a push, once they are decrypted.
ghost use Rattle.std.specs.Prelude.{◌≡◌, ◌+◌, ◌≤◌, length, IfOk};
ghost use Rattle.gd_wire.specs.Chains.{PartFits};
ghost use Rattle.gd_wire.specs.Faults.{fault_at};
ghost use Rattle.gd_wire.specs.Readings.{Cursor, Gives, Answers, from_start};
ghost use Rattle.group_terms.specs.declared.wires.WireWhat.TheVariants.{Kind};
ghost use Rattle.push_msg.specs.Private.Seen.{seen};
ghost use Rattle.push_msg.specs.Readings.{there, membership_body, traffic_body, key_download, epoch_of, push};

use crate::bodies::OpenBody;
use crate::rows::{Row, read_row};
use gd_wire::kinds::{HEADER_OCTETS, KD, SA, SEQUENCE, SIGNATURE};
use gd_wire::{Named, Part, Reader, chain_end, fault, payload};
use group_terms::{SignKind, WireFault, WireWhat};
use kd_wire::{KdView, Updates, read_kd};

/// What is read of the payloads of a push.
#[derive(Clone, Copy)]
pub(crate) struct PushRead<'a> {
    pub(crate) sequence: u32,
    pub(crate) body: OpenBody,
    /// Where the key download is.
    pub(crate) keys: Part,
    /// The place before the payload of the signature.
    pub(crate) signed: usize,
    pub(crate) signature: &'a [u8],
}

/// Reads the payloads of a push for this SPI, whose signature the verifier checks as one of this kind, from the text after its header.
/// That names the kind of the first one.
#[tactic(auto, unfolding(crate::specs::Readings::push))]
pub(crate) fn read_push<'a>(
    spi: &[u8; 16],
    sign: SignKind,
    text: &'a [u8],
    first: u8,
) -> Result<PushRead<'a>, WireFault>
    requires small { 28 + length text.now ≤ 65507 }
    ensures answer { Answers (seen text.now) result (push spi.now sign text.now first (from_start 28 text.now)) }
    ensures keys { IfOk result (λ read. PartFits text.now 28 read.keys) }
    ensures signed { IfOk result (λ read. read.signed ≤ length text.now) }
{
    let mut payloads = Reader::new(text, HEADER_OCTETS as u32);
    let (part, named) = payload(&mut payloads, SEQUENCE, Named::first(first))?;
    let sequence = part.sequence(text)?;
    let (part, named) = payload(&mut payloads, SA, named)?;
    let row = read_row(spi, sign, part.at + 4, part.body(text))?;
    let (keys, named) = payload(&mut payloads, KD, named)?;
    let body = read_keys(row, keys.at + 4, keys.body(text))?;
    let signed = payloads.place();
    let (part, named) = payload(&mut payloads, SIGNATURE, named)?;
    let signature = part.signature(text)?;
    chain_end(&payloads, named)?;
    Ok(PushRead {
        sequence,
        body,
        keys,
        signed,
        signature,
    })
}

/// Reads the body of the key download of this kind of push.
#[tactic(auto, unfolding(crate::specs::Readings::key_download))]
fn read_keys(row: Row, base: u32, body: &[u8]) -> Result<OpenBody, WireFault>
    requires small { base + length body.now ≤ 4294967295 }
    ensures { (cursor : Cursor) → Gives result cursor (key_download row base body.now cursor) }
{
    let view = read_kd(body, base)?;
    match row {
        Row::Membership { spi } => membership_body(&spi, base, body, &view),
        Row::Traffic { spi } => traffic_body(&spi, base, &view),
    }
}

/// Update arrays alone, for this SPI.
fn membership_body(
    spi: &[u8; 16],
    base: u32,
    body: &[u8],
    view: &KdView,
) -> Result<OpenBody, WireFault>
    ensures { (cursor : Cursor) → Gives result cursor (membership_body spi.now base body.now view.now cursor) }
{
    let span = there(view.updates, base)?;
    let lkh = there(view.lkh_spi, base)?;
    let at = there(view.spis.lkh, base)?;
    if lkh != *spi {
        return Err(fault(WireWhat::Value, at));
    }
    Ok(OpenBody::Membership {
        root_made: epoch_of(span.arrays(body)),
        span,
    })
}

/// A traffic key alone, with this SPI.
fn traffic_body(spi: &[u8; 4], base: u32, view: &KdView) -> Result<OpenBody, WireFault>
    ensures { (cursor : Cursor) → Gives result cursor (traffic_body spi.now base view.now cursor) }
{
    if view.lkh_spi.is_some() {
        return Err(other_shape(base));
    }
    let traffic = there(view.tek, base)?;
    let at = there(view.spis.tek, base)?;
    if traffic.spi != *spi {
        return Err(fault(WireWhat::Value, at));
    }
    Ok(OpenBody::Traffic { traffic })
}

/// What is there; else the key download is of another shape than is due.
fn there<T: Copy>(value: Option<T>, base: u32) -> Result<T, WireFault>
    ensures { (cursor : Cursor) → Gives result cursor (there value (Kind 17) base cursor) }
{
    match value {
        Some(value) => Ok(value),
        None => Err(other_shape(base)),
    }
}

fn other_shape(base: u32) -> WireFault
    ensures { result ≡ fault_at (Kind 17) base }
{
    let number = u16::from(KD);
    fault(WireWhat::Kind { number }, base)
}

/// The epoch in which the keys of these arrays were made.
fn epoch_of(arrays: Updates<'_>) -> u32
    ensures { result ≡ epoch_of arrays.entry }
{
    let mut arrays = arrays;
    let Some(array) = arrays.next() else {
        return 0;
    };
    let mut keys = array.keys;
    match keys.next() {
        Some(key) => key.gives.made,
        None => 0,
    }
}
