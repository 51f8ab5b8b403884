//! The policies of an SA payload.
ghost use Rattle.std.specs.Prelude.{◌≡◌, ◌+◌, ◌≤◌, length};
ghost use Rattle.gd_wire.specs.Readings.{Gives};
ghost use Rattle.sa_wire.specs.Policies.{endpoint, endpoints, kek, kek_of, tek, last_tek, rest_after_kek, with_kek};
ghost use Rattle.sa_wire.specs.Policies.{with_tek_alone, head, policies, placed_sa, sa};

use crate::attributes::{Found, found_of, read_attributes};
use crate::numbers::{ESP, ESP_AES, GDOI, SAK, SAT, SIGNATURE_ALGORITHM, SIGNATURE_KEY_LENGTH};
use crate::places::{PlacedKek, PlacedSa, PlacedTek};
use crate::rules::{kek_rules, tek_rules};
use gd_wire::Reader;
use group_terms::{SignKind, WireFault, WireWhat};

/// What a group uses (RFC 6407 section 5.2).
#[derive(Clone, Copy, PartialEq, Eq)]
pub struct SaPolicy {
    pub kek: Option<KekPolicy>,
    pub tek: Option<TekPolicy>,
}

/// The policy of the key that encrypts keys: rekey datagrams go by this SPI, and are signed so (RFC 6407 section 5.3).
#[derive(Clone, Copy, PartialEq, Eq)]
pub struct KekPolicy {
    pub spi: [u8; 16],
    pub sign: SignKind,
}

/// The policy of the key that encrypts traffic, which goes by this SPI (RFC 6407 section 5.5).
#[derive(Clone, Copy, PartialEq, Eq)]
pub struct TekPolicy {
    pub spi: [u8; 4],
}

/// Reads the body of an SA payload, whose first octet has the place `base` in its datagram; else its first fault: Short where a field is
/// not whole, Value where a number is not taken, Reserved where a reserved field is not zero, Length where a payload's is less than its
/// header or leads out of the body, or octets are left after the last payload, and Kind where a payload is not awaited, or an attribute has
/// no rule, is there a second time or has a form that is not taken; Short at the end of a payload, too, where an attribute is missing. Any
/// identifications of any protocol are taken, and any lifetime, short or long in 4 octets; the order of attributes is free.
pub fn read_sa(body: &[u8], base: u32) -> Result<SaPolicy, WireFault>
    requires small { base + length body.now ≤ 4294967295 }
    ensures { result ≡ sa base body.now }
{
    let sa = read_placed_sa(body, base)?;
    Ok(sa.policy())
}

/// The same, with the places of what a message compares.
pub fn read_placed_sa(body: &[u8], base: u32) -> Result<PlacedSa, WireFault>
    requires small { base + length body.now ≤ 4294967295 }
    ensures { result ≡ placed_sa base body.now }
{
    let sa = read_policies(&mut Reader::new(body, base))?;
    Ok(sa)
}

#[tactic(auto, unfolding(crate::specs::Policies::policies))]
fn read_policies(body: &mut Reader) -> Result<PlacedSa, WireFault>
    ensures { Gives result body.new (policies body.old) }
{
    if read_head(body)? == u16::from(SAT) {
        return read_tek_alone(body);
    }
    read_with_kek(body)
}

/// Reads what comes before the first payload; gives the kind of that.
#[tactic(auto, unfolding(crate::specs::Policies::head))]
fn read_head(body: &mut Reader) -> Result<u16, WireFault>
    ensures { Gives result body.new (head body.old) }
{
    body.due_long_number(GDOI, WireWhat::Value)?;
    body.due_long_number(0, WireWhat::Value)?;
    let first = body.due_long_kind(&[u16::from(SAK), u16::from(SAT)])?;
    body.due_number(0, WireWhat::Reserved)?;
    Ok(first)
}

/// Reads the payload for the KEK, which is the first one, and the rest.
#[tactic(auto, unfolding(crate::specs::Policies::with_kek))]
fn read_with_kek(body: &mut Reader) -> Result<PlacedSa, WireFault>
    ensures { Gives result body.new (with_kek body.old) }
{
    let (next, mut payload) = body.section(&[0, SAT])?;
    let kek = read_kek(&mut payload)?;
    let tek = read_rest(next, body)?;
    Ok(PlacedSa {
        kek: Some(kek),
        tek,
    })
}

#[tactic(auto, unfolding(crate::specs::Policies::with_tek_alone))]
fn read_tek_alone(body: &mut Reader) -> Result<PlacedSa, WireFault>
    ensures { Gives result body.new (with_tek_alone body.old) }
{
    let tek = read_last_tek(body)?;
    Ok(PlacedSa {
        kek: None,
        tek: Some(tek),
    })
}

/// Reads what comes after the payload for the KEK: the payload for the TEK, where that was named, or nothing.
#[tactic(auto, unfolding(crate::specs::Policies::rest_after_kek))]
fn read_rest(next: u8, body: &mut Reader) -> Result<Option<PlacedTek>, WireFault>
    ensures { Gives result body.new (rest_after_kek next body.old) }
{
    if next == SAT {
        let tek = read_last_tek(body)?;
        return Ok(Some(tek));
    }
    body.end()?;
    Ok(None)
}

/// Reads the payload for the TEK, and that nothing comes after it.
#[tactic(auto, unfolding(crate::specs::Policies::last_tek))]
fn read_last_tek(body: &mut Reader) -> Result<PlacedTek, WireFault>
    ensures { Gives result body.new (last_tek body.old) }
{
    let (_, mut payload) = body.section(&[0])?;
    let tek = read_tek(&mut payload)?;
    body.end()?;
    Ok(tek)
}

/// Reads the policy of the KEK (RFC 6407 section 5.3).
#[tactic(auto, unfolding(crate::specs::Policies::kek))]
fn read_kek(text: &mut Reader) -> Result<PlacedKek, WireFault>
    ensures { Gives result text.new (kek text.old) }
{
    text.octet()?;
    read_endpoints(text)?;
    let at = text.here();
    let spi = text.array()?;
    text.due_long_number(0, WireWhat::Reserved)?;
    let found = read_attributes(&kek_rules(), text)?;
    Ok(kek_of(at, spi, found.as_slice()))
}

/// The policy of a KEK whose SPI and attributes were read.
fn kek_of(at: u32, spi: [u8; 16], found: &[Found]) -> PlacedKek
    ensures { result ≡ kek_of at spi found.now }
{
    let algorithm = found_of(SIGNATURE_ALGORITHM, found);
    let key_bits = found_of(SIGNATURE_KEY_LENGTH, found);
    let sign = SignKind {
        algorithm: algorithm.number,
        key_bits: key_bits.number,
    };
    PlacedKek {
        policy: KekPolicy { spi, sign },
        spi_at: at,
        algorithm_at: algorithm.at,
        key_bits_at: key_bits.at,
    }
}

/// Reads the policy of the TEK (RFC 6407 section 5.5).
#[tactic(auto, unfolding(crate::specs::Policies::tek))]
fn read_tek(text: &mut Reader) -> Result<PlacedTek, WireFault>
    ensures { Gives result text.new (tek text.old) }
{
    text.due_octet(ESP, WireWhat::Value)?;
    text.octet()?;
    read_endpoints(text)?;
    text.due_octet(ESP_AES, WireWhat::Value)?;
    let spi_at = text.here();
    let spi = text.array()?;
    read_attributes(&tek_rules(), text)?;
    Ok(PlacedTek {
        policy: TekPolicy { spi },
        spi_at,
    })
}

/// Reads the identifications of the source and the destination, which may be any.
#[tactic(auto, unfolding(crate::specs::Policies::endpoints))]
fn read_endpoints(text: &mut Reader) -> Result<(), WireFault>
    ensures { Gives result text.new (endpoints text.old) }
{
    read_endpoint(text)?;
    read_endpoint(text)
}

/// Reads the identification of one: its type, its port, the length of its data, and these.
#[tactic(auto, unfolding(crate::specs::Policies::endpoint))]
fn read_endpoint(text: &mut Reader) -> Result<(), WireFault>
    ensures { Gives result text.new (endpoint text.old) }
{
    text.octet()?;
    text.number()?;
    let size = text.octet()?;
    text.octets(usize::from(size))?;
    Ok(())
}
