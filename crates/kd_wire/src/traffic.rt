//! The key packet of a traffic key.
ghost use Rattle.std.specs.Prelude.{◌≡◌};
ghost use Rattle.gd_wire.specs.Readings.{Gives};
ghost use Rattle.kd_wire.specs.Traffic.{key_size, key_kind, cipher_key_first, integrity_key_first, traffic_keys, traffic};

use crate::arrays::long_type;
use crate::spis::spi_place;
use crate::widths::{INTEGRITY_OCTETS, TRAFFIC_SPI_SIZE};
use gd_wire::{Reader, fault, no_more_attributes};
use group_terms::{KEY_OCTETS, TrafficValue, WireFault, WireWhat};

/// The kinds of the attributes: the cipher's key and that for integrity.
pub(crate) const CIPHER_KEY: u16 = 1;

pub(crate) const INTEGRITY_KEY: u16 = 2;

/// The two keys: the cipher's and that for integrity.
type Keys = ([u8; KEY_OCTETS], [u8; INTEGRITY_OCTETS]);

/// Reads what comes after the header of the packet, up to its end (RFC 6407 section 5.6.1): the place of the SPI in the datagram, and the
/// value.
#[tactic(auto, unfolding(crate::specs::Traffic::traffic))]
pub(crate) fn traffic(text: &mut Reader<'_>) -> Result<(u32, TrafficValue), WireFault>
    ensures { Gives result text.new (traffic text.old) }
{
    let at = spi_place(TRAFFIC_SPI_SIZE, text)?;
    let spi = text.array()?;
    let (cipher_key, integrity_key) = traffic_keys(text)?;
    no_more_attributes(text)?;
    let value = TrafficValue {
        cipher_key,
        integrity_key,
        spi,
    };
    Ok((at, value))
}

/// Reads the two keys, in any order.
#[tactic(auto, unfolding(crate::specs::Traffic::traffic_keys))]
fn traffic_keys(text: &mut Reader<'_>) -> Result<Keys, WireFault>
    ensures { Gives result text.new (traffic_keys text.old) }
{
    if key_kind(&[CIPHER_KEY, INTEGRITY_KEY], text)? == CIPHER_KEY {
        return cipher_key_first(text);
    }
    integrity_key_first(text)
}

#[tactic(auto, unfolding(crate::specs::Traffic::cipher_key_first))]
fn cipher_key_first(text: &mut Reader<'_>) -> Result<Keys, WireFault>
    ensures { Gives result text.new (cipher_key_first text.old) }
{
    let cipher_key = text.array()?;
    key_kind(&[INTEGRITY_KEY], text)?;
    let integrity_key = text.array()?;
    Ok((cipher_key, integrity_key))
}

#[tactic(auto, unfolding(crate::specs::Traffic::integrity_key_first))]
fn integrity_key_first(text: &mut Reader<'_>) -> Result<Keys, WireFault>
    ensures { Gives result text.new (integrity_key_first text.old) }
{
    let integrity_key = text.array()?;
    key_kind(&[CIPHER_KEY], text)?;
    let cipher_key = text.array()?;
    Ok((cipher_key, integrity_key))
}

/// Reads the head of an attribute of one of these kinds: its kind.
#[tactic(auto, unfolding(crate::specs::Traffic::key_kind))]
fn key_kind(kinds: &[u16], text: &mut Reader<'_>) -> Result<u16, WireFault>
    ensures { Gives result text.new (key_kind kinds.now text.old) }
{
    let at = text.here();
    let number = long_type(kinds, text)?;
    if usize::from(text.number()?) != key_size(number) {
        return Err(fault(WireWhat::Kind { number }, at));
    }
    Ok(number)
}

/// The size of the key of a kind.
fn key_size(kind: u16) -> usize
    ensures { result ≡ key_size kind }
{
    if kind == CIPHER_KEY {
        KEY_OCTETS
    } else {
        INTEGRITY_OCTETS
    }
}
