//! The body of a key download payload.
ghost use Rattle.std.specs.Prelude.{◌≡◌, ◌+◌, ◌≤◌, length};
ghost use Rattle.gd_wire.specs.Readings.{Gives, mapped};
ghost use Rattle.kd_wire.specs.Bodies.{traffic_alone, update_packet, updates_alone, one_packet, download_packet, two_packets, kd, kd_view};
ghost use Rattle.kd_wire.specs.Private.Views.{without_arrays, seen_packet};

use crate::arrays::{SeenUpdates, updates};
use crate::downloads::download;
use crate::spans::UpdateSpan;
use crate::spis::{SpiPlaces, spi_place};
use crate::traffic::traffic;
use crate::widths::REKEY_SPI_SIZE;
use gd_wire::{Reader, fault};
use group_terms::{Path, TrafficValue, WireFault, WireWhat};

/// The kinds of key packets: for a traffic key, and for keys of the tree.
pub(crate) const TEK: u8 = 1;

pub(crate) const LKH: u8 = 3;

/// What a key download payload gives (RFC 6407 section 5.6): a traffic key alone; the SPI of rekey datagrams and where update arrays are;
/// or a traffic key, that SPI, and the keys of a path.
#[derive(Drop)]
pub struct KdView {
    pub tek: Option<TrafficValue>,
    pub lkh_spi: Option<[u8; 16]>,
    /// From a leaf to the root; none where no path is given.
    pub download: Path,
    pub updates: Option<UpdateSpan>,
    pub spis: SpiPlaces,
}

/// Reads the body of a key download payload, whose first octet has the place `base` in its datagram; else its first fault: Short where a
/// field is not whole, or an attribute, an array or the root's key is missing; Value where a number, a size, an LKH ID, a key's type or its
/// handle is not taken; Kind where a packet or an attribute is not awaited, or has a form or a length that is not taken; Reserved where a
/// reserved field is not zero; Version at an array of another version; Length where a packet's is less than its header or leads out of the
/// body, an array's does not fit its keys, or octets are left after the last packet.
pub fn read_kd(body: &[u8], base: u32) -> Result<KdView, WireFault>
    requires small { base + length body.now ≤ 4294967295 }
    ensures { result ≡ kd_view base body.now }
{
    let mut text = Reader::new(body, base);
    packets(&mut text)
}

/// Reads the whole body.
#[tactic(auto, unfolding(crate::specs::Bodies::kd))]
fn packets(text: &mut Reader<'_>) -> Result<KdView, WireFault>
    ensures { Gives result text.new (mapped without_arrays (kd text.old)) }
{
    let at = text.here();
    let count = text.number()?;
    if count != 1 && count != 2 {
        return Err(fault(WireWhat::Value, at));
    }
    text.due_number(0, WireWhat::Reserved)?;
    if count == 2 {
        return two_packets(text);
    }
    one_packet(text)
}

/// Reads the one packet of a body: for a traffic key, or with update arrays.
#[tactic(auto, unfolding(crate::specs::Bodies::one_packet))]
fn one_packet(text: &mut Reader<'_>) -> Result<KdView, WireFault>
    ensures { Gives result text.new (mapped without_arrays (one_packet text.old)) }
{
    let (kind, packet) = text.section(&[TEK, LKH])?;
    if kind == TEK {
        return traffic_alone(packet, text);
    }
    updates_alone(packet, text)
}

/// Reads a packet for a traffic key, which is the last one.
#[tactic(auto, unfolding(crate::specs::Bodies::traffic_alone))]
fn traffic_alone(packet: Reader<'_>, text: &mut Reader<'_>) -> Result<KdView, WireFault>
    ensures { Gives result text.new (mapped without_arrays (traffic_alone packet.entry text.old)) }
{
    let mut packet = packet;
    let (at, value) = traffic(&mut packet)?;
    text.end()?;
    Ok(KdView {
        tek: Some(value),
        lkh_spi: None,
        download: Path::new(),
        updates: None,
        spis: SpiPlaces {
            tek: Some(at),
            lkh: None,
        },
    })
}

/// What is in a packet with update arrays.
#[derive(Clone, Copy)]
struct UpdatePacket {
    spi_at: u32,
    spi: [u8; 16],
    updates: SeenUpdates,
}

/// Reads what comes after the header of a packet with update arrays.
#[tactic(auto, unfolding(crate::specs::Bodies::update_packet))]
fn update_packet(text: &mut Reader<'_>) -> Result<UpdatePacket, WireFault>
    ensures { Gives result text.new (mapped seen_packet (update_packet text.old)) }
{
    let spi_at = spi_place(REKEY_SPI_SIZE, text)?;
    let spi = text.array()?;
    let updates = updates(text)?;
    Ok(UpdatePacket {
        spi_at,
        spi,
        updates,
    })
}

/// Reads a packet with update arrays, which is the last one.
#[tactic(auto, unfolding(crate::specs::Bodies::updates_alone))]
fn updates_alone(packet: Reader<'_>, text: &mut Reader<'_>) -> Result<KdView, WireFault>
    ensures { Gives result text.new (mapped without_arrays (updates_alone packet.entry text.old)) }
{
    let mut packet = packet;
    let lkh = update_packet(&mut packet)?;
    text.end()?;
    if !lkh.updates.has_root {
        return Err(fault(WireWhat::Short, text.here()));
    }
    Ok(KdView {
        tek: None,
        lkh_spi: Some(lkh.spi),
        download: Path::new(),
        updates: Some(lkh.updates.span),
        spis: SpiPlaces {
            tek: None,
            lkh: Some(lkh.spi_at),
        },
    })
}

/// Reads what comes after the header of a packet with a download array: the place of the SPI, the SPI, and the keys of a path.
#[tactic(auto, unfolding(crate::specs::Bodies::download_packet))]
fn download_packet(text: &mut Reader<'_>) -> Result<(u32, ([u8; 16], Path)), WireFault>
    ensures { Gives result text.new (download_packet text.old) }
{
    let at = spi_place(REKEY_SPI_SIZE, text)?;
    let spi = text.array()?;
    let path = download(text)?;
    Ok((at, (spi, path)))
}

/// Reads a packet for a traffic key, and after it one with the keys of a path.
#[tactic(auto, unfolding(crate::specs::Bodies::two_packets))]
fn two_packets(text: &mut Reader<'_>) -> Result<KdView, WireFault>
    ensures { Gives result text.new (mapped without_arrays (two_packets text.old)) }
{
    let (_, mut first) = text.section(&[TEK])?;
    let (tek_at, tek) = traffic(&mut first)?;
    let (_, mut second) = text.section(&[LKH])?;
    let (lkh_at, (spi, path)) = download_packet(&mut second)?;
    text.end()?;
    Ok(KdView {
        tek: Some(tek),
        lkh_spi: Some(spi),
        download: path,
        updates: None,
        spis: SpiPlaces {
            tek: Some(tek_at),
            lkh: Some(lkh_at),
        },
    })
}
