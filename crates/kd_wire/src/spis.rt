//! The SPI of a key packet.
ghost use Rattle.gd_wire.specs.Readings.{Gives};
ghost use Rattle.kd_wire.specs.Spis.{spi_place};

use gd_wire::{Reader, WireWhat};
use group_terms::WireFault;

/// The places in the datagram of the SPIs of the packet for a traffic key and of that for keys of the tree, where there is one. Where such
/// a SPI is not that of another payload, this is the place to tell.
#[derive(Clone, Copy, PartialEq, Eq)]
pub struct SpiPlaces {
    pub tek: Option<u32>,
    pub lkh: Option<u32>,
}

/// Reads the size of a SPI, which has to be this one; gives the place of the SPI, which comes next.
#[tactic(auto, unfolding(crate::specs::Spis::spi_place))]
pub(crate) fn spi_place(size: u8, text: &mut Reader<'_>) -> Result<u32, WireFault>
    ensures { Gives result text.new (spi_place size text.old) }
{
    text.due_octet(size, WireWhat::Value)?;
    Ok(text.here())
}
