//! That values fit what is written of them, as their types say.
ghost use Rattle.std.specs.Prelude.{◌≡◌, length, All};
ghost use Rattle.group_terms.specs.Octets.{AreOctets, rekey_spi_octets};
ghost use Rattle.kd_wire.specs.Texts.{PathKeyFits, TrafficFits, JobFits};

use crate::sealing::WrapJob;
use crate::widths::REKEY_SPI_OCTETS;
use gd_wire::{prove_are_octets, prove_has_four_octets};
use group_terms::{PathKey, TrafficValue};

/// The SPI of rekey datagrams fits.
pub fn prove_spi_fits(spi: &[u8; REKEY_SPI_OCTETS])
    ensures size { length spi.now ≡ rekey_spi_octets }
    ensures octets { AreOctets spi.now }
{
    prove_are_octets(spi);
}

/// A traffic key fits.
pub fn prove_traffic_fits(traffic: &TrafficValue)
    ensures { TrafficFits traffic.now }
{
    prove_are_octets(&traffic.cipher_key);
    prove_are_octets(&traffic.integrity_key);
    prove_are_octets(&traffic.spi);
}

/// The key of a position fits.
pub fn prove_path_key_fits(key: &PathKey)
    ensures { PathKeyFits key.now }
{
    prove_are_octets(&key.value.iv);
    prove_are_octets(&key.value.key);
    prove_has_four_octets(key.made);
    key.id.number();
}

/// The keys of positions fit.
pub fn prove_path_keys_fit(keys: &[PathKey])
    ensures { All PathKeyFits keys.now }
{
    for key in keys {
        prove_path_key_fits(key);
    }
}

/// A job fits.
pub fn prove_job_fits(job: &WrapJob)
    ensures { JobFits job.now }
{
    prove_path_key_fits(&job.by);
    prove_path_key_fits(&job.gives);
}
