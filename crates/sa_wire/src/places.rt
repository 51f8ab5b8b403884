//! Policies with the places of their fields, as a message compares them.
ghost use Rattle.std.specs.Prelude.{◌≡◌};
ghost use Rattle.sa_wire.specs.Policies.{policy_of, option_kek, option_tek};

use crate::policies::{KekPolicy, SaPolicy, TekPolicy};

/// What a group uses, and where in the datagram the SPIs and the numbers of the signature's attributes are.
#[derive(Clone, Copy, PartialEq, Eq)]
pub struct PlacedSa {
    pub kek: Option<PlacedKek>,
    pub tek: Option<PlacedTek>,
}

/// The policy of the KEK, with the places of its SPI and of the numbers for its signatures.
#[derive(Clone, Copy, PartialEq, Eq)]
pub struct PlacedKek {
    pub policy: KekPolicy,
    pub spi_at: u32,
    pub algorithm_at: u32,
    pub key_bits_at: u32,
}

/// The policy of the TEK, with the place of its SPI.
#[derive(Clone, Copy, PartialEq, Eq)]
pub struct PlacedTek {
    pub policy: TekPolicy,
    pub spi_at: u32,
}

impl PlacedSa {
    /// The policies without their places.
    pub fn policy(&self) -> SaPolicy
        ensures { result ≡ policy_of self.now }
    {
        SaPolicy {
            kek: option_kek(self.kek),
            tek: option_tek(self.tek),
        }
    }
}

fn option_kek(kek: Option<PlacedKek>) -> Option<KekPolicy>
    ensures { result ≡ option_kek kek }
{
    match kek {
        Some(kek) => Some(kek.policy),
        None => None,
    }
}

fn option_tek(tek: Option<PlacedTek>) -> Option<TekPolicy>
    ensures { result ≡ option_tek tek }
{
    match tek {
        Some(tek) => Some(tek.policy),
        None => None,
    }
}
