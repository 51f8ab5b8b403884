//! Short texts of octets, kept in place.
ghost use Rattle.std.specs.Prelude.{◌≡◌, ◌≤◌, length};

use std::marker::Model;

/// At most so many octets, kept in place.
#[derive(Clone, Copy)]
pub struct ShortOctets<const MOST: usize> {
    octets: [u8; MOST],
    length: u8,
}

impl<const MOST: usize> Model for ShortOctets<MOST> {
    ghost use Rattle.std.specs.Prelude.{◌≤◌, ℕ, List, length as length_of, take};
    ghost use Rattle.std.proofs.Common.{arith};
    ghost use Rattle.std.proofs.lemmas.List.{length-take-le};
    ghost use Rattle.group_terms.specs.ShortOctets.{HoldsOctets, padded, padded-take};

    ghost Value = { List ℕ };

    ghost view = { λ short. take short.length short.octets };

    ghost invariant = { λ short. HoldsOctets MOST short.octets short.length };

    ghost inverse = { λ octets. record { octets = padded MOST octets; length = length_of octets } };

    ghost inverse_ok = { λ short h i. record {
      octets = padded-take MOST short.octets short.length h i;
      length = length-take-le short.length short.octets (omega (arith, h.fits, h.whole)) i;
    } };
}

impl<const MOST: usize> ShortOctets<MOST> {
    /// These octets. Their number is kept in 8 bits.
    pub fn of(octets: &[u8]) -> Self
        requires fit { length octets.now ≤ MOST }
        requires few { length octets.now ≤ 255 }
        ensures { result ≡ octets.now }
    {
        let mut field = [0; MOST];
        field[..octets.len()].copy_from_slice(octets);
        ShortOctets {
            octets: field,
            length: octets.len() as u8,
        }
    }

    /// The octets.
    pub fn octets(&self) -> &[u8]
        ensures octets { result.now ≡ self.now }
        ensures fit { length self.now ≤ MOST }
    {
        &self.octets[..usize::from(self.length)]
    }
}
