//! The nonces of a pull.
ghost use Rattle.std.specs.Prelude.{◌≡◌, ◌≤◌, length, IsTrue};
ghost use Rattle.pull_msgs.specs.Nonces.{is_nonce, nonce_of};

use group_terms::ShortOctets;
use std::marker::Model;

/// The fewest octets of a nonce.
const FEWEST: usize = 8;

/// The most octets of a nonce.
const MOST: usize = 128;

/// A nonce (RFC 2408 section 3.13): 8 to 128 octets (RFC 6407 section 5.8).
#[derive(Clone, Copy)]
pub struct Nonce {
    octets: ShortOctets<MOST>,
}

impl Model for Nonce {
    ghost use Rattle.std.specs.Prelude.{◌≡◌, true, List, ℕ};
    ghost use Rattle.std.proofs.Common.{refl};
    ghost use Rattle.pull_msgs.specs.Nonces.{is_nonce};

    ghost Value = { List ℕ };

    ghost view = { λ nonce. nonce.octets };

    ghost invariant = { λ nonce. is_nonce nonce.octets ≡ true };

    ghost inverse = { λ octets. record { octets = octets } };

    ghost inverse_ok = { λ nonce h. refl };
}

impl Nonce {
    /// The nonce with these octets; `None` exactly where they are fewer than 8 or more than 128.
    pub fn read(octets: &[u8]) -> Option<Self>
        ensures { result ≡ nonce_of octets.now }
    {
        if octets.len() < FEWEST || octets.len() > MOST {
            return None;
        }
        Some(Nonce::of(octets))
    }

    /// The nonce with these octets.
    pub(crate) fn of(octets: &[u8]) -> Self
        requires some { 8 ≤ length octets.now }
        requires few { length octets.now ≤ 128 }
        ensures { result ≡ octets.now }
    {
        Nonce {
            octets: ShortOctets::of(octets),
        }
    }

    /// Its octets.
    pub fn octets(&self) -> &[u8]
        ensures octets { result.now ≡ self.now }
        ensures nonce { IsTrue (is_nonce self.now) }
    {
        self.octets.octets()
    }
}
