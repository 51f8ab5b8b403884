//! What types say of values: a slice of octets has octets, and a number fits its width.
ghost use Rattle.std.specs.Prelude.{◌<◌};
ghost use Rattle.group_terms.specs.Octets.{AreOctets};

/// A slice of octets has octets.
pub fn prove_are_octets(octets: &[u8])
    ensures { AreOctets octets.now }
{}

/// A number of 16 bits has 2 octets.
pub fn prove_has_two_octets(number: u16)
    ensures { number < 65536 }
{}

/// A number of 32 bits has 4 octets.
pub fn prove_has_four_octets(number: u32)
    ensures { number < 4294967296 }
{}
