//! How far the octets of a disk reach.
ghost use Rattle.std.specs.Prelude.{◌↔◌, ◌+◌, ◌^◌, ◌<◌, length, IsTrue};

/// No place and no end of a disk is past this one.
pub const FARTHEST: u64 = 1 << 62;

/// Whether octets at a place would end past the farthest one.
pub fn ends_too_far(at: u64, octets: &[u8]) -> bool
    ensures { IsTrue result ↔ (2 ^ 62 < at + length octets.now) }
{
    at > FARTHEST || octets.len() as u64 > FARTHEST - at
}
