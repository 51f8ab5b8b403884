//! What the types of values keep: they can be written.
ghost use Rattle.gd_cipher.specs.Bytes.{AreBytes};

use gd_wire::prove_are_octets;

/// A block has 16 octets.
pub(crate) fn prove_block_fits(block: &[u8; 16])
    ensures { AreBytes 16 block.now }
{
    prove_are_octets(block);
}
