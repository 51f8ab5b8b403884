//! What the octets of a commit mark and a length say.
ghost use Rattle.std.specs.Prelude.{◌≡◌, ◌≤◌, ℕ};
ghost use Rattle.journal_gates.specs.Heads.{head_in};
ghost use Rattle.journal_gates.specs.declared.heads.Head.TheVariants.{Open};

use crate::gates::OPEN;
use byteorder::{BigEndian, ByteOrder};

/// The most octets of a record's body.
pub const MOST: usize = 65_536;

/// What the octets of a commit mark and a length say.
#[derive(Clone, Copy)]
pub enum Head {
    /// The commit mark is clear.
    Shut,
    /// The commit mark is set, and the record's body has `size` octets.
    Open { size: usize },
    /// There is no commit mark, or no length within its limit after a set one.
    Broken,
}

/// What octets at a commit mark say, of which five are enough.
pub fn head_in(octets: &[u8]) -> Head
    ensures head { result ≡ head_in octets.now }
    ensures short { (size : ℕ) → result ≡ Open size → size ≤ 65536 }
{
    let Some((gate, rest)) = octets.split_first() else {
        return Head::Broken;
    };
    if *gate != OPEN {
        return Head::Shut;
    }
    if rest.len() < 4 {
        return Head::Broken;
    }
    let size = BigEndian::read_u32(rest) as usize;
    if size > MOST {
        return Head::Broken;
    }
    Head::Open { size }
}
