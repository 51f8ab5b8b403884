//! Numbers that are appended to a text, the highest octet first.
ghost use Rattle.std.specs.Prelude.{◌≡◌, ◌++◌, OnOk, OnErr};
ghost use Rattle.byteorder.specs.Endian.{big_bytes};

use group_terms::{NoMemory, Octets};

/// Appends a number in 2 octets.
pub fn write_u16(number: u16, out: &mut Octets) -> Result<(), NoMemory>
    ensures ok { OnOk result (out.new ≡ out.old ++ big_bytes 2 number) }
    ensures err { OnErr result (out.new ≡ out.old) }
{
    out.extend(&number.to_be_bytes())
}

/// Appends a number in 4 octets.
pub fn write_u32(number: u32, out: &mut Octets) -> Result<(), NoMemory>
    ensures ok { OnOk result (out.new ≡ out.old ++ big_bytes 4 number) }
    ensures err { OnErr result (out.new ≡ out.old) }
{
    out.extend(&number.to_be_bytes())
}
