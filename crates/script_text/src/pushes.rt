//! The lines of pushes.
ghost use Rattle.std.specs.Prelude.{◌≡◌, ◌≤◌, [], ◌∷◌, ◌++◌, length, OnOk};
ghost use Rattle.std.specs.Fmt.{decimal};
ghost use Rattle.hex.specs.Hex.{encode_lower};
ghost use Rattle.script_text.specs.Report.{line_with, push_line, pair_lines, push_why_text};

use crate::numbers::{append_number, append_place};
use group_model::{NoMemory, Octets, PushPair, PushRefusal};

/// How many octets are written in hex at a time.
const PIECE: usize = 64;

/// How many digits they have.
const DIGITS: usize = 2 * PIECE;

/// Puts a line for each push of a pair at the end of a text, where there is one.
pub fn append_pair(pair: &Option<PushPair>, out: &mut Octets) -> Result<(), NoMemory>
    ensures { OnOk result (out.new ≡ out.old ++ pair_lines pair.now) }
{
    match pair {
        Some(pair) => {
            let first = u64::from(pair.first);
            append_push(first, pair.membership.as_slice(), out)?;
            append_push(first + 1, pair.traffic.as_slice(), out)
        }
        None => Ok(()),
    }
}

fn append_push(sequence: u64, octets: &[u8], out: &mut Octets) -> Result<(), NoMemory>
    ensures { OnOk result (out.new ≡ out.old ++ push_line sequence octets.now) }
{
    out.extend(b"push ")?;
    append_place(sequence, out)?;
    append_octets(octets, out)
}

/// Puts the end of the line of a push or a message at the end of a text: how many octets it has, and the octets in hex.
pub fn append_octets(octets: &[u8], out: &mut Octets) -> Result<(), NoMemory>
    ensures { OnOk result (out.new ≡ out.old ++ 32 ∷ line_with (decimal (length octets.now) ∷ encode_lower octets.now ∷ [])) }
{
    out.extend(b" ")?;
    append_place(octets.len() as u64, out)?;
    out.extend(b" ")?;
    append_hex(octets, out)?;
    out.extend(b"\n")
}

/// Puts octets at the end of a text, in hex of lower case.
pub fn append_hex(octets: &[u8], out: &mut Octets) -> Result<(), NoMemory>
    ensures { OnOk result (out.new ≡ out.old ++ encode_lower octets.now) }
{
    let mut rest = octets;
    while !rest.is_empty() {
        let (piece, others) = rest.split_at(rest.len().min(PIECE));
        append_piece(piece, out)?;
        rest = others;
    }
    Ok(())
}

/// Puts a few octets at the end of a text, in hex of lower case.
fn append_piece(octets: &[u8], out: &mut Octets) -> Result<(), NoMemory>
    requires { length octets.now ≤ 64 }
    ensures { OnOk result (out.new ≡ out.old ++ encode_lower octets.now) }
{
    let mut room = [0; DIGITS];
    let (text, _) = room.split_at_mut(2 * octets.len());
    hex::encode_to_slice(octets, text).unwrap();
    out.extend(text)
}

/// Puts the reason for which a member takes no push at the end of a text.
pub fn append_push_refusal(why: &PushRefusal, out: &mut Octets) -> Result<(), NoMemory>
    ensures { OnOk result (out.new ≡ out.old ++ push_why_text why.now) }
{
    match why {
        PushRefusal::OtherSpi { .. } => out.extend(b"other-spi"),
        PushRefusal::Malformed { .. } => out.extend(b"malformed"),
        PushRefusal::BadSignature => out.extend(b"bad-signature"),
        PushRefusal::Stale { last, got } => {
            out.extend(b"stale ")?;
            append_number(*last, out)?;
            out.extend(b" ")?;
            append_number(*got, out)
        }
        PushRefusal::NoPath { leaf } => {
            out.extend(b"no-path ")?;
            append_number(u32::from(leaf.number()), out)
        }
    }
}
