//! Which of the two pushes an SA payload says that it is.
ghost use Rattle.std.specs.Prelude.{◌≡◌, ◌+◌, ◌≤◌, ◌==◌, length};
ghost use Rattle.std.specs.Str.{bytes_eq};
ghost use Rattle.gd_wire.specs.Faults.{fault_at};
ghost use Rattle.gd_wire.specs.Readings.{Cursor, Gives, check};
ghost use Rattle.group_terms.specs.declared.wires.WireWhat.TheVariants.{Kind, Value};
ghost use Rattle.push_msg.specs.Readings.{due_sign, membership, row_of, row};

use gd_wire::fault;
use gd_wire::kinds::SA;
use group_terms::{SignKind, WireFault, WireWhat};
use sa_wire::{PlacedKek, PlacedSa, read_placed_sa};

/// Which push it is: one of keys of the tree, for the Rekey SA with this SPI, or one of the traffic key with this SPI.
#[derive(Clone, Copy)]
pub(crate) enum Row {
    Membership { spi: [u8; 16] },
    Traffic { spi: [u8; 4] },
}

/// Reads the body of the SA payload of a push for this SPI, whose signature the verifier checks as one of this kind.
#[tactic(auto, unfolding(crate::specs::Readings::row))]
pub(crate) fn read_row(
    spi: &[u8; 16],
    sign: SignKind,
    base: u32,
    body: &[u8],
) -> Result<Row, WireFault>
    requires small { base + length body.now ≤ 4294967295 }
    ensures { (cursor : Cursor) → Gives result cursor (row spi.now sign base body.now cursor) }
{
    let sa = read_placed_sa(body, base)?;
    row_of(spi, sign, base, &sa)
}

/// The push with these policies.
fn row_of(spi: &[u8; 16], sign: SignKind, base: u32, sa: &PlacedSa) -> Result<Row, WireFault>
    ensures { (cursor : Cursor) → Gives result cursor (row_of spi.now sign base sa.now.kek sa.now.tek cursor) }
{
    match (&sa.kek, &sa.tek) {
        (Some(kek), None) => membership(spi, sign, kek),
        (None, Some(tek)) => Ok(Row::Traffic {
            spi: tek.policy.spi,
        }),
        (None, None) => Err(other_shape(base)),
        (Some(_), Some(_)) => Err(other_shape(base)),
    }
}

fn other_shape(base: u32) -> WireFault
    ensures { result ≡ fault_at (Kind 1) base }
{
    let number = u16::from(SA);
    fault(WireWhat::Kind { number }, base)
}

/// The policy of the KEK is for this SPI, and says that pushes have signatures of this kind.
#[tactic(auto, unfolding(crate::specs::Readings::membership))]
fn membership(spi: &[u8; 16], sign: SignKind, kek: &PlacedKek) -> Result<Row, WireFault>
    ensures { (cursor : Cursor) → Gives result cursor (membership spi.now sign kek.now cursor) }
{
    due_spi(spi, kek)?;
    due_sign(sign, kek)?;
    Ok(Row::Membership {
        spi: kek.policy.spi,
    })
}

/// The policy of the KEK is for this SPI.
fn due_spi(spi: &[u8; 16], kek: &PlacedKek) -> Result<(), WireFault>
    ensures { (cursor : Cursor) → Gives result cursor (check (bytes_eq kek.now.policy.spi spi.now) Value kek.now.spi_at cursor) }
{
    if kek.policy.spi != *spi {
        return Err(fault(WireWhat::Value, kek.spi_at));
    }
    Ok(())
}

/// The policy of the KEK says that pushes have signatures of this kind; of two differences the one at the earlier place is told.
#[tactic(auto, unfolding(crate::specs::Readings::due_sign))]
fn due_sign(sign: SignKind, kek: &PlacedKek) -> Result<(), WireFault>
    ensures { (cursor : Cursor) → Gives result cursor (due_sign sign kek.now cursor) }
{
    if kek.algorithm_at < kek.key_bits_at {
        due_algorithm(sign, kek)?;
        due_key_bits(sign, kek)
    } else {
        due_key_bits(sign, kek)?;
        due_algorithm(sign, kek)
    }
}

fn due_algorithm(sign: SignKind, kek: &PlacedKek) -> Result<(), WireFault>
    ensures { (cursor : Cursor) →
        Gives result cursor (check (kek.now.policy.sign.algorithm == sign.algorithm) Value kek.now.algorithm_at cursor) }
{
    if kek.policy.sign.algorithm != sign.algorithm {
        return Err(fault(WireWhat::Value, kek.algorithm_at));
    }
    Ok(())
}

fn due_key_bits(sign: SignKind, kek: &PlacedKek) -> Result<(), WireFault>
    ensures { (cursor : Cursor) →
        Gives result cursor (check (kek.now.policy.sign.key_bits == sign.key_bits) Value kek.now.key_bits_at cursor) }
{
    if kek.policy.sign.key_bits != sign.key_bits {
        return Err(fault(WireWhat::Value, kek.key_bits_at));
    }
    Ok(())
}
