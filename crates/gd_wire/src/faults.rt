//! Faults of a datagram, each with its place.
ghost use Rattle.std.specs.Prelude.{◌≡◌};
ghost use Rattle.gd_wire.specs.Faults.{fault_at};

use group_terms::{WireFault, WireWhat};

/// A fault at a place of a datagram.
pub fn fault(what: WireWhat, at: u32) -> WireFault
    ensures { result ≡ fault_at what at }
{
    WireFault { what, at }
}
