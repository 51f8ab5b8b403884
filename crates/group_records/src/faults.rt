//! Why a record is not read.
ghost use Rattle.std.specs.Prelude.{◌≡◌};
ghost use Rattle.group_records.specs.declared.faults.RecordFault.TheVariants as faults;

use gd_wire::WireFault;
use group_terms::NoMemory;
use thiserror::Error;

/// Why a record is not read.
#[derive(Clone, Copy, Debug, PartialEq, Eq, Error)]
pub enum RecordFault {
    /// It has another form; the first fault, by its place in the record.
    #[error("no record of a group: {fault}")]
    Malformed { fault: WireFault },
    /// Out of memory for it.
    #[error("no memory")]
    NoMemory,
}

impl From<WireFault> for RecordFault {
    ghost from_gives = { λ fault why. why ≡ faults.Malformed fault };

    fn from(fault: WireFault) -> Self {
        RecordFault::Malformed { fault }
    }
}

impl From<NoMemory> for RecordFault {
    ghost from_gives = { λ _ why. why ≡ faults.NoMemory };

    fn from(_: NoMemory) -> Self {
        RecordFault::NoMemory
    }
}
