//! Writing after a clear commit mark.
ghost use Rattle.std.specs.Prelude.{◌≡◌, ◌<◌, ◌≤◌, ◌+◌, ◌^◌, ◌++◌, [], ◌∷◌, ℕ, List, length, Some, IsErr, OnOk, OnErr};
ghost use Rattle.gd_disk.specs.Disks.{Knows, Only, Steps, Torn, written};
ghost use Rattle.gd_disk.specs.Moments.{shown, LeavesOnly, ReportsFaults};
ghost use Rattle.journal_gates.specs.Gates.{IsSplit, IsGated, IsTorn};

use gd_disk::{Disk, Failed, a_crash_may_leave_nothing_or_all};

/// A set commit mark.
pub const OPEN: u8 = 1;

/// A clear commit mark.
pub const SHUT: u8 = 0;

/// Writes a piece after a clear commit mark, and sets that mark when the piece is on the device. `Failed` where a call of the disk fails.
pub fn write_gated<D: Disk>(disk: &mut D, gate: u64, piece: &[u8]) -> Result<(), Failed>
    requires near { gate < 2 ^ 63 }
    requires there { Knows (shown D.Disk disk.old) (λ file. gate < length file) }
    ensures far { OnOk result (gate + 1 + length piece.now ≤ 2 ^ 62) }
    ensures done { OnOk result (Knows (shown D.Disk disk.old)
        (λ file. shown D.Disk disk.new ≡ Some (written (written file (gate + 1) piece.now) gate (1 ∷ [])))) }
    ensures durable { OnOk result (Knows (shown D.Disk disk.new) (λ file. Only file (D.may_leave disk.new))) }
    ensures in_doubt { (front : List ℕ) (shut : ℕ) (behind : List ℕ) → IsSplit (shown D.Disk disk.old) gate front shut behind →
        OnErr result (Knows (shown D.Disk disk.new) (IsGated front shut piece.now behind)) }
    ensures any_moment { (front : List ℕ) (shut : ℕ) (behind : List ℕ) → IsSplit (shown D.Disk disk.old) gate front shut behind →
        Only (front ++ shut ∷ behind) (D.may_leave disk.old) →
        LeavesOnly D.Disk disk.old disk.new (IsGated front shut piece.now behind) }
    ensures disk { ReportsFaults D.Disk (IsErr result) disk.old disk.new }
{
    write_through(disk, gate + 1, piece)?;
    write_through(disk, gate, &[OPEN])?;
    Ok(())
}

/// Writes octets at a place, and waits until all is on the device. `Failed` where a call of the disk fails.
pub fn write_through<D: Disk>(disk: &mut D, at: u64, octets: &[u8]) -> Result<(), Failed>
    requires { Knows (shown D.Disk disk.old) (λ file. at ≤ length file) }
    ensures far { OnOk result (at + length octets.now ≤ 2 ^ 62) }
    ensures done { OnOk result (Knows (shown D.Disk disk.old)
        (λ file. shown D.Disk disk.new ≡ Some (written file at octets.now))) }
    ensures durable { OnOk result (Knows (shown D.Disk disk.new) (λ file. Only file (D.may_leave disk.new))) }
    ensures in_doubt { OnErr result (Steps (Torn at (length octets.now)) (shown D.Disk disk.old) (shown D.Disk disk.new)) }
    ensures any_moment { Knows (shown D.Disk disk.old)
        (λ _. LeavesOnly D.Disk disk.old disk.new (IsTorn at (length octets.now) (D.may_leave disk.old))) }
    ensures disk { ReportsFaults D.Disk (IsErr result) disk.old disk.new }
{
    a_crash_may_leave_nothing_or_all();
    disk.write_at(at, octets)?;
    disk.sync()?;
    Ok(())
}
