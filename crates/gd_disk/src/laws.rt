//! Laws of what a crash leaves.
ghost use Rattle.std.specs.Prelude.{ℕ, ◌≤◌, List, length, take};
ghost use Rattle.gd_disk.specs.Disks.{Torn, Cut, written};

/// A crash in a write or a cut may leave nothing of it, and all of it.
pub fn a_crash_may_leave_nothing_or_all()
    ensures nothing_written { (at n : ℕ) (file : List ℕ) → Torn at n file file }
    ensures all_written { (at : ℕ) (file octets : List ℕ) → at ≤ length file → Torn at (length octets) file (written file at octets) }
    ensures nothing_cut { (to : ℕ) (file : List ℕ) → Cut to file file }
    ensures all_cut { (to : ℕ) (file : List ℕ) → to ≤ length file → Cut to file (take to file) }
{}
