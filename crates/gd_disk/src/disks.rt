//! What a disk promises.
ghost use Rattle.std.specs.Prelude.{◌≡◌, ◌↔◌, ℕ, ◌+◌, ◌^◌, ◌≤◌, Bool, List, length, take, Option, Some, IsSome, IfOk, OnOk, OnErr};
ghost use Rattle.gd_disk.specs.Disks.{known, Knows, IsRead, written, Torn, Cut, Steps, Follows, Narrows, Only, Elapses};
ghost use Rattle.group_terms.specs.Faults.{Rose};

use crate::Failed;

/// A file of octets that keeps what was synced, whatever happens. Until a sync a crash may leave
/// any octets in the ranges that were written, and past the old end. Places and ends are at most
/// 2^62.
pub trait Disk {
    /// How many of its calls failed.
    ghost faults: { Self → ℕ };

    /// Whether reads and crashes are as promised here.
    ghost honest: { Self → Bool };

    /// The octets that a read gives, where it exposes them.
    ghost image: { Self → Option (List ℕ) };

    /// The moment, as a number that does not fall.
    ghost moment: { Self → ℕ };

    /// The images that a crash at this moment may leave.
    ghost may_leave: { Self → List ℕ → Type 0 };

    /// The images that a crash at some moment from that one on might have left, during a call or
    /// between two.
    ghost left_since: { Self → ℕ → List ℕ → Type 0 };

    /// Moves the octets from a place on to the front of `into`, as many as are there and fit, and
    /// says how many.
    fn read(&mut self, at: u64, into: &mut [u8]) -> Result<usize, Failed>
        ensures count { IfOk result (λ n. n ≤ length into.new) }
        ensures far { 2 ^ 62 ≤ at → IfOk result (λ n. n ≡ 0) }
        ensures octets { IfOk result (λ n. Knows (known honest image self.old)
            (λ file. IsRead file at (length into.old) n into.new)) }
        ensures image { known honest image self.new ≡ known honest image self.old }
        ensures crash { Knows (known honest image self.old)
            (λ _. (c : List ℕ) → may_leave self.new c ↔ may_leave self.old c) }
        ensures time { Elapses (moment self.old) (moment self.new)
            (left_since self.old) (left_since self.new) (may_leave self.new) }
        ensures honest { honest self.new ≡ honest self.old }
        ensures exposed { IsSome (image self.new) ↔ IsSome (image self.old) }
        ensures cause { OnErr result (Rose (faults self.old) (faults self.new)) }
        ensures no_fault { OnOk result (faults self.new ≡ faults self.old) }
        ensures counted { faults self.old ≤ faults self.new };

    /// Writes the octets over those at a place, and past the end. Where it fails, any part may be
    /// written.
    fn write_at(&mut self, at: u64, octets: &[u8]) -> Result<(), Failed>
        requires { Knows (known honest image self.old) (λ file. at ≤ length file) }
        ensures far { OnOk result (at + length octets.now ≤ 2 ^ 62) }
        ensures image { OnOk result (Knows (known honest image self.old)
            (λ file. known honest image self.new ≡ Some (written file at octets.now))) }
        ensures failed { OnErr result (Steps (Torn at (length octets.now))
            (known honest image self.old) (known honest image self.new)) }
        ensures crash { Knows (known honest image self.old)
            (λ _. Follows (Torn at (length octets.now)) (may_leave self.old) (may_leave self.new)) }
        ensures time { Elapses (moment self.old) (moment self.new)
            (left_since self.old) (left_since self.new) (may_leave self.new) }
        ensures honest { honest self.new ≡ honest self.old }
        ensures exposed { IsSome (image self.new) ↔ IsSome (image self.old) }
        ensures cause { OnErr result (Rose (faults self.old) (faults self.new)) }
        ensures no_fault { OnOk result (faults self.new ≡ faults self.old) }
        ensures counted { faults self.old ≤ faults self.new };

    /// Cuts all octets from a place on. Where it fails, they may be cut in part.
    fn cut(&mut self, to: u64) -> Result<(), Failed>
        requires { Knows (known honest image self.old) (λ file. to ≤ length file) }
        ensures image { OnOk result (Knows (known honest image self.old)
            (λ file. known honest image self.new ≡ Some (take to file))) }
        ensures failed { OnErr result (Steps (Cut to)
            (known honest image self.old) (known honest image self.new)) }
        ensures crash { Knows (known honest image self.old)
            (λ _. Follows (Cut to) (may_leave self.old) (may_leave self.new)) }
        ensures time { Elapses (moment self.old) (moment self.new)
            (left_since self.old) (left_since self.new) (may_leave self.new) }
        ensures honest { honest self.new ≡ honest self.old }
        ensures exposed { IsSome (image self.new) ↔ IsSome (image self.old) }
        ensures cause { OnErr result (Rose (faults self.old) (faults self.new)) }
        ensures no_fault { OnOk result (faults self.new ≡ faults self.old) }
        ensures counted { faults self.old ≤ faults self.new };

    /// Waits until all octets are on the device: from then on a crash leaves what a read gives.
    fn sync(&mut self) -> Result<(), Failed>
        ensures durable { OnOk result (Knows (known honest image self.old)
            (λ file. Only file (may_leave self.new))) }
        ensures image { known honest image self.new ≡ known honest image self.old }
        ensures crash { Knows (known honest image self.old)
            (λ _. Narrows (may_leave self.old) (may_leave self.new)) }
        ensures time { Elapses (moment self.old) (moment self.new)
            (left_since self.old) (left_since self.new) (may_leave self.new) }
        ensures honest { honest self.new ≡ honest self.old }
        ensures exposed { IsSome (image self.new) ↔ IsSome (image self.old) }
        ensures cause { OnErr result (Rose (faults self.old) (faults self.new)) }
        ensures no_fault { OnOk result (faults self.new ≡ faults self.old) }
        ensures counted { faults self.old ≤ faults self.new };

    /// What a read gives is an image that a crash may leave.
    ghost reads_stay: { (disk : Self) (file : List ℕ) →
        known honest image disk ≡ Some file → may_leave disk file };

    /// This moment is one of those since an earlier one.
    ghost counts_now: { (disk : Self) (t : ℕ) (c : List ℕ) →
        t ≤ moment disk → may_leave disk c → left_since disk t c };

    /// Since this moment there is no other.
    ghost only_now: { (disk : Self) (c : List ℕ) →
        left_since disk (moment disk) c → may_leave disk c };
}
