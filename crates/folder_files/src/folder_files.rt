//! What an operating system does with one file of one folder.
ghost use Rattle.std.specs.Prelude.{◌≡◌, ◌↔◌, ℕ, ◌+◌, ◌^◌, ◌<◌, ◌≤◌, Bool, false, List, length, take, Option, Some, IsSome, IsTrue, IfOk, OnOk, OnErr};
ghost use Rattle.gd_disk.specs.Disks.{known, Knows, written, Torn, Cut, Steps, Follows, Narrows, Only, Elapses};
ghost use Rattle.group_terms.specs.Faults.{Rose};
ghost use Rattle.folder_files.specs.Files.{Standing, IsHeld, IsPartRead};

use gd_disk::Failed;

/// A file of a folder. To reads and to a loss of power a file that is not there is as an empty one.
///
/// It is opened, and its lock is taken, before it is read or written. What was written is on the device after a sync, and the file itself
/// after a sync of its folder. After a sync of either that failed it may not be used.
pub trait FolderFile {
    /// How many of its calls failed.
    ghost faults: { Self → ℕ };

    /// Whether reads and losses of power are as promised here.
    ghost honest: { Self → Bool };

    /// The octets that a read gives, where it exposes them.
    ghost image: { Self → Option (List ℕ) };

    /// The moment, as a number that does not fall.
    ghost moment: { Self → ℕ };

    /// The images that a loss of power at this moment may leave: as long as the folder does not have the file on the device, also the
    /// empty one.
    ghost may_leave: { Self → List ℕ → Type 0 };

    /// The images that a loss of power at some moment from that one on might have left, during a call or between two.
    ghost left_since: { Self → ℕ → List ℕ → Type 0 };

    /// Whether it is open, locked, listed and sound.
    ghost standing: { Self → Standing };

    /// Opens the file, and makes it where it is not there. A lock that was held is let go.
    fn open(&mut self) -> Result<(), Failed>
        requires { IsTrue (standing self.old).is_sound }
        ensures open { OnOk result (IsTrue (standing self.new).is_open) }
        ensures sound { (standing self.new).is_sound ≡ (standing self.old).is_sound }
        ensures image { known honest image self.new ≡ known honest image self.old }
        ensures crash { (c : List ℕ) → may_leave self.new c ↔ may_leave self.old c }
        ensures time { Elapses (moment self.old) (moment self.new)
            (left_since self.old) (left_since self.new) (may_leave self.new) }
        ensures honest { honest self.new ≡ honest self.old }
        ensures exposed { IsSome (image self.new) ↔ IsSome (image self.old) }
        ensures cause { OnErr result (Rose (faults self.old) (faults self.new)) }
        ensures no_fault { OnOk result (faults self.new ≡ faults self.old) }
        ensures counted { faults self.old ≤ faults self.new };

    /// Takes the lock of the file, which no other process then has. Fails where another has it. Until it is taken others may change the file.
    fn lock(&mut self) -> Result<(), Failed>
        requires open { IsTrue (standing self.old).is_open }
        requires sound { IsTrue (standing self.old).is_sound }
        ensures locked { OnOk result (IsTrue (standing self.new).is_locked) }
        ensures sound { (standing self.new).is_sound ≡ (standing self.old).is_sound }
        ensures image { known honest image self.new ≡ known honest image self.old }
        ensures crash { (c : List ℕ) → may_leave self.new c ↔ may_leave self.old c }
        ensures time { Elapses (moment self.old) (moment self.new)
            (left_since self.old) (left_since self.new) (may_leave self.new) }
        ensures honest { honest self.new ≡ honest self.old }
        ensures exposed { IsSome (image self.new) ↔ IsSome (image self.old) }
        ensures cause { OnErr result (Rose (faults self.old) (faults self.new)) }
        ensures no_fault { OnOk result (faults self.new ≡ faults self.old) }
        ensures counted { faults self.old ≤ faults self.new };

    /// Moves octets from a place on to the front of `into`, and says how many: perhaps fewer than are there and fit, but none only where
    /// none are.
    fn read_at(&mut self, at: u64, into: &mut [u8]) -> Result<usize, Failed>
        requires held { IsHeld (standing self.old) }
        ensures count { IfOk result (λ n. n ≤ length into.new) }
        ensures octets { IfOk result (λ n. Knows (known honest image self.old)
            (λ file. IsPartRead file at (length into.old) n into.new)) }
        ensures standing { standing self.new ≡ standing self.old }
        ensures image { known honest image self.new ≡ known honest image self.old }
        ensures crash { (c : List ℕ) → may_leave self.new c ↔ may_leave self.old c }
        ensures time { Elapses (moment self.old) (moment self.new)
            (left_since self.old) (left_since self.new) (may_leave self.new) }
        ensures honest { honest self.new ≡ honest self.old }
        ensures exposed { IsSome (image self.new) ↔ IsSome (image self.old) }
        ensures cause { OnErr result (Rose (faults self.old) (faults self.new)) }
        ensures no_fault { OnOk result (faults self.new ≡ faults self.old) }
        ensures counted { faults self.old ≤ faults self.new };

    /// Writes octets over those at a place, and past the end: the first of them, and says how many, at least one. Where it fails, any part
    /// may be written.
    fn write_at(&mut self, at: u64, octets: &[u8]) -> Result<usize, Failed>
        requires held { IsHeld (standing self.old) }
        requires there { Knows (known honest image self.old) (λ file. at ≤ length file) }
        requires near { at + length octets.now ≤ 2 ^ 62 }
        requires some { 0 < length octets.now }
        ensures some { IfOk result (λ n. 0 < n) }
        ensures count { IfOk result (λ n. n ≤ length octets.now) }
        ensures image { IfOk result (λ n. Knows (known honest image self.old)
            (λ file. known honest image self.new ≡ Some (written file at (take n octets.now)))) }
        ensures failed { OnErr result (Steps (Torn at (length octets.now))
            (known honest image self.old) (known honest image self.new)) }
        ensures standing { standing self.new ≡ standing self.old }
        ensures crash { Knows (known honest image self.old)
            (λ _. Follows (Torn at (length octets.now)) (may_leave self.old) (may_leave self.new)) }
        ensures widens { Narrows (may_leave self.new) (may_leave self.old) }
        ensures time { Elapses (moment self.old) (moment self.new)
            (left_since self.old) (left_since self.new) (may_leave self.new) }
        ensures honest { honest self.new ≡ honest self.old }
        ensures exposed { IsSome (image self.new) ↔ IsSome (image self.old) }
        ensures cause { OnErr result (Rose (faults self.old) (faults self.new)) }
        ensures no_fault { OnOk result (faults self.new ≡ faults self.old) }
        ensures counted { faults self.old ≤ faults self.new };

    /// Cuts all octets from a place on. Where it fails, they may be cut in part.
    fn set_len(&mut self, to: u64) -> Result<(), Failed>
        requires held { IsHeld (standing self.old) }
        requires there { Knows (known honest image self.old) (λ file. to ≤ length file) }
        ensures image { OnOk result (Knows (known honest image self.old)
            (λ file. known honest image self.new ≡ Some (take to file))) }
        ensures failed { OnErr result (Steps (Cut to)
            (known honest image self.old) (known honest image self.new)) }
        ensures standing { standing self.new ≡ standing self.old }
        ensures crash { Knows (known honest image self.old)
            (λ _. Follows (Cut to) (may_leave self.old) (may_leave self.new)) }
        ensures time { Elapses (moment self.old) (moment self.new)
            (left_since self.old) (left_since self.new) (may_leave self.new) }
        ensures honest { honest self.new ≡ honest self.old }
        ensures exposed { IsSome (image self.new) ↔ IsSome (image self.old) }
        ensures cause { OnErr result (Rose (faults self.old) (faults self.new)) }
        ensures no_fault { OnOk result (faults self.new ≡ faults self.old) }
        ensures counted { faults self.old ≤ faults self.new };

    /// Waits until all octets of the file are on the device. Where its folder has it there too, a loss of power from then on leaves what a
    /// read gives.
    fn sync(&mut self) -> Result<(), Failed>
        requires held { IsHeld (standing self.old) }
        ensures durable { OnOk result (IsTrue (standing self.old).is_listed →
            Knows (known honest image self.old) (λ file. Only file (may_leave self.new))) }
        ensures standing { OnOk result (standing self.new ≡ standing self.old) }
        ensures lost { OnErr result ((standing self.new).is_sound ≡ false) }
        ensures image { known honest image self.new ≡ known honest image self.old }
        ensures crash { Narrows (may_leave self.old) (may_leave self.new) }
        ensures time { Elapses (moment self.old) (moment self.new)
            (left_since self.old) (left_since self.new) (may_leave self.new) }
        ensures honest { honest self.new ≡ honest self.old }
        ensures exposed { IsSome (image self.new) ↔ IsSome (image self.old) }
        ensures cause { OnErr result (Rose (faults self.old) (faults self.new)) }
        ensures no_fault { OnOk result (faults self.new ≡ faults self.old) }
        ensures counted { faults self.old ≤ faults self.new };

    /// Waits until the folder has the file on the device.
    fn sync_folder(&mut self) -> Result<(), Failed>
        requires held { IsHeld (standing self.old) }
        ensures held { OnOk result (IsHeld (standing self.new)) }
        ensures listed { OnOk result (IsTrue (standing self.new).is_listed) }
        ensures lost { OnErr result ((standing self.new).is_sound ≡ false) }
        ensures image { known honest image self.new ≡ known honest image self.old }
        ensures crash { Narrows (may_leave self.old) (may_leave self.new) }
        ensures time { Elapses (moment self.old) (moment self.new)
            (left_since self.old) (left_since self.new) (may_leave self.new) }
        ensures honest { honest self.new ≡ honest self.old }
        ensures exposed { IsSome (image self.new) ↔ IsSome (image self.old) }
        ensures cause { OnErr result (Rose (faults self.old) (faults self.new)) }
        ensures no_fault { OnOk result (faults self.new ≡ faults self.old) }
        ensures counted { faults self.old ≤ faults self.new };

    /// Does nothing, and says that no file ends past 2^62.
    fn prove_ends_near(&self)
        ensures { Knows (known honest image self.now) (λ file. length file ≤ 2 ^ 62) };

    /// What a read gives is an image that a loss of power may leave.
    ghost reads_stay: { (file : Self) (octets : List ℕ) →
        known honest image file ≡ Some octets → may_leave file octets };

    /// This moment is one of those since an earlier one.
    ghost counts_now: { (file : Self) (t : ℕ) (c : List ℕ) →
        t ≤ moment file → may_leave file c → left_since file t c };

    /// Since this moment there is no other.
    ghost only_now: { (file : Self) (c : List ℕ) →
        left_since file (moment file) c → may_leave file c };
}
