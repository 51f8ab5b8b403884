//! The calls of a disk in memory.
ghost use Rattle.std.specs.Prelude.{◌≡◌, ◌↔◌, ℕ, ◌+◌, ◌^◌, ◌≤◌, List as Items, length, take, true, Some, IsSome, IsTrue, IsErr, is_err, IfOk, OnOk, OnErr};
ghost use Rattle.std.proofs.Common.{inl};
ghost use Rattle.gd_disk.specs.Disks.{Knows, IsRead, written, Torn, Cut, Steps, Follows, Narrows, Only, Elapses};
ghost use Rattle.group_terms.specs.Faults.{Rose, fails_next};
ghost use Rattle.gd_disk.specs.Media.{MayLeave, LeftSince, called, failing, wrote, shortened, synced};
ghost use Rattle.gd_disk.specs.MediaLaws.{read_stays, only_now_in};

use crate::{Disk, Failed, MemDisk};

impl Disk for MemDisk {
    ghost faults = { λ disk. disk.faults };

    ghost honest = { λ _. true };

    ghost image = { λ disk. Some disk.image };

    ghost moment = { λ disk. length disk.events };

    ghost may_leave = { λ disk c. MayLeave disk.image disk.events c };

    ghost left_since = { λ disk t c. LeftSince disk.image disk.events t c };

    ghost reads_stay = { λ disk file is. read_stays disk.image disk.events file is };

    ghost counts_now = { λ disk t c earlier now. inl now };

    ghost only_now = { λ disk c left. only_now_in disk.image disk.events c left };

    /// A call that is listed fails; any other gives all octets that are there and fit.
    fn read(&mut self, at: u64, into: &mut [u8]) -> Result<usize, Failed>
        ensures count { IfOk result (λ n. n ≤ length into.new) }
        ensures far { 2 ^ 62 ≤ at → IfOk result (λ n. n ≡ 0) }
        ensures octets { IfOk result (λ n. Knows (Some self.old.image)
            (λ file. IsRead file at (length into.old) n into.new)) }
        ensures image { Some self.new.image ≡ Some self.old.image }
        ensures crash { Knows (Some self.old.image) (λ _. (c : Items ℕ) →
            MayLeave self.new.image self.new.events c ↔ MayLeave self.old.image self.old.events c) }
        ensures time { Elapses (length self.old.events) (length self.new.events)
            (LeftSince self.old.image self.old.events) (LeftSince self.new.image self.new.events)
            (MayLeave self.new.image self.new.events) }
        ensures honest { true ≡ true }
        ensures exposed { IsSome (Some self.new.image) ↔ IsSome (Some self.old.image) }
        ensures cause { OnErr result (Rose self.old.faults self.new.faults) }
        ensures no_fault { OnOk result (self.new.faults ≡ self.old.faults) }
        ensures counted { self.old.faults ≤ self.new.faults }
        ensures done { OnOk result (self.new ≡ called self.old) }
        ensures undone { OnErr result (self.new ≡ failing self.old) }
        ensures listed { is_err result ≡ fails_next self.old.calls self.old.fails }
    {
        self.read_or_fail(at, into)
    }

    /// A call that is listed fails, and so does one that would end past 2^62 or for which there is
    /// no memory. One that fails changes nothing.
    fn write_at(&mut self, at: u64, octets: &[u8]) -> Result<(), Failed>
        requires { Knows (Some self.old.image) (λ file. at ≤ length file) }
        ensures far { OnOk result (at + length octets.now ≤ 2 ^ 62) }
        ensures image { OnOk result (Knows (Some self.old.image)
            (λ file. Some self.new.image ≡ Some (written file at octets.now))) }
        ensures failed { OnErr result (Steps (Torn at (length octets.now))
            (Some self.old.image) (Some self.new.image)) }
        ensures crash { Knows (Some self.old.image) (λ _. Follows (Torn at (length octets.now))
            (MayLeave self.old.image self.old.events) (MayLeave self.new.image self.new.events)) }
        ensures time { Elapses (length self.old.events) (length self.new.events)
            (LeftSince self.old.image self.old.events) (LeftSince self.new.image self.new.events)
            (MayLeave self.new.image self.new.events) }
        ensures honest { true ≡ true }
        ensures exposed { IsSome (Some self.new.image) ↔ IsSome (Some self.old.image) }
        ensures cause { OnErr result (Rose self.old.faults self.new.faults) }
        ensures no_fault { OnOk result (self.new.faults ≡ self.old.faults) }
        ensures counted { self.old.faults ≤ self.new.faults }
        ensures done { OnOk result (self.new ≡ wrote self.old at octets.now) }
        ensures undone { OnErr result (self.new ≡ failing self.old) }
        ensures listed { IsTrue (fails_next self.old.calls self.old.fails) → IsErr result }
    {
        self.write_or_fail(at, octets)
    }

    /// A call that is listed fails, and so does one for which there is no memory. One that fails
    /// changes nothing.
    fn cut(&mut self, to: u64) -> Result<(), Failed>
        requires { Knows (Some self.old.image) (λ file. to ≤ length file) }
        ensures image { OnOk result (Knows (Some self.old.image)
            (λ file. Some self.new.image ≡ Some (take to file))) }
        ensures failed { OnErr result (Steps (Cut to)
            (Some self.old.image) (Some self.new.image)) }
        ensures crash { Knows (Some self.old.image) (λ _. Follows (Cut to)
            (MayLeave self.old.image self.old.events) (MayLeave self.new.image self.new.events)) }
        ensures time { Elapses (length self.old.events) (length self.new.events)
            (LeftSince self.old.image self.old.events) (LeftSince self.new.image self.new.events)
            (MayLeave self.new.image self.new.events) }
        ensures honest { true ≡ true }
        ensures exposed { IsSome (Some self.new.image) ↔ IsSome (Some self.old.image) }
        ensures cause { OnErr result (Rose self.old.faults self.new.faults) }
        ensures no_fault { OnOk result (self.new.faults ≡ self.old.faults) }
        ensures counted { self.old.faults ≤ self.new.faults }
        ensures done { OnOk result (self.new ≡ shortened self.old to) }
        ensures undone { OnErr result (self.new ≡ failing self.old) }
        ensures listed { IsTrue (fails_next self.old.calls self.old.fails) → IsErr result }
    {
        self.cut_or_fail(to)
    }

    /// A call that is listed fails, and so does one for which there is no memory. One that fails
    /// changes nothing.
    fn sync(&mut self) -> Result<(), Failed>
        ensures durable { OnOk result (Knows (Some self.old.image)
            (λ file. Only file (MayLeave self.new.image self.new.events))) }
        ensures image { Some self.new.image ≡ Some self.old.image }
        ensures crash { Knows (Some self.old.image) (λ _. Narrows
            (MayLeave self.old.image self.old.events) (MayLeave self.new.image self.new.events)) }
        ensures time { Elapses (length self.old.events) (length self.new.events)
            (LeftSince self.old.image self.old.events) (LeftSince self.new.image self.new.events)
            (MayLeave self.new.image self.new.events) }
        ensures honest { true ≡ true }
        ensures exposed { IsSome (Some self.new.image) ↔ IsSome (Some self.old.image) }
        ensures cause { OnErr result (Rose self.old.faults self.new.faults) }
        ensures no_fault { OnOk result (self.new.faults ≡ self.old.faults) }
        ensures counted { self.old.faults ≤ self.new.faults }
        ensures done { OnOk result (self.new ≡ synced self.old) }
        ensures undone { OnErr result (self.new ≡ failing self.old) }
        ensures listed { IsTrue (fails_next self.old.calls self.old.fails) → IsErr result }
    {
        self.sync_or_fail()
    }
}
