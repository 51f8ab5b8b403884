//! Where octets come from.
ghost use Rattle.std.specs.Prelude.{◌≡◌, ◌<◌, ◌≤◌, length, take, Ok, IfOk, OnOk, OnErr};
ghost use Rattle.std.specs.Io.KnownBytes.{Consumes, Keeps, IsAtEnd};
ghost use Rattle.group_terms.specs.Faults.{Rose};
ghost use Rattle.gd_edges.specs.Shown.{Shown};

use crate::Failed;

/// Where octets come from.
pub trait Source {
    /// The octets that are left, where it exposes them, and how many of its calls failed.
    ghost shows: { Self → Shown };

    /// Moves octets to the front of `into`, and says how many; 0 only at the end.
    fn take(&mut self, into: &mut [u8]) -> Result<usize, Failed>
        requires { 0 < length into.old }
        ensures count { IfOk result (λ n. n ≤ length into.new) }
        ensures moved { IfOk result
            (λ n. Consumes (shows self.old).octets (shows self.new).octets (take n into.new)) }
        ensures end { result ≡ Ok 0 → IsAtEnd (shows self.old).octets }
        ensures failed { OnErr result (Keeps (shows self.old).octets (shows self.new).octets) }
        ensures cause { OnErr result (Rose (shows self.old).faults (shows self.new).faults) }
        ensures no_fault { OnOk result ((shows self.new).faults ≡ (shows self.old).faults) }
        ensures counted { (shows self.old).faults ≤ (shows self.new).faults };
}
