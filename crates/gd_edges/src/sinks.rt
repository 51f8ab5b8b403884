//! Where octets go to.
ghost use Rattle.std.specs.Prelude.{◌≡◌, ◌<◌, ◌≤◌, length, take, IfOk, OnOk, OnErr};
ghost use Rattle.std.specs.Io.KnownBytes.{Appends, Keeps};
ghost use Rattle.group_terms.specs.Faults.{Rose};
ghost use Rattle.gd_edges.specs.Shown.{Shown};

use crate::Failed;

/// Where octets go to.
pub trait Sink {
    /// All that was put, where it exposes that, and how many of its calls failed.
    ghost shows: { Self → Shown };

    /// Takes some of the octets at the front of `piece`, and says how many.
    fn put(&mut self, piece: &[u8]) -> Result<usize, Failed>
        requires { 0 < length piece.now }
        ensures count { IfOk result (λ n. (0 < n) × (n ≤ length piece.now)) }
        ensures appended { IfOk result
            (λ n. Appends (shows self.old).octets (shows self.new).octets (take n piece.now)) }
        ensures failed { OnErr result (Keeps (shows self.old).octets (shows self.new).octets) }
        ensures cause { OnErr result (Rose (shows self.old).faults (shows self.new).faults) }
        ensures no_fault { OnOk result ((shows self.new).faults ≡ (shows self.old).faults) }
        ensures counted { (shows self.old).faults ≤ (shows self.new).faults };
}
