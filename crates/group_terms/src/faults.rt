//! A call to the outside that failed, and the count of such faults.
ghost use Rattle.std.specs.Prelude.{◌≡◌, ◌≤◌};
ghost use Rattle.group_terms.specs.Faults.{Rose, one_more};

/// A call to the outside failed; the object that was called counted a fault.
#[derive(Clone, Copy, PartialEq, Eq)]
pub struct Failed;

/// The count of calls or faults with one more; at its last value it stays.
pub fn counted_on(count: u64) -> u64
    ensures value { result ≡ one_more count }
    ensures rose { Rose count result }
    ensures no_less { count ≤ result }
{
    count.saturating_add(1)
}
