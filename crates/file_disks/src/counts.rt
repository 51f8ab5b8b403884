//! Calls that fail, counted.
ghost use Rattle.std.specs.Prelude.{◌≡◌, ◌≤◌, OnOk, OnErr};
ghost use Rattle.group_terms.specs.Faults.{Rose};

use gd_disk::Failed;
use group_terms::counted_on;

/// Counts a fault where a call failed.
pub(crate) fn counted<T>(faults: &mut u64, answer: Result<T, Failed>) -> Result<T, Failed>
    ensures same { result ≡ answer }
    ensures cause { OnErr result (Rose faults.old faults.new) }
    ensures no_fault { OnOk result (faults.new ≡ faults.old) }
    ensures no_less { faults.old ≤ faults.new }
{
    match answer {
        Ok(value) => Ok(value),
        Err(Failed) => {
            *faults = counted_on(*faults);
            Err(Failed)
        }
    }
}
