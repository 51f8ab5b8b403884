//! What a run works with.
ghost use Rattle.std.specs.Prelude.{◌≤◌};

use std::alloc::Global;

/// What a run works with, and leaves as it is: threads, memory, how many workers run the lines of a block, who verifies pushes, and the gate that lines reach.
#[derive(Drop)]
pub(crate) struct Tools<'a, T, V, W> {
    pub(crate) rt: &'a T,
    pub(crate) alloc: Global,
    pub(crate) workers: u8,
    pub(crate) verifier: &'a V,
    pub(crate) gate: &'a W,
    ghost few_workers: { (1 ≤ workers) × (workers ≤ 16) },
}
