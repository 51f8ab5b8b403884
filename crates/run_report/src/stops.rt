//! How the run of a script can stop early.
ghost use Rattle.std.specs.Prelude.{◌≡◌};
ghost use Rattle.run_report.specs.declared.stops.Stop.TheVariants.{Memory};

use group_model::NoMemory;

/// Why a run stops before its script ends.
#[derive(Clone, Copy)]
pub enum Stop {
    /// A line is not of the grammar, or is past a limit.
    Line,
    /// The source failed.
    Source,
    /// The sink failed.
    Sink,
    /// Memory ran out, and all that happened is reported.
    Memory,
    /// Memory ran out for the report of what happened last.
    Unreported,
}

impl From<NoMemory> for Stop {
    ghost from_gives = { λ _ stop. stop ≡ Memory };

    fn from(_error: NoMemory) -> Self {
        Stop::Memory
    }
}
