//! How a run ends.
ghost use Rattle.std.specs.Prelude.{◌≡◌, ◌≤◌};
ghost use Rattle.run_report.specs.Reports.{status_of, line_at};

/// How a run ended.
#[derive(Clone, Copy, PartialEq, Eq)]
pub enum Ending {
    /// The whole script was run.
    Whole,
    /// The words ask for no group.
    NoGroup,
    /// The line of this number, counted from 1, is not of the grammar or is past a limit.
    BadLine { line: u32 },
    /// The source failed.
    Source,
    /// The sink failed.
    Sink,
    /// Memory ran out.
    Memory,
    /// The group could not be opened: the disk failed, or it has the journal of no group.
    NotOpened,
}

impl Ending {
    /// The exit status: 0 for the whole script, 1 to 6 for the other endings in their order.
    pub fn status(self) -> u8
        ensures { result ≡ status_of self }
    {
        match self {
            Ending::Whole => 0,
            Ending::NoGroup => 1,
            Ending::BadLine { .. } => 2,
            Ending::Source => 3,
            Ending::Sink => 4,
            Ending::Memory => 5,
            Ending::NotOpened => 6,
        }
    }

    /// The number of the line at which the run ended; 0 where it was none.
    pub fn line(self) -> u32
        ensures { result ≡ line_at self }
    {
        match self {
            Ending::BadLine { line } => line,
            Ending::Whole
            | Ending::NoGroup
            | Ending::Source
            | Ending::Sink
            | Ending::Memory
            | Ending::NotOpened => 0,
        }
    }
}
