//! The program's answer.
ghost use Rattle.std.specs.Prelude.{◌≡◌};
ghost use Rattle.ampi.specs.Status.{exit_number};

/// The program's answer.
#[derive(Clone, Copy, Debug, PartialEq, Eq)]
pub enum Status {
    /// Every rank ended.
    Done,
    /// The words ask for nothing that is built.
    Usage,
    /// The file of this number, from 0, could not be read.
    ReadFault { file: u32 },
    /// The file has more bytes than a source may have.
    TooLong { file: u32 },
    /// The source is refused, at this line and for this cause.
    Source { file: u32, line: u32, cause: u16 },
    /// No rank was trapped or stopped at the bound on its ticks, and one waits for ever.
    Deadlock,
    /// No rank was trapped, and one that hasn't ended is at the bound on its ticks.
    OutOfTicks,
    /// A rank was trapped, and this is the least.
    Trapped { rank: u32 },
    /// The output or the journal could not be written.
    WriteFault,
    /// Memory ran out.
    NoMemory,
}

impl Status {
    /// The number that the process ends with.
    pub fn number(self) -> u8
        ensures { result ≡ exit_number self }
    {
        match self {
            Status::Done => 0,
            Status::Usage => 1,
            Status::ReadFault { .. } => 2,
            Status::TooLong { .. } => 3,
            Status::Source { .. } => 4,
            Status::Deadlock => 6,
            Status::OutOfTicks => 7,
            Status::Trapped { .. } => 8,
            Status::WriteFault => 10,
            Status::NoMemory => 11,
        }
    }
}
