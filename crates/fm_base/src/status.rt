// How a run ends.
ghost use Rattle.std.specs.Prelude.{◌≡◌};
ghost use Rattle.fm_base.specs.Statuses.{code_of};

/// How a run ends.
#[derive(Clone, Copy, Debug, PartialEq, Eq)]
pub enum Status {
    /// The report, the summary or the word of acceptance was written.
    Done,
    /// The checker refuses the certificate.
    Refused,
    /// The words are of no form that the program has.
    Usage,
    /// The report was written, and the plan of some query stopped in a task.
    Unanswered,
    /// The problem text has a fault.
    Problem,
    /// A read failed.
    ReadFault,
    /// A write failed.
    WriteFault,
    /// Memory ran out.
    Memory,
    /// The input is longer than the limit.
    TooLong,
}

impl Status {
    /// The exit status of the process.
    pub fn code(self) -> u8
        ensures { result ≡ code_of self }
    {
        match self {
            Status::Done => 0,
            Status::Refused => 1,
            Status::Usage => 2,
            Status::Unanswered => 3,
            Status::Problem => 4,
            Status::ReadFault => 5,
            Status::WriteFault => 6,
            Status::Memory => 7,
            Status::TooLong => 8,
        }
    }
}
