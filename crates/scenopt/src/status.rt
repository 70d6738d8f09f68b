// How a run ended.
ghost use Rattle.std.specs.Prelude.{◌≡◌};
ghost use Rattle.scenopt.specs.Endings.{status_code};

/// How a run ended.
#[derive(Clone, Copy, Debug, PartialEq, Eq)]
pub enum Status {
    /// All was done and printed.
    Done,
    /// The words are no command.
    Usage,
    /// The model's file is too long, or its text has no model.
    ModelRefused,
    /// The changes' file is too long, or its text has no changes of the model.
    ChangesRefused,
    /// A file could not be read.
    ReadFault,
    /// What was to be told could not be written.
    WriteFault,
    /// No memory was left.
    Memory,
    /// All was done and printed, but some answers are limits: bounds, and the best points that were found.
    Limit,
    /// The log's file is too long, or its text is no log, or a log that doesn't show what it claims of the problem.
    LogRefused,
}

impl Status {
    /// The exit status of the process.
    pub fn code(&self) -> u8
        ensures { result ≡ status_code self.now }
    {
        match self {
            Status::Done => 0,
            Status::Usage => 1,
            Status::ModelRefused => 2,
            Status::ChangesRefused => 3,
            Status::ReadFault => 4,
            Status::WriteFault => 5,
            Status::Memory => 6,
            Status::Limit => 7,
            Status::LogRefused => 8,
        }
    }
}
