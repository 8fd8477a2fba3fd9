//! The exit statuses of the program.

ghost use Rattle.std.specs.Prelude.{◌≡◌, ◌≢◌};
ghost use Rattle.ptk_main_tools.specs.Statuses.{status_number};

/// What the program ends with.
#[derive(Clone, Copy, PartialEq, Eq)]
pub enum ExitStatus {
    /// It did what was asked.
    Done,
    /// What it was given is refused.
    Refused,
    /// What it compared is not the same.
    Different,
    /// The words of the command line ask for nothing.
    Usage,
    /// The host failed: reading, writing or memory.
    HostFailure,
    /// A run is not as it is expected to be.
    Unexpected,
}

impl ExitStatus {
    /// The number of the status, 0 to 4.
    pub fn number(self) -> u8
        ensures number { result ≡ status_number self }
        ensures used { self ≢ ExitStatus.Usage → result ≢ status_number ExitStatus.Usage }
    {
        match self {
            ExitStatus::Done => 0,
            ExitStatus::Refused | ExitStatus::Different => 1,
            ExitStatus::Usage => 2,
            ExitStatus::HostFailure => 3,
            ExitStatus::Unexpected => 4,
        }
    }
}
