//! The words for kinds of what a thread does, and for how a partition ended its run.

use ptk_main_runs::PartStatus;
use ptk_statistics_figures::Doing;

/// The kinds of what a live thread does, in the order of the tables.
pub(crate) const KINDS: [Doing; 8] = [
    Doing::Running,
    Doing::Ready,
    Doing::Input,
    Doing::Sleep,
    Doing::Join,
    Doing::Mutex,
    Doing::Condition,
    Doing::Relock,
];

/// The word for a kind.
pub(crate) fn doing_word(doing: Doing) -> &'static str {
    match doing {
        Doing::Free => "free",
        Doing::Running => "running",
        Doing::Ready => "ready",
        Doing::Input => "input",
        Doing::Sleep => "sleep",
        Doing::Join => "join",
        Doing::Mutex => "mutex",
        Doing::Condition => "condition",
        Doing::Relock => "relock",
        Doing::Ended => "ended",
        Doing::Halted => "halted",
    }
}

/// The word for how a partition ended its run, as a participle where the report has a noun (`exited`, `stopped`).
pub(crate) fn outcome_word(status: PartStatus) -> &'static str {
    match status {
        PartStatus::Idle => "idle",
        PartStatus::Running => "running",
        PartStatus::Exited(_) => "exited",
        PartStatus::Stopped(_, _) => "stopped",
        PartStatus::Refused(_) => "refused",
    }
}
