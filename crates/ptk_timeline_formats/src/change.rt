//! What changes at a tick.

use crate::shown::Shown;
use ptk_tracepoints::PartStatus;
use ptk_words::ThreadNo;

/// What is shown of a thread since a tick.
#[derive(Clone, Copy)]
pub(crate) struct ShownSince {
    /// What is shown.
    pub(crate) shown: Shown,
    /// The tick since which it is.
    pub(crate) since: u64,
}

/// What changes of a partition at a tick.
#[derive(Clone, Copy)]
pub(crate) enum Change<'a> {
    /// Its window begins.
    WindowBegins,
    /// Its window, which began at this tick, ends.
    WindowEnds {
        since: u64,
    },
    /// Its status.
    Status(PartStatus),
    /// The running thread, None if none runs.
    Runner(Option<ThreadNo>),
    /// What is shown of a thread for the first time, and its pc if it starts.
    First {
        thread: ThreadNo,
        shown: &'a Shown,
        start: Option<u32>,
    },
    /// What was shown of a thread, and what is shown now.
    Next {
        thread: ThreadNo,
        before: &'a ShownSince,
        now: &'a Shown,
    },
    /// A thread's step has ended a wait of another.
    Woken {
        by: ThreadNo,
        thread: ThreadNo,
    },
    /// This many ticks at the end of its window are lost.
    Lost {
        ticks: u64,
    },
    /// This many input bytes are lost.
    Dropped {
        bytes: u64,
    },
}
