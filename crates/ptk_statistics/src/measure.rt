//! What is measured of a run.

use ptk_words::{PartId, ThreadNo, Tick};

/// The ticks of a run that are counted, and what is asked of its threads.
#[derive(Clone, Copy)]
pub struct Measure<'a> {
    /// The first tick that is counted. What happens before it is left out.
    pub from: Tick,
    /// The tick at which the run ends, which is not counted any more.
    pub to: Tick,
    /// The deadlines of threads. Of two for one thread the last one counts.
    pub deadlines: &'a [Deadline],
    /// Whether stack pointers are looked at after every step. Otherwise those inside of rows of plain steps are not seen.
    pub every_step: bool,
}

/// The longest response that a thread may have.
#[derive(Clone, Copy)]
pub struct Deadline {
    /// The partition of the thread.
    pub partition: PartId,
    /// The number of the thread.
    pub thread: ThreadNo,
    /// The most ticks from a release to its completion.
    pub ticks: u64,
}
