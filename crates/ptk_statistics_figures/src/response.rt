//! Response times of a thread.

use ptk_words::Tick;

/// The response times of the threads of a number, each from a release to its completion.
///
/// A release is the deadline of a sleep or a timed wait on a condition variable that expires; the tick of the decision
/// with which another thread or input ends such a wait or one for a thread's end; and the creation of the thread. A
/// completion is the end of the call with which the thread next begins to sleep, or to wait for a condition variable,
/// input or a thread; and the end of the thread. Waits for a mutex are inside.
#[derive(Clone, Copy, Default)]
pub struct Responses {
    release: Option<u64>,
    count: u64,
    total: u64,
    least: u64,
    greatest: u64,
    greatest_from: u64,
    within_95: u64,
    within_99: u64,
    late: u64,
    deadline: Option<u64>,
    missed: u64,
}

impl Responses {
    /// The deadline allows this many ticks.
    pub fn set_deadline(&mut self, ticks: u64) {
        self.deadline = Some(ticks);
    }

    /// The thread is released at a tick.
    pub fn release(&mut self, tick: u64) {
        self.release = Some(tick);
    }

    /// The thread is released at a tick that was over when it began to wait for it.
    pub fn release_late(&mut self, tick: u64) {
        self.late = self.late.saturating_add(1);
        self.release = Some(tick);
    }

    /// The response that is under way, if one is, comes to its completion at a tick. Returns how many ticks it took.
    pub fn complete(&mut self, tick: u64) -> Option<u64> {
        let from = self.release?;
        self.release = None;
        let ticks = tick.saturating_sub(from);
        self.add(from, ticks);
        self.compare(ticks);
        Some(ticks)
    }

    /// The response that is under way, if one is, comes to no completion. At this tick it is over.
    pub fn cut(&mut self, tick: u64) {
        if let Some(from) = self.release {
            self.release = None;
            self.compare(tick.saturating_sub(from));
        }
    }

    /// Counts a response that began at a tick and took this many ticks.
    fn add(&mut self, from: u64, ticks: u64) {
        if self.count == 0 || self.greatest < ticks {
            self.greatest = ticks;
            self.greatest_from = from;
        }
        if self.count == 0 || ticks < self.least {
            self.least = ticks;
        }
        self.count = self.count.saturating_add(1);
        self.total = self.total.saturating_add(ticks);
    }

    /// Counts a response that takes at least this many ticks as missed, if these are more than the deadline allows.
    fn compare(&mut self, ticks: u64) {
        if let Some(deadline) = self.deadline
            && deadline < ticks
        {
            self.missed = self.missed.saturating_add(1);
        }
    }

    /// All have come: these are their ticks, from the least on.
    pub fn finish(&mut self, sorted: &[u64]) {
        self.within_95 = least_for_all_but(5, sorted);
        self.within_99 = least_for_all_but(1, sorted);
    }

    /// How many came to their completion.
    pub fn count(&self) -> u64 {
        self.count
    }

    /// The least of their ticks, 0 if there are none.
    pub fn least(&self) -> u64 {
        self.least
    }

    /// The mean of their ticks, rounded down, 0 if there are none.
    pub fn mean(&self) -> u64 {
        self.total / self.count.max(1)
    }

    /// The least number of ticks in which 95 of 100 came to their completion, 0 if there are none.
    pub fn within_95(&self) -> u64 {
        self.within_95
    }

    /// The least number of ticks in which 99 of 100 came to their completion, 0 if there are none.
    pub fn within_99(&self) -> u64 {
        self.within_99
    }

    /// The greatest of their ticks, 0 if there are none.
    pub fn greatest(&self) -> u64 {
        self.greatest
    }

    /// The release of the first of those that took the most ticks, 0 if there are none.
    pub fn greatest_from(&self) -> Tick {
        Tick::new(self.greatest_from)
    }

    /// How many releases were over when the thread began to wait for them.
    pub fn late(&self) -> u64 {
        self.late
    }

    /// The deadline of the thread.
    pub fn deadline(&self) -> Option<u64> {
        self.deadline
    }

    /// How many responses took more ticks than the deadline allows, those among them that came to no completion.
    pub fn missed(&self) -> u64 {
        self.missed
    }

    /// Whether something is to be said of them.
    pub fn is_used(&self) -> bool {
        self.count != 0 || self.late != 0 || self.deadline.is_some()
    }
}

/// The least of sorted numbers that all are at most, but for this many of 100. 0 of none.
fn least_for_all_but(outside: usize, sorted: &[u64]) -> u64 {
    let count = sorted.len();
    let above = (count / 100)
        .saturating_mul(outside)
        .saturating_add((count % 100).saturating_mul(outside) / 100);
    let rank = count.saturating_sub(above);
    match sorted.get(rank.saturating_sub(1)) {
        Some(ticks) => *ticks,
        None => 0,
    }
}
