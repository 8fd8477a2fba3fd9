//! What a reader of the events keeps of a partition.

ghost use Rattle.std.specs.Prelude.{◌≡◌, ◌<◌, ◌≤◌, ◌+◌, length};

use crate::event::Change;
use crate::state::ThreadState;
use ptk_system::{Activity, PartStatus, System};
use ptk_words::{MutexNo, PartId, THREAD_LIMIT, ThreadNo};

/// How many numbers a partition's threads can have.
pub(crate) const THREADS: usize = THREAD_LIMIT as usize;

/// How many numbers a partition's mutexes can have.
pub(crate) const MUTEXES: usize = 64;

/// A call whose reply a blocked thread awaits.
#[derive(Clone, Copy)]
pub(crate) struct Pending {
    /// Its number.
    pub(crate) number: u32,
    /// The pc after it.
    pub(crate) pc: u32,
}

/// What a reader of the events keeps of a partition: its status, and its threads; and what was told so far.
#[derive(Clone, Copy)]
pub struct PartState {
    pub(crate) status: PartStatus,
    pub(crate) threads: [ThreadState; THREADS],
    // how many threads it has room for
    pub(crate) limit: usize,
    pub(crate) runner: Option<ThreadNo>,
    pub(crate) steps: u64,
    pub(crate) lost: u64,
    pub(crate) dropped: u64,
    // by the numbers of threads
    pub(crate) pending: [Option<Pending>; THREADS],
    pub(crate) owners: [Option<ThreadNo>; MUTEXES],
    // how many numbers of mutexes have been used: each new mutex has the least number that is free
    pub(crate) used: usize,
    // the place of the mutex that had another owner last
    pub(crate) latest: usize,
    ghost in_range: { (limit ≤ 32) × (used ≤ 64) × (latest < 64) },
}

impl PartState {
    /// What a system shows of a partition.
    pub(crate) fn new(system: &System<'_>, p: PartId) -> PartState
        requires { p < length system.now.config.sections }
    {
        let mut part = PartState {
            status: system.status(p),
            threads: threads_of(system, p),
            limit: system.limits(p).threads.min(THREAD_LIMIT) as usize,
            runner: system.running(p),
            steps: system.steps(p),
            lost: system.lost(p),
            dropped: system.dropped(p),
            pending: [None; THREADS],
            owners: owners_of(system, p),
            used: 0,
            latest: 0,
        };
        part.count_mutexes(system, p);
        part
    }

    /// Its status: running while a step takes up the tick.
    pub fn status(&self) -> PartStatus {
        self.status
    }

    /// Its threads by number from 1, as many as it has room for.
    pub fn threads(&self) -> &[ThreadState] {
        &self.threads[..self.limit]
    }

    /// Its running thread.
    pub fn runner(&self) -> Option<ThreadNo> {
        self.runner
    }

    /// The status from now on.
    pub(crate) fn set_status(&mut self, status: PartStatus) {
        self.status = status;
    }

    /// A thread has changed.
    pub(crate) fn follow(&mut self, change: &Change) {
        self.threads[change.thread.place()] = change.now;
        self.turn(change.thread, change.now.activity == Activity::Running);
    }

    /// A thread has not yet changed.
    pub(crate) fn take_back(&mut self, change: &Change) {
        self.threads[change.thread.place()] = change.before;
        self.turn(change.thread, change.before.activity == Activity::Running);
    }

    /// A thread is the running one from now on, or is not.
    fn turn(&mut self, thread: ThreadNo, is_running: bool) {
        if is_running {
            self.runner = Some(thread);
        } else if self.runner == Some(thread) {
            self.runner = None;
        }
    }

    /// Counts the numbers of mutexes that have been used.
    pub(crate) fn count_mutexes(&mut self, system: &System<'_>, p: PartId)
        requires { p < length system.now.config.sections }
    {
        while self.used < MUTEXES && system.owner(p, mutex_at(self.used)).is_some() {
            self.used += 1;
        }
    }
}

/// The thread at a place in a list of a partition's threads by number.
pub(crate) fn thread_at(place: usize) -> ThreadNo
    requires { place < 32 }
    ensures { result ≡ place + 1 }
{
    ThreadNo::new(place as u8 + 1)
}

/// The mutex at a place in a list of a partition's mutexes by number.
pub(crate) fn mutex_at(place: usize) -> MutexNo
    requires { place < 64 }
    ensures { result ≡ place + 1 }
{
    MutexNo::new(place as u8 + 1)
}

/// What each thread of a partition does, free numbers too.
fn threads_of(system: &System<'_>, p: PartId) -> [ThreadState; THREADS]
    requires { p < length system.now.config.sections }
{
    let mut threads = [ThreadState::FREE; THREADS];
    for place in 0..THREADS {
        threads[place] = ThreadState::of(system, p, thread_at(place));
    }
    threads
}

/// The owner of each mutex of a partition, None of free numbers too.
fn owners_of(system: &System<'_>, p: PartId) -> [Option<ThreadNo>; MUTEXES]
    requires { p < length system.now.config.sections }
{
    let mut owners = [None; MUTEXES];
    for place in 0..MUTEXES {
        owners[place] = system.owner_thread(p, mutex_at(place));
    }
    owners
}
