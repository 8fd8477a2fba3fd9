//! What each thread does, its priorities, and the partition's next decision and last step: what a picture of a run is
//! made from.

ghost use Rattle.std.specs.Prelude.{◌≡◌, ◌<◌, ◌≤◌, ℕ, None, Some, length, option_map};
ghost use Rattle.ptk_words_model.specs.CancellationCalls.{cancellation_of};
ghost use Rattle.ptk_roster.specs.Slots.{state_of as mutex_state};
ghost use Rattle.ptk_words.specs.declared.threads.Thread.{Thread};
ghost use Rattle.ptk_words_model.specs.Windows.{own_ticks};
ghost use Rattle.ptk_words_model.specs.State.{Mutex};
ghost use Rattle.ptk_words_model.specs.Priority.{effective_priority, thread_at};
ghost use Rattle.ptk_words_model.specs.Mutex.{mutex_at};
ghost use Rattle.ptk_words.specs.Faults.{is_active};
ghost use Rattle.ptk_words_model.specs.Schedule.{is_running};
ghost use Rattle.ptk_system.specs.Activities.{activity_in, activity_of_thread, activity_of_wait, mutex_of_activity, owner_thread};
ghost use Rattle.ptk_system.specs.Going.{AllStandStill, IsLatest, IsLatestOfAll, StandsStill};
ghost use Rattle.ptk_system.specs.World.{state_of};

use crate::system::System;
use ptk_roster::MutexState;
use ptk_system_machine::idle_from;
use ptk_words::{Entry, LAST_TICK, MutexNo, Owner, PartId, Priority, Thread, ThreadNo, Tick, Wait};

/// What a thread does: it is running, ready, blocked or ended (XSH 2.8.4), its partition is halted, or its number is
/// free.
#[derive(Clone, Copy, PartialEq, Eq)]
pub enum Activity {
    /// No thread has the number.
    Free,
    /// It is the partition's running thread.
    Running,
    /// It waits in the line for its turn.
    Ready,
    /// It waits for this.
    Blocked(Wait),
    /// It has ended, and nobody has joined or detached it yet.
    Ended,
    /// It has not ended, and does nothing any more, since its partition is halted.
    Halted,
}

impl Activity {
    /// The mutex that a blocked thread waits for, as a lock or after a condition wait; None of any other
    /// (pthread_mutex_lock, pthread_cond_wait).
    pub fn mutex(self) -> Option<MutexNo>
        ensures { result ≡ mutex_of_activity self }
    {
        match self {
            Activity::Blocked(wait) => wait.mutex(),
            Activity::Free
            | Activity::Running
            | Activity::Ready
            | Activity::Ended
            | Activity::Halted => None,
        }
    }
}

impl<'a> System<'a> {
    /// The partition's running thread, if one runs.
    pub fn running(&self, p: PartId) -> Option<ThreadNo>
        requires { p < length self.now.config.sections }
        ensures { result ≡ (state_of self.now p).part.running }
    {
        self.kept().tables().running(p)
    }

    /// What a thread does.
    pub fn activity(&self, p: PartId, t: ThreadNo) -> Activity
        requires { p < length self.now.config.sections }
        ensures { result ≡ activity_in t (state_of self.now p).part }
    {
        match self.thread(p, t) {
            Some(thread) => {
                activity_of(self.is_active(p), is_running(t, self.running(p)), thread)
            }
            None => Activity::Free,
        }
    }

    /// The thread of a number, None of a free one.
    fn thread(&self, p: PartId, t: ThreadNo) -> Option<Thread>
        requires { p < length self.now.config.sections }
        ensures { result ≡ thread_at (state_of self.now p).part.locks t }
    {
        self.kept().tables().threads().thread(p, t)
    }

    /// Whether the partition is not halted.
    fn is_active(&self, p: PartId) -> bool
        requires { p < length self.now.config.sections }
        ensures { result ≡ is_active (state_of self.now p).part.status }
    {
        self.kept().tables().status(p).is_active()
    }

    /// The assigned priority of a thread, None of a free number.
    pub fn assigned_priority(&self, p: PartId, t: ThreadNo) -> Option<Priority>
        requires { p < length self.now.config.sections }
        ensures { result ≡ option_map (λ (thread : Thread). thread.priority) (thread_at (state_of self.now p).part.locks t) }
    {
        self.kept().tables().threads().assigned_priority(p, t)
    }

    /// The effective priority of a thread, None of a free number (pthread_mutexattr_getprotocol).
    pub fn effective_priority(&self, p: PartId, t: ThreadNo) -> Option<u8>
        requires { p < length self.now.config.sections }
        ensures { result ≡ option_map (λ (thread : Thread). effective_priority (state_of self.now p).part.locks t)
            (thread_at (state_of self.now p).part.locks t) }
    {
        self.tables().effective_priority(p, t)
    }

    /// Who owns a mutex, None of a free number (pthread_mutex_lock).
    pub fn owner(&self, p: PartId, m: MutexNo) -> Option<Owner>
        requires { p < length self.now.config.sections }
        ensures { result ≡ option_map (λ (mutex : Mutex). mutex.owner) (mutex_at (state_of self.now p).part.locks m) }
    {
        self.kept().tables().owner(p, m)
    }

    /// The thread that owns a mutex, None where no thread does (pthread_mutex_lock).
    pub fn owner_thread(&self, p: PartId, m: MutexNo) -> Option<ThreadNo>
        requires { p < length self.now.config.sections }
        ensures { result ≡ owner_thread (state_of self.now p).part.locks m }
    {
        match self.owner(p, m)? {
            Owner::OwnedBy(t) => Some(t),
            Owner::Free | Owner::Abandoned => None,
        }
    }

    /// What a mutex is, but for its waiters; None of a free number (pthread_mutex_init).
    pub fn mutex(&self, p: PartId, m: MutexNo) -> Option<MutexState>
        requires { p < length self.now.config.sections }
        ensures { result ≡ option_map mutex_state (mutex_at (state_of self.now p).part.locks m) }
    {
        self.kept().tables().mutex(p, m)
    }

    /// Whether a request to cancel a thread is pending, whatever its state and type (pthread_cancel).
    pub fn is_cancel_pending(&self, p: PartId, t: ThreadNo) -> bool
        requires { p < length self.now.config.sections }
        ensures { result ≡ (cancellation_of (state_of self.now p).part t).is_pending }
    {
        self.kept().tables().is_cancel_pending(p, t)
    }

    /// Whether a cancellation took a thread out of its wait: its next step begins its unwinding (XSH 2.9.5.2).
    pub fn is_marked(&self, p: PartId, t: ThreadNo) -> bool
        requires { p < length self.now.config.sections }
        ensures { result ≡ (cancellation_of (state_of self.now p).part t).is_marked }
    {
        self.kept().tables().is_marked(p, t)
    }

    /// The tick of the partition's next decision, None where there is none: it is halted, or has no window.
    pub fn next(&self, p: PartId) -> Option<Tick>
        requires { p < length self.now.config.sections }
        ensures { result ≡ (state_of self.now p).account.next }
    {
        self.kept().account(p).next()
    }

    /// The partition's last step, None before the first: its tick, its thread, and what the trace keeps of it.
    pub fn last_step(&self, p: PartId) -> Option<Entry>
        requires { p < length self.now.config.sections }
        ensures { result ≡ (state_of self.now p).part.last }
    {
        self.kept().tables().last_step(p)
    }

    /// The latest tick, at most `stop`, up to which nothing of the partition changes but the tick of its next decision:
    /// no register, no byte, no count of steps or lost ticks, and no entry of the trace. It is that of its next
    /// decision, of a halted one `stop`, and of one that has nothing to do its first own tick from the next input's or
    /// deadline's on, where that is later.
    pub fn stays_until(&self, p: PartId, stop: Tick) -> Tick
        requires { p < length self.now.config.sections }
        ensures within { result ≤ stop }
        ensures stays { StandsStill self.now p result }
        ensures latest { stop ≤ LAST_TICK → IsLatest self.now p stop result }
    {
        self.states_are_alone();
        match self.next(p) {
            Some(next) => {
                let until = idle_from(self.tables(), p, next, stop);
                if next.ticks() < until.ticks() {
                    self.first_own(p, until, stop)
                } else if next.ticks() < stop.ticks() {
                    next
                } else {
                    stop
                }
            }
            None => stop,
        }
    }

    /// The latest tick, at most `stop`, up to which nothing of any partition changes but the ticks of the next
    /// decisions.
    pub fn all_stay_until(&self, stop: Tick) -> Tick
        ensures within { result ≤ stop }
        ensures stay { AllStandStill self.now result }
        ensures latest { stop ≤ LAST_TICK → IsLatestOfAll self.now stop result }
    {
        let mut until = stop;
        for i in 0..self.parts() {
            let p = PartId::new(i as u8);
            until = self.stays_until(p, until);
        }
        until
    }

    /// The partition's first own tick from this one on, where that is before `stop`, else `stop`. A tick above 2^40, to
    /// which no system goes, is returned as it is.
    fn first_own(&self, p: PartId, tick: Tick, stop: Tick) -> Tick
        requires { tick ≤ stop }
        ensures from { tick ≤ result }
        ensures within { result ≤ stop }
        ensures others { (k : ℕ) → tick ≤ k → k < result → (own_ticks self.now.config.plan p).end_at k ≡ None }
        ensures own { stop ≤ LAST_TICK → result < stop → (own_ticks self.now.config.plan p).next_of tick ≡ Some result }
    {
        if tick.ticks() > LAST_TICK {
            return tick;
        }
        let config = self.config;
        match config.plan().next_of(p, tick) {
            Some(own) if own.ticks() < stop.ticks() => own,
            _ => stop,
        }
    }
}

/// What a thread does, of a partition that is halted or not, that is the running one or is not.
fn activity_of(is_active: bool, is_running: bool, thread: Thread) -> Activity
    ensures { result ≡ activity_of_thread is_active is_running thread }
{
    if is_running {
        return Activity::Running;
    }
    if thread.phase.is_ended() {
        return Activity::Ended;
    }
    if is_active {
        activity_of_wait(thread.wait)
    } else {
        Activity::Halted
    }
}

/// What a thread does that does not run and has not ended: it is blocked where it waits, else ready.
fn activity_of_wait(wait: Option<Wait>) -> Activity
    ensures { result ≡ activity_of_wait wait }
{
    match wait {
        Some(wait) => Activity::Blocked(wait),
        None => Activity::Ready,
    }
}

/// Whether the thread is the running one.
fn is_running(t: ThreadNo, running: Option<ThreadNo>) -> bool
    ensures { result ≡ is_running t running }
{
    match running {
        Some(u) => u.number() == t.number(),
        None => false,
    }
}
