//! The figures of a partition.

ghost use Rattle.std.specs.Prelude.{◌<◌, ◌≤◌};
ghost use Rattle.ptk_words.specs.declared.TheConstants.{LAST_TICK};

use crate::measure::{Deadline, Measure};
use crate::second::SecondRun;
use ptk_statistics_figures::{
    ConditionStatistics, Counted, Doing, Moment, MutexStatistics, OwnClock, StackPlaces,
    ThreadStatistics, WakeKind,
};
use ptk_system::System;
use ptk_tracepoints::{Activity, CallStep, Change, Event, PartState, PartStatus, Reply, Steps};
use ptk_window::WindowPlan;
use ptk_words::{Call, Limits, MutexNo, PartId, THREAD_LIMIT, ThreadNo, Tick};
use std::alloc::{AllocError, Global};

/// How many threads a partition has at most.
const THREADS: usize = THREAD_LIMIT as usize;

/// How many mutexes a partition has at most.
const MUTEXES: usize = 64;

/// How many condition variables a partition has at most.
const CONDITIONS: usize = 64;

/// The reply of a call that has succeeded.
const SUCCESS: u32 = 0;

/// The figures of a partition: its status, its ticks and steps, and what its threads, mutexes and condition variables
/// did.
#[derive(Drop)]
pub struct PartStatistics {
    partition: PartId,
    // the first tick that is counted
    from: u64,
    every_step: bool,
    clock: OwnClock,
    status: PartStatus,
    counted: Counted,
    threads: [ThreadStatistics; THREADS],
    mutexes: [MutexStatistics; MUTEXES],
    conditions: [ConditionStatistics; CONDITIONS],
    stacks: StackPlaces,
    responses: Vec<Response>,
    turn: Option<Turn>,
    // whether its last step was a call of sched_yield
    is_yielding: bool,
    waking: Option<Waking>,
}

/// The thread that ran last and has not waited or ended since, and whether it then gave way by sched_yield.
#[derive(Clone, Copy)]
struct Turn {
    thread: ThreadNo,
    gave_way: bool,
}

impl Turn {
    /// That of the thread which runs at the first tick that is counted.
    fn of_runner(state: &PartState) -> Option<Turn> {
        match state.runner() {
            Some(thread) => Some(Turn {
                thread,
                gave_way: false,
            }),
            None => None,
        }
    }
}

/// A response of a thread that has come to its completion.
#[derive(Clone, Copy)]
struct Response {
    /// The place of the thread's number.
    place: usize,
    /// How many ticks it took.
    ticks: u64,
}

/// A call that may wake threads from the condition variable at this place, and has woken nobody so far.
#[derive(Clone, Copy)]
struct Waking {
    place: usize,
    kind: WakeKind,
    thread: ThreadNo,
    tick: u64,
    ghost in_range: { place < 64 },
}

impl PartStatistics {
    /// Those of a partition that stands like this at the first tick that is counted.
    pub(crate) fn new(
        alloc: Global,
        plan: &WindowPlan,
        p: PartId,
        limits: &Limits,
        state: &PartState,
        measure: &Measure<'_>,
    ) -> PartStatistics
        requires order { measure.now.from ≤ measure.now.to }
        requires early { measure.now.to ≤ LAST_TICK }
    {
        let mut part = PartStatistics {
            partition: p,
            from: measure.from.ticks(),
            every_step: measure.every_step,
            clock: OwnClock::new(plan, p, measure.from, measure.to),
            status: state.status(),
            counted: Counted::default(),
            threads: [ThreadStatistics::new(); THREADS],
            mutexes: [MutexStatistics::default(); MUTEXES],
            conditions: [ConditionStatistics::default(); CONDITIONS],
            stacks: StackPlaces::new(limits),
            responses: Vec::new(alloc),
            turn: Turn::of_runner(state),
            is_yielding: false,
            waking: None,
        };
        let begin = part.begin();
        if state.status().is_halted() {
            part.counted.halt(begin);
        }
        part.set_deadlines(measure.deadlines);
        part
    }

    /// Its threads have these deadlines, as far as they are for its own threads.
    fn set_deadlines(&mut self, deadlines: &[Deadline]) {
        for deadline in deadlines {
            if deadline.partition == self.partition {
                self.threads[deadline.thread.place()].set_deadline(deadline.ticks);
            }
        }
    }

    /// The moment at which counting begins.
    fn begin(&self) -> Moment {
        Moment {
            own: 0,
            tick: self.from,
        }
    }

    /// What its threads do at the first tick that is counted.
    pub(crate) fn begin_threads(&mut self, state: &PartState, second: &mut SecondRun<'_>) {
        let states = state.threads();
        for place in 0..states.len().min(THREADS) {
            let activity = states[place].activity;
            if activity != Activity::Free {
                self.begin_thread(ThreadNo::new(place as u8 + 1), &activity, second);
            }
        }
    }

    /// What a thread does at the first tick that is counted. One that there is at tick 0 is created with it.
    fn begin_thread(&mut self, thread: ThreadNo, activity: &Activity, second: &mut SecondRun<'_>) {
        let place = thread.place();
        let begin = self.begin();
        self.threads[place].begin(Doing::of(activity), activity.mutex(), begin);
        if let Some(pointer) = second.stack_at(self.partition, thread, begin.tick) {
            let stack = self.stacks.found(thread, pointer);
            self.threads[place].begin_stack(stack);
        }
        if begin.tick == 0 {
            self.threads[place].responses_mut().release(0);
        }
    }

    /// Which thread owns which mutex at the first tick that is counted.
    pub(crate) fn begin_mutexes(&mut self, system: &System<'_>) {
        let p = self.partition;
        if system.parts() <= p.index() {
            return;
        }
        let begin = self.begin();
        for place in 0..MUTEXES {
            let owner = system.owner_thread(p, MutexNo::new(place as u8 + 1));
            self.mutexes[place].own_by(owner, begin);
        }
    }

    /// An event of the partition comes. An error if memory runs out.
    #[inline(always)]
    pub(crate) fn see(
        &mut self,
        plan: &WindowPlan,
        second: &mut SecondRun<'_>,
        event: &Event,
    ) -> Result<(), AllocError> {
        match event {
            Event::Steps(steps) => self.make_steps(second, steps),
            Event::Call(call) => return self.make_call(second, call),
            Event::Reply(reply) => self.take_late_reply(reply),
            Event::Change(change) => return self.change(plan, change),
            Event::Owner { mutex, owner, tick } => {
                let at = self.clock.moment(plan, *tick);
                self.mutexes[mutex.place()].own_by(*owner, at);
            }
            Event::Lost { from, until } => self.counted.add_lost(*from, *until, self.clock.end()),
            Event::Status { status, tick } => self.change_status(plan, *status, *tick),
            Event::Dropped { .. } | Event::WindowBegins { .. } | Event::WindowEnds { .. } => {}
        }
        Ok(())
    }

    /// A thread makes steps.
    #[inline(always)]
    fn make_steps(&mut self, second: &mut SecondRun<'_>, steps: &Steps) {
        self.run(steps.thread);
        self.is_yielding = false;
        self.count(steps);
        if self.every_step
            && 1 < steps.count
            && let Some(pointer) = second.least_stack(self.partition, steps)
        {
            self.threads[steps.thread.place()].see_stack(pointer);
        }
    }

    /// A thread makes a call. An error if memory runs out.
    #[inline(always)]
    fn make_call(&mut self, second: &mut SecondRun<'_>, call: &CallStep) -> Result<(), AllocError> {
        let thread = call.thread;
        self.run(thread);
        self.is_yielding = call.number == Call::SchedYield.number();
        self.count(&Steps {
            thread,
            from: call.from,
            until: call.until,
            count: 1,
            stack: call.stack,
        });
        self.threads[thread.place()].call(call.number, call.reply.is_none());
        self.take_reply(thread, call.number, call.reply);
        if call.reply == Some(SUCCESS) {
            return self.succeed(second, call);
        }
        Ok(())
    }

    /// A thread makes a call that has an effect at once. An error if memory runs out.
    #[inline(always)]
    fn succeed(&mut self, second: &mut SecondRun<'_>, call: &CallStep) -> Result<(), AllocError> {
        match Call::of_number(call.number) {
            Some(Call::ClockNanosleep) => return self.sleep_no_more(second, call),
            Some(Call::CondSignal) => self.wake(WakeKind::Signal, second, call),
            Some(Call::CondBroadcast) => self.wake(WakeKind::Broadcast, second, call),
            _ => {}
        }
        Ok(())
    }

    /// A thread asks to sleep up to a tick that has been reached: that is its next release, and it is late for it. An
    /// error if memory runs out.
    #[inline(never)]
    fn sleep_no_more(
        &mut self,
        second: &mut SecondRun<'_>,
        call: &CallStep,
    ) -> Result<(), AllocError> {
        self.complete(call.thread, call.until)?;
        if let Some(deadline) = second.deadline_of(self.partition, call)
            && self.from <= deadline.ticks()
        {
            let responses = self.threads[call.thread.place()].responses_mut();
            responses.release_late(deadline.ticks());
        }
        Ok(())
    }

    /// A thread makes a call that wakes threads from a condition variable.
    #[inline(never)]
    fn wake(&mut self, kind: WakeKind, second: &mut SecondRun<'_>, call: &CallStep) {
        let Some(number) = second.condition_of(self.partition, call) else {
            return;
        };
        let place = (number as usize).saturating_sub(1);
        if CONDITIONS <= place {
            return;
        }
        self.conditions[place].wakes(kind).make();
        self.waking = Some(Waking {
            place,
            kind,
            thread: call.thread,
            tick: call.from,
        });
    }

    /// The last call that may wake threads from a condition variable has woken one, if this is the first that it woke.
    fn follow_waking(&mut self, change: &Change) {
        let Some(waking) = self.waking else {
            return;
        };
        if waking.tick != change.tick {
            self.waking = None;
        } else if change.waker() == Some(waking.thread)
            && is_on_condition(&change.before.activity)
        {
            self.conditions[waking.place].wakes(waking.kind).wake();
            self.waking = None;
        }
    }

    /// Counts steps, the ticks that they take before the run's end, and the stack pointer after them.
    #[inline(always)]
    fn count(&mut self, steps: &Steps) {
        let ticks = steps.until.min(self.clock.end()).saturating_sub(steps.from);
        self.counted.add_steps(steps.count, ticks);
        let place = steps.thread.place();
        self.threads[place].add_steps(steps.count);
        if let Some(pointer) = steps.stack {
            self.threads[place].see_stack(pointer);
        }
    }

    /// The call with which a thread had blocked has come to its end. That counts if the call does.
    fn take_late_reply(&mut self, reply: &Reply) {
        if self.threads[reply.thread.place()].is_awaiting() {
            self.take_reply(reply.thread, reply.number, reply.reply);
        }
    }

    /// The reply to a call of a thread is an error if it is not 0.
    #[inline(always)]
    fn take_reply(&mut self, thread: ThreadNo, number: u32, reply: Option<u32>) {
        match reply {
            None | Some(SUCCESS) => {}
            Some(_) => self.threads[thread.place()].refuse(number),
        }
    }

    /// A thread runs: the one that ran last, if it is another, was preempted, unless it gave way.
    #[inline(always)]
    fn run(&mut self, thread: ThreadNo) {
        if let Some(turn) = self.turn
            && turn.thread != thread
            && !turn.gave_way
        {
            self.threads[turn.thread.place()].preempt();
        }
        self.turn = Some(Turn {
            thread,
            gave_way: false,
        });
    }

    /// A thread does something else from a tick on. An error if memory runs out.
    fn change(&mut self, plan: &WindowPlan, change: &Change) -> Result<(), AllocError> {
        self.follow_waking(change);
        if let Some(pointer) = change.stack {
            let stack = self.stacks.begun(change.thread, pointer);
            self.threads[change.thread.place()].begin_stack(stack);
        }
        self.follow_response(change)?;
        self.follow_doing(plan, change);
        Ok(())
    }

    /// A thread's response begins or ends, if it does with this change. An error if memory runs out.
    fn follow_response(&mut self, change: &Change) -> Result<(), AllocError> {
        let before = Doing::of(&change.before.activity);
        let now = Doing::of(&change.now.activity);
        if now == Doing::Halted {
            self.cut(change.thread, change.tick);
        } else if before.is_busy() && !now.is_busy() {
            self.complete(change.thread, change.tick)?;
        } else if !before.is_busy() && now.is_busy() {
            self.release(change.thread, release_of(change));
        }
        Ok(())
    }

    /// A thread is released at a tick. That counts if the tick does.
    fn release(&mut self, thread: ThreadNo, tick: u64) {
        if self.from <= tick {
            self.threads[thread.place()].responses_mut().release(tick);
        }
    }

    /// The response of a thread that is under way, if one is, comes to its completion at a tick. It does not in this
    /// run if the tick comes after its end. An error if memory runs out.
    fn complete(&mut self, thread: ThreadNo, tick: u64) -> Result<(), AllocError> {
        if self.clock.end() < tick {
            self.cut(thread, tick);
            return Ok(());
        }
        let place = thread.place();
        if let Some(ticks) = self.threads[place].responses_mut().complete(tick) {
            self.responses.push(Response { place, ticks })?;
        }
        Ok(())
    }

    /// The response of a thread that is under way, if one is, comes to no completion up to a tick.
    fn cut(&mut self, thread: ThreadNo, tick: u64) {
        let tick = tick.min(self.clock.end());
        self.threads[thread.place()].responses_mut().cut(tick);
    }

    /// A thread does something else from a tick on. If its step ends after the run, a wait for a mutex has not begun.
    fn follow_doing(&mut self, plan: &WindowPlan, change: &Change) {
        let place = change.thread.place();
        let doing = Doing::of(&change.now.activity);
        if self.threads[place].doing() == doing {
            return;
        }
        self.follow_turn(change, doing);
        let at = self.clock.moment(plan, change.tick);
        self.end_wait(change.thread, at);
        let mutex = if self.clock.end() < change.tick {
            None
        } else {
            change.now.activity.mutex()
        };
        self.threads[place].turn_to(doing, mutex, at);
    }
    /// The turn of a thread that does something else begins, goes on or ends.
    fn follow_turn(&mut self, change: &Change, doing: Doing) {
        let thread = change.thread;
        if doing == Doing::Running {
            self.run(thread);
            return;
        }
        let Some(turn) = self.turn else {
            return;
        };
        if turn.thread != thread {
            return;
        }
        self.turn = doing.is_awake().then_some(Turn {
            thread,
            gave_way: self.is_yielding && change.is_own(),
        });
    }

    /// The wait of a thread for a mutex ends at a moment, if it waits for one.
    fn end_wait(&mut self, thread: ThreadNo, at: Moment) {
        let waiter = &self.threads[thread.place()];
        if let Some(mutex) = waiter.mutex() {
            let from = waiter.since_moment();
            self.mutexes[mutex.place()].wait(thread, from, at);
        }
    }

    /// The partition has this status from a tick on.
    fn change_status(&mut self, plan: &WindowPlan, status: PartStatus, tick: u64) {
        self.status = status;
        if status.is_halted() {
            let at = self.clock.moment(plan, tick);
            self.counted.halt(at);
        }
    }

    /// The run ends. An error if memory runs out.
    pub(crate) fn finish(&mut self, alloc: Global, plan: &WindowPlan) -> Result<(), AllocError> {
        let at = self.clock.moment(plan, self.clock.end());
        self.counted.finish(at);
        for number in 1..=THREAD_LIMIT {
            self.finish_thread(alloc, ThreadNo::new(number as u8), at)?;
        }
        for mutex in self.mutexes.iter_mut() {
            mutex.finish(at);
        }
        Ok(())
    }

    /// The run ends for a thread. An error if memory runs out.
    fn finish_thread(
        &mut self,
        alloc: Global,
        thread: ThreadNo,
        at: Moment,
    ) -> Result<(), AllocError> {
        self.end_wait(thread, at);
        self.cut(thread, at.tick);
        let place = thread.place();
        self.threads[place].finish(at);
        let mut ticks = Vec::new(alloc);
        for response in self.responses.as_slice() {
            if response.place == place {
                ticks.push(response.ticks)?;
            }
        }
        ticks.sort_unstable();
        self.threads[place].responses_mut().finish(ticks.as_slice());
        Ok(())
    }

    /// What it does in the end, or why it is halted.
    pub fn status(&self) -> PartStatus {
        self.status
    }

    /// Its ticks and steps.
    pub fn counted(&self) -> &Counted {
        &self.counted
    }

    /// What its threads did, by number from 1: as many as a partition has at most.
    pub fn threads(&self) -> &[ThreadStatistics] {
        &self.threads
    }

    /// How long its mutexes were owned and waited for, by number from 1: as many as a partition has at most.
    pub fn mutexes(&self) -> &[MutexStatistics] {
        &self.mutexes
    }

    /// How often threads were woken from its condition variables, by number from 1: as many as a partition has at most.
    pub fn conditions(&self) -> &[ConditionStatistics] {
        &self.conditions
    }

    /// Whether a thread was late for a release, or missed its deadline.
    pub fn is_late(&self) -> bool {
        self.threads.iter().any(|thread| thread.is_late())
    }

    /// Whether a thread used more than its stack.
    pub fn has_overflow(&self) -> bool {
        self.threads.iter().any(|thread| thread.has_overflow())
    }
}

/// Whether a thread that does this waits on a condition variable.
fn is_on_condition(activity: &Activity) -> bool {
    Doing::of(activity) == Doing::Condition
}

/// The tick of the release with which a thread begins to be busy: the deadline that has ended its wait, or that of the
/// change.
fn release_of(change: &Change) -> u64 {
    match &change.before.activity {
        Activity::Blocked(wait) => match wait.deadline() {
            Some(deadline) => deadline.ticks().min(change.tick),
            None => change.tick,
        },
        Activity::Free | Activity::Running | Activity::Ready | Activity::Ended | Activity::Halted =>
            change.tick,
    }
}
