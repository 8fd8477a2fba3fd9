//! What a partition's decision brings.

ghost use Rattle.std.specs.Prelude.{◌≡◌, ◌<◌, ◌≤◌, IfOk, OnOk, length};
ghost use Rattle.ptk_words.specs.declared.TheConstants.{LAST_TICK};
ghost use Rattle.ptk_tracepoints.specs.Position.{GoesOn};

use crate::event::{CallStep, Change, Event, Reply, Steps};
use crate::part::{PartState, Pending, thread_at};
use crate::reading::{
    call_of, is_apart, is_disturbed, is_timed, pc_after, reply_after, reply_at, stack_of, step_end,
};
use crate::state::ThreadState;
use crate::tracer::Probe;
use crate::window::Window;
use ptk_system::{Activity, PartStatus, System};
use ptk_words::{Entry, Errno, PartId, ThreadNo, Tick};

/// A decision that a partition has made.
#[derive(Clone, Copy)]
struct Decision {
    partition: PartId,
    /// Its tick.
    tick: u64,
    /// The tick after the last that its step takes.
    until: u64,
    /// The step that has begun with it, if one has.
    step: Option<Entry>,
    /// The number of the call that the step is, if it is one.
    call: Option<u32>,
}

/// A thread that may do something else from a tick on, by a step or without one.
#[derive(Clone, Copy)]
struct Turn {
    thread: ThreadNo,
    tick: u64,
    now: ThreadState,
    by: Option<ThreadNo>,
}

impl Decision {
    /// The thread of its step.
    fn maker(&self) -> Option<ThreadNo> {
        match &self.step {
            Some(entry) => Some(entry.thread),
            None => None,
        }
    }

    /// Whether its step changes nothing of another thread but the one that ran before.
    fn is_apart(&self, system: &System<'_>) -> bool
        requires { self.now.partition < length system.now.config.sections }
    {
        match &self.step {
            Some(entry) => is_apart(system, self.partition, entry, self.call),
            None => false,
        }
    }
}

impl PartState {
    /// Makes the decision at a tick of a window, and tells what it brings. Returns the tick after its step.
    pub(crate) fn decide<P: Probe>(
        &mut self,
        system: &mut System<'_>,
        window: &Window,
        tick: u64,
        probe: &mut P,
    ) -> Result<u64, P::Fault>
        requires partition { window.now.partition < length system.old.config.sections }
        requires early { window.now.stop ≤ LAST_TICK }
        requires order { window.now.stop ≤ window.now.end }
        requires tick { tick < window.now.stop }
        ensures later { IfOk result (λ until. tick < until) }
        ensures run { OnOk result (GoesOn system.old window.now.stop system.new) }
    {
        system.states_are_alone();
        let p = window.partition;
        let is_disturbed = is_disturbed(system, p, tick);
        system.run_to(Tick::new(tick + 1));
        let decision = self.made(system, window, tick);
        self.tell_step(system, &decision, probe)?;
        let is_alone = !is_disturbed && decision.is_apart(system);
        if is_alone {
            self.tell_two(system, &decision, probe)?;
        } else {
            self.tell_all(system, &decision, probe)?;
        }
        self.tell_losses(system, window, tick, probe)?;
        if P::CALLS && (!is_alone || decision.call.is_some()) {
            self.tell_owners(system, p, tick, probe)?;
        }
        self.tell_status(system, &decision, probe)?;
        self.tell_end(system, &decision, probe)?;
        Ok(decision.until)
    }

    /// The decision that was made at a tick.
    fn made(&mut self, system: &System<'_>, window: &Window, tick: u64) -> Decision
        requires partition { window.now.partition < length system.now.config.sections }
        requires tick { tick < window.now.end }
        ensures partition { result.partition ≡ window.now.partition }
        ensures later { tick < result.until }
    {
        let p = window.partition;
        let steps = system.steps(p);
        let step = if self.steps < steps {
            system.last_step(p)
        } else {
            None
        };
        self.steps = steps;
        let call = match &step {
            Some(entry) => call_of(system, p, entry),
            None => None,
        };
        Decision {
            partition: p,
            tick,
            until: step_end(system, window, tick),
            step,
            call,
        }
    }

    /// Tells of the step that began with a decision.
    fn tell_step<P: Probe>(
        &mut self,
        system: &System<'_>,
        decision: &Decision,
        probe: &mut P,
    ) -> Result<(), P::Fault>
        requires { decision.now.partition < length system.now.config.sections }
    {
        match &decision.step {
            Some(entry) => {
                if P::CALLS {
                    self.tell_late_reply(decision.partition, entry, probe)?;
                }
                tell_made(system, decision, entry, probe)
            }
            None => Ok(()),
        }
    }

    /// Tells of the end of the call with which the thread of a step had blocked, if the decision that ended its wait
    /// made the step too.
    fn tell_late_reply<P: Probe>(
        &mut self,
        p: PartId,
        entry: &Entry,
        probe: &mut P,
    ) -> Result<(), P::Fault> {
        let place = entry.thread.place();
        let Some(pending) = self.pending[place] else {
            return Ok(());
        };
        self.pending[place] = None;
        let is_late = entry.pc == pending.pc && is_timed(&self.threads[place].activity);
        let reply = Reply {
            thread: entry.thread,
            number: pending.number,
            reply: is_late.then_some(Errno::ETIMEDOUT.number()),
        };
        probe.see(p, &Event::Reply(reply))
    }

    /// Tells of the thread that ran before, and of the one that makes the step: no other does anything else.
    fn tell_two<P: Probe>(
        &mut self,
        system: &System<'_>,
        decision: &Decision,
        probe: &mut P,
    ) -> Result<(), P::Fault>
        requires { decision.now.partition < length system.now.config.sections }
    {
        let Some(maker) = decision.maker() else {
            return Ok(());
        };
        let maker = maker.place();
        let runner = match self.runner {
            Some(runner) => runner.place(),
            None => maker,
        };
        if runner != maker {
            self.tell_thread(system, runner.min(maker), decision, probe)?;
        }
        self.tell_thread(system, runner.max(maker), decision, probe)
    }

    /// Tells of all threads.
    fn tell_all<P: Probe>(
        &mut self,
        system: &System<'_>,
        decision: &Decision,
        probe: &mut P,
    ) -> Result<(), P::Fault>
        requires { decision.now.partition < length system.now.config.sections }
    {
        for place in 0..self.limit {
            self.tell_thread(system, place, decision, probe)?;
        }
        Ok(())
    }

    /// Tells what the thread at a place does after a decision, if that is new.
    #[inline(always)]
    fn tell_thread<P: Probe>(
        &mut self,
        system: &System<'_>,
        place: usize,
        decision: &Decision,
        probe: &mut P,
    ) -> Result<(), P::Fault>
        requires partition { decision.now.partition < length system.now.config.sections }
        requires place { place < 32 }
    {
        let (p, thread) = (decision.partition, thread_at(place));
        let by = decision.maker();
        let after = ThreadState::of(system, p, thread);
        let turn = Turn {
            thread,
            tick: decision.tick,
            now: if by == Some(thread) {
                after.stepping()
            } else {
                after
            },
            by,
        };
        self.tell_turn(system, p, &turn, probe)
    }

    /// Tells what a thread does from a tick on, if that is new.
    fn tell_turn<P: Probe>(
        &mut self,
        system: &System<'_>,
        p: PartId,
        turn: &Turn,
        probe: &mut P,
    ) -> Result<(), P::Fault>
        requires { p < length system.now.config.sections }
    {
        let before = self.threads[turn.thread.place()];
        if turn.now == before {
            return Ok(());
        }
        if P::CALLS && !turn.now.is_blocked() {
            self.tell_reply(system, p, turn.thread, probe)?;
        }
        let is_new = before.activity == Activity::Free;
        let change = Change {
            thread: turn.thread,
            tick: turn.tick,
            before,
            now: turn.now,
            by: turn.by,
            is_cancelled: system.is_marked(p, turn.thread),
            start: if is_new {
                system.pc(p, turn.thread)
            } else {
                None
            },
            stack: if is_new {
                stack_of(system, p, turn.thread)
            } else {
                None
            },
        };
        self.follow(&change);
        probe.see(p, &Event::Change(change))
    }

    /// Tells of the end of the call with which a thread had blocked, which is blocked no more.
    fn tell_reply<P: Probe>(
        &mut self,
        system: &System<'_>,
        p: PartId,
        thread: ThreadNo,
        probe: &mut P,
    ) -> Result<(), P::Fault>
        requires { p < length system.now.config.sections }
    {
        let Some(pending) = self.pending[thread.place()] else {
            return Ok(());
        };
        self.pending[thread.place()] = None;
        let reply = Reply {
            thread,
            number: pending.number,
            reply: reply_at(system, p, thread, pending.pc),
        };
        probe.see(p, &Event::Reply(reply))
    }

    /// Tells of the ticks and the input that a decision at a tick lost.
    fn tell_losses<P: Probe>(
        &mut self,
        system: &System<'_>,
        window: &Window,
        tick: u64,
        probe: &mut P,
    ) -> Result<(), P::Fault>
        requires { window.now.partition < length system.now.config.sections }
    {
        let p = window.partition;
        let (lost, dropped) = (system.lost(p), system.dropped(p));
        if self.lost < lost {
            self.lost = lost;
            let event = Event::Lost {
                from: tick,
                until: window.end,
            };
            probe.see(p, &event)?;
        }
        if self.dropped < dropped {
            let bytes = dropped - self.dropped;
            self.dropped = dropped;
            probe.see(p, &Event::Dropped { bytes, tick })?;
        }
        Ok(())
    }

    /// Tells the status at a decision's tick, if it is new: running if a step takes the tick.
    fn tell_status<P: Probe>(
        &mut self,
        system: &System<'_>,
        decision: &Decision,
        probe: &mut P,
    ) -> Result<(), P::Fault>
        requires { decision.now.partition < length system.now.config.sections }
    {
        let status = match &decision.step {
            Some(_) => PartStatus::Running,
            None => system.status(decision.partition),
        };
        self.tell_new_status(decision.partition, status, decision.tick, probe)
    }

    /// Tells a status from a tick on, if it is new.
    fn tell_new_status<P: Probe>(
        &mut self,
        p: PartId,
        status: PartStatus,
        tick: u64,
        probe: &mut P,
    ) -> Result<(), P::Fault> {
        if self.status == status {
            return Ok(());
        }
        self.status = status;
        probe.see(p, &Event::Status { status, tick })
    }

    /// Tells what the thread of a decision's step does after the step, and the status then.
    fn tell_end<P: Probe>(
        &mut self,
        system: &System<'_>,
        decision: &Decision,
        probe: &mut P,
    ) -> Result<(), P::Fault>
        requires { decision.now.partition < length system.now.config.sections }
    {
        let (p, until) = (decision.partition, decision.until);
        let Some(thread) = decision.maker() else {
            return Ok(());
        };
        let turn = Turn {
            thread,
            tick: until,
            now: ThreadState::of(system, p, thread),
            by: Some(thread),
        };
        self.tell_turn(system, p, &turn, probe)?;
        if P::CALLS && turn.now.is_blocked() {
            self.await_reply(decision);
        }
        self.tell_new_status(p, system.status(p), until, probe)
    }

    /// The thread of a decision's step awaits the reply, if the step is a call.
    fn await_reply(&mut self, decision: &Decision) {
        if let (Some(entry), Some(number)) = (&decision.step, decision.call) {
            let pc = pc_after(entry);
            self.pending[entry.thread.place()] = Some(Pending { number, pc });
        }
    }
}

/// Tells of the step that began with a decision: that its thread makes a step, or a call.
fn tell_made<P: Probe>(
    system: &System<'_>,
    decision: &Decision,
    entry: &Entry,
    probe: &mut P,
) -> Result<(), P::Fault>
    requires { decision.now.partition < length system.now.config.sections }
{
    let (p, thread) = (decision.partition, entry.thread);
    let stack = stack_of(system, p, thread);
    let event = match decision.call {
        Some(number) => Event::Call(CallStep {
            thread,
            from: decision.tick,
            until: decision.until,
            number,
            reply: reply_after(system, p, entry, &system.activity(p, thread)),
            stack,
        }),
        None => Event::Steps(Steps {
            thread,
            from: decision.tick,
            until: decision.until,
            count: 1,
            stack,
        }),
    };
    probe.see(p, &event)
}
