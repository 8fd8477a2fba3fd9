//! How a tracer goes on over a partition's window: by rows of steps, and by single decisions.

ghost use Rattle.std.specs.Prelude.{◌<◌, ◌≤◌, IfOk, IfSome, OnOk, length};
ghost use Rattle.ptk_words.specs.declared.TheConstants.{LAST_TICK};
ghost use Rattle.ptk_tracepoints.specs.Position.{GoesOn};

use crate::event::{CallStep, Event, Steps};
use crate::part::PartState;
use crate::reading::{call_of, changes_an_owner, due, goes_on_after, stack_of, step_end};
use crate::tracer::Probe;
use crate::window::Window;
use ptk_system::System;
use ptk_words::{Entry, PartId, Tick};

/// Steps of one thread in a row.
#[derive(Clone, Copy)]
struct Row {
    /// The tick at which the first begins.
    from: u64,
    /// The tick after the last that they take.
    until: u64,
    /// How many there are.
    count: u64,
    /// The last of them.
    last: Entry,
    /// The number of the last, if it is a call that is told by itself.
    call: Option<u32>,
}

impl PartState {
    /// Goes on over a window of the partition, or the part of one that is told. Returns the tick up to which all is
    /// told: the end of the window, or that of the step that goes on at the last tick.
    pub(crate) fn run_window<P: Probe>(
        &mut self,
        system: &mut System<'_>,
        window: &Window,
        probe: &mut P,
    ) -> Result<u64, P::Fault>
        requires partition { window.now.partition < length system.old.config.sections }
        requires early { window.now.stop ≤ LAST_TICK }
        requires order { window.now.stop ≤ window.now.end }
        ensures later { IfOk result (λ tick. window.now.stop ≤ tick) }
        ensures run { OnOk result (GoesOn system.old window.now.stop system.new) }
    {
        system.states_are_alone();
        let mut tick = due(system, window, window.from);
        while tick < window.stop {
            tick = self.go_on(system, window, tick, probe)?;
        }
        Ok(tick)
    }

    /// Goes on from a tick at which the partition decides. Returns the next such tick, or one from which on nothing of it
    /// is told.
    #[inline(always)]
    fn go_on<P: Probe>(
        &mut self,
        system: &mut System<'_>,
        window: &Window,
        tick: u64,
        probe: &mut P,
    ) -> Result<u64, P::Fault>
        requires partition { window.now.partition < length system.old.config.sections }
        requires early { window.now.stop ≤ LAST_TICK }
        requires order { window.now.stop ≤ window.now.end }
        requires tick { tick < window.now.stop }
        ensures later { IfOk result (λ next. tick < next) }
        ensures run { OnOk result (GoesOn system.old window.now.stop system.new) }
    {
        let mut tick = tick;
        if self.runner.is_some() {
            if P::CALLS {
                system.call_to(Tick::new(window.stop));
            } else {
                system.compute_to(Tick::new(window.stop));
            }
            if let Some(row) = self.new_row::<P>(system, window, tick) {
                self.tell_row(system, window.partition, &row, probe)?;
                tick = row.until;
                if row.call.is_some() || window.stop <= tick {
                    return Ok(tick);
                }
                // its thread decides again at the end of the row
            }
        }
        let until = self.decide(system, window, tick, probe)?;
        if self.runner.is_some() {
            return Ok(until);
        }
        Ok(due(system, window, until))
    }

    /// The steps that have been made from a tick on and were not yet told, None if there are none.
    #[inline(always)]
    fn new_row<P: Probe>(&mut self, system: &System<'_>, window: &Window, tick: u64) -> Option<Row>
        requires partition { window.now.partition < length system.now.config.sections }
        requires tick { tick < window.now.end }
        ensures { IfSome result (λ row. tick < row.until) }
    {
        let steps = system.steps(window.partition);
        if steps <= self.steps {
            return None;
        }
        let last = system.last_step(window.partition)?;
        let count = steps - self.steps;
        self.steps = steps;
        Some(Row {
            from: tick,
            until: step_end(system, window, tick),
            count,
            last,
            call: if P::CALLS {
                call_of(system, window.partition, &last)
            } else {
                None
            },
        })
    }

    /// Tells of a row of steps.
    #[inline(always)]
    fn tell_row<P: Probe>(
        &mut self,
        system: &System<'_>,
        p: PartId,
        row: &Row,
        probe: &mut P,
    ) -> Result<(), P::Fault>
        requires { p < length system.now.config.sections }
    {
        let thread = row.last.thread;
        let stack = stack_of(system, p, thread);
        let Some(number) = row.call else {
            let steps = Steps {
                thread,
                from: row.from,
                until: row.until,
                count: row.count,
                stack,
            };
            return probe.see(p, &Event::Steps(steps));
        };
        let from = row.last.tick.ticks();
        if 1 < row.count {
            let steps = Steps {
                thread,
                from: row.from,
                until: from,
                count: row.count - 1,
                stack,
            };
            probe.see(p, &Event::Steps(steps))?;
        }
        let call = CallStep {
            thread,
            from,
            until: row.until,
            number,
            reply: goes_on_after(system, p, &row.last).then_some(row.last.a0),
            stack,
        };
        probe.see(p, &Event::Call(call))?;
        if changes_an_owner(number) {
            self.tell_one_owner(system, p, from, probe)?;
        }
        Ok(())
    }
}
