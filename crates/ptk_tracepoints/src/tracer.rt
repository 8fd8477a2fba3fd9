//! A run, told to a probe.

ghost use Rattle.std.specs.Prelude.{◌≡◌, ◌+◌, ◌≤◌, ◌<◌, IfOk, IfSome, OnOk, length, max};
ghost use Rattle.std.proofs.Props.{props};
ghost use Rattle.ptk_words.specs.declared.TheConstants.{LAST_TICK};
ghost use Rattle.ptk_system.specs.World.{at_tick};

use crate::carried::Carried;
use crate::event::{Event, Steps};
use crate::part::PartState;
use crate::window::{Window, holder_at, next_start, window_at};
use ptk_system::{PartStatus, System};
use ptk_words::{PartId, Tick};
use std::alloc::{AllocError, Global};

/// What is told of a run.
pub trait Probe {
    /// Why it can't be told more.
    type Fault;

    /// Whether it is told each call by itself, and each owner of a mutex. Otherwise stretches of steps may have calls
    /// among them that act on no other thread.
    const CALLS: bool;

    /// Whether it is told the begins and ends of windows. Otherwise the run passes over ticks at which nothing is due
    /// at once, however many they are.
    const WINDOWS: bool;

    /// It is told an event of a partition.
    fn see(&mut self, p: PartId, event: &Event) -> Result<(), Self::Fault>;
}

/// A system on its way, and what a reader of the events keeps of each partition.
#[derive(Drop)]
pub struct Tracer {
    parts: Vec<PartState>,
    from: u64,
    // the partition whose window holds the first tick
    holder: Option<PartId>,
    carried: Carried,
    ghost known: { IfSome holder (λ p. p < length parts.items) } by { Prim.hlevel props },
}

impl Tracer {
    ghost use Rattle.ptk_tracepoints.specs.Position.{GoesOn, IsAt};

    /// Runs a system that has just booted on to a tick of at most 2^40, the first that is told. A step or lost ticks
    /// that have begun before it, and go on there, are known and told first. An error if memory runs out; no other call
    /// takes memory.
    pub fn at(alloc: Global, system: &mut System<'_>, from: Tick) -> Result<Tracer, AllocError>
        requires from { from ≤ LAST_TICK }
        requires booted { system.old.tick ≡ 0 }
        ensures run { IfOk result (λ _. system.new ≡ at_tick from system.old) }
        ensures from { IfOk result (λ tracer. tracer.from ≡ from) }
        ensures at { IfOk result (λ tracer. IsAt tracer system.new) }
    {
        let config = system.config();
        let to = from.ticks();
        // a window, and so a step, lies in one frame
        let begin = to - to % u64::from(config.frame());
        system.run_to(Tick::new(begin));
        let mut tracer = Tracer {
            parts: first_parts(alloc, system)?,
            from: begin,
            holder: None,
            carried: Carried::none(begin),
        };
        let mut carried = Carried::none(to);
        tracer.run_by_decisions(system, to, &mut carried)?;
        system.run_to(from);
        tracer.begin_with(to, holder_at(config, to), carried);
        Ok(tracer)
    }

    /// Begins at a tick with what goes on there of the partition whose window holds the tick. That is told first: the
    /// thread of the step runs, and its partition is running.
    fn begin_with(&mut self, from: u64, holder: Option<PartId>, carried: Carried)
        requires { IfSome holder (λ p. p < length self.old.parts.items) }
        ensures from { self.new.from ≡ from }
        ensures parts { length self.new.parts.items ≡ length self.old.parts.items }
    {
        self.from = from;
        self.holder = holder;
        self.carried = carried;
        let place = match &self.holder {
            Some(p) => p.index(),
            None => return,
        };
        if let Some(change) = &self.carried.change {
            self.parts[place].take_back(change);
        }
        if self.carried.status.is_some() {
            self.parts[place].set_status(PartStatus::Running);
        }
    }

    /// What is kept of each partition, in their order.
    pub fn parts(&self) -> &[PartState] {
        self.parts.as_slice()
    }

    /// The first tick.
    pub fn from(&self) -> Tick
        ensures { result ≡ self.now.from }
    {
        Tick::new(self.from)
    }

    /// Runs a system, which is at the tracer's first tick, on to a tick of at most 2^40, and tells a probe what happens
    /// to each partition before it. A fault is the probe's.
    pub fn run<P: Probe>(
        &mut self,
        system: &mut System<'_>,
        to: Tick,
        probe: &mut P,
    ) -> Result<(), P::Fault>
        requires to { to ≤ LAST_TICK }
        requires at { IsAt self.old system.old }
        ensures run { OnOk result (system.new ≡ at_tick (max system.old.tick to) system.old) }
    {
        if P::WINDOWS {
            self.run_by_windows(system, to.ticks(), probe)?;
        } else {
            self.tell_carried(probe)?;
            self.run_by_decisions(system, to.ticks(), probe)?;
        }
        system.run_to(to);
        Ok(())
    }

    /// The same, of one partition alone: the probe is told nothing of the others, and of no window.
    pub fn run_part<P: Probe>(
        &mut self,
        system: &mut System<'_>,
        p: PartId,
        to: Tick,
        probe: &mut P,
    ) -> Result<(), P::Fault>
        requires partition { p < length system.old.config.sections }
        requires to { to ≤ LAST_TICK }
        requires at { IsAt self.old system.old }
        ensures run { OnOk result (system.new ≡ at_tick (max system.old.tick to) system.old) }
    {
        self.tell_carried_of(p, probe)?;
        self.run_alone(system, p, to.ticks(), probe)?;
        system.run_to(to);
        Ok(())
    }

    /// Goes on from decision to decision of one partition.
    fn run_alone<P: Probe>(
        &mut self,
        system: &mut System<'_>,
        p: PartId,
        to: u64,
        probe: &mut P,
    ) -> Result<(), P::Fault>
        requires partition { p < length system.old.config.sections }
        requires to { to ≤ LAST_TICK }
        requires parts { length self.old.parts.items ≡ length system.old.config.sections }
        ensures { OnOk result (GoesOn system.old to system.new) }
    {
        system.states_are_alone();
        let config = system.config();
        let mut tick = self.from;
        while tick < to {
            tick = system.stays_until(p, Tick::new(to)).ticks().max(tick);
            match window_at(config, tick, to) {
                Some(window) if window.partition == p && tick < to => {
                    // the others decide first
                    system.run_to(Tick::new(tick));
                    tick = self.run_window(system, &window, probe)?;
                }
                _ => tick += 1,
            }
        }
        Ok(())
    }

    /// Tells what has begun before the first tick and goes on there, if it is of this partition.
    fn tell_carried_of<P: Probe>(&mut self, p: PartId, probe: &mut P) -> Result<(), P::Fault>
        ensures from { self.new.from ≡ self.old.from }
        ensures parts { length self.new.parts.items ≡ length self.old.parts.items }
    {
        if self.holder == Some(p) {
            return self.tell_carried(probe);
        }
        Ok(())
    }

    /// Tells what has begun before the first tick and goes on there.
    fn tell_carried<P: Probe>(&mut self, probe: &mut P) -> Result<(), P::Fault>
        ensures from { self.new.from ≡ self.old.from }
        ensures parts { length self.new.parts.items ≡ length self.old.parts.items }
    {
        let from = self.from;
        let p = match &self.holder {
            Some(p) => *p,
            None => return Ok(()),
        };
        if let Some(step) = &self.carried.step {
            let step = Steps {
                thread: step.thread,
                from,
                until: step.until,
                count: 0,
                stack: step.stack,
            };
            probe.see(p, &Event::Steps(step))?;
        }
        if let Some(until) = self.carried.lost {
            probe.see(p, &Event::Lost { from, until })?;
        }
        if let Some(change) = &self.carried.change {
            self.parts[p.index()].follow(change);
            probe.see(p, &Event::Change(*change))?;
        }
        if let Some((status, tick)) = self.carried.status {
            self.parts[p.index()].set_status(status);
            probe.see(p, &Event::Status { status, tick })?;
        }
        Ok(())
    }

    /// Goes on from window to window.
    fn run_by_windows<P: Probe>(
        &mut self,
        system: &mut System<'_>,
        to: u64,
        probe: &mut P,
    ) -> Result<(), P::Fault>
        requires to { to ≤ LAST_TICK }
        requires parts { length self.old.parts.items ≡ length system.old.config.sections }
        ensures run { OnOk result (GoesOn system.old to system.new) }
        ensures from { self.new.from ≡ self.old.from }
        ensures parts { length self.new.parts.items ≡ length self.old.parts.items }
    {
        system.states_are_alone();
        let config = system.config();
        let mut holder: Option<PartId> = None;
        let mut tick = self.from;
        while tick < to {
            let window = window_at(config, tick, to);
            holder = tell_turn(holder, &window, tick, probe)?;
            if tick == self.from {
                self.tell_carried(probe)?;
            }
            match window {
                Some(window) => tick = self.run_window(system, &window, probe)?,
                None => tick = next_start(config, tick, to),
            }
        }
        Ok(())
    }

    /// Goes on from decision to decision.
    fn run_by_decisions<P: Probe>(
        &mut self,
        system: &mut System<'_>,
        to: u64,
        probe: &mut P,
    ) -> Result<(), P::Fault>
        requires to { to ≤ LAST_TICK }
        requires parts { length self.old.parts.items ≡ length system.old.config.sections }
        ensures run { OnOk result (GoesOn system.old to system.new) }
        ensures from { self.new.from ≡ self.old.from }
        ensures parts { length self.new.parts.items ≡ length self.old.parts.items }
    {
        system.states_are_alone();
        let config = system.config();
        let mut tick = self.from;
        while tick < to {
            tick = system.all_stay_until(Tick::new(to)).ticks().max(tick);
            match window_at(config, tick, to) {
                Some(window) if tick < to => {
                    tick = self.run_window(system, &window, probe)?;
                }
                _ => tick += 1,
            }
        }
        Ok(())
    }

    /// Goes on over a window of a partition, or the part of one that is told. Returns the tick up to which all is told.
    fn run_window<P: Probe>(
        &mut self,
        system: &mut System<'_>,
        window: &Window,
        probe: &mut P,
    ) -> Result<u64, P::Fault>
        requires partition { window.now.partition < length system.old.config.sections }
        requires early { window.now.stop ≤ LAST_TICK }
        requires order { window.now.stop ≤ window.now.end }
        requires parts { length self.old.parts.items ≡ length system.old.config.sections }
        ensures later { IfOk result (λ tick. window.now.stop ≤ tick) }
        ensures run { OnOk result (GoesOn system.old window.now.stop system.new) }
        ensures from { self.new.from ≡ self.old.from }
        ensures parts { length self.new.parts.items ≡ length self.old.parts.items }
    {
        self.parts[window.partition.index()].run_window(system, window, probe)
    }
}

/// What is kept of each partition of a system, in their order.
fn first_parts(alloc: Global, system: &System<'_>) -> Result<Vec<PartState>, AllocError>
    ensures { IfOk result (λ parts. length parts.items ≡ length system.now.config.sections) }
{
    let mut parts = Vec::new(alloc);
    for i in 0..system.parts() {
        let part = PartState::new(system, PartId::new(i as u8));
        add(&mut parts, &part)?;
    }
    Ok(parts)
}

/// Puts a copy of an item at the end of a list.
fn add<T: Copy>(list: &mut Vec<T>, item: &T) -> Result<(), AllocError>
    ensures { OnOk result (length list.new.items ≡ length list.old.items + 1) }
{
    list.push(*item)?;
    Ok(())
}

/// Tells at a tick that the window of the partition which held the tick before ends, and that the one which holds this
/// tick begins, unless both are one partition's. Returns the partition of the window at this tick.
fn tell_turn<P: Probe>(
    before: Option<PartId>,
    window: &Option<Window>,
    tick: u64,
    probe: &mut P,
) -> Result<Option<PartId>, P::Fault> {
    let now = match window {
        Some(window) => Some(window.partition),
        None => None,
    };
    if before == now {
        return Ok(now);
    }
    if let Some(p) = before {
        probe.see(p, &Event::WindowEnds { tick })?;
    }
    if let Some(p) = now {
        probe.see(p, &Event::WindowBegins { tick })?;
    }
    Ok(now)
}
