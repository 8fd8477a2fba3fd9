//! The figures of a run.

ghost use Rattle.std.specs.Prelude.{◌≡◌, ◌≤◌, IfOk};
ghost use Rattle.ptk_words.specs.declared.TheConstants.{LAST_TICK};
ghost use Rattle.ptk_system.specs.World.{at_tick};

use crate::measure::Measure;
use crate::part::PartStatistics;
use crate::second::SecondRun;
use ptk_tracepoints::{Event, PartState, Probe, System, Tracer};
use ptk_window::WindowPlan;
use ptk_words::PartId;
use std::alloc::{AllocError, Global};

/// The figures of each partition of a run.
#[derive(Drop)]
pub struct Statistics {
    parts: Vec<PartStatistics>,
}

/// The figures of a run while it goes on.
#[derive(Drop)]
struct Gathering<'a> {
    plan: &'a WindowPlan,
    parts: Vec<PartStatistics>,
    second: SecondRun<'a>,
}

impl Statistics {
    /// Runs a system that has just booted up to a tick of at most 2^40, and gathers the figures that are asked for. The
    /// second system has booted from the same configuration and images. An error if memory ran out.
    #[tactic(auto, using(crate::proofs::Going::goes_on))]
    pub fn of_run<'a>(
        alloc: Global,
        system: &mut System<'a>,
        second: System<'a>,
        measure: &Measure<'_>,
    ) -> Result<Statistics, AllocError>
        requires begun { system.old.tick ≡ 0 }
        requires order { measure.now.from ≤ measure.now.to }
        requires early { measure.now.to ≤ LAST_TICK }
        ensures { IfOk result (λ _. system.new ≡ at_tick measure.now.to system.old) }
    {
        let plan = system.config().plan();
        let mut tracer = Tracer::at(alloc, system, measure.from)?;
        let mut second = SecondRun::new(second, measure.to);
        let parts = first_parts(alloc, system, tracer.parts(), &mut second, measure)?;
        let mut gathering = Gathering {
            plan,
            parts,
            second,
        };
        tracer.run(system, measure.to, &mut gathering)?;
        gathering.finish(alloc)
    }

    /// The figures of the partitions, in their order.
    pub fn parts(&self) -> &[PartStatistics] {
        self.parts.as_slice()
    }
}

/// The figures of the partitions of a system that stand like this at the first tick that is counted. An error if memory
/// runs out.
fn first_parts(
    alloc: Global,
    system: &System<'_>,
    states: &[PartState],
    second: &mut SecondRun<'_>,
    measure: &Measure<'_>,
) -> Result<Vec<PartStatistics>, AllocError>
    requires order { measure.now.from ≤ measure.now.to }
    requires early { measure.now.to ≤ LAST_TICK }
{
    let plan = system.config().plan();
    let mut parts = Vec::new(alloc);
    for index in 0..system.parts() {
        let p = PartId::new(index as u8);
        if let Some(state) = states.get(index) {
            let mut part = PartStatistics::new(alloc, plan, p, &system.limits(p), state, measure);
            part.begin_threads(state, second);
            part.begin_mutexes(system);
            parts.push(part)?;
        }
    }
    Ok(parts)
}

impl Gathering<'_> {
    /// The run ends. An error if memory runs out.
    fn finish(self, alloc: Global) -> Result<Statistics, AllocError> {
        let Gathering {
            plan,
            mut parts,
            ..
        } = self;
        for part in parts.iter_mut() {
            part.finish(alloc, plan)?;
        }
        Ok(Statistics { parts })
    }
}

impl Probe for Gathering<'_> {
    type Fault = AllocError;

    const CALLS: bool = true;

    const WINDOWS: bool = false;

    #[inline(always)]
    fn see(&mut self, p: PartId, event: &Event) -> Result<(), AllocError> {
        let place = p.index();
        if place < self.parts.len() {
            self.parts[place].see(self.plan, &mut self.second, event)?;
        }
        Ok(())
    }
}
