//! The lanes of all partitions.

ghost use Rattle.std.specs.Prelude.{◌≡◌};

use crate::lane::Lane;
use crate::scale::Scale;
use ptk_tracepoints::{Event, PartStatus, Probe, System, Tracer};
use ptk_words::{PartId, Tick};
use std::alloc::{AllocError, Global};

/// What each thread of each partition was, over the ticks of a scale, and what each partition is at their end.
#[derive(Drop)]
pub struct Recording {
    scale: Scale,
    lanes: Vec<Lane>,
    statuses: Vec<PartStatus>,
}

/// The lanes of a run while it goes on, which ask for each step by itself or not.
#[derive(Drop)]
struct Lanes<const EACH: bool> {
    lanes: Vec<Lane>,
}

impl<const EACH: bool> Probe for Lanes<EACH> {
    type Fault = AllocError;

    const CALLS: bool = EACH;

    const WINDOWS: bool = false;

    fn see(&mut self, p: PartId, event: &Event) -> Result<(), AllocError> {
        if let Some(lane) = self.lanes.get_mut(p.index()) {
            lane.see(event);
        }
        Ok(())
    }
}

impl Recording {
    /// Runs a system that has just booted on to the scale's end, and records what it shows from the scale's first tick
    /// on. An error if memory ran out: the system has then gone on to the first tick, or to the end.
    pub fn of_run(
        alloc: Global,
        system: &mut System<'_>,
        scale: Scale,
    ) -> Result<Recording, AllocError>
        requires { system.old.tick ≡ 0 }
    {
        let lanes = if scale.each() == 1 {
            lanes_of::<true>(alloc, system, scale)?
        } else {
            lanes_of::<false>(alloc, system, scale)?
        };
        let mut statuses = Vec::new(alloc);
        for i in 0..system.parts() {
            statuses.push(system.status(PartId::new(i as u8)))?;
        }
        Ok(Recording {
            scale,
            lanes,
            statuses,
        })
    }

    /// Which ticks these are.
    pub fn scale(&self) -> Scale {
        self.scale
    }

    /// The lanes, in the order of the partitions.
    pub fn lanes(&self) -> &[Lane] {
        self.lanes.as_slice()
    }

    /// What each partition is at the scale's end, in their order.
    pub fn statuses(&self) -> &[PartStatus] {
        self.statuses.as_slice()
    }
}

/// The lanes of a run over the ticks of a scale. Each step is told by itself if `EACH` is true, as the marks of steps
/// need it where a column is a tick.
fn lanes_of<const EACH: bool>(
    alloc: Global,
    system: &mut System<'_>,
    scale: Scale,
) -> Result<Vec<Lane>, AllocError>
    requires { system.old.tick ≡ 0 }
{
    let mut tracer = Tracer::at(alloc, system, Tick::new(scale.from()))?;
    let mut lanes = Vec::new(alloc);
    for part in tracer.parts() {
        lanes.push(Lane::new(alloc, scale, part)?)?;
    }
    let mut told: Lanes<EACH> = Lanes { lanes };
    tracer.run(system, Tick::new(scale.to()), &mut told)?;
    let Lanes { mut lanes } = told;
    for lane in lanes.iter_mut() {
        lane.reach(scale.to());
    }
    Ok(lanes)
}
