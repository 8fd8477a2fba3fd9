//! Where the threads of a run start, and the names of the routines there.

ghost use Rattle.std.specs.Prelude.{◌≡◌, ◌<◌, ◌≤◌, length};
ghost use Rattle.ptk_words.specs.declared.TheConstants.{LAST_TICK};

use ptk_disasm::{Located, Symbols};
use ptk_tracepoints::{Event, Probe, System, Tracer};
use ptk_words::{PartId, THREAD_LIMIT, ThreadNo, Tick};
use std::alloc::{AllocError, Global};

/// Where the threads of a run start: of each number of each partition the pc at which the last thread that had it
/// started, the image's entry or the routine of `pthread_create`.
#[derive(Drop)]
pub struct Starts {
    parts: Vec<Vec<Option<u32>>>,
}

impl Probe for Starts {
    type Fault = AllocError;

    const CALLS: bool = false;

    const WINDOWS: bool = false;

    fn see(&mut self, p: PartId, event: &Event) -> Result<(), AllocError> {
        if let Event::Change(change) = event {
            if change.start.is_some() {
                self.note(p, change.thread.place(), change.start);
            }
        }
        Ok(())
    }
}

impl Starts {
    /// No thread starts.
    pub fn none(alloc: Global) -> Starts {
        Starts {
            parts: Vec::new(alloc),
        }
    }

    /// Runs a system that has just booted on to a tick of at most 2^40, and returns where its threads start on the way.
    /// An error if memory ran out.
    pub fn of_run(alloc: Global, system: &mut System<'_>, to: Tick) -> Result<Starts, AllocError>
        requires to { to ≤ LAST_TICK }
        requires booted { system.old.tick ≡ 0 }
    {
        let mut tracer = Tracer::at(alloc, system, Tick::new(0))?;
        let mut parts = Vec::new(alloc);
        for i in 0..system.parts() {
            parts.push(first_starts(alloc, system, PartId::new(i as u8))?)?;
        }
        let mut starts = Starts { parts };
        tracer.run(system, to, &mut starts)?;
        Ok(starts)
    }

    /// The last thread of the number at a place of a partition starts here.
    fn note(&mut self, p: PartId, place: usize, start: Option<u32>) {
        if let Some(starts) = self.parts.get_mut(p.index()) {
            if let Some(kept) = starts.get_mut(place) {
                *kept = start;
            }
        }
    }

    /// Where the last thread of a number of a partition started. None if none has had it.
    fn start_of(&self, p: PartId, number: usize) -> Option<u32> {
        let starts = self.parts.get(p.index())?;
        *starts.get(number.checked_sub(1)?)?
    }
}

/// Where the threads of a partition start that are there after the boot, by number from 1.
fn first_starts(
    alloc: Global,
    system: &System<'_>,
    p: PartId,
) -> Result<Vec<Option<u32>>, AllocError>
    requires { p < length system.now.config.sections }
{
    let mut starts = Vec::new(alloc);
    for place in 0..THREAD_LIMIT {
        starts.push(system.pc(p, ThreadNo::new(place as u8 + 1)))?;
    }
    Ok(starts)
}

/// What the threads of a picture are named by: where they start, and the symbols there.
#[derive(Clone, Copy)]
pub struct Names<'a, 's> {
    /// Where the threads start.
    pub starts: &'a Starts,
    /// The names of addresses, for every partition.
    pub symbols: &'a Symbols<'s>,
}

impl<'s> Names<'_, 's> {
    /// The symbol that begins where the last thread of a number of a partition started, of those that do the first of
    /// the text. None if none does.
    pub fn routine(&self, p: PartId, number: usize) -> Option<Located<'s>> {
        let located = self.symbols.nearest(self.starts.start_of(p, number)?)?;
        (located.distance == 0).then_some(located)
    }
}
