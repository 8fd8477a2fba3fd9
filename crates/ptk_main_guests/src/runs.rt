//! A system that runs on from tick to tick, and what it shows.

use crate::guests::tick_of;
use ptk_config::Config;
use ptk_main_runs::{Files, System};
use ptk_words::PartId;
use std::alloc::Global;

/// The system of a configuration at tick 0, None if it does not boot.
pub fn booted<'a>(alloc: Global, config: &'a Config, files: &'a Files) -> Option<System<'a>> {
    System::boot(alloc, config, files).ok()
}

/// Runs on to a tick.
pub fn run_on_to(system: &mut System<'_>, ticks: u64) {
    system.run_to(tick_of(ticks));
}

/// The system's report, None if memory ran out.
pub fn report_now(alloc: Global, system: &System<'_>) -> Option<Vec<u8>> {
    let mut out = Vec::new(alloc);
    system.report(&mut out).ok()?;
    Some(out)
}

/// The trace of the partition at this place, None if there is no such partition or memory ran out.
pub fn trace_now(alloc: Global, system: &System<'_>, place: u8) -> Option<Vec<u8>> {
    let parts = system.parts();
    if usize::from(place) >= parts {
        return None;
    }
    let mut out = Vec::new(alloc);
    system.trace(PartId::new(place)).lines(&mut out).ok()?;
    Some(out)
}
