//! How a partition stands, as it is read of a system.

ghost use Rattle.std.specs.Prelude.{◌<◌, length};

use crate::deadlock::{Waiter, deadlocks};
use crate::history::History;
use crate::stop::Stop;
use crate::thread::{ThreadFacts, threads_of};
use ptk_system::{PartStatus, System};
use ptk_words::{LAST_TICK, PartId, Tick};
use std::alloc::{AllocError, Global};

/// How a partition stands at a tick.
#[derive(Drop)]
pub(crate) struct Explanation {
    /// The tick.
    pub(crate) tick: u64,
    /// Its status, None if its section names no image, so that it has no thread.
    pub(crate) status: Option<PartStatus>,
    /// Its steps.
    pub(crate) steps: u64,
    /// Its lost ticks.
    pub(crate) lost: u64,
    /// What there is to say of its status.
    pub(crate) body: Body,
}

/// What there is to say of a partition by its status.
#[derive(Drop)]
pub(crate) enum Body {
    /// An instruction stopped it.
    Stopped(Stop),
    /// It goes on.
    Going(Going),
    /// Nothing.
    Nothing,
}

/// What there is to say of a partition that goes on.
#[derive(Drop)]
pub(crate) struct Going {
    /// Whether it is idle for good: no thread is running or ready, no input is to come, and no thread waits with a
    /// deadline that comes.
    pub(crate) is_idle_for_good: bool,
    /// Its threads, by number.
    pub(crate) threads: Vec<ThreadFacts>,
    /// Its cycles of threads that wait for one another.
    pub(crate) deadlocks: Vec<Vec<Waiter>>,
}

impl Explanation {
    /// How a partition of a system stands, whose threads have these histories. An error if memory runs out.
    pub(crate) fn of(
        alloc: Global,
        system: &System<'_>,
        p: PartId,
        histories: &[History],
    ) -> Result<Explanation, AllocError>
        requires { p < length system.now.config.sections }
    {
        let status = standing(system, p);
        Ok(Explanation {
            tick: system.tick().ticks(),
            status,
            steps: system.steps(p),
            lost: system.lost(p),
            body: Body::of(alloc, system, p, histories, status)?,
        })
    }
}

impl Body {
    /// That of a partition of this status. An error if memory runs out.
    fn of(
        alloc: Global,
        system: &System<'_>,
        p: PartId,
        histories: &[History],
        status: Option<PartStatus>,
    ) -> Result<Body, AllocError>
        requires { p < length system.now.config.sections }
    {
        match status {
            Some(PartStatus::Stopped(cause, _)) => match Stop::of(alloc, system, p, cause)? {
                Some(stop) => Ok(Body::Stopped(stop)),
                None => Ok(Body::Nothing),
            },
            Some(PartStatus::Idle | PartStatus::Running) => {
                Ok(Body::Going(Going::of(alloc, system, p, histories)?))
            }
            Some(PartStatus::Exited(_) | PartStatus::Refused(_)) | None => Ok(Body::Nothing),
        }
    }
}

impl Going {
    /// That of a partition whose threads have these histories. An error if memory runs out.
    fn of(
        alloc: Global,
        system: &System<'_>,
        p: PartId,
        histories: &[History],
    ) -> Result<Going, AllocError>
        requires { p < length system.now.config.sections }
    {
        let is_idle = system.status(p) == PartStatus::Idle;
        Ok(Going {
            is_idle_for_good: is_idle && !has_an_event_to_come(system, p),
            threads: threads_of(alloc, system, p, histories)?,
            deadlocks: deadlocks(alloc, system, p)?,
        })
    }
}

/// The status of a partition; None if its section names no image, so that it has no thread.
fn standing(system: &System<'_>, p: PartId) -> Option<PartStatus>
    requires { p < length system.now.config.sections }
{
    system.config().sections()[p.index()].image()?;
    Some(system.status(p))
}

/// Whether an input or a deadline of a partition is to come.
fn has_an_event_to_come(system: &System<'_>, p: PartId) -> bool
    requires { p < length system.now.config.sections }
{
    let tables = system.tables();
    comes(tables.next_arrival_tick(p)) || comes(tables.next_deadline(p))
}

/// Whether there is a tick, and it comes: no run goes beyond 2^40.
fn comes(tick: Option<Tick>) -> bool {
    match tick {
        Some(tick) => tick.ticks() <= LAST_TICK,
        None => false,
    }
}
