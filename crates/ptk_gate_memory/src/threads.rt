//! What is kept of the threads of each partition: the threads themselves, and what their ends are made of.

ghost use Rattle.std.specs.Prelude.{◌≡◌, ◌≤◌, [], length, map, replicate, IfOk, All, None};
ghost use Rattle.ptk_cancel.specs.KeptCancellations.{fresh_cancellations};
ghost use Rattle.ptk_keys.specs.KeptKeys.{fresh_keys};
ghost use Rattle.ptk_gate_memory.specs.Sections.{per_section};

use crate::endings::{Endings, endings_of};
use crate::schedules::{Schedules, schedules_of};
use ptk_words::Limits;
use std::alloc::{AllocError, Global};

/// What is kept of the threads of each partition.
#[derive(Drop)]
pub struct ThreadParts {
    /// The threads with their line, their mutexes and condition variables, and the running one.
    pub schedules: Schedules,
    /// What the threads' ends are made of.
    pub endings: Endings,
}

/// Every number of a thread, a mutex and a condition variable is free, the line is empty, no thread runs or is
/// cancelled, and no key is in use.
pub fn thread_parts_of(alloc: Global, limits: &[Limits]) -> Result<ThreadParts, AllocError>
    requires sections { length limits.now ≤ 8 }
    requires threads { All (λ count. count ≤ 32) (map (λ l. l.threads) limits.now) }
    requires mutexes { All (λ count. count ≤ 64) (map (λ l. l.mutexes) limits.now) }
    requires conditions { All (λ count. count ≤ 32) (map (λ l. l.conditions) limits.now) }
    requires keys { All (λ count. count ≤ 32) (map (λ l. l.keys) limits.now) }
    ensures table { IfOk result (λ made. made.schedules.roster.table ≡ record { threads = per_section (λ l. l.threads) None limits.now; stored = per_section (λ l. l.threads) 0 limits.now; queues = [] }) }
    ensures line { IfOk result (λ made. made.schedules.roster.lines ≡ replicate (length limits.now) []) }
    ensures mutexes { IfOk result (λ made. made.schedules.roster.mutexes ≡ per_section (λ l. l.mutexes) None limits.now) }
    ensures conditions { IfOk result (λ made. made.schedules.roster.conditions ≡ per_section (λ l. l.conditions) None limits.now) }
    ensures running { IfOk result (λ made. made.schedules.running.items ≡ replicate (length limits.now) None) }
    ensures cancellations { IfOk result (λ made. made.endings.cancellations ≡ fresh_cancellations limits.now) }
    ensures keys { IfOk result (λ made. made.endings.keys ≡ fresh_keys limits.now) }
{
    let schedules = schedules_of(alloc, limits)?;
    let endings = endings_of(alloc, limits)?;
    Ok(ThreadParts { schedules, endings })
}
