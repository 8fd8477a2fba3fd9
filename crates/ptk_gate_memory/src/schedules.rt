//! The threads of each partition with their line, their mutexes and condition variables, and the running one.

ghost use Rattle.std.specs.Prelude.{◌≡◌, ◌≤◌, [], length, map, replicate, IfOk, All, None};
ghost use Rattle.ptk_gate_memory.specs.Sections.{per_section};

use crate::counts::{condition_counts_of, mutex_counts_of};
use ptk_keys::thread_counts_of;
use ptk_roster::Roster;
use ptk_words::{Limits, ThreadNo};
use std::alloc::{AllocError, Global};

/// The threads of each partition with their line, their mutexes and condition variables, and the running one.
#[derive(Drop)]
pub struct Schedules {
    /// The threads of each partition with their line, their mutexes and condition variables.
    pub roster: Roster,
    /// The running thread of each partition, if one runs.
    pub running: Vec<Option<ThreadNo>>,
}

/// Every number of a thread, a mutex and a condition variable is free, the line is empty, and no thread runs.
pub(crate) fn schedules_of(alloc: Global, limits: &[Limits]) -> Result<Schedules, AllocError>
    requires sections { length limits.now ≤ 8 }
    requires threads { All (λ count. count ≤ 32) (map (λ l. l.threads) limits.now) }
    requires mutexes { All (λ count. count ≤ 64) (map (λ l. l.mutexes) limits.now) }
    requires conditions { All (λ count. count ≤ 32) (map (λ l. l.conditions) limits.now) }
    ensures table { IfOk result (λ made. made.roster.table ≡ record { threads = per_section (λ l. l.threads) None limits.now; stored = per_section (λ l. l.threads) 0 limits.now; queues = [] }) }
    ensures line { IfOk result (λ made. made.roster.lines ≡ replicate (length limits.now) []) }
    ensures mutexes { IfOk result (λ made. made.roster.mutexes ≡ per_section (λ l. l.mutexes) None limits.now) }
    ensures conditions { IfOk result (λ made. made.roster.conditions ≡ per_section (λ l. l.conditions) None limits.now) }
    ensures running { IfOk result (λ made. made.running.items ≡ replicate (length limits.now) None) }
{
    let roster = roster_of(alloc, limits)?;
    let running = none_running(alloc, limits.len())?;
    Ok(Schedules { roster, running })
}

/// Every number is free, and the line is empty.
#[tactic(auto, using(crate::proofs::Built::built))]
fn roster_of(alloc: Global, limits: &[Limits]) -> Result<Roster, AllocError>
    requires sections { length limits.now ≤ 8 }
    requires threads { All (λ count. count ≤ 32) (map (λ l. l.threads) limits.now) }
    requires mutexes { All (λ count. count ≤ 64) (map (λ l. l.mutexes) limits.now) }
    requires conditions { All (λ count. count ≤ 32) (map (λ l. l.conditions) limits.now) }
    ensures table { IfOk result (λ roster. roster.table ≡ record { threads = per_section (λ l. l.threads) None limits.now; stored = per_section (λ l. l.threads) 0 limits.now; queues = [] }) }
    ensures line { IfOk result (λ roster. roster.lines ≡ replicate (length limits.now) []) }
    ensures mutexes { IfOk result (λ roster. roster.mutexes ≡ per_section (λ l. l.mutexes) None limits.now) }
    ensures conditions { IfOk result (λ roster. roster.conditions ≡ per_section (λ l. l.conditions) None limits.now) }
{
    let threads = thread_counts_of(alloc, limits)?;
    let mutexes = mutex_counts_of(alloc, limits)?;
    let conditions = condition_counts_of(alloc, limits)?;
    Ok(Roster::build(alloc, &threads, &mutexes, &conditions)?)
}

/// No thread runs.
fn none_running(alloc: Global, parts: usize) -> Result<Vec<Option<ThreadNo>>, AllocError>
    ensures { IfOk result (λ running. running.items ≡ replicate parts None) }
{
    let mut running = Vec::new(alloc);
    for i in 0..parts {
        running.push(None)?;
    }
    Ok(running)
}
