//! The pools are made once.

ghost use Rattle.std.specs.Prelude.{◌≡◌, ◌≤◌, [], length, map, replicate, IfOk, All, None};
ghost use Rattle.ptk_words.specs.declared.faults.Status.TheVariants.{Active};
ghost use Rattle.ptk_cancel.specs.KeptCancellations.{fresh_cancellations};
ghost use Rattle.ptk_keys.specs.KeptKeys.{fresh_keys};
ghost use Rattle.ptk_console.specs.ConsoleTable.{fresh_console};
ghost use Rattle.ptk_gate_memory.specs.AllDecoded.{IsOfWords};
ghost use Rattle.ptk_gate_pools.specs.Blank.{blank};
ghost use Rattle.ptk_gate_pools.specs.Kept.{per_section};
ghost use Rattle.ptk_gate_pools.specs.Held.{held};

use crate::pools::Pools;
use ptk_cond::Mutexes;
use ptk_gate_memory::{
    Endings, Records, Schedules, Stores, ThreadParts, records_of, stores_of, thread_parts_of,
};
use ptk_words::{Arrival, Limits, PartId};
use std::alloc::{AllocError, Global};

impl Pools {
    /// All pools for at most 8 sections, from each one's numbers and input, with the room that all later calls fill. An
    /// error where memory ran out. No other call takes memory.
    pub fn build(
        alloc: Global,
        limits: &[Limits],
        inputs: &[&[Arrival]],
    ) -> Result<Pools, AllocError>
        requires some { 1 ≤ length limits.now }
        requires sections { length limits.now ≤ 8 }
        requires inputs { length inputs.now ≡ length limits.now }
        requires memory { All IsOfWords (map (λ l. l.memory) limits.now) }
        requires threads { All (λ count. count ≤ 32) (map (λ l. l.threads) limits.now) }
        requires mutexes { All (λ count. count ≤ 64) (map (λ l. l.mutexes) limits.now) }
        requires conditions { All (λ count. count ≤ 32) (map (λ l. l.conditions) limits.now) }
        requires keys { All (λ count. count ≤ 32) (map (λ l. l.keys) limits.now) }
        ensures { IfOk result (λ pools. pools ≡ held 0 (blank limits.now (map (λ input. fresh_console input.now) inputs.now))) }
    {
        let records = records_of(alloc, limits)?;
        let stores = stores_of(alloc, limits, inputs)?;
        let threads = thread_parts_of(alloc, limits)?;
        Ok(joined(limits, inputs, records, stores, threads))
    }
}

/// The pools of these parts, made for these sections.
#[tactic(auto, using(crate::proofs::Built::built))]
fn joined(
    limits: &[Limits],
    inputs: &[&[Arrival]],
    records: Records,
    stores: Stores,
    threads: ThreadParts,
) -> Pools
    requires some { 1 ≤ length limits.now }
    requires sections { length limits.now ≤ 8 }
    requires inputs { length inputs.now ≡ length limits.now }
    requires memory { stores.memories ≡ per_section (λ l. l.memory) 0 limits.now }
    requires consoles { stores.consoles ≡ record { limits = limits.now; consoles = map (λ input. fresh_console input.now) inputs.now } }
    requires table { threads.schedules.roster.table ≡ record { threads = per_section (λ l. l.threads) None limits.now; stored = per_section (λ l. l.threads) 0 limits.now; queues = [] } }
    requires line { threads.schedules.roster.lines ≡ replicate (length limits.now) [] }
    requires running { threads.schedules.running.items ≡ replicate (length limits.now) None }
    requires mutexes { threads.schedules.roster.mutexes ≡ per_section (λ l. l.mutexes) None limits.now }
    requires conditions { threads.schedules.roster.conditions ≡ per_section (λ l. l.conditions) None limits.now }
    requires cancellations { threads.endings.cancellations ≡ fresh_cancellations limits.now }
    requires keys { threads.endings.keys ≡ fresh_keys limits.now }
    requires statuses { records.statuses.items ≡ replicate (length limits.now) Active }
    requires lasts { records.lasts.items ≡ replicate (length limits.now) None }
    requires limits { records.limits.items ≡ limits.now }
    ensures { result ≡ held 0 (blank limits.now (map (λ input. fresh_console input.now) inputs.now)) }
{
    let Records {
        statuses,
        lasts,
        limits,
    } = records;
    let Stores { memories, consoles } = stores;
    let ThreadParts { schedules, endings } = threads;
    let Schedules { roster, running } = schedules;
    let Endings {
        cancellations,
        keys,
    } = endings;
    Pools {
        memories,
        roster,
        mutexes: Mutexes::new(),
        running,
        cancellations,
        keys,
        consoles,
        statuses,
        lasts,
        limits,
        hand: PartId::new(0),
    }
}
