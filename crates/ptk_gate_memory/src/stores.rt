//! The memory of each partition, and its console.

ghost use Rattle.std.specs.Prelude.{◌≡◌, ◌≤◌, length, map, All, IfOk};
ghost use Rattle.ptk_console.specs.ConsoleTable.{fresh_console};
ghost use Rattle.ptk_gate_memory.specs.AllDecoded.{IsOfWords};
ghost use Rattle.ptk_gate_memory.specs.Sections.{per_section};

use crate::memories::Memories;
use ptk_console::Consoles;
use ptk_words::{Arrival, Limits};
use std::alloc::{AllocError, Global};

/// The memory of each partition, and its console.
#[derive(Drop)]
pub struct Stores {
    /// The memory of each partition.
    pub memories: Memories,
    /// The console of each partition.
    pub consoles: Consoles,
}

/// All memory is 0, and all input is still to come.
pub fn stores_of(
    alloc: Global,
    limits: &[Limits],
    inputs: &[&[Arrival]],
) -> Result<Stores, AllocError>
    requires sections { length limits.now ≤ 8 }
    requires inputs { length inputs.now ≡ length limits.now }
    requires memory { All IsOfWords (map (λ l. l.memory) limits.now) }
    ensures memory { IfOk result (λ made. made.memories ≡ per_section (λ l. l.memory) 0 limits.now) }
    ensures consoles { IfOk result (λ made. made.consoles ≡ record { limits = limits.now; consoles = map (λ input. fresh_console input.now) inputs.now }) }
{
    let memories = memories_of(alloc, limits)?;
    let consoles = Consoles::build(alloc, limits, inputs)?;
    Ok(Stores { memories, consoles })
}

/// All memory is 0.
#[tactic(auto, using(crate::proofs::Built::built))]
fn memories_of(alloc: Global, limits: &[Limits]) -> Result<Memories, AllocError>
    requires sections { length limits.now ≤ 8 }
    requires words { All IsOfWords (map (λ l. l.memory) limits.now) }
    ensures { IfOk result (λ memories. memories ≡ per_section (λ l. l.memory) 0 limits.now) }
{
    let sizes = sizes_of(alloc, limits)?;
    Ok(Memories::build(alloc, &sizes)?)
}

/// The bytes of each section's memory.
fn sizes_of(alloc: Global, limits: &[Limits]) -> Result<Vec<u32>, AllocError>
    ensures { IfOk result (λ sizes. sizes.items ≡ map (λ l. l.memory) limits.now) }
{
    limits.iter().map(|l| l.memory).collect(alloc)
}
