//! How many of something each section has.

ghost use Rattle.std.specs.Prelude.{◌≡◌, map, IfOk};

use ptk_words::Limits;
use std::alloc::{AllocError, Global};

/// The greatest number of mutexes of each section.
pub(crate) fn mutex_counts_of(alloc: Global, limits: &[Limits]) -> Result<Vec<u32>, AllocError>
    ensures { IfOk result (λ counts. counts.items ≡ map (λ l. l.mutexes) limits.now) }
{
    limits.iter().map(|l| l.mutexes).collect(alloc)
}

/// The greatest number of condition variables of each section.
pub(crate) fn condition_counts_of(alloc: Global, limits: &[Limits]) -> Result<Vec<u32>, AllocError>
    ensures { IfOk result (λ counts. counts.items ≡ map (λ l. l.conditions) limits.now) }
{
    limits.iter().map(|l| l.conditions).collect(alloc)
}
