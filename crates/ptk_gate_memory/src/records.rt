//! The status of each partition, its last step, and the numbers of its section.

ghost use Rattle.std.specs.Prelude.{◌≡◌, length, replicate, IfOk, None};
ghost use Rattle.ptk_words.specs.declared.faults.Status.TheVariants.{Active};

use ptk_words::{Entry, Limits, Status};
use std::alloc::{AllocError, Global};

/// The status of each partition, its last step, and the numbers of its section.
#[derive(Drop)]
pub struct Records {
    /// The status of each partition.
    pub statuses: Vec<Status>,
    /// The last step of each partition, if it has made one.
    pub lasts: Vec<Option<Entry>>,
    /// The numbers of each partition's section.
    pub limits: Vec<Limits>,
}

/// No partition is halted, and none has made a step.
pub fn records_of(alloc: Global, limits: &[Limits]) -> Result<Records, AllocError>
    ensures statuses { IfOk result (λ made. made.statuses.items ≡ replicate (length limits.now) Active) }
    ensures lasts { IfOk result (λ made. made.lasts.items ≡ replicate (length limits.now) None) }
    ensures limits { IfOk result (λ made. made.limits.items ≡ limits.now) }
{
    let statuses = all_active(alloc, limits.len())?;
    let lasts = no_entries(alloc, limits.len())?;
    let limits = limits.to_vec(alloc)?;
    Ok(Records {
        statuses,
        lasts,
        limits,
    })
}

/// No partition is halted.
fn all_active(alloc: Global, parts: usize) -> Result<Vec<Status>, AllocError>
    ensures { IfOk result (λ statuses. statuses.items ≡ replicate parts Active) }
{
    let mut statuses = Vec::new(alloc);
    for i in 0..parts {
        statuses.push(Status::Active)?;
    }
    Ok(statuses)
}

/// No partition has made a step.
fn no_entries(alloc: Global, parts: usize) -> Result<Vec<Option<Entry>>, AllocError>
    ensures { IfOk result (λ lasts. lasts.items ≡ replicate parts None) }
{
    let mut lasts = Vec::new(alloc);
    for i in 0..parts {
        lasts.push(None)?;
    }
    Ok(lasts)
}
