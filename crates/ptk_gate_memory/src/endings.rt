//! What the end of each thread is made of: cancellation with cleanup handlers, and keys.

ghost use Rattle.std.specs.Prelude.{◌≡◌, ◌≤◌, length, map, IfOk, All};
ghost use Rattle.ptk_cancel.specs.KeptCancellations.{fresh_cancellations};
ghost use Rattle.ptk_keys.specs.KeptKeys.{fresh_keys};

use ptk_cancel::Cancellations;
use ptk_keys::KeyTable;
use ptk_words::Limits;
use std::alloc::{AllocError, Global};

/// What the end of each thread is made of.
#[derive(Drop)]
pub struct Endings {
    /// What each thread keeps of cancellation, and its cleanup handlers.
    pub cancellations: Cancellations,
    /// The keys of each partition, and what its threads keep of them.
    pub keys: KeyTable,
}

/// No thread is cancelled or has a cleanup handler, and no key is in use.
pub(crate) fn endings_of(alloc: Global, limits: &[Limits]) -> Result<Endings, AllocError>
    requires sections { length limits.now ≤ 8 }
    requires keys { All (λ count. count ≤ 32) (map (λ l. l.keys) limits.now) }
    ensures cancellations { IfOk result (λ made. made.cancellations ≡ fresh_cancellations limits.now) }
    ensures keys { IfOk result (λ made. made.keys ≡ fresh_keys limits.now) }
{
    let cancellations = Cancellations::build(alloc, limits)?;
    let keys = KeyTable::build(alloc, limits)?;
    Ok(Endings {
        cancellations,
        keys,
    })
}
