//! The choice among threads of one partition.

ghost use Rattle.std.specs.Prelude.{◌≡◌, ◌<◌, length};
ghost use Rattle.ptk_words.specs.Pools.{greatest, first_of_greatest};
ghost use Rattle.ptk_words.specs.Parts.{part_of};
ghost use Rattle.ptk_threads.specs.Table.{stored_of};

use ptk_threads::{Threads, stored_in};
use ptk_words::{PartId, ThreadNo};

/// The first of these threads of the greatest stored priority, None of none.
pub fn first_of_greatest(threads: &Threads, p: PartId, numbers: &[ThreadNo]) -> Option<ThreadNo>
    requires { p < length threads.now.threads }
    ensures { result ≡ first_of_greatest (stored_of (part_of threads.now.stored p)) numbers.now }
{
    if numbers.is_empty() {
        return None;
    }
    let stored = threads.stored(p);
    let most = greatest_of(numbers, stored);
    numbers
        .iter()
        .copied()
        .find(|k| stored_in(stored, *k) == most)
}

/// The greatest stored priority of these threads, 0 of none.
fn greatest_of(numbers: &[ThreadNo], stored: &[u8]) -> u8
    ensures { result ≡ greatest (stored_of stored.now) numbers.now }
{
    let mut most = 0;
    for k in numbers {
        most = most.max(stored_in(stored, *k));
    }
    most
}
