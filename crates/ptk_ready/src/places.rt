//! The place of a thread in a queue in order of stamps.

ghost use Rattle.std.specs.Prelude.{◌≡◌, suc, length, int_lt, find};
ghost use Rattle.ptk_threads.specs.Links.{links_of, walk};
ghost use Rattle.ptk_ready.specs.Entries.{stamp_of};

use crate::stamps::{NUMBERS, stamp_in};
use ptk_threads::{Slot, link_of};
use ptk_words::ThreadNo;

/// The first thread of a greater stamp along the links, from a thread on.
pub(crate) fn first_after(
    slots: &[Slot],
    stamps: &[i64; NUMBERS],
    from: Option<ThreadNo>,
    stamp: i64,
) -> Option<ThreadNo>
    ensures { result ≡ find (λ k. int_lt stamp (stamp_of stamps.now k))
        (walk (suc (length slots.now)) (links_of slots.now) from) }
{
    let mut at = from;
    for _ in 0..slots.len() + 1 {
        let Some(k) = at else {
            return None;
        };
        if stamp < stamp_in(stamps, k) {
            return Some(k);
        }
        let link = link_of(slots, k);
        at = link.next;
    }
    None
}
