//! The windows of a stage, in the orders in which they are looked up.

ghost use Rattle.std.specs.Prelude.{◌≡◌, ℕ, ◌+◌, ◌*◌, ◌≤◌, None, IfSome, IfOk, IsTrue, length, slice_index_or};
ghost use Rattle.ptk_words_model.specs.WindowFaults.{window_fault};
ghost use Rattle.ptk_window.specs.Order.{AreGrouped, IsFirst, IsOrdered};

use crate::lookup::{by_partition, by_start};
use ptk_words::PartId;
use ptk_words_model::Window;
use std::alloc::{AllocError, Global};

/// The windows that a frame has from some frame on. Beside the windows as given it keeps them in the two orders in
/// which the look-ups halve them.
#[derive(Drop)]
pub(crate) struct Table {
    /// How many ticks a frame has.
    pub(crate) frame: u32,
    /// The number of the first frame that has these windows.
    pub(crate) from: u64,
    /// The windows as they were given.
    pub(crate) windows: Vec<Window>,
    /// The windows by their starts.
    pub(crate) by_start: Vec<Window>,
    /// The windows by partition, each partition's by their starts.
    pub(crate) by_partition: Vec<Window>,
    /// By partition, where its first window is by partition. It decides how fast a look-up is and never what it
    /// returns, so nothing is promised of it: a look-up tests it.
    firsts: Vec<usize>,
    ghost short: { frame ≤ 1000000 },
    ghost early: { from ≤ 68719476736 },
    ghost grouped: { AreGrouped by_partition.items },
}

impl Table {
    /// The windows of a frame from the frame of this number on. An error where memory ran out.
    pub(crate) fn new(
        alloc: Global,
        frame: u32,
        parts: usize,
        from: u64,
        windows: &[Window],
    ) -> Result<Table, AllocError>
        requires frame { frame ≤ 1000000 }
        requires from { from ≤ 68719476736 }
        requires fine { window_fault frame parts windows.now ≡ None }
        ensures frame { IfOk result (λ table. table.frame ≡ frame) }
        ensures from { IfOk result (λ table. table.from ≡ from) }
        ensures windows { IfOk result (λ table. table.windows.items ≡ windows.now) }
        ensures ordered { IfOk result (λ table. IsOrdered frame table.windows.items table.by_start.items table.by_partition.items) }
    {
        let by_start = by_start(alloc, windows)?;
        let by_partition = by_partition(alloc, &by_start)?;
        let firsts = firsts(alloc, parts, &by_partition)?;
        Ok(Table {
            frame,
            from,
            windows: windows.to_vec(alloc)?,
            by_start,
            by_partition,
            firsts,
        })
    }

    /// The tick at which the first frame with these windows begins, below 2^56.
    #[inline(always)]
    pub(crate) fn begin(&self) -> u64
        ensures begin { result ≡ self.now.from * self.now.frame }
        ensures room { result ≤ 68719476736000000 }
    {
        self.from * u64::from(self.frame)
    }

    /// Where the partition's first window stands by partition. None also where that is not known.
    #[inline]
    pub(crate) fn first_of(&self, partition: PartId) -> Option<usize>
        ensures { IfSome result (IsFirst self.now.by_partition.items partition) }
    {
        let place = *self.firsts.get(partition.index())?;
        if is_first(&self.by_partition, partition, place) {
            Some(place)
        } else {
            None
        }
    }
}

/// Of each of this many partitions where its first window is among these, or how many there are.
fn firsts(alloc: Global, parts: usize, by_partition: &[Window]) -> Result<Vec<usize>, AllocError> {
    let mut firsts = vec![in alloc; by_partition.len(); parts]?;
    for (place, window) in by_partition.iter().enumerate() {
        if let Some(first) = firsts.get_mut(window.partition.index()) {
            *first = place.min(*first);
        }
    }
    Ok(firsts)
}

/// Whether the partition's first window stands there.
fn is_first(windows: &[Window], partition: PartId, place: usize) -> bool
    requires { AreGrouped windows.now }
    ensures { IsTrue result → IsFirst windows.now partition place }
{
    if windows.len() <= place || windows[place].partition != partition {
        return false;
    }
    place == 0 || windows[place - 1].partition != partition
}
