//! Windows in the orders in which they are looked up, and the searches in them, which halve what is left.

ghost use Rattle.std.specs.Prelude.{◌≡◌, ℕ, ◌+◌, ◌<◌, ◌≤◌, length, slice_index_or, IfOk, All, Contains, MatchOption, IsPermutation, IsSortedByKey};
ghost use Rattle.std.specs.Ordering.{nat_cmp};
ghost use Rattle.std.specs.List.Sorted.{IsNonDecreasingBy};
ghost use Rattle.ptk_words_model.specs.Windows.{Holds};
ghost use Rattle.ptk_window.specs.Order.{AreInOrder, AreGrouped, IsFirstAfter, is_past};

use ptk_words::PartId;
use ptk_words_model::Window;
use std::alloc::{AllocError, Global};

/// The windows by their starts.
pub(crate) fn by_start(alloc: Global, windows: &[Window]) -> Result<Vec<Window>, AllocError>
    ensures permutation { IfOk result (λ v. IsPermutation windows.now v.items) }
    ensures order { IfOk result (λ v. IsSortedByKey (λ (w : Window). w.start) nat_cmp v.items) }
{
    let mut sorted = windows.to_vec(alloc)?;
    sorted.sort_by_key(|window| window.start)?;
    Ok(sorted)
}

/// The windows by partition, where those of one partition stay as they stood by their starts.
pub(crate) fn by_partition(alloc: Global, by_start: &[Window]) -> Result<Vec<Window>, AllocError>
    requires { IsSortedByKey (λ (w : Window). w.start) nat_cmp by_start.now }
    ensures permutation { IfOk result (λ v. IsPermutation by_start.now v.items) }
    ensures groups { IfOk result (λ v. IsNonDecreasingBy (λ (w : Window). w.partition) v.items) }
    ensures order { IfOk result
        (λ v. (k : ℕ) (d : Window) → k + 1 < length v.items
        → (slice_index_or v.items k d).partition ≡ (slice_index_or v.items (k + 1) d).partition
        → (slice_index_or v.items k d).start ≤ (slice_index_or v.items (k + 1) d).start) }
{
    let mut grouped = by_start.to_vec(alloc)?;
    grouped.sort_by_key(|window| window.partition.index())?;
    Ok(grouped)
}

/// The window that holds the place in the frame.
pub(crate) fn holder(by_start: &[Window], place: u64) -> Option<Window>
    requires { AreInOrder by_start.now }
    ensures { MatchOption result
        (All (λ w. ¬ Holds w place) by_start.now)
        (λ w. Contains by_start.now w × Holds w place) }
{
    let begun = by_start.partition_point(|window| u64::from(window.start) <= place);
    if begun == 0 {
        return None;
    }
    let window = by_start[begun - 1];
    if place < window.end() {
        Some(window)
    } else {
        None
    }
}

/// Where the partition's first window stands that ends after the place in the frame.
pub(crate) fn place_after(by_partition: &[Window], partition: PartId, place: u64) -> Option<usize>
    requires { AreGrouped by_partition.now }
    ensures { MatchOption result
        (All (λ w. w.partition ≡ partition → w.start + w.length ≤ place) by_partition.now)
        (IsFirstAfter by_partition.now partition place) }
{
    let past = by_partition.partition_point(|window| is_past(window, partition, place));
    if past < by_partition.len() && by_partition[past].partition == partition {
        Some(past)
    } else {
        None
    }
}

/// Whether the window is of a partition before this one, or is this one's and ends by the place.
fn is_past(window: &Window, partition: PartId, place: u64) -> bool
    ensures { result ≡ is_past partition place window.now }
{
    window.partition.index() < partition.index()
        || window.partition == partition && window.end() <= place
}
