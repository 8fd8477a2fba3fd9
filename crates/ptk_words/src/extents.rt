//! Where the list of each partition lies among the items of all.

ghost use Rattle.std.specs.Prelude.{◌≡◌, ◌<◌, [], ◌∷◌, ◌++◌, length, slice_get, Some};
ghost use Rattle.ptk_words.specs.Cuts.{ends_in, last_end};

use crate::PartId;
use std::marker::Model;

/// How many partitions there are at most.
const PARTITIONS: usize = 8;

/// Where a partition's items lie.
#[derive(Clone, Copy)]
pub(crate) struct Extent {
    pub(crate) start: usize,
    pub(crate) end: usize,
}

/// The extents of at most 8 partitions, in the order of the partitions, held without an allocation.
#[derive(Drop)]
pub(crate) struct Extents {
    all: [Extent; PARTITIONS],
    count: usize,
}

impl Model for Extents {
    ghost use Rattle.std.specs.Prelude.{◌≡◌, ◌≤◌, List, length, take};
    ghost use Rattle.ptk_words.specs.declared.extents.Extent.{Extent};

    ghost Value = { List Extent };

    ghost view = { λ a. take a.count a.all };

    ghost invariant = { λ a. (a.count ≤ 8) × (length a.all ≡ 8) };
}

impl Extents {
    /// No extent.
    pub(crate) fn none() -> Extents
        ensures { result ≡ [] }
    {
        Extents {
            all: [Extent { start: 0, end: 0 }; PARTITIONS],
            count: 0,
        }
    }

    /// One more extent, the last.
    pub(crate) fn push(&mut self, extent: Extent)
        requires { length self.old < 8 }
        ensures { self.new ≡ self.old ++ extent ∷ [] }
    {
        self.all[self.count] = extent;
        self.count += 1;
    }

    /// How many extents there are.
    pub(crate) fn count(&self) -> usize
        ensures { result ≡ length self.now }
    {
        self.count
    }

    /// The extent of a partition.
    pub(crate) fn at(&self, p: PartId) -> Extent
        requires { p < length self.now }
        ensures { slice_get self.now p ≡ Some result }
    {
        self.all[p.index()]
    }

    /// Where the last extent ends, or 0 where there is none.
    pub(crate) fn last_end(&self) -> usize
        ensures { result ≡ last_end 0 (ends_in self.now) }
    {
        if self.count == 0 {
            return 0;
        }
        self.all[self.count - 1].end
    }
}
