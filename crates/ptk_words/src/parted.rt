//! Lists by partition in one vector: `Parted`.

ghost use Rattle.std.specs.Prelude.{◌≡◌, ◌<◌, ◌≤◌, List, [], ◌∷◌, ◌++◌, length, slice_get, slice_set, IfOk, OnOk, OnErr, slice_range, map};
ghost use Rattle.std.specs.Borrow.{sem};
ghost use Rattle.ptk_words.specs.Parts.{part_of, joined, filled};
ghost use Rattle.ptk_words.specs.Cuts.{sums_from, ends_in, AreInTurn};
ghost use Rattle.ptk_words.specs.Lending.{LendsPart};

use crate::PartId;
use crate::extents::{Extent, Extents};
use std::alloc::{AllocError, Global};
use std::marker::Model;

/// A list for each partition, in the order of the partitions.
#[derive(Drop)]
pub struct Parted<T> {
    items: Vec<T>,
    extents: Extents,
}

impl<T> Model for Parted<T> {
    ghost use Rattle.std.specs.Prelude.{ℕ, List};
    ghost use Rattle.ptk_words.specs.Cuts.{cut, IsCut, ends_in, AreInTurn};

    ghost Value = { List (List T) };

    ghost view = { λ a. cut 0 (ends_in a.extents) a.items.items };

    ghost invariant = { λ a. AreInTurn 0 a.extents × IsCut 0 (ends_in a.extents) a.items.items };
}

impl<T: Copy> Parted<T> {
    /// A list of each of 1 to 8 lengths, all of one item. An error where memory ran out.
    pub fn build(alloc: Global, lengths: &[u32], item: T) -> Result<Parted<T>, AllocError>
        requires { length lengths.now ≤ 8 }
        ensures { IfOk result (λ parted. parted ≡ map (filled item) lengths.now) }
    {
        let extents = extents_of(lengths);
        let items = repeated(alloc, item, extents.last_end())?;
        Ok(Parted { items, extents })
    }

    /// The item of a partition at an index from 0, None past its list.
    pub fn get(&self, p: PartId, i: usize) -> Option<T>
        requires { p < length self.now }
        ensures { result ≡ slice_get (part_of self.now p) i }
    {
        let part = self.part(p);
        if i < part.len() { Some(part[i]) } else { None }
    }

    #[tactic(auto, using(crate::proofs::Cuts::loans))]
    /// Sets the item of a partition at an index from 0; all other items stay.
    pub fn set(&mut self, p: PartId, i: usize, item: T)
        requires partition { p < length self.old }
        requires item { i < length (part_of self.old p) }
        ensures { self.new ≡ slice_set self.old p (slice_set (part_of self.old p) i item) }
    {
        let part = self.lend(p);
        part[i] = item;
    }
}

impl<T: Drop> Parted<T> {
    /// No partition yet.
    pub fn new(alloc: Global) -> Parted<T>
        ensures { result ≡ [] }
    {
        Parted {
            items: Vec::new(alloc),
            extents: Extents::none(),
        }
    }

    /// One more partition, the last, with this list, where there are fewer than 8. An error where memory ran out; then
    /// nothing changed.
    pub fn add_part(&mut self, mut items: Vec<T>) -> Result<(), AllocError>
        requires room { length self.old < 8 }
        ensures ok { OnOk result (self.new ≡ self.old ++ items.items ∷ []) }
        ensures err { OnErr result (self.new ≡ self.old) }
    {
        let start = self.items.len();
        self.items.append(&mut items)?;
        let end = self.items.len();
        self.extents.push(Extent { start, end });
        Ok(())
    }
}

impl<T> Parted<T> {
    /// The lists of all partitions, joined in their order.
    pub fn whole(&self) -> &[T]
        ensures { result.now ≡ joined self.now }
    {
        self.items.as_slice()
    }

    /// How many partitions there are.
    pub fn parts(&self) -> usize
        ensures { result ≡ length self.now }
    {
        self.extents.count()
    }

    /// The list of a partition.
    pub fn part(&self, p: PartId) -> &[T]
        requires { p < length self.now }
        ensures { result.now ≡ part_of self.now p }
    {
        let extent = self.extents.at(p);
        within(&self.items, extent)
    }

    /// Lends the list of a partition for writing; every other list stays as it is.
    pub fn lend(&mut self, p: PartId) -> &mut [T]
        requires { p < length self.old }
        ensures* writes_back { sem 𝓛 (LendsPart T.row self.entry p result) }
        ensures value { result.now ≡ part_of self.old p }
    {
        let extent = self.extents.at(p);
        self.items.slice_mut(extent.start..extent.end)
    }
}

/// The extents of lists of these lengths, one after another.
fn extents_of(lengths: &[u32]) -> Extents
    requires { length lengths.now ≤ 8 }
    ensures in_turn { AreInTurn 0 result }
    ensures ends { ends_in result ≡ sums_from 0 lengths.now }
{
    let mut extents = Extents::none();
    let mut start = 0;
    for length in lengths {
        let end = start + *length as usize;
        extents.push(Extent { start, end });
        start = end;
    }
    extents
}

/// The items of an extent.
fn within<T>(items: &[T], extent: Extent) -> &[T]
    requires ordered { extent.start ≤ extent.end }
    requires in_bounds { extent.end ≤ length items.now }
    ensures { result.now ≡ slice_range items.now extent.start extent.end }
{
    &items[extent.start..extent.end]
}

/// An item n times. An error where memory ran out.
pub fn repeated<T: Copy>(alloc: Global, item: T, n: usize) -> Result<Vec<T>, AllocError>
    ensures { IfOk result (λ items. items.items ≡ filled item n) }
{
    let mut items = Vec::new(alloc);
    for i in 0..n {
        items.push(item)?;
    }
    Ok(items)
}
