#![tactic(auto)]

//! The memory of all partitions in one vector of bytes, of which it lends one partition's.
//!
//! - One vector of memory, seen as a list for each partition.
//! - `lend` and `write` change p's alone.
//! - `read` returns None at and past the end of p's bytes.
//!
//! Below are `ptk_words`, which cuts the vector, and `ptk_words`; above are the gate and the kernel. No clause
//! is costly to prove.

ghost use Rattle.std.specs.Prelude.{◌≡◌, ℕ, ◌<◌, ◌≤◌, length, slice_get, slice_set, IfOk, IsTrue, ◌↔◌, map};
ghost use Rattle.std.specs.Borrow.{sem};
ghost use Rattle.ptk_words.specs.Parts.{part_of, joined, filled};
ghost use Rattle.ptk_regions.specs.Lending.{LendsRegion};

use ptk_words::{PartId, Parted};
use std::alloc::{AllocError, Global};
use std::marker::Model;

/// The bytes of each partition, with addresses from 0.
#[derive(Drop)]
pub struct Regions {
    bytes: Parted<u8>,
}

impl Model for Regions {
    ghost use Rattle.std.specs.Prelude.{ℕ, List};

    ghost Value = { List (List ℕ) };

    ghost view = { λ a. a.bytes };
}

impl Regions {
    /// A region of each of at most 8 lengths in bytes, all bytes 0. An error where memory ran out.
    pub fn build(alloc: Global, lengths: &[u32]) -> Result<Regions, AllocError>
        requires { length lengths.now ≤ 8 }
        ensures { IfOk result (λ regions. regions ≡ map (filled 0) lengths.now) }
    {
        let bytes = Parted::build(alloc, lengths, 0)?;
        Ok(Regions { bytes })
    }

    /// How many partitions there are.
    pub fn parts(&self) -> usize
        ensures { result ≡ length self.now }
    {
        self.bytes.parts()
    }

    /// The bytes of all partitions, joined in their order.
    pub fn whole(&self) -> &[u8]
        ensures { result.now ≡ joined self.now }
    {
        self.bytes.whole()
    }

    /// The bytes of a partition.
    pub fn part(&self, p: PartId) -> &[u8]
        requires { p < length self.now }
        ensures { result.now ≡ part_of self.now p }
    {
        self.bytes.part(p)
    }

    /// Lends the bytes of a partition for writing; every other partition's bytes stay.
    pub fn lend(&mut self, p: PartId) -> &mut [u8]
        requires { p < length self.old }
        ensures* writes_back { sem 𝓛 (LendsRegion self.entry p result) }
        ensures value { result.now ≡ part_of self.old p }
    {
        self.bytes.lend(p)
    }

    /// The byte of a partition at an address, None outside its memory.
    pub fn read(&self, p: PartId, address: u32) -> Option<u8>
        requires { p < length self.now }
        ensures { result ≡ slice_get (part_of self.now p) address }
    {
        self.bytes.get(p, address as usize)
    }

    /// Writes the byte of a partition at an address. False, and nothing changes, outside its memory; all other bytes
    /// stay.
    pub fn write(&mut self, p: PartId, address: u32, byte: u8) -> bool
        requires { p < length self.old }
        ensures within { IsTrue result ↔ (address < length (part_of self.old p)) }
        ensures written { self.new ≡ slice_set self.old p (slice_set (part_of self.old p) address byte) }
    {
        let index = address as usize;
        if index >= self.part(p).len() {
            return false;
        }
        self.bytes.set(p, index, byte);
        true
    }
}
