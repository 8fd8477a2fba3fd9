//! Numbers that must not be mixed up. A clause sees each as the number that it is.

ghost use Rattle.std.specs.Prelude.{◌≡◌, ◌-◌, ◌<◌, ◌≤◌};

use std::marker::Model;

/// A partition, by its place in the configuration, from 0.
#[derive(Clone, Copy, Debug, PartialEq, Eq)]
pub struct PartId {
    index: u8,
}

impl Model for PartId {
    ghost use Rattle.std.specs.Prelude.{ℕ};

    ghost Value = { ℕ };

    ghost view = { λ a. a.index };

    ghost inverse = { λ n. record { index = n } };
}

impl PartId {
    /// The partition at this place, from 0.
    pub fn new(index: u8) -> PartId
        ensures { result ≡ index }
    {
        PartId { index }
    }

    /// Its place in the configuration, from 0.
    pub fn index(self) -> usize
        ensures { result ≡ self }
    {
        self.index as usize
    }
}

/// A thread of a partition, from 1 to 32.
#[derive(Clone, Copy, PartialEq, Eq)]
pub struct ThreadNo {
    number: u8,
}

impl Model for ThreadNo {
    ghost use Rattle.std.specs.Prelude.{ℕ, ◌<◌, ◌≤◌};

    ghost Value = { ℕ };

    ghost view = { λ a. a.number };

    ghost invariant = { λ a. (0 < a.number) × (a.number ≤ 32) };

    ghost inverse = { λ n. record { number = n } };
}

impl ThreadNo {
    /// The thread of this number, which is 1 to 32.
    pub fn new(number: u8) -> ThreadNo
        requires positive { 0 < number }
        requires in_range { number ≤ 32 }
        ensures { result ≡ number }
    {
        ThreadNo { number }
    }

    /// Its number, 1 to 32.
    pub fn number(self) -> u8
        ensures value { result ≡ self }
        ensures positive { 0 < result }
        ensures in_range { result ≤ 32 }
    {
        self.number
    }

    /// Its place in a list of the partition's threads by number, from 0.
    pub fn place(self) -> usize
        ensures value { result ≡ self - 1 }
        ensures positive { 0 < self }
        ensures in_range { self ≤ 32 }
    {
        (self.number - 1) as usize
    }
}

/// A slot of the table that all partitions' threads share, from 0.
#[derive(Clone, Copy, PartialEq, Eq)]
pub struct SlotNo {
    index: u16,
}

impl Model for SlotNo {
    ghost use Rattle.std.specs.Prelude.{ℕ};

    ghost Value = { ℕ };

    ghost view = { λ a. a.index };

    ghost inverse = { λ n. record { index = n } };
}

impl SlotNo {
    /// The slot at this place, from 0.
    pub fn new(index: u16) -> SlotNo
        ensures { result ≡ index }
    {
        SlotNo { index }
    }

    /// Its place in the table, from 0.
    pub fn index(self) -> usize
        ensures { result ≡ self }
    {
        self.index as usize
    }
}

/// A mutex of a partition's pool, from 1 to 64.
#[derive(Clone, Copy, PartialEq, Eq)]
pub struct MutexNo {
    number: u8,
}

impl Model for MutexNo {
    ghost use Rattle.std.specs.Prelude.{ℕ, ◌<◌, ◌≤◌};

    ghost Value = { ℕ };

    ghost view = { λ a. a.number };

    ghost invariant = { λ a. (0 < a.number) × (a.number ≤ 64) };

    ghost inverse = { λ n. record { number = n } };
}

impl MutexNo {
    /// The mutex of this number, which is 1 to 64.
    pub fn new(number: u8) -> MutexNo
        requires positive { 0 < number }
        requires in_range { number ≤ 64 }
        ensures { result ≡ number }
    {
        MutexNo { number }
    }

    /// Its number, 1 to 64.
    pub fn number(self) -> u8
        ensures value { result ≡ self }
        ensures positive { 0 < result }
        ensures in_range { result ≤ 64 }
    {
        self.number
    }

    /// Its place in a list of the partition's mutexes by number, from 0.
    pub fn place(self) -> usize
        ensures value { result ≡ self - 1 }
        ensures positive { 0 < self }
        ensures in_range { self ≤ 64 }
    {
        (self.number - 1) as usize
    }
}

/// A condition variable of a partition's pool, from 1 to 32.
#[derive(Clone, Copy, PartialEq, Eq)]
pub struct ConditionNo {
    number: u8,
}

impl Model for ConditionNo {
    ghost use Rattle.std.specs.Prelude.{ℕ, ◌<◌, ◌≤◌};

    ghost Value = { ℕ };

    ghost view = { λ a. a.number };

    ghost invariant = { λ a. (0 < a.number) × (a.number ≤ 32) };

    ghost inverse = { λ n. record { number = n } };
}

impl ConditionNo {
    /// The condition variable of this number, which is 1 to 32.
    pub fn new(number: u8) -> ConditionNo
        requires positive { 0 < number }
        requires in_range { number ≤ 32 }
        ensures { result ≡ number }
    {
        ConditionNo { number }
    }

    /// Its number, 1 to 32.
    pub fn number(self) -> u8
        ensures value { result ≡ self }
        ensures positive { 0 < result }
        ensures in_range { result ≤ 32 }
    {
        self.number
    }
}

/// An assigned priority or a ceiling, 1 to 32, of which the greatest is the most urgent (XSH 2.8.4).
#[derive(Clone, Copy, PartialEq, Eq)]
pub struct Priority {
    level: u8,
}

impl Model for Priority {
    ghost use Rattle.std.specs.Prelude.{ℕ, ◌<◌, ◌≤◌};

    ghost Value = { ℕ };

    ghost view = { λ a. a.level };

    ghost invariant = { λ a. (0 < a.level) × (a.level ≤ 32) };

    ghost inverse = { λ n. record { level = n } };
}

impl Priority {
    /// This priority, which is 1 to 32.
    pub fn new(level: u8) -> Priority
        requires positive { 0 < level }
        requires in_range { level ≤ 32 }
        ensures { result ≡ level }
    {
        Priority { level }
    }

    /// Its number, 1 to 32.
    pub fn level(self) -> u8
        ensures value { result ≡ self }
        ensures positive { 0 < result }
        ensures in_range { result ≤ 32 }
    {
        self.level
    }
}

/// A time in ticks of 1,000 ns, from 0 (own choice).
#[derive(Clone, Copy, PartialEq, Eq)]
pub struct Tick {
    ticks: u64,
}

impl Model for Tick {
    ghost use Rattle.std.specs.Prelude.{ℕ};

    ghost Value = { ℕ };

    ghost view = { λ a. a.ticks };

    ghost inverse = { λ n. record { ticks = n } };
}

impl Tick {
    /// The time after this many ticks.
    pub fn new(ticks: u64) -> Tick
        ensures { result ≡ ticks }
    {
        Tick { ticks }
    }

    /// How many ticks it is from 0.
    pub fn ticks(self) -> u64
        ensures { result ≡ self }
    {
        self.ticks
    }
}
