//! The fields of an instruction word, each a type whose values are exactly those of its field.

ghost use Rattle.std.specs.Prelude.{◌≡◌, ◌%◌, ◌^◌, ◌<◌};

use std::marker::Model;

/// The number of a register, 0 to 31 (RISC-V 2.2).
#[derive(Clone, Copy, PartialEq, Eq)]
pub struct Register {
    number: u32,
}

impl Model for Register {
    ghost use Rattle.std.specs.Prelude.{ℕ, ◌<◌, ◌^◌};

    ghost Value = { ℕ };

    ghost view = { λ a. a.number };

    ghost invariant = { λ a. a.number < 2 ^ 5 };

    ghost inverse = { λ n. record { number = n } };
}

impl Register {
    /// The register of this number, which is below 32.
    pub const fn new(number: u32) -> Register
        requires { number < 2 ^ 5 }
        ensures { result ≡ number }
    {
        Register { number }
    }

    /// The bits of the field as a number.
    #[inline(always)]
    pub fn number(self) -> u32
        ensures value { result ≡ self }
        ensures in_range { self < 2 ^ 5 }
    {
        self.number
    }
}

/// The 12 bits of an immediate, not yet sign-extended (RISC-V 2.3).
#[derive(Clone, Copy, PartialEq, Eq)]
pub struct Immediate {
    number: u32,
}

impl Model for Immediate {
    ghost use Rattle.std.specs.Prelude.{ℕ, ◌<◌, ◌^◌};

    ghost Value = { ℕ };

    ghost view = { λ a. a.number };

    ghost invariant = { λ a. a.number < 2 ^ 12 };

    ghost inverse = { λ n. record { number = n } };
}

impl Immediate {
    /// The immediate of these bits, a number below 4096.
    pub const fn new(number: u32) -> Immediate
        requires { number < 2 ^ 12 }
        ensures { result ≡ number }
    {
        Immediate { number }
    }

    /// The bits of the field as a number.
    #[inline(always)]
    pub fn number(self) -> u32
        ensures value { result ≡ self }
        ensures in_range { self < 2 ^ 12 }
    {
        self.number
    }
}

/// The amount of a shift by a constant, 0 to 31 (RISC-V 2.4).
#[derive(Clone, Copy, PartialEq, Eq)]
pub struct ShiftAmount {
    number: u32,
}

impl Model for ShiftAmount {
    ghost use Rattle.std.specs.Prelude.{ℕ, ◌<◌, ◌^◌};

    ghost Value = { ℕ };

    ghost view = { λ a. a.number };

    ghost invariant = { λ a. a.number < 2 ^ 5 };

    ghost inverse = { λ n. record { number = n } };
}

impl ShiftAmount {
    /// The shift by this amount, which is below 32.
    pub const fn new(number: u32) -> ShiftAmount
        requires { number < 2 ^ 5 }
        ensures { result ≡ number }
    {
        ShiftAmount { number }
    }

    /// The bits of the field as a number.
    #[inline(always)]
    pub fn number(self) -> u32
        ensures value { result ≡ self }
        ensures in_range { self < 2 ^ 5 }
    {
        self.number
    }
}

/// The 20 bits of an upper immediate, which stand for bits 31 to 12 of a word (RISC-V 2.3).
#[derive(Clone, Copy, PartialEq, Eq)]
pub struct UpperImmediate {
    number: u32,
}

impl Model for UpperImmediate {
    ghost use Rattle.std.specs.Prelude.{ℕ, ◌<◌, ◌^◌};

    ghost Value = { ℕ };

    ghost view = { λ a. a.number };

    ghost invariant = { λ a. a.number < 2 ^ 20 };

    ghost inverse = { λ n. record { number = n } };
}

impl UpperImmediate {
    /// The upper immediate of these bits, a number below 2^20.
    pub const fn new(number: u32) -> UpperImmediate
        requires { number < 2 ^ 20 }
        ensures { result ≡ number }
    {
        UpperImmediate { number }
    }

    /// The bits of the field as a number.
    #[inline(always)]
    pub fn number(self) -> u32
        ensures value { result ≡ self }
        ensures in_range { self < 2 ^ 20 }
    {
        self.number
    }
}

/// The 13 bits of the offset of a branch in bytes, of which the lowest is 0; not yet sign-extended (RISC-V 2.3).
#[derive(Clone, Copy, PartialEq, Eq)]
pub struct BranchOffset {
    number: u32,
}

impl Model for BranchOffset {
    ghost use Rattle.std.specs.Prelude.{ℕ, ◌<◌, ◌^◌, ◌≡◌, ◌%◌};

    ghost Value = { ℕ };

    ghost view = { λ a. a.number };

    ghost invariant = { λ a. (a.number < 2 ^ 13) × (a.number % 2 ≡ 0) };

    ghost inverse = { λ n. record { number = n } };
}

impl BranchOffset {
    /// The offset of these bits, an even number below 2^13.
    pub const fn new(number: u32) -> BranchOffset
        requires in_range { number < 2 ^ 13 }
        requires even { number % 2 ≡ 0 }
        ensures { result ≡ number }
    {
        BranchOffset { number }
    }

    /// The bits of the field as a number.
    #[inline(always)]
    pub fn number(self) -> u32
        ensures value { result ≡ self }
        ensures in_range { self < 2 ^ 13 }
        ensures even { self % 2 ≡ 0 }
    {
        self.number
    }
}

/// The 21 bits of the offset of a jump in bytes, of which the lowest is 0; not yet sign-extended (RISC-V 2.3).
#[derive(Clone, Copy, PartialEq, Eq)]
pub struct JumpOffset {
    number: u32,
}

impl Model for JumpOffset {
    ghost use Rattle.std.specs.Prelude.{ℕ, ◌<◌, ◌^◌, ◌≡◌, ◌%◌};

    ghost Value = { ℕ };

    ghost view = { λ a. a.number };

    ghost invariant = { λ a. (a.number < 2 ^ 21) × (a.number % 2 ≡ 0) };

    ghost inverse = { λ n. record { number = n } };
}

impl JumpOffset {
    /// The offset of these bits, an even number below 2^21.
    pub const fn new(number: u32) -> JumpOffset
        requires in_range { number < 2 ^ 21 }
        requires even { number % 2 ≡ 0 }
        ensures { result ≡ number }
    {
        JumpOffset { number }
    }

    /// The bits of the field as a number.
    #[inline(always)]
    pub fn number(self) -> u32
        ensures value { result ≡ self }
        ensures in_range { self < 2 ^ 21 }
        ensures even { self % 2 ≡ 0 }
    {
        self.number
    }
}
