//! The registers of a thread.

ghost use Rattle.std.specs.Prelude.{◌≡◌, ◌<◌, replicate};
ghost use Rattle.ptk_words.specs.Processor.{register, with_register};

use std::marker::Model;

/// The 32 registers of a thread, of which x0 is 0, and the address of its next instruction (RISC-V 2.1).
#[derive(Clone, Copy)]
pub struct Cpu {
    registers: [u32; 32],
    pc: u32,
}

impl Model for Cpu {
    ghost use Rattle.std.specs.Prelude.{◌≡◌, ℕ, slice_index};
    ghost use Rattle.ptk_words.specs.Processor.{Processor};

    ghost Value = { Processor };

    ghost view = { λ a. record { registers = a.registers; pc = a.pc } };

    ghost invariant = { λ a. slice_index a.registers 0 ≡ 0 };

    ghost inverse = { λ d. record { registers = d.registers; pc = d.pc } };
}

impl Cpu {
    /// All registers 0, at this address.
    pub fn at(pc: u32) -> Cpu
        ensures { result ≡ record { registers = replicate 32 0; pc = pc } }
    {
        Cpu {
            registers: [0; 32],
            pc,
        }
    }

    /// The address of the next instruction.
    pub fn pc(&self) -> u32
        ensures { result ≡ self.now.pc }
    {
        self.pc
    }

    /// Goes on at the address; the registers stay.
    pub fn set_pc(&mut self, pc: u32)
        ensures { self.new ≡ record self.old { pc = pc } }
    {
        self.pc = pc;
    }

    /// The value of a register, 0 for x0 (RISC-V 2.1).
    pub fn register(&self, number: u32) -> u32
        requires { number < 32 }
        ensures value { result ≡ register self.now number }
        ensures zero { register self.now 0 ≡ 0 }
    {
        self.registers[number as usize]
    }

    /// Writes a register, and nothing for x0; the others and the pc stay (RISC-V 2.1).
    pub fn set_register(&mut self, number: u32, value: u32)
        requires { number < 32 }
        ensures { self.new ≡ with_register self.old number value }
    {
        self.registers[number as usize] = value;
        self.registers[0] = 0;
    }

    /// Writes a register other than x0; the others and the pc stay (RISC-V 2.1).
    pub fn set_writable_register(&mut self, number: u32, value: u32)
        requires { (0 < number) × (number < 32) }
        ensures { self.new ≡ with_register self.old number value }
    {
        self.registers[number as usize] = value;
    }
}
