//! The names of registers, in two tables.

ghost use Rattle.std.specs.Prelude.{◌≡◌, map};
ghost use Rattle.ptk_asm_language.specs.Statements as is;

use ptk_rv32i_code::Register;

/// The names by use, as `sp`.
const NAMES_BY_USE: [(&[u8], u32); 33] = [
    (b"zero", 0),
    (b"ra", 1),
    (b"sp", 2),
    (b"gp", 3),
    (b"tp", 4),
    (b"t0", 5),
    (b"t1", 6),
    (b"t2", 7),
    (b"s0", 8),
    (b"s1", 9),
    (b"a0", 10),
    (b"a1", 11),
    (b"a2", 12),
    (b"a3", 13),
    (b"a4", 14),
    (b"a5", 15),
    (b"a6", 16),
    (b"a7", 17),
    (b"s2", 18),
    (b"s3", 19),
    (b"s4", 20),
    (b"s5", 21),
    (b"s6", 22),
    (b"s7", 23),
    (b"s8", 24),
    (b"s9", 25),
    (b"s10", 26),
    (b"s11", 27),
    (b"t3", 28),
    (b"t4", 29),
    (b"t5", 30),
    (b"t6", 31),
    (b"fp", 8),
];

/// The names by number, as `x2`.
const NAMES_BY_NUMBER: [(&[u8], u32); 32] = [
    (b"x0", 0),
    (b"x1", 1),
    (b"x2", 2),
    (b"x3", 3),
    (b"x4", 4),
    (b"x5", 5),
    (b"x6", 6),
    (b"x7", 7),
    (b"x8", 8),
    (b"x9", 9),
    (b"x10", 10),
    (b"x11", 11),
    (b"x12", 12),
    (b"x13", 13),
    (b"x14", 14),
    (b"x15", 15),
    (b"x16", 16),
    (b"x17", 17),
    (b"x18", 18),
    (b"x19", 19),
    (b"x20", 20),
    (b"x21", 21),
    (b"x22", 22),
    (b"x23", 23),
    (b"x24", 24),
    (b"x25", 25),
    (b"x26", 26),
    (b"x27", 27),
    (b"x28", 28),
    (b"x29", 29),
    (b"x30", 30),
    (b"x31", 31),
];

/// The number of a name in a table; None for a name that the table doesn't have.
#[tactic(auto, using(crate::proofs::Entries::entries))]
fn number_in(table: &[(&[u8], u32)], name: &[u8]) -> Option<u32>
    ensures { result ≡ is.named (map (λ e. (e.0.now, e.1)) table.now) name.now }
{
    for entry in table {
        if entry.0 == name {
            return Some(entry.1);
        }
    }
    None
}

/// The number of a register by its name by use, as `sp`; None for another name.
fn called(name: &[u8]) -> Option<u32>
    ensures { result ≡ is.called name.now }
{
    number_in(&NAMES_BY_USE, name)
}

/// The number of a register by its name by number, as `x2`; None for another name.
fn numbered(name: &[u8]) -> Option<u32>
    ensures { result ≡ is.numbered name.now }
{
    number_in(&NAMES_BY_NUMBER, name)
}

/// The number of the register that a name names; None for a name of none.
fn register_number(name: &[u8]) -> Option<u32>
    ensures { result ≡ is.register_named name.now }
{
    match called(name) {
        Some(number) => Some(number),
        None => numbered(name),
    }
}

/// The register that a name names; None for a name of none.
#[tactic(auto, using(crate::proofs::RegisterNames::named_small))]
pub fn register_named(name: &[u8]) -> Option<Register>
    ensures { result ≡ is.register_named name.now }
{
    Some(Register::new(register_number(name)?))
}
