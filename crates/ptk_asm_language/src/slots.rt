//! What stands behind a mnemonic.

ghost use Rattle.std.specs.Prelude.{◌≡◌};
ghost use Rattle.ptk_asm_language.specs.Statements as is;

use crate::statement::{Form, Slot};

const COMMA: Slot = Slot::Mark(b',');

const OFFSET: Slot = Slot::Number(2048, 2047);

const UPPER: Slot = Slot::Number(0, 1_048_575);

const JUMP_TARGET: Slot = Slot::Target(1_048_576, 1_048_574);

static WORD: [Slot; 1] = [Slot::NumberOrLabel(2_147_483_648, 4_294_967_295)];

static BYTE: [Slot; 1] = [Slot::Number(128, 255)];

static SPACE: [Slot; 1] = [Slot::Number(0, 1_048_576)];

static WITH_IMMEDIATE: [Slot; 5] = [Slot::Register, COMMA, Slot::Register, COMMA, OFFSET];

static SHIFT: [Slot; 5] = [
    Slot::Register,
    COMMA,
    Slot::Register,
    COMMA,
    Slot::Number(0, 31),
];

static THREE_REGISTERS: [Slot; 5] = [Slot::Register, COMMA, Slot::Register, COMMA, Slot::Register];

static TWO_REGISTERS: [Slot; 3] = [Slot::Register, COMMA, Slot::Register];

static ONE_REGISTER: [Slot; 1] = [Slot::Register];

static INDEXED: [Slot; 6] = [
    Slot::Register,
    COMMA,
    OFFSET,
    Slot::Mark(b'('),
    Slot::Register,
    Slot::Mark(b')'),
];

static BRANCH: [Slot; 5] = [
    Slot::Register,
    COMMA,
    Slot::Register,
    COMMA,
    Slot::Target(4096, 4094),
];

static REGISTER_TARGET: [Slot; 3] = [Slot::Register, COMMA, JUMP_TARGET];

static TARGET: [Slot; 1] = [JUMP_TARGET];

static LABEL: [Slot; 1] = [Slot::Label];

static REGISTER_UPPER: [Slot; 3] = [Slot::Register, COMMA, UPPER];

static REGISTER_VALUE: [Slot; 3] = [
    Slot::Register,
    COMMA,
    Slot::Number(2_147_483_648, 4_294_967_295),
];

static REGISTER_LABEL: [Slot; 3] = [Slot::Register, COMMA, Slot::Label];

/// What stands behind the mnemonic of a form, from left to right.
pub fn slots_of(form: Form) -> &'static [Slot]
    ensures { result.now ≡ is.slots_of form }
{
    match form {
        Form::Word => &WORD,
        Form::Byte => &BYTE,
        Form::Space => &SPACE,
        Form::WithImmediate(_) => &WITH_IMMEDIATE,
        Form::Shift(_) => &SHIFT,
        Form::WithRegister(_) => &THREE_REGISTERS,
        Form::Load(_) | Form::Store(_) | Form::Jalr => &INDEXED,
        Form::Branch(_) => &BRANCH,
        Form::Jal => &REGISTER_TARGET,
        Form::Lui | Form::Auipc => &REGISTER_UPPER,
        Form::Move => &TWO_REGISTERS,
        Form::Jump => &TARGET,
        Form::JumpRegister => &ONE_REGISTER,
        Form::Call => &LABEL,
        Form::LoadValue => &REGISTER_VALUE,
        Form::LoadAddress => &REGISTER_LABEL,
        Form::Within(_) | Form::Ecall | Form::Ebreak | Form::Fence | Form::Nop | Form::Return =>
            &[],
    }
}
