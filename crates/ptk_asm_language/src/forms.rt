//! Where statements of a form may stand, and how long they are.

ghost use Rattle.std.specs.Prelude.{◌≡◌};
ghost use Rattle.ptk_asm_language.specs.Statements as is;
ghost use Rattle.ptk_asm_language.specs.Operating.{shown_value};

use crate::numbers::is_short;
use crate::operands::Value;
use crate::statement::{Form, Section};

/// Whether statements of a form may stand in a section.
pub fn stands_in(form: Form, section: Section) -> bool
    ensures { result ≡ is.stands_in form section }
{
    match (form, section) {
        (Form::Within(_), _) => true,
        (Form::Word, Section::Bss) => false,
        (Form::Word, _) => true,
        (Form::Byte, Section::Data) => true,
        (Form::Byte, _) => false,
        (Form::Space, Section::Text) => false,
        (Form::Space, _) => true,
        (_, Section::Text) => true,
        _ => false,
    }
}

/// Whether a number is at most `below` below 0 and at most `above` above it.
pub fn is_within(below: u32, above: u32, number: i64) -> bool
    ensures { result ≡ is.is_within below above number }
{
    -i64::from(below) <= number && number <= i64::from(above)
}

/// Whether a number is a multiple of 2.
pub fn is_even(number: i64) -> bool
    ensures { result ≡ is.is_even number }
{
    number.unsigned_abs() % 2 == 0
}

/// How far below 0 and above it the distance to a label may be; None for a form that takes the label's address.
pub fn distances(form: Form) -> Option<(u32, u32)>
    ensures { result ≡ is.distances form }
{
    match form {
        Form::Branch(_) => Some((4096, 4094)),
        Form::Jal | Form::Jump | Form::Call => Some((1_048_576, 1_048_574)),
        _ => None,
    }
}

/// How many bytes a statement of a form takes with this number or label.
pub fn size_of(form: Form, value: Value) -> u64
    ensures { result ≡ is.size_of form (shown_value value.entry) }
{
    match (form, value) {
        (Form::Within(_), _) => 0,
        (Form::Byte, _) => 1,
        (Form::Space, Value::Given(number)) => number.unsigned_abs(),
        (Form::LoadValue, Value::Given(number)) => { if is_short(number) { 4 } else { 8 } }
        (Form::LoadAddress, _) => 8,
        _ => 4,
    }
}
