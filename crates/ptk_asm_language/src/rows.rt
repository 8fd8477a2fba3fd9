//! Worked sources, as laws of the definition.

ghost use Rattle.ptk_asm_language.specs.Rows.{DoubledLabel, OperandOutOfRange, UnknownLabelAfter, UnknownLabel, LoneDash, MisplacedWord, MissingOperand, Li4095, LoadAddress, HelloSource};

/// A label that a line before has.
pub fn doubled_label()
    ensures { DoubledLabel }
{}

/// An immediate above 2047.
pub fn operand_out_of_range()
    ensures { OperandOutOfRange }
{}

/// An unknown label, and behind it an unknown mnemonic: the first pass comes first.
pub fn unknown_label_after()
    ensures { UnknownLabelAfter }
{}

/// A label that no line has.
pub fn unknown_label()
    ensures { UnknownLabel }
{}

/// A `-` with no number just after it.
pub fn lone_dash()
    ensures { LoneDash }
{}

/// A word of data at an offset that is no multiple of 4.
pub fn misplaced_word()
    ensures { MisplacedWord }
{}

/// A missing operand.
pub fn missing_operand()
    ensures { MissingOperand }
{}

/// A number of more than 12 bits, by LUI and ADDI.
pub fn li_4095()
    ensures { Li4095 }
{}

/// The address of a label of data, and a jump back.
pub fn load_address()
    ensures { LoadAddress }
{}

/// Nine statements, with comments, a tab and hexadecimal digits.
pub fn hello_source()
    ensures { HelloSource }
{}
