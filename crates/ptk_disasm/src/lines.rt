//! The lines of the sections.

ghost use Rattle.std.specs.Prelude.{◌≡◌, ◌++◌, ◌<◌, ◌+◌, ◌%◌, ◌^◌, ◌∷◌, [], OnOk, string_bytes, length, pos};
ghost use Rattle.ptk_asm.specs.Emitting.{words_in};
ghost use Rattle.ptk_disasm.specs.Disassembly as is;
ghost use Rattle.ptk_disasm.specs.Spelling.{comment_text};
ghost use Rattle.ptk_disasm.specs.WordStatements.{given};
ghost use Rattle.ptk_disasm.specs.Writing.{stated};

use crate::instructions::push_word_statement;
use crate::statements::push_statement;
use crate::symbols::Symbols;
use crate::targets::target_of;
use ptk_asm_language::Form;
use std::alloc::AllocError;
use std::fmt::Write;

/// Appends the label of the entry, if it is here.
fn push_entry(out: &mut String, entry: u32, at: u32) -> Result<(), AllocError>
    ensures { OnOk result (string_bytes out.new ≡ string_bytes out.old ++ is.text_for (is.entry_line entry at)) }
{
    if at == entry {
        out.push_str("_start:\n")?;
    }
    Ok(())
}

/// Appends a word with at least eight hexadecimal digits.
fn push_hexadecimal(out: &mut String, word: u32) -> Result<(), AllocError>
    ensures { OnOk result (string_bytes out.new ≡ string_bytes out.old ++ is.padded_hex word) }
{
    write!(out, "{word:08x}")
}

/// Appends the beginning of a comment, with the address of its line.
fn push_comment(out: &mut String, at: u32) -> Result<(), AllocError>
    ensures { OnOk result (string_bytes out.new ≡ string_bytes out.old ++ comment_text (is.padded_hex at)) }
{
    out.push_str(" # ")?;
    push_hexadecimal(out, at)
}

/// Appends an arrow and the address that a branch or a jump goes to, with the symbol that is nearest to it; nothing if
/// there is no such address. The error is that of the allocator.
pub fn push_target(
    out: &mut String,
    symbols: &Symbols,
    target: Option<u32>,
) -> Result<(), AllocError>
    ensures { OnOk result (string_bytes out.new ≡ string_bytes out.old ++ is.target_text (is.names_of symbols.now) target) }
{
    match target {
        Some(target) => {
            out.push_str(" -> ")?;
            push_hexadecimal(out, target)?;
            symbols.push_place(out, target)
        }
        None => Ok(()),
    }
}

/// Appends the comment of a word of the text: its address, its value and the target of a branch or a jump.
fn push_word_comment(
    out: &mut String,
    symbols: &Symbols,
    at: u32,
    word: u32,
) -> Result<(), AllocError>
    ensures { OnOk result (string_bytes out.new ≡ string_bytes out.old ++ comment_text (is.word_comment (is.names_of symbols.now) at word)) }
{
    push_comment(out, at)?;
    symbols.push_name(out, at)?;
    out.push_str(" ")?;
    push_hexadecimal(out, word)?;
    push_target(out, symbols, target_of(at, word))
}

/// Appends the line of a word of the text, with its comment.
fn push_word_line(out: &mut String, symbols: &Symbols, at: u32, word: u32) -> Result<(), AllocError>
    ensures { OnOk result (string_bytes out.new ≡ string_bytes out.old ++ is.text_for (is.word_line (is.names_of symbols.now) at word ∷ [])) }
{
    push_word_statement(out, word)?;
    push_word_comment(out, symbols, at, word)?;
    out.push_str("\n")
}

/// Appends the line of a statement without registers, with its address.
pub(crate) fn push_addressed(
    out: &mut String,
    at: u32,
    form: Form,
    number: Option<i64>,
) -> Result<(), AllocError>
    ensures { OnOk result (string_bytes out.new ≡ string_bytes out.old ++ is.text_for (is.addressed at (stated form [] number) ∷ [])) }
{
    push_statement(out, form, &[], number)?;
    push_comment(out, at)?;
    out.push_str("\n")
}

/// Appends the words of the text, with the label of the entry before its word or at the end.
pub(crate) fn push_text(
    out: &mut String,
    symbols: &Symbols,
    entry: u32,
    text: &[u8],
) -> Result<(), AllocError>
    requires whole { length text.now % 4 ≡ 0 }
    requires fits { length text.now < 2 ^ 32 }
    ensures { OnOk result (string_bytes out.new ≡ string_bytes out.old ++ is.text_for (is.text_lines (is.names_of symbols.now) entry 0 (words_in text.now))) }
{
    let mut at = 0u32;
    let mut rest = text;
    while let [a, b, c, d, behind @ ..] = rest {
        let word = u32::from_le_bytes([*a, *b, *c, *d]);
        push_entry(out, entry, at)?;
        push_word_line(out, symbols, at, word)?;
        at += 4;
        rest = behind;
    }
    push_entry(out, entry, at)
}

/// Appends the line of a word of the data, with its address.
fn push_data_word(out: &mut String, at: u32, word: u32) -> Result<(), AllocError>
    ensures { OnOk result (string_bytes out.new ≡ string_bytes out.old ++ is.text_for (is.addressed at (given Form.Word [] (pos word)) ∷ [])) }
{
    push_addressed(out, at, Form::Word, Some(i64::from(word)))
}

/// Appends bytes from an address on, one by one.
fn push_bytes(out: &mut String, start: u32, bytes: &[u8]) -> Result<(), AllocError>
    requires { start + length bytes.now < 2 ^ 32 }
    ensures { OnOk result (string_bytes out.new ≡ string_bytes out.old ++ is.text_for (is.byte_lines start bytes.now)) }
{
    let mut at = start;
    let mut rest = bytes;
    while let [byte, behind @ ..] = rest {
        push_addressed(out, at, Form::Byte, Some(i64::from(*byte)))?;
        at += 1;
        rest = behind;
    }
    Ok(())
}

/// Appends bytes from an address on, as words and then what is left.
pub(crate) fn push_data(out: &mut String, start: u32, data: &[u8]) -> Result<(), AllocError>
    requires { start + length «data».now < 2 ^ 32 }
    ensures { OnOk result (string_bytes out.new ≡ string_bytes out.old ++ is.text_for (is.data_lines start «data».now)) }
{
    let mut at = start;
    let mut rest = data;
    while let [a, b, c, d, behind @ ..] = rest {
        let word = u32::from_le_bytes([*a, *b, *c, *d]);
        push_data_word(out, at, word)?;
        at += 4;
        rest = behind;
    }
    push_bytes(out, at, rest)
}

/// Appends the zeros, if there are some.
pub(crate) fn push_zeros(out: &mut String, at: u32, count: u32) -> Result<(), AllocError>
    ensures { OnOk result (string_bytes out.new ≡ string_bytes out.old ++ is.text_for (is.zero_lines at count)) }
{
    if count == 0 {
        return Ok(());
    }
    push_addressed(out, at, Form::Space, Some(i64::from(count)))
}
