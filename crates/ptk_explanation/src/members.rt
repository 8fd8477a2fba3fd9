//! The members of a JSON object, of which those without a value are left out.

use std::alloc::{AllocError, Global};
use std::fmt::Write;

/// A member of an object: its name, and its value, without which it is left out.
pub(crate) type Member<'a> = (&'static str, MemberValue<'a>);

/// The value of a member, if it has one.
#[derive(Clone, Copy)]
pub(crate) enum MemberValue<'a> {
    /// A number.
    Number(Option<u64>),
    /// A byte.
    Byte(Option<u8>),
    /// A word.
    Word(Option<u32>),
    /// A text.
    Text(Option<&'a str>),
    /// A fact, which is left out unless it holds.
    Fact(bool),
}

/// A value that there is.
#[derive(Clone, Copy)]
enum Shown<'a> {
    /// A number.
    Number(u64),
    /// A text.
    Text(&'a str),
    /// A fact that holds.
    Yes,
}

/// The value of a member that has one.
fn shown_of(value: MemberValue<'_>) -> Option<Shown<'_>> {
    match value {
        MemberValue::Number(Some(number)) => Some(Shown::Number(number)),
        MemberValue::Byte(Some(byte)) => Some(Shown::Number(u64::from(byte))),
        MemberValue::Word(Some(word)) => Some(Shown::Number(u64::from(word))),
        MemberValue::Text(Some(text)) => Some(Shown::Text(text)),
        MemberValue::Fact(true) => Some(Shown::Yes),
        MemberValue::Number(None)
        | MemberValue::Byte(None)
        | MemberValue::Word(None)
        | MemberValue::Text(None)
        | MemberValue::Fact(false) => None,
    }
}

/// Appends an object of the members that have a value, in the compact form. An error if memory runs out.
pub(crate) fn push_object(
    alloc: Global,
    out: &mut String,
    members: &[Member<'_>],
) -> Result<(), AllocError> {
    push_members(alloc, out, members)?;
    out.push_str("}")
}

/// Appends an object that is not yet closed, of the members that have a value. An error if memory runs out.
pub(crate) fn push_members(
    alloc: Global,
    out: &mut String,
    members: &[Member<'_>],
) -> Result<(), AllocError> {
    out.push_str("{")?;
    let mut is_first = true;
    for member in members {
        if let Some(value) = shown_of(member.1) {
            out.push_str(comma_unless(is_first))?;
            push_text(alloc, out, member.0)?;
            out.push_str(":")?;
            push_shown(alloc, out, value)?;
            is_first = false;
        }
    }
    Ok(())
}

/// Appends the value of a member. An error if memory runs out.
fn push_shown(alloc: Global, out: &mut String, value: Shown<'_>) -> Result<(), AllocError> {
    match value {
        Shown::Number(number) => write!(out, "{number}"),
        Shown::Text(text) => push_text(alloc, out, text),
        Shown::Yes => out.push_str("true"),
    }
}

/// Appends a text between quotes, with escapes. An error if memory runs out.
pub(crate) fn push_text(alloc: Global, out: &mut String, text: &str) -> Result<(), AllocError> {
    match serde_json::to_string(alloc, &text) {
        Ok(quoted) => out.push_str(quoted.as_str()),
        Err(_) => Err(AllocError),
    }
}

/// What is written before an item of a list.
pub(crate) fn comma_unless(is_first: bool) -> &'static str {
    if is_first { "" } else { "," }
}
