//! Configurations that are refused, in the files of `data/refusals`: the number of the fault, and what is said of it.

use crate::table_in;
use anyhow::{Error, Result, ensure};
use ptk_config::{ConfigFault, read_config};
use ptk_config_explain::explain_refusal;
use serde::Deserialize;
use std::alloc::Global;
use std::collections::BTreeMap;

/// The files of refusals.
const FILES: [&str; 2] = ["faults", "reasons"];

/// What comes after the first line of a reason: the line of the text.
const LINE: &[u8] = b"  line ";

/// What a file has.
#[derive(Drop, Deserialize)]
#[serde(deny_unknown_fields)]
struct Group {
    /// Texts by their names.
    texts: BTreeMap<String, String>,
    row: Vec<Refusal>,
}

/// A text, and what is wanted of it.
#[derive(Drop, Deserialize)]
#[serde(deny_unknown_fields)]
struct Refusal {
    name: String,
    /// The beginning.
    text: Option<String>,
    /// The parts after it, by their names.
    #[serde(default)]
    parts: Vec<String>,
    /// A text in the whole, and another one that stands in its place.
    old: Option<String>,
    new: Option<String>,
    /// The number of the fault.
    fault: Option<u8>,
    /// The number of the windows' fault.
    window: Option<u8>,
    /// Whether there is no fault.
    #[serde(default)]
    accepted: bool,
    /// The first line that is said of the fault; that of the text may come after it.
    says: Option<String>,
    /// All lines that are said.
    lines: Option<String>,
}

/// Prints a line for each refusal. An error if a file can't be read or the output fails.
pub(crate) fn print_refusals(rt: &HostRuntime) -> Result<()> {
    for name in FILES.iter() {
        println!(rt; "refusals: {name}")?;
        let file = format!(in rt.alloc(); "refusals/{name}.toml")?;
        let group: Group = table_in(rt, file.as_str())?;
        print_group(rt, &group)?;
    }
    Ok(())
}

// Prints a line for each refusal of a file.
fn print_group(rt: &HostRuntime, group: &Group) -> Result<()> {
    for refusal in group.row.iter() {
        match check_refusal(rt.alloc(), refusal, group) {
            Ok(()) => println!(rt; "{}: right", refusal.name)?,
            Err(difference) => println!(rt; "{}: {difference:#}", refusal.name)?,
        }
    }
    Ok(())
}

// An error, which says what differs, if a text is not refused as wanted.
fn check_refusal(alloc: Global, refusal: &Refusal, group: &Group) -> Result<()> {
    let text = text_of(alloc, refusal, group)?;
    check_fault(alloc, text.as_str(), refusal)?;
    check_lines(alloc, text.as_str(), refusal)
}

// The text of a refusal.
fn text_of(alloc: Global, refusal: &Refusal, group: &Group) -> Result<String> {
    let mut text = String::new(alloc);
    if let Some(beginning) = &refusal.text {
        text.push_str(beginning.as_str())?;
    }
    for name in refusal.parts.iter() {
        text.push_str(part_of(name.as_str(), group)?)?;
    }
    match (&refusal.old, &refusal.new) {
        (Some(old), Some(new)) => Ok(text.replace(alloc, old.as_str(), new.as_str())?),
        _ => Ok(text),
    }
}

// The part of this name.
fn part_of<'a>(name: &str, group: &'a Group) -> Result<&'a str> {
    match group.texts.get(name) {
        Some(text) => Ok(text.as_str()),
        None => Err(Error::msg("a name without a text")),
    }
}

// An error if the fault of a text is not the one that is wanted, if one is.
fn check_fault(alloc: Global, text: &str, refusal: &Refusal) -> Result<()> {
    let seen = numbers_of(alloc, text);
    if refusal.accepted {
        ensure!(seen.is_none(), "a fault");
    }
    if let Some(number) = refusal.fault {
        ensure!(seen == Some((number, refusal.window)), "another fault");
    }
    Ok(())
}

// The number of a text's fault, and that of the windows' fault if it is one. None if there is no fault.
fn numbers_of(alloc: Global, text: &str) -> Option<(u8, Option<u8>)> {
    match read_config(alloc, text) {
        Ok(_) => None,
        Err(ConfigFault::Window(fault)) => {
            Some((ConfigFault::Window(fault).number(), Some(fault.number())))
        }
        Err(fault) => Some((fault.number(), None)),
    }
}

// An error if other lines are said of a text than those that are wanted, if some are.
fn check_lines(alloc: Global, text: &str, refusal: &Refusal) -> Result<()> {
    let mut out = Vec::new(alloc);
    ensure!(explain_refusal(alloc, text, &mut out).is_ok(), "no lines");
    if let Some(lines) = &refusal.lines {
        ensure!(out.as_slice() == lines.as_str().as_bytes(), "other lines");
    }
    if let Some(line) = &refusal.says {
        ensure!(is_said(&out, line.as_str()), "another line");
    }
    Ok(())
}

// Whether this line is said first, and no other but the line of the text.
fn is_said(said: &[u8], line: &str) -> bool {
    match said.strip_prefix(line.as_bytes()) {
        Some(rest) => rest.is_empty() || rest.starts_with(LINE),
        None => false,
    }
}
