//! The explanation of a text.

ghost use Rattle.std.specs.Prelude.{◌≡◌, ◌≢◌, IfOk, IfErr, option_map};
ghost use Rattle.std.specs.Result.{result_err};
ghost use Rattle.ptk_config.specs.Configuration.{configuration_in};

use crate::images::{Outcome, first_refused, outcomes_of, put_image};
use crate::refusal::{ExplainFault, explain_refusal};
use crate::table::put_table;
use ptk_config::{Config, Refusal, Section, read_config};
use ptk_image::Files;
use std::alloc::Global;
use std::io::Write;

/// Writes the explanation of a text with these files: of a configuration that is refused where and why; of one that is
/// accepted one line that says which image is refused first and why, and if none is, what each partition has. Returns
/// the first fault of the text with its place, None if the text is accepted; the files play no part in that. An error
/// if memory was refused, with the writer as it was, or if the writer fails; how much of the text it then has is not
/// said.
pub fn explain<W: Write>(
    alloc: Global,
    text: &str,
    files: &Files,
    out: &mut W,
) -> Result<Option<Refusal>, ExplainFault>
    ensures fault { IfOk result
        (λ found. option_map (λ r. r.fault) found ≡ result_err (configuration_in text.now)) }
    ensures silent { IfErr result (λ fault. fault ≢ ExplainFault.Write → out.new ≡ out.old) }
{
    let found = explain_refusal(alloc, text, out)?;
    if found.is_none() {
        explain_accepted(alloc, text, files, out)?;
    }
    Ok(found)
}

/// Writes the explanation of an accepted text with these files.
fn explain_accepted<W: Write>(
    alloc: Global,
    text: &str,
    files: &Files,
    out: &mut W,
) -> Result<(), ExplainFault>
    ensures silent { IfErr result (λ fault. fault ≢ ExplainFault.Write → out.new ≡ out.old) }
{
    match read_config(alloc, text) {
        Ok(config) => explain_config(alloc, &config, files, out),
        Err(_) => Err(ExplainFault::Memory),
    }
}

/// Writes the explanation of a configuration with these files: one line of the first image that is refused, if one is;
/// else of each partition its numbers, its image and what that leaves of the memory below the stacks, and its windows
/// with their share of the frame, stage by stage.
fn explain_config<W: Write>(
    alloc: Global,
    config: &Config,
    files: &Files,
    out: &mut W,
) -> Result<(), ExplainFault>
    ensures silent { IfErr result (λ fault. fault ≢ ExplainFault.Write → out.new ≡ out.old) }
{
    let sections = config.sections();
    let outcomes = outcomes_of(alloc, sections, files)?;
    match first_refused(&outcomes) {
        Some(place) => put_refused(place + 1, &sections[place], outcomes[place], out),
        None => put_table(config, &outcomes, out),
    }
}

/// Writes the line of an image that is refused: which section names it, counted from 1, and why.
fn put_refused<W: Write>(
    number: usize,
    section: &Section,
    outcome: Outcome,
    out: &mut W,
) -> Result<(), ExplainFault>
    ensures failed { IfErr result (λ fault. fault ≡ ExplainFault.Write) }
{
    let name = section.name();
    write!(out, "section {number} \"{name}\", ")?;
    put_image(section, outcome, out)
}
