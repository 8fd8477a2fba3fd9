//! The answer to the question how a partition stands.

ghost use Rattle.std.specs.Prelude.{◌≡◌, ◌≢◌, ◌<◌, ◌≤◌, None, Some, IfErr, IsSome, MatchResult, OnOk, length};
ghost use Rattle.ptk_words.specs.declared.TheConstants.{LAST_TICK};
ghost use Rattle.ptk_system.specs.Missing.{first_missing, missing_in};
ghost use Rattle.ptk_main_runs.specs.declared.runs.RunFault.TheVariants.{NoPartition};
ghost use Rattle.ptk_main_runs.specs.RunFaults.{missing_in_run};
ghost use Rattle.ptk_main_runs.specs.Parts.{part_named};

use crate::document::push_document;
use crate::explanation::Explanation;
use crate::history::histories;
use crate::lines::push_lines;
use crate::signals::add_signals;
use ptk_config::Config;
use ptk_disasm::Symbols;
use ptk_main_runs::{RunFault, part_named};
use ptk_system::{BootFault, Files, System};
use ptk_words::{PartId, Tick};
use std::alloc::{AllocError, Global};
use std::io::Write;

/// How an answer is written.
#[derive(Clone, Copy)]
pub enum Form {
    /// As lines of text.
    Lines,
    /// As one JSON object on one line, with `\n` after it.
    Json,
}

/// Writes how the partition of a name is after this many ticks, in a form: its status; of a fault the instruction, its
/// address and the registers; of a partition that goes on each thread, and each deadlock.
///
/// That there is such a partition is tested before the system boots. A fault if there is none, if the system does not
/// boot or memory runs out, each before the first byte, or if the writer fails.
pub fn explain_partition_with<W: Write>(
    alloc: Global,
    config: &Config,
    files: &Files,
    ticks: Tick,
    name: &str,
    symbols: &Symbols<'_>,
    form: Form,
    out: &mut W,
) -> Result<(), RunFault>
    requires { ticks ≤ LAST_TICK }
    ensures known { OnOk result (IsSome (part_named config.now name.now)) }
    ensures unknown { IfErr result (λ fault. fault ≡ NoPartition → part_named config.now name.now ≡ None) }
    ensures first { IfErr result (λ fault. part_named config.now name.now ≡ None → fault ≡ NoPartition) }
    ensures missing { MatchResult result
        (λ _. first_missing files.now config.now.sections ≡ None)
        (λ fault. fault ≢ NoPartition → first_missing files.now config.now.sections ≡ missing_in_run fault) }
    ensures silent { IfErr result (λ fault. fault ≢ RunFault.Write → out.new ≡ out.old) }
{
    match part_named(config, name) {
        Some(p) => put_answer(form, alloc, config, files, ticks, p, symbols, out),
        None => Err(RunFault::NoPartition),
    }
}

/// Writes how a partition stands.
fn put_answer<W: Write>(
    form: Form,
    alloc: Global,
    config: &Config,
    files: &Files,
    ticks: Tick,
    p: PartId,
    symbols: &Symbols<'_>,
    out: &mut W,
) -> Result<(), RunFault>
    requires ticks { ticks ≤ LAST_TICK }
    requires partition { p < length config.now.sections }
    ensures known { IfErr result (λ fault. fault ≢ NoPartition) }
    ensures missing { MatchResult result
        (λ _. first_missing files.now config.now.sections ≡ None)
        (λ fault. first_missing files.now config.now.sections ≡ missing_in_run fault) }
    ensures silent { IfErr result (λ fault. fault ≢ RunFault.Write → out.new ≡ out.old) }
{
    match answer_of(form, alloc, config, files, ticks, p, symbols) {
        Ok(answer) => match out.write_all(answer.as_bytes()) {
            Ok(()) => Ok(()),
            Err(_) => Err(RunFault::Write),
        },
        Err(fault) => Err(RunFault::Boot(fault)),
    }
}

/// The text of how a partition stands.
fn answer_of(
    form: Form,
    alloc: Global,
    config: &Config,
    files: &Files,
    ticks: Tick,
    p: PartId,
    symbols: &Symbols<'_>,
) -> Result<String, BootFault>
    requires ticks { ticks ≤ LAST_TICK }
    requires partition { p < length config.now.sections }
    ensures missing { MatchResult result
        (λ _. first_missing files.now config.now.sections ≡ None)
        (λ fault. first_missing files.now config.now.sections ≡ missing_in fault) }
{
    let mut system = System::boot(alloc, config, files)?;
    let mut histories = histories(alloc, &mut system, p, ticks)?;
    add_signals(alloc, config, files, &system, p, histories.as_mut_slice())?;
    let explanation = Explanation::of(alloc, &system, p, histories.as_slice())?;
    let name = config.sections()[p.index()].name();
    Ok(text_of(form, alloc, name, &explanation, symbols)?)
}

/// The text of an explanation of the partition of a name. An error if memory runs out.
fn text_of(
    form: Form,
    alloc: Global,
    name: &str,
    explanation: &Explanation,
    symbols: &Symbols<'_>,
) -> Result<String, AllocError> {
    let mut text = String::new(alloc);
    match form {
        Form::Lines => push_lines(&mut text, name, explanation, symbols)?,
        Form::Json => push_document(alloc, &mut text, name, explanation, symbols)?,
    }
    Ok(text)
}
