//! The trace of a partition in words.

ghost use Rattle.std.specs.Prelude.{◌≡◌, ◌≢◌, ◌<◌, ◌≤◌, None, IfErr, IfOk, MatchResult, OnOk, IsSome, length};
ghost use Rattle.ptk_words.specs.declared.TheConstants.{LAST_TICK};
ghost use Rattle.ptk_main_runs.specs.Missing.{first_missing};
ghost use Rattle.ptk_main_runs.specs.declared.runs.RunFault.TheVariants.{NoPartition};
ghost use Rattle.ptk_main_runs.specs.Parts.{part_named};
ghost use Rattle.ptk_main_runs.specs.RunFaults.{missing_in_run};

use crate::filter::Filter;
use crate::lines::words_of;
use ptk_config::Config;
use ptk_disasm::Symbols;
use ptk_main_runs::{BootFault, Files, RunFault, System, part_named};
use ptk_trace::Entries;
use ptk_words::{Entry, PartId, Tick};
use std::alloc::{AllocError, Global};
use std::io::Write;

/// A fault for memory that was refused.
const NO_MEMORY: RunFault = RunFault::Boot(BootFault::Memory);

/// Writes the trace of the partition of this name after this many ticks, at most 2^40, in words: each line that the
/// filter shows as `trace_with` writes it, and after it two blanks, `#`, the symbol that is nearest to its pc, and its
/// instruction as the disassembler spells it. An ECALL also has the name of the call with its arguments, the place that
/// it is called from, the threads that it wakes, and after `->` the name of its reply, or `blocked` if its caller waits;
/// a step at the return gate has the threads that it wakes. A longer trace than the section keeps is that of a
/// configuration with a longer one: it is the same run (`deeper_trace_is_same_run` of `ptk_impact`). The errors are
/// those of `trace_with`, and `Boot(Memory)` also if memory for the lines is refused. On a fault the writer is as it
/// was, unless it failed.
pub fn decoded_trace_with<W: Write>(
    alloc: Global,
    config: &Config,
    files: &Files,
    ticks: Tick,
    name: &str,
    symbols: &Symbols<'_>,
    filter: &Filter,
    out: &mut W,
) -> Result<(), RunFault>
    requires { ticks ≤ LAST_TICK }
    ensures known { OnOk result (IsSome (part_named config.now name.now)) }
    ensures unknown { IfErr result (λ fault. fault ≡ NoPartition → part_named config.now name.now ≡ None) }
    ensures first { IfErr result (λ fault. part_named config.now name.now ≡ None → fault ≡ NoPartition) }
    ensures missing { MatchResult result
        (λ _. first_missing files.now config.now.sections ≡ None)
        (λ fault. fault ≢ NoPartition → first_missing files.now config.now.sections ≡ missing_in_run fault) }
    ensures silent { IfErr result (λ fault. fault ≢ RunFault.Write → out.new ≡ out.old) }
{
    let Some(p) = part_named(config, name) else {
        return Err(RunFault::NoPartition);
    };
    let entries = entries_of(alloc, config, files, ticks, p, filter)?;
    let mut system = booted(alloc, config, files)?;
    match words_of(alloc, &mut system, p, symbols, entries.as_slice()) {
        Ok(words) => match out.write_all(words.as_bytes()) {
            Ok(()) => Ok(()),
            Err(_) => Err(RunFault::Write),
        },
        Err(_) => Err(NO_MEMORY),
    }
}

/// The system of a configuration at tick 0.
fn booted<'a>(alloc: Global, config: &'a Config, files: &'a Files) -> Result<System<'a>, RunFault>
    ensures same { IfOk result (λ system. system.config ≡ config.now) }
    ensures written { IfErr result (λ fault. fault ≢ RunFault.Write) }
    ensures known { IfErr result (λ fault. fault ≢ NoPartition) }
    ensures missing { MatchResult result
        (λ _. first_missing files.now config.now.sections ≡ None)
        (λ fault. first_missing files.now config.now.sections ≡ missing_in_run fault) }
{
    match System::boot(alloc, config, files) {
        Ok(system) => Ok(system),
        Err(fault) => Err(RunFault::Boot(fault)),
    }
}

/// The steps that the trace of a partition has after this many ticks and that the filter shows, oldest first.
fn entries_of(
    alloc: Global,
    config: &Config,
    files: &Files,
    ticks: Tick,
    p: PartId,
    filter: &Filter,
) -> Result<Vec<Entry>, RunFault>
    requires ticks { ticks ≤ LAST_TICK }
    requires partition { p < length config.now.sections }
    ensures written { IfErr result (λ fault. fault ≢ RunFault.Write) }
    ensures known { IfErr result (λ fault. fault ≢ NoPartition) }
    ensures missing { MatchResult result
        (λ _. first_missing files.now config.now.sections ≡ None)
        (λ fault. first_missing files.now config.now.sections ≡ missing_in_run fault) }
{
    let mut system = booted(alloc, config, files)?;
    system.run_to(ticks);
    match shown_of(alloc, filter, &system.trace(p).entries()) {
        Ok(shown) => Ok(shown),
        Err(_) => Err(NO_MEMORY),
    }
}

/// The steps of a trace that the filter shows, oldest first.
fn shown_of(alloc: Global, filter: &Filter, kept: &Entries<'_>) -> Result<Vec<Entry>, AllocError> {
    let mut shown = Vec::new(alloc);
    push_shown(&mut shown, filter, kept.oldest)?;
    push_shown(&mut shown, filter, kept.later)?;
    push_shown(&mut shown, filter, kept.newest)?;
    Ok(shown)
}

/// Appends the steps that the filter shows.
fn push_shown(
    shown: &mut Vec<Entry>,
    filter: &Filter,
    entries: &[Entry],
) -> Result<(), AllocError> {
    for entry in entries {
        if filter.shows(entry) {
            shown.push(*entry)?;
        }
    }
    Ok(())
}
