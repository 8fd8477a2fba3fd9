//! The answers to a trace: its lines as they are, or in words.

ghost use Rattle.std.specs.Prelude.{◌≡◌, ◌≢◌, ◌≤◌, None, IfErr, MatchResult};
ghost use Rattle.ptk_words.specs.declared.TheConstants.{LAST_TICK};
ghost use Rattle.ptk_main_runs.specs.Parts.{part_named};
ghost use Rattle.ptk_main_answers.specs.Refusals.{IsFaultOf, refused_trace};

use crate::decoding::decoded_trace_with;
use crate::filter::Filter;
use crate::naming::run_fault;
use ptk_config::Config;
use ptk_disasm::Symbols;
use ptk_main_runs::{Files, trace_with};
use ptk_main_tools::Fault;
use ptk_words::Tick;
use std::alloc::Global;
use std::io::Write;

/// The lines of the last steps of the partition of this name. `Fault::NoPartition` if no partition has the name,
/// else `Fault::MissingFile` for the first image that is not there, `Fault::NoMemory` or `Fault::WriteFailed`. At a
/// fault the writer is as it was, unless it failed itself.
pub fn trace_answer<'a, W: Write>(
    alloc: Global,
    config: &'a Config,
    files: &Files,
    ticks: Tick,
    name: &'a str,
    out: &mut W,
) -> Result<(), Fault<'a>>
    requires { ticks ≤ LAST_TICK }
    ensures refused { let refusal = refused_trace (part_named config.now name.now) config.now files.now name.now in
        MatchResult result (λ _. refusal ≡ None) (IsFaultOf refusal refusal) }
    ensures silent { IfErr result (λ fault. fault ≢ Fault.WriteFailed → out.new ≡ out.old) }
{
    match trace_with(alloc, config, files, ticks, name, out) {
        Ok(()) => Ok(()),
        Err(fault) => Err(run_fault(config, name, fault)),
    }
}

/// The lines of the last steps of the partition of this name that the filter shows, in words, as `decoded_trace_with`
/// writes them. `Fault::NoPartition` if no partition has the name, else `Fault::MissingFile` for the first image
/// that is not there, `Fault::NoMemory` or `Fault::WriteFailed`. At a fault the writer is as it was, unless it failed
/// itself.
pub fn decoded_answer<'a, W: Write>(
    alloc: Global,
    config: &'a Config,
    files: &Files,
    ticks: Tick,
    name: &'a str,
    symbols: &Symbols<'_>,
    filter: &Filter,
    out: &mut W,
) -> Result<(), Fault<'a>>
    requires { ticks ≤ LAST_TICK }
    ensures refused { let refusal = refused_trace (part_named config.now name.now) config.now files.now name.now in
        MatchResult result (λ _. refusal ≡ None) (IsFaultOf refusal refusal) }
    ensures silent { IfErr result (λ fault. fault ≢ Fault.WriteFailed → out.new ≡ out.old) }
{
    match decoded_trace_with(alloc, config, files, ticks, name, symbols, filter, out) {
        Ok(()) => Ok(()),
        Err(fault) => Err(run_fault(config, name, fault)),
    }
}
