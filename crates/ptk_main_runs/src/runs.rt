//! Whole runs: from a configuration, its files and a number of ticks to a report or a trace.

ghost use Rattle.std.specs.Prelude.{◌≡◌, ◌≢◌, ◌<◌, ◌≤◌, ℕ, All, Some, None, IfErr, IfOk, IfSome, IsSome, MatchResult, OnOk, length};
ghost use Rattle.std.specs.Io.KnownBytes.{Appends};
ghost use Rattle.ptk_words.specs.declared.TheConstants.{LAST_TICK};
ghost use Rattle.ptk_words_model.specs.Text.{trace_text};
ghost use Rattle.ptk_system.specs.KeptSteps.{IsStep};
ghost use Rattle.ptk_system.specs.Missing.{first_missing};
ghost use Rattle.ptk_system.specs.Shown.{report_of};
ghost use Rattle.ptk_system.specs.World.{state_of, world_at};
ghost use Rattle.ptk_main_runs.specs.declared.runs.RunFault.TheVariants.{NoPartition};
ghost use Rattle.ptk_main_runs.specs.RunFaults.{missing_in_run};
ghost use Rattle.ptk_main_runs.specs.Parts.{part_named};

use ptk_config::{Config, place_named};
use ptk_system::{BootFault, Files, System};
use ptk_words::{PartId, Tick};
use std::alloc::Global;
use std::io::Write;
use thiserror::Error;

/// Why a run gives no report and no trace.
#[derive(Clone, Copy, Debug, PartialEq, Eq, Error)]
pub enum RunFault {
    /// The system did not boot.
    #[error("{0}")]
    Boot(BootFault),
    /// No partition has the name.
    #[error("no partition has the name")]
    NoPartition,
    /// The writer failed.
    #[error("the writer failed")]
    Write,
}

/// Boots the system of a configuration, runs it for this many ticks, at most 2^40, and writes its report. A fault where
/// the system does not boot, with the writer as it was, or where the writer fails.
pub fn run_with<W: Write>(
    alloc: Global,
    config: &Config,
    files: &Files,
    ticks: Tick,
    out: &mut W,
) -> Result<(), RunFault>
    requires { ticks ≤ LAST_TICK }
    ensures report { OnOk result (Appends (W.contents out.old) (W.contents out.new)
        (report_of (world_at config.now files.now ticks))) }
    ensures missing { MatchResult result
        (λ _. first_missing files.now config.now.sections ≡ None)
        (λ fault. first_missing files.now config.now.sections ≡ missing_in_run fault) }
    ensures no_name { IfErr result (λ fault. fault ≢ NoPartition) }
    ensures silent { IfErr result (λ fault. fault ≢ RunFault.Write → out.new ≡ out.old) }
{
    let system = system_at(alloc, config, files, ticks)?;
    match system.report(out) {
        Ok(()) => Ok(()),
        Err(_) => Err(RunFault::Write),
    }
}

/// Boots the system of a configuration, runs it for this many ticks, at most 2^40, and writes the trace of the
/// partition of this name. `NoPartition` if and only if no section has the name, which is tested before the boot; other
/// faults as of `run_with`. On a fault the writer is as it was, unless it failed.
pub fn trace_with<W: Write>(
    alloc: Global,
    config: &Config,
    files: &Files,
    ticks: Tick,
    name: &str,
    out: &mut W,
) -> Result<(), RunFault>
    requires { ticks ≤ LAST_TICK }
    ensures trace { OnOk result ((p : ℕ) → part_named config.now name.now ≡ Some p → Appends (W.contents out.old) (W.contents out.new)
        (trace_text (state_of (world_at config.now files.now ticks) p).account.trace)) }
    ensures steps { OnOk result ((p : ℕ) → part_named config.now name.now ≡ Some p →
        All IsStep (state_of (world_at config.now files.now ticks) p).account.trace) }
    ensures known { OnOk result (IsSome (part_named config.now name.now)) }
    ensures unknown { IfErr result (λ fault. fault ≡ NoPartition → part_named config.now name.now ≡ None) }
    ensures first { IfErr result (λ fault. part_named config.now name.now ≡ None → fault ≡ NoPartition) }
    ensures missing { MatchResult result
        (λ _. first_missing files.now config.now.sections ≡ None)
        (λ fault. fault ≢ NoPartition → first_missing files.now config.now.sections ≡ missing_in_run fault) }
    ensures silent { IfErr result (λ fault. fault ≢ RunFault.Write → out.new ≡ out.old) }
{
    match part_named(config, name) {
        Some(p) => traced(alloc, config, files, ticks, p, out),
        None => Err(RunFault::NoPartition),
    }
}

/// The partition of a name, None where no section has it.
pub fn part_named(config: &Config, name: &str) -> Option<PartId>
    ensures place { result ≡ part_named config.now name.now }
    ensures within { IfSome result (λ p. p < length config.now.sections) }
{
    let place = place_named(config.sections(), name)?;
    Some(PartId::new(place as u8))
}

/// The trace of a partition.
fn traced<W: Write>(
    alloc: Global,
    config: &Config,
    files: &Files,
    ticks: Tick,
    p: PartId,
    out: &mut W,
) -> Result<(), RunFault>
    requires ticks { ticks ≤ LAST_TICK }
    requires partition { p < length config.now.sections }
    ensures trace { OnOk result (Appends (W.contents out.old) (W.contents out.new)
        (trace_text (state_of (world_at config.now files.now ticks) p).account.trace)) }
    ensures steps { OnOk result (All IsStep (state_of (world_at config.now files.now ticks) p).account.trace) }
    ensures known { IfErr result (λ fault. fault ≢ NoPartition) }
    ensures missing { MatchResult result
        (λ _. first_missing files.now config.now.sections ≡ None)
        (λ fault. first_missing files.now config.now.sections ≡ missing_in_run fault) }
    ensures silent { IfErr result (λ fault. fault ≢ RunFault.Write → out.new ≡ out.old) }
{
    let system = system_at(alloc, config, files, ticks)?;
    match system.trace(p).lines(out) {
        Ok(()) => Ok(()),
        Err(_) => Err(RunFault::Write),
    }
}

// The system of a configuration after this many ticks.
fn system_at<'a>(
    alloc: Global,
    config: &'a Config,
    files: &'a Files,
    ticks: Tick,
) -> Result<System<'a>, RunFault>
    requires { ticks ≤ LAST_TICK }
    ensures reached { IfOk result (λ system. system ≡ world_at config.now files.now ticks) }
    ensures known { IfErr result (λ fault. fault ≢ NoPartition) }
    ensures missing { MatchResult result
        (λ _. first_missing files.now config.now.sections ≡ None)
        (λ fault. first_missing files.now config.now.sections ≡ missing_in_run fault) }
{
    match System::boot(alloc, config, files) {
        Ok(mut system) => {
            system.run_to(ticks);
            Ok(system)
        }
        Err(fault) => Err(RunFault::Boot(fault)),
    }
}
