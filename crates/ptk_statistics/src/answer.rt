//! The answers to `stats`, as tables or as JSON.

ghost use Rattle.std.specs.Prelude.{◌≡◌, ◌≢◌, ◌≤◌, ◌↔◌, None, IfErr, IsTrue, MatchResult, OnOk};
ghost use Rattle.ptk_words.specs.declared.TheConstants.{LAST_TICK};
ghost use Rattle.ptk_main_runs.specs.Missing.{first_missing};
ghost use Rattle.ptk_main_runs.specs.RunFaults.{missing_in_run};
ghost use Rattle.ptk_main_runs.specs.declared.runs.RunFault.TheVariants.{NoPartition};
ghost use Rattle.ptk_statistics.specs.Asked.{IsAsked};

use crate::document::json_of;
use crate::measure::Measure;
use crate::statistics::Statistics;
use crate::tables::put_tables;
use ptk_config::{Config, Section};
use ptk_main_runs::{BootFault, Files, PutFault, RunFault, System, part_named};
use std::alloc::Global;
use std::io;
use std::io::Write;

/// The form of an answer.
#[derive(Clone, Copy)]
pub enum Form {
    /// A block of tables for each partition.
    Tables,
    /// One JSON object on one line, with `\n` after it.
    Json,
}

/// Boots the system of a configuration, runs it up to a tick of at most 2^40, and writes the figures of the run in a
/// form: those of each partition, or of the one of this name alone. That a partition has the name is tested before the
/// system boots.
///
/// A fault if no partition has the name, if the system does not boot or memory runs out, or if the writer fails.
/// Nothing is written before another fault than the writer's, except in JSON, where memory can run out after the first
/// byte.
pub fn stats_with<W: Write>(
    alloc: Global,
    config: &Config,
    files: &Files,
    measure: &Measure<'_>,
    partition: Option<&str>,
    form: Form,
    out: &mut W,
) -> Result<(), RunFault>
    requires order { measure.now.from ≤ measure.now.to }
    requires early { measure.now.to ≤ LAST_TICK }
    ensures known { OnOk result (IsAsked config.now partition.entry) }
    ensures unknown { IfErr result (λ fault. fault ≡ NoPartition → ¬ IsAsked config.now partition.entry) }
    ensures first { IfErr result (λ fault. ¬ IsAsked config.now partition.entry → fault ≡ NoPartition) }
    ensures missing { MatchResult result
        (λ _. first_missing files.now config.now.sections ≡ None)
        (λ fault. fault ≢ NoPartition → first_missing files.now config.now.sections ≡ missing_in_run fault) }
    ensures silent { IfErr result (λ fault. fault ≢ RunFault.Write →
        (form ≡ Form.Json → fault ≢ RunFault.Boot BootFault.Memory) → out.new ≡ out.old) }
{
    if !is_known(config, partition) {
        return Err(RunFault::NoPartition);
    }
    let statistics = statistics_of(alloc, config, files, measure)?;
    match put(form, alloc, config, &statistics, measure, partition, out) {
        Ok(()) => Ok(()),
        Err(PutFault::Memory) => Err(RunFault::Boot(BootFault::Memory)),
        Err(PutFault::Write) => Err(RunFault::Write),
    }
}

/// Whether a partition has the name that is asked for, or none is asked for.
fn is_known(config: &Config, partition: Option<&str>) -> bool
    ensures { IsTrue result ↔ IsAsked config.now partition.entry }
{
    match partition {
        Some(name) => part_named(config, name).is_some(),
        None => true,
    }
}

/// The figures of a run up to a tick of at most 2^40. A fault if the system does not boot or memory runs out.
pub fn statistics_of(
    alloc: Global,
    config: &Config,
    files: &Files,
    measure: &Measure<'_>,
) -> Result<Statistics, RunFault>
    requires order { measure.now.from ≤ measure.now.to }
    requires early { measure.now.to ≤ LAST_TICK }
    ensures known { IfErr result (λ fault. fault ≢ NoPartition) }
    ensures missing { MatchResult result
        (λ _. first_missing files.now config.now.sections ≡ None)
        (λ fault. first_missing files.now config.now.sections ≡ missing_in_run fault) }
{
    let mut system = match System::boot(alloc, config, files) {
        Ok(system) => system,
        Err(fault) => return Err(RunFault::Boot(fault)),
    };
    let second = match System::boot(alloc, config, files) {
        Ok(second) => second,
        Err(fault) => return Err(RunFault::Boot(fault)),
    };
    match Statistics::of_run(alloc, &mut system, second, measure) {
        Ok(statistics) => Ok(statistics),
        Err(_) => Err(RunFault::Boot(BootFault::Memory)),
    }
}

/// Writes the figures of the partitions that are asked for. Memory can run out in JSON alone.
fn put<W: Write>(
    form: Form,
    alloc: Global,
    config: &Config,
    statistics: &Statistics,
    measure: &Measure<'_>,
    partition: Option<&str>,
    out: &mut W,
) -> Result<(), PutFault>
    ensures { IfErr result (λ fault. fault ≡ PutFault.Memory → form ≡ Form.Json) }
{
    match form {
        Form::Tables => match put_asked_tables(config, statistics, partition, out) {
            Ok(()) => Ok(()),
            Err(_) => Err(PutFault::Write),
        },
        Form::Json => put_document(alloc, config, statistics, measure, partition, out),
    }
}

/// Writes the tables of the partitions that are asked for.
fn put_asked_tables<W: Write>(
    config: &Config,
    statistics: &Statistics,
    partition: Option<&str>,
    out: &mut W,
) -> io::Result<()> {
    for entry in config.sections().iter().zip(statistics.parts()) {
        let (section, part) = entry;
        if is_asked(section, partition) {
            put_tables(section.name(), part, out)?;
        }
    }
    Ok(())
}

/// Writes the JSON object of a run, with the partitions that are asked for.
fn put_document<W: Write>(
    alloc: Global,
    config: &Config,
    statistics: &Statistics,
    measure: &Measure<'_>,
    partition: Option<&str>,
    out: &mut W,
) -> Result<(), PutFault> {
    let (from, ticks) = (measure.from.ticks(), measure.to.ticks());
    write!(
        out,
        "{{\"format\":\"ptk stats 2\",\"ticks\":{ticks},\"from\":{from},\"partitions\":["
    )?;
    let mut comma = "";
    for entry in config.sections().iter().zip(statistics.parts()) {
        let (section, part) = entry;
        if is_asked(section, partition) {
            let text = json_of(alloc, section, part)?;
            write!(out, "{comma}{text}")?;
            comma = ",";
        }
    }
    out.write_all(b"]}\n")?;
    Ok(())
}

/// Whether the partition of a section is asked for.
fn is_asked(section: &Section, partition: Option<&str>) -> bool {
    match partition {
        Some(name) => section.has_name(name),
        None => true,
    }
}
