//! `stats`: the figures of a run.

ghost use Rattle.std.specs.Prelude.{◌≡◌, ◌≢◌, ◌≤◌, None, IfErr, MatchResult};
ghost use Rattle.ptk_words.specs.declared.TheConstants.{LAST_TICK};
ghost use Rattle.ptk_main_line.specs.Ranges.{IsRun};
ghost use Rattle.ptk_main_tools.specs.HostFaults.{IsHostFault};
ghost use Rattle.ptk_main_tools.specs.Statuses.{status_number};
ghost use Rattle.ptk_main_tools.specs.declared.status.ExitStatus.TheVariants.{Usage};
ghost use Rattle.ptk_main_answers.specs.Parts.{part_named};
ghost use Rattle.ptk_main_answers.specs.Refusals.{IsFaultOf, missing_image, refused_trace};
ghost use Rattle.ptk_main_commands.specs.Refusals.{refused_figures};

use crate::deadlines::deadlines_of;
use ptk_config::Config;
use ptk_main_answers::{Files, RunFault, boot_fault, run_fault};
use ptk_main_line::{Format, StatsOptions};
use ptk_main_tools::{Fault, config_in, end_flushed, images_of, tell};
use ptk_statistics::{Form, Measure, stats_with};
use ptk_words::Tick;
use std::alloc::Global;
use std::io::Write;

/// Writes the figures of a run of the configuration in a file, and gives the number of the status.
pub(crate) fn stats<W: Write>(rt: &HostRuntime, options: StatsOptions<'_>, out: &mut W) -> u8
    requires { IsRun options.run }
    ensures { result ≢ status_number Usage }
{
    match config_in(rt, options.run.file) {
        Ok(config) => {
            let outcome = stats_config(rt, &config, options, out);
            end_flushed(rt, outcome, out)
        }
        Err(fault) => tell(rt, &fault),
    }
}

// Writes the figures of a run of a configuration.
fn stats_config<'a, W: Write>(
    rt: &HostRuntime,
    config: &'a Config,
    options: StatsOptions<'a>,
    out: &mut W,
) -> Result<(), Fault<'a>>
    requires { IsRun options.run }
    ensures silent { IfErr result (λ fault. ¬ IsHostFault fault → out.new ≡ out.old) }
{
    let files = images_of(rt, config, options.run.root)?;
    let deadlines = deadlines_of(rt.alloc(), config, options.deadline)?;
    let measure = Measure {
        from: Tick::new(options.from.unwrap_or(0)),
        to: Tick::new(options.run.ticks),
        deadlines: deadlines.as_slice(),
        every_step: options.stack,
    };
    let form = match options.format {
        Format::Text => Form::Tables,
        Format::Json => Form::Json,
    };
    stats_answer(
        rt.alloc(),
        config,
        &files,
        &measure,
        options.partition,
        form,
        out,
    )
}

// Writes the figures of what is measured of a run in a form, of all partitions or of the one of this name.
// `Fault::NothingFrom` if the run ends before the first tick that counts, which is looked at first.
fn stats_answer<'a, W: Write>(
    alloc: Global,
    config: &'a Config,
    files: &Files,
    measure: &Measure<'_>,
    name: Option<&'a str>,
    form: Form,
    out: &mut W,
) -> Result<(), Fault<'a>>
    requires { measure.now.to ≤ LAST_TICK }
    ensures refused { let refusal = refused_figures config.now files.now measure.now.from measure.now.to name.entry in
        MatchResult result (λ _. refusal ≡ None) (IsFaultOf refusal refusal) }
    ensures silent { IfErr result (λ fault. ¬ IsHostFault fault → out.new ≡ out.old) }
{
    let from = measure.from.ticks();
    if measure.to.ticks() < from {
        return Err(Fault::NothingFrom(from));
    }
    match name {
        Some(name) => stats_of_one(alloc, config, files, measure, name, form, out),
        None => stats_of_all(alloc, config, files, measure, form, out),
    }
}

// Writes the figures of the partition of this name in a form.
fn stats_of_one<'a, W: Write>(
    alloc: Global,
    config: &'a Config,
    files: &Files,
    measure: &Measure<'_>,
    name: &'a str,
    form: Form,
    out: &mut W,
) -> Result<(), Fault<'a>>
    requires order { measure.now.from ≤ measure.now.to }
    requires early { measure.now.to ≤ LAST_TICK }
    ensures refused { let refusal = refused_trace (part_named config.now name.now) config.now files.now name.now in
        MatchResult result (λ _. refusal ≡ None) (IsFaultOf refusal refusal) }
    ensures silent { IfErr result (λ fault. ¬ IsHostFault fault → out.new ≡ out.old) }
{
    match stats_with(alloc, config, files, measure, Some(name), form, out) {
        Ok(()) => Ok(()),
        Err(fault) => Err(run_fault(config, name, fault)),
    }
}

// Writes the figures of all partitions in a form.
fn stats_of_all<'a, W: Write>(
    alloc: Global,
    config: &'a Config,
    files: &Files,
    measure: &Measure<'_>,
    form: Form,
    out: &mut W,
) -> Result<(), Fault<'a>>
    requires order { measure.now.from ≤ measure.now.to }
    requires early { measure.now.to ≤ LAST_TICK }
    ensures refused { let refusal = missing_image config.now files.now in
        MatchResult result (λ _. refusal ≡ None) (IsFaultOf refusal refusal) }
    ensures silent { IfErr result (λ fault. ¬ IsHostFault fault → out.new ≡ out.old) }
{
    match stats_with(alloc, config, files, measure, None, form, out) {
        Ok(()) => Ok(()),
        Err(RunFault::Boot(fault)) => Err(boot_fault(config, fault)),
        Err(RunFault::NoPartition) => unreachable!(),
        Err(RunFault::Write) => Err(Fault::WriteFailed),
    }
}
