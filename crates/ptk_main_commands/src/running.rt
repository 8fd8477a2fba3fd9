//! `run`: the report of a run of the configuration in a file.

ghost use Rattle.std.specs.Prelude.{◌≢◌};
ghost use Rattle.ptk_main_line.specs.Ranges.{IsRun};
ghost use Rattle.ptk_main_tools.specs.Statuses.{status_number};
ghost use Rattle.ptk_main_tools.specs.declared.status.ExitStatus.TheVariants.{Usage};

use crate::deadlines::deadlines_of;
use crate::explaining::{end_explained, refused};
use crate::progress::Progress;
use crate::unlike::put_unlike;
use ptk_config::Config;
use ptk_main_answers::{Files, RunQuestion, run_answer, run_fault};
use ptk_main_line::{FailOn, FailureKind, RunOptions};
use ptk_main_tools::{
    ExitStatus, Fault, bytes_in, config_of, images_of, put_bytes, tell_read, text_in,
};
use ptk_statistics::{Deadline, Measure, Statistics, statistics_of};
use ptk_words::Tick;
use std::alloc::Global;
use std::io::Write;

/// Writes the report of a run of the configuration in a file, and gives the number of the status, which says whether
/// the run is as expected.
pub(crate) fn run<W: Write>(rt: &HostRuntime, options: RunOptions<'_>, out: &mut W) -> u8
    requires { IsRun options.run }
    ensures { result ≢ status_number Usage }
{
    let text = match text_in(rt, options.run.file) {
        Ok(text) => text,
        Err(fault) => return tell_read(rt, &fault, None, options.explain),
    };
    match config_of(rt, text.as_str()) {
        Ok(config) => run_config(rt, &config, options, out),
        Err(fault) => refused(rt, text.as_str(), options.explain, &fault),
    }
}

// The report of a run of a configuration, which is compared if a file is named for it.
fn run_config<W: Write>(
    rt: &HostRuntime,
    config: &Config,
    options: RunOptions<'_>,
    out: &mut W,
) -> u8
    requires { IsRun options.run }
    ensures { result ≢ status_number Usage }
{
    let Some(name) = options.expect else {
        let outcome = put_run(rt, config, options, None, out);
        return end_explained(rt, config, outcome, options.run.root, options.explain, out);
    };
    match bytes_in(rt, name) {
        Ok(expected) => run_expected(rt, config, options, expected.as_slice(), out),
        Err(fault) => tell_read(rt, &fault, None, options.explain),
    }
}

// The report of a run of a configuration that is expected to be these bytes. If it is not, the line that differs
// goes to standard error after the fault's, as it is and as it is expected.
fn run_expected<W: Write>(
    rt: &HostRuntime,
    config: &Config,
    options: RunOptions<'_>,
    expected: &[u8],
    out: &mut W,
) -> u8
    requires { IsRun options.run }
    ensures { result ≢ status_number Usage }
{
    let mut report = Vec::new(rt.alloc());
    let outcome = put_run(rt, config, options, Some(expected), &mut report);
    let other = match &outcome {
        Err(Fault::Differs(offset, ..)) => Some(*offset),
        _ => None,
    };
    let outcome = match put_bytes(report.as_slice(), out) {
        Ok(()) => outcome,
        Err(fault) => Err(fault),
    };
    let status = end_explained(rt, config, outcome, options.run.root, options.explain, out);
    if let Some(offset) = other
        && status == ExitStatus::Unexpected.number()
    {
        put_unlike(rt, report.as_slice(), expected, offset);
    }
    status
}

// Writes the report of a run of a configuration, which may be expected to be these bytes, and looks at the way to its
// end if the run is to fail on something there.
fn put_run<'a, W: Write>(
    rt: &HostRuntime,
    config: &'a Config,
    options: RunOptions<'a>,
    expected: Option<&[u8]>,
    out: &mut W,
) -> Result<(), Fault<'a>>
    requires { IsRun options.run }
{
    let files = images_of(rt, config, options.run.root)?;
    let deadlines = deadlines_of(rt.alloc(), config, options.deadline)?;
    let question = RunQuestion {
        ticks: Tick::new(options.run.ticks),
        until_halted: options.until_halted,
        format: options.format,
        expected,
        fail_on: options.fail_on,
    };
    let mut progress = Progress::begin(rt, options);
    let outcome = run_answer(rt.alloc(), config, &files, &question, &mut progress, out);
    progress.finish();
    outcome?;
    way_answer(rt.alloc(), config, &files, options, deadlines.as_slice())
}

// Runs a configuration once more and looks at the way to its end, if the run is to fail on something there: that a
// thread responds late, or uses more than its stack. `Fault::FailedOn` for the first partition of such a kind.
fn way_answer<'a>(
    alloc: Global,
    config: &'a Config,
    files: &Files,
    options: RunOptions<'_>,
    deadlines: &[Deadline],
) -> Result<(), Fault<'a>>
    requires { IsRun options.run }
{
    let fail_on = options.fail_on;
    let looks_at_stacks = fail_on.has(FailureKind::Stack);
    if !looks_at_stacks && !fail_on.has(FailureKind::Late) {
        return Ok(());
    }
    let measure = Measure {
        from: Tick::new(0),
        to: Tick::new(options.run.ticks),
        deadlines,
        every_step: looks_at_stacks,
    };
    match statistics_of(alloc, config, files, &measure) {
        Ok(statistics) => match first_on_way(config, &statistics, fail_on) {
            Some(fault) => Err(fault),
            None => Ok(()),
        },
        Err(fault) => Err(run_fault(config, "", fault)),
    }
}

// The fault of the first partition, in their order, that is of a kind to fail on by what happened on the way.
fn first_on_way<'a>(
    config: &'a Config,
    statistics: &Statistics,
    fail_on: FailOn,
) -> Option<Fault<'a>> {
    for entry in config.sections().iter().zip(statistics.parts()) {
        let (section, part) = entry;
        if fail_on.has(FailureKind::Late) && part.is_late() {
            return Some(Fault::FailedOn(section.name(), FailureKind::Late));
        }
        if fail_on.has(FailureKind::Stack) && part.has_overflow() {
            return Some(Fault::FailedOn(section.name(), FailureKind::Stack));
        }
    }
    None
}
