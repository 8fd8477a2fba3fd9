//! The answer to a run.

ghost use Rattle.std.specs.Prelude.{◌≡◌, ◌≢◌, ◌≤◌, ◌<◌, ◌⊎◌, None, IfErr, MatchResult};
ghost use Rattle.ptk_words.specs.declared.TheConstants.{LAST_TICK};
ghost use Rattle.ptk_main_tools.specs.Statuses.{status_of};
ghost use Rattle.ptk_main_tools.specs.declared.status.ExitStatus.TheVariants.{Unexpected};
ghost use Rattle.ptk_main_answers.specs.Refusals.{IsFaultOf, missing_image};

use crate::document::document_of;
use crate::expectation::{difference, first_failure, has_image};
use crate::naming::{boot_fault, part_name, run_fault};
use ptk_config::Config;
use ptk_main_line::{FailOn, Format};
use ptk_main_runs::{Files, System, run_with};
use ptk_main_tools::{Fault, put_bytes};
use ptk_words::{PartId, Tick};
use std::alloc::Global;
use std::io::Write;

/// A run that is to end once every partition has halted ends at a multiple of this number of ticks.
const HALT_STRIDE: u64 = 1024;

/// The number of ticks between two reports of progress, at most.
const WATCH_STRIDE: u64 = 1 << 20;

/// Who watches a run on its way.
pub trait Watch {
    /// Whether nobody looks, so that the run need not stop on its way.
    fn is_absent(&self) -> bool {
        false
    }

    /// The run has reached a tick, and goes on to the last one.
    fn reached(&mut self, tick: Tick, last: Tick);
}

/// What is asked of a run.
#[derive(Clone, Copy)]
pub struct RunQuestion<'q> {
    /// The tick that it goes to, at most 2^40.
    pub ticks: Tick,
    /// Whether it ends at the first multiple of 1,024 ticks at which every partition has halted.
    pub until_halted: bool,
    /// The form of the report.
    pub format: Format,
    /// The bytes that the report is expected to be.
    pub expected: Option<&'q [u8]>,
    /// The kinds of what it fails on; `Late` and `Stack` are for the caller to look at.
    pub fail_on: FailOn,
}

impl RunQuestion<'_> {
    /// Whether the report is all that is asked for, as lines and at the last tick.
    fn is_plain(&self) -> bool {
        !self.until_halted
            && self.format == Format::Text
            && self.expected.is_none()
            && self.fail_on == FailOn::NONE
    }
}

/// Runs a configuration and writes its report. `Fault::MissingFile` for the first image that is not there, else
/// `Fault::NoMemory` or `Fault::WriteFailed`, and if the report is written `Fault::Differs` for the first byte at
/// which it is not the expected one, else `Fault::FailedOn` for the first partition of a kind to fail on. At any other
/// fault the writer is as it was, unless it failed itself.
pub fn run_answer<'a, V: Watch, W: Write>(
    alloc: Global,
    config: &'a Config,
    files: &Files,
    question: &RunQuestion<'_>,
    watch: &mut V,
    out: &mut W,
) -> Result<(), Fault<'a>>
    requires { question.now.ticks ≤ LAST_TICK }
    ensures refused { let refusal = missing_image config.now files.now in
        MatchResult result (λ _. refusal ≡ None) (λ fault. (refusal ≡ None) ⊎ IsFaultOf refusal refusal fault) }
    ensures silent { IfErr result (λ fault. fault ≢ Fault.WriteFailed → status_of fault ≢ Unexpected → out.new ≡ out.old) }
{
    if question.is_plain() && watch.is_absent() {
        return report_answer(alloc, config, files, question.ticks, out);
    }
    let mut system = match System::boot(alloc, config, files) {
        Ok(system) => system,
        Err(fault) => return Err(boot_fault(config, fault)),
    };
    run_watched(&mut system, question.ticks, question.until_halted, watch);
    put_answer(alloc, &system, question, out)?;
    match first_failure(&system, question.fail_on) {
        Some((p, kind)) => Err(Fault::FailedOn(part_name(config, p), kind)),
        None => Ok(()),
    }
}

/// Runs a configuration to a tick and writes its report as lines. `Fault::MissingFile` for the first image that is not
/// there, else `Fault::NoMemory` or `Fault::WriteFailed`. At a fault the writer is as it was, unless it failed itself.
fn report_answer<'a, W: Write>(
    alloc: Global,
    config: &'a Config,
    files: &Files,
    ticks: Tick,
    out: &mut W,
) -> Result<(), Fault<'a>>
    requires { ticks ≤ LAST_TICK }
    ensures refused { let refusal = missing_image config.now files.now in
        MatchResult result (λ _. refusal ≡ None) (IsFaultOf refusal refusal) }
    ensures silent { IfErr result (λ fault. fault ≢ Fault.WriteFailed → out.new ≡ out.old) }
{
    match run_with(alloc, config, files, ticks, out) {
        Ok(()) => Ok(()),
        Err(fault) => Err(run_fault(config, "", fault)),
    }
}

/// Runs a booted system to a tick, or if it is asked for to the first multiple of `HALT_STRIDE` ticks at which every
/// partition has halted.
fn run_watched<V: Watch>(system: &mut System<'_>, last: Tick, until_halted: bool, watch: &mut V)
    requires { last ≤ LAST_TICK }
{
    let mut tick = system.tick();
    while tick.ticks() < last.ticks() {
        if until_halted && all_halted(system) {
            return;
        }
        let stop = next_stop(system, tick, last, until_halted);
        system.run_to(stop);
        watch.reached(stop, last);
        tick = stop;
    }
}

/// The tick of the next stop, at most `WATCH_STRIDE` from this one and not past the last tick. On request it is the
/// next multiple of `HALT_STRIDE`, or the last one up to which nothing of any partition changes, if that is later.
fn next_stop(system: &System<'_>, tick: Tick, last: Tick, until_halted: bool) -> Tick
    requires small { last ≤ LAST_TICK }
    requires before { tick < last }
    ensures later { tick < result }
    ensures within { result ≤ last }
{
    let (tick, last) = (tick.ticks(), last.ticks());
    let far = last.min(tick + WATCH_STRIDE);
    if !until_halted {
        return Tick::new(far);
    }
    let still = system.all_stay_until(Tick::new(far)).ticks();
    let near = last.min(tick + HALT_STRIDE);
    Tick::new(near.max(still / HALT_STRIDE * HALT_STRIDE))
}

/// Whether every partition has halted; one without an image, which is idle for good, counts as halted.
fn all_halted(system: &System<'_>) -> bool {
    for i in 0..system.parts() {
        let p = PartId::new(i as u8);
        if has_image(system, p) && !system.status(p).is_halted() {
            return false;
        }
    }
    true
}

/// Writes the report of a system, and compares it if one is expected. A fault if memory was refused, with the
/// writer as it was, or the writer failed, and if the report is written but is not the expected one.
fn put_answer<W: Write>(
    alloc: Global,
    system: &System<'_>,
    question: &RunQuestion<'_>,
    out: &mut W,
) -> Result<(), Fault<'static>>
    ensures { IfErr result (λ fault. fault ≢ Fault.WriteFailed → status_of fault ≢ Unexpected → out.new ≡ out.old) }
{
    let Some(expected) = question.expected else {
        return put_report(alloc, system, question.format, out);
    };
    let report = report_bytes(alloc, system, question.format)?;
    put_bytes(report.as_slice(), out)?;
    match difference(report.as_slice(), expected) {
        Some(fault) => Err(fault),
        None => Ok(()),
    }
}

/// The report of a system in a form, in memory. A fault if memory was refused, which is all that its writer asks
/// for.
fn report_bytes(
    alloc: Global,
    system: &System<'_>,
    format: Format,
) -> Result<Vec<u8>, Fault<'static>> {
    let mut report = Vec::new(alloc);
    match put_report(alloc, system, format, &mut report) {
        Ok(()) => Ok(report),
        Err(_) => Err(Fault::NoMemory),
    }
}

/// Writes the report of a system in a form. A fault if memory was refused, with the writer as it was, or the writer
/// failed.
fn put_report<W: Write>(
    alloc: Global,
    system: &System<'_>,
    format: Format,
    out: &mut W,
) -> Result<(), Fault<'static>>
    ensures { IfErr result (λ fault. fault ≢ Fault.WriteFailed → out.new ≡ out.old) }
{
    match format {
        Format::Json => {
            let document = document_of(alloc, system)?;
            put_bytes(document.as_bytes(), out)
        }
        Format::Text => match system.report(out) {
            Ok(()) => Ok(()),
            Err(_) => Err(Fault::WriteFailed),
        },
    }
}
