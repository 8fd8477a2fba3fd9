//! `explain`: how a partition stands after a run.

ghost use Rattle.std.specs.Prelude.{◌≡◌, ◌≢◌, ◌≤◌, None, IfErr, MatchResult};
ghost use Rattle.ptk_words.specs.declared.TheConstants.{LAST_TICK};
ghost use Rattle.ptk_main_line.specs.Ranges.{IsRun};
ghost use Rattle.ptk_main_tools.specs.HostFaults.{IsHostFault};
ghost use Rattle.ptk_main_tools.specs.Statuses.{status_number};
ghost use Rattle.ptk_main_tools.specs.declared.status.ExitStatus.TheVariants.{Usage};
ghost use Rattle.ptk_main_answers.specs.Parts.{part_named};
ghost use Rattle.ptk_main_answers.specs.Refusals.{IsFaultOf, refused_trace};

use ptk_config::Config;
use ptk_disasm::Symbols;
use ptk_explanation::{Form, explain_partition_with};
use ptk_main_answers::{Files, run_fault};
use ptk_main_line::{ExplainOptions, Format};
use ptk_main_tools::{Fault, config_in, end_flushed, images_of, symbols_of, symbols_text_in, tell};
use ptk_words::Tick;
use std::alloc::Global;
use std::io::Write;

/// Writes how a partition of the configuration in a file stands, and gives the number of the status.
pub(crate) fn explain<W: Write>(rt: &HostRuntime, options: ExplainOptions<'_>, out: &mut W) -> u8
    requires { IsRun options.run }
    ensures { result ≢ status_number Usage }
{
    match config_in(rt, options.run.file) {
        Ok(config) => {
            let outcome = explain_config(rt, &config, options, out);
            end_flushed(rt, outcome, out)
        }
        Err(fault) => tell(rt, &fault),
    }
}

// Writes how a partition of a configuration stands.
fn explain_config<'a, W: Write>(
    rt: &HostRuntime,
    config: &'a Config,
    options: ExplainOptions<'a>,
    out: &mut W,
) -> Result<(), Fault<'a>>
    requires { IsRun options.run }
    ensures silent { IfErr result (λ fault. ¬ IsHostFault fault → out.new ≡ out.old) }
{
    let files = images_of(rt, config, options.run.root)?;
    let text = symbols_text_in(rt, options.symbols)?;
    let symbols = symbols_of(rt, options.symbols, text.as_str())?;
    let ticks = Tick::new(options.run.ticks);
    let form = match options.format {
        Format::Text => Form::Lines,
        Format::Json => Form::Json,
    };
    standing_answer(
        rt.alloc(),
        config,
        &files,
        ticks,
        options.partition,
        &symbols,
        form,
        out,
    )
}

// Writes how the partition of this name stands after a run.
fn standing_answer<'a, W: Write>(
    alloc: Global,
    config: &'a Config,
    files: &Files,
    ticks: Tick,
    name: &'a str,
    symbols: &Symbols<'_>,
    form: Form,
    out: &mut W,
) -> Result<(), Fault<'a>>
    requires { ticks ≤ LAST_TICK }
    ensures refused { let refusal = refused_trace (part_named config.now name.now) config.now files.now name.now in
        MatchResult result (λ _. refusal ≡ None) (IsFaultOf refusal refusal) }
    ensures silent { IfErr result (λ fault. ¬ IsHostFault fault → out.new ≡ out.old) }
{
    match explain_partition_with(alloc, config, files, ticks, name, symbols, form, out) {
        Ok(()) => Ok(()),
        Err(fault) => Err(run_fault(config, name, fault)),
    }
}
