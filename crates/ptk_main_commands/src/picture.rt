//! `timeline`: the picture of a run.

ghost use Rattle.std.specs.Prelude.{◌≡◌, ◌≢◌, ◌<◌, ◌≤◌, None, IfErr, MatchResult, OnOk};
ghost use Rattle.ptk_words.specs.declared.TheConstants.{LAST_TICK};
ghost use Rattle.ptk_timeline_formats.specs.Missing.{first_missing};
ghost use Rattle.ptk_timeline_formats.specs.declared.fault.FormatFault.TheVariants.{FromPastEnd};
ghost use Rattle.ptk_timeline_formats.specs.Faults.{missing_in_format};
ghost use Rattle.ptk_main_line.specs.Ranges.{IsRun};
ghost use Rattle.ptk_main_tools.specs.HostFaults.{IsHostFault};
ghost use Rattle.ptk_main_tools.specs.Statuses.{status_number};
ghost use Rattle.ptk_main_tools.specs.declared.status.ExitStatus.TheVariants.{Usage};
ghost use Rattle.ptk_main_answers.specs.Refusals.{IsFaultOf};
ghost use Rattle.ptk_main_commands.specs.Refusals.{refused_picture};

use ptk_config::Config;
use ptk_disasm::Symbols;
use ptk_main_answers::{Files, System, boot_fault};
use ptk_main_line::{PictureFormat, TimelineOptions};
use ptk_main_tools::{Fault, config_in, end_flushed, images_of, symbols_of, symbols_text_in, tell};
use ptk_timeline::{Names, PictureFault, Starts, picture_with};
use ptk_timeline_formats::{Form, FormatFault, dump_with};
use ptk_words::Tick;
use std::alloc::Global;
use std::io::Write;

/// Writes the picture of a run of the configuration in a file, and gives the number of the status.
pub(crate) fn timeline<W: Write>(rt: &HostRuntime, options: TimelineOptions<'_>, out: &mut W) -> u8
    requires { IsRun options.run }
    ensures { result ≢ status_number Usage }
{
    match config_in(rt, options.run.file) {
        Ok(config) => {
            let outcome = timeline_config(rt, &config, options, out);
            end_flushed(rt, outcome, out)
        }
        Err(fault) => tell(rt, &fault),
    }
}

// Writes the picture of a run of a configuration.
fn timeline_config<'a, W: Write>(
    rt: &HostRuntime,
    config: &'a Config,
    options: TimelineOptions<'a>,
    out: &mut W,
) -> Result<(), Fault<'a>>
    requires { IsRun options.run }
    ensures silent { IfErr result (λ fault. ¬ IsHostFault fault → out.new ≡ out.old) }
{
    let files = images_of(rt, config, options.run.root)?;
    let text = symbols_text_in(rt, options.symbols)?;
    let symbols = symbols_of(rt, options.symbols, text.as_str())?;
    let from = Tick::new(options.from.unwrap_or(0));
    let to = Tick::new(options.run.ticks);
    timeline_answer(
        rt.alloc(),
        config,
        &files,
        &symbols,
        options.run.file,
        options.format,
        from,
        to,
        out,
    )
}

/// Writes the picture of a run from a tick on. A thread has the name of the symbol that begins where it starts, if one
/// does: as SVG the last thread of each number, as trace events each that starts from the tick on; a Value Change Dump
/// has no names. The title of an SVG picture has the name of the configuration's file. `Fault::NothingFrom` if the run
/// ends at that tick or before it, which is looked at first. Of a refusal nothing is written.
pub fn timeline_answer<'a, W: Write>(
    alloc: Global,
    config: &'a Config,
    files: &Files,
    symbols: &Symbols<'_>,
    file: &str,
    format: PictureFormat,
    from: Tick,
    to: Tick,
    out: &mut W,
) -> Result<(), Fault<'a>>
    requires { to ≤ LAST_TICK }
    ensures refused { let refusal = refused_picture config.now files.now from to in
        MatchResult result (λ _. refusal ≡ None) (IsFaultOf refusal refusal) }
    ensures silent { IfErr result (λ fault. ¬ IsHostFault fault → out.new ≡ out.old) }
{
    match put_picture(alloc, config, files, symbols, file, format, from, to, out) {
        Ok(()) => Ok(()),
        Err(FormatFault::Boot(fault)) => Err(boot_fault(config, fault)),
        Err(FormatFault::FromPastEnd) => Err(Fault::NothingFrom(from.ticks())),
        Err(FormatFault::Memory) => Err(Fault::NoMemory),
        Err(FormatFault::Write) => Err(Fault::WriteFailed),
    }
}

// Writes the picture of a run in a form.
fn put_picture<W: Write>(
    alloc: Global,
    config: &Config,
    files: &Files,
    symbols: &Symbols<'_>,
    file: &str,
    format: PictureFormat,
    from: Tick,
    to: Tick,
    out: &mut W,
) -> Result<(), FormatFault>
    requires { to ≤ LAST_TICK }
    ensures order { OnOk result (from < to) }
    ensures past { IfErr result (λ fault. fault ≡ FromPastEnd → to ≤ from) }
    ensures first { to ≤ from → IfErr result (λ fault. fault ≡ FromPastEnd) }
    ensures missing { MatchResult result
        (λ _. first_missing files.now config.now.sections ≡ None)
        (λ fault. fault ≢ FromPastEnd → first_missing files.now config.now.sections ≡ missing_in_format fault) }
    ensures silent { IfErr result (λ fault. fault ≢ FormatFault.Write → fault ≢ FormatFault.Memory → out.new ≡ out.old) }
{
    match format {
        PictureFormat::Svg => put_svg(alloc, config, files, symbols, file, from, to, out),
        PictureFormat::Vcd => dump_with(alloc, config, files, symbols, from, to, Form::Vcd, out),
        PictureFormat::Json => {
            dump_with(alloc, config, files, symbols, from, to, Form::Events, out)
        }
    }
}

// Writes the picture of a run as SVG.
fn put_svg<W: Write>(
    alloc: Global,
    config: &Config,
    files: &Files,
    symbols: &Symbols<'_>,
    file: &str,
    from: Tick,
    to: Tick,
    out: &mut W,
) -> Result<(), FormatFault>
    requires { to ≤ LAST_TICK }
    ensures order { OnOk result (from < to) }
    ensures past { IfErr result (λ fault. fault ≡ FromPastEnd → to ≤ from) }
    ensures first { to ≤ from → IfErr result (λ fault. fault ≡ FromPastEnd) }
    ensures missing { MatchResult result
        (λ _. first_missing files.now config.now.sections ≡ None)
        (λ fault. fault ≢ FromPastEnd → first_missing files.now config.now.sections ≡ missing_in_format fault) }
    ensures silent { IfErr result (λ fault. fault ≢ FormatFault.Write → fault ≢ FormatFault.Memory → out.new ≡ out.old) }
{
    if to.ticks() <= from.ticks() {
        return Err(FormatFault::FromPastEnd);
    }
    let starts = starts_of(alloc, config, files, symbols, to)?;
    let mut system = match System::boot(alloc, config, files) {
        Ok(system) => system,
        Err(fault) => return Err(FormatFault::Boot(fault)),
    };
    let names = Names {
        starts: &starts,
        symbols,
    };
    match picture_with(alloc, config, &mut system, &names, file, from, to, out) {
        Ok(()) => Ok(()),
        Err(PictureFault::Memory) => Err(FormatFault::Memory),
        Err(PictureFault::Write) => Err(FormatFault::Write),
        Err(PictureFault::NoTicks) => Err(FormatFault::FromPastEnd),
    }
}

// Where the threads of a run to a tick start, which a run before the picture's shows; nowhere if no symbol could
// name a thread.
fn starts_of(
    alloc: Global,
    config: &Config,
    files: &Files,
    symbols: &Symbols<'_>,
    to: Tick,
) -> Result<Starts, FormatFault>
    requires { to ≤ LAST_TICK }
    ensures known { IfErr result (λ fault. fault ≢ FromPastEnd) }
    ensures missing { IfErr result (λ fault. first_missing files.now config.now.sections ≡ missing_in_format fault) }
{
    if symbols.is_empty() {
        return Ok(Starts::none(alloc));
    }
    let mut system = match System::boot(alloc, config, files) {
        Ok(system) => system,
        Err(fault) => return Err(FormatFault::Boot(fault)),
    };
    match Starts::of_run(alloc, &mut system, to) {
        Ok(starts) => Ok(starts),
        Err(_) => Err(FormatFault::Memory),
    }
}
