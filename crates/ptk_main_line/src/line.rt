//! The words of a command line and the request in them.
ghost use Rattle.std.specs.Prelude.{IfOk};
ghost use Rattle.ptk_main_line.specs.Ranges.{IsInRange, IsRun};

use crate::commands::ptk_command;
use crate::requests::{
    AsmOptions, CheckOptions, DisasmOptions, ExplainOptions, ImpactOptions, Request, RunOptions,
    RunTo, StatsOptions, TimelineOptions, TraceOptions,
};
use crate::values::{
    NoRequest, deadlines_in, format_in, has_flag, kinds_in, number_in, option_in,
    optional_number_in, picture_format_in, text_in,
};
use clap::error::ErrorKind;
use clap::{ArgMatches, Error};
use std::alloc::{AllocError, Global};

/// The last tick that a run may go to.
pub const MOST_TICKS: u64 = 1_099_511_627_776;
/// The greatest number of a thread.
pub const MOST_THREADS: u64 = 32;
/// The greatest number of steps that a trace may keep on request.
pub const MOST_STEPS: u64 = 1_048_576;

/// Reads the words of a command line, of which the first is the program's name.
///
/// An error has one of the kinds that `clap` gives the words: `DisplayHelp` or `DisplayVersion` if they ask for help or
/// the version, and otherwise what is wrong with them. Its kind is `InvalidValue` if `clap` takes the words and they
/// ask for nothing: the value of `--format`, `--fail-on` or `--deadline` is another word. It is `OutOfMemory` if memory
/// runs out. Options may be before or after FILE, and `--ticks=N` is `--ticks N`.
pub fn read_line<'a>(alloc: Global, words: &'a [&'a str]) -> Result<Request<'a>, Error>
    ensures in_range { IfOk result IsInRange }
{
    let command = ptk_command(alloc)?;
    let matches = command.try_get_matches_from(words)?;
    match request_in(&matches) {
        Ok(request) => Ok(request),
        Err(why) => Err(no_request(alloc, &why)?),
    }
}

/// The error of words that are taken and ask for nothing.
fn no_request(alloc: Global, why: &NoRequest<'_>) -> Result<Error, AllocError> {
    let text = format!(in alloc; "{why}")?;
    refusal(alloc, ErrorKind::InvalidValue, text.as_str())
}

/// The usage error of a word that is not UTF-8, which `read_line` can't be given. `clap` has no kind for it, so it has
/// the kind of a value that can't be read (own choice). An error if memory runs out.
pub fn not_text(alloc: Global) -> Result<Error, AllocError> {
    refusal(alloc, ErrorKind::ValueValidation, "a word is not UTF-8")
}

/// The usage error of `asm` if two of its files are one and one is written over. An error if memory runs out.
pub fn one_file(alloc: Global) -> Result<Error, AllocError> {
    refusal(
        alloc,
        ErrorKind::ArgumentConflict,
        "two of IN, OUT and the file of --symbols are one file",
    )
}

/// The error of `disasm` if OUT is the image or the file of its symbols, which would be written over: a usage error.
/// An error if memory runs out.
pub fn over_input(alloc: Global) -> Result<Error, AllocError> {
    refusal(
        alloc,
        ErrorKind::ArgumentConflict,
        "OUT is one file with IMAGE or the file of --symbols",
    )
}

/// The error of `trace` if an option chooses what is shown and `--decode` is not given: a usage error. An error
/// if memory runs out.
pub fn undecoded(alloc: Global) -> Result<Error, AllocError> {
    refusal(
        alloc,
        ErrorKind::MissingRequiredArgument,
        "--symbols, --thread, --calls, --from and --to are options of --decode",
    )
}

/// The error of a kind, with this text and the command's usage. An error if memory runs out.
fn refusal(alloc: Global, kind: ErrorKind, text: &str) -> Result<Error, AllocError> {
    let mut command = ptk_command(alloc)?;
    command.error(kind, text)
}

/// The request in the matches.
fn request_in<'a>(matches: &ArgMatches<'a>) -> Result<Request<'a>, NoRequest<'a>>
    ensures { IfOk result IsInRange }
{
    let Some((name, found)) = matches.subcommand() else {
        return Err(NoRequest::NoCommand);
    };
    match name {
        "run" => run_in(found),
        "trace" => trace_in(found),
        "timeline" => timeline_in(found),
        "asm" => asm_in(found),
        "check" => check_in(found),
        "disasm" => disasm_in(found),
        "impact" => impact_in(found),
        "explain" => explain_in(found),
        "stats" => stats_in(found),
        _other => Err(NoRequest::NoCommand),
    }
}

/// The run in the matches of a command that looks at one.
fn run_to_in<'a>(found: &ArgMatches<'a>) -> Result<RunTo<'a>, NoRequest<'a>>
    ensures { IfOk result IsRun }
{
    let file = text_in(found, "FILE")?;
    let ticks = number_in(found, "ticks", 0, MOST_TICKS)?;
    let root = option_in(found, "root");
    Ok(RunTo { file, ticks, root })
}

/// The request in the matches of `run`.
fn run_in<'a>(found: &ArgMatches<'a>) -> Result<Request<'a>, NoRequest<'a>>
    ensures { IfOk result IsInRange }
{
    let run = run_to_in(found)?;
    let fail_on = kinds_in(found)?;
    let deadline = deadlines_in(found)?;
    let format = format_in(found)?;
    Ok(Request::Run(RunOptions {
        run,
        expect: option_in(found, "expect"),
        fail_on,
        deadline,
        until_halted: has_flag(found, "until-halted"),
        quiet: has_flag(found, "quiet"),
        format,
        explain: has_flag(found, "explain"),
    }))
}

/// The request in the matches of `trace`.
fn trace_in<'a>(found: &ArgMatches<'a>) -> Result<Request<'a>, NoRequest<'a>>
    ensures { IfOk result IsInRange }
{
    let run = run_to_in(found)?;
    let partition = text_in(found, "partition")?;
    let thread = optional_number_in(found, "thread", 1, MOST_THREADS)?;
    let from = optional_number_in(found, "from", 0, MOST_TICKS)?;
    let to = optional_number_in(found, "to", 0, MOST_TICKS)?;
    let last = optional_number_in(found, "last", 1, MOST_STEPS)?;
    Ok(Request::Trace(TraceOptions {
        run,
        partition,
        decode: has_flag(found, "decode"),
        symbols: option_in(found, "symbols"),
        thread,
        calls: has_flag(found, "calls"),
        from,
        to,
        last,
        explain: has_flag(found, "explain"),
    }))
}

/// The request in the matches of `timeline`.
fn timeline_in<'a>(found: &ArgMatches<'a>) -> Result<Request<'a>, NoRequest<'a>>
    ensures { IfOk result IsInRange }
{
    let run = run_to_in(found)?;
    let from = optional_number_in(found, "from", 0, MOST_TICKS)?;
    let format = picture_format_in(found)?;
    Ok(Request::Timeline(TimelineOptions {
        run,
        from,
        format,
        symbols: option_in(found, "symbols"),
    }))
}

/// The request in the matches of `asm`.
fn asm_in<'a>(found: &ArgMatches<'a>) -> Result<Request<'a>, NoRequest<'a>>
    ensures { IfOk result IsInRange }
{
    let source = text_in(found, "IN")?;
    let image = text_in(found, "OUT")?;
    Ok(Request::Asm(AsmOptions {
        source,
        image,
        symbols: option_in(found, "symbols"),
        explain: has_flag(found, "explain"),
    }))
}

/// The request in the matches of `disasm`.
fn disasm_in<'a>(found: &ArgMatches<'a>) -> Result<Request<'a>, NoRequest<'a>>
    ensures { IfOk result IsInRange }
{
    let image = text_in(found, "IMAGE")?;
    Ok(Request::Disasm(DisasmOptions {
        image,
        target: option_in(found, "OUT"),
        symbols: option_in(found, "symbols"),
    }))
}

/// The request in the matches of `check`.
fn check_in<'a>(found: &ArgMatches<'a>) -> Result<Request<'a>, NoRequest<'a>>
    ensures { IfOk result IsInRange }
{
    let file = text_in(found, "FILE")?;
    let format = format_in(found)?;
    Ok(Request::Check(CheckOptions {
        file,
        root: option_in(found, "root"),
        explain: has_flag(found, "explain"),
        format,
    }))
}

/// The request in the matches of `impact`.
fn impact_in<'a>(found: &ArgMatches<'a>) -> Result<Request<'a>, NoRequest<'a>>
    ensures { IfOk result IsInRange }
{
    let old = text_in(found, "OLD")?;
    let new = text_in(found, "NEW")?;
    let format = format_in(found)?;
    Ok(Request::Impact(ImpactOptions {
        old,
        new,
        partition: option_in(found, "partition"),
        rename: option_in(found, "rename"),
        format,
        root: option_in(found, "root"),
        old_root: option_in(found, "old-root"),
    }))
}

/// The request in the matches of `explain`.
fn explain_in<'a>(found: &ArgMatches<'a>) -> Result<Request<'a>, NoRequest<'a>>
    ensures { IfOk result IsInRange }
{
    let run = run_to_in(found)?;
    let partition = text_in(found, "partition")?;
    let format = format_in(found)?;
    Ok(Request::Explain(ExplainOptions {
        run,
        partition,
        symbols: option_in(found, "symbols"),
        format,
    }))
}

/// The request in the matches of `stats`.
fn stats_in<'a>(found: &ArgMatches<'a>) -> Result<Request<'a>, NoRequest<'a>>
    ensures { IfOk result IsInRange }
{
    let run = run_to_in(found)?;
    let from = optional_number_in(found, "from", 0, MOST_TICKS)?;
    let deadline = deadlines_in(found)?;
    let format = format_in(found)?;
    Ok(Request::Stats(StatsOptions {
        run,
        partition: option_in(found, "partition"),
        from,
        deadline,
        stack: has_flag(found, "stack"),
        format,
    }))
}
