//! `trace`: the last steps of a partition, as they are or in words.

ghost use Rattle.std.specs.Prelude.{◌≡◌, ◌≢◌, IfErr};
ghost use Rattle.ptk_main_line.specs.Ranges.{AreSteps, IsThread, IsTraceInRange};
ghost use Rattle.ptk_main_tools.specs.HostFaults.{IsHostFault};
ghost use Rattle.ptk_main_tools.specs.Statuses.{status_number};
ghost use Rattle.ptk_main_tools.specs.declared.status.ExitStatus.TheVariants.{Usage};

use crate::explaining::{end_explained, refused, tell_explained};
use ptk_config::Config;
use ptk_main_answers::{Files, Filter, decoded_answer, part_named, trace_answer};
use ptk_main_line::{MOST_TICKS, TraceOptions, undecoded};
use ptk_main_tools::{
    Fault, config_of, images_of, symbols_of, symbols_text_in, tell, tell_read, text_in, usage,
};
use ptk_words::{ThreadNo, Tick};
use std::io::Write;

/// Writes the last steps of a partition of the configuration in a file, and gives the number of the status. A usage
/// error if an option of a trace in words is there without `--decode`, and nothing is written then.
pub(crate) fn trace<W: Write>(rt: &HostRuntime, options: TraceOptions<'_>, out: &mut W) -> u8
    requires { IsTraceInRange options }
    ensures silent { result ≡ status_number Usage → out.new ≡ out.old }
{
    if options.wants_words() && !options.decode {
        return refuse_undecoded(rt);
    }
    let text = match text_in(rt, options.run.file) {
        Ok(text) => text,
        Err(fault) => return tell_read(rt, &fault, None, options.explain),
    };
    match config_of(rt, text.as_str()) {
        Ok(mut config) => {
            keep_last(&mut config, options);
            trace_config(rt, &config, options, out)
        }
        Err(fault) => refused(rt, text.as_str(), options.explain, &fault),
    }
}

// The status of a command line with an option of a trace in words and without `--decode`.
fn refuse_undecoded(rt: &HostRuntime) -> u8 {
    match undecoded(rt.alloc()) {
        Ok(error) => usage(rt, &error),
        Err(_) => tell(rt, &Fault::NoMemory),
    }
}

// Makes the trace of the partition keep as many steps as are asked for. All else stays, so it is the same run: the law
// `deeper_trace_is_same_run` of `ptk_impact`.
fn keep_last(config: &mut Config, options: TraceOptions<'_>)
    requires { AreSteps options.last }
{
    let place = part_named(config, options.partition);
    if let (Some(last), Some(p)) = (options.last, place) {
        config.keep_trace(p, last as u32);
    }
}

// Writes the last steps of a partition of a configuration, and gives the number of the status.
fn trace_config<W: Write>(
    rt: &HostRuntime,
    config: &Config,
    options: TraceOptions<'_>,
    out: &mut W,
) -> u8
    requires { IsTraceInRange options }
    ensures { result ≢ status_number Usage }
{
    let root = options.run.root;
    let files = match images_of(rt, config, root) {
        Ok(files) => files,
        Err(fault) => return tell_explained(rt, config, &fault, root, options.explain),
    };
    if options.decode {
        return decode(rt, config, &files, options, out);
    }
    let ticks = Tick::new(options.run.ticks);
    let outcome = trace_answer(rt.alloc(), config, &files, ticks, options.partition, out);
    end_explained(rt, config, outcome, root, options.explain, out)
}

// Writes the last steps of a partition in words, and gives the number of the status. If no step can begin at the
// first tick that is asked for or later, a line on standard error says so.
fn decode<W: Write>(
    rt: &HostRuntime,
    config: &Config,
    files: &Files,
    options: TraceOptions<'_>,
    out: &mut W,
) -> u8
    requires { IsTraceInRange options }
    ensures { result ≢ status_number Usage }
{
    let text = match symbols_text_in(rt, options.symbols) {
        Ok(text) => text,
        Err(fault) => return tell_read(rt, &fault, None, options.explain),
    };
    let outcome = put_words(rt, config, files, options, text.as_str(), out);
    let is_shown = outcome.is_ok();
    let root = options.run.root;
    let status = end_explained(rt, config, outcome, root, options.explain, out);
    if is_shown {
        tell_late(rt, options);
    }
    status
}

// Writes the last steps of a partition in words, with the symbols in this text.
fn put_words<'a, W: Write>(
    rt: &HostRuntime,
    config: &'a Config,
    files: &Files,
    options: TraceOptions<'a>,
    text: &str,
    out: &mut W,
) -> Result<(), Fault<'a>>
    requires { IsTraceInRange options }
    ensures silent { IfErr result (λ fault. ¬ IsHostFault fault → out.new ≡ out.old) }
{
    let symbols = symbols_of(rt, options.symbols, text)?;
    let ticks = Tick::new(options.run.ticks);
    let filter = filter_of(options);
    decoded_answer(
        rt.alloc(),
        config,
        files,
        ticks,
        options.partition,
        &symbols,
        &filter,
        out,
    )
}

// Says on standard error that no step began at the first tick that is asked for or later, if the run ends before.
fn tell_late(rt: &HostRuntime, options: TraceOptions<'_>) {
    let ticks = options.run.ticks;
    if let Some(from) = options.from
        && from >= ticks
    {
        let _told = writeln!(
            rt.stderr(),
            "ptk: no step from tick {from} on: the run ends at tick {ticks}"
        );
    }
}

// The steps that are shown: those of the thread that is asked for, calls alone on request, from the first tick that is
// asked for to the last, that one with it.
fn filter_of(options: TraceOptions<'_>) -> Filter
    requires { IsThread options.thread }
{
    let last = options.to.unwrap_or(MOST_TICKS);
    Filter {
        thread: thread_of(options.thread),
        is_calls_only: options.calls,
        from: Tick::new(options.from.unwrap_or(0)),
        to: Tick::new(last.saturating_add(1)),
    }
}

// The thread of a number.
fn thread_of(number: Option<u64>) -> Option<ThreadNo>
    requires { IsThread number }
{
    Some(ThreadNo::new(number? as u8))
}
