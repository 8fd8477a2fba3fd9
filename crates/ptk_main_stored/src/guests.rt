//! The guests in C and C++ and their reports.

use crate::{read_guest, tick_of};
use anyhow::{Context, Error, Result};
use ptk_main_guests::{BootFault, RunFault, run_with};

/// The guests, by the names of their files.
const GUESTS: [&str; 41] = [
    "abort",
    "arithmetic",
    "assertion",
    "atomics-own",
    "atomics-picolibc",
    "attributes",
    "beginning-own",
    "beginning-picolibc",
    "cancellation",
    "cleanup",
    "clocks",
    "conditions",
    "console",
    "cplusplus-own",
    "cplusplus-picolibc",
    "floats",
    "formats",
    "heap",
    "heap_threads-own",
    "heap_threads-picolibc",
    "interpreter",
    "jumps",
    "keys",
    "lines-own",
    "lines-picolibc",
    "locks",
    "mutexes",
    "no_mutexes-own",
    "no_mutexes-picolibc",
    "numbers",
    "protocols",
    "robust",
    "scheduling",
    "stack_needs-own",
    "stack_needs-picolibc",
    "streams",
    "strings",
    "text",
    "thread_local-own",
    "thread_local-picolibc",
    "threads",
];

/// Each guest ends before this tick.
const TICKS: u64 = 10_000_000;

/// Prints the reports of the guests. An error where a file can't be read, a configuration is refused, a system does not
/// boot, or the output fails.
pub(crate) fn print_reports(rt: &HostRuntime) -> Result<()> {
    for name in GUESTS.iter() {
        println!(rt; "guest {name}")?;
        print_report(rt, name, TICKS).context(name)?;
    }
    Ok(())
}

// Prints the report of a guest after this many ticks.
fn print_report(rt: &HostRuntime, name: &str, ticks: u64) -> Result<()> {
    let alloc = rt.alloc();
    let configuration = format!(in alloc; "guests/{name}.toml")?;
    let (config, files) = read_guest(rt, configuration.as_str(), Some("guests"))?;
    match run_with(alloc, &config, &files, tick_of(ticks), &mut rt.stdout()) {
        Ok(()) => Ok(()),
        Err(fault) => Err(Error::msg(reason(fault))),
    }
}

// Why a run gives no report, in words. With `?` in its place the checker does not find the type of a boot's fault.
fn reason(fault: RunFault) -> &'static str {
    match fault {
        RunFault::Boot(BootFault::Memory) => "out of memory",
        RunFault::Boot(BootFault::MissingFile(_)) => "an image's file is missing",
        RunFault::NoPartition => "no partition has the name",
        RunFault::Write => "the writer failed",
    }
}
