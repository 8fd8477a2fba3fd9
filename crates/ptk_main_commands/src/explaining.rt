//! What the program says of a refusal on request.

ghost use Rattle.std.specs.Prelude.{◌≢◌};
ghost use Rattle.ptk_main_tools.specs.Statuses.{status_number};
ghost use Rattle.ptk_main_tools.specs.declared.status.ExitStatus.TheVariants.{Usage};

use ptk_config::Config;
use ptk_main_answers::{Files, explain_with};
use ptk_main_tools::{ExitStatus, Fault, flushed, tell, tell_read};
use std::alloc::{AllocError, Global};
use std::io::Write;

/// The status of a refused configuration, whose line goes to standard error, and after it on request where and why.
/// Out of memory says nothing of the text, and comes alone.
pub(crate) fn refused(rt: &HostRuntime, text: &str, explain: bool, fault: &Fault<'_>) -> u8
    ensures { result ≢ status_number Usage }
{
    let status = tell(rt, fault);
    if explain && *fault != Fault::NoMemory {
        let files = Files::new(rt.alloc());
        let _told = explain_with(rt.alloc(), text, &files, &mut rt.stderr());
    }
    status
}

/// The status of an outcome over a configuration, after the writer has passed on what it holds. The line of a fault
/// goes to standard error, and after it on request the path of a file that can't be read with the system's reason, or
/// the names of the partitions that there are. An image is below the folder `root`, if one is given.
pub(crate) fn end_explained<W: Write>(
    rt: &HostRuntime,
    config: &Config,
    outcome: Result<(), Fault<'_>>,
    root: Option<&str>,
    explain: bool,
    out: &mut W,
) -> u8
    ensures { result ≢ status_number Usage }
{
    match flushed(outcome, out) {
        Ok(()) => ExitStatus::Done.number(),
        Err(fault) => tell_explained(rt, config, &fault, root, explain),
    }
}

/// The status of a fault over a configuration, as of `end_explained`.
pub(crate) fn tell_explained(
    rt: &HostRuntime,
    config: &Config,
    fault: &Fault<'_>,
    root: Option<&str>,
    explain: bool,
) -> u8
    ensures { result ≢ status_number Usage }
{
    let status = tell_read(rt, fault, root, explain);
    if explain && matches!(*fault, Fault::NoPartition(_)) {
        put_names(rt, config);
    }
    status
}

// Says on standard error which partitions there are; nothing if memory for it runs out.
fn put_names(rt: &HostRuntime, config: &Config) {
    if let Ok(names) = names_in(rt.alloc(), config) {
        let _told = writeln!(rt.stderr(), "the partitions are: {names}");
    }
}

// The names of the partitions, with commas between them.
fn names_in(alloc: Global, config: &Config) -> Result<String, AllocError> {
    let mut names = String::new(alloc);
    for section in config.sections() {
        if !names.is_empty() {
            names.push_str(", ")?;
        }
        names.push_str(section.name())?;
    }
    Ok(names)
}
