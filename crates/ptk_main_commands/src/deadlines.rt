//! The deadlines of responses that a command line names.

ghost use Rattle.std.specs.Prelude.{◌<◌, ◌≤◌};
ghost use Rattle.ptk_main_line.specs.declared.line.TheConstants.{MOST_THREADS};

use ptk_config::Config;
use ptk_main_answers::part_named;
use ptk_main_line::NamedDeadline;
use ptk_main_tools::Fault;
use ptk_statistics::Deadline;
use ptk_words::ThreadNo;
use std::alloc::Global;

/// The deadlines that a text names, with commas between them, of partitions of a configuration. A fault if no partition
/// has one of the names, or memory ran out.
pub(crate) fn deadlines_of<'a>(
    alloc: Global,
    config: &Config,
    text: Option<&'a str>,
) -> Result<Vec<Deadline>, Fault<'a>> {
    let mut deadlines = Vec::new(alloc);
    let Some(text) = text else {
        return Ok(deadlines);
    };
    for word in text.split(',') {
        if let Some(named) = NamedDeadline::read(word) {
            let deadline = deadline_of(config, &named)?;
            if deadlines.push(deadline).is_err() {
                return Err(Fault::NoMemory);
            }
        }
    }
    Ok(deadlines)
}

// A deadline of a partition of a configuration. A fault if no partition has the name.
fn deadline_of<'a>(config: &Config, named: &NamedDeadline<'a>) -> Result<Deadline, Fault<'a>>
    requires least { 0 < named.now.thread }
    requires most { named.now.thread ≤ MOST_THREADS }
{
    match part_named(config, named.partition) {
        Some(partition) => Ok(Deadline {
            partition,
            thread: ThreadNo::new(named.thread),
            ticks: named.ticks,
        }),
        None => Err(Fault::NoPartition(named.partition)),
    }
}
