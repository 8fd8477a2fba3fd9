//! What each partition of an accepted configuration has.

ghost use Rattle.std.specs.Prelude.{◌≡◌, ◌<◌, IfErr, length};

use crate::images::{Outcome, put_image};
use crate::refusal::ExplainFault;
use crate::share::{Share, ticks_of};
use ptk_config::{Config, Section};
use ptk_words::{Limits, PartId};
use ptk_words_model::Window;
use std::io::Write;

/// Writes of each partition of a configuration its numbers, the verdict on its image, and its windows, stage by stage.
/// An error if the writer fails.
pub(crate) fn put_table<W: Write>(
    config: &Config,
    outcomes: &[Outcome],
    out: &mut W,
) -> Result<(), ExplainFault>
    requires { length outcomes.now ≡ length config.now.sections }
    ensures { IfErr result (λ fault. fault ≡ ExplainFault.Write) }
{
    let frame = config.frame();
    writeln!(out, "frame {frame} ticks")?;
    for (number, section) in config.sections().iter().enumerate() {
        put_section(section, outcomes[number], out)?;
        put_stages(config, PartId::new(number as u8), out)?;
    }
    Ok(())
}

/// Writes the name of a section, its numbers and its image.
fn put_section<W: Write>(
    section: &Section,
    outcome: Outcome,
    out: &mut W,
) -> Result<(), ExplainFault>
    ensures { IfErr result (λ fault. fault ≡ ExplainFault.Write) }
{
    let name = section.name();
    writeln!(out, "partition {name}")?;
    put_limits(&section.limits(), out)?;
    write!(out, "  ")?;
    put_image(section, outcome, out)
}

/// Writes a partition's numbers.
fn put_limits<W: Write>(limits: &Limits, out: &mut W) -> Result<(), ExplainFault>
    ensures { IfErr result (λ fault. fault ≡ ExplainFault.Write) }
{
    let (memory, threads, stack) = (limits.memory, limits.threads, limits.stack);
    write!(out, "  memory {memory}, threads {threads}, stack {stack}")?;
    let (mutexes, conditions, keys) = (limits.mutexes, limits.conditions, limits.keys);
    write!(out, ", mutexes {mutexes}, conds {conditions}, keys {keys}")?;
    let (interval, ring) = (limits.interval, limits.ring);
    let (output, trace) = (limits.output, limits.trace);
    writeln!(
        out,
        ", interval {interval}, ring {ring}, output {output}, trace {trace}"
    )?;
    Ok(())
}

/// Writes what a partition has of the frames, a line for each stage of the plan.
fn put_stages<W: Write>(config: &Config, partition: PartId, out: &mut W) -> Result<(), ExplainFault>
    ensures { IfErr result (λ fault. fault ≡ ExplainFault.Write) }
{
    let (plan, frame) = (config.plan(), config.frame());
    for stage in 0..plan.stages() {
        let begin = plan.begin_of(stage);
        let from = begin.ticks() / u64::from(frame);
        write!(out, "  from frame {from}: ")?;
        put_share(plan.windows_at(begin), frame, partition, out)?;
    }
    Ok(())
}

/// Writes a partition's part of a frame of this many ticks, and its windows by tick.
fn put_share<W: Write>(
    windows: &[Window],
    frame: u32,
    partition: PartId,
    out: &mut W,
) -> Result<(), ExplainFault>
    requires { 0 < frame }
    ensures { IfErr result (λ fault. fault ≡ ExplainFault.Write) }
{
    let ticks = ticks_of(windows, partition);
    if ticks == 0 {
        writeln!(out, "no window")?;
        return Ok(());
    }
    let share = Share::new(ticks, frame);
    write!(out, "{share} percent of the frame")?;
    put_windows(windows, partition, out)?;
    writeln!(out)?;
    Ok(())
}

/// Writes which of these windows are a partition's, by their first ticks.
fn put_windows<W: Write>(
    windows: &[Window],
    partition: PartId,
    out: &mut W,
) -> Result<(), ExplainFault>
    ensures { IfErr result (λ fault. fault ≡ ExplainFault.Write) }
{
    let mut separator = ": ";
    let mut from = 0;
    for _window in windows {
        let Some((start, length)) = first_from(windows, partition, from) else {
            break;
        };
        write!(out, "{separator}{length} ticks at {start}")?;
        separator = ", ";
        from = start.saturating_add(1);
    }
    Ok(())
}

/// The first tick and the length of a partition's first window that does not start before this tick.
fn first_from(windows: &[Window], partition: PartId, from: u32) -> Option<(u32, u32)> {
    let mut first: Option<(u32, u32)> = None;
    for window in windows {
        let is_earlier = first.is_none_or(|(start, _)| window.start < start);
        if window.partition == partition && from <= window.start && is_earlier {
            first = Some((window.start, window.length));
        }
    }
    first
}
