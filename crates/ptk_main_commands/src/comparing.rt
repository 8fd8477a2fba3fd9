//! `impact`: what a new configuration can change.

ghost use Rattle.std.specs.Prelude.{◌≢◌};
ghost use Rattle.ptk_main_tools.specs.Statuses.{status_number};
ghost use Rattle.ptk_main_tools.specs.declared.status.ExitStatus.TheVariants.{Usage};

use ptk_config::Config;
use ptk_impact_answers::{
    Question, Release, Source, Tally, image_for_both, impact_json_with, impact_with,
    put_image_for_both,
};
use ptk_main_line::{Format, ImpactOptions};
use ptk_main_tools::{ExitStatus, Fault, config_in, flushed, images_of, tell};
use std::alloc::Global;
use std::io::Write;

/// Writes how the configurations in two files differ, and gives the number of the status.
pub(crate) fn impact<W: Write>(rt: &HostRuntime, options: ImpactOptions<'_>, out: &mut W) -> u8
    ensures { result ≢ status_number Usage }
{
    let old = match config_in(rt, options.old) {
        Ok(config) => config,
        Err(fault) => return tell(rt, &fault),
    };
    let new = match config_in(rt, options.new) {
        Ok(config) => config,
        Err(fault) => return tell(rt, &fault),
    };
    let outcome = put_impact(rt, &old, &new, options, out);
    match flushed(outcome, out) {
        Ok(tally) => {
            tell_image_for_both(rt, &old, &new, options);
            status_of(tally).number()
        }
        Err(fault) => tell(rt, &fault),
    }
}

// The status of a comparison: done if each partition makes the same run.
fn status_of(tally: Tally) -> ExitStatus
    ensures { result ≢ Usage }
{
    if tally.is_same_run() {
        ExitStatus::Done
    } else {
        ExitStatus::Different
    }
}

// Says on standard error if one image's file was read for both configurations, although they lie in two folders. If
// that can't be written, nothing is said.
fn tell_image_for_both(rt: &HostRuntime, old: &Config, new: &Config, options: ImpactOptions<'_>) {
    let before = Source {
        config: old,
        file: options.old,
        root: options.old_root.or(options.root),
    };
    let after = Source {
        config: new,
        file: options.new,
        root: options.root,
    };
    if let Some(name) = image_for_both(&before, &after) {
        let _told = put_image_for_both(name, &mut rt.stderr());
    }
}

// Writes how two configurations differ, with the images of each.
fn put_impact<'a, W: Write>(
    rt: &HostRuntime,
    old: &'a Config,
    new: &'a Config,
    options: ImpactOptions<'a>,
    out: &mut W,
) -> Result<Tally, Fault<'a>> {
    let old_files = images_of(rt, old, options.old_root.or(options.root))?;
    let new_files = images_of(rt, new, options.root)?;
    let before = Release {
        config: old,
        files: &old_files,
    };
    let after = Release {
        config: new,
        files: &new_files,
    };
    compare(rt.alloc(), before, after, options, out)
}

// Writes how two configurations with their images differ, in the form that is asked for.
fn compare<'a, W: Write>(
    alloc: Global,
    before: Release<'a, '_>,
    after: Release<'a, '_>,
    options: ImpactOptions<'a>,
    out: &mut W,
) -> Result<Tally, Fault<'a>> {
    let question = Question {
        partition: options.partition,
        rename: options.rename,
    };
    match options.format {
        Format::Text => impact_with(alloc, before, after, question, out),
        Format::Json => impact_json_with(alloc, before, after, question, out),
    }
}
