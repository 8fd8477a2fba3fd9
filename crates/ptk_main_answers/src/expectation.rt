//! Whether a run is as it is expected to be.

ghost use Rattle.std.specs.Prelude.{◌≡◌, ◌<◌, IfSome, length};
ghost use Rattle.ptk_main_tools.specs.Statuses.{status_of};
ghost use Rattle.ptk_main_tools.specs.declared.status.ExitStatus.TheVariants.{Unexpected};

use crate::deadlock::has_deadlock;
use ptk_main_line::{FAILURE_KINDS, FailOn, FailureKind};
use ptk_main_runs::{PartStatus, System};
use ptk_main_tools::Fault;
use ptk_words::PartId;

/// The status with which a partition ends that did what it should.
const SUCCESS: u8 = 0;

/// The first byte at which a report is not the expected one, as a fault with its line and both bytes. None if both
/// are the same.
pub fn difference(report: &[u8], expected: &[u8]) -> Option<Fault<'static>>
    ensures { IfSome result (λ fault. status_of fault ≡ Unexpected) }
{
    let offset = first_other(report, expected)?;
    let (got, wanted) = (report.get(offset).copied(), expected.get(offset).copied());
    let before = &report[..offset.min(report.len())];
    let ends = before.iter().filter(|byte| **byte == b'\n').count();
    Some(Fault::Differs(offset as u64, ends as u64 + 1, got, wanted))
}

/// The first offset at which the bytes differ, one of which may end there. None if they are the same.
fn first_other(report: &[u8], expected: &[u8]) -> Option<usize> {
    (0..report.len().max(expected.len())).find(|at| report.get(*at) != expected.get(*at))
}

/// The first partition, in their order, that is of a kind to fail on, with the kind. None if none is. `Late` and `Stack`
/// are kinds of what happened on the way, which a system at its last tick does not show.
pub(crate) fn first_failure(system: &System<'_>, fail_on: FailOn) -> Option<(PartId, FailureKind)> {
    for i in 0..system.parts() {
        let p = PartId::new(i as u8);
        for kind in FAILURE_KINDS {
            if fail_on.has(kind) && is_of_kind(system, p, kind) {
                return Some((p, kind));
            }
        }
    }
    None
}

/// Whether a partition is of a kind to fail on.
fn is_of_kind(system: &System<'_>, p: PartId, kind: FailureKind) -> bool
    requires { p < length system.now.config.sections }
{
    let status = system.status(p);
    match kind {
        FailureKind::Fault => matches!(status, PartStatus::Stopped(..)),
        FailureKind::Refused => matches!(status, PartStatus::Refused(_)),
        FailureKind::Idle => matches!(status, PartStatus::Idle),
        FailureKind::Exit => is_failed_exit(status),
        FailureKind::Running => has_image(system, p) && !status.is_halted(),
        FailureKind::LostInput => system.dropped(p) > 0,
        FailureKind::FullOutput => is_output_full(system, p),
        FailureKind::Deadlock => has_deadlock(system, p),
        FailureKind::Late | FailureKind::Stack => false,
    }
}

/// Whether a status is that of a partition that ended otherwise than it should.
fn is_failed_exit(status: PartStatus) -> bool {
    match status {
        PartStatus::Exited(code) => code != SUCCESS,
        PartStatus::Idle | PartStatus::Running | PartStatus::Stopped(..) | PartStatus::Refused(_) =>
            false,
    }
}

/// Whether a partition's section names an image. Without one it is idle for good.
pub(crate) fn has_image(system: &System<'_>, p: PartId) -> bool {
    match system.config().sections().get(p.index()) {
        Some(section) => section.image().is_some(),
        None => false,
    }
}

/// Whether a partition has written as many bytes of output as its section lets it.
fn is_output_full(system: &System<'_>, p: PartId) -> bool
    requires { p < length system.now.config.sections }
{
    let count = system.output(p).len();
    count > 0 && count >= system.limits(p).output as usize
}
