//! What differs between two partitions.

ghost use Rattle.std.specs.Prelude.{◌≡◌, ◌&&◌, ◌↔◌, ℕ, IfSome, IsNone, is_none};
ghost use Rattle.ptk_impact.specs.Agreement.{Agree, IsFirstDifference};
ghost use Rattle.ptk_impact.specs.Changes.{AreChanges};
ghost use Rattle.ptk_impact.specs.Views.{IsPartition};

use crate::difference::Difference;
use crate::image::ImageChange;
use crate::input::InputChange;
use crate::limits::LimitChanges;
use crate::search::first_difference;
use crate::subject::Subject;

/// What differs between what boot sees of the old partition and of the new one.
#[derive(Clone, Copy)]
pub struct Changes {
    /// The least tick at which the windows differ, with both ends there. None if the own ticks and the ends of the
    /// windows are the same at all ticks.
    pub windows: Option<Difference>,
    /// The limits that differ.
    pub limits: LimitChanges,
    /// How the image differs, None if its bytes are the same.
    pub image: Option<ImageChange>,
    /// Where the input first differs, None if it is the same.
    pub input: Option<InputChange>,
}

impl Changes {
    /// What differs: each difference, and nothing else.
    pub(crate) fn between(old: &Subject<'_>, new: &Subject<'_>) -> Changes
        requires old { IsPartition old.now }
        requires new { IsPartition new.now }
        ensures { AreChanges old.now new.now result }
    {
        Changes {
            windows: windows_between(old, new),
            limits: LimitChanges::between(old.section().limits(), new.section().limits()),
            image: ImageChange::between(old.image(), new.image()),
            input: InputChange::between(old.section().input(), new.section().input()),
        }
    }

    /// Whether windows, image and input are the same.
    pub(crate) fn are_in_limits_alone(&self) -> bool
        ensures { result ≡ (is_none self.now.windows && is_none self.now.image && is_none self.now.input) }
    {
        self.windows.is_none() && self.image.is_none() && self.input.is_none()
    }
}

/// Where the windows first differ, None if they are the same at all ticks.
fn windows_between(old: &Subject<'_>, new: &Subject<'_>) -> Option<Difference>
    ensures same { IsNone result ↔ ((tick : ℕ) →
        Agree old.now.config.now.plan old.now.partition new.now.config.now.plan new.now.partition tick) }
    ensures first { IfSome result
        (IsFirstDifference old.now.config.now.plan old.now.partition new.now.config.now.plan new.now.partition) }
{
    let (old_config, new_config) = (old.config, new.config);
    first_difference(
        old_config.plan(),
        old.partition,
        new_config.plan(),
        new.partition,
    )
}
