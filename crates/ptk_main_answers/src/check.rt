//! Whether a configuration and the images that it names are in order.

ghost use Rattle.std.specs.Prelude.{◌≡◌, ◌≢◌, None, Some, IfErr, IfSome, MatchResult, option_map};
ghost use Rattle.std.specs.Option.{option_or};
ghost use Rattle.ptk_main_runs.specs.World.{section_at};
ghost use Rattle.ptk_main_tools.specs.Told.{told};
ghost use Rattle.ptk_main_answers.specs.Images.{first_refused, image_refusal, refusal_in};
ghost use Rattle.ptk_main_answers.specs.Refusals.{IsFaultOf, missing_image, refused_image};

use crate::naming::{boot_fault, image_name};
use ptk_config::Config;
use ptk_main_runs::{Files, PartStatus, System};
use ptk_main_tools::{Fault, put_bytes};
use ptk_words::{ImageFault, PartId};
use std::alloc::Global;
use std::io::Write;

/// Writes `ok` and a newline if every image that the configuration names is there, is sound and fits its partition.
/// A boot refuses each that does not. A missing file comes before any other fault of an image. At a fault the writer is
/// as it was, unless it failed itself.
pub fn check_with<'a, W: Write>(
    alloc: Global,
    config: &'a Config,
    files: &Files,
    out: &mut W,
) -> Result<(), Fault<'a>>
    ensures refused { let refusal = option_or (missing_image config.now files.now) (refused_image config.now files.now) in
        MatchResult result (λ _. refusal ≡ None) (IsFaultOf (missing_image config.now files.now) refusal) }
    ensures silent { IfErr result (λ fault. fault ≢ Fault.WriteFailed → out.new ≡ out.old) }
{
    match System::boot(alloc, config, files) {
        Ok(system) => match refused_image(config, &system) {
            Some(fault) => Err(fault),
            None => put_bytes(b"ok\n", out),
        },
        Err(fault) => Err(boot_fault(config, fault)),
    }
}

/// The fault of the first partition whose image is refused, of a system at tick 0.
fn refused_image<'a>(config: &'a Config, system: &System<'_>) -> Option<Fault<'a>>
    requires same { system.now.config ≡ config.now }
    requires start { system.now.tick ≡ 0 }
    ensures { option_map told result ≡ refused_image config.now system.now.files }
{
    let (p, fault) = first_refused(system)?;
    Some(Fault::of_image(image_name(config, p), fault))
}

/// The first partition whose image is refused, with its fault, of a system at tick 0.
fn first_refused(system: &System<'_>) -> Option<(PartId, ImageFault)>
    requires { system.now.tick ≡ 0 }
    ensures place { option_map (λ r. r.0) result ≡ first_refused system.now.files system.now.config.sections }
    ensures fault { IfSome result (λ r. image_refusal system.now.files (section_at system.now.config r.0) ≡ Some r.1) }
{
    system.states_are_alone();
    for i in 0..system.parts() {
        let p = PartId::new(i as u8);
        if let Some(fault) = refusal_in(system.status(p)) {
            return Some((p, fault));
        }
    }
    None
}

/// The fault of an image by the status of its partition, if it was refused.
fn refusal_in(status: PartStatus) -> Option<ImageFault>
    ensures { result ≡ refusal_in status }
{
    match status {
        PartStatus::Refused(fault) => Some(fault),
        PartStatus::Idle | PartStatus::Running | PartStatus::Exited(_) | PartStatus::Stopped(..) =>
            None,
    }
}
