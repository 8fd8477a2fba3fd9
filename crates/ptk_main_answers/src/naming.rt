//! The program's faults for those of the layers below, with the names that a configuration gives.

ghost use Rattle.std.specs.Prelude.{◌≡◌};
ghost use Rattle.ptk_main_tools.specs.Told.{told};
ghost use Rattle.ptk_main_answers.specs.Images.{image_name, part_name};
ghost use Rattle.ptk_main_answers.specs.Refusals.{boot_fault, run_fault};

use ptk_config::Config;
use ptk_main_runs::{BootFault, RunFault};
use ptk_main_tools::Fault;
use ptk_words::PartId;

/// The name of a partition's image, empty if it has none.
pub(crate) fn image_name(config: &Config, p: PartId) -> &str
    ensures { result.now ≡ image_name config.now p }
{
    match config.sections().get(p.index()) {
        Some(section) => section.image().unwrap_or(""),
        None => "",
    }
}

/// The name of a partition, empty if there is none of this number.
pub(crate) fn part_name(config: &Config, p: PartId) -> &str
    ensures { result.now ≡ part_name config.now p }
{
    match config.sections().get(p.index()) {
        Some(section) => section.name(),
        None => "",
    }
}

/// The program's fault for a boot's.
pub fn boot_fault(config: &Config, fault: BootFault) -> Fault<'_>
    ensures told { told result ≡ boot_fault config.now fault }
    ensures memory { fault ≡ BootFault.Memory → result ≡ Fault.NoMemory }
{
    match fault {
        BootFault::Memory => Fault::NoMemory,
        BootFault::MissingFile(p) => Fault::MissingFile(image_name(config, p)),
    }
}

/// The program's fault for a run's, if the partition of this name was asked for.
pub fn run_fault<'a>(config: &'a Config, name: &'a str, fault: RunFault) -> Fault<'a>
    ensures told { told result ≡ run_fault config.now name.now fault }
    ensures memory { fault ≡ RunFault.Boot BootFault.Memory → result ≡ Fault.NoMemory }
    ensures write { fault ≡ RunFault.Write → result ≡ Fault.WriteFailed }
{
    match fault {
        RunFault::Boot(fault) => boot_fault(config, fault),
        RunFault::NoPartition => Fault::NoPartition(name),
        RunFault::Write => Fault::WriteFailed,
    }
}
