//! Runs, written.

ghost use Rattle.std.specs.Prelude.{◌≡◌, ◌≢◌, ◌<◌, ◌≤◌, None, IfErr, MatchResult, OnOk};
ghost use Rattle.ptk_words.specs.declared.TheConstants.{LAST_TICK};
ghost use Rattle.ptk_system.specs.Missing.{first_missing};
ghost use Rattle.ptk_timeline_formats.specs.declared.fault.FormatFault.TheVariants.{FromPastEnd};
ghost use Rattle.ptk_timeline_formats.specs.Faults.{missing_in_format};

use crate::dump::Dump;
use crate::fault::{FormatFault, PutFault};
use crate::sheet::{Form, Sheet};
use ptk_config::Config;
use ptk_disasm::Symbols;
use ptk_tracepoints::{Files, System, Tracer};
use ptk_words::Tick;
use std::alloc::Global;
use std::io::Write;

/// Boots the system of a configuration, runs it to a tick of at most 2^40, and writes its ticks from `from` on in a
/// format. A thread that starts in these ticks has the name of the symbol that begins at its first pc, if one does; a
/// Value Change Dump has no names.
///
/// `FormatFault::FromPastEnd` comes if `from` is not before `ticks`, and before the boot; `FormatFault::Boot` if the
/// system does not boot. Nothing is written before either. Any other fault is one of memory or of the writer, which may
/// have got a part.
pub fn dump_with<W: Write>(
    alloc: Global,
    config: &Config,
    files: &Files,
    symbols: &Symbols<'_>,
    from: Tick,
    ticks: Tick,
    form: Form,
    out: &mut W,
) -> Result<(), FormatFault>
    requires { ticks ≤ LAST_TICK }
    ensures order { OnOk result (from < ticks) }
    ensures past { IfErr result (λ fault. fault ≡ FromPastEnd → ticks ≤ from) }
    ensures first { ticks ≤ from → IfErr result (λ fault. fault ≡ FromPastEnd) }
    ensures missing { MatchResult result
        (λ _. first_missing files.now config.now.sections ≡ None)
        (λ fault. fault ≢ FromPastEnd → first_missing files.now config.now.sections ≡ missing_in_format fault) }
    ensures silent { IfErr result (λ fault.
        fault ≢ FormatFault.Write → fault ≢ FormatFault.Memory → out.new ≡ out.old) }
{
    if ticks.ticks() <= from.ticks() {
        return Err(FormatFault::FromPastEnd);
    }
    let mut system = match System::boot(alloc, config, files) {
        Ok(system) => system,
        Err(fault) => return Err(FormatFault::Boot(fault)),
    };
    let sheet = Sheet {
        form,
        alloc,
        symbols,
        config,
        from: from.ticks(),
        to: ticks.ticks(),
        at: from.ticks(),
        is_begun: false,
    };
    match put_run(alloc, &mut system, sheet, out) {
        Ok(()) => Ok(()),
        Err(PutFault::Memory) => Err(FormatFault::Memory),
        Err(PutFault::Write) => Err(FormatFault::Write),
    }
}

/// Runs a system from its boot to a sheet's last tick, and writes what it shows from the sheet's first tick on. What it
/// shows before that is seen too, from one tick before it on.
fn put_run<W: Write>(
    alloc: Global,
    system: &mut System<'_>,
    sheet: Sheet<'_, '_>,
    out: &mut W,
) -> Result<(), PutFault>
    requires from { sheet.from ≤ LAST_TICK }
    requires to { sheet.to ≤ LAST_TICK }
    requires booted { system.old.tick ≡ 0 }
{
    let before = Tick::new(sheet.from.saturating_sub(1));
    let to = Tick::new(sheet.to);
    let mut tracer = Tracer::at(alloc, system, before)?;
    let mut dump = Dump::new(alloc, system, &tracer, sheet, out)?;
    tracer.run(system, to, &mut dump)?;
    dump.put_end()
}
