//! The four pictures.

ghost use Rattle.std.specs.Prelude.{◌≤◌};
ghost use Rattle.ptk_words.specs.declared.TheConstants.{LAST_TICK};

use crate::{read_guest, tick_of};
use anyhow::{Context, Error, Result};
use ptk_main_guests::{Config, Files, System};
use ptk_timeline::{Names, Starts, Symbols, picture_with};
use ptk_words::Tick;

/// Prints the pictures. An error where a file can't be read, a configuration is refused, a system does not boot, or the
/// output fails.
pub(crate) fn print_pictures(rt: &HostRuntime) -> Result<()> {
    print_picture(rt, "examples/inversion/inversion.toml", 0, 1000)?;
    print_picture(rt, "examples/modes/modes.toml", 0, 800)?;
    print_picture(rt, "owners/two-stages.toml", 20, 290)?;
    print_picture(rt, "owners/alone.toml", 0, 2001)
}

// Prints the name of a configuration and the picture of its run, from a tick on and before another.
fn print_picture(rt: &HostRuntime, name: &str, from: u64, to: u64) -> Result<()> {
    println!(rt; "{name}")?;
    let (config, files) = read_guest(rt, name, None)?;
    draw(rt, &config, &files, name, tick_of(from), tick_of(to)).context("no picture")
}

// Prints the picture of the run of a configuration that is in a file of this name.
fn draw(
    rt: &HostRuntime,
    config: &Config,
    files: &Files,
    name: &str,
    from: Tick,
    to: Tick,
) -> Result<()>
    requires { to ≤ LAST_TICK }
{
    let Some(mut system) = System::boot(rt.alloc(), config, files).ok() else {
        return Err(Error::msg("the system does not boot"));
    };
    let (starts, symbols) = (Starts::none(rt.alloc()), Symbols::new(rt.alloc()));
    let names = Names {
        starts: &starts,
        symbols: &symbols,
    };
    let out = &mut rt.stdout();
    picture_with(rt.alloc(), config, &mut system, &names, name, from, to, out)?;
    Ok(())
}
