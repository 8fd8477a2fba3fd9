#![tactic(auto)]

//! A program that runs what is stored and prints what it sees, for the gate to compare with `stdout`.
//!
//! - `data/rows` has the worked rows: configurations, guests in assembly, and what is seen of their runs, worked out by
//!   hand from the formats, the calls and their costs. A line says of each row `right`, or what differs.
//! - `data/refusals` has configurations that are refused: their faults, and what is said of them.
//! - `data/guests` has for each guest of `guest/tests` its configuration, `NAME.toml`, and its image, `NAME.img`, so that
//!   no compiler is needed. Each report is printed.
//! - The rest of `data/` has the configurations and images of the pictures, which are printed; a person has looked at
//!   them: two of `examples/`, under the same paths, of which the first picture is `docs/inversion.svg`; and a guest with
//!   two owners of a mutex, in a plan of two stages with lost ticks and lost input, and in columns of many ticks.
//!
//! A row has no code of its own: a test that needs some is in `ptk_main_guests`. Below are besides what the tests of runs
//! share (`ptk_main_guests`) the recordings and the drawing (`ptk_timeline`), the reasons of refusals
//! (`ptk_config_explain`), the slot table (`ptk_threads`), along whose links some rows go, and the reading of files
//! (`ptk_main_tools`); nothing is above.

ghost use Rattle.std.specs.Prelude.{◌≤◌};
ghost use Rattle.ptk_words.specs.declared.TheConstants.{LAST_TICK};

mod guests;
mod pictures;
mod queues;
mod recordings;
mod refusals;
mod rows;
mod seen;

use anyhow::{Error, Result};
use ptk_main_guests::{Config, Files};
use ptk_main_tools::{config_in, images_of, text_in};
use ptk_words::{LAST_TICK, Tick};
use serde::DeserializeOwned;

fn main(rt: HostRuntime) -> Result<()> {
    rows::print_rows(&rt)?;
    refusals::print_refusals(&rt)?;
    guests::print_reports(&rt)?;
    pictures::print_pictures(&rt)
}

// The table in the file of this name. An error if the file can't be read or has another shape.
fn table_in<T: DeserializeOwned>(rt: &HostRuntime, name: &str) -> Result<T> {
    let text = text_in(rt, name).map_err(|fault| Error::msg(fault))?;
    toml::from_str(rt.alloc(), text.as_str()).map_err(|fault| Error::msg(fault))
}

// The configuration in the file of this name, and the images that its sections name, which are in the folder `root`,
// where one is given, under the names that the sections have for them. An error where a file can't be read or the
// configuration is refused.
fn read_guest(rt: &HostRuntime, name: &str, root: Option<&str>) -> Result<(Config, Files)> {
    let config = config_in(rt, name).map_err(|fault| Error::msg(fault))?;
    let files = images_of(rt, &config, root).map_err(|fault| Error::msg(fault))?;
    Ok((config, files))
}

// The tick of a number, at most the last one.
fn tick_of(ticks: u64) -> Tick
    ensures { result ≤ LAST_TICK }
{
    Tick::new(ticks.min(LAST_TICK))
}
