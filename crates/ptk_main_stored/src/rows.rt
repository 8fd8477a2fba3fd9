//! The worked rows: guests, with what is seen of their runs, in the files of `data/rows`.

use crate::queues::Queue;
use crate::recordings::{Picture, check_picture};
use crate::seen::{Awaited, Byte, Priority, Register, check_all, check_steps, check_visited};
use crate::table_in;
use anyhow::{Context, Error, Result, ensure};
use ptk_main_guests::{
    Config, Files, System, booted, config_of, files_with, image_of, report_now, report_of,
    run_on_to, trace_now, trace_of,
};
use serde::Deserialize;
use std::alloc::Global;
use std::collections::BTreeMap;
use std::fmt;

/// The file with the configurations and guests that rows of several files use.
const COMMON: &str = "rows/common.toml";

/// The files of rows.
const FILES: [&str; 16] = [
    "runs",
    "plans",
    "machine",
    "kinds",
    "priorities",
    "deadlines",
    "conditions",
    "robust",
    "requests",
    "waits",
    "sleeps",
    "handlers",
    "keys",
    "inputs",
    "neighbours",
    "pictures",
];

/// Texts by their names.
type Texts = BTreeMap<String, String>;

/// What a file has.
#[derive(Drop, Deserialize)]
#[serde(deny_unknown_fields)]
struct Group {
    /// The texts of configurations.
    #[serde(default)]
    systems: Texts,
    /// The sources of guests, or of parts of guests.
    #[serde(default)]
    guests: Texts,
    #[serde(default)]
    row: Vec<Row>,
}

/// A guest, or two, and what is seen of the run.
#[derive(Drop, Deserialize)]
#[serde(deny_unknown_fields)]
struct Row {
    name: String,
    /// The configuration, by its name.
    system: String,
    /// The parts of the source of `p.img`, by their names.
    p: Vec<String>,
    /// Those of `q.img`; none if there is no such image.
    #[serde(default)]
    q: Vec<String>,
    /// What is seen on the way, in the order of ticks.
    #[serde(default)]
    stop: Vec<Stop>,
    /// What recordings of the run show.
    #[serde(default)]
    picture: Vec<Picture>,
}

/// What is seen at a tick. All but the report is of the first partition.
#[derive(Drop, Deserialize)]
#[serde(deny_unknown_fields)]
struct Stop {
    tick: u64,
    report: Option<String>,
    trace: Option<String>,
    /// The steps so far.
    steps: Option<u64>,
    /// How many stored priorities the last call on mutexes read as it raised some.
    visited: Option<u32>,
    #[serde(default)]
    priority: Vec<Priority>,
    #[serde(default)]
    register: Vec<Register>,
    #[serde(default)]
    awaits: Vec<Awaited>,
    #[serde(default)]
    byte: Vec<Byte>,
    #[serde(default)]
    queue: Vec<Queue>,
}

/// Prints a line for each row. An error if a file can't be read or the output fails.
pub(crate) fn print_rows(rt: &HostRuntime) -> Result<()> {
    let common: Group = table_in(rt, COMMON)?;
    for name in FILES.iter() {
        println!(rt; "rows of {name}")?;
        let file = format!(in rt.alloc(); "rows/{name}.toml")?;
        let group: Group = table_in(rt, file.as_str())?;
        print_group(rt, &group, &common)?;
    }
    Ok(())
}

// Prints a line for each row of a file.
fn print_group(rt: &HostRuntime, group: &Group, common: &Group) -> Result<()> {
    for row in group.row.iter() {
        match check_row(rt.alloc(), row, group, common) {
            Ok(()) => println!(rt; "{}: right", row.name)?,
            Err(difference) => println!(rt; "{}: {difference:#}", row.name)?,
        }
    }
    Ok(())
}

// An error, which says what differs, if not all that is seen of a row is as wanted.
fn check_row(alloc: Global, row: &Row, group: &Group, common: &Group) -> Result<()> {
    let system = text_of(row.system.as_str(), &group.systems, &common.systems)?;
    let config = config_of(alloc, &[system]).context("no configuration")?;
    let p = image_in(alloc, &row.p, group, common)?;
    let q = image_in(alloc, &row.q, group, common)?;
    let files = files_with(alloc, &p, &q)?;
    check_stops(alloc, &config, &files, &row.stop)?;
    check_pictures(alloc, &config, &files, &row.picture)
}

// The text of this name, of the file's own or of the common ones.
fn text_of<'a>(name: &str, own: &'a Texts, common: &'a Texts) -> Result<&'a str> {
    match own.get(name).or(common.get(name)) {
        Some(text) => Ok(text.as_str()),
        None => Err(Error::msg("a name without a text")),
    }
}

// The image of the guest whose source these parts make, no bytes if there are no parts.
fn image_in(alloc: Global, parts: &[String], group: &Group, common: &Group) -> Result<Vec<u8>> {
    let mut source = String::new(alloc);
    for name in parts.iter() {
        source.push_str(text_of(name.as_str(), &group.guests, &common.guests)?)?;
    }
    if parts.is_empty() {
        return Ok(Vec::new(alloc));
    }
    image_of(alloc, &[source.as_str()]).context("no image")
}

// A tick at which something differs.
#[derive(Drop)]
struct At(u64);

impl fmt::Display for At {
    fn fmt<W: fmt::Write>(&self, f: &mut fmt::Formatter<W>) -> fmt::Result {
        write!(f, "at tick {}", self.0)
    }
}

// An error if a run that goes on from stop to stop does not show there what is wanted.
fn check_stops(alloc: Global, config: &Config, files: &Files, stops: &[Stop]) -> Result<()> {
    let Some(mut system) = booted(alloc, config, files) else {
        return Err(Error::msg("no boot"));
    };
    for stop in stops.iter() {
        run_on_to(&mut system, stop.tick);
        check_stop(&system, stop).context(At(stop.tick))?;
        check_texts(alloc, config, files, &system, stop).context(At(stop.tick))?;
    }
    Ok(())
}

// An error if the first partition is not as wanted.
fn check_stop(system: &System<'_>, stop: &Stop) -> Result<()> {
    check_steps(system, stop.steps)?;
    check_visited(system, stop.visited)?;
    check_all(system, &stop.priority)?;
    check_all(system, &stop.register)?;
    check_all(system, &stop.awaits)?;
    check_all(system, &stop.byte)?;
    check_all(system, &stop.queue)
}

// An error if the report or the trace is not as wanted, of this run or of one that does not stop before.
fn check_texts(
    alloc: Global,
    config: &Config,
    files: &Files,
    system: &System<'_>,
    stop: &Stop,
) -> Result<()> {
    if let Some(report) = &stop.report {
        check_text(report_now(alloc, system), report).context("report")?;
        check_text(report_of(alloc, config, files, stop.tick), report).context("whole report")?;
    }
    if let Some(trace) = &stop.trace {
        check_text(trace_now(alloc, system, 0), trace).context("trace")?;
        check_text(trace_of(alloc, config, files, stop.tick), trace).context("whole trace")?;
    }
    Ok(())
}

// An error if there is no text, or another one.
fn check_text(got: Option<Vec<u8>>, want: &String) -> Result<()> {
    let got = got.context("none")?;
    ensure!(got.as_slice() == want.as_str().as_bytes(), "another text");
    Ok(())
}

// An error if a recording is not as wanted.
fn check_pictures(
    alloc: Global,
    config: &Config,
    files: &Files,
    pictures: &[Picture],
) -> Result<()> {
    for picture in pictures.iter() {
        check_picture(alloc, config, files, picture).context("recording")?;
    }
    Ok(())
}
