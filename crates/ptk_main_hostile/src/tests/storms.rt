//! Neighbours that storm. Each guest of p beside each storm of q, and beside q without an image: p's part of the report
//! and p's trace are the same at each cut. That this is so for every guest and every storm is proved of the system
//! (`two_worlds`, `idle_world`).

mod guests;
mod neighbours;
mod sources;

use guests::{DEADLINES, GUESTS, Guest};
use neighbours::{Besides, STORMS, Storm};
use ptk_main_guests::{
    Config, Files, LIBRARY, P, System, TIMES, booted, config_of, files_with, image_of, report_now,
    run_on_to, trace_now,
};
use std::alloc::{AllocError, Global};
use std::process::Abort;

/// A frame of 40 ticks, of which p has the first half and q the other.
const FRAME: &str =
    "frame = 40\nwindow = [{ start = 0, length = 20, partition = \"p\" }, { start = 20, length = 20, partition = \"q\" }]\n";

/// In the third frame q has the first half and p the other.
const SWAP: &str =
    "plan = [{ from = 2, window = [{ start = 0, length = 20, partition = \"q\" }, { start = 20, length = 20, partition = \"p\" }] }, { from = 3, window = [{ start = 0, length = 20, partition = \"p\" }, { start = 20, length = 20, partition = \"q\" }] }]\n";

/// The numbers of p. Its trace has all steps of the first cuts.
const P_NUMBERS: &str =
    "memory = 4096\nthreads = 4\nstack = 256\nmutexes = 4\nconds = 4\nkeys = 4\ninterval = 5\nring = 16\noutput = 64\ntrace = 1024\n";

/// The section of q with an image, and without.
const Q: &str = "[[partition]]\nname = \"q\"\nimage = \"q.img\"\n";

const IDLE_Q: &str = "[[partition]]\nname = \"q\"\n";

/// The numbers of q.
const Q_NUMBERS: &str =
    "memory = 16384\nthreads = 32\nstack = 256\nmutexes = 4\nconds = 4\nkeys = 4\ninterval = 3\nring = 1\noutput = 4\ntrace = 16\n";

/// The part of q without an image.
const IDLE_PART: &str = "partition q idle steps 0 lost 0\noutput 0\n\n";

/// The ticks at which both are compared. At the last one each guest of p that ends has ended.
const CUTS: [u64; 7] = [1, 20, 39, 40, 41, 400, 4000];

/// The sections of p and q in the configuration.
#[derive(Clone, Copy)]
enum World {
    /// The section of q is the last.
    QLast,
    /// The section of q is the first.
    QFirst,
    /// As `QLast`, with the windows swapped in one frame by a plan.
    Swapped,
}

/// What is shown at a cut.
#[derive(Drop)]
struct Shown {
    report: Vec<u8>,
    trace: Vec<u8>,
}

// The configuration of a world with this head of q's section and this input.
fn config_in(alloc: Global, world: World, q: &str, input: &str) -> Option<Config> {
    match world {
        World::QLast => config_of(alloc, &[FRAME, P, P_NUMBERS, q, Q_NUMBERS, input]),
        World::QFirst => config_of(alloc, &[FRAME, q, Q_NUMBERS, input, P, P_NUMBERS]),
        World::Swapped => config_of(alloc, &[FRAME, SWAP, P, P_NUMBERS, q, Q_NUMBERS, input]),
    }
}

// 256 bytes at each of the ticks 0 to 39.
fn flood(alloc: Global) -> Result<String, AllocError> {
    let bytes = "97, ".repeat(alloc, 256)?;
    let mut text = String::from_str(alloc, "input = [")?;
    for tick in 0..40u32 {
        let table = format!(in alloc; "{{ at = {tick}, bytes = [{bytes}] }}, ")?;
        text.push_str(table.as_str())?;
    }
    text.push_str("]\n")?;
    Ok(text)
}

// The input that a storm gives to q.
fn input_of(alloc: Global, besides: Besides) -> Option<String> {
    match besides {
        Besides::Input => flood(alloc).ok(),
        Besides::Nothing | Besides::Cut => Some(String::new(alloc)),
    }
}

// The image of a guest of p.
fn guest_image(alloc: Global, guest: &Guest) -> Option<Vec<u8>> {
    image_of(
        alloc,
        &[guest.source[0], guest.source[1], LIBRARY, TIMES, DEADLINES],
    )
}

// The image of a storm.
fn storm_image(alloc: Global, storm: &Storm) -> Option<Vec<u8>> {
    let mut image = image_of(alloc, &[storm.source, LIBRARY, DEADLINES])?;
    if storm.besides == Besides::Cut {
        let _last = image.pop();
    }
    Some(image)
}

// What is shown now, p's trace among it.
fn told_now(alloc: Global, world: World, system: &System<'_>) -> Option<Shown> {
    let place = match world {
        World::QLast | World::Swapped => 0,
        World::QFirst => 1,
    };
    Some(Shown {
        report: report_now(alloc, system)?,
        trace: trace_now(alloc, system, place)?,
    })
}

// What is shown at each cut of one run.
fn told(alloc: Global, world: World, config: &Config, files: &Files) -> Option<Vec<Shown>> {
    let mut system = booted(alloc, config, files)?;
    let mut all = Vec::new(alloc);
    for ticks in CUTS {
        run_on_to(&mut system, ticks);
        all.push(told_now(alloc, world, &system)?).ok()?;
    }
    Some(all)
}

// What is shown of p beside q without an image.
fn told_beside_nobody(alloc: Global, world: World, p: &[u8]) -> Option<Vec<Shown>> {
    let config = config_in(alloc, world, IDLE_Q, "")?;
    let files = files_with(alloc, p, &[]).ok()?;
    told(alloc, world, &config, &files)
}

// What is shown of p beside a storm.
fn told_beside(alloc: Global, world: World, p: &[u8], storm: &Storm) -> Option<Vec<Shown>> {
    let input = input_of(alloc, storm.besides)?;
    let config = config_in(alloc, world, Q, input.as_str())?;
    let q = storm_image(alloc, storm)?;
    let files = files_with(alloc, p, &q).ok()?;
    told(alloc, world, &config, &files)
}

// The part of p in a report in which q has no image.
fn part_of_p(world: World, report: &[u8]) -> Option<&[u8]> {
    match world {
        World::QLast | World::Swapped => report.strip_suffix(IDLE_PART.as_bytes()),
        World::QFirst => report.strip_prefix(IDLE_PART.as_bytes()),
    }
}

// The part of q in a report that has this part of p, None if it has not.
fn part_of_q<'a>(world: World, report: &'a [u8], part_of_p: &[u8]) -> Option<&'a [u8]> {
    match world {
        World::QLast | World::Swapped => report.strip_prefix(part_of_p),
        World::QFirst => report.strip_suffix(part_of_p),
    }
}

// Whether p's part of the report and p's trace are those that it has beside nobody.
fn is_alike(world: World, beside_nobody: &Shown, beside: &Shown) -> bool {
    match part_of_p(world, &beside_nobody.report) {
        Some(part) => {
            part_of_q(world, &beside.report, part).is_some()
                && beside_nobody.trace.as_slice() == beside.trace.as_slice()
        }
        None => false,
    }
}

// The first cut at which p is another.
fn first_moved(world: World, beside_nobody: &[Shown], beside: &[Shown]) -> Option<usize> {
    beside_nobody
        .iter()
        .zip(beside.iter())
        .position(|(a, b)| !is_alike(world, a, b))
}

// Whether q's part at the last cut is the storm's.
fn is_storm(world: World, storm: &Storm, beside_nobody: &[Shown], beside: &[Shown]) -> bool {
    match (beside_nobody.last(), beside.last()) {
        (Some(nobody), Some(last)) => match part_of_p(world, &nobody.report) {
            Some(part) => match part_of_q(world, &last.report, part) {
                Some(q) => {
                    q.starts_with(storm.begins.as_bytes()) && q.ends_with(storm.ends.as_bytes())
                }
                None => false,
            },
            None => false,
        },
        _ => false,
    }
}

// Whether p's part at the last cut is the guest's.
fn is_ended(world: World, guest: &Guest, beside_nobody: &[Shown]) -> bool {
    match beside_nobody.last() {
        Some(last) => match part_of_p(world, &last.report) {
            Some(part) => {
                part.starts_with(guest.begins.as_bytes()) && part.ends_with(guest.ends.as_bytes())
            }
            None => false,
        },
        None => false,
    }
}

// Asserts that the storm leaves p as it is beside nobody, and does what it is to do.
fn check_storm(
    rt: &impl Abort,
    alloc: Global,
    world: World,
    p: &[u8],
    storm: &Storm,
    beside_nobody: &[Shown],
) {
    let beside = told_beside(alloc, world, p, storm).unwrap_or(Vec::new(alloc));
    assert!(rt; beside.len() == CUTS.len(), "{}", storm.name);
    assert_eq!(rt;
        first_moved(world, beside_nobody, &beside),
        None,
        "{}",
        storm.name
    );
    assert!(rt;
        is_storm(world, storm, beside_nobody, &beside),
        "{}",
        storm.name
    );
}

// Asserts that each storm leaves the guest as it is beside nobody.
fn check_guest(rt: &impl Abort, alloc: Global, world: World, guest: &Guest) {
    let p = guest_image(alloc, guest).unwrap_or(Vec::new(alloc));
    let beside_nobody = told_beside_nobody(alloc, world, &p).unwrap_or(Vec::new(alloc));
    assert!(rt; beside_nobody.len() == CUTS.len(), "{}", guest.name);
    assert!(rt; is_ended(world, guest, &beside_nobody), "{}", guest.name);
    for storm in &STORMS {
        check_storm(rt, alloc, world, &p, storm, &beside_nobody);
    }
}

#[test]
fn storms_of_the_last_section_change_nothing(rt: HostRuntime) {
    for guest in &GUESTS {
        check_guest(&rt, rt.alloc(), World::QLast, guest);
    }
}

#[test]
fn storms_of_the_first_section_change_nothing(rt: HostRuntime) {
    for guest in &GUESTS {
        check_guest(&rt, rt.alloc(), World::QFirst, guest);
    }
}

#[test]
fn storms_beside_swapped_windows_change_nothing(rt: HostRuntime) {
    for guest in &GUESTS {
        check_guest(&rt, rt.alloc(), World::Swapped, guest);
    }
}
