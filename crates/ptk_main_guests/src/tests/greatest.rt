//! A system at the greatest limits, past 2^20 ticks, worked out by hand. A body that returns out of memory, or a
//! writer's error, only for many sections or windows, large pools or a long run meets every contract but this row.
//!
//! Frame 1000000, 64 windows: window k begins at 15625 * k and is of section k modulo 8. Those of `spin` are 1000 ticks
//! long, those of `late` and `bare`, which are idle at each of their ticks, 16; the others go up to the next window.
//! After 2^21 ticks, two frames and 97152 ticks:
//! - `spin` jumps to itself: a step at each of its ticks, 8 windows of 1000 in each of two frames and one window in the
//!   third, whose second begins at 125000; its last 1024 steps are traced;
//! - `hello`, `join` and `quiet` exit in their first windows, as they do alone in a frame of 100;
//! - `late` waits from 31255 for a byte that comes at 2^20: its first tick from there on is 1156250, where it reads the
//!   byte and goes on to exit: 2 steps before and 2 after;
//! - `cut` has an image without its last byte, `bare` has none, and that of `empty` has no text.

use super::{image_cut_short, is_some_text, is_text, trace_on};
use crate::{Config, Files, config_of, image_of, report_of, sources};
use std::alloc::{AllocError, Global};

// The numbers of a section but for its stack.
const GREATEST: &str =
    "memory = 1048576\nthreads = 32\nmutexes = 64\nconds = 32\nkeys = 32\ninterval = 1000000\nring = 256\noutput = 65536\ntrace = 1024\n";

// The greatest stack that leaves room for an image with text: 1048576 - 32 * 32752 is 512.
const ROOM: &str = "stack = 32752\n";

// The greatest stack of 32 threads in the memory.
const NO_ROOM: &str = "stack = 32768\n";

// 2^21.
const TICKS: u32 = 2_097_152;

const BYTE_AT_2_20: &str = "input = [{ at = 1048576, bytes = [97] }]\n";

// The sections: each with its head, and what stands beside the numbers that all of them have.
const SECTIONS: [(&str, &str, &str); 8] = [
    (
        "[[partition]]\nname = \"spin\"\nimage = \"spin.img\"\n",
        ROOM,
        "",
    ),
    (
        "[[partition]]\nname = \"hello\"\nimage = \"hello.img\"\n",
        ROOM,
        "",
    ),
    (
        "[[partition]]\nname = \"late\"\nimage = \"late.img\"\n",
        ROOM,
        BYTE_AT_2_20,
    ),
    (
        "[[partition]]\nname = \"cut\"\nimage = \"cut.img\"\n",
        ROOM,
        "",
    ),
    ("[[partition]]\nname = \"bare\"\n", NO_ROOM, ""),
    (
        "[[partition]]\nname = \"empty\"\nimage = \"empty.img\"\n",
        NO_ROOM,
        "",
    ),
    (
        "[[partition]]\nname = \"join\"\nimage = \"join.img\"\n",
        ROOM,
        "",
    ),
    (
        "[[partition]]\nname = \"quiet\"\nimage = \"quiet.img\"\n",
        ROOM,
        "",
    ),
];

// The section of each window of eight, and the window's length.
const WINDOWS: [(&str, u32); 8] = [
    ("spin", 1000),
    ("hello", 15625),
    ("late", 16),
    ("cut", 15625),
    ("bare", 16),
    ("empty", 15625),
    ("join", 15625),
    ("quiet", 15625),
];

// Puts a section with its numbers.
fn push_section(text: &mut String, head: &str, stack: &str, input: &str) -> Result<(), AllocError> {
    text.push_str(head)?;
    text.push_str(GREATEST)?;
    text.push_str(stack)?;
    text.push_str(input)
}

// Puts a window.
fn push_window(
    alloc: Global,
    text: &mut String,
    start: u32,
    name: &str,
    length: u32,
) -> Result<(), AllocError> {
    let window = format!(in alloc;
        "[[window]]\nstart = {start}\nlength = {length}\npartition = \"{name}\"\n"
    )?;
    text.push_str(window.as_str())
}

// Puts every part of the configuration, one after the other.
fn push_parts(alloc: Global, text: &mut String) -> Result<(), AllocError> {
    text.push_str("frame = 1000000\n")?;
    for (head, stack, input) in SECTIONS.iter() {
        push_section(text, head, stack, input)?;
    }
    for k in 0..64u32 {
        let windows = &WINDOWS;
        let (name, length) = windows[(k % 8) as usize];
        push_window(alloc, text, 15625 * k, name, length)?;
    }
    Ok(())
}

// The configuration.
fn config_at_limits(alloc: Global) -> Option<Config> {
    let mut text = String::new(alloc);
    match push_parts(alloc, &mut text) {
        Ok(()) => config_of(alloc, &[text.as_str()]),
        Err(_) => None,
    }
}

// The images, but for that of `cut`.
const IMAGES: [(&str, &str); 6] = [
    ("spin.img", sources::SPIN),
    ("hello.img", sources::HELLO),
    ("late.img", sources::GET_ONE),
    ("empty.img", sources::EMPTY),
    ("join.img", sources::CREATE_JOIN),
    ("quiet.img", sources::QUIET),
];

// Adds an image, if there is one, and says whether it is there.
fn has_added(files: &mut Files, name: &str, image: Option<Vec<u8>>) -> bool {
    match image {
        Some(image) => files.add(name, &image).is_ok(),
        None => false,
    }
}

// Adds all images, and says whether they are there.
fn have_added(alloc: Global, files: &mut Files) -> bool {
    for (name, source) in IMAGES.iter() {
        if !has_added(files, name, image_of(alloc, &[*source])) {
            return false;
        }
    }
    has_added(files, "cut.img", image_cut_short(alloc, sources::HELLO))
}

// Adds the trace lines of `spin` at these ticks.
fn add_steps(alloc: Global, text: &mut String, from: u32, to: u32) -> Result<(), AllocError> {
    for tick in from..to {
        let line = format!(in alloc; "{tick} 1 0x00000000 0x0000006f 0x00000000\n")?;
        text.push_str(line.as_str())?;
    }
    Ok(())
}

// The last 1024 steps of `spin`: 24 at the end of its window from 1875000 on, and the 1000 of that from 2000000 on.
fn last_steps(alloc: Global) -> Result<String, AllocError> {
    let mut text = String::new(alloc);
    add_steps(alloc, &mut text, 1_875_976, 1_876_000)?;
    add_steps(alloc, &mut text, 2_000_000, 2_001_000)?;
    Ok(text)
}

// Whether these are the last steps of `spin`.
fn are_last_steps(alloc: Global, trace: &[u8]) -> bool {
    match last_steps(alloc) {
        Ok(want) => is_text(trace, want.as_bytes()),
        Err(_) => false,
    }
}

// Whether the trace of `spin` has these steps.
fn is_traced(alloc: Global, config: &Config, files: &Files) -> bool {
    let mut out = Vec::new(alloc);
    match trace_on(alloc, config, files, TICKS, "spin", &mut out) {
        Ok(()) => are_last_steps(alloc, &out),
        Err(_) => false,
    }
}

const GREATEST_REPORT: &str =
    "partition spin running steps 17000 lost 0\noutput 0\n\npartition hello exit 0 steps 9 lost 0\noutput 2\nhi\npartition late exit 0 steps 4 lost 0\noutput 0\n\npartition cut refused image 4 steps 0 lost 0\noutput 0\n\npartition bare idle steps 0 lost 0\noutput 0\n\npartition empty fault illegal pc 0x00000000 steps 1 lost 0\noutput 0\n\npartition join exit 7 steps 16 lost 0\noutput 0\n\npartition quiet exit 0 steps 3 lost 0\noutput 0\n\n";

// Whether the run has its report and its trace.
fn is_run(alloc: Global, config: &Config, files: &Files) -> bool {
    let report = report_of(alloc, config, files, u64::from(TICKS));
    is_some_text(report, GREATEST_REPORT) && is_traced(alloc, config, files)
}

#[test]
fn the_greatest_system_is_run(rt: HostRuntime) {
    let alloc = rt.alloc();
    let mut files = Files::new(alloc);
    assert!(rt; have_added(alloc, &mut files), "no image");
    match config_at_limits(alloc) {
        Some(config) => assert!(rt; is_run(alloc, &config, &files)),
        None => assert!(rt; false, "no configuration"),
    }
}
