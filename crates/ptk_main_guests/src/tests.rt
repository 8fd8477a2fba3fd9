//! Whole runs with their reports and traces, worked out by hand. Memory is ample here, so a body that returns out of
//! memory fails too. A helper that promises nothing is between each run and the calls that it tests, so the check
//! computes no run.

ghost use Rattle.std.specs.Prelude.{◌<◌, length};

mod ends;
mod greatest;

use crate::{
    Config, Files, P, RunFault, System, booted, config_of, files_with, guest_of, image_of,
    is_report, report_of, run_on_to, run_with, sources, trace_with,
};
use ptk_words::{PartId, ThreadNo, Tick};
use std::alloc::{AllocError, Global};
use std::io::Write;
use std::process::Abort;

const FRAME_20: &str = "frame = 20\n";

const FRAME_40: &str = "frame = 40\n";

const Q: &str = "[[partition]]\nname = \"q\"\nimage = \"q.img\"\n";

const BARE_Q: &str = "[[partition]]\nname = \"q\"\n";

const NUMBERS: &str =
    "memory = 4096\nthreads = 4\nstack = 256\nmutexes = 4\nconds = 4\nkeys = 4\ninterval = 100\nring = 16\noutput = 64\ntrace = 16\n";

const RING_2: &str =
    "memory = 4096\nthreads = 4\nstack = 256\nmutexes = 4\nconds = 4\nkeys = 4\ninterval = 100\nring = 2\noutput = 64\ntrace = 16\n";

const TRACE_2: &str =
    "memory = 4096\nthreads = 4\nstack = 256\nmutexes = 4\nconds = 4\nkeys = 4\ninterval = 100\nring = 16\noutput = 64\ntrace = 2\n";

const ONE_THREAD: &str =
    "memory = 4096\nthreads = 1\nstack = 256\nmutexes = 4\nconds = 4\nkeys = 4\ninterval = 100\nring = 16\noutput = 64\ntrace = 16\n";

const MANY_THREADS: &str =
    "memory = 16384\nthreads = 32\nstack = 256\nmutexes = 4\nconds = 4\nkeys = 4\ninterval = 100\nring = 16\noutput = 4\ntrace = 16\n";

const BYTES_AT_30: &str = "input = [{ at = 30, bytes = [97, 98, 99] }]\n";

const BYTE_AT_19: &str = "input = [{ at = 19, bytes = [97] }]\n";

const FIRST_20: &str = "[[window]]\nstart = 0\nlength = 20\npartition = \"p\"\n";

const SECOND_20: &str = "[[window]]\nstart = 20\nlength = 20\npartition = \"q\"\n";

const ALONE: [&str; 4] = [FRAME_20, P, NUMBERS, FIRST_20];

const TWO: [&str; 7] = [FRAME_40, P, NUMBERS, Q, NUMBERS, FIRST_20, SECOND_20];

const SHORT: [&str; 4] = [FRAME_20, P, TRACE_2, FIRST_20];

const ONE_BYTE: [&str; 8] = [
    FRAME_40, P, NUMBERS, BYTE_AT_19, BARE_Q, NUMBERS, FIRST_20, SECOND_20,
];

const FULL_RING: [&str; 8] = [
    FRAME_40,
    P,
    RING_2,
    BYTES_AT_30,
    BARE_Q,
    NUMBERS,
    FIRST_20,
    SECOND_20,
];

const BESIDE_QUIET: [&str; 7] = [FRAME_40, Q, ONE_THREAD, P, NUMBERS, FIRST_20, SECOND_20];

const BESIDE_STORM: [&str; 7] = [FRAME_40, Q, MANY_THREADS, P, NUMBERS, FIRST_20, SECOND_20];

const HELLO_REPORT: &str = "partition p exit 0 steps 9 lost 0\noutput 2\nhi\n";

// The configuration, and the files with the images of p and q.
fn pair_of(alloc: Global, parts: &[&str], p: &str, q: &str) -> Option<(Config, Files)> {
    let config = config_of(alloc, parts)?;
    let p = image_of(alloc, &[p])?;
    let q = image_of(alloc, &[q])?;
    let files = files_with(alloc, &p, &q).ok()?;
    Some((config, files))
}

// The image of a source without its last byte.
fn image_cut_short(alloc: Global, source: &str) -> Option<Vec<u8>> {
    let mut image = image_of(alloc, &[source])?;
    let _last = image.pop();
    Some(image)
}

// What `run_with` returns for this many ticks.
fn run_on<W: Write>(
    alloc: Global,
    config: &Config,
    files: &Files,
    ticks: u32,
    out: &mut W,
) -> Result<(), RunFault> {
    run_with(alloc, config, files, Tick::new(u64::from(ticks)), out)
}

// What `trace_with` returns for this many ticks.
fn trace_on<W: Write>(
    alloc: Global,
    config: &Config,
    files: &Files,
    ticks: u32,
    name: &str,
    out: &mut W,
) -> Result<(), RunFault> {
    trace_with(alloc, config, files, Tick::new(u64::from(ticks)), name, out)
}

// The trace of p after this many ticks, with these guests of p and q.
fn trace_beside(alloc: Global, parts: &[&str], p: &str, q: &str, ticks: u32) -> Option<Vec<u8>> {
    let (config, files) = pair_of(alloc, parts, p, q)?;
    let mut out = Vec::new(alloc);
    match trace_on(alloc, &config, &files, ticks, "p", &mut out) {
        Ok(()) => Some(out),
        Err(_) => None,
    }
}

// Whether the bytes are those that are wanted.
fn is_text(got: &[u8], want: &[u8]) -> bool {
    got == want
}

// Whether there are bytes, and they are those of the text that is wanted.
fn is_some_text(got: Option<Vec<u8>>, want: &str) -> bool {
    match got {
        Some(got) => is_text(&got, want.as_bytes()),
        None => false,
    }
}

// The first partition.
fn first(system: &System<'_>) -> PartId
    ensures { result < length system.now.config.sections }
{
    let _parts = system.parts();
    PartId::new(0)
}

// How many partitions there are.
fn parts_of(system: &System<'_>) -> usize {
    system.parts()
}

// The steps of the first partition.
fn first_steps(system: &System<'_>) -> u64 {
    system.steps(first(system))
}

// The input bytes that the first partition lost.
fn first_dropped(system: &System<'_>) -> u64 {
    system.dropped(first(system))
}

// Whether a register of the first partition's main holds this.
fn has_register(system: &System<'_>, i: u32, want: u32) -> bool {
    system.register(first(system), ThreadNo::new(1), i) == Some(want)
}

// The pc of the first partition's main.
fn first_pc(system: &System<'_>) -> Option<u32> {
    system.pc(first(system), ThreadNo::new(1))
}

// The byte at an address of the first partition.
fn first_byte(system: &System<'_>, address: u32) -> Option<u8> {
    system.byte(first(system), address)
}

// Whether this is the output of the first partition.
fn is_first_output(system: &System<'_>, want: &str) -> bool {
    is_text(system.output(first(system)), want.as_bytes())
}

#[test]
fn an_image_is_its_words(rt: HostRuntime) {
    let want =
        b"PTKI\x01\0\0\0\0\0\0\0\x24\0\0\0\0\0\0\0\0\0\0\0\x93\x08\x10\x00\x13\x05\x80\x06\x73\0\0\0\x93\x08\x10\x00\x13\x05\x90\x06\x73\0\0\0\x93\x08\0\0\x13\x05\0\0\x73\0\0\0";
    // Row hello.
    match image_of(rt.alloc(), &[sources::HELLO]) {
        Some(bytes) => assert!(rt; is_text(&bytes, want.as_slice())),
        None => assert!(rt; false, "no image"),
    }
}

// A section with room for 8192 bytes of output, alone in a frame that its run does not end.
const LONG_OUTPUT: [&str; 4] = [
    "frame = 100000\n",
    P,
    "memory = 4096\nthreads = 4\nstack = 256\nmutexes = 4\nconds = 4\nkeys = 4\ninterval = 100\nring = 16\noutput = 8192\ntrace = 16\n",
    "[[window]]\nstart = 0\nlength = 100000\npartition = \"p\"\n",
];

// The report of the guest that puts 8192 bytes: its steps are 2, 4 for each byte, and 2.
fn long_report(alloc: Global) -> Result<String, AllocError> {
    let mut text = String::from_str(
        alloc,
        "partition p exit 0 steps 32772 lost 0\noutput 8192\n",
    )?;
    for _ in 0..8192u32 {
        text.push_str("x")?;
    }
    text.push_str("\n")?;
    Ok(text)
}

// Whether the guest that puts 8192 bytes has its report once it has exited, at tick 57351.
fn is_long_report(alloc: Global) -> bool {
    match long_report(alloc) {
        Ok(want) => is_report(
            alloc,
            &LONG_OUTPUT,
            &[sources::PUTS_8192],
            60_000,
            want.as_str(),
        ),
        Err(_) => false,
    }
}

#[test]
fn a_long_output_is_reported_whole(rt: HostRuntime) {
    assert!(rt; is_long_report(rt.alloc()));
}

// Asserts what main's a1 is before and after the byte comes at tick 19, where main stands then, and bytes of its
// memory.
fn check_byte_at_19(rt: &impl Abort, system: &mut System<'_>) {
    run_on_to(system, 19);
    assert!(rt; has_register(system, 11, 0));
    run_on_to(system, 20);
    // Row input-ring.
    assert!(rt; has_register(system, 11, 97));
    assert!(rt; first_pc(system) == Some(12));
    assert!(rt; first_byte(system, 0) == Some(0x93));
    assert!(rt; first_byte(system, 4096).is_none());
}

#[test]
fn a_byte_comes_into_a1(rt: HostRuntime) {
    let alloc = rt.alloc();
    match guest_of(alloc, &ONE_BYTE, &[sources::GET_ONE]) {
        Some((config, files)) => match booted(alloc, &config, &files) {
            Some(mut system) => check_byte_at_19(&rt, &mut system),
            None => assert!(rt; false, "no boot"),
        },
        None => assert!(rt; false, "no memory"),
    }
}

// The partitions of the system, and of the first the input bytes that were lost and the steps.
fn counts_at(
    alloc: Global,
    config: &Config,
    files: &Files,
    ticks: u64,
) -> Option<(usize, u64, u64)> {
    let mut system = booted(alloc, config, files)?;
    run_on_to(&mut system, ticks);
    Some((
        parts_of(&system),
        first_dropped(&system),
        first_steps(&system),
    ))
}

#[test]
fn input_is_lost_where_the_ring_is_full(rt: HostRuntime) {
    let alloc = rt.alloc();
    match guest_of(alloc, &FULL_RING, &[sources::SPIN]) {
        Some((config, files)) => {
            // Row input-ring.
            assert!(rt; counts_at(alloc, &config, &files, 41) == Some((2, 1, 21)));
        }
        None => assert!(rt; false, "no memory"),
    }
}

#[test]
fn a_neighbour_that_exhausts_changes_nothing(rt: HostRuntime) {
    let alloc = rt.alloc();
    let p = sources::PUTS_THE_NUMBER;
    let beside_quiet = trace_beside(alloc, &BESIDE_QUIET, p, sources::QUIET, 1500);
    let beside_storm = trace_beside(alloc, &BESIDE_STORM, p, sources::STORM, 1500);
    assert!(rt; are_alike(beside_quiet, beside_storm));
}

// Whether both have bytes, some, and the same.
fn are_alike(a: Option<Vec<u8>>, b: Option<Vec<u8>>) -> bool {
    match (a, b) {
        (Some(a), Some(b)) => !a.is_empty() && is_text(&a, &b),
        _ => false,
    }
}

// The report of two guests after 40 ticks, if the image of q lacks its last byte.
fn report_cut_short(alloc: Global) -> Option<Vec<u8>> {
    let (config, mut files) = guest_of(alloc, &TWO, &[sources::HELLO])?;
    let q = image_cut_short(alloc, sources::HELLO)?;
    if q.len() != 59 {
        return None;
    }
    files.add("q.img", &q).ok()?;
    report_of(alloc, &config, &files, 40)
}

#[test]
fn a_refused_image_halts_its_partition_alone(rt: HostRuntime) {
    // Row refused-neighbour-image.
    assert!(rt;
        is_some_text(
            report_cut_short(rt.alloc()),
            "partition p exit 0 steps 9 lost 0\noutput 2\nhi\npartition q refused image 4 steps 0 lost 0\noutput 0\n\n"
        )
    );
}

const SHORT_TRACE: &str =
    "13 1 0x0000001c 0x00000513 0x00000000\n14 1 0x00000020 0x00000073 0x00000000\n";

const FULL_TRACE: &str =
    "0 1 0x00000000 0x00100893 0x00000000\n1 1 0x00000004 0x06800513 0x00000068\n2 1 0x00000008 0x00000073 0x00000000\n6 1 0x0000000c 0x00100893 0x00000000\n7 1 0x00000010 0x06900513 0x00000069\n8 1 0x00000014 0x00000073 0x00000000\n12 1 0x00000018 0x00000893 0x00000000\n13 1 0x0000001c 0x00000513 0x00000000\n14 1 0x00000020 0x00000073 0x00000000\n";
