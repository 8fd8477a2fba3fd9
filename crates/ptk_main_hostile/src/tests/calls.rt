//! Each call number with each of the arguments that a hostile guest would try first, 9216 runs. `rt try --test`, which
//! runs them with checks and slowly, wants `--seconds 600`.

use ptk_main_guests::{Config, P, config_of, files_with, image_of, report_of};
use std::alloc::{AllocError, Global};
use std::process::Abort;

/// 0, 1, 2^31, 2^32 - 1, and pointers at each edge of a memory of 4096 bytes.
const ARGUMENTS: [u32; 12] = [
    0,
    1,
    0x8000_0000,
    0xffff_ffff,
    2,
    4076,
    4080,
    4084,
    4088,
    4092,
    4096,
    0xffff_fffc,
];

/// A number and its arguments are read from the last words of the image, again and again.
const CALLER: &str = "
again:
    la s0, words        # 0
    lw a7, 0(s0)        # 2
    lw a0, 4(s0)
    lw a1, 8(s0)
    lw a2, 12(s0)
    lw a3, 16(s0)
    lw a4, 20(s0)       # 7
    ecall               # 8
    j again
.data
words:
    .space 24
";

/// Puts `h` without end: 1 tick, 4 and 1.
const NEIGHBOUR: &str = "
    li a7, 1            # console_put
again:
    li a0, 104
    ecall
    j again
";

/// The part of q after 400 ticks, ten windows of 20. In the first one main makes 11 steps, the last of them before a
/// call that begins with the next window. In each of the others it makes that call, a jump, two rounds and a step, and
/// 2 ticks are lost.
const NEIGHBOURS_PART: &str =
    "partition q running steps 92 lost 18\noutput 30\nhhhhhhhhhhhhhhhhhhhhhhhhhhhhhh\n";

/// The report if the number is no call. A round takes 11 ticks, of which the call has 2; in the first and in the
/// sixth window it does not fit.
const NO_CALL: &str =
    "partition p running steps 180 lost 2\noutput 0\n\npartition q running steps 92 lost 18\noutput 30\nhhhhhhhhhhhhhhhhhhhhhhhhhhhhhh\n";

/// p has the first 20 ticks of 40, q the others.
const HALVES: [&str; 5] = [
    "frame = 40\nwindow = [{ start = 0, length = 20, partition = \"p\" }, { start = 20, length = 20, partition = \"q\" }]\n",
    P,
    NUMBERS,
    "[[partition]]\nname = \"q\"\nimage = \"q.img\"\n",
    NUMBERS,
];

const NUMBERS: &str =
    "memory = 4096\nthreads = 4\nstack = 256\nmutexes = 4\nconds = 4\nkeys = 4\ninterval = 100\nring = 16\noutput = 64\ntrace = 0\n";

// What a test needs: the configuration, and the images of the caller, without its words, and of its neighbour.
#[derive(Drop)]
struct World {
    config: Config,
    caller: Vec<u8>,
    neighbour: Vec<u8>,
}

// The world, None if memory ran out.
fn world_of_calls(alloc: Global) -> Option<World> {
    let mut caller = image_of(alloc, &[CALLER])?;
    let length = caller.len().saturating_sub(24);
    caller.truncate(length);
    Some(World {
        config: config_of(alloc, &HALVES)?,
        caller,
        neighbour: image_of(alloc, &[NEIGHBOUR])?,
    })
}

// The image of the caller with these words.
fn caller_with(alloc: Global, caller: &[u8], words: &[u32]) -> Result<Vec<u8>, AllocError> {
    let mut image = Vec::from_slice(alloc, caller)?;
    for word in words {
        image.extend_from_slice(&word.to_le_bytes())?;
    }
    Ok(image)
}

// The report after 400 ticks if p makes the call with these words, a number and five arguments.
fn report_with(alloc: Global, world: &World, words: &[u32]) -> Option<Vec<u8>> {
    let image = caller_with(alloc, &world.caller, words).ok()?;
    let files = files_with(alloc, &image, &world.neighbour).ok()?;
    report_of(alloc, &world.config, &files, 400)
}

// Whether formats know no call of the number.
fn is_no_call(number: u32) -> bool {
    match number {
        0..=4 | 10..=18 | 20..=26 | 30..=35 | 40..=45 | 50..=53 => false,
        _ => true,
    }
}

// Whether a report has q's part as it is alone, and p answered, blocked or halted.
fn is_harmless(report: &[u8]) -> bool {
    report.ends_with(NEIGHBOURS_PART.as_bytes())
        && (report.starts_with(b"partition p running ")
            || report.starts_with(b"partition p idle ")
            || report.starts_with(b"partition p exit ")
            || report.starts_with(b"partition p fault "))
}

// Whether the call with the one argument in a0 and a3, and the other in a1, a2 and a4, does no harm; if the number
// is no call, it does nothing at all.
fn is_answered(alloc: Global, world: &World, number: u32, one: u32, other: u32) -> bool {
    match report_with(alloc, world, &[number, one, other, other, one, other]) {
        Some(report) if is_no_call(number) => report.as_slice() == NO_CALL.as_bytes(),
        Some(report) => is_harmless(&report),
        None => false,
    }
}

// The first of the arguments that does harm beside this one.
fn first_other(alloc: Global, world: &World, number: u32, one: u32) -> Option<&'static u32> {
    ARGUMENTS
        .iter()
        .find(|other| !is_answered(alloc, world, number, one, **other))
}

// The first of the arguments that does harm.
fn first_harm(alloc: Global, world: &World, number: u32) -> Option<&'static u32> {
    ARGUMENTS
        .iter()
        .find(|one| first_other(alloc, world, number, **one).is_some())
}

// Asserts that no call number from one to before the other does harm, whatever its arguments are.
fn check_numbers(rt: &impl Abort, alloc: Global, from: u32, to: u32) {
    match world_of_calls(alloc) {
        Some(world) => {
            for number in from..to {
                assert_eq!(rt; first_harm(alloc, &world, number), None, "call {number}");
            }
        }
        None => assert!(rt; false, "no memory"),
    }
}

#[test]
fn calls_below_32_answer_block_or_halt(rt: HostRuntime) {
    check_numbers(&rt, rt.alloc(), 0, 32);
}

#[test]
fn calls_from_32_on_answer_block_or_halt(rt: HostRuntime) {
    check_numbers(&rt, rt.alloc(), 32, 64);
}
