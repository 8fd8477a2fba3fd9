//! Guests and their runs.

ghost use Rattle.std.specs.Prelude.{◌≤◌};
ghost use Rattle.ptk_words.specs.declared.TheConstants.{LAST_TICK};

use ptk_asm::assemble;
use ptk_config::{Config, read_config};
use ptk_image::write_image;
use ptk_main_runs::{Files, run_with, trace_with};
use ptk_words::{LAST_TICK, Tick};
use std::alloc::{AllocError, Global};

/// The first lines of the section of partition p, whose image is `p.img`.
pub const P: &str = "[[partition]]\nname = \"p\"\nimage = \"p.img\"\n";

/// The numbers of a section in the worked rows, with a trace of 3 steps.
pub const NUMBERS: &str =
    "memory = 4096\nthreads = 4\nstack = 256\nmutexes = 4\nconds = 4\nkeys = 4\ninterval = 100\nring = 16\noutput = 64\ntrace = 3\n";

/// One partition that has the whole processor, in one window of a million ticks.
pub const ALONE: [&str; 4] = [
    "frame = 1000000\n",
    P,
    NUMBERS,
    "[[window]]\nstart = 0\nlength = 1000000\npartition = \"p\"\n",
];

/// What guests end with. `create` makes a thread that begins at a1, with argument a2 and priority a3; its number is
/// in a1 then. From its call on, by tick: 0 call, 1 and 2 la, 3 sw, 4 li, 5 ecall, 17 ret, 18 after the call. The
/// new thread is ready from 17 on. `letter` is a thread that puts its argument and ends: 0 li, 1 ecall, 5 ret, 6 and
/// 10 the return gate, 14 ended.
pub const LIBRARY: &str = "
create:
    la a0, attributes
    sw a3, 12(a0)
    li a7, 10           # pthread_create
    ecall
    ret
letter:
    li a7, 1            # console_put
    ecall
    ret
.data
attributes:
    .word 0             # joinable
    .word 1             # explicit
    .word 1             # SCHED_FIFO
    .word 0             # priority
    .word 0             # default stack
";

/// Timespecs, which come after a guest's other data: one long past, tick 100, tick 200, and one whose nanoseconds are
/// none.
pub const TIMES: &str = "
past:
    .word 0
    .word 0
    .word 0
hundred:
    .word 0
    .word 0
    .word 100000
two_hundred:
    .word 0
    .word 0
    .word 200000
bad:
    .word 0
    .word 0
    .word 1000000000
";

/// The configuration whose text these parts make, None if there is none.
pub fn config_of(alloc: Global, parts: &[&str]) -> Option<Config> {
    let text = parts.concat(alloc).ok()?;
    read_config(alloc, text.as_str()).ok()
}

/// The bytes of the image of the source that these parts make, None if there is none.
pub fn image_of(alloc: Global, source: &[&str]) -> Option<Vec<u8>> {
    let text = source.concat(alloc).ok()?;
    let image = assemble(alloc, text.as_str()).ok()?;
    write_image(alloc, &image).ok()
}

/// The files with these bytes as the image of p, and with these as that of q if there are some. An error if
/// memory ran out.
pub fn files_with(alloc: Global, p: &[u8], q: &[u8]) -> Result<Files, AllocError> {
    let mut files = Files::new(alloc);
    files.add("p.img", p)?;
    if !q.is_empty() {
        files.add("q.img", q)?;
    }
    Ok(files)
}

// The files with the image of a source, None if there are none.
fn files_of(alloc: Global, source: &[&str]) -> Option<Files> {
    files_with(alloc, &image_of(alloc, source)?, &[]).ok()
}

/// The configuration, and the files with the guest's image.
pub fn guest_of(alloc: Global, parts: &[&str], source: &[&str]) -> Option<(Config, Files)> {
    Some((config_of(alloc, parts)?, files_of(alloc, source)?))
}

/// The report after this many ticks, None if there is none.
pub fn report_of(alloc: Global, config: &Config, files: &Files, ticks: u64) -> Option<Vec<u8>> {
    let mut out = Vec::new(alloc);
    match run_with(alloc, config, files, tick_of(ticks), &mut out) {
        Ok(()) => Some(out),
        Err(_) => None,
    }
}

/// The trace of p after this many ticks, None if there is none.
pub fn trace_of(alloc: Global, config: &Config, files: &Files, ticks: u64) -> Option<Vec<u8>> {
    let mut out = Vec::new(alloc);
    match trace_with(alloc, config, files, tick_of(ticks), "p", &mut out) {
        Ok(()) => Some(out),
        Err(_) => None,
    }
}

// Whether there are bytes, and they are those of the text that is wanted.
fn is_text(got: Option<Vec<u8>>, want: &str) -> bool {
    match got {
        Some(got) => got.as_slice() == want.as_bytes(),
        None => false,
    }
}

/// Whether this is the guest's report after this many ticks.
pub fn is_report(alloc: Global, parts: &[&str], source: &[&str], ticks: u64, want: &str) -> bool {
    match guest_of(alloc, parts, source) {
        Some((config, files)) => is_text(report_of(alloc, &config, &files, ticks), want),
        None => false,
    }
}

/// The tick of a number, at most the last one.
pub(crate) fn tick_of(ticks: u64) -> Tick
    ensures { result ≤ LAST_TICK }
{
    Tick::new(ticks.min(LAST_TICK))
}
