//! What is written of accepted and of refused texts, worked out by hand.

use crate::config_places::replaced;
use ptk_config_explain::{ExplainFault, explain};
use ptk_image::Files;
use std::alloc::{AllocError, Global};

const TEXT: &str =
    "frame = 48\n[[partition]]\nname = \"p\"\nimage = \"p.img\"\nmemory = 4096\nthreads = 4\nstack = 256\nmutexes = 3\nconds = 2\nkeys = 1\ninterval = 100\nring = 16\noutput = 64\ntrace = 5\n[[partition]]\nname = \"q\"\nmemory = 8192\nthreads = 1\nstack = 512\nmutexes = 0\nconds = 0\nkeys = 0\ninterval = 7\nring = 1\noutput = 0\ntrace = 0\n[[window]]\nstart = 0\nlength = 16\npartition = \"p\"\n[[window]]\nstart = 16\nlength = 16\npartition = \"q\"\n[[plan]]\nfrom = 3\n[[plan.window]]\nstart = 20\nlength = 28\npartition = \"p\"\n[[plan.window]]\nstart = 0\nlength = 16\npartition = \"p\"\n";

// Text of 4 bytes, data of 2, and 8 zeros after them; its first pc is 0.
const IMAGE: &[u8] = b"PTKI\x01\0\0\0\0\0\0\0\x04\0\0\0\x02\0\0\0\x08\0\0\0\x73\0\0\0\x01\x02";

// An image of 3072 bytes with its zeros, which are those below p's stacks.
const WHOLE: &[u8] = b"PTKI\x01\0\0\0\0\0\0\0\x04\0\0\0\0\0\0\0\xfc\x0b\0\0\x73\0\0\0";

// An image with one zero more.
const LARGE: &[u8] = b"PTKI\x01\0\0\0\0\0\0\0\x04\0\0\0\0\0\0\0\xfd\x0b\0\0\x73\0\0\0";

// An image of 8196 bytes with its zeros, more than lie below q's stacks.
const HUGE: &[u8] = b"PTKI\x01\0\0\0\0\0\0\0\x04\0\0\0\0\0\0\0\0\x20\0\0\x73\0\0\0";

// Bytes that are no image: too few, and with other first bytes.
const SHORT: &[u8] = b"PTKI";

const OTHER: &[u8] = b"ELF!\x01\0\0\0\0\0\0\0\0\0\0\0\0\0\0\0\0\0\0\0";

const NUMBERS: &str =
    "frame 48 ticks\npartition p\n  memory 4096, threads 4, stack 256, mutexes 3, conds 2, keys 1, interval 100, ring 16, output 64, trace 5\n";

// What shows that q has no image, and what stands in its place if it has one.
const BARE_Q: &str = "\"q\"\nmemory";

const IMAGE_OF_Q: &str = "\"q\"\nimage = \"q.img\"\nmemory";

// What comes after the line of p's image.
const REST: &str =
    "  from frame 0: 33.3 percent of the frame: 16 ticks at 0\n  from frame 3: 91.6 percent of the frame: 16 ticks at 0, 28 ticks at 20\npartition q\n  memory 8192, threads 1, stack 512, mutexes 0, conds 0, keys 0, interval 7, ring 1, output 0, trace 0\n  no image; 7680 bytes free below the stacks\n  from frame 0: 33.3 percent of the frame: 16 ticks at 16\n  from frame 3: no window\n";

// The files p.img and q.img, of these bytes if there are any.
fn files_of(
    alloc: Global,
    first: Option<&[u8]>,
    second: Option<&[u8]>,
) -> Result<Files, AllocError> {
    let mut files = Files::new(alloc);
    if let Some(bytes) = first {
        files.add("p.img", bytes)?;
    }
    if let Some(bytes) = second {
        files.add("q.img", bytes)?;
    }
    Ok(files)
}

// Whether the text is accepted with these files, or refused, and this is written.
fn is_written(alloc: Global, text: &str, files: &Files, is_refused: bool, want: &str) -> bool {
    let mut out = Vec::new(alloc);
    match explain(alloc, text, files, &mut out) {
        Ok(refusal) => refusal.is_some() == is_refused && out.as_slice() == want.as_bytes(),
        Err(_) => false,
    }
}

// Images of p, and their line.
const ACCEPTED: [(&[u8], &str); 2] = [
    (
        IMAGE,
        "  image p.img: text 4, data 2, bss 8; 3058 bytes free below the stacks\n",
    ),
    (
        WHOLE,
        "  image p.img: text 4, data 0, bss 3068; 0 bytes free below the stacks\n",
    ),
];

// Whether of a text that is accepted with these images of p and of q this is written.
fn is_written_with(
    alloc: Global,
    text: &str,
    first: Option<&[u8]>,
    second: Option<&[u8]>,
    want: &str,
) -> bool {
    match files_of(alloc, first, second) {
        Ok(files) => is_written(alloc, text, &files, false, want),
        Err(_) => false,
    }
}

// Whether the words with this image of p have this line.
fn is_accepted(alloc: Global, image: &[u8], line: &str) -> bool {
    match [NUMBERS, line, REST].concat(alloc) {
        Ok(want) => is_written_with(alloc, TEXT, Some(image), None, want.as_str()),
        Err(_) => false,
    }
}

#[test]
fn an_accepted_text(rt: HostRuntime) {
    for (image, line) in ACCEPTED.iter() {
        assert!(rt; is_accepted(rt.alloc(), image, line), "with {line}");
    }
}

// Images of p and of q, None if the file is not there, and the line then. A file that is not there comes before any
// other fault, and each in the order of sections.
static REFUSED: [(Option<&[u8]>, Option<&[u8]>, &str); 9] = [
    (None, None, "section 1 \"p\", image p.img: no such file\n"),
    (
        None,
        Some(SHORT),
        "section 1 \"p\", image p.img: no such file\n",
    ),
    (
        Some(IMAGE),
        None,
        "section 2 \"q\", image q.img: no such file\n",
    ),
    (
        Some(SHORT),
        None,
        "section 2 \"q\", image q.img: no such file\n",
    ),
    (
        Some(LARGE),
        None,
        "section 2 \"q\", image q.img: no such file\n",
    ),
    (
        Some(LARGE),
        Some(SHORT),
        "section 1 \"p\", image p.img: 3073 bytes where 3072 are below the stacks\n",
    ),
    (
        Some(SHORT),
        Some(HUGE),
        "section 1 \"p\", image p.img: the image is shorter than its header\n",
    ),
    (
        Some(IMAGE),
        Some(OTHER),
        "section 2 \"q\", image q.img: the image does not begin with PTKI\n",
    ),
    (
        Some(WHOLE),
        Some(HUGE),
        "section 2 \"q\", image q.img: 8196 bytes where 7680 are below the stacks\n",
    ),
];

// Whether of the text, in which q has an image too, with these images this line is written.
fn is_refused(alloc: Global, first: Option<&[u8]>, second: Option<&[u8]>, line: &str) -> bool {
    match replaced(alloc, &[TEXT], BARE_Q, IMAGE_OF_Q) {
        Ok(text) => is_written_with(alloc, text.as_str(), first, second, line),
        Err(_) => false,
    }
}

#[test]
fn a_refused_image(rt: HostRuntime) {
    for (first, second, line) in REFUSED.iter() {
        assert!(rt;
            is_refused(rt.alloc(), *first, *second, line),
            "with {line}"
        );
    }
}

// Whether of a text that is refused this is written.
fn is_explained(alloc: Global, text: &str, want: &str) -> bool {
    let files = Files::new(alloc);
    is_written(alloc, text, &files, true, want)
}

// Whether of the text with one text in place of another, which is refused, this is written.
fn is_changed(alloc: Global, old: &str, new: &str, line: &str) -> bool {
    match replaced(alloc, &[TEXT], old, new) {
        Ok(text) => is_explained(alloc, text.as_str(), line),
        Err(_) => false,
    }
}

#[test]
fn a_refused_text(rt: HostRuntime) {
    let line = "section 2 \"q\", key memory: 5000 is not a multiple of 16\n  line 17\n";
    assert!(rt; is_changed(rt.alloc(), "memory = 8192", "memory = 5000", line));
}

// Whether the words with these files end in an error, with a writer of this much room.
fn is_cut(alloc: Global, files: &Files, most: usize) -> bool {
    let mut bytes = [0u8; 1024];
    match bytes.get_mut(..most) {
        Some(mut room) => explain(alloc, TEXT, files, &mut room) == Err(ExplainFault::Write),
        None => false,
    }
}

// Whether the words with the first of the accepted images end so.
fn is_accepted_cut(alloc: Global, most: usize) -> bool {
    match files_of(alloc, Some(IMAGE), None) {
        Ok(files) => is_cut(alloc, &files, most),
        Err(_) => false,
    }
}

// How many bytes are written with the first of the accepted images: 134, 71 and 374.
const ALL: usize = 579;

#[test]
fn a_writer_that_fails_is_an_error(rt: HostRuntime) {
    for most in (0..ALL).step_by(7) {
        assert!(rt; is_accepted_cut(rt.alloc(), most), "at {most}");
    }
}
