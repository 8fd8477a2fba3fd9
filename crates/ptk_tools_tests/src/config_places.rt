//! The place of a refusal, the line of a refused text, and that an accepted one has none. The line of each kind of fault
//! is in `data/refusals` of `ptk_main_stored`.

use ptk_config::{Key, Place, TablePlace, first_refusal};
use ptk_config_explain::{ExplainFault, explain_refusal};
use std::alloc::{AllocError, Global};

const FRAME: &str = "frame = 40\n";

const SECTION_P: &str =
    "[[partition]]\nname = \"p\"\nmemory = 4096\nthreads = 4\nstack = 256\nmutexes = 4\nconds = 4\nkeys = 4\ninterval = 100\nring = 16\noutput = 64\ntrace = 2\ninput = [{ at = 5, bytes = [1, 2] }, { at = 7, bytes = [3] }]\n";

const SECTION_Q: &str =
    "[[partition]]\nname = \"q\"\nimage = \"q.img\"\nmemory = 8192\nthreads = 5\nstack = 512\nmutexes = 6\nconds = 7\nkeys = 8\ninterval = 900\nring = 32\noutput = 65\ntrace = 3\n";

const WINDOWS: &str =
    "[[window]]\nstart = 0\nlength = 16\npartition = \"p\"\n[[window]]\nstart = 16\nlength = 18\npartition = \"q\"\n";

const PLANS: &str =
    "[[plan]]\nfrom = 2\n[[plan.window]]\nstart = 0\nlength = 40\npartition = \"p\"\n[[plan]]\nfrom = 3\n[[plan.window]]\nstart = 1\nlength = 39\npartition = \"p\"\n";

/// The good document.
const GOOD: [&str; 5] = [FRAME, SECTION_P, SECTION_Q, WINDOWS, PLANS];

/// The text of these parts, with one text in place of another.
pub(crate) fn replaced(
    alloc: Global,
    parts: &[&str],
    old: &str,
    new: &str,
) -> Result<String, AllocError> {
    let text = parts.concat(alloc)?;
    text.replace(alloc, old, new)
}

// Whether this is written of a text.
fn is_written(alloc: Global, text: &str, words: &str) -> bool {
    let mut out = Vec::new(alloc);
    explain_refusal(alloc, text, &mut out).is_ok() && out.as_slice() == words.as_bytes()
}

// Whether this is written of the good document with one text in place of another.
fn is_changed(alloc: Global, old: &str, new: &str, words: &str) -> bool {
    match replaced(alloc, &GOOD, old, new) {
        Ok(text) => is_written(alloc, text.as_str(), words),
        Err(_) => false,
    }
}

// Whether a text is accepted.
fn is_accepted(alloc: Global, text: &str) -> bool {
    match first_refusal(alloc, text) {
        Ok(refusal) => refusal == None && is_written(alloc, text, ""),
        Err(_) => false,
    }
}

// Whether the good document is accepted.
fn is_good_accepted(alloc: Global) -> bool {
    match GOOD.concat(alloc) {
        Ok(text) => is_accepted(alloc, text.as_str()),
        Err(_) => false,
    }
}

#[test]
fn accepted_text_has_no_line(rt: HostRuntime) {
    assert!(rt; is_good_accepted(rt.alloc()));
}

/// What is said of one byte more than there may be.
const TOO_MANY: &str =
    "section 1 \"p\", input 2, key bytes: 65535 items, not 0 to 65534\n  line 14\n";

// Whether these zeros and one more are too many.
fn are_too_many(alloc: Global, zeros: &str) -> bool {
    match ["[", zeros, "0]"].concat(alloc) {
        Ok(many) => is_changed(alloc, "[3]", many.as_str(), TOO_MANY),
        Err(_) => false,
    }
}

// Whether one byte more than there may be is too many.
fn is_one_too_many(alloc: Global) -> bool {
    match "0, ".repeat(alloc, 65_534) {
        Ok(zeros) => are_too_many(alloc, zeros.as_str()),
        Err(_) => false,
    }
}

#[test]
fn too_many_bytes(rt: HostRuntime) {
    assert!(rt; is_one_too_many(rt.alloc()));
}

// Whether a text is refused for a number out of range at key `memory` of its second section.
fn is_at_memory(alloc: Global, text: &str) -> bool {
    match first_refusal(alloc, text) {
        Ok(Some(refusal)) => {
            refusal.place == Place::Key(TablePlace::Section(2), Key::Memory)
                && refusal.fault.number() == 4
        }
        _ => false,
    }
}

// Whether the good document with another number at that key is refused so.
fn is_changed_at_memory(alloc: Global, old: &str, new: &str) -> bool {
    match replaced(alloc, &GOOD, old, new) {
        Ok(text) => is_at_memory(alloc, text.as_str()),
        Err(_) => false,
    }
}

#[test]
fn the_place_is_told(rt: HostRuntime) {
    assert!(rt; is_changed_at_memory(rt.alloc(), "memory = 8192", "memory = 5000"));
}

// Whether the line of an empty text ends in an error, with a writer of this much room.
fn is_cut(alloc: Global, most: usize) -> bool {
    let mut bytes = [0u8; 19];
    match bytes.get_mut(..most) {
        Some(mut room) => explain_refusal(alloc, "", &mut room) == Err(ExplainFault::Write),
        None => false,
    }
}

// Whether the line of an empty text is written into as much room as it takes.
fn is_whole(alloc: Global) -> bool {
    let mut bytes = [0u8; 19];
    let mut room = bytes.as_mut_slice();
    let is_done = explain_refusal(alloc, "", &mut room).is_ok();
    is_done && bytes.as_slice() == b"key frame: missing\n".as_slice()
}

#[test]
fn a_writer_that_fails_is_an_error(rt: HostRuntime) {
    for most in 0..19 {
        assert!(rt; is_cut(rt.alloc(), most), "at {most}");
    }
    assert!(rt; is_whole(rt.alloc()));
}
