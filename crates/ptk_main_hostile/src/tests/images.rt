//! Images that are cut and changed at each byte.

use super::{FIRST_PATH, HELLO, changed};
use ptk_main_guests::{Config, config_of, files_with, image_of, report_of};
use std::alloc::{AllocError, Global};
use std::process::Abort;

// How the report of an image begins after 20 ticks: `want`, or with nothing if that is empty.
fn begins(alloc: Global, config: &Config, image: &[u8], want: &str) -> bool {
    match files_with(alloc, image, &[]) {
        Ok(files) => match report_of(alloc, config, &files, 20) {
            Some(report) => report.starts_with(want.as_bytes()),
            None => false,
        },
        Err(_) => false,
    }
}

// The refusal of an image of which this many bytes are left.
fn refusal_of_cut(left: usize) -> &'static str {
    if left < 24 {
        "partition p refused image 1 steps 0 lost 0\noutput 0\n\n"
    } else {
        "partition p refused image 4 steps 0 lost 0\noutput 0\n\n"
    }
}

// Whether the image of which this many bytes are left is refused as it must be.
fn is_refused(alloc: Global, config: &Config, image: &[u8], left: usize) -> bool {
    match image.get(..left) {
        Some(cut) => begins(alloc, config, cut, refusal_of_cut(left)),
        None => false,
    }
}

// Row cut-image: the first number of bytes left whose refusal is another.
fn first_other_cut(alloc: Global, config: &Config, image: &[u8]) -> Option<usize> {
    (0..image.len()).find(|left| !is_refused(alloc, config, image, *left))
}

/// The report of the whole image.
const WHOLE: &str = "partition p exit 0 steps 9 lost 0\noutput 2\nhi\n";

/// That of one whose bss does not fit.
const TOO_LONG: &str = "partition p refused image 7 steps 0 lost 0\noutput 0\n\n";

// How the report begins if a byte of the header, or of the text, is another. A bss of up to 255 bytes fits.
fn beginning(place: usize) -> &'static str {
    match place {
        0..=3 => "partition p refused image 2 steps 0 lost 0\noutput 0\n\n",
        4..=7 => "partition p refused image 3 steps 0 lost 0\noutput 0\n\n",
        8..=11 => "partition p refused image 5 steps 0 lost 0\noutput 0\n\n",
        12..=19 => "partition p refused image 4 steps 0 lost 0\noutput 0\n\n",
        20 => WHOLE,
        22 | 23 => TOO_LONG,
        _ => "partition p ",
    }
}

// Whether the report of the image with another byte at the place begins as it must.
fn is_told(alloc: Global, config: &Config, image: &[u8], place: usize, byte: u8) -> bool {
    match changed(alloc, image, place, byte) {
        Ok(other) => other.as_slice() == image || begins(alloc, config, &other, beginning(place)),
        Err(_) => false,
    }
}

/// The bytes in the place of another.
const BYTES: [u8; 6] = [0, 1, 2, 127, 128, 255];

// The first of the bytes that gives another report at the place.
fn first_other_byte(
    alloc: Global,
    config: &Config,
    image: &[u8],
    place: usize,
) -> Option<&'static u8> {
    BYTES
        .iter()
        .find(|byte| !is_told(alloc, config, image, place, **byte))
}

// Row cut-image, at its end: the image with bss length 0xffffffff.
fn with_full_bss(alloc: Global, image: &[u8]) -> Result<Vec<u8>, AllocError> {
    let mut all = Vec::from_slice(alloc, image)?;
    for place in 20..24 {
        all = changed(alloc, &all, place, 0xff)?;
    }
    Ok(all)
}

// Asserts what comes of the image cut, changed, and with the greatest bss.
fn check_image(rt: &impl Abort, alloc: Global, config: &Config, image: &[u8]) {
    assert!(rt; image.len() == 60);
    assert!(rt; begins(alloc, config, image, WHOLE));
    assert_eq!(rt; first_other_cut(alloc, config, image), None);
    for place in 0..image.len() {
        assert_eq!(rt;
            first_other_byte(alloc, config, image, place),
            None,
            "at {place}"
        );
    }
    let full = with_full_bss(alloc, image).unwrap_or(Vec::new(alloc));
    assert!(rt; begins(alloc, config, &full, TOO_LONG));
}

#[test]
fn an_image_is_cut_and_changed_at_each_byte(rt: HostRuntime) {
    let alloc = rt.alloc();
    match (config_of(alloc, &[FIRST_PATH]), image_of(alloc, &[HELLO])) {
        (Some(config), Some(image)) => check_image(&rt, alloc, &config, &image),
        _ => assert!(rt; false, "no memory"),
    }
}
