//! The worked images, byte for byte, and each failed check.

use ptk_image::{Image, read_image, write_image};
use std::alloc::Global;

/// Nine words that write `hi` and exit with 0: the 60 bytes of their image.
pub(crate) const HELLO: [u8; 60] = [
    0x50, 0x54, 0x4b, 0x49, 0x01, 0x00, 0x00, 0x00, 0x00, 0x00, 0x00, 0x00, 0x24, 0x00, 0x00, 0x00,
    0x00, 0x00, 0x00, 0x00, 0x00, 0x00, 0x00, 0x00, 0x93, 0x08, 0x10, 0x00, 0x13, 0x05, 0x80, 0x06,
    0x73, 0x00, 0x00, 0x00, 0x93, 0x08, 0x10, 0x00, 0x13, 0x05, 0x90, 0x06, 0x73, 0x00, 0x00, 0x00,
    0x93, 0x08, 0x00, 0x00, 0x13, 0x05, 0x00, 0x00, 0x73, 0x00, 0x00, 0x00,
];

// The header of the image without text and data, whose version is 1.
const EMPTY: [u8; 24] = *b"PTKI\x01\0\0\0\0\0\0\0\0\0\0\0\0\0\0\0\0\0\0\0";

/// Whether these bytes are written of an image.
pub(crate) fn is_written(alloc: Global, image: &Image, bytes: &[u8]) -> bool {
    match write_image(alloc, image) {
        Ok(written) => written.as_slice() == bytes,
        Err(_) => false,
    }
}

// Whether the bytes are read as an image of this text alone, of which they are written again.
fn is_read(alloc: Global, bytes: &[u8], text: &[u8]) -> bool {
    match read_image(alloc, bytes) {
        Ok(image) => {
            image.entry() == 0
                && image.text() == text
                && image.data().is_empty()
                && image.bss() == 0
                && is_written(alloc, &image, bytes)
        }
        Err(_) => false,
    }
}

#[test]
fn the_worked_bytes_are_read_and_written(rt: HostRuntime) {
    assert!(rt; is_read(rt.alloc(), &HELLO, &HELLO[24..]));
    assert!(rt; is_read(rt.alloc(), &EMPTY, b""));
}

// The number of the fault that the bytes have, 0 if they are an image.
fn fault_of(alloc: Global, bytes: &[u8]) -> u8 {
    match read_image(alloc, bytes) {
        Ok(_image) => 0,
        Err(fault) => fault.number(),
    }
}

#[test]
fn refuses_cut_bytes(rt: HostRuntime) {
    let bytes = HELLO;
    for k in 0..60 {
        let number = if k < 24 { 1 } else { 4 };
        assert!(rt;
            fault_of(rt.alloc(), &bytes[..k]) == number,
            "cut to {k} bytes"
        );
    }
}

// A place of the header, another word for it, and the number of the fault then.
const CHANGES: [(usize, u32, u8); 9] = [
    (0, 0x494b_5450, 0), // the magic as it is
    (0, 0x694b_5450, 2),
    (4, 2, 3), // another version
    (12, 35, 4), // a text of no whole words
    (16, 4, 4), // missing data
    (8, 2, 5), // an entry of no whole word
    (8, 40, 5), // an entry above the text
    (8, 36, 0), // an entry at the text's end
    (20, 0xffff_ffff, 0), // any number of zeros
];

// The number of the fault of the worked bytes with another word at a place of the header.
fn fault_with(alloc: Global, at: usize, word: u32) -> u8 {
    let mut bytes = HELLO;
    if at < 24 {
        bytes[at..at + 4].copy_from_slice(&word.to_le_bytes());
    }
    fault_of(alloc, &bytes)
}

#[test]
fn numbers_each_fault(rt: HostRuntime) {
    for (at, word, want) in CHANGES {
        assert!(rt; fault_with(rt.alloc(), at, word) == want, "{word} at {at}");
    }
}

#[test]
fn adds_lengths_without_wrapping(rt: HostRuntime) {
    let mut bytes = HELLO;
    bytes[15] = 0x80;
    bytes[19] = 0x80;
    assert!(rt; fault_of(rt.alloc(), &bytes) == 4);
}
