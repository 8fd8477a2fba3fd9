//! Configurations and sources that are cut and changed at each byte.

use super::{FIRST_PATH, changed};
use ptk_asm::assemble;
use ptk_config::read_config;
use ptk_image::{Image, read_image, write_image};
use std::alloc::Global;

/// Bytes that mean something in a document or in a source, and some that mean nothing in either.
const BYTES: [u8; 24] = [
    0, 9, 10, 13, 32, 34, 35, 36, 40, 41, 44, 45, 46, 48, 57, 58, 61, 91, 93, 95, 120, 122, 127,
    200,
];

/// Statements of each kind, in each section.
const SOURCE: &str = "_start:\tla a0, x # the address\r
\tlw a1, -4(a0)\r
next: addi a1, a1, 0x10
 sw a1, 8(sp)
 beq a1, zero, end
 li t0, -2147483648
 .word end
 call next
end: jalr ra, 0(t0)
.data
x: .word 4294967295
y: .byte -128
 .space 3
.bss
z: .space 1048576
.text
 j _start
";

// The number of the fault of these bytes as a configuration, 0 if there is none, and 1 if they are no text.
fn config_fault(alloc: Global, bytes: &[u8]) -> u8 {
    match str::from_utf8(bytes) {
        Ok(text) => match read_config(alloc, text) {
            Ok(_config) => 0,
            Err(fault) => fault.number(),
        },
        Err(_) => 1,
    }
}

// Whether the configuration is refused, for another cause than memory, if it is cut to this many bytes.
fn is_refused(alloc: Global, left: usize) -> bool {
    match FIRST_PATH.as_bytes().get(..left) {
        Some(bytes) => {
            let fault = config_fault(alloc, bytes);
            1 <= fault && fault <= 7
        }
        None => false,
    }
}

// Row cut-configuration, and that what is left with the last quotation mark is accepted.
#[test]
fn a_configuration_is_cut_at_each_byte(rt: HostRuntime) {
    let alloc = rt.alloc();
    let bytes = FIRST_PATH.as_bytes();
    assert!(rt; config_fault(alloc, bytes) == 0);
    match bytes.strip_suffix(b"\n") {
        Some(quoted) => assert!(rt; config_fault(alloc, quoted) == 0),
        None => assert!(rt; false, "no line"),
    }
    match bytes.strip_suffix(b"\"\n") {
        Some(before) => assert_eq!(rt;
            (0..=before.len()).find(|left| !is_refused(alloc, *left)),
            None
        ),
        None => assert!(rt; false, "no quotation mark"),
    }
}

// Whether a configuration with another byte at the place is accepted, or refused for another cause than memory.
fn is_answered(alloc: Global, place: usize, byte: u8) -> bool {
    match changed(alloc, FIRST_PATH.as_bytes(), place, byte) {
        Ok(other) => config_fault(alloc, &other) <= 7,
        Err(_) => false,
    }
}

// The first of the bytes that gives no answer at the place of the configuration.
fn first_unanswered(alloc: Global, place: usize) -> Option<&'static u8> {
    BYTES.iter().find(|byte| !is_answered(alloc, place, **byte))
}

#[test]
fn a_configuration_is_changed_at_each_byte(rt: HostRuntime) {
    for place in 0..FIRST_PATH.len() {
        assert_eq!(rt; first_unanswered(rt.alloc(), place), None, "at {place}");
    }
}

// Whether an image, written and read again, is what it was.
fn reads_back(alloc: Global, image: &Image) -> bool {
    match write_image(alloc, image) {
        Ok(bytes) => match read_image(alloc, &bytes) {
            Ok(again) => {
                again.entry() == image.entry()
                    && again.text() == image.text()
                    && again.data() == image.data()
                    && again.bss() == image.bss()
            }
            Err(_) => false,
        },
        Err(_) => false,
    }
}

// How many lines a source has.
fn lines_of(source: &str) -> usize {
    source
        .bytes()
        .filter(|byte| *byte == b'\n')
        .count()
        .saturating_add(1)
}

// Whether these bytes, if they are a text, give an image that is read again, or a fault of another cause than memory
// in a line of the text and at bytes of it.
fn is_assembled(alloc: Global, bytes: &[u8]) -> bool {
    match str::from_utf8(bytes) {
        Ok(source) => match assemble(alloc, source) {
            Ok(image) => reads_back(alloc, &image),
            Err(fault) => {
                fault.kind.number() <= 6
                    && 1 <= fault.line
                    && fault.line <= lines_of(source)
                    && fault.from <= fault.to
                    && fault.to <= source.len()
            }
        },
        Err(_) => true,
    }
}

// Whether the source cut to this many bytes is assembled.
fn is_assembled_cut(alloc: Global, left: usize) -> bool {
    match SOURCE.as_bytes().get(..left) {
        Some(bytes) => is_assembled(alloc, bytes),
        None => false,
    }
}

#[test]
fn a_source_is_cut_at_each_byte(rt: HostRuntime) {
    let alloc = rt.alloc();
    match assemble(alloc, SOURCE) {
        Ok(image) => assert!(rt; reads_back(alloc, &image)),
        Err(_) => assert!(rt; false, "no image"),
    }
    assert_eq!(rt;
        (0..SOURCE.len()).find(|left| !is_assembled_cut(alloc, *left)),
        None
    );
}

// Whether the source with another byte at the place is assembled.
fn is_assembled_changed(alloc: Global, place: usize, byte: u8) -> bool {
    match changed(alloc, SOURCE.as_bytes(), place, byte) {
        Ok(other) => is_assembled(alloc, &other),
        Err(_) => false,
    }
}

// The first of the bytes that is not assembled at the place of the source.
fn first_unassembled(alloc: Global, place: usize) -> Option<&'static u8> {
    BYTES
        .iter()
        .find(|byte| !is_assembled_changed(alloc, place, **byte))
}

#[test]
fn a_source_is_changed_at_each_byte(rt: HostRuntime) {
    for place in 0..SOURCE.len() {
        assert_eq!(rt; first_unassembled(rt.alloc(), place), None, "at {place}");
    }
}
