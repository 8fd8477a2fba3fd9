//! Sources and what is made of them: worked images, each statement with its word, each fault with its token, and sizes.

use crate::image::{HELLO, is_written};
use ptk_asm::assemble;
use ptk_image::{Image, write_image};
use std::alloc::{AllocError, Global};
use std::test::Fail;

/// Row hello-source: writes `h` and `i` and exits with 0.
const HELLO_SOURCE: &str = "_start: li a7, 1
        li a0, 104  # h
        ecall
        li a7, 1
        li a0, 105  # i
        ecall
        li a7, 0
        li a0, 0
        ecall
";

/// Statements of one word each, all instructions among them, with the words of the manual's listing (RISC-V 24, 25),
/// put together field by field; LLVM's assembler gives the same.
const STATEMENTS: [(&str, &[u32]); 47] = [
    ("addi a0, a1, -2048", &[0x8005_8513]),
    ("slti t0, t1, 2047", &[0x7ff3_2293]),
    ("sltiu s0, fp, -1", &[0xfff4_3413]),
    ("xori x31, x30, 0x7f", &[0x07ff_4f93]),
    ("ori a2, a3, 1", &[0x0016_e613]),
    ("andi a4, a5, 15", &[0x00f7_f713]),
    ("slli a6, a7, 31", &[0x01f8_9813]),
    ("srli s1, s2, 0", &[0x0009_5493]),
    ("srai s3, s4, 7", &[0x407a_5993]),
    ("add s5, s6, s7", &[0x017b_0ab3]),
    ("sub s8, s9, s10", &[0x41ac_8c33]),
    ("sll s11, t3, t4", &[0x01de_1db3]),
    ("slt t5, t6, gp", &[0x003f_af33]),
    ("sltu tp, ra, sp", &[0x0020_b233]),
    ("xor a0, a1, a2", &[0x00c5_c533]),
    ("srl a3, a4, a5", &[0x00f7_56b3]),
    ("sra a6, a7, t0", &[0x4058_d833]),
    ("or t1, t2, zero", &[0x0003_e333]),
    ("and x1, x2, x3", &[0x0031_70b3]),
    ("lb a0, -1(sp)", &[0xfff1_0503]),
    ("lh a1, 2(sp)", &[0x0021_1583]),
    ("lw a2, 4(sp)", &[0x0041_2603]),
    ("lbu a3, 2047(sp)", &[0x7ff1_4683]),
    ("lhu a4, -2048(sp)", &[0x8001_5703]),
    ("sb a5, 0(sp)", &[0x00f1_0023]),
    ("sh a6, -2(gp)", &[0xff01_9f23]),
    ("sw a7, 2044(tp)", &[0x7f12_2e23]),
    ("jalr ra, 8(t0)", &[0x0082_80e7]),
    ("beq a0, a1, -4096", &[0x80b5_0063]),
    ("bne a0, a1, 4094", &[0x7eb5_1fe3]),
    ("blt a0, a1, 8", &[0x00b5_4463]),
    ("bge a0, a1, -8", &[0xfeb5_5ce3]),
    ("bltu a0, a1, 0", &[0x00b5_6063]),
    ("bgeu a0, a1, 16", &[0x00b5_7863]),
    ("jal ra, -1048576", &[0x8000_00ef]),
    ("lui a0, 1048575", &[0xffff_f537]),
    ("auipc a1, 1", &[0x0000_1597]),
    ("ecall", &[0x0000_0073]),
    ("ebreak", &[0x0010_0073]),
    ("fence", &[0x0ff0_000f]),
    ("nop", &[0x0000_0013]),
    ("mv a0, a1", &[0x0005_8513]),
    ("j 1048574", &[0x7fff_f06f]),
    ("jr a2", &[0x0006_0067]),
    ("ret", &[0x0000_8067]),
    ("li a0, -2048", &[0x8000_0513]),
    ("li a1, 2047", &[0x7ff0_0593]),
];

/// Whether the bytes are these words, least byte first.
pub(crate) fn are_words(bytes: &[u8], words: &[u32]) -> bool {
    let mut rest = bytes;
    for word in words {
        match rest.strip_prefix(word.to_le_bytes().as_slice()) {
            Some(tail) => rest = tail,
            None => return false,
        }
    }
    rest.is_empty()
}

/// Whether the text of a source's image is these words.
fn has_words(alloc: Global, source: &str, words: &[u32]) -> bool {
    match assemble(alloc, source) {
        Ok(image) => are_words(image.text(), words),
        Err(_) => false,
    }
}

/// Statements of two words, and lines that end in LF, in CR LF and not at all.
const TEXTS: [(&str, &[u32]); 6] = [
    ("li a0, 4095", &[0x0000_1537, 0xfff5_0513]),
    ("li a2, 2048", &[0x0000_1637, 0x8006_0613]),
    ("li a3, 4294967295", &[0x0000_06b7, 0xfff6_8693]),
    ("li a4, -2147483648", &[0x8000_0737, 0x0007_0713]),
    (
        "nop\r\nnop # \u{e9}\r\n\r\nebreak",
        &[0x0000_0013, 0x0000_0013, 0x0010_0073],
    ),
    ("", &[]),
];

/// The first of these sources whose text is of other words.
fn first_wrong_text<'a>(alloc: Global, rows: &[(&'a str, &[u32])]) -> Option<&'a str> {
    for (source, words) in rows {
        if !has_words(alloc, source, words) {
            return Some(*source);
        }
    }
    None
}

#[test]
fn each_statement_has_its_words(rt: HostRuntime) {
    assert_eq!(rt; first_wrong_text(rt.alloc(), &STATEMENTS), None);
    assert_eq!(rt; first_wrong_text(rt.alloc(), &TEXTS), None);
}

/// Sources with the entry, the words, the data and the bss of their images.
const IMAGES: [(&str, u32, &[u32], &[u8], u32); 3] = [
    // Row load-address.
    (
        ".data\nx: .word 7\n.text\n_start: la a0, x\nlw a1, 0(a0)\nj _start",
        0,
        &[0x0000_0537, 0x0105_0513, 0x0005_2583, 0xff5f_f06f],
        &[7, 0, 0, 0],
        0,
    ),
    (
        "nop\n_start : call f\nf: beq x0, x0, _start\n.word table\n.bss\nend: .space 5\n.data\n.byte -1\n.space 3\ntable: .word end\n",
        4,
        &[0x0000_0013, 0x0040_00ef, 0xfe00_0ee3, 20],
        &[255, 0, 0, 0, 24, 0, 0, 0],
        5,
    ),
    (
        "nop\n.data\n_start: .word 0x10",
        0,
        &[0x0000_0013],
        &[0x10, 0, 0, 0],
        0,
    ),
];

/// Whether the image of a source has these parts.
fn has_image(
    alloc: Global,
    source: &str,
    entry: u32,
    words: &[u32],
    data: &[u8],
    bss: u32,
) -> bool {
    match assemble(alloc, source) {
        Ok(image) => {
            image.entry() == entry
                && are_words(image.text(), words)
                && image.data() == data
                && image.bss() == bss
        }
        Err(_) => false,
    }
}

#[test]
fn each_source_has_its_image(rt: HostRuntime) {
    for (source, entry, words, data, bss) in IMAGES {
        assert!(rt;
            has_image(rt.alloc(), source, entry, words, data, bss),
            "{source}"
        );
    }
}

#[test]
fn hello_source(rt: HostRuntime) {
    let is_hello = match assemble(rt.alloc(), HELLO_SOURCE) {
        Ok(image) => is_written(rt.alloc(), &image, &HELLO),
        Err(_) => false,
    };
    assert!(rt; is_hello);
}

/// Sources, and the line, the bytes and the number of their fault: of tokens, of statements, of labels, of sizes.
const FAULTS: [(&str, usize, usize, usize, u8); 31] = [
    ("nop\n  addi a0, a0, 0x", 2, 19, 21, 1),
    ("foo - 1", 1, 4, 5, 1),
    ("nop \u{20ac} # \u{20ac}", 1, 4, 7, 1),
    ("nop \u{fffd}", 1, 4, 7, 1),
    ("li a0, 1\u{7ff}", 1, 8, 10, 1),
    ("mv a0 a1", 1, 6, 8, 1),
    ("mv a0,  # b", 1, 8, 8, 1),
    ("mv a0\r\n", 1, 5, 5, 1),
    ("ret ra", 1, 4, 6, 1),
    ("mv , a1", 1, 3, 4, 1),
    ("li a0, a1", 1, 7, 9, 1),
    ("call 4", 1, 5, 6, 1),
    ("\nfoo a0", 2, 1, 4, 2),
    ("a: 5", 1, 3, 4, 2),
    (".data\nnop", 2, 6, 9, 2),
    (".byte 1", 1, 0, 5, 2),
    ("mv a0, a8", 1, 7, 9, 3),
    ("mv a0, 8", 1, 7, 8, 3),
    ("nop\naddi a0, a0, 2048", 2, 17, 21, 4),
    ("beq a0, a0, 3", 1, 12, 13, 4),
    ("li a0, 18446744073709551616", 1, 7, 27, 4),
    (".data\n.byte 1\n.word 2", 3, 14, 19, 4),
    ("j away\nfoo", 2, 7, 10, 2),
    ("nop\nj away # far", 2, 6, 10, 5),
    (".data\n.space 4096\nx:\n.text\nbeq a0, a1, x", 5, 39, 40, 4),
    ("a:\na:", 2, 3, 4, 6),
    ("a: nop\n b :\n a : foo", 3, 13, 14, 6),
    (
        "nop\n_start : call f\n.word table\n.data\n.byte -1\n.space 3\ntable: .word end, \n",
        7,
        72,
        73,
        1,
    ),
    ("nop\r", 1, 3, 4, 1),
    (".data\n.space 1048576\n.byte 1", 3, 21, 26, 4),
    (".bss\n.space 1048575\n.space 2", 3, 20, 26, 4),
];

/// The line, the bytes and the number of a source's fault, None if there is none.
fn fault_of(alloc: Global, source: &str) -> Option<(usize, usize, usize, u8)> {
    match assemble(alloc, source) {
        Ok(_image) => None,
        Err(fault) => Some((fault.line, fault.from, fault.to, fault.kind.number())),
    }
}

/// The first of these sources that has another fault.
fn first_wrong_fault<'a>(
    alloc: Global,
    rows: &[(&'a str, usize, usize, usize, u8)],
) -> Option<&'a str> {
    for (source, line, from, to, number) in rows {
        if fault_of(alloc, source) != Some((*line, *from, *to, *number)) {
            return Some(*source);
        }
    }
    None
}

#[test]
fn faults_have_their_tokens(rt: HostRuntime) {
    assert_eq!(rt; first_wrong_fault(rt.alloc(), &FAULTS), None);
}

/// Sections of the greatest size.
const GREATEST: &str = ".data\n.space 1048576\n.bss\n.space 1048575\n.space 1";

#[test]
fn sections_of_the_greatest_size(rt: HostRuntime) -> Result<(), Fail> {
    let image = assemble(rt.alloc(), GREATEST)?;
    assert!(rt; image.data().len() == 1_048_576 && image.bss() == 1_048_576);
    let bytes = write_image(rt.alloc(), &image)?;
    assert!(rt; bytes.len() == 24 + 1_048_576);
    Ok(())
}

/// The length of the text of a source's image, None if it has none.
fn text_length(alloc: Global, source: &str) -> Option<usize> {
    match assemble(alloc, source) {
        Ok(image) => Some(image.text().len()),
        Err(_) => None,
    }
}

#[test]
fn a_source_of_a_mebibyte(rt: HostRuntime) -> Result<(), AllocError> {
    let mut source = "nop\n".repeat(rt.alloc(), 262_144)?;
    assert!(rt; text_length(rt.alloc(), &source) == Some(1_048_576));
    source.push_str("ret")?;
    let fault = fault_of(rt.alloc(), &source);
    assert!(rt; fault == Some((262_145, 1_048_576, 1_048_579, 4)));
    Ok(())
}
