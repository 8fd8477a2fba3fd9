//! What the program does with the words of its command line, over real files: the status of each request, the files
//! that it writes, and the fault itself if several faults share a status. What is wanted comes from the
//! table of lines and statuses. Each test that has files is a process of its own, and works in a folder of its own,
//! which it removes. A helper that promises nothing is between the rows and the calls that it tests.

use crate::parts::{FIRST, FRAME, NUMBERS, SECOND};
use ptk_asm::assemble;
use ptk_asm_language::Section;
use ptk_main_commands::{
    answer_words, bytes_in, check_config, config_in, disasm_file, put_place, refusal_explained,
    text_in, unread, usage,
};
use ptk_main_guests::P;
use ptk_main_line::{CheckOptions, DisasmOptions, Format};
use ptk_main_tools::Fault;
use std::alloc::AllocError;
use std::process::Abort;
use std::{env, fs, io};

/// The section of q, with an image of its own.
const Q: &str = "[[partition]]\nname = \"q\"\nimage = \"q.img\"\n";

/// A section whose image is a folder.
const FOLDER: &str = "[[partition]]\nname = \"p\"\nimage = \"folder.img\"\n";

/// Sections whose image is not there, or is none.
const MISSING: &str = "[[partition]]\nname = \"p\"\nimage = \"none.img\"\n";

const MISSING_Q: &str = "[[partition]]\nname = \"q\"\nimage = \"none.img\"\n";

const BAD_Q: &str = "[[partition]]\nname = \"q\"\nimage = \"short.img\"\n";

// Puts `h` and `i` and exits with 0, as a source and as the bytes that `asm` is to make of it.
const HELLO_SOURCE: &str =
    "li a7, 1\nli a0, 104\necall\nli a7, 1\nli a0, 105\necall\nli a7, 0\nli a0, 0\necall\n";

const HELLO_IMAGE: &[u8] =
    b"PTKI\x01\0\0\0\0\0\0\0\x24\0\0\0\0\0\0\0\0\0\0\0\x93\x08\x10\x00\x13\x05\x80\x06\x73\0\0\0\x93\x08\x10\x00\x13\x05\x90\x06\x73\0\0\0\x93\x08\0\0\x13\x05\0\0\x73\0\0\0";

/// The first lines of its report.
const REPORT_HEAD: &str = "partition p exit 0 steps 9 lost 0\noutput 2\n";

/// The texts that there are before the first command: the name of the file, and its parts.
const TEXTS: [(&str, &[&str]); 14] = [
    ("alone.toml", &["frame = 20\n", P, NUMBERS, FIRST]),
    ("two.toml", &[FRAME, P, NUMBERS, Q, NUMBERS, FIRST, SECOND]),
    ("folder.toml", &["frame = 20\n", FOLDER, NUMBERS, FIRST]),
    ("missing.toml", &["frame = 20\n", MISSING, NUMBERS, FIRST]),
    (
        "second.toml",
        &[FRAME, P, NUMBERS, MISSING_Q, NUMBERS, FIRST, SECOND],
    ),
    (
        "bad.toml",
        &[FRAME, P, NUMBERS, BAD_Q, NUMBERS, FIRST, SECOND],
    ),
    ("empty.toml", &[]),
    ("right", &[REPORT_HEAD, "hi\n"]),
    ("wrong", &[REPORT_HEAD, "h\n"]),
    ("hello.s", &[HELLO_SOURCE]),
    ("named.s", &["_start:\n", HELLO_SOURCE, "end:\nnop\n"]),
    // Row operand-out-of-range.
    ("bad.s", &["nop\naddi a0, a0, 2048\n"]),
    ("bad.sym", &["00000000 t _start\nend\n"]),
    ("kept.img", &["kept"]),
];

/// The images and the texts that are none, before the first command: the name of the file, and its bytes. Of `long.img`
/// the bss is 1,048,577 zeros, one more than a source may have.
const BYTES: [(&str, &[u8]); 6] = [
    ("p.img", HELLO_IMAGE),
    ("q.img", HELLO_IMAGE),
    ("short.img", b"PTKI"),
    (
        "long.img",
        b"PTKI\x01\0\0\0\0\0\0\0\0\0\0\0\0\0\0\0\x01\0\x10\0",
    ),
    ("bytes.toml", b"\xff"),
    ("bytes.s", b"\xff"),
];

/// Command lines with their statuses, in this order: some read what others before them wrote.
const COMMANDS: [(&str, u8); 99] = [
    ("ptk", 2),
    ("ptk --help", 0),
    ("ptk run alone.toml --ticks 1099511627777", 2),
    // a file that is not there
    ("ptk run none.toml --ticks 20", 1),
    ("ptk trace none.toml --ticks 20 --partition p", 1),
    ("ptk timeline none.toml --ticks 20 --from 5", 1),
    ("ptk check none.toml", 1),
    ("ptk check none.toml --explain", 1),
    ("ptk asm none.s none.img", 1),
    // a folder
    ("ptk run . --ticks 20", 3),
    ("ptk run folder.toml --ticks 20", 3),
    // a configuration that is refused
    ("ptk run bytes.toml --ticks 20", 1),
    ("ptk check bytes.toml --explain", 1),
    ("ptk run empty.toml --ticks 20", 1),
    ("ptk check empty.toml", 1),
    ("ptk check empty.toml --explain", 1),
    ("ptk check empty.toml --format json", 1),
    // an image that is not there, and one that is none
    ("ptk run missing.toml --ticks 20", 1),
    ("ptk check missing.toml", 1),
    ("ptk check missing.toml --explain", 1),
    ("ptk run bad.toml --ticks 20", 0),
    ("ptk check bad.toml", 1),
    ("ptk check bad.toml --explain", 1),
    // all in order
    ("ptk check alone.toml", 0),
    ("ptk check alone.toml --explain", 0),
    ("ptk check alone.toml --format json", 0),
    ("ptk run alone.toml --ticks 20", 0),
    ("ptk run alone.toml --ticks 20 --expect right", 0),
    ("ptk run alone.toml --ticks 20 --expect wrong", 4),
    ("ptk run alone.toml --ticks 20 --expect none", 1),
    // a run that fails on what a partition is: it ends after 9 steps with status 0, and has 2 bytes of output
    ("ptk run bad.toml --ticks 20 --fail-on fault,idle", 0),
    ("ptk run bad.toml --ticks 20 --fail-on idle,refused", 4),
    ("ptk run alone.toml --ticks 3 --fail-on running", 4),
    ("ptk run alone.toml --ticks 3 --fail-on exit,exit", 0),
    (
        "ptk run alone.toml --ticks 20 --fail-on exit,running,lost-input,full-output,deadlock,late,stack",
        0,
    ),
    (
        "ptk run alone.toml --ticks 20 --fail-on late --deadline z:1=5",
        1,
    ),
    ("ptk run alone.toml --ticks 20 --fail-on halted", 2),
    // figures
    (
        "ptk stats alone.toml --ticks 20 --from 5 --stack --deadline p:1=20",
        0,
    ),
    ("ptk stats alone.toml --ticks 20 --from 21", 1),
    ("ptk stats alone.toml --ticks 20 --deadline z:1=5", 1),
    ("ptk stats alone.toml --ticks 20 --deadline p:33=5", 2),
    ("ptk run alone.toml --ticks 20 --root .", 0),
    ("ptk run alone.toml --ticks 20 --root none", 1),
    ("ptk trace alone.toml --ticks 20 --partition p", 0),
    ("ptk trace alone.toml --ticks 20 --partition z", 1),
    ("ptk timeline alone.toml --ticks 20 --from 5", 0),
    (
        "ptk timeline alone.toml --ticks 20 --from 5 --format vcd",
        0,
    ),
    (
        "ptk timeline alone.toml --ticks 20 --from 5 --format json",
        0,
    ),
    ("ptk timeline alone.toml --ticks 20 --from 20", 1),
    (
        "ptk timeline alone.toml --ticks 20 --from 20 --format vcd",
        1,
    ),
    (
        "ptk timeline alone.toml --ticks 20 --from 20 --format json",
        1,
    ),
    // what a new configuration can change
    ("ptk impact alone.toml alone.toml", 0),
    ("ptk impact alone.toml two.toml", 1),
    ("ptk impact two.toml two.toml --partition q", 0),
    ("ptk impact two.toml two.toml --partition z", 1),
    ("ptk impact alone.toml alone.toml --format json", 0),
    ("ptk impact alone.toml two.toml --format json", 1),
    ("ptk impact missing.toml missing.toml", 1),
    ("ptk impact none.toml two.toml", 1),
    ("ptk impact two.toml .", 3),
    ("ptk impact alone.toml alone.toml --old-root .", 0),
    ("ptk impact alone.toml alone.toml --old-root none", 1),
    (
        "ptk impact alone.toml alone.toml --old-root . --root none",
        1,
    ),
    // an image and labels of a source
    ("ptk asm hello.s hello.img", 0),
    ("ptk asm hello.s none/hello.img", 3),
    ("ptk asm hello.s hello.s", 2),
    ("ptk asm hello.s ./hello.s", 2),
    ("ptk asm named.s none.img --symbols none.img", 2),
    ("ptk asm named.s none.img --symbols named.s", 2),
    ("ptk asm named.s none.img --symbols none/p.sym", 3),
    ("ptk asm named.s named.img --symbols named.sym", 0),
    // a source that is refused
    ("ptk asm bad.s kept.img --explain", 1),
    ("ptk asm bad.s kept.img --symbols none.sym", 1),
    ("ptk asm bytes.s kept.img", 1),
    // symbols, in order or not
    (
        "ptk trace alone.toml --ticks 20 --partition p --decode --symbols named.sym --thread 1 --calls --from 1 --to 5 --last 1000",
        0,
    ),
    (
        "ptk trace alone.toml --ticks 20 --partition p --decode --thread 1 --calls --from 1 --to 5 --last 1000",
        0,
    ),
    (
        "ptk trace alone.toml --ticks 20 --partition p --thread 1 --calls --from 1 --to 5 --last 1000",
        2,
    ),
    (
        "ptk trace alone.toml --ticks 20 --partition p --decode --symbols none.sym",
        1,
    ),
    (
        "ptk trace alone.toml --ticks 20 --partition p --decode --symbols bad.sym",
        1,
    ),
    (
        "ptk explain alone.toml --ticks 20 --partition p --symbols named.sym",
        0,
    ),
    (
        "ptk explain alone.toml --ticks 20 --partition p --symbols named.sym --format json",
        0,
    ),
    (
        "ptk explain alone.toml --ticks 20 --partition p --symbols bad.sym",
        1,
    ),
    (
        "ptk explain alone.toml --ticks 20 --partition q --symbols named.sym",
        1,
    ),
    ("ptk timeline alone.toml --ticks 20 --symbols named.sym", 0),
    (
        "ptk timeline alone.toml --ticks 20 --symbols named.sym --format vcd",
        0,
    ),
    (
        "ptk timeline alone.toml --ticks 20 --symbols bad.sym --format json",
        1,
    ),
    ("ptk timeline alone.toml --ticks 20 --symbols none.sym", 1),
    // the source of an image
    ("ptk disasm hello.img again.s", 0),
    ("ptk asm again.s again.img", 0),
    ("ptk disasm named.img named-again.s --symbols named.sym", 0),
    ("ptk asm named-again.s named-again.img", 0),
    ("ptk disasm short.img none.s", 1),
    ("ptk disasm long.img none.s", 1),
    ("ptk disasm hello.img none/hello.s", 3),
    // the file for the source is that of the image
    ("ptk disasm hello.img hello.img", 2),
    ("ptk disasm hello.img ./hello.img", 2),
    ("ptk disasm none.img none.img", 2),
    // it is that of the symbols
    ("ptk disasm named.img named.sym --symbols named.sym", 2),
    ("ptk disasm named.img ./named.sym --symbols named.sym", 2),
];

/// The files that the commands wrote or left, in the end.
const WRITTEN: [(&str, &[u8]); 4] = [
    // Row hello-source.
    ("hello.img", HELLO_IMAGE),
    ("again.img", HELLO_IMAGE),
    ("named.sym", b"00000000 t _start\n00000024 t end\n"),
    ("kept.img", b"kept"),
];

/// Names that no command wrote a file for.
const UNWRITTEN: [&str; 3] = ["none.img", "none.sym", "none.s"];

/// Files that can't be read, with their faults.
static READS: [(&str, Fault<'static>); 3] = [
    ("none.toml", Fault::MissingFile("none.toml")),
    ("right/x", Fault::MissingFile("right/x")),
    (".", Fault::ReadFailed(".")),
];

/// Files that have no configuration, with their faults.
static CONFIGS: [(&str, Fault<'static>); 2] = [
    ("bytes.toml", Fault::NotText("bytes.toml")),
    ("empty.toml", Fault::Config(2)),
];

/// Configurations with what `check` says of them, whether it explains or not.
static CHECKS: [(&str, Option<Fault<'static>>); 5] = [
    ("alone.toml", None),
    ("folder.toml", Some(Fault::ReadFailed("folder.img"))),
    ("missing.toml", Some(Fault::MissingFile("none.img"))),
    ("second.toml", Some(Fault::MissingFile("none.img"))),
    ("bad.toml", Some(Fault::Image("short.img", 1))),
];

/// Images of which no source is made, with the symbols that are asked for.
static DISASMS: [(&str, Option<&str>, Fault<'static>); 3] = [
    ("short.img", None, Fault::Image("short.img", 1)),
    ("long.img", None, Fault::TooLong("long.img", Section::Bss)),
    ("p.img", Some("bad.sym"), Fault::Symbols("bad.sym", 2)),
];

// Whether the file was written.
fn is_written(rt: &HostRuntime, name: &str, bytes: &[u8]) -> bool {
    fs::write(rt, name, bytes).is_ok()
}

// Whether the text that these parts make was written into a file.
fn is_text_written(rt: &HostRuntime, name: &str, parts: &[&str]) -> bool {
    match parts.concat(rt.alloc()) {
        Ok(text) => is_written(rt, name, text.as_bytes()),
        Err(_) => false,
    }
}

// Whether the test is now in a folder of this name, below the one it was in, in which there are the files, and a
// folder.
fn has_entered(rt: &HostRuntime, folder: &str) -> bool {
    let _left = fs::remove_dir_all(rt, folder);
    fs::create_dir(rt, folder).is_ok()
        && env::set_current_dir(rt, folder).is_ok()
        && fs::create_dir(rt, "folder.img").is_ok()
        && TEXTS
            .iter()
            .all(|(name, parts)| is_text_written(rt, name, parts))
        && BYTES
            .iter()
            .all(|(name, bytes)| is_written(rt, name, bytes))
}

// Whether the test is out of the folder again, and the folder is gone.
fn has_left(rt: &HostRuntime, folder: &str) -> bool {
    env::set_current_dir(rt, "..").is_ok() && fs::remove_dir_all(rt, folder).is_ok()
}

// Whether a file has these bytes.
fn has_bytes(rt: &HostRuntime, name: &str, want: &[u8]) -> bool {
    match fs::read(rt, name) {
        Ok(bytes) => bytes.as_slice() == want,
        Err(_) => false,
    }
}

// Whether a command line has this status.
fn has_status(rt: &HostRuntime, line: &str, status: u8) -> bool {
    match line.split(' ').collect::<Vec<&str>>(rt.alloc()) {
        Ok(words) => answer_words(rt, words.as_slice()) == status,
        Err(_) => false,
    }
}

// Whether a file can't be read, with this fault.
fn is_unread(rt: &HostRuntime, name: &str, want: &Fault<'_>) -> bool {
    match bytes_in(rt, name) {
        Ok(_) => false,
        Err(fault) => fault == *want,
    }
}

// Whether a file has no configuration, with this fault.
fn is_unconfigured(rt: &HostRuntime, name: &str, want: &Fault<'_>) -> bool {
    match config_in(rt, name) {
        Ok(_) => false,
        Err(fault) => fault == *want,
    }
}

// Whether `check` says this of the configuration in a file.
fn is_checked(rt: &HostRuntime, file: &str, explain: bool, want: &Option<Fault<'_>>) -> bool {
    let options = CheckOptions {
        file,
        root: None,
        explain,
        format: Format::Text,
    };
    match (text_in(rt, file), config_in(rt, file)) {
        (Ok(text), Ok(config)) => {
            check_config(rt, text.as_str(), &config, options, &mut rt.stdout()).err() == *want
        }
        _ => false,
    }
}

// Whether no source is made of an image, with this fault.
fn is_left<'a>(
    rt: &HostRuntime,
    image: &'a str,
    symbols: Option<&'a str>,
    want: &Fault<'_>,
) -> bool {
    let options = DisasmOptions {
        image,
        target: Some("none.s"),
        symbols,
    };
    match disasm_file(rt, options, &mut rt.stdout()) {
        Ok(_) => false,
        Err(fault) => fault == *want,
    }
}

// Asserts the status of each command, in their order.
fn check_commands(rt: &impl Abort, host: &HostRuntime) {
    for (line, status) in COMMANDS.iter() {
        assert!(rt; has_status(host, line, *status), "{line}");
    }
}

// Asserts the files that the commands wrote or left.
fn check_written(rt: &impl Abort, host: &HostRuntime) {
    for (name, bytes) in WRITTEN.iter() {
        assert!(rt; has_bytes(host, name, bytes), "{name}");
    }
    assert!(rt; has_bytes(host, "hello.s", HELLO_SOURCE.as_bytes()));
}

// Asserts that the files for which there was nothing to write are not there.
fn check_unwritten(rt: &impl Abort, host: &HostRuntime) {
    for name in UNWRITTEN.iter() {
        assert!(rt; is_unread(host, name, &Fault::MissingFile(name)), "{name}");
    }
}

#[test]
fn each_command_has_its_status(rt: HostRuntime) {
    assert!(rt; has_entered(&rt, "each-command-has-its-status"));
    check_commands(&rt, &rt);
    check_written(&rt, &rt);
    check_unwritten(&rt, &rt);
    assert!(rt; has_left(&rt, "each-command-has-its-status"));
}

// Asserts the faults of the files that can't be read.
fn check_unread(rt: &impl Abort, host: &HostRuntime) {
    for (name, fault) in READS.iter() {
        assert!(rt; is_unread(host, name, fault), "{name}");
    }
}

// Asserts the faults of the files that have no configuration.
fn check_unconfigured(rt: &impl Abort, host: &HostRuntime) {
    for (name, fault) in CONFIGS.iter() {
        assert!(rt; is_unconfigured(host, name, fault), "{name}");
    }
}

// Asserts what `check` says of each configuration, whether it explains or not.
fn check_checked(rt: &impl Abort, host: &HostRuntime, explain: bool) {
    for (file, fault) in CHECKS.iter() {
        assert!(rt; is_checked(host, file, explain, fault), "{file}");
    }
}

// Asserts of which images no source is made.
fn check_left(rt: &impl Abort, host: &HostRuntime) {
    for (image, symbols, fault) in DISASMS.iter() {
        assert!(rt; is_left(host, image, *symbols, fault), "{image}");
    }
}

// Whether a fault of an empty text stays as it is if it is explained.
fn is_kept(rt: &HostRuntime, fault: Fault<'static>) -> bool {
    refusal_explained(rt.alloc(), "", fault, &mut rt.stdout()) == fault
}

#[test]
fn each_fault_is_told(rt: HostRuntime) {
    assert!(rt; has_entered(&rt, "each-fault-is-told"));
    check_unread(&rt, &rt);
    check_unconfigured(&rt, &rt);
    check_checked(&rt, &rt, false);
    check_checked(&rt, &rt, true);
    check_left(&rt, &rt);
    assert!(rt; is_kept(&rt, Fault::Config(2)));
    assert!(rt; is_kept(&rt, Fault::NoMemory));
    assert!(rt; has_left(&rt, "each-fault-is-told"));
}

#[test]
fn words_that_cannot_be_read_have_statuses(rt: HostRuntime) {
    assert!(rt; unread(&rt, io::ErrorKind::InvalidData) == 2);
    assert!(rt; unread(&rt, io::ErrorKind::OutOfMemory) == 3);
    assert!(rt; usage(&rt, &clap::Error::from(AllocError)) == 3);
}

// Whether the place of a source's fault is written as these words.
fn is_place(rt: &HostRuntime, source: &str, want: &str) -> bool {
    let mut out = Vec::new(rt.alloc());
    match assemble(rt.alloc(), source) {
        Ok(_) => false,
        Err(fault) => {
            put_place(source.as_bytes(), &fault, &mut out).is_ok()
                && out.as_slice() == want.as_bytes()
        }
    }
}

#[test]
fn a_refused_source_has_a_place(rt: HostRuntime) {
    let source = "nop\naddi a0, a0, 2048\n";
    let want = "line 2, column 14: 2048: number, distance, offset or section out of range\n";
    assert!(rt; is_place(&rt, source, want));
}
