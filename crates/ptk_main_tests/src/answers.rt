//! The bytes that each request has written, for row hello with a trace of two steps, and the words of its
//! configuration, with its image and without; and that a check and the words end if their writer fails. What is
//! wanted was worked out by hand. A helper that promises nothing is between each row and the calls that it tests.

use ptk_config::{Config, read_config};
use ptk_disasm::{Symbols, read_symbols};
use ptk_main_commands::answers::{
    Files, RunQuestion, Watch, check_document, check_with, explain_with, run_answer, trace_answer,
};
use ptk_main_commands::timeline_answer;
use ptk_main_guests::guest_of;
use ptk_main_guests::sources::HELLO;
use ptk_main_line::{FailOn, Format, PictureFormat};
use ptk_main_tools::{FailureKind, Fault};
use ptk_words::Tick;
use std::alloc::Global;
use std::io::Write;
use std::process::Abort;

const HELLO_TEXT: &str =
    "frame = 20\n[[partition]]\nname = \"p\"\nimage = \"p.img\"\nmemory = 4096\nthreads = 4\nstack = 256\nmutexes = 4\nconds = 4\nkeys = 4\ninterval = 100\nring = 16\noutput = 64\ntrace = 2\n[[window]]\nstart = 0\nlength = 20\npartition = \"p\"\n";

const HELLO_REPORT: &str = "partition p exit 0 steps 9 lost 0\noutput 2\nhi\n";

const OTHER_REPORT: &str = "partition p exit 0 steps 9 lost 0\noutput 2\nho\n";

const CUT_REPORT: &str = "partition p running steps 3 lost 0\noutput 1\nh\n";

const SHORT_TRACE: &str =
    "13 1 0x0000001c 0x00000513 0x00000000\n14 1 0x00000020 0x00000073 0x00000000\n";

const HELLO_WORDS: &str =
    "frame 20 ticks\npartition p\n  memory 4096, threads 4, stack 256, mutexes 4, conds 4, keys 4, \
    interval 100, ring 16, output 64, trace 2\n  \
    image p.img: text 36, data 0, bss 0; 3036 bytes free below the stacks\n  \
    from frame 0: 100.0 percent of the frame: 20 ticks at 0\n";

// Nobody, who watches a run.
struct Nobody;

impl Watch for Nobody {
    fn reached(&mut self, _tick: Tick, _last: Tick) {}
}

// A run to a tick, of whose report nothing is expected.
fn run_to(ticks: u64) -> RunQuestion<'static> {
    RunQuestion {
        ticks: Tick::new(ticks),
        until_halted: false,
        format: Format::Text,
        expected: None,
        fail_on: FailOn::NONE,
    }
}

// What a run returns.
fn run<'a, W: Write>(
    alloc: Global,
    config: &'a Config,
    files: &Files,
    question: &RunQuestion<'_>,
    out: &mut W,
) -> Result<(), Fault<'a>> {
    if question.ticks.ticks() > 5000 {
        return Ok(());
    }
    let mut nobody = Nobody;
    let outcome = run_answer(alloc, config, files, question, &mut nobody, out);
    let Nobody = nobody;
    outcome
}

// Whether a run is done, and this is its report.
fn is_run(
    alloc: Global,
    config: &Config,
    files: &Files,
    question: &RunQuestion<'_>,
    want: &str,
) -> bool {
    let mut out = Vec::new(alloc);
    run(alloc, config, files, question, &mut out).is_ok() && is_text(&out, want)
}

// Whether this is the trace of p at a tick.
fn is_traced(alloc: Global, config: &Config, files: &Files, tick: u16, want: &str) -> bool {
    let mut out = Vec::new(alloc);
    let tick = Tick::new(u64::from(tick));
    trace_answer(alloc, config, files, tick, "p", &mut out).is_ok() && is_text(&out, want)
}

// Whether a check says that all is in order.
fn is_sound(alloc: Global, config: &Config, files: &Files) -> bool {
    let mut out = Vec::new(alloc);
    check_with(alloc, config, files, &mut out).is_ok() && is_text(&out, "ok\n")
}

// What a check returns with a writer of this much room, of at most 3 bytes.
fn check_into<'a>(
    alloc: Global,
    config: &'a Config,
    files: &Files,
    most: usize,
) -> Result<(), Fault<'a>> {
    let mut bytes = [0u8; 3];
    match bytes.get_mut(..most) {
        Some(mut room) => check_with(alloc, config, files, &mut room),
        None => Ok(()),
    }
}

// Whether the bytes are those of the text that is wanted.
fn is_text(got: &[u8], want: &str) -> bool {
    got == want.as_bytes()
}

// The picture of the ticks from this one to tick 20, as SVG, with names by these symbols.
fn picture<'a, W: Write>(
    alloc: Global,
    config: &'a Config,
    files: &Files,
    symbols: &Symbols<'_>,
    from: u16,
    out: &mut W,
) -> Result<(), Fault<'a>> {
    let (from, to) = (Tick::new(u64::from(from)), Tick::new(20));
    let form = PictureFormat::Svg;
    timeline_answer(
        alloc,
        config,
        files,
        symbols,
        "hello.toml",
        form,
        from,
        to,
        out,
    )
}

// What a picture has of thread 1 whose start has no name, and of one that starts at a routine of the name `a<b&c`.
const UNNAMED: &str = ">thread 1</text>";

const NAMED: &str = ">1 a&lt;b&amp;c<title>thread 1 starts at a&lt;b&amp;c</title></text>";

// Whether a picture from tick 0 on, with names by this table of symbols, is drawn.
fn is_drawn(alloc: Global, config: &Config, files: &Files, table: &str, out: &mut Vec<u8>) -> bool {
    match read_symbols(alloc, table) {
        Ok(symbols) => picture(alloc, config, files, &symbols, 0, out).is_ok(),
        Err(_) => false,
    }
}

// Whether a picture is the plain one but for the name of thread 1.
fn is_named(plain: &[u8], named: &[u8]) -> bool {
    match (str::from_utf8(plain), str::from_utf8(named)) {
        (Ok(plain), Ok(named)) => is_renamed(plain, named),
        _ => false,
    }
}

// Whether a text is the plain one but for the name of thread 1.
fn is_renamed(plain: &str, named: &str) -> bool {
    match named.split_once(NAMED) {
        Some((head, tail)) => is_around(plain, head, tail),
        None => false,
    }
}

// Whether these are the parts of the plain text before and after thread 1.
fn is_around(plain: &str, head: &str, tail: &str) -> bool {
    match plain.split_once(UNNAMED) {
        Some((before, after)) => before == head && after == tail,
        None => false,
    }
}

// Asserts what a picture with names has.
fn check_names(rt: &impl Abort, alloc: Global, config: &Config, files: &Files) {
    let (mut plain, mut out) = (Vec::new(alloc), Vec::new(alloc));
    assert!(rt; is_drawn(alloc, config, files, "", &mut plain));
    assert!(rt; is_drawn(alloc, config, files, "00000004 t other\n", &mut out));
    assert!(rt; out.as_slice() == plain.as_slice());
    let mut out = Vec::new(alloc);
    assert!(rt; is_drawn(alloc, config, files, "00000000 T a<b&c\n", &mut out));
    assert!(rt; is_named(&plain, &out));
}

// Asserts what a picture is without names, with a writer that has too little room, and of no tick.
fn check_pictures(rt: &impl Abort, alloc: Global, config: &Config, files: &Files) {
    let nameless = Symbols::new(alloc);
    let mut out = Vec::new(alloc);
    assert!(rt; picture(alloc, config, files, &nameless, 0, &mut out) == Ok(()));
    assert!(rt; out.starts_with(b"<svg ") && out.ends_with(b"</svg>\n"));
    let mut bytes = [0u8; 200];
    let mut room = bytes.as_mut_slice();
    assert!(rt; picture(alloc, config, files, &nameless, 0, &mut room) == Err(Fault::WriteFailed));
    let late = picture(alloc, config, files, &nameless, 20, &mut room);
    assert!(rt; late == Err(Fault::NothingFrom(20)));
}

// Asserts what each request writes.
fn check_answers(rt: &impl Abort, alloc: Global, config: &Config, files: &Files) {
    assert!(rt; is_run(alloc, config, files, &run_to(20), HELLO_REPORT));
    // Row cut-run.
    assert!(rt; is_run(alloc, config, files, &run_to(3), CUT_REPORT));
    // Row short-trace.
    assert!(rt; is_traced(alloc, config, files, 20, SHORT_TRACE));
    assert!(rt; is_sound(alloc, config, files));
    for most in 0..3 {
        assert!(rt;
            check_into(alloc, config, files, most) == Err(Fault::WriteFailed),
            "at {most}"
        );
    }
    assert!(rt; check_into(alloc, config, files, 3) == Ok(()));
}

const HELLO_JSON: &str =
    "{\"format\":\"ptk run 1\",\"ticks\":20,\"partitions\":[{\"name\":\"p\",\"status\":\"exit\",\"code\":0,\"steps\":9,\"lost\":0,\"output\":\"aGk=\"}]}\n";

// The same at the first multiple of 1,024 ticks at which the partition has halted.
const HALTED_JSON: &str =
    "{\"format\":\"ptk run 1\",\"ticks\":1024,\"partitions\":[{\"name\":\"p\",\"status\":\"exit\",\"code\":0,\"steps\":9,\"lost\":0,\"output\":\"aGk=\"}]}\n";

const REFUSED_JSON: &str =
    "{\"format\":\"ptk check 1\",\"answer\":\"refused\",\"fault\":\"ptk: config fault 2\",\"explanation\":\"key frame: missing\\n\"}\n";

// Whether a run is not as expected from its byte 44 on, with `i` in place of `o`, and has its report all the same.
fn is_other(alloc: Global, config: &Config, files: &Files, question: &RunQuestion<'_>) -> bool {
    let mut out = Vec::new(alloc);
    let differs = Fault::Differs(44, 3, Some(105), Some(111));
    run(alloc, config, files, question, &mut out) == Err(differs) && is_text(&out, HELLO_REPORT)
}

// Asserts what a run is that has a form, is expected to be something, or ends early.
fn check_expectations(rt: &impl Abort, alloc: Global, config: &Config, files: &Files) {
    let json = RunQuestion {
        format: Format::Json,
        ..run_to(20)
    };
    assert!(rt; is_run(alloc, config, files, &json, HELLO_JSON));
    let halted = RunQuestion {
        until_halted: true,
        ticks: Tick::new(5000),
        ..json
    };
    assert!(rt; is_run(alloc, config, files, &halted, HALTED_JSON));
    let same = RunQuestion {
        expected: Some(HELLO_REPORT.as_bytes()),
        until_halted: true,
        ..run_to(1000)
    };
    assert!(rt; is_run(alloc, config, files, &same, HELLO_REPORT));
    let other = RunQuestion {
        expected: Some(OTHER_REPORT.as_bytes()),
        ..run_to(20)
    };
    assert!(rt; is_other(alloc, config, files, &other));
}

#[test]
fn each_request_has_its_answer(rt: HostRuntime) {
    let alloc = rt.alloc();
    match guest_of(alloc, &[HELLO_TEXT], &[HELLO]) {
        Some((config, files)) => {
            check_answers(&rt, alloc, &config, &files);
            check_pictures(&rt, alloc, &config, &files);
            check_names(&rt, alloc, &config, &files);
            check_expectations(&rt, alloc, &config, &files);
        }
        None => assert!(rt; false, "no memory"),
    }
}

// Asserts what is written of a text with these files, whether it is refused, and that a writer of 3 bytes fails.
fn check_words(
    rt: &impl Abort,
    alloc: Global,
    text: &str,
    files: &Files,
    is_refused: bool,
    want: &str,
) {
    let mut out = Vec::new(alloc);
    match explain_with(alloc, text, files, &mut out) {
        Ok(found) => assert!(rt; found.is_some() == is_refused),
        Err(_) => assert!(rt; false, "no memory"),
    }
    assert!(rt; is_text(&out, want));
    let mut bytes = [0u8; 3];
    let mut room = bytes.as_mut_slice();
    assert!(rt; explain_with(alloc, text, files, &mut room) == Err(Fault::WriteFailed));
}

#[test]
fn a_text_is_explained(rt: HostRuntime) {
    let alloc = rt.alloc();
    match guest_of(alloc, &[HELLO_TEXT], &[HELLO]) {
        Some((_config, files)) => {
            check_words(&rt, alloc, HELLO_TEXT, &files, false, HELLO_WORDS);
            let line = "key partition: missing\n";
            check_words(&rt, alloc, "frame = 20\n", &files, true, line);
            let line = "the text, line 2: not TOML\n";
            check_words(&rt, alloc, "frame = 20\n[partition\n", &files, true, line);
            let none = Files::new(alloc);
            let line = "section 1 \"p\", image p.img: no such file\n";
            check_words(&rt, alloc, HELLO_TEXT, &none, false, line);
        }
        None => assert!(rt; false, "no memory"),
    }
}

#[test]
fn a_run_fails_on_its_kinds(rt: HostRuntime) {
    let alloc = rt.alloc();
    let mut files = Files::new(alloc);
    assert!(rt; files.add("p.img", b"PTKI").is_ok());
    match read_config(alloc, HELLO_TEXT) {
        Ok(config) => {
            let kinds = RunQuestion {
                fail_on: FailOn::NONE.with(FailureKind::Refused),
                ..run_to(20)
            };
            let mut out = Vec::new(alloc);
            assert!(rt;
                run(alloc, &config, &files, &kinds, &mut out)
                    == Err(Fault::FailedOn("p", FailureKind::Refused))
            );
        }
        Err(_) => assert!(rt; false, "no memory"),
    }
}

#[test]
fn a_refused_check_is_one_object(rt: HostRuntime) {
    let mut out = Vec::new(rt.alloc());
    let fault = Fault::Config(2);
    assert!(rt;
        check_document(rt.alloc(), Some(&fault), "key frame: missing\n", &mut out) == Ok(())
    );
    assert!(rt; is_text(&out, REFUSED_JSON));
}
