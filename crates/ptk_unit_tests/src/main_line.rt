//! Each subcommand once with its values, the bounds of N, and the kinds of the errors.

use clap::Error;
use clap::error::ErrorKind;
use ptk_main_line::{
    FAILURE_KINDS, FailOn, FailureKind, Format, NamedDeadline, PictureFormat, Request, RunOptions,
    StatsOptions, TimelineOptions, TraceOptions, not_text, read_line, undecoded,
};
use std::alloc::{AllocError, Global};
use std::process::Abort;

/// Whether an error has this kind, and goes to stderr or not.
fn is_error(error: &Error, kind: ErrorKind, is_usage: bool) -> bool {
    error.kind() == kind && error.use_stderr() == is_usage
}

/// Whether the words are refused with an error of this kind, which goes to stderr or not.
fn is_refused(alloc: Global, words: &[&str], kind: ErrorKind, is_usage: bool) -> bool {
    match read_line(alloc, words) {
        Ok(_) => false,
        Err(error) => is_error(&error, kind, is_usage),
    }
}

/// What the words ask for, None if they are refused.
fn request<'a>(alloc: Global, words: &'a [&'a str]) -> Option<Request<'a>> {
    read_line(alloc, words).ok()
}

/// Words of `run` with each of its options, and what they ask for.
const RUN: &[&str] = &[
    "ptk",
    "run",
    "--root",
    "d",
    "a.toml",
    "--ticks",
    "1099511627776",
    "--expect",
    "a.report",
    "--fail-on",
    "idle,fault,lost-input,idle",
    "--deadline",
    "p:1=20,a-b:32=1099511627776",
    "--until-halted",
    "--quiet",
    "--format",
    "json",
    "--explain",
];

/// Whether there is a text, and it is this one.
fn is_text(found: Option<&str>, want: &str) -> bool {
    match found {
        Some(text) => text == want,
        None => false,
    }
}

/// Whether there is a number, and it is this one.
fn is_number(found: Option<u64>, want: u64) -> bool {
    match found {
        Some(number) => number == want,
        None => false,
    }
}

/// Whether these are the texts and the number of `RUN`.
fn has_texts_of_run(options: &RunOptions<'_>) -> bool {
    options.run.file == "a.toml"
        && options.run.ticks == 1_099_511_627_776
        && is_text(options.run.root, "d")
        && is_text(options.expect, "a.report")
        && is_text(options.deadline, "p:1=20,a-b:32=1099511627776")
}

/// The kinds of `RUN`.
const KINDS: [FailureKind; 3] = [
    FailureKind::Fault,
    FailureKind::Idle,
    FailureKind::LostInput,
];

/// Whether these are the kinds of `RUN` and no others.
fn has_kinds_of_run(fail_on: FailOn) -> bool {
    for kind in FAILURE_KINDS.iter() {
        if fail_on.has(*kind) != KINDS.contains(kind) {
            return false;
        }
    }
    true
}

/// Whether these are the other options of `RUN`.
fn has_choices_of_run(options: &RunOptions<'_>) -> bool {
    has_kinds_of_run(options.fail_on)
        && options.until_halted
        && options.quiet
        && options.explain
        && options.format == Format::Json
}

#[test]
fn reads_run(rt: HostRuntime) {
    let Some(Request::Run(options)) = request(rt.alloc(), RUN) else {
        rt.abort()
    };
    assert!(rt; has_texts_of_run(&options));
    assert!(rt; has_choices_of_run(&options));
}

/// Words of `trace` with each of its options, words of it with none, and words of `timeline`.
const TRACE: &[&str] = &[
    "ptk",
    "trace",
    "a.toml",
    "--ticks",
    "20",
    "--partition",
    "p",
    "--decode",
    "--symbols",
    "a.sym",
    "--thread",
    "32",
    "--calls",
    "--from",
    "3",
    "--to",
    "5",
    "--last",
    "1048576",
];

const PLAIN_TRACE: &[&str] = &[
    "ptk",
    "trace",
    "a.toml",
    "--ticks",
    "20",
    "--partition",
    "p",
    "--last",
    "1",
];

const TIMELINE: &[&str] = &[
    "ptk",
    "timeline",
    "a.toml",
    "--ticks",
    "20",
    "--from",
    "7",
    "--format",
    "vcd",
    "--symbols",
    "a.sym",
];

/// The options of these words of `trace`, None if they are none.
fn trace_of<'a>(alloc: Global, words: &'a [&'a str]) -> Option<TraceOptions<'a>> {
    match request(alloc, words)? {
        Request::Trace(options) => Some(options),
        _ => None,
    }
}

/// Whether these are the texts of `TRACE`, and its options without a value.
fn has_texts_of_trace(options: &TraceOptions<'_>) -> bool {
    options.run.root.is_none()
        && options.partition == "p"
        && options.decode
        && options.calls
        && options.wants_words()
        && !options.explain
        && is_text(options.symbols, "a.sym")
}

/// Whether these are the numbers of `TRACE`.
fn has_numbers_of_trace(options: &TraceOptions<'_>) -> bool {
    is_number(options.last, 1_048_576)
        && is_number(options.thread, 32)
        && is_number(options.from, 3)
        && is_number(options.to, 5)
}

#[test]
fn reads_trace(rt: HostRuntime) {
    let Some(options) = trace_of(rt.alloc(), TRACE) else {
        rt.abort()
    };
    assert!(rt; has_texts_of_trace(&options));
    assert!(rt; has_numbers_of_trace(&options));
    let Some(options) = trace_of(rt.alloc(), PLAIN_TRACE) else {
        rt.abort()
    };
    assert!(rt; !options.decode && !options.wants_words());
}

/// Whether these are the options of `TIMELINE`.
fn is_timeline(options: &TimelineOptions<'_>) -> bool {
    is_number(options.from, 7)
        && options.format == PictureFormat::Vcd
        && is_text(options.symbols, "a.sym")
}

#[test]
fn reads_timeline(rt: HostRuntime) {
    let Some(Request::Timeline(options)) = request(rt.alloc(), TIMELINE) else {
        rt.abort()
    };
    assert!(rt; is_timeline(&options));
}

/// Words of `stats` with each of its options, and with none.
const STATS: &[&str] = &[
    "ptk",
    "stats",
    "a.toml",
    "--ticks",
    "20",
    "--from",
    "7",
    "--deadline",
    "p:2=5",
    "--stack",
];

const PLAIN_STATS: &[&str] = &["ptk", "stats", "a.toml", "--ticks", "20"];

/// The options of these words of `stats`, None if they are none.
fn stats_of<'a>(alloc: Global, words: &'a [&'a str]) -> Option<StatsOptions<'a>> {
    match request(alloc, words)? {
        Request::Stats(options) => Some(options),
        _ => None,
    }
}

#[test]
fn reads_stats(rt: HostRuntime) {
    let Some(options) = stats_of(rt.alloc(), STATS) else {
        rt.abort()
    };
    assert!(rt; is_number(options.from, 7) && is_text(options.deadline, "p:2=5") && options.stack);
    let Some(options) = stats_of(rt.alloc(), PLAIN_STATS) else {
        rt.abort()
    };
    assert!(rt; options.from.is_none() && options.deadline.is_none() && !options.stack);
}

/// Words of deadlines, and what they name: a partition, a thread and ticks.
const DEADLINES: [(&str, &str, u8, u64); 2] = [
    ("p:1=20", "p", 1, 20),
    ("a-b:32=1099511627776", "a-b", 32, 1_099_511_627_776),
];

/// Words that name no deadline.
const NO_DEADLINES: [&str; 7] = [
    "p:0=20",
    "p:33=20",
    "p:1=1099511627777",
    "p:1=",
    "p=20",
    "1=20",
    "",
];

/// Whether a word names this deadline.
fn is_deadline(word: &str, partition: &str, thread: u8, ticks: u64) -> bool {
    match NamedDeadline::read(word) {
        Some(found) => {
            found.partition == partition && found.thread == thread && found.ticks == ticks
        }
        None => false,
    }
}

#[test]
fn reads_deadlines(rt: HostRuntime) {
    for (word, partition, thread, ticks) in DEADLINES.iter() {
        assert!(rt; is_deadline(word, partition, *thread, *ticks), "{word}");
    }
    for word in NO_DEADLINES.iter() {
        assert!(rt; NamedDeadline::read(word).is_none(), "{word}");
    }
}

/// Words, and the kind of their error. Help alone does not go to stderr.
const REFUSALS: [(&[&str], ErrorKind); 23] = [
    (
        &["ptk", "run", "a.toml", "--ticks", "1099511627777"],
        ErrorKind::ValueValidation,
    ),
    (
        &["ptk", "run", "a.toml", "--ticks", "x"],
        ErrorKind::ValueValidation,
    ),
    (
        &["ptk", "run", "a.toml", "--ticks", ""],
        ErrorKind::ValueValidation,
    ),
    (
        &["ptk", "run", "a.toml", "--ticks=-1"],
        ErrorKind::ValueValidation,
    ),
    (
        &["ptk", "run", "a.toml", "--ticks", "-1"],
        ErrorKind::UnknownArgument,
    ),
    (
        &["ptk", "run", "a.toml", "--ticks", "20", "--fail-on", "halt"],
        ErrorKind::InvalidValue,
    ),
    (
        &[
            "ptk",
            "run",
            "a.toml",
            "--ticks",
            "20",
            "--fail-on",
            "idle,",
        ],
        ErrorKind::InvalidValue,
    ),
    (
        &[
            "ptk",
            "stats",
            "a.toml",
            "--ticks",
            "20",
            "--deadline",
            "p=5",
        ],
        ErrorKind::InvalidValue,
    ),
    (
        &["ptk", "check", "a.toml", "b.toml"],
        ErrorKind::UnknownArgument,
    ),
    (
        &["ptk", "check", "a.toml", "--explain", "--explain"],
        ErrorKind::ArgumentConflict,
    ),
    (
        &["ptk", "check", "a.toml", "--explain=true"],
        ErrorKind::TooManyValues,
    ),
    (
        &["ptk", "check", "--explain"],
        ErrorKind::MissingRequiredArgument,
    ),
    (
        &["ptk", "impact", "a.toml"],
        ErrorKind::MissingRequiredArgument,
    ),
    (
        &["ptk", "impact", "a.toml", "b.toml", "--format", "xml"],
        ErrorKind::InvalidValue,
    ),
    (
        &["ptk", "run", "--ticks", "20"],
        ErrorKind::MissingRequiredArgument,
    ),
    (
        &["ptk", "run", "a.toml"],
        ErrorKind::MissingRequiredArgument,
    ),
    (
        &["ptk", "trace", "a.toml", "--ticks", "20"],
        ErrorKind::MissingRequiredArgument,
    ),
    (
        &[
            "ptk", "timeline", "a.toml", "--ticks", "20", "--format", "png",
        ],
        ErrorKind::InvalidValue,
    ),
    (&["ptk", "asm", "a.s"], ErrorKind::MissingRequiredArgument),
    (&["ptk", "stop"], ErrorKind::InvalidSubcommand),
    (&["ptk"], ErrorKind::MissingSubcommand),
    (&["ptk", "run", "--help"], ErrorKind::DisplayHelp),
    (&["ptk", "--help"], ErrorKind::DisplayHelp),
];

#[test]
fn refuses_other_words(rt: HostRuntime) {
    for (words, kind) in REFUSALS.iter() {
        let is_usage = *kind != ErrorKind::DisplayHelp;
        assert!(rt; is_refused(rt.alloc(), words, *kind, is_usage));
    }
}

/// Words, and parts of what help says for them.
const HELP: [(&[&str], &[&str]); 5] = [
    (
        &["ptk", "run", "--help"],
        &["ptk run hello.toml --ticks 20", STATUS, FAULT, USAGE],
    ),
    (
        &["ptk", "trace", "--help"],
        &[
            "ptk trace hello.toml --ticks 20 --partition p",
            STATUS,
            FAULT,
            USAGE,
        ],
    ),
    (
        &["ptk", "asm", "--help"],
        &["ptk asm hello.s hello.img", STATUS, FAULT, USAGE],
    ),
    (
        &["ptk", "check", "--help"],
        &[
            "ptk check hello.toml\n  ptk check hello.toml --explain",
            STATUS,
            FAULT,
            USAGE,
        ],
    ),
    (
        &["ptk", "--help"],
        &["Exit status:", "ptk run hello.toml --ticks 20", "check  "],
    ),
];

const STATUS: &str = "Exit status:\n  0  ";

const FAULT: &str = "\n  1  ";

const USAGE: &str = "\n  2  usage";

/// Whether a text has all these parts.
fn has_all(text: &str, parts: &[&str]) -> bool {
    for part in parts {
        if !text.contains(*part) {
            return false;
        }
    }
    true
}

/// Whether an error says all these parts.
fn says(alloc: Global, error: &Error, parts: &[&str]) -> bool {
    match format!(in alloc; "{error}") {
        Ok(text) => has_all(text.as_str(), parts),
        Err(_) => false,
    }
}

/// Whether help says all these parts for the words.
fn says_all(alloc: Global, words: &[&str], parts: &[&str]) -> bool {
    match read_line(alloc, words) {
        Ok(_) => false,
        Err(error) => says(alloc, &error, parts),
    }
}

#[test]
fn help_says_the_statuses_and_an_example(rt: HostRuntime) {
    for (words, parts) in HELP.iter() {
        assert!(rt; says_all(rt.alloc(), words, parts));
    }
}

/// Whether there is an error, of this kind, which goes to stderr; it is not if memory ran out.
fn is_usage(error: Result<Error, AllocError>, kind: ErrorKind) -> bool {
    match error {
        Ok(error) => is_error(&error, kind, true),
        Err(_) => false,
    }
}

#[test]
fn words_that_are_no_text_or_choose_without_decode_are_a_usage_error(rt: HostRuntime) {
    assert!(rt; is_usage(not_text(rt.alloc()), ErrorKind::ValueValidation));
    assert!(rt; is_usage(undecoded(rt.alloc()), ErrorKind::MissingRequiredArgument));
}
