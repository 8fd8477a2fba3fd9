//! What is written of pairs of configurations. What is wanted was worked out by hand. A helper that promises nothing is
//! between each row and the calls that it tests.

use crate::parts::{FIRST, FRAME, NUMBERS, SECOND};
use crate::statistics::EXIT;
use ptk_main_commands::answers::{run_with, trace_with};
use ptk_main_commands::impacts::{Question, Release, impact_json_with, impact_with};
use ptk_main_guests::{Config, Files, P, config_of, image_of};
use ptk_main_line::Format;
use ptk_main_tools::Fault;
use ptk_words::Tick;
use std::alloc::Global;
use std::process::Abort;

// The table of partition q, whose image is that of p: two steps.
const Q: &str = "[[partition]]\nname = \"q\"\nimage = \"p.img\"\n";

// The same partitions with other images, with bytes that are none, and with no image.
const OTHER_P: &str = "[[partition]]\nname = \"p\"\nimage = \"other.img\"\n";

const BAD_P: &str = "[[partition]]\nname = \"p\"\nimage = \"bad.img\"\n";

const MISSING_P: &str = "[[partition]]\nname = \"p\"\nimage = \"none.img\"\n";

const BARE_Q: &str = "[[partition]]\nname = \"q\"\n";

// p's window in the later half of the frame, and in the whole frame.
const P_SECOND: &str = "[[window]]\nstart = 20\nlength = 20\npartition = \"p\"\n";

const WHOLE: &str = "[[window]]\nstart = 0\nlength = 40\npartition = \"p\"\n";

// p and its window under another name.
const PILOT_P: &str = "[[partition]]\nname = \"pilot\"\nimage = \"p.img\"\n";

const PILOT_FIRST: &str = "[[window]]\nstart = 0\nlength = 20\npartition = \"pilot\"\n";

// The window of p for q.
const Q_FIRST: &str = "[[window]]\nstart = 0\nlength = 20\npartition = \"q\"\n";

/// The windows of both partitions in the other half of a frame of 80 ticks.
const AGAIN: &str =
    "[[window]]\nstart = 40\nlength = 20\npartition = \"p\"\n[[window]]\nstart = 60\nlength = 20\npartition = \"q\"\n";

/// Stages: the windows in another order from frame 3 on, swapped from frame 2 on, that of p moved from frame 1 on.
const REORDERED: &str =
    "[[plan]]\nfrom = 3\n[[plan.window]]\nstart = 20\nlength = 20\npartition = \"q\"\n[[plan.window]]\nstart = 0\nlength = 20\npartition = \"p\"\n";

const SWAPPED: &str =
    "[[plan]]\nfrom = 2\n[[plan.window]]\nstart = 0\nlength = 20\npartition = \"q\"\n[[plan.window]]\nstart = 20\nlength = 20\npartition = \"p\"\n";

const MOVED: &str =
    "[[plan]]\nfrom = 1\n[[plan.window]]\nstart = 20\nlength = 20\npartition = \"p\"\n";

/// Both partitions in a frame of 40 ticks.
const BOTH: [&str; 7] = [FRAME, P, NUMBERS, Q, NUMBERS, FIRST, SECOND];

/// p alone, in the same window.
const ALONE: [&str; 4] = [FRAME, P, NUMBERS, FIRST];

// The guest `EXIT` with one bit other: its second word is no instruction.
const OTHER: &str = "
    li a7, 0
    .word 0x01000073
";

/// Two configurations, a question on the way from one to the other, whether the run is the same or why there is no
/// answer, and what is written.
struct Case<'a> {
    old: &'a [&'a str],
    new: &'a [&'a str],
    question: Question<'a>,
    outcome: Result<bool, Fault<'a>>,
    written: &'a str,
}

/// The question for all partitions under their own names.
const ALL: Question<'static> = Question {
    partition: None,
    rename: None,
};

/// The question for all partitions, of which p has the name pilot.
const PILOT: Question<'static> = Question {
    partition: None,
    rename: Some("p=pilot"),
};

/// The question for p, which has the name pilot.
const PILOT_AS_P: Question<'static> = Question {
    partition: Some("p"),
    rename: Some("p=pilot"),
};

/// An input byte of p, the same byte a tick later, and another one after it.
const BYTE: &str = "input = [{ at = 5, bytes = [65] }]\n";

const LATER_BYTE: &str = "input = [{ at = 6, bytes = [65] }]\n";

const TWO_BYTES: &str = "input = [{ at = 5, bytes = [65, 66] }]\n";

/// The numbers with a longer trace, and with more memory and a key less.
const TRACE_64: &str = "trace = 64\n";

const WITHOUT_TRACE: &str =
    "memory = 4096\nthreads = 4\nstack = 256\nmutexes = 4\nconds = 4\nkeys = 4\ninterval = 100\nring = 16\noutput = 64\n";

const CHANGED: &str =
    "memory = 8192\nthreads = 4\nstack = 256\nmutexes = 4\nconds = 4\nkeys = 3\ninterval = 100\nring = 16\noutput = 64\ntrace = 16\n";

// Whether the image of a guest is now in the file of this name.
fn is_added(alloc: Global, files: &mut Files, name: &str, source: &str) -> bool {
    match image_of(alloc, &[source]) {
        Some(image) => files.add(name, &image).is_ok(),
        None => false,
    }
}

// Whether the files are there now: two images, of which the other one has a name with a quotation mark too, and one
// that is none.
fn are_added(alloc: Global, files: &mut Files) -> bool {
    is_added(alloc, files, "p.img", EXIT)
        && is_added(alloc, files, "other.img", OTHER)
        && is_added(alloc, files, "a\".img", OTHER)
        && files.add("bad.img", b"no image").is_ok()
}

// Whether this comes of a case's question on the way from one release to another, in a format.
fn is_outcome(
    alloc: Global,
    before: Release<'_, '_>,
    after: Release<'_, '_>,
    case: &Case<'_>,
    format: Format,
) -> bool {
    let mut out = Vec::new(alloc);
    let answer = match format {
        Format::Text => impact_with(alloc, before, after, case.question, &mut out),
        Format::Json => impact_json_with(alloc, before, after, case.question, &mut out),
    };
    match (answer, &case.outcome) {
        (Ok(tally), Ok(is_same)) => {
            tally.is_same_run() == *is_same && out.as_slice() == case.written.as_bytes()
        }
        (Err(fault), Err(wanted)) => fault == *wanted && out.is_empty(),
        _ => false,
    }
}

// The release of a configuration with these files.
fn release<'a, 'f>(config: &'a Config, files: &'f Files) -> Release<'a, 'f> {
    Release { config, files }
}

// Whether a case is answered as wanted, in a format.
fn is_answered(alloc: Global, case: &Case<'_>, format: Format, files: &Files) -> bool {
    match (config_of(alloc, case.old), config_of(alloc, case.new)) {
        (Some(old), Some(new)) => {
            let before = release(&old, files);
            let after = release(&new, files);
            is_outcome(alloc, before, after, case, format)
        }
        _ => false,
    }
}

/// The same tables written otherwise.
static WRITTEN_OTHERWISE: [Case<'static>; 2] = [
    // a frame twice as long, with its windows twice
    Case {
        old: &BOTH,
        new: &["frame = 80\n", P, NUMBERS, Q, NUMBERS, FIRST, SECOND, AGAIN],
        question: ALL,
        outcome: Ok(true),
        written: "p: unchanged\nq: unchanged\n2 unchanged, 0 unchanged but for the trace kept, 0 changed, 0 new, 0 gone\n",
    },
    // a stage that repeats the table before it, in another order
    Case {
        old: &BOTH,
        new: &[FRAME, P, NUMBERS, Q, NUMBERS, FIRST, SECOND, REORDERED],
        question: ALL,
        outcome: Ok(true),
        written: "p: unchanged\nq: unchanged\n2 unchanged, 0 unchanged but for the trace kept, 0 changed, 0 new, 0 gone\n",
    },
];

/// The windows swapped from frame 2 on, which begins at tick 80.
static SWAPPED_WINDOWS: Case<'static> = Case {
    old: &BOTH,
    new: &[FRAME, P, NUMBERS, Q, NUMBERS, FIRST, SECOND, SWAPPED],
    question: ALL,
    outcome: Ok(false),
    written: "p: changed\n  windows: tick 80: its own until 100 -> not its own\nq: changed\n  windows: tick 80: not its own -> its own until 100\n0 unchanged, 0 unchanged but for the trace kept, 2 changed, 0 new, 0 gone\n",
};

/// A pair in which the answers and the differences are of each kind, with its answer as JSON. Windows: old p 0..20, q
/// 20..40, s 40..56, t 56..72; new pilot 0..16, q 20..40, r 40..56, t 56..72.
static EACH_KIND: Case<'static> = Case {
    old: &[
        "frame = 80\n",
        P,
        NUMBERS,
        BYTE,
        Q,
        NUMBERS,
        "[[partition]]\nname = \"s\"\n",
        NUMBERS,
        "[[partition]]\nname = \"t\"\n",
        NUMBERS,
        FIRST,
        SECOND,
        "[[window]]\nstart = 40\nlength = 16\npartition = \"s\"\n",
        "[[window]]\nstart = 56\nlength = 16\npartition = \"t\"\n",
    ],
    new: &[
        "frame = 80\n",
        "[[partition]]\nname = \"r\"\n",
        NUMBERS,
        "[[partition]]\nname = \"pilot\"\nimage = 'a\".img'\n",
        CHANGED,
        TWO_BYTES,
        "[[partition]]\nname = \"q\"\nimage = \"bad.img\"\n",
        NUMBERS,
        "[[partition]]\nname = \"t\"\n",
        "memory = 4096\nthreads = 4\nstack = 256\nmutexes = 4\nconds = 4\nkeys = 4\ninterval = 100\nring = 16\noutput = 64\ntrace = 64\n",
        "[[window]]\nstart = 0\nlength = 16\npartition = \"pilot\"\n",
        SECOND,
        "[[window]]\nstart = 40\nlength = 16\npartition = \"r\"\n",
        "[[window]]\nstart = 56\nlength = 16\npartition = \"t\"\n",
    ],
    question: PILOT,
    outcome: Ok(false),
    written: "{\"format\":\"ptk impact 1\",\"partitions\":[{\"name\":\"r\",\"answer\":\"new\"},{\"name\":\"pilot\",\"answer\":\"changed\",\"old_name\":\"p\",\"place\":{\"old\":0,\"new\":1},\"file\":{\"old\":\"p.img\",\"new\":\"a\\\".img\"},\"differences\":{\"windows\":{\"tick\":0,\"old_end\":20,\"new_end\":16},\"limits\":{\"memory\":{\"old\":4096,\"new\":8192},\"keys\":{\"old\":4,\"new\":3}},\"image\":{\"offset\":31},\"input\":{\"index\":1,\"old\":null,\"new\":{\"tick\":5,\"byte\":66}}}},{\"name\":\"q\",\"answer\":\"changed\",\"place\":{\"old\":1,\"new\":2},\"file\":{\"old\":\"p.img\",\"new\":\"bad.img\"},\"differences\":{\"image\":{\"offset\":0,\"fault\":{\"old\":null,\"new\":1}}}},{\"name\":\"t\",\"answer\":\"unchanged but for the trace kept\",\"differences\":{\"limits\":{\"trace\":{\"old\":16,\"new\":64}}}},{\"name\":\"s\",\"answer\":\"gone\"}],\"unchanged\":0,\"unchanged_but_for_trace\":1,\"changed\":2,\"new\":1,\"gone\":1}\n",
};

/// Other questions with their answers in words: the same run, another one, and what is refused.
static CASES: [Case<'static>; 22] = [
    // the sections in another order
    Case {
        old: &BOTH,
        new: &[FRAME, Q, NUMBERS, P, NUMBERS, FIRST, SECOND],
        question: ALL,
        outcome: Ok(true),
        written: "q: unchanged\n  place: 1 -> 0 (no change of behaviour)\np: unchanged\n  place: 0 -> 1 (no change of behaviour)\n2 unchanged, 0 unchanged but for the trace kept, 0 changed, 0 new, 0 gone\n",
    },
    // a longer trace
    Case {
        old: &ALONE,
        new: &[FRAME, P, TRACE_64, WITHOUT_TRACE, FIRST],
        question: ALL,
        outcome: Ok(true),
        written: "p: unchanged but for the trace kept\n  trace: 16 -> 64\n0 unchanged, 1 unchanged but for the trace kept, 0 changed, 0 new, 0 gone\n",
    },
    // another name
    Case {
        old: &ALONE,
        new: &[FRAME, PILOT_P, NUMBERS, PILOT_FIRST],
        question: PILOT,
        outcome: Ok(true),
        written: "pilot: unchanged\n  name: p -> pilot (no change of behaviour)\n1 unchanged, 0 unchanged but for the trace kept, 0 changed, 0 new, 0 gone\n",
    },
    // the name of another one, which is gone
    Case {
        old: &BOTH,
        new: &[FRAME, Q, NUMBERS, Q_FIRST],
        question: Question {
            partition: None,
            rename: Some("p=q"),
        },
        outcome: Ok(false),
        written: "q: unchanged\n  name: p -> q (no change of behaviour)\nq: gone\n1 unchanged, 0 unchanged but for the trace kept, 0 changed, 0 new, 1 gone\n",
    },
    // one partition alone, asked for by the name that it had
    Case {
        old: &ALONE,
        new: &[FRAME, PILOT_P, NUMBERS, PILOT_FIRST],
        question: PILOT_AS_P,
        outcome: Ok(true),
        written: "pilot: unchanged\n  name: p -> pilot (no change of behaviour)\n1 unchanged, 0 unchanged but for the trace kept, 0 changed, 0 new, 0 gone\n",
    },
    // the same, with more memory and a key less
    Case {
        old: &ALONE,
        new: &[FRAME, PILOT_P, CHANGED, PILOT_FIRST],
        question: PILOT_AS_P,
        outcome: Ok(false),
        written: "pilot: changed\n  memory: 4096 -> 8192\n  keys: 4 -> 3\n  name: p -> pilot (no change of behaviour)\n0 unchanged, 0 unchanged but for the trace kept, 1 changed, 0 new, 0 gone\n",
    },
    // one partition alone, whose neighbour is removed
    Case {
        old: &BOTH,
        new: &ALONE,
        question: Question {
            partition: Some("p"),
            rename: None,
        },
        outcome: Ok(true),
        written: "p: unchanged\n1 unchanged, 0 unchanged but for the trace kept, 0 changed, 0 new, 0 gone\n",
    },
    // p's window moved to the second half from frame 1 on
    Case {
        old: &BOTH,
        new: &[FRAME, P, NUMBERS, Q, NUMBERS, FIRST, SECOND, MOVED],
        question: ALL,
        outcome: Ok(false),
        written: "p: changed\n  windows: tick 40: its own until 60 -> not its own\nq: changed\n  windows: tick 60: its own until 80 -> not its own\n0 unchanged, 0 unchanged but for the trace kept, 2 changed, 0 new, 0 gone\n",
    },
    // adjacent windows joined: the same ticks, other ends
    Case {
        old: &[FRAME, P, NUMBERS, FIRST, P_SECOND],
        new: &[FRAME, P, NUMBERS, WHOLE],
        question: ALL,
        outcome: Ok(false),
        written: "p: changed\n  windows: tick 0: its own until 20 -> its own until 40\n0 unchanged, 0 unchanged but for the trace kept, 1 changed, 0 new, 0 gone\n",
    },
    // one bit of an image, the lowest of its last byte
    Case {
        old: &ALONE,
        new: &[FRAME, OTHER_P, NUMBERS, FIRST],
        question: ALL,
        outcome: Ok(false),
        written: "p: changed\n  image: other bytes from offset 31\n  file: p.img -> other.img (no change of behaviour)\n0 unchanged, 0 unchanged but for the trace kept, 1 changed, 0 new, 0 gone\n",
    },
    // an image that is none
    Case {
        old: &ALONE,
        new: &[FRAME, BAD_P, NUMBERS, FIRST],
        question: ALL,
        outcome: Ok(false),
        written: "p: changed\n  image: other bytes from offset 0\n  image: not refused -> refused, fault 1\n  file: p.img -> bad.img (no change of behaviour)\n0 unchanged, 0 unchanged but for the trace kept, 1 changed, 0 new, 0 gone\n",
    },
    // an input byte one tick later
    Case {
        old: &[FRAME, P, NUMBERS, BYTE, FIRST],
        new: &[FRAME, P, NUMBERS, LATER_BYTE, FIRST],
        question: ALL,
        outcome: Ok(false),
        written: "p: changed\n  input: arrival 0: byte 65 at tick 5 -> byte 65 at tick 6\n0 unchanged, 0 unchanged but for the trace kept, 1 changed, 0 new, 0 gone\n",
    },
    // an input byte more, and less room
    Case {
        old: &[FRAME, P, NUMBERS, BYTE, FIRST],
        new: &[FRAME, P, CHANGED, TWO_BYTES, FIRST],
        question: ALL,
        outcome: Ok(false),
        written: "p: changed\n  memory: 4096 -> 8192\n  keys: 4 -> 3\n  input: arrival 1: none -> byte 66 at tick 5\n0 unchanged, 0 unchanged but for the trace kept, 1 changed, 0 new, 0 gone\n",
    },
    // a neighbour removed
    Case {
        old: &BOTH,
        new: &ALONE,
        question: ALL,
        outcome: Ok(false),
        written: "p: unchanged\nq: gone\n1 unchanged, 0 unchanged but for the trace kept, 0 changed, 0 new, 1 gone\n",
    },
    // a neighbour added
    Case {
        old: &ALONE,
        new: &BOTH,
        question: ALL,
        outcome: Ok(false),
        written: "p: unchanged\nq: new\n1 unchanged, 0 unchanged but for the trace kept, 0 changed, 1 new, 0 gone\n",
    },
    // a neighbour replaced by one that has no image
    Case {
        old: &BOTH,
        new: &[FRAME, P, NUMBERS, BARE_Q, NUMBERS, FIRST, SECOND],
        question: ALL,
        outcome: Ok(false),
        written: "p: unchanged\nq: changed\n  image: one -> none\n1 unchanged, 0 unchanged but for the trace kept, 1 changed, 0 new, 0 gone\n",
    },
    // an image that is not there, and names that no partition has
    Case {
        old: &ALONE,
        new: &[FRAME, MISSING_P, NUMBERS, FIRST],
        question: ALL,
        outcome: Err(Fault::MissingFile("none.img")),
        written: "",
    },
    Case {
        old: &ALONE,
        new: &BOTH,
        question: Question {
            partition: Some("z"),
            rename: None,
        },
        outcome: Err(Fault::NoPartition("z")),
        written: "",
    },
    Case {
        old: &ALONE,
        new: &BOTH,
        question: Question {
            partition: None,
            rename: Some("z=q"),
        },
        outcome: Err(Fault::NoPartition("z")),
        written: "",
    },
    Case {
        old: &ALONE,
        new: &BOTH,
        question: Question {
            partition: None,
            rename: Some("p=q,p"),
        },
        outcome: Err(Fault::NoPartition("p")),
        written: "",
    },
    // two partitions of one new name, and one of two new names
    Case {
        old: &BOTH,
        new: &[FRAME, PILOT_P, NUMBERS, PILOT_FIRST],
        question: Question {
            partition: None,
            rename: Some("p=pilot,q=pilot"),
        },
        outcome: Err(Fault::NoPartition("q=pilot")),
        written: "",
    },
    Case {
        old: &ALONE,
        new: &BOTH,
        question: Question {
            partition: None,
            rename: Some("p=p,p=q"),
        },
        outcome: Err(Fault::NoPartition("p=q")),
        written: "",
    },
];

// Asserts that each of these cases is answered as wanted, in words.
fn check_cases(rt: &impl Abort, alloc: Global, cases: &[Case<'_>], files: &Files) {
    for (place, case) in cases.iter().enumerate() {
        assert!(rt; is_answered(alloc, case, Format::Text, files), "{place}");
    }
}

#[test]
fn a_question_is_answered(rt: HostRuntime) {
    let alloc = rt.alloc();
    let mut files = Files::new(alloc);
    assert!(rt; are_added(alloc, &mut files));
    check_cases(&rt, alloc, &WRITTEN_OTHERWISE, &files);
    check_cases(&rt, alloc, &CASES, &files);
    assert!(rt; is_answered(alloc, &SWAPPED_WINDOWS, Format::Text, &files));
    assert!(rt; is_answered(alloc, &EACH_KIND, Format::Json, &files));
}

// A guest that counts on without end.
const COUNTING: &str = "
count:
    addi a0, a0, 1
    j count
";

// Ticks in windows of p and of q, in the first frame and in later ones: frame 3 begins at tick 120.
const TICKS: [u32; 4] = [30, 50, 130, 155];

// Whether the report at a tick and the traces of p and q there are written, one after the other.
fn is_run(alloc: Global, config: &Config, files: &Files, tick: u32, out: &mut Vec<u8>) -> bool {
    let tick = Tick::new(u64::from(tick));
    run_with(alloc, config, files, tick, out).is_ok()
        && trace_with(alloc, config, files, tick, "p", out).is_ok()
        && trace_with(alloc, config, files, tick, "q", out).is_ok()
}

// What is written then, None if the text is refused.
fn run_of(alloc: Global, text: &[&str], files: &Files, tick: u32) -> Option<Vec<u8>> {
    let config = config_of(alloc, text)?;
    let mut out = Vec::new(alloc);
    let is_written = is_run(alloc, &config, files, tick, &mut out);
    if is_written { Some(out) } else { None }
}

// Whether both configurations of the case have the same report and traces at a tick, None if a text is refused.
fn runs_alike(alloc: Global, case: &Case<'_>, files: &Files, tick: u32) -> Option<bool> {
    match (
        run_of(alloc, case.old, files, tick),
        run_of(alloc, case.new, files, tick),
    ) {
        (Some(old), Some(new)) => Some(old == new),
        _ => None,
    }
}

// The tables written otherwise leave each report and trace as it is; the windows swapped do not.
#[test]
fn an_unchanged_partition_runs_alike(rt: HostRuntime) {
    let alloc = rt.alloc();
    let mut files = Files::new(alloc);
    assert!(rt; is_added(alloc, &mut files, "p.img", COUNTING));
    for tick in TICKS.iter() {
        for case in WRITTEN_OTHERWISE.iter() {
            assert!(rt;
                runs_alike(alloc, case, &files, *tick) == Some(true),
                "{tick}"
            );
        }
    }
    assert!(rt; runs_alike(alloc, &SWAPPED_WINDOWS, &files, 130) == Some(false));
}
