//! Worked documents, and those that have too many parts. Documents with other faults are `data/refusals` of
//! `ptk_main_stored`.

use ptk_config::{Config, ConfigFault, Section, read_config};
use ptk_words::{Arrival, Limits, Tick};
use std::alloc::{AllocError, Global};
use std::test::Fail;

/// A document of one section and one window.
const FRAME: &str = "frame = 20\n";

const SECTION: &str =
    "[[partition]]\nname = \"p\"\nimage = \"p.img\"\nmemory = 4096\nthreads = 4\nstack = 256\nmutexes = 4\nconds = 4\nkeys = 4\ninterval = 100\nring = 16\noutput = 64\ntrace = 16\n";

const WINDOW: &str = "[[window]]\nstart = 0\nlength = 20\npartition = \"p\"\n";

/// The numbers of the fault of the text of these parts and of its windows' fault, 0 if there is none.
fn fault_in(alloc: Global, parts: &[&str]) -> Result<(u8, u8), AllocError> {
    let text = parts.concat(alloc)?;
    Ok(match read_config(alloc, text.as_str()) {
        Ok(_) => (0, 0),
        Err(ConfigFault::Window(fault)) => (ConfigFault::Window(fault).number(), fault.number()),
        Err(fault) => (fault.number(), 0),
    })
}

/// The configuration of the text of these parts, None if it is refused or memory ran out.
fn config_in(alloc: Global, parts: &[&str]) -> Option<Config> {
    let text = parts.concat(alloc).ok()?;
    read_config(alloc, text.as_str()).ok()
}

/// The numbers of the good document's section.
const LIMITS: Limits = Limits {
    memory: 4096,
    threads: 4,
    stack: 256,
    mutexes: 4,
    conditions: 4,
    keys: 4,
    interval: 100,
    ring: 16,
    output: 64,
    trace: 16,
};

/// Whether this is the section of the good document.
fn is_section(section: &Section) -> bool {
    section.name() == "p"
        && section.has_name("p")
        && !section.has_name("pp")
        && section.image() == Some("p.img")
        && section.limits() == LIMITS
        && section.input().is_empty()
}

/// Whether this is the good document's configuration.
fn is_document(config: &Config) -> bool {
    config.frame() == 20
        && config.sections().len() == 1
        && config.sections().iter().all(is_section)
        && config.plan().windows_at(Tick::new(0)).len() == 1
        && end_at(config, 0) == 20
}

/// A comment of 64 bytes.
const COMMENT: &str = "# a line that says nothing of any section and of no window ....\n";

#[test]
fn reads_the_document(rt: HostRuntime) -> Result<(), Fail> {
    let comments = COMMENT.repeat(rt.alloc(), 400)?;
    for end in ["", comments.as_str()] {
        let config = config_in(rt.alloc(), &[FRAME, SECTION, WINDOW, end]).ok_or("refused")?;
        assert!(rt; is_document(&config));
    }
    Ok(())
}

/// A key with input at two ticks, and what arrives then: the tick and the byte.
const INPUT: &str =
    "input = [{ at = 3, bytes = [1, 2] }, { at = 3, bytes = [] }, { at = 1099511627776, bytes = [255] }]\n";

const ARRIVALS: [(u64, u8); 3] = [(3, 1), (3, 2), (1_099_511_627_776, 255)];

/// Whether the byte at a place of an input is this one, at this tick.
fn is_arrival(input: &[Arrival], place: usize, tick: u64, byte: u8) -> bool {
    match input.get(place) {
        Some(found) => found.tick.ticks() == tick && found.byte == byte,
        None => false,
    }
}

/// Whether this is an input.
fn is_input(input: &[Arrival], arrivals: &[(u64, u8)]) -> bool {
    for (place, (tick, byte)) in arrivals.iter().enumerate() {
        if !is_arrival(input, place, *tick, *byte) {
            return false;
        }
    }
    input.len() == arrivals.len()
}

#[test]
fn reads_input(rt: HostRuntime) -> Result<(), Fail> {
    let config = config_in(rt.alloc(), &[FRAME, SECTION, INPUT, WINDOW]).ok_or("refused")?;
    let section = config.sections().first().ok_or("no section")?;
    assert!(rt; is_input(section.input(), &ARRIVALS));
    Ok(())
}

/// A document in which a part is repeated many times, and the numbers of its fault.
struct Many<'a> {
    head: [&'a str; 3],
    part: &'a str,
    count: usize,
    tail: [&'a str; 2],
    want: (u8, u8),
}

/// One window, one section and one byte of input more than there may be, and as many bytes as there may be.
static MANY: [Many<'static>; 4] = [
    Many {
        head: [FRAME, SECTION, ""],
        part: WINDOW,
        count: 65,
        tail: ["", ""],
        want: (4, 0),
    },
    Many {
        head: [FRAME, "", ""],
        part: SECTION,
        count: 9,
        tail: [WINDOW, ""],
        want: (4, 0),
    },
    Many {
        head: [FRAME, SECTION, "input = [{ at = 0, bytes = ["],
        part: "0,",
        count: 65_535,
        tail: ["] }, { at = 0, bytes = [0] }]\n", WINDOW],
        want: (0, 0),
    },
    Many {
        head: [FRAME, SECTION, "input = [{ at = 0, bytes = ["],
        part: "0,",
        count: 65_535,
        tail: ["] }, { at = 0, bytes = [0,0] }]\n", WINDOW],
        want: (4, 0),
    },
];

/// The numbers of the fault of such a document with this text in its middle.
fn fault_around(alloc: Global, many: &Many<'_>, middle: &str) -> Result<(u8, u8), AllocError> {
    let (head, tail) = (&many.head, &many.tail);
    let parts = [head[0], head[1], head[2], middle, tail[0], tail[1]];
    fault_in(alloc, &parts)
}

#[test]
fn refuses_too_many(rt: HostRuntime) -> Result<(), Fail> {
    for many in MANY.iter() {
        let middle = many.part.repeat(rt.alloc(), many.count)?;
        assert_eq!(rt; fault_around(rt.alloc(), many, middle.as_str())?, many.want);
    }
    Ok(())
}

/// A frame of 40 ticks.
const FRAME_40: &str = "frame = 40\n";

/// A key with two plans, in which p has the second half of 40 ticks.
const TWO_PLANS: &str =
    "plan = [{ from = 2, window = [{ start = 20, length = 20, partition = \"p\" }] }, { from = 68719476736, window = [{ start = 20, length = 20, partition = \"p\" }] }]\n";

/// The end of p's window that holds the tick, 0 if none does.
fn end_at(config: &Config, tick: u64) -> u64 {
    match config.plan().at(Tick::new(tick.min(1 << 41))) {
        Some((_, end)) => end.ticks(),
        None => 0,
    }
}

/// Ticks over two plans, and the ends of p's windows that hold them, 0 if none does.
const ENDS: [(u64, u64); 5] = [(0, 20), (59, 60), (60, 0), (80, 0), (100, 120)];

/// Whether the window of each of these ticks ends there.
fn has_ends(config: &Config, ends: &[(u64, u64)]) -> bool {
    for (tick, end) in ends {
        if end_at(config, *tick) != *end {
            return false;
        }
    }
    true
}

#[test]
fn reads_plans(rt: HostRuntime) -> Result<(), Fail> {
    let rows: [(&str, &[(u64, u64)]); 3] = [
        (TWO_PLANS, &ENDS),
        ("", &[(4000, 4020)]),
        ("plan = []\n", &[(4000, 4020)]),
    ];
    for (key, ends) in rows {
        let config = config_in(rt.alloc(), &[FRAME_40, key, SECTION, WINDOW]).ok_or("refused")?;
        assert!(rt; has_ends(&config, ends));
    }
    Ok(())
}
