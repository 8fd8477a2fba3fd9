//! The lines of a decoded trace: of row hello with symbols, and of a guest whose calls reply errors and block, its
//! calls alone. What is wanted was worked out by hand.

use ptk_disasm::{Symbols, read_symbols};
use ptk_main_answers::{Filter, decoded_trace_with};
use ptk_main_guests::sources::HELLO;
use ptk_main_guests::{Config, Files, P, guest_of};
use ptk_words::{ThreadNo, Tick};
use std::alloc::Global;

const NUMBERS: &str =
    "memory = 4096\nthreads = 4\nstack = 256\nmutexes = 4\nconds = 4\nkeys = 4\ninterval = 100\nring = 16\noutput = 64\ntrace = 16\n";

const WINDOW: &str = "[[window]]\nstart = 0\nlength = 20\npartition = \"p\"\n";

const CONFIGURATION: [&str; 4] = ["frame = 20\n", P, NUMBERS, WINDOW];

const HELLO_SYMBOLS: &str = "00000000 T _start\n00000018 t end\n";

const HELLO_LINES: &str = "0 1 0x00000000 0x00100893 0x00000000  # <_start> li a7, 1\n\
    1 1 0x00000004 0x06800513 0x00000068  # <_start+0x4> li a0, 104\n\
    2 1 0x00000008 0x00000073 0x00000000  # <_start+0x8> ecall console_put(104) -> 0\n\
    6 1 0x0000000c 0x00100893 0x00000000  # <_start+0xc> li a7, 1\n\
    7 1 0x00000010 0x06900513 0x00000069  # <_start+0x10> li a0, 105\n\
    8 1 0x00000014 0x00000073 0x00000000  # <_start+0x14> ecall console_put(105) -> 0\n\
    12 1 0x00000018 0x00000893 0x00000000  # <end> li a7, 0\n\
    13 1 0x0000001c 0x00000513 0x00000000  # <end+0x4> li a0, 0\n\
    14 1 0x00000020 0x00000073 0x00000000  # <end+0x8> ecall exit(0)\n";

/// It joins itself, makes a call of no name, and waits for input that does not come.
const REFUSED: &str = "
    li a7, 12           #  0  pthread_join
    li a0, 1            #  1
    ecall               #  2
    li a7, 99           # 10  no call
    ecall               # 11
    li a7, 2            # 13  console_get
    ecall               # 14
";

const REFUSED_CALLS: &str =
    "2 1 0x00000008 0x00000073 0x00000023  # ecall pthread_join(1) -> EDEADLK\n\
    11 1 0x00000010 0x00000073 0x00000026  # ecall call 99 -> ENOSYS\n\
    14 1 0x00000018 0x00000073 0x00000026  # ecall console_get() blocked\n";

// Whether the decoded trace of p at tick 20 has these lines.
fn is_traced(
    alloc: Global,
    config: &Config,
    files: &Files,
    symbols: &Symbols<'_>,
    filter: &Filter,
    want: &str,
) -> bool {
    let mut out = Vec::new(alloc);
    let ticks = Tick::new(20);
    let is_written = decoded_trace_with(
        alloc, config, files, ticks, "p", symbols, filter, &mut out,
    ).is_ok();
    is_written && out.as_slice() == want.as_bytes()
}

// Whether it has them with this guest and these symbols.
fn is_decoded(alloc: Global, source: &str, symbols: &str, filter: &Filter, want: &str) -> bool {
    match (
        guest_of(alloc, &CONFIGURATION, &[source]),
        read_symbols(alloc, symbols),
    ) {
        (Some((config, files)), Ok(symbols)) => {
            is_traced(alloc, &config, &files, &symbols, filter, want)
        }
        _ => false,
    }
}

#[test]
fn each_step_has_its_words(rt: HostRuntime) {
    let alloc = rt.alloc();
    assert!(rt; is_decoded(alloc, HELLO, HELLO_SYMBOLS, &Filter::all(), HELLO_LINES));
    let calls = Filter {
        thread: Some(ThreadNo::new(1)),
        is_calls_only: true,
        from: Tick::new(1),
        to: Tick::new(15),
    };
    assert!(rt; is_decoded(alloc, REFUSED, "", &calls, REFUSED_CALLS));
}
