//! The bytes of row hello's run as a Value Change Dump and as trace events, with one thread number; that a first tick
//! that is not before the last is refused, and that a run ends if its writer fails. What is wanted was worked out by
//! hand: the steps begin at ticks 0, 1, 2, 6, 7, 8, 12, 13 and 14, and the last one halts the partition. And the trace
//! events of a run in which a cancellation ends a wait for input, and the partition halts while a thread waits.

use ptk_disasm::{Symbols, read_symbols};
use ptk_main_guests::sources::HELLO;
use ptk_main_guests::{Config, Files, guest_of};
use ptk_timeline_formats::{Form, FormatFault, dump_with};
use ptk_words::Tick;
use std::alloc::Global;
use std::io::Write;
use std::process::Abort;

const TEXT: &str =
    "frame = 20\n[[partition]]\nname = \"p\"\nimage = \"p.img\"\nmemory = 4096\nthreads = 1\nstack = 256\nmutexes = 4\nconds = 4\nkeys = 4\ninterval = 100\nring = 16\noutput = 64\ntrace = 2\ninput = [{ at = 30, bytes = [1, 2] }]\n[[window]]\nstart = 0\nlength = 20\npartition = \"p\"\n";

const DUMP: &str = "$version ptk timeline $end\n$timescale 1 us $end\n\
    $scope module p $end\n\
    $var wire 1 !! window $end\n$var wire 3 !\" status [2:0] $end\n$var wire 6 !# running [5:0] $end\n\
    $scope module thread_1 $end\n\
    $var wire 4 !$ state [3:0] $end\n$var wire 6 !% priority [5:0] $end\n\
    $upscope $end\n$upscope $end\n$enddefinitions $end\n\
    #0\n$dumpvars\n0!!\nb1 !\"\nb0 !#\nb11 !$\nb10000 !%\n$end\n\
    1!!\nb1 !#\nb1 !$\n\
    #15\nb10 !\"\nb0 !#\nb1011 !$\n\
    #40\n";

const EVENTS: &str = "{\"displayTimeUnit\":\"ns\",\"traceEvents\":[\n\
    {\"ph\":\"M\",\"pid\":1,\"name\":\"process_name\",\"args\":{\"name\":\"p\"}},\n\
    {\"ph\":\"M\",\"pid\":1,\"tid\":0,\"name\":\"thread_name\",\"args\":{\"name\":\"windows\"}},\n\
    {\"ph\":\"i\",\"pid\":1,\"tid\":0,\"ts\":30,\"s\":\"p\",\"name\":\"input\",\"args\":{\"bytes\":2}},\n\
    {\"ph\":\"M\",\"pid\":1,\"tid\":1,\"name\":\"thread_name\",\"args\":{\"name\":\"say\\\"hi\\\"\"}},\n\
    {\"ph\":\"i\",\"pid\":1,\"tid\":0,\"ts\":15,\"s\":\"p\",\"name\":\"exit 0\"},\n\
    {\"ph\":\"X\",\"pid\":1,\"tid\":1,\"ts\":0,\"dur\":15,\"name\":\"running\",\"args\":{\"priority\":16}},\n\
    {\"ph\":\"X\",\"pid\":1,\"tid\":0,\"ts\":0,\"dur\":40,\"name\":\"window\"},\n\
    {\"ph\":\"X\",\"pid\":1,\"tid\":1,\"ts\":15,\"dur\":25,\"name\":\"halted\",\"args\":{\"priority\":16}}\n]}\n";

/// Thread 1 creates thread 2, of a greater priority, and cancels it while it waits for a byte; then it creates thread 3
/// and halts the partition while that one waits for the end of thread 1.
const WAKES: &str = "
    la a0, attributes   #  0
    la a1, second       #  2
    li a7, 10           #  4  create
    ecall               #  5
    li a0, 2            # 22
    li a7, 40           # 23  cancel
    ecall               # 24
    la a0, attributes   # 42
    la a1, third        # 44
    li a7, 10           # 46  create
    ecall               # 47
    li a7, 0            # 69  exit
    ecall               # 70, the others are halted from then on, thread 1 from 71 on
second:
    li a7, 2            # 17  console_get
    ecall               # 18, blocked from 22 to 24; its unwinding begins at 34, the gate at 38
third:
    li a0, 1            # 59
    li a7, 12           # 60  join
    ecall               # 61, blocked from 69 to 70
.data
attributes:
    .word 0             # joinable
    .word 1             # explicit
    .word 1             # SCHED_FIFO
    .word 20            # priority
    .word 0             # default stack
";

/// The partition and the window of that guest.
const WAKES_TEXT: &str =
    "frame = 100\n[[partition]]\nname = \"p\"\nimage = \"p.img\"\nmemory = 4096\nthreads = 3\nstack = 256\nmutexes = 0\nconds = 0\nkeys = 0\ninterval = 100\nring = 16\noutput = 64\ntrace = 2\n[[window]]\nstart = 0\nlength = 100\npartition = \"p\"\n";

/// Its events up to tick 100: one flow, from the cancellation at 24 to thread 2.
const WAKES_EVENTS: &str = "{\"displayTimeUnit\":\"ns\",\"traceEvents\":[\n\
    {\"ph\":\"M\",\"pid\":1,\"name\":\"process_name\",\"args\":{\"name\":\"p\"}},\n\
    {\"ph\":\"M\",\"pid\":1,\"tid\":0,\"name\":\"thread_name\",\"args\":{\"name\":\"windows\"}},\n\
    {\"ph\":\"M\",\"pid\":1,\"tid\":1,\"name\":\"thread_name\",\"args\":{\"name\":\"thread 1\"}},\n\
    {\"ph\":\"M\",\"pid\":1,\"tid\":2,\"name\":\"thread_name\",\"args\":{\"name\":\"thread 2\"}},\n\
    {\"ph\":\"X\",\"pid\":1,\"tid\":1,\"ts\":0,\"dur\":17,\"name\":\"running\",\"args\":{\"priority\":16}},\n\
    {\"ph\":\"X\",\"pid\":1,\"tid\":2,\"ts\":5,\"dur\":12,\"name\":\"ready\",\"args\":{\"priority\":20}},\n\
    {\"ph\":\"X\",\"pid\":1,\"tid\":1,\"ts\":17,\"dur\":5,\"name\":\"ready\",\"args\":{\"priority\":16}},\n\
    {\"ph\":\"X\",\"pid\":1,\"tid\":2,\"ts\":17,\"dur\":5,\"name\":\"running\",\"args\":{\"priority\":20}},\n\
    {\"ph\":\"X\",\"pid\":1,\"tid\":2,\"ts\":22,\"dur\":2,\"name\":\"console\",\"args\":{\"priority\":20}},\n\
    {\"ph\":\"s\",\"pid\":1,\"tid\":1,\"ts\":24.5,\"cat\":\"wake\",\"name\":\"wakes\",\"id\":\"1.2.24\"},\n\
    {\"ph\":\"f\",\"bp\":\"e\",\"pid\":1,\"tid\":2,\"ts\":24.5,\"cat\":\"wake\",\"name\":\"wakes\",\"id\":\"1.2.24\"},\n\
    {\"ph\":\"X\",\"pid\":1,\"tid\":1,\"ts\":22,\"dur\":12,\"name\":\"running\",\"args\":{\"priority\":16}},\n\
    {\"ph\":\"X\",\"pid\":1,\"tid\":2,\"ts\":24,\"dur\":10,\"name\":\"ready\",\"args\":{\"priority\":20}},\n\
    {\"ph\":\"X\",\"pid\":1,\"tid\":1,\"ts\":34,\"dur\":8,\"name\":\"ready\",\"args\":{\"priority\":16}},\n\
    {\"ph\":\"X\",\"pid\":1,\"tid\":2,\"ts\":34,\"dur\":8,\"name\":\"running\",\"args\":{\"priority\":20}},\n\
    {\"ph\":\"M\",\"pid\":1,\"tid\":3,\"name\":\"thread_name\",\"args\":{\"name\":\"thread 3\"}},\n\
    {\"ph\":\"X\",\"pid\":1,\"tid\":1,\"ts\":42,\"dur\":17,\"name\":\"running\",\"args\":{\"priority\":16}},\n\
    {\"ph\":\"X\",\"pid\":1,\"tid\":3,\"ts\":47,\"dur\":12,\"name\":\"ready\",\"args\":{\"priority\":20}},\n\
    {\"ph\":\"X\",\"pid\":1,\"tid\":1,\"ts\":59,\"dur\":10,\"name\":\"ready\",\"args\":{\"priority\":16}},\n\
    {\"ph\":\"X\",\"pid\":1,\"tid\":3,\"ts\":59,\"dur\":10,\"name\":\"running\",\"args\":{\"priority\":20}},\n\
    {\"ph\":\"X\",\"pid\":1,\"tid\":3,\"ts\":69,\"dur\":1,\"name\":\"join\",\"args\":{\"priority\":20,\"thread\":1}},\n\
    {\"ph\":\"i\",\"pid\":1,\"tid\":0,\"ts\":71,\"s\":\"p\",\"name\":\"exit 0\"},\n\
    {\"ph\":\"X\",\"pid\":1,\"tid\":1,\"ts\":69,\"dur\":2,\"name\":\"running\",\"args\":{\"priority\":16}},\n\
    {\"ph\":\"X\",\"pid\":1,\"tid\":0,\"ts\":0,\"dur\":100,\"name\":\"window\"},\n\
    {\"ph\":\"X\",\"pid\":1,\"tid\":1,\"ts\":71,\"dur\":29,\"name\":\"halted\",\"args\":{\"priority\":16}},\n\
    {\"ph\":\"X\",\"pid\":1,\"tid\":2,\"ts\":42,\"dur\":58,\"name\":\"ended\",\"args\":{\"priority\":20}},\n\
    {\"ph\":\"X\",\"pid\":1,\"tid\":3,\"ts\":70,\"dur\":30,\"name\":\"halted\",\"args\":{\"priority\":20}}\n\
    ]}\n";

// Writes the run from a tick on and before another in a form.
fn dump<W: Write>(
    alloc: Global,
    config: &Config,
    files: &Files,
    symbols: &Symbols<'_>,
    (from, to): (u16, u16),
    form: Form,
    out: &mut W,
) -> Result<(), FormatFault> {
    let (from, to) = (Tick::new(u64::from(from)), Tick::new(u64::from(to)));
    dump_with(alloc, config, files, symbols, from, to, form, out)
}

// Whether the run is written in a form as this text.
fn is_written(
    alloc: Global,
    config: &Config,
    files: &Files,
    symbols: &Symbols<'_>,
    form: Form,
    want: &str,
) -> bool {
    let mut out = Vec::new(alloc);
    dump(alloc, config, files, symbols, (0, 40), form, &mut out).is_ok()
        && out.as_slice() == want.as_bytes()
}

// Asserts what is written in each form, and what is returned from tick 40 on and with a writer of 300 bytes.
fn check_formats(
    rt: &impl Abort,
    alloc: Global,
    config: &Config,
    files: &Files,
    named: &Symbols<'_>,
) {
    let none = Symbols::new(alloc);
    assert!(rt; is_written(alloc, config, files, &none, Form::Vcd, DUMP));
    assert!(rt; is_written(alloc, config, files, named, Form::Events, EVENTS));
    let mut bytes = [0u8; 300];
    let mut room = bytes.as_mut_slice();
    let late = dump(alloc, config, files, &none, (40, 40), Form::Vcd, &mut room);
    assert!(rt; late == Err(FormatFault::FromPastEnd));
    let cut = dump(alloc, config, files, &none, (0, 40), Form::Vcd, &mut room);
    assert!(rt; cut == Err(FormatFault::Write));
}

#[test]
fn a_run_has_its_bytes_in_each_format(rt: HostRuntime) {
    let alloc = rt.alloc();
    match (
        guest_of(alloc, &[TEXT], &[HELLO]),
        read_symbols(alloc, "00000000 T say\"hi\"\n"),
    ) {
        (Some(guest), Ok(named)) => check_formats(&rt, alloc, &guest.0, &guest.1, &named),
        _ => assert!(rt; false, "no memory"),
    }
}

#[test]
fn a_wait_that_another_ended_has_a_flow(rt: HostRuntime) {
    let alloc = rt.alloc();
    let none = Symbols::new(alloc);
    match guest_of(alloc, &[WAKES_TEXT], &[WAKES]) {
        Some((config, files)) => {
            let mut out = Vec::new(alloc);
            let written = dump(
                alloc,
                &config,
                &files,
                &none,
                (0, 100),
                Form::Events,
                &mut out,
            );
            assert!(rt; written.is_ok() && out.as_slice() == WAKES_EVENTS.as_bytes());
        }
        None => assert!(rt; false, "no memory"),
    }
}
