//! How partitions stand. What is wanted was worked out by hand; the ticks stand beside the guests, a column for each
//! step's first tick. A lock takes 8 ticks, a join 8, a sleep 6 and a yield 4.

use ptk_disasm::{Symbols, read_symbols};
use ptk_explanation::{Form, explain_partition_with};
use ptk_main_guests::{ALONE, Config, Files, guest_of};
use ptk_words::{LAST_TICK, Tick};
use std::alloc::Global;

// Each of two threads has a mutex and waits for the other's. The text ends at 100.
const DEADLOCK: &str = "
    la a1, second       #   0
    li a0, 0            #   2
    li a2, 0            #   3
    li a7, 10           #   4  create
    ecall               #   5
    la a0, left         #  17
    li a7, 22           #  19  mutex_lock: it is set up as mutex 1
    ecall               #  20
    li a7, 15           #  28  yield
    ecall               #  29
    la a0, right        #  54
    li a7, 22           #  56  mutex_lock: thread 2 has it
    ecall               #  57
    ret
second:                 #      at 68
    la a0, right        #  33
    li a7, 22           #  35  mutex_lock: it is set up as mutex 2
    ecall               #  36
    la a0, left         #  44
    ecall               #  46  mutex_lock: thread 1 has it
    ret
.data
left:
    .word 0
right:
    .word 0
";

const DEADLOCK_SYMBOLS: &str = "00000000 t _start\n00000044 t second\n";

const DEADLOCK_LINES: &str =
    "partition p at tick 100: idle, no thread is running or ready, steps 23, lost 0
idle for good: no input to come, no deadline
thread 1: waits for mutex 2, which thread 2 owns, since tick 65
  SCHED_FIFO, priority 16, effective 16, pc 0x00000040 <_start+0x40>, sp 0x00001000, least 0x00001000
  mutex 2: PTHREAD_MUTEX_NORMAL, PTHREAD_PRIO_NONE
thread 2: waits for mutex 1, which thread 1 owns, since tick 54
  SCHED_FIFO, priority 16, effective 16, pc 0x00000060 <second+0x1c>, sp 0x00000f00, least 0x00000f00
  mutex 1: PTHREAD_MUTEX_NORMAL, PTHREAD_PRIO_NONE
deadlock: thread 1 waits for mutex 2, which thread 2 owns; thread 2 waits for mutex 1, which thread 1 owns
";

const DEADLOCK_JSON: &str =
    "{\"format\":\"ptk explain 1\",\"ticks\":100,\"partition\":\"p\",\"status\":\"idle\",\"steps\":23,\"lost\":0,\"idle_for_good\":true,\"threads\":[{\"thread\":1,\"activity\":\"mutex\",\"since\":65,\"mutex\":2,\"owner\":2,\"mutex_type\":\"PTHREAD_MUTEX_NORMAL\",\"mutex_protocol\":\"PTHREAD_PRIO_NONE\",\"policy\":\"SCHED_FIFO\",\"assigned_priority\":16,\"effective_priority\":16,\"pc\":64,\"symbol\":\"_start\",\"offset\":64,\"stack_pointer\":4096,\"least_stack_pointer\":4096},{\"thread\":2,\"activity\":\"mutex\",\"since\":54,\"mutex\":1,\"owner\":1,\"mutex_type\":\"PTHREAD_MUTEX_NORMAL\",\"mutex_protocol\":\"PTHREAD_PRIO_NONE\",\"policy\":\"SCHED_FIFO\",\"assigned_priority\":16,\"effective_priority\":16,\"pc\":96,\"symbol\":\"second\",\"offset\":28,\"stack_pointer\":3840,\"least_stack_pointer\":3840}],\"deadlocks\":[[1,2]]}\n";

// A load after the end of memory, at 4088 + 12.
const LOAD: &str = "
    li a1, 2044         #   0
    add a1, a1, a1      #   1
    lw a0, 12(a1)       #   2
";

const LOAD_SYMBOLS: &str = "00000004 T load\n";

const LOAD_LINES: &str = "partition p at tick 100: stopped by the fault load, steps 3, lost 0
thread 1 at tick 2, pc 0x00000008 <load+0x4>: lw a0, 12(a1)
address 0x00001004: at or past the end of memory
  zero 0x00000000    ra 0xfffffff0    sp 0x00001000    gp 0x00000000
    tp 0x00000000    t0 0x00000000    t1 0x00000000    t2 0x00000000
    s0 0x00000000    s1 0x00000000    a0 0x00000000    a1 0x00000ff8
    a2 0x00000000    a3 0x00000000    a4 0x00000000    a5 0x00000000
    a6 0x00000000    a7 0x00000000    s2 0x00000000    s3 0x00000000
    s4 0x00000000    s5 0x00000000    s6 0x00000000    s7 0x00000000
    s8 0x00000000    s9 0x00000000   s10 0x00000000   s11 0x00000000
    t3 0x00000000    t4 0x00000000    t5 0x00000000    t6 0x00000000
";

const LOAD_JSON: &str =
    "{\"format\":\"ptk explain 1\",\"ticks\":100,\"partition\":\"p\",\"status\":\"fault\",\"cause\":\"load\",\"pc\":8,\"steps\":3,\"lost\":0,\"fault\":{\"tick\":2,\"thread\":1,\"symbol\":\"load\",\"offset\":4,\"instruction\":\"lw a0, 12(a1)\",\"address\":4100},\"registers\":[0,4294967280,4096,0,0,0,0,0,0,0,0,4088,0,0,0,0,0,0,0,0,0,0,0,0,0,0,0,0,0,0,0,0]}\n";

// A thread that sleeps until the 50,000th nanosecond. The text ends at 24.
const SLEEP: &str = "
    la a1, when         #   0
    li a0, 0            #   2
    li a7, 4            #   3  clock_nanosleep
    ecall               #   4
    ret
.data
when:
    .word 0
    .word 0
    .word 50000
";

const SLEEP_LINES: &str =
    "partition p at tick 20: idle, no thread is running or ready, steps 5, lost 0
thread 1: sleeps, until tick 50, since tick 10
  SCHED_FIFO, priority 16, effective 16, pc 0x00000014, sp 0x00001000, least 0x00001000
";

const SLEEP_JSON: &str =
    "{\"format\":\"ptk explain 1\",\"ticks\":20,\"partition\":\"p\",\"status\":\"idle\",\"steps\":5,\"lost\":0,\"threads\":[{\"thread\":1,\"activity\":\"sleep\",\"since\":10,\"deadline\":50,\"policy\":\"SCHED_FIFO\",\"assigned_priority\":16,\"effective_priority\":16,\"pc\":20,\"stack_pointer\":4096,\"least_stack_pointer\":4096}],\"deadlocks\":[]}\n";

// Before the first step.
const START_LINES: &str = "partition p at tick 0: running, steps 0, lost 0
thread 1: ready, since tick 0
  SCHED_FIFO, priority 16, effective 16, pc 0x00000000, sp 0x00001000, least 0x00001000
";

const START_JSON: &str =
    "{\"format\":\"ptk explain 1\",\"ticks\":0,\"partition\":\"p\",\"status\":\"running\",\"steps\":0,\"lost\":0,\"threads\":[{\"thread\":1,\"activity\":\"ready\",\"since\":0,\"policy\":\"SCHED_FIFO\",\"assigned_priority\":16,\"effective_priority\":16,\"pc\":0,\"stack_pointer\":4096,\"least_stack_pointer\":4096}],\"deadlocks\":[]}\n";

// The second thread waits for a mutex with a ceiling, and is asked to end; the first one, which has the mutex, waits
// for its end. The text ends at 136.
const CEILING: &str = "
    la a1, second       #   0
    li a0, 0            #   2
    li a2, 0            #   3
    li a7, 10           #   4  create
    ecall               #   5
    la a0, lock         #  17
    li a1, 2            #  19
    li a2, 2            #  20
    li a3, 20           #  21
    li a7, 20           #  22  mutex_init: mutex 1, recursive, with a ceiling
    ecall               #  23
    la a0, lock         #  29
    li a7, 22           #  31  mutex_lock
    ecall               #  32
    la a1, when         #  40
    li a0, 0            #  42
    li a7, 4            #  43  clock_nanosleep
    ecall               #  44
    li a0, 2            # 100
    li a7, 40           # 101  cancel
    ecall               # 102
    li a0, 2            # 112
    li a7, 12           # 113  join
    ecall               # 114
    ret
second:                 #      at 116
    la a0, lock         #  50
    li a7, 22           #  52  mutex_lock: thread 1 has it
    ecall               #  53
    ret
.data
lock:
    .word 0
when:
    .word 0
    .word 0
    .word 100000
";

const CEILING_LINES: &str =
    "partition p at tick 130: idle, no thread is running or ready, steps 32, lost 0
idle for good: no input to come, no deadline
thread 1: waits for the end of thread 2, since tick 122
  SCHED_FIFO, priority 16, effective 20, pc 0x00000070, sp 0x00001000, least 0x00001000
thread 2: waits for mutex 1, which thread 1 owns, since tick 61
  SCHED_FIFO, priority 16, effective 16, pc 0x00000084, sp 0x00000f00, least 0x00000f00
  mutex 1: PTHREAD_MUTEX_RECURSIVE, PTHREAD_PRIO_PROTECT, ceiling 20
  a cancellation is pending
deadlock: thread 1 waits for the end of thread 2; thread 2 waits for mutex 1, which thread 1 owns
";

const CEILING_JSON: &str =
    "{\"format\":\"ptk explain 1\",\"ticks\":130,\"partition\":\"p\",\"status\":\"idle\",\"steps\":32,\"lost\":0,\"idle_for_good\":true,\"threads\":[{\"thread\":1,\"activity\":\"join\",\"since\":122,\"joins\":2,\"policy\":\"SCHED_FIFO\",\"assigned_priority\":16,\"effective_priority\":20,\"pc\":112,\"stack_pointer\":4096,\"least_stack_pointer\":4096},{\"thread\":2,\"activity\":\"mutex\",\"since\":61,\"mutex\":1,\"owner\":1,\"mutex_type\":\"PTHREAD_MUTEX_RECURSIVE\",\"mutex_protocol\":\"PTHREAD_PRIO_PROTECT\",\"mutex_ceiling\":20,\"policy\":\"SCHED_FIFO\",\"assigned_priority\":16,\"effective_priority\":16,\"pc\":132,\"stack_pointer\":3840,\"least_stack_pointer\":3840,\"cancel_pending\":true}],\"deadlocks\":[[1,2]]}\n";

// Two threads that yield to each other: thread 1 yields at 18, and again with its next step, which lasts up to 31.
const YIELDS: &str = "
    la a1, second       #   0
    li a0, 0            #   2
    li a2, 0            #   3
    li a7, 10           #   4  create
    ecall               #   5
    li a7, 15           #  17  yield
    ecall               #  18
    ecall               #  27
    ret
second:                 #      at 40
    li a7, 15           #  22  yield
    ecall               #  23
    ret
";

const YIELDS_LINES: &str = "partition p at tick 30: running, steps 11, lost 0
thread 1: ready, since tick 30
  SCHED_FIFO, priority 16, effective 16, pc 0x00000024, sp 0x00001000, least 0x00001000
thread 2: ready, since tick 27
  SCHED_FIFO, priority 16, effective 16, pc 0x00000030, sp 0x00000f00, least 0x00000f00
";

const YIELDS_JSON: &str =
    "{\"format\":\"ptk explain 1\",\"ticks\":30,\"partition\":\"p\",\"status\":\"running\",\"steps\":11,\"lost\":0,\"threads\":[{\"thread\":1,\"activity\":\"ready\",\"since\":30,\"policy\":\"SCHED_FIFO\",\"assigned_priority\":16,\"effective_priority\":16,\"pc\":36,\"stack_pointer\":4096,\"least_stack_pointer\":4096},{\"thread\":2,\"activity\":\"ready\",\"since\":27,\"policy\":\"SCHED_FIFO\",\"assigned_priority\":16,\"effective_priority\":16,\"pc\":48,\"stack_pointer\":3840,\"least_stack_pointer\":3840}],\"deadlocks\":[]}\n";

// A signal that comes before the wait for it, and a thread that waits for input in a function that it has called. The
// text ends at 116.
const LOST_WAKEUP: &str = "
    la a1, second       #   0
    li a0, 0            #   2
    li a2, 0            #   3
    li a7, 10           #   4  create
    ecall               #   5
    la a0, lock         #  17
    li a7, 22           #  19  mutex_lock: it is set up as mutex 1
    ecall               #  20
    li a7, 15           #  28  yield
    ecall               #  29
    la a0, changed      #  56
    la a1, lock         #  58
    li a7, 32           #  60  cond_wait
    ecall               #  61
    ret
second:                 #      at 76
    la a0, changed      #  33
    call notify         #  35
    call read           #  50
notify:                 #      at 92
    li a7, 34           #  36  cond_signal: it is set up as condition variable 1
    ecall               #  37
    ret                 #  49
read:                   #      at 104
    li a7, 2            #  51  console_get
    ecall               #  52
    ret
.data
lock:
    .word 0
changed:
    .word 0
";

const LOST_WAKEUP_SYMBOLS: &str =
    "00000000 t _start\n0000004c t second\n0000005c t notify\n00000068 t read\n";

const LOST_WAKEUP_LINES: &str =
    "partition p at tick 100: idle, no thread is running or ready, steps 27, lost 0
idle for good: no input to come, no deadline
thread 1: waits on condition variable 1, to have mutex 1 again, since tick 73
  SCHED_FIFO, priority 16, effective 16, pc 0x00000048 <_start+0x48>, sp 0x00001000, least 0x00001000
  earlier signals that woke nobody: thread 2 at tick 37
thread 2: waits for input, since tick 56
  SCHED_FIFO, priority 16, effective 16, pc 0x00000070 <read+0x8>, called at 0x00000058 <second+0xc>, sp 0x00000f00, least 0x00000f00
";

const LOST_WAKEUP_JSON: &str =
    "{\"format\":\"ptk explain 1\",\"ticks\":100,\"partition\":\"p\",\"status\":\"idle\",\"steps\":27,\"lost\":0,\"idle_for_good\":true,\"threads\":[{\"thread\":1,\"activity\":\"condition\",\"since\":73,\"mutex\":1,\"condition\":1,\"policy\":\"SCHED_FIFO\",\"assigned_priority\":16,\"effective_priority\":16,\"pc\":72,\"symbol\":\"_start\",\"offset\":72,\"stack_pointer\":4096,\"least_stack_pointer\":4096,\"woke_nobody\":[{\"thread\":2,\"tick\":37}]},{\"thread\":2,\"activity\":\"input\",\"since\":56,\"policy\":\"SCHED_FIFO\",\"assigned_priority\":16,\"effective_priority\":16,\"pc\":112,\"symbol\":\"read\",\"offset\":8,\"caller\":88,\"caller_symbol\":\"second\",\"caller_offset\":12,\"stack_pointer\":3840,\"least_stack_pointer\":3840}],\"deadlocks\":[]}\n";

/// A guest, and what is shown of it after this many ticks.
struct Case<'a> {
    source: &'a str,
    symbols: &'a str,
    ticks: u64,
    lines: &'a str,
    json: &'a str,
}

static CASES: [Case<'static>; 7] = [
    Case {
        source: DEADLOCK,
        symbols: DEADLOCK_SYMBOLS,
        ticks: 100,
        lines: DEADLOCK_LINES,
        json: DEADLOCK_JSON,
    },
    Case {
        source: LOAD,
        symbols: LOAD_SYMBOLS,
        ticks: 100,
        lines: LOAD_LINES,
        json: LOAD_JSON,
    },
    Case {
        source: SLEEP,
        symbols: "",
        ticks: 20,
        lines: SLEEP_LINES,
        json: SLEEP_JSON,
    },
    Case {
        source: SLEEP,
        symbols: "",
        ticks: 0,
        lines: START_LINES,
        json: START_JSON,
    },
    Case {
        source: CEILING,
        symbols: "",
        ticks: 130,
        lines: CEILING_LINES,
        json: CEILING_JSON,
    },
    Case {
        source: YIELDS,
        symbols: "",
        ticks: 30,
        lines: YIELDS_LINES,
        json: YIELDS_JSON,
    },
    Case {
        source: LOST_WAKEUP,
        symbols: LOST_WAKEUP_SYMBOLS,
        ticks: 100,
        lines: LOST_WAKEUP_LINES,
        json: LOST_WAKEUP_JSON,
    },
];

// Whether this is written of a guest after these ticks, in a form.
fn is_written(
    alloc: Global,
    guest: &(Config, Files),
    symbols: &Symbols<'_>,
    ticks: u64,
    form: Form,
    want: &str,
) -> bool {
    let mut out = Vec::new(alloc);
    let ticks = Tick::new(ticks.min(LAST_TICK));
    explain_partition_with(
        alloc, &guest.0, &guest.1, ticks, "p", symbols, form, &mut out,
    )
    .is_ok()
        && out.as_slice() == want.as_bytes()
}

// Whether a case is told, as lines and as JSON.
fn is_told(alloc: Global, case: &Case<'_>) -> bool {
    match (
        guest_of(alloc, &ALONE, &[case.source]),
        read_symbols(alloc, case.symbols),
    ) {
        (Some(guest), Ok(symbols)) => {
            is_written(alloc, &guest, &symbols, case.ticks, Form::Lines, case.lines)
                && is_written(alloc, &guest, &symbols, case.ticks, Form::Json, case.json)
        }
        _ => false,
    }
}

#[test]
fn partitions_stand_as_told(rt: HostRuntime) {
    for (place, case) in CASES.iter().enumerate() {
        assert!(rt; is_told(rt.alloc(), case), "{place}");
    }
}
