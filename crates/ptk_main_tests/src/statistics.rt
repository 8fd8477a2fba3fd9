//! The figures of runs of ten small guests. What they are was worked out by hand from the costs of docs/GUEST_ABI.md;
//! the ticks stand beside the guests. A helper that promises nothing is between the rows and the calls that they test.
//! Steps and lost ticks are compared with those that the system counts, too.

use crate::parts::{FIRST, FRAME, NUMBERS};
use ptk_main_commands::statistics::{
    Deadline, Form, Measure, PartStatistics, Statistics, stats_with,
};
use ptk_main_guests::{Config, Files, P, System, guest_of};
use ptk_words::{LAST_TICK, PartId, ThreadNo, Tick};
use std::alloc::Global;

/// exit(0).
pub(crate) const EXIT: &str = "
    li a7, 0            #  0  exit
    ecall               #  1
";

/// console_put in a loop.
const PUTS: &str = "
    li a7, 1            #  0  console_put
put:
    ecall               #  1,  6, 11, 40, 45, 50: 1 tick was left at 16
    j put               #  5, 10, 15, 44, 49, 54
";

/// clock_nanosleep until tick 30, then 60, then 120: the time is stored, the call made, and the time doubled.
const SLEEPS: &str = "
    li a7, 4            #  0  clock_nanosleep
    li a1, 512          #  1  the address of the time
    li a2, 30000        #  2  its nanoseconds
sleep:
    sw a2, 8(a1)        #  4, 32, 62
    ecall               #  5, 40, 63: 3 ticks were left at 33
    add a2, a2, a2      # 30, 60
    j sleep             # 31, 61
";

/// Thread 1 locks a mutex and creates thread 2, of a greater priority, which tries in vain to lock the mutex, and waits
/// for it until thread 1 unlocks it. Both end.
const LOCKS: &str = "
    la a0, lock         #   0
    li a7, 22           #   2  mutex_lock: it is set up as mutex 1
    ecall               #   3
    la a0, attributes   #  11
    la a1, second       #  13
    li a7, 10           #  15  create
    ecall               #  16
    la a0, lock         #  58
    li a7, 25           #  60  mutex_unlock
    ecall               #  80: 9 ticks were left at 61
    li a7, 11           # 124  pthread_exit
    ecall               # 125, the gate at 131
second:
    la a0, lock         #  28
    li a7, 23           #  40  mutex_trylock: thread 1 has it
    ecall               #  41
    la a0, lock         #  47
    li a7, 22           #  49  mutex_lock
    ecall               #  50, blocked from 58 on
    la a0, lock         #  90
    li a7, 25           #  92  mutex_unlock
    ecall               #  93
    ret                 # 103, the gate at 104 and 120: 2 ticks were left at 108
.data
lock:
    .word 0
attributes:
    .word 0             # joinable
    .word 1             # explicit
    .word 1             # SCHED_FIFO
    .word 20            # priority
    .word 0             # default stack
";

/// Thread 1 creates thread 2, of a greater priority, and cancels it while it waits for a byte.
const CANCELS: &str = "
    la a0, attributes   #  0
    la a1, second       #  2
    li a7, 10           #  4  create
    ecall               #  5
    li a0, 2            # 23
    li a7, 40           # 24  cancel
    ecall               # 25
    li a7, 0            # 44  exit
    ecall               # 45
second:
    li a0, 7            # 17
    li a7, 2            # 18  console_get
    ecall               # 19, blocked from 23 to 25; its unwinding begins at 35, the gate at 40: 1 tick was left at 39
.data
attributes:
    .word 0             # joinable
    .word 1             # explicit
    .word 1             # SCHED_FIFO
    .word 20            # priority
    .word 0             # default stack
";

/// Thread 1 locks a mutex, creates thread 2, of a greater priority, and halts the partition while thread 2 waits for
/// the mutex.
const HALTS: &str = "
    la a0, lock         #  0
    li a7, 22           #  2  mutex_lock
    ecall               #  3
    la a0, attributes   # 11
    la a1, second       # 13
    li a7, 10           # 15  create
    ecall               # 16
    li a7, 0            # 39  exit
    ecall               # 40
second:
    la a0, lock         # 28
    li a7, 22           # 30  mutex_lock
    ecall               # 31, blocked from 39 on
.data
lock:
    .word 0
attributes:
    .word 0             # joinable
    .word 1             # explicit
    .word 1             # SCHED_FIFO
    .word 20            # priority
    .word 0             # default stack
";

/// Thread 1 creates a detached thread of a greater priority, which gets number 2, and both sleep. Thread 2 wakes first
/// and ends. Thread 1 creates another one, which gets the number too and waits for a byte.
const FOLLOWS: &str = "
    la a0, attributes   #   0
    la a1, sleeper      #   2
    li a7, 10           #   4  create
    ecall               #   5
    la a1, later        #  26
    li a7, 4            #  28  clock_nanosleep
    ecall               #  29, blocked from 35 on
    la a0, attributes   #  90
    la a1, reader       #  92
    li a7, 10           #  94  create
    ecall               #  95
    li a7, 0            # 112  exit
    ecall               # 113
sleeper:
    la a1, sooner       #  17
    li a7, 4            #  19  clock_nanosleep
    ecall               #  20, blocked from 26 on
    ret                 #  50, the gate at 51 and 55
reader:
    li a7, 2            # 107  console_get
    ecall               # 108, blocked from 112 on
.data
sooner:
    .word 0
    .word 0
    .word 50000
later:
    .word 0
    .word 0
    .word 90000
attributes:
    .word 1             # detached
    .word 1             # explicit
    .word 1             # SCHED_FIFO
    .word 20            # priority
    .word 0             # default stack
";

/// The thread sets its policy and priority to those that it has, so that it goes to the tail of its list, and is the
/// first there: no other thread runs.
const ALONE: &str = "
    li a0, 1            #  0
    li a1, 1            #  1  SCHED_FIFO
    li a2, 16           #  2
    li a7, 16           #  3  pthread_setschedparam
    ecall               #  4
    li a7, 0            # 12  exit
    ecall               # 13
";

/// A mutex is owned from 16 to 42 and from 80 to 94. Of the first time the ticks 24 to 39 lie in no window.
const HOLDS: &str = "
    la s0, lock         #  0
    li a7, 22           #  2  mutex_lock
    nop                 #  3
    nop
    nop
    nop
    nop
    nop
    nop
    nop
    nop
    nop
    nop
    nop                 # 14
    mv a0, s0           # 15
    ecall               # 16
    mv a0, s0           # 40
    li a7, 25           # 41  mutex_unlock
    ecall               # 42
    li a7, 22           # 52  mutex_lock
    mv a0, s0           # 53
    nop                 # 54
    nop
    nop
    nop
    nop
    nop
    nop
    nop
    nop
    nop                 # 63
    ecall               # 80
    nop                 # 88
    nop
    nop
    nop                 # 91
    mv a0, s0           # 92
    li a7, 25           # 93  mutex_unlock
    ecall               # 94
    li a7, 0            # 120  exit
    ecall               # 121
.data
lock:
    .word 0
";

/// A signal that wakes nobody, a step that uses more than the stack, and a sleep up to tick 0, which has been reached.
const SIGNALS: &str = "
    la a0, condition    #  0
    li a7, 34           #  2  cond_signal: it is set up as condition variable 1
    ecall               #  3
    addi sp, sp, -272   # 15  16 bytes below the end
    addi sp, sp, 272    # 16
    li a1, 512          # 17  the address of a time, which is 0
    li a7, 4            # 18  clock_nanosleep
    ecall               # 19, and on at 25
    li a7, 0            # 25  exit
    ecall               # 26
.data
condition:
    .word 0
";

/// The window of p: all ticks of a frame.
const WHOLE: &str = "[[window]]\nstart = 0\nlength = 40\npartition = \"p\"\n";

/// The windows of p: the first 20 ticks of each of ten frames, and then all ticks.
const WIDENED: &str =
    "[[window]]\nstart = 0\nlength = 20\npartition = \"p\"\n[[plan]]\nfrom = 10\n[[plan.window]]\nstart = 0\nlength = 40\npartition = \"p\"\n";

/// A guest, the window of its partition, a number of ticks, and what is written of its run.
struct Case<'a> {
    source: &'a str,
    window: &'a str,
    ticks: u64,
    written: &'a str,
}

/// What is written of each run.
static CASES: [Case<'static>; 15] = [
    // two steps, and the partition is halted from the tick behind the one of its exit
    Case {
        source: EXIT,
        window: FIRST,
        ticks: 30,
        written: "partition p exited\n  own ticks        used        idle        lost  after halt  lost ahead       steps\n         20           2           0           0          18           0           2\nthread does            since       steps   preempted       to run    to run own\n     1 halted              2           2           0            0             0\nthread ticks     running       ready       input       sleep        join       mutex   condition      relock\n     1 own             2           0           0           0           0           0           0           0\n     1 all             2           0           0           0           0           0           0           0\nthread responses       least        mean        95 %        99 %    greatest     at tick        late    deadline      missed\nthread stack       bottom      least        used          of\n     1        0x00000f00 0x00001000           0         256\nthread call                           made     refused\n     1 exit                              1           0\n mutex longest       ticks   own ticks      thread     at tick\ncondition    signals  woke nobody  broadcasts  woke nobody\n\n",
    },
    // a call of 4 ticks has room for 1 at the end of the first window and for 2 at that of the second, whose second is
    // tick 56
    Case {
        source: PUTS,
        window: "[[window]]\nstart = 0\nlength = 17\npartition = \"p\"\n",
        ticks: 56,
        written: "partition p running\n  own ticks        used        idle        lost  after halt  lost ahead       steps\n         33          31           0           2           0           1          13\nthread does            since       steps   preempted       to run    to run own\n     1 running             0          13           0            0             0\nthread ticks     running       ready       input       sleep        join       mutex   condition      relock\n     1 own            33           0           0           0           0           0           0           0\n     1 all            56           0           0           0           0           0           0           0\nthread responses       least        mean        95 %        99 %    greatest     at tick        late    deadline      missed\nthread stack       bottom      least        used          of\n     1        0x00000f00 0x00001000           0         256\nthread call                           made     refused\n     1 console_put                       6           0\n mutex longest       ticks   own ticks      thread     at tick\ncondition    signals  woke nobody  broadcasts  woke nobody\n\n",
    },
    // woken at 30, with 3 ticks lost at 33 and blocked from 46 on; woken at 60 and blocked from 69 on
    Case {
        source: SLEEPS,
        window: "[[window]]\nstart = 0\nlength = 36\npartition = \"p\"\n",
        ticks: 70,
        written: "partition p idle\n  own ticks        used        idle        lost  after halt  lost ahead       steps\n         66          29          34           3           0           0          14\nthread does            since       steps   preempted       to run    to run own\n     1 sleep              69          14           0            0             0\nthread ticks     running       ready       input       sleep        join       mutex   condition      relock\n     1 own            32           0           0          34           0           0           0           0\n     1 all            36           0           0          34           0           0           0           0\nthread responses       least        mean        95 %        99 %    greatest     at tick        late    deadline      missed\n     1         3           9          12          16          16          16          30           0           -           -\nthread stack       bottom      least        used          of\n     1        0x00000f00 0x00001000           0         256\nthread call                           made     refused\n     1 clock_nanosleep                   3           0\n mutex longest       ticks   own ticks      thread     at tick\ncondition    signals  woke nobody  broadcasts  woke nobody\n\n",
    },
    // the same up to tick 45, in the last tick of the call with which it blocks: the response has not come to its completion. It ran
    // from 0 to 11 and from 30 on, and slept in between
    Case {
        source: SLEEPS,
        window: "[[window]]\nstart = 0\nlength = 36\npartition = \"p\"\n",
        ticks: 45,
        written: "partition p idle\n  own ticks        used        idle        lost  after halt  lost ahead       steps\n         41          19          19           3           0           0          10\nthread does            since       steps   preempted       to run    to run own\n     1 sleep              45          10           0            0             0\nthread ticks     running       ready       input       sleep        join       mutex   condition      relock\n     1 own            22           0           0          19           0           0           0           0\n     1 all            26           0           0          19           0           0           0           0\nthread responses       least        mean        95 %        99 %    greatest     at tick        late    deadline      missed\n     1         1          11          11          11          11          11           0           0           -           -\nthread stack       bottom      least        used          of\n     1        0x00000f00 0x00001000           0         256\nthread call                           made     refused\n     1 clock_nanosleep                   2           0\n mutex longest       ticks   own ticks      thread     at tick\ncondition    signals  woke nobody  broadcasts  woke nobody\n\n",
    },
    // the same up to tick 46, the end of that call: it has
    Case {
        source: SLEEPS,
        window: "[[window]]\nstart = 0\nlength = 36\npartition = \"p\"\n",
        ticks: 46,
        written: "partition p idle\n  own ticks        used        idle        lost  after halt  lost ahead       steps\n         42          20          19           3           0           0          10\nthread does            since       steps   preempted       to run    to run own\n     1 sleep              46          10           0            0             0\nthread ticks     running       ready       input       sleep        join       mutex   condition      relock\n     1 own            23           0           0          19           0           0           0           0\n     1 all            27           0           0          19           0           0           0           0\nthread responses       least        mean        95 %        99 %    greatest     at tick        late    deadline      missed\n     1         2          11          13          16          16          16          30           0           -           -\nthread stack       bottom      least        used          of\n     1        0x00000f00 0x00001000           0         256\nthread call                           made     refused\n     1 clock_nanosleep                   2           0\n mutex longest       ticks   own ticks      thread     at tick\ncondition    signals  woke nobody  broadcasts  woke nobody\n\n",
    },
    // own ticks are 0 to 29, 40 to 69, 80 to 109 and 120 to 139. Thread 1 runs from 0, 58 and 124 on, and is ready from
    // 28 and 90 on, where thread 2 preempts it; with its end at 131 the partition is halted from 132 on. Thread 2 is
    // ready from 16 and 80 on, runs from 28 and 90 on, waits from 58 on, and has ended at 124. The mutex is thread 1's
    // from 3 to 80 and thread 2's from 80 to 93
    Case {
        source: LOCKS,
        window: "[[window]]\nstart = 0\nlength = 30\npartition = \"p\"\n",
        ticks: 140,
        written: "partition p exited\n  own ticks        used        idle        lost  after halt  lost ahead       steps\n        110          91           0          11           8           0          32\nthread does            since       steps   preempted       to run    to run own\n     1 ended             132          17           2           34            24\n     2 ended             124          15           0           12            12\nthread ticks     running       ready       input       sleep        join       mutex   condition      relock\n     1 own            58          44           0           0           0           0           0           0\n     1 all            68          64           0           0           0           0           0           0\n     2 own            44          22           0           0           0          12           0           0\n     2 all            64          22           0           0           0          22           0           0\nthread responses       least        mean        95 %        99 %    greatest     at tick        late    deadline      missed\n     1         1         132         132         132         132         132           0           0           -           -\n     2         1         108         108         108         108         108          16           0           -           -\nthread stack       bottom      least        used          of\n     1        0x00000f00 0x00001000           0         256\n     2        0x00000e00 0x00000f00           0         256\nthread call                           made     refused\n     1 pthread_create                    1           0\n     1 pthread_exit                      1           0\n     1 pthread_mutex_lock                1           0\n     1 pthread_mutex_unlock              1           0\n     2 pthread_mutex_lock                1           0\n     2 pthread_mutex_trylock             1           1\n     2 pthread_mutex_unlock              1           0\n mutex longest       ticks   own ticks      thread     at tick\n     1 held             77          57           1           3\n     1 waited           22          12           2          58\ncondition    signals  woke nobody  broadcasts  woke nobody\n\n",
    },
    // thread 2 is created at 5, runs from 17 on, waits from 23 on, is taken out of its wait at 25 with no reply, runs
    // from 35 on, and has ended at 44. Thread 1 is ready from 17 and 35 on, runs from 23 and 44 on, and the partition
    // is halted from 46 on
    Case {
        source: CANCELS,
        window: WHOLE,
        ticks: 60,
        written: "partition p exited\n  own ticks        used        idle        lost  after halt  lost ahead       steps\n         60          45           0           1          14           0          16\nthread does            since       steps   preempted       to run    to run own\n     1 halted             46          11           2            9             9\n     2 ended              44           5           0           12            12\nthread ticks     running       ready       input       sleep        join       mutex   condition      relock\n     1 own            31          15           0           0           0           0           0           0\n     1 all            31          15           0           0           0           0           0           0\n     2 own            15          22           2           0           0           0           0           0\n     2 all            15          22           2           0           0           0           0           0\nthread responses       least        mean        95 %        99 %    greatest     at tick        late    deadline      missed\n     2         2          18          18          19          19          19          25           0           -           -\nthread stack       bottom      least        used          of\n     1        0x00000f00 0x00001000           0         256\n     2        0x00000e00 0x00000f00           0         256\nthread call                           made     refused\n     1 exit                              1           0\n     1 pthread_create                    1           0\n     1 pthread_cancel                    1           0\n     2 console_get                       1           0\n mutex longest       ticks   own ticks      thread     at tick\ncondition    signals  woke nobody  broadcasts  woke nobody\n\n",
    },
    // thread 2 is created at 16, runs from 28 on, and waits from 39 on, up to the step at 40 that halts the partition:
    // it has no reply. Thread 1 is ready from 28 on, and runs from 39 on
    Case {
        source: HALTS,
        window: WHOLE,
        ticks: 60,
        written: "partition p exited\n  own ticks        used        idle        lost  after halt  lost ahead       steps\n         60          41           0           0          19           0          16\nthread does            since       steps   preempted       to run    to run own\n     1 halted             41          12           1           11            11\n     2 halted             40           4           0           12            12\nthread ticks     running       ready       input       sleep        join       mutex   condition      relock\n     1 own            30          11           0           0           0           0           0           0\n     1 all            30          11           0           0           0           0           0           0\n     2 own            11          12           0           0           0           1           0           0\n     2 all            11          12           0           0           0           1           0           0\nthread responses       least        mean        95 %        99 %    greatest     at tick        late    deadline      missed\nthread stack       bottom      least        used          of\n     1        0x00000f00 0x00001000           0         256\n     2        0x00000e00 0x00000f00           0         256\nthread call                           made     refused\n     1 exit                              1           0\n     1 pthread_create                    1           0\n     1 pthread_mutex_lock                1           0\n     2 pthread_mutex_lock                1           0\n mutex longest       ticks   own ticks      thread     at tick\n     1 held             57          57           1           3\n     1 waited            1           1           2          39\ncondition    signals  woke nobody  broadcasts  woke nobody\n\n",
    },
    // the same up to tick 30: thread 1 is ready from 28 on, and has waited until then
    Case {
        source: HALTS,
        window: WHOLE,
        ticks: 30,
        written: "partition p running\n  own ticks        used        idle        lost  after halt  lost ahead       steps\n         30          30           0           0           0           0          12\nthread does            since       steps   preempted       to run    to run own\n     1 ready              28          10           1            2             2\n     2 running            28           2           0           12            12\nthread ticks     running       ready       input       sleep        join       mutex   condition      relock\n     1 own            28           2           0           0           0           0           0           0\n     1 all            28           2           0           0           0           0           0           0\n     2 own             2          12           0           0           0           0           0           0\n     2 all             2          12           0           0           0           0           0           0\nthread responses       least        mean        95 %        99 %    greatest     at tick        late    deadline      missed\nthread stack       bottom      least        used          of\n     1        0x00000f00 0x00001000           0         256\n     2        0x00000e00 0x00000f00           0         256\nthread call                           made     refused\n     1 pthread_create                    1           0\n     1 pthread_mutex_lock                1           0\n mutex longest       ticks   own ticks      thread     at tick\n     1 held             27          27           1           3\ncondition    signals  woke nobody  broadcasts  woke nobody\n\n",
    },
    // the same up to tick 35, in a tick of the call with which thread 2 blocks: nobody waits for the mutex yet. Thread
    // 1 is ready from 28 on
    Case {
        source: HALTS,
        window: WHOLE,
        ticks: 35,
        written: "partition p running\n  own ticks        used        idle        lost  after halt  lost ahead       steps\n         35          35           0           0           0           0          14\nthread does            since       steps   preempted       to run    to run own\n     1 ready              28          10           1            7             7\n     2 mutex              35           4           0           12            12\nthread ticks     running       ready       input       sleep        join       mutex   condition      relock\n     1 own            28           7           0           0           0           0           0           0\n     1 all            28           7           0           0           0           0           0           0\n     2 own             7          12           0           0           0           0           0           0\n     2 all             7          12           0           0           0           0           0           0\nthread responses       least        mean        95 %        99 %    greatest     at tick        late    deadline      missed\nthread stack       bottom      least        used          of\n     1        0x00000f00 0x00001000           0         256\n     2        0x00000e00 0x00000f00           0         256\nthread call                           made     refused\n     1 pthread_create                    1           0\n     1 pthread_mutex_lock                1           0\n     2 pthread_mutex_lock                1           0\n mutex longest       ticks   own ticks      thread     at tick\n     1 held             32          32           1           3\ncondition    signals  woke nobody  broadcasts  woke nobody\n\n",
    },
    // thread 2 is created at 5 and 95, and runs from 17, 50 and 107 on. The first one sleeps from 26 on, wakes at 50,
    // and has ended at 59. The second one waits from 112 on, up to the step at 113 that halts the partition, and never
    // woke. Thread 1 sleeps from 35 to 90
    Case {
        source: FOLLOWS,
        window: WHOLE,
        ticks: 120,
        written: "partition p exited\n  own ticks        used        idle        lost  after halt  lost ahead       steps\n        120          68          46           0           6           0          27\nthread does            since       steps   preempted       to run    to run own\n     1 halted            114          18           2            9             9\n     2 halted            113           9           0           12            12\nthread ticks     running       ready       input       sleep        join       mutex   condition      relock\n     1 own            45          14           0          55           0           0           0           0\n     1 all            45          14           0          55           0           0           0           0\n     2 own            23          24           1          24           0           0           0           0\n     2 all            23          24           1          24           0           0           0           0\nthread responses       least        mean        95 %        99 %    greatest     at tick        late    deadline      missed\n     1         1          35          35          35          35          35           0           0           -           -\n     2         3           9          15          21          21          21           5           0           -           -\nthread stack       bottom      least        used          of\n     1        0x00000f00 0x00001000           0         256\n     2        0x00000e00 0x00000f00           0         256\nthread call                           made     refused\n     1 exit                              1           0\n     1 clock_nanosleep                   1           0\n     1 pthread_create                    2           0\n     2 console_get                       1           0\n     2 clock_nanosleep                   1           0\n mutex longest       ticks   own ticks      thread     at tick\ncondition    signals  woke nobody  broadcasts  woke nobody\n\n",
    },
    // ready at the end of its own call at 12, and running again from 12 on: it was not preempted
    Case {
        source: ALONE,
        window: FIRST,
        ticks: 30,
        written: "partition p exited\n  own ticks        used        idle        lost  after halt  lost ahead       steps\n         20          14           0           0           6           0           7\nthread does            since       steps   preempted       to run    to run own\n     1 halted             14           7           0            0             0\nthread ticks     running       ready       input       sleep        join       mutex   condition      relock\n     1 own            14           0           0           0           0           0           0           0\n     1 all            14           0           0           0           0           0           0           0\nthread responses       least        mean        95 %        99 %    greatest     at tick        late    deadline      missed\nthread stack       bottom      least        used          of\n     1        0x00000f00 0x00001000           0         256\nthread call                           made     refused\n     1 exit                              1           0\n     1 pthread_setschedparam             1           0\n mutex longest       ticks   own ticks      thread     at tick\ncondition    signals  woke nobody  broadcasts  woke nobody\n\n",
    },
    // owned for 26 ticks from 16 on, of which 10 are own, and for 14 own ticks from 80 on: the most are 26 and 14
    Case {
        source: HOLDS,
        window: "[[window]]\nstart = 0\nlength = 24\npartition = \"p\"\n",
        ticks: 110,
        written: "partition p running\n  own ticks        used        idle        lost  after halt  lost ahead       steps\n         72          72           0           0           0           0          40\nthread does            since       steps   preempted       to run    to run own\n     1 running             0          40           0            0             0\nthread ticks     running       ready       input       sleep        join       mutex   condition      relock\n     1 own            72           0           0           0           0           0           0           0\n     1 all           110           0           0           0           0           0           0           0\nthread responses       least        mean        95 %        99 %    greatest     at tick        late    deadline      missed\nthread stack       bottom      least        used          of\n     1        0x00000f00 0x00001000           0         256\nthread call                           made     refused\n     1 pthread_mutex_lock                2           0\n     1 pthread_mutex_unlock              2           0\n mutex longest       ticks   own ticks      thread     at tick\n     1 held             26          14           1          16\ncondition    signals  woke nobody  broadcasts  woke nobody\n\n",
    },
    // 27,487,790,694 frames with 20 own ticks each, and 16 ticks of the next
    Case {
        source: EXIT,
        window: FIRST,
        ticks: LAST_TICK,
        written: "partition p exited\n  own ticks        used        idle        lost  after halt  lost ahead       steps\n549755813896           2           0           0 549755813894           0           2\nthread does            since       steps   preempted       to run    to run own\n     1 halted              2           2           0            0             0\nthread ticks     running       ready       input       sleep        join       mutex   condition      relock\n     1 own             2           0           0           0           0           0           0           0\n     1 all             2           0           0           0           0           0           0           0\nthread responses       least        mean        95 %        99 %    greatest     at tick        late    deadline      missed\nthread stack       bottom      least        used          of\n     1        0x00000f00 0x00001000           0         256\nthread call                           made     refused\n     1 exit                              1           0\n mutex longest       ticks   own ticks      thread     at tick\ncondition    signals  woke nobody  broadcasts  woke nobody\n\n",
    },
    // ten frames with 20 own ticks each, and then each tick
    Case {
        source: EXIT,
        window: WIDENED,
        ticks: LAST_TICK,
        written: "partition p exited\n  own ticks        used        idle        lost  after halt  lost ahead       steps\n1099511627576           2           0           0 1099511627574           0           2\nthread does            since       steps   preempted       to run    to run own\n     1 halted              2           2           0            0             0\nthread ticks     running       ready       input       sleep        join       mutex   condition      relock\n     1 own             2           0           0           0           0           0           0           0\n     1 all             2           0           0           0           0           0           0           0\nthread responses       least        mean        95 %        99 %    greatest     at tick        late    deadline      missed\nthread stack       bottom      least        used          of\n     1        0x00000f00 0x00001000           0         256\nthread call                           made     refused\n     1 exit                              1           0\n mutex longest       ticks   own ticks      thread     at tick\ncondition    signals  woke nobody  broadcasts  woke nobody\n\n",
    },
];

/// What is written of the run of `SIGNALS` up to tick 40, with a deadline of 24 ticks and a look at each step. The first
/// response takes 25 ticks from tick 0 on, and the second one, from tick 0 on too, is cut off at 27 by the halt.
const SIGNALLED: &str =
    "partition p exited\n  own ticks        used        idle        lost  after halt  lost ahead       steps\n         40          27           0           0          13           0          11\nthread does            since       steps   preempted       to run    to run own\n     1 halted             27          11           0            0             0\nthread ticks     running       ready       input       sleep        join       mutex   condition      relock\n     1 own            27           0           0           0           0           0           0           0\n     1 all            27           0           0           0           0           0           0           0\nthread responses       least        mean        95 %        99 %    greatest     at tick        late    deadline      missed\n     1         1          25          25          25          25          25           0           1          24           2\nthread stack       bottom      least        used          of\n     1        0x00000f00 0x00000ef0         272         256 overflow\nthread call                           made     refused\n     1 exit                              1           0\n     1 clock_nanosleep                   1           0\n     1 pthread_cond_signal               1           0\n mutex longest       ticks   own ticks      thread     at tick\ncondition    signals  woke nobody  broadcasts  woke nobody\n        1          1            1           0            0\n\n";

/// The first run as JSON.
const JSON: &str =
    "{\"format\":\"ptk stats 2\",\"ticks\":30,\"from\":0,\"partitions\":[{\"name\":\"p\",\"status\":\"exit\",\"code\":0,\"own\":20,\"used\":2,\"idle\":0,\"lost\":0,\"after_halt\":18,\"lost_ahead\":0,\"steps\":2,\"threads\":[{\"thread\":1,\"does\":\"halted\",\"since\":2,\"steps\":2,\"preemptions\":0,\"to_run\":{\"own\":0,\"all\":0},\"ticks\":{\"running\":{\"own\":2,\"all\":2},\"ready\":{\"own\":0,\"all\":0},\"input\":{\"own\":0,\"all\":0},\"sleep\":{\"own\":0,\"all\":0},\"join\":{\"own\":0,\"all\":0},\"mutex\":{\"own\":0,\"all\":0},\"condition\":{\"own\":0,\"all\":0},\"relock\":{\"own\":0,\"all\":0}},\"response\":{\"count\":0,\"least\":0,\"mean\":0,\"within_95\":0,\"within_99\":0,\"greatest\":0,\"greatest_from\":0,\"late\":0,\"deadline\":null,\"missed\":0},\"stack\":{\"bottom\":3840,\"least\":4096,\"used\":0,\"size\":256,\"overflow\":0},\"calls\":[{\"call\":\"exit\",\"made\":1,\"refused\":0}]}],\"mutexes\":[],\"conditions\":[]}]}\n";

// Whether this is written of the run of a case with this configuration.
fn is_run(
    alloc: Global,
    config: &Config,
    files: &Files,
    case: &Case<'_>,
    form: Form,
    written: &str,
) -> bool {
    let mut out = Vec::new(alloc);
    let ticks = Tick::new(case.ticks.min(LAST_TICK));
    let partition = match form {
        Form::Tables => None,
        Form::Json => Some("p"),
    };
    let measure = Measure {
        from: Tick::new(0),
        to: ticks,
        deadlines: &[],
        every_step: false,
    };
    stats_with(alloc, config, files, &measure, partition, form, &mut out).is_ok()
        && out.as_slice() == written.as_bytes()
}

// Whether this is written of the run of a case.
fn is_written(alloc: Global, case: &Case<'_>, form: Form, written: &str) -> bool {
    let parts = [FRAME, P, NUMBERS, case.window];
    match guest_of(alloc, &parts, &[case.source]) {
        Some((config, files)) => is_run(alloc, &config, &files, case, form, written),
        None => false,
    }
}

// Whether the figures of the first partition, up to a tick of at most 2^40, have the steps and the lost ticks that the
// system counts, and its threads these steps.
fn is_counted(part: &PartStatistics, steps: u64, lost: u64) -> bool {
    let counted = part.counted();
    let mut sum = 0u64;
    for thread in part.threads() {
        sum = sum.saturating_add(thread.steps());
    }
    counted.steps() == steps
        && sum == steps
        && counted.lost().saturating_add(counted.ahead()) == lost
}

// Whether the figures of the run of a case agree with what the system counts.
fn agrees(alloc: Global, case: &Case<'_>) -> bool {
    let parts = [FRAME, P, NUMBERS, case.window];
    let Some((config, files)) = guest_of(alloc, &parts, &[case.source]) else {
        return false;
    };
    let ticks = Tick::new(case.ticks.min(LAST_TICK));
    let (Ok(mut seen), Ok(second), Ok(mut run)) = (
        System::boot(alloc, &config, &files),
        System::boot(alloc, &config, &files),
        System::boot(alloc, &config, &files),
    ) else {
        return false;
    };
    let measure = Measure {
        from: Tick::new(0),
        to: ticks,
        deadlines: &[],
        every_step: true,
    };
    run.run_to(ticks);
    let p = PartId::new(0);
    match Statistics::of_run(alloc, &mut seen, second, &measure) {
        Ok(statistics) => match statistics.parts().first() {
            Some(part) => 1 <= run.parts() && is_counted(part, run.steps(p), run.lost(p)),
            None => false,
        },
        Err(_) => false,
    }
}

// Whether this is written of the run of `SIGNALS`.
fn is_signalled(alloc: Global) -> bool {
    let parts = [FRAME, P, NUMBERS, WHOLE];
    let Some((config, files)) = guest_of(alloc, &parts, &[SIGNALS]) else {
        return false;
    };
    let deadlines = [Deadline {
        partition: PartId::new(0),
        thread: ThreadNo::new(1),
        ticks: 24,
    }];
    let measure = Measure {
        from: Tick::new(0),
        to: Tick::new(40),
        deadlines: &deadlines,
        every_step: true,
    };
    let mut out = Vec::new(alloc);
    stats_with(
        alloc,
        &config,
        &files,
        &measure,
        None,
        Form::Tables,
        &mut out,
    )
    .is_ok()
        && out.as_slice() == SIGNALLED.as_bytes()
}

#[test]
fn signals(rt: HostRuntime) {
    assert!(rt; is_signalled(rt.alloc()));
}

#[test]
fn counts(rt: HostRuntime) {
    for (place, case) in CASES.iter().enumerate() {
        assert!(rt; agrees(rt.alloc(), case), "{place}");
    }
}

#[test]
fn figures(rt: HostRuntime) {
    for (place, case) in CASES.iter().enumerate() {
        assert!(rt;
            is_written(rt.alloc(), case, Form::Tables, case.written),
            "{place}"
        );
    }
    assert!(rt; is_written(rt.alloc(), &CASES[0], Form::Json, JSON));
}
