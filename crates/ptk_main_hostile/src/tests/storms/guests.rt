//! The guests of p.

use super::sources::{
    BY_RETURN, CANCELLED_WAITER, EXPIRED_WAIT, INHERIT_BASIC, OWNER_DIED, SET_AGAIN,
};

/// A guest of p. What it is beside nobody at the last cut was worked out by hand; how many ticks it lost is left open.
#[derive(Clone, Copy)]
pub struct Guest {
    /// Its name in what a failed test says.
    pub name: &'static str,
    /// Its source, after which come the library and the times.
    pub source: [&'static str; 2],
    /// How its part of the report begins.
    pub begins: &'static str,
    /// How its part of the report ends.
    pub ends: &'static str,
}

/// The times until which p's and q's threads sleep: ticks 45 and 3000.
pub const DEADLINES: &str = "
early:
    .word 0
    .word 0
    .word 45000
late:
    .word 0
    .word 0
    .word 3000000
";

// Row create-join.
const CREATE_JOIN: &str = "
    la a1, t
    li a0, 0
    li a2, 5
    li a7, 10           # pthread_create
    ecall
    mv a0, a1
    li a7, 12           # join
    ecall
    mv a0, a1
    li a7, 0            # exit
    ecall
t:
    addi a0, a0, 2
    ret
";

// Row round-robin-windows: two threads under SCHED_RR, of main's priority, that jump to themselves.
const ROUND_ROBIN: &str = "
    la a0, robin
    la a1, loop
    li a7, 10           # pthread_create
    ecall
    la a0, robin
    la a1, loop
    ecall
    li a7, 15           # yield
    ecall
loop:
    j loop
.data
robin:
    .word 0             # joinable
    .word 1             # explicit
    .word 2             # SCHED_RR
    .word 16
    .word 0             # default stack
.text
";

// Main sleeps until 45 and makes a thread at 20, which owns the mutex and sleeps until 3000. Main waits for the mutex
// until that tick, reads 110 and exits with it, after the other has put a letter and ended.
const SLEEPERS: &str = "
    li a0, 0
    la a1, early
    li a7, 4            # clock_nanosleep
    ecall
    la a1, sleeper
    li a3, 20
    call create
    li a0, 1024
    la a1, late
    li a7, 24           # mutex_timedlock
    ecall
    li a7, 0            # exit
    ecall
sleeper:
    li a0, 1024
    li a7, 22           # mutex_lock
    ecall
    li a0, 0
    la a1, late
    li a7, 4            # clock_nanosleep
    ecall
    li a0, 115          # s
    li a7, 1            # console_put
    ecall
    ret
";

/// The guests: rows, and threads that wait until a time.
pub const GUESTS: [Guest; 8] = [
    Guest {
        name: "inherit-basic",
        source: [INHERIT_BASIC, ""],
        begins: "partition p exit 0 steps 78 lost ",
        ends: "\noutput 5\nlhmLo\n",
    },
    Guest {
        name: "expired-wait-releases",
        source: [EXPIRED_WAIT, ""],
        begins: "partition p exit 110 steps 36 lost ",
        ends: "\noutput 0\n\n",
    },
    Guest {
        name: "cancelled-waiter",
        source: [CANCELLED_WAITER, ""],
        begins: "partition p exit 0 steps 79 lost ",
        ends: "\noutput 0\n\n",
    },
    Guest {
        name: "destructor-limit",
        source: [SET_AGAIN, BY_RETURN],
        begins: "partition p exit 33 steps 68 lost ",
        ends: "\noutput 4\n1234\n",
    },
    Guest {
        name: "round-robin-windows",
        source: [ROUND_ROBIN, ""],
        begins: "partition p running steps ",
        ends: "\noutput 0\n\n",
    },
    Guest {
        name: "create-join",
        source: [CREATE_JOIN, ""],
        begins: "partition p exit 7 steps 16 lost ",
        ends: "\noutput 0\n\n",
    },
    Guest {
        name: "owner-died",
        source: [OWNER_DIED, ""],
        begins: "partition p exit 0 steps 51 lost ",
        ends: "\noutput 0\n\n",
    },
    Guest {
        name: "sleepers",
        source: [SLEEPERS, ""],
        begins: "partition p exit 110 steps 36 lost ",
        ends: "\noutput 1\ns\n",
    },
];
