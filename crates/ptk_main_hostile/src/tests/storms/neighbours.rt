//! The storms of q. Each has 32 threads, 4 of every other object, a ring of one byte and an output of four.

/// What q is given besides its guest.
#[derive(Clone, Copy, PartialEq, Eq)]
pub enum Besides {
    /// Nothing.
    Nothing,
    /// 256 bytes of input at each of the ticks 0 to 39.
    Input,
    /// An image without its last byte.
    Cut,
}

/// A storm of q.
#[derive(Clone, Copy)]
pub struct Storm {
    /// Its name in what a failed test says.
    pub name: &'static str,
    /// Its source, after which come the library and the times.
    pub source: &'static str,
    /// What q is given besides.
    pub besides: Besides,
    /// How its part of the report begins at the last cut, 100 windows of 20 ticks.
    pub begins: &'static str,
    /// How that part ends. Where steps are left open, the output shows that the storm ended.
    pub ends: &'static str,
}

// The refusal, 11, is put as `;`.
const CREATES: &str = "
more:
    li a0, 0
    la a1, rest
    li a7, 10           # pthread_create
    ecall
    beq a0, zero, more
    addi a0, a0, 48
    li a7, 1            # console_put
    ecall
rest:
    j rest
";

// The refusals, 12, 12 and 11, are put as `<`, `<` and `;`.
const FILLS: &str = "
    li s0, 1024
mutexes:
    mv a0, s0
    li a7, 22           # mutex_lock
    ecall
    addi s0, s0, 4
    beq a0, zero, mutexes
    addi a0, a0, 48
    li a7, 1            # console_put
    ecall
conditions:
    mv a0, s0
    li a7, 34           # cond_signal
    ecall
    addi s0, s0, 4
    beq a0, zero, conditions
    addi a0, a0, 48
    li a7, 1            # console_put
    ecall
keys:
    li a0, 0
    li a7, 50           # pthread_key_create
    ecall
    beq a0, zero, keys
    addi a0, a0, 48
    li a7, 1            # console_put
    ecall
rest:
    j rest
";

const DEADLOCKS: &str = "
    li a0, 1024
    li a1, 0            # NORMAL
    li a2, 1            # INHERIT
    li a7, 20           # mutex_init
    ecall
    li a0, 1028
    ecall
    li a0, 1024
    li a7, 22           # mutex_lock
    ecall
    la a1, other
    li a3, 20
    call create
    li a0, 1028
    li a7, 22           # mutex_lock
    ecall
other:
    li a0, 1028
    li a7, 22           # mutex_lock
    ecall
    li a0, 1024
    ecall
";

const FAULTS: &str = "
    .word 0
";

// Puts what it gets. q has the ticks 20 to 39 and 60 to 79. For each of the first three calls the ring has a byte; the
// fourth one waits for good.
const READS: &str = "
again:
    li a7, 2            # 20, 32, 65, 77  console_get
    ecall               # 21, 33, 66, and 78 is too late
    mv a0, a1           # 25, 37, 70
    li a7, 1            # 26, 38, 71      console_put
    ecall               # 27, 60, 72      39 is too late
    j again             # 31, 64, 76
";

const PUTS: &str = "
    li a7, 1            # console_put
again:
    li a0, 33
    ecall
    j again
";

const BROADCASTS: &str = "
    li a7, 35           # cond_broadcast
again:
    li a0, 1024
    ecall
    j again
";

// Main sleeps until 45, and with 31 others until 3000: p's times. Each that goes on puts a mark and lets the next one.
const SLEEPS: &str = "
    li a0, 0
    la a1, early
    li a7, 4            # clock_nanosleep
    ecall
more:
    la a1, sleeper
    li a3, 20
    call create
    beq a0, zero, more
sleeper:
    li a0, 0
    la a1, late
    li a7, 4            # clock_nanosleep
    ecall
    li a0, 33
    li a7, 1            # console_put
    ecall
    li a7, 15           # yield
rest:
    ecall
    j rest
";

/// The storms.
pub const STORMS: [Storm; 9] = [
    Storm {
        name: "creates until it is refused",
        source: CREATES,
        besides: Besides::Nothing,
        begins: "partition q running steps ",
        ends: "\noutput 1\n;\n",
    },
    Storm {
        name: "fills mutexes, condition variables and keys",
        source: FILLS,
        besides: Besides::Nothing,
        begins: "partition q running steps ",
        ends: "\noutput 3\n<<;\n",
    },
    Storm {
        name: "two threads wait for each other's mutex",
        source: DEADLOCKS,
        besides: Besides::Nothing,
        begins: "partition q idle steps 28 lost ",
        ends: "\noutput 0\n\n",
    },
    Storm {
        name: "a fault at the first step",
        source: FAULTS,
        besides: Besides::Nothing,
        begins: "partition q fault illegal pc 0x00000000 steps 1 lost 0",
        ends: "\noutput 0\n\n",
    },
    Storm {
        name: "more input than the ring takes",
        source: READS,
        besides: Besides::Input,
        begins: "partition q idle steps 20 lost 3",
        ends: "\noutput 3\naaa\n",
    },
    Storm {
        name: "puts into a full output",
        source: PUTS,
        besides: Besides::Nothing,
        begins: "partition q running steps 902 lost 198",
        ends: "\noutput 4\n!!!!\n",
    },
    Storm {
        name: "broadcasts without end",
        source: BROADCASTS,
        besides: Besides::Nothing,
        begins: "partition q running steps 302 lost 198",
        ends: "\noutput 0\n\n",
    },
    Storm {
        name: "32 sleepers until p's times",
        source: SLEEPS,
        besides: Besides::Nothing,
        begins: "partition q running steps ",
        ends: "\noutput 4\n!!!!\n",
    },
    Storm {
        name: "a cut image",
        source: PUTS,
        besides: Besides::Cut,
        begins: "partition q refused image 4 steps 0 lost 0",
        ends: "\noutput 0\n\n",
    },
];
