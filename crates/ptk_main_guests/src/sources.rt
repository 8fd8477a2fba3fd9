//! The sources of guests. The ticks stand beside the lines, in windows of 20 ticks or in those of the guest's test.

/// Puts `h` and `i` and exits with 0.
pub const HELLO: &str = "
    li a7, 1            #  0  console_put
    li a0, 104          #  1  h
    ecall               #  2
    li a7, 1            #  6  console_put
    li a0, 105          #  7  i
    ecall               #  8
    li a7, 0            # 12  exit
    li a0, 0            # 13
    ecall               # 14
";

/// No text: the first fetch meets a word 0.
pub const EMPTY: &str = "";

/// Creates a thread that adds 2 to its argument 5, joins it and exits with its result.
pub const CREATE_JOIN: &str = "
    la a1, t            #  0
    li a0, 0            #  2
    li a2, 5            #  3
    li a7, 10           #  4  pthread_create
    ecall               #  5
    mv a0, a1           # 17
    li a7, 12           # 18  join
    ecall               # 19  blocks
    mv a0, a1           # 37
    li a7, 0            # 38  exit
    ecall               # 39
t:
    addi a0, a0, 2      # 27
    ret                 # 28  the gate at 29 and 33
";

/// Creates a thread, puts its number, joins it and exits with its result.
pub const PUTS_THE_NUMBER: &str = "
    la a1, t            #  0
    li a0, 0            #  2
    li a2, 5            #  3
    li a7, 10           #  4  pthread_create
    ecall               #  5
    addi a0, a1, 48     # 17
    mv s0, a1           # 18
    li a7, 1            # 19  console_put
    ecall               # 40
    mv a0, s0           # 44
    li a7, 12           # 45  join
    ecall               # 46  blocks
    mv a0, a1           # 84
    li a7, 0            # 85  exit
    ecall               # 86
t:
    addi a0, a0, 2      # 54
    ret                 # 55  the gate at 56 and 80
";

/// Exits at once.
pub const QUIET: &str = "
    li a0, 0
    li a7, 0            # exit
    ecall
";

/// Creates threads and locks mutexes until it is refused, fills its output and stops at EBREAK.
pub const STORM: &str = "
create:
    li a0, 0
    li a1, 64           # rest
    li a7, 10           # pthread_create
    ecall
    beq a0, zero, create
    li s0, 1024
lock:
    mv a0, s0
    li a7, 22           # mutex_lock
    ecall
    addi s0, s0, 4
    beq a0, zero, lock
fill:
    li a0, 33
    li a7, 1            # console_put
    ecall
    beq a0, zero, fill
    ebreak
rest:
    ret
";

/// Jumps to itself.
pub const SPIN: &str = "
spin:
    j spin
";

/// Gets a byte and exits with 0.
pub const GET_ONE: &str = "
    li a7, 2            #  0  console_get
    ecall               #  1  blocks until 19
    li a7, 0            # 19  exit
    ecall               # 40
";

/// Puts `x` 8192 times and exits with 0.
pub const PUTS_8192: &str = "
    lui t0, 2           #     0  8192
    li a7, 1            #     1  console_put
put:
    li a0, 120          #     2 + 7 k
    ecall               #     3 + 7 k
    addi t0, t0, -1
    bne t0, zero, put
    li a7, 0            # 57346  exit
    ecall               # 57347
";
