//! Sources of guests of p. The ticks stand beside the lines, for one that runs alone.

/// Row inherit-basic. Low is main, 1; high, 2, makes `m`, between them, and `o`, of low's priority, before it locks.
/// Low then runs before both; after its unlock it stands first in the line, so later it runs before `o`.
pub(super) const INHERIT_BASIC: &str = "
    li a0, 1            #   0  low
    li a1, 5            #   1
    li a7, 18           #   2  setschedprio
    ecall               #   3
    li a0, 1024         #  11
    li a1, 0            #  12  NORMAL
    li a2, 1            #  13  INHERIT
    li a7, 20           #  14  mutex_init
    ecall               #  15
    li a0, 1024         #  21
    li a7, 22           #  22  mutex_lock
    ecall               #  23
    la a1, high         #  31
    li a3, 20           #  33
    call create         #  34  its ret comes at 105
    li a0, 108          # 106  l
    li a7, 1            # 107  console_put
    ecall               # 108
    li a0, 1024         # 112
    li a7, 25           # 113  mutex_unlock
    ecall               # 114
    li a0, 76           # 167  L
    li a7, 1            # 168  console_put
    ecall               # 169
    li a7, 11           # 173  pthread_exit
    ecall               # 174  the gate at 180, then o from 184 to 198
high:
    la a1, letter       #  51
    li a2, 109          #  53  m
    li a3, 10           #  54
    call create         #  55
    la a1, letter       #  73
    li a2, 111          #  75  o
    li a3, 5            #  76
    call create         #  77
    li a0, 1024         #  95
    li a7, 22           #  96  mutex_lock
    ecall               #  97  blocks
    li a0, 104          # 124  h
    li a7, 1            # 125  console_put
    ecall               # 126
    li a0, 1024         # 130
    li a7, 25           # 131  mutex_unlock
    ecall               # 132
    li a7, 11           # 142  pthread_exit
    ecall               # 143  the gate at 149, then m from 153 to 167
";

/// Row owner-died. A is main, 1; B, 2, at 20 waits for its mutex when it ends; C, 3, at 10 locks it last.
pub(super) const OWNER_DIED: &str = "
    li a0, 1024         #   0
    li a1, 4            #   1  robust NORMAL
    li a7, 20           #   2  mutex_init
    ecall               #   3
    li a0, 1024         #   9
    li a7, 22           #  10  mutex_lock
    ecall               #  11
    la a1, second       #  19
    li a3, 20           #  21
    call create         #  22  its ret comes at 49
    la a1, third        #  50
    li a3, 10           #  52
    call create         #  53
    li a7, 11           #  71  pthread_exit
    ecall               #  72  the gate at 78
second:
    li a0, 1024         #  39
    li a7, 22           #  40  mutex_lock
    ecall               #  41  blocks
    addi s0, a0, 1000   #  82
    li a0, 1024         #  83
    li a7, 26           #  84  mutex_consistent
    ecall               #  85
    addi s1, a0, 1000   #  91
    li a0, 1024         #  92
    li a7, 25           #  93  mutex_unlock
    ecall               #  94
    addi s2, a0, 1000   # 104
    li a0, 3            # 105
    li a7, 12           # 106  join
    ecall               # 107  blocks
third:
    li a0, 1024         # 115
    li a7, 22           # 116  mutex_lock
    ecall               # 117
    addi s0, a0, 1000   # 125
    li a7, 0            # 126  exit
    ecall               # 127
";

/// Row expired-wait-releases. The caller is main, 1; O, 2, at 20 waits for its mutex.
pub(super) const EXPIRED_WAIT: &str = "
    li a0, 1024         #   0
    li a7, 22           #   1  mutex_lock
    ecall               #   2
    la a1, other        #  10
    li a3, 20           #  12
    call create         #  13  its ret comes at 40
    li a0, 1028         #  41
    li a1, 1024         #  42
    la a2, past         #  43
    li a7, 33           #  45  cond_timedwait
    ecall               #  46  blocks
    mv s0, a0           #  84
    li a0, 1024         #  85
    li a7, 25           #  86  mutex_unlock
    ecall               #  87
    add a0, a0, s0      #  97
    li a7, 0            #  98  exit
    ecall               #  99
other:
    li a0, 1024         #  30
    li a7, 22           #  31  mutex_lock
    ecall               #  32  blocks
    mv s0, a0           #  60
    li a0, 1024         #  61
    li a7, 25           #  62  mutex_unlock
    ecall               #  63
    li a7, 11           #  73  pthread_exit
    ecall               #  74  the gate at 80
";

/// Row cancelled-waiter. X, 2, then Y, 3, both at 20, wait on the condition variable. Main, at 30, cancels X, which
/// owns the mutex again, and signals once. X's handler unlocks the mutex, which goes to Y; Y's handler unlocks it too.
pub(super) const CANCELLED_WAITER: &str = "
    la a1, waiter       #   0
    li a3, 20           #   2
    call create         #   3  its ret comes at 53
    la a1, waiter       #  54
    li a3, 20           #  56
    call create         #  57  its ret comes at 107
    li a0, 1            # 108
    li a1, 30           # 109
    li a7, 18           # 110  setschedprio
    ecall               # 111
    li a0, 2            # 119
    li a7, 40           # 120  pthread_cancel
    ecall               # 121
    addi s0, a0, 1000   # 131
    li a0, 1028         # 132
    li a7, 34           # 133  cond_signal
    ecall               # 134
    li a0, 3            # 146
    li a7, 12           # 147  join
    ecall               # 148  blocks
    li a0, 2            # 208
    ecall               # 209
    addi s1, a1, 1000   # 217
    li a7, 0            # 218  exit
    ecall               # 219
waiter:
    la a0, cleanup      #  20 of X,  74 of Y
    li a1, 1024         #  22,  76
    li a7, 44           #  23,  77  pthread_cleanup_push
    ecall               #  24,  78
    li a0, 1024         #  28,  82
    li a7, 22           #  29,  83  mutex_lock
    ecall               #  30,  84
    li a0, 1028         #  38,  92
    li a1, 1024         #  39,  93
    li a7, 32           #  40,  94  cond_wait
    ecall               #  41,  95  blocks; X's unwinding begins at 156
    addi s0, a0, 1000   #      181
    ret                 #      182  the gate at 183
cleanup:
    li a7, 25           # 164, 191  mutex_unlock; the gate at 160 and 187
    ecall               # 165, 192
    addi s0, a0, 1000   # 175, 202
    ret                 # 176, 203  the gate at 177 and 204
";

/// Thread 2, at 20, ends with a value of a key whose destructor puts it and sets the key again, one greater. Main joins
/// 2 and exits with its result. The destructor's end comes after it.
pub(super) const SET_AGAIN: &str = "
    la a1, target       #   0
    li a3, 20           #   2
    call create         #   3  its ret comes at 110, or 138
    li a0, 2            # 111, 139
    li a7, 12           # 112, 140  join
    ecall               # 113, 141
    mv a0, a1           # 121, 149
    li a7, 0            # 122, 150  exit
    ecall               # 123, 151
target:
    la a0, again        #  20
    li a7, 50           #  22  pthread_key_create
    ecall               #  23
    mv a0, a1           #  27
    li a1, 49           #  28  1
    li a7, 52           #  29  pthread_setspecific
    ecall               #  30
    li a0, 33           #  32
    ret                 #  33  the gate at 34 and 38
again:
    mv s0, a0           #  42, then 59,  76 and 93, or 66, 90 and 114
    addi a1, a0, 1      #  43
    li a0, 1            #  44
    li a7, 52           #  45  pthread_setspecific
    ecall               #  46
    mv a0, s0           #  48
    li a7, 1            #  49  console_put
    ecall               #  50
";

/// The destructor returns, the gate at 55, 72, 89 and 106.
pub(super) const BY_RETURN: &str = "
    ret                 #  54
";
