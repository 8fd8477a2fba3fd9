//! The calls of a guest.

ghost use Rattle.std.specs.Prelude.{◌≡◌, ◌<◌, ◌≤◌, Some};
ghost use Rattle.ptk_words.specs.Calls.{number_of, ticks_of, call_of, cost_of};

/// A call, by the name that POSIX.1-2017 gives it, without the `pthread_` of mutexes, condition variables, cleanup
/// handlers and keys. A guest gives its number in a7.
#[derive(Clone, Copy, PartialEq, Eq)]
pub enum Call {
    /// exit: halts the partition (own choice).
    Exit,
    /// console_put: a byte at the end of the output (own choice).
    ConsolePut,
    /// console_get: a byte of input (own choice).
    ConsoleGet,
    /// clock_gettime.
    ClockGettime,
    /// clock_nanosleep.
    ClockNanosleep,
    /// pthread_create.
    PthreadCreate,
    /// pthread_exit.
    PthreadExit,
    /// pthread_join.
    PthreadJoin,
    /// pthread_detach.
    PthreadDetach,
    /// pthread_self.
    PthreadSelf,
    /// sched_yield.
    SchedYield,
    /// pthread_setschedparam.
    PthreadSetschedparam,
    /// pthread_getschedparam.
    PthreadGetschedparam,
    /// pthread_setschedprio.
    PthreadSetschedprio,
    /// pthread_mutex_init.
    MutexInit,
    /// pthread_mutex_destroy.
    MutexDestroy,
    /// pthread_mutex_lock.
    MutexLock,
    /// pthread_mutex_trylock.
    MutexTrylock,
    /// pthread_mutex_timedlock.
    MutexTimedlock,
    /// pthread_mutex_unlock.
    MutexUnlock,
    /// pthread_mutex_consistent.
    MutexConsistent,
    /// pthread_cond_init.
    CondInit,
    /// pthread_cond_destroy.
    CondDestroy,
    /// pthread_cond_wait.
    CondWait,
    /// pthread_cond_timedwait.
    CondTimedwait,
    /// pthread_cond_signal.
    CondSignal,
    /// pthread_cond_broadcast.
    CondBroadcast,
    /// pthread_cancel.
    PthreadCancel,
    /// pthread_setcancelstate.
    PthreadSetcancelstate,
    /// pthread_setcanceltype.
    PthreadSetcanceltype,
    /// pthread_testcancel.
    PthreadTestcancel,
    /// pthread_cleanup_push.
    CleanupPush,
    /// pthread_cleanup_pop.
    CleanupPop,
    /// pthread_key_create.
    KeyCreate,
    /// pthread_key_delete.
    KeyDelete,
    /// pthread_setspecific.
    PthreadSetspecific,
    /// pthread_getspecific.
    PthreadGetspecific,
}

/// A call, under the name that the number types of this crate have: a guest's number is read as one of these.
pub type CallNo = Call;

impl Call {
    /// The call of a number, None of a number that is no call (own choice of the numbers).
    #[inline(always)]
    pub fn of_number(number: u32) -> Option<Call>
        ensures { result ≡ call_of number }
    {
        match number {
            0 => Some(Call::Exit),
            1 => Some(Call::ConsolePut),
            2 => Some(Call::ConsoleGet),
            3 => Some(Call::ClockGettime),
            4 => Some(Call::ClockNanosleep),
            10 => Some(Call::PthreadCreate),
            11 => Some(Call::PthreadExit),
            12 => Some(Call::PthreadJoin),
            13 => Some(Call::PthreadDetach),
            14 => Some(Call::PthreadSelf),
            15 => Some(Call::SchedYield),
            16 => Some(Call::PthreadSetschedparam),
            17 => Some(Call::PthreadGetschedparam),
            18 => Some(Call::PthreadSetschedprio),
            20 => Some(Call::MutexInit),
            21 => Some(Call::MutexDestroy),
            22 => Some(Call::MutexLock),
            23 => Some(Call::MutexTrylock),
            24 => Some(Call::MutexTimedlock),
            25 => Some(Call::MutexUnlock),
            26 => Some(Call::MutexConsistent),
            30 => Some(Call::CondInit),
            31 => Some(Call::CondDestroy),
            32 => Some(Call::CondWait),
            33 => Some(Call::CondTimedwait),
            34 => Some(Call::CondSignal),
            35 => Some(Call::CondBroadcast),
            40 => Some(Call::PthreadCancel),
            41 => Some(Call::PthreadSetcancelstate),
            42 => Some(Call::PthreadSetcanceltype),
            43 => Some(Call::PthreadTestcancel),
            44 => Some(Call::CleanupPush),
            45 => Some(Call::CleanupPop),
            50 => Some(Call::KeyCreate),
            51 => Some(Call::KeyDelete),
            52 => Some(Call::PthreadSetspecific),
            53 => Some(Call::PthreadGetspecific),
            _ => None,
        }
    }

    /// The number that a guest gives in a7 (own choice).
    pub fn number(self) -> u32
        ensures value { result ≡ number_of self }
        ensures named { call_of result ≡ Some self }
    {
        match self {
            Call::Exit => 0,
            Call::ConsolePut => 1,
            Call::ConsoleGet => 2,
            Call::ClockGettime => 3,
            Call::ClockNanosleep => 4,
            Call::PthreadCreate => 10,
            Call::PthreadExit => 11,
            Call::PthreadJoin => 12,
            Call::PthreadDetach => 13,
            Call::PthreadSelf => 14,
            Call::SchedYield => 15,
            Call::PthreadSetschedparam => 16,
            Call::PthreadGetschedparam => 17,
            Call::PthreadSetschedprio => 18,
            Call::MutexInit => 20,
            Call::MutexDestroy => 21,
            Call::MutexLock => 22,
            Call::MutexTrylock => 23,
            Call::MutexTimedlock => 24,
            Call::MutexUnlock => 25,
            Call::MutexConsistent => 26,
            Call::CondInit => 30,
            Call::CondDestroy => 31,
            Call::CondWait => 32,
            Call::CondTimedwait => 33,
            Call::CondSignal => 34,
            Call::CondBroadcast => 35,
            Call::PthreadCancel => 40,
            Call::PthreadSetcancelstate => 41,
            Call::PthreadSetcanceltype => 42,
            Call::PthreadTestcancel => 43,
            Call::CleanupPush => 44,
            Call::CleanupPop => 45,
            Call::KeyCreate => 50,
            Call::KeyDelete => 51,
            Call::PthreadSetspecific => 52,
            Call::PthreadGetspecific => 53,
        }
    }

    /// The ticks that the call takes, 2 to 16 (own choice).
    pub fn cost(self) -> u32
        ensures table { result ≡ ticks_of self }
        ensures positive { 0 < result }
        ensures at_most_sixteen { result ≤ 16 }
    {
        match self {
            Call::PthreadSelf
            | Call::PthreadSetcancelstate
            | Call::PthreadSetcanceltype
            | Call::PthreadTestcancel
            | Call::PthreadSetspecific
            | Call::PthreadGetspecific => 2,
            Call::Exit
            | Call::ConsolePut
            | Call::ConsoleGet
            | Call::ClockGettime
            | Call::SchedYield
            | Call::PthreadGetschedparam
            | Call::CleanupPush
            | Call::CleanupPop
            | Call::KeyCreate
            | Call::KeyDelete => 4,
            Call::ClockNanosleep
            | Call::PthreadExit
            | Call::PthreadDetach
            | Call::MutexInit
            | Call::MutexDestroy
            | Call::MutexTrylock
            | Call::MutexConsistent
            | Call::CondInit
            | Call::CondDestroy => 6,
            Call::PthreadJoin
            | Call::PthreadSetschedparam
            | Call::PthreadSetschedprio
            | Call::MutexLock => 8,
            Call::MutexTimedlock | Call::MutexUnlock | Call::PthreadCancel => 10,
            Call::PthreadCreate | Call::CondWait | Call::CondSignal => 12,
            Call::CondTimedwait => 14,
            Call::CondBroadcast => 16,
        }
    }
}

/// The ticks of a number that is no call (own choice).
pub const UNKNOWN_TICKS: u32 = 2;

/// The ticks that the call of this number takes, 2 to 16; a number that is no call takes `UNKNOWN_TICKS`.
pub fn cost(number: u32) -> u32
    ensures table { result ≡ cost_of number }
    ensures positive { 0 < result }
    ensures at_most_sixteen { result ≤ 16 }
{
    match Call::of_number(number) {
        Some(call) => call.cost(),
        None => UNKNOWN_TICKS,
    }
}
