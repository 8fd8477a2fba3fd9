//! The names of replies.

use ptk_words::Errno;

/// What a call replies if it succeeds.
pub(crate) const SUCCESS: u32 = 0;

/// The errors that a call replies.
const ERRORS: [Errno; 13] = [
    Errno::EPERM,
    Errno::ESRCH,
    Errno::EAGAIN,
    Errno::ENOMEM,
    Errno::EFAULT,
    Errno::EBUSY,
    Errno::EINVAL,
    Errno::EDEADLK,
    Errno::ENOSYS,
    Errno::ENOTSUP,
    Errno::ETIMEDOUT,
    Errno::EOWNERDEAD,
    Errno::ENOTRECOVERABLE,
];

/// The name of a reply: `0`, or that of an error. `None` for a number that no call replies.
pub(crate) fn reply_name(reply: u32) -> Option<&'static str> {
    if reply == SUCCESS {
        return Some("0");
    }
    Some(error_name(error_of(reply)?))
}

/// The error of a number, `None` if none has it.
fn error_of(number: u32) -> Option<Errno> {
    ERRORS
        .iter()
        .copied()
        .find(|error| error.number() == number)
}

/// The name of an error (errno.h).
fn error_name(error: Errno) -> &'static str {
    match error {
        Errno::EPERM => "EPERM",
        Errno::ESRCH => "ESRCH",
        Errno::EAGAIN => "EAGAIN",
        Errno::ENOMEM => "ENOMEM",
        Errno::EFAULT => "EFAULT",
        Errno::EBUSY => "EBUSY",
        Errno::EINVAL => "EINVAL",
        Errno::EDEADLK => "EDEADLK",
        Errno::ENOSYS => "ENOSYS",
        Errno::ENOTSUP => "ENOTSUP",
        Errno::ETIMEDOUT => "ETIMEDOUT",
        Errno::EOWNERDEAD => "EOWNERDEAD",
        Errno::ENOTRECOVERABLE => "ENOTRECOVERABLE",
    }
}
