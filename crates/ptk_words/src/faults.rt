//! Error numbers, faults and statuses.

ghost use Rattle.std.specs.Prelude.{◌≡◌};
ghost use Rattle.ptk_words.specs.Faults.{errno_number, image_fault_number, is_active};

use thiserror::Error;

/// What a call returns in place of 0, by the name that POSIX gives it (errno.h; the numbers are Linux's).
#[derive(Clone, Copy, PartialEq, Eq)]
pub enum Errno {
    EPERM,
    ESRCH,
    EAGAIN,
    ENOMEM,
    EFAULT,
    EBUSY,
    EINVAL,
    EDEADLK,
    ENOSYS,
    ENOTSUP,
    ETIMEDOUT,
    EOWNERDEAD,
    ENOTRECOVERABLE,
}

impl Errno {
    /// The number that a guest reads in a0.
    pub fn number(self) -> u32
        ensures { result ≡ errno_number self }
    {
        match self {
            Errno::EPERM => 1,
            Errno::ESRCH => 3,
            Errno::EAGAIN => 11,
            Errno::ENOMEM => 12,
            Errno::EFAULT => 14,
            Errno::EBUSY => 16,
            Errno::EINVAL => 22,
            Errno::EDEADLK => 35,
            Errno::ENOSYS => 38,
            Errno::ENOTSUP => 95,
            Errno::ETIMEDOUT => 110,
            Errno::EOWNERDEAD => 130,
            Errno::ENOTRECOVERABLE => 131,
        }
    }
}

/// Why an instruction is not carried out (RISC-V 1.6, 2.2, 2.5, 2.6).
#[derive(Clone, Copy, PartialEq, Eq)]
pub enum FaultKind {
    /// The word is no instruction.
    Illegal,
    /// The pc is above the last word of memory.
    Fetch,
    /// A load lies outside memory.
    Load,
    /// A store lies outside memory.
    Store,
    /// The pc, a target, or the address of a load or store has the wrong alignment.
    Misaligned,
}

/// What stopped a partition at an instruction.
#[derive(Clone, Copy, PartialEq, Eq)]
pub enum Cause {
    /// An EBREAK (RISC-V 2.8).
    Break,
    /// A fault.
    Fault(FaultKind),
}

/// Why an image is refused, in the order of the checks.
#[derive(Clone, Copy, Debug, PartialEq, Eq, Error)]
pub enum ImageFault {
    /// 1: the image is shorter than its header.
    #[error("the image is shorter than its header")]
    Short,
    /// 2: the image does not begin with PTKI.
    #[error("the image does not begin with PTKI")]
    Magic,
    /// 3: the image has an unknown version.
    #[error("the image has an unknown version")]
    Version,
    /// 4: the image has other lengths than its header says.
    #[error("the image has other lengths than its header says")]
    Length,
    /// 5: the entry of the image is misplaced.
    #[error("the entry of the image is misplaced")]
    Entry,
    /// 6: out of memory.
    #[error("out of memory")]
    Memory,
    /// 7: the image does not fit into its partition.
    #[error("the image does not fit into its partition")]
    Unfit,
}

impl ImageFault {
    /// The number of the fault, 1 to 7.
    pub fn number(self) -> u8
        ensures { result ≡ image_fault_number self }
    {
        match self {
            ImageFault::Short => 1,
            ImageFault::Magic => 2,
            ImageFault::Version => 3,
            ImageFault::Length => 4,
            ImageFault::Entry => 5,
            ImageFault::Memory => 6,
            ImageFault::Unfit => 7,
        }
    }
}

/// Whether a partition goes on, or why it is halted.
#[derive(Clone, Copy, PartialEq, Eq)]
pub enum Status {
    /// It is not halted.
    Active,
    /// It exited with this code.
    Exited(u8),
    /// An instruction at this pc stopped it.
    Stopped(Cause, u32),
    /// Its image was refused.
    Refused(ImageFault),
}

impl Status {
    /// Whether the partition goes on.
    pub fn is_active(self) -> bool
        ensures { result ≡ is_active self }
    {
        matches!(self, Status::Active)
    }
}
