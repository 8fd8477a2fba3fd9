//! The parts of configurations that several modules have.

/// A frame of 40 ticks.
pub(crate) const FRAME: &str = "frame = 40\n";

/// The numbers of a section.
pub(crate) const NUMBERS: &str =
    "memory = 4096\nthreads = 4\nstack = 256\nmutexes = 4\nconds = 4\nkeys = 4\ninterval = 100\nring = 16\noutput = 64\ntrace = 16\n";

/// The window of p: the first 20 ticks of a frame.
pub(crate) const FIRST: &str = "[[window]]\nstart = 0\nlength = 20\npartition = \"p\"\n";

/// The window of q: the 20 ticks after them.
pub(crate) const SECOND: &str = "[[window]]\nstart = 20\nlength = 20\npartition = \"q\"\n";
