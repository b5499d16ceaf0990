//! Why a command isn't done.

use gimli_bytes::Error;
use std::alloc::{AllocError, AllocFailed};

/// Whether a library call that returns `OutOfMemory` is made once more.
#[derive(Clone, Copy, PartialEq, Eq)]
pub enum Attempts {
    /// Each call is made once.
    One,
    /// A call that returns `OutOfMemory` is made again.
    Two,
}

/// Why a command, or a call of a script, isn't done.
#[derive(Clone, Copy)]
pub enum Stop {
    /// Its words are no such command or call.
    Bad,
    /// The conditions of the call aren't met.
    Condition,
    /// Memory is refused to the program itself.
    Memory,
    /// The call returns this error.
    Refused(Error),
}

impl From<AllocError> for Stop {
    fn from(_error: AllocError) -> Stop {
        Stop::Memory
    }
}

impl<T: Drop> From<AllocFailed<T>> for Stop {
    fn from(_error: AllocFailed<T>) -> Stop {
        Stop::Memory
    }
}

impl From<Error> for Stop {
    fn from(error: Error) -> Stop {
        Stop::Refused(error)
    }
}
