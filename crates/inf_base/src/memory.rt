//! Want of memory, and copies, which may meet it.

ghost use Rattle.std.specs.Prelude.{◌≡◌, IfOk};

use std::alloc::{AllocError, AllocFailed, Global};
use std::error::Error;
use std::fmt;

/// No memory was left for what was asked.
#[derive(Clone, Copy, Debug, PartialEq, Eq)]
pub struct NoMemory;

impl fmt::Display for NoMemory {
    fn fmt<W: fmt::Write>(&self, f: &mut fmt::Formatter<W>) -> fmt::Result {
        f.write_str("no memory is left")
    }
}

impl Error for NoMemory {}

impl From<AllocError> for NoMemory {
    fn from(_error: AllocError) -> NoMemory {
        NoMemory
    }
}

impl<T: Drop> From<AllocFailed<T>> for NoMemory {
    fn from(_error: AllocFailed<T>) -> NoMemory {
        NoMemory
    }
}

/// A copy: an equal value. It may share with its source what neither can change.
pub trait TryClone {
    fn try_clone(&self, alloc: Global) -> Result<Self, NoMemory>
        ensures { IfOk result (λ copy. copy ≡ self.now) };
}
