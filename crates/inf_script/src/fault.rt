//! Why no script was read.

ghost use Rattle.std.specs.Prelude.{◌≡◌};
ghost use Rattle.inf_script.specs.declared.fault.LineFault.TheVariants as line;

use crate::refusal::{ScriptRefusal, Why};
use inf_base::NoMemory;
use std::alloc::{AllocError, AllocFailed};

/// Why no script was read.
#[derive(Clone, Copy, Debug, PartialEq, Eq)]
pub enum ScriptFault {
    Refused(ScriptRefusal),
    NoMemory,
}

/// Why the line at hand could not be read.
#[derive(Clone, Copy, Debug, PartialEq, Eq)]
pub enum LineFault {
    Refused(Why),
    NoMemory,
}

impl From<NoMemory> for LineFault {
    ghost from_gives = { λ _ e. e ≡ line.NoMemory };

    fn from(_error: NoMemory) -> LineFault {
        LineFault::NoMemory
    }
}

impl<T: Drop> From<AllocFailed<T>> for LineFault {
    ghost from_gives = { λ _ e. e ≡ line.NoMemory };

    fn from(_error: AllocFailed<T>) -> LineFault {
        LineFault::NoMemory
    }
}

/// A word that is not accepted where it stands, one that is missing, or one too many.
pub const BAD_WORD: LineFault = LineFault::Refused(Why::BadWord);

/// A number or a mode that is misspelt or out of range.
pub const BAD_NUMBER: LineFault = LineFault::Refused(Why::BadNumber);

/// A name that no client line has.
pub const UNKNOWN_CLIENT: LineFault = LineFault::Refused(Why::UnknownClient);

/// More clients, calls or moves than a script may have.
pub const TOO_MANY: LineFault = LineFault::Refused(Why::TooMany);
