//! The answers of path calls.

ghost use Rattle.std.specs.Prelude.{◌≡◌, IfOk};

use crate::caller::CallRef;
use crate::errno::Errno;
use crate::file::FileMeta;
use crate::item::{Items, Kind};
use crate::memory::{NoMemory, TryClone};
use crate::shared::Shared;
use crate::triple::Triple;
use std::alloc::Global;

/// The answer of a path call.
#[derive(Debug, PartialEq, Drop)]
pub enum Answer {
    Done,
    Stat { kind: Kind, meta: FileMeta },
    Listing(Items),
    Refused(Errno),
    /// A change of this other call was in flight, and touches this call.
    Again(CallRef),
    /// Two different triples have one digest: the call's own, and the one that the server keeps.
    IdClash(Shared<Triple>, Shared<Triple>),
    NoMemory,
    /// The order of events ended before the call was decided.
    Unanswered,
}

impl TryClone for Answer {
    fn try_clone(&self, alloc: Global) -> Result<Self, NoMemory> {
        Ok(match self {
            Answer::Done => Answer::Done,
            Answer::Stat { kind, meta } => Answer::Stat {
                kind: *kind,
                meta: *meta,
            },
            Answer::Listing(items) => Answer::Listing(items.try_clone(alloc)?),
            Answer::Refused(error) => Answer::Refused(*error),
            Answer::Again(call) => Answer::Again(*call),
            Answer::IdClash(own, kept) => {
                Answer::IdClash(own.try_clone(alloc)?, kept.try_clone(alloc)?)
            }
            Answer::NoMemory => Answer::NoMemory,
            Answer::Unanswered => Answer::Unanswered,
        })
    }
}
