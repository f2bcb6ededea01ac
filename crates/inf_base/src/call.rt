//! The nine path calls.

ghost use Rattle.std.specs.Prelude.{◌≡◌, IfOk};

use crate::memory::{NoMemory, TryClone};
use crate::sequence::Sequence;
use crate::shared::Shared;
use crate::text::Text;
use std::alloc::Global;

/// A path call. A mode has the nine permission bits, a length counts bytes.
#[derive(Debug, PartialEq, Drop)]
pub enum Call {
    Mkdir { path: Text, mode: u16 },
    Create { path: Text, mode: u16 },
    Rmdir { path: Text },
    Unlink { path: Text },
    Stat { path: Text },
    List { path: Text },
    Truncate { path: Text, length: u64 },
    Chmod { path: Text, mode: u16 },
    Rename { old: Text, new: Text },
}

/// The calls of a client, in the order in which it makes them. The script that tells them and the client that makes
/// them share them.
pub type Calls = Shared<Sequence<Call>>;

impl TryClone for Call {
    fn try_clone(&self, alloc: Global) -> Result<Self, NoMemory> {
        Ok(match self {
            Call::Mkdir { path, mode } => Call::Mkdir {
                path: path.try_clone(alloc)?,
                mode: *mode,
            },
            Call::Create { path, mode } => Call::Create {
                path: path.try_clone(alloc)?,
                mode: *mode,
            },
            Call::Rmdir { path } => Call::Rmdir {
                path: path.try_clone(alloc)?,
            },
            Call::Unlink { path } => Call::Unlink {
                path: path.try_clone(alloc)?,
            },
            Call::Stat { path } => Call::Stat {
                path: path.try_clone(alloc)?,
            },
            Call::List { path } => Call::List {
                path: path.try_clone(alloc)?,
            },
            Call::Truncate { path, length } => Call::Truncate {
                path: path.try_clone(alloc)?,
                length: *length,
            },
            Call::Chmod { path, mode } => Call::Chmod {
                path: path.try_clone(alloc)?,
                mode: *mode,
            },
            Call::Rename { old, new } => Call::Rename {
                old: old.try_clone(alloc)?,
                new: new.try_clone(alloc)?,
            },
        })
    }
}
