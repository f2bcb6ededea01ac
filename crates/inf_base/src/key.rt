//! Under which key an access object is told, and under which it is looked up.

ghost use Rattle.std.specs.Prelude.{◌≡◌, IfOk};

use crate::directory::DirRef;
use crate::id::Id;
use crate::memory::{NoMemory, TryClone};
use crate::name::Name;
use crate::sequence::Sequence;
use std::alloc::Global;

/// The key of an access object: the root's, or a name in a directory.
#[derive(Debug, PartialEq, Eq, Hash, Drop)]
pub enum Key {
    Top,
    At { dir: DirRef, name: Name },
}

/// The key of a lookup: the directory is named by its identifier alone, which may be a prediction.
#[derive(Debug, PartialEq, Eq, Hash, Drop)]
pub enum LookKey {
    Top,
    At { dir: Id, name: Name },
}

/// Keys in the order of their asks.
pub type LookKeys = Sequence<LookKey>;

impl TryClone for Key {
    fn try_clone(&self, alloc: Global) -> Result<Self, NoMemory> {
        match self {
            Key::Top => Ok(Key::Top),
            Key::At { dir, name } => Ok(Key::At {
                dir: *dir,
                name: name.try_clone(alloc)?,
            }),
        }
    }
}

impl TryClone for LookKey {
    fn try_clone(&self, alloc: Global) -> Result<Self, NoMemory> {
        match self {
            LookKey::Top => Ok(LookKey::Top),
            LookKey::At { dir, name } => Ok(LookKey::At {
                dir: *dir,
                name: name.try_clone(alloc)?,
            }),
        }
    }
}
