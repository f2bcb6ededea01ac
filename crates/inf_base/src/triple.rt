//! What a directory's identifier is made from.

ghost use Rattle.std.specs.Prelude.{◌≡◌, IfOk};

use crate::id::Id;
use crate::memory::{NoMemory, TryClone};
use crate::name::Name;
use std::alloc::Global;

/// What an identifier is the digest of: nothing for the root, else the parent that the directory was made in, the
/// name that it was made under, and a version that tells apart those made there under one name.
#[derive(Debug, PartialEq, Eq, Drop)]
pub enum Triple {
    Root,
    Of {
        parent: Id,
        name: Name,
        version: u64,
    },
}

impl TryClone for Triple {
    fn try_clone(&self, alloc: Global) -> Result<Self, NoMemory> {
        match self {
            Triple::Root => Ok(Triple::Root),
            Triple::Of {
                parent,
                name,
                version,
            } => Ok(Triple::Of {
                parent: *parent,
                name: name.try_clone(alloc)?,
                version: *version,
            }),
        }
    }
}
