//! What a listing shows of a directory.

ghost use Rattle.std.specs.Prelude.{◌≡◌, IfOk};

use crate::memory::{NoMemory, TryClone};
use crate::name::Name;
use crate::sequence::Sequence;
use std::alloc::Global;

/// What stands under a name.
#[derive(Clone, Copy, Debug, PartialEq, Eq)]
pub enum Kind {
    File,
    Dir,
}

/// A name of a directory, and what stands there.
#[derive(Debug, PartialEq, Eq, Drop)]
pub struct Item {
    pub name: Name,
    pub kind: Kind,
}

/// The names of a directory, in the order of their bytes.
pub type Items = Sequence<Item>;

impl TryClone for Item {
    fn try_clone(&self, alloc: Global) -> Result<Self, NoMemory> {
        Ok(Item {
            name: self.name.try_clone(alloc)?,
            kind: self.kind,
        })
    }
}
