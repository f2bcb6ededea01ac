//! Access objects: what a directory's parent keeps of it.

ghost use Rattle.std.specs.Prelude.{◌≡◌, IfOk};

use crate::id::{Id, Place};
use crate::memory::{NoMemory, TryClone};
use crate::triple::Triple;
use std::alloc::Global;

/// What is kept of a directory beside its name: which one it is, who may use it, and where it was made.
#[derive(Debug, PartialEq, Eq, Drop)]
pub struct Access {
    pub id: Id,
    pub born: Place,
    pub mode: u16,
    pub owner: u32,
    pub group: u32,
    /// The pointer back to the place of its birth, where it has moved from there.
    pub birth: Triple,
}

impl TryClone for Access {
    fn try_clone(&self, alloc: Global) -> Result<Self, NoMemory> {
        Ok(Access {
            id: self.id,
            born: self.born,
            mode: self.mode,
            owner: self.owner,
            group: self.group,
            birth: self.birth.try_clone(alloc)?,
        })
    }
}
