//! What a rename puts where, and what a hold is for.

ghost use Rattle.std.specs.Prelude.{◌≡◌, IfOk};

use inf_base::{Name, NoMemory, TryClone};
use std::alloc::Global;

/// Where the new path of a rename leads: its walk stops at a name that is no directory to go on from, or it has the
/// directory in which the name is to be put.
#[derive(Debug, PartialEq, Drop)]
pub enum Aim {
    Stop(Name),
    At(Name),
}

/// What a slot is held for: the move of a file of this name, a directory that is to leave, or a mode to come.
#[derive(Debug, PartialEq, Drop)]
pub enum What {
    File(Name),
    Leave,
    Mode(u16),
}

impl TryClone for Aim {
    fn try_clone(&self, alloc: Global) -> Result<Self, NoMemory> {
        Ok(match self {
            Aim::Stop(name) => Aim::Stop(name.try_clone(alloc)?),
            Aim::At(name) => Aim::At(name.try_clone(alloc)?),
        })
    }
}

impl TryClone for What {
    fn try_clone(&self, alloc: Global) -> Result<Self, NoMemory> {
        Ok(match self {
            What::File(name) => What::File(name.try_clone(alloc)?),
            What::Leave => What::Leave,
            What::Mode(mode) => What::Mode(*mode),
        })
    }
}
