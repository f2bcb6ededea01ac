//! An Ask with its answer.

ghost use Rattle.std.specs.Prelude.{◌≡◌, IfOk};

use crate::ask::Ask;
use crate::reply::Reply;
use inf_base::{NoMemory, Place, Shared, TryClone};
use std::alloc::Global;

/// An Ask to the server of this number, and what that server replied.
#[derive(Debug, PartialEq, Drop)]
pub struct Trip {
    pub number: u32,
    pub ask: Shared<Ask>,
    pub ask_place: Place,
    pub serve_place: Place,
    pub reply: Reply,
}

impl TryClone for Trip {
    fn try_clone(&self, alloc: Global) -> Result<Self, NoMemory> {
        Ok(Trip {
            number: self.number,
            ask: self.ask.try_clone(alloc)?,
            ask_place: self.ask_place,
            serve_place: self.serve_place,
            reply: self.reply.try_clone(alloc)?,
        })
    }
}
