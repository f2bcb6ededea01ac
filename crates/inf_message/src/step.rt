//! A message of a call.

ghost use Rattle.std.specs.Prelude.{◌≡◌, IfOk};

use crate::request::Request;
use inf_base::{NoMemory, TryClone};
use std::alloc::Global;

/// A request, and the number of the server that it is for.
#[derive(Debug, PartialEq, Drop)]
pub struct Message {
    pub number: u32,
    pub request: Request,
}

impl TryClone for Message {
    fn try_clone(&self, alloc: Global) -> Result<Self, NoMemory> {
        Ok(Message {
            number: self.number,
            request: self.request.try_clone(alloc)?,
        })
    }
}
