//! A request with who makes it.

ghost use Rattle.std.specs.Prelude.{◌≡◌, ◌↔◌, IfOk, IsTrue};

use crate::request::Request;
use inf_base::{CallRef, Caller, NoMemory, TryClone};
use std::alloc::Global;

/// A request, with the call that it serves and the user and group that the call is made with.
#[derive(Debug, PartialEq, Drop)]
pub struct Ask {
    pub from: CallRef,
    pub caller: Caller,
    pub request: Request,
}

impl Ask {
    /// Whether the two are equal: `==`, with a contract that says what it decides.
    #[tactic(auto, using(crate::proofs::HistoryDecides::ask_decides))]
    pub fn is_same(&self, other: &Self) -> bool
        ensures { IsTrue result ↔ (self.now ≡ other.now) }
    {
        self == other
    }
}

impl TryClone for Ask {
    fn try_clone(&self, alloc: Global) -> Result<Self, NoMemory> {
        Ok(Ask {
            from: self.from,
            caller: self.caller,
            request: self.request.try_clone(alloc)?,
        })
    }
}
