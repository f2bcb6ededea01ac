//! A client line that more calls may follow.

ghost use Rattle.std.specs.Prelude.{◌≡◌, ◌<◌, ◌≤◌, [], ◌∷◌, ◌++◌, length, IfOk, OnOk};
ghost use Rattle.inf_base.specs.declared.limits.TheConstants.{MOST_NAME_BYTES};
ghost use Rattle.inf_script.specs.ClientLine.{new_client};

use inf_base::{Call, Caller, Calls, ClientLine, Name, NoMemory, Sequence};
use std::alloc::Global;
use std::marker::Model;

/// A client line while its calls are read, which are its own till then. To contracts it is the line that it comes to.
#[derive(Drop)]
pub struct OpenLine {
    name: Name,
    caller: Caller,
    calls: Vec<Call>,
}

impl Model for OpenLine {
    ghost use Rattle.inf_base.specs.declared.setup.ClientLine.{ClientLine};

    ghost Value = { ClientLine };

    ghost view = { λ l. record { name = l.name; caller = l.caller; calls = l.calls.items } };
}

impl OpenLine {
    /// A client of this name, which has called nothing yet.
    pub fn new(alloc: Global, name: &[u8]) -> Result<Self, NoMemory>
        requires not_empty { 0 < length name.now }
        requires fits { length name.now ≤ MOST_NAME_BYTES }
        ensures { IfOk result (λ line. line ≡ new_client name.now) }
    {
        Ok(OpenLine {
            name: Name::from_slice(alloc, name)?,
            caller: Caller { uid: 0, gid: 0 },
            calls: Vec::new(alloc),
        })
    }

    /// One call more.
    pub fn push(&mut self, call: Call) -> Result<(), NoMemory>
        ensures { OnOk result (self.new ≡ record self.old { calls = self.old.calls ++ call ∷ [] }) }
    {
        self.calls.push(call)?;
        Ok(())
    }

    /// No more calls follow, so that the line's can be shared.
    pub fn close(self, alloc: Global) -> Result<ClientLine, NoMemory>
        ensures { IfOk result (λ line. line ≡ self) }
    {
        let OpenLine {
            name,
            caller,
            calls,
        } = self;
        Ok(ClientLine {
            name,
            caller,
            calls: Calls::new(alloc, Sequence::new(calls))?,
        })
    }
}
