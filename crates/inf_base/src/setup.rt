//! What a script sets up: servers, and clients with their calls.

ghost use Rattle.std.specs.Prelude.{◌≡◌, IfOk};

use crate::call::Calls;
use crate::caller::Caller;
use crate::memory::{NoMemory, TryClone};
use crate::name::Name;
use crate::sequence::Sequence;
use std::alloc::Global;

/// A client of the script, with its calls in turn.
#[derive(Debug, PartialEq, Drop)]
pub struct ClientLine {
    pub name: Name,
    pub caller: Caller,
    pub calls: Calls,
}

/// The clients of a script, in the order of their lines.
pub type Clients = Sequence<ClientLine>;

/// What a script sets up. Which setups are valid is `IsValid` of this crate's definitions.
#[derive(Debug, PartialEq, Drop)]
pub struct Setup {
    /// How many servers there are beside the coordinator.
    pub servers: u32,
    /// How many bytes of a digest an identifier keeps.
    pub digest_bytes: u8,
    /// How many entries a client's cache holds.
    pub cache: u32,
    pub clients: Clients,
}

impl TryClone for ClientLine {
    fn try_clone(&self, alloc: Global) -> Result<Self, NoMemory> {
        Ok(ClientLine {
            name: self.name.try_clone(alloc)?,
            caller: self.caller,
            calls: self.calls.try_clone(alloc)?,
        })
    }
}

impl TryClone for Setup {
    fn try_clone(&self, alloc: Global) -> Result<Self, NoMemory> {
        Ok(Setup {
            servers: self.servers,
            digest_bytes: self.digest_bytes,
            cache: self.cache,
            clients: self.clients.try_clone(alloc)?,
        })
    }
}
