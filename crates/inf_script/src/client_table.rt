//! The clients that were read so far.

ghost use Rattle.std.specs.Prelude.{◌≡◌, ◌<◌, ◌≤◌, [], ◌∷◌, ◌++◌, length, IfOk, IfSome, None};
ghost use Rattle.inf_base.specs.Setup.{call_count};
ghost use Rattle.inf_base.specs.declared.limits.TheConstants.{MOST_CALLS, MOST_CLIENTS, MOST_NAME_BYTES};
ghost use Rattle.inf_script.specs.CallLine.{calling};
ghost use Rattle.inf_script.specs.ClientLine.{new_client};
ghost use Rattle.inf_script.specs.Draft.{place_of};

use crate::open_line::OpenLine;
use indexmap::IndexSet;
use inf_base::{Call, Clients, NoMemory};
use std::alloc::Global;
use std::marker::Model;

/// The clients that were read so far, with their calls, in the order of their lines. A client is found by its name
/// without a look at each.
#[derive(Drop)]
pub struct ClientTable {
    parts: Box<Parts>,
}

/// The parts of a table, which stand in a box: to hand a table on moves no more than a pointer.
#[derive(Drop)]
struct Parts {
    /// The names of the lines, in their order.
    names: IndexSet<Vec<u8>>,
    lines: Vec<OpenLine>,
    /// How many calls the lines have in all.
    calls: usize,
}

impl Model for ClientTable {
    ghost use Rattle.std.specs.Prelude.{List};
    ghost use Rattle.inf_base.specs.declared.setup.ClientLine.{ClientLine};
    ghost use Rattle.inf_script.specs.ClientTable.{IsTable};

    ghost Value = { List ClientLine };

    ghost view = { λ t. t.parts.value.lines.items };

    ghost invariant = { λ t. IsTable t.parts.value.names.keys t.parts.value.lines.items t.parts.value.calls };
}

impl ClientTable {
    pub fn new(alloc: Global) -> Result<Self, NoMemory>
        ensures { IfOk result (λ table. table ≡ []) }
    {
        let parts = Parts {
            names: IndexSet::new(alloc),
            lines: Vec::new(alloc),
            calls: 0,
        };
        Ok(ClientTable {
            parts: Box::new(alloc, parts)?,
        })
    }

    pub fn len(&self) -> usize
        ensures { result ≡ length self.now }
    {
        self.parts.lines.len()
    }

    /// How many calls there are in all.
    pub fn call_count(&self) -> usize
        ensures { result ≡ call_count self.now }
    {
        self.parts.calls
    }

    /// The number of the client that has this name.
    pub fn place_of(&self, name: &[u8]) -> Option<u32>
        ensures value { result ≡ place_of name.now self.now }
        ensures within { IfSome result (λ place. place < length self.now) }
    {
        match self.parts.names.get_index_of(name) {
            Some(place) => Some(place as u32),
            None => None,
        }
    }

    /// One client more, which has called nothing yet.
    pub fn with_client(self, alloc: Global, name: &[u8]) -> Result<ClientTable, NoMemory>
        requires not_empty { 0 < length name.now }
        requires fits { length name.now ≤ MOST_NAME_BYTES }
        requires unknown { place_of name.now self ≡ None }
        requires room { length self < MOST_CLIENTS }
        ensures { IfOk result (λ table. table ≡ self ++ new_client name.now ∷ []) }
    {
        let ClientTable { mut parts } = self;
        let table = parts.as_mut();
        table.names.insert_full(Vec::from_slice(alloc, name)?)?;
        table.lines.push(OpenLine::new(alloc, name)?)?;
        Ok(ClientTable { parts })
    }

    /// One call more, of the client of this number.
    pub fn calling(self, client: u32, call: Call) -> Result<ClientTable, NoMemory>
        requires known { client < length self }
        requires room { call_count self < MOST_CALLS }
        ensures { IfOk result (λ table. table ≡ calling client call self) }
    {
        let ClientTable { mut parts } = self;
        let table = parts.as_mut();
        table.lines[client as usize].push(call)?;
        table.calls += 1;
        Ok(ClientTable { parts })
    }

    /// The clients as they stand when all calls were read.
    pub fn into_clients(self, alloc: Global) -> Result<Clients, NoMemory>
        ensures { IfOk result (λ clients. clients ≡ self) }
    {
        let ClientTable { parts } = self;
        let Parts { lines, .. } = Box::into_inner(parts);
        let mut clients = Vec::with_capacity(alloc, lines.len())?;
        for line in lines {
            clients.push(line.close(alloc)?)?;
        }
        Ok(Clients::new(clients))
    }
}
