//! What was read of a script so far.

ghost use Rattle.std.specs.Prelude.{◌≡◌, IfOk};
ghost use Rattle.inf_script.specs.Draft.{start, servers_of, digest_bytes_of};

use crate::client_table::ClientTable;
use crate::section::Section;
use inf_base::{MOST_DIGEST_BYTES, NoMemory};
use inf_order::Moves;
use std::alloc::Global;

/// What was read of a script so far.
#[derive(Drop)]
pub struct Draft {
    /// The section of the last line.
    pub reached: Section,
    /// How many servers there are, where a line tells it.
    pub servers: Option<u32>,
    /// How many bytes of a digest an identifier keeps, where a line tells it.
    pub digest_bytes: Option<u8>,
    pub clients: ClientTable,
    pub moves: Moves,
}

impl Draft {
    /// Nothing was read yet.
    pub fn new(alloc: Global) -> Result<Self, NoMemory>
        ensures { IfOk result (λ draft. draft ≡ start) }
    {
        Ok(Draft {
            reached: Section::Start,
            servers: None,
            digest_bytes: None,
            clients: ClientTable::new(alloc)?,
            moves: Moves::new(Vec::new(alloc)),
        })
    }

    pub fn servers(&self) -> u32
        ensures { result ≡ servers_of self.now }
    {
        self.servers.unwrap_or(1)
    }

    pub fn digest_bytes(&self) -> u8
        ensures { result ≡ digest_bytes_of self.now }
    {
        self.digest_bytes.unwrap_or(MOST_DIGEST_BYTES)
    }
}
