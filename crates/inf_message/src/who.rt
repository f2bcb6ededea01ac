//! Which client it is, and where its messages go.

ghost use Rattle.std.specs.Prelude.{◌≡◌, ◌≤◌, IfOk};
ghost use Rattle.inf_base.specs.Identity.{server_of as the_server};
ghost use Rattle.inf_message.specs.Who.{asked_id, last_id, lookup_of};

use crate::request::Request;
use crate::step::Message;
use inf_base::{Caller, Entry, Id, LookKey, NoMemory, TryClone, server_of};
use std::alloc::Global;
use std::marker::Model;

/// Which client it is, whom it calls for, and what it knows of the servers.
#[derive(Drop)]
pub struct Who {
    client: u32,
    caller: Caller,
    servers: u32,
    root: Id,
}

impl Model for Who {
    ghost use Rattle.std.specs.Prelude.{◌≤◌};
    ghost use Rattle.inf_message.specs.Who.{Who};

    ghost Value = { Who };

    ghost view = { λ w. record { client = w.client; caller = w.caller; servers = w.servers; root = w.root } };

    ghost invariant = { λ w. 1 ≤ w.servers };
}

impl Who {
    pub fn new(client: u32, caller: Caller, servers: u32, root: Id) -> Self
        requires { 1 ≤ servers }
        ensures { result ≡ record { client = client; caller = caller; servers = servers; root = root } }
    {
        Who {
            client,
            caller,
            servers,
            root,
        }
    }

    pub fn client(&self) -> u32
        ensures { result ≡ self.now.client }
    {
        self.client
    }

    pub fn caller(&self) -> Caller
        ensures { result ≡ self.now.caller }
    {
        self.caller
    }

    pub fn root(&self) -> Id
        ensures { result ≡ self.now.root }
    {
        self.root
    }

    /// How many servers there are, at least one.
    pub fn servers(&self) -> u32
        ensures servers { result ≡ self.now.servers }
        ensures some { 1 ≤ result }
    {
        self.servers
    }

    /// The number of the server that keeps the directory of this identifier.
    pub fn server(&self, id: &Id) -> u32
        ensures { result ≡ the_server id.now self.now.servers }
    {
        server_of(id, self.servers)
    }

    /// The directory that a chain leads to.
    pub fn last_id(&self, chain: &[Entry]) -> Id
        ensures { result ≡ last_id self.now chain.now }
    {
        match chain.last() {
            Some(entry) => entry.access.id,
            None => self.root,
        }
    }

    fn asked_id(&self, key: &LookKey) -> Id
        ensures { result ≡ asked_id self.now key.now }
    {
        match key {
            LookKey::Top => self.root,
            LookKey::At { dir, .. } => *dir,
        }
    }

    /// The message that looks this key up.
    pub fn lookup(&self, alloc: Global, key: &LookKey) -> Result<Message, NoMemory>
        ensures { IfOk result (λ made. made ≡ lookup_of self.now key.now) }
    {
        Ok(Message {
            number: self.server(&self.asked_id(key)),
            request: Request::Lookup(key.try_clone(alloc)?),
        })
    }
}
