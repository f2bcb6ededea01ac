//! The root, as the server keeps it that it belongs to.

ghost use Rattle.std.specs.Prelude.{◌≡◌, IfOk};
ghost use Rattle.inf_base.specs.declared.key.Key.TheVariants as key;
ghost use Rattle.inf_message.specs.declared.reply.Reply.TheVariants as reply;
ghost use Rattle.inf_server.specs.Server.{access_to};

use inf_base::{Access, DirRef, Id, Key, NoMemory, Shared, Triple, TryClone};
use inf_message::Reply;
use std::alloc::Global;
use std::marker::Model;

/// The root, with what each lookup of it is told: all replies share it. To contracts it is the root alone.
#[derive(Drop)]
pub(crate) struct Top {
    dir: DirRef,
    key: Shared<Key>,
    access: Shared<Access>,
}

impl Model for Top {
    ghost use Rattle.inf_base.specs.declared.directory.DirRef.{DirRef};
    ghost use Rattle.inf_server.specs.Server.{TellsOfTop};

    ghost Value = { DirRef };

    ghost view = { λ t. t.dir };

    ghost invariant = { λ t. TellsOfTop t.dir t.key t.access };
}

impl Top {
    /// The root of this identifier.
    pub(crate) fn new(alloc: Global, id: Id) -> Result<Self, NoMemory>
        ensures { IfOk result (λ top. top ≡ record { id = id; born = 0 }) }
    {
        let access = Access {
            id,
            born: 0,
            mode: 0o755,
            owner: 0,
            group: 0,
            birth: Triple::Root,
        };
        Ok(Top {
            dir: DirRef { id, born: 0 },
            key: Shared::new(alloc, Key::Top)?,
            access: Shared::new(alloc, access)?,
        })
    }

    /// What a lookup of it is told.
    pub(crate) fn told(&self, alloc: Global) -> Result<Reply, NoMemory>
        ensures { IfOk result (λ given. given ≡ reply.Found key.Top (access_to self.now)) }
    {
        Ok(Reply::Found {
            key: self.key.try_clone(alloc)?,
            access: self.access.try_clone(alloc)?,
        })
    }
}
