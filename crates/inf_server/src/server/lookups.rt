//! What is told of an access object.

ghost use Rattle.std.specs.Prelude.{◌≡◌, true, is_some, Ok, Err, IfOk, IfErr, IfSome, OnOk};
ghost use Rattle.inf_base.specs.declared.key.Key.TheVariants as key;
ghost use Rattle.inf_content.specs.Slots.{access_of, slot_in};
ghost use Rattle.inf_message.specs.declared.reply.Reply.TheVariants as reply;
ghost use Rattle.inf_server.specs.Lookups.{lookup_at, lookup_top, unheld, unless_sealed};
ghost use Rattle.inf_server.specs.Refusal.{reply_of};
ghost use Rattle.inf_server.specs.Response.{Gives, done};
ghost use Rattle.inf_server.specs.Server.{site_of};

use super::Server;
use crate::refusal::Refusal;
use inf_base::{Access, CallRef, DirRef, Id, Key, Name, NoMemory, Place, Shared, Triple, TryClone};
use inf_birth::IdRule;
use inf_content::{Directory, Seen};
use inf_message::{Reply, Spot};
use std::alloc::Global;

impl<R: IdRule> Server<R> {
    /// The root's access object.
    pub(super) fn lookup_top(&self) -> Result<Reply, Refusal>
        ensures done { IfOk result (λ given. Gives self.now.state
            (lookup_top (site_of R.digest_of self.now) self.now.state) given self.now.state) }
        ensures refused { IfErr result (λ refusal.
            lookup_top (site_of R.digest_of self.now) self.now.state ≡ Err (reply_of refusal)) }
    {
        let Some(top) = &self.root else {
            return Err(Refusal::Other);
        };
        match top.told(self.alloc) {
            Ok(reply) => Ok(reply),
            Err(NoMemory) => Ok(Reply::NoMem),
        }
    }

    /// The access object under a name of the directory of this identifier.
    pub(super) fn lookup_at(&self, id: &Id, name: &Name) -> Result<Reply, Refusal>
        ensures done { IfOk result (λ given. Gives self.now.state
            (lookup_at (site_of R.digest_of self.now) self.now.state id.now name.now) given self.now.state) }
        ensures refused { IfErr result (λ refusal.
            lookup_at (site_of R.digest_of self.now) self.now.state id.now name.now ≡ Err (reply_of refusal)) }
    {
        self.check_here(id)?;
        let Some(directory) = self.contents.directory_of_id(id) else {
            return Err(Refusal::NoDir);
        };
        let born = directory.born();
        unless_sealed(born, directory.sealed())?;
        match directory.look(name) {
            Seen::Gone => Ok(Reply::Absent { born }),
            Seen::Missing => Ok(Reply::Absent { born }),
            Seen::Reserved(by) => Err(Refusal::Busy(by, Spot::Slot, born)),
            Seen::File { meta: _, held } => {
                unheld(born, held)?;
                Ok(Reply::IsFile { born })
            }
            Seen::Dir { held, .. } => {
                unheld(born, held)?;
                match self.found(DirRef { id: *id, born }, &directory, name) {
                    Ok(reply) => Ok(reply),
                    Err(NoMemory) => Ok(Reply::NoMem),
                }
            }
        }
    }

    /// What a lookup is told of the directory that stands under a name.
    fn found(&self, dir: DirRef, directory: &Directory<'_>, name: &Name) -> Result<Reply, NoMemory>
        requires stands { is_some (access_of (slot_in name.now directory.now.slots)) ≡ true }
        ensures { IfOk result (λ given. IfSome (access_of (slot_in name.now directory.now.slots))
            (λ access. given ≡ reply.Found (key.At dir name.now) access)) }
    {
        let Some(access) = directory.access_of(self.alloc, name)? else {
            unreachable!()
        };
        let key = Key::At {
            dir,
            name: name.try_clone(self.alloc)?,
        };
        told(self.alloc, key, access)
    }
}

/// What a lookup is told of a directory, shared by all that keep it.
fn told(alloc: Global, key: Key, access: Access) -> Result<Reply, NoMemory>
    ensures { IfOk result (λ given. given ≡ reply.Found key access) }
{
    Ok(Reply::Found {
        key: Shared::new(alloc, key)?,
        access: Shared::new(alloc, access)?,
    })
}

/// A lookup is told nothing of what is held, whoever holds it.
fn unheld(born: Place, held: Option<CallRef>) -> Result<(), Refusal>
    ensures ok { OnOk result (unheld born held ≡ Ok tt) }
    ensures refused { IfErr result (λ refusal. unheld born held ≡ Err (reply_of refusal)) }
{
    match held {
        None => Ok(()),
        Some(by) => Err(Refusal::Busy(by, Spot::Slot, born)),
    }
}

/// Nor of what stands in a sealed directory, whoever sealed it.
fn unless_sealed(born: Place, seal: Option<CallRef>) -> Result<(), Refusal>
    ensures ok { OnOk result (unless_sealed born seal ≡ Ok tt) }
    ensures refused { IfErr result (λ refusal. unless_sealed born seal ≡ Err (reply_of refusal)) }
{
    match seal {
        None => Ok(()),
        Some(sealer) => Err(Refusal::Busy(sealer, Spot::Sealed, born)),
    }
}
