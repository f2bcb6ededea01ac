//! What makes a directory.

ghost use Rattle.std.specs.Prelude.{◌≡◌, Ok, Err, IfOk, IfErr, OnOk, OnErr};
ghost use Rattle.inf_base.specs.declared.triple.Triple.TheVariants as triple;
ghost use Rattle.inf_base.specs.Same.{dir_of};
ghost use Rattle.inf_content.specs.Contents.{reserved_at};
ghost use Rattle.inf_message.specs.declared.reply.Reply.TheVariants as reply;
ghost use Rattle.inf_server.specs.Births.{access_to_come, cancel, link, make, reserve, unless_there};
ghost use Rattle.inf_server.specs.Refusal.{reply_of};
ghost use Rattle.inf_server.specs.Response.{Gives, done};
ghost use Rattle.inf_server.specs.Server.{IsSameServer, site_of};
ghost use Rattle.inf_server.specs.State.{with_contents};

use super::Server;
use crate::checks::{dir_of, find, is_missing, last_of, search, write};
use crate::refusal::Refusal;
use inf_base::{
    Access, CallRef, Caller, Chain, DirRef, Errno, Name, NoMemory, Place, Shared, Triple, TryClone,
};
use inf_birth::{IdRule, identify};
use inf_content::Made;
use inf_message::{Ask, Reply, Spot};

impl<R: IdRule> Server<R> {
    /// Keeps a free name for a directory to come.
    pub(super) fn reserve(
        &mut self,
        ask: &Ask,
        chain: &Chain,
        name: &Name,
    ) -> Result<Reply, Refusal>
        ensures done { IfOk result (λ given. Gives self.old.state
            (reserve (site_of R.digest_of self.old) self.old.state ask.now chain.now name.now) given self.new.state) }
        ensures refused { IfErr result (λ refusal.
            reserve (site_of R.digest_of self.old) self.old.state ask.now chain.now name.now ≡ Err (reply_of refusal)) }
        ensures unchanged { OnErr result (self.new ≡ self.old) }
        ensures same { IsSameServer self.old self.new }
    {
        let (entry, directory) = self.asked(ask.from, last_of(chain.as_slice()), &[chain])?;
        search(ask.caller, chain.as_slice())?;
        write(ask.caller, entry)?;
        let dir = dir_of(&entry.access);
        if !is_missing(find(ask.from, &directory, name)?) {
            return Err(Refusal::Denied(Errno::EEXIST));
        }
        let version = self.renames.least_version(&dir.id, name);
        match self.keep_name(ask, &dir, name, version) {
            Ok(()) => Ok(Reply::Reserved(version)),
            Err(NoMemory) => Ok(Reply::NoMem),
        }
    }

    /// Keeps a copy of the name for the call, with the access object to come.
    fn keep_name(
        &mut self,
        ask: &Ask,
        dir: &DirRef,
        name: &Name,
        version: u64,
    ) -> Result<(), NoMemory>
        ensures ok { OnOk result (self.new.state ≡ with_contents (reserved_at dir.now name.now ask.now.from
            (access_to_come (site_of R.digest_of self.old) ask.now.caller (triple.Of dir.now.id name.now version))
            self.old.state.contents) self.old.state) }
        ensures err { OnErr result (self.new ≡ self.old) }
        ensures same { IsSameServer self.old self.new }
    {
        let birth = Triple::Of {
            parent: dir.id,
            name: name.try_clone(self.alloc)?,
            version,
        };
        let access = self.access_to_come(ask.caller, birth)?;
        let name = name.try_clone(self.alloc)?;
        self.contents.reserve(dir, name, ask.from, access)?;
        Ok(())
    }

    fn access_to_come(&self, caller: Caller, birth: Triple) -> Result<Access, NoMemory>
        ensures { IfOk result (λ access. access ≡ access_to_come (site_of R.digest_of self.now) caller birth) }
    {
        let _ = &self.root;
        Ok(Access {
            id: identify(self.alloc, &self.rule, &birth)?,
            born: 0,
            mode: 0,
            owner: caller.uid,
            group: caller.gid,
            birth,
        })
    }

    /// Makes an empty directory of this triple, which is born at the place of the Ask.
    pub(super) fn make(
        &mut self,
        ask_place: Place,
        ask: &Ask,
        triple: &Shared<Triple>,
    ) -> Result<Reply, Refusal>
        ensures done { IfOk result (λ given. Gives self.old.state
            (make (site_of R.digest_of self.old) self.old.state ask_place ask.now triple.now) given self.new.state) }
        ensures refused { IfErr result (λ refusal.
            make (site_of R.digest_of self.old) self.old.state ask_place ask.now triple.now ≡ Err (reply_of refusal)) }
        ensures unchanged { OnErr result (self.new ≡ self.old) }
        ensures same { IsSameServer self.old self.new }
    {
        let Ok(id) = identify(self.alloc, &self.rule, triple) else {
            return Ok(Reply::NoMem);
        };
        self.check_here(&id)?;
        let Ok(triple) = triple.try_clone(self.alloc) else {
            return Ok(Reply::NoMem);
        };
        match self.contents.make(id, triple, ask_place, ask.from) {
            Ok(made) => {
                unless_there(made)?;
                Ok(Reply::Fine)
            }
            Err(NoMemory) => Ok(Reply::NoMem),
        }
    }

    /// Makes what the call reserved this directory, of this mode and the caller's.
    pub(super) fn link(
        &mut self,
        ask: &Ask,
        chain: &Chain,
        linked: DirRef,
        mode: u16,
    ) -> Result<(), Refusal>
        ensures done { OnOk result (
            link (site_of R.digest_of self.old) self.old.state ask.now chain.now linked mode
            ≡ done reply.Fine self.new.state) }
        ensures refused { IfErr result (λ refusal.
            link (site_of R.digest_of self.old) self.old.state ask.now chain.now linked mode ≡ Err (reply_of refusal)) }
        ensures unchanged { OnErr result (self.new ≡ self.old) }
        ensures same { IsSameServer self.old self.new }
    {
        let (entry, _) = self.asked(ask.from, last_of(chain.as_slice()), &[chain])?;
        let dir = dir_of(&entry.access);
        let link = Some((linked, mode, ask.caller));
        let Some(_) = self.contents.fill(&dir, ask.from, link) else {
            return Err(Refusal::Other);
        };
        Ok(())
    }

    /// Lifts what the call reserves or holds in the directory.
    pub(super) fn cancel(&mut self, ask: &Ask, dir: &DirRef) -> Result<(), Refusal>
        ensures done { OnOk result (cancel (site_of R.digest_of self.old) self.old.state ask.now dir.now
            ≡ done reply.Fine self.new.state) }
        ensures refused { IfErr result (λ refusal.
            cancel (site_of R.digest_of self.old) self.old.state ask.now dir.now ≡ Err (reply_of refusal)) }
        ensures unchanged { OnErr result (self.new ≡ self.old) }
        ensures same { IsSameServer self.old self.new }
    {
        self.check_here(&dir.id)?;
        self.contents.lift(dir, ask.from);
        Ok(())
    }
}

/// Another directory has the identifier, or this one is there already.
fn unless_there(made: Made) -> Result<(), Refusal>
    ensures ok { OnOk result (unless_there made ≡ Ok tt) }
    ensures refused { IfErr result (λ refusal. unless_there made ≡ Err (reply_of refusal)) }
{
    match made {
        Made::New => Ok(()),
        Made::Clash(kept) => Err(Refusal::Clash(kept)),
        Made::Bearer(by) => Err(Refusal::Busy(by, Spot::Bearer, 0)),
    }
}
