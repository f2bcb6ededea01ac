//! What removes a directory.

ghost use Rattle.std.specs.Prelude.{◌≡◌, Ok, Err, IfErr, OnOk, OnErr};
ghost use Rattle.std.specs.Option.{option_copied};
ghost use Rattle.inf_message.specs.declared.reply.Reply.TheVariants as reply;
ghost use Rattle.inf_server.specs.Refusal.{reply_of};
ghost use Rattle.inf_server.specs.Removals.{drop_dir, forget, is_the_directory, name_in, seal, unless_inside, unlink, unseal};
ghost use Rattle.inf_server.specs.Response.{done};
ghost use Rattle.inf_server.specs.Server.{IsSameServer, site_of};

use super::Server;
use crate::checks::{before_last, dir_of, find, last_of, search, write};
use crate::refusal::Refusal;
use inf_base::{Access, Chain, DirRef, Errno, Id, Key, Name, Place};
use inf_birth::IdRule;
use inf_content::{Inside, Seen};
use inf_message::{Ask, Spot};

impl<R: IdRule> Server<R> {
    /// Seals the directory that ends the chain, if nothing is in it.
    pub(super) fn seal(&mut self, ask: &Ask, chain: &Chain) -> Result<(), Refusal>
        ensures done { OnOk result (seal (site_of R.digest_of self.old) self.old.state ask.now chain.now
            ≡ done reply.Fine self.new.state) }
        ensures refused { IfErr result (λ refusal.
            seal (site_of R.digest_of self.old) self.old.state ask.now chain.now ≡ Err (reply_of refusal)) }
        ensures unchanged { OnErr result (self.new ≡ self.old) }
        ensures same { IsSameServer self.old self.new }
    {
        let way = before_last(chain.as_slice());
        let Some(parent) = last_of(way) else {
            return Err(Refusal::Other);
        };
        let (entry, directory) = self.asked(ask.from, last_of(chain.as_slice()), &[chain])?;
        search(ask.caller, way)?;
        write(ask.caller, parent)?;
        let dir = dir_of(&entry.access);
        unless_inside(dir.born, directory.inside(ask.from))?;
        self.contents.seal(&dir, ask.from);
        Ok(())
    }

    /// Lifts the call's seal.
    pub(super) fn unseal(&mut self, ask: &Ask, dir: &DirRef) -> Result<(), Refusal>
        ensures done { OnOk result (unseal (site_of R.digest_of self.old) self.old.state ask.now dir.now
            ≡ done reply.Fine self.new.state) }
        ensures refused { IfErr result (λ refusal.
            unseal (site_of R.digest_of self.old) self.old.state ask.now dir.now ≡ Err (reply_of refusal)) }
        ensures unchanged { OnErr result (self.new ≡ self.old) }
        ensures same { IsSameServer self.old self.new }
    {
        self.check_here(&dir.id)?;
        self.contents.unseal(dir, ask.from);
        Ok(())
    }

    /// Removes the directory that ends the chain from where it stands.
    pub(super) fn unlink(&mut self, ask: &Ask, chain: &Chain) -> Result<(), Refusal>
        ensures done { OnOk result (unlink (site_of R.digest_of self.old) self.old.state ask.now chain.now
            ≡ done reply.Fine self.new.state) }
        ensures refused { IfErr result (λ refusal.
            unlink (site_of R.digest_of self.old) self.old.state ask.now chain.now ≡ Err (reply_of refusal)) }
        ensures unchanged { OnErr result (self.new ≡ self.old) }
        ensures same { IsSameServer self.old self.new }
    {
        let Some(target) = last_of(chain.as_slice()) else {
            return Err(Refusal::Other);
        };
        let Some(name) = name_in(&target.key) else {
            return Err(Refusal::Other);
        };
        let above = last_of(before_last(chain.as_slice()));
        let (entry, directory) = self.asked(ask.from, above, &[chain])?;
        let dir = dir_of(&entry.access);
        let found = find(ask.from, &directory, name)?;
        if !is_the_directory(&target.access, found) {
            return Err(Refusal::Other);
        }
        self.contents.take_out(&dir, name);
        Ok(())
    }

    /// Drops the content object, if the call sealed or made it.
    pub(super) fn drop_dir(&mut self, ask: &Ask, dir: &DirRef) -> Result<(), Refusal>
        ensures done { OnOk result (drop_dir (site_of R.digest_of self.old) self.old.state ask.now dir.now
            ≡ done reply.Fine self.new.state) }
        ensures refused { IfErr result (λ refusal.
            drop_dir (site_of R.digest_of self.old) self.old.state ask.now dir.now ≡ Err (reply_of refusal)) }
        ensures unchanged { OnErr result (self.new ≡ self.old) }
        ensures same { IsSameServer self.old self.new }
    {
        self.check_here(&dir.id)?;
        self.contents.drop_dir(dir, ask.from);
        Ok(())
    }

    /// Removes the row that the directory left where it was made.
    pub(super) fn forget(&mut self, parent: &Id, dir: &DirRef) -> Result<(), Refusal>
        ensures done { OnOk result (forget (site_of R.digest_of self.old) self.old.state parent.now dir.now
            ≡ done reply.Fine self.new.state) }
        ensures refused { IfErr result (λ refusal.
            forget (site_of R.digest_of self.old) self.old.state parent.now dir.now ≡ Err (reply_of refusal)) }
        ensures unchanged { OnErr result (self.new ≡ self.old) }
        ensures same { IsSameServer self.old self.new }
    {
        self.check_here(parent)?;
        self.renames.remove(parent, dir);
        Ok(())
    }
}

/// Only an empty directory goes.
fn unless_inside(born: Place, inside: Inside) -> Result<(), Refusal>
    ensures ok { OnOk result (unless_inside born inside ≡ Ok tt) }
    ensures refused { IfErr result (λ refusal. unless_inside born inside ≡ Err (reply_of refusal)) }
{
    match inside {
        Inside::Empty => Ok(()),
        Inside::Full => Err(Refusal::Denied(Errno::ENOTEMPTY)),
        Inside::Busy(by) => Err(Refusal::Busy(by, Spot::Inside, born)),
    }
}

fn name_in(key: &Key) -> Option<&Name>
    ensures { option_copied result ≡ name_in key.now }
{
    match key {
        Key::Top => None,
        Key::At { dir: _, name } => Some(name),
    }
}

/// Whether what was found is this directory, of this birth.
fn is_the_directory(access: &Access, found: Seen) -> bool
    ensures { result ≡ is_the_directory access.now found }
{
    match found {
        Seen::Gone => false,
        Seen::Missing => false,
        Seen::Reserved(_) => false,
        Seen::File { .. } => false,
        Seen::Dir { dir, .. } => dir == dir_of(access),
    }
}
