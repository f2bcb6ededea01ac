//! What the one message of a call does with what stands under a name.

ghost use Rattle.std.specs.Prelude.{◌≡◌, Err, IfOk, IfErr, OnOk, OnErr};
ghost use Rattle.inf_base.specs.declared.errno.Errno.TheVariants as errno;
ghost use Rattle.inf_content.specs.Contents.{with_file_at};
ghost use Rattle.inf_message.specs.declared.reply.Reply.TheVariants as reply;
ghost use Rattle.inf_server.specs.Files.{create, no_directory, rmdir_name, stat, stat_of, walk};
ghost use Rattle.inf_server.specs.Refusal.{reply_of};
ghost use Rattle.inf_server.specs.Response.{Gives, done};
ghost use Rattle.inf_server.specs.Server.{IsSameServer, site_of};
ghost use Rattle.inf_server.specs.State.{with_contents};

use super::Server;
use crate::checks::{dir_of, find, is_missing, last_of, search, write};
use crate::refusal::Refusal;
use inf_base::{Chain, DirRef, Errno, FileMeta, Kind, Name, NoMemory, TryClone};
use inf_birth::IdRule;
use inf_content::Seen;
use inf_message::{Ask, Reply};

impl<R: IdRule> Server<R> {
    /// Puts an empty file of the caller's under a name that is free.
    pub(super) fn create(
        &mut self,
        ask: &Ask,
        chain: &Chain,
        name: &Name,
        mode: u16,
    ) -> Result<Reply, Refusal>
        ensures done { IfOk result (λ given. Gives self.old.state
            (create (site_of R.digest_of self.old) self.old.state ask.now chain.now name.now mode)
            given self.new.state) }
        ensures refused { IfErr result (λ refusal.
            create (site_of R.digest_of self.old) self.old.state ask.now chain.now name.now mode
            ≡ Err (reply_of refusal)) }
        ensures unchanged { OnErr result (self.new ≡ self.old) }
        ensures same { IsSameServer self.old self.new }
    {
        let (entry, directory) = self.asked(ask.from, last_of(chain.as_slice()), &[chain])?;
        search(ask.caller, chain.as_slice())?;
        write(ask.caller, entry)?;
        let dir = dir_of(&entry.access);
        if !is_missing(find(ask.from, &directory, name)?) {
            return Err(Refusal::Denied(Errno::EEXIST));
        }
        let meta = FileMeta {
            mode,
            owner: ask.caller.uid,
            group: ask.caller.gid,
            length: 0,
        };
        match self.put_file(&dir, name, meta) {
            Ok(()) => Ok(Reply::Fine),
            Err(NoMemory) => Ok(Reply::NoMem),
        }
    }

    /// Puts a file under a copy of the name.
    fn put_file(&mut self, dir: &DirRef, name: &Name, meta: FileMeta) -> Result<(), NoMemory>
        ensures ok { OnOk result (self.new.state
            ≡ with_contents (with_file_at dir.now name.now meta self.old.state.contents) self.old.state) }
        ensures err { OnErr result (self.new ≡ self.old) }
        ensures same { IsSameServer self.old self.new }
    {
        let name = name.try_clone(self.alloc)?;
        self.contents.put_file(dir, name, meta)?;
        Ok(())
    }

    /// What stands under a name, and its metadata.
    pub(super) fn stat(
        &self,
        ask: &Ask,
        chain: &Chain,
        name: &Name,
    ) -> Result<(Kind, FileMeta), Refusal>
        ensures found { IfOk result (λ told.
            stat (site_of R.digest_of self.now) self.now.state ask.now chain.now name.now
            ≡ done (reply.Stat told.0 told.1) self.now.state) }
        ensures refused { IfErr result (λ refusal.
            stat (site_of R.digest_of self.now) self.now.state ask.now chain.now name.now
            ≡ Err (reply_of refusal)) }
    {
        let (_, directory) = self.asked(ask.from, last_of(chain.as_slice()), &[chain])?;
        search(ask.caller, chain.as_slice())?;
        stat_of(find(ask.from, &directory, name)?)
    }

    /// What stands at the name at which the walk ends.
    pub(super) fn walk(&self, ask: &Ask, chain: &Chain, name: &Name) -> Result<Seen, Refusal>
        ensures found { IfOk result (λ found.
            walk (site_of R.digest_of self.now) self.now.state ask.now chain.now name.now
            ≡ Err (no_directory found)) }
        ensures refused { IfErr result (λ refusal.
            walk (site_of R.digest_of self.now) self.now.state ask.now chain.now name.now
            ≡ Err (reply_of refusal)) }
    {
        let (_, directory) = self.asked(ask.from, last_of(chain.as_slice()), &[chain])?;
        search(ask.caller, chain.as_slice())?;
        find(ask.from, &directory, name)
    }

    /// What stands under the name of a directory that is to be removed.
    pub(super) fn rmdir_name(&self, ask: &Ask, chain: &Chain, name: &Name) -> Result<Seen, Refusal>
        ensures found { IfOk result (λ found.
            rmdir_name (site_of R.digest_of self.now) self.now.state ask.now chain.now name.now
            ≡ Err (no_directory found)) }
        ensures refused { IfErr result (λ refusal.
            rmdir_name (site_of R.digest_of self.now) self.now.state ask.now chain.now name.now
            ≡ Err (reply_of refusal)) }
    {
        let (entry, directory) = self.asked(ask.from, last_of(chain.as_slice()), &[chain])?;
        search(ask.caller, chain.as_slice())?;
        write(ask.caller, entry)?;
        find(ask.from, &directory, name)
    }
}

/// What is told of what was found; a directory has length 0.
fn stat_of(found: Seen) -> Result<(Kind, FileMeta), Refusal>
    ensures found { IfOk result (λ told. stat_of found ≡ Ok (reply.Stat told.0 told.1)) }
    ensures refused { IfErr result (λ refusal. stat_of found ≡ Err (reply_of refusal)) }
{
    match found {
        Seen::Gone => Err(Refusal::Gone),
        Seen::Missing => Err(Refusal::Denied(Errno::ENOENT)),
        Seen::Reserved(_) => Err(Refusal::Other),
        Seen::File { meta, held: _ } => Ok((Kind::File, meta)),
        Seen::Dir {
            dir: _,
            mode,
            owner,
            group,
            held: _,
        } => {
            let meta = FileMeta {
                mode,
                owner,
                group,
                length: 0,
            };
            Ok((Kind::Dir, meta))
        }
    }
}
