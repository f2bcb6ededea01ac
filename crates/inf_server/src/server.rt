//! A server, and how it replies.

ghost use Rattle.std.specs.Prelude.{◌≡◌, ◌≢◌, ◌≤◌, true, false, Some, Ok, Err, IfOk, IfErr, OnOk, OnErr, map};
ghost use Rattle.std.specs.Option.{option_copied};
ghost use Rattle.inf_base.specs.declared.item.Kind.TheVariants as kind;
ghost use Rattle.inf_base.specs.Same.{dir_of};
ghost use Rattle.inf_content.specs.Contents.{content_at};
ghost use Rattle.inf_message.specs.declared.reply.Reply.TheVariants as reply;
ghost use Rattle.inf_server.specs.Chains.{HasShortChains};
ghost use Rattle.inf_server.specs.declared.refusal.Refusal.TheVariants as refusals;
ghost use Rattle.inf_server.specs.Checks.{asked_of};
ghost use Rattle.inf_server.specs.Machine.{Serves, is_built, is_built_op, is_change, may_want_op, on_change, on_op};
ghost use Rattle.inf_server.specs.Refusal.{reply_of};
ghost use Rattle.inf_server.specs.Response.{Gives, done};
ghost use Rattle.inf_server.specs.Server.{IsSameServer, site_of};
ghost use Rattle.inf_server.specs.State.{is_here, opening};

mod births;
mod files;
mod lookups;
mod removals;

use crate::checks::{dir_of, have_entries, no_directory, unsealed};
use crate::refusal::Refusal;
use crate::top::Top;
use inf_base::{
    CallRef, Chain, DirRef, Entry, Id, Key, LookKey, NoMemory, Place, Setup, Shared, Triple,
    server_of,
};
use inf_birth::{IdRule, identify};
use inf_content::{Contents, Directory};
use inf_message::{Ask, Op, Reply, Request};
use inf_renames::Renames;
use std::alloc::Global;
use std::marker::Model;

/// One server of a service. The server whose number is that of the servers is the coordinator.
#[derive(Drop)]
pub struct Server<R: IdRule> {
    alloc: Global,
    rule: R,
    number: u32,
    servers: u32,
    /// The root, where it is kept here.
    root: Option<Top>,
    contents: Contents,
    renames: Renames,
}

impl<R: IdRule> Model for Server<R> {
    ghost use Rattle.inf_server.specs.Server.{Standing, KeepsRoot, site, state_with};

    ghost Value = { Standing R };

    ghost view = { λ s. record {
      rule = s.rule;
      number = s.number;
      servers = s.servers;
      state = state_with s.root s.contents s.renames;
    } };

    ghost invariant = { λ s. KeepsRoot (site s.number s.servers (R.digest_of s.rule)) s.root };
}

impl<R: IdRule> Server<R> {
    /// The server of this number before it serves anything: it keeps the root with no entries, if the root is its own.
    pub fn new(alloc: Global, rule: R, number: u32, setup: &Setup) -> Result<Self, NoMemory>
        requires some_servers { 1 ≤ setup.now.servers }
        requires numbered { number ≤ setup.now.servers }
        ensures rule { IfOk result (λ server. server.rule ≡ rule) }
        ensures number { IfOk result (λ server. server.number ≡ number) }
        ensures servers { IfOk result (λ server. server.servers ≡ setup.now.servers) }
        ensures state { IfOk result (λ server. server.state ≡ opening (site_of R.digest_of server)) }
    {
        let id = identify(alloc, &rule, &Triple::Root)?;
        let mut contents = Contents::new(alloc);
        let mut root = None;
        if number == server_of(&id, setup.servers) {
            contents.make(id, Shared::new(alloc, Triple::Root)?, 0, NOBODY)?;
            root = Some(Top::new(alloc, id)?);
        }
        Ok(Server {
            alloc,
            rule,
            number,
            servers: setup.servers,
            root,
            contents,
            renames: Renames::new(alloc),
        })
    }

    /// Serves the request of an Ask that was made at this place.
    pub fn serve(&mut self, ask_place: Place, ask: &Ask) -> Reply
        requires built { is_built ask.now.request ≡ true }
        requires short_chains { HasShortChains ask.now.request }
        ensures serves { Serves (site_of R.digest_of self.old) self.old.state ask_place ask.now result self.new.state }
        ensures no_memory { result ≡ reply.NoMem → self.new ≡ self.old }
        ensures same { IsSameServer self.old self.new }
    {
        match self.reply_to(ask_place, ask) {
            Ok(reply) => reply,
            Err(refusal) => refusal.reply(),
        }
    }

    fn reply_to(&mut self, ask_place: Place, ask: &Ask) -> Result<Reply, Refusal>
        requires { is_built ask.now.request ≡ true }
        ensures done { IfOk result (λ given.
            Serves (site_of R.digest_of self.old) self.old.state ask_place ask.now given self.new.state) }
        ensures refused { IfErr result (λ refusal.
            Serves (site_of R.digest_of self.old) self.old.state ask_place ask.now (reply_of refusal) self.old.state) }
        ensures unchanged { OnErr result (self.new ≡ self.old) }
        ensures same { IsSameServer self.old self.new }
    {
        match &ask.request {
            Request::Lookup(LookKey::Top) => self.lookup_top(),
            Request::Lookup(LookKey::At { dir, name }) => self.lookup_at(dir, name),
            Request::Finish { chain, op } => self.finish(ask, chain, op),
            Request::Reserve { chain, name } => self.reserve(ask, chain, name),
            Request::Make { triple } => self.make(ask_place, ask, triple),
            _ => {
                self.change(ask)?;
                Ok(Reply::Fine)
            }
        }
    }

    /// The one message of a call that needs no more.
    fn finish(&mut self, ask: &Ask, chain: &Chain, op: &Op) -> Result<Reply, Refusal>
        requires { is_built_op op.now ≡ true }
        ensures done { IfOk result (λ given. Gives self.old.state
            (on_op (site_of R.digest_of self.old) self.old.state ask.now chain.now op.now) given self.new.state) }
        ensures plain { IfOk result (λ given. may_want_op op.now ≡ false → given ≢ reply.NoMem) }
        ensures refused { IfErr result (λ refusal.
            on_op (site_of R.digest_of self.old) self.old.state ask.now chain.now op.now ≡ Err (reply_of refusal)) }
        ensures unchanged { OnErr result (self.new ≡ self.old) }
        ensures same { IsSameServer self.old self.new }
    {
        match op {
            Op::Create(name, mode) => self.create(ask, chain, name, *mode),
            Op::Stat(name) => {
                let (kind, meta) = self.stat(ask, chain, name)?;
                Ok(Reply::Stat { kind, meta })
            }
            Op::Walk(name) => Err(no_directory(self.walk(ask, chain, name)?)),
            Op::RmdirName(name) => Err(no_directory(self.rmdir_name(ask, chain, name)?)),
            _ => unreachable!(),
        }
    }

    /// What a request changes that wants no memory, and has nothing to tell.
    fn change(&mut self, ask: &Ask) -> Result<(), Refusal>
        requires { is_change ask.now.request ≡ true }
        ensures done { OnOk result (
            on_change (site_of R.digest_of self.old) self.old.state ask.now ask.now.request
            ≡ done reply.Fine self.new.state) }
        ensures refused { IfErr result (λ refusal.
            on_change (site_of R.digest_of self.old) self.old.state ask.now ask.now.request ≡ Err (reply_of refusal)) }
        ensures unchanged { OnErr result (self.new ≡ self.old) }
        ensures same { IsSameServer self.old self.new }
    {
        match &ask.request {
            Request::Link {
                chain,
                name: _,
                dir,
                mode,
            } => self.link(ask, chain, *dir, *mode),
            Request::Cancel { dir } => self.cancel(ask, dir),
            Request::Drop { dir } => self.drop_dir(ask, dir),
            Request::Seal { chain } => self.seal(ask, chain),
            Request::Unseal { dir } => self.unseal(ask, dir),
            Request::Unlink { chain } => self.unlink(ask, chain),
            Request::Forget { parent, dir } => self.forget(parent, dir),
            _ => unreachable!(),
        }
    }

    fn is_here(&self, id: &Id) -> bool
        ensures { result ≡ is_here (site_of R.digest_of self.now) id.now }
    {
        let _ = &self.root;
        self.number == server_of(id, self.servers)
    }

    /// Whether a directory of this identifier, which a request names, is kept here.
    fn check_here(&self, id: &Id) -> Result<(), Refusal>
        ensures ok { OnOk result (is_here (site_of R.digest_of self.now) id.now ≡ true) }
        ensures refused { IfErr result (λ refusal. is_here (site_of R.digest_of self.now) id.now ≡ false) }
        ensures other { IfErr result (λ refusal. refusal ≡ refusals.Other) }
    {
        if self.is_here(id) {
            Ok(())
        } else {
            Err(Refusal::Other)
        }
    }

    /// The entry of the directory asked, by a request that carries these chains, and the directory: it is kept here,
    /// stands, and no other call sealed it.
    fn asked<'a>(
        &self,
        by: CallRef,
        asked: Option<&'a Entry>,
        carried: &[&Chain],
    ) -> Result<(&'a Entry, Directory<'_>), Refusal>
        ensures ok { IfOk result (λ found.
            asked_of (site_of R.digest_of self.now) self.now.state by (option_copied asked.entry)
            (map (λ chain. chain.now) carried.now) ≡ Ok found.0.now) }
        ensures stands { IfOk result (λ found.
            content_at (dir_of found.0.now.access) self.now.state.contents ≡ Some found.1) }
        ensures directory { IfOk result (λ found. found.1.dir ≡ dir_of found.0.now.access) }
        ensures refused { IfErr result (λ refusal.
            asked_of (site_of R.digest_of self.now) self.now.state by (option_copied asked.entry)
            (map (λ chain. chain.now) carried.now) ≡ Err (reply_of refusal)) }
    {
        let Some(entry) = asked else {
            return Err(Refusal::Other);
        };
        self.check_here(&entry.access.id)?;
        have_entries(carried)?;
        let dir = dir_of(&entry.access);
        let Some(directory) = self.contents.directory(&dir) else {
            return Err(Refusal::Gone);
        };
        unsealed(by, dir.born, directory.sealed())?;
        Ok((entry, directory))
    }
}

/// No call has this number.
const NOBODY: CallRef = CallRef {
    client: 0,
    number: 0,
};
