//! The small run by hand: each step is one that the contracts of the core let happen, with the outcome of the rules.

ghost use Rattle.std.specs.Prelude.{◌≡◌, ◌≢◌, ◌<◌, [], ◌∷◌, length, IfOk, OnOk};
ghost use Rattle.inf_core.specs.Examples as example;
ghost use Rattle.inf_core.specs.Steps.{IsAfter};
ghost use Rattle.inf_laws_history.specs.Sites.{site_of};
ghost use Rattle.inf_message.specs.declared.reply.Reply.TheVariants as reply;
ghost use Rattle.inf_server.specs.State.{root_access};

use super::*;
use inf_base::{
    Access, Call, CallRef, Caller, Calls, Chain, ClientLine, Clients, Entry, Errno, Id, Key,
    LookKey, Name, NoMemory, Place, Sequence, Setup, Shared, Text, Triple,
};
use inf_birth::IdRule;
use inf_message::{Ask, Event, Op, Reply, Request};
use std::alloc::Global;
use std::test::Fail;

const ROOT: Caller = Caller { uid: 0, gid: 0 };

/// Makes every message the identifier of zeros, which server 0 keeps.
#[derive(Clone, Copy)]
struct ZeroRule;

impl IdRule for ZeroRule {
    ghost use Rattle.inf_core.specs.Examples.{zero_id};

    ghost digest_of = { λ rule message. zero_id };

    fn digest(&self, _bytes: &[u8]) -> Id {
        Id { bytes: [0; 32] }
    }
}

/// A client of the root's user with one call.
fn line(alloc: Global, name: &[u8], call: Call) -> Result<ClientLine, NoMemory>
    requires some { 0 < length name.now }
    requires short { length name.now < 16 }
    ensures { IfOk result (λ line. line ≡ example.line name.now (call ∷ [])) }
{
    let name = Name::from_slice(alloc, name)?;
    let mut calls = Vec::new(alloc);
    calls.push(call)?;
    Ok(ClientLine {
        name,
        caller: ROOT,
        calls: Calls::new(alloc, Sequence::new(calls))?,
    })
}

fn setup(alloc: Global) -> Result<Setup, NoMemory>
    ensures { IfOk result (λ setup. setup ≡ example.world.setup) }
{
    let path = Text::from_slice(alloc, b"/f")?;
    let a = line(alloc, b"a", Call::Create { path, mode: 0o644 })?;
    let path = Text::from_slice(alloc, b"/f")?;
    let b = line(alloc, b"b", Call::Stat { path })?;
    let mut clients = Vec::new(alloc);
    clients.push(a)?;
    clients.push(b)?;
    Ok(Setup {
        servers: 2,
        digest_bytes: 32,
        cache: 256,
        clients: Clients::new(clients),
    })
}

fn ask(client: u32, request: Request) -> Ask
    ensures { result ≡ example.ask client request }
{
    Ask {
        from: CallRef { client, number: 1 },
        caller: ROOT,
        request,
    }
}

fn root() -> Access
    ensures { result ≡ root_access (site_of example.world 0) }
{
    Access {
        id: Id { bytes: [0; 32] },
        born: 0,
        mode: 0o755,
        owner: 0,
        group: 0,
        birth: Triple::Root,
    }
}

/// The root's entry, as it was told at this place.
fn chain(alloc: Global, stamp: Place) -> Result<Chain, NoMemory>
    ensures { IfOk result (λ chain. chain ≡ example.chain stamp) }
{
    let mut entries = Vec::new(alloc);
    entries.push(Entry {
        key: Shared::new(alloc, Key::Top)?,
        access: Shared::new(alloc, root())?,
        stamp,
    })?;
    Chain::new(alloc, Sequence::new(entries))
}

fn create_f(alloc: Global) -> Result<Request, NoMemory>
    ensures { IfOk result (λ request. request ≡ example.create_f) }
{
    let chain = chain(alloc, 3)?;
    let op = Op::Create(Name::from_slice(alloc, b"f")?, 0o644);
    Ok(Request::Finish { chain, op })
}

fn stat_f(alloc: Global) -> Result<Request, NoMemory>
    ensures { IfOk result (λ request. request ≡ example.stat_f) }
{
    let chain = chain(alloc, 4)?;
    let op = Op::Stat(Name::from_slice(alloc, b"f")?);
    Ok(Request::Finish { chain, op })
}

fn a_looks_up(core: &mut Core<ZeroRule>) -> Result<(), NoMemory>
    requires { IsAfter 0 core.old }
    ensures { OnOk result (IsAfter 1 core.new) }
{
    let ask = ask(0, Request::Lookup(LookKey::Top));
    core.ask(0, ask)?;
    Ok(())
}

fn b_looks_up(core: &mut Core<ZeroRule>) -> Result<(), NoMemory>
    requires { IsAfter 1 core.old }
    ensures { OnOk result (IsAfter 2 core.new) }
{
    let ask = ask(1, Request::Lookup(LookKey::Top));
    core.ask(0, ask)?;
    Ok(())
}

fn a_creates(alloc: Global, core: &mut Core<ZeroRule>) -> Result<(), NoMemory>
    requires { IsAfter 4 core.old }
    ensures { OnOk result (IsAfter 5 core.new) }
{
    let ask = ask(0, create_f(alloc)?);
    core.ask(0, ask)?;
    Ok(())
}

fn b_asks_for_it(alloc: Global, core: &mut Core<ZeroRule>) -> Result<(), NoMemory>
    requires { IsAfter 5 core.old }
    ensures { OnOk result (IsAfter 6 core.new) }
{
    let ask = ask(1, stat_f(alloc)?);
    core.ask(0, ask)?;
    Ok(())
}

fn a_is_told(core: &mut Core<ZeroRule>) -> Result<(), NoMemory>
    requires { IsAfter 2 core.old }
    ensures { OnOk result (IsAfter 3 core.new) }
{
    let (_place, reply) = core.serve(1)?;
    unless_wanting(&reply)
}

fn b_is_told(core: &mut Core<ZeroRule>) -> Result<(), NoMemory>
    requires { IsAfter 3 core.old }
    ensures { OnOk result (IsAfter 4 core.new) }
{
    let (_place, reply) = core.serve(2)?;
    unless_wanting(&reply)
}

fn b_is_refused(core: &mut Core<ZeroRule>) -> Result<(), NoMemory>
    requires { IsAfter 6 core.old }
    ensures { OnOk result (IsAfter 7 core.new) }
{
    let (_place, reply) = core.serve(6)?;
    unless_wanting(&reply)
}

fn a_is_done(core: &mut Core<ZeroRule>) -> Result<(), NoMemory>
    requires { IsAfter 7 core.old }
    ensures { OnOk result (IsAfter 8 core.new) }
{
    let (_place, reply) = core.serve(5)?;
    unless_wanting(&reply)
}

/// The events of the run by place: `b` asks for the file before it is made.
fn run(alloc: Global) -> Result<Vec<Event>, NoMemory> {
    let mut events = Vec::new(alloc);
    for client in 0..2 {
        let request = Request::Lookup(LookKey::Top);
        events.push(asked(alloc, client, request)?)?;
    }
    for ask_place in 1..3 {
        let key = Shared::new(alloc, Key::Top)?;
        let access = Shared::new(alloc, root())?;
        events.push(served(ask_place, Reply::Found { key, access }))?;
    }
    events.push(asked(alloc, 0, create_f(alloc)?)?)?;
    events.push(asked(alloc, 1, stat_f(alloc)?)?)?;
    events.push(served(6, Reply::Refused(Errno::ENOENT)))?;
    events.push(served(5, Reply::Fine))?;
    Ok(events)
}

fn asked(alloc: Global, client: u32, request: Request) -> Result<Event, NoMemory> {
    let ask = Shared::new(alloc, ask(client, request))?;
    Ok(Event::Ask { number: 0, ask })
}

fn served(ask_place: Place, reply: Reply) -> Event {
    Event::Serve {
        number: 0,
        ask_place,
        reply,
    }
}

/// A server may always want memory.
fn unless_wanting(given: &Reply) -> Result<(), NoMemory>
    ensures { OnOk result (given.now ≢ reply.NoMem) }
{
    match given {
        Reply::NoMem => Err(NoMemory),
        _ => Ok(()),
    }
}

#[test]
fn two_clients(rt: HostRuntime) -> Result<(), Fail> {
    let alloc = rt.alloc();
    let mut core = Core::new(alloc, setup(alloc)?, ZeroRule)?;
    a_looks_up(&mut core)?;
    b_looks_up(&mut core)?;
    a_is_told(&mut core)?;
    b_is_told(&mut core)?;
    a_creates(alloc, &mut core)?;
    b_asks_for_it(alloc, &mut core)?;
    b_is_refused(&mut core)?;
    a_is_done(&mut core)?;
    assert_eq!(rt; core.history(), run(alloc)?.as_slice());
    Ok(())
}
