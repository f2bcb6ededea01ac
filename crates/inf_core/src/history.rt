//! The history as it grows, with the servers as it leaves them.

ghost use Rattle.std.specs.Prelude.{◌≡◌, suc, ◌+◌, ◌<◌, ◌≤◌, true, false, [], ◌∷◌, ◌++◌, length, reverse, slice_get, Some, IsSome, IfOk, OnOk, OnErr, vec_len, vec_capacity};
ghost use Rattle.inf_core.specs.Core.{AreStanding, IsSameRun, IsServedBy, IsServedNext, TellsOfNoChange, world_in};
ghost use Rattle.inf_duty.specs.World.{world_by};
ghost use Rattle.inf_laws_history.specs.Legal.{Legal, MayAsk};
ghost use Rattle.inf_laws_history.specs.Replayed.{AllReplay};
ghost use Rattle.inf_message.specs.declared.event.Event.TheVariants as event;
ghost use Rattle.inf_message.specs.History.{asked_at, is_served, posted_ask};
ghost use Rattle.inf_server.specs.Chains.{HasShortChains};
ghost use Rattle.inf_server.specs.Machine.{is_built};
ghost use Rattle.inf_server.specs.Server.{Standing};

use inf_base::{NoMemory, Place, Setup, Shared, TryClone};
use inf_birth::IdRule;
use inf_laws_history::every_legal_history_replays;
use inf_message::{Ask, Event, Events, Reply};
use inf_server::Server;
use std::alloc::Global;
use std::marker::Model;
use std::mem::ManuallyDrop;

/// A service and what has happened in it: each Ask is its client's duty, and each Serve its server's reply.
#[derive(Drop)]
pub struct Core<R: IdRule> {
    alloc: Global,
    rule: R,
    setup: Setup,
    /// By number, the coordinator last.
    servers: Vec<Server<R>>,
    /// By place, the oldest first.
    events: Vec<Event>,
    /// For each event whether a Serve names it.
    served: Vec<bool>,
}

impl<R: IdRule> Model for Core<R> {
    ghost use Rattle.std.specs.Prelude.{reverse};
    ghost use Rattle.inf_core.specs.Core.{IsKept, Running};
    ghost use Rattle.inf_duty.specs.World.{world_by};

    ghost Value = { Running R };

    ghost view = { λ c. record { rule = c.rule; setup = c.setup; history = reverse c.events.items } };

    ghost invariant = { λ c. IsKept (world_by (R.digest_of c.rule) c.setup) c.rule c.servers.items
        (reverse c.events.items) c.served.items };
}

impl<R: IdRule> Core<R> {
    /// The core before anything has happened.
    pub fn new(alloc: Global, setup: Setup, rule: R) -> Result<Self, NoMemory>
        requires some_servers { 1 ≤ setup.servers }
        ensures { IfOk result (λ core. core ≡ record { rule = rule; setup = setup; history = [] }) }
    {
        let servers = open_servers(alloc, rule, &setup)?;
        Ok(Core {
            alloc,
            rule,
            setup,
            servers,
            events: Vec::new(alloc),
            served: Vec::new(alloc),
        })
    }

    /// The rule by which identifiers are made.
    pub fn rule(&self) -> R
        ensures { result ≡ self.now.rule }
    {
        self.rule
    }

    pub fn setup(&self) -> &Setup
        ensures { result.now ≡ self.now.setup }
    {
        &self.setup
    }

    /// The events so far by place, the oldest first.
    pub fn history(&self) -> &[Event]
        ensures history { result.now ≡ reverse self.now.history }
        ensures legal { Legal (world_in R.digest_of self.now) self.now.history }
        ensures replays { AllReplay (world_in R.digest_of self.now) self.now.history }
    {
        every_legal_history_replays();
        self.events.as_slice()
    }

    /// The events by place, the oldest first. The service ends: the memory of its servers is left to the end of the
    /// program, and not given back piece by piece.
    pub fn into_history(self) -> Events
        ensures { result ≡ reverse self.history }
    {
        let Core {
            servers,
            events,
            ..
        } = self;
        let _ = ManuallyDrop::new(servers);
        Events::new(events)
    }

    /// Whether some Serve names the event at a place.
    pub fn is_served(&self, place: Place) -> bool
        requires counted { 1 ≤ place }
        requires within { place ≤ length self.now.history }
        ensures { result ≡ is_served place self.now.history }
    {
        self.served[place as usize - 1]
    }

    /// A client sends an ask to a server; the place is that of the new event. The ask is given back, shared with the
    /// history.
    pub fn ask(&mut self, number: u32, ask: Ask) -> Result<(Place, Shared<Ask>), NoMemory>
        requires may { MayAsk (world_in R.digest_of self.old) self.old.history number ask }
        ensures place { IfOk result (λ r. r.0 ≡ suc (length self.old.history)) }
        ensures shared { IfOk result (λ r. r.1 ≡ ask) }
        ensures history { OnOk result (self.new.history ≡ event.Ask number ask ∷ self.old.history) }
        ensures legal { Legal (world_in R.digest_of self.new) self.new.history }
        ensures replays { AllReplay (world_in R.digest_of self.new) self.new.history }
        ensures same { IsSameRun self.old self.new }
        ensures no_memory { OnErr result (self.new ≡ self.old) }
    {
        every_legal_history_replays();
        self.events.reserve(1)?;
        self.served.reserve(1)?;
        let ask = Shared::new(self.alloc, ask)?;
        let shared = ask.try_clone(self.alloc)?;
        let event = Event::Ask { number, ask };
        let place = join(&mut self.events, &mut self.served, event);
        Ok((place, shared))
    }

    /// The server of the Ask at a place replies to it; the place is that of the new event.
    pub fn serve(&mut self, ask_place: Place) -> Result<(Place, Reply), NoMemory>
        requires asked { IsSome (asked_at ask_place self.old.history) }
        requires waits { is_served ask_place self.old.history ≡ false }
        ensures place { IfOk result (λ r. r.0 ≡ suc (length self.old.history)) }
        ensures served { IfOk result (λ r.
            IsServedNext (world_in R.digest_of self.old) self.old.history self.new.history
            ask_place r.1) }
        ensures legal { Legal (world_in R.digest_of self.new) self.new.history }
        ensures replays { AllReplay (world_in R.digest_of self.new) self.new.history }
        ensures same { IsSameRun self.old self.new }
        ensures no_memory { OnErr result (self.new ≡ self.old) }
    {
        every_legal_history_replays();
        self.events.reserve(1)?;
        self.served.reserve(1)?;
        let (number, ask) = ask_at(self.events.as_slice(), ask_place);
        let reply = serve_at(&mut self.servers, number, ask_place, ask);
        let told = copy_reply(self.alloc, &reply)?;
        let event = Event::Serve {
            number,
            ask_place,
            reply,
        };
        let place = join(&mut self.events, &mut self.served, event);
        self.served[ask_place as usize - 1] = true;
        Ok((place, told))
    }
}

/// The servers of a setup, of which none has served anything.
fn open_servers<R: IdRule>(
    alloc: Global,
    rule: R,
    setup: &Setup,
) -> Result<Vec<Server<R>>, NoMemory>
    requires { 1 ≤ setup.now.servers }
    ensures { IfOk result (λ servers. AreStanding (world_by (R.digest_of rule) setup.now) rule []
        (setup.now.servers + 1) servers.items) }
{
    let mut servers = Vec::new(alloc);
    for number in 0..setup.servers {
        servers.push(Server::new(alloc, rule, number, setup)?)?;
    }
    servers.push(Server::new(alloc, rule, setup.servers, setup)?)?;
    Ok(servers)
}

/// The Ask at a place, and the number of the server that it was made to.
fn ask_at(events: &[Event], ask_place: Place) -> (u32, &Ask)
    requires { IsSome (asked_at ask_place (reverse events.now)) }
    ensures { asked_at ask_place (reverse events.now) ≡ Some (posted_ask result.0 result.1.now) }
{
    let Some(event) = events.get(ask_place as usize - 1) else {
        unreachable!()
    };
    let Event::Ask { number, ask } = event else {
        unreachable!()
    };
    (*number, ask)
}

/// The reply of the server of this number.
fn serve_at<R: IdRule>(
    servers: &mut Vec<Server<R>>,
    number: u32,
    ask_place: Place,
    ask: &Ask,
) -> Reply
    requires there { number < vec_len servers.old }
    requires built { is_built ask.now.request ≡ true }
    requires short_chains { HasShortChains ask.now.request }
    ensures { (server : Standing R) → slice_get servers.old.items number ≡ Some server
        → server.number ≡ number
        → IsServedBy R.digest_of servers.old.items servers.new.items server ask_place ask.now result }
{
    servers[number as usize].serve(ask_place, ask)
}

/// A copy of a reply; only one that tells of no change may want memory for it.
fn copy_reply(alloc: Global, given: &Reply) -> Result<Reply, NoMemory>
    ensures ok { IfOk result (λ copy. copy ≡ given.now) }
    ensures err { OnErr result (TellsOfNoChange given.now) }
{
    match given {
        Reply::Fine => Ok(Reply::Fine),
        Reply::Reserved(version) => Ok(Reply::Reserved(*version)),
        told => told.try_clone(alloc),
    }
}

/// Joins an event to those before it, for which there is room; no Serve names it yet.
fn join(events: &mut Vec<Event>, served: &mut Vec<bool>, event: Event) -> Place
    requires room { vec_len events.old < vec_capacity events.old }
    requires flag_room { vec_len served.old < vec_capacity served.old }
    ensures events { events.new.items ≡ events.old.items ++ event ∷ [] }
    ensures served { served.new.items ≡ served.old.items ++ false ∷ [] }
    ensures place { result ≡ length events.old.items + 1 }
{
    events.push_reserved(event);
    served.push_reserved(false);
    events.len() as Place
}
