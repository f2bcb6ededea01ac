//! A run: the core, the clients, and the Asks that wait.

ghost use Rattle.std.specs.Prelude.{◌≡◌, ◌<◌, ◌≤◌, [], false, length, reverse, Some, None, IfOk, IfSome};
ghost use Rattle.inf_base.specs.declared.limits.TheConstants.{MOST_CALLS, MOST_CLIENTS};
ghost use Rattle.inf_base.specs.Setup.{call_count};
ghost use Rattle.inf_core.specs.Core.{IsSameRun, world_in};
ghost use Rattle.inf_duty.specs.World.{world_by};
ghost use Rattle.inf_laws_history.specs.Legal.{Legal};
ghost use Rattle.inf_message.specs.History.{trips_of};
ghost use Rattle.inf_sched.specs.Order.{results_in};
ghost use Rattle.inf_sched.specs.Run.{HasStepped, scene_of};
ghost use Rattle.inf_sched.specs.Scene.{MakesServe, calls_left, has_calls, has_ended, is_gone, number_in, opening};
ghost use Rattle.inf_sched.specs.Waiting.{IsWaiting, is_by, is_for, oldest};

use crate::ending::all_results;
use crate::opening::{open_clients, open_queues};
use crate::posting::Posting;
use crate::queue::Queue;
use crate::serving::serve;
use crate::stepping::{Stepped, let_ask};
use inf_base::{NoMemory, Setup};
use inf_birth::IdRule;
use inf_client::Client;
use inf_core::Core;
use inf_duty::{Outcome, Results};
use inf_message::Trip;
use std::alloc::Global;
use std::marker::Model;

/// A run of a script. Its parts stand in a box, so that handing a run on moves no more than a pointer.
#[derive(Drop)]
pub struct Run<R: IdRule> {
    parts: Box<Parts<R>>,
}

/// The core, the clients in their order, and the Asks that wait for each server and of each client.
#[derive(Drop)]
struct Parts<R: IdRule> {
    alloc: Global,
    core: Core<R>,
    clients: Vec<Client>,
    /// By number, the coordinator last.
    to_server: Vec<Queue>,
    by_client: Vec<Queue>,
}

impl<R: IdRule> Model for Run<R> {
    ghost use Rattle.inf_core.specs.Core.{world_in};
    ghost use Rattle.inf_sched.specs.Run.{IsKept, Playing, gone_of, playing};

    ghost Value = { Playing R };

    ghost view = { λ r. playing r.parts.value.core (gone_of r.parts.value.clients.items) };

    ghost invariant = { λ r. IsKept (world_in R.digest_of r.parts.value.core) r.parts.value.core.history
        r.parts.value.clients.items r.parts.value.to_server.items r.parts.value.by_client.items };
}

impl<R: IdRule> Run<R> {
    #[tactic(auto, using(crate::proofs::OpeningFacts::kept_opening, crate::proofs::OpeningFacts::opening_scene))]
    /// The run before anything has happened.
    pub fn new(alloc: Global, setup: Setup, rule: R) -> Result<Self, NoMemory>
        requires some_servers { 1 ≤ setup.servers }
        requires few_calls { call_count setup.clients ≤ MOST_CALLS }
        requires few_clients { length setup.clients ≤ MOST_CLIENTS }
        ensures core { IfOk result (λ run. run.core ≡ record { rule = rule; setup = setup; history = [] }) }
        ensures opening { IfOk result (λ run. scene_of run ≡ opening (world_by (R.digest_of rule) setup)) }
    {
        let clients = open_clients(alloc, &rule, &setup)?;
        let to_server = open_queues(alloc, setup.servers as usize + 1)?;
        let by_client = open_queues(alloc, setup.clients.len())?;
        let core = Core::new(alloc, setup, rule)?;
        let parts = Parts {
            alloc,
            core,
            clients,
            to_server,
            by_client,
        };
        Ok(Run {
            parts: Box::new(alloc, parts)?,
        })
    }

    /// Lets a client make its next ask, and tells whether it did anything.
    pub fn step(self, client: u32) -> Result<(Self, bool), NoMemory>
        requires there { client < length self.core.setup.clients }
        ensures step { IfOk result (λ r. HasStepped r.1 (world_in R.digest_of self.core) client
            (scene_of self) (scene_of r.0)) }
        ensures same { IfOk result (λ r. IsSameRun self.core r.0.core) }
    {
        let Run { mut parts } = self;
        let inner = parts.as_mut();
        match let_ask(
            inner.alloc,
            &mut inner.core,
            &mut inner.clients[client as usize],
            client,
        )? {
            Stepped::Asked(posting) => {
                inner.to_server[posting.number as usize].push(posting)?;
                inner.by_client[client as usize].push(posting)?;
                let run = Run { parts };
                Ok((run, true))
            }
            Stepped::GaveUp => {
                let run = Run { parts };
                Ok((run, true))
            }
            Stepped::Rested => {
                let run = Run { parts };
                Ok((run, false))
            }
        }
    }

    /// Serves an Ask that waits.
    pub fn serve(self, posting: Posting) -> Result<Self, NoMemory>
        requires waits { IsWaiting self.core.history posting }
        ensures served { IfOk result (λ run. MakesServe (world_in R.digest_of self.core) posting.number posting.place
            (scene_of self) (scene_of run)) }
        ensures same { IfOk result (λ run. IsSameRun self.core run.core) }
    {
        let Run { mut parts } = self;
        let inner = parts.as_mut();
        serve(
            inner.alloc,
            &mut inner.core,
            &mut inner.clients[posting.client as usize],
            posting,
        )?;
        Ok(Run { parts })
    }

    /// The oldest Ask that waits for a server.
    pub fn oldest_to(&mut self, number: u32) -> Option<Posting>
        requires there { number ≤ self.old.core.setup.servers }
        ensures oldest { result ≡ oldest (is_for number None) self.old.core.history }
        ensures waits { IfSome result (λ p. IsWaiting self.old.core.history p) }
        ensures unchanged { self.new ≡ self.old }
    {
        let inner = self.parts.as_mut();
        inner.to_server[number as usize].oldest(&inner.core)
    }

    /// The oldest Ask of a client that waits for a server.
    pub fn oldest_of(&mut self, number: u32, client: u32) -> Option<Posting>
        requires there { client < length self.old.core.setup.clients }
        ensures oldest { result ≡ oldest (is_for number (Some client)) self.old.core.history }
        ensures waits { IfSome result (λ p. IsWaiting self.old.core.history p) }
        ensures unchanged { self.new ≡ self.old }
    {
        let inner = self.parts.as_mut();
        inner.by_client[client as usize].oldest_to(&inner.core, number)
    }

    /// The oldest Ask of a client that waits.
    pub fn oldest_by(&mut self, client: u32) -> Option<Posting>
        requires there { client < length self.old.core.setup.clients }
        ensures oldest { result ≡ oldest (is_by client) self.old.core.history }
        ensures waits { IfSome result (λ p. IsWaiting self.old.core.history p) }
        ensures unchanged { self.new ≡ self.old }
    {
        let inner = self.parts.as_mut();
        inner.by_client[client as usize].oldest(&inner.core)
    }

    /// Whether the client's call of this number has ended.
    pub fn has_ended(&self, client: u32, number: u32) -> bool
        requires there { client < length self.now.core.setup.clients }
        ensures { result ≡ has_ended (world_in R.digest_of self.now.core) client number
            (scene_of self.now) }
    {
        let found = &self.parts.clients[client as usize];
        found.has_given_up() || number < found.number()
    }

    /// Whether the client gave up all that it had left.
    pub fn is_gone(&self, client: u32) -> bool
        requires there { client < length self.now.core.setup.clients }
        ensures { result ≡ is_gone (scene_of self.now) client }
    {
        self.parts.clients[client as usize].has_given_up()
    }

    /// The number of the client's call under way, or of the next one where none is.
    pub fn number(&self, client: u32) -> u32
        requires there { client < length self.now.core.setup.clients }
        requires here { is_gone (scene_of self.now) client ≡ false }
        ensures { result ≡ number_in (world_in R.digest_of self.now.core) (scene_of self.now) client }
    {
        self.parts.clients[client as usize].number()
    }

    /// How many calls the client has left.
    pub fn calls_left(&self, client: u32) -> usize
        requires there { client < length self.now.core.setup.clients }
        requires here { is_gone (scene_of self.now) client ≡ false }
        ensures { result ≡ calls_left (world_in R.digest_of self.now.core) (scene_of self.now) client }
    {
        self.parts.clients[client as usize].calls_left()
    }

    /// Whether the client has a call left.
    pub fn has_calls(&self, client: u32) -> bool
        requires there { client < length self.now.core.setup.clients }
        ensures { result ≡ has_calls (world_in R.digest_of self.now.core) (scene_of self.now) client }
    {
        if self.is_gone(client) {
            return false;
        }
        self.calls_left(client) > 0
    }

    /// The client's own Asks that were answered, each with its answer and both places, in the order of asking.
    pub fn trips(&self, client: u32) -> &[Trip]
        requires there { client < length self.now.core.setup.clients }
        ensures { result.now ≡ reverse (trips_of client self.now.core.history) }
    {
        self.parts.clients[client as usize].trips()
    }

    pub fn client_count(&self) -> u32
        requires { length self.now.core.setup.clients ≤ MOST_CLIENTS }
        ensures { result ≡ length self.now.core.setup.clients }
    {
        self.parts.clients.len() as u32
    }

    #[tactic(auto, using(crate::proofs::OpeningFacts::results_same))]
    /// The history, and one result for each call.
    pub fn into_outcome(self) -> Result<Outcome, NoMemory>
        ensures history { IfOk result (λ outcome. outcome.history ≡ reverse self.core.history) }
        ensures results { IfOk result (λ outcome. outcome.results
            ≡ results_in (world_in R.digest_of self.core) (scene_of self)) }
        ensures legal { IfOk result (λ outcome. Legal (world_in R.digest_of self.core) (reverse outcome.history)) }
    {
        let Run { parts } = self;
        let Parts {
            alloc,
            core,
            clients,
            ..
        } = Box::into_inner(parts);
        let results = all_results(alloc, clients)?;
        Ok(Outcome {
            history: core.into_history(),
            results: Results::new(results),
        })
    }
}
