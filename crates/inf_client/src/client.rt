//! A client of a run, which makes one call after another.

ghost use Rattle.std.specs.Prelude.{◌≡◌, ◌+◌, ◌<◌, ◌≤◌, ◌^◌, true, false, length, slice_get, Some, IfOk, OnOk};
ghost use Rattle.inf_base.specs.declared.limits.TheConstants.{MOST_CALLS};
ghost use Rattle.inf_base.specs.Setup.{call_count};
ghost use Rattle.inf_client.specs.AskLog.{IsLater, asked_log, no_asks, told_log};
ghost use Rattle.inf_client.specs.Client.{Steps, asks_left, client_with, trips_of_client};
ghost use Rattle.inf_duty.specs.Outcome.{results_of};
ghost use Rattle.inf_duty.specs.Start.{start};
ghost use Rattle.inf_duty.specs.World.{world_by};
ghost use Rattle.inf_duty.specs.ClientState.{placed};
ghost use Rattle.inf_duty.specs.Turn.{served};
ghost use Rattle.inf_message.specs.History.{posted_ask, told_reply};

use crate::ask_log::AskLog;
use crate::group::{Group, next_group};
use inf_base::{NoMemory, Place, Setup, Shared};
use inf_birth::IdRule;
use inf_duty::{ClientState, ClientStep};
use inf_message::{Ask, CallResult, Reply, Trip};
use std::alloc::Global;
use std::collections::VecDeque;
use std::marker::Model;

/// How many trips of a call find room before a client's list of them has to grow. Most calls make no more: up to two
/// lookups, and a message or two.
const USUAL_TRIPS: usize = 4;

/// A client of a run. What winds a call up takes no memory.
#[derive(Drop)]
pub struct Client {
    state: ClientState,
    log: AskLog,
    /// The asks of the group that are still to be handed out, each with the server that it is for; none of a step that
    /// winds a call up, whose asks are made again when it is their turn.
    outbox: VecDeque<(u32, Ask)>,
    has_given_up: bool,
    /// Whether an ask was handed out that has no place yet.
    is_handed: bool,
}

impl Model for Client {
    ghost use Rattle.inf_client.specs.Client.{Client};
    ghost use Rattle.inf_client.specs.Group.{IsKept};

    ghost Value = { Client };

    ghost view = { λ c. record { state = c.state; gone = c.has_given_up; log = c.log; handed = c.is_handed } };

    ghost invariant = { λ c. IsKept c.state c.has_given_up c.log c.is_handed c.outbox.items };
}

impl Client {
    /// The client of this number before its first call.
    pub fn new<R: IdRule>(
        alloc: Global,
        rule: &R,
        setup: &Setup,
        client: u32,
    ) -> Result<Self, NoMemory>
        requires some_servers { 1 ≤ setup.now.servers }
        requires few_calls { call_count setup.now.clients ≤ MOST_CALLS }
        ensures { IfOk result (λ made. made
            ≡ client_with (start (world_by (R.digest_of rule.now) setup.now) client) false no_asks false) }
    {
        let state = ClientState::start(alloc, rule, setup, client)?;
        let trips = state.calls_left().saturating_mul(USUAL_TRIPS);
        Ok(Client {
            state,
            log: AskLog::with_capacity(alloc, trips)?,
            outbox: VecDeque::new(alloc),
            has_given_up: false,
            is_handed: false,
        })
    }

    /// What to do next. Where memory is wanting for a group, its call is given up, and the next one tried.
    #[tactic(auto, using(crate::proofs::ClientFacts::rests_gone, crate::proofs::ClientFacts::rests_askless, crate::proofs::ClientFacts::full, crate::proofs::ClientFacts::room_ready))]
    pub fn step<R: IdRule>(&mut self, alloc: Global, rule: &R) -> ClientStep
        requires { self.old.handed ≡ false }
        ensures { Steps (R.digest_of rule.now) self.old result self.new }
    {
        if self.has_given_up {
            return self.state.rest();
        }
        if let Some((number, ask)) = self.outbox.pop_front() {
            self.is_handed = true;
            return ClientStep::Ask(number, ask);
        }
        if !self.state.is_between() {
            let sent = self.state.sent_size();
            if self.state.is_winding() && sent < self.state.group_size() {
                let (number, ask) = self.state.winding_ask(sent);
                self.is_handed = true;
                return ClientStep::Ask(number, ask);
            }
            return self.state.rest();
        }
        if !self.state.has_ask() {
            return self.state.rest();
        }
        match next_group(alloc, rule, &mut self.state, &mut self.log) {
            Some(group) => {
                let Group {
                    number,
                    ask,
                    others,
                } = group;
                self.outbox = others;
                self.is_handed = true;
                ClientStep::Ask(number, ask)
            }
            None => {
                self.has_given_up = true;
                self.state.rest()
            }
        }
    }

    /// The ask that was handed out was made, and stands at this place; the client keeps it, shared with the history.
    #[tactic(auto, using(crate::proofs::ClientFacts::room_some, crate::proofs::ClientFacts::kept_asked))]
    pub fn asked(&mut self, place: Place, number: u32, ask: Shared<Ask>)
        requires handed { self.old.handed ≡ true }
        requires first { slice_get (asks_left self.old.state) 0 ≡ Some (posted_ask number ask) }
        requires later { IsLater place self.old.log.asks }
        requires room { self.old.state.counts.messages + 1 < 2 ^ 64 }
        ensures { self.new ≡ client_with (placed place self.old.state) false
            (asked_log place (posted_ask number ask) self.old.log) false }
    {
        self.state.place_ask(place);
        self.log.asked(place, number, ask);
        self.is_handed = false;
    }

    /// The Ask at a place was served. A client that lacks memory for what it is told cannot go on: the run is over.
    #[tactic(auto, using(crate::proofs::ToldFacts::kept_told, crate::proofs::LostFacts::kept_lost))]
    pub fn told<R: IdRule>(
        &mut self,
        alloc: Global,
        rule: &R,
        ask_place: Place,
        serve_place: Place,
        reply: Reply,
    ) -> Result<(), NoMemory>
        ensures { OnOk result (self.new
            ≡ client_with
            (served (R.digest_of rule.now) ask_place (told_reply serve_place reply) self.old.state)
            self.old.gone (told_log ask_place (told_reply serve_place reply) self.old.log) self.old.handed) }
    {
        self.state
            .told(alloc, rule, ask_place, serve_place, &reply)?;
        answer(&mut self.log, ask_place, serve_place, reply);
        Ok(())
    }

    /// Its own Asks that were answered, each with its answer and both places, in the order of asking.
    pub fn trips(&self) -> &[Trip]
        ensures { result.now ≡ trips_of_client self.now }
    {
        self.log.trips()
    }

    /// The results of the calls that have ended.
    pub fn results(&self) -> &[CallResult]
        ensures { result.now ≡ self.now.state.results }
    {
        self.state.results()
    }

    /// Whether the client gave up all that it had left.
    pub fn has_given_up(&self) -> bool
        ensures { result ≡ self.now.gone }
    {
        let _ = &self.state;
        self.has_given_up
    }

    /// The number of the call under way, or of the next one where none is.
    pub fn number(&self) -> u32
        ensures { result ≡ self.now.state.number }
    {
        self.state.number()
    }

    /// How many calls are left, the one under way among them.
    pub fn calls_left(&self) -> usize
        ensures { result ≡ length self.now.state.left }
    {
        self.state.calls_left()
    }

    /// One result for each call; those that have not ended are unanswered.
    pub fn into_results(self) -> Vec<CallResult>
        ensures { result.items ≡ results_of self.state }
    {
        let Client { state, .. } = self;
        state.into_results()
    }
}

/// Keeps the answer of the Ask at this place, where one waits.
#[tactic(auto, using(crate::proofs::ToldFacts::told_nothing))]
fn answer(log: &mut AskLog, ask_place: Place, serve_place: Place, reply: Reply)
    ensures { log.new ≡ told_log ask_place (told_reply serve_place reply) log.old }
{
    if log.waits_at(ask_place) {
        log.told(ask_place, serve_place, reply);
    }
}
