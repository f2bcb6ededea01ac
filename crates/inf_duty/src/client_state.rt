//! A client: the call under way, what it asked for it and was told, and the results so far.

ghost use Rattle.std.specs.Prelude.{◌≡◌, ◌+◌, ◌<◌, ◌≤◌, ◌↔◌, [], length, slice_get, IfOk, IsTrue};
ghost use Rattle.std.specs.Option.{option_copied};
ghost use Rattle.inf_base.specs.declared.limits.TheConstants.{MOST_CALLS};
ghost use Rattle.inf_base.specs.Setup.{call_count};
ghost use Rattle.inf_duty.specs.Kept.{ended_result};
ghost use Rattle.inf_duty.specs.Start.{start};
ghost use Rattle.inf_duty.specs.World.{world_by};
ghost use Rattle.inf_duty.specs.ClientState.{ended, idle};

mod allowing;
mod asking;
mod step;
mod turning;

use crate::calls_left::CallsLeft;
use crate::course::Course;
use crate::standing::Standing;
use crate::tally::Tally;
use inf_base::{
    Answer, Call, CallRef, Caller, Calls, ClientLine, NoMemory, Place, Sequence, Setup, TryClone,
};
use inf_birth::IdRule;
use inf_message::{CallResult, Sending, Who};
use inf_resolve::Known;
use std::alloc::Global;
use std::marker::Model;

/// A client of a script, which asks for one call after another.
#[derive(Drop)]
pub struct ClientState {
    who: Who,
    number: u32,
    left: CallsLeft,
    stands: Standing,
    /// The course of the call under way, once it was made ready.
    course: Option<Course>,
    known: Vec<Known>,
    sent: Vec<Sending>,
    counts: Tally,
    results: Vec<CallResult>,
}

impl Model for ClientState {
    ghost use Rattle.std.specs.Prelude.{vec_len, vec_capacity};
    ghost use Rattle.inf_duty.specs.Kept.{IsKept};
    ghost use Rattle.inf_duty.specs.Standing.{stage_of};
    ghost use Rattle.inf_duty.specs.ClientState.{ClientState};

    ghost Value = { ClientState };

    ghost view = { λ c. record {
      who = c.who;
      number = c.number;
      left = c.left;
      stage = stage_of c.stands;
      known = c.known.items;
      sent = c.sent.items;
      counts = c.counts;
      results = c.results.items;
    } };

    ghost invariant = { λ c. IsKept c.who c.number c.left c.stands c.course c.known.items (vec_capacity c.known)
        c.sent.items (vec_capacity c.sent) (vec_len c.results) (vec_capacity c.results) };
}

impl ClientState {
    /// The client of this number before its first Ask. A client that the setup does not have calls nothing.
    pub fn start<R: IdRule>(
        alloc: Global,
        rule: &R,
        setup: &Setup,
        client: u32,
    ) -> Result<Self, NoMemory>
        requires some_servers { 1 ≤ setup.now.servers }
        requires few_calls { call_count setup.now.clients ≤ MOST_CALLS }
        ensures { IfOk result (λ made.
            made ≡ start (world_by (R.digest_of rule.now) setup.now) client) }
    {
        // The root's identifier is the digest of the empty message.
        let root = rule.digest(&[]);
        match line_of(setup, client) {
            Some(line) => ClientState::idle(
                alloc,
                Who::new(client, line.caller, setup.servers, root),
                line.calls.try_clone(alloc)?,
            ),
            None => ClientState::idle(
                alloc,
                Who::new(client, NOBODY, setup.servers, root),
                Calls::new(alloc, Sequence::new(Vec::new(alloc)))?,
            ),
        }
    }

    fn idle(alloc: Global, who: Who, calls: Calls) -> Result<Self, NoMemory>
        requires { length calls ≤ MOST_CALLS }
        ensures { IfOk result (λ made. made ≡ idle who calls) }
    {
        let sent = Vec::with_capacity(alloc, who.servers() as usize)?;
        let results = Vec::with_capacity(alloc, calls.len())?;
        Ok(ClientState {
            who,
            number: 1,
            left: CallsLeft::new(calls),
            stands: Standing::Compose,
            course: None,
            known: Vec::new(alloc),
            sent,
            counts: Tally::new(),
            results,
        })
    }

    /// The result of the call under way, were it to end so.
    fn result_of(&self, answer: Answer, place: Option<Place>) -> CallResult
        ensures { result ≡ ended_result answer place self.now }
    {
        CallResult {
            call: CallRef {
                client: self.who.client(),
                number: self.number,
            },
            answer,
            place,
            first: self.counts.first(),
            last: self.counts.last(),
            attempts: self.counts.attempts(),
            rounds: self.counts.rounds(),
            messages: self.counts.messages(),
        }
    }

    /// The call under way ends with this answer, and the next one is under way.
    #[tactic(auto, using(crate::proofs::LeftFacts::one_less))]
    fn end(&mut self, answer: Answer, place: Option<Place>)
        requires { 0 < length self.old.left }
        ensures { self.new ≡ ended answer place self.old }
    {
        let result = self.result_of(answer, place);
        self.results.push_reserved(result);
        self.left.pass();
        self.number += 1;
        self.stands = Standing::Compose;
        self.course = None;
        self.known.clear();
        self.sent.clear();
        self.counts = Tally::new();
    }

    /// The number of the call under way, from 1.
    pub fn number(&self) -> u32
        ensures number { result ≡ self.now.number }
        ensures numbered { self.now.number + length self.now.left ≤ MOST_CALLS + 1 }
    {
        let _ = &self.sent;
        self.number
    }

    fn first_call(&self) -> Option<&Call>
        ensures { option_copied result ≡ slice_get self.now.left 0 }
    {
        self.left.first()
    }

    /// Whether it has asked for nothing of its group.
    pub fn is_between(&self) -> bool
        ensures { IsTrue result ↔ (self.now.sent ≡ []) }
    {
        self.sent.is_empty()
    }

    /// How many messages of its group it has asked.
    pub fn sent_size(&self) -> usize
        ensures { result ≡ length self.now.sent }
    {
        self.sent.len()
    }
}

/// Whom a client calls for that the setup does not have.
const NOBODY: Caller = Caller { uid: 0, gid: 0 };

fn line_of(setup: &Setup, client: u32) -> Option<&ClientLine>
    ensures { option_copied result ≡ slice_get setup.now.clients client }
{
    setup.clients.as_slice().get(client as usize)
}
