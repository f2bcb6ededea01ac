//! A client that is driven: what it is to do next, and the steps that it takes.

ghost use Rattle.std.specs.Prelude.{ℕ, List, ◌≡◌, ◌↔◌, ◌+◌, ◌<◌, ◌≤◌, ◌^◌, [], drop, is_some, length, map, slice_get, true, false, None, Some, IfOk, IsTrue};
ghost use Rattle.inf_base.specs.declared.id.Id.{Id};
ghost use Rattle.inf_duty.specs.ClientStep.{IsQuiet, is_ask, next_as};
ghost use Rattle.inf_duty.specs.Course.{next_course};
ghost use Rattle.inf_duty.specs.Duty.{asks, given_up, has_ask, may_give_up, next_step};
ghost use Rattle.inf_duty.specs.Kept.{unserved};
ghost use Rattle.inf_duty.specs.Messages.{is_compose, is_winding, post_of};
ghost use Rattle.inf_duty.specs.Outcome.{come_to, results_of, so_far};
ghost use Rattle.inf_duty.specs.ClientState.{compose, placed, result_of};
ghost use Rattle.inf_duty.specs.Group.{composed, group};
ghost use Rattle.inf_message.specs.Sent.{is_wanting};

use super::ClientState;
use crate::client_step::ClientStep;
use crate::course::has_course;
use crate::group::{has_message, is_compose, is_round, is_winding};
use crate::standing::Standing;
use inf_base::{Answer, CallRef, NoMemory, Place};
use inf_message::{Ask, CallResult, Ending, Message, Sending, is_one_wanting};
use std::alloc::Global;
use std::mem;

impl ClientState {
    pub fn client(&self) -> u32
        ensures { result ≡ self.now.who.client }
    {
        self.who.client()
    }

    /// Whether each call has ended.
    pub fn is_over(&self) -> bool
        ensures { IsTrue result ↔ (self.now.left ≡ []) }
    {
        self.left.is_empty()
    }

    /// The results of the calls that have ended.
    pub fn results(&self) -> &[CallResult]
        ensures { result.now ≡ self.now.results }
    {
        self.results.as_slice()
    }

    /// How many calls are left, the one under way among them.
    pub fn calls_left(&self) -> usize
        ensures { result ≡ length self.now.left }
    {
        self.left.len()
    }

    /// Whether the call under way is of a kind and a path that is built. It is where something is settled for it, or its
    /// course was made ready.
    #[tactic(auto, using(crate::proofs::StepFacts::course_there, crate::proofs::StepFacts::course_ready))]
    fn has_course(&self) -> bool
        ensures { result ≡ is_some (next_course self.now.left) }
    {
        if !is_compose(&self.stands) {
            return true;
        }
        if self.course.is_some() {
            return true;
        }
        match self.first_call() {
            Some(call) => has_course(call),
            None => false,
        }
    }

    /// Whether there is an ask to make for the call under way, between two groups: its kind and its next message are
    /// built.
    #[tactic(auto, using(crate::proofs::StepFacts::asks_there))]
    pub fn has_ask(&self) -> bool
        ensures value { result ≡ has_ask self.now }
        ensures asking { (digest : List ℕ → Id) → self.now.sent ≡ [] → result ≡ true
            → is_ask (next_step (composed digest self.now)) ≡ true }
    {
        self.has_course() && has_message(&self.stands)
    }

    /// Whether memory may be wanting for the next ask, and its call be given up then.
    pub(super) fn may_give_up(&self) -> bool
        ensures { result ≡ may_give_up self.now }
    {
        self.has_ask() && !is_winding(&self.stands)
    }

    /// Whether nothing is left of the call under way but the messages that wind it up.
    pub fn is_winding(&self) -> bool
        ensures { result ≡ is_winding self.now.stage }
    {
        is_winding(&self.stands)
    }

    /// The ask that sends this message, and the server that it is for.
    pub(super) fn posted(&self, message: Message) -> (u32, Ask)
        ensures { result ≡ post_of self.now message }
    {
        let Message { number, request } = message;
        let ask = Ask {
            from: CallRef {
                client: self.who.client(),
                number: self.number,
            },
            caller: self.who.caller(),
            request,
        };
        (number, ask)
    }

    /// How many messages the group has that is settled.
    pub fn group_size(&self) -> usize
        ensures { result ≡ length (group self.now.who self.now.stage) }
    {
        self.stands.group_size(&self.who)
    }

    /// The ask of this index in the group that is settled, and the server that it is for.
    #[tactic(auto, using(crate::proofs::PostFacts::there_is, crate::proofs::PostFacts::post_at))]
    pub fn ask(&self, alloc: Global, index: usize) -> Result<(u32, Ask), NoMemory>
        requires there { index < length (group self.now.who self.now.stage) }
        ensures { IfOk result (λ post. slice_get (map (post_of self.now) (group self.now.who self.now.stage)) index
            ≡ Some post) }
    {
        let Some(message) = self.stands.message(alloc, &self.who, index)? else {
            unreachable!()
        };
        Ok(self.posted(message))
    }

    /// The asks of the group that is settled behind the first, in their order, each with the server that it is for.
    #[tactic(auto, using(crate::proofs::PostFacts::behind_more, crate::proofs::PostFacts::behind_all, crate::proofs::PostFacts::none_behind))]
    pub fn asks_behind(&self, alloc: Global) -> Result<Vec<(u32, Ask)>, NoMemory>
        requires some { 0 < length (group self.now.who self.now.stage) }
        ensures { IfOk result (λ posts. posts.items
            ≡ drop 1 (map (post_of self.now) (group self.now.who self.now.stage))) }
    {
        let count = self.group_size();
        let mut posts = Vec::with_capacity(alloc, count - 1)?;
        for index in 1..count {
            posts.push(self.ask(alloc, index)?)?;
        }
        Ok(posts)
    }

    /// The ask of this index in the step that winds the call up, and the server that it is for. Takes no memory.
    #[tactic(auto, using(crate::proofs::PostFacts::there_is, crate::proofs::PostFacts::post_at, crate::proofs::StepFacts::winding_next))]
    pub fn winding_ask(&self, index: usize) -> (u32, Ask)
        requires winding { is_winding self.now.stage ≡ true }
        requires there { index < length (group self.now.who self.now.stage) }
        ensures posts { slice_get (map (post_of self.now) (group self.now.who self.now.stage)) index ≡ Some result }
        ensures next { index ≡ length self.now.sent → next_step self.now ≡ asks result.0 result.1 }
    {
        match &self.stands {
            Standing::Winds(_, first, _) => match first.message(index) {
                Some(message) => self.posted(message),
                None => unreachable!(),
            },
            _ => unreachable!(),
        }
    }

    /// What a client does next that has no ask to make.
    #[tactic(auto, using(crate::proofs::StepFacts::over_next, crate::proofs::StepFacts::waits_inside, crate::proofs::StepFacts::waits_askless))]
    pub fn rest(&self) -> ClientStep
        ensures quiet { IsQuiet result }
        ensures inside { length (group self.now.who self.now.stage) ≤ length self.now.sent
            → next_step self.now ≡ next_as result }
        ensures askless { (digest : List ℕ → Id) → has_ask self.now ≡ false
            → next_step (composed digest self.now) ≡ next_as result }
    {
        if self.left.is_empty() {
            ClientStep::Finished
        } else {
            ClientStep::Waiting
        }
    }

    /// An Ask more, which takes no memory.
    #[tactic(auto, using(crate::proofs::FewFacts::group_fits, crate::proofs::RecordFacts::open_placed))]
    pub fn place_ask(&mut self, place: Place)
        requires next { length self.old.sent < length (group self.old.who self.old.stage) }
        requires room { self.old.counts.messages + 1 < 2 ^ 64 }
        ensures { self.new ≡ placed place self.old }
    {
        let begins_round = is_round(&self.stands) && self.sent.is_empty();
        self.sent.push_reserved(Sending::new(place));
        self.counts.count_ask(place, begins_round);
    }

    /// The call under way ends for want of memory, once what its next step would have changed is cleaned up.
    #[tactic(auto, using(crate::proofs::TurnFacts::turned_afresh, crate::proofs::FewFacts::clean_few))]
    pub fn give_up_call(&mut self)
        requires call { 0 < length self.old.left }
        requires going { is_winding self.old.stage ≡ false }
        ensures { self.new ≡ given_up self.old }
    {
        let ending = Ending::Answers(Answer::NoMemory, None);
        self.sent.clear();
        match mem::replace(&mut self.stands, Standing::Compose) {
            Standing::Act(flow) => {
                let clean_ups = flow.clean_up(&self.who);
                self.wind(ending, clean_ups);
            }
            Standing::Compose => self.end(Answer::NoMemory, None),
            Standing::Round(_) => self.end(Answer::NoMemory, None),
            Standing::Winds(_, _, _) => unreachable!(),
        }
    }

    /// Only a call that has ended has a last Serve.
    fn forget_serves(&mut self)
        ensures { self.new ≡ unserved self.old }
    {
        self.counts.forget_serves();
    }

    /// What a round that is not over has come to.
    fn round_so_far(&self) -> Answer
        ensures { result ≡ come_to (is_wanting self.now.sent) }
    {
        if is_one_wanting(self.sent.as_slice()) {
            Answer::NoMemory
        } else {
            Answer::Unanswered
        }
    }

    /// What the call under way has come to.
    fn take_so_far(&mut self) -> (Answer, Option<Place>)
        ensures so_far { so_far self.old.stage self.old
            ≡ result_of result.0 result.1 None self.old }
        ensures after { self.new ≡ record self.old { stage = compose; sent = [] } }
    {
        let of_round = self.round_so_far();
        self.sent.clear();
        match mem::replace(&mut self.stands, Standing::Compose) {
            Standing::Compose => (Answer::Unanswered, None),
            Standing::Round(_) => (of_round, None),
            Standing::Act(_) => (Answer::Unanswered, None),
            Standing::Winds(ending, _, _) => match ending {
                Ending::Answers(answer, place) => (answer, place),
                Ending::Retries => (Answer::Unanswered, None),
            },
        }
    }

    /// The call under way ends with what it has come to.
    #[tactic(auto, using(crate::proofs::ResultFacts::ended_one))]
    fn end_so_far(&mut self)
        requires { self.old.counts.last ≡ None }
        ensures results { results_of self.new ≡ results_of self.old }
        ensures stage { 0 < length self.new.left → self.new.stage ≡ compose }
        ensures last { self.new.counts.last ≡ None }
    {
        if self.is_over() {
            return;
        }
        let (answer, place) = self.take_so_far();
        self.end(answer, place);
    }

    /// One result for each call; those that nothing has ended yet are unanswered.
    #[tactic(auto, using(crate::proofs::ResultFacts::unserved_results, crate::proofs::ResultFacts::ended_next, crate::proofs::ResultFacts::all_results))]
    pub fn into_results(self) -> Vec<CallResult>
        ensures { result.items ≡ results_of self }
    {
        let mut state = self;
        state.forget_serves();
        state.end_so_far();
        while !state.is_over() {
            state.end(Answer::Unanswered, None);
        }
        let ClientState { results, .. } = state;
        results
    }
}
