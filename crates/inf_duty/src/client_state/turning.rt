//! What a client makes of what it is told.

ghost use Rattle.std.specs.Prelude.{ℕ, List, ◌≡◌, ◌==◌, ◌&&◌, ◌<◌, [], true, false, length, is_some, IfOk, OnOk, OnErr};
ghost use Rattle.inf_base.specs.declared.id.Id.{Id};
ghost use Rattle.inf_duty.specs.Messages.{has_one_message};
ghost use Rattle.inf_message.specs.declared.turn.Turn.TheVariants as turn;
ghost use Rattle.inf_duty.specs.ClientState.{act, begins_again, compose, finished, is_round, wound};
ghost use Rattle.inf_duty.specs.Course.{next_course};
ghost use Rattle.inf_duty.specs.Turn.{IsLost, StandsAtFirst, StandsStill, is_complete, is_lone, recorded, served, settled, turn_at, turned};
ghost use Rattle.inf_duty.specs.Kept.{AreFew, WindsFew};
ghost use Rattle.inf_message.specs.Heard.{heard, light};
ghost use Rattle.inf_message.specs.Sent.{has_place};
ghost use Rattle.inf_message.specs.Turn.{turn_as};
ghost use Rattle.inf_message.specs.History.{told_reply};

use super::ClientState;
use crate::flow::Flow;
use crate::group::is_round;
use crate::learning::{learn, verdict};
use crate::recording::{record_answer, record_light};
use crate::standing::Standing;
use inf_base::{Answer, NoMemory, Place};
use inf_birth::IdRule;
use inf_message::{CleanUps, Ending, Reply, Turn, are_told, has_place, is_one_wanting};
use inf_resolve::Verdict;
use std::alloc::Global;
use std::mem;

impl ClientState {
    /// The next attempt at the call.
    fn begin_again(&mut self)
        ensures { self.new ≡ begins_again self.old }
    {
        self.stands = Standing::Compose;
        self.known.clear();
        self.sent.clear();
        self.counts.begin_again();
    }

    /// The call has come to its end, or the attempt.
    fn finish(&mut self, ending: Ending)
        requires { 0 < length self.old.left }
        ensures { self.new ≡ finished ending self.old }
    {
        match ending {
            Ending::Answers(answer, place) => self.end(answer, place),
            Ending::Retries => self.begin_again(),
        }
    }

    /// The steps that are left, and then the end.
    pub(super) fn wind(&mut self, ending: Ending, more: CleanUps)
        requires call { is_some (next_course self.old.left) ≡ true }
        requires few { AreFew self.old.who.servers more }
        ensures { self.new ≡ wound ending more self.old }
    {
        match more.take_first() {
            None => self.finish(ending),
            Some((first, rest)) => {
                self.stands = Standing::Winds(ending, first, rest);
                self.sent.clear();
            }
        }
    }

    /// The next step of the attempt.
    fn go_on(&mut self, flow: Flow)
        requires call { is_some (next_course self.old.left) ≡ true }
        ensures { self.new ≡ turned (turn.GoesOn (act flow)) self.old }
    {
        self.stands = Standing::Act(flow);
        self.sent.clear();
    }

    /// What comes of a turn.
    fn follow(&mut self, turn: Turn<Flow>)
        requires call { is_some (next_course self.old.left) ≡ true }
        requires few { WindsFew self.old.who.servers turn }
        ensures { self.new ≡ turned (turn_as act turn) self.old }
    {
        match turn {
            Turn::GoesOn(flow) => self.go_on(flow),
            Turn::WindsUp(ending, more) => self.wind(ending, more),
        }
    }

    /// What comes of the answer to the one message of a group that is no round.
    #[tactic(auto, using(crate::proofs::TurnFacts::alone_turn, crate::proofs::FewFacts::reply_few))]
    fn take_answer<R: IdRule>(
        &mut self,
        alloc: Global,
        rule: &R,
        ask_place: Place,
        serve_place: Place,
        reply: &Reply,
    ) -> Result<Turn<Flow>, NoMemory>
        requires alone { length self.old.sent ≡ 1 }
        requires here { has_place ask_place self.old.sent ≡ true }
        requires stage { has_one_message self.old.who self.old.stage ≡ true }
        ensures few { IfOk result (λ turn. WindsFew self.old.who.servers turn) }
        ensures turn { IfOk result (λ turn. turn_as act turn
            ≡ turn_at (R.digest_of rule.now) (recorded ask_place (told_reply serve_place reply.now) self.old)
            self.old.stage) }
        ensures after { self.new ≡ record self.old { stage = compose; sent = [] } }
        ensures call { is_some (next_course self.old.left) ≡ true }
    {
        self.sent.clear();
        match mem::replace(&mut self.stands, Standing::Compose) {
            Standing::Act(flow) => {
                flow.next(alloc, rule, &self.who, ask_place, serve_place, reply)
            }
            Standing::Winds(ending, _, rest) => Ok(Turn::WindsUp(ending, rest)),
            _ => unreachable!(),
        }
    }

    /// Whether a group of one message, and no round, waits for its answer.
    fn is_alone(&self) -> bool
        ensures { result ≡ is_lone self.now }
    {
        !is_round(&self.stands) && self.group_size() == 1 && self.sent.len() == 1
    }

    fn is_complete(&self) -> bool
        ensures { result ≡ is_complete self.now }
    {
        self.sent.len() == self.group_size() && are_told(self.sent.as_slice())
    }

    /// Keeps the answer of a lookup.
    fn record_lookup(
        &mut self,
        alloc: Global,
        ask_place: Place,
        serve_place: Place,
        reply: &Reply,
    ) -> Result<(), NoMemory>
        requires { is_round self.old.stage ≡ true }
        ensures ok { OnOk result (
            self.new ≡ recorded ask_place (told_reply serve_place (heard reply.now)) self.old) }
        ensures err { OnErr result (StandsStill self.old self.new) }
    {
        record_answer(alloc, &mut self.sent, ask_place, serve_place, reply)?;
        self.counts.count_serve(serve_place);
        Ok(())
    }

    /// Keeps the answer of a message that was sent with others.
    fn record_other(&mut self, ask_place: Place, serve_place: Place, reply: &Reply)
        requires stage { is_round self.old.stage ≡ false }
        requires others { is_lone self.old ≡ false }
        ensures { self.new ≡ recorded ask_place (told_reply serve_place (light reply.now)) self.old }
    {
        self.counts.count_serve(serve_place);
        record_light(&mut self.sent, ask_place, serve_place, reply);
    }

    /// The answer to the one message of a group that is no round ends the group.
    #[tactic(auto, using(crate::proofs::TurnFacts::alone_ends))]
    fn end_alone<R: IdRule>(
        &mut self,
        alloc: Global,
        rule: &R,
        ask_place: Place,
        serve_place: Place,
        reply: &Reply,
    ) -> Result<(), NoMemory>
        requires alone { length self.old.sent ≡ 1 }
        requires here { has_place ask_place self.old.sent ≡ true }
        requires stage { has_one_message self.old.who self.old.stage ≡ true }
        ensures ok { OnOk result (self.new
            ≡ served (R.digest_of rule.now) ask_place (told_reply serve_place reply.now) self.old) }
        ensures err { OnErr result (StandsAtFirst self.old self.new) }
    {
        let turn = self.take_answer(alloc, rule, ask_place, serve_place, reply)?;
        self.counts.count_serve(serve_place);
        self.follow(turn);
        Ok(())
    }

    /// A round that is over joins what is known; or want of memory, or a change in the way, ends the call.
    fn end_round(&mut self)
        requires { is_round self.old.stage ≡ true }
        ensures { (digest : List ℕ → Id) → self.new ≡ settled digest true self.old }
    {
        let is_wanting = is_one_wanting(self.sent.as_slice());
        if is_wanting {
            self.end(Answer::NoMemory, None);
            return;
        }
        let Standing::Round(keys) = mem::replace(&mut self.stands, Standing::Compose) else {
            unreachable!()
        };
        learn(&mut self.known, keys, &mut self.sent);
        self.sent.clear();
        match verdict(&self.course, self.known.as_slice()) {
            Verdict::GoesOn => {}
            Verdict::IsBusy(by, place) => {
                self.known.clear();
                self.end(Answer::Again(by), Some(place));
            }
            Verdict::Lacks => {
                self.known.clear();
                self.begin_again();
            }
        }
    }

    /// What comes of the answers to several messages that are no round.
    #[tactic(auto, using(crate::proofs::TurnFacts::over_is_settled, crate::proofs::FewFacts::act_few))]
    fn take_answers<R: IdRule>(&mut self, alloc: Global, rule: &R) -> Result<Turn<Flow>, NoMemory>
        requires some { 0 < length self.old.sent }
        requires complete { is_complete self.old ≡ true }
        requires stage { is_round self.old.stage ≡ false }
        ensures turn { IfOk result (λ turn. turn_as act turn ≡ turn_at (R.digest_of rule.now) self.old self.old.stage) }
        ensures few { IfOk result (λ turn. WindsFew self.old.who.servers turn) }
        ensures after { self.new ≡ record self.old { stage = compose; sent = [] } }
        ensures call { is_some (next_course self.old.left) ≡ true }
    {
        let turn = match mem::replace(&mut self.stands, Standing::Compose) {
            Standing::Act(flow) => flow.after(alloc, rule, &self.who, self.sent.as_slice()),
            Standing::Winds(ending, _, rest) => Ok(Turn::WindsUp(ending, rest)),
            _ => unreachable!(),
        };
        self.sent.clear();
        turn
    }

    /// The answers to several messages that are no round end the group.
    fn end_step<R: IdRule>(&mut self, alloc: Global, rule: &R) -> Result<(), NoMemory>
        requires some { 0 < length self.old.sent }
        requires complete { is_complete self.old ≡ true }
        requires stage { is_round self.old.stage ≡ false }
        ensures ok { OnOk result (self.new ≡ settled (R.digest_of rule.now) true self.old) }
        ensures err { OnErr result (StandsAtFirst self.old self.new) }
    {
        let turn = self.take_answers(alloc, rule)?;
        self.follow(turn);
        Ok(())
    }

    /// The Ask at a place was served. Only an Ask of the present group is waited for. A client that lacks memory for
    /// what it is told cannot go on.
    #[tactic(auto, using(crate::proofs::TurnFacts::some_sent, crate::proofs::TurnFacts::lookup_told, crate::proofs::TurnFacts::other_told))]
    pub fn told<R: IdRule>(
        &mut self,
        alloc: Global,
        rule: &R,
        ask_place: Place,
        serve_place: Place,
        reply: &Reply,
    ) -> Result<(), NoMemory>
        ensures ok { OnOk result (self.new
            ≡ served (R.digest_of rule.now) ask_place (told_reply serve_place reply.now) self.old) }
        ensures err { OnErr result (IsLost self.old self.new) }
    {
        if !has_place(self.sent.as_slice(), ask_place) {
            return Ok(());
        }
        if is_round(&self.stands) {
            self.record_lookup(alloc, ask_place, serve_place, reply)?;
            if self.is_complete() {
                self.end_round();
            }
            return Ok(());
        }
        if self.is_alone() {
            self.end_alone(alloc, rule, ask_place, serve_place, reply)?;
            return Ok(());
        }
        self.record_other(ask_place, serve_place, reply);
        if self.is_complete() {
            self.end_step(alloc, rule)?;
        }
        Ok(())
    }
}
