//! How an ask finds a client: within a group, or between two, where calls may be given up before it.

ghost use Rattle.std.specs.Prelude.{ℕ, List, ◌≡◌, ◌≢◌, ◌+◌, ◌<◌, ◌^◌, [], is_some, length, true, false, Some, IfOk, OnOk, OnErr};
ghost use Rattle.inf_base.specs.declared.id.Id.{Id};
ghost use Rattle.inf_duty.specs.Duty.{asked, at_call, begun, found_at, lifts, may_give_up};
ghost use Rattle.inf_duty.specs.Messages.{is_compose};
ghost use Rattle.inf_duty.specs.ClientState.{act, placed, round};
ghost use Rattle.inf_duty.specs.Course.{next_course};
ghost use Rattle.inf_duty.specs.Group.{composed};

use super::ClientState;
use crate::course::Course;
use crate::flow::Flow;
use crate::group::{is_compose, is_round};
use crate::standing::Standing;
use inf_base::{LookKeys, NoMemory, Place};
use inf_birth::IdRule;
use inf_message::{Ask, Request, Sending};
use inf_resolve::Resolved;
use std::alloc::Global;

/// Whether a request is one of a clean-up.
fn lifts(request: &Request) -> bool
    ensures { result ≡ lifts request.now }
{
    match request {
        Request::Cancel { .. } => true,
        Request::Drop { .. } => true,
        Request::Unseal { .. } => true,
        _ => false,
    }
}

impl ClientState {
    /// The course of the call under way, if it is of a kind and a path that is built.
    fn take_course(&mut self, alloc: Global) -> Result<Option<Course>, NoMemory>
        requires stage { is_compose self.old.stage ≡ true }
        ensures course { IfOk result (λ course. course ≡ next_course self.old.left) }
        ensures same { self.new ≡ self.old }
    {
        let ready = self.course.take();
        if ready.is_some() {
            return Ok(ready);
        }
        match self.first_call() {
            None => Ok(None),
            Some(call) => Course::of(alloc, call),
        }
    }

    /// A round of these keys is next, whose Asks and answers find room then.
    fn open_round(&mut self, keys: LookKeys, course: Course) -> Result<(), NoMemory>
        requires between { self.old.sent ≡ [] }
        requires stage { is_compose self.old.stage ≡ true }
        requires course { next_course self.old.left ≡ Some course }
        requires asks { 0 < length keys }
        ensures ok { OnOk result (self.new ≡ record self.old { stage = round keys }) }
        ensures err { OnErr result (self.new ≡ self.old) }
    {
        self.known.reserve(keys.len())?;
        self.sent.reserve(keys.len())?;
        self.course = Some(course);
        self.stands = Standing::Round(keys);
        Ok(())
    }

    /// The first step of a flow is next.
    fn open_flow(&mut self, flow: Flow)
        requires between { self.old.sent ≡ [] }
        requires stage { is_compose self.old.stage ≡ true }
        requires course { is_some (next_course self.old.left) ≡ true }
        ensures { self.new ≡ record self.old { stage = act flow } }
    {
        self.stands = Standing::Act(flow);
    }

    /// What is asked for next is settled, where nothing is yet.
    #[tactic(auto, using(crate::proofs::BegunFacts::stays_composed, crate::proofs::StepFacts::composed_settled))]
    pub fn take_up<R: IdRule>(&mut self, alloc: Global, rule: &R) -> Result<(), NoMemory>
        requires between { self.old.sent ≡ [] }
        ensures ok { OnOk result (self.new ≡ composed (R.digest_of rule.now) self.old) }
        ensures settled { OnOk result (is_some (next_course self.old.left) ≡ true → is_compose self.new.stage ≡ false) }
        ensures err { OnErr result (self.new ≡ self.old) }
    {
        if !is_compose(&self.stands) {
            return Ok(());
        }
        let Some(course) = self.take_course(alloc)? else {
            return Ok(());
        };
        let root = self.who.root();
        match course
            .looked
            .resolve(alloc, rule, &root, self.known.as_slice())?
        {
            Resolved::Asks(keys) => self.open_round(keys, course)?,
            Resolved::Leads(old, _) => self.open_flow(course.deed.begin(old)),
            Resolved::IsBusy(_, _) => unreachable!(),
            Resolved::Lacks => unreachable!(),
        }
        Ok(())
    }

    /// Gives up the calls before the one of this number, up to one that may not be given up, or that cleans up first.
    #[tactic(auto, using(crate::proofs::BegunFacts::gives_up, crate::proofs::BegunFacts::gives_up_less, crate::proofs::BegunFacts::given_sent, crate::proofs::BegunFacts::may_left, crate::proofs::BegunFacts::may_goes))]
    fn pass_to(&mut self, number: u32, request: &Request)
        requires { self.old.sent ≡ [] }
        ensures way { (digest : List ℕ → Id) → at_call digest number request.now self.new.left self.new
            ≡ at_call digest number request.now self.old.left self.old }
        ensures between { self.new.sent ≡ [] }
        ensures stopped { self.new.number ≢ number → may_give_up self.new ≡ false }
    {
        let _ = request;
        while self.number != number && self.may_give_up() {
            self.give_up_call();
        }
    }

    /// The ask finds the client at its call.
    #[tactic(auto, using(crate::proofs::BegunFacts::found_lifts, crate::proofs::BegunFacts::found_idle, crate::proofs::BegunFacts::found_other, crate::proofs::BegunFacts::given_sent, crate::proofs::BegunFacts::may_left, crate::proofs::BegunFacts::may_goes))]
    fn find<R: IdRule>(
        &mut self,
        alloc: Global,
        rule: &R,
        request: &Request,
    ) -> Result<(), NoMemory>
        requires between { self.old.sent ≡ [] }
        ensures ok { OnOk result (self.new ≡ found_at (R.digest_of rule.now) request.now self.old) }
        ensures between { OnOk result (self.new.sent ≡ []) }
    {
        if !lifts(request) {
            return self.take_up(alloc, rule);
        }
        if self.may_give_up() {
            self.give_up_call();
        }
        Ok(())
    }

    /// The ask finds the client as it is within a group; between two it may show that calls were given up.
    #[tactic(auto, using(crate::proofs::BegunFacts::begun_between, crate::proofs::BegunFacts::begun_inside, crate::proofs::BegunFacts::stays_at, crate::proofs::BegunFacts::at_nothing, crate::proofs::BegunFacts::at_found))]
    pub(super) fn begin<R: IdRule>(
        &mut self,
        alloc: Global,
        rule: &R,
        ask: &Ask,
    ) -> Result<(), NoMemory>
        ensures ok { OnOk result (self.new
            ≡ begun (R.digest_of rule.now) ask.now self.old.sent self.old) }
    {
        if !self.is_between() {
            return Ok(());
        }
        self.pass_to(ask.from.number, &ask.request);
        if self.is_over() || self.number != ask.from.number {
            return Ok(());
        }
        self.find(alloc, rule, &ask.request)
    }

    /// An Ask more, which may take memory.
    #[tactic(auto, using(crate::proofs::RecordFacts::open_placed))]
    fn place(&mut self, place: Place) -> Result<(), NoMemory>
        requires { self.old.counts.messages + 1 < 2 ^ 64 }
        ensures { OnOk result (self.new ≡ placed place self.old) }
    {
        let begins_round = is_round(&self.stands) && self.sent.is_empty();
        self.sent.push(Sending::new(place))?;
        self.counts.count_ask(place, begins_round);
        Ok(())
    }

    /// The client has made an Ask at this place. Where memory is wanting it may have given up calls before that one.
    #[tactic(auto, using(crate::proofs::OwnFacts::begun_took))]
    pub(crate) fn asked<R: IdRule>(
        &mut self,
        alloc: Global,
        rule: &R,
        place: Place,
        ask: &Ask,
    ) -> Result<(), NoMemory>
        requires { self.old.counts.messages + 1 < 2 ^ 64 }
        ensures { OnOk result (self.new ≡ asked (R.digest_of rule.now) place ask.now self.old) }
    {
        self.begin(alloc, rule, ask)?;
        self.place(place)
    }
}
