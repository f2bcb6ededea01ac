//! The groups of Asks that a client is to make: where memory is wanting for one, its call is given up.

ghost use Rattle.std.specs.Prelude.{◌≡◌, ◌≤◌, ◌<◌, true, false, [], length, None, IfOk, IfSome, OnErr};
ghost use Rattle.inf_client.specs.AskLog.{AskLog};
ghost use Rattle.inf_client.specs.Group.{IsFound, IsPassed, IsReadied};
ghost use Rattle.inf_client.specs.Room.{room_between};
ghost use Rattle.inf_duty.specs.ClientStep.{is_ask};
ghost use Rattle.inf_duty.specs.Duty.{begun, given_up, has_ask, next_step};
ghost use Rattle.inf_duty.specs.Messages.{is_winding};
ghost use Rattle.inf_duty.specs.Outcome.{all_given_up};
ghost use Rattle.inf_duty.specs.Group.{composed, group};

use crate::ask_log::AskLog;
use inf_base::NoMemory;
use inf_birth::IdRule;
use inf_duty::ClientState;
use inf_message::Ask;
use std::alloc::Global;
use std::collections::VecDeque;

/// The asks of a group: the first, to the server of this number, and those behind it that took memory.
#[derive(Drop)]
pub(crate) struct Group {
    pub(crate) number: u32,
    pub(crate) ask: Ask,
    pub(crate) others: VecDeque<(u32, Ask)>,
}

/// The asks of the step that winds the call up. Those behind the first are made again when it is their turn. Takes no
/// memory.
fn winding_group(alloc: Global, state: &ClientState) -> Group
    requires winding { is_winding state.now.stage ≡ true }
    requires between { state.now.sent ≡ [] }
    requires some { 0 < length (group state.now.who state.now.stage) }
    ensures { (log : AskLog) → room_between state.now.who state.now.stage ≤ log.room
        → IsReadied result.number result.ask result.others.items state.now log log }
{
    let (number, ask) = state.winding_ask(0);
    Group {
        number,
        ask,
        others: VecDeque::new(alloc),
    }
}

/// The asks of the group that the call under way has come to, with room for what may follow it where memory is wanting.
#[tactic(auto, using(crate::proofs::GroupFacts::some_asked, crate::proofs::GroupFacts::whole_readied, crate::proofs::FoundFacts::composed_found, crate::proofs::FoundFacts::composed_goes, crate::proofs::FoundFacts::given_composed))]
fn whole_group<R: IdRule>(
    alloc: Global,
    rule: &R,
    state: &mut ClientState,
    log: &mut AskLog,
) -> Result<Group, NoMemory>
    requires between { state.old.sent ≡ [] }
    requires asking { is_ask (next_step (composed (R.digest_of rule.now) state.old)) ≡ true }
    requires going { is_winding state.old.stage ≡ false }
    requires room { room_between state.old.who state.old.stage ≤ log.old.room }
    ensures readied { IfOk result (λ group. IsReadied group.number group.ask group.others.items
        state.new log.old log.new) }
    ensures found { IfOk result (λ group. IsFound (R.digest_of rule.now) group.ask state.old state.new) }
    ensures err_call { OnErr result (given_up state.new ≡ given_up state.old) }
    ensures err_going { OnErr result (is_winding state.new.stage ≡ false) }
    ensures err_left { OnErr result (state.new.left ≡ state.old.left) }
    ensures err_log { OnErr result (log.new ≡ log.old) }
{
    state.take_up(alloc, rule)?;
    let (number, ask) = state.ask(alloc, 0)?;
    let others = VecDeque::from_vec(state.asks_behind(alloc)?);
    log.reserve(others.len() + 3)?;
    Ok(Group {
        number,
        ask,
        others,
    })
}

/// The next group of the call under way; where memory is wanting for it, the clean-up behind the call. None where the
/// call was given up, and nothing was to be cleaned up.
#[tactic(auto, using(crate::proofs::GroupFacts::winding_some, crate::proofs::FoundFacts::given_some, crate::proofs::FoundFacts::winding_found, crate::proofs::FoundFacts::given_up_found, crate::proofs::FoundFacts::given_room, crate::proofs::FoundFacts::given_between, crate::proofs::FoundFacts::passed))]
fn attempt<R: IdRule>(
    alloc: Global,
    rule: &R,
    state: &mut ClientState,
    log: &mut AskLog,
) -> Option<Group>
    requires between { state.old.sent ≡ [] }
    requires asks { has_ask state.old ≡ true }
    requires asking { is_ask (next_step (composed (R.digest_of rule.now) state.old)) ≡ true }
    requires room { room_between state.old.who state.old.stage ≤ log.old.room }
    ensures readied { IfSome result (λ group. IsReadied group.number group.ask group.others.items
        state.new log.old log.new) }
    ensures found { IfSome result (λ group. IsFound (R.digest_of rule.now) group.ask state.old state.new) }
    ensures passed { result ≡ None → IsPassed state.old state.new }
    ensures same { result ≡ None → log.new ≡ log.old }
{
    if state.is_winding() {
        return Some(winding_group(alloc, state));
    }
    if let Ok(group) = whole_group(alloc, rule, state, log) {
        return Some(group);
    }
    state.give_up_call();
    if state.is_winding() {
        return Some(winding_group(alloc, state));
    }
    None
}

/// The next group, of the first call for which there is memory; the calls before it are given up. There is a call that
/// asks.
#[tactic(auto, using(crate::proofs::WayFacts::way_starts, crate::proofs::WayFacts::way_goes, crate::proofs::WayFacts::way_found, crate::proofs::WayFacts::way_own, crate::proofs::WayFacts::way_ends, crate::proofs::WayFacts::passed_room, crate::proofs::WayFacts::shorter))]
pub(crate) fn next_group<R: IdRule>(
    alloc: Global,
    rule: &R,
    state: &mut ClientState,
    log: &mut AskLog,
) -> Option<Group>
    requires between { state.old.sent ≡ [] }
    requires asks { has_ask state.old ≡ true }
    requires asking { is_ask (next_step (composed (R.digest_of rule.now) state.old)) ≡ true }
    requires room { room_between state.old.who state.old.stage ≤ log.old.room }
    ensures readied { IfSome result (λ group. IsReadied group.number group.ask group.others.items
        state.new log.old log.new) }
    ensures begun { IfSome result (λ group. state.new
        ≡ begun (R.digest_of rule.now) group.ask state.old.sent state.old) }
    ensures own { IfSome result (λ group. group.ask.from.client ≡ state.old.who.client) }
    ensures gave_up { result ≡ None → state.new
        ≡ all_given_up state.old.left state.old }
    ensures rests { result ≡ None → has_ask state.new ≡ false }
    ensures still_between { result ≡ None → state.new.sent ≡ [] }
    ensures still_room { result ≡ None → room_between state.new.who state.new.stage ≤ log.new.room }
    ensures same { result ≡ None → log.new ≡ log.old }
{
    loop {
        if let Some(group) = attempt(alloc, rule, state, log) {
            return Some(group);
        }
        if !state.has_ask() {
            return None;
        }
    }
}
