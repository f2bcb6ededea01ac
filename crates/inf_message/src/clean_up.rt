//! Messages of clean-ups, which are made without taking memory.

ghost use Rattle.std.specs.Prelude.{◌≡◌, ◌<◌, ◌∷◌, ◌↔◌, [], length, slice_get, MatchOption, IsTrue};
ghost use Rattle.inf_message.specs.CleanUp.{numbers_of, request_of};
ghost use Rattle.inf_message.specs.Who.{to, to_each};

use crate::lift::Lift;
use crate::request::Request;
use crate::step::Message;
use crate::who::Who;
use inf_base::Id;
use std::marker::Model;

/// The servers that a step goes to.
#[derive(Clone, Copy, Drop)]
enum Target {
    One(u32),
    /// Each of so many.
    Each(u32),
}

impl Target {
    #[tactic(auto, using(crate::proofs::CleanUpFacts::counted))]
    fn size(&self) -> usize
        ensures { result ≡ length (numbers_of self.now) }
    {
        match self {
            Target::One(_) => 1,
            Target::Each(servers) => *servers as usize,
        }
    }

    /// The server at this index.
    #[tactic(auto, using(crate::proofs::CleanUpFacts::count_at, crate::proofs::CleanUpFacts::count_past, crate::proofs::CleanUpFacts::one_past))]
    fn number(&self, index: usize) -> Option<u32>
        ensures { result ≡ slice_get (numbers_of self.now) index }
    {
        match self {
            Target::One(number) if index == 0 => Some(*number),
            Target::Each(servers) if index < *servers as usize => Some(index as u32),
            _ => None,
        }
    }
}

/// One step of a clean-up: messages that are sent at once and hold no memory, the same to each of its servers.
#[derive(Drop)]
pub struct CleanUp {
    target: Target,
    lift: Lift,
}

impl Model for CleanUp {
    ghost use Rattle.std.specs.Prelude.{◌<◌, List, length};
    ghost use Rattle.inf_message.specs.declared.step.Message.{Message};
    ghost use Rattle.inf_message.specs.CleanUp.{numbers_of, step_of};

    ghost Value = { List Message };

    ghost view = { λ c. step_of c.target c.lift };

    ghost invariant = { λ c. 0 < length (numbers_of c.target) };
}

impl CleanUp {
    /// One message, to the server of this identifier.
    pub fn to(who: &Who, id: &Id, lift: Lift) -> Self
        ensures { result ≡ to who.now id.now (request_of lift) ∷ [] }
    {
        CleanUp {
            target: Target::One(who.server(id)),
            lift,
        }
    }

    /// The same message to each server.
    pub fn to_each(who: &Who, lift: Lift) -> Self
        ensures { result ≡ to_each who.now (request_of lift) }
    {
        CleanUp {
            target: Target::Each(who.servers()),
            lift,
        }
    }

    /// How many messages it has.
    #[tactic(auto, using(crate::proofs::CleanUpFacts::size_of))]
    pub fn size(&self) -> usize
        ensures size { result ≡ length self.now }
        ensures some { 0 < result }
    {
        self.target.size()
    }

    /// The message at this index, in the order of the servers.
    #[tactic(auto, using(crate::proofs::CleanUpFacts::message_at, crate::proofs::CleanUpFacts::message_past))]
    pub fn message(&self, index: usize) -> Option<Message>
        ensures { result ≡ slice_get self.now index }
    {
        let number = self.target.number(index)?;
        Some(Message {
            number,
            request: request(self.lift),
        })
    }
}

fn request(lift: Lift) -> Request
    ensures { result ≡ request_of lift }
{
    match lift {
        Lift::Cancel(dir) => Request::Cancel { dir },
        Lift::Drop(dir) => Request::Drop { dir },
        Lift::Unseal(dir) => Request::Unseal { dir },
        Lift::Forget(parent, dir) => Request::Forget { parent, dir },
    }
}

/// At most two steps, one after another.
#[derive(Drop)]
pub struct CleanUps {
    first: Option<CleanUp>,
    second: Option<CleanUp>,
}

impl Model for CleanUps {
    ghost use Rattle.std.specs.Prelude.{List};
    ghost use Rattle.inf_message.specs.declared.step.Message.{Message};
    ghost use Rattle.inf_message.specs.CleanUp.{in_order};

    ghost Value = { List (List Message) };

    ghost view = { λ c. in_order c.first c.second };
}

impl CleanUps {
    pub fn none() -> Self
        ensures { result ≡ [] }
    {
        CleanUps {
            first: None,
            second: None,
        }
    }

    pub fn one(first: CleanUp) -> Self
        ensures { result ≡ first ∷ [] }
    {
        CleanUps {
            first: Some(first),
            second: None,
        }
    }

    pub fn two(first: CleanUp, second: CleanUp) -> Self
        ensures { result ≡ first ∷ second ∷ [] }
    {
        CleanUps {
            first: Some(first),
            second: Some(second),
        }
    }

    pub fn is_empty(&self) -> bool
        ensures { IsTrue result ↔ (self.now ≡ []) }
    {
        self.first.is_none() && self.second.is_none()
    }

    /// The first of them, and what is behind it.
    pub fn take_first(self) -> Option<(CleanUp, CleanUps)>
        ensures { MatchOption result (self ≡ []) (λ taken. self ≡ taken.0 ∷ taken.1) }
    {
        let CleanUps { first, second } = self;
        match first {
            Some(first) => Some((
                first,
                CleanUps {
                    first: second,
                    second: None,
                },
            )),
            None => match second {
                Some(second) => Some((second, CleanUps::none())),
                None => None,
            },
        }
    }
}
