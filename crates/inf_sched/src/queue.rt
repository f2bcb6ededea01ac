//! Queues of Asks that wait to be served.

ghost use Rattle.std.specs.Prelude.{◌≡◌, ◌+◌, ◌<◌, ◌^◌, ◌&&◌, ◌∷◌, ◌++◌, [], slice_get, OnOk, OnErr, IsSome, All};
ghost use Rattle.std.specs.List.{find};
ghost use Rattle.inf_message.specs.History.{is_served};
ghost use Rattle.inf_sched.specs.Waiting.{IsFrontLeft, IsWithin, first_of, is_open, is_to};

use crate::posting::Posting;
use inf_base::NoMemory;
use inf_birth::IdRule;
use inf_core::Core;
use std::alloc::Global;
use std::collections::VecDeque;
use std::marker::Model;

/// Asks in the order of their places. Some may have been served since they joined; these leave when they come to the
/// front.
#[derive(Drop)]
pub struct Queue {
    postings: VecDeque<Posting>,
}

impl Model for Queue {
    ghost use Rattle.std.specs.Prelude.{List};
    ghost use Rattle.inf_sched.specs.declared.posting.Posting.{Posting};

    ghost Value = { List Posting };

    ghost view = { λ q. q.postings.items };
}

impl Queue {
    pub fn new(alloc: Global) -> Self
        ensures { result ≡ [] }
    {
        Queue {
            postings: VecDeque::new(alloc),
        }
    }

    /// Joins the newest Ask.
    pub fn push(&mut self, posting: Posting) -> Result<(), NoMemory>
        ensures ok { OnOk result (self.new ≡ self.old ++ posting ∷ []) }
        ensures err { OnErr result (self.new ≡ self.old) }
    {
        self.postings.push_back(posting)?;
        Ok(())
    }

    fn front(&self) -> Option<Posting>
        ensures { result ≡ first_of self.now }
    {
        self.postings.front().copied()
    }

    #[tactic(auto, using(crate::proofs::QueueFacts::front_starts, crate::proofs::QueueFacts::front_found, crate::proofs::QueueFacts::front_within, crate::proofs::QueueFacts::front_some, crate::proofs::QueueFacts::none_found))]
    /// The oldest Ask that waits. Those before it, which were served, leave.
    pub fn oldest<R: IdRule>(&mut self, core: &Core<R>) -> Option<Posting>
        requires within { All (IsWithin core.now.history) self.old }
        ensures oldest { result ≡ find (is_open core.now.history) self.old }
        ensures left { IsFrontLeft core.now.history self.old self.new }
    {
        while let Some(posting) = self.front() {
            if !is_served(core, posting) {
                return Some(posting);
            }
            let _ = self.postings.pop_front();
        }
        None
    }

    fn at(&self, index: usize) -> Option<Posting>
        ensures value { result ≡ slice_get self.now index }
        ensures fits { IsSome result → index + 1 < 2 ^ 64 }
    {
        let within = index < self.postings.len();
        let found = self.postings.get(index).copied();
        prove!(within || found.is_none());
        found
    }

    /// The oldest Ask that waits for the server of this number. Those in front that were served leave, so that this
    /// looks no further than at what a client has asked since.
    pub fn oldest_to<R: IdRule>(&mut self, core: &Core<R>, number: u32) -> Option<Posting>
        requires within { All (IsWithin core.now.history) self.old }
        ensures oldest { result ≡ find (λ p. is_to number p && is_open core.now.history p) self.old }
        ensures left { IsFrontLeft core.now.history self.old self.new }
    {
        let _ = self.oldest(core);
        self.find_to(core, number)
    }

    #[tactic(auto, using(crate::proofs::QueueFacts::got_within, crate::proofs::QueueFacts::got_before))]
    fn find_to<R: IdRule>(&self, core: &Core<R>, number: u32) -> Option<Posting>
        requires within { All (IsWithin core.now.history) self.now }
        ensures { result ≡ find (λ p. is_to number p && is_open core.now.history p) self.now }
    {
        let mut index = 0;
        while let Some(posting) = self.at(index) {
            if posting.number != number {
                index += 1;
                continue;
            }
            if !is_served(core, posting) {
                return Some(posting);
            }
            index += 1;
        }
        None
    }
}

fn is_served<R: IdRule>(core: &Core<R>, posting: Posting) -> bool
    requires { IsWithin core.now.history posting }
    ensures { result ≡ is_served posting.place core.now.history }
{
    core.is_served(posting.place)
}
