//! Where a client stands in the attempt of a call.

ghost use Rattle.std.specs.Prelude.{◌≡◌, length, map, slice_get, IfOk};
ghost use Rattle.inf_duty.specs.Group.{group};
ghost use Rattle.inf_duty.specs.Standing.{stage_of};
ghost use Rattle.inf_message.specs.Who.{lookup_of};

use crate::flow::Flow;
use inf_base::{LookKey, LookKeys, NoMemory};
use inf_message::{CleanUp, CleanUps, Ending, Message, Who};
use std::alloc::Global;

/// Where a client stands in the attempt of a call: between two groups, what it asks for next.
#[derive(Drop)]
pub enum Standing {
    /// What is asked for next is to be settled, by what the attempt was told so far.
    Compose,
    /// Lookups of these keys, all of which are asked before one is waited for.
    Round(LookKeys),
    /// The messages of a flow's step.
    Act(Flow),
    /// Messages whose replies do not matter, step after step, and then the end.
    Winds(Ending, CleanUp, CleanUps),
}

impl Standing {
    /// How many messages the group has.
    pub fn group_size(&self, who: &Who) -> usize
        ensures { result ≡ length (group who.now (stage_of self.now)) }
    {
        let _ = who;
        match self {
            Standing::Compose => 0,
            Standing::Round(keys) => keys.len(),
            Standing::Act(flow) => flow.group_size(),
            Standing::Winds(_, first, _) => first.size(),
        }
    }

    /// The message of this index in the group, if there is one.
    pub fn message(
        &self,
        alloc: Global,
        who: &Who,
        index: usize,
    ) -> Result<Option<Message>, NoMemory>
        ensures { IfOk result (λ message. message ≡ slice_get (group who.now (stage_of self.now)) index) }
    {
        match self {
            Standing::Compose => Ok(None),
            Standing::Round(keys) => lookup_at(alloc, who, keys.as_slice(), index),
            Standing::Act(flow) => flow.message(alloc, who, index),
            Standing::Winds(_, first, _) => Ok(first.message(index)),
        }
    }
}

fn lookup_at(
    alloc: Global,
    who: &Who,
    keys: &[LookKey],
    index: usize,
) -> Result<Option<Message>, NoMemory>
    ensures { IfOk result (λ message. message ≡ slice_get (map (lookup_of who.now) keys.now) index) }
{
    match keys.get(index) {
        None => Ok(None),
        Some(key) => Ok(Some(who.lookup(alloc, key)?)),
    }
}
