//! A flow under way: its messages one after another, and what is cleaned up where one does not succeed.

ghost use Rattle.std.specs.Prelude.{◌≡◌, length, slice_get, IfOk};
ghost use Rattle.inf_duty.specs.Flow.{after_act, after_reply, clean_up, messages_of};
ghost use Rattle.inf_message.specs.Who.{Who as Whom};

use inf_base::{NoMemory, Place};
use inf_birth::IdRule;
use inf_flow_dir::DirFlow;
use inf_flow_file::FileFlow;
use inf_message::{CleanUps, Message, Reply, Sending, Turn, Who, again, deciding};
use std::alloc::Global;

/// The step of a call that is next, or waited for, by the kind of its flow.
#[derive(Drop)]
pub enum Flow {
    File(FileFlow),
    Dir(DirFlow),
}

impl Flow {
    /// How many messages the step has, whoever sends it.
    pub fn group_size(&self) -> usize
        ensures { (who : Whom) → length (messages_of who self.now) ≡ result }
    {
        match self {
            Flow::File(step) => step.group_size(),
            Flow::Dir(step) => step.group_size(),
        }
    }

    /// The message of this index in the step, if there is one.
    pub fn message(
        &self,
        alloc: Global,
        who: &Who,
        index: usize,
    ) -> Result<Option<Message>, NoMemory>
        ensures { IfOk result (λ made. made ≡ slice_get (messages_of who.now self.now) index) }
    {
        match self {
            Flow::File(step) => step.message(alloc, who, index),
            Flow::Dir(step) => step.message(alloc, who, index),
        }
    }

    /// What is cleaned up where the next step does not succeed, or is not taken for want of memory.
    pub fn clean_up(&self, who: &Who) -> CleanUps
        ensures { result ≡ clean_up who.now self.now }
    {
        match self {
            Flow::File(_) => CleanUps::none(),
            Flow::Dir(step) => step.clean_up(who),
        }
    }

    /// What comes of the reply that decides the step.
    pub fn next<R: IdRule>(
        self,
        alloc: Global,
        rule: &R,
        who: &Who,
        ask_place: Place,
        serve_place: Place,
        reply: &Reply,
    ) -> Result<Turn<Flow>, NoMemory>
        ensures { IfOk result (λ turn.
            turn ≡ after_reply (R.digest_of rule.now) who.now self ask_place serve_place reply.now) }
    {
        match self {
            Flow::File(step) => match step.next(serve_place, reply) {
                Turn::GoesOn(next) => Ok(Turn::GoesOn(Flow::File(next))),
                Turn::WindsUp(ending, more) => Ok(Turn::WindsUp(ending, more)),
            },
            Flow::Dir(step) => {
                match step.next(alloc, rule, who, ask_place, serve_place, reply)? {
                    Turn::GoesOn(next) => Ok(Turn::GoesOn(Flow::Dir(next))),
                    Turn::WindsUp(ending, more) => Ok(Turn::WindsUp(ending, more)),
                }
            }
        }
    }

    /// What comes of the step, once its messages were answered.
    #[tactic(auto, using(crate::proofs::FlowFacts::after_decided, crate::proofs::FlowFacts::after_untold, crate::proofs::FlowFacts::after_none))]
    pub fn after<R: IdRule>(
        self,
        alloc: Global,
        rule: &R,
        who: &Who,
        sent: &[Sending],
    ) -> Result<Turn<Flow>, NoMemory>
        ensures { IfOk result (λ turn. turn ≡ after_act (R.digest_of rule.now) who.now self sent.now) }
    {
        let Some(sending) = deciding(sent) else {
            return Ok(again());
        };
        match sending.told() {
            None => Ok(again()),
            Some(told) => {
                let (place, reply) = (told.serve_place(), told.reply());
                self.next(alloc, rule, who, sending.place(), place, reply)
            }
        }
    }
}
