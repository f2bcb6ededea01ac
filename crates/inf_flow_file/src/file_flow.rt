//! The flow of a call that one message decides.

ghost use Rattle.std.specs.Prelude.{◌≡◌, ℕ, length, slice_get, IfOk};
ghost use Rattle.inf_flow_file.specs.FileFlow.{after_reply, group, message_of};
ghost use Rattle.inf_flow_file.specs.declared.file_flow.FileFlow.TheVariants as file;
ghost use Rattle.inf_message.specs.Who.{Who as Whom};

use inf_base::{Answer, Chain, NoMemory, Place, TryClone};
use inf_message::{CleanUps, Message, Op, Reply, Request, Turn, Who, done, ends, failed};
use std::alloc::Global;

/// The group that is next, or waited for.
#[derive(Drop)]
pub enum FileFlow {
    /// The one message of a call that needs no more, to the directory at the end of the chain.
    Finishes(Chain, Op),
}

impl FileFlow {
    /// How many messages the group has, whoever sends it.
    pub fn group_size(&self) -> usize
        ensures { (who : Whom) → length (group who self.now) ≡ result }
    {
        let _ = self;
        1
    }

    /// The message of this index in the group, if there is one.
    pub fn message(
        &self,
        alloc: Global,
        who: &Who,
        index: usize,
    ) -> Result<Option<Message>, NoMemory>
        ensures { IfOk result (λ made. made ≡ slice_get (group who.now self.now) index) }
    {
        if index > 0 {
            return Ok(None);
        }
        Ok(Some(self.only(alloc, who)?))
    }

    fn only(&self, alloc: Global, who: &Who) -> Result<Message, NoMemory>
        ensures { IfOk result (λ made. made ≡ message_of who.now self.now) }
    {
        match self {
            FileFlow::Finishes(chain, op) => Ok(Message {
                number: who.server(&who.last_id(chain.as_slice())),
                request: Request::Finish {
                    chain: chain.try_clone(alloc)?,
                    op: op.try_clone(alloc)?,
                },
            }),
        }
    }

    /// What comes of the reply that decides the group.
    pub fn next(self, place: Place, reply: &Reply) -> Turn<FileFlow>
        ensures { (ask_place : ℕ) → result ≡ after_reply self ask_place place reply.now }
    {
        match self {
            FileFlow::Finishes(chain, op) => after_finish(chain, op, place, reply),
        }
    }
}

fn after_finish(chain: Chain, op: Op, place: Place, reply: &Reply) -> Turn<FileFlow>
    ensures { (ask_place : ℕ) → result ≡ after_reply (file.Finishes chain op) ask_place place reply.now }
{
    let _ = chain;
    match op {
        Op::Create(_, _) => match reply {
            Reply::Fine => done(place, CleanUps::none()),
            _ => failed(CleanUps::none(), place, reply),
        },
        Op::Stat(_) => match reply {
            Reply::Stat { kind, meta } => {
                let answer = Answer::Stat {
                    kind: *kind,
                    meta: *meta,
                };
                ends(answer, place)
            }
            _ => failed(CleanUps::none(), place, reply),
        },
        _ => failed(CleanUps::none(), place, reply),
    }
}
