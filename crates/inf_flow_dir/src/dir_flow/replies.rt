//! What comes of the replies to the messages of a flow.

ghost use Rattle.std.specs.Prelude.{◌≡◌, ℕ, List, IfOk};
ghost use Rattle.inf_base.specs.declared.id.Id.{Id};
ghost use Rattle.inf_message.specs.declared.reply.Reply.TheVariants as reply;
ghost use Rattle.inf_message.specs.Who.{Who as Whom};
ghost use Rattle.inf_flow_dir.specs.declared.dir_flow.DirFlow.TheVariants as step;
ghost use Rattle.inf_flow_dir.specs.DirFlow.{after_reply};

use super::DirFlow;
use super::cleaning::{after_unlink, cancel, drops, unseal};
use inf_base::{Answer, Chain, DirRef, Name, NoMemory, Place, Shared, Triple, TryClone};
use inf_birth::{IdRule, identity_of};
use inf_message::{CleanUps, Ending, Reply, Turn, Who, done, failed};
use std::alloc::Global;

impl DirFlow {
    /// What comes of the reply that decides the group. Only a clash takes memory, for the two triples of its answer.
    pub fn next<R: IdRule>(
        self,
        alloc: Global,
        rule: &R,
        who: &Who,
        ask_place: Place,
        serve_place: Place,
        reply: &Reply,
    ) -> Result<Turn<DirFlow>, NoMemory>
        ensures { IfOk result (λ turn.
            turn ≡ after_reply (R.digest_of rule.now) who.now self ask_place serve_place reply.now) }
    {
        match self {
            DirFlow::Reserves { chain, name, mode } => Ok(after_reserve(
                rule,
                who,
                chain,
                name,
                mode,
                serve_place,
                reply,
            )),
            DirFlow::Makes {
                chain,
                name,
                mode,
                version,
                id,
            } => match reply {
                Reply::Fine => Ok(Turn::GoesOn(DirFlow::Links {
                    chain,
                    name,
                    mode,
                    version,
                    dir: DirRef {
                        id,
                        born: ask_place,
                    },
                })),
                Reply::Clash(kept) => clash(alloc, who, chain, name, version, kept, serve_place),
                _ => Ok(failed(
                    CleanUps::one(cancel(who, chain.as_slice())),
                    serve_place,
                    reply,
                )),
            },
            DirFlow::Links { chain, dir, .. } => {
                Ok(after_link(who, chain, dir, serve_place, reply))
            }
            DirFlow::Seals(chain) => Ok(after_seal(chain, serve_place, reply)),
            DirFlow::Unlinks(chain) => Ok(after_unlinking(who, chain, serve_place, reply)),
        }
    }
}

fn after_reserve<R: IdRule>(
    rule: &R,
    who: &Who,
    chain: Chain,
    name: Name,
    mode: u16,
    place: Place,
    reply: &Reply,
) -> Turn<DirFlow>
    ensures { (asked : ℕ) → result
        ≡ after_reply (R.digest_of rule.now) who.now (step.Reserves chain name mode) asked place reply.now }
{
    match reply {
        Reply::Reserved(version) => {
            let id = identity_of(rule, &who.last_id(chain.as_slice()), &name, *version);
            Turn::GoesOn(DirFlow::Makes {
                chain,
                name,
                mode,
                version: *version,
                id,
            })
        }
        _ => failed(CleanUps::none(), place, reply),
    }
}

/// Another triple has the same digest: the answer names both, and the name that was kept is given back.
fn clash(
    alloc: Global,
    who: &Who,
    chain: Chain,
    name: Name,
    version: u64,
    kept: &Shared<Triple>,
    place: Place,
) -> Result<Turn<DirFlow>, NoMemory>
    ensures { IfOk result (λ turn. (digest : List ℕ → Id) (mode asked : ℕ) (id : Id) → turn
        ≡ after_reply digest who.now (step.Makes chain name mode version id) asked place (reply.Clash kept.now)) }
{
    let clean_ups = CleanUps::one(cancel(who, chain.as_slice()));
    let own = Triple::Of {
        parent: who.last_id(chain.as_slice()),
        name,
        version,
    };
    let answer = Answer::IdClash(Shared::new(alloc, own)?, kept.try_clone(alloc)?);
    Ok(Turn::WindsUp(Ending::Answers(answer, Some(place)), clean_ups))
}

fn after_link(who: &Who, chain: Chain, dir: DirRef, place: Place, reply: &Reply) -> Turn<DirFlow>
    ensures { (digest : List ℕ → Id) (name : List ℕ) (mode version asked : ℕ) → result
        ≡ after_reply digest who.now (step.Links chain name mode version dir) asked place reply.now }
{
    match reply {
        Reply::Fine => done(place, CleanUps::none()),
        _ => {
            let clean_ups = CleanUps::two(drops(who, dir), cancel(who, chain.as_slice()));
            failed(clean_ups, place, reply)
        }
    }
}

fn after_seal(chain: Chain, place: Place, reply: &Reply) -> Turn<DirFlow>
    ensures { (digest : List ℕ → Id) (who : Whom) (asked : ℕ) → result
        ≡ after_reply digest who (step.Seals chain) asked place reply.now }
{
    match reply {
        Reply::Fine => Turn::GoesOn(DirFlow::Unlinks(chain)),
        _ => failed(CleanUps::none(), place, reply),
    }
}

fn after_unlinking(who: &Who, chain: Chain, place: Place, reply: &Reply) -> Turn<DirFlow>
    ensures { (digest : List ℕ → Id) (asked : ℕ) → result
        ≡ after_reply digest who.now (step.Unlinks chain) asked place reply.now }
{
    match reply {
        Reply::Fine => done(place, after_unlink(who, chain.as_slice())),
        _ => {
            let clean_ups = CleanUps::one(unseal(who, chain.as_slice()));
            failed(clean_ups, place, reply)
        }
    }
}
