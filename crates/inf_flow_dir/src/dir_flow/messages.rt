//! The messages of a flow.

ghost use Rattle.std.specs.Prelude.{◌≡◌, length, slice_get, IfOk};
ghost use Rattle.inf_message.specs.declared.request.Request.TheVariants as request;
ghost use Rattle.inf_message.specs.Chain.{way_to};
ghost use Rattle.inf_message.specs.Who.{Who as Whom, birth_of, last_id, to};
ghost use Rattle.inf_flow_dir.specs.DirFlow.{group, message_of};

use super::DirFlow;
use inf_base::{Chain, DirRef, Id, Name, NoMemory, Shared, Triple, TryClone};
use inf_message::{Message, Request, Who, way_to};
use std::alloc::Global;

impl DirFlow {
    /// How many messages the group has, whoever sends it.
    pub fn group_size(&self) -> usize
        ensures { (who : Whom) → length (group who self.now) ≡ result }
    {
        let _ = self;
        1
    }

    /// The message of this index in the group, if there is one.
    pub fn message(
        &self,
        alloc: Global,
        who: &Who,
        index: usize,
    ) -> Result<Option<Message>, NoMemory>
        ensures { IfOk result (λ made. made ≡ slice_get (group who.now self.now) index) }
    {
        if index > 0 {
            return Ok(None);
        }
        Ok(Some(self.only(alloc, who)?))
    }

    fn only(&self, alloc: Global, who: &Who) -> Result<Message, NoMemory>
        ensures { IfOk result (λ made. made ≡ message_of who.now self.now) }
    {
        match self {
            DirFlow::Reserves { chain, name, .. } => reserve(alloc, who, chain, name),
            DirFlow::Makes {
                chain,
                name,
                version,
                id,
                ..
            } => make(alloc, who, chain, name, *version, id),
            DirFlow::Links {
                chain,
                name,
                mode,
                dir,
                ..
            } => link(alloc, who, chain, name, *mode, dir),
            DirFlow::Seals(chain) => seal(alloc, who, chain),
            DirFlow::Unlinks(chain) => unlink(alloc, who, chain),
        }
    }
}

fn reserve(alloc: Global, who: &Who, chain: &Chain, name: &Name) -> Result<Message, NoMemory>
    ensures { IfOk result (λ made.
        made ≡ to who.now (last_id who.now chain.now) (request.Reserve chain.now name.now)) }
{
    Ok(Message {
        number: who.server(&who.last_id(chain.as_slice())),
        request: Request::Reserve {
            chain: chain.try_clone(alloc)?,
            name: name.try_clone(alloc)?,
        },
    })
}

/// The message that makes a directory: the triple is that which its identifier is the digest of.
fn make(
    alloc: Global,
    who: &Who,
    chain: &Chain,
    name: &Name,
    version: u64,
    id: &Id,
) -> Result<Message, NoMemory>
    ensures { IfOk result (λ made.
        made ≡ to who.now id.now (request.Make (birth_of who.now chain.now name.now version))) }
{
    let triple = Triple::Of {
        parent: who.last_id(chain.as_slice()),
        name: name.try_clone(alloc)?,
        version,
    };
    Ok(Message {
        number: who.server(id),
        request: Request::Make {
            triple: Shared::new(alloc, triple)?,
        },
    })
}

fn link(
    alloc: Global,
    who: &Who,
    chain: &Chain,
    name: &Name,
    mode: u16,
    dir: &DirRef,
) -> Result<Message, NoMemory>
    ensures { IfOk result (λ made.
        made ≡ to who.now (last_id who.now chain.now) (request.Link chain.now name.now dir.now mode)) }
{
    Ok(Message {
        number: who.server(&who.last_id(chain.as_slice())),
        request: Request::Link {
            chain: chain.try_clone(alloc)?,
            name: name.try_clone(alloc)?,
            dir: *dir,
            mode,
        },
    })
}

fn seal(alloc: Global, who: &Who, chain: &Chain) -> Result<Message, NoMemory>
    ensures { IfOk result (λ made. made ≡ to who.now (last_id who.now chain.now) (request.Seal chain.now)) }
{
    Ok(Message {
        number: who.server(&who.last_id(chain.as_slice())),
        request: Request::Seal {
            chain: chain.try_clone(alloc)?,
        },
    })
}

fn unlink(alloc: Global, who: &Who, chain: &Chain) -> Result<Message, NoMemory>
    ensures { IfOk result (λ made.
        made ≡ to who.now (last_id who.now (way_to chain.now)) (request.Unlink chain.now)) }
{
    let parent = who.last_id(way_to(chain.as_slice()));
    Ok(Message {
        number: who.server(&parent),
        request: Request::Unlink {
            chain: chain.try_clone(alloc)?,
        },
    })
}
