//! What is kept of one directory.

ghost use Rattle.std.specs.Prelude.{◌≡◌, ◌&&◌, ◌||◌, IfOk};
ghost use Rattle.inf_base.specs.Same.{is_same_call};
ghost use Rattle.inf_content.specs.Contents.{bearer_or, is_call, made_beside, seal_left};

use crate::made::Made;
use crate::slots::Slots;
use inf_base::{CallRef, NoMemory, Place, Shared, Triple, TryClone};
use std::alloc::Global;

/// A content object, without its identifier.
#[derive(Drop)]
pub(crate) struct Object {
    pub(crate) born: Place,
    pub(crate) triple: Shared<Triple>,
    pub(crate) maker: CallRef,
    pub(crate) seal: Option<CallRef>,
    pub(crate) slots: Slots,
}

impl Object {
    /// What comes of making a directory of this triple where this one has its identifier.
    pub(crate) fn made(&self, alloc: Global, triple: &Triple) -> Result<Made, NoMemory>
        ensures { IfOk result (λ made.
            made ≡ made_beside triple.now self.now.triple (bearer_or self.now.maker self.now.seal)) }
    {
        if *self.triple == *triple {
            return Ok(Made::Bearer(bearer_or(self.maker, self.seal)));
        }
        Ok(Made::Clash(self.triple.try_clone(alloc)?))
    }

    /// Whether the call sealed or made it.
    pub(crate) fn may_drop(&self, by: CallRef) -> bool
        ensures { result ≡ (is_call by self.now.seal || is_same_call self.now.maker by) }
    {
        is_call(by, self.seal) || self.maker == by
    }
}

fn bearer_or(maker: CallRef, seal: Option<CallRef>) -> CallRef
    ensures { result ≡ bearer_or maker seal }
{
    match seal {
        None => maker,
        Some(sealer) => sealer,
    }
}

fn is_call(by: CallRef, seal: Option<CallRef>) -> bool
    ensures { result ≡ is_call by seal }
{
    match seal {
        None => false,
        Some(other) => other == by,
    }
}

/// What stays of a seal, once the call lifts its own.
pub(crate) fn seal_left(by: CallRef, seal: Option<CallRef>) -> Option<CallRef>
    ensures { result ≡ seal_left by seal }
{
    if is_call(by, seal) {
        return None;
    }
    seal
}
