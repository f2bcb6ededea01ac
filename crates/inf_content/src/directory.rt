//! A directory as it is looked at.

ghost use Rattle.std.specs.Prelude.{◌≡◌, IfOk};
ghost use Rattle.inf_content.specs.Contents.{bearer, made_beside, may_drop};
ghost use Rattle.inf_content.specs.Slots.{access_of, first_taker, inside_of, items_of, seen_of, slot_in};

use crate::inside::Inside;
use crate::made::Made;
use crate::object::Object;
use crate::seen::Seen;
use inf_base::{Access, CallRef, Id, Items, Name, NoMemory, Place, Triple};
use std::alloc::Global;
use std::marker::Model;

/// A directory that was found once, to be looked at as often as a request asks.
#[derive(Drop)]
pub struct Directory<'a> {
    id: Id,
    object: &'a Object,
}

impl<'a> Model for Directory<'a> {
    ghost use Rattle.inf_base.specs.Content.{Content};
    ghost use Rattle.inf_content.specs.Objects.{whole};

    ghost Value = { Content };

    ghost view = { λ d. whole d.id d.object.now };
}

impl<'a> Directory<'a> {
    ghost use Rattle.inf_content.specs.Objects.{whole};

    pub(crate) fn new(id: Id, object: &'a Object) -> Self
        ensures { result ≡ whole id object.now }
    {
        Directory { id, object }
    }

    /// The place of its birth.
    pub fn born(&self) -> Place
        ensures { result ≡ self.now.dir.born }
    {
        self.object.born
    }

    /// The call that sealed it.
    pub fn sealed(&self) -> Option<CallRef>
        ensures { result ≡ self.now.seal }
    {
        self.object.seal
    }

    /// What is seen of a name.
    pub fn look(&self, name: &Name) -> Seen
        ensures { result ≡ seen_of (slot_in name.now self.now.slots) }
    {
        self.object.slots.look(name)
    }

    /// A copy of the access object under a name, where a directory stands there.
    pub fn access_of(&self, alloc: Global, name: &Name) -> Result<Option<Access>, NoMemory>
        ensures { IfOk result (λ access. access ≡ access_of (slot_in name.now self.now.slots)) }
    {
        self.object.slots.access_of(alloc, name)
    }

    /// The call of the first slot that is held or reserved.
    pub fn busy(&self) -> Option<CallRef>
        ensures { result ≡ first_taker self.now.slots }
    {
        self.object.slots.busy()
    }

    /// What stands in it; which call asks makes no difference.
    pub fn inside(&self, _by: CallRef) -> Inside
        ensures { result ≡ inside_of self.now.slots }
    {
        self.object.slots.inside()
    }

    /// The names in their order, with their kinds.
    pub fn list(&self, alloc: Global) -> Result<Items, NoMemory>
        ensures { IfOk result (λ items. items ≡ items_of self.now.slots) }
    {
        self.object.slots.list(alloc)
    }

    /// What comes of making a directory of this triple where this one has its identifier.
    pub(crate) fn made(&self, alloc: Global, triple: &Triple) -> Result<Made, NoMemory>
        ensures { IfOk result (λ made. made ≡ made_beside triple.now self.now.triple (bearer self.now)) }
    {
        self.object.made(alloc, triple)
    }

    /// Whether the call sealed or made it.
    pub(crate) fn may_drop(&self, by: CallRef) -> bool
        ensures { result ≡ may_drop by self.now }
    {
        self.object.may_drop(by)
    }
}
