//! The slots of one directory.

ghost use Rattle.std.specs.Prelude.{◌≡◌, ◌<◌, false, [], length, is_some, if◌then◌else◌, IfOk, IsTrue, OnOk, OnErr};
ghost use Rattle.inf_base.specs.Content.{file, reserved};
ghost use Rattle.inf_content.specs.BusyNames.{busy_names};
ghost use Rattle.inf_content.specs.Slot.{erases, held_slot, holds, reserves, with_meta};
ghost use Rattle.inf_content.specs.Slots.{access_of, changed_slot, erased, filled_in, first, first_taker, has_free, inside_of, items_of, lifted, seen_of, settled_in, slot_in, told_of_erased, told_of_filled, with_slot, without_slot};

use crate::busy_names::BusyNames;
use crate::inside::Inside;
use crate::named::Named;
use crate::seen::Seen;
use crate::slot::Kept;
use crate::wanted::Wanted;
use inf_base::{
    Access, CallRef, Caller, DirRef, FileMeta, Id, Item, Items, Name, NoMemory, TryClone,
};
use std::alloc::Global;
use std::collections::BTreeMap;
use std::marker::Model;

/// The slots of a directory, by name, and the names of those that calls hold or reserve: what a call took is found
/// among these, however many slots there are.
#[derive(Drop)]
pub(crate) struct Slots {
    by_name: BTreeMap<Name, Named>,
    busy: BusyNames,
}

impl Model for Slots {
    ghost use Rattle.std.specs.Prelude.{ℕ, List};
    ghost use Rattle.inf_base.specs.Content.{Slot};
    ghost use Rattle.inf_content.specs.Named.{AreKept, slots_of};

    ghost Value = { List (List ℕ × Slot) };

    ghost view = { λ s. slots_of s.by_name.entries };

    ghost invariant = { λ s. AreKept s.by_name.entries s.busy };
}

impl Slots {
    pub(crate) fn new(alloc: Global) -> Self
        ensures { result ≡ [] }
    {
        Slots {
            by_name: BTreeMap::new(alloc),
            busy: BusyNames::new(alloc),
        }
    }

    pub(crate) fn look(&self, name: &Name) -> Seen
        ensures { result ≡ seen_of (slot_in name.now self.now) }
    {
        match self.by_name.get(name) {
            None => Seen::Missing,
            Some(named) => named.kept.seen(),
        }
    }

    /// A copy of the access object under a name, where a directory stands there.
    pub(crate) fn access_of(&self, alloc: Global, name: &Name) -> Result<Option<Access>, NoMemory>
        ensures { IfOk result (λ access. access ≡ access_of (slot_in name.now self.now)) }
    {
        match self.by_name.get(name) {
            None => Ok(None),
            Some(named) => named.kept.access(alloc),
        }
    }

    /// The call of the first slot that is held or reserved.
    pub(crate) fn busy(&self) -> Option<CallRef>
        ensures { result ≡ first_taker self.now }
    {
        let Some(name) = self.busy.first() else {
            return None;
        };
        let Some(named) = self.by_name.get(name) else {
            unreachable!()
        };
        named.kept.taker()
    }

    fn has_free(&self) -> bool
        ensures { result ≡ has_free self.now }
    {
        self.busy.len() < self.by_name.len()
    }

    pub(crate) fn inside(&self) -> Inside
        ensures { result ≡ inside_of self.now }
    {
        if self.has_free() {
            return Inside::Full;
        }
        match self.busy() {
            None => Inside::Empty,
            Some(by) => Inside::Busy(by),
        }
    }

    pub(crate) fn reserve(
        &mut self,
        alloc: Global,
        name: Name,
        by: CallRef,
        access: Access,
    ) -> Result<(), NoMemory>
        ensures ok { OnOk result (self.new ≡ with_slot name (reserved by access) self.old) }
        ensures err { OnErr result (self.new ≡ self.old) }
    {
        let listed = name.try_clone(alloc)?;
        self.busy.make_room(self.by_name.len() + 1)?;
        let named = Named {
            kept: Kept::reserved(by, access),
            spare: None,
        };
        self.by_name.insert(name, named)?;
        self.busy.add(listed);
        Ok(())
    }

    pub(crate) fn put_file(
        &mut self,
        alloc: Global,
        name: Name,
        meta: FileMeta,
    ) -> Result<(), NoMemory>
        ensures ok { OnOk result (self.new ≡ with_slot name (file meta None) self.old) }
        ensures err { OnErr result (self.new ≡ self.old) }
    {
        let spare = name.try_clone(alloc)?;
        self.busy.make_room(self.by_name.len() + 1)?;
        let at = self.busy.place_of(&name);
        let named = Named {
            kept: Kept::file(meta),
            spare: Some(spare),
        };
        self.by_name.insert(name, named)?;
        self.busy.remove(at);
        Ok(())
    }

    pub(crate) fn set_file(&mut self, name: &Name, meta: FileMeta)
        ensures { self.new ≡ changed_slot name.now (with_meta meta) self.old }
    {
        let Some(named) = self.by_name.get_mut(name) else {
            return;
        };
        named.kept.set_meta(meta);
    }

    pub(crate) fn hold(&mut self, name: &Name, by: CallRef, mode: Option<u16>)
        ensures { self.new ≡ changed_slot name.now (held_slot by mode) self.old }
    {
        let Some(named) = self.by_name.get_mut(name) else {
            return;
        };
        if let Some(spare) = named.hold(by, mode) {
            self.busy.add(spare);
        }
    }

    pub(crate) fn take_out(&mut self, name: &Name)
        ensures { self.new ≡ without_slot name.now self.old }
    {
        self.by_name.remove(name);
        self.busy.remove(self.busy.place_of(name));
    }

    /// The names with their kinds.
    pub(crate) fn list(&self, alloc: Global) -> Result<Items, NoMemory>
        ensures { IfOk result (λ items. items ≡ items_of self.now) }
    {
        let mut items = Vec::new(alloc);
        for (name, named) in &self.by_name {
            if let Some(kind) = named.kept.kind() {
                items.push(Item {
                    name: name.try_clone(alloc)?,
                    kind,
                })?;
            }
        }
        Ok(Items::new(items))
    }

    /// Gives the first slot that the call holds the mode that was kept, and lifts its hold.
    pub(crate) fn settle(&mut self, by: CallRef) -> bool
        ensures told { result ≡ is_some (first (holds by) self.old) }
        ensures settled { self.new ≡ settled_in by self.old }
    {
        let Some(name) = self.busy.take_first(&self.by_name, Wanted::Held, by) else {
            return false;
        };
        let Some(named) = self.by_name.get_mut(&name) else {
            unreachable!()
        };
        named.settle(name);
        true
    }

    /// Makes the first slot that the call reserved a directory, of this link where there is one, and tells which
    /// directory that is, and whether it lives where it was made.
    pub(crate) fn fill(
        &mut self,
        id: &Id,
        by: CallRef,
        link: Option<(DirRef, u16, Caller)>,
    ) -> Option<(DirRef, bool)>
        ensures told { result ≡ told_of_filled id.now link (first (reserves by) self.old) }
        ensures filled { self.new ≡ filled_in by link self.old }
    {
        let Some(name) = self.busy.take_first(&self.by_name, Wanted::Reserved, by) else {
            return None;
        };
        let Some(named) = self.by_name.get_mut(&name) else {
            unreachable!()
        };
        let told = named.kept.told_of_fill(id, &name, link);
        named.fill(name, link);
        told
    }

    /// Removes what the call reserved, and lifts its holds.
    pub(crate) fn lift(&mut self, by: CallRef)
        ensures { self.new ≡ lifted by self.old }
    {
        while self.lift_first(by) {}
    }

    /// Removes the first slot that the call took, if it reserved it, or else lifts its hold.
    /// Tells whether there was one.
    fn lift_first(&mut self, by: CallRef) -> bool
        ensures lifted { lifted by self.new ≡ lifted by self.old }
        ensures fewer { IsTrue result → length (busy_names self.new) < length (busy_names self.old) }
        ensures all { result ≡ false → self.new ≡ lifted by self.old }
    {
        let Some(name) = self.busy.take_first(&self.by_name, Wanted::Taken, by) else {
            return false;
        };
        let Some(named) = self.by_name.get_mut(&name) else {
            unreachable!()
        };
        if named.kept.reserves(by) {
            self.by_name.remove(&name);
            return true;
        }
        named.free(name, by);
        true
    }

    /// Removes the first slot that the call holds with no mode to come.
    pub(crate) fn erase(&mut self, by: CallRef) -> Option<(Name, Option<Access>)>
        ensures told { result ≡ told_of_erased (first (erases by) self.old) }
        ensures erased { self.new ≡ erased by self.old }
    {
        let Some(name) = self.busy.take_first(&self.by_name, Wanted::Going, by) else {
            return None;
        };
        let Some(named) = self.by_name.remove(&name) else {
            unreachable!()
        };
        Some((name, named.kept.into_access()))
    }
}
