//! The content objects of a server.

ghost use Rattle.std.specs.Prelude.{◌≡◌, [], All, is_some, false, if◌then◌else◌, IfOk, IfSome, OnOk, OnErr};
ghost use Rattle.std.specs.Borrow.{sem};
ghost use Rattle.std.specs.Option.{option_copied_mut, option_map};
ghost use Rattle.inf_base.specs.declared.caller.CallRef.{CallRef};
ghost use Rattle.inf_content.specs.Contents.{content_at, content_of_id, dropped_at, erased_at, filled_at, held_at, lifted_at, made_at, made_of, may_drop_found, reserved_at, sealed_at, settled_at, slots_at, unsealed_at, with_file_at, with_meta_at, without_slot_at};
ghost use Rattle.inf_content.specs.Slot.{erases, holds, reserves};
ghost use Rattle.inf_content.specs.Lent.{LendsObject};
ghost use Rattle.inf_content.specs.Objects.{contents_of, whole};
ghost use Rattle.inf_content.specs.Order.{IdentifiersRise, NamesRise};
ghost use Rattle.inf_content.specs.Slots.{first, told_of_erased, told_of_filled};

use crate::directory::Directory;
use crate::made::Made;
use crate::object::{Object, seal_left};
use crate::slots::Slots;
use inf_base::{
    Access, CallRef, Caller, DirRef, FileMeta, Id, Name, NoMemory, Place, Shared, Triple,
};
use std::alloc::Global;
use std::collections::BTreeMap;
use std::marker::Model;

/// The content objects of a server, by identifier.
#[derive(Drop)]
pub struct Contents {
    alloc: Global,
    by_id: BTreeMap<Id, Object>,
}

impl Model for Contents {
    ghost use Rattle.std.specs.Prelude.{List};
    ghost use Rattle.inf_base.specs.Content.{Content};
    ghost use Rattle.inf_content.specs.Objects.{contents_of};
    ghost use Rattle.inf_content.specs.Order.{AreInOrder};

    ghost Value = { List Content };

    ghost view = { λ c. contents_of c.by_id.entries };

    ghost invariant = { λ c. AreInOrder (contents_of c.by_id.entries) };
}

impl Contents {
    pub fn new(alloc: Global) -> Self
        ensures { result ≡ [] }
    {
        Contents {
            alloc,
            by_id: BTreeMap::new(alloc),
        }
    }

    /// Content objects are in the order of their identifiers' bytes,
    /// and the slots of each in that of their names' bytes.
    pub fn in_order(&self)
        ensures identifiers { IdentifiersRise self.now }
        ensures names { All (λ c. NamesRise c.slots) self.now }
    {
        let _ = &self.by_id;
    }

    /// The directory of this identifier, whenever it was born.
    pub fn directory_of_id(&self, id: &Id) -> Option<Directory<'_>>
        ensures found { result ≡ content_of_id id.now self.now }
        ensures same { IfSome result (λ directory. directory.dir.id ≡ id.now) }
    {
        match self.by_id.get(id) {
            None => None,
            Some(object) => Some(Directory::new(*id, object)),
        }
    }

    /// The directory of this identifier that was born then.
    pub fn directory(&self, dir: &DirRef) -> Option<Directory<'_>>
        ensures found { result ≡ content_at dir.now self.now }
        ensures same { IfSome result (λ directory. directory.dir ≡ dir.now) }
    {
        let directory = self.directory_of_id(&dir.id)?;
        if directory.born() != dir.born {
            return None;
        }
        Some(directory)
    }

    /// Gives the first slot that the call holds in the directory the mode that was kept for it, and lifts its hold.
    pub fn settle(&mut self, dir: &DirRef, by: CallRef) -> bool
        ensures told { result ≡ is_some (first (holds by) (slots_at dir.now self.old)) }
        ensures settled { self.new ≡ settled_at dir.now by self.old }
    {
        let Some(object) = object_mut(&mut self.by_id, dir) else {
            return false;
        };
        object.slots.settle(by)
    }

    /// Changes the metadata of the file under a name.
    pub fn set_file(&mut self, dir: &DirRef, name: &Name, meta: FileMeta)
        ensures { self.new ≡ with_meta_at dir.now name.now meta self.old }
    {
        let Some(object) = object_mut(&mut self.by_id, dir) else {
            return;
        };
        object.slots.set_file(name, meta);
    }

    /// Removes a slot.
    pub fn take_out(&mut self, dir: &DirRef, name: &Name)
        ensures { self.new ≡ without_slot_at dir.now name.now self.old }
    {
        let Some(object) = object_mut(&mut self.by_id, dir) else {
            return;
        };
        object.slots.take_out(name);
    }

    /// Lets a call hold the slot under a name, with the mode to come.
    pub fn hold(&mut self, dir: &DirRef, name: &Name, by: CallRef, mode: Option<u16>)
        ensures { self.new ≡ held_at dir.now name.now by mode self.old }
    {
        let Some(object) = object_mut(&mut self.by_id, dir) else {
            return;
        };
        object.slots.hold(name, by, mode);
    }

    /// Lifts each hold of the call in the directory, and removes what it reserved there.
    pub fn lift(&mut self, dir: &DirRef, by: CallRef)
        ensures { self.new ≡ lifted_at dir.now by self.old }
    {
        let Some(object) = object_mut(&mut self.by_id, dir) else {
            return;
        };
        object.slots.lift(by);
    }

    /// Makes what the call reserved first in the directory a directory: that of the link, where there is one. Tells
    /// which directory stands there then, and whether it lives where it was made.
    pub fn fill(
        &mut self,
        dir: &DirRef,
        by: CallRef,
        link: Option<(DirRef, u16, Caller)>,
    ) -> Option<(DirRef, bool)>
        ensures told { result ≡ told_of_filled dir.now.id link (first (reserves by) (slots_at dir.now self.old)) }
        ensures filled { self.new ≡ filled_at dir.now by link self.old }
    {
        let Some(object) = object_mut(&mut self.by_id, dir) else {
            return None;
        };
        object.slots.fill(&dir.id, by, link)
    }

    /// Removes the first slot that the call holds in the directory with no mode to come, and gives its name and, of a
    /// directory, its access object.
    pub fn erase(&mut self, dir: &DirRef, by: CallRef) -> Option<(Name, Option<Access>)>
        ensures told { result ≡ told_of_erased (first (erases by) (slots_at dir.now self.old)) }
        ensures erased { self.new ≡ erased_at dir.now by self.old }
    {
        let Some(object) = object_mut(&mut self.by_id, dir) else {
            return None;
        };
        object.slots.erase(by)
    }

    /// Seals the directory.
    pub fn seal(&mut self, dir: &DirRef, by: CallRef)
        ensures { self.new ≡ sealed_at dir.now by self.old }
    {
        let Some(object) = object_mut(&mut self.by_id, dir) else {
            return;
        };
        object.seal = Some(by);
    }

    /// Lifts the seal, if it is the call's own.
    pub fn unseal(&mut self, dir: &DirRef, by: CallRef)
        ensures { self.new ≡ unsealed_at dir.now by self.old }
    {
        let Some(object) = object_mut(&mut self.by_id, dir) else {
            return;
        };
        object.seal = seal_left(by, object.seal);
    }

    /// Reserves a name for a directory to come, whose access object is kept.
    pub fn reserve(
        &mut self,
        dir: &DirRef,
        name: Name,
        by: CallRef,
        access: Access,
    ) -> Result<(), NoMemory>
        ensures ok { OnOk result (self.new ≡ reserved_at dir.now name by access self.old) }
        ensures err { OnErr result (self.new ≡ self.old) }
    {
        let alloc = self.alloc;
        let Some(object) = object_mut(&mut self.by_id, dir) else {
            return Ok(());
        };
        object.slots.reserve(alloc, name, by, access)?;
        Ok(())
    }

    /// Puts a file under a name.
    pub fn put_file(&mut self, dir: &DirRef, name: Name, meta: FileMeta) -> Result<(), NoMemory>
        ensures ok { OnOk result (self.new ≡ with_file_at dir.now name meta self.old) }
        ensures err { OnErr result (self.new ≡ self.old) }
    {
        let alloc = self.alloc;
        let Some(object) = object_mut(&mut self.by_id, dir) else {
            return Ok(());
        };
        object.slots.put_file(alloc, name, meta)?;
        Ok(())
    }

    fn may_drop(&self, dir: &DirRef, by: CallRef) -> bool
        ensures { result ≡ may_drop_found by (content_at dir.now self.now) }
    {
        match self.directory(dir) {
            None => false,
            Some(directory) => directory.may_drop(by),
        }
    }

    /// Drops the directory, if the call sealed or made it.
    pub fn drop_dir(&mut self, dir: &DirRef, by: CallRef)
        ensures { self.new ≡ dropped_at dir.now by self.old }
    {
        if !self.may_drop(dir, by) {
            return;
        }
        self.by_id.remove(&dir.id);
    }

    /// Makes an empty directory, where none of its identifier is there.
    pub fn make(
        &mut self,
        id: Id,
        triple: Shared<Triple>,
        born: Place,
        by: CallRef,
    ) -> Result<Made, NoMemory>
        ensures told { IfOk result (λ made. made ≡ made_of triple (content_of_id id self.old)) }
        ensures ok { OnOk result (self.new ≡ made_at id born triple by self.old) }
        ensures err { OnErr result (self.new ≡ self.old) }
    {
        if let Some(directory) = self.directory_of_id(&id) {
            return directory.made(self.alloc, &triple);
        }
        let object = Object {
            born,
            triple,
            maker: by,
            seal: None,
            slots: Slots::new(self.alloc),
        };
        self.by_id.insert(id, object)?;
        Ok(Made::New)
    }
}

/// The object of a directory, to be changed where it stands.
fn object_mut<'a>(by_id: &'a mut BTreeMap<Id, Object>, dir: &DirRef) -> Option<&'a mut Object>
    ensures* lends { sem 𝓛 (LendsObject by_id.entry dir.now result) }
    ensures found { option_map (whole dir.now.id) (option_copied_mut result)
        ≡ content_at dir.now (contents_of by_id.old.entries) }
{
    let Some(object) = by_id.get_mut(&dir.id) else {
        return None;
    };
    if object.born == dir.born {
        Some(object)
    } else {
        None
    }
}
