//! What stands under a name of a directory.

ghost use Rattle.std.specs.Prelude.{◌≡◌, IfOk};
ghost use Rattle.std.specs.Option.{option_map};
ghost use Rattle.inf_content.specs.declared.slot.Holder.{Holder};
ghost use Rattle.inf_base.specs.Content.{file, reserved};
ghost use Rattle.inf_base.specs.Same.{dir_of};
ghost use Rattle.inf_content.specs.Kept.{hold_of};
ghost use Rattle.inf_content.specs.Slots.{is_birth_place, lives};
ghost use Rattle.inf_content.specs.Slot.{access_in, erases, filled, freed, held_slot, holds, is_held_by, is_to_go, kind_in, linked, mode_after, reserves, seen_slot, settled, taker, with_meta};
ghost use Rattle.inf_content.specs.Wanted.{is_wanted};

use crate::seen::Seen;
use crate::wanted::Wanted;
use inf_base::{
    Access, CallRef, Caller, DirRef, FileMeta, Id, Kind, Name, NoMemory, Triple, TryClone,
};
use std::alloc::Global;
use std::marker::Model;
use std::mem;

/// The call that holds a slot, and the mode to come.
#[derive(Clone, Copy, Debug, PartialEq, Eq)]
pub(crate) struct Holder {
    pub(crate) by: CallRef,
    pub(crate) mode: Option<u16>,
}

#[derive(Debug, Drop)]
pub(crate) enum What {
    Reserved(CallRef, Access),
    File(FileMeta),
    Dir(Access),
}

/// What stands under a name; what is reserved is held by no call beside.
#[derive(Debug, Drop)]
pub(crate) struct Kept {
    pub(crate) what: What,
    pub(crate) held: Option<Holder>,
}

impl Model for Kept {
    ghost use Rattle.inf_base.specs.Content.{Slot};
    ghost use Rattle.inf_content.specs.Kept.{slot_of};

    ghost Value = { Slot };

    ghost view = { λ k. slot_of k.what k.held };
}

impl Kept {
    pub(crate) fn reserved(by: CallRef, access: Access) -> Self
        ensures { result ≡ reserved by access }
    {
        Kept {
            what: What::Reserved(by, access),
            held: None,
        }
    }

    pub(crate) fn file(meta: FileMeta) -> Self
        ensures { result ≡ file meta None }
    {
        Kept {
            what: What::File(meta),
            held: None,
        }
    }

    /// The call that holds or reserves it.
    pub(crate) fn taker(&self) -> Option<CallRef>
        ensures { result ≡ taker self.now }
    {
        match &self.what {
            What::Reserved(by, _) => Some(*by),
            What::File(_) => holder_of(self.held),
            What::Dir(_) => holder_of(self.held),
        }
    }

    pub(crate) fn seen(&self) -> Seen
        ensures { result ≡ seen_slot self.now }
    {
        match &self.what {
            What::Reserved(by, _) => Seen::Reserved(*by),
            What::File(meta) => Seen::File {
                meta: *meta,
                held: holder_of(self.held),
            },
            What::Dir(access) => Seen::Dir {
                dir: DirRef {
                    id: access.id,
                    born: access.born,
                },
                mode: access.mode,
                owner: access.owner,
                group: access.group,
                held: holder_of(self.held),
            },
        }
    }

    /// A copy of the access object, of a directory.
    pub(crate) fn access(&self, alloc: Global) -> Result<Option<Access>, NoMemory>
        ensures { IfOk result (λ access. access ≡ access_in self.now) }
    {
        match &self.what {
            What::Reserved(_, _) => Ok(None),
            What::File(_) => Ok(None),
            What::Dir(access) => Ok(Some(access.try_clone(alloc)?)),
        }
    }

    /// The access object, of a directory.
    pub(crate) fn into_access(self) -> Option<Access>
        ensures { result ≡ access_in self }
    {
        let Kept { what, held: _ } = self;
        match what {
            What::Reserved(_, _) => None,
            What::File(_) => None,
            What::Dir(access) => Some(access),
        }
    }

    pub(crate) fn kind(&self) -> Option<Kind>
        ensures { result ≡ kind_in self.now }
    {
        match &self.what {
            What::Reserved(_, _) => None,
            What::File(_) => Some(Kind::File),
            What::Dir(_) => Some(Kind::Dir),
        }
    }

    pub(crate) fn reserves(&self, by: CallRef) -> bool
        ensures { result ≡ reserves by self.now }
    {
        match &self.what {
            What::Reserved(caller, _) => *caller == by,
            What::File(_) => false,
            What::Dir(_) => false,
        }
    }

    pub(crate) fn holds(&self, by: CallRef) -> bool
        ensures { result ≡ holds by self.now }
    {
        match &self.what {
            What::Reserved(_, _) => false,
            What::File(_) => is_held_by(by, self.held),
            What::Dir(_) => is_held_by(by, self.held),
        }
    }

    pub(crate) fn erases(&self, by: CallRef) -> bool
        ensures { result ≡ erases by self.now }
    {
        match &self.what {
            What::Reserved(_, _) => false,
            What::File(_) => is_to_go(by, self.held),
            What::Dir(_) => is_to_go(by, self.held),
        }
    }

    pub(crate) fn is_wanted(&self, wanted: Wanted, by: CallRef) -> bool
        ensures { result ≡ is_wanted wanted by self.now }
    {
        match wanted {
            Wanted::Reserved => self.reserves(by),
            Wanted::Held => self.holds(by),
            Wanted::Going => self.erases(by),
            Wanted::Taken => self.reserves(by) || self.holds(by),
        }
    }

    pub(crate) fn set_meta(&mut self, meta: FileMeta)
        ensures { self.new ≡ with_meta meta self.old }
    {
        if let What::File(kept) = &mut self.what {
            *kept = meta;
        }
    }

    pub(crate) fn hold(&mut self, by: CallRef, mode: Option<u16>)
        ensures { self.new ≡ held_slot by mode self.old }
    {
        self.held = Some(Holder { by, mode });
    }

    /// Lifts the call's hold.
    pub(crate) fn free(&mut self, by: CallRef)
        ensures { self.new ≡ freed by self.old }
    {
        if is_held_by(by, self.held) {
            self.held = None;
        }
    }

    /// Gives it the mode that was kept for it, and lifts its hold.
    pub(crate) fn settle(&mut self)
        ensures { self.new ≡ settled self.old }
    {
        match &mut self.what {
            What::Reserved(_, _) => {}
            What::File(meta) => {
                meta.mode = mode_after(meta.mode, self.held);
            }
            What::Dir(access) => {
                access.mode = mode_after(access.mode, self.held);
            }
        }
        self.held = None;
    }

    /// The directory that it is once it is filled, and whether it lives where it was made.
    pub(crate) fn told_of_fill(
        &self,
        id: &Id,
        name: &Name,
        link: Option<(DirRef, u16, Caller)>,
    ) -> Option<(DirRef, bool)>
        ensures { result ≡ lives id.now name.now (access_in (filled link self.now)) }
    {
        match &self.what {
            What::Reserved(_, access) => {
                let dir = linked_dir(link, access);
                Some((dir, is_birth_place(id, name, &access.birth)))
            }
            What::File(_) => None,
            What::Dir(access) => {
                let dir = linked_dir(None, access);
                Some((dir, is_birth_place(id, name, &access.birth)))
            }
        }
    }

    /// Makes a directory of what was reserved.
    pub(crate) fn fill(&mut self, link: Option<(DirRef, u16, Caller)>)
        ensures { self.new ≡ filled link self.old }
    {
        let kept = FileMeta {
            mode: 0,
            owner: 0,
            group: 0,
            length: 0,
        };
        match mem::replace(&mut self.what, What::File(kept)) {
            What::Reserved(_, access) => {
                self.what = What::Dir(linked(link, access));
                self.held = None;
            }
            What::File(meta) => {
                self.what = What::File(meta);
            }
            What::Dir(access) => {
                self.what = What::Dir(access);
            }
        }
    }
}

fn holder_of(held: Option<Holder>) -> Option<CallRef>
    ensures { result ≡ option_map (λ (h : Holder). h.by) held }
{
    match held {
        Some(holder) => Some(holder.by),
        None => None,
    }
}

fn is_held_by(by: CallRef, held: Option<Holder>) -> bool
    ensures { result ≡ is_held_by by (option_map hold_of held) }
{
    match held {
        None => false,
        Some(holder) => holder.by == by,
    }
}

fn is_to_go(by: CallRef, held: Option<Holder>) -> bool
    ensures { result ≡ is_to_go by (option_map hold_of held) }
{
    match held {
        None => false,
        Some(holder) => holder.by == by && holder.mode.is_none(),
    }
}

fn mode_after(mode: u16, held: Option<Holder>) -> u16
    ensures { result ≡ mode_after mode (option_map hold_of held) }
{
    match held {
        Some(
            Holder {
                by: _,
                mode: Some(new),
            },
        ) => new,
        Some(Holder { by: _, mode: None }) => mode,
        None => mode,
    }
}

fn linked(link: Option<(DirRef, u16, Caller)>, access: Access) -> Access
    ensures { result ≡ linked link access }
{
    match link {
        None => access,
        Some((dir, mode, caller)) => Access {
            id: dir.id,
            born: dir.born,
            mode,
            owner: caller.uid,
            group: caller.gid,
            birth: access.birth,
        },
    }
}

fn linked_dir(link: Option<(DirRef, u16, Caller)>, access: &Access) -> DirRef
    ensures { result ≡ dir_of (linked link access.now) }
{
    match link {
        None => DirRef {
            id: access.id,
            born: access.born,
        },
        Some((dir, _, _)) => dir,
    }
}

fn is_birth_place(id: &Id, name: &Name, birth: &Triple) -> bool
    ensures { result ≡ is_birth_place id.now name.now birth.now }
{
    match birth {
        Triple::Root => false,
        Triple::Of {
            parent,
            name: birth_name,
            version: _,
        } => *id == *parent && *name == *birth_name,
    }
}
