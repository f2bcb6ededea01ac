//! The names of a directory's slots that calls hold or reserve.

ghost use Rattle.std.specs.Prelude.{◌≡◌, ◌<◌, ◌≤◌, find, insert, length, position, remove, slice_get, IfNone, IfSome, OnOk};
ghost use Rattle.std.specs.List.{position_or_len};
ghost use Rattle.std.specs.Option.{option_copied};
ghost use Rattle.std.specs.Set.{remove_key};
ghost use Rattle.std.specs.Str.{bytes_eq};
ghost use Rattle.inf_content.specs.BusyNames.{nothing_busy, with_name};
ghost use Rattle.inf_content.specs.Named.{slots_of};
ghost use Rattle.inf_content.specs.Wanted.{is_wanted_name};

use crate::named::Named;
use crate::wanted::Wanted;
use inf_base::{CallRef, Name, NoMemory};
use std::alloc::Global;
use std::cmp::Ordering;
use std::collections::BTreeMap;
use std::marker::Model;

/// Names in the order of their bytes, with room for more.
#[derive(Debug, Drop)]
pub(crate) struct BusyNames {
    names: Vec<Name>,
}

impl Model for BusyNames {
    ghost use Rattle.std.specs.Prelude.{vec_capacity};
    ghost use Rattle.inf_content.specs.BusyNames.{Busy};

    ghost Value = { Busy };

    ghost view = { λ b. record { names = b.names.items; room = vec_capacity b.names } };
}

impl BusyNames {
    pub(crate) fn new(alloc: Global) -> Self
        ensures { result ≡ nothing_busy }
    {
        BusyNames {
            names: Vec::new(alloc),
        }
    }

    pub(crate) fn len(&self) -> usize
        ensures { result ≡ length self.now.names }
    {
        self.names.len()
    }

    pub(crate) fn first(&self) -> Option<&Name>
        ensures { option_copied result ≡ slice_get self.now.names 0 }
    {
        self.names.first()
    }

    /// Makes room for so many names.
    pub(crate) fn make_room(&mut self, count: usize) -> Result<(), NoMemory>
        ensures names { self.new.names ≡ self.old.names }
        ensures ok { OnOk result (count ≤ self.new.room) }
        ensures room { self.old.room ≤ self.new.room }
    {
        self.names.reserve(count.saturating_sub(self.names.len()))?;
        Ok(())
    }

    /// Adds a name, unless it is there.
    pub(crate) fn add(&mut self, name: Name)
        requires { length self.old.names < self.old.room }
        ensures { self.new ≡ record self.old { names = with_name name self.old.names } }
    {
        let Some(at) = free_place(self.names.as_slice(), &name) else {
            return;
        };
        // There is room, so this takes no memory.
        let Ok(()) = self.names.insert(at, name) else {
            unreachable!()
        };
    }

    /// Where a name stands, or how many there are.
    pub(crate) fn place_of(&self, name: &Name) -> usize
        ensures { result ≡ position_or_len (bytes_eq name.now) self.now.names }
    {
        place_in(self.names.as_slice(), name).unwrap_or(self.names.len())
    }

    /// Removes the name at a place, if there is one.
    pub(crate) fn remove(&mut self, at: usize)
        ensures { self.new ≡ record self.old { names = remove self.old.names at } }
    {
        if at < self.names.len() {
            let _ = self.names.remove(at);
        }
    }

    /// Takes out the first name whose slot is wanted.
    pub(crate) fn take_first(
        &mut self,
        slots: &BTreeMap<Name, Named>,
        wanted: Wanted,
        by: CallRef,
    ) -> Option<Name>
        ensures name { result ≡ find (is_wanted_name wanted by (slots_of slots.now.entries)) self.old.names }
        ensures left { self.new
            ≡ record self.old {
              names = remove_key (is_wanted_name wanted by (slots_of slots.now.entries)) self.old.names;
            } }
    {
        let Some(at) = wanted_in(self.names.as_slice(), slots, wanted, by) else {
            return None;
        };
        Some(self.names.remove(at))
    }
}

fn place_in(names: &[Name], name: &Name) -> Option<usize>
    ensures { result ≡ position (bytes_eq name.now) names.now }
{
    names.iter().position(|other| *name == *other)
}

/// The place at which a name is to stand, unless it is there.
fn free_place(names: &[Name], name: &Name) -> Option<usize>
    ensures there { IfNone result (with_name name.now names.now ≡ names.now) }
    ensures place { IfSome result (λ at. with_name name.now names.now ≡ insert names.now at name.now) }
    ensures within { IfSome result (λ at. at ≤ length names.now) }
{
    for (at, other) in names.iter().enumerate() {
        match name.cmp(other) {
            Ordering::Less => return Some(at),
            Ordering::Equal => return None,
            Ordering::Greater => {}
        }
    }
    Some(names.len())
}

/// The place of the first name whose slot is wanted.
fn wanted_in(
    names: &[Name],
    slots: &BTreeMap<Name, Named>,
    wanted: Wanted,
    by: CallRef,
) -> Option<usize>
    ensures { result ≡ position (is_wanted_name wanted by (slots_of slots.now.entries)) names.now }
{
    names
        .iter()
        .position(|name| is_wanted_name(slots, name, wanted, by))
}

fn is_wanted_name(slots: &BTreeMap<Name, Named>, name: &Name, wanted: Wanted, by: CallRef) -> bool
    ensures { result ≡ is_wanted_name wanted by (slots_of slots.now.entries) name.now }
{
    match slots.get(name) {
        None => false,
        Some(named) => named.kept.is_wanted(wanted, by),
    }
}
