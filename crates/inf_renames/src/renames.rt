//! The rename lists of all parents.

ghost use Rattle.std.specs.Prelude.{◌≡◌, ℕ, ◌+◌, ◌<◌, ◌≤◌, true, false, [], OnOk, OnErr};
ghost use Rattle.inf_renames.specs.Renames.{forgotten, least_version, rows_of, spare_of, with_room, with_row};
ghost use Rattle.inf_renames.specs.Rows.{is_taken};

use crate::kept_rows::KeptRows;
use crate::row::Row;
use inf_base::{DirRef, Id, Name, NoMemory};
use std::alloc::Global;
use std::collections::BTreeMap;
use std::marker::Model;

/// The rename lists of a server, seen as what is kept of each parent that was ever reserved: its rows in the order of
/// adding, and for how many more there is room. The order between rows of two parents is not kept.
#[derive(Debug, Drop)]
pub struct Renames {
    alloc: Global,
    lists: BTreeMap<Id, KeptRows>,
}

impl Model for Renames {
    ghost use Rattle.std.specs.Prelude.{List};
    ghost use Rattle.inf_base.specs.declared.id.Id.{Id};
    ghost use Rattle.inf_renames.specs.Kept.{Kept};

    ghost Value = { List (Id × Kept) };

    ghost view = { λ r. r.lists.entries };
}

impl Renames {
    /// No rows, and no room for any: takes no memory.
    pub fn new(alloc: Global) -> Self
        ensures { result ≡ [] }
    {
        Renames {
            alloc,
            lists: BTreeMap::new(alloc),
        }
    }

    /// The least version of the name in the parent that no row has.
    pub fn least_version(&self, parent: &Id, name: &Name) -> u64
        ensures value { result ≡ least_version parent.now name.now self.now }
        ensures free { is_taken parent.now name.now result (rows_of parent.now self.now) ≡ false }
        ensures least { (v : ℕ) → v < result → is_taken parent.now name.now v (rows_of parent.now self.now) ≡ true }
    {
        match self.lists.get(parent) {
            Some(kept) => kept.least_version(name),
            None => 0,
        }
    }

    /// Makes room for one more row of the parent.
    pub fn reserve(&mut self, parent: &Id) -> Result<(), NoMemory>
        ensures ok { OnOk result (self.new ≡ with_room parent.now self.old) }
        ensures spare { OnOk result (spare_of parent.now self.new ≡ spare_of parent.now self.old + 1) }
        ensures err { OnErr result (self.new ≡ self.old) }
    {
        if let Some(kept) = self.lists.get_mut(parent) {
            kept.reserve()?;
            return Ok(());
        }
        let mut kept = KeptRows::new(self.alloc);
        kept.reserve()?;
        self.lists.insert(*parent, kept)?;
        Ok(())
    }

    /// Adds a row in the room that was reserved.
    pub fn add(&mut self, parent: &Id, name: Name, version: u64, dir: DirRef)
        requires { 1 ≤ spare_of parent.now self.old }
        ensures { self.new ≡ with_row parent.now (record { name = name; version = version; dir = dir }) self.old }
    {
        let Some(kept) = self.lists.get_mut(parent) else {
            unreachable!()
        };
        kept.add(Row { name, version, dir });
    }

    /// Removes the first row of the directory in the parent, if there is one.
    pub fn remove(&mut self, parent: &Id, dir: &DirRef)
        ensures { self.new ≡ forgotten parent.now dir.now self.old }
    {
        let Some(kept) = self.lists.get_mut(parent) else {
            return;
        };
        kept.remove(dir);
    }
}
