//! The rename list of one parent.

ghost use Rattle.std.specs.Prelude.{◌≡◌, ℕ, ◌<◌, ◌≤◌, true, false, OnOk, OnErr, position};
ghost use Rattle.inf_renames.specs.Kept.{has_version, kept_least_version, kept_with_room, kept_with_row, kept_without, nothing_kept};
ghost use Rattle.inf_base.specs.Same.{is_same_dir};

use crate::row::Row;
use inf_base::{DirRef, Name, NoMemory};
use std::alloc::Global;
use std::marker::Model;

/// The rows of one parent in the order of adding, with room for `spare` more.
#[derive(Debug, Drop)]
pub struct KeptRows {
    rows: Vec<Row>,
    spare: usize,
}

impl Model for KeptRows {
    ghost use Rattle.std.specs.Prelude.{◌+◌, ◌≤◌, vec_len, vec_capacity};
    ghost use Rattle.inf_renames.specs.Kept.{Kept};

    ghost Value = { Kept };

    ghost view = { λ k. record { rows = k.rows.items; spare = k.spare } };

    ghost invariant = { λ k. vec_len k.rows + k.spare ≤ vec_capacity k.rows };
}

impl KeptRows {
    pub fn new(alloc: Global) -> Self
        ensures { result ≡ nothing_kept }
    {
        KeptRows {
            rows: Vec::new(alloc),
            spare: 0,
        }
    }

    /// The least number that no row of this name has.
    pub fn least_version(&self, name: &Name) -> u64
        ensures { result ≡ kept_least_version name.now self.now }
    {
        let mut version = 0;
        loop {
            let next = next_version(self.rows.as_slice(), name, version);
            if next == version {
                return version;
            }
            version = next;
        }
    }

    /// Makes room for one more row.
    pub fn reserve(&mut self) -> Result<(), NoMemory>
        ensures ok { OnOk result (self.new ≡ kept_with_room self.old) }
        ensures err { OnErr result (self.new ≡ self.old) }
    {
        self.rows.reserve(self.spare + 1)?;
        self.spare += 1;
        Ok(())
    }

    pub fn add(&mut self, row: Row)
        requires { 0 < self.old.spare }
        ensures { self.new ≡ kept_with_row row self.old }
    {
        self.rows.push_reserved(row);
        self.spare -= 1;
    }

    #[tactic(auto, using(crate::proofs::KeptFacts::without_found))]
    /// Removes the first row of the directory, if there is one.
    pub fn remove(&mut self, dir: &DirRef)
        ensures { self.new ≡ kept_without dir.now self.old }
    {
        if let Some(index) = place_of(self.rows.as_slice(), dir) {
            let _ = self.rows.remove(index);
        }
    }
}

fn place_of(rows: &[Row], dir: &DirRef) -> Option<usize>
    ensures { result ≡ position (λ r. is_same_dir r.dir dir.now) rows.now }
{
    rows.iter().position(|row| row.dir == *dir)
}

/// Counts up from a version as rows take it, in one walk. Rows are mostly added in the order of their versions: one
/// walk then passes them all, and the next one finds the version free.
fn next_version(rows: &[Row], name: &Name, version: u64) -> u64
    requires { (v : ℕ) → v < version → has_version name.now v rows.now ≡ true }
    ensures taken { (v : ℕ) → v < result → has_version name.now v rows.now ≡ true }
    ensures not_less { version ≤ result }
    ensures free { result ≡ version → has_version name.now version rows.now ≡ false }
{
    let mut next = version;
    for index in 0..rows.len() {
        let row = &rows[index];
        if row.name == *name && row.version == next {
            next += 1;
        }
    }
    next
}
