//! How far the names of a path lead.

ghost use Rattle.std.specs.Prelude.{◌≡◌, ◌∷◌, length, IfOk};
ghost use Rattle.inf_base.specs.Same.{dir_of as the_dir};
ghost use Rattle.inf_resolve.specs.Walk.{busy_at, halt_of, halts, walk, way};

use crate::known::{Known, busy_behind, dir_behind, dir_of, entry_behind, told_at};
use inf_base::{CallRef, Chain, DirRef, Entry, Name, Names, NoMemory, Place, Sequence, TryClone};
use std::alloc::Global;

/// How far a path was followed.
#[derive(Debug, Drop)]
pub struct Walked {
    /// The entries that were told and link, the root's first.
    pub chain: Chain,
    /// The names that are left: the path stops at the first of these, or has come to its end where there is none.
    pub left: Names,
}

/// Where a path comes to a halt.
#[derive(Clone, Copy)]
pub(crate) struct Halt<'a> {
    /// The directory that its chain leads to.
    pub dir: DirRef,
    pub left: &'a [Name],
}

/// Follows the names from a directory on.
pub(crate) fn halt_of<'a>(known: &[Known], dir: DirRef, names: &'a [Name]) -> Halt<'a>
    ensures { halts result.dir result.left.now ≡ halt_of known.now dir names.now }
{
    let mut dir = dir;
    let mut left = names;
    while let Some((name, others)) = left.split_first() {
        let Some(next) = dir_behind(&dir, told_at(known, &dir.id, name)) else {
            break;
        };
        dir = next;
        left = others;
    }
    Halt { dir, left }
}

/// The change that is in the way where a path halts.
pub(crate) fn busy_at(known: &[Known], halt: Halt<'_>) -> Option<(CallRef, Place)>
    ensures { result ≡ busy_at known.now (halts halt.entry.dir halt.entry.left.now) }
{
    let name = halt.left.first()?;
    busy_behind(&halt.dir, told_at(known, &halt.dir.id, name))
}

/// The root's entry, and those on the way along the names.
fn chain_of(
    alloc: Global,
    known: &[Known],
    root: Entry,
    names: &[Name],
) -> Result<Vec<Entry>, NoMemory>
    ensures { IfOk result (λ chain. chain.items ≡ root ∷ way known.now (the_dir root.access) names.now) }
{
    let mut dir = dir_of(&root.access);
    let mut chain = Vec::with_capacity(alloc, 1 + names.len())?;
    chain.push(root)?;
    for name in names {
        let Some(entry) = entry_behind(alloc, &dir, told_at(known, &dir.id, name))? else {
            break;
        };
        dir = dir_of(&entry.access);
        chain.push(entry)?;
    }
    Ok(chain)
}

fn copied(alloc: Global, names: &[Name]) -> Result<Names, NoMemory>
    ensures { IfOk result (λ copy. copy ≡ names.now) }
{
    let mut copy = Vec::with_capacity(alloc, names.len())?;
    for name in names {
        copy.push(name.try_clone(alloc)?)?;
    }
    Ok(Names::new(copy))
}

/// The chain of a path that comes to this halt, and the names that are left.
pub(crate) fn walk(
    alloc: Global,
    known: &[Known],
    root: &Entry,
    names: &[Name],
    left: &[Name],
) -> Result<Walked, NoMemory>
    requires { left.now ≡ (halt_of known.now (the_dir root.now.access) names.now).left }
    ensures { IfOk result (λ w. w ≡ walk known.now root.now names.now) }
{
    let chain = chain_of(alloc, known, root.try_clone(alloc)?, names)?;
    Ok(Walked {
        chain: Chain::new(alloc, Sequence::new(chain))?,
        left: copied(alloc, left)?,
    })
}
