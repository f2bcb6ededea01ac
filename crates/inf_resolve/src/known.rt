//! What an attempt was told, by key.

ghost use Rattle.std.specs.Prelude.{◌≡◌, Option, option_map, IfOk};
ghost use Rattle.std.specs.Option.{option_copied};
ghost use Rattle.inf_base.specs.declared.entry.Entry.{Entry as Told};
ghost use Rattle.inf_base.specs.declared.key.LookKey.TheVariants as look;
ghost use Rattle.inf_base.specs.Same.{dir_of as the_dir};
ghost use Rattle.inf_resolve.specs.Known.{busy_behind, entry_behind, is_same_key, links_to, told_at, told_entry, told_under};

use inf_base::{
    Access, CallRef, DirRef, Entry, Id, Key, LookKey, Name, NoMemory, Place, Shared, TryClone,
};
use inf_message::Reply;
use std::alloc::Global;

/// The reply to a lookup: the key that was asked, and the place of the Serve. An attempt has few more of them than its
/// paths have names, so they are searched one after another.
#[derive(Debug, Drop)]
pub struct Known {
    pub key: LookKey,
    pub reply: Reply,
    pub place: Place,
}

/// Whether a key names this directory and this name in it.
fn is_key_at(key: &LookKey, dir: &Id, name: &Name) -> bool
    ensures { result ≡ is_same_key (look.At dir.now name.now) key.now }
{
    match key {
        LookKey::Top => false,
        LookKey::At {
            dir: other_dir,
            name: other_name,
        } => dir.bytes == other_dir.bytes && name == other_name,
    }
}

pub(crate) fn is_same_key(wanted: &LookKey, key: &LookKey) -> bool
    ensures { result ≡ is_same_key wanted.now key.now }
{
    match wanted {
        LookKey::Top => matches!(key, LookKey::Top),
        LookKey::At { dir, name } => is_key_at(key, dir, name),
    }
}

/// What was told under a key.
pub(crate) fn told_under<'a>(known: &'a [Known], wanted: &LookKey) -> Option<&'a Known>
    ensures { option_copied result ≡ told_under wanted.now known.now }
{
    known.iter().find(|x| is_same_key(wanted, &x.key))
}

/// What was told of a name in the directory of an identifier.
pub(crate) fn told_at<'a>(known: &'a [Known], id: &Id, name: &Name) -> Option<&'a Known>
    ensures { option_copied result ≡ told_at known.now id.now name.now }
{
    known.iter().find(|x| is_key_at(&x.key, id, name))
}

/// The directory that an access object is of.
pub(crate) fn dir_of(access: &Access) -> DirRef
    ensures { result ≡ the_dir access.now }
{
    DirRef {
        id: access.id,
        born: access.born,
    }
}

/// Whether an access object of this key stands in that directory: one of the same identifier may be another directory.
fn links_to(dir: &DirRef, key: &Key) -> bool
    ensures { result ≡ links_to dir.now key.now }
{
    match key {
        Key::Top => false,
        Key::At { dir: other, .. } => other.id.bytes == dir.id.bytes && other.born == dir.born,
    }
}

/// The directory that goes on behind another, by what was told of a name there.
pub(crate) fn dir_behind(dir: &DirRef, told: Option<&Known>) -> Option<DirRef>
    ensures { result ≡ option_map (λ (e : Told). the_dir e.access) (entry_behind dir.now (option_copied told.entry)) }
{
    match &told?.reply {
        Reply::Found { key, access } if links_to(dir, key) => Some(dir_of(access)),
        _ => None,
    }
}

/// The entry that goes on behind a directory.
pub(crate) fn entry_behind(
    alloc: Global,
    dir: &DirRef,
    told: Option<&Known>,
) -> Result<Option<Entry>, NoMemory>
    ensures { IfOk result (λ entry. entry ≡ entry_behind dir.now (option_copied told.entry)) }
{
    let Some(told) = told else {
        return Ok(None);
    };
    match &told.reply {
        Reply::Found { key, access } if links_to(dir, key) => {
            Ok(Some(told_entry(alloc, key, access, told.place)?))
        }
        _ => Ok(None),
    }
}

/// An access object as it was told; the reply shares it.
pub(crate) fn told_entry(
    alloc: Global,
    key: &Shared<Key>,
    access: &Shared<Access>,
    place: Place,
) -> Result<Entry, NoMemory>
    ensures { IfOk result (λ entry. entry ≡ told_entry key.now access.now place) }
{
    Ok(Entry {
        key: key.try_clone(alloc)?,
        access: access.try_clone(alloc)?,
        stamp: place,
    })
}

/// The change that is in the way behind a directory, and where it was told.
pub(crate) fn busy_behind(dir: &DirRef, told: Option<&Known>) -> Option<(CallRef, Place)>
    ensures { result ≡ busy_behind dir.now (option_copied told.entry) }
{
    let told = told?;
    match &told.reply {
        Reply::Busy { by, born, .. } if *born == dir.born => Some((*by, told.place)),
        _ => None,
    }
}
