//! The checks that come before anything is looked up.

ghost use Rattle.std.specs.Prelude.{◌≡◌, Ok, Err, IfOk, IfErr, OnOk, map};
ghost use Rattle.std.specs.List.{list_all};
ghost use Rattle.std.specs.Option.{option_copied};
ghost use Rattle.inf_base.specs.Same.{dir_of};
ghost use Rattle.inf_content.specs.Slots.{seen_of, slot_in};
ghost use Rattle.inf_perm.specs.declared.want.Want.TheVariants as want;
ghost use Rattle.inf_server.specs.Chains.{before_last, has_entry, last_of};
ghost use Rattle.inf_server.specs.Checks.{have_entries, lets, searched, unsealed, writable};
ghost use Rattle.inf_server.specs.Files.{no_directory};
ghost use Rattle.inf_server.specs.Names.{is_missing, unless_held, unless_taken};
ghost use Rattle.inf_server.specs.Refusal.{reply_of};

use crate::refusal::Refusal;
use inf_base::{Access, CallRef, Caller, Chain, DirRef, Entry, Errno, Name, Place};
use inf_content::{Directory, Seen};
use inf_message::Spot;
use inf_perm::{Want, may};

/// The directory that an access object is of.
pub fn dir_of(access: &Access) -> DirRef
    ensures { result ≡ dir_of access.now }
{
    DirRef {
        id: access.id,
        born: access.born,
    }
}

pub fn last_of(chain: &[Entry]) -> Option<&Entry>
    ensures { option_copied result ≡ last_of chain.now }
{
    chain.last()
}

/// The entries of the way to the directory that ends the chain.
pub fn before_last(chain: &[Entry]) -> &[Entry]
    ensures { result.now ≡ before_last chain.now }
{
    match chain {
        [] => chain,
        [way @ .., _] => way,
    }
}

/// No chain that a request carries is without an entry.
#[tactic(auto, using(crate::proofs::Carried::all_read))]
pub fn have_entries(carried: &[&Chain]) -> Result<(), Refusal>
    ensures ok { OnOk result (have_entries (map (λ chain. chain.now) carried.now) ≡ Ok tt) }
    ensures refused { IfErr result (λ refusal.
        have_entries (map (λ chain. chain.now) carried.now) ≡ Err (reply_of refusal)) }
{
    if all_have_entries(carried) {
        Ok(())
    } else {
        Err(Refusal::Other)
    }
}

fn all_have_entries(carried: &[&Chain]) -> bool
    ensures { result ≡ list_all (λ chain. has_entry chain.now) carried.now }
{
    carried.iter().all(|chain| has_entry(chain))
}

fn has_entry(chain: &Chain) -> bool
    ensures { result ≡ has_entry chain.now }
{
    !chain.as_slice().is_empty()
}

/// A seal of another call stands in the way.
pub fn unsealed(by: CallRef, born: Place, seal: Option<CallRef>) -> Result<(), Refusal>
    ensures ok { OnOk result (unsealed by born seal ≡ Ok tt) }
    ensures refused { IfErr result (λ refusal. unsealed by born seal ≡ Err (reply_of refusal)) }
{
    match seal {
        None => Ok(()),
        Some(sealer) => {
            if sealer == by {
                Ok(())
            } else {
                Err(Refusal::Busy(sealer, Spot::Sealed, born))
            }
        }
    }
}

fn unless_held(
    by: CallRef,
    born: Place,
    found: Seen,
    held: Option<CallRef>,
) -> Result<Seen, Refusal>
    ensures ok { IfOk result (λ there. unless_held by born found held ≡ Ok there) }
    ensures refused { IfErr result (λ refusal. unless_held by born found held ≡ Err (reply_of refusal)) }
{
    match held {
        None => Ok(found),
        Some(holder) => {
            if holder == by {
                Ok(found)
            } else {
                Err(Refusal::Busy(holder, Spot::Slot, born))
            }
        }
    }
}

/// What another call holds or reserved is in the way.
fn unless_taken(by: CallRef, born: Place, found: Seen) -> Result<Seen, Refusal>
    ensures ok { IfOk result (λ there. unless_taken by born found ≡ Ok there) }
    ensures refused { IfErr result (λ refusal. unless_taken by born found ≡ Err (reply_of refusal)) }
{
    match found {
        Seen::Gone => Err(Refusal::Gone),
        Seen::Missing => Ok(Seen::Missing),
        Seen::Reserved(other) => {
            if other == by {
                Err(Refusal::Other)
            } else {
                Err(Refusal::Busy(other, Spot::Slot, born))
            }
        }
        Seen::File { held, .. } => unless_held(by, born, found, held),
        Seen::Dir { held, .. } => unless_held(by, born, found, held),
    }
}

/// What the call finds under a name of the directory.
pub fn find(by: CallRef, directory: &Directory<'_>, name: &Name) -> Result<Seen, Refusal>
    ensures ok { IfOk result (λ found.
        unless_taken by directory.now.dir.born (seen_of (slot_in name.now directory.now.slots)) ≡ Ok found) }
    ensures refused { IfErr result (λ refusal.
        unless_taken by directory.now.dir.born (seen_of (slot_in name.now directory.now.slots))
        ≡ Err (reply_of refusal)) }
{
    unless_taken(by, directory.born(), directory.look(name))
}

/// Whether each directory of the chain lets the caller search.
pub fn search(caller: Caller, chain: &[Entry]) -> Result<(), Refusal>
    ensures ok { OnOk result (searched caller chain.now ≡ Ok tt) }
    ensures refused { IfErr result (λ refusal. searched caller chain.now ≡ Err (reply_of refusal)) }
{
    if all_let_search(caller, chain) {
        Ok(())
    } else {
        Err(Refusal::Denied(Errno::EACCES))
    }
}

fn all_let_search(caller: Caller, chain: &[Entry]) -> bool
    ensures { result ≡ list_all (lets caller want.Search) chain.now }
{
    chain.iter().all(|entry| lets(caller, Want::Search, entry))
}

/// Whether the directory asked lets the caller write.
pub fn write(caller: Caller, entry: &Entry) -> Result<(), Refusal>
    ensures ok { OnOk result (writable caller entry.now ≡ Ok tt) }
    ensures refused { IfErr result (λ refusal. writable caller entry.now ≡ Err (reply_of refusal)) }
{
    if lets(caller, Want::Write, entry) {
        Ok(())
    } else {
        Err(Refusal::Denied(Errno::EACCES))
    }
}

fn lets(caller: Caller, want: Want, entry: &Entry) -> bool
    ensures { result ≡ lets caller want entry.now }
{
    let access = &entry.access;
    may(access.mode, access.owner, access.group, caller, want)
}

/// Why a path cannot go on from what was found.
pub fn no_directory(found: Seen) -> Refusal
    ensures { reply_of result ≡ no_directory found }
{
    match found {
        Seen::Gone => Refusal::Gone,
        Seen::Missing => Refusal::Denied(Errno::ENOENT),
        Seen::Reserved(_) => Refusal::Other,
        Seen::File { .. } => Refusal::Denied(Errno::ENOTDIR),
        Seen::Dir { .. } => Refusal::Other,
    }
}

pub fn is_missing(found: Seen) -> bool
    ensures { result ≡ is_missing found }
{
    match found {
        Seen::Missing => true,
        Seen::Gone => false,
        Seen::Reserved(_) => false,
        Seen::File { .. } => false,
        Seen::Dir { .. } => false,
    }
}
