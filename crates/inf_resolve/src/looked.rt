//! The names that a call looks up: what an attempt asks next, or where they lead.

ghost use Rattle.std.specs.Prelude.{◌≡◌, ◌∷◌, ◌++◌, ℕ, List, IfOk};
ghost use Rattle.std.specs.Option.{option_or};
ghost use Rattle.inf_base.specs.declared.entry.Entry.{Entry as Told};
ghost use Rattle.inf_base.specs.declared.id.Id.{Id as Identifier};
ghost use Rattle.inf_base.specs.declared.key.LookKey.TheVariants as look;
ghost use Rattle.inf_base.specs.Same.{dir_of as the_dir};
ghost use Rattle.inf_resolve.specs.Keys.{keys_at, keys_from, to_ask};
ghost use Rattle.inf_resolve.specs.Resolved.{behind_root, first_round, resolved, verdict_of};
ghost use Rattle.inf_resolve.specs.Walk.{busy_at, halts};

use crate::keys::{push_key, push_keys_at, push_keys_from};
use crate::known::{Known, dir_of, told_entry, told_under};
use crate::resolved::{Resolved, Verdict};
use crate::walked::{Halt, Walked, busy_at, halt_of, walk};
use inf_base::{CallRef, DirRef, Entry, Id, LookKey, LookKeys, Names, NoMemory, Place, TryClone};
use inf_birth::IdRule;
use inf_message::Reply;
use std::alloc::Global;

/// The names that are looked up of each path of a call, in path order. A call with one path has no new one.
#[derive(Debug, Drop)]
pub struct Looked {
    pub old: Names,
    pub new: Names,
}

impl Looked {
    /// What becomes of an attempt by what it was told so far, from the root of this identifier on.
    pub fn resolve<R: IdRule>(
        &self,
        alloc: Global,
        rule: &R,
        root: &Id,
        known: &[Known],
    ) -> Result<Resolved, NoMemory>
        ensures { IfOk result (λ r. r ≡ resolved (R.digest_of rule.now) root.now self.now known.now) }
    {
        let Some(told) = told_under(known, &LookKey::Top) else {
            return self.first_round(alloc, rule, root, known);
        };
        match &told.reply {
            Reply::Found { key, access } => {
                let top = told_entry(alloc, key, access, told.place)?;
                self.behind_root(alloc, rule, known, &top)
            }
            Reply::Busy { by, .. } => Ok(Resolved::IsBusy(*by, told.place)),
            _ => Ok(Resolved::Lacks),
        }
    }

    /// Whether the attempt is over by what it was told so far. Takes no memory.
    pub fn verdict(&self, known: &[Known]) -> Verdict
        ensures { (digest : List ℕ → Identifier) (root : Identifier) → result
            ≡ verdict_of (resolved digest root self.now known.now) }
    {
        let Some(told) = told_under(known, &LookKey::Top) else {
            return Verdict::GoesOn;
        };
        match &told.reply {
            Reply::Found { access, .. } => self.verdict_behind(dir_of(access), known),
            Reply::Busy { by, .. } => Verdict::IsBusy(*by, told.place),
            _ => Verdict::Lacks,
        }
    }

    fn verdict_behind(&self, dir: DirRef, known: &[Known]) -> Verdict
        ensures { (digest : List ℕ → Identifier) (root : Told) → the_dir root.access ≡ dir → result
            ≡ verdict_of (behind_root digest self.now known.now root) }
    {
        let old = halt_of(known, dir, self.old.as_slice());
        let new = halt_of(known, dir, self.new.as_slice());
        match first_busy(known, old, new) {
            Some((by, place)) => Verdict::IsBusy(by, place),
            None => Verdict::GoesOn,
        }
    }

    fn first_round<R: IdRule>(
        &self,
        alloc: Global,
        rule: &R,
        root: &Id,
        known: &[Known],
    ) -> Result<Resolved, NoMemory>
        ensures { IfOk result (λ r. r ≡ first_round (R.digest_of rule.now) root.now self.now known.now) }
    {
        let mut keys = Vec::new(alloc);
        push_key(known, &mut keys, LookKey::Top)?;
        let old = self.old.as_slice();
        push_keys_from(alloc, rule, known, &mut keys, *root, old)?;
        let new = self.new.as_slice();
        push_keys_from(alloc, rule, known, &mut keys, *root, new)?;
        Ok(Resolved::Asks(LookKeys::new(keys)))
    }

    fn behind_root<R: IdRule>(
        &self,
        alloc: Global,
        rule: &R,
        known: &[Known],
        root: &Entry,
    ) -> Result<Resolved, NoMemory>
        ensures { IfOk result (λ r. r ≡ behind_root (R.digest_of rule.now) self.now known.now root.now) }
    {
        let dir = dir_of(&root.access);
        let (old_names, new_names) = (self.old.as_slice(), self.new.as_slice());
        let (old, new) = (
            halt_of(known, dir, old_names),
            halt_of(known, dir, new_names),
        );
        if let Some((by, place)) = first_busy(known, old, new) {
            return Ok(Resolved::IsBusy(by, place));
        }
        let keys = keys_left(alloc, rule, known, old, new)?;
        if !keys.is_empty() {
            return Ok(Resolved::Asks(LookKeys::new(keys)));
        }
        let first = walk(alloc, known, root, old_names, old.left)?;
        // Where no name is looked up, both paths have the root alone, in one piece of memory.
        let second = if old_names.is_empty() && new_names.is_empty() {
            Walked {
                chain: first.chain.try_clone(alloc)?,
                left: Names::new(Vec::new(alloc)),
            }
        } else {
            walk(alloc, known, root, new_names, new.left)?
        };
        Ok(Resolved::Leads(first, second))
    }
}

/// The change that is in the way where the old path halts, or else where the new one does.
fn first_busy(known: &[Known], old: Halt<'_>, new: Halt<'_>) -> Option<(CallRef, Place)>
    ensures { result ≡ option_or (busy_at known.now (halts old.entry.dir old.entry.left.now))
        (busy_at known.now (halts new.entry.dir new.entry.left.now)) }
{
    busy_at(known, old).or(busy_at(known, new))
}

/// The keys that the paths still need, the old path's first.
fn keys_left<R: IdRule>(
    alloc: Global,
    rule: &R,
    known: &[Known],
    old: Halt<'_>,
    new: Halt<'_>,
) -> Result<Vec<LookKey>, NoMemory>
    ensures { IfOk result (λ keys. keys.items ≡ to_ask known.now
        (keys_at (R.digest_of rule.now) known.now (halts old.entry.dir old.entry.left.now)
        ++ keys_at (R.digest_of rule.now) known.now (halts new.entry.dir new.entry.left.now))) }
{
    let mut keys = Vec::new(alloc);
    push_keys_at(alloc, rule, known, &mut keys, old)?;
    push_keys_at(alloc, rule, known, &mut keys, new)?;
    Ok(keys)
}
