//! The keys that are to be asked.

ghost use Rattle.std.specs.Prelude.{◌≡◌, OnOk, IfOk};
ghost use Rattle.std.specs.List.{fold};
ghost use Rattle.std.specs.Option.{option_copied};
ghost use Rattle.inf_base.specs.declared.key.LookKey.TheVariants as look;
ghost use Rattle.inf_resolve.specs.Keys.{is_among, keys_at, keys_from, leads_to, predicted, with_key};
ghost use Rattle.inf_resolve.specs.Walk.{halts};

use crate::known::{Known, is_same_key, told_at, told_under};
use crate::walked::Halt;
use inf_base::{Id, LookKey, Name, NoMemory, TryClone};
use inf_birth::{IdRule, identity_of};
use inf_message::Reply;
use std::alloc::Global;

/// The identifier that a name leads to: the one that was told, or else the prediction.
fn leads_to<R: IdRule>(rule: &R, id: &Id, name: &Name, told: Option<&Known>) -> Id
    ensures { result ≡ leads_to (R.digest_of rule.now) id.now name.now (option_copied told.entry) }
{
    let Some(told) = told else {
        return predicted(rule, id, name);
    };
    match &told.reply {
        Reply::Found { access, .. } => access.id,
        _ => predicted(rule, id, name),
    }
}

/// What is made under a name for the first time has version 0.
fn predicted<R: IdRule>(rule: &R, id: &Id, name: &Name) -> Id
    ensures { result ≡ predicted (R.digest_of rule.now) id.now name.now }
{
    identity_of(rule, id, name, 0)
}

fn is_among(wanted: &LookKey, keys: &[LookKey]) -> bool
    ensures { result ≡ is_among wanted.now keys.now }
{
    keys.iter().any(|key| is_same_key(wanted, key))
}

/// One more key, unless it is known or among those already.
pub(crate) fn push_key(
    known: &[Known],
    keys: &mut Vec<LookKey>,
    key: LookKey,
) -> Result<(), NoMemory>
    ensures { OnOk result (keys.new.items ≡ with_key known.now keys.old.items key) }
{
    if told_under(known, &key).is_none() && !is_among(&key, keys.as_slice()) {
        keys.push(key)?;
    }
    Ok(())
}

fn key_at(alloc: Global, dir: Id, name: &Name) -> Result<LookKey, NoMemory>
    ensures { IfOk result (λ key. key ≡ look.At dir name.now) }
{
    Ok(LookKey::At {
        dir,
        name: name.try_clone(alloc)?,
    })
}

/// The keys of names from the directory of an identifier on.
pub(crate) fn push_keys_from<R: IdRule>(
    alloc: Global,
    rule: &R,
    known: &[Known],
    keys: &mut Vec<LookKey>,
    id: Id,
    names: &[Name],
) -> Result<(), NoMemory>
    ensures { OnOk result (keys.new.items
        ≡ fold (with_key known.now) keys.old.items (keys_from (R.digest_of rule.now) known.now id names.now)) }
{
    let Some((first, others)) = names.split_first() else {
        return Ok(());
    };
    let mut dir = id;
    let mut above = first;
    push_key(known, keys, key_at(alloc, dir, first)?)?;
    for name in others {
        dir = leads_to(rule, &dir, above, told_at(known, &dir, above));
        above = name;
        push_key(known, keys, key_at(alloc, dir, name)?)?;
    }
    Ok(())
}

/// The keys that a path still needs where it halts.
pub(crate) fn push_keys_at<R: IdRule>(
    alloc: Global,
    rule: &R,
    known: &[Known],
    keys: &mut Vec<LookKey>,
    halt: Halt<'_>,
) -> Result<(), NoMemory>
    ensures { OnOk result (keys.new.items
        ≡ fold (with_key known.now) keys.old.items
        (keys_at (R.digest_of rule.now) known.now (halts halt.entry.dir halt.entry.left.now))) }
{
    let Some(name) = halt.left.first() else {
        return Ok(());
    };
    if told_at(known, &halt.dir.id, name).is_some() {
        return Ok(());
    }
    push_keys_from(alloc, rule, known, keys, halt.dir.id, halt.left)
}
