//! How directories, keys, triples and chains are printed.

ghost use Rattle.std.specs.Prelude.{◌≡◌, ◌++◌, OnOk, codes};
ghost use Rattle.inf_report.specs.Identifiers.{id_text, born_text, dir_text, triple_text, key_text, look_key_text, home_text, access_text, chain_text};

use crate::numbers::{push_joined, push_mode, push_next_number, push_number};
use inf_base::{Access, Chain, DirRef, Home, Id, Key, LookKey, NoMemory, Place, Triple};

pub fn push_id(out: &mut Vec<u8>, id: &Id) -> Result<(), NoMemory>
    ensures { OnOk result (out.new.items ≡ out.old.items ++ id_text id.now) }
{
    let mut digits = [0u8; 64];
    let _ = hex::encode_to_slice(id.bytes, &mut digits);
    out.extend_from_slice(&digits)?;
    Ok(())
}

fn push_born(out: &mut Vec<u8>, id: &Id, born: Place) -> Result<(), NoMemory>
    ensures { OnOk result (out.new.items ≡ out.old.items ++ born_text id.now born) }
{
    push_id(out, id)?;
    out.extend_from_slice(b"#")?;
    push_number(out, born)
}

pub fn push_dir(out: &mut Vec<u8>, dir: &DirRef) -> Result<(), NoMemory>
    ensures { OnOk result (out.new.items ≡ out.old.items ++ dir_text dir.now) }
{
    push_born(out, &dir.id, dir.born)
}

/// A word and some bytes behind it.
pub fn push_behind(out: &mut Vec<u8>, word: &[u8], bytes: &[u8]) -> Result<(), NoMemory>
    ensures { OnOk result (out.new.items ≡ out.old.items ++ word.now ++ bytes.now) }
{
    out.extend_from_slice(word)?;
    out.extend_from_slice(bytes)?;
    Ok(())
}

pub fn push_triple(out: &mut Vec<u8>, triple: &Triple) -> Result<(), NoMemory>
    ensures { OnOk result (out.new.items ≡ out.old.items ++ triple_text triple.now) }
{
    match triple {
        Triple::Root => {
            out.extend_from_slice(b"root")?;
            Ok(())
        }
        Triple::Of {
            parent,
            name,
            version,
        } => {
            push_id(out, parent)?;
            push_behind(out, b"/", name.as_slice())?;
            out.extend_from_slice(b"/")?;
            push_number(out, *version)
        }
    }
}

pub fn push_key(out: &mut Vec<u8>, key: &Key) -> Result<(), NoMemory>
    ensures { OnOk result (out.new.items ≡ out.old.items ++ key_text key.now) }
{
    match key {
        Key::Top => {
            out.extend_from_slice(b"top")?;
            Ok(())
        }
        Key::At { dir, name } => {
            push_dir(out, dir)?;
            push_behind(out, b"/", name.as_slice())
        }
    }
}

pub fn push_look_key(out: &mut Vec<u8>, key: &LookKey) -> Result<(), NoMemory>
    ensures { OnOk result (out.new.items ≡ out.old.items ++ look_key_text key.now) }
{
    match key {
        LookKey::Top => {
            out.extend_from_slice(b"top")?;
            Ok(())
        }
        LookKey::At { dir, name } => {
            push_id(out, dir)?;
            push_behind(out, b" ", name.as_slice())
        }
    }
}

pub fn push_home(out: &mut Vec<u8>, home: &Home) -> Result<(), NoMemory>
    ensures { OnOk result (out.new.items ≡ out.old.items ++ home_text home.now) }
{
    match home {
        Home::Top => {
            out.extend_from_slice(b"top")?;
            Ok(())
        }
        Home::In(dir) => push_dir(out, dir),
    }
}

pub fn push_access(out: &mut Vec<u8>, access: &Access) -> Result<(), NoMemory>
    ensures { OnOk result (out.new.items ≡ out.old.items ++ access_text access.now) }
{
    push_born(out, &access.id, access.born)?;
    out.extend_from_slice(b" ")?;
    push_mode(out, access.mode)?;
    push_next_number(out, u64::from(access.owner))?;
    push_next_number(out, u64::from(access.group))?;
    out.extend_from_slice(b" ")?;
    push_triple(out, &access.birth)
}

pub fn push_chain(out: &mut Vec<u8>, chain: &Chain) -> Result<(), NoMemory>
    ensures { OnOk result (out.new.items ≡ out.old.items ++ chain_text chain.now) }
{
    let mut is_first = true;
    for entry in chain.as_slice() {
        push_joined(out, is_first, entry.stamp)?;
        is_first = false;
    }
    if is_first {
        out.extend_from_slice(b"-")?;
    }
    Ok(())
}
