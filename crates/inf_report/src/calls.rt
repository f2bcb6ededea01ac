//! How calls, answers and what they hold are printed.

ghost use Rattle.std.specs.Prelude.{◌≡◌, ◌++◌, OnOk, codes, option_map, slice_get};
ghost use Rattle.std.specs.List.{flat_map};
ghost use Rattle.std.specs.Option.{option_copied};
ghost use Rattle.inf_report.specs.Calls.{answer_text, call_at, call_text, client_name, errno_text, item_text, kind_text, listing_text, ref_text, refused_text, stat_text, words_of};
ghost use Rattle.inf_report.specs.Identifiers.{triple_text};
ghost use Rattle.inf_report.specs.Numbers.{mode_text};

use crate::identifiers::{push_behind, push_triple};
use crate::numbers::{push_meta, push_mode, push_next_number, push_number};
use inf_base::{
    Answer, Call, CallRef, ClientLine, Errno, FileMeta, Item, Items, Kind, NoMemory, Text, Triple,
};

fn kind_word(kind: Kind) -> &'static [u8]
    ensures { result.now ≡ kind_text kind }
{
    match kind {
        Kind::File => b"file",
        Kind::Dir => b"dir",
    }
}

pub fn errno_word(error: Errno) -> &'static [u8]
    ensures { result.now ≡ errno_text error }
{
    match error {
        Errno::ENOENT => b"ENOENT",
        Errno::ENOTDIR => b"ENOTDIR",
        Errno::EACCES => b"EACCES",
        Errno::EEXIST => b"EEXIST",
        Errno::ENOTEMPTY => b"ENOTEMPTY",
        Errno::EINVAL => b"EINVAL",
        Errno::EPERM => b"EPERM",
        Errno::EISDIR => b"EISDIR",
        Errno::EBUSY => b"EBUSY",
        Errno::ENAMETOOLONG => b"ENAMETOOLONG",
    }
}

fn push_item(out: &mut Vec<u8>, item: &Item) -> Result<(), NoMemory>
    ensures { OnOk result (out.new.items ≡ out.old.items ++ item_text item.now) }
{
    push_behind(out, b" ", item.name.as_slice())?;
    match item.kind {
        Kind::File => {}
        Kind::Dir => out.extend_from_slice(b"/")?,
    }
    Ok(())
}

fn push_items(out: &mut Vec<u8>, items: &Items) -> Result<(), NoMemory>
    ensures { OnOk result (out.new.items ≡ out.old.items ++ flat_map item_text items.now) }
{
    for item in items.as_slice() {
        push_item(out, item)?;
    }
    Ok(())
}

pub fn push_listing(out: &mut Vec<u8>, items: &Items) -> Result<(), NoMemory>
    ensures { OnOk result (out.new.items ≡ out.old.items ++ listing_text items.now) }
{
    out.extend_from_slice(b"list ")?;
    push_number(out, items.len() as u64)?;
    push_items(out, items)
}

pub fn push_stat(out: &mut Vec<u8>, kind: Kind, meta: &FileMeta) -> Result<(), NoMemory>
    ensures { OnOk result (out.new.items ≡ out.old.items ++ stat_text kind meta.now) }
{
    push_behind(out, b"stat ", kind_word(kind))?;
    out.extend_from_slice(b" ")?;
    push_meta(out, meta)
}

pub fn push_refused(out: &mut Vec<u8>, error: Errno) -> Result<(), NoMemory>
    ensures { OnOk result (out.new.items ≡ out.old.items ++ refused_text error) }
{
    push_behind(out, b"refused ", errno_word(error))
}

fn client_word(clients: &[ClientLine], client: u32) -> &[u8]
    ensures { result.now ≡ client_name (slice_get clients.now client) }
{
    match clients.get(client as usize) {
        Some(line) => line.name.as_slice(),
        None => &[],
    }
}

/// The client's name, a point and the number of the call. A client that the setup does not have is printed with no
/// name.
pub fn push_ref(out: &mut Vec<u8>, clients: &[ClientLine], from: CallRef) -> Result<(), NoMemory>
    ensures { OnOk result (out.new.items ≡ out.old.items ++ ref_text clients.now from) }
{
    push_behind(out, client_word(clients, from.client), b".")?;
    push_number(out, u64::from(from.number))
}

fn push_with_mode(out: &mut Vec<u8>, word: &[u8], path: &Text, mode: u16) -> Result<(), NoMemory>
    ensures { OnOk result
        (out.new.items ≡ out.old.items ++ word.now ++ path.now ++ codes " " ++ mode_text mode) }
{
    push_behind(out, word, path.as_slice())?;
    out.extend_from_slice(b" ")?;
    push_mode(out, mode)
}

/// The words of a script line after the client's name, joined by single spaces.
fn push_call(out: &mut Vec<u8>, call: &Call) -> Result<(), NoMemory>
    ensures { OnOk result (out.new.items ≡ out.old.items ++ call_text call.now) }
{
    match call {
        Call::Mkdir { path, mode } => push_with_mode(out, b"mkdir ", path, *mode),
        Call::Create { path, mode } => push_with_mode(out, b"create ", path, *mode),
        Call::Rmdir { path } => push_behind(out, b"rmdir ", path.as_slice()),
        Call::Unlink { path } => push_behind(out, b"unlink ", path.as_slice()),
        Call::Stat { path } => push_behind(out, b"stat ", path.as_slice()),
        Call::List { path } => push_behind(out, b"list ", path.as_slice()),
        Call::Truncate { path, length } => {
            push_behind(out, b"truncate ", path.as_slice())?;
            push_next_number(out, *length)
        }
        Call::Chmod { path, mode } => push_with_mode(out, b"chmod ", path, *mode),
        Call::Rename { old, new } => {
            push_behind(out, b"rename ", old.as_slice())?;
            push_behind(out, b" ", new.as_slice())
        }
    }
}

fn call_of(clients: &[ClientLine], from: CallRef) -> Option<&Call>
    ensures { option_copied result ≡ call_at clients.now from }
{
    match clients.get(from.client as usize) {
        Some(client) => client
            .calls
            .as_slice()
            .get(from.number.saturating_sub(1) as usize),
        None => None,
    }
}

/// The words of the call that is meant; none where the setup does not have it.
pub fn push_words(out: &mut Vec<u8>, clients: &[ClientLine], from: CallRef) -> Result<(), NoMemory>
    ensures { OnOk result (out.new.items ≡ out.old.items ++ words_of (call_at clients.now from)) }
{
    match call_of(clients, from) {
        Some(call) => push_call(out, call),
        None => Ok(()),
    }
}

fn push_clash(out: &mut Vec<u8>, own: &Triple, kept: &Triple) -> Result<(), NoMemory>
    ensures { OnOk result
        (out.new.items ≡ out.old.items ++ codes "clash " ++ triple_text own.now ++ codes " " ++ triple_text kept.now) }
{
    out.extend_from_slice(b"clash ")?;
    push_triple(out, own)?;
    out.extend_from_slice(b" ")?;
    push_triple(out, kept)
}

/// A word alone.
pub fn push_word(out: &mut Vec<u8>, word: &[u8]) -> Result<(), NoMemory>
    ensures { OnOk result (out.new.items ≡ out.old.items ++ word.now) }
{
    out.extend_from_slice(word)?;
    Ok(())
}

/// The words of an answer.
pub fn push_answer(
    out: &mut Vec<u8>,
    clients: &[ClientLine],
    answer: &Answer,
) -> Result<(), NoMemory>
    ensures { OnOk result (out.new.items ≡ out.old.items ++ answer_text clients.now answer.now) }
{
    match answer {
        Answer::Done => push_word(out, b"done"),
        Answer::Stat { kind, meta } => push_stat(out, *kind, meta),
        Answer::Listing(items) => push_listing(out, items),
        Answer::Refused(error) => push_refused(out, *error),
        Answer::Again(by) => {
            out.extend_from_slice(b"again ")?;
            push_ref(out, clients, *by)
        }
        Answer::IdClash(own, kept) => push_clash(out, own, kept),
        Answer::NoMemory => push_word(out, b"nomemory"),
        Answer::Unanswered => push_word(out, b"unanswered"),
    }
}
