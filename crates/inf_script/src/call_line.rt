//! The words of a call line, one function for each place.

ghost use Rattle.std.specs.Prelude.{◌≡◌, ◌<◌, length, Ok};
ghost use Rattle.inf_base.specs.Memory.{Gives};
ghost use Rattle.inf_script.specs.Faults.{line_cause};
ghost use Rattle.inf_script.specs.CallLine.{path_alone, mode_behind, path_and_mode, mkdir_call, create_call, rmdir_call, stat_call, call_kind, with_call, call_client, call_line};

use crate::draft::Draft;
use crate::fault::{BAD_WORD, LineFault, TOO_MANY, UNKNOWN_CLIENT};
use crate::names::mode_of;
use crate::section::Section;
use crate::words::Words;
use inf_base::{Call, MOST_CALLS, Text};
use inf_path::has_names;
use std::alloc::Global;

/// A path that has names, and no word behind it.
fn path_alone(alloc: Global, words: Words<'_>) -> Result<Text, LineFault>
    ensures { Gives line_cause result (path_alone words.entry) }
{
    let Some((path, words)) = words.split_first() else {
        return Err(BAD_WORD);
    };
    if !has_names(path) {
        return Err(BAD_WORD);
    }
    if !words.is_empty() {
        return Err(BAD_WORD);
    }
    Ok(Text::from_slice(alloc, path)?)
}

fn mode_behind(alloc: Global, path: &[u8], words: Words<'_>) -> Result<(Text, u16), LineFault>
    ensures { Gives line_cause result (mode_behind path.now words.entry) }
{
    let Some((word, words)) = words.split_first() else {
        return Err(BAD_WORD);
    };
    let mode = mode_of(word)?;
    if !words.is_empty() {
        return Err(BAD_WORD);
    }
    let path = Text::from_slice(alloc, path)?;
    Ok((path, mode))
}

/// A path that has names, a mode, and no word behind it.
fn path_and_mode(alloc: Global, words: Words<'_>) -> Result<(Text, u16), LineFault>
    ensures { Gives line_cause result (path_and_mode words.entry) }
{
    let Some((path, words)) = words.split_first() else {
        return Err(BAD_WORD);
    };
    if !has_names(path) {
        return Err(BAD_WORD);
    }
    mode_behind(alloc, path, words)
}

fn mkdir_call(alloc: Global, words: Words<'_>) -> Result<Call, LineFault>
    ensures { Gives line_cause result (mkdir_call words.entry) }
{
    let (path, mode) = path_and_mode(alloc, words)?;
    Ok(Call::Mkdir { path, mode })
}

fn create_call(alloc: Global, words: Words<'_>) -> Result<Call, LineFault>
    ensures { Gives line_cause result (create_call words.entry) }
{
    let (path, mode) = path_and_mode(alloc, words)?;
    Ok(Call::Create { path, mode })
}

fn rmdir_call(alloc: Global, words: Words<'_>) -> Result<Call, LineFault>
    ensures { Gives line_cause result (rmdir_call words.entry) }
{
    let path = path_alone(alloc, words)?;
    Ok(Call::Rmdir { path })
}

fn stat_call(alloc: Global, words: Words<'_>) -> Result<Call, LineFault>
    ensures { Gives line_cause result (stat_call words.entry) }
{
    let path = path_alone(alloc, words)?;
    Ok(Call::Stat { path })
}

fn call_kind(alloc: Global, words: Words<'_>) -> Result<Call, LineFault>
    ensures { Gives line_cause result (call_kind words.entry) }
{
    let Some((word, words)) = words.split_first() else {
        return Err(BAD_WORD);
    };
    if word == b"mkdir".as_slice() {
        return mkdir_call(alloc, words);
    }
    if word == b"create".as_slice() {
        return create_call(alloc, words);
    }
    if word == b"rmdir".as_slice() {
        return rmdir_call(alloc, words);
    }
    if word == b"stat".as_slice() {
        return stat_call(alloc, words);
    }
    Err(BAD_WORD)
}

fn with_call(draft: Draft, client: u32, call: Call) -> Result<Draft, LineFault>
    requires { client < length draft.clients }
    ensures { Gives line_cause result (with_call draft client (Ok call)) }
{
    if draft.clients.call_count() >= MOST_CALLS {
        return Err(TOO_MANY);
    }
    let clients = draft.clients.calling(client, call)?;
    Ok(Draft {
        reached: Section::Calls,
        servers: draft.servers,
        digest_bytes: draft.digest_bytes,
        clients,
        moves: draft.moves,
    })
}

fn call_client(alloc: Global, draft: Draft, words: Words<'_>) -> Result<Draft, LineFault>
    ensures { Gives line_cause result (call_client draft words.entry) }
{
    let Some((name, words)) = words.split_first() else {
        return Err(BAD_WORD);
    };
    let Some(client) = draft.clients.place_of(name) else {
        return Err(UNKNOWN_CLIENT);
    };
    let call = call_kind(alloc, words)?;
    with_call(draft, client, call)
}

/// `call NAME mkdir PATH MODE`, `call NAME create PATH MODE`, `call NAME rmdir PATH` or `call NAME stat PATH`.
pub fn call_line(alloc: Global, draft: Draft, words: Words<'_>) -> Result<Draft, LineFault>
    ensures { Gives line_cause result (call_line draft words.entry) }
{
    if !Section::Calls.may_stand(draft.reached) {
        return Err(BAD_WORD);
    }
    call_client(alloc, draft, words)
}
