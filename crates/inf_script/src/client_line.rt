//! The words of a client line, one function for each place.

ghost use Rattle.std.specs.Prelude.{◌≡◌, ◌<◌, ◌≤◌, [], ◌∷◌, length, None};
ghost use Rattle.inf_base.specs.Memory.{Gives};
ghost use Rattle.inf_base.specs.declared.limits.TheConstants.{MOST_NAME_BYTES};
ghost use Rattle.inf_script.specs.Draft.{place_of};
ghost use Rattle.inf_script.specs.Faults.{line_cause};
ghost use Rattle.inf_script.specs.ClientLine.{with_client, client_end, client_group, client_user, client_name, client_line};

use crate::draft::Draft;
use crate::fault::{BAD_NUMBER, BAD_WORD, LineFault, TOO_MANY};
use crate::names::is_client_name;
use crate::refusal::Why;
use crate::section::Section;
use crate::words::Words;
use inf_base::MOST_CLIENTS;
use std::alloc::Global;

fn with_client(alloc: Global, draft: Draft, name: &[u8]) -> Result<Draft, LineFault>
    requires not_empty { 0 < length name.now }
    requires fits { length name.now ≤ MOST_NAME_BYTES }
    requires unknown { place_of name.now draft.clients ≡ None }
    ensures { Gives line_cause result (with_client draft name.now) }
{
    if draft.clients.len() >= MOST_CLIENTS {
        return Err(TOO_MANY);
    }
    let clients = draft.clients.with_client(alloc, name)?;
    Ok(Draft {
        reached: Section::Clients,
        servers: draft.servers,
        digest_bytes: draft.digest_bytes,
        clients,
        moves: draft.moves,
    })
}

fn client_group(
    alloc: Global,
    draft: Draft,
    name: &[u8],
    words: Words<'_>,
) -> Result<Draft, LineFault>
    requires not_empty { 0 < length name.now }
    requires fits { length name.now ≤ MOST_NAME_BYTES }
    requires unknown { place_of name.now draft.clients ≡ None }
    ensures { Gives line_cause result (client_group draft name.now words.entry) }
{
    let Some((word, words)) = words.split_first() else {
        return Err(BAD_WORD);
    };
    if word != b"0".as_slice() {
        return Err(BAD_NUMBER);
    }
    if !words.is_empty() {
        return Err(BAD_WORD);
    }
    with_client(alloc, draft, name)
}

fn client_user(
    alloc: Global,
    draft: Draft,
    name: &[u8],
    words: Words<'_>,
) -> Result<Draft, LineFault>
    requires not_empty { 0 < length name.now }
    requires fits { length name.now ≤ MOST_NAME_BYTES }
    requires unknown { place_of name.now draft.clients ≡ None }
    ensures { Gives line_cause result (client_user draft name.now words.entry) }
{
    let Some((word, words)) = words.split_first() else {
        return Err(BAD_WORD);
    };
    if word != b"0".as_slice() {
        return Err(BAD_NUMBER);
    }
    client_group(alloc, draft, name, words)
}

fn client_name(alloc: Global, draft: Draft, words: Words<'_>) -> Result<Draft, LineFault>
    ensures { Gives line_cause result (client_name draft words.entry) }
{
    let Some((name, words)) = words.split_first() else {
        return Err(BAD_WORD);
    };
    if !is_client_name(name) {
        return Err(BAD_WORD);
    }
    match draft.clients.place_of(name) {
        Some(_) => Err(LineFault::Refused(Why::DoubleClient)),
        None => client_user(alloc, draft, name, words),
    }
}

/// `client NAME 0 0`.
pub fn client_line(alloc: Global, draft: Draft, words: Words<'_>) -> Result<Draft, LineFault>
    ensures { Gives line_cause result (client_line draft words.entry) }
{
    if !Section::Clients.may_stand(draft.reached) {
        return Err(BAD_WORD);
    }
    client_name(alloc, draft, words)
}
