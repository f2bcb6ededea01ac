//! The first line and the lines of settings, one function for each place of a word.

ghost use Rattle.std.specs.Prelude.{◌≡◌, [], ◌∷◌, MatchOption, Ok};
ghost use Rattle.inf_base.specs.Memory.{Gives};
ghost use Rattle.inf_script.specs.Faults.{line_cause};
ghost use Rattle.inf_script.specs.Settings.{version, first_line, servers_end, servers_number, servers_line, digest_bytes_end, digest_bytes_number, digest_bytes_line};

use crate::draft::Draft;
use crate::fault::{BAD_WORD, LineFault};
use crate::names::number_within;
use crate::section::Section;
use crate::words::Words;
use inf_base::{MOST_DIGEST_BYTES, MOST_SERVERS};

fn version(draft: Draft, words: Words<'_>) -> Result<Draft, LineFault>
    ensures { Gives line_cause result (version draft words.entry) }
{
    let Some((word, words)) = words.split_first() else {
        return Err(BAD_WORD);
    };
    if word != b"1".as_slice() {
        return Err(BAD_WORD);
    }
    if !words.is_empty() {
        return Err(BAD_WORD);
    }
    Ok(Draft {
        reached: Section::Settings,
        ..draft
    })
}

/// `infinifs 1`.
pub fn first_line(draft: Draft, words: Words<'_>) -> Result<Draft, LineFault>
    ensures { Gives line_cause result (first_line draft words.entry) }
{
    if draft.reached.rank() != 0 {
        return Err(BAD_WORD);
    }
    version(draft, words)
}

fn servers_number(draft: Draft, words: Words<'_>) -> Result<Draft, LineFault>
    ensures { Gives line_cause result (servers_number draft words.entry) }
{
    let Some((word, words)) = words.split_first() else {
        return Err(BAD_WORD);
    };
    let number = number_within(1, MOST_SERVERS, word)?;
    if !words.is_empty() {
        return Err(BAD_WORD);
    }
    Ok(Draft {
        servers: Some(number),
        ..draft
    })
}

/// `servers N`, once.
pub fn servers_line(draft: Draft, words: Words<'_>) -> Result<Draft, LineFault>
    ensures { Gives line_cause result (servers_line draft words.entry) }
{
    if !Section::Settings.may_stand(draft.reached) {
        return Err(BAD_WORD);
    }
    if draft.servers.is_some() {
        return Err(BAD_WORD);
    }
    servers_number(draft, words)
}

fn digest_bytes_number(draft: Draft, words: Words<'_>) -> Result<Draft, LineFault>
    ensures { Gives line_cause result (digest_bytes_number draft words.entry) }
{
    let Some((word, words)) = words.split_first() else {
        return Err(BAD_WORD);
    };
    let number = number_within(1, u32::from(MOST_DIGEST_BYTES), word)?;
    if !words.is_empty() {
        return Err(BAD_WORD);
    }
    Ok(Draft {
        digest_bytes: Some(number as u8),
        ..draft
    })
}

/// `digest-bytes N`, once.
pub fn digest_bytes_line(draft: Draft, words: Words<'_>) -> Result<Draft, LineFault>
    ensures { Gives line_cause result (digest_bytes_line draft words.entry) }
{
    if !Section::Settings.may_stand(draft.reached) {
        return Err(BAD_WORD);
    }
    if draft.digest_bytes.is_some() {
        return Err(BAD_WORD);
    }
    digest_bytes_number(draft, words)
}
