//! The lines of a script, by their first words.

ghost use Rattle.std.specs.Prelude.{◌≡◌};
ghost use Rattle.std.specs.Str.{is_utf8};
ghost use Rattle.inf_base.specs.Memory.{Gives};
ghost use Rattle.inf_script.specs.Faults.{line_cause};
ghost use Rattle.inf_script.specs.Sections.{end_line, word_line, after_words, after_line};

use crate::call_line::call_line;
use crate::client_line::client_line;
use crate::draft::Draft;
use crate::fault::{BAD_WORD, LineFault};
use crate::order_line::order_line;
use crate::refusal::Why;
use crate::script::MOST_LINE_BYTES;
use crate::section::Section;
use crate::settings::{digest_bytes_line, first_line, servers_line};
use crate::words::{Words, is_comment, without_return};
use std::alloc::Global;

fn end_line(draft: Draft, words: Words<'_>) -> Result<Draft, LineFault>
    ensures { Gives line_cause result (end_line draft words.entry) }
{
    if !Section::Order.may_stand(draft.reached) {
        return Err(BAD_WORD);
    }
    if !words.is_empty() {
        return Err(BAD_WORD);
    }
    Ok(Draft {
        reached: Section::Ended,
        ..draft
    })
}

fn word_line(alloc: Global, draft: Draft, word: &[u8], words: Words<'_>) -> Result<Draft, LineFault>
    ensures { Gives line_cause result (word_line draft word.now words.entry) }
{
    if word == b"infinifs".as_slice() {
        return first_line(draft, words);
    }
    if word == b"servers".as_slice() {
        return servers_line(draft, words);
    }
    if word == b"digest-bytes".as_slice() {
        return digest_bytes_line(draft, words);
    }
    if word == b"client".as_slice() {
        return client_line(alloc, draft, words);
    }
    if word == b"call".as_slice() {
        return call_line(alloc, draft, words);
    }
    if word == b"order".as_slice() {
        return order_line(draft, words);
    }
    if word == b"end".as_slice() {
        return end_line(draft, words);
    }
    Err(BAD_WORD)
}

fn after_words(alloc: Global, draft: Draft, words: Words<'_>) -> Result<Draft, LineFault>
    ensures { Gives line_cause result (after_words draft words.entry) }
{
    let Some((word, words)) = words.split_first() else {
        return Ok(draft);
    };
    if is_comment(word) {
        return Ok(draft);
    }
    word_line(alloc, draft, word, words)
}

fn is_utf8(bytes: &[u8]) -> bool
    ensures { result ≡ is_utf8 bytes.now }
{
    str::from_utf8(bytes).is_ok()
}

/// What was read when one more line is read.
pub fn after_line(alloc: Global, draft: Draft, line: &[u8]) -> Result<Draft, LineFault>
    ensures { Gives line_cause result (after_line draft line.now) }
{
    if line.len() > MOST_LINE_BYTES {
        return Err(LineFault::Refused(Why::TooLong));
    }
    if !is_utf8(line) {
        return Err(LineFault::Refused(Why::NotUtf8));
    }
    after_words(alloc, draft, Words::of(without_return(line)))
}
