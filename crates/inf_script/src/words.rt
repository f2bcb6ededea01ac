//! The words of a line, taken one by one from its left.

ghost use Rattle.std.specs.Prelude.{◌≡◌, ◌↔◌, ◌<◌, [], ◌∷◌, length, position, IfSome, IsTrue, MatchOption};
ghost use Rattle.std.specs.Option.{option_copied};
ghost use Rattle.inf_script.specs.Cuts.{bytes_behind};
ghost use Rattle.inf_script.specs.Words.{is_blank, without_return, words_of, is_comment};

use crate::bytes::cut_at;
use std::marker::Model;

fn is_blank(byte: u8) -> bool
    ensures { result ≡ is_blank byte }
{
    byte == b' ' || byte == b'\t'
}

/// Where the first blank stands.
fn blank_in(bytes: &[u8]) -> Option<usize>
    ensures value { result ≡ position is_blank bytes.now }
    ensures within { IfSome result (λ place. place < length bytes.now) }
{
    bytes.iter().position(|b| is_blank(*b))
}

/// A line without the one carriage return that ends it.
pub fn without_return(line: &[u8]) -> &[u8]
    ensures { result.now ≡ without_return line.now }
{
    if line.ends_with(b"\r") {
        &line[..line.len() - 1]
    } else {
        line
    }
}

/// Whether a line that begins with this word is a comment.
pub fn is_comment(word: &[u8]) -> bool
    ensures { result ≡ is_comment word.now }
{
    word.starts_with(b"#")
}

/// The words of a line that are left.
#[derive(Debug, Drop)]
pub struct Words<'a> {
    /// What stands behind the blank that ended the last word.
    rest: Option<&'a [u8]>,
}

impl<'a> Model for Words<'a> {
    ghost use Rattle.std.specs.Prelude.{ℕ, List, filter};
    ghost use Rattle.std.specs.Option.{option_copied};
    ghost use Rattle.inf_base.specs.Path.{is_piece};
    ghost use Rattle.inf_script.specs.Cuts.{parts_behind};
    ghost use Rattle.inf_script.specs.Words.{is_blank};

    ghost Value = { List (List ℕ) };

    ghost view = { λ w. filter is_piece (parts_behind is_blank (option_copied w.rest)) };
}

impl<'a> Words<'a> {
    pub fn of(line: &'a [u8]) -> Self
        ensures { result ≡ words_of line.now }
    {
        Words { rest: Some(line) }
    }

    pub fn split_first(&self) -> Option<(&'a [u8], Words<'a>)>
        ensures { MatchOption result (self.now ≡ []) (λ p. self.now ≡ p.0.now ∷ p.1) }
    {
        let mut left = self.rest;
        while let Some(bytes) = left {
            let (part, rest) = cut_at(bytes, blank_in(bytes));
            if !part.is_empty() {
                return Some((part, Words { rest }));
            }
            left = rest;
        }
        None
    }

    pub fn is_empty(&self) -> bool
        ensures { IsTrue result ↔ (self.now ≡ []) }
    {
        match self.split_first() {
            Some(_) => false,
            None => true,
        }
    }
}
