//! The pieces of a path's text, one after another, and what refuses one of them.

ghost use Rattle.std.specs.Prelude.{◌≡◌, ◌<◌, ◌==◌, ◌+◌, ◌∷◌, [], length, position, take, drop, IfSome, MatchOption};
ghost use Rattle.std.specs.List.{list_any};
ghost use Rattle.inf_base.specs.Path.{is_absolute, is_slash, is_reserved, name_fault, pieces_of};

use inf_base::{Errno, MOST_NAME_BYTES, MOST_PATH_NAMES};

/// Where the first slash stands.
fn slash_in(text: &[u8]) -> Option<usize>
    ensures place { result ≡ position is_slash text.now }
    ensures within { IfSome result (λ place. place < length text.now) }
{
    text.iter().position(|byte| *byte == b'/')
}

/// What stands before a place, and what stands behind it.
fn cut(text: &[u8], end: usize) -> (&[u8], &[u8])
    requires { end < length text.now }
    ensures before { result.0.now ≡ take end text.now }
    ensures behind { result.1.now ≡ drop (end + 1) text.now }
{
    (&text[..end], &text[end + 1..])
}

/// The first piece between slashes that is not empty, and the text behind it.
pub fn first_piece(mut text: &[u8]) -> Option<(&[u8], &[u8])>
    ensures pieces { MatchOption result (pieces_of text.entry.now ≡ [])
        (λ found. pieces_of text.entry.now ≡ found.0.now ∷ pieces_of found.1.now) }
    ensures not_empty { IfSome result (λ found. 0 < length found.0.now) }
    ensures shorter { IfSome result (λ found. length found.1.now < length text.entry.now) }
{
    while !text.is_empty() {
        match slash_in(text) {
            None => return Some((text, &[])),
            Some(0) => text = &text[1..],
            Some(end) => return Some(cut(text, end)),
        }
    }
    None
}

fn has_nul(name: &[u8]) -> bool
    ensures { result ≡ list_any (λ byte. byte == 0) name.now }
{
    name.iter().any(|byte| *byte == 0)
}

fn is_reserved(name: &[u8]) -> bool
    ensures { result ≡ is_reserved name.now }
{
    name == b".".as_slice() || name == b"..".as_slice() || has_nul(name)
}

/// Why a name is refused that stands behind so many others.
pub fn name_fault(before: usize, name: &[u8]) -> Option<Errno>
    ensures { result ≡ name_fault before name.now }
{
    if before >= MOST_PATH_NAMES || name.len() > MOST_NAME_BYTES {
        return Some(Errno::ENAMETOOLONG);
    }
    if is_reserved(name) {
        return Some(Errno::EINVAL);
    }
    None
}

/// Whether a path begins with a slash.
pub fn is_absolute(path: &[u8]) -> bool
    ensures { result ≡ is_absolute path.now }
{
    match path.first() {
        Some(byte) => *byte == b'/',
        None => false,
    }
}
