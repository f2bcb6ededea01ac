//! The names of a path, taken in turn; the first at fault decides.

ghost use Rattle.std.specs.Prelude.{◌≡◌};
ghost use Rattle.inf_base.specs.Memory.{Gives};
ghost use Rattle.inf_base.specs.Path.{path_of};
ghost use Rattle.inf_path.specs.Parsed.{counted, has_names, parsed, path_cause};

use crate::fault::PathFault;
use crate::path::Path;
use crate::pieces::{first_piece, is_absolute, name_fault};
use inf_base::{Errno, Name, Names, Text};
use std::alloc::Global;

/// The names of a path's text, or why it is refused.
pub fn parse_path(alloc: Global, text: &Text) -> Result<Path, PathFault>
    ensures { Gives path_cause result (parsed (path_of text.now)) }
{
    let path = text.as_slice();
    if !is_absolute(path) {
        return Err(PathFault::Refused(Errno::EINVAL));
    }
    let mut names = Vec::new(alloc);
    let mut left = path;
    while let Some((piece, behind)) = first_piece(left) {
        if let Some(error) = name_fault(names.len(), piece) {
            return Err(PathFault::Refused(error));
        }
        names.push(Name::from_slice(alloc, piece)?)?;
        left = behind;
    }
    Ok(Path {
        names: Names::new(names),
    })
}

/// How many names the text of a path has, or why it is refused. Takes no memory.
pub fn count_names(path: &[u8]) -> Result<usize, Errno>
    ensures { result ≡ counted (path_of path.now) }
{
    if !is_absolute(path) {
        return Err(Errno::EINVAL);
    }
    let mut count = 0;
    let mut left = path;
    while let Some((piece, behind)) = first_piece(left) {
        if let Some(error) = name_fault(count, piece) {
            return Err(error);
        }
        count += 1;
        left = behind;
    }
    Ok(count)
}

/// Whether the text of a path is not refused, and is not that of the root. Takes no memory.
pub fn has_names(path: &[u8]) -> bool
    ensures { result ≡ has_names (path_of path.now) }
{
    match count_names(path) {
        Ok(count) => count > 0,
        Err(_) => false,
    }
}
