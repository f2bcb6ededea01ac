//! Path texts, and what is read of them by the rules.

use crate::{PathFault, count_names, has_names, parse_path};
use inf_base::{Errno, Names, NoMemory, Text};
use std::alloc::Global;
use std::test::Fail;

/// A front, a part that is repeated, and a tail.
fn joined(
    alloc: Global,
    front: &str,
    part: &str,
    times: usize,
    tail: &str,
) -> Result<Vec<u8>, NoMemory> {
    let mut bytes = Vec::from_slice(alloc, front.as_bytes())?;
    for _ in 0..times {
        bytes.extend_from_slice(part.as_bytes())?;
    }
    bytes.extend_from_slice(tail.as_bytes())?;
    Ok(bytes)
}

/// The names, each behind one slash.
fn spelled(alloc: Global, names: &Names) -> Result<Vec<u8>, NoMemory> {
    let mut bytes = Vec::new(alloc);
    for name in names {
        bytes.push(b'/')?;
        bytes.extend_from_slice(name.as_slice())?;
    }
    Ok(bytes)
}

/// What is read of a text: its names spelled, and how many there are, or the refusal.
fn read(alloc: Global, bytes: &[u8]) -> Result<(Vec<u8>, usize), PathFault> {
    let text = Text::from_slice(alloc, bytes)?;
    let path = parse_path(alloc, &text)?;
    let names = spelled(alloc, &path.names)?;
    Ok((names, path.names.len()))
}

#[test]
fn path_texts_are_read(rt: HostRuntime) -> Result<(), Fail> {
    const LONG: Errno = Errno::ENAMETOOLONG;
    const BAD: Errno = Errno::EINVAL;
    for (front, part, times, tail, want) in [
        ("/", "", 0, "", Ok(("", 0))),
        ("/", "/", 3, "/", Ok(("", 0))),
        ("/a", "", 0, "", Ok(("/a", 1))),
        ("//a", "/", 2, "b/", Ok(("/a/b", 2))),
        ("/...", "", 0, "/..a/ /", Ok(("/.../..a/ ", 3))),
        ("", "", 0, "", Err(BAD)),
        ("a", "", 0, "/b", Err(BAD)),
        ("/a/.", "", 0, "", Err(BAD)),
        ("/../a", "", 0, "", Err(BAD)),
        ("/a\0", "", 0, "", Err(BAD)),
        ("", "/x", 33, "", Err(LONG)),
        ("", "/x", 32, "/..", Err(LONG)),
        ("/", "n", 256, "", Err(LONG)),
        ("/", "n", 256, "\0", Err(LONG)),
        ("/", "n", 256, "/..", Err(LONG)),
        ("/../", "n", 256, "", Err(BAD)),
    ] {
        let bytes = joined(rt.alloc(), front, part, times, tail)?;
        match (read(rt.alloc(), &bytes), want) {
            (Ok((names, count)), Ok((want, number))) => {
                assert_eq!(rt; names.as_slice(), want.as_bytes());
                assert_eq!(rt; count, number);
                assert_eq!(rt; count_names(&bytes), Ok(number));
            }
            (Err(fault), Err(error)) => {
                assert_eq!(rt; fault, PathFault::Refused(error));
                assert_eq!(rt; count_names(&bytes), Err(error));
            }
            _ => assert!(rt; false, "at {front:?}, {times} {part:?}, {tail:?}"),
        }
        assert_eq!(rt; has_names(&bytes), matches!(want, Ok((_, 1..))));
    }
    Ok(())
}

/// The most names, and the longest.
#[test]
fn the_largest_are_read(rt: HostRuntime) -> Result<(), Fail> {
    for (front, part, times, count) in [("", "/x", 32, 32), ("/", "n", 255, 1)] {
        let bytes = joined(rt.alloc(), front, part, times, "")?;
        let slashes = joined(rt.alloc(), front, part, times, "//")?;
        match read(rt.alloc(), &slashes) {
            Ok((names, number)) => {
                assert_eq!(rt; names, bytes);
                assert_eq!(rt; number, count);
            }
            Err(_) => assert!(rt; false, "at {times} {part:?}"),
        }
    }
    Ok(())
}
