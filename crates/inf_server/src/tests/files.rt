//! Lookups of the root, and what stands under names.

use super::*;
use Dir::*;
use Step::*;
use Want::*;
use Way::*;
use inf_base::Errno::{EACCES, EEXIST, ENOENT, ENOTDIR};
use std::test::Fail;

#[test]
fn tells_the_root(rt: HostRuntime) -> Result<(), Fail> {
    for (number, servers, want) in [
        (0, 2, FoundTop),
        (1, 3, FoundTop),
        (1, 2, Other),
        (2, 2, Other),
    ] {
        let rows = [(8, LookTop, want)];
        assert_eq!(rt;
            first_wrong(rt.alloc(), number, servers, WHOLE, &rows)?,
            None,
            "at server {number} of {servers}"
        );
    }
    Ok(())
}

#[test]
fn creates(rt: HostRuntime) -> Result<(), Fail> {
    let rows: &[Row] = &[
        (0, Create(Root(0o755), b'a'), Fine),
        (7, Create(Root(0o777), b'b'), Fine),
        (0, Create(Root(0o755), b'a'), Denied(EEXIST)),
        (7, Create(Root(0o755), b'a'), Denied(EACCES)),
        (7, Create(Root(0o772), b'c'), Denied(EACCES)),
        (0, Create(ToMoved, b'c'), Gone),
        (0, Create(InA(0o755), b'c'), Other),
        (0, Create(Nowhere, b'c'), Other),
        (8, Stat(Root(0o755), b'a'), File(0)),
        (8, Stat(Root(0o755), b'b'), File(7)),
        (8, Stat(Root(0o755), b'c'), Denied(ENOENT)),
        (8, Stat(Root(0o776), b'a'), Denied(EACCES)),
        (8, Stat(ToMoved, b'a'), Gone),
        (8, Stat(Nowhere, b'a'), Other),
        (8, Look(Top, b'a'), IsFile(0)),
        (8, Look(Top, b'c'), Absent(0)),
    ];
    assert_eq!(rt; first_wrong(rt.alloc(), 0, 2, WHOLE, rows)?, None);
    Ok(())
}

#[test]
fn walks_end(rt: HostRuntime) -> Result<(), Fail> {
    let rows: &[Row] = &[
        (0, Create(Root(0o755), b'a'), Fine),
        (8, Walk(Root(0o755), b'a'), Denied(ENOTDIR)),
        (8, Walk(Root(0o755), b'b'), Denied(ENOENT)),
        (8, Walk(Root(0o754), b'b'), Denied(EACCES)),
        (8, Walk(ToMoved, b'b'), Gone),
        (8, Walk(InA(0o755), b'b'), Other),
        (0, Rmdir(Root(0o755), b'a'), Denied(ENOTDIR)),
        (0, Rmdir(Root(0o755), b'b'), Denied(ENOENT)),
        (8, Rmdir(Root(0o755), b'b'), Denied(EACCES)),
        (8, Rmdir(Root(0o752), b'b'), Denied(EACCES)),
        (8, Rmdir(ToMoved, b'b'), Gone),
        (8, Rmdir(Nowhere, b'b'), Other),
    ];
    assert_eq!(rt; first_wrong(rt.alloc(), 0, 2, WHOLE, rows)?, None);
    Ok(())
}
