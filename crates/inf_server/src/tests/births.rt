//! The requests of a call that makes a directory.

use super::*;
use Dir::*;
use Step::*;
use Want::*;
use Way::*;
use inf_base::Errno::{EACCES, EEXIST};
use std::test::Fail;

#[test]
fn reserves(rt: HostRuntime) -> Result<(), Fail> {
    let rows: &[Row] = &[
        (7, Reserve(Root(0o755), b'a'), Denied(EACCES)),
        (7, Reserve(Root(0o772), b'a'), Denied(EACCES)),
        (7, Reserve(ToMoved, b'a'), Gone),
        (7, Reserve(InA(0o777), b'a'), Other),
        (7, Reserve(Nowhere, b'a'), Other),
        (7, Reserve(Root(0o777), b'a'), Reserved(0)),
        (7, Reserve(Root(0o777), b'a'), Other),
        (0, Reserve(Root(0o755), b'a'), Slot(7)),
        (0, Create(Root(0o755), b'a'), Slot(7)),
        (0, Stat(Root(0o755), b'a'), Slot(7)),
        (0, Walk(Root(0o755), b'a'), Slot(7)),
        (0, Rmdir(Root(0o755), b'a'), Slot(7)),
        (0, Cancel(Top), Fine),
        (7, Look(Top, b'a'), Slot(7)),
        (7, Cancel(A), Other),
        (7, Cancel(Top), Fine),
        (7, Look(Top, b'a'), Absent(0)),
        (7, Make(Top, b'a', 0), Other),
        (0, Create(Root(0o755), b'b'), Fine),
        (7, Reserve(Root(0o777), b'b'), Denied(EEXIST)),
    ];
    assert_eq!(rt; first_wrong(rt.alloc(), 0, 2, WHOLE, rows)?, None);
    Ok(())
}

#[test]
fn links(rt: HostRuntime) -> Result<(), Fail> {
    let rows: &[Row] = &[
        (7, Reserve(Root(0o777), b'a'), Reserved(0)),
        (8, Link(Root(0o777)), Other),
        (7, Link(InA(0o777)), Other),
        (7, Link(ToMoved), Gone),
        (7, Link(Root(0o755)), Fine),
        (7, Link(Root(0o755)), Other),
        (0, Reserve(Root(0o755), b'a'), Denied(EEXIST)),
        (8, Stat(Root(0o755), b'a'), Folder(7)),
        (8, Walk(Root(0o755), b'a'), Other),
        (8, Look(Top, b'a'), FoundA),
    ];
    assert_eq!(rt; first_wrong(rt.alloc(), 0, 2, WHOLE, rows)?, None);
    Ok(())
}

#[test]
fn makes(rt: HostRuntime) -> Result<(), Fail> {
    let rows: &[Row] = &[
        (7, Look(A, b'a'), NoDir),
        (7, Make(Top, b'a', 0), Fine),
        (0, Make(Top, b'a', 0), Bearer(7)),
        (0, Look(A, b'a'), Absent(5)),
        (0, Look(Odd, b'a'), NoDir),
        (0, Look(Top, b'a'), Other),
        (0, Reserve(InA(0o755), b'b'), Reserved(0)),
        (0, Cancel(Top), Other),
    ];
    assert_eq!(rt; first_wrong(rt.alloc(), 1, 2, WHOLE, rows)?, None);
    Ok(())
}

/// By their first bytes alone, `e` of versions 1 and 2 in the root have one identifier, as another program computes it.
#[test]
fn clashes(rt: HostRuntime) -> Result<(), Fail> {
    let rule = ShaRule { bytes: 1 };
    let rows: &[Row] = &[
        (8, Make(ShortTop, b'e', 1), Fine),
        (8, Make(ShortTop, b'e', 2), ClashOfE),
    ];
    assert_eq!(rt; first_wrong(rt.alloc(), 0, 1, rule, rows)?, None);
    Ok(())
}
