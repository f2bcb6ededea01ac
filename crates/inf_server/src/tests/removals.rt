//! The requests of a call that removes a directory.

use super::*;
use Dir::*;
use Step::*;
use Want::*;
use Way::*;
use inf_base::Errno::{EACCES, ENOTEMPTY};
use std::test::Fail;

#[test]
fn seals(rt: HostRuntime) -> Result<(), Fail> {
    let rows: &[Row] = &[
        (7, Make(Top, b'a', 0), Fine),
        (8, Seal(InA(0o775)), Denied(EACCES)),
        (8, Seal(InA(0o772)), Denied(EACCES)),
        (8, Seal(InLaterA(0o777)), Gone),
        (8, Seal(Root(0o777)), Other),
        (8, Seal(Nowhere), Other),
        (0, Reserve(InA(0o755), b'b'), Reserved(0)),
        (8, Seal(InA(0o777)), Inside(0)),
        (0, Cancel(A), Fine),
        (8, Seal(InA(0o777)), Fine),
        (0, Seal(InA(0o755)), Sealed(8)),
        (0, Create(InA(0o755), b'b'), Sealed(8)),
        (0, Stat(InA(0o755), b'b'), Sealed(8)),
        (0, Walk(InA(0o755), b'b'), Sealed(8)),
        (0, Rmdir(InA(0o755), b'b'), Sealed(8)),
        (0, Reserve(InA(0o755), b'b'), Sealed(8)),
        (0, Link(InA(0o755)), Sealed(8)),
        (8, Look(A, b'b'), Sealed(8)),
        (7, Make(Top, b'a', 0), Bearer(8)),
        (8, Unseal(A), Fine),
        (0, Create(InA(0o755), b'b'), Fine),
        (8, Seal(InA(0o777)), Denied(ENOTEMPTY)),
    ];
    assert_eq!(rt; first_wrong(rt.alloc(), 1, 2, WHOLE, rows)?, None);
    Ok(())
}

#[test]
fn unseals_and_drops(rt: HostRuntime) -> Result<(), Fail> {
    let rows: &[Row] = &[
        (7, Make(Top, b'a', 0), Fine),
        (0, Step::Drop(A), Fine),
        (0, Look(A, b'b'), Absent(5)),
        (0, Seal(InA(0o755)), Fine),
        (7, Unseal(A), Fine),
        (7, Look(A, b'b'), Sealed(0)),
        (0, Unseal(A), Fine),
        (7, Look(A, b'b'), Absent(5)),
        (0, Seal(InA(0o755)), Fine),
        (0, Step::Drop(LaterA), Fine),
        (7, Look(A, b'b'), Sealed(0)),
        (0, Step::Drop(A), Fine),
        (0, Look(A, b'b'), NoDir),
        (0, Unseal(Top), Other),
        (0, Step::Drop(Top), Other),
        (0, Unlink(InA(0o755)), Other),
        (0, Forget(A), Other),
    ];
    assert_eq!(rt; first_wrong(rt.alloc(), 1, 2, WHOLE, rows)?, None);
    Ok(())
}

#[test]
fn unlinks(rt: HostRuntime) -> Result<(), Fail> {
    let rows: &[Row] = &[
        (7, Reserve(Root(0o777), b'a'), Reserved(0)),
        (0, Unlink(InA(0o755)), Slot(7)),
        (7, Link(Root(0o777)), Fine),
        (0, Rmdir(Root(0o755), b'a'), Other),
        (0, Unlink(InLaterA(0o755)), Other),
        (0, Unlink(InMoved), Gone),
        (0, Unlink(Root(0o755)), Other),
        (0, Unlink(Nowhere), Other),
        (0, Seal(InA(0o755)), Other),
        (0, Unseal(A), Other),
        (0, Step::Drop(A), Other),
        (0, Unlink(InA(0o755)), Fine),
        (0, Look(Top, b'a'), Absent(0)),
        (0, Unlink(InA(0o755)), Other),
        (0, Forget(A), Fine),
        (7, Create(Root(0o777), b'a'), Fine),
        (0, Unlink(InA(0o755)), Other),
    ];
    assert_eq!(rt; first_wrong(rt.alloc(), 0, 2, WHOLE, rows)?, None);
    Ok(())
}
