use crate::trial::expect_calls;
use std::alloc::Global;
use std::process::Abort;
use std::test::Fail;

/// Client b makes its one call after each of the moves of client a, which then goes on alone. The call lines, whose
/// front is always the same, for each of these moves in their order.
fn expect_crossings(
    rt: &impl Abort,
    alloc: Global,
    calls: &[u8],
    cuts: &[&[u8]],
    front: &[u8],
    lines: &[&[u8]],
) -> Result<(), Fail> {
    assert_eq!(rt; cuts.len(), lines.len());
    for (cut, rest) in cuts.iter().zip(lines) {
        let mut order = cut.to_vec(alloc)?;
        order.extend_from_slice(b" =b =a")?;
        let mut expected = front.to_vec(alloc)?;
        expected.extend_from_slice(rest)?;
        expect_calls(rt, alloc, calls, &order, &expected)?;
    }
    Ok(())
}

/// The root is looked up, the name reserved, the directory made, and linked.
const MAKING: [&[u8]; 8] = [
    b"+a",
    b"+a s0",
    b"+a s0 +a",
    b"+a s0 +a s0",
    b"+a s0 +a s0 +a",
    b"+a s0 +a s0 +a s0",
    b"+a s0 +a s0 +a s0 +a",
    b"+a s0 +a s0 +a s0 +a s0",
];

/// The way is looked up, the directory sealed, unlinked, and dropped.
const REMOVING: [&[u8]; 10] = [
    b"=a +a",
    b"=a +a +a",
    b"=a +a +a s0",
    b"=a +a +a s0 s0",
    b"=a +a +a s0 s0 +a",
    b"=a +a +a s0 s0 +a s0",
    b"=a +a +a s0 s0 +a s0 +a",
    b"=a +a +a s0 s0 +a s0 +a s0",
    b"=a +a +a s0 s0 +a s0 +a s0 +a",
    b"=a +a +a s0 s0 +a s0 +a s0 +a s0",
];

#[test]
fn a_stat_crosses_a_mkdir(rt: HostRuntime) -> Result<(), Fail> {
    let calls = b"call a mkdir /a 755\ncall b stat /a\n";
    let lines: [&[u8]; 8] = [
        b"5 b.1 stat /a = refused ENOENT first 2 last 5 attempts 1 rounds 1 messages 2\n\
          12 a.1 mkdir /a 755 = done first 1 last 12 attempts 1 rounds 1 messages 4\n",
        b"6 b.1 stat /a = refused ENOENT first 3 last 6 attempts 1 rounds 1 messages 2\n\
          12 a.1 mkdir /a 755 = done first 1 last 12 attempts 1 rounds 1 messages 4\n",
        b"7 b.1 stat /a = refused ENOENT first 4 last 7 attempts 1 rounds 1 messages 2\n\
          12 a.1 mkdir /a 755 = done first 1 last 12 attempts 1 rounds 1 messages 4\n",
        b"8 b.1 stat /a = again a.1 first 5 last 8 attempts 1 rounds 1 messages 2\n\
          12 a.1 mkdir /a 755 = done first 1 last 12 attempts 1 rounds 1 messages 4\n",
        b"9 b.1 stat /a = again a.1 first 6 last 9 attempts 1 rounds 1 messages 2\n\
          12 a.1 mkdir /a 755 = done first 1 last 12 attempts 1 rounds 1 messages 4\n",
        b"10 b.1 stat /a = again a.1 first 7 last 10 attempts 1 rounds 1 messages 2\n\
          12 a.1 mkdir /a 755 = done first 1 last 12 attempts 1 rounds 1 messages 4\n",
        b"11 b.1 stat /a = again a.1 first 8 last 11 attempts 1 rounds 1 messages 2\n\
          12 a.1 mkdir /a 755 = done first 1 last 12 attempts 1 rounds 1 messages 4\n",
        b"8 a.1 mkdir /a 755 = done first 1 last 8 attempts 1 rounds 1 messages 4\n\
          12 b.1 stat /a = stat dir 755 0 0 0 first 9 last 12 attempts 1 rounds 1 messages 2\n",
    ];
    expect_crossings(&rt, rt.alloc(), calls, &MAKING, b"calls 2\n", &lines)
}

#[test]
fn a_mkdir_crosses_a_mkdir(rt: HostRuntime) -> Result<(), Fail> {
    let calls = b"call a mkdir /a 755\ncall b mkdir /a 700\n";
    let lines: [&[u8]; 8] = [
        b"9 b.1 mkdir /a 700 = done first 2 last 9 attempts 1 rounds 1 messages 4\n\
          12 a.1 mkdir /a 755 = refused EEXIST first 1 last 12 attempts 1 rounds 1 messages 2\n",
        b"10 b.1 mkdir /a 700 = done first 3 last 10 attempts 1 rounds 1 messages 4\n\
          12 a.1 mkdir /a 755 = refused EEXIST first 1 last 12 attempts 1 rounds 1 messages 2\n",
        b"11 b.1 mkdir /a 700 = done first 4 last 11 attempts 1 rounds 1 messages 4\n\
          12 a.1 mkdir /a 755 = refused EEXIST first 1 last 12 attempts 1 rounds 1 messages 2\n",
        b"8 b.1 mkdir /a 700 = again a.1 first 5 last 8 attempts 1 rounds 1 messages 2\n\
          12 a.1 mkdir /a 755 = done first 1 last 12 attempts 1 rounds 1 messages 4\n",
        b"9 b.1 mkdir /a 700 = again a.1 first 6 last 9 attempts 1 rounds 1 messages 2\n\
          12 a.1 mkdir /a 755 = done first 1 last 12 attempts 1 rounds 1 messages 4\n",
        b"10 b.1 mkdir /a 700 = again a.1 first 7 last 10 attempts 1 rounds 1 messages 2\n\
          12 a.1 mkdir /a 755 = done first 1 last 12 attempts 1 rounds 1 messages 4\n",
        b"11 b.1 mkdir /a 700 = again a.1 first 8 last 11 attempts 1 rounds 1 messages 2\n\
          12 a.1 mkdir /a 755 = done first 1 last 12 attempts 1 rounds 1 messages 4\n",
        b"8 a.1 mkdir /a 755 = done first 1 last 8 attempts 1 rounds 1 messages 4\n\
          12 b.1 mkdir /a 700 = refused EEXIST first 9 last 12 attempts 1 rounds 1 messages 2\n",
    ];
    expect_crossings(&rt, rt.alloc(), calls, &MAKING, b"calls 2\n", &lines)
}

#[test]
fn a_rmdir_crosses_a_mkdir(rt: HostRuntime) -> Result<(), Fail> {
    let calls = b"call a mkdir /a 755\ncall b rmdir /a\n";
    let lines: [&[u8]; 8] = [
        b"7 b.1 rmdir /a = refused ENOENT first 2 last 7 attempts 1 rounds 1 messages 3\n\
          14 a.1 mkdir /a 755 = done first 1 last 14 attempts 1 rounds 1 messages 4\n",
        b"8 b.1 rmdir /a = refused ENOENT first 3 last 8 attempts 1 rounds 1 messages 3\n\
          14 a.1 mkdir /a 755 = done first 1 last 14 attempts 1 rounds 1 messages 4\n",
        b"9 b.1 rmdir /a = refused ENOENT first 4 last 9 attempts 1 rounds 1 messages 3\n\
          14 a.1 mkdir /a 755 = done first 1 last 14 attempts 1 rounds 1 messages 4\n",
        b"8 b.1 rmdir /a = again a.1 first 5 last 8 attempts 1 rounds 1 messages 2\n\
          12 a.1 mkdir /a 755 = done first 1 last 12 attempts 1 rounds 1 messages 4\n",
        b"9 b.1 rmdir /a = again a.1 first 6 last 9 attempts 1 rounds 1 messages 2\n\
          12 a.1 mkdir /a 755 = done first 1 last 12 attempts 1 rounds 1 messages 4\n",
        b"10 b.1 rmdir /a = again a.1 first 7 last 10 attempts 1 rounds 1 messages 2\n\
          12 a.1 mkdir /a 755 = done first 1 last 12 attempts 1 rounds 1 messages 4\n",
        b"11 b.1 rmdir /a = again a.1 first 8 last 11 attempts 1 rounds 1 messages 2\n\
          12 a.1 mkdir /a 755 = done first 1 last 12 attempts 1 rounds 1 messages 4\n",
        b"8 a.1 mkdir /a 755 = done first 1 last 8 attempts 1 rounds 1 messages 4\n\
          16 b.1 rmdir /a = done first 9 last 18 attempts 1 rounds 1 messages 5\n",
    ];
    expect_crossings(&rt, rt.alloc(), calls, &MAKING, b"calls 2\n", &lines)
}

/// The removal is the second call of client a.
const MADE: &[u8] = b"calls 3\n\
      8 a.1 mkdir /a 755 = done first 1 last 8 attempts 1 rounds 1 messages 4\n";

#[test]
fn a_create_inside_crosses_a_rmdir(rt: HostRuntime) -> Result<(), Fail> {
    let calls = b"call a mkdir /a 755\ncall a rmdir /a\ncall b create /a/f 644\n";
    let lines: [&[u8]; 10] = [
        b"15 b.1 create /a/f 644 = done first 10 last 15 attempts 1 rounds 1 messages 3\n\
          20 a.2 rmdir /a = refused ENOTEMPTY first 9 last 20 attempts 1 rounds 1 messages 3\n",
        b"16 b.1 create /a/f 644 = done first 11 last 16 attempts 1 rounds 1 messages 3\n\
          20 a.2 rmdir /a = refused ENOTEMPTY first 9 last 20 attempts 1 rounds 1 messages 3\n",
        b"17 b.1 create /a/f 644 = done first 12 last 17 attempts 1 rounds 1 messages 3\n\
          20 a.2 rmdir /a = refused ENOTEMPTY first 9 last 20 attempts 1 rounds 1 messages 3\n",
        b"18 b.1 create /a/f 644 = done first 13 last 18 attempts 1 rounds 1 messages 3\n\
          20 a.2 rmdir /a = refused ENOTEMPTY first 9 last 20 attempts 1 rounds 1 messages 3\n",
        b"19 b.1 create /a/f 644 = done first 14 last 19 attempts 1 rounds 1 messages 3\n\
          20 a.2 rmdir /a = refused ENOTEMPTY first 9 last 20 attempts 1 rounds 1 messages 3\n",
        b"20 b.1 create /a/f 644 = again a.2 first 15 last 20 attempts 1 rounds 1 messages 3\n\
          22 a.2 rmdir /a = done first 9 last 24 attempts 1 rounds 1 messages 5\n",
        b"21 b.1 create /a/f 644 = again a.2 first 16 last 21 attempts 1 rounds 1 messages 3\n\
          22 a.2 rmdir /a = done first 9 last 24 attempts 1 rounds 1 messages 5\n",
        b"16 a.2 rmdir /a = done first 9 last 24 attempts 1 rounds 1 messages 5\n\
          22 b.1 create /a/f 644 = refused ENOENT first 17 last 22 attempts 1 rounds 1 messages 3\n",
        b"16 a.2 rmdir /a = done first 9 last 24 attempts 1 rounds 1 messages 5\n\
          23 b.1 create /a/f 644 = refused ENOENT first 18 last 23 attempts 1 rounds 1 messages 3\n",
        b"16 a.2 rmdir /a = done first 9 last 18 attempts 1 rounds 1 messages 5\n\
          24 b.1 create /a/f 644 = refused ENOENT first 19 last 24 attempts 1 rounds 1 messages 3\n",
    ];
    expect_crossings(&rt, rt.alloc(), calls, &REMOVING, MADE, &lines)
}

#[test]
fn a_stat_crosses_a_rmdir(rt: HostRuntime) -> Result<(), Fail> {
    let calls = b"call a mkdir /a 755\ncall a rmdir /a\ncall b stat /a\n";
    let lines: [&[u8]; 10] = [
        b"13 b.1 stat /a = stat dir 755 0 0 0 first 10 last 13 attempts 1 rounds 1 messages 2\n\
          20 a.2 rmdir /a = done first 9 last 22 attempts 1 rounds 1 messages 5\n",
        b"14 b.1 stat /a = stat dir 755 0 0 0 first 11 last 14 attempts 1 rounds 1 messages 2\n\
          20 a.2 rmdir /a = done first 9 last 22 attempts 1 rounds 1 messages 5\n",
        b"15 b.1 stat /a = stat dir 755 0 0 0 first 12 last 15 attempts 1 rounds 1 messages 2\n\
          20 a.2 rmdir /a = done first 9 last 22 attempts 1 rounds 1 messages 5\n",
        b"16 b.1 stat /a = stat dir 755 0 0 0 first 13 last 16 attempts 1 rounds 1 messages 2\n\
          20 a.2 rmdir /a = done first 9 last 22 attempts 1 rounds 1 messages 5\n",
        b"17 b.1 stat /a = stat dir 755 0 0 0 first 14 last 17 attempts 1 rounds 1 messages 2\n\
          20 a.2 rmdir /a = done first 9 last 22 attempts 1 rounds 1 messages 5\n",
        b"18 b.1 stat /a = stat dir 755 0 0 0 first 15 last 18 attempts 1 rounds 1 messages 2\n\
          20 a.2 rmdir /a = done first 9 last 22 attempts 1 rounds 1 messages 5\n",
        b"19 b.1 stat /a = stat dir 755 0 0 0 first 16 last 19 attempts 1 rounds 1 messages 2\n\
          20 a.2 rmdir /a = done first 9 last 22 attempts 1 rounds 1 messages 5\n",
        b"16 a.2 rmdir /a = done first 9 last 22 attempts 1 rounds 1 messages 5\n\
          20 b.1 stat /a = refused ENOENT first 17 last 20 attempts 1 rounds 1 messages 2\n",
        b"16 a.2 rmdir /a = done first 9 last 22 attempts 1 rounds 1 messages 5\n\
          21 b.1 stat /a = refused ENOENT first 18 last 21 attempts 1 rounds 1 messages 2\n",
        b"16 a.2 rmdir /a = done first 9 last 18 attempts 1 rounds 1 messages 5\n\
          22 b.1 stat /a = refused ENOENT first 19 last 22 attempts 1 rounds 1 messages 2\n",
    ];
    expect_crossings(&rt, rt.alloc(), calls, &REMOVING, MADE, &lines)
}

#[test]
fn a_mkdir_crosses_a_rmdir(rt: HostRuntime) -> Result<(), Fail> {
    let calls = b"call a mkdir /a 755\ncall a rmdir /a\ncall b mkdir /a 700\n";
    let lines: [&[u8]; 10] = [
        b"13 b.1 mkdir /a 700 = refused EEXIST first 10 last 13 attempts 1 rounds 1 messages 2\n\
          20 a.2 rmdir /a = done first 9 last 22 attempts 1 rounds 1 messages 5\n",
        b"14 b.1 mkdir /a 700 = refused EEXIST first 11 last 14 attempts 1 rounds 1 messages 2\n\
          20 a.2 rmdir /a = done first 9 last 22 attempts 1 rounds 1 messages 5\n",
        b"15 b.1 mkdir /a 700 = refused EEXIST first 12 last 15 attempts 1 rounds 1 messages 2\n\
          20 a.2 rmdir /a = done first 9 last 22 attempts 1 rounds 1 messages 5\n",
        b"16 b.1 mkdir /a 700 = refused EEXIST first 13 last 16 attempts 1 rounds 1 messages 2\n\
          20 a.2 rmdir /a = done first 9 last 22 attempts 1 rounds 1 messages 5\n",
        b"17 b.1 mkdir /a 700 = refused EEXIST first 14 last 17 attempts 1 rounds 1 messages 2\n\
          20 a.2 rmdir /a = done first 9 last 22 attempts 1 rounds 1 messages 5\n",
        b"18 b.1 mkdir /a 700 = refused EEXIST first 15 last 18 attempts 1 rounds 1 messages 2\n\
          20 a.2 rmdir /a = done first 9 last 22 attempts 1 rounds 1 messages 5\n",
        b"19 b.1 mkdir /a 700 = refused EEXIST first 16 last 19 attempts 1 rounds 1 messages 2\n\
          20 a.2 rmdir /a = done first 9 last 22 attempts 1 rounds 1 messages 5\n",
        b"16 a.2 rmdir /a = done first 9 last 26 attempts 1 rounds 1 messages 5\n\
          22 b.1 mkdir /a 700 = again a.2 first 17 last 24 attempts 1 rounds 1 messages 4\n",
        b"16 a.2 rmdir /a = done first 9 last 26 attempts 1 rounds 1 messages 5\n\
          23 b.1 mkdir /a 700 = again a.2 first 18 last 25 attempts 1 rounds 1 messages 4\n",
        b"16 a.2 rmdir /a = done first 9 last 18 attempts 1 rounds 1 messages 5\n\
          26 b.1 mkdir /a 700 = done first 19 last 26 attempts 1 rounds 1 messages 4\n",
    ];
    expect_crossings(&rt, rt.alloc(), calls, &REMOVING, MADE, &lines)
}

#[test]
fn a_rmdir_crosses_a_rmdir(rt: HostRuntime) -> Result<(), Fail> {
    let calls = b"call a mkdir /a 755\ncall a rmdir /a\ncall b rmdir /a\n";
    let lines: [&[u8]; 10] = [
        b"17 b.1 rmdir /a = done first 10 last 19 attempts 1 rounds 1 messages 5\n\
          24 a.2 rmdir /a = refused ENOENT first 9 last 24 attempts 1 rounds 1 messages 3\n",
        b"18 b.1 rmdir /a = done first 11 last 20 attempts 1 rounds 1 messages 5\n\
          24 a.2 rmdir /a = refused ENOENT first 9 last 24 attempts 1 rounds 1 messages 3\n",
        b"19 b.1 rmdir /a = done first 12 last 21 attempts 1 rounds 1 messages 5\n\
          24 a.2 rmdir /a = refused ENOENT first 9 last 24 attempts 1 rounds 1 messages 3\n",
        b"20 b.1 rmdir /a = done first 13 last 22 attempts 1 rounds 1 messages 5\n\
          30 a.2 rmdir /a = refused ENOENT first 9 last 30 attempts 2 rounds 2 messages 6\n",
        b"21 b.1 rmdir /a = done first 14 last 23 attempts 1 rounds 1 messages 5\n\
          30 a.2 rmdir /a = refused ENOENT first 9 last 30 attempts 2 rounds 2 messages 6\n",
        b"20 b.1 rmdir /a = again a.2 first 15 last 20 attempts 1 rounds 1 messages 3\n\
          22 a.2 rmdir /a = done first 9 last 24 attempts 1 rounds 1 messages 5\n",
        b"21 b.1 rmdir /a = again a.2 first 16 last 21 attempts 1 rounds 1 messages 3\n\
          22 a.2 rmdir /a = done first 9 last 24 attempts 1 rounds 1 messages 5\n",
        b"16 a.2 rmdir /a = done first 9 last 24 attempts 1 rounds 1 messages 5\n\
          22 b.1 rmdir /a = refused ENOENT first 17 last 22 attempts 1 rounds 1 messages 3\n",
        b"16 a.2 rmdir /a = done first 9 last 24 attempts 1 rounds 1 messages 5\n\
          23 b.1 rmdir /a = refused ENOENT first 18 last 23 attempts 1 rounds 1 messages 3\n",
        b"16 a.2 rmdir /a = done first 9 last 18 attempts 1 rounds 1 messages 5\n\
          24 b.1 rmdir /a = refused ENOENT first 19 last 24 attempts 1 rounds 1 messages 3\n",
    ];
    expect_crossings(&rt, rt.alloc(), calls, &REMOVING, MADE, &lines)
}

/// The directory is removed and made again, and a client that was told of it before begins again where it is gone.
#[test]
fn what_was_told_may_be_gone(rt: HostRuntime) -> Result<(), Fail> {
    let calls = b"call a mkdir /a 755\n\
          call a rmdir /a\n\
          call a mkdir /a 700\n\
          call b create /a/f 644\n";
    let rows: [(&[u8], &[u8]); 4] = [
        (
            b"=a +b +b s0 s0 =a +b s0",
            b"calls 4\n\
              8 a.1 mkdir /a 755 = done first 1 last 8 attempts 1 rounds 1 messages 4\n\
              20 a.2 rmdir /a = done first 13 last 22 attempts 1 rounds 1 messages 5\n\
              - a.3 mkdir /a 700 = unanswered first - last - attempts 0 rounds 0 messages 0\n\
              - b.1 create /a/f 644 = unanswered first 9 last - attempts 1 rounds 1 messages 3\n",
        ),
        (
            b"=a +b +b s0 s0 =a +b s0 +b",
            b"calls 4\n\
              8 a.1 mkdir /a 755 = done first 1 last 8 attempts 1 rounds 1 messages 4\n\
              20 a.2 rmdir /a = done first 13 last 22 attempts 1 rounds 1 messages 5\n\
              - a.3 mkdir /a 700 = unanswered first - last - attempts 0 rounds 0 messages 0\n\
              - b.1 create /a/f 644 = unanswered first 9 last - attempts 2 rounds 2 messages 4\n",
        ),
        (
            b"=a +b +b s0 s0 +b =a =b",
            b"calls 4\n\
              8 a.1 mkdir /a 755 = done first 1 last 8 attempts 1 rounds 1 messages 4\n\
              21 a.2 rmdir /a = done first 14 last 23 attempts 1 rounds 1 messages 5\n\
              30 b.1 create /a/f 644 = refused ENOENT first 9 last 30 attempts 2 rounds 2 messages 6\n\
              - a.3 mkdir /a 700 = unanswered first - last - attempts 0 rounds 0 messages 0\n",
        ),
        (
            b"=a +b +b s0 s0 =a =a =b",
            b"calls 4\n\
              8 a.1 mkdir /a 755 = done first 1 last 8 attempts 1 rounds 1 messages 4\n\
              20 a.2 rmdir /a = done first 13 last 22 attempts 1 rounds 1 messages 5\n\
              30 a.3 mkdir /a 700 = done first 23 last 30 attempts 1 rounds 1 messages 4\n\
              38 b.1 create /a/f 644 = done first 9 last 38 attempts 2 rounds 2 messages 6\n",
        ),
    ];
    for (order, lines) in rows {
        expect_calls(&rt, rt.alloc(), calls, order, lines)?;
    }
    Ok(())
}

/// A client that was told of no directory comes when there is one, or when its name is reserved.
#[test]
fn what_was_missing_may_be_there(rt: HostRuntime) -> Result<(), Fail> {
    let create = b"call a mkdir /a 755\ncall b create /a/f 644\n";
    let rmdir = b"call a mkdir /a 755\ncall b rmdir /a\n";
    expect_calls(
        &rt,
        rt.alloc(),
        create,
        b"+b +b s0 s0 =a =b",
        b"calls 2\n\
          12 a.1 mkdir /a 755 = done first 5 last 12 attempts 1 rounds 1 messages 4\n\
          20 b.1 create /a/f 644 = done first 1 last 20 attempts 2 rounds 2 messages 6\n",
    )?;
    expect_calls(
        &rt,
        rt.alloc(),
        rmdir,
        b"+b +b s0 s0 =a =b",
        b"calls 2\n\
          12 a.1 mkdir /a 755 = done first 5 last 12 attempts 1 rounds 1 messages 4\n\
          22 b.1 rmdir /a = done first 1 last 24 attempts 2 rounds 2 messages 8\n",
    )?;
    expect_calls(
        &rt,
        rt.alloc(),
        rmdir,
        b"+b +b s0 s0 +a s0 +a s0 =b =a",
        b"calls 2\n\
          10 b.1 rmdir /a = again a.1 first 1 last 10 attempts 1 rounds 1 messages 3\n\
          14 a.1 mkdir /a 755 = done first 5 last 14 attempts 1 rounds 1 messages 4\n",
    )
}
