//! Each thing at its largest. Memory may always be wanting by the contracts, but it is not here.
ghost use Rattle.std.specs.Prelude.{◌<◌, ◌≤◌};

use crate::top::infinifs;
use crate::trial::{source, words_of};
use inf_io::MemSink;
use std::alloc::Global;
use std::process::Abort;
use std::test::Fail;

/// Runs `sched` on the pieces of a script, and compares the front of its report with these pieces.
fn expect_front(
    rt: &impl Abort,
    alloc: Global,
    script: &[&[u8]],
    report: &[&[u8]],
) -> Result<(), Fail> {
    let script = script.concat(alloc)?;
    let report = report.concat(alloc)?;
    let words = words_of(alloc, &["sched"])?;
    let mut source = source(alloc, &script, 1 << 20, &[])?;
    let mut sink = MemSink::new(alloc, 1 << 20, 1 << 25, Vec::new(alloc))?;
    let answer = infinifs(alloc, &words, &mut source, &mut sink);
    assert_eq!(rt; answer, 0);
    assert!(rt; sink.held().starts_with(&report));
    Ok(())
}

/// A path of so many bytes, whose names are 255 times the letters that stand for them. It begins with slashes.
fn path(alloc: Global, size: usize, letters: &[u8]) -> Result<Vec<u8>, Fail> {
    let mut names = Vec::new(alloc);
    for letter in letters {
        names.push(b'/')?;
        for _ in 0..255 {
            names.push(*letter)?;
        }
    }
    let mut path = vec![in alloc; b'/'; size.saturating_sub(names.len())]?;
    path.extend_from_slice(&names)?;
    Ok(path)
}

/// Lines of 32,768 bytes with names of 255, in each kind of call and answer. The directories `a` and `q` have the same
/// identifier of one byte, e0: by SHA-256, apart from this program, of e3, 39 zeros and the name.
#[test]
fn the_longest_paths_and_names(rt: HostRuntime) -> Result<(), Fail> {
    let alloc = rt.alloc();
    let made = path(alloc, 32_751, b"a")?;
    let clashes = path(alloc, 32_751, b"q")?;
    let created = path(alloc, 32_750, b"af")?;
    let looked = path(alloc, 32_756, b"af")?;
    let removed = path(alloc, 32_755, b"a")?;
    let kept = path(alloc, 256, b"a")?;
    let clashing = path(alloc, 256, b"q")?;
    let root = b"e300000000000000000000000000000000000000000000000000000000000000";
    let script: [&[u8]; 15] = [
        b"infinifs 1\ndigest-bytes 1\nclient a 0 0\ncall a mkdir ",
        &made,
        b" 755\ncall a rmdir ",
        &removed,
        b"\ncall a mkdir ",
        &made,
        b" 755\ncall a create ",
        &created,
        b" 644\ncall a stat ",
        &looked,
        b"\ncall a rmdir ",
        &removed,
        b"\ncall a mkdir ",
        &clashes,
        b" 755\nend\n",
    ];
    let report: [&[u8]; 21] = [
        b"infinifs report 1\nservers 1\ndigest-bytes 1\ncache 256\nclient a 0 0\ncalls 7\n8 a.1 mkdir ",
        &made,
        b" 755 = done first 1 last 8 attempts 1 rounds 1 messages 4\n16 a.2 rmdir ",
        &removed,
        b" = done first 9 last 18 attempts 1 rounds 1 messages 5\n26 a.3 mkdir ",
        &made,
        b" 755 = done first 19 last 26 attempts 1 rounds 1 messages 4\n32 a.4 create ",
        &created,
        b" 644 = done first 27 last 32 attempts 1 rounds 1 messages 3\n38 a.5 stat ",
        &looked,
        b" = stat file 644 0 0 0 first 33 last 38 attempts 1 rounds 1 messages 3\n44 a.6 rmdir ",
        &removed,
        b" = refused ENOTEMPTY first 39 last 44 attempts 1 rounds 1 messages 3\n50 a.7 mkdir ",
        &clashes,
        b" 755 = clash ",
        root,
        &clashing,
        b"/0 ",
        root,
        &kept,
        b"/0 first 45 last 52 attempts 1 rounds 1 messages 4\nevents 52\n",
    ];
    expect_front(&rt, alloc, &script, &report)
}

/// So many client lines, calls and moves as a script may have: each client makes all its calls at `*`, the last move.
fn script_of_the_most(alloc: Global) -> Result<Vec<u8>, Fail> {
    let mut text = b"infinifs 1\nservers 64\n".to_vec(alloc)?;
    for client in 0..64 {
        let line = format!(in alloc; "client c{client} 0 0\n")?;
        text.extend_from_slice(line.as_bytes())?;
    }
    for call in 0..20_000 {
        let client = call % 64;
        let line = format!(in alloc; "call c{client} stat /f\n")?;
        text.extend_from_slice(line.as_bytes())?;
    }
    for _ in 0..100 {
        text.extend_from_slice(b"order")?;
        for _ in 0..9_999 {
            text.extend_from_slice(b" c")?;
        }
        text.extend_from_slice(b" *\n")?;
    }
    text.extend_from_slice(b"end\n")?;
    Ok(text)
}

/// Each call looks up the root, and asks for the file.
fn report_of_the_most(alloc: Global) -> Result<Vec<u8>, Fail> {
    let mut text = b"infinifs report 1\nservers 64\ndigest-bytes 32\ncache 256\n".to_vec(alloc)?;
    for client in 0..64 {
        let line = format!(in alloc; "client c{client} 0 0\n")?;
        text.extend_from_slice(line.as_bytes())?;
    }
    text.extend_from_slice(b"calls 20000\n")?;
    let mut before: u32 = 0;
    for client in 0..64 {
        let calls = if client < 32 { 313 } else { 312 };
        for number in 1..=calls {
            let first = before.saturating_add(1);
            let last = before.saturating_add(4);
            let call = format!(in alloc; "{last} c{client}.{number} stat /f = refused ENOENT")?;
            text.extend_from_slice(call.as_bytes())?;
            let counts = format!(in alloc;
                " first {first} last {last} attempts 1 rounds 1 messages 2\n"
            )?;
            text.extend_from_slice(counts.as_bytes())?;
            before = last;
        }
    }
    text.extend_from_slice(b"events 80000\n")?;
    Ok(text)
}

#[test]
fn the_most_clients_calls_and_moves(rt: HostRuntime) -> Result<(), Fail> {
    let script = script_of_the_most(rt.alloc())?;
    let report = report_of_the_most(rt.alloc())?;
    expect_front(&rt, rt.alloc(), &[&script], &[&report])
}
