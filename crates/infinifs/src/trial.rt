//! What tests need to run the program and to write down what is expected of it.
ghost use Rattle.std.specs.Prelude.{◌<◌};

use crate::top::infinifs;
use inf_io::{MemSink, MemSource};
use std::alloc::Global;
use std::process::Abort;
use std::test::Fail;

/// The identifier of the root, the SHA-256 of nothing.
const ROOT: &[u8] = b"e3b0c44298fc1c149afbf4c8996fb92427ae41e4649b934ca495991b7852b855";

/// That of the directory `a` of the root, of version 0. Of two servers the second keeps it.
const A: &[u8] = b"410ec5e84667f26908f606f90ae032b1dc4a7ca38764924c858e9a4b5b195fe9";

/// That of the directory `b` in that, of version 0, which the first keeps.
const B: &[u8] = b"4541bd3695a5c62660dd7b59a6d5fa94a3086c736902989f4ffa6bd9fb1008eb";

/// A source of these bytes in pieces of `piece`, of whose calls those of the numbers in `fails` fail.
pub fn source(alloc: Global, bytes: &[u8], piece: usize, fails: &[u64]) -> Result<MemSource, Fail>
    requires { 0 < piece }
{
    Ok(MemSource::new(bytes.to_vec(alloc)?, piece, fails.to_vec(alloc)?))
}

pub fn words_of(alloc: Global, words: &[&str]) -> Result<Vec<String>, Fail> {
    let mut all = Vec::new(alloc);
    for word in words {
        all.push(String::from_str(alloc, word)?)?;
    }
    Ok(all)
}

/// A text in which `@` stands for the root's identifier, `%` for that of its directory `a`, and `&` for that of `b` in
/// `a`.
pub fn spelt(alloc: Global, text: &[u8]) -> Result<Vec<u8>, Fail> {
    let mut bytes = Vec::new(alloc);
    for byte in text {
        match *byte {
            b'@' => bytes.extend_from_slice(ROOT)?,
            b'%' => bytes.extend_from_slice(A)?,
            b'&' => bytes.extend_from_slice(B)?,
            other => bytes.push(other)?,
        }
    }
    Ok(bytes)
}

/// Runs `sched` on a script, and has its report in the sink.
pub fn run(rt: &impl Abort, alloc: Global, script: &[u8]) -> Result<MemSink, Fail> {
    let words = words_of(alloc, &["sched"])?;
    let mut source = source(alloc, script, 4096, &[])?;
    let mut sink = MemSink::new(alloc, 4096, 1 << 20, Vec::new(alloc))?;
    let answer = infinifs(alloc, &words, &mut source, &mut sink);
    assert_eq!(rt; answer, 0);
    Ok(sink)
}

/// Runs a script, and compares its whole report.
pub fn expect_report(
    rt: &impl Abort,
    alloc: Global,
    script: &[u8],
    report: &[u8],
) -> Result<(), Fail> {
    let sink = run(rt, alloc, script)?;
    let expected = spelt(alloc, report)?;
    assert!(rt; sink.held() == expected.as_slice());
    Ok(())
}

/// Runs a script, and compares the end of its report.
pub fn expect_end(rt: &impl Abort, alloc: Global, script: &[u8], end: &[u8]) -> Result<(), Fail> {
    let sink = run(rt, alloc, script)?;
    let expected = spelt(alloc, end)?;
    assert!(rt; sink.held().ends_with(&expected));
    Ok(())
}

/// Two clients of one server, and what the report says of them.
const CLIENTS: &[u8] = b"client a 0 0\nclient b 0 0\n";

const HEAD: &[u8] = b"infinifs report 1\nservers 1\ndigest-bytes 32\ncache 256\n";

/// Has the clients a and b of one server make calls under an order, and compares all call lines.
pub fn expect_calls(
    rt: &impl Abort,
    alloc: Global,
    calls: &[u8],
    order: &[u8],
    lines: &[u8],
) -> Result<(), Fail> {
    let mut script = b"infinifs 1\n".to_vec(alloc)?;
    for piece in [CLIENTS, calls, b"order ", order, b"\nend\n"] {
        script.extend_from_slice(piece)?;
    }
    let mut front = HEAD.to_vec(alloc)?;
    for piece in [CLIENTS, lines, b"events "] {
        front.extend_from_slice(piece)?;
    }
    let sink = run(rt, alloc, &script)?;
    assert!(rt; sink.held().starts_with(&front));
    Ok(())
}
