ghost use Rattle.std.specs.Prelude.{◌<◌};

use crate::top::infinifs;
use crate::trial::{source, words_of};
use inf_io::MemSink;
use inf_script::{MOST_SCRIPT_BYTES, ScriptFault, ScriptRefusal, Why, read_script};
use std::alloc::Global;
use std::process::Abort;
use std::test::Fail;

const SCRIPT: &[u8] = b"infinifs 1\n\
      servers 2\n\
      client a 0 0\n\
      client b 0 0\n\
      call a create /f 644\n\
      call b stat /f\n\
      order +a +b s0 s0 +a +b s0:b s0\n\
      end\n";

/// Both clients look up the root, then the stat is served before the create.
const REPORT: &[u8] = b"infinifs report 1\n\
      servers 2\n\
      digest-bytes 32\n\
      cache 256\n\
      client a 0 0\n\
      client b 0 0\n\
      calls 2\n\
      7 b.1 stat /f = refused ENOENT first 2 last 7 attempts 1 rounds 1 messages 2\n\
      8 a.1 create /f 644 = done first 1 last 8 attempts 1 rounds 1 messages 2\n\
      events 8\n\
      1 ask a.1 s0 lookup top\n\
      2 ask b.1 s0 lookup top\n\
      3 serve s0 1 found top e3b0c44298fc1c149afbf4c8996fb92427ae41e4649b934ca495991b7852b855#0 755 0 0 root\n\
      4 serve s0 2 found top e3b0c44298fc1c149afbf4c8996fb92427ae41e4649b934ca495991b7852b855#0 755 0 0 root\n\
      5 ask a.1 s0 finish 3 create f 644\n\
      6 ask b.1 s0 finish 4 stat f\n\
      7 serve s0 6 refused ENOENT\n\
      8 serve s0 5 fine\n\
      end\n";

const EMPTY_SCRIPT: &[u8] = b"infinifs 1\nend\n";

const EMPTY_REPORT: &[u8] = b"infinifs report 1\n\
      servers 1\n\
      digest-bytes 32\n\
      cache 256\n\
      calls 0\n\
      events 0\n\
      end\n";

const USAGE: &[u8] = b"usage: infinifs sched | run | work START SIZE\n";

fn sink(alloc: Global, piece: usize, fails: &[u64]) -> Result<MemSink, Fail>
    requires { 0 < piece }
{
    Ok(MemSink::new(alloc, piece, 4096, fails.to_vec(alloc)?)?)
}

/// Two servers, of which the first keeps the root, and two clients that create a file and ask for it.
const CLIENTS: &[u8] = b"infinifs 1\n\
      servers 2\n\
      client a 0 0\n\
      client b 0 0\n\
      call a create /f 644\n\
      call a stat /f\n\
      call b stat /f\n\
      order ";

const ALONE: &[u8] = b"events 4\n\
      1 ask a.1 s0 lookup top\n\
      2 serve s0 1 found top e3b0c44298fc1c149afbf4c8996fb92427ae41e4649b934ca495991b7852b855#0 755 0 0 root\n\
      3 ask a.1 s0 finish 2 create f 644\n\
      4 serve s0 3 fine\n\
      end\n";

const PASSED_OVER: &[u8] = b"events 5\n\
      1 ask a.1 s0 lookup top\n\
      2 ask b.1 s0 lookup top\n\
      3 serve s0 2 found top e3b0c44298fc1c149afbf4c8996fb92427ae41e4649b934ca495991b7852b855#0 755 0 0 root\n\
      4 ask b.1 s0 finish 3 stat f\n\
      5 serve s0 4 refused ENOENT\n\
      end\n";

const REST: &[u8] = b"events 12\n\
      1 ask a.1 s0 lookup top\n\
      2 ask b.1 s0 lookup top\n\
      3 serve s0 2 found top e3b0c44298fc1c149afbf4c8996fb92427ae41e4649b934ca495991b7852b855#0 755 0 0 root\n\
      4 serve s0 1 found top e3b0c44298fc1c149afbf4c8996fb92427ae41e4649b934ca495991b7852b855#0 755 0 0 root\n\
      5 ask a.1 s0 finish 4 create f 644\n\
      6 serve s0 5 fine\n\
      7 ask a.2 s0 lookup top\n\
      8 serve s0 7 found top e3b0c44298fc1c149afbf4c8996fb92427ae41e4649b934ca495991b7852b855#0 755 0 0 root\n\
      9 ask a.2 s0 finish 8 stat f\n\
      10 serve s0 9 stat file 644 0 0 0\n\
      11 ask b.1 s0 finish 3 stat f\n\
      12 serve s0 11 stat file 644 0 0 0\n\
      end\n";

/// Runs the two clients under an order, and compares the events that it makes.
fn expect_events(rt: &impl Abort, alloc: Global, order: &[u8], events: &[u8]) -> Result<(), Fail> {
    let mut text = CLIENTS.to_vec(alloc)?;
    text.extend_from_slice(order)?;
    text.extend_from_slice(b"\nend\n")?;
    let words = words_of(alloc, &["sched"])?;
    let mut source = source(alloc, &text, 64, &[])?;
    let mut sink = sink(alloc, 64, &[])?;
    let answer = infinifs(alloc, &words, &mut source, &mut sink);
    assert_eq!(rt; answer, 0);
    assert!(rt; sink.held().ends_with(events));
    Ok(())
}

/// Runs `sched` over a source and a sink that meet no fault.
fn expect_run(
    rt: &impl Abort,
    alloc: Global,
    text: &[u8],
    status: u8,
    written: &[u8],
) -> Result<(), Fail> {
    let words = words_of(alloc, &["sched"])?;
    let mut source = source(alloc, text, 7, &[])?;
    let mut sink = sink(alloc, 11, &[])?;
    let answer = infinifs(alloc, &words, &mut source, &mut sink);
    assert_eq!(rt; answer, status);
    assert_eq!(rt; sink.held(), written);
    Ok(())
}

#[test]
fn an_order_decides_which_call_comes_first(rt: HostRuntime) -> Result<(), Fail> {
    expect_run(&rt, rt.alloc(), SCRIPT, 0, REPORT)
}

#[test]
fn each_move_makes_its_events(rt: HostRuntime) -> Result<(), Fail> {
    expect_events(&rt, rt.alloc(), b"=a", ALONE)?;
    expect_events(&rt, rt.alloc(), b"+a +a s1 c s0:b c:a =b", PASSED_OVER)?;
    expect_events(&rt, rt.alloc(), b"+a +b s0:b s0 s0 *", REST)
}

#[test]
fn the_empty_script_is_reported(rt: HostRuntime) -> Result<(), Fail> {
    expect_run(&rt, rt.alloc(), EMPTY_SCRIPT, 0, EMPTY_REPORT)
}

#[test]
fn refused_scripts_are_answered_by_a_line(rt: HostRuntime) -> Result<(), Fail> {
    let alloc = rt.alloc();
    expect_run(&rt, alloc, b"", 3, b"script 1 bad-word\n")?;
    let text = b"infinifs 1\nclient a 0 0\ncall b stat /f\nend\n";
    expect_run(&rt, alloc, text, 3, b"script 3 unknown-client\n")?;
    let text = b"infinifs 1\nservers 1\nclient a 0 0\norder s1\nend\n";
    expect_run(&rt, alloc, text, 3, b"script 4 bad-number\n")
}

#[test]
fn other_words_are_answered_by_the_usage_line(rt: HostRuntime) -> Result<(), Fail> {
    let lines: [&[&str]; 6] = [
        &[],
        &["sched", "now"],
        &["Sched"],
        &["run"],
        &["work", "0", "2"],
        &["--help"],
    ];
    for line in lines {
        let words = words_of(rt.alloc(), line)?;
        let mut source = source(rt.alloc(), SCRIPT, 7, &[])?;
        let mut sink = sink(rt.alloc(), 11, &[])?;
        let answer = infinifs(rt.alloc(), &words, &mut source, &mut sink);
        assert_eq!(rt; answer, 1);
        assert_eq!(rt; sink.held(), USAGE);
    }
    Ok(())
}

#[test]
fn a_fault_of_the_source_ends_the_run(rt: HostRuntime) -> Result<(), Fail> {
    let words = words_of(rt.alloc(), &["sched"])?;
    let mut failing = source(rt.alloc(), SCRIPT, 4, &[2])?;
    let mut empty = sink(rt.alloc(), 11, &[])?;
    let answer = infinifs(rt.alloc(), &words, &mut failing, &mut empty);
    assert_eq!(rt; answer, 2);
    assert_eq!(rt; empty.held(), b"".as_slice());
    Ok(())
}

#[test]
fn a_fault_of_the_sink_leaves_a_front(rt: HostRuntime) -> Result<(), Fail> {
    let words = words_of(rt.alloc(), &["sched"])?;
    let mut whole = source(rt.alloc(), SCRIPT, 7, &[])?;
    let mut failing = sink(rt.alloc(), 10, &[2])?;
    let answer = infinifs(rt.alloc(), &words, &mut whole, &mut failing);
    assert_eq!(rt; answer, 4);
    assert_eq!(rt; failing.held(), b"infinifs r".as_slice());
    Ok(())
}

/// A line of 32,768 bytes, its newline included, that begins with this word and is blank behind it.
fn long_line(alloc: Global, word: &[u8]) -> Result<Vec<u8>, Fail> {
    let mut line = word.to_vec(alloc)?;
    for _ in word.len()..32_767 {
        line.push(b' ')?;
    }
    line.push(b'\n')?;
    Ok(line)
}

/// A script of the largest size, in 2,048 lines.
fn longest_script(alloc: Global) -> Result<Vec<u8>, Fail> {
    let mut text = long_line(alloc, b"infinifs 1")?;
    let comment = long_line(alloc, b"#")?;
    for _ in 0..2046 {
        text.extend_from_slice(&comment)?;
    }
    text.extend_from_slice(&long_line(alloc, b"end")?)?;
    Ok(text)
}

/// Whether a text, which goes on behind these bytes or not, is refused so; `None` for a script.
fn is_refused(alloc: Global, text: &[u8], more: bool, expected: Option<ScriptRefusal>) -> bool {
    if text.len() < MOST_SCRIPT_BYTES {
        return false;
    }
    match read_script(alloc, text, more) {
        Ok(_) => expected.is_none(),
        Err(ScriptFault::Refused(refusal)) => expected == Some(refusal),
        Err(ScriptFault::NoMemory) => false,
    }
}

#[test]
fn the_longest_text_is_read_and_no_longer_one(rt: HostRuntime) -> Result<(), Fail> {
    let text = longest_script(rt.alloc())?;
    assert_eq!(rt; text.len(), MOST_SCRIPT_BYTES);
    assert!(rt; is_refused(rt.alloc(), &text, false, None));
    let too_long = ScriptRefusal {
        line: 2049,
        why: Why::TooLong,
    };
    assert!(rt; is_refused(rt.alloc(), &text, true, Some(too_long)));
    Ok(())
}
