//! What no clause says: that the calls succeed where they may, and how the adapters meet signals.
ghost use Rattle.std.specs.Prelude.{◌≤◌, IfOk};

use crate::{
    MemSink, MemSource, ReadFault, ReadSource, Sink, Source, WriteSink, read_all, write_all,
};
use std::io;
use std::io::{Error, ErrorKind, Read, Write};
use std::test::Fail;

/// The answer by a word, and the bytes in it.
fn told(answer: &Result<Vec<u8>, ReadFault>) -> (&str, &[u8]) {
    match answer {
        Ok(all) => ("all", all.as_slice()),
        Err(ReadFault::TooLarge(front)) => ("too large", front.as_slice()),
        Err(ReadFault::Read) => ("fault", &[]),
        Err(ReadFault::NoMemory) => ("no memory", &[]),
    }
}

#[test]
fn reads_all(rt: HostRuntime) -> Result<(), Fail> {
    let cases: [(&str, usize, &[u64], usize, &str, &str, u64); 10] = [
        ("", 1, &[], 0, "all", "", 0),
        ("abc", 1, &[], 3, "all", "abc", 0),
        ("abc", 9, &[], 3, "all", "abc", 0),
        ("abc", 2, &[], 2, "too large", "ab", 0),
        ("abc", 9, &[], 0, "too large", "", 0),
        ("abc", 1, &[1], 3, "fault", "", 1),
        ("abc", 1, &[4], 3, "fault", "", 1),
        ("abc", 1, &[5], 3, "all", "abc", 0),
        ("abc", 1, &[2], 1, "fault", "", 1),
        ("abc", 1, &[3], 1, "too large", "a", 0),
    ];
    for (bytes, piece, fails, limit, word, want, faults) in cases {
        if piece == 0 || limit == usize::MAX {
            continue;
        }
        let bytes = bytes.as_bytes().to_vec(rt.alloc())?;
        let mut source = MemSource::new(bytes, piece, fails.to_vec(rt.alloc())?);
        let answer = read_all(rt.alloc(), &mut source, limit);
        let (answer_word, answer_bytes) = told(&answer);
        assert_eq!(rt; answer_word, word);
        assert_eq!(rt; answer_bytes, want.as_bytes());
        assert_eq!(rt; source.faults(), faults);
    }
    Ok(())
}

#[test]
fn writes_all(rt: HostRuntime) -> Result<(), Fail> {
    let cases: [(&str, usize, usize, &[u64], bool, &str, u64); 6] = [
        ("", 1, 0, &[], true, "", 0),
        ("abc", 2, 3, &[], true, "abc", 0),
        ("abc", 9, 9, &[4], true, "abc", 0),
        ("abc", 2, 2, &[], false, "ab", 1),
        ("abc", 1, 9, &[2], false, "a", 1),
        ("abc", 1, 0, &[1], false, "", 1),
    ];
    for (bytes, piece, room, fails, succeeds, want, faults) in cases {
        if piece == 0 {
            continue;
        }
        let fails = fails.to_vec(rt.alloc())?;
        let mut sink = MemSink::new(rt.alloc(), piece, room, fails)?;
        let answer = write_all(&mut sink, bytes.as_bytes());
        assert_eq!(rt; answer.is_ok(), succeeds);
        assert_eq!(rt; sink.held(), want.as_bytes());
        assert_eq!(rt; sink.faults(), faults);
    }
    Ok(())
}

/// A reader and a writer. Signals interrupt its first calls, the next ones move a byte each, and then
/// each call moves nothing or is an error.
#[derive(Drop)]
struct Fake {
    interruptions: u32,
    good: u32,
    is_error: bool,
}

impl Fake {
    fn call(&mut self, len: usize) -> io::Result<usize>
        ensures { IfOk result (λ n. n ≤ len) }
    {
        if self.interruptions > 0 {
            self.interruptions -= 1;
            return Err(Error::from(ErrorKind::Interrupted));
        }
        if self.good > 0 {
            self.good -= 1;
            return Ok(len.min(1));
        }
        if self.is_error {
            return Err(Error::from(ErrorKind::BrokenPipe));
        }
        Ok(0)
    }
}

impl Read for Fake {
    fn read(&mut self, buf: &mut [u8]) -> io::Result<usize> {
        let n = self.call(buf.len())?;
        buf[..n].fill(b'a');
        Ok(n)
    }
}

impl Write for Fake {
    fn write(&mut self, buf: &[u8]) -> io::Result<usize> {
        self.call(buf.len())
    }

    fn flush(&mut self) -> io::Result<()> {
        Ok(())
    }
}

#[test]
fn reads_from_a_reader(rt: HostRuntime) -> Result<(), Fail> {
    let mut source = ReadSource::new(&b"abc"[..]);
    let answer = read_all(rt.alloc(), &mut source, 3);
    assert_eq!(rt; told(&answer).1, b"abc".as_slice());

    let cases = [
        (0, 2, false, "all", 0),
        (63, 2, false, "all", 0),
        (64, 2, false, "fault", 1),
        (0, 2, true, "fault", 1),
    ];
    for (interruptions, good, is_error, word, faults) in cases {
        let mut source = ReadSource::new(Fake {
            interruptions,
            good,
            is_error,
        });
        let answer = read_all(rt.alloc(), &mut source, 9);
        assert_eq!(rt; told(&answer).0, word);
        assert_eq!(rt; source.faults(), faults);
    }
    Ok(())
}

#[test]
fn writes_to_a_writer(rt: HostRuntime) -> Result<(), Fail> {
    let mut bytes = Vec::new(rt.alloc());
    let mut sink = WriteSink::new(&mut bytes);
    assert_eq!(rt; write_all(&mut sink, b"abc"), Ok(()));
    assert_eq!(rt; bytes.as_slice(), b"abc".as_slice());

    // Three bytes are to be written.
    let cases = [
        (0, 3, true, true, 0),
        (63, 3, false, true, 0),
        (64, 3, false, false, 1),
        (0, 2, true, false, 1),
        (0, 2, false, false, 1),
    ];
    for (interruptions, good, is_error, succeeds, faults) in cases {
        let mut sink = WriteSink::new(Fake {
            interruptions,
            good,
            is_error,
        });
        assert_eq!(rt; write_all(&mut sink, b"abc").is_ok(), succeeds);
        assert_eq!(rt; sink.faults(), faults);
    }
    Ok(())
}
