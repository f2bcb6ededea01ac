//! A sink over one of std's writers: here the service's bytes go out.
ghost use Rattle.std.specs.Prelude.{◌≡◌, ◌≤◌, ◌<◌, length};
ghost use Rattle.std.specs.Io.{WritesAtMost};
ghost use Rattle.std.specs.Io.KnownBytes.{WriteAppends};
ghost use Rattle.inf_io.specs.Faults.{Rose, Stays, count_after};
ghost use Rattle.inf_io.specs.Sink.{GivesTo, GivesWithin, OnFailedGive, UnlessFailedGive, is_failed_give};

use crate::give::Give;
use crate::interrupts::{MOST_TRIES, is_interrupted};
use crate::sink::Sink;
use std::io;
use std::io::Write;
use std::marker::Model;

/// A sink that tells what its writer tells. Each write that ends in an error, or takes nothing, is a
/// fault. One that a signal interrupted is made again, as std's own calls do, and is a fault after 64
/// interruptions. It never flushes: give it a writer that keeps nothing back, as standard output.
#[derive(Debug, Drop)]
pub struct WriteSink<W: Write> {
    writer: W,
    faults: u64,
}

impl<W: Write> Model for WriteSink<W> {
    ghost use Rattle.std.specs.Prelude.{ℕ};
    ghost use Rattle.std.specs.Coded.{coded_ℕ, coded×};

    ghost Value = { W × ℕ };

    ghost coded = { coded× W.code coded_ℕ };

    ghost view = { λ s. (s.writer, s.faults) };
}

impl<W: Write> WriteSink<W> {
    pub fn new(writer: W) -> Self
        ensures { result ≡ (writer, 0) }
    {
        WriteSink { writer, faults: 0 }
    }
}

impl<W: Write> Sink for WriteSink<W> {
    ghost held = { λ s. W.contents s.0 };

    ghost faults = { λ s. s.1 };

    fn put(&mut self, bytes: &[u8]) -> Give
        requires { 0 < length bytes.now }
        ensures count { GivesWithin (length bytes.now) result }
        ensures bytes { GivesTo (W.contents self.old.0) (W.contents self.new.0) result bytes.now }
        ensures failed { OnFailedGive result (Rose self.old.1 self.new.1) }
        ensures stays { UnlessFailedGive result (Stays self.old.1 self.new.1) }
        ensures never_falls { self.old.1 ≤ self.new.1 }

        // Exactly the puts that fail are counted.
        ensures faults { self.new.1 ≡ count_after (is_failed_give result) self.old.1 }
    {
        match write_again(&mut self.writer, bytes) {
            Ok(0) | Err(_) => {
                self.faults = self.faults.saturating_add(1);
                Give::Failed
            }
            Ok(n) => Give::Gave(n),
        }
    }

    fn faults(&self) -> u64 {
        self.faults
    }
}

/// One write, made again where a signal interrupted it.
fn write_again<W: Write>(writer: &mut W, bytes: &[u8]) -> io::Result<usize>
    ensures bound { WritesAtMost result bytes.now }
    ensures bytes { WriteAppends (W.contents writer.old) (W.contents writer.new) result bytes.now }
{
    for _ in 1..MOST_TRIES {
        let outcome = writer.write(bytes);
        if !is_interrupted(&outcome) {
            return outcome;
        }
    }
    writer.write(bytes)
}
