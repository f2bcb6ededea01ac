//! A source over one of std's readers: here the service's bytes come in from outside.
ghost use Rattle.std.specs.Prelude.{◌≡◌, ◌≤◌, ◌<◌, length};
ghost use Rattle.std.specs.Io.{ReadsAtMost};
ghost use Rattle.std.specs.Io.KnownBytes.{ReadConsumes};
ghost use Rattle.inf_io.specs.Faults.{Rose, Stays, count_after};
ghost use Rattle.inf_io.specs.Source.{OnFailedTake, TakesFrom, TakesWithin, UnlessFailedTake, is_failed_take};

use crate::interrupts::{MOST_TRIES, is_interrupted};
use crate::source::Source;
use crate::take::Take;
use std::io;
use std::io::Read;
use std::marker::Model;

/// A source that tells what its reader tells. Each read that ends in an error is a fault. One that a
/// signal interrupted is made again, as std's own calls do, and is a fault after 64 interruptions.
#[derive(Debug, Drop)]
pub struct ReadSource<R: Read> {
    reader: R,
    faults: u64,
}

impl<R: Read> Model for ReadSource<R> {
    ghost use Rattle.std.specs.Prelude.{ℕ};
    ghost use Rattle.std.specs.Coded.{coded_ℕ, coded×};

    ghost Value = { R × ℕ };

    ghost coded = { coded× R.code coded_ℕ };

    ghost view = { λ s. (s.reader, s.faults) };
}

impl<R: Read> ReadSource<R> {
    pub fn new(reader: R) -> Self
        ensures { result ≡ (reader, 0) }
    {
        ReadSource { reader, faults: 0 }
    }
}

impl<R: Read> Source for ReadSource<R> {
    ghost left = { λ s. R.remaining s.0 };

    ghost faults = { λ s. s.1 };

    fn take(&mut self, buf: &mut [u8]) -> Take
        requires { 0 < length buf.old }
        ensures count { TakesWithin (length buf.old) result }
        ensures bytes { TakesFrom (R.remaining self.old.0) (R.remaining self.new.0) result buf.new }
        ensures failed { OnFailedTake result (Rose self.old.1 self.new.1) }
        ensures stays { UnlessFailedTake result (Stays self.old.1 self.new.1) }
        ensures never_falls { self.old.1 ≤ self.new.1 }

        // Exactly the takes that fail are counted.
        ensures faults { self.new.1 ≡ count_after (is_failed_take result) self.old.1 }
    {
        match read_again(&mut self.reader, buf) {
            Ok(0) => Take::End,
            Ok(n) => Take::Taken(n),
            Err(_) => {
                self.faults = self.faults.saturating_add(1);
                Take::Failed
            }
        }
    }

    fn faults(&self) -> u64 {
        self.faults
    }
}

/// One read, made again where a signal interrupted it.
fn read_again<R: Read>(reader: &mut R, buf: &mut [u8]) -> io::Result<usize>
    ensures bound { ReadsAtMost result buf.new }
    ensures bytes { ReadConsumes (R.remaining reader.old) (R.remaining reader.new) result buf.new }
{
    for _ in 1..MOST_TRIES {
        let outcome = reader.read(buf);
        if !is_interrupted(&outcome) {
            return outcome;
        }
    }
    reader.read(buf)
}
