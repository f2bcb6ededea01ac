//! What takes bytes in.
ghost use Rattle.std.specs.Prelude.{◌≡◌, ◌≤◌, ◌<◌, ℕ, List, None, length};
ghost use Rattle.std.specs.declared.option.Option.{Option};
ghost use Rattle.inf_io.specs.Faults.{Rose, Stays};
ghost use Rattle.inf_io.specs.Sink.{GivesTo, GivesWithin, OnFailedGive, UnlessFailedGive};

use crate::give::Give;

/// Takes bytes in, in pieces of its own choice, and counts its faults.
pub trait Sink {
    /// The bytes that it holds, where the sink tells them.
    ghost held: { Self → Option (List ℕ) } = { λ _. None };

    /// How many faults there were, up to the greatest `u64`.
    ghost faults: { Self → ℕ };

    /// Appends some of `bytes`, from the first on. A device that takes none of them has failed.
    fn put(&mut self, bytes: &[u8]) -> Give
        requires { 0 < length bytes.now }
        ensures count { GivesWithin (length bytes.now) result }
        ensures bytes { GivesTo (held self.old) (held self.new) result bytes.now }
        ensures failed { OnFailedGive result (Rose (faults self.old) (faults self.new)) }
        ensures stays { UnlessFailedGive result (Stays (faults self.old) (faults self.new)) }
        ensures never_falls { faults self.old ≤ faults self.new };

    /// How many faults there were. The count stops at the greatest `u64`.
    fn faults(&self) -> u64
        ensures { result ≡ faults self.now };
}
