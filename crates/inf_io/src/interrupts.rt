//! How the adapters put up with signals.
ghost use Rattle.std.specs.Prelude.{◌≡◌, ◌↔◌, IsTrue, IsErrAnd};
ghost use Rattle.std.specs.IoError.{error_kind};
ghost use Rattle.std.specs.declared.io.ErrorKind.TheVariants.{Interrupted};

use std::io;
use std::io::ErrorKind;

/// So many interruptions in a row make a read or a write a failed one.
pub const MOST_TRIES: usize = 64;

/// Whether a signal cut the call short before it did anything.
pub fn is_interrupted(outcome: &io::Result<usize>) -> bool
    ensures { IsTrue result ↔ IsErrAnd outcome.now (λ error. error_kind error ≡ Interrupted) }
{
    match outcome {
        Ok(_) => false,
        Err(error) => error.kind() == ErrorKind::Interrupted,
    }
}
