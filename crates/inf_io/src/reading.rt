//! Reads all bytes of a source.
ghost use Rattle.std.specs.Prelude.{◌≡◌, ◌+◌, ◌≤◌, ◌<◌, length, take, vec_len, IfOk, IfSome, OnOk, OnErr, IsOkUnless, IsErrOf};
ghost use Rattle.std.specs.Io.KnownBytes.{IsAtEnd};
ghost use Rattle.inf_io.specs.Faults.{Rose, Stays};
ghost use Rattle.inf_io.specs.Source.{OnFailedTake, UnlessFailedTake};
ghost use Rattle.inf_io.specs.Reading.{IfTooLarge, LosesAtMost, MovesBy, TookOneMore, UnlessRead};

use crate::source::Source;
use crate::take::Take;
use inf_base::NoMemory;
use std::alloc::{AllocError, Global};
use std::error::Error;
use std::fmt;

/// The most bytes that one take is asked for.
const CHUNK: usize = 65536;

/// Why a source was not read whole.
#[derive(Debug, PartialEq, Eq, Drop)]
pub enum ReadFault {
    /// The source failed.
    Read,
    /// There were more bytes than the limit. These are the first, as many as the limit.
    TooLarge(Vec<u8>),
    NoMemory,
}

impl fmt::Display for ReadFault {
    fn fmt<W: fmt::Write>(&self, f: &mut fmt::Formatter<W>) -> fmt::Result {
        f.write_str(match self {
            ReadFault::Read => "a read failed",
            ReadFault::TooLarge(_) => "there is too much to read",
            ReadFault::NoMemory => "no memory is left",
        })
    }
}

impl Error for ReadFault {}

impl From<NoMemory> for ReadFault {
    ghost use Rattle.std.specs.Prelude.{◌≡◌};
    ghost use Rattle.inf_io.specs.declared.reading.ReadFault.TheVariants as faults;

    ghost from_gives = { λ _ e. e ≡ faults.NoMemory };

    fn from(_error: NoMemory) -> ReadFault {
        ReadFault::NoMemory
    }
}

impl From<AllocError> for ReadFault {
    ghost use Rattle.std.specs.Prelude.{◌≡◌};
    ghost use Rattle.inf_io.specs.declared.reading.ReadFault.TheVariants as faults;

    ghost from_gives = { λ _ e. e ≡ faults.NoMemory };

    fn from(_error: AllocError) -> ReadFault {
        ReadFault::NoMemory
    }
}

/// All bytes up to the end, if they are at most `limit`. After a fault the bytes taken so far are gone
/// from the source.
pub fn read_all<S: Source>(
    alloc: Global,
    source: &mut S,
    limit: usize,
) -> Result<Vec<u8>, ReadFault>
    requires { limit < usize.MAX }

    // Ok is all that was left, and nothing is left.
    ensures whole { IfOk result (λ all. IfSome (S.left source.old) (λ bytes. all.items ≡ bytes)) }
    ensures at_end { OnOk result (IsAtEnd (S.left source.new)) }
    ensures within { IfOk result (λ all. vec_len all ≤ limit) }

    // TooLarge is the first of more than the limit, and one byte more was taken.
    ensures front { IfTooLarge result (λ front. IfSome (S.left source.old)
        (λ bytes. (front ≡ take limit bytes) × (limit < length bytes))) }
    ensures one_more { IfTooLarge result (TookOneMore (S.left source.old) (S.left source.new)) }
    ensures full { IfTooLarge result (λ front. length front ≡ limit) }

    // A fault comes only where the source's count rose; without one the length alone decides.
    ensures read { IsErrOf result ReadFault.Read → Rose (S.faults source.old) (S.faults source.new) }
    ensures complete { ¬ Rose (S.faults source.old) (S.faults source.new) →
        IfSome (S.left source.old) (λ bytes. length bytes ≤ limit → IsOkUnless result ReadFault.NoMemory) }

    // All other answers, and so want of memory, come only where the source did not fail.
    ensures stays { UnlessRead result (Stays (S.faults source.old) (S.faults source.new)) }
    ensures never_falls { S.faults source.old ≤ S.faults source.new }

    // What the source has lost: at a read fault no more than the limit, and else at most one more.
    ensures lost_at_read { IsErrOf result ReadFault.Read →
        LosesAtMost limit (S.left source.old) (S.left source.new) }
    ensures lost { LosesAtMost (limit + 1) (S.left source.old) (S.left source.new) }
{
    let mut chunk = vec![in alloc; 0; CHUNK.min(limit + 1)]?;
    let mut all = Vec::new(alloc);
    while all.len() <= limit {
        let most = limit + 1 - all.len();
        match take_more(source, &mut chunk, most, &mut all)? {
            Take::Taken(_) => {}
            Take::End => return Ok(all),
            Take::Failed => return Err(ReadFault::Read),
        }
    }
    all.truncate(limit);
    Err(ReadFault::TooLarge(all))
}

/// Takes once, at most `most` bytes, and moves them to the end of `all`.
fn take_more<S: Source>(
    source: &mut S,
    chunk: &mut [u8],
    most: usize,
    all: &mut Vec<u8>,
) -> Result<Take, NoMemory>
    requires room { 0 < length chunk.old }
    requires most { 0 < most }
    ensures moves { IfOk result (MovesBy most (S.left source.old) (S.left source.new)
        all.old.items all.new.items) }
    ensures failed { IfOk result
        (λ take. OnFailedTake take (Rose (S.faults source.old) (S.faults source.new))) }
    ensures stays { IfOk result
        (λ take. UnlessFailedTake take (Stays (S.faults source.old) (S.faults source.new))) }
    ensures never_falls { S.faults source.old ≤ S.faults source.new }
    ensures err { OnErr result (LosesAtMost most (S.left source.old) (S.left source.new)) }
    ensures memory { OnErr result (Stays (S.faults source.old) (S.faults source.new)) }
{
    let room = chunk.len().min(most);
    let taken = source.take(&mut chunk[..room]);
    if let Take::Taken(n) = taken {
        all.extend_from_slice(&chunk[..n])?;
    }
    Ok(taken)
}
