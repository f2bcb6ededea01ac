//! Writes all of some bytes to a sink.
ghost use Rattle.std.specs.Prelude.{◌≡◌, ◌≤◌, [], IsOk, OnOk, OnErr};
ghost use Rattle.std.specs.Io.KnownBytes.{Appends};
ghost use Rattle.inf_io.specs.Faults.{Rose, Stays};
ghost use Rattle.inf_io.specs.Writing.{AppendsPrefix};

use crate::give::Give;
use crate::sink::Sink;
use std::error::Error;
use std::fmt;

/// The sink failed before it had all bytes.
#[derive(Clone, Copy, Debug, PartialEq, Eq)]
pub struct WriteFault;

impl fmt::Display for WriteFault {
    fn fmt<W: fmt::Write>(&self, f: &mut fmt::Formatter<W>) -> fmt::Result {
        f.write_str("a write failed")
    }
}

impl Error for WriteFault {}

/// Puts all of `bytes` in order; each put is offered all that is left. No bytes make no put.
pub fn write_all<K: Sink>(sink: &mut K, bytes: &[u8]) -> Result<(), WriteFault>
    ensures ok { OnOk result (Appends (K.held sink.old) (K.held sink.new) bytes.now) }
    ensures none { bytes.now ≡ [] → IsOk result }
    ensures none_put { bytes.now ≡ [] → sink.new ≡ sink.old }

    // A fault comes only where the sink's count rose, and a front was then taken.
    ensures fault { OnErr result (Rose (K.faults sink.old) (K.faults sink.new)) }
    ensures prefix { OnErr result (AppendsPrefix (K.held sink.old) (K.held sink.new) bytes.now) }
    ensures stays { OnOk result (Stays (K.faults sink.old) (K.faults sink.new)) }
    ensures never_falls { K.faults sink.old ≤ K.faults sink.new }
{
    let mut rest = bytes;
    while !rest.is_empty() {
        match sink.put(rest) {
            Give::Gave(n) => rest = &rest[n..],
            Give::Failed => return Err(WriteFault),
        }
    }
    Ok(())
}
