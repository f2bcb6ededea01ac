//! The text of a report waits in a buffer, and goes to the sink in pieces of whole lines.

ghost use Rattle.std.specs.Prelude.{◌≡◌, [], OnOk};
ghost use Rattle.inf_report.specs.Writing.{Puts, output};

use crate::fault::ReportFault;
use inf_io::{Sink, write_all};

/// A buffer with more bytes than these is handed to the sink.
const PIECE: usize = 65_536;

/// Hands over all that waits.
pub fn hand_over<K: Sink>(sink: &mut K, buffer: &mut Vec<u8>) -> Result<(), ReportFault>
    ensures puts { Puts result
        (output (K.held sink.old) (K.faults sink.old) buffer.old.items)
        (output (K.held sink.new) (K.faults sink.new) buffer.new.items) [] }
    ensures empty { OnOk result (buffer.new.items ≡ []) }
{
    write_all(sink, buffer.as_slice())?;
    buffer.clear();
    Ok(())
}

/// Hands over all that waits, if it is a piece.
pub fn hand_over_piece<K: Sink>(sink: &mut K, buffer: &mut Vec<u8>) -> Result<(), ReportFault>
    ensures { Puts result
        (output (K.held sink.old) (K.faults sink.old) buffer.old.items)
        (output (K.held sink.new) (K.faults sink.new) buffer.new.items) [] }
{
    if buffer.len() <= PIECE {
        return Ok(());
    }
    hand_over(sink, buffer)
}
