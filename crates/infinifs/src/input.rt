//! The script of a run, from the bytes of a source.

ghost use Rattle.std.specs.Prelude.{◌≡◌, ◌≤◌, ◌<◌, length, take, nat_lt, IsTrue, IfOk, IfErr, IfSome};
ghost use Rattle.inf_io.specs.Faults.{Rose, Stays};
ghost use Rattle.inf_script.specs.declared.script.TheConstants.{MOST_SCRIPT_BYTES};
ghost use Rattle.infinifs.specs.Command.{InputDid, TextDid};

use inf_io::{ReadFault, Source, read_all};
use inf_script::{MOST_SCRIPT_BYTES, Script, ScriptFault, ScriptRefusal, read_script};
use std::alloc::Global;

/// Why there is no script to run.
#[derive(Debug, Drop)]
pub enum InputFault {
    /// The source failed.
    Read,
    /// The bytes are no script.
    Refused(ScriptRefusal),
    NoMemory,
}

/// The text of a source, as far as a script may reach.
#[derive(Debug, Drop)]
struct Text {
    bytes: Vec<u8>,
    /// Whether the text goes on.
    more: bool,
}

fn text_of<S: Source>(alloc: Global, source: &mut S) -> Result<Text, InputFault>
    ensures { TextDid result (S.left source.old) (S.faults source.old) (S.faults source.new) }
{
    match read_all(alloc, source, MOST_SCRIPT_BYTES) {
        Ok(bytes) => Ok(Text { bytes, more: false }),
        Err(ReadFault::TooLarge(bytes)) => Ok(Text { bytes, more: true }),
        Err(ReadFault::Read) => Err(InputFault::Read),
        Err(ReadFault::NoMemory) => Err(InputFault::NoMemory),
    }
}

/// The script that all bytes of the source spell.
pub fn script_of<S: Source>(alloc: Global, source: &mut S) -> Result<Script, InputFault>
    ensures { InputDid result (S.left source.old) (S.faults source.old) (S.faults source.new) }
{
    let text = match text_of(alloc, source) {
        Ok(text) => text,
        Err(fault) => return Err(fault),
    };
    match read_script(alloc, &text.bytes, text.more) {
        Ok(script) => Ok(script),
        Err(ScriptFault::Refused(refusal)) => Err(InputFault::Refused(refusal)),
        Err(ScriptFault::NoMemory) => Err(InputFault::NoMemory),
    }
}
