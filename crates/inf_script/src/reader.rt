//! The reading of a whole script.

ghost use Rattle.std.specs.Prelude.{◌≤◌, ◌≡◌, length, IfOk, IfErr, IsTrue, true, Ok};
ghost use Rattle.std.specs.List.{list_all};
ghost use Rattle.inf_base.specs.Memory.{Gives};
ghost use Rattle.inf_base.specs.Setup.{IsValid};
ghost use Rattle.inf_order.specs.Order.{is_move_of};
ghost use Rattle.inf_script.specs.declared.script.TheConstants.{MOST_SCRIPT_BYTES};
ghost use Rattle.inf_script.specs.Draft.{start, order_of};
ghost use Rattle.inf_script.specs.Faults.{cause, line_cause, fault_at};
ghost use Rattle.inf_script.specs.declared.fault.LineFault.TheVariants as line_fault;
ghost use Rattle.inf_script.specs.Lines.{lines_of};
ghost use Rattle.inf_script.specs.Reading.{ended, at_end, read_line, read_from, reading};
ghost use Rattle.inf_script.specs.Built.{IsBuilt};

use crate::draft::Draft;
use crate::fault::{BAD_WORD, LineFault, ScriptFault};
use crate::lines::take_line;
use crate::refusal::{ScriptRefusal, Why};
use crate::script::Script;
use crate::sections::after_line;
use inf_base::Setup;
use inf_order::{Move, Moves};
use std::alloc::Global;

fn at_line(number: u64, fault: LineFault) -> ScriptFault
    ensures { result ≡ fault_at number fault }
{
    match fault {
        LineFault::Refused(why) => ScriptFault::Refused(ScriptRefusal { line: number, why }),
        LineFault::NoMemory => ScriptFault::NoMemory,
    }
}

fn order_of(alloc: Global, moves: Moves) -> Result<Moves, LineFault>
    ensures ok { IfOk result (λ order. order ≡ order_of moves) }
    ensures err { IfErr result (λ fault. fault ≡ line_fault.NoMemory) }
{
    if !moves.is_empty() {
        return Ok(moves);
    }
    let mut order = Vec::new(alloc);
    order.push(Move::Rest)?;
    Ok(Moves::new(order))
}

fn ended(alloc: Global, draft: Draft) -> Result<Script, LineFault>
    ensures { Gives line_cause result (ended draft) }
{
    if draft.reached.rank() != 5 {
        return Err(BAD_WORD);
    }
    let servers = draft.servers();
    let digest_bytes = draft.digest_bytes();
    let order = order_of(alloc, draft.moves)?;
    let clients = draft.clients.into_clients(alloc)?;
    Ok(Script {
        setup: Setup {
            servers,
            digest_bytes,
            cache: 256,
            clients,
        },
        order,
    })
}

/// What is answered behind the lines that are read whole.
fn at_end(alloc: Global, more: bool, number: u64, draft: Draft) -> Result<Script, ScriptFault>
    ensures { Gives cause result (at_end more number (Ok draft)) }
{
    if more {
        return Err(at_line(number, LineFault::Refused(Why::TooLong)));
    }
    match ended(alloc, draft) {
        Ok(script) => Ok(script),
        Err(fault) => Err(at_line(number, fault)),
    }
}

fn read_line(alloc: Global, number: u64, draft: Draft, line: &[u8]) -> Result<Draft, ScriptFault>
    ensures { Gives cause result (read_line number (Ok draft) line.now) }
{
    match after_line(alloc, draft, line) {
        Ok(draft) => Ok(draft),
        Err(fault) => Err(at_line(number, fault)),
    }
}

fn read_lines(alloc: Global, bytes: &[u8], more: bool) -> Result<Script, ScriptFault>
    ensures { Gives cause result (read_from more 1 (Ok start) (lines_of more bytes.now)) }
{
    let Ok(mut draft) = Draft::new(alloc) else {
        return Err(ScriptFault::NoMemory);
    };
    let mut rest = bytes;
    let mut number = 1;
    while let Some((line, behind)) = take_line(rest, more) {
        rest = behind;
        draft = read_line(alloc, number, draft, line)?;
        number += 1;
    }
    at_end(alloc, more, number, draft)
}

/// Reads a script. Words are parted by spaces and tabs, lines end with newlines, and lines that are empty or begin with
/// `#` are passed over. The lines are `infinifs 1`, then `servers N` (from 1 to 64; one where it is left out) and
/// `digest-bytes N` (from 1 to 32; 32 where it is left out), then up to 64 of `client NAME 0 0`, up to 20,000 of
/// `call NAME mkdir PATH MODE`, `call NAME create PATH MODE`, `call NAME rmdir PATH` and `call NAME stat PATH`, lines
/// `order MOVE ..` with up to 1,000,000 moves, and `end`. A path has 1 to 32 names, of
/// which none is at fault. The first line at fault refuses the text. The form is our own.
/// `more` tells that the text goes on behind these bytes, which are then the most that a script may have.
pub fn read_script(alloc: Global, bytes: &[u8], more: bool) -> Result<Script, ScriptFault>
    requires { IsTrue more → MOST_SCRIPT_BYTES ≤ length bytes.now }
    ensures exact { Gives cause result (reading bytes.now more) }
    ensures valid { IfOk result (λ script. IsValid script.setup) }
    ensures order { IfOk result (λ script.
        list_all (is_move_of script.setup.servers (length script.setup.clients)) script.order ≡ true) }
    ensures built { IfOk result (λ script. IsBuilt script.setup) }
{
    read_lines(alloc, bytes, more)
}
