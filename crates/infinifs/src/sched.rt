//! The command `sched`: a script in, the report of its run out.

ghost use Rattle.std.specs.Prelude.{◌≡◌, Contains, true, [], ◌∷◌, length, IfOk, IfSome, OnErr, OnOk};
ghost use Rattle.std.specs.List.{list_all};
ghost use Rattle.std.specs.Io.KnownBytes.{Keeps};
ghost use Rattle.inf_base.specs.Setup.{IsValid};
ghost use Rattle.inf_duty.specs.Places.{HaveOwnPlaces};
ghost use Rattle.inf_io.specs.Faults.{Rose, Stays};
ghost use Rattle.inf_order.specs.Order.{is_move_of};
ghost use Rattle.inf_report.specs.Report.{report};
ghost use Rattle.inf_script.specs.Reading.{meaning};
ghost use Rattle.infinifs.specs.declared.status.Status.TheVariants as status;
ghost use Rattle.infinifs.specs.Command.{BreaksOff, Reported, RefusedScript, SchedDid, ScriptDid, WriteDid, WritesWhole, refusal_line, why_text};

use crate::input::{InputFault, script_of};
use crate::status::Status;
use inf_base::{NoMemory, Setup};
use inf_duty::Outcome;
use inf_io::{Sink, Source, write_all};
use inf_laws_history::{
    again_names_a_change_in_flight, answers_are_replayed, clashes_are_of_two_births,
};
use inf_report::{ReportFault, write_report};
use inf_sched::{calls_left_open_are_unanswered, schedule, unanswered_calls_are_left};
use inf_script::{Script, ScriptRefusal, Why};
use std::alloc::Global;
use std::mem::ManuallyDrop;

/// Runs the script that all bytes of the source spell, under its order, and writes the report. A text that is no script
/// is answered by the line that says why. The statuses are 0 for a report, 2 for a fault of the source, 3 for a refused
/// script, 4 for a fault of the sink and 5 for want of memory. Where source and sink do not tell their bytes, as
/// standard input and output do not, nothing is said of them.
pub fn sched_command<S: Source, K: Sink>(alloc: Global, source: &mut S, sink: &mut K) -> u8
    ensures statuses { Contains (0 ∷ 2 ∷ 3 ∷ 4 ∷ 5 ∷ []) result }

    // The report of an outcome that the script's order makes was written.
    ensures reported { result ≡ 0 → IfSome (S.left source.old)
        (λ text. Reported text (K.held sink.old) (K.held sink.new)) }
    ensures refused_script { result ≡ 3 → IfSome (S.left source.old)
        (λ text. RefusedScript text (K.held sink.old) (K.held sink.new)) }

    // The source failed in this call, and nothing was written.
    ensures source_failed { result ≡ 2 → Rose (S.faults source.old) (S.faults source.new) }
    ensures nothing_run { result ≡ 2 → Keeps (K.held sink.old) (K.held sink.new) }

    // The sink failed in this call, and a front of what was to be written is there.
    ensures sink_failed { result ≡ 4 → Rose (K.faults sink.old) (K.faults sink.new) }
    ensures part_written { Contains (4 ∷ 5 ∷ []) result →
        BreaksOff (S.left source.old) (K.held sink.old) (K.held sink.new) }

    // Want of memory is told only where neither of them failed.
    ensures source_calm { result ≡ 5 → Stays (S.faults source.old) (S.faults source.new) }
    ensures sink_calm { result ≡ 5 → Stays (K.faults sink.old) (K.faults sink.new) }

    // Without a fault a script is reported and a text that is none is refused, or memory was wanting.
    ensures complete { ¬ Rose (S.faults source.old) (S.faults source.new) →
        ¬ Rose (K.faults sink.old) (K.faults sink.new) →
        IfSome (S.left source.old) (λ text. OnOk (meaning text) (Contains (0 ∷ 5 ∷ []) result)) }
    ensures refusal_told { ¬ Rose (S.faults source.old) (S.faults source.new) →
        ¬ Rose (K.faults sink.old) (K.faults sink.new) →
        IfSome (S.left source.old) (λ text. OnErr (meaning text) (Contains (3 ∷ 5 ∷ []) result)) }
{
    run_text(alloc, source, sink).code()
}

fn run_text<S: Source, K: Sink>(alloc: Global, source: &mut S, sink: &mut K) -> Status
    ensures { SchedDid result (record {
      text = S.left source.old;
      source_before = S.faults source.old;
      source_after = S.faults source.new;
      sink_before = K.faults sink.old;
      sink_after = K.faults sink.new;
      held_before = K.held sink.old;
      held_after = K.held sink.new;
    }) }
{
    match script_of(alloc, source) {
        Ok(script) => {
            // The program ends behind this, so the script's memory need not be given back piece by piece.
            let script = ManuallyDrop::new(script);
            run_script(alloc, &script, sink)
        }
        Err(InputFault::Refused(refusal)) => write_refusal(alloc, refusal, sink),
        Err(InputFault::Read) => Status::ReadFault,
        Err(InputFault::NoMemory) => Status::NoMemory,
    }
}

fn run_script<K: Sink>(alloc: Global, script: &Script, sink: &mut K) -> Status
    requires valid { IsValid script.now.setup }
    requires moves { list_all (is_move_of script.now.setup.servers (length script.now.setup.clients))
        script.now.order ≡ true }
    ensures { ScriptDid script.now result
        (K.faults sink.old) (K.faults sink.new) (K.held sink.old) (K.held sink.new) }
{
    answers_are_replayed();
    again_names_a_change_in_flight();
    clashes_are_of_two_births();
    unanswered_calls_are_left();
    calls_left_open_are_unanswered();
    match schedule(alloc, &script.setup, script.order.as_slice()) {
        Ok(outcome) => {
            // The outcome lives to the end of the program too.
            let outcome = ManuallyDrop::new(outcome);
            write_outcome(alloc, &script.setup, &outcome, sink)
        }
        Err(NoMemory) => Status::NoMemory,
    }
}

fn write_outcome<K: Sink>(alloc: Global, setup: &Setup, outcome: &Outcome, sink: &mut K) -> Status
    requires { HaveOwnPlaces (length outcome.now.history) outcome.now.results }
    ensures { WriteDid status.Done (report setup.now outcome.now.history outcome.now.results) result
        (K.faults sink.old) (K.faults sink.new) (K.held sink.old) (K.held sink.new) }
{
    let events = outcome.history.as_slice();
    let results = outcome.results.as_slice();
    match write_report(alloc, sink, setup, events, results) {
        Ok(()) => Status::Done,
        Err(ReportFault::Write) => Status::WriteFault,
        Err(ReportFault::NoMemory) => Status::NoMemory,
    }
}

fn write_refusal<K: Sink>(alloc: Global, refusal: ScriptRefusal, sink: &mut K) -> Status
    ensures { WriteDid status.ScriptRefused (refusal_line refusal) result
        (K.faults sink.old) (K.faults sink.new) (K.held sink.old) (K.held sink.new) }
{
    match refusal_text(alloc, refusal) {
        Ok(text) => write(&text, Status::ScriptRefused, sink),
        Err(NoMemory) => Status::NoMemory,
    }
}

/// Writes a text whole, and ends with `done` then.
pub fn write<K: Sink>(text: &[u8], done: Status, sink: &mut K) -> Status
    requires { WritesWhole done }
    ensures { WriteDid done text.now result
        (K.faults sink.old) (K.faults sink.new) (K.held sink.old) (K.held sink.new) }
{
    match write_all(sink, text) {
        Ok(()) => done,
        Err(_) => Status::WriteFault,
    }
}

fn why_word(why: Why) -> &'static [u8]
    ensures { result.now ≡ why_text why }
{
    match why {
        Why::BadWord => b"bad-word",
        Why::BadNumber => b"bad-number",
        Why::UnknownClient => b"unknown-client",
        Why::DoubleClient => b"double-client",
        Why::TooMany => b"too-many",
        Why::TooLong => b"too-long",
        Why::NotUtf8 => b"not-utf8",
    }
}

fn refusal_text(alloc: Global, refusal: ScriptRefusal) -> Result<Vec<u8>, NoMemory>
    ensures { IfOk result (λ text. text.items ≡ refusal_line refusal) }
{
    let mut text = Vec::new(alloc);
    text.extend_from_slice(b"script ")?;
    text.extend_from_slice(refusal.line.to_string(alloc)?.as_bytes())?;
    text.extend_from_slice(b" ")?;
    text.extend_from_slice(why_word(refusal.why))?;
    text.push(b'\n')?;
    Ok(text)
}
