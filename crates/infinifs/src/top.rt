//! All that the program does, over its words, a source and a sink.

ghost use Rattle.std.specs.Prelude.{◌≡◌, Contains, true, false, [], ◌∷◌, ◌≤◌, map, string_bytes, IfSome, OnErr, OnOk};
ghost use Rattle.std.specs.Io.KnownBytes.{Appends, Keeps};
ghost use Rattle.inf_io.specs.Faults.{Rose, Stays};
ghost use Rattle.inf_report.specs.Writing.{AppendsFront};
ghost use Rattle.inf_script.specs.Reading.{meaning};
ghost use Rattle.infinifs.specs.Command.{BreaksOff, Reported, RefusedScript, are_accepted, usage_line};

use crate::sched::{sched_command, write};
use crate::status::Status;
use inf_io::{Sink, Source};
use std::alloc::Global;

const USAGE: &[u8] = b"usage: infinifs sched | run | work START SIZE\n";

fn are_accepted(words: &[String]) -> bool
    ensures { result ≡ are_accepted (map string_bytes words.now) }
{
    match words {
        [word] => word.as_str() == "sched",
        _ => false,
    }
}

/// Does what the program does: `sched` alone is accepted today, and runs a script; any other words are answered by the
/// usage line. The statuses are those of `sched_command`, and 1 for refused words.
pub fn infinifs<S: Source, K: Sink>(
    alloc: Global,
    words: &[String],
    source: &mut S,
    sink: &mut K,
) -> u8
    ensures statuses { result ≤ 5 }

    // The usage line was written exactly where the words are refused.
    ensures refused_words { result ≡ 1 → Appends (K.held sink.old) (K.held sink.new) usage_line }
    ensures refused { result ≡ 1 → are_accepted (map string_bytes words.now) ≡ false }
    ensures accepted { Contains (0 ∷ 2 ∷ 3 ∷ []) result → are_accepted (map string_bytes words.now) ≡ true }

    // The report of an outcome that the script's order makes was written.
    ensures reported { result ≡ 0 → IfSome (S.left source.old)
        (λ text. Reported text (K.held sink.old) (K.held sink.new)) }
    ensures refused_script { result ≡ 3 → IfSome (S.left source.old)
        (λ text. RefusedScript text (K.held sink.old) (K.held sink.new)) }

    // The source failed in this call, and nothing was written.
    ensures source_failed { result ≡ 2 → Rose (S.faults source.old) (S.faults source.new) }
    ensures nothing_run { result ≡ 2 → Keeps (K.held sink.old) (K.held sink.new) }

    // The sink failed in this call, and a front of what was to be written is there.
    ensures sink_failed { result ≡ 4 → Rose (K.faults sink.old) (K.faults sink.new) }
    ensures part_written { Contains (4 ∷ 5 ∷ []) result →
        are_accepted (map string_bytes words.now) ≡ true →
        BreaksOff (S.left source.old) (K.held sink.old) (K.held sink.new) }
    ensures part_of_usage { Contains (4 ∷ 5 ∷ []) result →
        are_accepted (map string_bytes words.now) ≡ false →
        AppendsFront (K.held sink.old) (K.held sink.new) usage_line }

    // Want of memory is told only where neither of them failed.
    ensures source_calm { result ≡ 5 → Stays (S.faults source.old) (S.faults source.new) }
    ensures sink_calm { result ≡ 5 → Stays (K.faults sink.old) (K.faults sink.new) }

    // Without a fault a script is reported and a text that is none is refused, or memory was wanting.
    ensures complete { are_accepted (map string_bytes words.now) ≡ true →
        ¬ Rose (S.faults source.old) (S.faults source.new) →
        ¬ Rose (K.faults sink.old) (K.faults sink.new) →
        IfSome (S.left source.old) (λ text. OnOk (meaning text) (Contains (0 ∷ 5 ∷ []) result)) }
    ensures refusal_told { are_accepted (map string_bytes words.now) ≡ true →
        ¬ Rose (S.faults source.old) (S.faults source.new) →
        ¬ Rose (K.faults sink.old) (K.faults sink.new) →
        IfSome (S.left source.old) (λ text. OnErr (meaning text) (Contains (3 ∷ 5 ∷ []) result)) }
{
    if are_accepted(words) {
        sched_command(alloc, source, sink)
    } else {
        write(USAGE, Status::WordsRefused, sink).code()
    }
}
