//! Laws of the results that agree with a legal history.

ghost use Rattle.std.specs.Prelude.{◌≡◌, List, length, filter, All};
ghost use Rattle.inf_duty.specs.Outcome.{Outcome};
ghost use Rattle.inf_duty.specs.World.{World};
ghost use Rattle.inf_laws_history.specs.Counted.{IsCounted, is_decided};
ghost use Rattle.inf_laws_history.specs.Legal.{Legal};
ghost use Rattle.inf_laws_history.specs.Replayed.{decisions};
ghost use Rattle.inf_message.specs.declared.call_result.CallResult.{CallResult};
ghost use Rattle.inf_message.specs.declared.event.Event.{Event};

/// Each result is of a call of the script. It has a place exactly where its answer was decided, as NoMemory and
/// Unanswered never are, and then it is one of those that are replayed: none is left out.
pub fn answers_are_replayed()
    ensures { (world : World) (h : List Event) (results : List CallResult) → Legal world h → Outcome world h results
        → All (IsCounted world h results) results }
{}

/// As many calls are replayed as have an answer that was decided.
pub fn as_many_replay_as_were_decided()
    ensures { (world : World) (h : List Event) (results : List CallResult) → Legal world h → Outcome world h results
        → length (decisions world h results) ≡ length (filter (λ (r : CallResult). is_decided r.answer) results) }
{}
