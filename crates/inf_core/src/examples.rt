//! Examples of the definitions, which the check computes.

ghost use Rattle.std.specs.Prelude.{◌≡◌, [], ◌∷◌, ◌++◌};
ghost use Rattle.inf_base.specs.declared.errno.Errno.TheVariants as errno;
ghost use Rattle.inf_laws_history.specs.Decisions.{decided_in};
ghost use Rattle.inf_duty.specs.Duty.{asks, begun, is_over, next_step, waits};
ghost use Rattle.inf_core.specs.Examples as example;
ghost use Rattle.inf_laws_history.specs.Legal.{Legal, server_after};
ghost use Rattle.inf_duty.specs.After.{client_after};
ghost use Rattle.inf_duty.specs.Outcome.{Outcome, results_of};
ghost use Rattle.inf_laws_history.specs.Replayed.{decisions};
ghost use Rattle.inf_laws_history.specs.Sites.{site_of};
ghost use Rattle.inf_message.specs.declared.event.Event.TheVariants as event;
ghost use Rattle.inf_message.specs.declared.reply.Reply.TheVariants as reply;
ghost use Rattle.inf_server.specs.Machine.{machine};
ghost use Rattle.inf_tree.specs.Replay.{Replays};
ghost use Rattle.inf_tree.specs.Tree.{opening_tree};

/// What the clients may send next after so many events of the run.
pub fn next_asks()
    ensures first { next_step (begun example.world.digest (example.ask 0 example.look_up_top) []
        (client_after example.world 0 (example.first_events 0))) ≡ asks 0 (example.ask 0 example.look_up_top) }

    // The lookup is not answered yet, so nothing else may be sent, whatever the client would like to.
    ensures waits { next_step (begun example.world.digest (example.ask 0 example.create_f)
        (client_after example.world 0 (example.first_events 2)).sent
        (client_after example.world 0 (example.first_events 2))) ≡ waits }

    // What decides goes out with the entry that was told to this very client.
    ensures create { next_step (begun example.world.digest (example.ask 0 example.create_f)
        (client_after example.world 0 (example.first_events 4)).sent
        (client_after example.world 0 (example.first_events 4))) ≡ asks 0 (example.ask 0 example.create_f) }
    ensures stat { next_step (begun example.world.digest (example.ask 1 example.stat_f)
        (client_after example.world 1 (example.first_events 5)).sent
        (client_after example.world 1 (example.first_events 5))) ≡ asks 0 (example.ask 1 example.stat_f) }
    ensures over { next_step (client_after example.world 0 example.history) ≡ is_over }
{}

/// The replies of the server at the places of the run.
pub fn replies()
    ensures found { (machine (site_of example.world 0) (server_after example.world 0 (example.first_events 2)) 1
        (example.ask 0 example.look_up_top)).reply ≡ example.found_top }
    ensures missing { (machine (site_of example.world 0) (server_after example.world 0 (example.first_events 6)) 6
        (example.ask 1 example.stat_f)).reply ≡ reply.Refused errno.ENOENT }
    ensures created { (machine (site_of example.world 0) (server_after example.world 0 (example.first_events 7)) 5
        (example.ask 0 example.create_f)).reply ≡ reply.Fine }
    ensures present { (machine (site_of example.world 0) (server_after example.world 0 example.history) 9
        (example.ask 1 example.create_f)).reply ≡ reply.Refused errno.EEXIST }
{}

/// What the calls of the run came to, and the order in which they replay.
pub fn outcomes()
    ensures results { results_of (client_after example.world 0 example.history)
        ++ results_of (client_after example.world 1 example.history) ≡ example.results }
    ensures unanswered { results_of (client_after example.world 1 (example.first_events 6))
        ≡ example.unanswered_stat ∷ [] }
    ensures order { decisions example.world example.history example.results ≡ example.decided_calls }
    ensures by_serves { decided_in example.world example.history ≡ example.decided_calls }
    ensures replays { Replays opening_tree example.decided_calls }
{}

/// The run is legal, and the results agree with it.
pub fn accepted()
    ensures legal { Legal example.world example.history }
    ensures outcome { Outcome example.world example.history example.results }
{}

/// Histories that are not legal, and results that do not agree with the run.
pub fn refusals()
    // What decides is sent before the lookup was answered.
    ensures early_ask { ¬ Legal example.world (example.asks 0 example.create_f ∷ example.first_events 2) }

    // A lookup is told that all is well, and one is served twice.
    ensures other_reply { ¬ Legal example.world (event.Serve 0 1 reply.Fine ∷ example.first_events 2) }
    ensures served_twice { ¬ Legal example.world (event.Serve 0 1 example.found_top ∷ example.first_events 3) }

    // A result is left out.
    ensures left_out { ¬ Outcome example.world example.history [] }
{}

/// A round that is told once that memory is wanting, before it is over: so the call has wanted memory, and is not
/// unanswered.
pub fn half_rounds()
    ensures legal { Legal example.deep_world example.half_answered }
    ensures outcome { Outcome example.deep_world example.half_answered (example.wants_memory ∷ []) }
    ensures no_other { ¬ Outcome example.deep_world example.half_answered (example.still_open ∷ []) }
{}
