//! Examples of the definitions, which the check computes.

ghost use Rattle.std.specs.Prelude.{◌≡◌, [], ◌∷◌, None, Some, drop, take};
ghost use Rattle.inf_order.specs.declared.moves.Move.TheVariants as move;
ghost use Rattle.inf_sched.specs.Examples.{a_alone, a_only, a_steps, asking, b_alone, b_steps, b_waits_first, by_hand, decided, deep_after, deep_world, done, first_events, gave_up_late, history, history_of, in_turn, lifted, missing, mkdir_world, no_memory, not_asked, one_by_one, one_round, results, results_of, results_one_by_one, round_in_turn, serves_0, serves_1, serves_b, wanted_by_server, world};
ghost use Rattle.inf_sched.specs.Laws.{MakesCalmly};
ghost use Rattle.inf_sched.specs.Order.{ByOrder, results_in};

/// What moves of single events make.
pub fn single_moves()
    ensures by_hand { history_of by_hand ≡ history }
    ensures early { history_of asking ≡ first_events 6 }
    ensures results { results_of by_hand ≡ results }
    ensures nothing { history_of [] ≡ [] }

    // A move that has no event to make leaves everything: `a` waits, nothing waits there, nobody is asked yet.
    ensures asks_once { history_of (a_steps ∷ a_steps ∷ []) ≡ first_events 1 }
    ensures other_server { history_of (a_steps ∷ serves_1 ∷ []) ≡ first_events 1 }
    ensures other_client { history_of (a_steps ∷ serves_b ∷ []) ≡ first_events 1 }
    ensures nothing_waits { history_of (serves_0 ∷ []) ≡ [] }
{}

/// What clients make that go on alone.
pub fn lone_clients()
    ensures a { history_of (a_alone ∷ []) ≡ a_only }
    ensures a_then_b { history_of (a_alone ∷ b_alone ∷ []) ≡ one_by_one }
    ensures each { history_of (move.Rest ∷ []) ≡ one_by_one }
    ensures waits_first { history_of (b_steps ∷ a_alone ∷ b_alone ∷ []) ≡ b_waits_first }

    // Nothing is left to do.
    ensures no_call_left { history_of (a_alone ∷ a_alone ∷ []) ≡ a_only }
    ensures nobody_left { history_of (move.Rest ∷ move.Rest ∷ serves_0 ∷ []) ≡ one_by_one }
{}

/// What a round of two lookups makes: both are asked before one is waited for, and no more than these.
pub fn rounds()
    ensures alone { (deep_after (a_alone ∷ [])).history ≡ one_round }
    ensures no_third { (deep_after (a_steps ∷ a_steps ∷ a_steps ∷ serves_0 ∷ a_steps ∷ a_alone ∷ [])).history
        ≡ one_round }
    ensures in_turn { (deep_after in_turn).history ≡ round_in_turn }
    ensures result { results_in deep_world (deep_after in_turn) ≡ decided 0 missing 6 1 3 ∷ [] }
{}

/// What the calls come to, where the order ends before or after them.
pub fn ended_calls()
    ensures all { results_of (move.Rest ∷ []) ≡ results_one_by_one }
    ensures early { results_of (a_alone ∷ []) ≡ decided 0 done 4 1 2 ∷ not_asked ∷ [] }
{}

/// What an order may make where memory is wanted: no event shows that `a` gave its call up, and the server's reply
/// shows that it wanted memory.
pub fn wanting()
    ensures by_client { ByOrder world (a_steps ∷ []) [] (no_memory None None 0 ∷ not_asked ∷ []) }
    ensures by_server { ByOrder world (a_steps ∷ serves_0 ∷ []) wanted_by_server (no_memory (Some 1) (Some 2) 1
        ∷ not_asked ∷ []) }

    // Without want of memory `a` asks.
    ensures silent { ¬ MakesCalmly world (a_steps ∷ []) [] (results_of []) }
{}

/// What an order may make where `a` wants memory in the midst of its flow: it lifts what it reserved, and the call has
/// come to that as soon as this is asked.
pub fn wanting_in_a_flow()
    ensures asked { ByOrder mkdir_world (take 5 in_turn) (drop 1 lifted) (gave_up_late None ∷ []) }
    ensures served { ByOrder mkdir_world in_turn lifted (gave_up_late (Some 6) ∷ []) }
{}
