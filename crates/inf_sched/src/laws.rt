//! Laws of the orders of moves, each a function that only states it.

ghost use Rattle.std.specs.Prelude.{◌≡◌, ℕ, List, All, Some, map, reverse, slice_get};
ghost use Rattle.inf_base.specs.declared.answer.Answer.TheVariants as answer;
ghost use Rattle.inf_laws_history.specs.Legal.{Legal};
ghost use Rattle.inf_duty.specs.Outcome.{Outcome};
ghost use Rattle.inf_duty.specs.Own.{client_of, own_of};
ghost use Rattle.inf_duty.specs.World.{World};
ghost use Rattle.inf_message.specs.declared.call_result.CallResult.{CallResult};
ghost use Rattle.inf_message.specs.declared.event.Event.{Event};
ghost use Rattle.inf_message.specs.History.{trips_of};
ghost use Rattle.inf_order.specs.declared.moves.Move.{Move};
ghost use Rattle.inf_client.specs.Client.{Client, trips_of_client};
ghost use Rattle.inf_sched.specs.Endings.{IsLeftOpen};
ghost use Rattle.inf_sched.specs.Laws.{IsStraight, MakesCalmly};
ghost use Rattle.inf_sched.specs.Order.{ByOrder, results_in};
ghost use Rattle.inf_sched.specs.Run.{AreClients, IsClient};
ghost use Rattle.inf_sched.specs.Scene.{opening};
ghost use Rattle.inf_sched.specs.Straight.{straight};

/// Whatever history an order of moves makes is legal: in it each client did its duty, and each server replied as its
/// machine does.
pub fn what_an_order_makes_is_legal()
    ensures { (world : World) (order : List Move) (h : List Event) (results : List CallResult)
        → ByOrder world order h results → Legal world h }
{}

/// The results that an order makes agree with the history that it makes.
pub fn what_an_order_makes_is_an_outcome()
    ensures { (world : World) (order : List Move) (h : List Event) (results : List CallResult)
        → ByOrder world order h results → Outcome world h results }
{}

/// Want of memory is all that is free: where nothing wants memory, an order makes the one history, and the one list of
/// results, that its run gives.
pub fn one_history_without_want_of_memory()
    ensures { (world : World) (order : List Move) (h : List Event) (results : List CallResult)
        → MakesCalmly world order h results → IsStraight world order h results }
{}

/// So whatever else an order makes without want of memory is the same.
pub fn one_outcome_without_want_of_memory()
    ensures { (world : World) (order : List Move) (h g : List Event) (results others : List CallResult)
        → MakesCalmly world order h results → MakesCalmly world order g others
        → (h ≡ g) × (results ≡ others) }
{}

/// And there is one: whatever the order, its run can be made without want of memory.
pub fn every_order_is_made_without_want_of_memory()
    ensures { (world : World) (order : List Move)
        → MakesCalmly world order (straight world order (opening world)).history
        (results_in world (straight world order (opening world))) }
{}

/// A call is unanswered only where the order's moves left it so: its client stands before it, and has neither an answer
/// to it nor wanted memory for it.
pub fn unanswered_calls_are_left()
    ensures { (world : World) (order : List Move) (h : List Event) (results : List CallResult)
        → (by : ByOrder world order h results)
        → All (λ result. result.answer ≡ answer.Unanswered → IsLeftOpen world by.scene result) results }
{}

/// And each call that they left so is unanswered.
pub fn calls_left_open_are_unanswered()
    ensures { (world : World) (order : List Move) (h : List Event) (results : List CallResult)
        → (by : ByOrder world order h results)
        → All (λ result. IsLeftOpen world by.scene result → result.answer ≡ answer.Unanswered) results }
{}

/// A client of a run keeps exactly its trips of the history, the oldest first.
pub fn clients_keep_their_trips()
    ensures { (world : World) (h : List Event) (clients : List Client) (client : ℕ) (a : Client)
        → AreClients world h clients → slice_get clients client ≡ Some a
        → trips_of_client a ≡ reverse (trips_of client h) }
{}

/// And its state, and so its results, is what its Asks show, those that wait among them.
pub fn kept_asks_show_the_client()
    ensures { (world : World) (h : List Event) (clients : List Client) (client : ℕ) (a : Client)
        → Legal world h → AreClients world h clients → slice_get clients client ≡ Some a
        → IsClient (client_of world client (map own_of a.log.asks)) a }
{}
