//! What the words on histories answer at a short history: each clause is computed.

ghost use Rattle.std.specs.Prelude.{◌≡◌, true, false, [], ◌∷◌, drop};
ghost use Rattle.inf_message.specs.History.{event_at, asked_at, is_served, serves_of, trips_of, waiting_of, posted_ask, made_ask};
ghost use Rattle.inf_message.specs.Examples.{short, look, release, by_server_0, trips_by_client_0};
ghost use Rattle.inf_message.specs.declared.event.Event.TheVariants as event;
ghost use Rattle.inf_message.specs.declared.reply.Reply.TheVariants as reply;

/// The newest event has the length as its place, the oldest has place 1, and no other place has an event.
pub fn example_of_places()
    ensures newest { event_at 7 short ≡ Some (event.Ask 1 (release 1)) }
    ensures third { event_at 3 short ≡ Some (event.Serve 1 1 reply.Gone) }
    ensures none_at_0 { event_at 0 short ≡ None }
    ensures none_beyond { event_at 8 short ≡ None }
{}

/// An Ask is found by its place, and a place with a Serve has no Ask.
pub fn example_of_asks()
    ensures ask { asked_at 2 short ≡ Some (posted_ask 0 (look 1)) }
    ensures serve { asked_at 3 short ≡ None }
    ensures beyond { asked_at 8 short ≡ None }
{}

/// An Ask is served from its Serve on.
pub fn example_of_served()
    ensures not_yet { is_served 2 (drop 2 short) ≡ false }
    ensures served { is_served 2 (drop 1 short) ≡ true }
    ensures waits { is_served 7 short ≡ false }
{}

/// A server's Serves stand in the order of serving.
pub fn example_of_a_server()
    ensures first { serves_of 0 short ≡ by_server_0 }
    ensures coordinator { serves_of 2 short ≡ [] }
{}

/// A client's trips stand in the order of asking, whatever order they were served in.
pub fn example_of_trips()
    ensures { trips_of 0 short ≡ trips_by_client_0 }
{}

/// What was not served yet waits.
pub fn example_of_waiting()
    ensures all_served { waiting_of 0 short ≡ [] }
    ensures one { waiting_of 1 short ≡ made_ask 1 (release 1) 7 ∷ [] }
    ensures earlier { waiting_of 1 (drop 3 short) ≡ made_ask 0 (look 1) 2 ∷ [] }
{}
