//! Laws of histories that hold whether or not one is legal.

ghost use Rattle.std.specs.Prelude.{◌≡◌, ◌≢◌, ◌==◌, ℕ, suc, ◌≤◌, not, List, ◌∷◌, length, filter, reverse, slice_get, All};
ghost use Rattle.inf_message.specs.declared.ask.Ask.{Ask};
ghost use Rattle.inf_message.specs.declared.event.Event.{Event};
ghost use Rattle.inf_message.specs.declared.event.Event.TheVariants as event;
ghost use Rattle.inf_message.specs.declared.reply.Reply.{Reply};
ghost use Rattle.inf_message.specs.History.{Made, Posted, event_at, asked_at, posted_ask, made_ask, served_ask, serves_of, asks_of, trips_of, waiting_of};
ghost use Rattle.inf_message.specs.Shown.{IsMade, IsTrip};

/// A later event changes nothing at the places of earlier ones.
pub fn places_stay()
    ensures events { (place : ℕ) (e : Event) (h : List Event) → place ≤ length h
        → event_at place (e ∷ h) ≡ event_at place h }
    ensures asks { (place : ℕ) (e : Event) (h : List Event) → place ≤ length h
        → asked_at place (e ∷ h) ≡ asked_at place h }
{}

/// In a list that holds the oldest event first, an event's index is one less than its place.
#[tactic(auto, using(crate::proofs::OldestFirst::event_is_indexed))]
pub fn places_are_indexes()
    ensures { (i : ℕ) (h : List Event) → event_at (suc i) h ≡ slice_get (reverse h) i }
{}

/// An Ask is found at a place from 1 to the length, and exactly where it is the event.
pub fn asks_have_places()
    ensures counted { (place : ℕ) (p : Posted) (h : List Event) → asked_at place h ≡ Some p → 1 ≤ place }
    ensures within { (place : ℕ) (p : Posted) (h : List Event) → asked_at place h ≡ Some p → place ≤ length h }
    ensures event { (place : ℕ) (p : Posted) (h : List Event) → asked_at place h ≡ Some p
        → event_at place h ≡ Some (event.Ask p.number p.ask) }
    ensures found { (place number : ℕ) (ask : Ask) (h : List Event)
        → event_at place h ≡ Some (event.Ask number ask) → asked_at place h ≡ Some (posted_ask number ask) }
{}

/// What a server has served changes by its own Serves alone.
pub fn servers_stand_apart()
    ensures ask { (server number : ℕ) (ask : Ask) (h : List Event)
        → serves_of server (event.Ask number ask ∷ h) ≡ serves_of server h }
    ensures another { (number server place : ℕ) (reply : Reply) (h : List Event) → number ≢ server
        → serves_of server (event.Serve number place reply ∷ h) ≡ serves_of server h }
    ensures own { (server place : ℕ) (reply : Reply) (p : Posted) (h : List Event) → asked_at place h ≡ Some p
        → serves_of server (event.Serve server place reply ∷ h) ≡ served_ask p.ask place reply ∷ serves_of server h }
{}

/// What a client asked and was told changes by its own Asks, and by the Serves of them, alone.
pub fn clients_stand_apart()
    ensures ask { (client number : ℕ) (ask : Ask) (h : List Event) → ask.from.client ≢ client
        → asks_of client (event.Ask number ask ∷ h) ≡ asks_of client h }
    ensures serve { (client number place : ℕ) (reply : Reply) (p : Posted) (h : List Event)
        → asked_at place h ≡ Some p → p.ask.from.client ≢ client
        → asks_of client (event.Serve number place reply ∷ h) ≡ asks_of client h }
{}

/// A client's trips and waiting Asks are its own, and stand in the history as they say.
pub fn trips_are_shown()
    ensures trips { (client : ℕ) (h : List Event) → All (IsTrip client h) (trips_of client h) }
    ensures waiting { (client : ℕ) (h : List Event) → All (IsMade client h) (waiting_of client h) }
{}

/// An Ask waits from its place on until it is served, and is no trip before.
pub fn asks_wait_for_their_serves()
    ensures no_trip { (client number : ℕ) (ask : Ask) (h : List Event)
        → trips_of client (event.Ask number ask ∷ h) ≡ trips_of client h }
    ensures waits { (client number : ℕ) (ask : Ask) (h : List Event) → ask.from.client ≡ client
        → waiting_of client (event.Ask number ask ∷ h)
        ≡ made_ask number ask (suc (length h)) ∷ waiting_of client h }
    ensures served { (client number place : ℕ) (reply : Reply) (h : List Event)
        → waiting_of client (event.Serve number place reply ∷ h)
        ≡ filter (λ (made : Made). not (made.ask_place == place)) (waiting_of client h) }
{}
