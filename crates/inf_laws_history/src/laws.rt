//! Laws of legal histories, each a function that only states it.

ghost use Rattle.std.specs.Prelude.{◌≡◌, ◌≢◌, ℕ, suc, ◌≤◌, false, List, [], ◌∷◌, length, Some};
ghost use Rattle.inf_duty.specs.After.{client_after};
ghost use Rattle.inf_duty.specs.Outcome.{Outcome};
ghost use Rattle.inf_duty.specs.Own.{client_of, own_asks};
ghost use Rattle.inf_duty.specs.Places.{HaveOwnPlaces};
ghost use Rattle.inf_duty.specs.World.{World};
ghost use Rattle.inf_message.specs.Sent.{has_place};
ghost use Rattle.inf_laws_history.specs.Decisions.{decided_in, of_tree};
ghost use Rattle.inf_laws_history.specs.Kept.{Kept};
ghost use Rattle.inf_laws_history.specs.Legal.{Legal};
ghost use Rattle.inf_laws_history.specs.Replayed.{AllReplay, decisions};
ghost use Rattle.inf_message.specs.declared.call_result.CallResult.{CallResult};
ghost use Rattle.inf_message.specs.declared.event.Event.{Event};
ghost use Rattle.inf_message.specs.declared.event.Event.TheVariants as event;
ghost use Rattle.inf_message.specs.declared.reply.Reply.{Reply};
ghost use Rattle.inf_message.specs.History.{Posted, asked_at};

use inf_laws_directory::{the_opening_stands, the_root_stays, what_is_served_stands};

/// For every setup, every legal history of it and all results that agree with it: the calls that have a place, taken in
/// the order of their places, are answered as one plain tree answers calls that are made one after another. Only an
/// answer that a call was given up differs, and it changes nothing.
pub fn every_legal_history_replays()
    ensures { (world : World) (h : List Event) → Legal world h → AllReplay world h }
{
    every_legal_history_keeps();
}

/// What every legal history keeps: the servers' directories stand for the tree that the decided calls leave, and what
/// clients know of them, have in hand and wait for.
pub fn every_legal_history_keeps()
    ensures { (world : World) (h : List Event) → Legal world h → Kept world h }
{
    the_opening_stands();
    the_root_stays();
    what_is_served_stands();
}

/// The results of a legal history, in the order of their places, are what its Serves decide, one after another, as far
/// as the tree has a say in them.
pub fn outcomes_are_decided()
    ensures { (world : World) (h : List Event) (results : List CallResult) → Legal world h → Outcome world h results
        → of_tree (decisions world h results) ≡ decided_in world h }
{}

/// Each result of a legal history that has a place has one of the history's events, and no two have the same.
pub fn results_have_own_places()
    ensures { (world : World) (h : List Event) (results : List CallResult) → Legal world h → Outcome world h results
        → HaveOwnPlaces (length h) results }
{}

/// A Serve changes no client but the one that asked.
pub fn others_stay()
    ensures { (world : World) (h : List Event) → Legal world h → (client number ask_place : ℕ) (given : Reply)
        (posted : Posted) → asked_at ask_place h ≡ Some posted → posted.ask.from.client ≢ client
        → client_after world client (event.Serve number ask_place given ∷ h) ≡ client_after world client h }
{}

/// A Serve changes no client that has asked for nothing of its group.
pub fn idle_clients_stay()
    ensures { (world : World) (h : List Event) (client number ask_place : ℕ) (given : Reply)
        → (client_after world client h).sent ≡ []
        → client_after world client (event.Serve number ask_place given ∷ h) ≡ client_after world client h }
{}

/// No client waits for an Ask at the place that comes next.
pub fn new_places_are_fresh()
    ensures { (world : World) (h : List Event) → Legal world h → (client : ℕ)
        → has_place (suc (length h)) (client_after world client h).sent ≡ false }
{}

/// A call has made no more Asks than there are events.
pub fn messages_are_within_the_history()
    ensures { (world : World) (h : List Event) → Legal world h → (client : ℕ)
        → (client_after world client h).counts.messages ≤ length h }
{}

/// In a legal history a client's own Asks with their answers show its state, whatever others did in between.
pub fn own_asks_show_the_client()
    ensures { (world : World) (client : ℕ) (h : List Event) → Legal world h
        → client_of world client (own_asks client h) ≡ client_after world client h }
{}
