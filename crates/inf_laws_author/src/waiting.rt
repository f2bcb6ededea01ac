//! Laws of which Asks wait in a legal history.

ghost use Rattle.std.specs.Prelude.{◌≡◌, ℕ, ◌≤◌, List, Some};
ghost use Rattle.inf_duty.specs.World.{World};
ghost use Rattle.inf_laws_author.specs.Counts.{asks_in, serves_in};
ghost use Rattle.inf_laws_author.specs.OwnEvents.{names};
ghost use Rattle.inf_laws_history.specs.Legal.{Legal};
ghost use Rattle.inf_message.specs.declared.event.Event.{Event};
ghost use Rattle.inf_message.specs.declared.event.Event.TheVariants as event;
ghost use Rattle.inf_message.specs.declared.reply.Reply.{Reply};
ghost use Rattle.inf_message.specs.History.{Posted, asked_at, event_at, is_served, serves_of};

/// Whether an Ask was served is shown by what the server that it went to has served.
pub fn own_serves_show_what_waits()
    ensures { (world : World) (h : List Event) → Legal world h → (ask_place : ℕ) (posted : Posted)
        → asked_at ask_place h ≡ Some posted
        → is_served ask_place h ≡ names ask_place (serves_of posted.number h) }
{}

/// Each Ask is served once at most, so that there are no more Serves than Asks.
pub fn asks_are_served_once()
    ensures once { (world : World) (h : List Event) → Legal world h
        → (place other number another ask_place : ℕ) (given told : Reply)
        → event_at place h ≡ Some (event.Serve number ask_place given)
        → event_at other h ≡ Some (event.Serve another ask_place told) → place ≡ other }
    ensures counted { (world : World) (h : List Event) → Legal world h → serves_in h ≤ asks_in h }
{}
