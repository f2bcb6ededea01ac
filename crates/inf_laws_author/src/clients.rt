//! Laws of what a client's next ask rests on.

ghost use Rattle.std.specs.Prelude.{◌≡◌, ◌⊎◌, ℕ, ◌<◌, List, length};
ghost use Rattle.inf_duty.specs.After.{client_after};
ghost use Rattle.inf_duty.specs.Duty.{Duty};
ghost use Rattle.inf_duty.specs.Own.{AreInOrder, client_of, own_asks};
ghost use Rattle.inf_duty.specs.World.{World};
ghost use Rattle.inf_duty.specs.declared.own.OwnAsk.{OwnAsk};
ghost use Rattle.inf_laws_author.specs.LessTold.{HasWaiting, LessTold};
ghost use Rattle.inf_laws_author.specs.OwnEvents.{own_events};
ghost use Rattle.inf_laws_history.specs.Legal.{Legal, MayAsk};
ghost use Rattle.inf_message.specs.declared.ask.Ask.{Ask};
ghost use Rattle.inf_message.specs.declared.event.Event.{Event};

use inf_laws_history::own_asks_show_the_client;

/// A client that learns more answers to the Asks that it has made may still make the ask that was its duty: what it
/// learned is of a group that is not finished, or it is where it was.
pub fn later_answers_change_no_ask()
    ensures duty { (world : World) (client : ℕ) (known told : List OwnAsk) → AreInOrder known → LessTold known told
        → (number : ℕ) (ask : Ask) → Duty world.digest (client_of world client known) number ask
        → Duty world.digest (client_of world client told) number ask }
    ensures waits { (world : World) (client : ℕ) (known told : List OwnAsk) → AreInOrder known → LessTold known told
        → (client_of world client known ≡ client_of world client told) ⊎ HasWaiting (client_of world client known) }
{}

/// Whatever others do meanwhile: an ask that is a client's duty by its own Asks, and by the answers to them that it
/// knows, may join the history.
pub fn what_is_known_lets_a_client_ask()
    ensures { (world : World) (h : List Event) → Legal world h → (number : ℕ) (ask : Ask) (known : List OwnAsk)
        → ask.from.client < length world.setup.clients → LessTold known (own_asks ask.from.client h)
        → Duty world.digest (client_of world ask.from.client known) number ask → MayAsk world h number ask }
{
    own_asks_show_the_client();
}

/// Where a client stands, and so what it may ask, rests on its own events alone: its Asks, and the Serves of these.
pub fn own_events_decide_what_is_next()
    ensures state { (world : World) (client : ℕ) (h g : List Event) → own_events client h ≡ own_events client g
        → client_after world client h ≡ client_after world client g }
    ensures duty { (world : World) (client : ℕ) (h g : List Event) → own_events client h ≡ own_events client g
        → (number : ℕ) (ask : Ask) → Duty world.digest (client_after world client h) number ask
        → Duty world.digest (client_after world client g) number ask }
{}

/// In legal histories it rests on its own Asks alone, each with its answer if it has one.
pub fn own_asks_decide_what_is_next()
    ensures state { (world : World) (client : ℕ) (h g : List Event) → Legal world h → Legal world g
        → own_asks client h ≡ own_asks client g → client_after world client h ≡ client_after world client g }
    ensures duty { (world : World) (client : ℕ) (h g : List Event) → Legal world h → Legal world g
        → own_asks client h ≡ own_asks client g → (number : ℕ) (ask : Ask)
        → Duty world.digest (client_after world client h) number ask
        → Duty world.digest (client_after world client g) number ask }
{
    own_asks_show_the_client();
}
