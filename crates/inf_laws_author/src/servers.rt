//! Laws of what a server's next Serve rests on.

ghost use Rattle.std.specs.Prelude.{◌≡◌, ℕ, false, List, Some};
ghost use Rattle.inf_duty.specs.World.{World};
ghost use Rattle.inf_laws_author.specs.OwnEvents.{names};
ghost use Rattle.inf_laws_history.specs.Legal.{Legal, MayServe, server_after};
ghost use Rattle.inf_laws_history.specs.Sites.{site_of};
ghost use Rattle.inf_message.specs.declared.event.Event.{Event};
ghost use Rattle.inf_message.specs.declared.reply.Reply.{Reply};
ghost use Rattle.inf_message.specs.History.{Posted, Served, asked_at, serves_of};
ghost use Rattle.inf_server.specs.Machine.{Serves, state_after};
ghost use Rattle.inf_server.specs.State.{State};

/// Where a server stands, and so what it may reply, rests on its own Serves and the Asks that these name alone. The
/// next Serve of an Ask may join any legal history in which the server served the same, and this Ask stands at its
/// place.
pub fn own_serves_decide_what_is_served()
    ensures state { (world : World) (number : ℕ) (h g : List Event) → serves_of number h ≡ serves_of number g
        → server_after world number h ≡ server_after world number g }
    ensures next { (world : World) (number : ℕ) (h g : List Event) → Legal world g
        → serves_of number h ≡ serves_of number g
        → (ask_place : ℕ) (given : Reply) → asked_at ask_place h ≡ asked_at ask_place g
        → MayServe world h number ask_place given → MayServe world g number ask_place given }
{}

/// Whatever others do meanwhile: a reply that a server may give by what it has served, to an Ask that was made to it
/// and that none of its Serves names, may join the history.
pub fn what_is_known_lets_a_server_serve()
    ensures { (world : World) (h : List Event) → Legal world h → (ask_place : ℕ) (posted : Posted)
        → asked_at ask_place h ≡ Some posted → (known : List Served) → known ≡ serves_of posted.number h
        → names ask_place known ≡ false → (given : Reply) (after : State)
        → Serves (site_of world posted.number) (state_after (site_of world posted.number) known) ask_place posted.ask
        given after
        → MayServe world h posted.number ask_place given }
{}
