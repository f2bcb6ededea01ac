//! What one Serve brings about: content objects are born at the Ask that it serves, and clean-ups are done.

ghost use Rattle.std.specs.Prelude.{◌≡◌, ◌⊎◌, true, is_some};
ghost use Rattle.inf_base.specs.declared.directory.DirRef.{DirRef};
ghost use Rattle.inf_base.specs.declared.id.Id.{Id};
ghost use Rattle.inf_base.specs.Identity.{server_of};
ghost use Rattle.inf_content.specs.Order.{AreInOrder};
ghost use Rattle.inf_laws_directory.specs.At.{At};
ghost use Rattle.inf_laws_directory.specs.Born.{IsBornBy};
ghost use Rattle.inf_laws_directory.specs.Objects.{Objects, Service, content_in, site_in, with_state};
ghost use Rattle.inf_message.specs.declared.ask.Ask.{Ask};
ghost use Rattle.inf_message.specs.declared.reply.Reply.{Reply};
ghost use Rattle.inf_message.specs.declared.reply.Reply.TheVariants as reply;
ghost use Rattle.inf_message.specs.declared.request.Request.TheVariants as request;
ghost use Rattle.inf_server.specs.Machine.{Serves};
ghost use Rattle.inf_server.specs.State.{State};

/// A content object that was not there before was born at the Ask, which was to make it.
pub fn contents_are_born_at_an_ask()
    ensures { (service : Service) (objects : Objects) (at : At) (ask : Ask) (given : Reply) (new : State)
        → AreInOrder (objects at.number).contents
        → Serves (site_in service at.number) (objects at.number) at.ask_place ask given new
        → (dir : DirRef) → is_some (content_in service (with_state at.number new objects) dir) ≡ true
        → (is_some (content_in service objects dir) ≡ true) ⊎ ((dir.born ≡ at.ask_place) × IsBornBy ask.request given) }
{}

/// What cleans up is done by the server that keeps the directory; no memory is wanted for it.
pub fn clean_ups_are_done()
    ensures cancels { (service : Service) (at : At) (state new : State) (ask : Ask) (given : Reply) (dir : DirRef)
        → Serves (site_in service at.number) state at.ask_place ask given new → ask.request ≡ request.Cancel dir
        → at.number ≡ server_of dir.id service.servers → given ≡ reply.Fine }
    ensures drops { (service : Service) (at : At) (state new : State) (ask : Ask) (given : Reply) (dir : DirRef)
        → Serves (site_in service at.number) state at.ask_place ask given new → ask.request ≡ request.Drop dir
        → at.number ≡ server_of dir.id service.servers → given ≡ reply.Fine }
    ensures unseals { (service : Service) (at : At) (state new : State) (ask : Ask) (given : Reply) (dir : DirRef)
        → Serves (site_in service at.number) state at.ask_place ask given new → ask.request ≡ request.Unseal dir
        → at.number ≡ server_of dir.id service.servers → given ≡ reply.Fine }
    ensures forgets { (service : Service) (at : At) (state new : State) (ask : Ask) (given : Reply) (parent : Id)
        (dir : DirRef)
        → Serves (site_in service at.number) state at.ask_place ask given new → ask.request ≡ request.Forget parent dir
        → at.number ≡ server_of parent service.servers → given ≡ reply.Fine }
{}
