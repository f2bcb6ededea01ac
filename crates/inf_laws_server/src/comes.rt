//! What one Serve comes to.

ghost use Rattle.std.specs.Prelude.{◌≡◌, ℕ};
ghost use Rattle.inf_message.specs.declared.ask.Ask.{Ask};
ghost use Rattle.inf_message.specs.declared.reply.Reply.{Reply};
ghost use Rattle.inf_message.specs.declared.reply.Reply.TheVariants as reply;
ghost use Rattle.inf_server.specs.Machine.{Serves, machine};
ghost use Rattle.inf_server.specs.State.{Site, State};
ghost use Rattle.inf_laws_server.specs.CameTo.{CameTo};

/// Whatever a server replies is the success of the request's kind, with what that says and changes; or it fails, says
/// why, and leaves the server as it was.
pub fn every_serve_comes_to_its_kind()
    ensures { (site : Site) (old : State) (place : ℕ) (ask : Ask) (given : Reply) (new : State)
        → Serves site old place ask given new → CameTo site old place ask given new }
{}

/// The checks themselves never say that memory is wanted, so that what the machine replies is a reply that the server
/// may give.
pub fn machines_want_no_memory()
    ensures plain { (site : Site) (state : State) (place : ℕ) (ask : Ask)
        → (machine site state place ask).reply ≡ reply.NoMem → ⊥ }
    ensures serves { (site : Site) (state : State) (place : ℕ) (ask : Ask)
        → Serves site state place ask (machine site state place ask).reply (machine site state place ask).state }
{}
