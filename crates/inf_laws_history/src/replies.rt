//! Laws of what servers reply in legal histories.

ghost use Rattle.std.specs.Prelude.{◌≡◌, ◌≢◌, ℕ, List, Some};
ghost use Rattle.inf_base.specs.declared.directory.DirRef.{DirRef};
ghost use Rattle.inf_base.specs.declared.entry.Entry.{Entry};
ghost use Rattle.inf_duty.specs.World.{World};
ghost use Rattle.inf_laws_directory.specs.At.{At};
ghost use Rattle.inf_laws_history.specs.Legal.{Legal};
ghost use Rattle.inf_message.specs.declared.event.Event.{Event};
ghost use Rattle.inf_message.specs.declared.event.Event.TheVariants as event;
ghost use Rattle.inf_message.specs.declared.reply.Reply.{Reply};
ghost use Rattle.inf_message.specs.declared.reply.Reply.TheVariants as reply;
ghost use Rattle.inf_message.specs.declared.request.Request.TheVariants as request;
ghost use Rattle.inf_message.specs.History.{Posted, asked_at, event_at};

use crate::laws::every_legal_history_keeps;

/// A server that is asked to link a directory never replies that this was not asked of it: it keeps the parent, and the
/// name is reserved for the call.
pub fn links_are_never_replied_other()
    ensures { (world : World) (h : List Event) → Legal world h → (at : At) (given : Reply) (posted : Posted)
        → event_at at.serve_place h ≡ Some (event.Serve at.number at.ask_place given)
        → asked_at at.ask_place h ≡ Some posted
        → (chain : List Entry) (name : List ℕ) (dir : DirRef) (mode : ℕ)
        → posted.ask.request ≡ request.Link chain name dir mode
        → given ≢ reply.Other }
{
    every_legal_history_keeps();
}
