//! What a served request answers is what the call answers on the plain tree, and what stands then stands for the tree
//! after it. One law for each kind of request.

ghost use Rattle.std.specs.Prelude.{◌≡◌, ℕ, List, [], ◌∷◌, ◌++◌, Some, Ok, Err};
ghost use Rattle.inf_base.specs.declared.access.Access.{Access};
ghost use Rattle.inf_base.specs.declared.answer.Answer.TheVariants as answer;
ghost use Rattle.inf_base.specs.declared.call.Call.TheVariants as call;
ghost use Rattle.inf_base.specs.declared.caller.CallRef.{CallRef};
ghost use Rattle.inf_base.specs.declared.directory.DirRef.{DirRef};
ghost use Rattle.inf_base.specs.declared.entry.Entry.{Entry};
ghost use Rattle.inf_base.specs.declared.errno.Errno.{Errno};
ghost use Rattle.inf_base.specs.declared.file.FileMeta.{FileMeta};
ghost use Rattle.inf_base.specs.declared.item.Kind.{Kind};
ghost use Rattle.inf_base.specs.declared.key.Key.TheVariants as key;
ghost use Rattle.inf_base.specs.Content.{reserved};
ghost use Rattle.inf_base.specs.Path.{path_of};
ghost use Rattle.inf_base.specs.Same.{dir_of};
ghost use Rattle.inf_content.specs.Order.{AreInOrder};
ghost use Rattle.inf_content.specs.Slot.{reserves};
ghost use Rattle.inf_content.specs.Slots.{first};
ghost use Rattle.inf_laws_directory.specs.Changes.{IsEmpty, IsNew};
ghost use Rattle.inf_laws_directory.specs.Objects.{Objects, Service, shown_of, site_in, slots_kept, with_state};
ghost use Rattle.inf_laws_directory.specs.Phases.{Phases, has_unlinked, idle, with_phase};
ghost use Rattle.inf_laws_directory.specs.Replays.{Answers, IsAt, IsPathOf, IsRefused, MayWrite};
ghost use Rattle.inf_message.specs.declared.ask.Ask.{Ask};
ghost use Rattle.inf_message.specs.declared.reply.Reply.{Reply};
ghost use Rattle.inf_message.specs.declared.reply.Reply.TheVariants as reply;
ghost use Rattle.inf_server.specs.Births.{link, reserve};
ghost use Rattle.inf_server.specs.Chains.{before_last, last_of};
ghost use Rattle.inf_server.specs.Files.{create, rmdir_name, stat, walk};
ghost use Rattle.inf_server.specs.Removals.{seal, unlink};
ghost use Rattle.inf_server.specs.Response.{Response};
ghost use Rattle.inf_tree.specs.Tree.{Node};

use crate::serves::{
    creating_puts_a_file, linking_puts_a_directory, unlinking_takes_the_directory,
};

/// The creation of a file.
pub fn creates_replay()
    ensures done { (service : Service) (objects : Objects) (number : ℕ) (root : Access) (tree : Node)
        (phases : Phases) (ask : Ask) (text : List ℕ) (path : List (List ℕ)) (name : List ℕ) (mode : ℕ)
        (chain : List Entry) (last : Entry) (done : Response)
        → IsAt (shown_of service objects phases) root tree path chain last → IsPathOf text path name
        → create (site_in service number) (objects number) ask chain name mode ≡ Ok done
        → Answers tree ask.caller (call.Create text mode) answer.Done
        root (shown_of service (with_state number done.state objects) phases) }
    ensures refused { (service : Service) (objects : Objects) (number : ℕ) (root : Access) (tree : Node)
        (phases : Phases) (ask : Ask) (text : List ℕ) (path : List (List ℕ)) (name : List ℕ) (mode : ℕ)
        (chain : List Entry) (last : Entry) (error : Errno)
        → IsAt (shown_of service objects phases) root tree path chain last → IsPathOf text path name
        → create (site_in service number) (objects number) ask chain name mode ≡ Err (reply.Refused error)
        → IsRefused tree ask.caller (call.Create text mode) error }
{
    creating_puts_a_file()
}

/// What is told of a file or a directory.
pub fn stats_replay()
    ensures told { (service : Service) (objects : Objects) (number : ℕ) (root : Access) (tree : Node)
        (phases : Phases) (ask : Ask) (text : List ℕ) (path : List (List ℕ)) (name : List ℕ) (chain : List Entry)
        (last : Entry) (done : Response) (kind : Kind) (meta : FileMeta)
        → IsAt (shown_of service objects phases) root tree path chain last → IsPathOf text path name
        → stat (site_in service number) (objects number) ask chain name ≡ Ok done → done.reply ≡ reply.Stat kind meta
        → Answers tree ask.caller (call.Stat text) (answer.Stat kind meta) root (shown_of service objects phases) }
    ensures refused { (service : Service) (objects : Objects) (number : ℕ) (root : Access) (tree : Node)
        (phases : Phases) (ask : Ask) (text : List ℕ) (path : List (List ℕ)) (name : List ℕ) (chain : List Entry)
        (last : Entry) (error : Errno)
        → IsAt (shown_of service objects phases) root tree path chain last → IsPathOf text path name
        → stat (site_in service number) (objects number) ask chain name ≡ Err (reply.Refused error)
        → IsRefused tree ask.caller (call.Stat text) error }
{}

/// A walk that ends at a name from which the path would go on.
pub fn walks_replay()
    ensures creates { (service : Service) (objects : Objects) (number : ℕ) (root : Access) (tree : Node)
        (phases : Phases) (ask : Ask) (text : List ℕ) (path rest : List (List ℕ)) (name next : List ℕ) (mode : ℕ)
        (chain : List Entry) (last : Entry) (error : Errno)
        → IsAt (shown_of service objects phases) root tree path chain last
        → path_of text ≡ Ok (path ++ name ∷ next ∷ rest)
        → walk (site_in service number) (objects number) ask chain name ≡ Err (reply.Refused error)
        → IsRefused tree ask.caller (call.Create text mode) error }
    ensures stats { (service : Service) (objects : Objects) (number : ℕ) (root : Access) (tree : Node)
        (phases : Phases) (ask : Ask) (text : List ℕ) (path rest : List (List ℕ)) (name next : List ℕ)
        (chain : List Entry) (last : Entry) (error : Errno)
        → IsAt (shown_of service objects phases) root tree path chain last
        → path_of text ≡ Ok (path ++ name ∷ next ∷ rest)
        → walk (site_in service number) (objects number) ask chain name ≡ Err (reply.Refused error)
        → IsRefused tree ask.caller (call.Stat text) error }
    ensures mkdirs { (service : Service) (objects : Objects) (number : ℕ) (root : Access) (tree : Node)
        (phases : Phases) (ask : Ask) (text : List ℕ) (path rest : List (List ℕ)) (name next : List ℕ) (mode : ℕ)
        (chain : List Entry) (last : Entry) (error : Errno)
        → IsAt (shown_of service objects phases) root tree path chain last
        → path_of text ≡ Ok (path ++ name ∷ next ∷ rest)
        → walk (site_in service number) (objects number) ask chain name ≡ Err (reply.Refused error)
        → IsRefused tree ask.caller (call.Mkdir text mode) error }
    ensures rmdirs { (service : Service) (objects : Objects) (number : ℕ) (root : Access) (tree : Node)
        (phases : Phases) (ask : Ask) (text : List ℕ) (path rest : List (List ℕ)) (name next : List ℕ)
        (chain : List Entry) (last : Entry) (error : Errno)
        → IsAt (shown_of service objects phases) root tree path chain last
        → path_of text ≡ Ok (path ++ name ∷ next ∷ rest)
        → walk (site_in service number) (objects number) ask chain name ≡ Err (reply.Refused error)
        → IsRefused tree ask.caller (call.Rmdir text) error }
{}

/// The removal of a directory that is none.
pub fn removals_of_no_directory_replay()
    ensures { (service : Service) (objects : Objects) (number : ℕ) (root : Access) (tree : Node) (phases : Phases)
        (ask : Ask) (text : List ℕ) (path : List (List ℕ)) (name : List ℕ) (chain : List Entry) (last : Entry)
        (error : Errno)
        → IsAt (shown_of service objects phases) root tree path chain last → IsPathOf text path name
        → rmdir_name (site_in service number) (objects number) ask chain name ≡ Err (reply.Refused error)
        → IsRefused tree ask.caller (call.Rmdir text) error }
{}

/// The making of a directory: a name that cannot be reserved refuses it, and the link decides it.
pub fn births_replay()
    ensures refused { (service : Service) (objects : Objects) (number : ℕ) (root : Access) (tree : Node)
        (phases : Phases) (ask : Ask) (text : List ℕ) (path : List (List ℕ)) (name : List ℕ) (mode : ℕ)
        (chain : List Entry) (last : Entry) (error : Errno)
        → IsAt (shown_of service objects phases) root tree path chain last → IsPathOf text path name
        → reserve (site_in service number) (objects number) ask chain name ≡ Err (reply.Refused error)
        → IsRefused tree ask.caller (call.Mkdir text mode) error }
    ensures linked { (service : Service) (objects : Objects) (number : ℕ) (root : Access) (tree : Node)
        (phases : Phases) (ask : Ask) (text : List ℕ) (path : List (List ℕ)) (name : List ℕ) (mode : ℕ)
        (chain : List Entry) (last : Entry) (dir : DirRef) (by : CallRef) (access : Access) (done : Response)
        → IsAt (shown_of service objects phases) root tree path chain last → IsPathOf text path name
        → MayWrite ask.caller chain last → AreInOrder (objects number).contents
        → IsNew (shown_of service objects phases) root dir
        → first (reserves ask.from) (slots_kept service objects (dir_of last.access)) ≡ Some (name, reserved by access)
        → link (site_in service number) (objects number) ask chain dir mode ≡ Ok done
        → Answers tree ask.caller (call.Mkdir text mode) answer.Done
        root (shown_of service (with_state number done.state objects) (with_phase ask.from idle phases)) }
{
    linking_puts_a_directory()
}

/// The removal of a directory: a seal that is refused refuses it, and the unlink decides it.
pub fn removals_replay()
    ensures refused { (service : Service) (objects : Objects) (number : ℕ) (root : Access) (tree : Node)
        (phases : Phases) (ask : Ask) (text : List ℕ) (path : List (List ℕ)) (name : List ℕ) (chain : List Entry)
        (parent target : Entry) (error : Errno)
        → IsAt (shown_of service objects phases) root tree path (before_last chain) parent
        → IsAt (shown_of service objects phases) root tree (path ++ name ∷ []) chain target → IsPathOf text path name
        → AreInOrder (objects number).contents
        → seal (site_in service number) (objects number) ask chain ≡ Err (reply.Refused error)
        → IsRefused tree ask.caller (call.Rmdir text) error }
    ensures unlinked { (service : Service) (objects : Objects) (number : ℕ) (root : Access) (tree : Node)
        (phases : Phases) (ask : Ask) (text : List ℕ) (path : List (List ℕ)) (name : List ℕ)
        (chain : List Entry) (parent target : Entry) (dir : DirRef) (done : Response)
        → IsAt (shown_of service objects phases) root tree path (before_last chain) parent
        → IsAt (shown_of service objects phases) root tree (path ++ name ∷ []) chain target → IsPathOf text path name
        → MayWrite ask.caller (before_last chain) parent → AreInOrder (objects number).contents
        → target.key ≡ key.At dir name → IsEmpty (shown_of service objects phases) (dir_of target.access)
        → unlink (site_in service number) (objects number) ask chain ≡ Ok done
        → Answers tree ask.caller (call.Rmdir text) answer.Done
        root (shown_of service (with_state number done.state objects)
        (with_phase ask.from (has_unlinked (dir_of target.access)) phases)) }
{
    unlinking_takes_the_directory()
}
