//! Laws of the definitions, each a function that only states it.

ghost use Rattle.std.specs.Prelude.{◌≡◌, ℕ, List, if◌then◌else◌};
ghost use Rattle.std.specs.Str.{bytes_eq};
ghost use Rattle.inf_base.specs.declared.call.Call.{Call};
ghost use Rattle.inf_base.specs.declared.caller.Caller.{Caller};
ghost use Rattle.inf_tree.specs.Apply.{apply};
ghost use Rattle.inf_tree.specs.Replay.{Request, Decided, Replays, answers_to, decided, replayed};
ghost use Rattle.inf_tree.specs.Tree.{DirMeta, Node, Entries, dir, IsTree, found, opening_tree, placed, without};

/// A node that is placed is found under its name, a name that is cut off is missing, and any other name stands
/// as before.
pub fn one_name_changes()
    ensures placed { (q name : List ℕ) (node : Node) (entries : Entries)
        → found q (placed name node entries) ≡ (if bytes_eq q name then Some node else found q entries) }
    ensures cut { (q name : List ℕ) (meta : DirMeta) (entries : Entries) → IsTree (dir meta entries)
        → found q (without name entries) ≡ (if bytes_eq q name then None else found q entries) }
{}

/// Trees stay sorted, and the names of each directory distinct, whatever is called.
pub fn calls_keep_the_tree()
    ensures opening { IsTree opening_tree }
    ensures call { (tree : Node) (caller : Caller) (call : Call)
        → IsTree tree → IsTree (apply tree caller call).tree }
    ensures calls { (tree : Node) (calls : List Decided) → IsTree tree → IsTree (replayed tree calls) }
{}

/// The answers that the tree gives to calls in turn are answers that replay.
pub fn answers_replay()
    ensures { (tree : Node) (requests : List Request)
        → Replays tree (decided requests (answers_to tree requests)) }
{}
