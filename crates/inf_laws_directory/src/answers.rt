//! What calls come to on the plain tree, where a chain that is true now leads along their paths: the checks along the
//! chain, and then what stands in the servers' directories, decide it.

ghost use Rattle.std.specs.Prelude.{◌≡◌, ℕ, false, List, [], ◌∷◌, ◌++◌, Some, None, Ok, Err};
ghost use Rattle.std.specs.List.{list_all};
ghost use Rattle.inf_base.specs.declared.access.Access.{Access};
ghost use Rattle.inf_base.specs.declared.call.Call.{Call};
ghost use Rattle.inf_base.specs.declared.call.Call.TheVariants as call;
ghost use Rattle.inf_base.specs.declared.caller.Caller.{Caller};
ghost use Rattle.inf_base.specs.declared.entry.Entry.{Entry};
ghost use Rattle.inf_base.specs.declared.errno.Errno.TheVariants as errno;
ghost use Rattle.inf_base.specs.declared.file.FileMeta.{FileMeta};
ghost use Rattle.inf_base.specs.Path.{path_of};
ghost use Rattle.inf_base.specs.Same.{dir_of};
ghost use Rattle.inf_laws_directory.specs.Answers.{IsCallOn, if_free, if_searched, permitted, told_along};
ghost use Rattle.inf_laws_directory.specs.Changes.{IsEmpty};
ghost use Rattle.inf_laws_directory.specs.Leads.{Leads};
ghost use Rattle.inf_laws_directory.specs.Replays.{IsRefused};
ghost use Rattle.inf_laws_directory.specs.Stands.{Stands};
ghost use Rattle.inf_laws_directory.specs.Things.{Directories, Thing, a_dir, a_file, thing_under};
ghost use Rattle.inf_perm.specs.declared.want.Want.TheVariants as want;
ghost use Rattle.inf_server.specs.Chains.{last_of};
ghost use Rattle.inf_server.specs.Checks.{lets};
ghost use Rattle.inf_tree.specs.Apply.{apply, changes, looks, new_dir, new_file};
ghost use Rattle.inf_tree.specs.Tree.{Node, changed, cut, hung};

/// A file or a directory is made under a free name.
pub fn creations_follow_chains()
    ensures files { (dirs : Directories) (root : Access) (tree : Node) (caller : Caller) (text : List ℕ)
        (path : List (List ℕ)) (name : List ℕ) (mode : ℕ) (chain : List Entry) (last : Entry)
        → Stands dirs root tree → Leads dirs root path chain → last_of chain ≡ Some last
        → path_of text ≡ Ok (path ++ name ∷ [])
        → apply tree caller (call.Create text mode) ≡ changes tree (permitted caller chain last
        (if_free (thing_under name (dir_of last.access) dirs) (changed (hung name (new_file caller mode)) path tree))) }
    ensures directories { (dirs : Directories) (root : Access) (tree : Node) (caller : Caller) (text : List ℕ)
        (path : List (List ℕ)) (name : List ℕ) (mode : ℕ) (chain : List Entry) (last : Entry)
        → Stands dirs root tree → Leads dirs root path chain → last_of chain ≡ Some last
        → path_of text ≡ Ok (path ++ name ∷ [])
        → apply tree caller (call.Mkdir text mode) ≡ changes tree (permitted caller chain last
        (if_free (thing_under name (dir_of last.access) dirs) (changed (hung name (new_dir caller mode)) path tree))) }
{}

/// A directory is removed where nothing stands in it. Where the caller may not write, nothing is,
/// whatever stands there.
pub fn removals_follow_chains()
    ensures unwritten { (dirs : Directories) (root : Access) (tree : Node) (caller : Caller) (text : List ℕ)
        (path : List (List ℕ)) (name : List ℕ) (chain : List Entry) (last : Entry)
        → Stands dirs root tree → Leads dirs root path chain → last_of chain ≡ Some last
        → path_of text ≡ Ok (path ++ name ∷ []) → lets caller want.Write last ≡ false
        → IsRefused tree caller (call.Rmdir text) errno.EACCES }
    ensures of_nothing { (dirs : Directories) (root : Access) (tree : Node) (caller : Caller) (text : List ℕ)
        (path : List (List ℕ)) (name : List ℕ) (chain : List Entry) (last : Entry)
        → Stands dirs root tree → Leads dirs root path chain → last_of chain ≡ Some last
        → path_of text ≡ Ok (path ++ name ∷ [])
        → thing_under name (dir_of last.access) dirs ≡ None
        → apply tree caller (call.Rmdir text) ≡ changes tree (permitted caller chain last (Err errno.ENOENT)) }
    ensures of_files { (dirs : Directories) (root : Access) (tree : Node) (caller : Caller) (text : List ℕ)
        (path : List (List ℕ)) (name : List ℕ) (chain : List Entry) (last : Entry) (meta : FileMeta)
        → Stands dirs root tree → Leads dirs root path chain → last_of chain ≡ Some last
        → path_of text ≡ Ok (path ++ name ∷ [])
        → thing_under name (dir_of last.access) dirs ≡ Some (a_file meta)
        → apply tree caller (call.Rmdir text) ≡ changes tree (permitted caller chain last (Err errno.ENOTDIR)) }
    ensures of_full { (dirs : Directories) (root : Access) (tree : Node) (caller : Caller) (text : List ℕ)
        (path : List (List ℕ)) (name inner : List ℕ) (chain : List Entry) (last : Entry) (full : Access)
        (thing : Thing)
        → Stands dirs root tree → Leads dirs root path chain → last_of chain ≡ Some last
        → path_of text ≡ Ok (path ++ name ∷ [])
        → thing_under name (dir_of last.access) dirs ≡ Some (a_dir full)
        → thing_under inner (dir_of full) dirs ≡ Some thing
        → apply tree caller (call.Rmdir text) ≡ changes tree (permitted caller chain last (Err errno.ENOTEMPTY)) }
    ensures of_empty { (dirs : Directories) (root : Access) (tree : Node) (caller : Caller) (text : List ℕ)
        (path : List (List ℕ)) (name : List ℕ) (chain : List Entry) (last : Entry) (empty : Access)
        → Stands dirs root tree → Leads dirs root path chain → last_of chain ≡ Some last
        → path_of text ≡ Ok (path ++ name ∷ [])
        → thing_under name (dir_of last.access) dirs ≡ Some (a_dir empty) → IsEmpty dirs (dir_of empty)
        → apply tree caller (call.Rmdir text)
        ≡ changes tree (permitted caller chain last (Ok (changed (cut name) path tree))) }
{}

/// What is told of a file or a directory is what stands there.
pub fn looks_follow_chains()
    ensures { (dirs : Directories) (root : Access) (tree : Node) (caller : Caller) (text : List ℕ)
        (path : List (List ℕ)) (name : List ℕ) (chain : List Entry) (last : Entry)
        → Stands dirs root tree → Leads dirs root path chain → last_of chain ≡ Some last
        → path_of text ≡ Ok (path ++ name ∷ [])
        → apply tree caller (call.Stat text)
        ≡ looks tree (told_along caller chain (thing_under name (dir_of last.access) dirs)) }
{}

/// A path cannot go on behind a name under which nothing stands, nor behind a file, nor through a directory that does
/// not let the caller search.
pub fn paths_stop_at_chains()
    ensures at_nothing { (dirs : Directories) (root : Access) (tree : Node) (caller : Caller) (asked : Call)
        (text : List ℕ) (path rest : List (List ℕ)) (name next : List ℕ) (chain : List Entry) (last : Entry)
        → Stands dirs root tree → Leads dirs root path chain → last_of chain ≡ Some last → IsCallOn text asked
        → path_of text ≡ Ok (path ++ name ∷ next ∷ rest)
        → thing_under name (dir_of last.access) dirs ≡ None
        → IsRefused tree caller asked (if_searched caller chain errno.ENOENT) }
    ensures at_files { (dirs : Directories) (root : Access) (tree : Node) (caller : Caller) (asked : Call)
        (text : List ℕ) (path rest : List (List ℕ)) (name next : List ℕ) (chain : List Entry) (last : Entry)
        (meta : FileMeta)
        → Stands dirs root tree → Leads dirs root path chain → last_of chain ≡ Some last → IsCallOn text asked
        → path_of text ≡ Ok (path ++ name ∷ next ∷ rest)
        → thing_under name (dir_of last.access) dirs ≡ Some (a_file meta)
        → IsRefused tree caller asked (if_searched caller chain errno.ENOTDIR) }
    ensures unsearched { (dirs : Directories) (root : Access) (tree : Node) (caller : Caller) (asked : Call)
        (text : List ℕ) (path rest : List (List ℕ)) (name : List ℕ) (chain : List Entry) (last : Entry)
        → Stands dirs root tree → Leads dirs root path chain → last_of chain ≡ Some last → IsCallOn text asked
        → path_of text ≡ Ok (path ++ name ∷ rest) → list_all (lets caller want.Search) chain ≡ false
        → IsRefused tree caller asked errno.EACCES }
{}
