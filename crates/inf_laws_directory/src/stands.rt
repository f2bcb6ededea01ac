//! The directories of the servers stand for a plain tree.

ghost use Rattle.std.specs.Prelude.{◌≡◌, ℕ, ◌≤◌, List, Some};
ghost use Rattle.inf_base.specs.declared.access.Access.{Access};
ghost use Rattle.inf_base.specs.declared.caller.Caller.{Caller};
ghost use Rattle.inf_base.specs.declared.entry.Entry.{Entry};
ghost use Rattle.inf_base.specs.declared.file.FileMeta.{FileMeta};
ghost use Rattle.inf_base.specs.Same.{dir_of};
ghost use Rattle.inf_laws_directory.specs.Changes.{IsEmpty, IsNew, LooksSame, Puts, Takes};
ghost use Rattle.inf_laws_directory.specs.Leads.{Leads};
ghost use Rattle.inf_laws_directory.specs.Objects.{Service, shown_of, site_in};
ghost use Rattle.inf_laws_directory.specs.Phases.{Phases};
ghost use Rattle.inf_laws_directory.specs.Stands.{Stands, meta_of};
ghost use Rattle.inf_laws_directory.specs.Things.{Directories, Reaches, a_dir, a_file, thing_under};
ghost use Rattle.inf_laws_directory.specs.Walks.{ComesTo};
ghost use Rattle.inf_server.specs.Chains.{last_of};
ghost use Rattle.inf_server.specs.State.{opening, root_access};
ghost use Rattle.inf_tree.specs.Tree.{IsTree, Node, changed, cut, dir, file, hung, none, opening_tree};

/// Before anything is served the servers' directories stand for the opening tree.
pub fn opening_stands()
    ensures { (service : Service) (phases : Phases)
        → Stands (shown_of service (λ number. opening (site_in service number)) phases)
        (root_access (site_in service 0)) opening_tree }
{}

/// A chain that is true now leads to the directory of its last entry, and the walk in the tree comes there too.
pub fn walks_follow_chains()
    ensures reaches { (dirs : Directories) (root : Access) (path : List (List ℕ)) (chain : List Entry) (last : Entry)
        → Leads dirs root path chain → last_of chain ≡ Some last → Reaches dirs root path last.access }
    ensures comes { (dirs : Directories) (root : Access) (tree : Node) (caller : Caller) (path : List (List ℕ))
        (chain : List Entry) (last : Entry)
        → Stands dirs root tree → Leads dirs root path chain → last_of chain ≡ Some last
        → ComesTo dirs tree caller path chain last.access }
{}

/// What no path sees leaves the tree.
pub fn unseen_changes_stand()
    ensures { (old new : Directories) (root : Access) (tree : Node)
        → Stands old root tree → LooksSame old new root → Stands new root tree }
{}

/// A file, or an empty directory, that comes under a free name comes in the tree.
pub fn what_is_put_stands()
    ensures files { (old new : Directories) (root access : Access) (tree : Node) (path : List (List ℕ)) (name : List ℕ)
        (meta : FileMeta)
        → Stands old root tree → Reaches old root path access → Puts old new (dir_of access) name (a_file meta)
        → Stands new root (changed (hung name (file meta)) path tree) }
    ensures directories { (old new : Directories) (root access made : Access) (tree : Node) (path : List (List ℕ))
        (name : List ℕ)
        → Stands old root tree → Reaches old root path access → Puts old new (dir_of access) name (a_dir made)
        → IsNew old root (dir_of made)
        → Stands new root (changed (hung name (dir (meta_of made) none)) path tree) }
{}

/// An empty directory that goes, goes in the tree.
pub fn what_is_taken_stands()
    ensures { (old new : Directories) (root access gone : Access) (tree : Node) (path : List (List ℕ)) (name : List ℕ)
        → IsTree tree → Stands old root tree → Reaches old root path access
        → thing_under name (dir_of access) old ≡ Some (a_dir gone) → IsEmpty old (dir_of gone)
        → Takes old new (dir_of access) name → Stands new root (changed (cut name) path tree) }
{}
