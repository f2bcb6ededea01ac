//! Laws of rename lists.

ghost use Rattle.std.specs.Prelude.{◌≡◌, ℕ, ◌+◌, ◌≤◌, List, [], ◌∷◌, ◌++◌};
ghost use Rattle.inf_base.specs.declared.directory.DirRef.{DirRef};
ghost use Rattle.inf_base.specs.declared.id.Id.{Id};
ghost use Rattle.inf_base.specs.Renames.{RenameRow};
ghost use Rattle.inf_renames.specs.declared.row.Row.{Row};
ghost use Rattle.inf_renames.specs.Kept.{Kept};
ghost use Rattle.inf_renames.specs.Renames.{HasRows, OthersStay, forgotten, least_version, row_in, rows_of, spare_of, with_room, with_row};
ghost use Rattle.inf_renames.specs.Rows.{IsLeastFree, is_taken, without_row};

/// A name in a parent has one least free version.
pub fn least_versions_are_unique()
    ensures { (parent : Id) (name : List ℕ) (rows : List RenameRow) (m n : ℕ)
        → IsLeastFree parent name rows m → IsLeastFree parent name rows n → m ≡ n }
{}

/// The least version of a name in a parent is free, and each smaller one is taken.
pub fn least_versions_are_free()
    ensures { (parent : Id) (name : List ℕ) (lists : List (Id × Kept))
        → IsLeastFree parent name (rows_of parent lists) (least_version parent name lists) }
{}

/// With room made in a parent, all rows stay, and so does the room of the others.
pub fn room_is_for_one_parent()
    ensures rows { (parent : Id) (lists : List (Id × Kept))
        → rows_of parent (with_room parent lists) ≡ rows_of parent lists }
    ensures spare { (parent : Id) (lists : List (Id × Kept))
        → spare_of parent (with_room parent lists) ≡ spare_of parent lists + 1 }
    ensures others { (parent : Id) (lists : List (Id × Kept)) → OthersStay parent lists (with_room parent lists) }
{}

/// A row is added after the parent's others and takes its room; the other parents stay as they were.
pub fn rows_are_added_to_one_parent()
    ensures rows { (parent : Id) (row : Row) (lists : List (Id × Kept))
        → rows_of parent (with_row parent row lists) ≡ rows_of parent lists ++ row_in parent row ∷ [] }
    ensures spare { (parent : Id) (row : Row) (lists : List (Id × Kept)) → 1 ≤ spare_of parent lists
        → spare_of parent (with_row parent row lists) + 1 ≡ spare_of parent lists }
    ensures others { (parent : Id) (row : Row) (lists : List (Id × Kept))
        → OthersStay parent lists (with_row parent row lists) }
{}

/// The parent's first row of the directory goes and leaves no room; the other parents stay as they were.
pub fn rows_are_forgotten_of_one_parent()
    ensures rows { (parent : Id) (dir : DirRef) (lists : List (Id × Kept))
        → rows_of parent (forgotten parent dir lists) ≡ without_row parent dir (rows_of parent lists) }
    ensures spare { (parent : Id) (dir : DirRef) (lists : List (Id × Kept))
        → spare_of parent (forgotten parent dir lists) ≡ spare_of parent lists }
    ensures others { (parent : Id) (dir : DirRef) (lists : List (Id × Kept))
        → OthersStay parent lists (forgotten parent dir lists) }
{}

/// The lists stand for one list of the rows of all parents in the order of adding: they begin as the empty one, tell
/// the same versions taken, and follow it as the calls change them.
pub fn lists_follow_one_list()
    ensures first { HasRows [] [] }
    ensures taken { (lists : List (Id × Kept)) (rows : List RenameRow) (parent : Id) (name : List ℕ) (version : ℕ)
        → HasRows lists rows → is_taken parent name version (rows_of parent lists) ≡ is_taken parent name version rows }
    ensures reserved { (lists new : List (Id × Kept)) (rows : List RenameRow) (parent : Id) → HasRows lists rows
        → rows_of parent new ≡ rows_of parent lists → OthersStay parent lists new → HasRows new rows }
    ensures added { (lists new : List (Id × Kept)) (rows : List RenameRow) (row : RenameRow) → HasRows lists rows
        → rows_of row.parent new ≡ rows_of row.parent lists ++ row ∷ [] → OthersStay row.parent lists new
        → HasRows new (rows ++ row ∷ []) }
    ensures removed { (lists new : List (Id × Kept)) (rows : List RenameRow) (parent : Id) (dir : DirRef)
        → HasRows lists rows
        → rows_of parent new ≡ without_row parent dir (rows_of parent lists) → OthersStay parent lists new
        → HasRows new (without_row parent dir rows) }
{}
