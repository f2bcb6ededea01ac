//! Which versions small rename lists leave free, and what the calls make of them: each clause is computed.

ghost use Rattle.std.specs.Prelude.{◌≡◌, [], ◌∷◌, true, false, codes};
ghost use Rattle.inf_renames.specs.Examples.{dir_born, entry, first_taken, gap_lists, gap_rows, id_of, row_a, two_rows};
ghost use Rattle.inf_renames.specs.Renames.{forgotten, least_version, with_room, with_row};
ghost use Rattle.inf_renames.specs.Rows.{without_row};

/// Where 0 and 1 are taken, 2 is the least free version; where 0 and 2 are, it is 1.
pub fn example_of_versions()
    ensures none { first_taken 1 (codes "a") [] ≡ false ∷ false ∷ false ∷ [] }
    ensures two { first_taken 1 (codes "a") two_rows ≡ true ∷ true ∷ false ∷ [] }
    ensures gap { first_taken 1 (codes "a") gap_rows ≡ true ∷ false ∷ true ∷ [] }
{}

/// Rows of another parent or of another name count for nothing.
pub fn example_of_others()
    ensures parent { first_taken 2 (codes "a") two_rows ≡ false ∷ false ∷ false ∷ [] }
    ensures name { first_taken 1 (codes "b") two_rows ≡ false ∷ false ∷ false ∷ [] }
{}

/// A version is free again once its row is removed, which the identifier and the place of birth name together.
pub fn example_of_removals()
    ensures first { first_taken 1 (codes "a") (without_row (id_of 1) (dir_born 5) two_rows)
        ≡ false ∷ true ∷ false ∷ [] }
    ensures second { first_taken 1 (codes "a") (without_row (id_of 1) (dir_born 6) two_rows)
        ≡ true ∷ false ∷ false ∷ [] }
    ensures elsewhere { without_row (id_of 2) (dir_born 5) two_rows ≡ two_rows }
    ensures unborn { without_row (id_of 1) (dir_born 7) two_rows ≡ two_rows }
{}

/// Between two versions that are taken the least free one is found, and past three of them it is the next.
pub fn example_of_least_versions()
    ensures gap { least_version (id_of 1) (codes "a") gap_lists ≡ 1 }
    ensures past { least_version (id_of 1) (codes "a") (with_row (id_of 1) (row_a 1 7) gap_lists) ≡ 3 }
    ensures name { least_version (id_of 1) (codes "b") gap_lists ≡ 0 }
    ensures unlisted { least_version (id_of 2) (codes "a") gap_lists ≡ 0 }
{}

/// Room is made where the parent stands, or where it comes in the order of identifiers.
pub fn example_of_room()
    ensures listed { with_room (id_of 3) gap_lists ≡ entry 1 (row_a 0 5 ∷ row_a 2 6 ∷ []) 1 ∷ entry 3 [] 2 ∷ [] }
    ensures between { with_room (id_of 2) gap_lists
        ≡ entry 1 (row_a 0 5 ∷ row_a 2 6 ∷ []) 1 ∷ entry 2 [] 1 ∷ entry 3 [] 1 ∷ [] }
    ensures last { with_room (id_of 4) gap_lists
        ≡ entry 1 (row_a 0 5 ∷ row_a 2 6 ∷ []) 1 ∷ entry 3 [] 1 ∷ entry 4 [] 1 ∷ [] }
{}

/// A row is added behind the others and takes the room of one.
pub fn example_of_rows_added()
    ensures behind { with_row (id_of 1) (row_a 1 7) gap_lists
        ≡ entry 1 (row_a 0 5 ∷ row_a 2 6 ∷ row_a 1 7 ∷ []) 0 ∷ entry 3 [] 1 ∷ [] }
    ensures first { with_row (id_of 3) (row_a 0 7) gap_lists
        ≡ entry 1 (row_a 0 5 ∷ row_a 2 6 ∷ []) 1 ∷ entry 3 (row_a 0 7 ∷ []) 0 ∷ [] }
{}

/// The row of the directory is forgotten and leaves no room; where there is none, nothing changes.
pub fn example_of_rows_forgotten()
    ensures first { forgotten (id_of 1) (dir_born 5) gap_lists ≡ entry 1 (row_a 2 6 ∷ []) 1 ∷ entry 3 [] 1 ∷ [] }
    ensures second { forgotten (id_of 1) (dir_born 6) gap_lists ≡ entry 1 (row_a 0 5 ∷ []) 1 ∷ entry 3 [] 1 ∷ [] }
    ensures unborn { forgotten (id_of 1) (dir_born 7) gap_lists ≡ gap_lists }
    ensures unlisted { forgotten (id_of 2) (dir_born 5) gap_lists ≡ gap_lists }
{}
