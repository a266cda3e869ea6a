//! What holds of every path. The function does nothing: its clauses are the laws.
ghost use Rattle.std.specs.Prelude.{◌≡◌, ◌++◌, ℕ, List, true, codes};
ghost use Rattle.std.specs.List.{join_with_byte, list_all};
ghost use Rattle.dir_app.specs.Names.{leads_down, parts, path_of, stays_below};

/// Behind the root each part of the name of a file leads down, and the name is these parts with
/// slashes between them.
pub fn names_lead_down()
    ensures leads_below { (path : List ℕ) → stays_below path ≡ true →
        list_all leads_down (parts (path_of path)) ≡ true }
    ensures parts_are_joined { (path : List ℕ) → stays_below path ≡ true →
        path_of path ≡ codes "/" ++ join_with_byte 47 (parts (path_of path)) }
{}
