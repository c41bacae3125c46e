//! The definitions at small graphs.
ghost use Rattle.std.specs.Prelude.{◌≡◌, [], ◌∷◌};
ghost use Rattle.pg_greedy.specs.Examples.{path, claw, bridge, longer_bridge};
ghost use Rattle.pg_greedy.specs.Loaders.{oblivious_places, oblivious_cases};
ghost use Rattle.pg_greedy.specs.Loaders.{coordinated_places, coordinated_cases};

/// In one batch no loader sees what the others place.
pub fn loaders_apart()
    ensures path_places { coordinated_places path 3 3 ≡ 0 ∷ 1 ∷ 2 ∷ [] }
    ensures path_cases { coordinated_cases path 3 3 ≡ 4 ∷ 4 ∷ 4 ∷ [] }
    ensures claw_places { oblivious_places claw 2 2 ≡ 0 ∷ 1 ∷ 0 ∷ 1 ∷ [] }
    ensures claw_cases { oblivious_cases claw 2 2 ≡ 4 ∷ 4 ∷ 3 ∷ 3 ∷ [] }
{}

/// An edge between two workers goes to the end with more unassigned edges, and to the source where
/// both have as many.
pub fn the_end_with_more_to_come_decides()
    ensures tie_places { oblivious_places bridge 2 1 ≡ 0 ∷ 1 ∷ 0 ∷ [] }
    ensures tie_cases { oblivious_cases bridge 2 1 ≡ 4 ∷ 4 ∷ 2 ∷ [] }
    ensures more_places { oblivious_places longer_bridge 2 1 ≡ 0 ∷ 1 ∷ 1 ∷ 1 ∷ [] }
    ensures more_cases { oblivious_cases longer_bridge 2 1 ≡ 4 ∷ 4 ∷ 2 ∷ 3 ∷ [] }
{}
