//! Laws of the counters.
ghost use Rattle.std.specs.Prelude.{◌≡◌};
ghost use Rattle.pg_sync.specs.Counting.{GathersAreShared};
ghost use Rattle.pg_sync.specs.Kept.{GathersAreDistinct, CachedGathersAreShared};
ghost use Rattle.pg_sync.specs.Path.{path_gathers, cached_path_gathers};

use pg_law::VertexProgram;

/// What the workers of a cut gather, each over its own edges, is together what rounds gather.
pub fn gathers_are_shared<P: VertexProgram>(_program: &P)
    ensures { GathersAreShared (P.meaning _program.now) }
{}

/// What the workers of the path of four vertices gather, each of whose edges is a worker's own.
pub fn the_path_of_four()
    ensures first { path_gathers 0 ≡ 2 }
    ensures second { path_gathers 1 ≡ 3 }
    ensures third { path_gathers 2 ≡ 5 }
{}

/// With kept gathers and a program that never clears one, each vertex gathers at its first
/// execution alone: the gathers are the gather degrees of the distinct vertices that execute.
pub fn distinct_gathers<P: VertexProgram>(_program: &P)
    ensures { GathersAreDistinct (P.meaning _program.now) }
{}

/// What the workers of a cut gather, where gathers are kept, is together all that is gathered.
pub fn cached_gathers_are_shared<P: VertexProgram>(_program: &P)
    ensures { CachedGathersAreShared (P.meaning _program.now) }
{}

/// The same on the path of four vertices, where gathers are kept.
pub fn the_cached_path_of_four()
    ensures first { cached_path_gathers 0 ≡ 2 }
    ensures second { cached_path_gathers 1 ≡ 2 }
    ensures third { cached_path_gathers 2 ≡ 2 }
{}
