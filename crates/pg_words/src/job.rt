//! What words can ask for.
ghost use Rattle.std.specs.Prelude.{◌≡◌};
ghost use Rattle.pg_words.specs.Programs.{is_wide, keeps};

use pg_readers::Format;

/// An engine with its limit.
#[derive(Clone, Copy, Debug, PartialEq, Eq)]
pub enum Engine {
    /// Rounds, so many at most.
    Sync { rounds: u32 },
    /// One vertex after another on one thread, so many executions at most.
    Serial { fuel: u32 },
    /// Actors beside each other, whose acts come in an order that is drawn from the seed; so many
    /// executions at most.
    Virtual { fuel: u32, seed: u64 },
}

/// A program with its number, where it has one.
#[derive(Clone, Copy, Debug, PartialEq, Eq)]
pub enum ProgramName {
    Components,
    Colour,
    /// Shortest paths from the vertex of this id.
    Sssp { source: u32 },
    /// Ranks, which are told to neighbours where they change by more than this many billionths.
    Rank { tolerance: u64 },
    /// A tree of shortest paths from the vertex of this id.
    Tree { source: u32 },
}

impl ProgramName {
    /// Whether a value of the program is two numbers.
    pub fn wide(self) -> bool
        ensures { result ≡ is_wide self }
    {
        matches!(self, ProgramName::Tree { .. })
    }

    /// Whether its gathers can be kept: its scatters tell how a gather changes.
    pub fn keeps_gathers(self) -> bool
        ensures { result ≡ keeps self }
    {
        !matches!(self, ProgramName::Colour)
    }
}

/// How the edges are placed on the workers.
#[derive(Clone, Copy, Debug, PartialEq, Eq)]
pub enum CutKind {
    /// By a mix of the ends of an edge with this seed.
    Random { seed: u64 },
    /// Greedily, where each loader knows what it placed itself.
    Oblivious,
    /// Greedily, where each loader also knows what all placed in earlier batches.
    Coordinated,
}

/// A run of a program on a graph text.
///
/// Where its report is checked, the engine says whose report it is, and with which limit.
/// `workers` is 1 to 64. With `cache` the gathers of vertices are kept from one execution to the
/// next, which rounds and actors of a program do whose scatters tell how a gather changes; a report
/// that is checked is then one that counts the gathers of each vertex once.
#[derive(Clone, Copy, Debug, PartialEq, Eq)]
pub struct RunJob {
    pub engine: Engine,
    pub program: ProgramName,
    pub format: Format,
    pub workers: u8,
    pub kind: CutKind,
    pub cache: bool,
}

/// A cut of a graph text whose counts are told. `workers` is 1 to 64.
#[derive(Clone, Copy, Debug, PartialEq, Eq)]
pub struct CutJob {
    pub format: Format,
    pub workers: u8,
    pub kind: CutKind,
}

/// What is to be done.
#[derive(Clone, Copy, Debug, PartialEq, Eq)]
pub enum Job {
    /// Runs a program and reports.
    Run(RunJob),
    /// Checks the report that stands behind the graph text.
    Check(RunJob),
    /// Cuts the graph and tells the cut's counts.
    Cut(CutJob),
}
