//! What an actor knows.
use pg_law::Datum;

/// What an actor prepared of its vertex.
#[derive(Clone, Copy)]
pub struct Ready {
    pub datum: Datum,
    pub again: Option<u64>,
}

/// An actor: its vertex in hand, what it found and did there, and the datum before its entry.
///
/// `pinned` is how many forks it has pinned, and `stale` to how many replicas it has yet to write
/// its entry. Both are counted as it goes, so that no act looks through forks or replicas.
#[derive(Clone, Copy)]
pub struct Actor {
    pub vertex: Option<u32>,
    pub evidence: bool,
    pub committed: bool,
    pub turn: bool,
    pub ready: Option<Ready>,
    pub before: Datum,
    pub pinned: usize,
    pub stale: usize,
}

impl Actor {
    ghost use Rattle.std.specs.Prelude.{◌≡◌, Some};
    ghost use Rattle.pg_meals.specs.Entries.{idle, arrived};

    /// An actor that has nothing in hand.
    pub fn idle() -> Actor
        ensures { result ≡ idle }
    {
        Actor {
            vertex: None,
            evidence: false,
            committed: false,
            turn: false,
            ready: None,
            before: Datum::two(0, 0),
            pinned: 0,
            stale: 0,
        }
    }

    /// An actor that has just taken a vertex in hand.
    pub fn at(vertex: u32, evidence: bool) -> Actor
        ensures { result ≡ arrived vertex evidence }
    {
        Actor {
            vertex: Some(vertex),
            evidence,
            ..Actor::idle()
        }
    }
}
