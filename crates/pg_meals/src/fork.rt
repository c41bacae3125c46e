//! The fork of an edge as the table keeps it: its word, its pinner, and what it carries.
ghost use Rattle.std.specs.Prelude.{◌≡◌, is_some};
ghost use Rattle.pg_meals.specs.Entries.{at_side};

use pg_forks::ForkWord;
use pg_graph::Side;
use pg_law::{Datum, Delta};

/// What waits for one end of an edge.
#[derive(Drop)]
pub struct Ride<A> {
    pub message: Option<u64>,
    pub delta: Delta<A>,
}

/// What a fork carries: the edge word, and what waits for each end.
#[derive(Drop)]
pub struct Carried<A> {
    pub word: u64,
    pub source: Ride<A>,
    pub target: Ride<A>,
}

/// The word of a fork, who pinned it, and what its pinner noted of the other end.
#[derive(Clone, Copy)]
pub struct Mark {
    pub word: ForkWord,
    pub pinner: Option<u32>,
    pub taken: bool,
    pub noted: Option<Datum>,
}

/// One edge: its mark, what rides on it, and what its pinner prepared to ride on it.
///
/// While an actor has it pinned that has committed, `prepared` rides on it, and `content` is what
/// did before.
#[derive(Drop)]
pub struct Fork<A> {
    pub mark: Mark,
    pub content: Carried<A>,
    pub prepared: Carried<A>,
}

impl<A> Carried<A> {
    /// Whether a message waits for this end.
    pub fn waits(&self, me: Side) -> bool
        ensures { result ≡ is_some (at_side me self.now).message }
    {
        match me {
            Side::Source => self.source.message.is_some(),
            Side::Target => self.target.message.is_some(),
        }
    }

    /// What waits for this end.
    pub fn ride(&self, me: Side) -> &Ride<A>
        ensures { result.now ≡ at_side me self.now }
    {
        match me {
            Side::Source => &self.source,
            Side::Target => &self.target,
        }
    }
}
