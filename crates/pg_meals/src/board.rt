//! The core as lists.
use crate::actor::Actor;
use crate::fork::Fork;
use crate::seat::{Replica, Seat};
use pg_law::JournalEntry;

/// The words, contents, places and records of the core.
///
/// `seats` and `replicas` are indexed by vertices, `forks` and `workers` by edges, `actors` by the
/// numbers of actors. `workers[e]` is the worker of the edge `e`, and `replicas[v]` has a copy for
/// each worker in the span of the vertex `v`. `turn` is the actor that may append to the journal,
/// which never gets longer than `fuel`.
#[derive(Drop)]
pub struct Board<A> {
    pub seats: Vec<Seat<A>>,
    pub forks: Vec<Fork<A>>,
    pub workers: Vec<u8>,
    pub replicas: Vec<Vec<Replica>>,
    pub actors: Vec<Actor>,
    pub turn: Option<u32>,
    pub journal: Vec<JournalEntry>,
    pub fuel: u32,
    pub caches: bool,
}
