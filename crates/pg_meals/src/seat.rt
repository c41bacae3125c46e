//! The seat of a vertex, and its copies on workers.
use pg_delta::CacheCell;
use pg_law::Datum;

/// One vertex: who has it in hand, what stands in its place, and the cell that its holder prepared.
///
/// `last` is the number of its last entry plus one, or 0.
#[derive(Drop)]
pub struct Seat<A> {
    pub holder: Option<u32>,
    pub datum: Datum,
    pub message: Option<u64>,
    pub cell: CacheCell<A>,
    pub prepared: CacheCell<A>,
    pub last: usize,
}

/// The copy of a vertex on a worker. It is stale while an entry has yet to be written to it.
#[derive(Clone, Copy)]
pub struct Replica {
    pub worker: u8,
    pub datum: Datum,
    pub stale: bool,
}
