//! Room that is taken early.

use pg_delta::CacheCell;
use pg_graph::Graph;
use std::alloc::{AllocError, Global};

/// The room of what a table gives back and has no list for: the words of edges, and the cells of
/// vertices. Both lists are empty.
#[derive(Drop)]
pub struct Room<A> {
    pub words: Vec<u64>,
    pub cells: Vec<CacheCell<A>>,
}

impl<A: Drop> Room<A> {
    ghost use Rattle.std.specs.Prelude.{IfOk};
    ghost use Rattle.pg_meals.specs.Closing.{HasRoom};

    /// Room for a graph. That of cells is taken only with caches.
    pub fn of(alloc: Global, graph: &Graph, caches: bool) -> Result<Room<A>, AllocError>
        ensures { IfOk result (HasRoom graph.now caches) }
    {
        let cells = if caches { graph.vertices() } else { 0 };
        Ok(Room {
            words: Vec::with_capacity(alloc, graph.edges().len())?,
            cells: Vec::with_capacity(alloc, cells as usize)?,
        })
    }
}
