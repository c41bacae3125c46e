//! A board at the start.
ghost use Rattle.std.specs.Prelude.{◌≡◌, ◌<◌, ◌≤◌, ◌^◌, ◌≢◌, ℕ, length, map, slice_index, is_some, IfOk};
ghost use Rattle.std.specs.List.{range_with_len};
ghost use Rattle.pg_graph.specs.Multigraph.{edge_numbers};
ghost use Rattle.pg_cut.specs.Cut.{IsCutOf};
ghost use Rattle.pg_cut.specs.WorkerSet.{workers_in};
ghost use Rattle.pg_cut.specs.ByWorker.{lists_in};
ghost use Rattle.pg_meals.specs.Setting.{cell_at};
ghost use Rattle.pg_meals.specs.Entries.{no_load};
ghost use Rattle.pg_meals.specs.Opening.{new_fork as fork_of, fork_on, seat_on, copy_of, row_on};
ghost use Rattle.pg_meals.specs.Opened.{cells_in, IsOpened};
ghost use Rattle.pg_meals.specs.Boards.{IsBoard};

use crate::actor::Actor;
use crate::board::Board;
use crate::fork::{Carried, Fork, Mark, Ride};
use crate::seat::{Replica, Seat};
use pg_cut::{Cut, has_worker, size};
use pg_delta::CacheCell;
use pg_forks::ForkWord;
use pg_graph::{Edge, Graph, Side};
use pg_law::{Datum, Delta, EdgeWords, State};
use std::alloc::{AllocError, Global};
use std::mem::replace;

/// What a fork carries that has its word alone.
fn bare<A: Drop>(word: u64) -> Carried<A>
    ensures { result ≡ no_load word }
{
    Carried {
        word,
        source: Ride {
            message: None,
            delta: Delta::Nothing,
        },
        target: Ride {
            message: None,
            delta: Delta::Nothing,
        },
    }
}

/// A fork at rest, dirty, at the end whose vertex has the larger number.
fn new_fork<A: Drop>(edge: Edge, word: u64) -> Fork<A>
    ensures { result ≡ fork_of edge word }
{
    let side = if edge.src < edge.dst {
        Side::Target
    } else {
        Side::Source
    };
    Fork {
        mark: Mark {
            word: ForkWord {
                side,
                dirty: true,
                asked: false,
                pinned: false,
            },
            pinner: None,
            taken: false,
            noted: None,
        },
        content: bare(word),
        prepared: bare(word),
    }
}

/// A fork for each edge, with its word.
pub fn forks_of<A: Drop>(
    alloc: Global,
    graph: &Graph,
    words: &EdgeWords,
) -> Result<Vec<Fork<A>>, AllocError>
    requires { length words.now ≡ length graph.now.edges }
    ensures { IfOk result (λ forks.
        forks.items ≡ map (fork_on graph.now words.now) (edge_numbers graph.now)) }
{
    let edges = graph.edges();
    let mut forks = Vec::with_capacity(alloc, edges.len())?;
    for e in 0..edges.len() as u32 {
        forks.push(new_fork(edges[e as usize], words.word(e)))?;
    }
    Ok(forks)
}

/// Takes the cell of a vertex out of a list, which may be empty.
fn take_cell<A: Drop>(cells: &mut Vec<CacheCell<A>>, v: usize) -> CacheCell<A>
    ensures cell { result ≡ cell_at cells.old.items v }
    ensures rest { (u : ℕ) → u ≢ v → cell_at cells.new.items u ≡ cell_at cells.old.items u }
{
    if v < cells.len() {
        replace(&mut cells[v], CacheCell::new())
    } else {
        CacheCell::new()
    }
}

/// A seat for each vertex, with what the state and the cells have there.
pub fn seats_of<A: Drop>(
    alloc: Global,
    state: &State,
    mut cells: Vec<CacheCell<A>>,
) -> Result<Vec<Seat<A>>, AllocError>
    requires { length state.now.messages ≡ length state.now.values }
    ensures { IfOk result (λ seats. seats.items
        ≡ map (seat_on state.now cells.items) (range_with_len 0 (length state.now.values))) }
{
    let mut seats = Vec::with_capacity(alloc, state.values.len())?;
    for v in 0..state.values.len() {
        let cell = take_cell(&mut cells, v);
        seats.push(Seat {
            holder: None,
            datum: state.values[v],
            message: state.messages[v],
            cell,
            prepared: CacheCell::new(),
            last: 0,
        })?;
    }
    Ok(seats)
}

/// The worker of each edge.
pub fn workers_of(alloc: Global, cut: &Cut, edges: u32) -> Result<Vec<u8>, AllocError>
    requires { length cut.now.place ≡ edges }
    ensures { IfOk result (λ workers.
        workers.items ≡ map (slice_index cut.now.place) (range_with_len 0 edges)) }
{
    let mut workers = Vec::with_capacity(alloc, edges as usize)?;
    for e in 0..edges {
        workers.push(cut.place(e))?;
    }
    Ok(workers)
}

/// A copy of a datum for each worker of a span.
fn row_of(alloc: Global, span: u64, datum: Datum) -> Result<Vec<Replica>, AllocError>
    ensures { IfOk result (λ row. row.items ≡ map (copy_of datum) (workers_in span)) }
{
    let mut row = Vec::with_capacity(alloc, size(span) as usize)?;
    for worker in 0..64 {
        if has_worker(span, worker) {
            row.push(Replica {
                worker,
                datum,
                stale: false,
            })?;
        }
    }
    Ok(row)
}

/// The copies of each vertex on the workers of its span.
pub fn rows_of(alloc: Global, cut: &Cut, values: &[Datum]) -> Result<Vec<Vec<Replica>>, AllocError>
    requires count { length values.now ≡ length cut.now.spans }
    requires few { length values.now ≤ 2 ^ 22 }
    ensures { IfOk result (λ rows. lists_in rows.items
        ≡ map (row_on cut.now values.now) (range_with_len 0 (length values.now))) }
{
    let mut rows = Vec::with_capacity(alloc, values.len())?;
    for v in 0..values.len() as u32 {
        rows.push(row_of(alloc, cut.span(v), values[v as usize])?)?;
    }
    Ok(rows)
}

/// The cells that were handed in, or none.
fn cells_of<A: Drop>(alloc: Global, caches: Option<Vec<CacheCell<A>>>) -> Vec<CacheCell<A>>
    ensures { result.items ≡ cells_in caches }
{
    match caches {
        Some(cells) => cells,
        None => Vec::new(alloc),
    }
}

impl<A: Drop> Board<A> {
    /// The board at the start: every vertex, every fork and the turn are free, and no actor has
    /// anything in hand. Each replica has the datum of its vertex.
    ///
    /// It takes the room of a journal of `fuel` entries.
    pub fn open(
        alloc: Global,
        graph: &Graph,
        cut: &Cut,
        state: &State,
        caches: Option<Vec<CacheCell<A>>>,
        actors: u32,
        fuel: u32,
    ) -> Result<Board<A>, AllocError>
        requires cut { IsCutOf graph.now cut.now }
        requires values { length state.now.values ≡ length graph.now.ids }
        requires messages { length state.now.messages ≡ length graph.now.ids }
        requires words { length state.now.edges ≡ length graph.now.edges }
        requires cells { length (cells_in caches) ≤ length graph.now.ids }
        ensures opened { IfOk result (λ board.
            IsOpened graph.now cut.now state.now (cells_in caches) board) }
        ensures board { IfOk result (λ board. IsBoard graph.now board) }
        ensures actors { IfOk result (λ board. length board.actors.items ≡ actors) }
        ensures fuel { IfOk result (λ board. board.fuel ≡ fuel) }
        ensures caches { IfOk result (λ board. board.caches ≡ is_some caches) }
    {
        let keeps = caches.is_some();
        let edges = graph.edges().len() as u32;
        let cells = cells_of(alloc, caches);
        Ok(Board {
            seats: seats_of(alloc, state, cells)?,
            forks: forks_of(alloc, graph, &state.edges)?,
            workers: workers_of(alloc, cut, edges)?,
            replicas: rows_of(alloc, cut, state.values.as_slice())?,
            actors: vec![in alloc; Actor::idle(); actors as usize]?,
            turn: None,
            journal: Vec::with_capacity(alloc, fuel as usize)?,
            fuel,
            caches: keeps,
        })
    }
}
