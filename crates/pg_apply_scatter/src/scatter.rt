//! What one worker scatters.
ghost use Rattle.std.specs.Prelude.{◌≡◌, ◌++◌, length, All, IfOk, IfSome, OnOk};
ghost use Rattle.std.specs.Bool.{OnTrue};
ghost use Rattle.pg_graph.specs.Multigraph.{Multigraph};
ghost use Rattle.pg_law.specs.Carries.{AreCarries};
ghost use Rattle.pg_edge_store.specs.Store.{IsOver, places_around};
ghost use Rattle.pg_gather.specs.Partials.{IsReadable};
ghost use Rattle.pg_apply_scatter.specs.Places.{ArePlaces};
ghost use Rattle.pg_apply_scatter.specs.Sending.{IsSentIn, words_after, sent_from};
ghost use Rattle.pg_apply_scatter.specs.Sending.{listing};
ghost use Rattle.pg_apply_scatter.specs.Delivering.{DeliverTheSame, StandsFor};

use crate::dense::scatter_desks;
use crate::sent::Sent;
use crate::visit::{push_visits, visit_place};
use pg_edge_store::EdgeStore;
use pg_graph::{Dir, Graph};
use pg_law::{VertexProgram, laws_of};
use pg_mirrors::MirrorTable;
use std::alloc::{AllocError, Global};

/// Visits all edges of a worker, ascending. A visit for a vertex without a carry changes nothing.
fn scatter_all<P: VertexProgram>(
    alloc: Global,
    program: &P,
    graph: &Graph,
    store: &mut EdgeStore,
    mirrors: &MirrorTable,
    carries: &[Option<P::Carry>],
) -> Result<Vec<Sent<P::Acc>>, AllocError>
    requires readable { IsReadable (P.meaning program.now) graph.now store.old mirrors.now }
    requires carries { AreCarries (P.meaning program.now) graph.now carries.now }
    ensures words { let p = P.meaning program.now in OnOk result (store.new ≡ record store.old {
      words = words_after p graph.now mirrors.now carries.now store.old;
    }) }
    ensures sent { let p = P.meaning program.now in IfOk result (λ sent.
        sent.items ≡ sent_from p graph.now mirrors.now carries.now store.old) }
{
    let mut sent = Vec::new(alloc);
    for place in 0..store.len() {
        let visits = visit_place(alloc, program, graph, store, mirrors, carries, place)?;
        push_visits(&mut sent, visits, true)?;
    }
    Ok(sent)
}

/// Appends the places around a vertex, as long as there are fewer than a limit. False if not all of
/// them were appended.
fn append_around(
    store: &EdgeStore,
    v: u32,
    dir: Dir,
    limit: usize,
    places: &mut Vec<u32>,
) -> Result<bool, AllocError>
    ensures { (g : Multigraph) → IsOver g store.now → IfOk result (λ all. OnTrue all
        (places.new.items ≡ places.old.items ++ places_around g store.now.numbers v dir)) }
{
    for place in store.around(v, dir) {
        if places.len() >= limit {
            return Ok(false);
        }
        places.push(place)?;
    }
    Ok(true)
}

/// The places of the edges over which the vertices with a carry scatter, vertex by vertex. None if
/// they are more than a limit.
fn places_of<P: VertexProgram>(
    alloc: Global,
    program: &P,
    graph: &Graph,
    store: &EdgeStore,
    carries: &[Option<P::Carry>],
    limit: usize,
) -> Result<Option<Vec<u32>>, AllocError>
    requires over { IsOver graph.now store.now }
    requires carries { length carries.now ≡ length graph.now.ids }
    ensures { let p = P.meaning program.now in IfOk result (λ found. IfSome found (λ places.
        ArePlaces graph.now store.now.numbers p.scatter_edges carries.now
        (length graph.now.ids) places.items)) }
{
    let dir = program.scatter_edges();
    let mut places = Vec::new(alloc);
    for v in 0..graph.vertices() {
        if carries[v as usize].is_none() {
            continue;
        }
        if !append_around(store, v, dir, limit, &mut places)? {
            return Ok(None);
        }
    }
    Ok(Some(places))
}

/// Visits the edges at these places, ascending. An edge that two vertices scatter over is listed
/// twice and visited once.
fn scatter_places<P: VertexProgram>(
    alloc: Global,
    program: &P,
    graph: &Graph,
    store: &mut EdgeStore,
    mirrors: &MirrorTable,
    carries: &[Option<P::Carry>],
    mut places: Vec<u32>,
    with_deltas: bool,
) -> Result<Vec<Sent<P::Acc>>, AllocError>
    requires readable { IsReadable (P.meaning program.now) graph.now store.old mirrors.now }
    requires carries { AreCarries (P.meaning program.now) graph.now carries.now }
    requires places { let p = P.meaning program.now in
        ArePlaces graph.now store.old.numbers p.scatter_edges carries.now
        (length graph.now.ids) places.items }
    ensures words { let p = P.meaning program.now in OnOk result (store.new ≡ record store.old {
      words = words_after p graph.now mirrors.now carries.now store.old;
    }) }
    ensures sent { let p = P.meaning program.now in IfOk result (λ sent. sent.items ≡
        listing with_deltas (sent_from p graph.now mirrors.now carries.now store.old)) }
{
    let _ = graph.vertices();
    let _ = store.len();
    places.sort_unstable();
    let mut sent = Vec::new(alloc);
    let mut next = 0;
    let ascending = places.as_slice();
    for place in ascending {
        if *place < next {
            continue;
        }
        let visits = visit_place(alloc, program, graph, store, mirrors, carries, *place)?;
        push_visits(&mut sent, visits, with_deltas)?;
        next = *place + 1;
    }
    Ok(sent)
}

/// Visits the edges of a worker, at the vertices with a carry alone where these are few. Where they
/// are many and nobody asks for deltas, the signals for each vertex are combined.
fn visit_edges<P: VertexProgram>(
    alloc: Global,
    program: &P,
    graph: &Graph,
    store: &mut EdgeStore,
    mirrors: &MirrorTable,
    carries: &[Option<P::Carry>],
    with_deltas: bool,
) -> Result<Vec<Sent<P::Acc>>, AllocError>
    requires readable { IsReadable (P.meaning program.now) graph.now store.old mirrors.now }
    requires carries { AreCarries (P.meaning program.now) graph.now carries.now }
    ensures words { let p = P.meaning program.now in OnOk result (store.new ≡ record store.old {
      words = words_after p graph.now mirrors.now carries.now store.old;
    }) }
    ensures sent { let p = P.meaning program.now in IfOk result (λ sent. StandsFor p with_deltas
        sent.items (sent_from p graph.now mirrors.now carries.now store.old)) }
    ensures own { IfOk result (λ sent.
        All (IsSentIn (P.meaning program.now) (length graph.now.ids)) sent.items) }
{
    laws_of(program);
    let _ = graph.vertices();
    let limit = store.len() as usize / 4;
    match places_of(alloc, program, graph, store, carries, limit)? {
        Some(places) => scatter_places(
            alloc,
            program,
            graph,
            store,
            mirrors,
            carries,
            places,
            with_deltas,
        ),
        None => {
            if with_deltas {
                scatter_all(alloc, program, graph, store, mirrors, carries)
            } else {
                scatter_desks(alloc, program, graph, store, mirrors, carries)
            }
        }
    }
}

/// Visits the edges of a worker, ascending: each for its source first, and then for its target,
/// where that vertex has a carry and the edge is a scatter edge of it.
///
/// The answer is what the visits send, in this order, and the store has the words after them. After
/// `Err`, which is want of memory, some words may be those before and some those after.
pub fn scatter_worker<P: VertexProgram>(
    alloc: Global,
    program: &P,
    graph: &Graph,
    store: &mut EdgeStore,
    mirrors: &MirrorTable,
    carries: &[Option<P::Carry>],
) -> Result<Vec<Sent<P::Acc>>, AllocError>
    requires readable { IsReadable (P.meaning program.now) graph.now store.old mirrors.now }
    requires carries { AreCarries (P.meaning program.now) graph.now carries.now }
    ensures words { let p = P.meaning program.now in OnOk result (store.new ≡ record store.old {
      words = words_after p graph.now mirrors.now carries.now store.old;
    }) }
    ensures sent { let p = P.meaning program.now in IfOk result (λ sent.
        sent.items ≡ sent_from p graph.now mirrors.now carries.now store.old) }
    ensures own { IfOk result (λ sent.
        All (IsSentIn (P.meaning program.now) (length graph.now.ids)) sent.items) }
{
    visit_edges(alloc, program, graph, store, mirrors, carries, true)
}

/// Visits the edges of a worker, ascending: each for its source first, and then for its target,
/// where that vertex has a carry and the edge is a scatter edge of it.
///
/// The answer is signals without deltas, which deliver the same as all that the visits send: as much
/// as an engine needs that keeps no gathers (`equal_signals_deliver_equally`). Left open: whether
/// they are those of the visits, in this order, or those for one vertex are combined into one. The
/// store has the words after the visits. After `Err`, which is want of memory, some words may be
/// those before and some those after.
pub fn scatter_signals<P: VertexProgram>(
    alloc: Global,
    program: &P,
    graph: &Graph,
    store: &mut EdgeStore,
    mirrors: &MirrorTable,
    carries: &[Option<P::Carry>],
) -> Result<Vec<Sent<P::Acc>>, AllocError>
    requires readable { IsReadable (P.meaning program.now) graph.now store.old mirrors.now }
    requires carries { AreCarries (P.meaning program.now) graph.now carries.now }
    ensures words { let p = P.meaning program.now in OnOk result (store.new ≡ record store.old {
      words = words_after p graph.now mirrors.now carries.now store.old;
    }) }
    ensures sent { let p = P.meaning program.now in IfOk result (λ sent. DeliverTheSame p
        sent.items (sent_from p graph.now mirrors.now carries.now store.old)) }
    ensures own { IfOk result (λ sent.
        All (IsSentIn (P.meaning program.now) (length graph.now.ids)) sent.items) }
{
    visit_edges(alloc, program, graph, store, mirrors, carries, false)
}
