//! A path whose edges lie on three workers, and a worker with parallel edges.
use crate::samples::cut_by;
use pg_base::Limits;
use pg_edge_store::EdgeStore;
use pg_graph::{Dir, Graph, GraphBuilder};
use std::alloc::Global;
use std::process::Abort;
use std::test::Fail;

/// The graph of these edges. Weights are 5, 6, .. in their order.
fn weighted(rt: &impl Abort, alloc: Global, edges: &[(u32, u32)]) -> Result<Graph, Fail> {
    let mut builder = GraphBuilder::new(alloc, Limits::standard())?;
    let mut weight = 5;
    for (src_id, dst_id) in edges {
        assert!(rt; builder.loops() < 9);
        assert!(rt; weight < 14);
        builder.edge(*src_id, *dst_id, weight)?;
        weight += 1;
    }
    Ok(builder.finish()?)
}

/// The store of one worker of such a cut. Each edge has the word 7.
fn store_of(
    rt: &impl Abort,
    alloc: Global,
    edges: &[(u32, u32)],
    places: &[u8],
    worker: u8,
) -> Result<EdgeStore, Fail> {
    let graph = weighted(rt, alloc, edges)?;
    let cut = cut_by(rt, alloc, &graph, 3, places)?;
    let words = vec![in alloc; 7u64; graph.edges().len()]?;
    assert!(rt; worker < cut.workers());
    Ok(EdgeStore::of(alloc, &graph, &cut, worker, words.as_slice())?)
}

/// Asserts that the edge at a place has this number in the graph, and stands between these
/// replicas.
fn assert_edge(rt: &impl Abort, store: &EdgeStore, i: u32, number: u32, src: u32, dst: u32) {
    assert!(rt; i < store.len());
    let local = store.local(i);
    assert_eq!(rt; store.edge(i), number);
    assert_eq!(rt; local.src, src);
    assert_eq!(rt; local.dst, dst);
    assert!(rt; number < 9);
    assert_eq!(rt; local.weight, number + 5);
}

/// Asserts that the row of a replica has these places.
fn assert_row(rt: &impl Abort, store: &EdgeStore, replica: u32, places: &[u32]) {
    assert!(rt; replica < store.replicas());
    assert_eq!(rt; store.row(replica), places);
}

/// Asserts that these are the places around a vertex.
fn assert_around(rt: &impl Abort, store: &EdgeStore, v: u32, dir: Dir, places: &[u32]) {
    let mut at = 0;
    for place in store.around(v, dir) {
        assert!(rt; at < places.len());
        assert_eq!(rt; place, places[at]);
        at += 1;
    }
    assert_eq!(rt; at, places.len());
}

#[test]
fn a_worker_has_its_edge_alone(rt: HostRuntime) -> Result<(), Fail> {
    let edges = [(1, 2), (2, 3), (3, 4)];
    let store = store_of(&rt, rt.alloc(), edges.as_slice(), &[0, 1, 2], 1)?;
    assert_eq!(rt; (store.len(), store.replicas()), (1, 2));
    assert_edge(&rt, &store, 0, 1, 0, 1);
    assert_row(&rt, &store, 0, &[0]);
    assert_row(&rt, &store, 1, &[0]);
    assert_around(&rt, &store, 0, Dir::AllEdges, &[]);
    assert_around(&rt, &store, 1, Dir::OutEdges, &[0]);
    assert_around(&rt, &store, 1, Dir::InEdges, &[]);
    assert_around(&rt, &store, 1, Dir::NoEdges, &[]);
    assert_around(&rt, &store, 2, Dir::InEdges, &[0]);
    Ok(())
}

#[test]
fn one_word_is_set(rt: HostRuntime) -> Result<(), Fail> {
    let edges = [(1, 2), (2, 3), (3, 4)];
    let mut store = store_of(&rt, rt.alloc(), edges.as_slice(), &[0, 1, 1], 1)?;
    assert!(rt; !store.is_empty());
    assert_eq!(rt; store.len(), 2);
    store.set_word(1, 5);
    assert_eq!(rt; (store.word(0), store.word(1)), (7, 5));
    Ok(())
}

// 3 to 1 comes twice, and 1 to 3 once; the edge from 1 to 2 lies elsewhere.
#[test]
fn places_ascend_at_each_vertex(rt: HostRuntime) -> Result<(), Fail> {
    let edges = [(3, 1), (1, 2), (1, 3), (2, 3), (3, 1)];
    let store = store_of(&rt, rt.alloc(), edges.as_slice(), &[1, 0, 1, 1, 1], 1)?;
    assert_edge(&rt, &store, 0, 0, 2, 0);
    assert_edge(&rt, &store, 2, 3, 1, 2);
    assert_edge(&rt, &store, 3, 4, 2, 0);
    assert_row(&rt, &store, 0, &[0, 1, 3]);
    assert_row(&rt, &store, 2, &[0, 1, 2, 3]);
    assert_around(&rt, &store, 0, Dir::InEdges, &[0, 3]);
    assert_around(&rt, &store, 1, Dir::AllEdges, &[2]);
    assert_around(&rt, &store, 2, Dir::InEdges, &[1, 2]);
    assert_around(&rt, &store, 2, Dir::OutEdges, &[0, 3]);
    Ok(())
}
