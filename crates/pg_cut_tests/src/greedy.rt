//! Small graphs whose places were worked out by hand from the four cases.
ghost use Rattle.std.specs.Prelude.{IfOk};
ghost use Rattle.pg_cut.specs.Cut.{IsCutOf};

use crate::samples::graph_of;
use pg_graph::Graph;
use pg_greedy::{GreedyCut, GreedyTable, Placed, coordinated, oblivious};
use std::alloc::Global;
use std::process::Abort;
use std::test::Fail;

/// The star of 100 edges from the vertex 0.
fn star(rt: &impl Abort, alloc: Global) -> Result<Graph, Fail> {
    let mut edges = Vec::new(alloc);
    for leaf in 1..101u32 {
        edges.push((0, leaf))?;
    }
    graph_of(rt, alloc, edges.as_slice())
}

/// An edge of 2,047 copies, and two edges from the vertex 3, the last of which is in a new batch.
fn copies(rt: &impl Abort, alloc: Global) -> Result<Graph, Fail> {
    let mut edges = Vec::new(alloc);
    for _copy in 0..2047u32 {
        edges.push((1, 2))?;
    }
    edges.push((3, 4))?;
    edges.push((3, 5))?;
    graph_of(rt, alloc, edges.as_slice())
}

/// What one table makes of all edges, in their order.
fn placed_by(
    rt: &impl Abort,
    alloc: Global,
    graph: &Graph,
    workers: u8,
    first: u8,
) -> Result<Vec<Placed>, Fail> {
    assert!(rt; workers <= 64);
    assert!(rt; first < workers);
    let mut table = GreedyTable::new(alloc, graph, workers, first)?;
    let mut placed = Vec::with_capacity(alloc, graph.edges().len())?;
    for e in 0..graph.edges().len() as u32 {
        placed.push(table.place(e))?;
    }
    Ok(placed)
}

/// A cut of as many loaders as it says, whose conditions are tested.
fn cut_by(
    rt: &impl Abort,
    alloc: Global,
    graph: &Graph,
    together: bool,
    workers: u8,
    loaders: u8,
) -> Result<GreedyCut, Fail>
    ensures { IfOk result (λ made. IsCutOf graph.now made.cut) }
{
    assert!(rt; workers >= 1);
    assert!(rt; workers <= 64);
    assert!(rt; loaders >= 1);
    assert!(rt; loaders <= 64);
    if together {
        Ok(coordinated(alloc, graph, workers, loaders)?)
    } else {
        Ok(oblivious(alloc, graph, workers, loaders)?)
    }
}

/// One table sends the edges to these workers, in these cases.
fn goes(
    rt: &impl Abort,
    alloc: Global,
    edges: &[(u32, u32)],
    workers: u8,
    first: u8,
    wanted: &[(u8, u8)],
) -> Result<(), Fail> {
    let graph = graph_of(rt, alloc, edges)?;
    let placed = placed_by(rt, alloc, &graph, workers, first)?;
    assert_eq!(rt; placed.len(), wanted.len());
    for e in 0..wanted.len() {
        assert_eq!(rt; (placed[e].worker, placed[e].case), wanted[e], "edge {e}");
    }
    Ok(())
}

#[test]
fn a_table_goes_by_case_and_then_by_load_and_order(rt: HostRuntime) -> Result<(), Fail> {
    let alloc = rt.alloc();
    let three = [(1, 2), (3, 4), (1, 3)];
    goes(&rt, alloc, &three, 2, 0, &[(0, 4), (1, 4), (0, 2)])?;
    let four = [(1, 2), (3, 4), (1, 3), (3, 5)];
    goes(&rt, alloc, &four, 2, 0, &[(0, 4), (1, 4), (1, 2), (1, 3)])?;
    let apart = [(1, 2), (3, 4), (5, 6)];
    goes(&rt, alloc, &apart, 3, 2, &[(2, 4), (0, 4), (1, 4)])?;
    let back = [(1, 2), (2, 1), (2, 3)];
    goes(&rt, alloc, &back, 3, 1, &[(1, 4), (1, 1), (1, 3)])
}

/// A cut sends the edges to these workers, and counts these cases.
fn cuts(
    rt: &impl Abort,
    alloc: Global,
    edges: &[(u32, u32)],
    together: bool,
    workers: u8,
    loaders: u8,
    places: &[u8],
    cases: [u64; 4],
) -> Result<(), Fail> {
    let graph = graph_of(rt, alloc, edges)?;
    let made = cut_by(rt, alloc, &graph, together, workers, loaders)?;
    assert_eq!(rt; made.cases, cases);
    for e in 0..places.len() {
        assert!(rt; e < graph.edges().len());
        assert_eq!(rt; made.cut.place(e as u32), places[e], "edge {e}");
    }
    Ok(())
}

#[test]
fn places_and_cases_are_those_of_loaders_together(rt: HostRuntime) -> Result<(), Fail> {
    let alloc = rt.alloc();
    let path = [(1, 2), (2, 3), (3, 4)];
    cuts(&rt, alloc, &path, true, 3, 3, &[0, 1, 2], [0, 0, 0, 3])?;
    cuts(&rt, alloc, &path, true, 3, 1, &[0, 0, 0], [0, 0, 2, 1])?;
    let twins = [(5, 6), (5, 6)];
    cuts(&rt, alloc, &twins, true, 2, 2, &[0, 1], [0, 0, 0, 2])?;
    cuts(&rt, alloc, &twins, true, 2, 1, &[0, 0], [1, 0, 0, 1])
}

#[test]
fn places_and_cases_are_those_of_loaders_alone(rt: HostRuntime) -> Result<(), Fail> {
    let alloc = rt.alloc();
    let three = [(1, 2), (3, 4), (1, 3)];
    cuts(&rt, alloc, &three, false, 2, 1, &[0, 1, 0], [0, 1, 0, 2])?;
    let four = [(1, 2), (3, 4), (1, 3), (3, 5)];
    cuts(&rt, alloc, &four, false, 2, 1, &[0, 1, 1, 1], [0, 1, 1, 2])?;
    let star = [(0, 1), (0, 2), (0, 3), (0, 4)];
    cuts(&rt, alloc, &star, false, 2, 2, &[0, 1, 0, 1], [0, 0, 2, 2])
}

/// That a cut with as many loaders as workers has these loads and replicas on its workers.
fn assert_held(
    rt: &impl Abort,
    alloc: Global,
    graph: &Graph,
    together: bool,
    held: &[(u32, u32)],
    cases: [u64; 4],
) -> Result<(), Fail> {
    assert!(rt; held.len() <= 64);
    let workers = held.len() as u8;
    let made = cut_by(rt, alloc, graph, together, workers, workers)?;
    assert_eq!(rt; made.cases, cases);
    for worker in 0..made.cut.workers() {
        assert!(rt; (worker as usize) < held.len());
        let found = (made.cut.load(worker), made.cut.held(worker));
        assert_eq!(rt; found, held[worker as usize], "worker {worker}");
    }
    Ok(())
}

#[test]
fn small_cuts_have_their_loads_and_replicas(rt: HostRuntime) -> Result<(), Fail> {
    let few = graph_of(&rt, rt.alloc(), &[(0, 1), (0, 2), (0, 3), (0, 4)])?;
    assert_held(
        &rt,
        rt.alloc(),
        &few,
        false,
        &[(2, 3), (2, 3)],
        [0, 0, 2, 2],
    )?;
    let twins = graph_of(&rt, rt.alloc(), &[(5, 6), (5, 6)])?;
    assert_held(
        &rt,
        rt.alloc(),
        &twins,
        true,
        &[(1, 2), (1, 2)],
        [0, 0, 0, 2],
    )?;
    let star = star(&rt, rt.alloc())?;
    let held = [(25, 26), (25, 26), (25, 26), (25, 26)];
    assert_held(&rt, rt.alloc(), &star, true, &held, [0, 0, 96, 4])
}

#[test]
fn only_loaders_that_merge_know_of_the_first_batch(rt: HostRuntime) -> Result<(), Fail> {
    let copies = copies(&rt, rt.alloc())?;
    let alone = [(1025, 4), (1024, 4)];
    assert_held(&rt, rt.alloc(), &copies, false, &alone, [2045, 0, 0, 4])?;
    let merged = [(1026, 5), (1023, 2)];
    assert_held(&rt, rt.alloc(), &copies, true, &merged, [2045, 0, 1, 3])
}

#[test]
fn the_hub_of_a_star_is_on_all_workers(rt: HostRuntime) -> Result<(), Fail> {
    let graph = star(&rt, rt.alloc())?;
    let made = cut_by(&rt, rt.alloc(), &graph, true, 4, 4)?;
    assert!(rt; graph.vertices() > 0);
    assert_eq!(rt; (made.cut.span(0), made.cut.master(0)), (0b1111, 0));
    Ok(())
}
