//! The graphs and cuts that several tests use.
ghost use Rattle.std.specs.Prelude.{◌≡◌, length, IfOk};
ghost use Rattle.pg_cut.specs.Cut.{IsCutOf};

use pg_base::Limits;
use pg_cut::Cut;
use pg_graph::{Graph, GraphBuilder};
use std::alloc::Global;
use std::process::Abort;
use std::test::Fail;

/// The edge from 1 to 2.
pub fn line(rt: &impl Abort, alloc: Global) -> Result<Graph, Fail>
    ensures vertices { IfOk result (λ graph. length graph.ids ≡ 2) }
    ensures edges { IfOk result (λ graph. length graph.edges ≡ 1) }
{
    let mut builder = GraphBuilder::new(alloc, Limits::standard())?;
    builder.edge(1, 2, 1)?;
    let graph = builder.finish()?;
    assert!(rt; graph.vertices() == 2);
    assert!(rt; graph.edges().len() == 1);
    Ok(graph)
}

/// The edges from 1 to 2, from 2 to 3 and from 3 to 4.
pub fn path(alloc: Global) -> Result<Graph, Fail> {
    let mut builder = GraphBuilder::new(alloc, Limits::standard())?;
    builder.edge(1, 2, 1)?;
    builder.edge(2, 3, 1)?;
    builder.edge(3, 4, 1)?;
    Ok(builder.finish()?)
}

/// The graph of these edges.
pub fn graph_of(rt: &impl Abort, alloc: Global, edges: &[(u32, u32)]) -> Result<Graph, Fail> {
    let mut builder = GraphBuilder::new(alloc, Limits::standard())?;
    for (src, dst) in edges {
        assert!(rt; builder.loops() < 9);
        builder.edge(*src, *dst, 1)?;
    }
    Ok(builder.finish()?)
}

/// A cut whose conditions are tested.
pub fn cut_by(
    rt: &impl Abort,
    alloc: Global,
    graph: &Graph,
    workers: u8,
    places: &[u8],
) -> Result<Cut, Fail>
    ensures { IfOk result (λ cut. IsCutOf graph.now cut) }
{
    assert!(rt; workers >= 1);
    assert!(rt; workers <= 64);
    assert!(rt; places.len() == graph.edges().len());
    let mut place = Vec::with_capacity(alloc, places.len())?;
    for worker in places {
        assert!(rt; *worker < workers);
        place.push(*worker)?;
    }
    Ok(Cut::of(alloc, graph, workers, place)?)
}
