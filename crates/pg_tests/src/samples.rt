//! The graphs that several tests use.

use pg_base::Limits;
use pg_graph::{Graph, GraphBuilder};
use std::alloc::Global;
use std::process::Abort;
use std::test::Fail;

/// The graph of these edges, of weight 1.
pub fn graph_of(rt: &impl Abort, alloc: Global, edges: &[(u32, u32)]) -> Result<Graph, Fail> {
    let mut builder = GraphBuilder::new(alloc, Limits::standard())?;
    for (source, target) in edges {
        assert!(rt; builder.loops() < 9);
        builder.edge(*source, *target, 1)?;
    }
    Ok(builder.finish()?)
}
