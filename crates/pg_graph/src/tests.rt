//! A graph of five edges, a loop and a lone vertex, and a builder at its limits.
use crate::{BuildError, Edge, Graph, GraphBuilder, VertexInfo};
use pg_base::Limits;
use std::alloc::Global;
use std::process::Abort;
use std::test::Fail;

/// Adds edges, where `(src_id, dst_id, weight)` stands for one.
fn add(
    rt: &impl Abort,
    builder: &mut GraphBuilder,
    edges: &[(u32, u32, u32)],
) -> Result<(), BuildError> {
    for (src_id, dst_id, weight) in edges {
        assert!(rt; builder.loops() < 9);
        builder.edge(*src_id, *dst_id, *weight)?;
    }
    Ok(())
}

/// Ids come out of order, 30 to 10 comes twice, and 20 has a loop.
fn sample(rt: &impl Abort, alloc: Global) -> Result<Graph, Fail> {
    let mut builder = GraphBuilder::new(alloc, Limits::standard())?;
    let edges = [
        (30, 10, 5),
        (10, 20, 1),
        (20, 20, 9),
        (30, 10, 7),
        (30, 20, 2),
    ];
    add(rt, &mut builder, &edges)?;
    builder.vertex(5)?;
    Ok(builder.finish()?)
}

/// Compares all edges with these, where `(src, dst, weight)` stands for one.
fn compare_edges(rt: &impl Abort, graph: &Graph, edges: &[(u32, u32, u32)]) {
    assert_eq!(rt; graph.edges().len(), edges.len());
    for (e, (src, dst, weight)) in edges.iter().enumerate() {
        let want = Edge {
            src: *src,
            dst: *dst,
            weight: *weight,
        };
        assert_eq!(rt; graph.edges().get(e), Some(&want), "edge {e}");
    }
}

#[test]
fn vertices_are_numbered_by_id_and_edges_as_they_came(rt: HostRuntime) -> Result<(), Fail> {
    let graph = sample(&rt, rt.alloc())?;
    assert_eq!(rt; graph.vertices(), 4);
    assert_eq!(rt; graph.loops(), 1);
    compare_edges(&rt, &graph, &[(3, 1, 5), (1, 2, 1), (3, 1, 7), (3, 2, 2)]);
    let numbers = [(5, Some(0)), (30, Some(3)), (20, Some(2)), (7, None)];
    for (id, number) in numbers {
        assert_eq!(rt; graph.number_of(id), number, "id {id}");
    }
    Ok(())
}

#[test]
fn each_vertex_has_its_degrees_and_edges(rt: HostRuntime) -> Result<(), Fail> {
    let graph = sample(&rt, rt.alloc())?;
    assert_eq!(rt; graph.vertices(), 4);
    let rows: [(u32, u32, u32, u32, &[u32]); 4] = [
        (0, 5, 0, 0, &[]),
        (1, 10, 2, 1, &[0, 1, 2]),
        (2, 20, 2, 0, &[1, 3]),
        (3, 30, 0, 3, &[0, 2, 3]),
    ];
    for (v, id, in_degree, out_degree, edges) in rows {
        let info = VertexInfo {
            id,
            in_degree,
            out_degree,
        };
        assert!(rt; v < graph.vertices());
        assert_eq!(rt; graph.info(v), info, "vertex {v}");
        assert_eq!(rt; graph.edges_of(v), edges, "vertex {v}");
    }
    assert_eq!(rt; graph.edges().len(), 4);
    let edge = graph.edge_info(2);
    assert_eq!(rt; (edge.src.id, edge.dst.id, edge.weight), (30, 10, 7));
    Ok(())
}

#[test]
fn ids_far_apart_are_numbered_in_order(rt: HostRuntime) -> Result<(), Fail> {
    let mut builder = GraphBuilder::new(rt.alloc(), Limits::standard())?;
    let edges = [
        (4_294_967_295, 9_000, 1),
        (7, 4_294_967_295, 1),
        (3_000_000, 7, 1),
        (9_000, 3_000_000, 1),
    ];
    add(&rt, &mut builder, &edges)?;
    let graph = builder.finish()?;
    compare_edges(&rt, &graph, &[(3, 1, 1), (0, 3, 1), (2, 0, 1), (1, 2, 1)]);
    Ok(())
}

#[test]
fn a_refusal_names_its_limit_and_changes_nothing(rt: HostRuntime) -> Result<(), Fail> {
    let limits = Limits {
        vertices: 2,
        edges: 1,
        bytes: 0,
    };
    let mut builder = GraphBuilder::new(rt.alloc(), limits)?;
    builder.edge(7, 3, 1)?;
    let vertices = Err(BuildError::Vertices { limit: 2 });
    let edges = Err(BuildError::Edges { limit: 1 });
    // Vertices come first, a loop adds its vertex, and it is no edge.
    for (src_id, dst_id, want) in [
        (7, 4, vertices),
        (4, 4, vertices),
        (3, 7, edges),
        (3, 3, Ok(())),
    ] {
        assert!(rt; builder.loops() < 9);
        assert_eq!(rt;
            builder.edge(src_id, dst_id, 1),
            want,
            "{src_id} to {dst_id}"
        );
    }
    for (id, want) in [(4, vertices), (7, Ok(()))] {
        assert_eq!(rt; builder.vertex(id), want, "vertex {id}");
    }
    let graph = builder.finish()?;
    assert_eq!(rt; (graph.vertices(), graph.edges().len()), (2, 1));
    assert_eq!(rt; graph.loops(), 1);
    Ok(())
}
