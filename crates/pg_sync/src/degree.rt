//! How many gathers vertices take.
ghost use Rattle.std.specs.Prelude.{◌≡◌, ◌<◌, ◌≤◌, ◌^◌, length, sum_by, All};
ghost use Rattle.pg_law.specs.Round.{edges_over};

use pg_graph::{Dir, Graph};
use pg_law::VertexProgram;

/// How many edges a direction takes in at a vertex.
fn degree_over(graph: &Graph, dir: Dir, v: u32) -> u64
    requires { v < length graph.now.ids }
    ensures { result ≡ length (edges_over dir graph.now v) }
{
    let _ = graph.vertices();
    let info = graph.info(v);
    match dir {
        Dir::NoEdges => 0,
        Dir::InEdges => info.in_degree as u64,
        Dir::OutEdges => info.out_degree as u64,
        Dir::AllEdges => info.in_degree as u64 + info.out_degree as u64,
    }
}

/// Over how many edges these vertices gather. Their degrees tell it, so no edge is looked at.
pub fn gathers_of<P: VertexProgram>(program: &P, graph: &Graph, wanted: &[u32]) -> u64
    requires within { All (λ v. v < length graph.now.ids) wanted.now }
    requires few { length wanted.now ≤ 2 ^ 22 }
    ensures { let p = P.meaning program.now in
        result ≡ sum_by (λ u. length (edges_over p.gather_edges graph.now u)) wanted.now }
{
    let _ = graph.vertices();
    let dir = program.gather_edges();
    let mut gathers = 0u64;
    for i in 0..wanted.len() {
        gathers += degree_over(graph, dir, wanted[i]);
    }
    gathers
}
