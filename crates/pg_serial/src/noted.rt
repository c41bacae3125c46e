//! Over how many edges vertices gather.
ghost use Rattle.std.specs.Prelude.{◌≡◌, ◌^◌, ◌<◌, ◌≤◌, false, length};
ghost use Rattle.std.specs.Prelude.{slice_index_or, sum_by, filter, if◌then◌else◌};
ghost use Rattle.pg_graph.specs.Multigraph.{vertices};
ghost use Rattle.pg_law.specs.Round.{edges_over};

use pg_graph::{Dir, Graph};

/// How many edges a direction takes in at a vertex.
pub fn degree_over(graph: &Graph, dir: Dir, v: u32) -> u64
    requires { v < length graph.now.ids }
    ensures value { result ≡ length (edges_over dir graph.now v) }
    ensures few { result ≤ 2 ^ 24 }
{
    let _ = graph.vertices();
    let info = graph.info(v);
    match dir {
        Dir::NoEdges => 0,
        Dir::InEdges => info.in_degree as u64,
        Dir::OutEdges => info.out_degree as u64,
        Dir::AllEdges => info.in_degree as u64 + info.out_degree as u64,
    }
}

/// The degree of a vertex, if it is noted.
fn noted_degree(graph: &Graph, dir: Dir, noted: &[bool], v: u32) -> u64
    requires v { v < length graph.now.ids }
    requires len { length noted.now ≡ length graph.now.ids }
    ensures value { result ≡ (if slice_index_or noted.now v false
        then length (edges_over dir graph.now v) else 0) }
    ensures few { result ≤ 2 ^ 24 }
{
    if noted[v as usize] {
        degree_over(graph, dir, v)
    } else {
        0
    }
}

/// Over how many edges the vertices gather that are noted, each once. `noted` is indexed by vertices.
pub fn noted_gathers(graph: &Graph, dir: Dir, noted: &[bool]) -> u64
    requires len { length noted.now ≡ length graph.now.ids }
    ensures { result ≡ sum_by (λ v. length (edges_over dir graph.now v))
        (filter (λ v. slice_index_or noted.now v false) (vertices graph.now)) }
{
    let mut sum = 0u64;
    for v in 0..graph.vertices() {
        sum += noted_degree(graph, dir, noted, v);
    }
    sum
}
