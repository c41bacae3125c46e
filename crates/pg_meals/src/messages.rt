//! Messages for one vertex.
ghost use Rattle.std.specs.Prelude.{◌≡◌, ◌<◌, ℕ, length, true};
ghost use Rattle.pg_graph.specs.Multigraph.{edge_at, is_at, edges_at};
ghost use Rattle.pg_law.specs.Laws.{IsOptional};
ghost use Rattle.pg_law.specs.Round.{join};
ghost use Rattle.pg_meals.specs.Plans.{ride_on, message_along};

use crate::fork::Fork;
use pg_graph::Graph;
use pg_law::{VertexProgram, laws_of};

/// Two messages for one vertex, as one.
pub fn join_messages<P: VertexProgram>(program: &P, a: Option<u64>, b: Option<u64>) -> Option<u64>
    requires a { IsOptional (P.meaning program.now).IsMessage a }
    requires b { IsOptional (P.meaning program.now).IsMessage b }
    ensures value { result ≡ join (P.meaning program.now).combine a b }
    ensures own { IsOptional (P.meaning program.now).IsMessage result }
{
    laws_of(program);
    match (a, b) {
        (None, b) => b,
        (a, None) => a,
        (Some(a), Some(b)) => Some(program.combine(a, b)),
    }
}

/// The message for a vertex: what waits in its place, with what waits on its forks.
pub fn message_for<P: VertexProgram>(
    program: &P,
    graph: &Graph,
    forks: &[Fork<P::Acc>],
    own: Option<u64>,
    vertex: u32,
) -> Option<u64>
    requires vertex { vertex < length graph.now.ids }
    requires forks { length forks.now ≡ length graph.now.edges }
    requires own { IsOptional (P.meaning program.now).IsMessage own }
    requires rides { (e : ℕ) → e < length graph.now.edges
        → is_at vertex (edge_at graph.now e) ≡ true
        → IsOptional (P.meaning program.now).IsMessage
        (ride_on graph.now forks.now vertex e).message }
    ensures value { result ≡ message_along (P.meaning program.now).combine graph.now forks.now
        vertex own (edges_at graph.now vertex) }
    ensures own { IsOptional (P.meaning program.now).IsMessage result }
{
    let edges = graph.edges();
    let around = graph.edges_of(vertex);
    let mut message = own;
    for e in around {
        let side = edges[*e as usize].side(vertex);
        let ride = forks[*e as usize].content.ride(side);
        message = join_messages(program, message, ride.message);
    }
    message
}
