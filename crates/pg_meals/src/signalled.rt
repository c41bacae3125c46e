//! The signalled vertices, and the first of them.
ghost use Rattle.std.specs.Prelude.{◌≡◌, ◌<◌, length, MatchBool, MatchOption};
ghost use Rattle.pg_meals.specs.Least.{IsAwaited, IsQuiet, IsLeastBelow, AllQuiet};
ghost use Rattle.pg_meals.specs.Boards.{IsBoard};

use crate::board::Board;
use crate::ranking::{Ranked, lesser};
use pg_graph::Graph;

impl<A: Drop> Board<A> {
    /// Whether a message waits for the vertex, in its place or on a fork.
    pub fn is_signalled(&self, graph: &Graph, vertex: u32) -> bool
        requires vertex { vertex < length graph.now.ids }
        requires board { IsBoard graph.now self.now }
        ensures { MatchBool result
            (IsAwaited graph.now self.now vertex)
            (IsQuiet graph.now self.now vertex) }
    {
        if self.seats[vertex as usize].message.is_some() {
            return true;
        }
        for edge in graph.edges_of(vertex) {
            let side = graph.edges()[*edge as usize].side(vertex);
            if self.content(graph, *edge).waits(side) {
                return true;
            }
        }
        false
    }

    /// The signalled vertex of least rank, with its last entry.
    pub fn least_signalled(&self, graph: &Graph) -> Option<Ranked>
        requires { IsBoard graph.now self.now }
        ensures { MatchOption result
            (AllQuiet graph.now self.now (length graph.now.ids))
            (IsLeastBelow graph.now self.now (length graph.now.ids)) }
    {
        let mut first = None;
        for vertex in 0..graph.vertices() {
            if self.is_signalled(graph, vertex) {
                let last = self.seats[vertex as usize].last;
                first = Some(lesser(first, Ranked { vertex, last }));
            }
        }
        first
    }
}
