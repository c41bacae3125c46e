//! What a fork carries.
ghost use Rattle.std.specs.Prelude.{◌≡◌, ◌<◌, length};
ghost use Rattle.pg_meals.specs.Shown.{carried_on};
ghost use Rattle.pg_meals.specs.Boards.{IsBoard};

use crate::board::Board;
use crate::fork::Carried;
use pg_graph::Graph;

impl<A: Drop> Board<A> {
    /// What the fork of an edge carries.
    ///
    /// An entry leaves the forks of its vertex alone. From then until each goes back it carries
    /// what was prepared for it, and its `content` is what it carried before.
    pub fn content(&self, graph: &Graph, edge: u32) -> &Carried<A>
        requires edge { edge < length graph.now.edges }
        requires board { IsBoard graph.now self.now }
        ensures { result.now ≡ carried_on self.now edge }
    {
        let fork = &self.forks[edge as usize];
        let Some(pinner) = fork.mark.pinner else {
            return &fork.content;
        };
        if self.actors[pinner as usize].committed {
            &fork.prepared
        } else {
            &fork.content
        }
    }
}
