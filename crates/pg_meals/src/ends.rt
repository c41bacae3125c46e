//! Where an actor stands.
ghost use Rattle.std.specs.Prelude.{◌<◌, length};
ghost use Rattle.pg_meals.specs.Entries.{IsSideOf};

use crate::board::Board;
use pg_graph::{Graph, Side};

impl<A: Drop> Board<A> {
    /// The end of an edge at which the actor's vertex stands, where it stands at one.
    pub fn side_of(&self, graph: &Graph, actor: u32, edge: u32) -> Option<Side>
        requires actor { actor < length self.now.actors.items }
        requires edge { edge < length graph.now.edges }
        ensures { IsSideOf graph.now self.now.actors.items actor edge result }
    {
        let vertex = self.actors[actor as usize].vertex?;
        let ends = graph.edges()[edge as usize];
        if ends.src == vertex {
            Some(Side::Source)
        } else if ends.dst == vertex {
            Some(Side::Target)
        } else {
            None
        }
    }
}
