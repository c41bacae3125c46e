//! Taking the turn, and giving it.
ghost use Rattle.std.specs.Prelude.{◌≡◌, ◌<◌, length, MatchBool, IsFalse};
ghost use Rattle.pg_meals.specs.Acts.{Turn, Give, Moved};
ghost use Rattle.pg_meals.specs.Tallies.{IsTallied};
ghost use Rattle.pg_meals.specs.Boards.{IsBoard, Frame, Acts, MayNot};

use crate::actor::Actor;
use crate::board::Board;
use pg_graph::Graph;

impl<A: Drop> Board<A> {
    /// The actor takes the turn, once it has pinned all forks of its vertex.
    pub fn take_turn(&mut self, graph: &Graph, actor: u32) -> bool
        requires actor { actor < length self.old.actors.items }
        requires board { IsBoard graph.now self.old }
        ensures acts { MatchBool result
            (Acts graph.now self.old actor Turn self.new Moved)
            (self.new ≡ self.old) }
        ensures refused { IsFalse result → MayNot graph.now self.old actor Turn }
        ensures frame { Frame self.old self.new }
        ensures tallied { IsTallied self.new }
    {
        let record = self.actors[actor as usize];
        if record.committed {
            return false;
        }
        if self.turn.is_some() {
            return false;
        }
        let Some(vertex) = record.vertex else {
            return false;
        };
        if record.pinned != graph.edges_of(vertex).len() {
            return false;
        }
        self.turn = Some(actor);
        self.actors[actor as usize] = Actor {
            turn: true,
            ..record
        };
        true
    }

    /// The actor gives the turn.
    pub fn give(&mut self, graph: &Graph, actor: u32) -> bool
        requires actor { actor < length self.old.actors.items }
        requires board { IsBoard graph.now self.old }
        ensures acts { MatchBool result
            (Acts graph.now self.old actor Give self.new Moved)
            (self.new ≡ self.old) }
        ensures refused { IsFalse result → MayNot graph.now self.old actor Give }
        ensures frame { Frame self.old self.new }
        ensures tallied { IsTallied self.new }
    {
        let record = self.actors[actor as usize];
        if !record.turn {
            return false;
        }
        self.turn = None;
        self.actors[actor as usize] = Actor {
            turn: false,
            ..record
        };
        true
    }
}
