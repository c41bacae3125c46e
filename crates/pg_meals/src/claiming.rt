//! Taking a vertex in hand, and dropping it.
ghost use Rattle.std.specs.Prelude.{◌≡◌, ◌<◌, length, MatchBool, IsFalse};
ghost use Rattle.pg_meals.specs.Acts.{Claim, Drop as DropAct, Moved};
ghost use Rattle.pg_meals.specs.Tallies.{IsTallied};
ghost use Rattle.pg_meals.specs.Boards.{IsBoard, Frame, Acts, MayNot};

use crate::actor::Actor;
use crate::board::Board;
use pg_graph::Graph;

impl<A: Drop> Board<A> {
    /// The actor takes the vertex in hand. A message there is evidence.
    pub fn claim(&mut self, graph: &Graph, actor: u32, vertex: u32) -> bool
        requires actor { actor < length self.old.actors.items }
        requires vertex { vertex < length graph.now.ids }
        requires board { IsBoard graph.now self.old }
        ensures acts { MatchBool result
            (Acts graph.now self.old actor (Claim vertex) self.new Moved)
            (self.new ≡ self.old) }
        ensures refused { IsFalse result → MayNot graph.now self.old actor (Claim vertex) }
        ensures frame { Frame self.old self.new }
        ensures tallied { IsTallied self.new }
    {
        if self.actors[actor as usize].vertex.is_some() {
            return false;
        }
        if self.seats[vertex as usize].holder.is_some() {
            return false;
        }
        let evidence = self.seats[vertex as usize].message.is_some();
        self.seats[vertex as usize].holder = Some(actor);
        self.actors[actor as usize] = Actor::at(vertex, evidence);
        true
    }

    /// The actor drops its vertex, once it has given back all forks and the turn, and has written all
    /// replicas where it has committed.
    pub fn drop_vertex(&mut self, graph: &Graph, actor: u32) -> bool
        requires actor { actor < length self.old.actors.items }
        requires board { IsBoard graph.now self.old }
        ensures acts { MatchBool result
            (Acts graph.now self.old actor DropAct self.new Moved)
            (self.new ≡ self.old) }
        ensures refused { IsFalse result → MayNot graph.now self.old actor DropAct }
        ensures frame { Frame self.old self.new }
        ensures tallied { IsTallied self.new }
    {
        let record = self.actors[actor as usize];
        if record.turn {
            return false;
        }
        let Some(vertex) = record.vertex else {
            return false;
        };
        if record.pinned != 0 {
            return false;
        }
        if record.stale != 0 {
            return false;
        }
        self.seats[vertex as usize].holder = None;
        self.actors[actor as usize] = Actor::idle();
        true
    }
}
