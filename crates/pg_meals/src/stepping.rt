//! Any act by its name.
ghost use Rattle.std.specs.Prelude.{◌≡◌, ◌<◌, length, None, Some, MatchBool, MatchOption, IsNone};
ghost use Rattle.pg_meals.specs.Tallies.{IsTallied};
ghost use Rattle.pg_meals.specs.Boards.{IsBoard, Frame};
ghost use Rattle.pg_meals.specs.Steps.{IsWithin, MakesOn, RefusesOn, told_moved};

use crate::act::{Act, Outcome};
use crate::board::Board;
use pg_graph::Graph;

/// What a made act tells that tells nothing more.
fn moved(made: bool) -> Option<Outcome>
    ensures { MatchBool made (result ≡ Some told_moved) (result ≡ None) }
{
    if made { Some(Outcome::Moved) } else { None }
}

impl<A: Drop> Board<A> {
    /// The actor acts, where the guard of the act is met. Else nothing changes.
    pub fn step(&mut self, graph: &Graph, actor: u32, act: Act) -> Option<Outcome>
        requires actor { actor < length self.old.actors.items }
        requires act { IsWithin graph.now act }
        requires board { IsBoard graph.now self.old }
        ensures acts { MatchOption result
            (self.new ≡ self.old)
            (MakesOn graph.now self.old actor act self.new) }
        ensures refused { IsNone result → RefusesOn graph.now self.old actor act }
        ensures frame { Frame self.old self.new }
        ensures tallied { IsTallied self.new }
    {
        match act {
            Act::Claim { vertex } => moved(self.claim(graph, actor, vertex)),
            Act::Drop => moved(self.drop_vertex(graph, actor)),
            Act::Look { edge } => match self.look(graph, actor, edge) {
                Some(bits) => Some(Outcome::Saw { bits }),
                None => None,
            },
            Act::Pin { edge } => moved(self.pin(graph, actor, edge)),
            Act::Ask { edge } => moved(self.ask(graph, actor, edge)),
            Act::Back { edge } => moved(self.back(graph, actor, edge)),
            Act::ReadMirror { edge } => match self.read_mirror(graph, actor, edge) {
                Some(datum) => Some(Outcome::Read { datum }),
                None => None,
            },
            Act::Turn => moved(self.take_turn(graph, actor)),
            Act::Commit => match self.commit(graph, actor) {
                Some(number) => Some(Outcome::Entered { number }),
                None => None,
            },
            Act::Give => moved(self.give(graph, actor)),
            Act::WriteMirror { worker } => moved(self.write_mirror(graph, actor, worker)),
        }
    }
}
