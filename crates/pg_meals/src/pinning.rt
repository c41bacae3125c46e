//! Looking at a fork, pinning it, asking for it.
ghost use Rattle.std.specs.Prelude.{◌≡◌, ◌<◌, length, MatchBool, MatchOption, IsFalse, IsNone};
ghost use Rattle.pg_meals.specs.Acts.{Look, Pin, Ask, Moved, Saw};
ghost use Rattle.pg_meals.specs.Tallies.{IsTallied};
ghost use Rattle.pg_meals.specs.Boards.{IsBoard, Frame, Acts, MayNot};

use crate::actor::Actor;
use crate::board::Board;
use crate::finding::{get, shows};
use crate::fork::Mark;
use pg_graph::Graph;

impl<A: Drop> Board<A> {
    /// The actor looks at the fork of an edge of its vertex. That it stands clean there is evidence.
    pub fn look(&mut self, graph: &Graph, actor: u32, edge: u32) -> Option<u64>
        requires actor { actor < length self.old.actors.items }
        requires edge { edge < length graph.now.edges }
        requires board { IsBoard graph.now self.old }
        ensures acts { MatchOption result
            (self.new ≡ self.old)
            (λ bits. Acts graph.now self.old actor (Look edge) self.new (Saw bits)) }
        ensures refused { IsNone result → MayNot graph.now self.old actor (Look edge) }
        ensures frame { Frame self.old self.new }
        ensures tallied { IsTallied self.new }
    {
        let record = self.actors[actor as usize];
        let Some(me) = self.side_of(graph, actor, edge) else {
            return None;
        };
        let word = self.forks[edge as usize].mark.word;
        let evidence = shows(record.evidence, false, word, me);
        self.actors[actor as usize] = Actor { evidence, ..record };
        Some(word.bits())
    }

    /// The actor asks for the fork of an edge of its vertex.
    pub fn ask(&mut self, graph: &Graph, actor: u32, edge: u32) -> bool
        requires actor { actor < length self.old.actors.items }
        requires edge { edge < length graph.now.edges }
        requires board { IsBoard graph.now self.old }
        ensures acts { MatchBool result
            (Acts graph.now self.old actor (Ask edge) self.new Moved)
            (self.new ≡ self.old) }
        ensures refused { IsFalse result → MayNot graph.now self.old actor (Ask edge) }
        ensures frame { Frame self.old self.new }
        ensures tallied { IsTallied self.new }
    {
        let record = self.actors[actor as usize];
        if record.committed {
            return false;
        }
        if !record.evidence {
            return false;
        }
        let Some(me) = self.side_of(graph, actor, edge) else {
            return false;
        };
        let Some(word) = self.forks[edge as usize].mark.word.ask(me) else {
            return false;
        };
        self.forks[edge as usize].mark.word = word;
        true
    }

    /// The actor pins the fork of an edge of its vertex, or else takes it.
    ///
    /// A message for its vertex on the fork is evidence, and so is that the fork stood clean there.
    pub fn pin(&mut self, graph: &Graph, actor: u32, edge: u32) -> bool
        requires actor { actor < length self.old.actors.items }
        requires edge { edge < length graph.now.edges }
        requires board { IsBoard graph.now self.old }
        ensures acts { MatchBool result
            (Acts graph.now self.old actor (Pin edge) self.new Moved)
            (self.new ≡ self.old) }
        ensures refused { IsFalse result → MayNot graph.now self.old actor (Pin edge) }
        ensures frame { Frame self.old self.new }
        ensures tallied { IsTallied self.new }
    {
        let record = self.actors[actor as usize];
        if record.committed {
            return false;
        }
        let Some(me) = self.side_of(graph, actor, edge) else {
            return false;
        };
        let word = self.forks[edge as usize].mark.word;
        let Some(got) = get(word, me) else {
            return false;
        };
        let found = self.forks[edge as usize].content.waits(me);
        let evidence = shows(record.evidence, found, word, me);
        self.forks[edge as usize].mark = Mark {
            word: got.word,
            pinner: Some(actor),
            taken: got.taken,
            noted: None,
        };
        self.actors[actor as usize] = Actor {
            evidence,
            pinned: record.pinned + 1,
            ..record
        };
        true
    }
}
