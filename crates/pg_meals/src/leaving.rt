//! Giving a fork back.
ghost use Rattle.std.specs.Prelude.{◌≡◌, ◌<◌, length, cond, false, None, MatchBool, IsFalse};
ghost use Rattle.pg_meals.specs.Acts.{Back, Moved};
ghost use Rattle.pg_meals.specs.Tallies.{IsTallied};
ghost use Rattle.pg_meals.specs.Boards.{IsBoard, Frame, Acts, MayNot};

use crate::actor::Actor;
use crate::board::Board;
use crate::fork::{Fork, Mark};
use pg_forks::{ForkWord, Why};
use pg_graph::Graph;
use std::mem::swap;

/// The fork rests with this word. Where its pinner has made its entry, its content is what was
/// prepared for it.
fn rest<A: Drop>(fork: &mut Fork<A>, word: ForkWord, entered: bool)
    ensures mark { fork.new.mark
        ≡ record { word = word; pinner = None; taken = false; noted = None } }
    ensures content { fork.new.content ≡ cond entered fork.old.prepared fork.old.content }
{
    if entered {
        swap(&mut fork.content, &mut fork.prepared);
    }
    fork.mark = Mark {
        word,
        pinner: None,
        taken: false,
        noted: None,
    };
}

impl<A: Drop> Board<A> {
    /// The actor gives back the fork of an edge. What it noted over it is forgotten, and so is what
    /// it prepared, unless it has committed: that is the fork's content then.
    pub fn back(&mut self, graph: &Graph, actor: u32, edge: u32) -> bool
        requires actor { actor < length self.old.actors.items }
        requires edge { edge < length graph.now.edges }
        requires board { IsBoard graph.now self.old }
        ensures acts { MatchBool result
            (Acts graph.now self.old actor (Back edge) self.new Moved)
            (self.new ≡ self.old) }
        ensures refused { IsFalse result → MayNot graph.now self.old actor (Back edge) }
        ensures frame { Frame self.old self.new }
        ensures tallied { IsTallied self.new }
    {
        let record = self.actors[actor as usize];
        if record.turn {
            return false;
        }
        let mark = self.forks[edge as usize].mark;
        if mark.pinner != Some(actor) {
            return false;
        }
        if record.stale != 0 {
            return false;
        }
        let Some(me) = self.side_of(graph, actor, edge) else {
            return false;
        };
        let why = Why {
            committed: record.committed,
            taken: mark.taken,
            evidence: record.evidence,
        };
        let Some(word) = mark.word.back(me, why) else {
            return false;
        };
        rest(&mut self.forks[edge as usize], word, record.committed);
        self.actors[actor as usize] = Actor {
            ready: None,
            pinned: record.pinned - 1,
            ..record
        };
        true
    }
}
