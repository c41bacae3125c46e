//! The entry of an execution.
ghost use Rattle.std.specs.Prelude.{◌≡◌, ◌<◌, length, map, MatchOption, IsNone};
ghost use Rattle.pg_meals.specs.Acts.{Commit, Entered};
ghost use Rattle.pg_meals.specs.Entries.{made_stale};
ghost use Rattle.pg_meals.specs.Tallies.{IsTallied};
ghost use Rattle.pg_meals.specs.Boards.{IsBoard, Frame, Acts, MayNot};

use crate::actor::Actor;
use crate::board::Board;
use crate::seat::Replica;
use pg_graph::Graph;
use pg_law::JournalEntry;
use std::mem::swap;

/// Each of these replicas has an entry yet to be written to it.
fn make_stale(row: &mut Vec<Replica>)
    ensures { row.new.items ≡ map made_stale row.old.items }
{
    for place in 0..row.len() {
        row[place].stale = true;
    }
}

impl<A: Drop> Board<A> {
    /// The actor makes the entry of its vertex: the vertex and its forks become what was prepared.
    ///
    /// It takes the turn, and room in the journal. The forks are left as they are, and carry what
    /// was prepared for them since their pinner has committed.
    pub fn commit(&mut self, graph: &Graph, actor: u32) -> Option<u64>
        requires actor { actor < length self.old.actors.items }
        requires board { IsBoard graph.now self.old }
        ensures acts { MatchOption result
            (self.new ≡ self.old)
            (λ number. Acts graph.now self.old actor Commit self.new (Entered number)) }
        ensures refused { IsNone result → MayNot graph.now self.old actor Commit }
        ensures frame { Frame self.old self.new }
        ensures tallied { IsTallied self.new }
    {
        let record = self.actors[actor as usize];
        if !record.turn {
            return None;
        }
        if record.committed {
            return None;
        }
        let Some(ready) = record.ready else {
            return None;
        };
        let Some(vertex) = record.vertex else {
            return None;
        };
        let number = self.journal.len();
        if number >= self.fuel as usize {
            return None;
        }
        let datum = ready.datum;
        self.journal.push_reserved(JournalEntry { vertex, datum });
        let stale = self.replicas[vertex as usize].len();
        make_stale(&mut self.replicas[vertex as usize]);
        let seat = &mut self.seats[vertex as usize];
        let before = seat.datum;
        seat.datum = datum;
        seat.message = ready.again;
        swap(&mut seat.cell, &mut seat.prepared);
        seat.last = number + 1;
        self.actors[actor as usize] = Actor {
            committed: true,
            ready: None,
            before,
            stale,
            ..record
        };
        Some(number as u64)
    }
}
