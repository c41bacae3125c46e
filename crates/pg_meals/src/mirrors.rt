//! Reading replicas over forks, and writing them.
ghost use Rattle.std.specs.Prelude.{◌≡◌, ◌<◌, ℕ, length, slice_index_or, MatchBool, MatchOption};
ghost use Rattle.std.specs.Prelude.{IsFalse, IsNone};
ghost use Rattle.pg_graph.specs.Multigraph.{end_at};
ghost use Rattle.pg_meals.specs.Core.{half_of};
ghost use Rattle.pg_meals.specs.Acts.{ReadMirror, WriteMirror, Moved, Read};
ghost use Rattle.pg_meals.specs.Entries.{IsHome, replicas_at, replica_in};
ghost use Rattle.pg_meals.specs.Tallies.{IsTallied};
ghost use Rattle.pg_meals.specs.Boards.{IsBoard, Frame, ActsByHalves, MayNot};

use crate::actor::Actor;
use crate::board::Board;
use crate::fork::Mark;
use crate::seat::Replica;
use pg_graph::{Graph, Side};
use pg_law::Datum;

impl<A: Drop> Board<A> {
    /// The place of a worker's replica among those of a vertex, where the worker has one.
    pub fn home(&self, vertex: u32, worker: u8) -> Option<usize>
        requires { vertex < length self.now.replicas.items }
        ensures { IsHome (replicas_at self.now.replicas.items vertex) worker result }
    {
        let row = self.replicas[vertex as usize].as_slice();
        for place in 0..row.len() {
            if row[place].worker == worker {
                return Some(place);
            }
        }
        None
    }

    /// The datum of the vertex at an end of an edge, as the edge's own worker has it.
    pub fn datum_over(&self, graph: &Graph, edge: u32, side: Side) -> Datum
        requires edge { edge < length graph.now.edges }
        requires board { IsBoard graph.now self.now }
        ensures { result ≡ (replica_in
            (replicas_at self.now.replicas.items (end_at graph.now side edge))
            (slice_index_or self.now.workers.items edge 0)).datum }
    {
        let ends = graph.edges()[edge as usize];
        let vertex = ends.end(side);
        match self.home(vertex, self.workers[edge as usize]) {
            Some(place) => self.replicas[vertex as usize][place].datum,
            None => Datum::two(0, 0),
        }
    }

    /// The actor reads both halves of the datum at the other end of an edge.
    pub fn read_mirror(&mut self, graph: &Graph, actor: u32, edge: u32) -> Option<Datum>
        requires actor { actor < length self.old.actors.items }
        requires edge { edge < length graph.now.edges }
        requires board { IsBoard graph.now self.old }
        ensures acts { MatchOption result
            (self.new ≡ self.old)
            (λ datum. ActsByHalves graph.now self.old actor (ReadMirror edge) self.new
            (λ h. Read (half_of h datum))) }
        ensures refused { IsNone result
            → (h : ℕ) → MayNot graph.now self.old actor (ReadMirror edge h) }
        ensures frame { Frame self.old self.new }
        ensures tallied { IsTallied self.new }
    {
        if self.actors[actor as usize].committed {
            return None;
        }
        let mark = self.forks[edge as usize].mark;
        if mark.pinner != Some(actor) {
            return None;
        }
        let Some(me) = self.side_of(graph, actor, edge) else {
            return None;
        };
        let datum = self.datum_over(graph, edge, me.opposite());
        self.forks[edge as usize].mark = Mark {
            noted: Some(datum),
            ..mark
        };
        Some(datum)
    }

    /// The actor writes both halves of its vertex's datum to the replica on a worker.
    pub fn write_mirror(&mut self, graph: &Graph, actor: u32, worker: u8) -> bool
        requires actor { actor < length self.old.actors.items }
        requires board { IsBoard graph.now self.old }
        ensures acts { MatchBool result
            (ActsByHalves graph.now self.old actor (WriteMirror worker) self.new (λ h. Moved))
            (self.new ≡ self.old) }
        ensures refused { IsFalse result
            → (h : ℕ) → MayNot graph.now self.old actor (WriteMirror worker h) }
        ensures frame { Frame self.old self.new }
        ensures tallied { IsTallied self.new }
    {
        let record = self.actors[actor as usize];
        if !record.committed {
            return false;
        }
        if record.turn {
            return false;
        }
        let Some(vertex) = record.vertex else {
            return false;
        };
        let Some(place) = self.home(vertex, worker) else {
            return false;
        };
        let datum = self.seats[vertex as usize].datum;
        let replica = self.replicas[vertex as usize][place];
        if !replica.stale {
            return false;
        }
        self.replicas[vertex as usize][place] = Replica {
            worker,
            datum,
            stale: false,
        };
        self.actors[actor as usize] = Actor {
            stale: record.stale - 1,
            ..record
        };
        true
    }
}
