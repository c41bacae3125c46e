//! What a loader knows of the edges that it has seen.
ghost use Rattle.std.specs.Prelude.{◌≡◌, ◌<◌, ◌≤◌, length, IfOk};
ghost use Rattle.pg_graph.specs.Multigraph.{edge_at, IsEdge};
ghost use Rattle.pg_cut.specs.WorkerSet.{workers_in, IsWithin};
ghost use Rattle.pg_greedy.specs.Greedy.{IsBest, HasRoom, greedy, candidates_of, case_of};
ghost use Rattle.pg_greedy.specs.Greedy.{set_at, target_has_more as more_at_target};
ghost use Rattle.pg_greedy.specs.Greedy.{with_edge, empty_table};
ghost use Rattle.pg_greedy.specs.Batches.{without_edge, with_first, IsCounted};

use crate::best::best;
use crate::choice::{Choice, all_below};
use crate::marks::{
    clear_counts, clear_sets, count_ends, count_load, join, set_ends, uncount_ends, uncount_load,
};
use crate::placed::Placed;
use pg_graph::{Edge, Graph};
use std::alloc::{AllocError, Global};
use std::marker::Model;

/// What a loader knows.
///
/// `sets[v]` has a bit for each worker that holds the vertex `v`, and `placed[v]` is how many edges
/// of `v` are placed. `loads[w]` is how many edges the worker `w` has. Of workers with one load the
/// loader prefers `first`, and then those after it.
#[derive(Drop)]
pub struct GreedyTable<'g> {
    graph: &'g Graph,
    workers: u8,
    first: u8,
    sets: Vec<u64>,
    placed: Vec<u32>,
    loads: Vec<u32>,
}

impl<'g> Model for GreedyTable<'g> {
    ghost use Rattle.pg_greedy.specs.Greedy.{Table, table_by, IsKept};

    ghost Value = { Table };

    ghost view = { λ t.
        table_by t.graph.now t.workers t.first t.sets.items t.placed.items t.loads.items };

    ghost invariant = { λ t.
        IsKept t.graph.now t.workers t.first t.sets.items t.placed.items t.loads.items };
}

impl<'g> GreedyTable<'g> {
    /// A table that has placed nothing.
    pub fn new(
        alloc: Global,
        graph: &'g Graph,
        workers: u8,
        first: u8,
    ) -> Result<GreedyTable<'g>, AllocError>
        requires some { 1 ≤ workers }
        requires few { workers ≤ 64 }
        requires first { first < workers }
        ensures { IfOk result (λ table. table ≡ empty_table graph.now workers first) }
    {
        let count = graph.vertices() as usize;
        Ok(GreedyTable {
            graph,
            workers,
            first,
            sets: vec![in alloc; 0u64; count]?,
            placed: vec![in alloc; 0u32; count]?,
            loads: vec![in alloc; 0u32; workers as usize]?,
        })
    }

    /// Whether the target of an edge has more unassigned edges than its source.
    fn target_has_more(&self, edge: Edge) -> bool
        requires { IsEdge (length self.now.graph.ids) edge }
        ensures { result ≡ more_at_target self.now edge }
    {
        let of_src = self.graph.edges_of(edge.src).len() as u32;
        let of_dst = self.graph.edges_of(edge.dst).len() as u32;
        of_src.saturating_sub(self.placed[edge.src as usize])
            < of_dst.saturating_sub(self.placed[edge.dst as usize])
    }

    /// The workers that hold a vertex.
    pub fn held(&self, v: u32) -> u64
        requires { v < length self.now.graph.ids }
        ensures value { workers_in result ≡ set_at self.now v }
        ensures within { IsWithin self.now.workers result }
    {
        self.sets[v as usize]
    }

    /// The workers that may get an edge whose ends are held by `us` and `vs`. Degrees are looked up
    /// only where they decide.
    fn choose(&self, edge: Edge, us: u64, vs: u64) -> Choice
        requires edge { IsEdge (length self.now.graph.ids) edge }
        requires us { workers_in us ≡ set_at self.now edge.src }
        requires us_within { IsWithin self.now.workers us }
        requires vs { workers_in vs ≡ set_at self.now edge.dst }
        requires vs_within { IsWithin self.now.workers vs }
        ensures set { workers_in result.set ≡ candidates_of self.now edge }
        ensures case { result.case ≡
            case_of (set_at self.now edge.src) (set_at self.now edge.dst) }
        ensures some { 0 < result.set }
        ensures within { IsWithin self.now.workers result.set }
    {
        let both = us & vs;
        if both != 0 {
            Choice { set: both, case: 1 }
        } else if us == 0 {
            if vs == 0 {
                Choice {
                    set: all_below(self.workers),
                    case: 4,
                }
            } else {
                Choice { set: vs, case: 3 }
            }
        } else if vs == 0 {
            Choice { set: us, case: 3 }
        } else if self.target_has_more(edge) {
            Choice { set: vs, case: 2 }
        } else {
            Choice { set: us, case: 2 }
        }
    }

    /// Notes that a worker has got an edge.
    pub fn give(&mut self, edge: Edge, worker: u8)
        requires edge { IsEdge (length self.old.graph.ids) edge }
        requires worker { worker < self.old.workers }
        requires room { HasRoom self.old }
        ensures { self.new ≡ with_edge self.old edge worker }
    {
        join(&mut self.sets, edge, worker);
        count_ends(&mut self.placed, edge);
        count_load(&mut self.loads, worker);
    }

    /// Places an edge, which this table hasn't placed yet.
    pub fn place(&mut self, edge: u32) -> Placed
        requires edge { edge < length self.old.graph.edges }
        requires room { HasRoom self.old }
        ensures value { result ≡ greedy self.old (edge_at self.old.graph edge) }
        ensures best { IsBest self.old.workers self.old.first self.old.loads
            (candidates_of self.old (edge_at self.old.graph edge)) result.worker }
        ensures within { result.worker < self.old.workers }
        ensures table { self.new ≡
            with_edge self.old (edge_at self.old.graph edge) result.worker }
    {
        let graph = self.graph;
        let edge = graph.edges()[edge as usize];
        let chosen = self.choose(edge, self.held(edge.src), self.held(edge.dst));
        let worker = best(self.loads.as_slice(), self.workers, self.first, chosen.set);
        self.give(edge, worker);
        Placed {
            worker,
            case: chosen.case,
        }
    }

    /// Forgets all edges, for a loader that prefers `first`.
    pub fn restart(&mut self, first: u8)
        requires { first < self.old.workers }
        ensures { self.new ≡ empty_table self.old.graph self.old.workers first }
    {
        self.first = first;
        clear_sets(&mut self.sets);
        clear_counts(&mut self.placed);
        clear_counts(&mut self.loads);
    }

    /// Goes on for a loader that prefers `first`.
    pub fn prefer(&mut self, first: u8)
        requires { first < self.old.workers }
        ensures { self.new ≡ with_first self.old first }
    {
        self.first = first;
    }

    /// Takes an edge back from a worker. Its ends are held by `us` and `vs` again.
    pub fn take_back(&mut self, edge: Edge, worker: u8, us: u64, vs: u64)
        requires edge { IsEdge (length self.old.graph.ids) edge }
        requires worker { worker < self.old.workers }
        requires us { IsWithin self.old.workers us }
        requires vs { IsWithin self.old.workers vs }
        requires counted { IsCounted self.old edge worker }
        ensures { self.new ≡
            without_edge self.old edge worker (workers_in us) (workers_in vs) }
    {
        set_ends(&mut self.sets, edge, us, vs);
        uncount_ends(&mut self.placed, edge);
        uncount_load(&mut self.loads, worker);
    }
}
