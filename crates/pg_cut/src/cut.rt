//! A cut of a graph's edges among workers.
ghost use Rattle.std.specs.Prelude.{◌≡◌, ◌<◌, ◌≤◌, ◌^◌, length, slice_index, IfOk};
ghost use Rattle.pg_cut.specs.WorkerSet.{workers_in};
ghost use Rattle.pg_cut.specs.Cut.{Division, IsPlacement, IsCutOf, cut_of, span_in, master_of};
ghost use Rattle.pg_cut.specs.Cut.{load_of, held_by, replicas_of as all_replicas_of};
ghost use Rattle.pg_cut.specs.Cut.{edges_on as all_edges_on, vertices_on as all_vertices_on};

use crate::by_worker::{edges_by_worker, vertices_by_worker};
use crate::span::{masters_of, spans_of};
use crate::tally::{helds_of, loads_of, replicas_of};
use pg_graph::Graph;
use std::alloc::{AllocError, Global};
use std::marker::Model;

/// A worker for each edge, and what follows from that for the vertices.
///
/// `place[e]` is the worker of the edge `e`. `spans[v]` has a bit for each worker in the span of
/// the vertex `v`, and `masters[v]` is its master. `loads[w]` and `held[w]` are how many edges and
/// replicas the worker `w` has, and `edges[w]` and `vertices[w]` are which. So the parts of one
/// worker are made without a look at those of the others.
#[derive(Drop)]
pub struct Cut {
    workers: u8,
    place: Vec<u8>,
    spans: Vec<u64>,
    masters: Vec<u8>,
    loads: Vec<u32>,
    held: Vec<u32>,
    replicas: u64,
    edges: Vec<Vec<u32>>,
    vertices: Vec<Vec<u32>>,
}

impl Model for Cut {
    ghost use Rattle.pg_cut.specs.ByWorker.{lists_in};
    ghost use Rattle.pg_cut.specs.Cut.{Division, division, IsKept};

    ghost Value = { Division };

    ghost view = { λ c. division c.workers c.place.items c.spans.items };

    ghost invariant = { λ c.
        IsKept (division c.workers c.place.items c.spans.items)
        c.masters.items c.loads.items c.held.items c.replicas
        (lists_in c.edges.items) (lists_in c.vertices.items) };
}

impl Cut {
    /// The cut that has the edge `e` on the worker `place[e]`.
    pub fn of(alloc: Global, graph: &Graph, workers: u8, place: Vec<u8>) -> Result<Cut, AllocError>
        requires { IsPlacement graph.now workers place.items }
        ensures value { IfOk result (λ cut. cut ≡ cut_of graph.now workers place.items) }
        ensures cut { IfOk result (λ cut. IsCutOf graph.now cut) }
    {
        let _ = graph.vertices();
        let placed = place.as_slice();
        let spans = spans_of(alloc, graph, workers, placed)?;
        let bits = spans.as_slice();
        let masters = masters_of(alloc, bits)?;
        let loads = loads_of(alloc, workers, placed)?;
        let held = helds_of(alloc, workers, bits)?;
        let replicas = replicas_of(bits);
        let edges = edges_by_worker(alloc, placed, loads.as_slice())?;
        let vertices = vertices_by_worker(alloc, bits, held.as_slice())?;
        Ok(Cut {
            workers,
            place,
            spans,
            masters,
            loads,
            held,
            replicas,
            edges,
            vertices,
        })
    }

    /// How many workers there are.
    pub fn workers(&self) -> u8
        ensures value { result ≡ self.now.workers }
        ensures some { 1 ≤ result }
        ensures few { result ≤ 64 }
    {
        self.workers
    }

    /// The worker of an edge.
    pub fn place(&self, e: u32) -> u8
        requires { e < length self.now.place }
        ensures value { result ≡ slice_index self.now.place e }
        ensures within { result < self.now.workers }
    {
        self.place[e as usize]
    }

    /// The span of a vertex, a bit for each worker.
    pub fn span(&self, v: u32) -> u64
        requires { v < length self.now.spans }
        ensures { workers_in result ≡ span_in self.now v }
    {
        self.spans[v as usize]
    }

    /// The worker that applies for a vertex.
    pub fn master(&self, v: u32) -> u8
        requires { v < length self.now.spans }
        ensures { result ≡ master_of (span_in self.now v) v }
    {
        self.masters[v as usize]
    }

    /// How many replicas all vertices have.
    pub fn replicas(&self) -> u64
        ensures { result ≡ all_replicas_of self.now }
    {
        self.replicas
    }

    /// How many edges a worker has.
    pub fn load(&self, worker: u8) -> u32
        requires { worker < self.now.workers }
        ensures { result ≡ load_of self.now worker }
    {
        self.loads[worker as usize]
    }

    /// How many replicas a worker has.
    pub fn held(&self, worker: u8) -> u32
        requires { worker < self.now.workers }
        ensures { result ≡ held_by self.now worker }
    {
        self.held[worker as usize]
    }

    /// The edges on a worker, ascending.
    pub fn edges_on(&self, worker: u8) -> &[u32]
        requires { worker < self.now.workers }
        ensures { result.now ≡ all_edges_on self.now.place worker }
    {
        self.edges[worker as usize].as_slice()
    }

    /// The vertices that have a worker in their spans, ascending.
    pub fn vertices_on(&self, worker: u8) -> &[u32]
        requires { worker < self.now.workers }
        ensures { result.now ≡ all_vertices_on self.now worker }
    {
        self.vertices[worker as usize].as_slice()
    }
}
