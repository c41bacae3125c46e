//! The spans of vertices, and their masters.
ghost use Rattle.std.specs.Prelude.{◌≡◌, ℕ, ◌<◌, ◌≤◌, ◌^◌, ◌%◌, ◌==◌, length, map, All};
ghost use Rattle.std.specs.Prelude.{slice_index, IfOk};
ghost use Rattle.std.specs.List.{range_with_len, list_any};
ghost use Rattle.pg_graph.specs.Multigraph.{vertices};
ghost use Rattle.pg_cut.specs.WorkerSet.{has, workers_in, IsWithin};
ghost use Rattle.pg_cut.specs.Cut.{IsPlacement, in_span, span_of, master_of};

use crate::worker_set::{size, with_worker, worker_at};
use pg_graph::Graph;
use std::alloc::{AllocError, Global};

/// The workers that hold these edges.
fn workers_of(edges: &[u32], place: &[u8]) -> u64
    requires edges { (i : ℕ) → i < length edges.now → slice_index edges.now i < length place.now }
    requires place { (e : ℕ) → e < length place.now → slice_index place.now e < 64 }
    ensures { (w : ℕ) → has result w ≡ list_any (λ e. slice_index place.now e == w) edges.now }
{
    let mut span = 0;
    for e in edges {
        span = with_worker(span, place[*e as usize]);
    }
    span
}

/// The span of a vertex.
fn span_bits(graph: &Graph, workers: u8, place: &[u8], v: u32) -> u64
    requires placed { IsPlacement graph.now workers place.now }
    requires v { v < length graph.now.ids }
    ensures { (w : ℕ) → has result w ≡ in_span graph.now workers place.now v w }
{
    let edges = graph.edges_of(v);
    if edges.is_empty() {
        with_worker(0, (v % workers as u32) as u8)
    } else {
        workers_of(edges, place)
    }
}

/// The spans of all vertices.
pub fn spans_of(
    alloc: Global,
    graph: &Graph,
    workers: u8,
    place: &[u8],
) -> Result<Vec<u64>, AllocError>
    requires { IsPlacement graph.now workers place.now }
    ensures value { IfOk result (λ spans. map workers_in spans.items ≡
        map (span_of graph.now workers place.now) (vertices graph.now)) }
    ensures few { IfOk result (λ spans. length spans.items < 2 ^ 32) }
    ensures some { IfOk result (λ spans. (v : ℕ) → v < length spans.items →
        0 < length (workers_in (slice_index spans.items v))) }
    ensures within { IfOk result (λ spans. All (IsWithin workers) spans.items) }
{
    let mut spans = Vec::with_capacity(alloc, graph.vertices() as usize)?;
    for v in 0..graph.vertices() {
        spans.push(span_bits(graph, workers, place, v))?;
    }
    Ok(spans)
}

/// The masters of all vertices.
pub fn masters_of(alloc: Global, spans: &[u64]) -> Result<Vec<u8>, AllocError>
    requires few { length spans.now < 2 ^ 32 }
    requires some { (v : ℕ) → v < length spans.now →
        0 < length (workers_in (slice_index spans.now v)) }
    ensures { IfOk result (λ masters. masters.items ≡
        map (λ v. master_of (workers_in (slice_index spans.now v)) v)
        (range_with_len 0 (length spans.now))) }
{
    let mut masters = Vec::with_capacity(alloc, spans.len())?;
    for v in 0..spans.len() {
        let span = spans[v];
        masters.push(worker_at(span, v as u32 % size(span)))?;
    }
    Ok(masters)
}
