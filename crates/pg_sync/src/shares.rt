//! The shares of the workers of a cut, each made in a thread of its own.
ghost use Rattle.std.specs.Prelude.{◌≡◌, ◌<◌, ℕ, length, slice_index_or, IfOk, Result};
ghost use Rattle.std.specs.declared.alloc.AllocError.{AllocError};
ghost use Rattle.pg_cut.specs.Cut.{IsCutOf};
ghost use Rattle.pg_edge_store.specs.Store.{Store};
ghost use Rattle.pg_mirrors.specs.Mirrors.{Mirrors, mirrors_of};
ghost use Rattle.pg_sync.specs.Shared.{IsMade, HaveEdges, HaveReplicas};

use crate::worker::Scattering;
use pg_cut::Cut;
use pg_edge_store::EdgeStore;
use pg_graph::Graph;
use pg_law::{Datum, EdgeWords};
use pg_mirrors::MirrorTable;
use std::alloc::{AllocError, Global};
use std::thread;
use std::thread::Threads;

/// The edges of each worker, with their words. Each is want of memory or made.
fn stores_of<R: Threads + Sync>(
    rt: &R,
    alloc: Global,
    graph: &Graph,
    cut: &Cut,
    words: &EdgeWords,
) -> Result<Vec<Result<EdgeStore, AllocError>>, AllocError>
    requires cut { IsCutOf graph.now cut.now }
    requires words { length words.now ≡ length graph.now.edges }
    ensures count { IfOk result (λ made. length made.items ≡ cut.now.workers) }
    ensures each { IfOk result (λ made. (w : ℕ) (d : Result Store AllocError) →
        w < cut.now.workers → IfOk (slice_index_or made.items w d)
        (IsMade graph.now cut.now words.now w)) }
{
    let count = cut.workers() as usize;
    thread::map_indices(
        rt,
        alloc,
        count,
        &|w: usize| -> Result<EdgeStore, AllocError>
            requires { (w < 64) × (w < cut.now.workers) × (IsCutOf graph.now cut.now) ×
                (length words.now ≡ length graph.now.edges) }
            ensures { IfOk result (IsMade graph.entry.now cut.entry.now words.entry.now w) }
        { EdgeStore::with_words(alloc, graph, cut, w as u8, words) },
    )
}

/// The workers of a cut, each with its own edges and their words.
pub fn workers_of<R: Threads + Sync, A: Drop>(
    rt: &R,
    alloc: Global,
    graph: &Graph,
    cut: &Cut,
    words: &EdgeWords,
) -> Result<Vec<Scattering<A>>, AllocError>
    requires cut { IsCutOf graph.now cut.now }
    requires words { length words.now ≡ length graph.now.edges }
    ensures { IfOk result (λ workers.
        HaveEdges graph.now cut.now words.now cut.now.workers workers.items) }
{
    let made = stores_of(rt, alloc, graph, cut, words)?;
    let mut workers = Vec::with_capacity(alloc, made.len())?;
    for one in made {
        let store = one?;
        let sent = Ok(Vec::new(alloc));
        workers.push(Scattering { store, sent })?;
    }
    Ok(workers)
}

/// The replicas of each worker. Each is want of memory or made.
fn tables_of<R: Threads + Sync>(
    rt: &R,
    alloc: Global,
    graph: &Graph,
    cut: &Cut,
    values: &[Datum],
) -> Result<Vec<Result<MirrorTable, AllocError>>, AllocError>
    requires cut { IsCutOf graph.now cut.now }
    requires values { length values.now ≡ length graph.now.ids }
    ensures count { IfOk result (λ made. length made.items ≡ cut.now.workers) }
    ensures each { IfOk result (λ made. (w : ℕ) (d : Result Mirrors AllocError) →
        w < cut.now.workers → IfOk (slice_index_or made.items w d)
        (λ table. table ≡ mirrors_of cut.now w values.now)) }
{
    let count = cut.workers() as usize;
    thread::map_indices(
        rt,
        alloc,
        count,
        &|w: usize| -> Result<MirrorTable, AllocError>
            requires { (w < 64) × (w < cut.now.workers) × (IsCutOf graph.now cut.now) ×
                (length values.now ≡ length graph.now.ids) }
            ensures { IfOk result (λ table.
                table ≡ mirrors_of cut.entry.now w values.entry.now) }
        { MirrorTable::of(alloc, graph, cut, w as u8, values) },
    )
}

/// The replicas of the workers of a cut.
pub fn replicas_of<R: Threads + Sync>(
    rt: &R,
    alloc: Global,
    graph: &Graph,
    cut: &Cut,
    values: &[Datum],
) -> Result<Vec<MirrorTable>, AllocError>
    requires cut { IsCutOf graph.now cut.now }
    requires values { length values.now ≡ length graph.now.ids }
    ensures { IfOk result (λ tables.
        HaveReplicas cut.now values.now cut.now.workers tables.items) }
{
    let made = tables_of(rt, alloc, graph, cut, values)?;
    let mut tables = Vec::with_capacity(alloc, made.len())?;
    for one in made {
        tables.push(one?)?;
    }
    Ok(tables)
}
