//! The desks of a worker that goes over all its edges: one for each replica.
ghost use Rattle.std.specs.Prelude.{◌≡◌, ◌<◌, ◌≤◌, ℕ, None, length, slice_index, IfOk};
ghost use Rattle.std.specs.List.Sorted.{IsStrictlyIncreasing};
ghost use Rattle.pg_apply_scatter.specs.Sending.{one_each};
ghost use Rattle.pg_apply_scatter.specs.Desks.{AreDesks, signal_at, signal_of};

use crate::sent::Sent;
use pg_graph::Graph;
use pg_law::{Datum, Delta};
use pg_mirrors::MirrorTable;
use std::alloc::{AllocError, Global};

/// What an edge reads at one of its ends, and what came there of its signals, in one place of memory.
///
/// `datum` is that of the replica, `carry` that of its vertex, and `signal` is combined of all
/// signals so far.
#[derive(Clone, Copy)]
pub struct Desk<C> {
    pub datum: Datum,
    pub carry: Option<C>,
    pub signal: Option<u64>,
}

/// A desk for each replica of a vertex of the graph, in their order, without a signal.
pub fn desks_of<C: Copy>(
    alloc: Global,
    graph: &Graph,
    mirrors: &MirrorTable,
    carries: &[Option<C>],
) -> Result<Vec<Desk<C>>, AllocError>
    requires ascending { IsStrictlyIncreasing mirrors.now.vertices }
    requires carries { length carries.now ≡ length graph.now.ids }
    ensures desks { IfOk result (λ desks.
        AreDesks mirrors.now carries.now (length graph.now.ids) desks.items) }
    ensures none { IfOk result (λ desks. (i : ℕ) → signal_at desks.items i ≡ None) }
{
    let mut desks = Vec::with_capacity(alloc, mirrors.len() as usize)?;
    for v in 0..graph.vertices() {
        let Some(replica) = mirrors.replica(v) else {
            continue;
        };
        desks.push(Desk {
            datum: mirrors.datum(replica),
            carry: carries[v as usize],
            signal: None,
        })?;
    }
    Ok(desks)
}

/// How many desks have a signal.
fn full_desks<C>(desks: &[Desk<C>]) -> usize {
    let mut full = 0;
    for desk in desks {
        if desk.signal.is_some() {
            full += 1;
        }
    }
    full
}

/// What the desks have, one signal for each vertex with some, ascending.
pub fn list_desks<A: Drop, C: Copy>(
    alloc: Global,
    graph: &Graph,
    mirrors: &MirrorTable,
    desks: &[Desk<C>],
) -> Result<Vec<Sent<A>>, AllocError>
    requires ascending { IsStrictlyIncreasing mirrors.now.vertices }
    requires few { length desks.now ≤ length mirrors.now.vertices }
    requires desks { (i : ℕ) → i < length mirrors.now.vertices →
        slice_index mirrors.now.vertices i < length graph.now.ids → i < length desks.now }
    ensures { IfOk result (λ sent. sent.items ≡
        one_each (signal_of mirrors.now desks.now) (length graph.now.ids)) }
{
    let mut sent = Vec::with_capacity(alloc, full_desks(desks))?;
    for v in 0..graph.vertices() {
        let Some(replica) = mirrors.replica(v) else {
            continue;
        };
        let Some(message) = desks[replica as usize].signal else {
            continue;
        };
        sent.push(Sent {
            to: v,
            signal: Some(message),
            delta: Delta::Nothing,
        })?;
    }
    Ok(sent)
}
