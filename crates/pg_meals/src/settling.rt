//! A kept gather, and what waits to be added to it.
ghost use Rattle.std.specs.Prelude.{◌≡◌, ◌<◌, ℕ, length, true, IfSome, IfOk};
ghost use Rattle.pg_graph.specs.Multigraph.{edge_at, is_at, edges_at};
ghost use Rattle.pg_law.specs.Laws.{IsDelta};
ghost use Rattle.pg_delta.specs.Cell.{IsCell};
ghost use Rattle.pg_meals.specs.Plans.{added, added_along, ride_on};

use crate::fork::Fork;
use pg_delta::CacheCell;
use pg_graph::Graph;
use pg_law::{Delta, VertexProgram, laws_of};
use std::alloc::{AllocError, Global};

/// A copy of a kept gather, where there is one.
fn copy_gather<P: VertexProgram>(
    alloc: Global,
    program: &P,
    acc: &Option<P::Acc>,
) -> Result<Option<P::Acc>, AllocError>
    requires { IfSome acc.now (P.meaning program.now).IsAcc }
    ensures { IfOk result (λ copy. copy ≡ acc.now) }
{
    match acc {
        Some(acc) => Ok(Some(program.copy(alloc, acc)?)),
        None => Ok(None),
    }
}

/// A gather after a change, where it is known then.
fn add_change<P: VertexProgram>(
    alloc: Global,
    program: &P,
    acc: Option<P::Acc>,
    delta: &Delta<P::Acc>,
) -> Result<Option<P::Acc>, AllocError>
    requires acc { IfSome acc (P.meaning program.now).IsAcc }
    requires delta { IsDelta (P.meaning program.now).IsAcc delta.now }
    ensures value { IfOk result (λ after. after ≡ added (P.meaning program.now).sum acc delta.now) }
    ensures own { IfOk result (λ after. IfSome after (P.meaning program.now).IsAcc) }
{
    laws_of(program);
    let Some(acc) = acc else {
        return Ok(None);
    };
    match delta {
        Delta::Nothing => Ok(Some(acc)),
        Delta::Add(d) => Ok(Some(program.sum(alloc, acc, d)?)),
        Delta::Clear => Ok(None),
    }
}

/// The kept gather of a vertex with all that waits for it, in its cell and on its forks, where it is
/// known then.
///
/// It is a copy: the cell and the forks stay as they are. `Err` is want of memory.
pub fn kept_gather<P: VertexProgram>(
    alloc: Global,
    program: &P,
    graph: &Graph,
    forks: &[Fork<P::Acc>],
    cell: &CacheCell<P::Acc>,
    vertex: u32,
) -> Result<Option<P::Acc>, AllocError>
    requires vertex { vertex < length graph.now.ids }
    requires forks { length forks.now ≡ length graph.now.edges }
    requires cell { IsCell (P.meaning program.now) cell.now }
    requires rides { (e : ℕ) → e < length graph.now.edges
        → is_at vertex (edge_at graph.now e) ≡ true
        → IsDelta (P.meaning program.now).IsAcc (ride_on graph.now forks.now vertex e).delta }
    ensures value { let p = P.meaning program.now in
        IfOk result (λ acc. acc ≡ added_along p.sum graph.now forks.now vertex
        (added p.sum cell.now.acc cell.now.pending) (edges_at graph.now vertex)) }
    ensures own { IfOk result (λ acc. IfSome acc (P.meaning program.now).IsAcc) }
{
    laws_of(program);
    let edges = graph.edges();
    let around = graph.edges_of(vertex);
    let copy = copy_gather(alloc, program, &cell.acc)?;
    let mut acc = add_change(alloc, program, copy, &cell.pending)?;
    for e in around {
        let side = edges[*e as usize].side(vertex);
        let ride = forks[*e as usize].content.ride(side);
        acc = add_change(alloc, program, acc, &ride.delta)?;
    }
    Ok(acc)
}
