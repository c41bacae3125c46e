//! A tree of shortest paths from a source.
ghost use Rattle.std.specs.Prelude.{◌≡◌};
ghost use Rattle.pg_paths.specs.Trees.{offered as offered_over};

use crate::length::plus;
use crate::pair::{is_below, smaller, unreached, via};
use pg_graph::{Dir, EdgeInfo, VertexInfo};
use pg_law::{Applied, Datum, Delta, Near, Scattered, Started, Steps, VertexProgram};
use std::alloc::{AllocError, Global};
use std::sync::ledger::Ledger;

/// Finds the least length of a path from the source to each vertex, and the least id of a vertex
/// that may stand before it on such a path. The source is named by its id, and has itself there. A
/// vertex without a path has `u64::MAX` twice.
#[derive(Clone, Copy, Debug)]
pub struct Tree {
    pub source: u32,
}

impl Tree {
    pub fn new(source: u32) -> Tree
        ensures { result.source ≡ source }
    {
        Tree { source }
    }
}

/// What a vertex with this datum offers over an edge that leads out of it.
fn offered(edge: EdgeInfo, datum: Datum) -> Datum
    ensures { result ≡ offered_over edge datum }
{
    via(datum.first(), edge.weight, edge.src.id)
}

impl VertexProgram for Tree {
    ghost use Rattle.pg_paths.specs.Trees.{tree};
    ghost use Rattle.pg_paths.specs.TreesLaws.{tree_lawful};

    type Acc = Datum;

    type Carry = bool;

    ghost meaning = { λ program. tree program.source };

    fn start(&self, v: VertexInfo) -> Started {
        Started {
            datum: unreached(),
            message: if v.id == self.source { Some(0) } else { None },
        }
    }

    fn start_edge(&self, _e: EdgeInfo) -> u64 {
        0
    }

    fn gather_edges(&self) -> Dir {
        Dir::InEdges
    }

    fn scatter_edges(&self) -> Dir {
        Dir::OutEdges
    }

    fn keeps_deltas(&self) -> bool {
        true
    }

    fn wide(&self) -> bool {
        true
    }

    fn empty(&self, _alloc: Global) -> Result<Datum, AllocError> {
        Ok(unreached())
    }

    fn copy(&self, _alloc: Global, a: &Datum) -> Result<Datum, AllocError> {
        Ok(*a)
    }

    fn gather<L: Ledger>(
        &self,
        _alloc: Global,
        near: Near,
        steps: &mut Steps<L>,
    ) -> Result<Datum, AllocError> {
        steps.tick();
        Ok(offered(near.edge, near.other))
    }

    fn sum(&self, _alloc: Global, a: Datum, b: &Datum) -> Result<Datum, AllocError> {
        Ok(smaller(a, *b))
    }

    fn combine(&self, a: u64, b: u64) -> u64 {
        a.min(b)
    }

    fn apply(&self, v: VertexInfo, datum: Datum, acc: &Datum, _message: u64) -> Applied<bool> {
        let reached = if v.id == self.source {
            Datum::two(0, v.id as u64)
        } else {
            smaller(datum, *acc)
        };
        Applied {
            datum: reached,
            again: None,
            carry: reached.first() != datum.first(),
        }
    }

    fn scatter(
        &self,
        _alloc: Global,
        near: Near,
        carry: bool,
    ) -> Result<Scattered<Datum>, AllocError> {
        let offer = offered(near.edge, near.centre);
        Ok(Scattered {
            edge: near.word,
            signal: if is_below(offer, near.other) {
                Some(plus(near.centre.first(), near.edge.weight))
            } else {
                None
            },
            delta: if carry {
                Delta::Add(offer)
            } else {
                Delta::Nothing
            },
        })
    }

    ghost lawful = { λ program. tree_lawful program.source };
}
