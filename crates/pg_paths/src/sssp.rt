//! The least length of a path from a source.
ghost use Rattle.std.specs.Prelude.{◌≡◌};

use crate::length::plus;
use pg_graph::{Dir, EdgeInfo, VertexInfo};
use pg_law::{Applied, Datum, Delta, Near, Scattered, Started, Steps, VertexProgram};
use std::alloc::{AllocError, Global};
use std::sync::ledger::Ledger;

/// Finds the least length of a path from the source to each vertex, and `u64::MAX` where there is
/// none below it. The source is named by its id.
#[derive(Clone, Copy, Debug)]
pub struct Sssp {
    pub source: u32,
}

impl Sssp {
    pub fn new(source: u32) -> Sssp
        ensures { result.source ≡ source }
    {
        Sssp { source }
    }
}

impl VertexProgram for Sssp {
    ghost use Rattle.pg_paths.specs.ShortestPaths.{shortest_paths};
    ghost use Rattle.pg_paths.specs.ShortestPathsLaws.{shortest_paths_lawful};

    type Acc = u64;

    type Carry = bool;

    ghost meaning = { λ program. shortest_paths program.source };

    fn start(&self, v: VertexInfo) -> Started {
        Started {
            datum: Datum::one(u64::MAX),
            message: if v.id == self.source { Some(0) } else { None },
        }
    }

    fn start_edge(&self, _e: EdgeInfo) -> u64 {
        0
    }

    fn gather_edges(&self) -> Dir {
        Dir::InEdges
    }

    fn scatter_edges(&self) -> Dir {
        Dir::OutEdges
    }

    fn keeps_deltas(&self) -> bool {
        true
    }

    fn wide(&self) -> bool {
        false
    }

    fn empty(&self, _alloc: Global) -> Result<u64, AllocError> {
        Ok(u64::MAX)
    }

    fn copy(&self, _alloc: Global, a: &u64) -> Result<u64, AllocError> {
        Ok(*a)
    }

    fn gather<L: Ledger>(
        &self,
        _alloc: Global,
        near: Near,
        steps: &mut Steps<L>,
    ) -> Result<u64, AllocError> {
        steps.tick();
        Ok(plus(near.other.first(), near.edge.weight))
    }

    fn sum(&self, _alloc: Global, a: u64, b: &u64) -> Result<u64, AllocError> {
        Ok(a.min(*b))
    }

    fn combine(&self, a: u64, b: u64) -> u64 {
        a.min(b)
    }

    fn apply(&self, _v: VertexInfo, datum: Datum, acc: &u64, message: u64) -> Applied<bool> {
        let distance = datum.first().min(*acc).min(message);
        Applied {
            datum: Datum::one(distance),
            again: None,
            carry: distance != datum.first(),
        }
    }

    fn scatter(
        &self,
        _alloc: Global,
        near: Near,
        carry: bool,
    ) -> Result<Scattered<u64>, AllocError> {
        let distance = plus(near.centre.first(), near.edge.weight);
        Ok(Scattered {
            edge: near.word,
            signal: if distance < near.other.first() {
                Some(distance)
            } else {
                None
            },
            delta: if carry {
                Delta::Add(distance)
            } else {
                Delta::Nothing
            },
        })
    }

    ghost lawful = { λ program. shortest_paths_lawful program.source };
}
