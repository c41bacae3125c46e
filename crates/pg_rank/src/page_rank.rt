//! The rank of each vertex.
ghost use Rattle.std.specs.Prelude.{◌≡◌};
ghost use Rattle.pg_rank.specs.Shares.{share as share_of, rank as rank_of};

use pg_graph::{Dir, EdgeInfo, VertexInfo};
use pg_law::{Applied, Datum, Delta, Near, Scattered, Started, Steps, VertexProgram};
use std::alloc::{AllocError, Global};
use std::sync::ledger::Ledger;

/// The rank 1. Ranks count billionths, rounded down.
pub const UNIT: u64 = 1_000_000_000;

/// The rank of a vertex that no edge enters.
const LEAST: u64 = 150_000_000;

/// Gives each vertex its rank: 15 hundredths of the unit, and 85 hundredths of what its edges in
/// bring. A vertex shares its rank evenly among its edges out.
///
/// A neighbour is signalled where a rank moved by more than `tolerance` billionths.
#[derive(Clone, Copy, Debug)]
pub struct PageRank {
    pub tolerance: u64,
}

/// How a rank changed: the change of what each edge out brings, modulo 2^64, and whether the rank
/// itself moved by more than the tolerance.
#[derive(Clone, Copy, Debug)]
pub struct Change {
    pub share: u64,
    pub above: bool,
}

impl PageRank {
    pub fn new(tolerance: u64) -> PageRank
        ensures { result.tolerance ≡ tolerance }
    {
        PageRank { tolerance }
    }
}

/// What each of `out` edges brings, and 0 where there is none.
fn share(rank: u64, out: u32) -> u64
    ensures { result ≡ share_of rank out }
{
    if out == 0 { 0 } else { rank / out as u64 }
}

/// The rank of a vertex whose edges in bring so much.
fn rank(brought: u64) -> u64
    ensures { result ≡ rank_of brought }
{
    LEAST + (85 * brought as u128 / 100) as u64
}

impl VertexProgram for PageRank {
    ghost use Rattle.pg_rank.specs.PageRank.{page_rank};
    ghost use Rattle.pg_rank.specs.PageRankLaws.{page_rank_lawful};

    type Acc = u64;

    type Carry = Change;

    ghost meaning = { λ program. page_rank program.tolerance };

    fn start(&self, _v: VertexInfo) -> Started {
        Started {
            datum: Datum::one(UNIT),
            message: Some(0),
        }
    }

    fn start_edge(&self, _e: EdgeInfo) -> u64 {
        0
    }

    fn gather_edges(&self) -> Dir {
        Dir::InEdges
    }

    fn scatter_edges(&self) -> Dir {
        Dir::OutEdges
    }

    fn keeps_deltas(&self) -> bool {
        true
    }

    fn wide(&self) -> bool {
        false
    }

    fn empty(&self, _alloc: Global) -> Result<u64, AllocError> {
        Ok(0)
    }

    fn copy(&self, _alloc: Global, a: &u64) -> Result<u64, AllocError> {
        Ok(*a)
    }

    fn gather<L: Ledger>(
        &self,
        _alloc: Global,
        near: Near,
        steps: &mut Steps<L>,
    ) -> Result<u64, AllocError> {
        steps.tick();
        Ok(near.other.first() / near.edge.src.out_degree as u64)
    }

    fn sum(&self, _alloc: Global, a: u64, b: &u64) -> Result<u64, AllocError> {
        Ok(a.wrapping_add(*b))
    }

    fn combine(&self, a: u64, b: u64) -> u64 {
        a.min(b)
    }

    fn apply(&self, v: VertexInfo, datum: Datum, acc: &u64, _message: u64) -> Applied<Change> {
        let old = datum.first();
        let new = rank(*acc);
        let out = v.out_degree;
        Applied {
            datum: Datum::one(new),
            again: None,
            carry: Change {
                share: share(new, out).wrapping_sub(share(old, out)),
                above: self.tolerance < new.abs_diff(old),
            },
        }
    }

    fn scatter(
        &self,
        _alloc: Global,
        near: Near,
        carry: Change,
    ) -> Result<Scattered<u64>, AllocError> {
        Ok(Scattered {
            edge: near.word,
            signal: if carry.above { Some(0) } else { None },
            delta: Delta::Add(carry.share),
        })
    }

    ghost lawful = { λ program. page_rank_lawful program.tolerance };
}
