//! Cells of a small program, with memory and without.
ghost use Rattle.std.specs.Prelude.{◌≡◌, min};
ghost use Rattle.pg_law.specs.Laws.{IsDelta, IsNear};
ghost use Rattle.pg_law.specs.Words.{IsU64};
ghost use Rattle.pg_delta.specs.Cell.{IsCell};
ghost use Rattle.pg_delta.specs.Least.{least};

use crate::CacheCell;
use pg_graph::{Dir, EdgeInfo, Side, VertexInfo};
use pg_law::{Applied, Datum, Delta, Near, Scattered, Started, Steps, VertexProgram};
use std::alloc::{AllocError, Global};
use std::marker::Brand;
use std::process::Abort;
use std::sync::ledger::Ledger;
use std::test::Fail;

/// A vertex gathers the least of its neighbours' words. Where `memory` is not there, no sum is made.
#[derive(Drop)]
struct Least {
    memory: bool,
}

fn less(a: u64, b: u64) -> u64
    ensures { result ≡ min a b }
{
    if a < b { a } else { b }
}

impl VertexProgram for Least {
    ghost use Rattle.pg_delta.specs.Least.{least};
    ghost use Rattle.pg_delta.specs.LeastLaws.{least_lawful};

    type Acc = u64;

    type Carry = u64;

    ghost meaning = { λ _. least };

    fn start(&self, v: VertexInfo) -> Started {
        Started {
            datum: Datum::one(v.id as u64),
            message: None,
        }
    }

    fn start_edge(&self, _e: EdgeInfo) -> u64 {
        0
    }

    fn gather_edges(&self) -> Dir {
        Dir::AllEdges
    }

    fn scatter_edges(&self) -> Dir {
        Dir::AllEdges
    }

    fn keeps_deltas(&self) -> bool {
        true
    }

    fn wide(&self) -> bool {
        false
    }

    fn empty(&self, _alloc: Global) -> Result<u64, AllocError> {
        Ok(u64::MAX)
    }

    fn copy(&self, _alloc: Global, a: &u64) -> Result<u64, AllocError> {
        Ok(*a)
    }

    fn gather<L: Ledger>(
        &self,
        _alloc: Global,
        near: Near,
        steps: &mut Steps<L>,
    ) -> Result<u64, AllocError> {
        steps.tick();
        Ok(near.other.first())
    }

    fn sum(&self, _alloc: Global, a: u64, b: &u64) -> Result<u64, AllocError> {
        if self.memory {
            Ok(less(a, *b))
        } else {
            Err(AllocError)
        }
    }

    fn combine(&self, a: u64, b: u64) -> u64 {
        less(a, b)
    }

    fn apply(&self, _v: VertexInfo, _datum: Datum, acc: &u64, _message: u64) -> Applied<u64> {
        Applied {
            datum: Datum::one(*acc),
            again: None,
            carry: *acc,
        }
    }

    fn scatter(
        &self,
        _alloc: Global,
        near: Near,
        _carry: u64,
    ) -> Result<Scattered<u64>, AllocError> {
        Ok(Scattered {
            edge: near.word,
            signal: None,
            delta: Delta::Clear,
        })
    }

    ghost lawful = { λ _. least_lawful };
}

/// A neighbour with this word.
fn neighbour(word: u64) -> Near
    ensures { IsNear least result }
{
    Near {
        side: Side::Source,
        edge: EdgeInfo {
            src: one_edge(1),
            dst: one_edge(2),
            weight: 1,
        },
        word: 0,
        centre: Datum::one(9),
        other: Datum::one(word),
    }
}

/// A vertex with an edge in and an edge out.
fn one_edge(id: u32) -> VertexInfo
    ensures id { result.id ≡ id }
    ensures degrees { result.in_degree ≡ 1 }
    ensures out { result.out_degree ≡ 1 }
{
    VertexInfo {
        id,
        in_degree: 1,
        out_degree: 1,
    }
}

/// A cell that was filled with a word.
fn filled(word: u64) -> CacheCell<u64>
    ensures { IsCell least result }
{
    let mut cell = CacheCell::new();
    cell.fill(word);
    cell
}

/// An added word, or a clearing.
fn delta_of(delta: Option<u64>) -> Delta<u64>
    ensures { IsDelta IsU64 result }
{
    match delta {
        None => Delta::Clear,
        Some(word) => Delta::Add(word),
    }
}

const AMPLE: Least = Least { memory: true };

#[test]
fn what_is_posted_is_settled(rt: HostRuntime) -> Result<(), Fail> {
    let alloc = rt.alloc();
    let rows = [
        (Some(3), Some(8), Some(3)),
        (Some(8), Some(4), Some(4)),
        (Some(9), Some(8), Some(5)),
        (None, Some(3), None),
        (Some(3), None, None),
        (None, None, None),
    ];
    for (first, second, acc) in rows {
        let mut cell = filled(5);
        cell.post(alloc, &AMPLE, delta_of(first))?;
        cell.post(alloc, &AMPLE, delta_of(second))?;
        let there = cell.settle(alloc, &AMPLE)?;
        assert_eq!(rt; there, acc.is_some(), "{first:?}, {second:?}");
        assert_eq!(rt; cell.acc, acc, "{first:?}, {second:?}");
        assert!(rt;
            matches!(&cell.pending, Delta::Nothing),
            "{first:?}, {second:?}"
        );
    }
    Ok(())
}

#[test]
fn a_delta_is_posted_and_summed_in(rt: HostRuntime) -> Result<(), Fail> {
    let alloc = rt.alloc();
    let mut cell = filled(5);
    cell.post(alloc, &AMPLE, Delta::Add(3))?;
    assert!(rt; cell.settle(alloc, &AMPLE)?);
    assert_eq!(rt; cell.acc, Some(3));
    cell.post(alloc, &AMPLE, Delta::Nothing)?;
    assert!(rt; cell.settle(alloc, &AMPLE)?);
    assert_eq!(rt; cell.acc, Some(3));
    Ok(())
}

// A cell of a gather is lent as it is, and has no need of a neighbour.
#[test]
fn a_cleared_cell_gathers_anew(rt: HostRuntime) -> Result<(), Fail> {
    let alloc = rt.alloc();
    let mut steps = Steps::<Brand>::new();
    let mut cell = filled(5);
    cell.post(alloc, &AMPLE, Delta::Clear)?;
    assert!(rt; !cell.settle(alloc, &AMPLE)?);
    let near = [neighbour(4)];
    let gathered = *cell.use_or_gather(alloc, &AMPLE, near.as_slice(), &mut steps)?;
    assert_eq!(rt; gathered, 4);
    let mut kept = filled(5);
    kept.post(alloc, &AMPLE, Delta::Add(3))?;
    let lent = *kept.use_or_gather(alloc, &AMPLE, &[], &mut steps)?;
    assert_eq!(rt; lent, 3);
    Ok(())
}

#[test]
fn a_cell_of_nothing_takes_no_delta(rt: HostRuntime) -> Result<(), Fail> {
    let alloc = rt.alloc();
    let mut cell = CacheCell::new();
    cell.post(alloc, &AMPLE, Delta::Add(3))?;
    assert!(rt; matches!(&cell.pending, Delta::Nothing));
    assert!(rt; !cell.settle(alloc, &AMPLE)?);
    assert_eq!(rt; cell.acc, None);
    Ok(())
}

#[test]
fn want_of_memory_clears_a_cell(rt: HostRuntime) -> Result<(), Fail> {
    let alloc = rt.alloc();
    let scarce = Least { memory: false };
    let mut cell = filled(5);
    cell.post(alloc, &scarce, Delta::Add(3))?;
    assert!(rt; cell.post(alloc, &scarce, Delta::Add(2)).is_err());
    assert_eq!(rt; cell.acc, None);
    cell.fill(5);
    cell.post(alloc, &scarce, Delta::Add(3))?;
    assert!(rt; cell.settle(alloc, &scarce).is_err());
    assert_eq!(rt; cell.acc, None);
    assert!(rt; matches!(&cell.pending, Delta::Nothing));
    Ok(())
}
