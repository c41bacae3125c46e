//! Rounds of a small program whose edge words matter.
ghost use Rattle.std.specs.Prelude.{◌≡◌, max};

use crate::samples::graph_of;
use pg_graph::{Dir, EdgeInfo, Graph, VertexInfo};
use pg_law::{Applied, Datum, Delta, End, Near, Scattered, Started, State, Steps, VertexProgram};
use pg_rounds::{plain_round, run_rounds};
use std::alloc::{AllocError, Global};
use std::marker::Brand;
use std::process::Abort;
use std::sync::ledger::Ledger;
use std::test::Fail;

/// Every vertex takes the greatest id that it hears of.
///
/// An edge keeps the last label that went over it.
struct Rising;

fn greater(a: u64, b: u64) -> u64
    ensures { result ≡ max a b }
{
    if a < b { b } else { a }
}

impl VertexProgram for Rising {
    ghost use Rattle.pg_tests.specs.Rising.{rising};
    ghost use Rattle.pg_tests.specs.RisingLaws.{rising_lawful};

    type Acc = u64;

    type Carry = u64;

    ghost meaning = { λ _. rising };

    fn start(&self, v: VertexInfo) -> Started {
        Started {
            datum: Datum::one(v.id as u64),
            message: Some(v.id as u64),
        }
    }

    fn start_edge(&self, _e: EdgeInfo) -> u64 {
        0
    }

    fn gather_edges(&self) -> Dir {
        Dir::AllEdges
    }

    fn scatter_edges(&self) -> Dir {
        Dir::AllEdges
    }

    fn keeps_deltas(&self) -> bool {
        false
    }

    fn wide(&self) -> bool {
        false
    }

    fn empty(&self, _alloc: Global) -> Result<u64, AllocError> {
        Ok(0)
    }

    fn copy(&self, _alloc: Global, a: &u64) -> Result<u64, AllocError> {
        Ok(*a)
    }

    fn gather<L: Ledger>(
        &self,
        _alloc: Global,
        near: Near,
        steps: &mut Steps<L>,
    ) -> Result<u64, AllocError> {
        steps.tick();
        Ok(near.other.first())
    }

    fn sum(&self, _alloc: Global, a: u64, b: &u64) -> Result<u64, AllocError> {
        Ok(greater(a, *b))
    }

    fn combine(&self, a: u64, b: u64) -> u64 {
        greater(a, b)
    }

    fn apply(&self, _v: VertexInfo, datum: Datum, acc: &u64, message: u64) -> Applied<u64> {
        let label = greater(datum.first(), greater(*acc, message));
        Applied {
            datum: Datum::one(label),
            again: None,
            carry: label,
        }
    }

    fn scatter(
        &self,
        _alloc: Global,
        near: Near,
        label: u64,
    ) -> Result<Scattered<u64>, AllocError> {
        Ok(Scattered {
            edge: label,
            signal: if near.word < label { Some(label) } else { None },
            delta: Delta::Clear,
        })
    }

    ghost lawful = { λ _. rising_lawful };
}

/// The ids 1 to 4, with two parallel edges.
const EDGES: [(u32, u32); 4] = [(1, 2), (2, 3), (2, 3), (4, 3)];

/// What a run took, and how it ended.
#[derive(Clone, Copy)]
struct Took {
    rounds: u32,
    executions: u64,
    gathers: u64,
    end: End,
}

/// A run of at most so many rounds takes so much, and leaves these labels and words.
fn leaves(
    rt: &impl Abort,
    alloc: Global,
    limit: u32,
    took: Took,
    labels: &[u64],
    words: &[u64],
) -> Result<(), Fail> {
    let graph = graph_of(rt, alloc, EDGES.as_slice())?;
    let mut state = State::start(alloc, &Rising, &graph)?;
    let mut steps = Steps::<Brand>::new();
    let ended = run_rounds(alloc, &Rising, &graph, &mut state, limit, &mut steps)?;
    assert_eq!(rt; ended.rounds, took.rounds, "limit {limit}");
    assert_eq!(rt; ended.executions, took.executions, "limit {limit}");
    assert_eq!(rt; ended.gathers, took.gathers, "limit {limit}");
    assert_eq!(rt; ended.end, took.end, "limit {limit}");
    assert_eq!(rt; state.values.len(), labels.len(), "limit {limit}");
    for v in 0..labels.len() {
        assert_eq!(rt; state.values[v], Datum::one(labels[v]), "limit {limit}");
    }
    let left = state.edges.to_vec(alloc)?;
    assert_eq!(rt; left.as_slice(), words, "limit {limit}");
    Ok(())
}

const NONE: Took = Took {
    rounds: 0,
    executions: 0,
    gathers: 0,
    end: End::Spent,
};

const ONE: Took = Took {
    rounds: 1,
    executions: 4,
    gathers: 8,
    end: End::Spent,
};

const TWO: Took = Took {
    rounds: 2,
    executions: 7,
    gathers: 15,
    end: End::Spent,
};

const ALL: Took = Took {
    rounds: 3,
    executions: 8,
    gathers: 16,
    end: End::Quiescent,
};

// Two edges join vertices that execute both, two are parallel, and 3 is signalled from both sides.
#[test]
fn rounds_are_those_that_were_counted_by_hand(rt: HostRuntime) -> Result<(), Fail> {
    let alloc = rt.alloc();
    leaves(&rt, alloc, 0, NONE, &[1, 2, 3, 4], &[0, 0, 0, 0])?;
    leaves(&rt, alloc, 1, ONE, &[2, 3, 4, 4], &[3, 4, 4, 4])?;
    leaves(&rt, alloc, 2, TWO, &[3, 4, 4, 4], &[4, 4, 4, 4])?;
    leaves(&rt, alloc, 3, ALL, &[4, 4, 4, 4], &[4, 4, 4, 4])?;
    leaves(&rt, alloc, 9, ALL, &[4, 4, 4, 4], &[4, 4, 4, 4])
}

/// The state after so many plain rounds.
fn after_plain_rounds(alloc: Global, graph: &Graph, rounds: u32) -> Result<State, AllocError> {
    let mut state = State::start(alloc, &Rising, graph)?;
    let mut steps = Steps::<Brand>::new();
    for _round in 0..rounds {
        state = plain_round(alloc, &Rising, graph, &state, &mut steps)?.state;
    }
    Ok(state)
}

#[test]
fn plain_rounds_agree(rt: HostRuntime) -> Result<(), Fail> {
    let alloc = rt.alloc();
    let graph = graph_of(&rt, alloc, EDGES.as_slice())?;
    for limit in 0..4 {
        let plain = after_plain_rounds(alloc, &graph, limit)?;
        let mut state = State::start(alloc, &Rising, &graph)?;
        let mut steps = Steps::<Brand>::new();
        run_rounds(alloc, &Rising, &graph, &mut state, limit, &mut steps)?;
        assert_eq!(rt;
            state.values.as_slice(),
            plain.values.as_slice(),
            "limit {limit}"
        );
        assert_eq!(rt;
            state.edges.to_vec(alloc)?.as_slice(),
            plain.edges.to_vec(alloc)?.as_slice(),
            "limit {limit}"
        );
        assert_eq!(rt;
            state.messages.as_slice(),
            plain.messages.as_slice(),
            "limit {limit}"
        );
    }
    Ok(())
}
