//! Small graphs on a few workers.
ghost use Rattle.std.specs.Prelude.{◌≡◌, length, All, IfOk, IsSome, IsTrue};
ghost use Rattle.pg_cut.specs.Cut.{IsCutOf};

use crate::samples::{cut_by, graph_of};
use pg_base::{Gate, NoGate};
use pg_colour::Colour;
use pg_graph::Graph;
use pg_law::{Datum, End, State, Steps, VertexProgram};
use pg_paths::Components;
use pg_rank::PageRank;
use pg_sync::{SyncEnd, SyncEngine};
use std::alloc::{AllocError, Global};
use std::marker::Brand;
use std::process::Abort;
use std::sync::atomic::{AtomicBool, Ordering};
use std::sync::ledger::Ledger;
use std::test::Fail;
use std::thread::Threads;

/// So many counters, each of which stands at 0.
fn counters<L: Ledger>(alloc: Global, count: usize) -> Result<Vec<Option<Steps<L>>>, AllocError>
    ensures count { IfOk result (λ counters. length counters.items ≡ count) }
    ensures present { IfOk result (λ counters. All IsSome counters.items) }
{
    let mut counters = Vec::with_capacity(alloc, count)?;
    for worker in 0..count {
        counters.push(Some(Steps::new()))?;
    }
    Ok(counters)
}

/// What is run, and on what: edges with the worker of each.
#[derive(Clone, Copy)]
struct Case<'a> {
    edges: &'a [(u32, u32)],
    workers: u8,
    places: &'a [u8],
    cache: bool,
    limit: u32,
}

/// The end of the rounds of a case. All counters are there then.
fn end_of<R: Threads + Sync + Abort, P: VertexProgram, G: Gate>(
    rt: &R,
    alloc: Global,
    program: &P,
    graph: &Graph,
    case: Case<'_>,
    gate: &G,
) -> Result<SyncEnd, Fail>
    requires { IsTrue case.cache → IsTrue (P.meaning program.now).keeps_deltas }
{
    let cut = cut_by(rt, alloc, graph, case.workers, case.places)?;
    let state = State::start(alloc, program, graph)?;
    let mut steps = counters::<Brand>(alloc, cut.workers() as usize)?;
    let counting = steps.as_mut_slice();
    let end = SyncEngine::run(
        rt, alloc, program, graph, &cut, state, case.cache, case.limit, gate, counting,
    )?;
    for w in 0..steps.len() {
        assert!(rt; steps[w].is_some());
    }
    Ok(end)
}

/// Tests the numbers of a run.
fn assert_took(rt: &impl Abort, end: &SyncEnd, rounds: u32, executions: u64, gathers: u64) {
    assert_eq!(rt; end.rounds, rounds);
    assert_eq!(rt; end.executions, executions);
    assert_eq!(rt; end.gathers, gathers);
}

/// Tests the data of all vertices, of which only the first word is written.
fn assert_values(rt: &impl Abort, state: &State, values: &[u64]) {
    assert_eq!(rt; state.values.len(), values.len());
    for v in 0..values.len() {
        assert_eq!(rt; state.values[v], Datum::one(values[v]));
    }
}

const PATH: Case<'static> = Case {
    edges: &[(1, 2), (2, 3), (3, 4)],
    workers: 3,
    places: &[0, 1, 2],
    cache: false,
    limit: 10,
};

// The counters rise by 2, 3 and 5, as the law of the path of four says.
#[test]
fn a_path_on_three_workers_is_one_component(rt: HostRuntime) -> Result<(), Fail> {
    let alloc = rt.alloc();
    let graph = graph_of(&rt, alloc, PATH.edges)?;
    let end = end_of(&rt, alloc, &Components, &graph, PATH, &NoGate)?;
    assert_eq!(rt; end.end, End::Quiescent);
    assert_took(&rt, &end, 3, 7, 10);
    assert_values(&rt, &end.state, &[1, 1, 1, 1]);
    for v in 0..end.state.messages.len() {
        assert!(rt; end.state.messages[v].is_none(), "vertex {v}");
    }
    Ok(())
}

// Each vertex gathers at its first execution alone. The counters rise by 2 each, as the law of the
// cached path says.
#[test]
fn kept_gathers_spare_all_but_the_first(rt: HostRuntime) -> Result<(), Fail> {
    let alloc = rt.alloc();
    let graph = graph_of(&rt, alloc, PATH.edges)?;
    let case = Case {
        cache: true,
        ..PATH
    };
    let end = end_of(&rt, alloc, &Components, &graph, case, &NoGate)?;
    assert_eq!(rt; end.end, End::Quiescent);
    assert_took(&rt, &end, 3, 7, 6);
    assert_values(&rt, &end.state, &[1, 1, 1, 1]);
    for v in 0..end.state.messages.len() {
        assert!(rt; end.state.messages[v].is_none(), "vertex {v}");
    }
    Ok(())
}

/// Three vertices that lead to each other in a circle, and one edge across.
const CIRCLE: Case<'static> = Case {
    edges: &[(1, 2), (1, 3), (2, 3), (3, 1)],
    workers: 2,
    places: &[0, 1, 0, 1],
    cache: false,
    limit: 100,
};

/// Ranks a case to the end, of which the number of gathers is known.
fn assert_ranks<R: Threads + Sync + Abort>(
    rt: &R,
    alloc: Global,
    case: Case<'_>,
    gathers: u64,
) -> Result<(), Fail> {
    let graph = graph_of(rt, alloc, case.edges)?;
    let end = end_of(rt, alloc, &PageRank::new(0), &graph, case, &NoGate)?;
    assert_eq!(rt; end.end, End::Quiescent);
    assert_took(rt, &end, 46, 125, gathers);
    assert_values(rt, &end.state, &[1163369132, 644431881, 1192198979]);
    Ok(())
}

#[test]
fn ranks_are_gathered_at_each_execution(rt: HostRuntime) -> Result<(), Fail> {
    assert_ranks(&rt, rt.alloc(), CIRCLE, 171)
}

#[test]
fn kept_ranks_are_gathered_once(rt: HostRuntime) -> Result<(), Fail> {
    let case = Case {
        cache: true,
        ..CIRCLE
    };
    assert_ranks(&rt, rt.alloc(), case, 4)
}

/// Two workers that wait for each other, each for a thousand million turns at most.
#[derive(Drop)]
struct Meeting {
    first: AtomicBool,
    second: AtomicBool,
    first_met: AtomicBool,
    second_met: AtomicBool,
}

/// A worker tells that it is here, and waits for the other one.
fn meet(own: &AtomicBool, other: &AtomicBool, met: &AtomicBool) {
    own.store(true, Ordering::SeqCst);
    for _ in 0..1_000_000_000u32 {
        if other.load(Ordering::SeqCst) {
            met.store(true, Ordering::SeqCst);
            return;
        }
    }
}

impl Gate for Meeting {
    fn pass(&self, who: u32) {
        if who == 0 {
            meet(&self.first, &self.second, &self.first_met);
        } else {
            meet(&self.second, &self.first, &self.second_met);
        }
    }
}

// Neither goes on without the other, so both are at work at once.
fn assert_meet<R: Threads + Sync + Abort>(rt: &R, alloc: Global, cache: bool) -> Result<(), Fail> {
    let case = Case {
        edges: &[(1, 2), (3, 4)],
        workers: 2,
        places: &[0, 1],
        cache,
        limit: 10,
    };
    let gate = Meeting {
        first: AtomicBool::new(false),
        second: AtomicBool::new(false),
        first_met: AtomicBool::new(false),
        second_met: AtomicBool::new(false),
    };
    let graph = graph_of(rt, alloc, case.edges)?;
    let end = end_of(rt, alloc, &Components, &graph, case, &gate)?;
    assert!(rt; gate.first_met.load(Ordering::SeqCst));
    assert!(rt; gate.second_met.load(Ordering::SeqCst));
    assert_eq!(rt; end.end, End::Quiescent);
    assert_took(rt, &end, 1, 4, 4);
    assert_values(rt, &end.state, &[1, 1, 3, 3]);
    Ok(())
}

#[test]
fn two_workers_gather_at_once(rt: HostRuntime) -> Result<(), Fail> {
    assert_meet(&rt, rt.alloc(), false)
}

#[test]
fn two_workers_gather_at_once_where_gathers_are_kept(rt: HostRuntime) -> Result<(), Fail> {
    assert_meet(&rt, rt.alloc(), true)
}

// Both ends change their colours at once, round after round. The second worker has no edge.
#[test]
fn two_ends_never_agree_on_their_colours(rt: HostRuntime) -> Result<(), Fail> {
    let alloc = rt.alloc();
    let case = Case {
        edges: &[(1, 2)],
        workers: 2,
        places: &[0],
        cache: false,
        limit: 3,
    };
    let graph = graph_of(&rt, alloc, case.edges)?;
    let end = end_of(&rt, alloc, &Colour, &graph, case, &NoGate)?;
    assert_eq!(rt; end.end, End::Spent);
    assert_took(&rt, &end, 3, 6, 6);
    assert_values(&rt, &end.state, &[1, 1]);
    for v in 0..end.state.messages.len() {
        assert!(rt; end.state.messages[v].is_some(), "vertex {v}");
    }
    Ok(())
}
