//! The engine that makes rounds over a cut.
ghost use Rattle.std.specs.Prelude.{◌≡◌, length, All, IfOk, OnOk, IsSome, IsTrue};
ghost use Rattle.pg_law.specs.Configuration.{IsFit};
ghost use Rattle.pg_law.specs.Rounds.{rounds, end_of};
ghost use Rattle.pg_cut.specs.Cut.{IsCutOf};
ghost use Rattle.pg_sync.specs.Counting.{counters_of, gathers_of, AreCounted};
ghost use Rattle.pg_sync.specs.Going.{IsEndOf};

use crate::masters::Masters;
use crate::run::run_parts;
use crate::seats::{give_back, seats_of};
use crate::shares::{replicas_of, workers_of};
use crate::words::put_words;
use crate::worker::Seat;
use pg_base::Gate;
use pg_cut::Cut;
use pg_graph::Graph;
use pg_law::{End, State, Steps, VertexProgram};
use std::alloc::{AllocError, Global};
use std::sync::ledger::Ledger;
use std::thread::Threads;

/// What rounds left, and what they took.
#[derive(Drop)]
pub struct SyncEnd {
    pub state: State,
    pub rounds: u32,
    pub executions: u64,
    pub gathers: u64,
    pub end: End,
}

/// The state is shared out, rounds are made of the shares, and the state comes together again.
fn run_seated<R: Threads + Sync, P: VertexProgram, G: Gate, L: Ledger + Send>(
    rt: &R,
    alloc: Global,
    program: &P,
    graph: &Graph,
    cut: &Cut,
    state: State,
    cache: bool,
    limit: u32,
    gate: &G,
    seats: &mut [Seat<P::Acc, L>],
) -> Result<SyncEnd, AllocError>
    requires cut { IsCutOf graph.now cut.now }
    requires fit { IsFit (P.meaning program.now) graph.now state }
    requires deltas { IsTrue cache → IsTrue (P.meaning program.now).keeps_deltas }
    requires seats { length seats.old ≡ cut.now.workers }
    requires steps { All (λ seat. IsSome seat.0) seats.old }
    ensures end { IfOk result (IsEndOf (P.meaning program.now) graph.now cache state limit) }
    ensures counted { let p = P.meaning program.now in
        OnOk result (AreCounted p graph.now cut.now cache state limit
        (counters_of seats.old) (counters_of seats.new)) }
    ensures present { All (λ seat. IsSome seat.0) seats.new }
{
    let _ = graph.vertices();
    let mut words = state.edges;
    let mut workers = workers_of(rt, alloc, graph, cut, &words)?;
    let mut mirrors = replicas_of(rt, alloc, graph, cut, state.values.as_slice())?;
    let mut masters = Masters::of(alloc, state.values, state.messages)?;
    let parts = workers.as_mut_slice();
    let tables = mirrors.as_mut_slice();
    let ran = run_parts(
        rt,
        alloc,
        program,
        graph,
        cut,
        seats,
        parts,
        tables,
        &mut masters,
        cache,
        limit,
        gate,
    )?;
    put_words(graph, cut, workers.as_slice(), &mut words)?;
    Ok(SyncEnd {
        state: State {
            values: masters.values,
            edges: words,
            messages: masters.messages,
        },
        rounds: ran.rounds,
        executions: ran.executions,
        gathers: ran.gathers,
        end: ran.end,
    })
}

/// Rounds over a cut: a thread for each worker in each phase, and none where there is one worker.
pub struct SyncEngine;

impl SyncEngine {
    /// Rounds from a state until nothing is signalled, or so many.
    ///
    /// `steps[w]` is the counter of the worker `w`: it rises by one at each gather over an edge of
    /// its own. With a `cache` the masters keep a gather for each vertex, which deltas keep true,
    /// so that a vertex gathers only where none is kept for it; the program has to keep deltas.
    /// After `Err`, which is want of memory, all counters are there.
    pub fn run<R: Threads + Sync, P: VertexProgram, G: Gate, L: Ledger + Send>(
        rt: &R,
        alloc: Global,
        program: &P,
        graph: &Graph,
        cut: &Cut,
        state: State,
        cache: bool,
        limit: u32,
        gate: &G,
        steps: &mut [Option<Steps<L>>],
    ) -> Result<SyncEnd, AllocError>
        requires cut { IsCutOf graph.now cut.now }
        requires fit { IsFit (P.meaning program.now) graph.now state }
        requires deltas { IsTrue cache → IsTrue (P.meaning program.now).keeps_deltas }
        requires counters { length steps.old ≡ cut.now.workers }
        requires present { All IsSome steps.old }
        ensures state { let p = P.meaning program.now in
            IfOk result (λ end. end.state ≡ (rounds p graph.now state limit).state) }
        ensures rounds { let p = P.meaning program.now in
            IfOk result (λ end. end.rounds ≡ (rounds p graph.now state limit).rounds) }
        ensures executions { let p = P.meaning program.now in
            IfOk result (λ end. end.executions ≡ (rounds p graph.now state limit).executions) }
        ensures gathers { let p = P.meaning program.now in
            IfOk result (λ end. end.gathers ≡ gathers_of p graph.now cache state limit) }
        ensures end { let p = P.meaning program.now in
            IfOk result (λ end. end.end ≡ end_of graph.now (rounds p graph.now state limit).state) }
        ensures counted { let p = P.meaning program.now in
            OnOk result (AreCounted p graph.now cut.now cache state limit steps.old steps.new) }
        ensures present { All IsSome steps.new }
    {
        let mut seats = seats_of(alloc, steps)?;
        let seated = seats.as_mut_slice();
        let ended = run_seated(
            rt, alloc, program, graph, cut, state, cache, limit, gate, seated,
        );
        give_back(seats.as_mut_slice(), steps);
        ended
    }
}
