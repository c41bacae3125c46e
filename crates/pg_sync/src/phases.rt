//! The phases in which the workers run side by side.
ghost use Rattle.std.specs.Prelude.{◌≡◌, ◌≢◌, ◌<◌, ◌≤◌, ℕ, length, slice_index_or, All, AllPairs, IsSome};
ghost use Rattle.pg_mirrors.specs.Mirrors.{Pushes};
ghost use Rattle.pg_law.specs.Carries.{AreCarries};
ghost use Rattle.pg_gather.specs.Partials.{IsReadable};
ghost use Rattle.pg_apply_scatter.specs.Pushing.{table_at, ArePushed};
ghost use Rattle.pg_sync.specs.declared.worker.Scattering.{Scattering};
ghost use Rattle.pg_sync.specs.Phases.{Seat as SeatOf, HasGathered, HasScattered, AreReadable};

use crate::worker::{Scattering, Seat, gather};
use pg_base::Gate;
use pg_graph::Graph;
use pg_law::{Datum, VertexProgram};
use pg_mirrors::MirrorTable;
use std::alloc::Global;
use std::sync::ledger::Ledger;
use std::thread;
use std::thread::Threads;

/// Every worker gathers for the wanted vertices, in a thread of its own. Each passes the gate once.
///
/// `seats[w]`, `scatterings[w]` and `mirrors[w]` are of the worker `w`.
pub fn gather_phase<R: Threads + Sync, P: VertexProgram, G: Gate, L: Ledger + Send>(
    rt: &R,
    alloc: Global,
    program: &P,
    graph: &Graph,
    seats: &mut [Seat<P::Acc, L>],
    scatterings: &[Scattering<P::Acc>],
    mirrors: &[MirrorTable],
    wanted: &[u32],
    gate: &G,
)
    requires steps { All (λ w. IsSome w.0) seats.old }
    requires few { length seats.old ≤ 64 }
    requires stores { length scatterings.now ≡ length seats.old }
    requires tables { length mirrors.now ≡ length seats.old }
    requires readable { AreReadable (P.meaning program.now) graph.now scatterings.now mirrors.now }
    ensures { let p = P.meaning program.now in
        (w : ℕ) (d : SeatOf P.Acc) (e : Scattering P.Acc) → w < length seats.old →
        HasGathered p graph.now (slice_index_or scatterings.now w e).store
        (table_at mirrors.now w) wanted.now
        (slice_index_or seats.old w d) (slice_index_or seats.new w d) }
{
    if !seats.is_empty() {
        let count = seats.len();
        thread::for_each_mut(
            rt,
            seats,
            count,
            &|w: usize, seat: &mut Seat<P::Acc, L>|
                requires { (w < 64) × (w < length mirrors.now) × (w < length scatterings.now) ×
                    (IsSome seat.now.0) ×
                    (AreReadable (P.meaning program.now) graph.now scatterings.now mirrors.now) }
                ensures { (e : Scattering P.Acc) →
                    HasGathered (P.meaning program.entry.now) graph.entry.now
                    (slice_index_or scatterings.entry.now w e).store
                    (table_at mirrors.entry.now w) wanted.entry.now
                    seat.entry.now seat.exit.now }
            {
                gate.pass(w as u32);
                gather(
                    alloc,
                    program,
                    graph,
                    &scatterings[w].store,
                    &mirrors[w],
                    wanted,
                    seat,
                );
            },
        );
    }
}

/// Every worker gives its own replicas the data of the listed vertices, which are distinct.
pub fn push_phase<R: Threads + Sync>(
    rt: &R,
    applied: &[(u32, Datum)],
    mirrors: &mut [MirrorTable],
    threads: usize,
)
    requires apart { AllPairs (λ a b. a.0 ≢ b.0) applied.now }
    requires threads { 0 < threads }
    ensures { ArePushed mirrors.old mirrors.new applied.now }
{
    thread::for_each_mut(
        rt,
        mirrors,
        threads,
        &|_, table: &mut MirrorTable|
            requires { AllPairs (λ a b. a.0 ≢ b.0) applied.now }
            ensures { Pushes table.entry.now table.exit.now applied.entry.now }
        {
            table.push(applied);
        },
    );
}

/// Every worker scatters for the vertices with a carry, in so many threads. What it sends is listed
/// with its deltas, or as signals alone that deliver the same.
pub fn scatter_phase<R: Threads + Sync, P: VertexProgram>(
    rt: &R,
    alloc: Global,
    program: &P,
    graph: &Graph,
    scatterings: &mut [Scattering<P::Acc>],
    mirrors: &[MirrorTable],
    carries: &[Option<P::Carry>],
    with_deltas: bool,
    threads: usize,
)
    requires threads { 0 < threads }
    requires tables { length mirrors.now ≡ length scatterings.old }
    requires readable { AreReadable (P.meaning program.now) graph.now scatterings.old mirrors.now }
    requires carries { AreCarries (P.meaning program.now) graph.now carries.now }
    ensures { let p = P.meaning program.now in
        (w : ℕ) (d : Scattering P.Acc) → w < length scatterings.old →
        HasScattered p graph.now (table_at mirrors.now w) carries.now with_deltas
        (slice_index_or scatterings.old w d) (slice_index_or scatterings.new w d) }
{
    thread::for_each_mut(
        rt,
        scatterings,
        threads,
        &|w: usize, one: &mut Scattering<P::Acc>|
            requires { (w < length mirrors.now) ×
                (IsReadable (P.meaning program.now) graph.now one.now.store
                (table_at mirrors.now w)) ×
                (AreCarries (P.meaning program.now) graph.now carries.now) }
            ensures { HasScattered (P.meaning program.entry.now) graph.entry.now
                (table_at mirrors.entry.now w) carries.entry.now with_deltas
                one.entry.now one.exit.now }
        {
            one.scatter(alloc, program, graph, &mirrors[w], carries, with_deltas);
        },
    );
}

/// How many vertices are worth a thread for each worker: to start one takes about as long as to
/// push or to scatter for so many.
const WORTH_THREADS: usize = 256;

/// In how many threads so many workers push and scatter for so many vertices: each worker in its
/// own, or one after another.
pub fn threads_for(workers: usize, vertices: usize) -> usize
    ensures { 0 < result }
{
    if vertices < WORTH_THREADS {
        1
    } else {
        workers.max(1)
    }
}
