//! The two halves of a round.
ghost use Rattle.std.specs.Prelude.{◌≡◌, ◌≢◌, ◌<◌, ◌↔◌, [], length, map, filter, is_some, sum_by, All, AllPairs, IfOk, OnOk, IsSome, IsTrue};
ghost use Rattle.pg_graph.specs.Multigraph.{vertices};
ghost use Rattle.pg_law.specs.Configuration.{Configuration, message_in};
ghost use Rattle.pg_law.specs.Round.{fresh, round};
ghost use Rattle.pg_cut.specs.Cut.{IsCutOf};
ghost use Rattle.pg_apply_scatter.specs.Delivering.{AreCellsOf};
ghost use Rattle.pg_apply_scatter.specs.Halves.{applied_round};
ghost use Rattle.pg_sync.specs.Kept.{unkept, gather_degree, gather_degree_on};
ghost use Rattle.pg_sync.specs.Cells.{keeps, AreGathered, AreTold};
ghost use Rattle.pg_sync.specs.Held.{IsHeld, IsShared, IsSharing, IsKept, IsKeeping};
ghost use Rattle.pg_sync.specs.Applying.{IsApplying};
ghost use Rattle.pg_sync.specs.Counting.{counters_of, AreRaised};

use crate::cells::{apply_cells, fill_all, settle_all};
use crate::collect::{sent_of, sums_of};
use crate::degree::gathers_of;
use crate::masters::{Masters, data_of_applied};
use crate::phases::{gather_phase, push_phase, scatter_phase, threads_for};
use crate::worker::{Scattering, Seat};
use pg_apply_scatter::{apply_masters, deliver};
use pg_base::Gate;
use pg_cut::Cut;
use pg_delta::CacheCell;
use pg_gather::merge_at_masters;
use pg_graph::Graph;
use pg_law::{Applied, Datum, VertexProgram, laws_of};
use pg_mirrors::MirrorTable;
use std::alloc::{AllocError, Global};
use std::sync::ledger::Ledger;
use std::thread::Threads;

/// The gathers of the wanted vertices: the workers sum over their own edges, and the masters merge.
fn gather_part<R: Threads + Sync, P: VertexProgram, G: Gate, L: Ledger + Send>(
    rt: &R,
    alloc: Global,
    program: &P,
    graph: &Graph,
    _cut: &Cut,
    seats: &mut [Seat<P::Acc, L>],
    workers: &[Scattering<P::Acc>],
    mirrors: &[MirrorTable],
    wanted: &[u32],
    gate: &G,
) -> Result<Vec<(u32, P::Acc)>, AllocError>
    requires cut { IsCutOf graph.now _cut.now }
    requires shared { IsSharing (P.meaning program.now) graph.now _cut.now workers.now mirrors.now }
    requires apart { AllPairs (λ a b. a ≢ b) wanted.now }
    requires seats { length seats.old ≡ _cut.now.workers }
    requires steps { All (λ seat. IsSome seat.0) seats.old }
    ensures sums { let p = P.meaning program.now in IfOk result (λ sums. (s : Configuration) →
        IsShared p graph.now _cut.now s workers.now mirrors.now →
        sums.items ≡ map (λ u. (u, fresh p graph.now s u)) wanted.now) }
    ensures counted { let p = P.meaning program.now in OnOk result
        (AreRaised (λ w. sum_by (gather_degree_on p graph.now _cut.now w) wanted.now)
        _cut.now.workers (counters_of seats.old) (counters_of seats.new)) }
    ensures present { All (λ seat. IsSome seat.0) seats.new }
{
    laws_of(program);
    let _ = graph.vertices();
    gather_phase(
        rt, alloc, program, graph, seats, workers, mirrors, wanted, gate,
    );
    let parts = sums_of(alloc, seats)?;
    merge_at_masters(alloc, program, wanted, parts)
}

/// The signalled vertices gather, all of them, and apply. The number is that of the gathers.
fn apply_fresh<R: Threads + Sync, P: VertexProgram, G: Gate, L: Ledger + Send>(
    rt: &R,
    alloc: Global,
    program: &P,
    graph: &Graph,
    cut: &Cut,
    seats: &mut [Seat<P::Acc, L>],
    workers: &[Scattering<P::Acc>],
    mirrors: &[MirrorTable],
    values: &[Datum],
    messages: &[Option<u64>],
    listed: &[u32],
    gate: &G,
) -> Result<(Vec<(u32, Applied<P::Carry>)>, u64), AllocError>
    requires cut { IsCutOf graph.now cut.now }
    requires kept { IsKeeping (P.meaning program.now) graph.now cut.now workers.now mirrors.now
        values.now messages.now [] }
    requires listed { listed.now ≡
        filter (λ v. is_some (message_in messages.now v)) (vertices graph.now) }
    requires seats { length seats.old ≡ cut.now.workers }
    requires steps { All (λ seat. IsSome seat.0) seats.old }
    ensures applied { let p = P.meaning program.now in IfOk result (λ done. (s : Configuration) →
        IsKept p graph.now cut.now s workers.now mirrors.now values.now messages.now [] →
        done.0.items ≡ applied_round p graph.now s) }
    ensures gathers { let p = P.meaning program.now in IfOk result (λ done. (s : Configuration) →
        IsKept p graph.now cut.now s workers.now mirrors.now values.now messages.now [] →
        done.1 ≡ sum_by (gather_degree p graph.now) (unkept graph.now (keeps p []) s)) }
    ensures counted { let p = P.meaning program.now in OnOk result ((s : Configuration) →
        IsKept p graph.now cut.now s workers.now mirrors.now values.now messages.now [] →
        AreRaised (λ w. sum_by (gather_degree_on p graph.now cut.now w)
        (unkept graph.now (keeps p []) s))
        cut.now.workers (counters_of seats.old) (counters_of seats.new)) }
    ensures present { All (λ seat. IsSome seat.0) seats.new }
{
    laws_of(program);
    let _ = graph.vertices();
    let sums = gather_part(
        rt, alloc, program, graph, cut, seats, workers, mirrors, listed, gate,
    )?;
    let applied = apply_masters(alloc, program, graph, values, messages, sums.as_slice())?;
    Ok((applied, gathers_of(program, graph, listed)))
}

/// The signalled vertices whose gather isn't kept gather, and all of them apply by their cells. The
/// number is that of the gathers.
fn apply_kept<R: Threads + Sync, P: VertexProgram, G: Gate, L: Ledger + Send>(
    rt: &R,
    alloc: Global,
    program: &P,
    graph: &Graph,
    cut: &Cut,
    seats: &mut [Seat<P::Acc, L>],
    workers: &[Scattering<P::Acc>],
    mirrors: &[MirrorTable],
    values: &[Datum],
    messages: &[Option<u64>],
    cells: &mut [CacheCell<P::Acc>],
    listed: &[u32],
    gate: &G,
) -> Result<(Vec<(u32, Applied<P::Carry>)>, u64), AllocError>
    requires cut { IsCutOf graph.now cut.now }
    requires kept { IsKeeping (P.meaning program.now) graph.now cut.now workers.now mirrors.now
        values.now messages.now cells.old }
    requires some { 0 < length cells.old }
    requires listed { listed.now ≡
        filter (λ v. is_some (message_in messages.now v)) (vertices graph.now) }
    requires seats { length seats.old ≡ cut.now.workers }
    requires steps { All (λ seat. IsSome seat.0) seats.old }
    ensures applied { let p = P.meaning program.now in IfOk result (λ done. (s : Configuration) →
        IsKept p graph.now cut.now s workers.now mirrors.now values.now messages.now cells.old →
        done.0.items ≡ applied_round p graph.now s) }
    ensures gathers { let p = P.meaning program.now in IfOk result (λ done. (s : Configuration) →
        IsKept p graph.now cut.now s workers.now mirrors.now values.now messages.now cells.old →
        done.1 ≡ sum_by (gather_degree p graph.now) (unkept graph.now (keeps p cells.old) s)) }
    ensures caches { let p = P.meaning program.now in OnOk result ((s : Configuration) →
        IsKept p graph.now cut.now s workers.now mirrors.now values.now messages.now cells.old →
        AreGathered p graph.now s cells.old cells.new) }
    ensures counted { let p = P.meaning program.now in OnOk result ((s : Configuration) →
        IsKept p graph.now cut.now s workers.now mirrors.now values.now messages.now cells.old →
        AreRaised (λ w. sum_by (gather_degree_on p graph.now cut.now w)
        (unkept graph.now (keeps p cells.old) s))
        cut.now.workers (counters_of seats.old) (counters_of seats.new)) }
    ensures present { All (λ seat. IsSome seat.0) seats.new }
{
    laws_of(program);
    let _ = graph.vertices();
    let unkept = settle_all(alloc, program, cells, listed)?;
    let wanted = unkept.as_slice();
    let sums = gather_part(
        rt, alloc, program, graph, cut, seats, workers, mirrors, wanted, gate,
    )?;
    fill_all(cells, sums);
    let applied = apply_cells(alloc, program, graph, values, messages, cells, listed)?;
    Ok((applied, gathers_of(program, graph, wanted)))
}

/// What the signalled vertices become, and how many gathers that takes. Where `cells` is empty, all
/// of them gather.
pub fn apply_part<R: Threads + Sync, P: VertexProgram, G: Gate, L: Ledger + Send>(
    rt: &R,
    alloc: Global,
    program: &P,
    graph: &Graph,
    cut: &Cut,
    seats: &mut [Seat<P::Acc, L>],
    workers: &[Scattering<P::Acc>],
    mirrors: &[MirrorTable],
    values: &[Datum],
    messages: &[Option<u64>],
    cells: &mut [CacheCell<P::Acc>],
    listed: &[u32],
    gate: &G,
) -> Result<(Vec<(u32, Applied<P::Carry>)>, u64), AllocError>
    requires cut { IsCutOf graph.now cut.now }
    requires kept { IsKeeping (P.meaning program.now) graph.now cut.now workers.now mirrors.now
        values.now messages.now cells.old }
    requires listed { listed.now ≡
        filter (λ v. is_some (message_in messages.now v)) (vertices graph.now) }
    requires seats { length seats.old ≡ cut.now.workers }
    requires steps { All (λ seat. IsSome seat.0) seats.old }
    ensures applied { let p = P.meaning program.now in IfOk result (λ done. (s : Configuration) →
        IsKept p graph.now cut.now s workers.now mirrors.now values.now messages.now cells.old →
        done.0.items ≡ applied_round p graph.now s) }
    ensures gathers { let p = P.meaning program.now in IfOk result (λ done. (s : Configuration) →
        IsKept p graph.now cut.now s workers.now mirrors.now values.now messages.now cells.old →
        done.1 ≡ sum_by (gather_degree p graph.now) (unkept graph.now (keeps p cells.old) s)) }
    ensures caches { let p = P.meaning program.now in OnOk result ((s : Configuration) →
        IsKept p graph.now cut.now s workers.now mirrors.now values.now messages.now cells.old →
        AreGathered p graph.now s cells.old cells.new) }
    ensures counted { let p = P.meaning program.now in OnOk result ((s : Configuration) →
        IsKept p graph.now cut.now s workers.now mirrors.now values.now messages.now cells.old →
        AreRaised (λ w. sum_by (gather_degree_on p graph.now cut.now w)
        (unkept graph.now (keeps p cells.old) s))
        cut.now.workers (counters_of seats.old) (counters_of seats.new)) }
    ensures present { All (λ seat. IsSome seat.0) seats.new }
{
    if cells.is_empty() {
        apply_fresh(
            rt, alloc, program, graph, cut, seats, workers, mirrors, values, messages, listed, gate,
        )
    } else {
        apply_kept(
            rt, alloc, program, graph, cut, seats, workers, mirrors, values, messages, cells,
            listed, gate,
        )
    }
}

/// Whether gathers are kept, so that somebody asks for deltas.
fn are_kept<A>(cells: &[CacheCell<A>]) -> bool
    ensures { IsTrue result ↔ (0 < length cells.now) }
{
    !cells.is_empty()
}

/// Those that applied are written and pushed, all workers scatter, and the masters receive: their
/// messages the signals, and their cells the deltas. Without cells no delta is listed.
pub fn scatter_part<R: Threads + Sync, P: VertexProgram>(
    rt: &R,
    alloc: Global,
    program: &P,
    graph: &Graph,
    _cut: &Cut,
    workers: &mut [Scattering<P::Acc>],
    mirrors: &mut [MirrorTable],
    masters: &mut Masters<P::Carry>,
    cells: &mut [CacheCell<P::Acc>],
    applied: &[(u32, Applied<P::Carry>)],
) -> Result<(), AllocError>
    requires cut { IsCutOf graph.now _cut.now }
    requires held { IsApplying (P.meaning program.now) graph.now _cut.now workers.old mirrors.old
        masters.old applied.now }
    requires carries { length masters.old.carries.items ≡ length graph.now.ids }
    requires cells { AreCellsOf (P.meaning program.now) cells.old }
    ensures held { let p = P.meaning program.now in OnOk result ((s : Configuration) →
        IsHeld p graph.now _cut.now s workers.old mirrors.old
        masters.old.values.items masters.old.messages.items →
        applied.now ≡ applied_round p graph.now s →
        IsHeld p graph.now _cut.now (round p graph.now s) workers.new mirrors.new
        masters.new.values.items masters.new.messages.items) }
    ensures caches { let p = P.meaning program.now in OnOk result ((s : Configuration) →
        IsHeld p graph.now _cut.now s workers.old mirrors.old
        masters.old.values.items masters.old.messages.items →
        applied.now ≡ applied_round p graph.now s → IsTrue p.keeps_deltas →
        AreTold p graph.now s cells.old cells.new) }
    ensures own { OnOk result (AreCellsOf (P.meaning program.now) cells.new) }
    ensures carries { OnOk result (length masters.new.carries.items ≡ length graph.now.ids) }
{
    laws_of(program);
    let _ = graph.vertices();
    masters.write(applied);
    let pairs = data_of_applied(alloc, applied)?;
    let threads = threads_for(workers.len(), applied.len());
    push_phase(rt, pairs.as_slice(), mirrors, threads);
    let with_deltas = are_kept(cells);
    scatter_phase(
        rt,
        alloc,
        program,
        graph,
        workers,
        mirrors,
        masters.carries.as_slice(),
        with_deltas,
        threads,
    );
    let lists = sent_of(alloc, workers)?;
    let messages = masters.messages.as_mut_slice();
    deliver(alloc, program, lists, messages, cells)
}
