//! One round over the cut.
ghost use Rattle.std.specs.Prelude.{◌≡◌, ◌<◌, ℕ, length, filter, is_some, sum_by, All, IfOk, OnOk, IsSome};
ghost use Rattle.pg_graph.specs.Multigraph.{vertices};
ghost use Rattle.pg_law.specs.Configuration.{Configuration, message_in};
ghost use Rattle.pg_law.specs.Round.{round as round_of};
ghost use Rattle.pg_cut.specs.Cut.{IsCutOf};
ghost use Rattle.pg_sync.specs.Kept.{unkept, kept_after, gather_degree, gather_degree_on};
ghost use Rattle.pg_sync.specs.Cells.{keeps};
ghost use Rattle.pg_sync.specs.Held.{IsKept, IsKeeping};
ghost use Rattle.pg_sync.specs.Counting.{counters_of, AreRaised};

use crate::half::{apply_part, scatter_part};
use crate::masters::Masters;
use crate::worker::{Scattering, Seat};
use pg_base::Gate;
use pg_cut::Cut;
use pg_delta::{CacheCell, cells_stay_true};
use pg_graph::Graph;
use pg_law::{VertexProgram, laws_of};
use pg_mirrors::MirrorTable;
use std::alloc::{AllocError, Global};
use std::sync::ledger::Ledger;
use std::thread::Threads;

/// A round: the signalled vertices gather, apply and scatter, worker by worker. Answers how many
/// gathers were made.
///
/// Where there are cells, only the signalled vertices whose gather isn't kept gather. Whatever
/// state the workers, the masters and the cells hold before, they hold the one after the round, and
/// each counter rises by its worker's gathers. After `Err`, which is want of memory, they hold none,
/// and the counters are there.
pub fn one_round<R: Threads + Sync, P: VertexProgram, G: Gate, L: Ledger + Send>(
    rt: &R,
    alloc: Global,
    program: &P,
    graph: &Graph,
    cut: &Cut,
    seats: &mut [Seat<P::Acc, L>],
    workers: &mut [Scattering<P::Acc>],
    mirrors: &mut [MirrorTable],
    masters: &mut Masters<P::Carry>,
    cells: &mut [CacheCell<P::Acc>],
    listed: &[u32],
    gate: &G,
) -> Result<u64, AllocError>
    requires cut { IsCutOf graph.now cut.now }
    requires kept { IsKeeping (P.meaning program.now) graph.now cut.now workers.old mirrors.old
        masters.old.values.items masters.old.messages.items cells.old }
    requires listed { listed.now ≡
        filter (λ v. is_some (message_in masters.old.messages.items v)) (vertices graph.now) }
    requires carries { length masters.old.carries.items ≡ length graph.now.ids }
    requires seats { length seats.old ≡ cut.now.workers }
    requires steps { All (λ seat. IsSome seat.0) seats.old }
    ensures kept { let p = P.meaning program.now in OnOk result ((s : Configuration) →
        IsKept p graph.now cut.now s workers.old mirrors.old
        masters.old.values.items masters.old.messages.items cells.old →
        IsKept p graph.now cut.now (round_of p graph.now s) workers.new mirrors.new
        masters.new.values.items masters.new.messages.items cells.new) }
    ensures keeps { let p = P.meaning program.now in OnOk result ((s : Configuration) →
        IsKept p graph.now cut.now s workers.old mirrors.old
        masters.old.values.items masters.old.messages.items cells.old →
        0 < length cells.old → (v : ℕ) →
        keeps p cells.new v ≡ kept_after p graph.now (keeps p cells.old) s v) }
    ensures gathers { let p = P.meaning program.now in IfOk result (λ gathers. (s : Configuration) →
        IsKept p graph.now cut.now s workers.old mirrors.old
        masters.old.values.items masters.old.messages.items cells.old →
        gathers ≡ sum_by (gather_degree p graph.now) (unkept graph.now (keeps p cells.old) s)) }
    ensures counted { let p = P.meaning program.now in OnOk result ((s : Configuration) →
        IsKept p graph.now cut.now s workers.old mirrors.old
        masters.old.values.items masters.old.messages.items cells.old →
        AreRaised (λ w. sum_by (gather_degree_on p graph.now cut.now w)
        (unkept graph.now (keeps p cells.old) s))
        cut.now.workers (counters_of seats.old) (counters_of seats.new)) }
    ensures carries { OnOk result (length masters.new.carries.items ≡ length graph.now.ids) }
    ensures present { All (λ seat. IsSome seat.0) seats.new }
{
    laws_of(program);
    cells_stay_true(program);
    let _ = graph.vertices();
    let values = masters.values.as_slice();
    let messages = masters.messages.as_slice();
    let applied = apply_part(
        rt, alloc, program, graph, cut, seats, workers, mirrors, values, messages, cells, listed,
        gate,
    )?;
    let became = applied.0.as_slice();
    scatter_part(
        rt, alloc, program, graph, cut, workers, mirrors, masters, cells, became,
    )?;
    Ok(applied.1)
}
